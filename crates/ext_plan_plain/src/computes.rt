//! Steps that compute.
ghost use Rattle.std.specs.Prelude.{◌≡◌, Some};
ghost use Rattle.ext_model.specs.declared.slot.Slot.TheVariants as slot;
ghost use Rattle.ext_model.specs.declared.look.Look.TheVariants as look;
ghost use Rattle.ext_model.specs.Plain.{any_lane};
ghost use Rattle.ext_plan_plain.specs.StepRuns.{compute_by, compute_numbered, computefail_by, computefail_numbered};
ghost use Rattle.ext_plan.specs.StepCalls.{call_view};
ghost use Rattle.ext_plan.specs.Values.{value_view};
ghost use Rattle.ext_plan_plain.specs.InnerSteps.{answer_end, memory_of, place_of_call, state_view, Fails, Gives};

use crate::lack::Lack;
use crate::said::say_refused;
use crate::value_store::ValueStore;
use ext_lifecycle::{Outcome, Verdict};
use ext_model::{KeyNo, Look};
use ext_plan::{PlanValue, Reason, StepCall};
use std::alloc::Global;

impl<'a> ValueStore<'a> {
    /// Runs a step `compute` or `compute!` whose key has this number: looks up along the path, and
    /// computes if nothing is found. A kept fault fails the step.
    pub(crate) fn compute(
        &mut self,
        alloc: Global,
        call: &StepCall<'_>,
        key: KeyNo,
        value: PlanValue<'a>,
    ) -> Result<Outcome, Lack>
        ensures { answer_end (state_view self.new) result ≡ compute_numbered (memory_of result) (call_view call.now).name (call_view call.now).label
            (call_view call.now).path (value_view value.entry) key (state_view self.old) }
    {
        match self.look(call.path, key) {
            Look::Found { .. } => Ok(Outcome {
                verdict: Verdict::Successful,
                computed: 0,
                found: 1,
            }),
            Look::Fault { number, .. } => self.fault_met(alloc, call, number),
            Look::Absent => self.compute_absent(alloc, call, key, value),
            Look::Busy(_) => say_refused(alloc, call, Reason::Busy),
            Look::Closed(_) => say_refused(alloc, call, Reason::Closed),
        }
    }

    /// After a look-up that found nothing: claims the place, and fills it with the value of the
    /// factory.
    fn compute_absent(
        &mut self,
        alloc: Global,
        call: &StepCall<'_>,
        key: KeyNo,
        value: PlanValue<'a>,
    ) -> Result<Outcome, Lack>
        ensures { answer_end (state_view self.new) result ≡ compute_by (memory_of result) (call_view call.now).name (call_view call.now).label (place_of_call call.now key)
            (value_view value.entry) (state_view self.old) look.Absent }
    {
        match self.claim(call.at(), key)? {
            Some(why) => say_refused(alloc, call, why),
            None => self.fill_claim(alloc, call, key, value),
        }
    }

    /// Keeps the value of the factory and stores it in the claimed place. If no number or no memory
    /// is left, the claim is abandoned.
    fn fill_claim(
        &mut self,
        alloc: Global,
        call: &StepCall<'_>,
        key: KeyNo,
        value: PlanValue<'a>,
    ) -> Result<Outcome, Lack>
        requires { (state_view self.old).store.slots (place_of_call call.now key) ≡ Some (slot.Claim any_lane) }
        ensures { Gives (call_view call.now).name (call_view call.now).label (place_of_call call.now key) (value_view value.entry) (state_view self.old) (state_view self.new) result }
    {
        match self.keep(value) {
            Ok(Ok(number)) => {
                self.fill(call.at(), key, number);
                Ok(Outcome {
                    verdict: Verdict::Successful,
                    computed: 1,
                    found: 0,
                })
            }
            Ok(Err(why)) => {
                self.abandon(call.at(), key);
                say_refused(alloc, call, why)
            }
            Err(lack) => {
                self.abandon(call.at(), key);
                Err(lack)
            }
        }
    }

    /// Runs a step `computefail` whose key has this number: looks up along the path. If nothing is
    /// found, the place is claimed and the factory fails with this text. Its fault then stands in
    /// the place if the store keeps faults; otherwise it comes back and the claim is abandoned. The
    /// step passes in both cases, and if it meets a kept fault with the same text.
    pub(crate) fn computefail(
        &mut self,
        alloc: Global,
        call: &StepCall<'_>,
        key: KeyNo,
        text: &'a str,
    ) -> Result<Outcome, Lack>
        ensures { answer_end (state_view self.new) result ≡ computefail_numbered (memory_of result) (call_view call.now).name (call_view call.now).label
            (call_view call.now).path text.now key (state_view self.old) }
    {
        match self.look(call.path, key) {
            Look::Found { number, .. } => self.fail_found(alloc, call, number),
            Look::Fault { number, .. } => self.fault_met_failing(alloc, call, text, number),
            Look::Absent => self.fail_claimed(alloc, call, key, text),
            Look::Busy(_) => say_refused(alloc, call, Reason::Busy),
            Look::Closed(_) => say_refused(alloc, call, Reason::Closed),
        }
    }

    /// After a look-up that found nothing: claims the place, and ends the claim by the failed
    /// factory.
    fn fail_claimed(
        &mut self,
        alloc: Global,
        call: &StepCall<'_>,
        key: KeyNo,
        text: &'a str,
    ) -> Result<Outcome, Lack>
        ensures { answer_end (state_view self.new) result ≡ computefail_by (memory_of result) (call_view call.now).name (call_view call.now).label (place_of_call call.now key)
            text.now (state_view self.old) look.Absent }
    {
        match self.claim(call.at(), key)? {
            Some(why) => say_refused(alloc, call, why),
            None => self.end_failed(alloc, call, key, text),
        }
    }

    /// Ends the claim of a factory that failed with this text: keeps its fault if the store keeps
    /// faults. Otherwise, or if no number or no memory is left, the claim is abandoned.
    fn end_failed(
        &mut self,
        alloc: Global,
        call: &StepCall<'_>,
        key: KeyNo,
        text: &'a str,
    ) -> Result<Outcome, Lack>
        requires { (state_view self.old).store.slots (place_of_call call.now key) ≡ Some (slot.Claim any_lane) }
        ensures { Fails (call_view call.now).name (call_view call.now).label (place_of_call call.now key) text.now (state_view self.old) (state_view self.new) result }
    {
        if !self.keeps_faults() {
            self.abandon(call.at(), key);
            return Ok(Outcome::of(Verdict::Successful));
        }
        match self.keep(PlanValue::not_closeable(text)) {
            Ok(Ok(number)) => {
                self.fail(call.at(), key, number);
                Ok(Outcome::of(Verdict::Successful))
            }
            Ok(Err(why)) => {
                self.abandon(call.at(), key);
                say_refused(alloc, call, why)
            }
            Err(lack) => {
                self.abandon(call.at(), key);
                Err(lack)
            }
        }
    }
}
