//! Steps that look up and compare what they find.
ghost use Rattle.std.specs.Prelude.{◌≡◌, option_map};
ghost use Rattle.ext_plan.specs.StepCalls.{call_view};
ghost use Rattle.ext_plan.specs.Values.{value_view};
ghost use Rattle.ext_plan.specs.Verdicts.{fail_verdict, none_verdict, seen_view, want_verdict};
ghost use Rattle.ext_plan_plain.specs.StepRuns.{ended, found_along, none_numbered, said_by, seen_by, shown, shown_fault, want_numbered};
ghost use Rattle.ext_plan_plain.specs.ValueStates.{value_of};
ghost use Rattle.ext_plan_plain.specs.InnerSteps.{answer_end, counted_found, memory_of, state_view};

use crate::lack::Lack;
use crate::said::said;
use crate::value_store::ValueStore;
use ext_lifecycle::Outcome;
use ext_model::{KeyNo, Look};
use ext_plan::{PlanValue, Reason, Seen, StepCall, fail_verdict, none_verdict, want_verdict};
use std::alloc::Global;

impl<'a> ValueStore<'a> {
    /// Runs a step `want` whose key has this number: looks up along the path, and compares the text
    /// of the value found.
    pub(crate) fn want(
        &self,
        alloc: Global,
        call: &StepCall<'_>,
        key: KeyNo,
        text: &str,
    ) -> Result<Outcome, Lack>
        ensures { answer_end (state_view self.now) result ≡ want_numbered (memory_of result) (call_view call.now).name (call_view call.now).label
            (call_view call.now).path text.now key (state_view self.now) }
    {
        said(want_verdict(alloc, call, text, self.see(call, key)))
    }

    /// Runs a step `none` whose key has this number: looks up along the path, and fails if
    /// something is found.
    pub(crate) fn none(
        &self,
        alloc: Global,
        call: &StepCall<'_>,
        key: KeyNo,
    ) -> Result<Outcome, Lack>
        ensures { answer_end (state_view self.now) result ≡ none_numbered (memory_of result) (call_view call.now).name (call_view call.now).label
            (call_view call.now).path key (state_view self.now) }
    {
        said(none_verdict(alloc, call, self.see(call, key)))
    }

    /// Ends a step `computefail` that found the value with this number: names the value and counts
    /// it.
    pub(crate) fn fail_found(
        &self,
        alloc: Global,
        call: &StepCall<'_>,
        number: u32,
    ) -> Result<Outcome, Lack>
        ensures { answer_end (state_view self.now) result ≡ said_by (memory_of result) (counted_found (none_verdict (call_view call.now).name (call_view call.now).label
            (shown (value_of (state_view self.now).values number))) (state_view self.now)) }
    {
        match none_verdict(alloc, call, shown(self.value_of(number))) {
            Ok(verdict) => Ok(Outcome {
                verdict,
                computed: 0,
                found: 1,
            }),
            Err(_) => Err(Lack::Words { found: 1 }),
        }
    }

    /// Ends a step `compute` that met the kept fault with this number: names the fault.
    pub(crate) fn fault_met(
        &self,
        alloc: Global,
        call: &StepCall<'_>,
        number: u32,
    ) -> Result<Outcome, Lack>
        ensures { answer_end (state_view self.now) result ≡ said_by (memory_of result) (ended (none_verdict (call_view call.now).name (call_view call.now).label
            (shown_fault (value_of (state_view self.now).values number))) (state_view self.now)) }
    {
        said(none_verdict(alloc, call, shown_fault(self.value_of(number))))
    }

    /// Ends a step `computefail` of this text that met the kept fault with this number: passes if
    /// the texts are equal, and otherwise names the fault.
    pub(crate) fn fault_met_failing(
        &self,
        alloc: Global,
        call: &StepCall<'_>,
        text: &str,
        number: u32,
    ) -> Result<Outcome, Lack>
        ensures { answer_end (state_view self.now) result ≡ said_by (memory_of result) (ended (fail_verdict (call_view call.now).name (call_view call.now).label text.now
            (shown_fault (value_of (state_view self.now).values number))) (state_view self.now)) }
    {
        said(fail_verdict(alloc, call, text, shown_fault(self.value_of(number))))
    }

    /// What a look-up along the path shows.
    fn see(&self, call: &StepCall<'_>, key: KeyNo) -> Seen<'a>
        ensures { seen_view result ≡ seen_by (state_view self.now).values (found_along key (call_view call.now).path (state_view self.now)) }
    {
        match self.look(call.path, key) {
            Look::Found { number, .. } => shown(self.value_of(number)),
            Look::Fault { number, .. } => shown_fault(self.value_of(number)),
            Look::Absent => Seen::Nothing,
            Look::Busy(_) => Seen::Refused(Reason::Busy),
            Look::Closed(_) => Seen::Refused(Reason::Closed),
        }
    }
}

/// What a look-up shows that found this value by its number.
pub(crate) fn shown<'a>(value: Option<PlanValue<'a>>) -> Seen<'a>
    ensures { seen_view result ≡ shown (option_map value_view value.entry) }
{
    match value {
        Some(value) => Seen::Value(value.text),
        None => Seen::Refused(Reason::NotShown),
    }
}

/// What a look-up shows that found this kept fault by its number.
pub(crate) fn shown_fault<'a>(fault: Option<PlanValue<'a>>) -> Seen<'a>
    ensures { seen_view result ≡ shown_fault (option_map value_view fault.entry) }
{
    match fault {
        Some(fault) => Seen::Fault(fault.text),
        None => Seen::Refused(Reason::NotShown),
    }
}
