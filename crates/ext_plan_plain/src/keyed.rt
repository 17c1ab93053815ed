//! Steps that call the store: each makes its key, numbers it, and then acts under that number.
ghost use Rattle.std.specs.Prelude.{◌≡◌, None, false, option_map};
ghost use Rattle.ext_plan.specs.Plans.{keyed, step_key_view};
ghost use Rattle.ext_plan.specs.StepCalls.{call_view, keys_in, start_of};
ghost use Rattle.ext_plan.specs.Values.{value_view};
ghost use Rattle.ext_plan_plain.specs.StepRuns.{acts_by, lacks_value, numbered_by, put_by, put_in, remove_numbered, step_by, value_first};
ghost use Rattle.ext_plan_plain.specs.InnerSteps.{answer_end, end_of_step, memory_of, memory_of_step, place_of_call, state_view, DoesKeyed};

use crate::lack::{Lack, StepLack};
use crate::said::{say_refused, say_unless_refused};
use crate::value_store::ValueStore;
use ext_lifecycle::Outcome;
use ext_model::{ContextNo, KeyNo};
use ext_plan::{KeyedStep, PlanValue, StepCall, StepKeys, Word};
use std::alloc::Global;

impl<'a> ValueStore<'a> {
    /// Runs a step that calls the store, in the context of this path.
    pub(crate) fn run_keyed(
        &mut self,
        alloc: Global,
        keys: &StepKeys<'_>,
        path: &[ContextNo],
        step: KeyedStep<'a>,
    ) -> Result<Outcome, StepLack>
        ensures { end_of_step (state_view self.new) result ≡ step_by (keys_in keys.now) (memory_of_step result) path.now
            (keyed step.entry.word (step_key_view step.entry.key.now) step.entry.text.now step.entry.up) (state_view self.old) }
    {
        let Ok(made) = keys.key_of(alloc, step.key) else {
            return Err(StepLack::Key);
        };
        let call = keys.call(step, made.key(), path);
        match value_first(step) {
            Some(value) => self.put_step(alloc, &call, value),
            None => self.act_step(alloc, &call, step),
        }
    }

    /// Runs a step `put` or `put!`: keeps the value, which draws its number, then numbers the key,
    /// and stores the value's number in the context.
    fn put_step(
        &mut self,
        alloc: Global,
        call: &StepCall<'_>,
        value: PlanValue<'a>,
    ) -> Result<Outcome, StepLack>
        ensures { let c = call_view call.now in DoesKeyed (state_view self.old) (state_view self.new) result
            (λ found. put_by found c.name c.label (start_of c.path) c.key (value_view value.entry) (state_view self.old)) }
    {
        match self.keep(value) {
            Err(lack) => Err(StepLack::Act(lack)),
            Ok(Err(why)) => StepLack::of(say_refused(alloc, call, why)),
            Ok(Ok(number)) => match self.declare(call.key)? {
                Err(why) => StepLack::of(say_refused(alloc, call, why)),
                Ok(key) => StepLack::of(self.put_value(alloc, call, key, number)),
            },
        }
    }

    /// Stores the number that was drawn last under this key.
    fn put_value(
        &mut self,
        alloc: Global,
        call: &StepCall<'_>,
        key: KeyNo,
        number: u32,
    ) -> Result<Outcome, Lack>
        requires { number ≡ (state_view self.old).store.drawn }
        ensures end { answer_end (state_view self.new) result ≡ put_in (memory_of result) (call_view call.now).name (call_view call.now).label (place_of_call call.now key) (state_view self.old) }
        ensures value { lacks_value (memory_of result) ≡ false }
    {
        let why = self.put(call.at(), key, number)?;
        say_unless_refused(alloc, call, why)
    }

    /// Runs a step that keeps no value first: numbers its key, and acts under that number.
    fn act_step(
        &mut self,
        alloc: Global,
        call: &StepCall<'_>,
        step: KeyedStep<'a>,
    ) -> Result<Outcome, StepLack>
        requires { value_first step.word step.text.now ≡ None }
        ensures { let c = call_view call.now in DoesKeyed (state_view self.old) (state_view self.new) result
            (λ found. numbered_by found c.name c.label c.key (acts_by found step.entry.word c step.entry.text.now) (state_view self.old)) }
    {
        match self.declare(call.key)? {
            Err(why) => StepLack::of(say_refused(alloc, call, why)),
            Ok(key) => StepLack::of(self.act(alloc, call, key, step)),
        }
    }

    /// Does what the step's word says, under the number of its key.
    fn act(
        &mut self,
        alloc: Global,
        call: &StepCall<'_>,
        key: KeyNo,
        step: KeyedStep<'a>,
    ) -> Result<Outcome, Lack>
        requires { value_first step.word step.text.now ≡ None }
        ensures { answer_end (state_view self.new) result ≡ acts_by (memory_of result) step.entry.word (call_view call.now) step.entry.text.now key (state_view self.old) }
    {
        match step.word {
            Word::Put | Word::PutCloseable => unreachable!(),
            Word::Want => self.want(alloc, call, key, step.text),
            Word::None => self.none(alloc, call, key),
            Word::Remove => self.remove_value(alloc, call, key),
            Word::Compute => self.compute(alloc, call, key, PlanValue::not_closeable(step.text)),
            Word::ComputeCloseable => {
                self.compute(alloc, call, key, PlanValue::closeable(step.text))
            }
            Word::ComputeFail => self.computefail(alloc, call, key, step.text),
        }
    }

    /// Removes what stands under this key.
    fn remove_value(
        &mut self,
        alloc: Global,
        call: &StepCall<'_>,
        key: KeyNo,
    ) -> Result<Outcome, Lack>
        ensures { answer_end (state_view self.new) result ≡ remove_numbered (memory_of result) (call_view call.now).name (call_view call.now).label (call_view call.now).path key (state_view self.old) }
    {
        let why = self.remove(call.at(), key);
        say_unless_refused(alloc, call, why)
    }
}

/// The value that a step keeps before its key is numbered: that of `put` or `put!`.
fn value_first<'a>(step: KeyedStep<'a>) -> Option<PlanValue<'a>>
    ensures { option_map value_view result ≡ value_first step.entry.word step.entry.text.now }
{
    match step.word {
        Word::Put => Some(PlanValue::not_closeable(step.text)),
        Word::PutCloseable => Some(PlanValue::closeable(step.text)),
        _ => None,
    }
}
