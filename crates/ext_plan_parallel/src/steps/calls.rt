//! The steps that call the store.
ghost use Rattle.std.specs.Prelude.{◌≡◌, ◌⊎◌, ◌<◌, ◌≤◌, All, length};
ghost use Rattle.ext_tree.specs.Keys.{PlacesOnly};
ghost use Rattle.ext_plan.specs.declared.step_parts.StepParts.TheVariants.{Keyed};
ghost use Rattle.ext_plan.specs.declared.word.Word.TheVariants as words;
ghost use Rattle.ext_plan.specs.Plans.{parts_view, step_key_view};
ghost use Rattle.ext_plan.specs.StepCalls.{call_view, start_of};
ghost use Rattle.ext_plan.specs.StoreKeys.{key_of_step};
ghost use Rattle.ext_store.specs.Stores.{IsLaneOf};
ghost use Rattle.ext_plan_parallel.specs.StoreCalls.{HasFrame};
ghost use Rattle.ext_plan_parallel.specs.StoreSteps.{FindsNoMemory, StepDoes, StepRun};

use crate::steps::changes::{put_value, remove_value};
use crate::steps::computes::{compute, compute_fail};
use crate::steps::looks::{none, want};
use crate::steps::{StoreSteps, StoredValue};
use ext_lifecycle::{Outcome, Verdict};
use ext_model::{ContextNo, Fault};
use ext_plan::{KeyedStep, StepCall, Word};
use ext_store::{Lane, Store};
use std::alloc::Global;
use std::sync::Wait;

impl<'b> StoreSteps<'b> {
    ghost use Rattle.ext_plan_parallel.specs.InnerKeys.{plan_keys};

    /// Runs a step that calls the store. Makes its key first, unless a label declares it.
    pub(crate) fn run_keyed<'a, R: Wait>(
        &self,
        rt: &R,
        store: &Store<StoredValue<'a>>,
        lane: &mut Lane<StoredValue<'a>>,
        path: &[ContextNo],
        step: KeyedStep<'a>,
    ) -> Outcome
        requires lane { IsLaneOf store.now.id lane.old }
        requires path { All (λ context. context < length store.now.tree) path.now }
        requires tree { 0 < length store.now.tree }
        ensures step { StepRun store.now (plan_keys self.now) path.now (parts_view (Keyed step.entry)) lane.old result lane.new }
        ensures computed { result.computed ≤ 1 }
        ensures found { result.found ≤ 1 }
        ensures lane { IsLaneOf store.now.id lane.new }
        ensures frame { HasFrame store.now lane.old lane.new }
        ensures placed { PlacesOnly (key_of_step (plan_keys self.now) (step_key_view step.entry.key.now)) lane.old.keys lane.new.keys }
    {
        match self.names.key_of(self.alloc, step.key) {
            Ok(made) => {
                let call = self.names.call(step, made.key(), path);
                call_store(self.alloc, rt, store, lane, &call, step.word, step.text)
            }
            Err(_) => Outcome::of(Verdict::Failed(Fault::Memory)),
        }
    }
}

/// Makes the call of a step of this word and text. A `computefail` makes none if memory for the
/// fault of its factory is refused.
fn call_store<'a, R: Wait>(
    alloc: Global,
    rt: &R,
    store: &Store<StoredValue<'a>>,
    lane: &mut Lane<StoredValue<'a>>,
    call: &StepCall<'_>,
    word: Word,
    text: &'a str,
) -> Outcome
    requires lane { IsLaneOf store.now.id lane.old }
    requires context { start_of (call_view call.now).path < length store.now.tree }
    ensures step { StepDoes store.now (call_view call.now) word text.now lane.old result lane.new ⊎ ((word ≡ words.ComputeFail) × FindsNoMemory lane.old result lane.new) }
    ensures computed { result.computed ≤ 1 }
    ensures found { result.found ≤ 1 }
    ensures lane { IsLaneOf store.now.id lane.new }
    ensures frame { HasFrame store.now lane.old lane.new }
    ensures placed { PlacesOnly (call_view call.now).key lane.old.keys lane.new.keys }
{
    let value = StoredValue::of(text, word.leaves_closeable());
    match word {
        Word::Put | Word::PutCloseable => put_value(alloc, rt, store, lane, call, value),
        Word::Want => want(alloc, rt, store, lane, call, text),
        Word::None => none(alloc, rt, store, lane, call),
        Word::Remove => remove_value(alloc, rt, store, lane, call),
        Word::Compute | Word::ComputeCloseable => compute(alloc, rt, store, lane, call, value),
        Word::ComputeFail => compute_fail(alloc, rt, store, lane, call, text),
    }
}
