//! The steps of a test or a callback, in order.
ghost use Rattle.std.specs.Prelude.{◌≡◌, ◌<◌, ◌≤◌, All, length, map};
ghost use Rattle.ext_lifecycle.specs.Endings.{aborted, failed};
ghost use Rattle.ext_plan.specs.Plans.{step_view};
ghost use Rattle.ext_plan.specs.Steps.{step_key, step_limit};
ghost use Rattle.ext_store.specs.Stores.{IsLaneOf};
ghost use Rattle.ext_plan.specs.StepCalls.{keys_in};
ghost use Rattle.ext_plan_parallel.specs.Saying.{Ends};

use crate::steps::StoredValue;
use ext_lifecycle::{Outcome, Verdict};
use ext_model::{ContextNo, Fault};
use ext_plan::{Step, StepKeys, StepParts, aborted, failed};
use ext_store::{Lane, Store};
use std::alloc::Global;
use std::sync::Wait;

/// The outcome of the steps of a call.
#[derive(Drop)]
pub(crate) struct StepsOutcome {
    pub(crate) outcome: Outcome,
    /// How many of them were successful: the number of the one that was not, if there is one.
    pub(crate) passed: usize,
}

/// Runs steps over any store, with the keys that a plan declares. All lanes of the store may share
/// it.
#[derive(Drop)]
pub(crate) struct StoreSteps<'b> {
    pub(crate) alloc: Global,
    pub(crate) names: StepKeys<'b>,
}

impl<'b> StoreSteps<'b> {
    ghost use Rattle.ext_plan_parallel.specs.InnerKeys.{plan_keys};
    ghost use Rattle.ext_plan_parallel.specs.StoreCalls.{HasFrame};
    ghost use Rattle.ext_plan_parallel.specs.StoreSteps.{PlacesItsKey, StepRun, StepsRun};

    /// Takes the declared keys of a plan.
    pub fn of(alloc: Global, names: StepKeys<'b>) -> StoreSteps<'b>
        ensures { plan_keys result ≡ keys_in names.entry }
    {
        StoreSteps { alloc, names }
    }

    /// Runs steps in order, up to and including the first that is not successful, on a lane of the
    /// store. They run in the first context of `path`, which continues with the context's parent
    /// and so on up to the root. A step that goes up past the root acts on the root.
    ///
    /// There are at most 2^32 - 1 steps. The outcome is that of the last step that ran, with the
    /// counts of all. Each value that a step computed, or found in place of computing one, counts
    /// as one, even if the step or a later one fails.
    ///
    /// Steps make the store's waiting calls, so that none is refused because of a running factory
    /// or of other lanes. A refused call fails its step with `NAME KEY: REASON`. A key that no lane
    /// has named before gets its number then. If all places are other keys', the step fails with
    /// `NAME KEY: directory full` and has no effect, except that a `put` has kept its value. Takes
    /// memory for keys, values and the texts of steps; a step for which it is refused fails with
    /// `Fault::Memory`. It may wait.
    ///
    /// Source: Javadoc type `ExtensionContext.Store`; the steps are an own rule.
    pub fn run<'a, R: Wait>(
        &self,
        rt: &R,
        store: &Store<StoredValue<'a>>,
        lane: &mut Lane<StoredValue<'a>>,
        path: &[ContextNo],
        steps: &'a [Step],
    ) -> StepsOutcome
        requires lane { IsLaneOf store.now.id lane.old }
        requires path { All (λ context. context < length store.now.tree) path.now }
        requires tree { 0 < length store.now.tree }
        requires short { length steps.now ≤ step_limit }
        ensures steps { StepsRun store.now (plan_keys self.now) path.now (map step_view steps.now) lane.old result.outcome lane.new }
        ensures lane { IsLaneOf store.now.id lane.new }
        ensures frame { HasFrame store.now lane.old lane.new }
    {
        let mut computed = 0;
        let mut found = 0;
        let mut passed = 0;
        for step in steps {
            let outcome = self.run_step(rt, store, lane, path, step);
            computed += outcome.computed;
            found += outcome.found;
            if !outcome.verdict.is_successful() {
                return StepsOutcome {
                    outcome: Outcome {
                        verdict: outcome.verdict,
                        computed,
                        found,
                    },
                    passed,
                };
            }
            passed += 1;
        }
        StepsOutcome {
            outcome: Outcome {
                verdict: Verdict::Successful,
                computed,
                found,
            },
            passed,
        }
    }

    fn run_step<'a, R: Wait>(
        &self,
        rt: &R,
        store: &Store<StoredValue<'a>>,
        lane: &mut Lane<StoredValue<'a>>,
        path: &[ContextNo],
        step: &'a Step,
    ) -> Outcome
        requires lane { IsLaneOf store.now.id lane.old }
        requires path { All (λ context. context < length store.now.tree) path.now }
        requires tree { 0 < length store.now.tree }
        ensures step { StepRun store.now (plan_keys self.now) path.now (step_view step.now) lane.old result lane.new }
        ensures computed { result.computed ≤ 1 }
        ensures found { result.found ≤ 1 }
        ensures lane { IsLaneOf store.now.id lane.new }
        ensures frame { HasFrame store.now lane.old lane.new }
        ensures placed { PlacesItsKey (plan_keys self.now) (step_key (step_view step.now)) lane.old lane.new }
    {
        match step.parts() {
            StepParts::Keyed(step) => self.run_keyed(rt, store, lane, path, step),
            StepParts::Fail(text) => fail(self.alloc, text),
            StepParts::Abort(text) => abort(self.alloc, text),
        }
    }
}

fn fail(alloc: Global, text: &str) -> Outcome
    ensures { Ends (failed text.now) 0 0 result }
{
    match String::from_str(alloc, text) {
        Ok(text) => Outcome::of(failed(text)),
        Err(_) => Outcome::of(Verdict::Failed(Fault::Memory)),
    }
}

fn abort(alloc: Global, text: &str) -> Outcome
    ensures { Ends (aborted text.now) 0 0 result }
{
    match String::from_str(alloc, text) {
        Ok(text) => Outcome::of(aborted(text)),
        Err(_) => Outcome::of(Verdict::Failed(Fault::Memory)),
    }
}
