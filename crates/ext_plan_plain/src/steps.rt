//! The steps of a test or of a callback.
ghost use Rattle.std.specs.Prelude.{◌≡◌, ◌≢◌, ◌≤◌, false, List, [], length, map};
ghost use Rattle.ext_lifecycle.specs.FaultTexts.{verdict_text};
ghost use Rattle.ext_plan.specs.Plans.{step_view};
ghost use Rattle.ext_plan.specs.StepCalls.{keys_in};
ghost use Rattle.ext_plan_plain.specs.ValueStates.{Memory, enough, with_memory};
ghost use Rattle.ext_plan_plain.specs.StepRuns.{no_memory, step_by, steps_run};
ghost use Rattle.ext_plan_plain.specs.InnerSteps.{end_of_step, end_view, memory_of_step, state_view, step_end, AreFew};

use crate::lack::StepLack;
use crate::said::{say_aborted, say_failed};
use crate::value_store::ValueStore;
use ext_lifecycle::{Outcome, Verdict};
use ext_model::ContextNo;
use ext_plan::{Step, StepKeys, StepParts};
use std::alloc::Global;

/// The outcome of the steps of a call.
#[derive(Drop)]
pub(crate) struct StepsOutcome {
    pub(crate) outcome: Outcome,
    /// How many of them were successful: the number of the one that was not, if there is one.
    pub(crate) passed: usize,
    /// Whether one of them lacked memory.
    pub(crate) lacked: bool,
}

/// The outcome of a step, and whether it lacked memory.
#[derive(Drop)]
struct StepOutcome {
    outcome: Outcome,
    lacked: bool,
}

impl<'a> ValueStore<'a> {
    /// Runs the steps of a call in the context of this path, in order, up to the first that is not
    /// successful.
    pub(crate) fn run_steps(
        &mut self,
        alloc: Global,
        keys: &StepKeys<'_>,
        path: &[ContextNo],
        steps: &'a [Step],
    ) -> StepsOutcome
        requires { length steps.now ≤ 4294967295 }
        ensures end { (later : List Memory) → (memory : List Memory)
            × (step_end (with_memory later (state_view self.new)) result.outcome ≡ steps_run (keys_in keys.now) path.now (map step_view steps.now) (with_memory memory (state_view self.old)))
            × (result.lacked ≡ false → later ≡ [] → memory ≡ []) }
        ensures told { verdict_text result.outcome.verdict ≢ no_memory → result.lacked ≡ false }
    {
        let mut computed = 0;
        let mut found = 0;
        let mut passed = 0;
        for step in steps {
            let made = self.make_step(alloc, keys, path, step);
            computed += made.outcome.computed;
            found += made.outcome.found;
            if !made.outcome.verdict.is_successful() {
                return StepsOutcome {
                    outcome: Outcome {
                        verdict: made.outcome.verdict,
                        computed,
                        found,
                    },
                    passed,
                    lacked: made.lacked,
                };
            }
            passed += 1;
        }
        StepsOutcome {
            outcome: Outcome {
                verdict: Verdict::Successful,
                computed,
                found,
            },
            passed,
            lacked: false,
        }
    }

    /// Runs a step in the context of this path. It fails with `no memory` if it lacks memory.
    fn make_step(
        &mut self,
        alloc: Global,
        keys: &StepKeys<'_>,
        path: &[ContextNo],
        step: &'a Step,
    ) -> StepOutcome
        ensures end { (memory : Memory)
            × (end_view self.new result.outcome ≡ step_by (keys_in keys.now) memory path.now (step_view step.now) (state_view self.old))
            × (result.lacked ≡ false → memory ≡ enough) }
        ensures few { AreFew result.outcome }
        ensures told { verdict_text result.outcome.verdict ≢ no_memory → result.lacked ≡ false }
    {
        match self.run_step(alloc, keys, path, step) {
            Ok(outcome) => StepOutcome {
                outcome,
                lacked: false,
            },
            Err(lack) => StepOutcome {
                outcome: lack.outcome(),
                lacked: true,
            },
        }
    }

    /// Runs a step in the context of this path, and returns what it lacked memory for as an error.
    fn run_step(
        &mut self,
        alloc: Global,
        keys: &StepKeys<'_>,
        path: &[ContextNo],
        step: &'a Step,
    ) -> Result<Outcome, StepLack>
        ensures { end_of_step (state_view self.new) result ≡ step_by (keys_in keys.now) (memory_of_step result) path.now (step_view step.now) (state_view self.old) }
    {
        match step.parts() {
            StepParts::Keyed(step) => self.run_keyed(alloc, keys, path, step),
            StepParts::Fail(text) => StepLack::of(say_failed(alloc, text)),
            StepParts::Abort(text) => StepLack::of(say_aborted(alloc, text)),
        }
    }
}
