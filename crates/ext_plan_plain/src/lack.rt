//! What a step lacked memory for.
ghost use Rattle.std.specs.Prelude.{◌≡◌};
ghost use Rattle.ext_lifecycle.specs.declared.outcome.Verdict.TheVariants as verdicts;
ghost use Rattle.ext_model.specs.declared.look.Fault.TheVariants as faults;

use ext_lifecycle::{Outcome, Verdict};
use ext_model::Fault;
use std::alloc::{AllocError, AllocFailed};

/// What a step, other than its key, lacked memory for. The step then fails with `no memory`, and
/// the run goes on.
#[derive(Clone, Copy)]
pub(crate) enum Lack {
    /// Keeping a value.
    Value,
    /// Using a place of the store.
    Place,
    /// The text of the step's fault.
    Words {
        /// How many values the step had found in place of computing one.
        found: u32,
    },
}

/// What a whole step lacked memory for.
#[derive(Clone, Copy)]
pub(crate) enum StepLack {
    /// Making the key of the store.
    Key,
    /// Numbering the key.
    Number,
    /// The rest of the step.
    Act(Lack),
}

impl<T: Drop> From<AllocFailed<T>> for Lack {
    ghost use Rattle.std.specs.Prelude.{◌≡◌};
    ghost use Rattle.ext_plan_plain.specs.declared.lack.Lack.TheVariants.{Value};

    ghost from_gives = { λ _ lack. lack ≡ Value };

    // Only the list of kept values hands back what it could not take.
    fn from(_error: AllocFailed<T>) -> Lack {
        Lack::Value
    }
}

impl From<AllocError> for Lack {
    ghost use Rattle.std.specs.Prelude.{◌≡◌};
    ghost use Rattle.ext_plan_plain.specs.declared.lack.Lack.TheVariants.{Words};

    ghost from_gives = { λ _ lack. lack ≡ Words 0 };

    // Only the texts of steps take memory by themselves.
    fn from(_error: AllocError) -> Lack {
        Lack::Words { found: 0 }
    }
}

impl StepLack {
    ghost use Rattle.ext_plan_plain.specs.InnerSteps.{lifted, step_found};

    /// The same answer, for a whole step.
    pub(crate) fn of(answer: Result<Outcome, Lack>) -> Result<Outcome, StepLack>
        ensures { result ≡ lifted answer }
    {
        match answer {
            Ok(outcome) => Ok(outcome),
            Err(lack) => Err(StepLack::Act(lack)),
        }
    }

    /// The outcome of a step that lacked memory.
    pub(crate) fn outcome(self) -> Outcome
        ensures { result ≡ record {
          verdict = verdicts.Failed faults.Memory;
          computed = 0;
          found = step_found self;
        } }
    {
        let found = match self {
            StepLack::Key => 0,
            StepLack::Number => 0,
            StepLack::Act(lack) => lack.found(),
        };
        Outcome {
            verdict: Verdict::Failed(Fault::Memory),
            computed: 0,
            found,
        }
    }
}

impl Lack {
    ghost use Rattle.ext_plan_plain.specs.InnerSteps.{found_lacking};

    /// How many values the step had found in place of computing one.
    fn found(self) -> u32
        ensures { result ≡ found_lacking self }
    {
        match self {
            Lack::Value => 0,
            Lack::Place => 0,
            Lack::Words { found } => found,
        }
    }
}
