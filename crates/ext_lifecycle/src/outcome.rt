//! How a call ended, and what it computed.
ghost use Rattle.std.specs.Prelude.{◌≡◌, option_map};

use ext_model::Fault;

/// How a call ended. Source: Javadoc type `TestExecutionResult`.
#[derive(Debug, Drop, PartialEq, Eq)]
pub enum Verdict {
    /// It did what it should.
    Successful,
    /// It was aborted, with this fault.
    Aborted(Fault),
    /// It failed, with this fault.
    Failed(Fault),
}

impl Verdict {
    ghost use Rattle.ext_model.specs.Closed.{or_else};
    ghost use Rattle.ext_lifecycle.specs.Endings.{abort_in, fault_in, is_successful};
    ghost use Rattle.ext_lifecycle.specs.Lifecycle.{ending_of};

    /// Tests whether the call was successful.
    pub fn is_successful(&self) -> bool
        ensures { result ≡ is_successful (ending_of self.now) }
    {
        match self {
            Verdict::Successful => true,
            Verdict::Aborted(_) => false,
            Verdict::Failed(_) => false,
        }
    }

    /// The fault of a call that failed or was aborted, or `None` if it was successful.
    pub fn fault(&self) -> Option<&Fault>
        ensures { option_map (λ fault. fault.now) result ≡ or_else (fault_in (ending_of self.now)) (abort_in (ending_of self.now)) }
    {
        match self {
            Verdict::Successful => None,
            Verdict::Aborted(fault) => Some(fault),
            Verdict::Failed(fault) => Some(fault),
        }
    }
}

/// The outcome of one call.
#[derive(Debug, Drop, PartialEq, Eq)]
pub struct Outcome {
    /// The verdict on how the call ended.
    pub verdict: Verdict,
    /// How many values it computed.
    pub computed: u32,
    /// How many values it found instead of computing one.
    pub found: u32,
}

impl Outcome {
    /// The outcome of a call that computed nothing, and found nothing in its place.
    pub fn of(verdict: Verdict) -> Outcome
        ensures verdict { result.verdict ≡ verdict }
        ensures computed { result.computed ≡ 0 }
        ensures found { result.found ≡ 0 }
    {
        Outcome {
            verdict,
            computed: 0,
            found: 0,
        }
    }
}
