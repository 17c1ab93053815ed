//! Why a tree was not run to its end.
use ext_crew::CrewFault;
use ext_model::ContextNo;
use std::alloc::AllocError;
use thiserror::Error;

/// Why a tree was not run to its end. Contexts that were not closed yet stay open.
///
/// Prints as a sentence without capital or full stop.
#[derive(Clone, Copy, Debug, PartialEq, Eq, Error)]
pub enum EngineFault {
    /// An allocation failed.
    #[error("no memory")]
    Memory,
    /// No thread could be made. Kept for callers that match on it: no call answers this, since the
    /// other workers do what a worker without a thread would have done.
    #[error("no thread")]
    NoThread,
    /// When this context was to be closed, no lane in hand knew the value of this number, which
    /// remained in it.
    #[error("the value of number {1} in context {0} is not known")]
    Unjoined(ContextNo, u32),
}

impl From<AllocError> for EngineFault {
    ghost use Rattle.std.specs.Prelude.{◌≡◌};
    ghost use Rattle.ext_engine.specs.declared.node.fault.EngineFault.TheVariants.{Memory};

    ghost from_gives = { λ _ e. e ≡ Memory };

    fn from(_error: AllocError) -> EngineFault {
        EngineFault::Memory
    }
}

impl From<CrewFault> for EngineFault {
    ghost use Rattle.std.specs.Prelude.{◌≡◌};
    ghost use Rattle.ext_crew.specs.declared.fault.CrewFault.TheVariants as crew;
    ghost use Rattle.ext_engine.specs.declared.node.fault.EngineFault.TheVariants.{Memory, NoThread};

    ghost from_gives = { λ fault e. (fault ≡ crew.Memory → e ≡ Memory) × (fault ≡ crew.NoThread → e ≡ NoThread) };

    fn from(fault: CrewFault) -> EngineFault {
        match fault {
            CrewFault::Memory => EngineFault::Memory,
            CrewFault::NoThread => EngineFault::NoThread,
        }
    }
}
