//! Why a test does not pass.
ghost use Rattle.ext_table.specs.Stops.{StopsWith};

use ext_model::Fault;
use ext_store::fault_of;
use std::alloc::AllocError;
use std::io;

/// Why a test does not pass. Javadoc `TestExecutionResult`.
#[derive(Drop)]
pub enum Stop {
    /// It failed with this fault.
    Failed(Fault),
    /// It could not be run, for this: it is aborted, as by a failed assumption. Javadoc
    /// `TestAbortedException`.
    Aborted(Fault),
    /// It failed with an error that a `?` took. `anyhow` cuts its text at 120 bytes: a longer one is
    /// told by `Scope::fail`.
    Error(anyhow::Error),
    /// It failed with an error of a file, a socket or a program that a `?` took.
    Io(io::Error),
}

impl From<anyhow::Error> for Stop {
    ghost use Rattle.std.specs.Prelude.{◌≡◌};
    ghost use Rattle.ext_table.specs.declared.stop.Stop.TheVariants as stops;

    ghost from_gives = { λ why stop. stop ≡ stops.Error why };

    fn from(why: anyhow::Error) -> Stop {
        Stop::Error(why)
    }
}

impl From<io::Error> for Stop {
    ghost use Rattle.std.specs.Prelude.{◌≡◌};
    ghost use Rattle.ext_table.specs.declared.stop.Stop.TheVariants as stops;

    ghost from_gives = { λ why stop. stop ≡ stops.Io why };

    fn from(why: io::Error) -> Stop {
        Stop::Io(why)
    }
}

impl From<AllocError> for Stop {
    ghost use Rattle.std.specs.Prelude.{◌≡◌};
    ghost use Rattle.ext_model.specs.declared.look.Fault.TheVariants as faults;
    ghost use Rattle.ext_table.specs.declared.stop.Stop.TheVariants as stops;

    ghost from_gives = { λ why stop. stop ≡ stops.Failed faults.Memory };

    fn from(_why: AllocError) -> Stop {
        Stop::Failed(Fault::Memory)
    }
}

impl Stop {
    /// The fault of it. Takes memory for the text of an error.
    pub(crate) fn fault(self, rt: &HostRuntime) -> Fault
        ensures { StopsWith self result }
    {
        match self {
            Stop::Failed(fault) | Stop::Aborted(fault) => fault,
            Stop::Error(why) => fault_of(rt.alloc(), why),
            Stop::Io(why) => fault_of(rt.alloc(), why),
        }
    }
}
