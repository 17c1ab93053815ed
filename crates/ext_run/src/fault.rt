//! Why a run gave no report.
ghost use Rattle.std.specs.Prelude.{◌≡◌};
ghost use Rattle.ext_run.specs.Requests.{code_of};
ghost use Rattle.ext_run.specs.declared.fault.RunFault.TheVariants.{Memory};

use ext_plan_parallel::EngineFault;
use ext_plan_reading::PlanFault;
use std::alloc::AllocError;
use std::fmt;
use thiserror::Error;

/// Why a run gave no report. A fault is printed as its line on standard error.
///
/// After `Write`, some of the report may have been written, and nothing tells how much. After each
/// other fault, nothing was written.
#[derive(Clone, Copy, Debug, PartialEq, Eq, Error)]
pub enum RunFault {
    /// Z1, printed as `read failed`: a read of the plan failed in any way.
    Read,
    /// Z2, printed as `write failed`: a write of the report failed, or took no byte.
    Write,
    /// Z3, printed as `plan too long`: the input has more bytes than a plan of its size may have.
    /// `read_input` says how many.
    TooLong,
    /// Z4, printed as the line of the plan's fault, such as `plan: P5 key 1`: the plan is refused.
    Plan(PlanFault),
    /// Z5, printed as `run: E1` or `run: E3`: the run on several lanes did not finish. Memory was
    /// refused (E1), which may have been for the store or the locks of the run, or a context could
    /// not be closed (E3). `run: E2` would say that a thread was refused (`EngineFault::NoThread`),
    /// which no call answers.
    Engine(EngineFault),
    /// Z6, printed as `run: no memory`: memory was refused outside `read_plan_within`, where it is
    /// `Plan` with `PlanFault::Memory`, and outside a run on several lanes, where it is `Engine`
    /// with `EngineFault::Memory`.
    Memory,
}

impl fmt::Display for RunFault {
    ghost use Rattle.std.specs.Prelude.{Some};
    ghost use Rattle.ext_run.specs.Requests.{line_of};

    ghost output = { λ fault. Some (line_of fault) };

    fn fmt<W: fmt::Write>(&self, f: &mut fmt::Formatter<W>) -> fmt::Result {
        match self {
            RunFault::Read => f.write_str("read failed"),
            RunFault::Write => f.write_str("write failed"),
            RunFault::TooLong => f.write_str("plan too long"),
            RunFault::Plan(fault) => write!(f, "{fault}"),
            RunFault::Engine(fault) => write!(f, "run: {}", code(*fault)),
            RunFault::Memory => f.write_str("run: no memory"),
        }
    }
}

impl From<AllocError> for RunFault {
    ghost from_gives = { λ _ e. e ≡ Memory };

    fn from(_e: AllocError) -> RunFault {
        RunFault::Memory
    }
}

/// The code of a fault of the engine.
fn code(fault: EngineFault) -> &'static str
    ensures { result.now ≡ code_of fault }
{
    match fault {
        EngineFault::Memory => "E1",
        EngineFault::NoThread => "E2",
        EngineFault::Unjoined(_, _) => "E3",
    }
}
