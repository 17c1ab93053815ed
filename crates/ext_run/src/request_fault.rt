//! Why a request was not done, and the exit status of a program.
ghost use Rattle.std.specs.Prelude.{◌≡◌};
ghost use Rattle.ext_run.specs.Requests.{status_of, status_of_fault, status_of_run_fault};

use crate::fault::RunFault;
use crate::options::Summary;
use ext_ids::{IdFault, PartFault};

/// Why a request was not done.
#[derive(Clone, Copy, Debug, PartialEq, Eq)]
pub enum RequestFault {
    /// The command line was refused, and what is wrong with it was printed.
    CommandLine,
    /// The text of an id was refused, or memory for it was.
    Id(IdFault),
    /// The parts of an id were refused, or memory for it was.
    Parts(PartFault),
    /// A run gave no report, a write failed, or memory was refused.
    Run(RunFault),
}

/// Returns the exit status of a program for a request. It is 0 if the request was done, but 1 if a
/// node failed, or a race or a mistake was found (`Summary::failed`). It is 2 if the command line,
/// the plan or the id is refused, and 3 if reading, writing or memory failed, or a context could
/// not be closed.
///
/// If memory was refused while an id was read or made, or a plan was read, the status is 2, as for
/// all their faults.
pub fn status_of(outcome: &Result<Summary, RequestFault>) -> u8
    ensures { result ≡ status_of outcome.now }
{
    match outcome {
        Ok(Summary { failed: false, .. }) => 0,
        Ok(Summary { failed: true, .. }) => 1,
        Err(fault) => status_of_fault(*fault),
    }
}

/// The exit status of a request that was not done.
fn status_of_fault(fault: RequestFault) -> u8
    ensures { result ≡ status_of_fault fault }
{
    match fault {
        RequestFault::CommandLine => 2,
        RequestFault::Id(_) => 2,
        RequestFault::Parts(_) => 2,
        RequestFault::Run(fault) => status_of_run_fault(fault),
    }
}

/// The exit status of a run that gave no report.
fn status_of_run_fault(fault: RunFault) -> u8
    ensures { result ≡ status_of_run_fault fault }
{
    match fault {
        RunFault::Read => 3,
        RunFault::Write => 3,
        RunFault::TooLong => 2,
        RunFault::Plan(_) => 2,
        RunFault::Engine(_) => 3,
        RunFault::Memory => 3,
    }
}
