//! Reporting why a request was not done.
use ext_run::{RequestFault, RunFault};

/// Prints why a request was not done, in one line on standard error. If that fails, nothing more
/// can be done. That standard output did not take a report is left to `tell_unwritten`.
pub(crate) fn tell(rt: &impl Eprint, fault: RequestFault) {
    let _ = match fault {
        RequestFault::CommandLine | RequestFault::Run(RunFault::Write) => Ok(()),
        RequestFault::Id(fault) => eprintln!(rt; "{fault}"),
        RequestFault::Parts(fault) => eprintln!(rt; "{fault}"),
        RequestFault::Run(fault) => eprintln!(rt; "{fault}"),
    };
}

/// Prints that standard output did not take a report, explained or not. Where it is a pipe that
/// nobody reads any more, as in `extrun run | head -n 1`, nothing is printed: who read it has what
/// was wanted.
pub(crate) fn tell_unwritten(rt: &impl Eprint, is_broken: bool, explained: bool) {
    if is_broken {
        return;
    }
    let _ = eprintln!(rt; "{}", RunFault::Write);
    if explained {
        let _ = eprintln!(rt; "the report: standard output did not take all of it");
    }
}
