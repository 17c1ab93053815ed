//! Calls that are made while one allocation of the process is refused: what each answers then, and
//! what has to hold afterwards. Own rule.
//!
//! `CASE ALLOCATIONS` says which, and how many allocations come before them; without words the
//! usage is printed. The tool that refuses an allocation is `rt try --fail-alloc N`, and by
//! `scripts/refused-allocations` each of a case is refused in turn.
#![tactic(auto)]

mod faults;
mod ids;
mod outcome;
mod plain_runs;
mod runs;
mod store_keys;
mod stores;
mod words;

use outcome::Outcome;
use std::alloc::Global;
use std::process::ExitCode;
use std::sync::Wait;
use std::thread::Threads;
use words::{Case, Request, USAGE, request_of};

fn main(rt: HostRuntime) -> ExitCode {
    let (line, status) = match request_of(&rt) {
        Request::Usage => (USAGE, 0),
        Request::Refused => (USAGE, 2),
        Request::Memory => Outcome::Early.told(),
        Request::Calls { case, allocations } => {
            outcome_after(&rt, rt.alloc(), case, allocations).told()
        }
    };
    match println!(rt; "{line}") {
        Ok(()) => ExitCode::from(status),
        Err(_) => ExitCode::from(3),
    }
}

/// What becomes of the case's calls after so many allocations. Where one was answered with want of
/// memory, all of them are made once more.
fn outcome_after<R: Threads + Wait + Sync>(
    rt: &R,
    alloc: Global,
    case: Case,
    allocations: u32,
) -> Outcome {
    if !burn(alloc, allocations) {
        return Outcome::Early;
    }
    match outcome_of(rt, alloc, case) {
        first @ (Outcome::NoMemory | Outcome::NoMemoryTold) => outcome_of(rt, alloc, case).after(
            first,
        ),
        outcome => outcome,
    }
}

/// Makes and drops so many allocations. Says whether each was made.
fn burn(alloc: Global, allocations: u32) -> bool {
    for number in 0..allocations {
        if Box::new(alloc, number).is_err() {
            return false;
        }
    }
    true
}

/// What becomes of the case's calls.
fn outcome_of<R: Threads + Wait + Sync>(rt: &R, alloc: Global, case: Case) -> Outcome {
    match case {
        Case::Store => stores::keeps_and_computes(alloc),
        Case::StoreKeys => store_keys::names_keys(alloc),
        Case::Faults => faults::keeps_a_fault(alloc),
        Case::IdText => ids::prints_segments(alloc),
        Case::Chain => runs::runs_chain(rt, alloc),
        Case::PlainRun => plain_runs::runs_plainly(rt, alloc),
        Case::Run => runs::runs(rt, alloc),
    }
}
