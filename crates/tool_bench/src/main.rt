//! Measures what the calls of the store, and runs of the engine, cost: nanoseconds of wall and of
//! processor time an operation. Own rule.
//!
//! Without arguments it prints its usage and a table of all cases, and with `CASE THREADS ROUNDS
//! MILLIS` a line for each round. It makes library calls alone. The exit status is 0, or 2 where
//! the words are refused, or 3 where a round failed.
#![tactic(auto)]

mod alone;
mod batch;
mod case;
mod fault;
mod opening;
mod round;
mod spent;
mod suite;
mod trees;
mod words;
mod work;

use case::{CASES, Case};
use fault::BenchFault;
use round::round_of;
use spent::Spent;
use std::process::ExitCode;
use std::sync::Wait;
use std::thread::Threads;
use std::time::{Clock, CpuClock};
use words::{Request, USAGE, request_of};

fn main(rt: HostRuntime) -> ExitCode {
    match done(&rt, request_of(&rt)) {
        Ok(()) => ExitCode::from(0),
        Err(fault) => {
            let text = fault.text();
            let _ = eprintln!(rt; "tool_bench: {text}");
            ExitCode::from(fault.status())
        }
    }
}

/// Does what the words ask.
fn done<R: Threads + Wait + Sync + Clock + CpuClock + AllocGlobal + Print>(
    rt: &R,
    request: Request,
) -> Result<(), BenchFault> {
    match request {
        Request::Usage => usage(rt),
        Request::Table => {
            usage(rt)?;
            table(rt)
        }
        Request::Rounds {
            row,
            threads,
            rounds,
            millis,
        } => rounds_of(rt, row, threads, rounds, millis),
        Request::Refused(fault) => Err(fault),
    }
}

fn usage(rt: &impl Print) -> Result<(), BenchFault> {
    print!(rt; "{USAGE}").or(Err(BenchFault::Output))
}

/// A round of two seconds for each case, on one thread, and on four where threads are in each
/// other's way.
fn table<R: Threads + Wait + Sync + Clock + CpuClock + AllocGlobal + Print>(
    rt: &R,
) -> Result<(), BenchFault> {
    for row in &CASES {
        rounds_of(rt, *row, row.1.quick_threads(), 1, 2_000)?;
    }
    Ok(())
}

/// Prints a line for each round of a case under its name.
fn rounds_of<R: Threads + Wait + Sync + Clock + CpuClock + AllocGlobal + Print>(
    rt: &R,
    (name, case): (&str, Case),
    threads: usize,
    rounds: u32,
    millis: u32,
) -> Result<(), BenchFault> {
    for _ in 0..rounds {
        let spent = round_of(rt, case, threads, millis)?;
        tell(rt, name, threads, spent)?;
    }
    Ok(())
}

/// Prints the line of a round.
fn tell<R: Print>(rt: &R, name: &str, threads: usize, spent: Spent) -> Result<(), BenchFault> {
    let (wall, processor) = (spent.wall_each(), spent.processor_each());
    let operations = spent.operations;
    let told = println!(rt; "ext_store {name} {threads} {wall} {processor} {operations}");
    told.or(Err(BenchFault::Output))
}
