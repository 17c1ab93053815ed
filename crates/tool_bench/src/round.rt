//! Rounds of a case: batches, each on a store of its own, until the time is over.
use crate::alone::{closing, computing, naming, opening};
use crate::batch::batch;
use crate::case::Case;
use crate::fault::BenchFault;
use crate::spent::{Span, Spent};
use crate::trees::{opening_run, running};
use std::sync::Wait;
use std::thread::Threads;
use std::time::{Clock, CpuClock};

/// Batches of the case until so many milliseconds of the wall's time were spent on operations.
pub(crate) fn round_of<R: Threads + Wait + Sync + Clock + CpuClock + AllocGlobal>(
    rt: &R,
    case: Case,
    threads: usize,
    millis: u32,
) -> Result<Spent, BenchFault> {
    let mut spent = Spent::nothing();
    for _ in 0..u32::MAX {
        if spent.is_over(millis) {
            break;
        }
        spent = spent_after(rt, case, threads, spent)?;
    }
    Ok(spent)
}

/// What is spent after one more batch of the case.
fn spent_after<R: Threads + Wait + Sync + Clock + CpuClock + AllocGlobal>(
    rt: &R,
    case: Case,
    threads: usize,
    spent: Spent,
) -> Result<Spent, BenchFault> {
    match case {
        Case::Open(classes) => and_one(spent, opening(rt, classes)),
        Case::ComputeFreshAndClose => and_one(spent, computing(rt)),
        Case::NameNew => and_one(spent, naming(rt)),
        Case::Close256 => and_one(spent, closing(rt)),
        Case::Tree(tests, steps) => and_one(spent, running(rt, tests, steps, threads)),
        Case::OpenTree(tests) => and_one(spent, opening_run(rt, tests, threads)),
        _ => match batch(rt, case, threads) {
            Ok(spans) => Ok(spent.and(spans.as_slice())),
            Err(fault) => Err(fault),
        },
    }
}

fn and_one(spent: Spent, span: Result<Span, BenchFault>) -> Result<Spent, BenchFault> {
    Ok(spent.and(&[span?]))
}
