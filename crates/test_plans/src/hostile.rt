//! Devices that are slow or fail.
use crate::devices::{SlowReader, SlowWriter, UnflushedWriter};
use crate::rows::{CHAIN_PASSED, PLAIN, chain};
use crate::same::same;
use ext_engine::EngineFault;
use ext_run::{PlanFault, RunFault, Summary, run};
use std::alloc::Global;
use std::sync::Wait;
use std::test::Fail;
use std::thread::Threads;

const STEPS: &str = "\"put a x\", \"want a x\"";

/// What a run by slow devices answers, and what it writes.
fn run_slowly<R: Threads + Wait + Sync>(
    rt: &R,
    alloc: Global,
    mut reader: SlowReader<'_>,
    mut writer: SlowWriter,
) -> (Result<Summary, RunFault>, Vec<u8>) {
    let answer = run(rt, alloc, &mut reader, &mut writer, PLAIN);
    (answer, writer.written)
}

/// A writer that takes one byte at a time, and stops after so many.
fn writer(alloc: Global, good: Option<usize>, takes_nothing: bool) -> SlowWriter {
    SlowWriter {
        written: Vec::new(alloc),
        good,
        takes_nothing,
    }
}

/// A reader of these bytes that gives one at a time, and fails after so many.
fn reader(bytes: &[u8], good: Option<usize>) -> SlowReader<'_> {
    SlowReader { bytes, good }
}

/// A reader that gives one byte at a time and a writer that takes one change neither the answer nor
/// the report.
/// Tests `run`.
#[test]
fn slow_devices_change_nothing(rt: HostRuntime) -> Result<(), Fail> {
    let plan = chain(rt.alloc(), STEPS)?;
    let slow = writer(rt.alloc(), None, false);
    let (answer, written) = run_slowly(&rt, rt.alloc(), reader(plan.as_bytes(), None), slow);
    same(&rt, answer, Ok(Summary::done()), "the answer");
    same(
        &rt,
        written.as_slice(),
        CHAIN_PASSED.as_bytes(),
        "the report",
    );
    Ok(())
}

/// Wherever in the plan a read fails, the run is refused as `Read` and nothing is written.
/// Tests `run`.
#[test]
fn each_failing_read_is_told(rt: HostRuntime) -> Result<(), Fail> {
    let plan = chain(rt.alloc(), STEPS)?;
    for good in 0..=plan.len() {
        let slow = writer(rt.alloc(), None, false);
        let (answer, written) = run_slowly(
            &rt,
            rt.alloc(),
            reader(plan.as_bytes(), Some(good)),
            slow,
        );
        same(
            &rt,
            (good, answer),
            (good, Err(RunFault::Read)),
            "the answer",
        );
        same(&rt, written.len(), 0, "what is written");
    }
    Ok(())
}

/// Wherever in the report a write fails or takes nothing, the run ends as `Write`.
/// Tests `run`.
#[test]
fn each_failing_write_is_told(rt: HostRuntime) -> Result<(), Fail> {
    let plan = chain(rt.alloc(), STEPS)?;
    for good in 0..CHAIN_PASSED.len() {
        for takes_nothing in [false, true] {
            let failing = writer(rt.alloc(), Some(good), takes_nothing);
            let (answer, _) = run_slowly(&rt, rt.alloc(), reader(plan.as_bytes(), None), failing);
            same(
                &rt,
                (good, answer),
                (good, Err(RunFault::Write)),
                "the answer",
            );
        }
    }
    Ok(())
}

#[test]
fn faults_print_their_lines(rt: HostRuntime) -> Result<(), Fail> {
    for (fault, line) in [
        (RunFault::Read, "read failed"),
        (RunFault::Write, "write failed"),
        (RunFault::TooLong, "plan too long"),
        (RunFault::Plan(PlanFault::BadStep(2)), "plan: P8 node 2"),
        (RunFault::Engine(EngineFault::Memory), "run: E1"),
        (RunFault::Engine(EngineFault::NoThread), "run: E2"),
        (RunFault::Engine(EngineFault::Unjoined(1, 2)), "run: E3"),
        (RunFault::Memory, "run: no memory"),
    ] {
        same(&rt, fault.to_string(rt.alloc())?.as_str(), line, line);
    }
    Ok(())
}

/// A writer that takes the report but cannot flush it ends the run as `Write`.
/// Tests `run`.
#[test]
fn failing_flush_is_told(rt: HostRuntime) -> Result<(), Fail> {
    let plan = chain(rt.alloc(), STEPS)?;
    let mut reader = plan.as_bytes();
    let answer = run(&rt, rt.alloc(), &mut reader, &mut UnflushedWriter, PLAIN);
    same(&rt, answer, Err(RunFault::Write), "the answer");
    Ok(())
}
