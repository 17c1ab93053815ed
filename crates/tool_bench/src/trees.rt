//! Runs of trees of tests.
ghost use Rattle.std.specs.Prelude.{◌≡◌, IfOk, length};
ghost use Rattle.ext_engine.specs.TreeRun.{IsUsable};
ghost use Rattle.ext_store.specs.Stores.{closers_below};

use crate::alone::ended;
use crate::fault::BenchFault;
use crate::opening::{Payload, size_for, wide_ids};
use crate::spent::{Span, Started};
use crate::suite::PlainSuite;
use ext_engine::{NodeResult, OpenGate, Opened, Status, leaf_laws, open_run, run_tree};
use ext_ids::UniqueId;
use ext_locks::{LockLane, Locks};
use ext_store::{Closer, Lane, Limits, Store};
use std::alloc::Global;
use std::sync::Wait;
use std::thread::Threads;
use std::time::{Clock, CpuClock};

/// A run of an engine with so many tests, which work so many steps each, on so many lanes. An
/// operation is a test. Opening it is not counted.
pub(crate) fn running<R: Threads + Wait + Sync + Clock + CpuClock + AllocGlobal>(
    rt: &R,
    tests: u32,
    steps: u32,
    lanes: usize,
) -> Result<Span, BenchFault> {
    match open_tests(rt.alloc(), tests, lanes) {
        Ok(opened) => run_in(rt, opened, steps),
        Err(fault) => Err(fault),
    }
}

/// What a run of so many tests on so many lanes goes over.
fn open_tests(alloc: Global, tests: u32, lanes: usize) -> Result<Opened<Payload>, BenchFault>
    ensures usable { IfOk result (λ o. IsUsable o.store o.locks (record { first = o.lanes.items; second = o.lock_lanes.items })) }
    ensures closers { IfOk result (λ o. o.closers.items ≡ closers_below o.store.id.cells (length o.store.tree)) }
{
    match wide_ids(alloc, tests) {
        Some(ids) => open_ids(alloc, ids.as_slice(), lanes),
        None => Err(BenchFault::Opening),
    }
}

/// What a run of these contexts on so many lanes goes over.
fn open_ids(alloc: Global, ids: &[UniqueId], lanes: usize) -> Result<Opened<Payload>, BenchFault>
    ensures usable { IfOk result (λ o. IsUsable o.store o.locks (record { first = o.lanes.items; second = o.lock_lanes.items })) }
    ensures closers { IfOk result (λ o. o.closers.items ≡ closers_below o.store.id.cells (length o.store.tree)) }
{
    let limits = Limits {
        size: size_for(ids.len()),
        numbers: 1_000,
        ..Limits::new(lanes)
    };
    match open_run(alloc, ids, &[], limits) {
        Ok(opened) => Ok(opened),
        Err(_) => Err(BenchFault::Opening),
    }
}

/// The run of what was opened.
fn run_in<R: Threads + Wait + Sync + Clock + CpuClock + AllocGlobal>(
    rt: &R,
    opened: Opened<Payload>,
    steps: u32,
) -> Result<Span, BenchFault>
    requires usable { IsUsable opened.store opened.locks (record { first = opened.lanes.items; second = opened.lock_lanes.items }) }
    requires closers { opened.closers.items ≡ closers_below opened.store.id.cells (length opened.store.tree) }
{
    let Opened {
        store,
        mut lanes,
        closers,
        locks,
        mut lock_lanes,
    } = opened;
    run_on(
        rt,
        &store,
        &locks,
        lanes.as_mut_slice(),
        lock_lanes.as_mut_slice(),
        closers,
        steps,
    )
}

/// The run over this store with these locks.
fn run_on<R: Threads + Wait + Sync + Clock + CpuClock + AllocGlobal>(
    rt: &R,
    store: &Store<Payload>,
    locks: &Locks,
    lanes: &mut [Lane<Payload>],
    lock_lanes: &mut [LockLane],
    closers: Vec<Closer>,
    steps: u32,
) -> Result<Span, BenchFault>
    requires usable { IsUsable store.now locks.now (record { first = lanes.old; second = lock_lanes.old }) }
    requires closers { closers.items ≡ closers_below store.now.id.cells (length store.now.tree) }
{
    let suite = PlainSuite {
        tree: store.tree(),
        steps,
    };
    leaf_laws(&suite, store, locks);
    let started = Started::now_of_all(rt);
    let results = run_tree(
        rt,
        rt.alloc(),
        &suite,
        store,
        locks,
        lanes,
        lock_lanes,
        closers,
        &OpenGate,
    );
    let span = ended(rt, started, store.tree().len() as u64 - 1);
    match results {
        Ok(results) if are_successful(results.as_slice()) => span,
        _ => Err(BenchFault::Answer),
    }
}

/// Whether all nodes ended so.
fn are_successful(results: &[NodeResult]) -> bool {
    results.iter().all(|node| node.status == Status::Successful)
}

/// What a run of so many tests on so many lanes goes over, opened over ids that were read before.
pub(crate) fn opening_run<R: Clock + CpuClock + AllocGlobal>(
    rt: &R,
    tests: u32,
    lanes: usize,
) -> Result<Span, BenchFault> {
    match wide_ids(rt.alloc(), tests) {
        Some(ids) => opened_over(rt, ids.as_slice(), lanes),
        None => Err(BenchFault::Opening),
    }
}

fn opened_over<R: Clock + CpuClock + AllocGlobal>(
    rt: &R,
    ids: &[UniqueId],
    lanes: usize,
) -> Result<Span, BenchFault> {
    let started = Started::now_of_all(rt);
    let opened = open_ids(rt.alloc(), ids, lanes);
    let span = ended(rt, started, 1);
    match opened.err() {
        None => span,
        Some(fault) => Err(fault),
    }
}
