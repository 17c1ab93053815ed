//! Batches of the cases that run on one thread or several.
ghost use Rattle.std.specs.Prelude.{All};
ghost use Rattle.ext_store.specs.Stores.{IsLaneOf};

use crate::case::Case;
use crate::fault::BenchFault;
use crate::opening::{Opened, Payload, chain, names, open, wide};
use crate::spent::{Span, Started};
use crate::work::{
    compute_often, look_up, look_up_in_turn, look_up_numbered, put_and_remove, put_in_each,
    put_one, put_over,
};
use ext_store::{Lane, Store};
use ext_tree::{Key, Tree};
use std::alloc::Global;
use std::thread::{Threads, map_vec};
use std::time::{Clock, CpuClock};

/// How often a key is looked up in a batch.
const LOOKS: u32 = 200_000;

/// How many values a thread puts in a batch: of 65,535 numbers there are as many for each of 16
/// threads.
const PUTS: u32 = 4_095;

/// The case's contexts.
fn contexts(alloc: Global, case: Case) -> Option<Tree> {
    match case {
        Case::GetRoot16 => chain(alloc, 15),
        Case::GetRootNumbered(classes, _) => wide(alloc, classes),
        _ => chain(alloc, 2),
    }
}

/// A batch of the case: what each thread spent that is counted.
pub(crate) fn batch<R: Threads + Sync + Clock + CpuClock + AllocGlobal>(
    rt: &R,
    case: Case,
    threads: usize,
) -> Result<Vec<Span>, BenchFault> {
    match names(rt.alloc(), 2) {
        Some(names) => batch_by(rt, case, threads, names.as_slice()),
        None => Err(BenchFault::Opening),
    }
}

/// The same by these keys.
fn batch_by<R: Threads + Sync + Clock + CpuClock + AllocGlobal>(
    rt: &R,
    case: Case,
    threads: usize,
    names: &[Key],
) -> Result<Vec<Span>, BenchFault> {
    let [key, other] = names else {
        return Err(BenchFault::Opening);
    };
    let job = Job {
        case,
        threads,
        key,
        other,
    };
    open_and_run(rt, job)
}

/// What each thread of a batch does, with which keys.
#[derive(Clone, Copy)]
struct Job<'a> {
    case: Case,
    threads: usize,
    key: &'a Key,
    other: &'a Key,
}

/// What each thread of the job spent that is counted, on a store of their own.
fn open_and_run<R: Threads + Sync + Clock + CpuClock + AllocGlobal>(
    rt: &R,
    job: Job<'_>,
) -> Result<Vec<Span>, BenchFault> {
    let alloc = rt.alloc();
    // One more for what stands before the batch.
    let count = job.threads.min(14) + usize::from(job.case.has_writer()) + 1;
    match open(alloc, contexts(alloc, job.case), count) {
        Ok(opened) => spans_in(rt, opened, job),
        Err(fault) => Err(fault),
    }
}

/// What each thread of the job spent that is counted, on this store.
fn spans_in<R: Threads + Sync + Clock + CpuClock + AllocGlobal>(
    rt: &R,
    opened: Opened,
    job: Job<'_>,
) -> Result<Vec<Span>, BenchFault>
    requires { All (IsLaneOf opened.0.id) opened.1.items }
{
    let (store, lanes, _closers) = opened;
    spans_of(rt, &store, lanes, job)
}

/// What the thread of each of these lanes spent that is counted.
fn spans_of<R: Threads + Sync + Clock + CpuClock + AllocGlobal>(
    rt: &R,
    store: &Store<Payload>,
    lanes: Vec<Lane<Payload>>,
    job: Job<'_>,
) -> Result<Vec<Span>, BenchFault>
    requires { All (IsLaneOf store.now.id) lanes.items }
{
    let done = run(rt, store, lanes, job)?;
    counted_of(rt.alloc(), done.as_slice())
}

/// What came of each lane's job, over what stands before the batch.
fn run<R: Threads + Sync + Clock + CpuClock>(
    rt: &R,
    store: &Store<Payload>,
    lanes: Vec<Lane<Payload>>,
    job: Job<'_>,
) -> Result<Vec<Result<Option<Span>, BenchFault>>, BenchFault>
    requires { All (IsLaneOf store.now.id) lanes.items }
{
    let mut lanes = lanes;
    prepare(store, &mut lanes, job)?;
    on_threads(rt, store, lanes, job)
}

/// What came of each lane's job, each in a thread of its own.
fn on_threads<R: Threads + Sync + Clock + CpuClock>(
    rt: &R,
    store: &Store<Payload>,
    lanes: Vec<Lane<Payload>>,
    job: Job<'_>,
) -> Result<Vec<Result<Option<Span>, BenchFault>>, BenchFault>
    requires { All (IsLaneOf store.now.id) lanes.items }
{
    let on_lane = |lane: Lane<Payload>| -> Result<Option<Span>, BenchFault>
        requires { IsLaneOf store.now.id lane }
    {
        let mut lane = lane;
        work(rt, job, store, &mut lane)
    };
    map_vec(rt, lanes, &on_lane).or(Err(BenchFault::Opening))
}

/// Those that are counted, or the first fault.
fn counted_of(
    alloc: Global,
    done: &[Result<Option<Span>, BenchFault>],
) -> Result<Vec<Span>, BenchFault> {
    let mut counted = Vec::new(alloc);
    for span in done {
        count(&mut counted, *span)?;
    }
    Ok(counted)
}

/// One more that may be counted.
fn count(
    counted: &mut Vec<Span>,
    span: Result<Option<Span>, BenchFault>,
) -> Result<(), BenchFault> {
    match span? {
        Some(span) => counted.push(span).or(Err(BenchFault::Opening)),
        None => Ok(()),
    }
}

/// Takes a lane, by which it puts what stands before the batch.
fn prepare(
    store: &Store<Payload>,
    lanes: &mut Vec<Lane<Payload>>,
    job: Job<'_>,
) -> Result<(), BenchFault>
    requires { All (IsLaneOf store.now.id) lanes.old.items }
    ensures { All (IsLaneOf store.now.id) lanes.new.items }
{
    match lanes.pop() {
        Some(lane) => put_first(store, lane, job),
        None => Err(BenchFault::Opening),
    }
}

/// Puts what stands before the batch.
fn put_first(store: &Store<Payload>, lane: Lane<Payload>, job: Job<'_>) -> Result<(), BenchFault>
    requires lane { IsLaneOf store.now.id lane }
{
    let mut lane = lane;
    let deepest = store.tree().len() - 1;
    let stored = match job.case {
        Case::GetAbsent3 => true,
        Case::GetOwn3 | Case::PutOver => put_one(store, &mut lane, deepest, job.key, 1),
        Case::GetRootNumbered(..) => {
            put_one(store, &mut lane, 0, job.key, 1) && put_in_each(store, &mut lane, job.other)
        }
        _ => put_one(store, &mut lane, 0, job.key, 1),
    };
    if stored {
        Ok(())
    } else {
        Err(BenchFault::Answer)
    }
}

/// A thread's operations; none is counted of the thread that writes beside the others.
fn work<R: Clock + CpuClock>(
    rt: &R,
    job: Job<'_>,
    store: &Store<Payload>,
    lane: &mut Lane<Payload>,
) -> Result<Option<Span>, BenchFault>
    requires lane { IsLaneOf store.now.id lane.old }
{
    let writes = job.case.has_writer() && lane.number() == job.threads;
    let started = Started::now(rt)?;
    let done = operate(store, lane, job, writes)?;
    let span = started.end(rt, done)?;
    Ok((!writes).then_some(span))
}

/// The operations of a thread that writes beside the others, or of one that doesn't. Answers how
/// many they were.
fn operate(
    store: &Store<Payload>,
    lane: &mut Lane<Payload>,
    job: Job<'_>,
    writes: bool,
) -> Result<u64, BenchFault>
    requires lane { IsLaneOf store.now.id lane.old }
{
    let (key, deepest) = (job.key, store.tree().len() - 1);
    match job.case {
        Case::GetBesideOther if writes => put_over(store, lane, 0, job.other, 60_000),
        Case::GetBesideSame if writes => put_over(store, lane, 0, key, 60_000),
        Case::GetRoot3Numbered => look_up_numbered(store, lane, deepest, key, LOOKS, false),
        Case::GetRoot3Shown => look_up_numbered(store, lane, deepest, key, LOOKS, true),
        Case::GetRootNumbered(_, last) => look_up_in_turn(store, lane, key, last, 10 * LOOKS),
        Case::GetAbsent3 => look_up(store, lane, deepest, key, LOOKS, false),
        Case::PutOver => put_over(store, lane, deepest, key, PUTS),
        Case::PutRemove => put_and_remove(store, lane, deepest, key, PUTS),
        Case::ComputeHot => compute_often(store, lane, deepest, key, LOOKS),
        _ => look_up(store, lane, deepest, key, LOOKS, true),
    }
}
