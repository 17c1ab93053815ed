//! Cases of one thread that open a store for each batch.
ghost use Rattle.std.specs.Prelude.{All};
ghost use Rattle.ext_store.specs.Stores.{IsCloserOf, IsLaneOf};

use crate::fault::BenchFault;
use crate::opening::{Opened, Payload, chain, names, open, wide};
use crate::spent::{Span, Started};
use crate::work::{compute_all, name_all};
use ext_closing::{CloseAction, close};
use ext_model::Fault;
use ext_store::{Closer, Lane, Store};
use ext_tree::Key;
use std::time::{Clock, CpuClock};

/// How many keys are computed in a context.
const KEYS: u32 = 16;

/// How many keys are named in a store.
const NAMES: u32 = 64;

/// A store of an engine with so many classes opened, with 16 lanes.
pub(crate) fn opening<R: Clock + CpuClock + AllocGlobal>(
    rt: &R,
    classes: u32,
) -> Result<Span, BenchFault> {
    let tree = wide(rt.alloc(), classes);
    let started = Started::now(rt);
    let opened = open(rt.alloc(), tree, 16);
    let span = ended(rt, started, 1);
    match opened.err() {
        None => span,
        Some(fault) => started.and(Err(fault)),
    }
}

/// What was spent since the clocks were started, if they were.
pub(crate) fn ended<R: Clock + CpuClock>(
    rt: &R,
    started: Result<Started, BenchFault>,
    operations: u64,
) -> Result<Span, BenchFault> {
    started?.end(rt, operations)
}

/// Counts what it closes.
#[derive(Clone, Copy)]
pub(crate) struct Counting {
    pub(crate) closed: u64,
}

impl CloseAction<Payload> for Counting {
    ghost close_gives = { λ before number value answer after. Unit {0} };

    fn close(&mut self, number: u32, value: &Payload) -> Result<(), Fault> {
        let is_made = number > 0 && value.number > 0;
        self.closed = self.closed.wrapping_add(u64::from(is_made));
        Ok(())
    }
}

/// All keys computed in each of 255 contexts, which are closed.
pub(crate) fn computing<R: Clock + CpuClock + AllocGlobal>(rt: &R) -> Result<Span, BenchFault> {
    let alloc = rt.alloc();
    match open(alloc, wide(alloc, 255), 1) {
        Ok(opened) => computed_in(rt, opened),
        Err(fault) => Err(fault),
    }
}

/// All keys computed in the contexts of this store but the root, which are closed.
fn computed_in<R: Clock + CpuClock + AllocGlobal>(
    rt: &R,
    opened: Opened,
) -> Result<Span, BenchFault>
    requires lanes { All (IsLaneOf opened.0.id) opened.1.items }
    requires closers { All (IsCloserOf opened.0) opened.2.items }
{
    let mut opened = opened;
    let lanes = opened.1.as_mut_slice();
    let span = computed_and_closed(rt, &opened.0, lanes, &mut opened.2);
    drop(opened);
    span
}

/// All keys computed in the contexts of the closers but the first, which are closed.
fn computed_and_closed<R: Clock + CpuClock + AllocGlobal>(
    rt: &R,
    store: &Store<Payload>,
    lanes: &mut [Lane<Payload>],
    closers: &mut Vec<Closer>,
) -> Result<Span, BenchFault>
    requires lanes { All (IsLaneOf store.now.id) lanes.old }
    requires closers { All (IsCloserOf store.now) closers.old.items }
{
    match names(rt.alloc(), KEYS) {
        Some(names) => spent_on(rt, store, lanes, closers, names.as_slice()),
        None => Err(BenchFault::Opening),
    }
}

/// What is spent when these keys are computed in the contexts of the closers but the first, and
/// closed.
fn spent_on<R: Clock + CpuClock>(
    rt: &R,
    store: &Store<Payload>,
    lanes: &mut [Lane<Payload>],
    closers: &mut Vec<Closer>,
    names: &[Key],
) -> Result<Span, BenchFault>
    requires lanes { All (IsLaneOf store.now.id) lanes.old }
    requires closers { All (IsCloserOf store.now) closers.old.items }
{
    let started = Started::now(rt)?;
    let (_, closed) = close_last(store, lanes, closers, 255, names);
    let span = started.end(rt, closed);
    if closed != 255 * u64::from(KEYS) {
        return Err(BenchFault::Answer);
    }
    span
}

/// Computes these keys in the context of each of the last so many closers and closes it. Says how
/// many contexts were closed, and how many values: none where one is refused.
fn close_last(
    store: &Store<Payload>,
    lanes: &mut [Lane<Payload>],
    closers: &mut Vec<Closer>,
    count: u64,
    names: &[Key],
) -> (u64, u64)
    requires lanes { All (IsLaneOf store.now.id) lanes.old }
    requires closers { All (IsCloserOf store.now) closers.old.items }
{
    let mut counting = Counting { closed: 0 };
    for _ in 0..count {
        if let Some(closer) = closers.pop() {
            if !one_context(store, lanes, closer, names, &mut counting) {
                return (0, 0);
            }
        }
    }
    (count, counting.closed)
}

/// Computes all keys in the closer's context and closes it. Says whether all went well.
fn one_context(
    store: &Store<Payload>,
    lanes: &mut [Lane<Payload>],
    closer: Closer,
    names: &[Key],
    counting: &mut Counting,
) -> bool
    requires lanes { All (IsLaneOf store.now.id) lanes.old }
    requires closer { IsCloserOf store.now closer }
    ensures { All (IsLaneOf store.now.id) lanes.new }
{
    let Some(lane) = lanes.first_mut() else {
        return false;
    };
    let computed = compute_all(store, lane, closer.context(), names);
    if lanes.is_empty() {
        return false;
    }
    computed && close(store, closer, lanes, counting).is_ok()
}

/// Keys named that no lane has named, in a store of their own.
pub(crate) fn naming<R: Clock + CpuClock + AllocGlobal>(rt: &R) -> Result<Span, BenchFault> {
    let alloc = rt.alloc();
    match (open(alloc, chain(alloc, 2), 1), names(alloc, NAMES)) {
        (Ok(opened), Some(names)) => named_in(rt, opened, names.as_slice()),
        _ => Err(BenchFault::Opening),
    }
}

/// These keys named by the last lane of this store.
fn named_in<R: Clock + CpuClock>(rt: &R, opened: Opened, names: &[Key]) -> Result<Span, BenchFault>
    requires { All (IsLaneOf opened.0.id) opened.1.items }
{
    let (store, mut lanes, _closers) = opened;
    match lanes.pop() {
        Some(lane) => named_by(rt, &store, lane, names),
        None => Err(BenchFault::Opening),
    }
}

/// These keys named by the lane.
fn named_by<R: Clock + CpuClock>(
    rt: &R,
    store: &Store<Payload>,
    lane: Lane<Payload>,
    names: &[Key],
) -> Result<Span, BenchFault>
    requires { IsLaneOf store.now.id lane }
{
    let mut lane = lane;
    let started = Started::now(rt)?;
    let named = name_all(store, &mut lane, names);
    let span = started.end(rt, names.len() as u64);
    if !named {
        return Err(BenchFault::Answer);
    }
    span
}

/// All 256 contexts of a store closed, in which nothing stands.
pub(crate) fn closing<R: Clock + CpuClock + AllocGlobal>(rt: &R) -> Result<Span, BenchFault> {
    let alloc = rt.alloc();
    match open(alloc, wide(alloc, 255), 1) {
        Ok(opened) => closed_in(rt, opened),
        Err(fault) => Err(fault),
    }
}

/// All contexts of this store closed.
fn closed_in<R: Clock + CpuClock>(rt: &R, opened: Opened) -> Result<Span, BenchFault>
    requires lanes { All (IsLaneOf opened.0.id) opened.1.items }
    requires closers { All (IsCloserOf opened.0) opened.2.items }
{
    let mut opened = opened;
    let started = Started::now(rt);
    let lanes = opened.1.as_mut_slice();
    let (closed, _) = close_last(&opened.0, lanes, &mut opened.2, 256, &[]);
    let span = ended(rt, started, closed);
    if closed == 256 {
        span
    } else {
        span.and(Err(BenchFault::Answer))
    }
}
