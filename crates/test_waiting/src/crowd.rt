//! Sixteen lanes that compute, look, put and remove in one store.
ghost use Rattle.std.specs.Prelude.{◌<◌, All, length};
ghost use Rattle.ext_store.specs.Stores.{IsLaneOf};

use crate::held::{same, watch};
use crate::opening::{Letter, limits, with_store};
use ext_model::{ContextNo, Fault, Look};
use ext_store::{Closer, Compute, Lane, Store};
use ext_tree::Key;
use std::alloc::Global;
use std::process::Abort;
use std::sync::Wait;
use std::sync::atomic::{AtomicU64, Ordering};
use std::test::Fail;
use std::thread::{Threads, for_each_mut, join};
use std::time::Clock;

// How many rounds each of the sixteen lanes makes in a store, and how many stores there are.
// `scripts/soak waits` raises the latter.
const ROUNDS: u64 = 1_000;

const STORES: u32 = 1;

/// What all lanes did together.
#[derive(Drop)]
struct Counts {
    /// How often a factory gave a value, and was answered as computed.
    made: AtomicU64,
    computed: AtomicU64,
    /// How often a factory failed, and its fault was answered as kept.
    failed: AtomicU64,
    faults: AtomicU64,
    /// Values that were put, and numbers that a put answered.
    put: AtomicU64,
    replaced: AtomicU64,
    removed: AtomicU64,
    /// Answers that no waiting form may give here.
    wrong: AtomicU64,
    /// Lanes that have made all their rounds.
    ended: AtomicU64,
}

impl Counts {
    fn new() -> Counts {
        Counts {
            made: AtomicU64::new(0),
            computed: AtomicU64::new(0),
            failed: AtomicU64::new(0),
            faults: AtomicU64::new(0),
            put: AtomicU64::new(0),
            replaced: AtomicU64::new(0),
            removed: AtomicU64::new(0),
            wrong: AtomicU64::new(0),
            ended: AtomicU64::new(0),
        }
    }

    /// All counts as they stand.
    fn told(&self) -> Totals {
        Totals {
            made: self.made.load(Ordering::SeqCst),
            computed: self.computed.load(Ordering::SeqCst),
            failed: self.failed.load(Ordering::SeqCst),
            faults: self.faults.load(Ordering::SeqCst),
            put: self.put.load(Ordering::SeqCst),
            replaced: self.replaced.load(Ordering::SeqCst),
            removed: self.removed.load(Ordering::SeqCst),
            wrong: self.wrong.load(Ordering::SeqCst),
        }
    }
}

/// The numbers of values made and computed, of factories that failed and faults kept, of values
/// put, of numbers replaced and removed, and of wrong answers.
#[derive(Clone, Copy)]
struct Totals {
    made: u64,
    computed: u64,
    failed: u64,
    faults: u64,
    put: u64,
    replaced: u64,
    removed: u64,
    wrong: u64,
}

/// What the lanes of a store do, and whether it keeps faults.
#[derive(Clone, Copy)]
enum Work {
    /// They compute and remove.
    Computes,
    /// They make all calls, and factories fail among them.
    AllCalls,
    /// The same in a store that keeps faults.
    KeepsFaults,
}

fn add(word: &AtomicU64) {
    word.fetch_add(1, Ordering::SeqCst);
}

/// Computes in the context, by a factory that fails where it is to.
fn compute<R: Wait>(
    rt: &R,
    store: &Store<Letter>,
    lane: &mut Lane<Letter>,
    context: ContextNo,
    key: &Key,
    fails: bool,
    counts: &Counts,
)
    requires lane { IsLaneOf store.now.id lane.old }
    requires context { context < length store.now.tree }
    ensures { IsLaneOf store.now.id lane.new }
{
    let factory = |_key: &Key| -> Result<Letter, Fault> {
        if fails {
            add(&counts.failed);
            return Err(Fault::Memory);
        }
        add(&counts.made);
        Ok(Letter { letter: 'x' })
    };
    match store.compute_wait(rt, lane, context, key, factory) {
        Compute::Computed { .. } => add(&counts.computed),
        Compute::Found { .. } => {}
        Compute::Failed(_) if fails && !store.keeps_faults() => {}
        Compute::FaultKept { .. } if fails => add(&counts.faults),
        Compute::FaultStands { .. } if store.keeps_faults() => {}
        _ => add(&counts.wrong),
    }
}

/// Takes what stands in the context.
fn remove<R: Wait>(
    rt: &R,
    store: &Store<Letter>,
    lane: &mut Lane<Letter>,
    context: ContextNo,
    key: &Key,
    counts: &Counts,
)
    requires lane { IsLaneOf store.now.id lane.old }
    requires context { context < length store.now.tree }
    ensures { IsLaneOf store.now.id lane.new }
{
    match store.remove_wait(rt, lane, context, key) {
        Ok(Some(_)) => add(&counts.removed),
        Ok(None) => {}
        Err(_) => add(&counts.wrong),
    }
}

/// Keeps a value and puts it in the context.
fn put<R: Wait>(
    rt: &R,
    store: &Store<Letter>,
    lane: &mut Lane<Letter>,
    context: ContextNo,
    key: &Key,
    counts: &Counts,
)
    requires lane { IsLaneOf store.now.id lane.old }
    requires context { context < length store.now.tree }
    ensures { IsLaneOf store.now.id lane.new }
{
    let Ok(kept) = store.keep_wait(lane, Letter { letter: 'y' }) else {
        add(&counts.wrong);
        return;
    };
    add(&counts.put);
    match store.put_wait(rt, lane, context, key, kept) {
        Ok(Some(_)) => add(&counts.replaced),
        Ok(None) => {}
        Err(_) => add(&counts.wrong),
    }
}

/// Looks from the method.
fn look<R: Wait>(rt: &R, store: &Store<Letter>, lane: &mut Lane<Letter>, key: &Key, counts: &Counts)
    requires lane { IsLaneOf store.now.id lane.old }
    requires context { 2 < length store.now.tree }
    ensures { IsLaneOf store.now.id lane.new }
{
    match store.get_wait(rt, lane, 2, key) {
        Ok(Look::Found { .. } | Look::Absent) => {}
        Ok(Look::Fault { .. }) if store.keeps_faults() => {}
        _ => add(&counts.wrong),
    }
}

/// Computes and removes at one place, again and again.
fn compute_and_remove<R: Wait>(
    rt: &R,
    store: &Store<Letter>,
    lane: &mut Lane<Letter>,
    key: &Key,
    counts: &Counts,
)
    requires lane { IsLaneOf store.now.id lane.old }
    requires context { 2 < length store.now.tree }
{
    for _ in 0..ROUNDS {
        compute(rt, store, lane, 1, key, false, counts);
        remove(rt, store, lane, 1, key, counts);
    }
    add(&counts.ended);
}

/// Makes all calls, in each of the contexts in turn.
fn make_all_calls<R: Wait>(
    rt: &R,
    store: &Store<Letter>,
    lane: &mut Lane<Letter>,
    key: &Key,
    counts: &Counts,
)
    requires lane { IsLaneOf store.now.id lane.old }
    requires contexts { 2 < length store.now.tree }
{
    for round in 0..ROUNDS {
        let context = (round % 3) as usize;
        compute(rt, store, lane, context, key, round % 7 == 3, counts);
        look(rt, store, lane, key, counts);
        put(rt, store, lane, context, key, counts);
        remove(rt, store, lane, context, key, counts);
    }
    add(&counts.ended);
}

/// Has all lanes make their rounds at once, each in a thread of its own.
fn run<R: Threads + Wait + Sync>(
    rt: &R,
    store: &Store<Letter>,
    lanes: &mut [Lane<Letter>],
    key: &Key,
    work: Work,
    counts: &Counts,
)
    requires lanes { All (IsLaneOf store.now.id) lanes.old }
    requires contexts { 2 < length store.now.tree }
{
    for_each_mut(
        rt,
        lanes,
        16,
        &|_, lane: &mut Lane<Letter>|
            requires lane { IsLaneOf store.now.id lane.old }
            requires contexts { 2 < length store.now.tree }
        {
            match work {
                Work::Computes => compute_and_remove(rt, store, lane, key, counts),
                Work::AllCalls | Work::KeepsFaults => make_all_calls(rt, store, lane, key, counts),
            }
        },
    );
}

/// What all lanes did together. The test fails where a lane has not made its rounds in time.
fn told<R: Abort + Clock + Threads + Wait + Sync>(
    rt: &R,
    store: &Store<Letter>,
    key: &Key,
    lanes: &mut [Lane<Letter>],
    work: Work,
) -> Totals
    requires lanes { All (IsLaneOf store.now.id) lanes.old }
    requires contexts { 2 < length store.now.tree }
{
    let counts = Counts::new();
    let shared = &counts;
    join(
        rt,
        move ||
            requires { All (IsLaneOf store.now.id) lanes.now × (2 < length store.now.tree) }
        { run(rt, store, lanes, key, work, shared) },
        || watch(rt, &shared.ended, 16),
    );
    counts.told()
}

/// Asserts that so many values were put, that no answer was wrong, that each fault of a factory is
/// kept in a store that keeps them and none in another one, and that each number that stood is
/// removed or replaced.
fn settle<R: Abort>(rt: &R, told: Totals, work: Work, puts: u64) {
    same(rt, told.wrong, 0, "wrong answers");
    same(rt, told.computed, told.made, "values made");
    same(rt, told.put, puts, "values put");
    let faults = match work {
        Work::KeepsFaults => told.failed,
        Work::Computes | Work::AllCalls => 0,
    };
    same(rt, told.faults, faults, "faults kept");
    same(rt, told.replaced <= told.put, true, "numbers replaced");
    let stored = told.computed.wrapping_add(told.put);
    same(
        rt,
        told.removed.wrapping_add(told.replaced),
        stored.wrapping_add(told.faults),
        "numbers that stand no longer",
    );
}

/// Has all lanes of a store make their rounds, which put so many values.
fn crowd_in_store<R: Abort + Clock + Threads + Wait + Sync>(
    rt: &R,
    alloc: Global,
    work: Work,
    puts: u64,
) -> Result<(), Fail> {
    let keep_faults = matches!(work, Work::KeepsFaults);
    with_store(
        alloc,
        limits(16, keep_faults),
        |store: &Store<Letter>, key: &Key, lanes: &mut [Lane<Letter>], _closers: &mut Vec<Closer>|
            requires lanes { All (IsLaneOf store.now.id) lanes.old }
            requires contexts { 2 < length store.now.tree }
        { settle(rt, told(rt, store, key, lanes, work), work, puts) },
    )
}

/// Tests `Store::compute_wait` and `Store::remove_wait`.
#[test]
fn sixteen_lanes_compute_and_remove(rt: HostRuntime) -> Result<(), Fail> {
    for _ in 0..STORES {
        crowd_in_store(&rt, rt.alloc(), Work::Computes, 0)?;
    }
    Ok(())
}

/// Tests `Store::compute_wait`, `Store::get_wait`, `Store::put_wait`, `Store::remove_wait` and
/// `Store::keep_wait`.
#[test]
fn sixteen_lanes_make_all_calls(rt: HostRuntime) -> Result<(), Fail> {
    for _ in 0..STORES {
        crowd_in_store(&rt, rt.alloc(), Work::AllCalls, 16 * ROUNDS)?;
    }
    Ok(())
}

/// Tests `Store::compute_wait`, `Store::get_wait`, `Store::put_wait`, `Store::remove_wait` and
/// `Store::keep_wait`.
#[test]
fn sixteen_lanes_make_all_calls_and_keep_faults(rt: HostRuntime) -> Result<(), Fail> {
    for _ in 0..STORES {
        crowd_in_store(&rt, rt.alloc(), Work::KeepsFaults, 16 * ROUNDS)?;
    }
    Ok(())
}
