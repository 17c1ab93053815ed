//! Claims that end just as another lane begins to wait for them.
ghost use Rattle.std.specs.Prelude.{◌<◌, length};
ghost use Rattle.ext_store.specs.Stores.{IsLaneOf};

use crate::held::{same, spin, watch_next};
use crate::opening::{Letter, limits, with_pair};
use ext_model::{Fault, Look};
use ext_store::{Compute, Lane, Store};
use ext_tree::Key;
use std::alloc::Global;
use std::process::Abort;
use std::sync::Wait;
use std::sync::atomic::{AtomicU64, Ordering};
use std::test::Fail;
use std::thread::{Threads, join};
use std::time::Clock;

// How many claims there are for each kind of call, how much later each ends than the one before, in
// turns, and after how many it is at once again.
pub(crate) const ROUNDS: u64 = 512;

const LATER: u64 = 16;

const DELAYS: u64 = 64;

/// After how many turns the claim of the round after so many others ends.
pub(crate) fn turns_after(rounds: u64) -> u64 {
    rounds % DELAYS * LATER
}

/// How far the two lanes are.
#[derive(Drop)]
pub(crate) struct Progress {
    /// How many claims there were.
    pub(crate) claimed: AtomicU64,
    /// The last round in which the other lane was answered.
    pub(crate) answered: AtomicU64,
}

impl Progress {
    pub(crate) fn new() -> Progress {
        Progress {
            claimed: AtomicU64::new(0),
            answered: AtomicU64::new(0),
        }
    }
}

/// How the claims end.
#[derive(Clone, Copy)]
enum End {
    /// They are given up.
    GivenUp,
    /// By the value of a compute that waits.
    Filled,
    /// By the fault of its factory, which is kept.
    Failed,
}

impl End {
    /// How many claims there are: beside those that are given up four kinds of calls are made.
    fn rounds(self) -> u64 {
        match self {
            End::GivenUp => 4 * ROUNDS,
            End::Filled | End::Failed => ROUNDS,
        }
    }
}

/// Claims the class's place, and gives the claim up so many turns later.
fn give_up<R: Abort>(
    rt: &R,
    store: &Store<Letter>,
    lane: &mut Lane<Letter>,
    key: &Key,
    claimed: &AtomicU64,
    turns: u64,
)
    requires lane { IsLaneOf store.now.id lane.old }
    requires context { 1 < length store.now.tree }
    ensures { IsLaneOf store.now.id lane.new }
{
    let Ok(claim) = store.begin(lane, 1, key) else {
        panic!(rt; "no claim");
    };
    claimed.fetch_add(1, Ordering::SeqCst);
    spin(turns);
    store.abandon(lane, claim);
}

/// Computes in the class, by a factory that takes so many turns, and fails where it is to.
fn compute<R: Wait>(
    rt: &R,
    store: &Store<Letter>,
    lane: &mut Lane<Letter>,
    key: &Key,
    claimed: &AtomicU64,
    turns: u64,
    fails: bool,
)
    requires lane { IsLaneOf store.now.id lane.old }
    requires context { 1 < length store.now.tree }
    ensures { IsLaneOf store.now.id lane.new }
{
    let factory = |_key: &Key| -> Result<Letter, Fault> {
        claimed.fetch_add(1, Ordering::SeqCst);
        spin(turns);
        if fails {
            Err(Fault::Memory)
        } else {
            Ok(Letter { letter: 'x' })
        }
    };
    let _computed = store.compute_wait(rt, lane, 1, key, factory);
}

/// Claims the class's place, and ends the claim so many turns later.
fn claim<R: Abort + Wait>(
    rt: &R,
    store: &Store<Letter>,
    lane: &mut Lane<Letter>,
    key: &Key,
    claimed: &AtomicU64,
    turns: u64,
    end: End,
)
    requires lane { IsLaneOf store.now.id lane.old }
    requires context { 1 < length store.now.tree }
    ensures { IsLaneOf store.now.id lane.new }
{
    match end {
        End::GivenUp => give_up(rt, store, lane, key, claimed, turns),
        End::Filled => compute(rt, store, lane, key, claimed, turns, false),
        End::Failed => compute(rt, store, lane, key, claimed, turns, true),
    }
}

/// In each round claims the class's place, and ends the claim some turns later. The next round
/// begins once the other lane was answered: so a wake that it misses is the last.
fn claim_in_rounds<R: Abort + Clock + Wait>(
    rt: &R,
    store: &Store<Letter>,
    lane: &mut Lane<Letter>,
    key: &Key,
    progress: &Progress,
    end: End,
)
    requires lane { IsLaneOf store.now.id lane.old }
    requires context { 1 < length store.now.tree }
{
    for before in 0..end.rounds() {
        let turns = turns_after(before);
        claim(rt, store, lane, key, &progress.claimed, turns, end);
        watch_next(rt, &progress.answered, before);
    }
}

/// Whether a put in the class is answered over nothing, and the remove after it.
fn put_and_remove<R: Wait>(
    rt: &R,
    store: &Store<Letter>,
    lane: &mut Lane<Letter>,
    key: &Key,
) -> bool
    requires lane { IsLaneOf store.now.id lane.old }
    requires context { 1 < length store.now.tree }
    ensures { IsLaneOf store.now.id lane.new }
{
    let Ok(kept) = store.keep_wait(lane, Letter { letter: 'x' }) else {
        return false;
    };
    let number = kept.number();
    store.put_wait(rt, lane, 1, key, kept).is_ok()
        && store.remove_wait(rt, lane, 1, key) == Ok(Some(number))
}

/// Whether a call of the round's kind is answered as where nothing stands, or a remove as where
/// something does, and leaves nothing.
fn call<R: Wait>(
    rt: &R,
    store: &Store<Letter>,
    lane: &mut Lane<Letter>,
    key: &Key,
    round: u64,
    end: End,
) -> bool
    requires lane { IsLaneOf store.now.id lane.old }
    requires context { 2 < length store.now.tree }
    ensures { IsLaneOf store.now.id lane.new }
{
    if !matches!(end, End::GivenUp) {
        return matches!(store.remove_wait(rt, lane, 1, key), Ok(Some(_)));
    }
    match round / DELAYS % 4 {
        0 => store.get_wait(rt, lane, 2, key) == Ok(Look::Absent),
        1 => store.remove_wait(rt, lane, 1, key) == Ok(None),
        2 => put_and_remove(rt, store, lane, key),
        _ => {
            let fails = |_key: &Key| -> Result<Letter, Fault> { Err(Fault::Memory) };
            let computed = store.compute_wait(rt, lane, 1, key, fails);
            matches!(computed, Compute::Failed(_))
        }
    }
}

/// In each round makes a call once the place is claimed. Says how many were answered as they have
/// to be.
fn call_in_rounds<R: Abort + Clock + Wait>(
    rt: &R,
    store: &Store<Letter>,
    lane: &mut Lane<Letter>,
    key: &Key,
    progress: &Progress,
    end: End,
) -> u64
    requires lane { IsLaneOf store.now.id lane.old }
    requires context { 2 < length store.now.tree }
{
    let mut right = 0u64;
    for before in 0..end.rounds() {
        watch_next(rt, &progress.claimed, before);
        if call(rt, store, lane, key, before, end) {
            right = right.saturating_add(1);
        }
        progress.answered.store(before + 1, Ordering::SeqCst);
    }
    right
}

/// Asserts that the second lane is answered in each round.
fn call_beside<R: Abort + Clock + Threads + Wait + Sync>(
    rt: &R,
    store: &Store<Letter>,
    key: &Key,
    first: &mut Lane<Letter>,
    second: &mut Lane<Letter>,
    end: End,
)
    requires first { IsLaneOf store.now.id first.old }
    requires second { IsLaneOf store.now.id second.old }
    requires contexts { 2 < length store.now.tree }
{
    let progress = &Progress::new();
    let ((), right) = join(
        rt,
        ||
            requires { IsLaneOf store.now.id first.now × (1 < length store.now.tree) }
        { claim_in_rounds(rt, store, first, key, progress, end) },
        || call_in_rounds(rt, store, second, key, progress, end),
    );
    same(rt, right, end.rounds(), "the right answers");
}

/// The same in a store of its own.
fn call_in_store<R: Abort + Clock + Threads + Wait + Sync>(
    rt: &R,
    alloc: Global,
    end: End,
) -> Result<(), Fail> {
    with_pair(
        rt,
        alloc,
        limits(2, matches!(end, End::Failed)),
        |rt: &R, store: &Store<Letter>, key: &Key, first: &mut Lane<Letter>, second: &mut Lane<
            Letter,
        >|
            requires first { IsLaneOf store.now.id first.old }
            requires second { IsLaneOf store.now.id second.old }
            requires contexts { 2 < length store.now.tree }
        { call_beside(rt, store, key, first, second, end) },
    )
}

/// Tests `Store::get_wait`, `Store::put_wait`, `Store::remove_wait`, `Store::compute_wait`,
/// `Store::abandon`, `Waiting::pause` and `Waiters::wake_all`.
#[test]
fn lane_tries_once_more_before_it_sleeps(rt: HostRuntime) -> Result<(), Fail> {
    call_in_store(&rt, rt.alloc(), End::GivenUp)
}

/// A compute ends its claim, by a value or by a fault, before it wakes who waits.
/// Tests `Store::compute_wait` and `Store::remove_wait`.
#[test]
fn claim_ends_before_a_compute_wakes(rt: HostRuntime) -> Result<(), Fail> {
    call_in_store(&rt, rt.alloc(), End::Filled)?;
    call_in_store(&rt, rt.alloc(), End::Failed)
}
