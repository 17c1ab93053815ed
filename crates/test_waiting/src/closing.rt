//! A put that waits for a factory whose context is closed once the factory has ended.
ghost use Rattle.std.specs.Prelude.{◌≡◌, ◌<◌, All, IfErr, length};
ghost use Rattle.ext_store.specs.Stores.{IsCloserOf, IsLaneOf};

use crate::held::{Ended, Gate, compute_held, same, spin};
use crate::opening::{Letter, limits, with_store};
use ext_closing::{CloseAction, CloseFault, close};
use ext_model::Fault;
use ext_store::{Closer, Lane, Refusal, Store};
use ext_tree::Key;
use std::alloc::Global;
use std::process::Abort;
use std::sync::Wait;
use std::test::Fail;
use std::thread::{Threads, join_mut};
use std::time::Clock;

// How often the put and the close race for the place, and by how many turns the close comes later
// each time.
const RACES: u64 = 16;

const LATER: u64 = 2_000;

/// Closes every value.
#[derive(Drop)]
struct Close;

impl CloseAction<Letter> for Close {
    ghost close_gives = { λ before number value answer after. Unit {0} };

    fn close(&mut self, _number: u32, _value: &Letter) -> Result<(), Fault> {
        Ok(())
    }
}

/// What became of the first lane's close: how many values it closed, or its closer and why it
/// closed none.
pub(crate) type First = Result<u32, (Closer, CloseFault)>;

/// Closes the class.
pub(crate) fn close_class<R: Abort>(
    rt: &R,
    store: &Store<Letter>,
    hand: &mut [Lane<Letter>],
    closers: &mut Vec<Closer>,
) -> First
    requires one { length hand.old ≡ 1 }
    requires lane { All (IsLaneOf store.now.id) hand.old }
    requires closers { All (IsCloserOf store.now) closers.old.items }
    ensures lane { All (IsLaneOf store.now.id) hand.new }
    ensures closer { IfErr result (λ e. IsCloserOf store.now e.0) }
{
    assert!(rt; closers.len() == 3);
    match close(store, closers.remove(1), hand, &mut Close) {
        Ok(closed) => Ok(closed.closed),
        Err(refused) => Err(refused),
    }
}

/// Computes the class's value by a factory that is held, and then closes the class some turns
/// later.
fn compute_and_close<R: Abort + Clock + Wait>(
    rt: &R,
    store: &Store<Letter>,
    hand: &mut [Lane<Letter>],
    closers: &mut Vec<Closer>,
    key: &Key,
    gate: &Gate,
    turns: u64,
) -> First
    requires one { length hand.old ≡ 1 }
    requires lane { All (IsLaneOf store.now.id) hand.old }
    requires closers { All (IsCloserOf store.now) closers.old.items }
    requires context { 1 < length store.now.tree }
    ensures lane { All (IsLaneOf store.now.id) hand.new }
    ensures closer { IfErr result (λ e. IsCloserOf store.now e.0) }
{
    let computed = compute_held(rt, store, &mut hand[0], key, gate, false, false);
    same(rt, computed, Ended::Computed(2), "the compute");
    spin(turns);
    let closed = close_class(rt, store, hand, closers);
    gate.watch(rt);
    closed
}

/// What became of the second lane's put: it stored its number over another one, or its number came
/// back and why; nothing where its value was not kept.
type Second = Option<Result<Option<u32>, (u32, Refusal)>>;

/// Keeps a value, whose number is 1, and puts it in the class while the factory runs.
fn put_beside<R: Wait + Clock>(
    rt: &R,
    store: &Store<Letter>,
    lane: &mut Lane<Letter>,
    key: &Key,
    gate: &Gate,
) -> Second
    requires lane { IsLaneOf store.now.id lane.old }
    requires context { 1 < length store.now.tree }
    ensures lane { IsLaneOf store.now.id lane.new }
{
    let Ok(kept) = store.keep_wait(lane, Letter { letter: 'z' }) else {
        return None;
    };
    gate.come(rt);
    let second = match store.put_wait(rt, lane, 1, key, kept) {
        Ok(stood) => Ok(stood),
        Err((kept, why)) => Err((kept.number(), why)),
    };
    gate.end();
    Some(second)
}

/// Asserts that the second lane's value is not lost: it came back, or it was stored over the
/// factory's, and is closed with its context once its lane is in hand too.
fn settle<R: Abort>(
    rt: &R,
    store: &Store<Letter>,
    lanes: &mut [Lane<Letter>],
    first: First,
    second: Second,
)
    requires two { length lanes.old ≡ 2 }
    requires lanes { All (IsLaneOf store.now.id) lanes.old }
    requires closer { IfErr first (λ e. IsCloserOf store.now e.0) }
{
    match first {
        Ok(count) => {
            same(rt, count, 1, "the values that are closed");
            let back = Some(Err((1, Refusal::Closed(1))));
            same(rt, second, back, "the put that came later");
        }
        Err((closer, fault)) => {
            let unjoined = CloseFault::Unjoined(1);
            same(rt, fault, unjoined, "the close by the first lane");
            let stored = Some(Ok(Some(2)));
            same(rt, second, stored, "the put that came first");
            let Ok(closed) = close(store, closer, lanes, &mut Close) else {
                panic!(rt; "the value that was put is not closed");
            };
            same(rt, closed.closed, 1, "the values that are closed");
        }
    }
}

/// What became of the close by the first lane and of the put by the second one, at once.
fn outcomes<R: Abort + Clock + Threads + Wait + Sync>(
    rt: &R,
    store: &Store<Letter>,
    key: &Key,
    lanes: &mut [Lane<Letter>],
    closers: &mut Vec<Closer>,
    turns: u64,
) -> (First, Second)
    requires two { length lanes.old ≡ 2 }
    requires lanes { All (IsLaneOf store.now.id) lanes.old }
    requires closers { All (IsCloserOf store.now) closers.old.items }
    requires context { 1 < length store.now.tree }
    ensures two { length lanes.new ≡ 2 }
    ensures lanes { All (IsLaneOf store.now.id) lanes.new }
    ensures closer { IfErr result.0 (λ e. IsCloserOf store.now e.0) }
{
    let gate = Gate::new(1);
    let held = &gate;
    let (first, second) = lanes.split_at_mut(1);
    join_mut(
        rt,
        &mut || -> First
            requires one { length first.now ≡ 1 }
            requires lane { All (IsLaneOf store.now.id) first.now }
            requires closers { All (IsCloserOf store.now) closers.now.items }
            requires context { 1 < length store.now.tree }
            ensures lane { All (IsLaneOf store.entry.now.id) first.exit.now }
            ensures closer { IfErr result (λ e. IsCloserOf store.entry.now e.0) }
        { compute_and_close(rt, store, first, closers, key, held, turns) },
        &mut || -> Second
            requires one { length second.now ≡ 1 }
            requires lane { All (IsLaneOf store.now.id) second.now }
            requires context { 1 < length store.now.tree }
            ensures { All (IsLaneOf store.entry.now.id) second.exit.now }
        { put_beside(rt, store, &mut second[0], key, held) },
    )
}

/// One race of the put and the close, by the two lanes.
fn race<R: Abort + Clock + Threads + Wait + Sync>(
    rt: &R,
    store: &Store<Letter>,
    key: &Key,
    lanes: &mut [Lane<Letter>],
    closers: &mut Vec<Closer>,
    turns: u64,
)
    requires lanes { All (IsLaneOf store.now.id) lanes.old }
    requires closers { All (IsCloserOf store.now) closers.old.items }
    requires contexts { 2 < length store.now.tree }
{
    assert!(rt; lanes.len() == 2);
    let (closed, put) = outcomes(rt, store, key, lanes, closers, turns);
    settle(rt, store, lanes, closed, put);
}

/// One race in a store of its own.
fn race_in_store<R: Abort + Clock + Threads + Wait + Sync>(
    rt: &R,
    alloc: Global,
    turns: u64,
) -> Result<(), Fail> {
    with_store(
        alloc,
        limits(2, false),
        |store: &Store<Letter>, key: &Key, lanes: &mut [Lane<Letter>], closers: &mut Vec<Closer>|
            requires lanes { All (IsLaneOf store.now.id) lanes.old }
            requires closers { All (IsCloserOf store.now) closers.old.items }
            requires contexts { 2 < length store.now.tree }
        { race(rt, store, key, lanes, closers, turns) },
    )
}

/// Tests `Store::get_wait`, `Store::put_wait`, `Store::remove_wait` and `Store::keep_wait`.
#[test]
fn put_beside_a_context_that_closes(rt: HostRuntime) -> Result<(), Fail> {
    for number in 0..RACES {
        race_in_store(&rt, rt.alloc(), number * LATER)?;
    }
    Ok(())
}
