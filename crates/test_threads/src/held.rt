//! The calls of another lane while a factory runs.
ghost use Rattle.std.specs.Prelude.{◌<◌, All, length, slice_index_or};
ghost use Rattle.ext_store.specs.Stores.{IsCloserOf, IsKeptBy, IsLaneOf};

use crate::calls::{close_both, close_refused, compute_held, keep, look, put_first, put_refused};
use crate::gates::Gate;
use crate::opening::with_opened;
use crate::same::same;
use ext_closing::CloseFault;
use ext_model::{Fault, Look};
use ext_store::{Closer, Compute, Kept, Lane, Refusal, Store};
use ext_tree::Key;
use std::alloc::Global;
use std::process::Abort;
use std::thread::{Threads, join};
use std::time::Clock;
use test_store::{Letter, closeable, key, open_chain};

// The keys a, b and c; `None` where there is no memory.
fn keys_abc(alloc: Global) -> Option<[Key; 3]> {
    let a = key(alloc, "a")?;
    let b = key(alloc, "b")?;
    let c = key(alloc, "c")?;
    Some([a, b, c])
}

// The closer of the class.
fn closer_of_class<R: Abort>(rt: &R, store: &Store<Letter>, closers: &mut Vec<Closer>) -> Closer
    requires { All (IsCloserOf store.now) closers.old.items }
    ensures { IsCloserOf store.now result }
{
    assert!(rt; closers.len() == 3);
    closers.remove(1)
}

// A compute and a remove in the class, which are refused as busy there.
fn change_busy<R: Abort>(rt: &R, store: &Store<Letter>, lane: &mut Lane<Letter>, key: &Key)
    requires { IsLaneOf store.now.id lane.old }
    ensures { IsLaneOf store.now.id lane.new }
{
    assert!(rt; 2 < store.tree().len());
    let removed = store.remove(lane, 1, key);
    same(rt, removed, Err(Refusal::Busy(1)), "the remove");
    match store.compute(lane, 2, key, |_key: &Key| -> Result<Letter, Fault> {
        Ok(closeable('y'))
    }) {
        Compute::Refused { refusal, unused } => {
            same(rt, refusal, Refusal::Busy(1), "the compute");
            assert!(rt; unused(key).is_ok());
        }
        _ => panic!(rt; "not refused"),
    }
}

// The calls of another lane while the factory runs.
fn call_beside<R: Abort + Clock>(
    rt: &R,
    alloc: Global,
    store: &Store<Letter>,
    closer: Closer,
    lane: Lane<Letter>,
    keys: &[Key; 3],
    gate: &Gate,
) -> (Closer, Lane<Letter>, Kept)
    requires lane { IsLaneOf store.now.id lane }
    requires closer { IsCloserOf store.now closer }
    ensures closer { IsCloserOf store.now result.0 }
    ensures lane { IsLaneOf store.now.id result.1 }
    ensures kept { IsKeptBy result.1 result.2 }
{
    let mut lane = lane;
    assert!(rt; gate.runs(rt));
    let (a, b) = (&keys[0], &keys[1]);
    look(rt, store, &mut lane, 2, a, Look::Busy(1));
    look(rt, store, &mut lane, 2, b, Look::Absent);
    change_busy(rt, store, &mut lane, a);
    let kept = keep(rt, store, &mut lane, 1);
    let kept = put_refused(rt, store, &mut lane, a, kept, Refusal::Busy(1));
    let (closer, lane) = close_refused(rt, alloc, store, closer, lane, CloseFault::Busy(0));
    gate.open();
    (closer, lane, kept)
}

// Both lanes close the class, and the second calls once more.
fn call_afterwards<R: Abort>(
    rt: &R,
    alloc: Global,
    store: &Store<Letter>,
    closer: Closer,
    hand: &mut [Lane<Letter>; 2],
    kept: Kept,
    a: &Key,
)
    requires lanes { All (IsLaneOf store.now.id) hand.old }
    requires kept { (d : _) → IsKeptBy (slice_index_or hand.old 1 d) kept }
    requires closer { IsCloserOf store.now closer }
    requires contexts { 2 < length store.now.tree }
{
    close_both(rt, alloc, store, closer, hand, &[2]);
    let kept = put_refused(rt, store, &mut hand[1], a, kept, Refusal::Closed(1));
    same(rt, kept.number(), 1, "the kept number");
    look(rt, store, &mut hand[1], 2, a, Look::Closed(1));
}

// Another lane calls while a factory runs, then both close the class, and it calls once more.
fn run_and_call_beside<R: Abort + Clock + Threads + Sync>(
    rt: &R,
    alloc: Global,
    store: &Store<Letter>,
    first: Lane<Letter>,
    second: Lane<Letter>,
    closers: &mut Vec<Closer>,
    keys: &[Key; 3],
)
    requires first { IsLaneOf store.now.id first }
    requires second { IsLaneOf store.now.id second }
    requires closers { All (IsCloserOf store.now) closers.old.items }
    requires contexts { 2 < length store.now.tree }
{
    let closer = closer_of_class(rt, store, closers);
    let gate = Gate::new();
    let held = &gate;
    let (first, (closer, second, kept)) = join(
        rt,
        move || -> Lane<Letter>
            requires { IsLaneOf store.now.id first }
            ensures { IsLaneOf store.entry.now.id result }
        { compute_held(rt, store, first, &keys[0], held, 2) },
        move || -> (Closer, Lane<Letter>, Kept)
            requires { IsLaneOf store.now.id second × IsCloserOf store.now closer }
            ensures closer { IsCloserOf store.entry.now result.0 }
            ensures lane { IsLaneOf store.entry.now.id result.1 }
            ensures kept { IsKeptBy result.1 result.2 }
        { call_beside(rt, alloc, store, closer, second, keys, held) },
    );
    let mut hand = [first, second];
    call_afterwards(rt, alloc, store, closer, &mut hand, kept, &keys[0]);
}

/// While a factory is held another lane's calls at its key are answered `Busy`, those at another
/// key are not, and after a close by both lanes they are answered `Closed`.
/// Tests `Store::get`, `Store::get_numbered`, `Store::put`, `Store::put_numbered`,
/// `CloseAction::close` and `close`.
#[test]
fn busy_while_factory_runs(rt: HostRuntime) {
    let alloc = rt.alloc();
    with_opened(
        &rt,
        keys_abc(alloc),
        open_chain(alloc, 8),
        |keys, store, first, second, closers| {
            run_and_call_beside(&rt, alloc, store, first, second, closers, keys);
        },
    );
}

// Puts a value in the engine while the factory in the class runs, which has looked there before.
fn put_above<R: Abort + Clock>(
    rt: &R,
    store: &Store<Letter>,
    lane: Lane<Letter>,
    key: &Key,
    gate: &Gate,
) -> Lane<Letter>
    requires { IsLaneOf store.now.id lane }
    ensures { IsLaneOf store.now.id result }
{
    let mut lane = lane;
    assert!(rt; gate.runs(rt));
    put_first(rt, store, &mut lane, 0, key, 1);
    gate.open();
    lane
}

// The factory's value stands in the class, and the other one above it.
fn run_and_put_above<R: Abort + Clock + Threads + Sync>(
    rt: &R,
    store: &Store<Letter>,
    first: Lane<Letter>,
    second: Lane<Letter>,
    name: &Key,
)
    requires first { IsLaneOf store.now.id first }
    requires second { IsLaneOf store.now.id second }
{
    let gate = Gate::new();
    let held = &gate;
    let (mut first, mut second) = join(
        rt,
        move || -> Lane<Letter>
            requires { IsLaneOf store.now.id first }
            ensures { IsLaneOf store.entry.now.id result }
        { compute_held(rt, store, first, name, held, 2) },
        move || -> Lane<Letter>
            requires { IsLaneOf store.now.id second }
            ensures { IsLaneOf store.entry.now.id result }
        { put_above(rt, store, second, name, held) },
    );
    let below = Look::Found { at: 1, number: 2 };
    let above = Look::Found { at: 0, number: 1 };
    look(rt, store, &mut first, 2, name, below);
    look(rt, store, &mut second, 2, name, below);
    look(rt, store, &mut first, 0, name, above);
}

/// A lane puts a value in the root while a factory in the class runs, which has looked there
/// before, so both values stand and each is found.
/// Tests `Store::compute` and `Store::compute_numbered`.
#[test]
fn a_parent_value_after_the_second_look(rt: HostRuntime) {
    let alloc = rt.alloc();
    with_opened(
        &rt,
        key(alloc, "a"),
        open_chain(alloc, 8),
        |a, store, first, second, _closers| run_and_put_above(&rt, store, first, second, a),
    );
}

// A put of the number 3 and a look-up in the class, where the key is sealed.
fn find_sealed<R: Abort>(
    rt: &R,
    store: &Store<Letter>,
    lane: &mut Lane<Letter>,
    kept: Kept,
    a: &Key,
)
    requires lane { IsLaneOf store.now.id lane.old }
    requires kept { IsKeptBy lane.old kept }
    ensures { IsLaneOf store.now.id lane.new }
{
    let kept = put_refused(rt, store, lane, a, kept, Refusal::Closed(1));
    same(rt, kept.number(), 3, "the number that came back");
    look(rt, store, lane, 2, a, Look::Closed(1));
}

// Closes, puts and looks while the factory in the class runs under the key c. The keys before it
// are sealed then.
fn close_beside<R: Abort + Clock>(
    rt: &R,
    alloc: Global,
    store: &Store<Letter>,
    closer: Closer,
    lane: Lane<Letter>,
    kept: Kept,
    a: &Key,
    gate: &Gate,
) -> (Closer, Lane<Letter>)
    requires lane { IsLaneOf store.now.id lane }
    requires kept { IsKeptBy lane kept }
    requires closer { IsCloserOf store.now closer }
    ensures closer { IsCloserOf store.now result.0 }
    ensures lane { IsLaneOf store.now.id result.1 }
{
    assert!(rt; gate.runs(rt));
    let (closer, mut lane) = close_refused(rt, alloc, store, closer, lane, CloseFault::Busy(2));
    find_sealed(rt, store, &mut lane, kept, a);
    gate.open();
    (closer, lane)
}

// Puts two values in the class, of the numbers 1 and 2, and keeps a third.
fn put_two<R: Abort>(
    rt: &R,
    store: &Store<Letter>,
    lane: &mut Lane<Letter>,
    keys: &[Key; 3],
) -> Kept
    requires { IsLaneOf store.now.id lane.old }
    ensures lane { IsLaneOf store.now.id lane.new }
    ensures kept { IsKeptBy lane.new result }
{
    put_first(rt, store, lane, 1, &keys[0], 1);
    put_first(rt, store, lane, 1, &keys[1], 2);
    keep(rt, store, lane, 3)
}

// A close without the lane whose factory ran is refused, and that by both lanes closes all values.
fn close_twice<R: Abort>(
    rt: &R,
    alloc: Global,
    store: &Store<Letter>,
    closer: Closer,
    first: Lane<Letter>,
    second: Lane<Letter>,
)
    requires first { IsLaneOf store.now.id first }
    requires second { IsLaneOf store.now.id second }
    requires closer { IsCloserOf store.now closer }
{
    let unjoined = CloseFault::Unjoined(4);
    let (closer, second) = close_refused(rt, alloc, store, closer, second, unjoined);
    let mut hand = [first, second];
    close_both(rt, alloc, store, closer, &mut hand, &[4, 2, 1]);
}

// The second lane puts two values, and closes while the factory runs; then both close.
fn run_and_close_beside<R: Abort + Clock + Threads + Sync>(
    rt: &R,
    alloc: Global,
    store: &Store<Letter>,
    first: Lane<Letter>,
    second: Lane<Letter>,
    closers: &mut Vec<Closer>,
    keys: &[Key; 3],
)
    requires first { IsLaneOf store.now.id first }
    requires second { IsLaneOf store.now.id second }
    requires closers { All (IsCloserOf store.now) closers.old.items }
{
    let mut second = second;
    let closer = closer_of_class(rt, store, closers);
    let kept = put_two(rt, store, &mut second, keys);
    let gate = Gate::new();
    let held = &gate;
    let (first, (closer, second)) = join(
        rt,
        move || -> Lane<Letter>
            requires { IsLaneOf store.now.id first }
            ensures { IsLaneOf store.entry.now.id result }
        { compute_held(rt, store, first, &keys[2], held, 4) },
        move || -> (Closer, Lane<Letter>)
            requires { IsLaneOf store.now.id second × IsKeptBy second kept × IsCloserOf store.now closer }
            ensures closer { IsCloserOf store.entry.now result.0 }
            ensures lane { IsLaneOf store.entry.now.id result.1 }
        { close_beside(rt, alloc, store, closer, second, kept, &keys[0], held) },
    );
    close_twice(rt, alloc, store, closer, first, second);
}

/// A close is refused as `Busy` while a factory runs and as `Unjoined` without the factory's lane,
/// and by both lanes it closes all values.
/// Tests `CloseAction::close` and `close`.
#[test]
fn close_waits_for_the_factory_and_its_lane(rt: HostRuntime) {
    let alloc = rt.alloc();
    with_opened(
        &rt,
        keys_abc(alloc),
        open_chain(alloc, 8),
        |keys, store, first, second, closers| {
            run_and_close_beside(&rt, alloc, store, first, second, closers, keys);
        },
    );
}
