//! A key that is named while its context is closed: what is put under it stands and is closed, or
//! comes back.
ghost use Rattle.std.specs.Prelude.{◌≡◌, ◌<◌, All, IfErr, IfSome, length};
ghost use Rattle.ext_store.specs.Stores.{IsCloserOf, IsKeptBy, IsLaneOf};

use crate::calls::{close_both, keep, look};
use crate::gates::{come, delay};
use crate::opening::with_opened;
use crate::same::same;
use ext_closing::{CloseFault, close};
use ext_model::Look;
use ext_store::{Closer, Kept, Lane, Refusal, Store};
use ext_tree::Key;
use std::alloc::Global;
use std::process::Abort;
use std::sync::atomic::AtomicU64;
use std::thread::{Threads, join};
use test_store::{Letter, Log, key, open_chain};

// How often a put and a close race, in a store of their own each time.
const RACES: u64 = 1_000;

/// Which race it is: how many keys have numbers before, so how many places are closed before that
/// of the new key, and how many turns the close waits.
#[derive(Clone, Copy)]
struct Race {
    known: u64,
    turns: u64,
}

/// What became of a close: how many values were closed, or its closer and why none was.
pub(crate) type Closed = Result<u32, (Closer, CloseFault)>;

/// Closes the class by this lane alone.
pub(crate) fn close_alone(
    alloc: Global,
    store: &Store<Letter>,
    closer: Closer,
    lane: Lane<Letter>,
) -> (Lane<Letter>, Closed)
    requires lane { IsLaneOf store.now.id lane }
    requires closer { IsCloserOf store.now closer }
    ensures lane { IsLaneOf store.now.id result.0 }
    ensures closer { IfErr result.1 (λ e. IsCloserOf store.now e.0) }
{
    let mut log = Log {
        numbers: Vec::new(alloc),
    };
    let mut hand = [lane];
    let closed = match close(store, closer, &mut hand, &mut log) {
        Ok(closed) => Ok(closed.closed),
        Err(refused) => Err(refused),
    };
    let [lane] = hand;
    (lane, closed)
}

/// Puts a value, of the number 1, in the class under the key, which no lane has named. It comes
/// back where the class is closed.
fn put_new<R: Abort>(
    rt: &R,
    store: &Store<Letter>,
    lane: Lane<Letter>,
    kept: Kept,
    key: &Key,
) -> (Lane<Letter>, Option<Kept>)
    requires lane { IsLaneOf store.now.id lane }
    requires kept { IsKeptBy lane kept }
    requires contexts { 2 < length store.now.tree }
    ensures lane { IsLaneOf store.now.id result.0 }
    ensures kept { IfSome result.1 (IsKeptBy result.0) }
{
    let mut lane = lane;
    match store.put(&mut lane, 1, key, kept) {
        Ok(stood) => {
            same(rt, stood, None, "what stood");
            (lane, None)
        }
        Err((kept, refusal)) => {
            same(rt, refusal, Refusal::Closed(1), "the put");
            (lane, Some(kept))
        }
    }
}

/// Has one lane close the class while the other puts its value under the key.
fn close_and_put<R: Abort + Threads + Sync>(
    rt: &R,
    alloc: Global,
    store: &Store<Letter>,
    closer: Closer,
    first: Lane<Letter>,
    second: Lane<Letter>,
    kept: Kept,
    key: &Key,
    turns: u64,
) -> ((Lane<Letter>, Closed), (Lane<Letter>, Option<Kept>))
    requires first { IsLaneOf store.now.id first }
    requires second { IsLaneOf store.now.id second }
    requires closer { IsCloserOf store.now closer }
    requires kept { IsKeptBy second kept }
    requires contexts { 2 < length store.now.tree }
    ensures first { IsLaneOf store.now.id result.0.0 }
    ensures second { IsLaneOf store.now.id result.1.0 }
    ensures closer { IfErr result.0.1 (λ e. IsCloserOf store.now e.0) }
    ensures kept { IfSome result.1.1 (IsKeptBy result.1.0) }
{
    let came = AtomicU64::new(0);
    let both = &came;
    join(
        rt,
        move || -> (Lane<Letter>, Closed)
            requires lane { IsLaneOf store.now.id first }
            requires closer { IsCloserOf store.now closer }
            ensures lane { IsLaneOf store.entry.now.id result.0 }
            ensures closer { IfErr result.1 (λ e. IsCloserOf store.entry.now e.0) }
        {
            come(both, 2);
            delay(turns);
            close_alone(alloc, store, closer, first)
        },
        move || -> (Lane<Letter>, Option<Kept>)
            requires lane { IsLaneOf store.now.id second }
            requires kept { IsKeptBy second kept }
            requires contexts { 2 < length store.now.tree }
            ensures lane { IsLaneOf store.entry.now.id result.0 }
            ensures kept { IfSome result.1 (IsKeptBy result.0) }
        {
            come(both, 2);
            put_new(rt, store, second, kept, key)
        },
    )
}

/// Asserts that the value that came back is put in the engine, and that the class is closed to its
/// key.
fn put_above<R: Abort>(rt: &R, store: &Store<Letter>, lane: Lane<Letter>, kept: Kept, key: &Key)
    requires lane { IsLaneOf store.now.id lane }
    requires kept { IsKeptBy lane kept }
    requires contexts { 2 < length store.now.tree }
{
    let mut lane = lane;
    assert!(rt; matches!(store.put(&mut lane, 0, key, kept), Ok(None)));
    look(rt, store, &mut lane, 2, key, Look::Closed(1));
    let above = Look::Found { at: 0, number: 1 };
    look(rt, store, &mut lane, 0, key, above);
}

/// Asserts that the value is not lost: the context was closed without it, and it came back, or it
/// stands, and is closed once its lane is in hand, too.
fn settle<R: Abort>(
    rt: &R,
    alloc: Global,
    store: &Store<Letter>,
    first: (Lane<Letter>, Closed),
    second: (Lane<Letter>, Option<Kept>),
    key: &Key,
)
    requires first { IsLaneOf store.now.id first.0 }
    requires second { IsLaneOf store.now.id second.0 }
    requires closer { IfErr first.1 (λ e. IsCloserOf store.now e.0) }
    requires kept { IfSome second.1 (IsKeptBy second.0) }
    requires contexts { 2 < length store.now.tree }
{
    let (first, closed) = first;
    let (second, back) = second;
    match (closed, back) {
        (Ok(0), Some(kept)) => put_above(rt, store, second, kept, key),
        (Err((closer, CloseFault::Unjoined(1))), None) => {
            let mut hand = [first, second];
            close_both(rt, alloc, store, closer, &mut hand, &[1]);
        }
        _ => panic!(rt; "the value is lost"),
    }
}

/// Has the lane name so many keys.
pub(crate) fn name<R: Abort>(
    rt: &R,
    alloc: Global,
    store: &Store<Letter>,
    lane: &mut Lane<Letter>,
    count: u64,
)
    requires { IsLaneOf store.now.id lane.old }
    ensures { IsLaneOf store.now.id lane.new }
{
    for number in 0..count {
        name_one(rt, alloc, store, lane, number);
    }
}

/// Has the lane name the key of this number, which the key gets.
fn name_one<R: Abort>(
    rt: &R,
    alloc: Global,
    store: &Store<Letter>,
    lane: &mut Lane<Letter>,
    number: u64,
)
    requires { IsLaneOf store.now.id lane.old }
    ensures { IsLaneOf store.now.id lane.new }
{
    let Ok(name) = format!(in alloc; "{number}") else {
        panic!(rt; "no memory");
    };
    let Some(key) = key(alloc, name.as_str()) else {
        panic!(rt; "no memory");
    };
    same(
        rt,
        store.number(lane, &key),
        Ok(number as usize),
        "a number",
    );
}

/// One race on this store.
fn race_once<R: Abort + Threads + Sync>(
    rt: &R,
    alloc: Global,
    store: &Store<Letter>,
    first: Lane<Letter>,
    second: Lane<Letter>,
    closers: &mut Vec<Closer>,
    key: &Key,
    race: Race,
)
    requires first { IsLaneOf store.now.id first }
    requires second { IsLaneOf store.now.id second }
    requires closers { All (IsCloserOf store.now) closers.old.items }
    requires contexts { 2 < length store.now.tree }
{
    assert!(rt; closers.len() == 3);
    let closer = closers.remove(1);
    let mut second = second;
    name(rt, alloc, store, &mut second, race.known);
    let kept = keep(rt, store, &mut second, 1);
    let (first, second) = close_and_put(
        rt, alloc, store, closer, first, second, kept, key, race.turns,
    );
    settle(rt, alloc, store, first, second, key);
}

/// A lane puts a value under a new key while another closes the context, in 1,000 races: the value
/// comes back and is put above, or it stands and is closed later.
/// Tests `Store::put` and `close`.
#[test]
fn key_is_named_while_its_context_is_closed(rt: HostRuntime) {
    let alloc = rt.alloc();
    for number in 0..RACES {
        let this = Race {
            known: number % 64,
            turns: number / 64 * 32,
        };
        with_opened(
            &rt,
            key(alloc, "new"),
            open_chain(alloc, 8),
            |new, store, first, second, closers| {
                race_once(&rt, alloc, store, first, second, closers, new, this);
            },
        );
    }
}
