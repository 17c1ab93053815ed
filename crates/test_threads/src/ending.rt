//! Fifteen lanes that store under new keys while another closes their context: each value is closed
//! once, with that context, or with the one above where it came back and was put there.
ghost use Rattle.std.specs.Prelude.{◌<◌, ◌≤◌, All, IfErr, IfSome, length};
ghost use Rattle.ext_store.specs.Stores.{IsCloserOf, IsLaneOf};

use crate::closing::{Closed, close_alone, name};
use crate::gates::{come, delay};
use crate::same::same;
use ext_closing::{CloseFault, close};
use ext_store::{Closer, Lane, Limits, Refusal, Store};
use ext_tree::Key;
use std::alloc::Global;
use std::process::Abort;
use std::sync::atomic::{AtomicU64, Ordering};
use std::thread::{Threads, for_each_mut, join};
use test_store::{Letter, Log, closeable, contexts, key};

// How often the lanes race, in a store of their own each time.
const ROUNDS: u64 = 1_000;

const LANES: u64 = 16;

// The numbers of all values, from 1 to 15, as bits.
const ALL: u64 = 0xFFFE;

/// The names of the keys, one for each lane that stores.
const NAMES: [&str; 15] = [
    "a", "b", "c", "d", "e", "f", "g", "h", "i", "j", "k", "l", "m", "n", "o",
];

/// Which lanes have come, and in which context the values stand, by their numbers as bits.
#[derive(Drop)]
struct Signs {
    came: AtomicU64,
    class: AtomicU64,
    engine: AtomicU64,
}

/// Which race it is: how many keys have numbers before, and how many turns the close waits.
#[derive(Clone, Copy)]
struct Race {
    known: u64,
    turns: u64,
}

/// A store of the chain with 16 lanes, and what else the opening gave.
#[derive(Drop)]
struct Opened {
    store: Store<Letter>,
    first: Lane<Letter>,
    others: Vec<Lane<Letter>>,
    closers: Vec<Closer>,
}

fn bit_of(number: u32) -> u64 {
    1 << (number % 64)
}

fn bits_of(numbers: &[u32]) -> u64 {
    let mut bits = 0;
    for number in numbers {
        bits |= bit_of(*number);
    }
    bits
}

/// Whether each number is less than the one before it.
fn is_falling(numbers: &[u32]) -> bool {
    let mut last = u32::MAX;
    for number in numbers {
        if last <= *number {
            return false;
        }
        last = *number;
    }
    true
}

/// The keys with these names; `None` where there is no memory.
fn keys(alloc: Global) -> Option<Vec<Key>> {
    let mut keys = Vec::new(alloc);
    for name in NAMES {
        keys.push(key(alloc, name)?).ok()?;
    }
    Some(keys)
}

/// Keeps a closeable value, and puts it in the class under the key, which no lane has named. Where
/// it comes back, since the class is closed, it is put in the engine. Tells where it stands.
fn put_own(store: &Store<Letter>, lane: &mut Lane<Letter>, key: &Key, signs: &Signs)
    requires lane { IsLaneOf store.now.id lane.old }
    requires contexts { 2 < length store.now.tree }
    ensures { IsLaneOf store.now.id lane.new }
{
    let Ok(kept) = store.keep(lane, closeable('z')) else {
        return;
    };
    let bit = bit_of(kept.number());
    match store.put(lane, 1, key, kept) {
        Ok(None) => {
            signs.class.fetch_or(bit, Ordering::SeqCst);
        }
        Err((kept, Refusal::Closed(1))) => {
            if let Ok(None) = store.put(lane, 0, key, kept) {
                signs.engine.fetch_or(bit, Ordering::SeqCst);
            }
        }
        _ => {}
    }
}

/// Has each lane put a value under a key of its own, in a thread of its own.
fn put_at_once<R: Threads + Sync>(
    rt: &R,
    store: &Store<Letter>,
    lanes: Vec<Lane<Letter>>,
    keys: &[Key],
    signs: &Signs,
) -> Vec<Lane<Letter>>
    requires lanes { All (IsLaneOf store.now.id) lanes.items }
    requires contexts { 2 < length store.now.tree }
    ensures { All (IsLaneOf store.now.id) result.items }
{
    let mut lanes = lanes;
    for_each_mut(
        rt,
        lanes.as_mut_slice(),
        16,
        &|at, lane: &mut Lane<Letter>|
            requires lane { IsLaneOf store.now.id lane.old }
            requires contexts { 2 < length store.now.tree }
            ensures { IsLaneOf store.entry.now.id lane.new }
        {
            come(&signs.came, LANES);
            if let Some(key) = keys.get(at) {
                put_own(store, lane, key, signs);
            }
        },
    );
    lanes
}

/// Has one lane close the class while the others put their values in it.
fn close_and_put<R: Threads + Sync>(
    rt: &R,
    alloc: Global,
    store: &Store<Letter>,
    closer: Closer,
    first: Lane<Letter>,
    others: Vec<Lane<Letter>>,
    keys: &[Key],
    turns: u64,
    signs: &Signs,
) -> ((Lane<Letter>, Closed), Vec<Lane<Letter>>)
    requires first { IsLaneOf store.now.id first }
    requires others { All (IsLaneOf store.now.id) others.items }
    requires closer { IsCloserOf store.now closer }
    requires contexts { 2 < length store.now.tree }
    ensures first { IsLaneOf store.now.id result.0.0 }
    ensures others { All (IsLaneOf store.now.id) result.1.items }
    ensures closer { IfErr result.0.1 (λ e. IsCloserOf store.now e.0) }
{
    join(
        rt,
        move || -> (Lane<Letter>, Closed)
            requires lane { IsLaneOf store.now.id first }
            requires closer { IsCloserOf store.now closer }
            ensures lane { IsLaneOf store.entry.now.id result.0 }
            ensures closer { IfErr result.1 (λ e. IsCloserOf store.entry.now e.0) }
        {
            come(&signs.came, LANES);
            delay(turns);
            close_alone(alloc, store, closer, first)
        },
        move || -> Vec<Lane<Letter>>
            requires lanes { All (IsLaneOf store.now.id) others.items }
            requires contexts { 2 < length store.now.tree }
            ensures { All (IsLaneOf store.entry.now.id) result.items }
        { put_at_once(rt, store, others, keys, signs) },
    )
}

/// Closes a context with all lanes in hand. Asserts that this closes the values of exactly these
/// numbers, given as bits, the one that was kept last first.
fn close_exactly<R: Abort>(
    rt: &R,
    alloc: Global,
    store: &Store<Letter>,
    closer: Closer,
    lanes: &mut [Lane<Letter>],
    wanted: u64,
)
    requires some { 1 ≤ length lanes.old }
    requires lanes { All (IsLaneOf store.now.id) lanes.old }
    requires closer { IsCloserOf store.now closer }
    ensures { All (IsLaneOf store.now.id) lanes.new }
{
    let mut log = Log {
        numbers: Vec::new(alloc),
    };
    let Ok(closed) = close(store, closer, lanes, &mut log) else {
        panic!(rt; "not closed");
    };
    let numbers = log.numbers.as_slice();
    same(
        rt,
        closed.closed as usize,
        numbers.len(),
        "how many are closed",
    );
    same(rt, bits_of(numbers), wanted, "what is closed");
    assert!(rt; is_falling(numbers));
}

/// Asserts of the class that it was closed while nothing stood in it; or closes it, with what
/// stands there, now that all lanes are in hand.
fn settle_class<R: Abort>(
    rt: &R,
    alloc: Global,
    store: &Store<Letter>,
    closed: Closed,
    lanes: &mut [Lane<Letter>],
    class: u64,
)
    requires some { 1 ≤ length lanes.old }
    requires lanes { All (IsLaneOf store.now.id) lanes.old }
    requires closer { IfErr closed (λ e. IsCloserOf store.now e.0) }
    ensures { All (IsLaneOf store.now.id) lanes.new }
{
    match closed {
        Ok(0) => same(rt, class, 0, "what stands in the class"),
        Err((closer, CloseFault::Unjoined(_))) => {
            close_exactly(rt, alloc, store, closer, lanes, class);
        }
        _ => panic!(rt; "closed without the lanes of its values"),
    }
}

/// One race on this store.
fn race_in<R: Abort + Threads + Sync>(
    rt: &R,
    alloc: Global,
    store: &Store<Letter>,
    first: Lane<Letter>,
    others: Vec<Lane<Letter>>,
    closers: &mut Vec<Closer>,
    keys: &[Key],
    race: Race,
)
    requires first { IsLaneOf store.now.id first }
    requires others { All (IsLaneOf store.now.id) others.items }
    requires closers { All (IsCloserOf store.now) closers.old.items }
    requires contexts { 2 < length store.now.tree }
{
    assert!(rt; closers.len() == 3);
    let (of_class, of_engine) = (closers.remove(1), closers.remove(0));
    let signs = Signs {
        came: AtomicU64::new(0),
        class: AtomicU64::new(0),
        engine: AtomicU64::new(0),
    };
    let mut first = first;
    name(rt, alloc, store, &mut first, race.known);
    let ((first, closed), lanes) = close_and_put(
        rt, alloc, store, of_class, first, others, keys, race.turns, &signs,
    );
    settle(rt, alloc, store, first, lanes, closed, of_engine, &signs);
}

/// Asserts that each value stands in one of the two contexts, and closes both with all lanes in
/// hand.
fn settle<R: Abort>(
    rt: &R,
    alloc: Global,
    store: &Store<Letter>,
    first: Lane<Letter>,
    others: Vec<Lane<Letter>>,
    closed: Closed,
    of_engine: Closer,
    signs: &Signs,
)
    requires first { IsLaneOf store.now.id first }
    requires others { All (IsLaneOf store.now.id) others.items }
    requires class { IfErr closed (λ e. IsCloserOf store.now e.0) }
    requires engine { IsCloserOf store.now of_engine }
{
    let class = signs.class.load(Ordering::SeqCst);
    let engine = signs.engine.load(Ordering::SeqCst);
    same(
        rt,
        (class | engine, class & engine),
        (ALL, 0),
        "what stands",
    );
    let mut lanes = others;
    assert!(rt; lanes.push(first).is_ok());
    settle_class(rt, alloc, store, closed, lanes.as_mut_slice(), class);
    close_exactly(rt, alloc, store, of_engine, lanes.as_mut_slice(), engine);
}

/// One race on what was opened.
fn race_once<R: Abort + Threads + Sync>(
    rt: &R,
    alloc: Global,
    opened: Opened,
    keys: &[Key],
    race: Race,
)
    requires first { IsLaneOf opened.store.id opened.first }
    requires others { All (IsLaneOf opened.store.id) opened.others.items }
    requires closers { All (IsCloserOf opened.store) opened.closers.items }
    requires contexts { 2 < length opened.store.tree }
{
    let Opened {
        store,
        first,
        others,
        mut closers,
    } = opened;
    race_in(rt, alloc, &store, first, others, &mut closers, keys, race);
}

/// A store of the chain with 16 lanes; `None` where there is no memory.
fn open(alloc: Global) -> Option<Opened>
    ensures first { IfSome result (λ o. IsLaneOf o.store.id o.first) }
    ensures others { IfSome result (λ o. All (IsLaneOf o.store.id) o.others.items) }
    ensures closers { IfSome result (λ o. All (IsCloserOf o.store) o.closers.items) }
    ensures contexts { IfSome result (λ o. 2 < length o.store.tree) }
{
    let limits = Limits {
        numbers: 16,
        ..Limits::new(16)
    };
    let (store, lanes, closers) = Store::open(alloc, contexts(alloc)?, limits).ok()?;
    let mut others = lanes;
    let first = others.pop()?;
    Some(Opened {
        store,
        first,
        others,
        closers,
    })
}

/// Fifteen lanes put a value each under new keys while another closes their context, in 1,000
/// rounds: each value is closed once, with that context or with the one above.
/// Tests `Store::put` and `close`.
#[test]
fn sixteen_lanes_name_keys_while_their_context_is_closed(rt: HostRuntime) {
    let alloc = rt.alloc();
    let Some(keys) = keys(alloc) else {
        panic!(rt; "no keys");
    };
    for number in 0..ROUNDS {
        let race = Race {
            known: number % 48,
            turns: number / 48 * 32,
        };
        let Some(opened) = open(alloc) else {
            panic!(rt; "no store");
        };
        race_once(&rt, alloc, opened, keys.as_slice(), race);
    }
}
