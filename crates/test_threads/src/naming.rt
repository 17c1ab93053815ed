//! Keys that several lanes name at once, in opposite orders: each gets one number, the same in all
//! lanes.
ghost use Rattle.std.specs.Prelude.{◌≡◌, ◌<◌, ◌≤◌, All, IfSome, length};
ghost use Rattle.ext_store.specs.Stores.{IsLaneOf};

use crate::gates::come;
use crate::same::same;
use ext_model::{KeyNo, Look};
use ext_store::{Lane, Limits, Store};
use ext_tree::Key;
use std::alloc::Global;
use std::process::Abort;
use std::sync::atomic::{AtomicU64, Ordering};
use std::thread::{Threads, for_each_mut};
use test_store::{Letter, contexts, key, plain};

// How often the lanes name the keys, in a store of their own each time.
const ROUNDS: u32 = 1_000;

const KEYS: usize = 10;

/// The names of the keys.
const NAMES: [&str; KEYS] = ["a", "b", "c", "d", "e", "f", "g", "h", "i", "j"];

/// The keys with these names; `None` where there is no memory.
fn keys(alloc: Global) -> Option<Vec<Key>> {
    let mut keys = Vec::new(alloc);
    for name in NAMES {
        keys.push(key(alloc, name)?).ok()?;
    }
    Some(keys)
}

/// The letter that is stored under the key of this place in the names.
fn letter_of(key: usize) -> Letter {
    plain(char::from(b'a' + (key % 26) as u8))
}

/// The key that a lane names at this turn: lanes with even numbers begin with the first, the others
/// with the last.
fn named_at(lane: usize, turn: usize) -> usize
    requires { turn < 10 }
    ensures { result < 10 }
{
    if lane % 2 == 0 { turn } else { KEYS - 1 - turn }
}

/// Keeps the key's letter and puts it in the class, where nothing stands under the key. Says
/// whether that was so.
fn put_letter(store: &Store<Letter>, lane: &mut Lane<Letter>, key: &Key, letter: Letter) -> bool
    requires lane { IsLaneOf store.now.id lane.old }
    requires contexts { 2 < length store.now.tree }
    ensures { IsLaneOf store.now.id lane.new }
{
    let Ok(kept) = store.keep(lane, letter) else {
        return false;
    };
    matches!(store.put(lane, 1, key, kept), Ok(None))
}

/// Names the key, and puts its letter where that is this lane's to do. Says whether nothing was
/// refused.
fn name_or_put(
    store: &Store<Letter>,
    lane: &mut Lane<Letter>,
    key: &Key,
    letter: Letter,
    puts: bool,
) -> bool
    requires lane { IsLaneOf store.now.id lane.old }
    requires contexts { 2 < length store.now.tree }
    ensures { IsLaneOf store.now.id lane.new }
{
    if puts {
        put_letter(store, lane, key, letter)
    } else {
        store.number(lane, key).is_ok()
    }
}

/// Names all keys once the other lanes have come, too, or some time later. Of so many lanes each
/// puts the letters of other keys. Says whether nothing was refused.
fn name_all(
    store: &Store<Letter>,
    lane: &mut Lane<Letter>,
    keys: &[Key],
    lanes: usize,
    came: &AtomicU64,
) -> bool
    requires lane { IsLaneOf store.now.id lane.old }
    requires contexts { 2 < length store.now.tree }
    requires lanes { 0 < lanes }
    requires keys { length keys.now ≡ 10 }
    ensures { IsLaneOf store.now.id lane.new }
{
    come(came, lanes as u64);
    let own = lane.number();
    let mut named = true;
    for turn in 0..KEYS {
        let at = named_at(own, turn);
        let puts = at % lanes == own;
        let done = name_or_put(store, lane, &keys[at], letter_of(at), puts);
        named = named && done;
    }
    named
}

/// Has all lanes name the keys at once, each in a thread of its own. Answers how many were refused
/// nothing.
fn name_at_once<R: Threads + Sync>(
    rt: &R,
    store: &Store<Letter>,
    lanes: &mut [Lane<Letter>],
    keys: &[Key],
) -> u64
    requires lanes { All (IsLaneOf store.now.id) lanes.old }
    requires contexts { 2 < length store.now.tree }
    requires keys { length keys.now ≡ 10 }
    ensures { All (IsLaneOf store.now.id) lanes.new }
{
    let (came, named) = (AtomicU64::new(0), AtomicU64::new(0));
    let (all, done) = (&came, &named);
    let count = lanes.len();
    if count == 0 {
        return 0;
    }
    for_each_mut(
        rt,
        lanes,
        16,
        &|_, lane: &mut Lane<Letter>|
            requires lane { IsLaneOf store.now.id lane.old }
            requires contexts { 2 < length store.now.tree }
            requires lanes { 0 < count }
            requires keys { length keys.now ≡ 10 }
            ensures { IsLaneOf store.entry.now.id lane.new }
        {
            if name_all(store, lane, keys, count, all) {
                done.fetch_add(1, Ordering::SeqCst);
            }
        },
    );
    named.load(Ordering::SeqCst)
}

/// The number of the key in this lane, and the letter that the lane finds under it from the method.
fn number_and_letter(
    store: &Store<Letter>,
    lane: &mut Lane<Letter>,
    key: &Key,
) -> Option<(KeyNo, Letter)>
    requires lane { IsLaneOf store.now.id lane.old }
    requires contexts { 2 < length store.now.tree }
    ensures { IsLaneOf store.now.id lane.new }
{
    let number = store.number(lane, key).ok()?;
    let Ok(
        Look::Found {
            at: 1,
            number: found,
        },
    ) = store.get(lane, 2, key)
    else {
        return None;
    };
    let letter = store.show(lane, found).copied()?;
    Some((number, letter))
}

/// Notes the key's number in the first lane that is asked; says whether it is a number below 10,
/// and the same in all lanes.
fn is_one_number(numbers: &mut [Option<KeyNo>; KEYS], key: usize, number: KeyNo) -> bool
    requires { key < 10 }
{
    let first = *numbers[key].get_or_insert(number);
    number < KEYS && first == number
}

/// Asserts that the lane has for each key the number that is noted, and finds the key's own letter
/// under it. Notes the numbers where none are.
fn ask<R: Abort>(
    rt: &R,
    store: &Store<Letter>,
    lane: &mut Lane<Letter>,
    keys: &[Key],
    numbers: &mut [Option<KeyNo>; KEYS],
)
    requires lane { IsLaneOf store.now.id lane.old }
    requires contexts { 2 < length store.now.tree }
    requires keys { length keys.now ≡ 10 }
    ensures { IsLaneOf store.now.id lane.new }
{
    for at in 0..KEYS {
        let Some((number, letter)) = number_and_letter(store, lane, &keys[at]) else {
            panic!(rt; "not found under its key");
        };
        same(rt, letter, letter_of(at), "the letter of the key");
        assert!(rt; is_one_number(numbers, at, number));
    }
}

/// Asserts that each key has one number in all lanes, that no two keys have one, and that each lane
/// finds each key's letter.
fn ask_all<R: Abort>(rt: &R, store: &Store<Letter>, lanes: &mut [Lane<Letter>], keys: &[Key])
    requires lanes { All (IsLaneOf store.now.id) lanes.old }
    requires contexts { 2 < length store.now.tree }
    requires keys { length keys.now ≡ 10 }
    ensures { All (IsLaneOf store.now.id) lanes.new }
{
    let mut numbers = [None; KEYS];
    for at in 0..lanes.len() {
        ask(rt, store, &mut lanes[at], keys, &mut numbers);
    }
    are_all(rt, numbers);
}

/// Asserts that these are the numbers from 0 to 9, in some order.
fn are_all<R: Abort>(rt: &R, numbers: [Option<KeyNo>; KEYS]) {
    let mut sorted = numbers;
    sorted.sort_unstable();
    for at in 0..KEYS {
        same(rt, sorted[at], Some(at), "a number of a key");
    }
}

/// Each lane meets the one after it.
fn meet_all(store: &Store<Letter>, lanes: &mut [Lane<Letter>])
    requires { All (IsLaneOf store.now.id) lanes.old }
    ensures { All (IsLaneOf store.now.id) lanes.new }
{
    for at in 1..lanes.len() {
        let (first, second) = lanes.split_at_mut(at);
        store.meet(&mut first[at - 1], &mut second[0]);
    }
}

/// One round of these lanes.
fn name_in<R: Abort + Threads + Sync>(
    rt: &R,
    store: &Store<Letter>,
    lanes: &mut [Lane<Letter>],
    keys: &[Key],
)
    requires lanes { All (IsLaneOf store.now.id) lanes.old }
    requires contexts { 2 < length store.now.tree }
{
    assert!(rt; keys.len() == KEYS);
    let count = lanes.len() as u64;
    let named = name_at_once(rt, store, lanes, keys);
    same(rt, named, count, "lanes that were refused nothing");
    ask_all(rt, store, lanes, keys);
    meet_all(store, lanes);
}

/// A store of the chain with so many lanes, and its lanes; `None` where there is no memory.
fn open(alloc: Global, lanes: usize) -> Option<(Store<Letter>, Vec<Lane<Letter>>)>
    ensures lanes { IfSome result (λ o. All (IsLaneOf o.0.id) o.1.items) }
    ensures contexts { IfSome result (λ o. 2 < length o.0.tree) }
{
    let limits = Limits {
        numbers: 16,
        ..Limits::new(lanes)
    };
    let (store, lanes, _closers) = Store::open(alloc, contexts(alloc)?, limits).ok()?;
    Some((store, lanes))
}

/// One round of so many lanes in a store of their own.
fn name_in_store<R: Abort + Threads + Sync>(rt: &R, alloc: Global, lanes: usize, keys: &[Key]) {
    let Some((store, mut lanes)) = open(alloc, lanes) else {
        panic!(rt; "no store");
    };
    name_in(rt, &store, lanes.as_mut_slice(), keys);
}

/// All rounds of so many lanes.
fn name_often<R: Abort + Threads + Sync>(rt: &R, alloc: Global, lanes: usize) {
    let Some(keys) = keys(alloc) else {
        panic!(rt; "no keys");
    };
    for _ in 0..ROUNDS {
        name_in_store(rt, alloc, lanes, keys.as_slice());
    }
}

/// Two lanes name ten keys at once, in opposite orders, in 1,000 rounds: in each a key has one
/// number, and both lanes find what was put under it.
/// Tests `Store::meet`.
#[test]
fn two_lanes_name_keys_in_opposite_orders(rt: HostRuntime) {
    name_often(&rt, rt.alloc(), 2);
}

/// Sixteen lanes name ten keys at once, every other one in the opposite order, in 1,000 rounds: in
/// each a key has one number, and all lanes find what was put under it.
/// Tests `Store::meet`.
#[test]
fn sixteen_lanes_name_keys_in_opposite_orders(rt: HostRuntime) {
    name_often(&rt, rt.alloc(), 16);
}
