//! Contexts with more values than a block of keys has places, and with as many as there can be.
ghost use Rattle.std.specs.Prelude.{◌≡◌, ◌<◌, ◌≤◌, All, length};
ghost use Rattle.ext_store.specs.Stores.{IsCloserOf, IsLaneOf};

use crate::asked::{same, with_made};
use crate::full::number_key;
use crate::opening::{Letter, Opened, closeable, open_store};
use crate::{Log, close_logged};
use ext_model::{Fault, KeyNo, Look};
use ext_store::{Closer, Compute, Lane, Limits, Refusal, Store};
use ext_tree::Key;
use std::alloc::Global;
use std::process::Abort;
use std::slice;

/// Has the lane name so many keys.
fn name_many<R: Abort>(
    rt: &R,
    alloc: Global,
    store: &Store<Letter>,
    lane: &mut Lane<Letter>,
    count: usize,
)
    requires { IsLaneOf store.now.id lane.old }
    ensures { IsLaneOf store.now.id lane.new }
{
    for number in 0..count {
        let key = number_key(rt, alloc, number);
        assert!(rt; store.number(lane, &key) == Ok(number));
    }
}

/// Has the lane keep so many letters and put each in the method, under a key of its own. The first
/// keys get none.
fn put_many<R: Abort>(
    rt: &R,
    alloc: Global,
    store: &Store<Letter>,
    lane: &mut Lane<Letter>,
    unused: usize,
    count: usize,
)
    requires lane { IsLaneOf store.now.id lane.old }
    requires context { 2 < length store.now.tree }
    ensures { IsLaneOf store.now.id lane.new }
{
    for number in unused..unused.saturating_add(count) {
        let key = number_key(rt, alloc, number);
        let Ok(kept) = store.keep(lane, closeable('x')) else {
            panic!(rt; "no number");
        };
        let Ok(None) = store.put(lane, 2, &key, kept) else {
            panic!(rt; "no put");
        };
    }
}

/// Asserts that no key after so many others gets a number.
fn no_more_keys<R: Abort>(
    rt: &R,
    alloc: Global,
    store: &Store<Letter>,
    lane: &mut Lane<Letter>,
    count: usize,
)
    requires { IsLaneOf store.now.id lane.old }
    ensures { IsLaneOf store.now.id lane.new }
{
    let key = number_key(rt, alloc, count);
    assert!(rt; store.number(lane, &key) == Err(Refusal::DirectoryFull));
}

/// Asserts that a close of the context gives its action the numbers from so many on down to 1.
fn closes_latest_first<R: Abort>(
    rt: &R,
    alloc: Global,
    store: &Store<Letter>,
    lane: &mut Lane<Letter>,
    closer: Closer,
    count: usize,
)
    requires lane { IsLaneOf store.now.id lane.old }
    requires closer { IsCloserOf store.now closer }
{
    let mut log = Log {
        numbers: Vec::new(alloc),
    };
    let Ok(closed) = close_logged(store, closer, slice::from_mut(lane), &mut log) else {
        panic!(rt; "not closed");
    };
    assert!(rt; closed.closed as usize == count && log.numbers.len() == count);
    for (at, number) in log.numbers.iter().enumerate() {
        assert!(rt; *number as usize == count.saturating_sub(at));
    }
}

/// Puts so many letters in the method of a store for as many keys and some before them, the last of
/// which there can be, and closes it.
fn put_and_close<R: Abort>(rt: &R, alloc: Global, unused: usize, count: usize, places: usize) {
    let keys = unused.saturating_add(count);
    let limits = Limits {
        tries: 8,
        keys,
        numbers: 1_024,
        ..Limits::new(2)
    };
    let Some(opened) = open_store(alloc, limits) else {
        panic!(rt; "no store");
    };
    let Opened {
        store,
        mut first,
        second: _,
        mut closers,
    } = opened;
    assert!(rt; store.key_count() == places);
    name_many(rt, alloc, &store, &mut first, unused);
    put_many(rt, alloc, &store, &mut first, unused, count);
    if keys == places {
        no_more_keys(rt, alloc, &store, &mut first, keys);
    }
    let Some(closer) = closers.pop() else {
        panic!(rt; "no closer");
    };
    closes_latest_first(rt, alloc, &store, &mut first, closer, count);
}

/// A context has from one to 1,024 values, in one block of keys or several, and a close gives its
/// action all their numbers, the latest first.
/// Tests `Store::open`, `Store::key_count`, `Store::number`, `Store::put`, `Store::seal_unused`,
/// `FallingNumbers::put_in` and `close`.
#[test]
fn many_values_are_closed_latest_first(rt: HostRuntime) {
    for (unused, count, places) in [
        (0, 1, 32),
        (0, 32, 32),
        (0, 33, 64),
        (0, 64, 64),
        (0, 65, 96),
        (0, 1_024, 1_024),
        (32, 1, 64),
        (40, 57, 128),
        (1_023, 1, 1_024),
    ] {
        put_and_close(&rt, rt.alloc(), unused, count, places);
    }
}

/// Whether a compute in the method by the number of the last key calls its factory with the key,
/// and the number under which its value is kept.
fn compute_under(
    store: &Store<Letter>,
    lane: &mut Lane<Letter>,
    number: KeyNo,
    key: &Key,
) -> Option<u32>
    requires lane { IsLaneOf store.now.id lane.old }
    requires context { 2 < length store.now.tree }
    requires key { number < length store.now.id.keys }
    ensures { IsLaneOf store.now.id lane.new }
{
    if !lane.knows_key(number) {
        return None;
    }
    let make = |given: &Key| -> Result<Letter, Fault> {
        if given == key {
            Ok(closeable('x'))
        } else {
            Err(Fault::Memory)
        }
    };
    match store.compute_numbered(lane, 2, number, make) {
        Compute::Computed { number } => Some(number),
        _ => None,
    }
}

/// Has the first lane name as many keys as there can be, and the second one compute under the last
/// of them.
fn compute_under_last<R: Abort>(
    rt: &R,
    alloc: Global,
    store: &Store<Letter>,
    first: &mut Lane<Letter>,
    second: &mut Lane<Letter>,
)
    requires first { IsLaneOf store.now.id first.old }
    requires second { IsLaneOf store.now.id second.old }
    requires contexts { 2 < length store.now.tree }
{
    name_many(rt, alloc, store, first, 1_024);
    let key = number_key(rt, alloc, 1_023);
    let Ok(number) = store.number(second, &key) else {
        panic!(rt; "the key has no number");
    };
    same(rt, number, 1_023, "the number of the last key");
    let computed = compute_under(store, second, number, &key);
    same(rt, computed, Some(1), "the number of the value");
    let found = Look::Found { at: 2, number: 1 };
    let looked = store.get_numbered(first, 2, number);
    same(rt, looked, Ok(found), "the look-up");
    let removed = store.remove_numbered(first, 2, number);
    same(rt, removed, Ok(Some(1)), "the remove");
}

/// One lane names 1,024 keys, another computes a value under the last of them, and the first finds
/// it and takes it out.
/// Tests `Store::number`, `Lane::knows_key`, `Store::compute_numbered`, `Store::get_numbered` and
/// `Store::remove_numbered`.
#[test]
fn last_of_1024_keys_is_used(rt: HostRuntime) {
    let limits = Limits {
        keys: 1_024,
        ..Limits::new(2)
    };
    with_made(
        &rt,
        open_store(rt.alloc(), limits),
        |opened: &mut Opened<Letter>|
            requires first { IsLaneOf opened.old.store.id opened.old.first }
            requires second { IsLaneOf opened.old.store.id opened.old.second }
            requires contexts { 2 < length opened.old.store.tree }
        {
            compute_under_last(
                &rt,
                rt.alloc(),
                &opened.store,
                &mut opened.first,
                &mut opened.second,
            );
        },
    );
}
