//! The waiting forms by keys that come late: after their context was closed, and when all numbers
//! are given.
ghost use Rattle.std.specs.Prelude.{◌≡◌, ◌<◌, All, length};
ghost use Rattle.ext_store.specs.Stores.{IsCloserOf, IsLaneOf};

use crate::closing::close_class;
use crate::held::same;
use crate::opening::{Letter, key_of, limits, with_pair, with_store};
use ext_model::{ContextNo, Fault, Look};
use ext_store::{Closer, Compute, Lane, Refusal, Store};
use ext_tree::{Key, Namespace};
use std::alloc::Global;
use std::process::Abort;
use std::sync::Wait;
use std::test::Fail;

/// Why a compute is refused, whose factory comes back unused, and gives its letter then.
fn compute_refused<R: Wait>(
    rt: &R,
    store: &Store<Letter>,
    lane: &mut Lane<Letter>,
    context: ContextNo,
    key: &Key,
) -> Option<Refusal>
    requires lane { IsLaneOf store.now.id lane.old }
    requires context { context < length store.now.tree }
    ensures { IsLaneOf store.now.id lane.new }
{
    let make = |_key: &Key| -> Result<Letter, Fault> { Ok(Letter { letter: 'y' }) };
    match store.compute_wait(rt, lane, context, key, make) {
        Compute::Refused { refusal, unused } if unused(key).is_ok() => Some(refusal),
        _ => None,
    }
}

/// Why a put is refused, whose kept number comes back, and is put in the engine under the other key
/// then.
fn put_refused<R: Wait>(
    rt: &R,
    store: &Store<Letter>,
    lane: &mut Lane<Letter>,
    context: ContextNo,
    key: &Key,
    other: &Key,
) -> Option<Refusal>
    requires lane { IsLaneOf store.now.id lane.old }
    requires context { context < length store.now.tree }
    ensures { IsLaneOf store.now.id lane.new }
{
    let Ok(kept) = store.keep_wait(lane, Letter { letter: 'x' }) else {
        return None;
    };
    let Err((kept, refusal)) = store.put_wait(rt, lane, context, key, kept) else {
        return None;
    };
    let Ok(None) = store.put_wait(rt, lane, 0, other, kept) else {
        return None;
    };
    Some(refusal)
}

/// Asserts that all calls in the class by the key are refused so, and that a value that is refused
/// can be put under the other key in the engine.
fn all_are_refused<R: Abort + Wait>(
    rt: &R,
    store: &Store<Letter>,
    lane: &mut Lane<Letter>,
    key: &Key,
    other: &Key,
    wanted: Refusal,
)
    requires lane { IsLaneOf store.now.id lane.old }
    requires contexts { 2 < length store.now.tree }
    ensures { IsLaneOf store.now.id lane.new }
{
    let computed = compute_refused(rt, store, lane, 1, key);
    same(rt, computed, Some(wanted), "the compute");
    let removed = store.remove_wait(rt, lane, 1, key);
    same(rt, removed, Err(wanted), "the remove");
    let put = put_refused(rt, store, lane, 1, key, other);
    same(rt, put, Some(wanted), "the put");
}

/// Calls by keys that no lane has named, once the class is closed. Each lane names its own.
fn call_closed<R: Abort + Wait>(rt: &R, store: &Store<Letter>, lane: &mut Lane<Letter>, key: &Key)
    requires lane { IsLaneOf store.now.id lane.old }
    requires contexts { 2 < length store.now.tree }
    ensures { IsLaneOf store.now.id lane.new }
{
    all_are_refused(rt, store, lane, key, key, Refusal::Closed(1));
    let seen = store.get_wait(rt, lane, 2, key);
    same(rt, seen, Ok(Look::Closed(1)), "the look-up");
    let found = Look::Found { at: 0, number: 1 };
    let seen = store.get_wait(rt, lane, 0, key);
    same(rt, seen, Ok(found), "the look-up in the engine");
}

/// Closes the class by one lane, while no key has a number, and then calls by the other lane.
fn close_and_call<R: Abort + Wait>(
    rt: &R,
    store: &Store<Letter>,
    lanes: &mut [Lane<Letter>],
    closers: &mut Vec<Closer>,
    key: &Key,
)
    requires lanes { All (IsLaneOf store.now.id) lanes.old }
    requires closers { All (IsCloserOf store.now) closers.old.items }
    requires contexts { 2 < length store.now.tree }
{
    assert!(rt; lanes.len() == 2);
    let (hand, others) = lanes.split_at_mut(1);
    let closed = close_class(rt, store, hand, closers);
    assert!(rt; matches!(closed, Ok(0)));
    call_closed(rt, store, &mut others[0], key);
}

/// Tests `CloseAction::close` and `close`.
#[test]
fn waiting_forms_are_closed_to_keys_named_later(rt: HostRuntime) -> Result<(), Fail> {
    with_store(
        rt.alloc(),
        limits(2, false),
        |store: &Store<Letter>, key: &Key, lanes: &mut [Lane<Letter>], closers: &mut Vec<Closer>|
            requires lanes { All (IsLaneOf store.now.id) lanes.old }
            requires closers { All (IsCloserOf store.now) closers.old.items }
            requires contexts { 2 < length store.now.tree }
        { close_and_call(&rt, store, lanes, closers, key) },
    )
}

/// Has the lane name the keys of the numbers from 1 to 63, each of which gets its own number.
fn name_all<R: Abort>(rt: &R, alloc: Global, store: &Store<Letter>, lane: &mut Lane<Letter>)
    requires { IsLaneOf store.now.id lane.old }
    ensures { IsLaneOf store.now.id lane.new }
{
    for number in 1..64 {
        let key = number_key(rt, alloc, number);
        assert!(rt; store.number(lane, &key) == Ok(number));
    }
}

/// The global key whose name is this number.
fn number_key(rt: &impl Abort, alloc: Global, number: usize) -> Key {
    let Ok(name) = format!(in alloc; "{number}") else {
        panic!(rt; "no memory");
    };
    let Ok(key) = Key::new(alloc, Namespace::global(), name.as_str()) else {
        panic!(rt; "no memory");
    };
    key
}

/// Calls by a key that comes when all numbers are given. The key a has one.
fn call_full<R: Abort + Wait>(
    rt: &R,
    alloc: Global,
    store: &Store<Letter>,
    a: &Key,
    late: &Key,
    lane: &mut Lane<Letter>,
    other: &mut Lane<Letter>,
)
    requires lane { IsLaneOf store.now.id lane.old }
    requires other { IsLaneOf store.now.id other.old }
    requires contexts { 2 < length store.now.tree }
{
    same(rt, store.number(lane, a), Ok(0), "the number of a");
    name_all(rt, alloc, store, lane);
    all_are_refused(rt, store, other, late, a, Refusal::DirectoryFull);
    let seen = store.get_wait(rt, other, 2, late);
    same(rt, seen, Err(Refusal::DirectoryFull), "the look-up");
    let found = Look::Found { at: 0, number: 1 };
    let seen = store.get_wait(rt, lane, 2, a);
    same(rt, seen, Ok(found), "the look-up of a");
}

/// Tests `Store::get`, `Store::put`, `Store::remove`, `Store::compute`, `Store::get_wait`,
/// `Store::put_wait`, `Store::remove_wait` and `Store::compute_wait`.
#[test]
fn waiting_forms_refuse_a_key_without_a_number(rt: HostRuntime) -> Result<(), Fail> {
    let late = key_of(rt.alloc(), "late")?;
    let work = |rt: &HostRuntime, store: &Store<Letter>, a: &Key, lane: &mut Lane<
        Letter,
    >, other: &mut Lane<Letter>|
        requires lane { IsLaneOf store.now.id lane.old }
        requires other { IsLaneOf store.now.id other.old }
        requires contexts { 2 < length store.now.tree }
    { call_full(rt, rt.alloc(), store, a, &late, lane, other) };
    with_pair(&rt, rt.alloc(), limits(2, false), work)
}
