//! The waiting forms where nobody else is at work.
ghost use Rattle.std.specs.Prelude.{◌<◌, length};
ghost use Rattle.ext_store.specs.Stores.{IsLaneOf};

use crate::held::{find, same};
use crate::opening::{Letter, limits, with_pair};
use ext_model::{ContextNo, Fault, KeyNo, Look};
use ext_store::{Compute, Lane, Store};
use ext_tree::Key;
use std::process::Abort;
use std::sync::Wait;
use std::test::Fail;

/// The number under which a letter is kept, where it is stored at the root over nothing.
fn store_first<R: Wait>(
    rt: &R,
    store: &Store<Letter>,
    lane: &mut Lane<Letter>,
    key: &Key,
) -> Option<u32>
    requires lane { IsLaneOf store.now.id lane.old }
    requires context { 0 < length store.now.tree }
    ensures { IsLaneOf store.now.id lane.new }
{
    let Ok(kept) = store.keep_wait(lane, Letter { letter: 'x' }) else {
        return None;
    };
    let number = kept.number();
    match store.put_wait(rt, lane, 0, key, kept) {
        Ok(None) => Some(number),
        _ => None,
    }
}

/// The number under which a letter is computed from the method.
fn compute<R: Wait>(
    rt: &R,
    store: &Store<Letter>,
    lane: &mut Lane<Letter>,
    key: &Key,
) -> Option<u32>
    requires lane { IsLaneOf store.now.id lane.old }
    requires context { 2 < length store.now.tree }
    ensures { IsLaneOf store.now.id lane.new }
{
    let make = |_key: &Key| -> Result<Letter, Fault> { Ok(Letter { letter: 'z' }) };
    match store.compute_wait(rt, lane, 2, key, make) {
        Compute::Computed { number } => Some(number),
        _ => None,
    }
}

/// Finds the number at the root, and takes it out there.
fn find_and_remove<R: Abort + Wait>(
    rt: &R,
    store: &Store<Letter>,
    lane: &mut Lane<Letter>,
    key: &Key,
)
    requires lane { IsLaneOf store.now.id lane.old }
    requires context { 2 < length store.now.tree }
    ensures { IsLaneOf store.now.id lane.new }
{
    let found = Look::Found { at: 0, number: 1 };
    let looked = store.get_wait(rt, lane, 2, key);
    same(rt, looked, Ok(found), "the look-up");
    let computed = find(rt, store, lane, key);
    same(rt, computed, Some(found), "what is found");
    let removed = store.remove_wait(rt, lane, 0, key);
    same(rt, removed, Ok(Some(1)), "the remove");
}

/// What stands where, and what was taken, of a letter that is put at the root, found from the
/// method and taken out, by the key's number.
fn calls_by_number(
    store: &Store<Letter>,
    lane: &mut Lane<Letter>,
    key: KeyNo,
) -> Option<(Look, Option<u32>)>
    requires lane { IsLaneOf store.now.id lane.old }
    requires context { 2 < length store.now.tree }
    requires key { key < length store.now.id.keys }
    ensures { IsLaneOf store.now.id lane.new }
{
    let Ok(kept) = store.keep(lane, Letter { letter: 'x' }) else {
        return None;
    };
    let Ok(None) = store.put_numbered(lane, 0, key, kept) else {
        return None;
    };
    let found = store.get_numbered(lane, 2, key).ok()?;
    let taken = store.remove_numbered(lane, 0, key).ok()?;
    Some((found, taken))
}

/// The same by the forms that wait.
fn waiting_calls_by_number<R: Wait>(
    rt: &R,
    store: &Store<Letter>,
    lane: &mut Lane<Letter>,
    key: KeyNo,
) -> Option<(Look, Option<u32>)>
    requires lane { IsLaneOf store.now.id lane.old }
    requires context { 2 < length store.now.tree }
    requires key { key < length store.now.id.keys }
    ensures { IsLaneOf store.now.id lane.new }
{
    let Ok(kept) = store.keep_wait(lane, Letter { letter: 'x' }) else {
        return None;
    };
    let Ok(None) = store.put_wait_numbered(rt, lane, 0, key, kept) else {
        return None;
    };
    let found = store.get_wait_numbered(rt, lane, 2, key);
    let taken = store.remove_wait_numbered(rt, lane, 0, key).ok()?;
    Some((found, taken))
}

/// A letter, where the factory is given this key.
fn letter_of(given: &Key, wanted: &Key) -> Result<Letter, Fault> {
    if given == wanted {
        Ok(Letter { letter: 'z' })
    } else {
        Err(Fault::Memory)
    }
}

/// The numbers under which letters are computed at the root by the key's number, the second by the
/// form that waits, once the first was taken out.
fn computes_by_number<R: Wait>(
    rt: &R,
    store: &Store<Letter>,
    lane: &mut Lane<Letter>,
    number: KeyNo,
    key: &Key,
) -> Option<(u32, u32)>
    requires lane { IsLaneOf store.now.id lane.old }
    requires context { 0 < length store.now.tree }
    requires key { number < length store.now.id.keys }
{
    if !lane.knows_key(number) {
        return None;
    }
    let make = |given: &Key| -> Result<Letter, Fault> { letter_of(given, key) };
    let Compute::Computed { number: first } = store.compute_numbered(lane, 0, number, make) else {
        return None;
    };
    let _taken = store.remove_numbered(lane, 0, number).ok()?;
    if !lane.knows_key(number) {
        return None;
    }
    let make = |given: &Key| -> Result<Letter, Fault> { letter_of(given, key) };
    match store.compute_wait_numbered(rt, lane, 0, number, make) {
        Compute::Computed { number: second } => Some((first, second)),
        _ => None,
    }
}

/// The number of the key.
fn number_of<R: Abort>(rt: &R, store: &Store<Letter>, lane: &mut Lane<Letter>, key: &Key) -> KeyNo
    requires { IsLaneOf store.now.id lane.old }
    ensures lane { IsLaneOf store.now.id lane.new }
    ensures within { result < length store.now.id.keys }
{
    let Ok(number) = store.number(lane, key) else {
        panic!(rt; "no number");
    };
    number
}

/// Asserts what the calls by the key's number answer.
fn call_by_number<R: Abort + Wait>(
    rt: &R,
    store: &Store<Letter>,
    key: &Key,
    lane: &mut Lane<Letter>,
    _other: &mut Lane<Letter>,
)
    requires lane { IsLaneOf store.now.id lane.old }
    requires contexts { 2 < length store.now.tree }
{
    let number = number_of(rt, store, lane, key);
    let calls = [
        calls_by_number(store, lane, number),
        waiting_calls_by_number(rt, store, lane, number),
    ];
    let first = Some((Look::Found { at: 0, number: 1 }, Some(1)));
    let second = Some((Look::Found { at: 0, number: 2 }, Some(2)));
    same(
        rt,
        calls,
        [first, second],
        "the calls and the waiting calls",
    );
    let computed = computes_by_number(rt, store, lane, number, key);
    same(rt, computed, Some((3, 4)), "the computes");
}

/// Tests `Store::get`, `Store::get_numbered`, `Store::put`, `Store::remove`, `Store::compute`,
/// `Store::get_wait`, `Store::put_wait`, `Store::remove_wait` and `Store::compute_wait`.
#[test]
fn calls_by_the_number_of_a_key(rt: HostRuntime) -> Result<(), Fail> {
    with_pair(&rt, rt.alloc(), limits(2, false), call_by_number)
}

/// Puts a letter, finds it, takes it out, and computes another one.
fn call_alone<R: Abort + Wait>(
    rt: &R,
    store: &Store<Letter>,
    key: &Key,
    lane: &mut Lane<Letter>,
    _other: &mut Lane<Letter>,
)
    requires lane { IsLaneOf store.now.id lane.old }
    requires contexts { 2 < length store.now.tree }
{
    same(rt, store_first(rt, store, lane, key), Some(1), "the put");
    find_and_remove(rt, store, lane, key);
    same(rt, compute(rt, store, lane, key), Some(2), "the compute");
}

/// Tests `Store::get_wait`, `Store::put_wait`, `Store::remove_wait`, `Store::keep_wait` and
/// `Store::compute_wait`.
#[test]
fn waiting_forms_alone(rt: HostRuntime) -> Result<(), Fail> {
    with_pair(&rt, rt.alloc(), limits(2, false), call_alone)
}

/// The number under which the fault of a factory that fails in the method is kept, and that of a
/// fault that stands there, by the forms that wait, the second by the key's number.
fn fails_and_meets<R: Wait>(
    rt: &R,
    store: &Store<Letter>,
    lane: &mut Lane<Letter>,
    key: &Key,
    number: KeyNo,
) -> Option<(u32, (ContextNo, u32))>
    requires lane { IsLaneOf store.now.id lane.old }
    requires context { 2 < length store.now.tree }
    requires key { number < length store.now.id.keys }
    ensures { IsLaneOf store.now.id lane.new }
{
    let fails = |_key: &Key| -> Result<Letter, Fault> { Err(Fault::Memory) };
    let Compute::FaultKept { number: kept } = store.compute_wait(rt, lane, 2, key, fails) else {
        return None;
    };
    if !lane.knows_key(number) {
        return None;
    }
    let make = |_key: &Key| -> Result<Letter, Fault> { Ok(Letter { letter: 'z' }) };
    match store.compute_wait_numbered(rt, lane, 2, number, make) {
        Compute::FaultStands { at, number, .. } => Some((kept, (at, number))),
        _ => None,
    }
}

/// The numbers of two faults that are kept in the method by the key's number, the second by the
/// form that waits, once the first was taken out.
fn fails_by_number<R: Wait>(
    rt: &R,
    store: &Store<Letter>,
    lane: &mut Lane<Letter>,
    number: KeyNo,
) -> Option<(u32, u32)>
    requires lane { IsLaneOf store.now.id lane.old }
    requires context { 2 < length store.now.tree }
    requires key { number < length store.now.id.keys }
    ensures { IsLaneOf store.now.id lane.new }
{
    if !lane.knows_key(number) {
        return None;
    }
    let fails = |_key: &Key| -> Result<Letter, Fault> { Err(Fault::Memory) };
    let Compute::FaultKept { number: first } = store.compute_numbered(lane, 2, number, fails) else {
        return None;
    };
    let _taken = store.remove_numbered(lane, 2, number).ok()?;
    if !lane.knows_key(number) {
        return None;
    }
    let fails = |_key: &Key| -> Result<Letter, Fault> { Err(Fault::Memory) };
    match store.compute_wait_numbered(rt, lane, 2, number, fails) {
        Compute::FaultKept { number: second } => Some((first, second)),
        _ => None,
    }
}

/// Asserts what is answered where a fault is kept in the method, is met there, is replaced and is
/// kept anew.
fn keep_faults_alone<R: Abort + Wait>(
    rt: &R,
    store: &Store<Letter>,
    key: &Key,
    lane: &mut Lane<Letter>,
    _other: &mut Lane<Letter>,
)
    requires lane { IsLaneOf store.now.id lane.old }
    requires contexts { 2 < length store.now.tree }
{
    same(rt, store.keeps_faults(), true, "whether faults are kept");
    let number = number_of(rt, store, lane, key);
    let failed = fails_and_meets(rt, store, lane, key, number);
    same(rt, failed, Some((1, (2, 1))), "the fault that is kept");
    let met = Look::Fault { at: 2, number: 1 };
    let looked = store.get_wait(rt, lane, 2, key);
    same(rt, looked, Ok(met), "the look-up");
    let looked = store.get_wait_numbered(rt, lane, 2, number);
    same(rt, looked, met, "the look-up by number");
    let replaced = replace(rt, store, lane, key);
    same(rt, replaced, Some((Some(1), Some(2))), "what is replaced");
    let kept = fails_by_number(rt, store, lane, number);
    same(rt, kept, Some((3, 4)), "the faults that are kept by number");
}

/// What a put over the fault in the method answers, and the remove after it.
fn replace<R: Wait>(
    rt: &R,
    store: &Store<Letter>,
    lane: &mut Lane<Letter>,
    key: &Key,
) -> Option<(Option<u32>, Option<u32>)>
    requires lane { IsLaneOf store.now.id lane.old }
    requires context { 2 < length store.now.tree }
    ensures { IsLaneOf store.now.id lane.new }
{
    let Ok(kept) = store.keep_wait(lane, Letter { letter: 'x' }) else {
        return None;
    };
    let Ok(stood) = store.put_wait(rt, lane, 2, key, kept) else {
        return None;
    };
    let taken = store.remove_wait(rt, lane, 2, key).ok()?;
    Some((stood, taken))
}

/// Tests `Store::put` and `Store::remove`.
#[test]
fn waiting_forms_keep_faults_alone(rt: HostRuntime) -> Result<(), Fail> {
    with_pair(&rt, rt.alloc(), limits(2, true), keep_faults_alone)
}
