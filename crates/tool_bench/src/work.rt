//! The operations of the cases, one loop each.
ghost use Rattle.std.specs.Prelude.{◌<◌, length};
ghost use Rattle.ext_store.specs.Stores.{IsLaneOf};

use crate::fault::BenchFault;
use crate::opening::{Payload, resource};
use ext_model::{ContextNo, Fault, KeyNo, Look};
use ext_store::{Compute, Lane, Refusal, Store};
use ext_tree::Key;

/// Looks the key up so often, whose number is asked for once, and has each value that is found
/// shown where `shown`. Each answer is that a value is there.
pub(crate) fn look_up_numbered(
    store: &Store<Payload>,
    lane: &mut Lane<Payload>,
    context: ContextNo,
    key: &Key,
    times: u32,
    shown: bool,
) -> Result<u64, BenchFault>
    requires lane { IsLaneOf store.now.id lane.old }
    requires context { context < length store.now.tree }
    ensures { IsLaneOf store.now.id lane.new }
{
    let Ok(number) = store.number(lane, key) else {
        return Err(BenchFault::Answer);
    };
    let mut right = true;
    for _ in 0..times {
        let found = finds(store, lane, context, number, shown);
        right = right && found;
    }
    counted(right, times)
}

/// Looks the key up by its number so often, from so many of the last contexts in turn. Each answer
/// is that a value is there.
pub(crate) fn look_up_in_turn(
    store: &Store<Payload>,
    lane: &mut Lane<Payload>,
    key: &Key,
    contexts: usize,
    times: u32,
) -> Result<u64, BenchFault>
    requires lane { IsLaneOf store.now.id lane.old }
    ensures { IsLaneOf store.now.id lane.new }
{
    let Ok(number) = store.number(lane, key) else {
        return Err(BenchFault::Answer);
    };
    let last = store.tree().len() - 1;
    let first = last.saturating_sub(contexts.saturating_sub(1));
    let (mut right, mut context) = (true, last);
    for _ in 0..times {
        let found = finds(store, lane, context, number, false);
        right = right && found;
        context = if context <= first { last } else { context - 1 };
    }
    counted(right, times)
}

/// Whether the look-up finds a value, which is shown where `shown`, or other lanes were in its way.
/// In a peer the look-up stands in the loop, too.
#[inline(always)]
fn finds(
    store: &Store<Payload>,
    lane: &mut Lane<Payload>,
    context: ContextNo,
    key: KeyNo,
    shown: bool,
) -> bool
    requires lane { IsLaneOf store.now.id lane.old }
    requires context { context < length store.now.tree }
    requires key { key < length store.now.id.keys }
    ensures { IsLaneOf store.now.id lane.new }
{
    match store.get_numbered(lane, context, key) {
        Ok(Look::Found { number, .. }) => !shown || is_shown(store, lane, number),
        Ok(_) => false,
        Err(refusal) => refusal == Refusal::Contended,
    }
}

/// Whether the value of this number is shown: one that was put before the batch.
fn is_shown(store: &Store<Payload>, lane: &mut Lane<Payload>, number: u32) -> bool
    requires { IsLaneOf store.now.id lane.old }
    ensures { IsLaneOf store.now.id lane.new }
{
    match store.show(lane, number) {
        Some(value) => value.number > 0,
        None => false,
    }
}

/// Looks the key up so often. Each answer is that a value is there, or none is, as the case has it.
pub(crate) fn look_up(
    store: &Store<Payload>,
    lane: &mut Lane<Payload>,
    context: ContextNo,
    key: &Key,
    times: u32,
    there: bool,
) -> Result<u64, BenchFault>
    requires lane { IsLaneOf store.now.id lane.old }
    requires context { context < length store.now.tree }
    ensures { IsLaneOf store.now.id lane.new }
{
    let mut right = true;
    for _ in 0..times {
        let is_right = match store.get(lane, context, key) {
            Ok(Look::Found { .. }) => there,
            Ok(Look::Absent) => !there,
            Err(refusal) => refusal == Refusal::Contended,
            Ok(_) => false,
        };
        right = right && is_right;
    }
    counted(right, times)
}

fn counted(right: bool, times: u32) -> Result<u64, BenchFault> {
    if right {
        Ok(u64::from(times))
    } else {
        Err(BenchFault::Answer)
    }
}

/// Keeps a value and puts it in the context under the key. Says whether both were done.
pub(crate) fn put_one(
    store: &Store<Payload>,
    lane: &mut Lane<Payload>,
    context: ContextNo,
    key: &Key,
    value: u32,
) -> bool
    requires lane { IsLaneOf store.now.id lane.old }
    requires context { context < length store.now.tree }
    ensures { IsLaneOf store.now.id lane.new }
{
    match store.keep(lane, resource(value)) {
        Ok(kept) => store.put(lane, context, key, kept).is_ok(),
        Err(_) => false,
    }
}

/// Puts a value under the key in each context. Says whether all were put.
pub(crate) fn put_in_each(store: &Store<Payload>, lane: &mut Lane<Payload>, key: &Key) -> bool
    requires { IsLaneOf store.now.id lane.old }
    ensures { IsLaneOf store.now.id lane.new }
{
    let mut right = true;
    for context in 0..store.tree().len() {
        let stored = put_one(store, lane, context, key, 1);
        right = right && stored;
    }
    right
}

/// Puts so many values, one over the other.
pub(crate) fn put_over(
    store: &Store<Payload>,
    lane: &mut Lane<Payload>,
    context: ContextNo,
    key: &Key,
    times: u32,
) -> Result<u64, BenchFault>
    requires lane { IsLaneOf store.now.id lane.old }
    requires context { context < length store.now.tree }
    ensures { IsLaneOf store.now.id lane.new }
{
    let mut right = true;
    for value in 0..times {
        let stored = put_one(store, lane, context, key, value);
        right = right && stored;
    }
    counted(right, times)
}

/// Puts so many values and removes each.
pub(crate) fn put_and_remove(
    store: &Store<Payload>,
    lane: &mut Lane<Payload>,
    context: ContextNo,
    key: &Key,
    times: u32,
) -> Result<u64, BenchFault>
    requires lane { IsLaneOf store.now.id lane.old }
    requires context { context < length store.now.tree }
    ensures { IsLaneOf store.now.id lane.new }
{
    let mut right = true;
    for value in 0..times {
        let stored = put_one(store, lane, context, key, value);
        let removed = store.remove(lane, context, key).is_ok();
        right = right && stored && removed;
    }
    counted(right, times)
}

/// Computes the key so often: once it is made, it is found.
pub(crate) fn compute_often(
    store: &Store<Payload>,
    lane: &mut Lane<Payload>,
    context: ContextNo,
    key: &Key,
    times: u32,
) -> Result<u64, BenchFault>
    requires lane { IsLaneOf store.now.id lane.old }
    requires context { context < length store.now.tree }
    ensures { IsLaneOf store.now.id lane.new }
{
    let mut right = true;
    for value in 0..times {
        let computed = compute_one(store, lane, context, key, value);
        right = right && computed;
    }
    counted(right, times)
}

/// Computes the key in the context. Says whether a value was made or found, or another lane was at
/// it.
fn compute_one(
    store: &Store<Payload>,
    lane: &mut Lane<Payload>,
    context: ContextNo,
    key: &Key,
    value: u32,
) -> bool
    requires lane { IsLaneOf store.now.id lane.old }
    requires context { context < length store.now.tree }
    ensures { IsLaneOf store.now.id lane.new }
{
    let factory = |_: &Key| -> Result<Payload, Fault> { Ok(resource(value)) };
    match store.compute(lane, context, key, factory) {
        Compute::Computed { .. } | Compute::Found { .. } => true,
        Compute::Refused { refusal, .. } => {
            matches!(refusal, Refusal::Busy(_) | Refusal::Contended)
        }
        _ => false,
    }
}

/// Computes all keys in the context. Says whether each was made or found.
pub(crate) fn compute_all(
    store: &Store<Payload>,
    lane: &mut Lane<Payload>,
    context: ContextNo,
    names: &[Key],
) -> bool
    requires lane { IsLaneOf store.now.id lane.old }
    requires context { context < length store.now.tree }
    ensures { IsLaneOf store.now.id lane.new }
{
    let mut right = true;
    for name in names {
        let computed = compute_one(store, lane, context, name, 1);
        right = right && computed;
    }
    right
}

/// Names all keys, which no lane has named before. Says whether each got a number.
pub(crate) fn name_all(store: &Store<Payload>, lane: &mut Lane<Payload>, names: &[Key]) -> bool
    requires { IsLaneOf store.now.id lane.old }
    ensures { IsLaneOf store.now.id lane.new }
{
    let mut right = true;
    for name in names {
        let named = store.number(lane, name).is_ok();
        right = right && named;
    }
    right
}
