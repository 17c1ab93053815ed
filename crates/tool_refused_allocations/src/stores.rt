//! A store that is opened, a value that is kept and put, and one that is computed.
ghost use Rattle.std.specs.Prelude.{◌<◌, length};
ghost use Rattle.ext_store.specs.Stores.{IsKeptBy, IsLaneOf};

use crate::outcome::Outcome;
use ext_model::{Fault, Look};
use ext_store::{Compute, KeepFault, Kept, Lane, Refusal, Store};
use ext_tree::Key;
use std::alloc::Global;
use test_store::{Letter, key, open_chain, plain};

/// Opens the store of a chain, and makes the calls.
pub(crate) fn keeps_and_computes(alloc: Global) -> Outcome {
    let Some(mut opened) = open_chain(alloc, 8) else {
        return Outcome::NoMemory;
    };
    makes_calls(alloc, &opened.store, &mut opened.first)
}

/// Keeps x and puts it in the root, and computes y in the method.
fn makes_calls(alloc: Global, store: &Store<Letter>, lane: &mut Lane<Letter>) -> Outcome
    requires lane { IsLaneOf store.now.id lane.old }
    requires contexts { 2 < length store.now.tree }
{
    let (Some(a), Some(b)) = (key(alloc, "a"), key(alloc, "b")) else {
        return Outcome::NoMemory;
    };
    names(store, lane, &a)
        .and(names(store, lane, &b))
        .and(keeps(store, lane, &a))
        .and(computes(store, lane, &b))
}

/// Names the key, so that no call by it wants memory for it afterwards.
pub(crate) fn names(store: &Store<Letter>, lane: &mut Lane<Letter>, key: &Key) -> Outcome
    requires { IsLaneOf store.now.id lane.old }
    ensures { IsLaneOf store.now.id lane.new }
{
    match store.number(lane, key) {
        Ok(_) => Outcome::Whole,
        Err(Refusal::Memory) => Outcome::of(
            store.number(lane, key).is_ok(),
            "a key that was refused a number gets none",
        )
        .again(),
        Err(_) => Outcome::Wrong("a key gets no number"),
    }
}

/// Keeps x and puts it; where it is not kept it comes back, and is kept then.
fn keeps(store: &Store<Letter>, lane: &mut Lane<Letter>, a: &Key) -> Outcome
    requires lane { IsLaneOf store.now.id lane.old }
    requires contexts { 2 < length store.now.tree }
    ensures { IsLaneOf store.now.id lane.new }
{
    match store.keep(lane, plain('x')) {
        Ok(kept) => puts(store, lane, a, kept),
        Err((back, KeepFault::Memory)) if back == plain('x') => keeps_again(store, lane, a, back),
        Err(_) => Outcome::Wrong("a refused keep lost its value"),
    }
}

/// Keeps the value that came back, and puts it.
fn keeps_again(store: &Store<Letter>, lane: &mut Lane<Letter>, a: &Key, back: Letter) -> Outcome
    requires lane { IsLaneOf store.now.id lane.old }
    requires contexts { 2 < length store.now.tree }
    ensures { IsLaneOf store.now.id lane.new }
{
    match store.keep(lane, back) {
        Ok(kept) => puts(store, lane, a, kept).again(),
        Err(_) => Outcome::Wrong("a value that came back is not kept"),
    }
}

/// Puts the first value in the root, where it is found then from the method.
fn puts(store: &Store<Letter>, lane: &mut Lane<Letter>, a: &Key, kept: Kept) -> Outcome
    requires lane { IsLaneOf store.now.id lane.old }
    requires contexts { 2 < length store.now.tree }
    requires kept { IsKeptBy lane.old kept }
    ensures { IsLaneOf store.now.id lane.new }
{
    let stored = matches!(store.put(lane, 0, a, kept), Ok(None));
    let found = store.get(lane, 2, a) == Ok(Look::Found { at: 0, number: 1 });
    let shown = store.show(lane, 1).copied() == Some(plain('x'));
    Outcome::of(
        stored && found && shown,
        "a kept value is not found where it was put",
    )
}

/// What a compute of y in the method answers.
fn compute(store: &Store<Letter>, lane: &mut Lane<Letter>, b: &Key) -> Answer
    requires lane { IsLaneOf store.now.id lane.old }
    requires contexts { 2 < length store.now.tree }
    ensures { IsLaneOf store.now.id lane.new }
{
    let factory = |_key: &Key| -> Result<Letter, Fault> { Ok(plain('y')) };
    match store.compute(lane, 2, b, factory) {
        Compute::Computed { number } => Answer::Computed(number),
        Compute::Unkept {
            value,
            cause: KeepFault::Memory,
        } => Answer::Unkept(value),
        _ => Answer::Other,
    }
}

/// Computes y; where it is not kept it comes back, nothing is found, and it is computed then.
fn computes(store: &Store<Letter>, lane: &mut Lane<Letter>, b: &Key) -> Outcome
    requires lane { IsLaneOf store.now.id lane.old }
    requires contexts { 2 < length store.now.tree }
    ensures { IsLaneOf store.now.id lane.new }
{
    match compute(store, lane, b) {
        Answer::Computed(number) => finds(store, lane, b, number),
        Answer::Unkept(back) if back == plain('y') => computes_again(store, lane, b),
        _ => Outcome::Wrong("a refused compute lost its value"),
    }
}

/// Computes y where nothing is found after a compute that was refused.
fn computes_again(store: &Store<Letter>, lane: &mut Lane<Letter>, b: &Key) -> Outcome
    requires lane { IsLaneOf store.now.id lane.old }
    requires contexts { 2 < length store.now.tree }
    ensures { IsLaneOf store.now.id lane.new }
{
    if store.get(lane, 2, b) != Ok(Look::Absent) {
        return Outcome::Wrong("something stands after a refused compute");
    }
    match compute(store, lane, b) {
        Answer::Computed(number) => finds(store, lane, b, number).again(),
        _ => Outcome::Wrong("a refused compute is refused again"),
    }
}

/// Whether the second value of the store is y, and stands in the method.
fn finds(store: &Store<Letter>, lane: &mut Lane<Letter>, b: &Key, number: u32) -> Outcome
    requires lane { IsLaneOf store.now.id lane.old }
    requires contexts { 2 < length store.now.tree }
    ensures { IsLaneOf store.now.id lane.new }
{
    let found = store.get(lane, 2, b) == Ok(Look::Found { at: 2, number });
    let shown = store.show(lane, number).copied() == Some(plain('y'));
    Outcome::of(
        number == 2 && found && shown,
        "a computed value is not found",
    )
}

/// What a compute answers.
#[derive(Clone, Copy)]
enum Answer {
    /// Its value has this number.
    Computed(u32),
    /// There was no memory for its value, which came back.
    Unkept(Letter),
    /// Something else.
    Other,
}
