//! A store that keeps faults, in which a factory fails.
ghost use Rattle.std.specs.Prelude.{◌<◌, length};
ghost use Rattle.ext_store.specs.Stores.{IsLaneOf};

use crate::outcome::Outcome;
use crate::stores::names;
use ext_model::{Fault, Look};
use ext_store::{Compute, KeepFault, Lane, Store};
use ext_tree::Key;
use std::alloc::Global;
use test_store::{Letter, key, open_chain_for};

/// Opens the store of a chain, which keeps faults, and computes by a factory that fails.
pub(crate) fn keeps_a_fault(alloc: Global) -> Outcome {
    let Some(mut opened) = open_chain_for(alloc, 8, true) else {
        return Outcome::NoMemory;
    };
    fails_in(alloc, &opened.store, &mut opened.first)
}

/// The text of the factory's fault.
const TEXT: &str = "boom";

/// Whether the fault is the factory's.
fn is_own(fault: &Fault) -> bool {
    matches!(fault, Fault::Text(text) if text.as_str() == TEXT)
}

/// Names the key, makes the fault, and computes in the method by a factory that fails with it.
fn fails_in(alloc: Global, store: &Store<Letter>, lane: &mut Lane<Letter>) -> Outcome
    requires lane { IsLaneOf store.now.id lane.old }
    requires contexts { 2 < length store.now.tree }
{
    let (Some(a), Ok(text)) = (key(alloc, "a"), String::from_str(alloc, TEXT)) else {
        return Outcome::NoMemory;
    };
    names(store, lane, &a).and(fails(store, lane, &a, text))
}

/// Computes in the method by a factory that fails with this text.
fn fails(store: &Store<Letter>, lane: &mut Lane<Letter>, a: &Key, text: String) -> Outcome
    requires lane { IsLaneOf store.now.id lane.old }
    requires contexts { 2 < length store.now.tree }
{
    match fail(store, lane, a, Fault::Text(text)) {
        Answer::Kept(number) => stands(store, lane, a, number),
        Answer::Unkept(back) => fails_again(store, lane, a, back),
        Answer::Stands | Answer::Other => Outcome::Wrong("a refused compute lost its fault"),
    }
}

/// What is answered by a compute in the method whose factory fails with this fault.
fn fail(store: &Store<Letter>, lane: &mut Lane<Letter>, a: &Key, fault: Fault) -> Answer
    requires lane { IsLaneOf store.now.id lane.old }
    requires contexts { 2 < length store.now.tree }
    ensures { IsLaneOf store.now.id lane.new }
{
    let factory = move |_key: &Key| -> Result<Letter, Fault> { Err(fault) };
    match store.compute(lane, 2, a, factory) {
        Compute::FaultKept { number } => Answer::Kept(number),
        Compute::FaultUnkept { fault, cause } => {
            if cause == KeepFault::Memory {
                Answer::Unkept(fault)
            } else {
                Answer::Other
            }
        }
        Compute::FaultStands { at, number, unused } => {
            let given = unused(a);
            if at == 2 && number == 1 {
                answer_of(given)
            } else {
                Answer::Other
            }
        }
        Compute::Computed { .. } | Compute::Found { .. } | Compute::Failed(_) => Answer::Other,
        Compute::Unkept { .. } | Compute::Refused { .. } => Answer::Other,
    }
}

/// What is answered where a fault stands, and the factory that came back gives this when it is
/// called afterwards.
fn answer_of(given: Result<Letter, Fault>) -> Answer {
    match given {
        Err(Fault::Memory) => Answer::Stands,
        _ => Answer::Other,
    }
}

/// Computes by a factory that fails with the fault that came back from a compute that was refused.
/// Nothing stands before, and no fault is known.
fn fails_again(store: &Store<Letter>, lane: &mut Lane<Letter>, a: &Key, back: Fault) -> Outcome
    requires lane { IsLaneOf store.now.id lane.old }
    requires contexts { 2 < length store.now.tree }
    ensures { IsLaneOf store.now.id lane.new }
{
    if !is_own(&back) {
        return Outcome::Wrong("a refused compute changed its fault");
    }
    if store.get(lane, 2, a) != Ok(Look::Absent) || store.show_fault(lane, 1).is_some() {
        return Outcome::Wrong("something stands after a refused compute");
    }
    match fail(store, lane, a, back) {
        Answer::Kept(number) => stands(store, lane, a, number).again(),
        _ => Outcome::Wrong("a refused compute is refused again"),
    }
}

/// Whether the first fault of the store is the factory's, and stands in the method, so that the
/// next factory is not called.
fn stands(store: &Store<Letter>, lane: &mut Lane<Letter>, a: &Key, number: u32) -> Outcome
    requires lane { IsLaneOf store.now.id lane.old }
    requires contexts { 2 < length store.now.tree }
    ensures { IsLaneOf store.now.id lane.new }
{
    let met = store.get(lane, 2, a) == Ok(Look::Fault { at: 2, number: 1 });
    let shown = matches!(store.show_fault(lane, 1), Some(fault) if is_own(fault));
    let stands = matches!(fail(store, lane, a, Fault::Memory), Answer::Stands);
    Outcome::of(
        number == 1 && met && shown && stands,
        "a kept fault does not stand",
    )
}

/// What a compute answers.
#[derive(Drop)]
enum Answer {
    /// The fault of its factory has this number.
    Kept(u32),
    /// There was no memory for the fault of its factory, which came back.
    Unkept(Fault),
    /// Its factory was not called, since the first fault stands in the method.
    Stands,
    /// Something else.
    Other,
}
