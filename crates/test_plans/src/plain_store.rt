//! Stores of one thread whose answers were worked out by hand, and the printed texts of faults.
use crate::same::same;
use ext_model::{ContextNo, Fault, Look, PlainFault, PlainStore};
use std::alloc::Global;
use std::process::Abort;
use std::test::Fail;

/// A call under key 0, with what it is to answer. The lane is 3.
#[derive(Clone, Copy)]
enum Call {
    Keeps(Result<u32, PlainFault>),
    /// Puts this number in the context.
    Puts(ContextNo, u32, Result<Option<u32>, PlainFault>),
    /// Looks along the chain from the context 2.
    Gets(Look),
    Claims(ContextNo, Result<(), PlainFault>),
    /// Whether the lane's claim stands in the context.
    Holds(ContextNo, bool),
    /// Fills the context's claim with this number.
    Fills(ContextNo, u32),
    /// Fails the context's claim with this number, which is a fault's then.
    Fails(ContextNo, u32),
    Abandons(ContextNo),
    Removes(ContextNo, Result<Option<u32>, PlainFault>),
    Seals(ContextNo, Result<Option<u32>, PlainFault>),
}

/// Asserts that the call has its answer.
fn go<R: Abort>(rt: &R, store: &mut PlainStore, call: Call) {
    match call {
        Call::Keeps(answer) => same(rt, store.keep(), answer, "keep"),
        Call::Puts(at, number, answer) => same(rt, store.put(at, 0, number), answer, "put"),
        Call::Gets(answer) => same(rt, store.get(&[2, 1, 0], 0), answer, "get"),
        Call::Claims(at, answer) => same(rt, store.claim(at, 0, 3), answer, "claim"),
        Call::Holds(at, answer) => {
            same(rt, store.is_claimed_by(at, 0, 3), answer, "holds");
            same(rt, store.is_claimed_by(at, 0, 4), false, "another lane");
        }
        Call::Fills(at, number) => {
            assert!(rt; store.is_claimed_by(at, 0, 3));
            same(rt, store.fill(at, 0, 3, number), Ok(()), "fill");
        }
        Call::Fails(at, number) => {
            assert!(rt; store.is_claimed_by(at, 0, 3));
            same(rt, store.fail(at, 0, 3, number), Ok(()), "fail");
        }
        Call::Abandons(at) => {
            assert!(rt; store.is_claimed_by(at, 0, 3));
            store.abandon(at, 0, 3);
        }
        Call::Removes(at, answer) => same(rt, store.remove(at, 0), answer, "remove"),
        Call::Seals(at, answer) => same(rt, store.seal(at, 0), answer, "seal"),
    }
}

/// Asserts that each call, in order, has its answer by a new store of so many numbers.
fn answers<R: Abort>(rt: &R, alloc: Global, numbers: u32, calls: &[Call]) {
    let mut store = PlainStore::new(alloc, numbers);
    for call in calls {
        go(rt, &mut store, *call);
    }
}

/// Calls of a store of eight numbers.
const EIGHT_NUMBERS: [Call; 15] = [
    Call::Keeps(Ok(1)),
    Call::Puts(0, 1, Ok(None)),
    Call::Gets(Look::Found { at: 0, number: 1 }),
    Call::Claims(1, Ok(())),
    Call::Gets(Look::Busy(1)),
    Call::Keeps(Ok(2)),
    Call::Puts(1, 2, Err(PlainFault::Busy)),
    Call::Seals(1, Err(PlainFault::Busy)),
    Call::Fills(1, 2),
    Call::Gets(Look::Found { at: 1, number: 2 }),
    Call::Claims(1, Err(PlainFault::Taken(2))),
    Call::Removes(1, Ok(Some(2))),
    Call::Seals(0, Ok(Some(1))),
    Call::Seals(0, Ok(Some(1))),
    Call::Gets(Look::Closed(0)),
];

/// A plain store puts, claims, fills, removes and seals, and each call answers what was worked out
/// by hand.
/// Tests `PlainStore::keep`, `PlainStore::put`, `PlainStore::remove`, `PlainStore::claim`,
/// `PlainStore::fill`, `PlainStore::fail`, `PlainStore::abandon`, `PlainStore::seal` and
/// `PlainStore::get`.
#[test]
fn plain_store_of_eight_numbers(rt: HostRuntime) {
    answers(&rt, rt.alloc(), 8, &EIGHT_NUMBERS);
}

/// Calls of a store of two numbers.
const TWO_NUMBERS: [Call; 7] = [
    Call::Keeps(Ok(1)),
    Call::Puts(0, 1, Ok(None)),
    Call::Gets(Look::Found { at: 0, number: 1 }),
    Call::Seals(0, Ok(Some(1))),
    Call::Keeps(Ok(2)),
    Call::Puts(0, 2, Err(PlainFault::Closed)),
    Call::Keeps(Err(PlainFault::NumbersFull)),
];

/// A plain store of two numbers refuses a put in a sealed context as `Closed` and a third number as
/// `NumbersFull`.
/// Tests `PlainStore::keep`, `PlainStore::put`, `PlainStore::remove`, `PlainStore::claim`,
/// `PlainStore::fill`, `PlainStore::fail`, `PlainStore::abandon` and `PlainStore::seal`.
#[test]
fn plain_store_of_two_numbers(rt: HostRuntime) {
    answers(&rt, rt.alloc(), 2, &TWO_NUMBERS);
}

/// Calls of which one gives up a claim.
const ABANDONED: [Call; 8] = [
    Call::Claims(0, Ok(())),
    Call::Holds(0, true),
    Call::Abandons(0),
    Call::Holds(0, false),
    Call::Gets(Look::Absent),
    Call::Removes(0, Ok(None)),
    Call::Seals(0, Ok(None)),
    Call::Claims(0, Err(PlainFault::Closed)),
];

/// A claim is given up: the place is empty, and once it is sealed a claim is refused as `Closed`.
/// Tests `PlainStore::keep`, `PlainStore::put`, `PlainStore::remove`, `PlainStore::claim`,
/// `PlainStore::fill`, `PlainStore::fail`, `PlainStore::abandon` and `PlainStore::seal`.
#[test]
fn abandoned_place_is_empty(rt: HostRuntime) {
    answers(&rt, rt.alloc(), 8, &ABANDONED);
}

/// Calls of which some fail a claim: the fault's number stands until it is replaced or removed, and
/// a seal keeps none of it.
const FAILED: [Call; 33] = [
    Call::Claims(1, Ok(())),
    Call::Keeps(Ok(1)),
    Call::Fails(1, 1),
    Call::Holds(1, false),
    Call::Gets(Look::Fault { at: 1, number: 1 }),
    Call::Claims(1, Err(PlainFault::FaultStands(1))),
    Call::Gets(Look::Fault { at: 1, number: 1 }),
    // The fault of an ancestor is behind the value of the nearest, and the nearest fault before
    // that of an ancestor.
    Call::Keeps(Ok(2)),
    Call::Puts(2, 2, Ok(None)),
    Call::Gets(Look::Found { at: 2, number: 2 }),
    Call::Removes(2, Ok(Some(2))),
    Call::Claims(2, Ok(())),
    Call::Gets(Look::Busy(2)),
    Call::Keeps(Ok(3)),
    Call::Fails(2, 3),
    Call::Gets(Look::Fault { at: 2, number: 3 }),
    // A remove takes a fault, and a put replaces one.
    Call::Removes(2, Ok(Some(3))),
    Call::Removes(2, Ok(None)),
    Call::Gets(Look::Fault { at: 1, number: 1 }),
    Call::Keeps(Ok(4)),
    Call::Puts(1, 4, Ok(Some(1))),
    Call::Gets(Look::Found { at: 1, number: 4 }),
    Call::Claims(1, Err(PlainFault::Taken(4))),
    Call::Removes(1, Ok(Some(4))),
    // A seal passes over a fault.
    Call::Claims(0, Ok(())),
    Call::Claims(0, Err(PlainFault::Busy)),
    Call::Keeps(Ok(5)),
    Call::Fails(0, 5),
    Call::Gets(Look::Fault { at: 0, number: 5 }),
    Call::Seals(0, Ok(None)),
    Call::Seals(0, Ok(None)),
    Call::Claims(0, Err(PlainFault::Closed)),
    Call::Gets(Look::Closed(0)),
];

/// A failed claim leaves its fault's number, which look-ups and claims meet until it is replaced or
/// removed, and which a seal does not keep.
/// Tests `PlainStore::fail`, `PlainStore::put` and `PlainStore::remove`.
#[test]
fn failed_place_keeps_its_fault(rt: HostRuntime) {
    answers(&rt, rt.alloc(), 8, &FAILED);
}

/// Faults, with what is printed of each.
const FAULTS: [(PlainFault, &str); 6] = [
    (PlainFault::Busy, "busy"),
    (PlainFault::Closed, "closed"),
    (PlainFault::Taken(2), "number 2 stands there"),
    (PlainFault::FaultStands(2), "fault 2 stands there"),
    (PlainFault::NumbersFull, "numbers full"),
    (PlainFault::Memory, "no memory"),
];

#[test]
fn faults_print_their_texts(rt: HostRuntime) -> Result<(), Fail> {
    for (fault, text) in &FAULTS {
        same(&rt, fault.to_string(rt.alloc())?.as_str(), *text, text);
    }
    let boom = Fault::Text(String::from_str(rt.alloc(), "boom")?);
    let texts = format!(in rt.alloc(); "{boom}, {}", Fault::Memory)?;
    same(&rt, texts.as_str(), "boom, no memory", "faults of callers");
    Ok(())
}
