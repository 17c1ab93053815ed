//! Calls by a lane that is lent with its store, also in a context that isn't there.
ghost use Rattle.std.specs.Prelude.{◌<◌, length};
ghost use Rattle.ext_store.specs.Stores.{IsLaneOf};

use crate::held::same;
use crate::opening::{Letter, limits, with_pair};
use ext_lane::{LentLane, lend};
use ext_model::{ContextNo, Fault, Look};
use ext_store::{Compute, Lane, Refusal, Store};
use ext_tree::Key;
use std::process::Abort;
use std::sync::Wait;
use std::test::Fail;

/// What a put of a letter in the context answers.
fn put<R: Wait>(
    rt: &R,
    lane: &mut LentLane<Letter>,
    context: ContextNo,
    key: &Key,
) -> Result<Option<u32>, Refusal> {
    let Ok(kept) = lane.keep_wait(Letter { letter: 'x' }) else {
        return Err(Refusal::Memory);
    };
    match lane.put_wait(rt, context, key, kept) {
        Ok(stood) => Ok(stood),
        Err((_, why)) => Err(why),
    }
}

/// The letter that is found or made for the context, its number, and whether it is new.
fn make<R: Wait>(
    rt: &R,
    lane: &mut LentLane<Letter>,
    context: ContextNo,
    key: &Key,
) -> Result<(char, u32, bool), Fault> {
    let make = |_key: &Key| -> Result<Letter, Fault> { Ok(Letter { letter: 'z' }) };
    let answer = lane.compute_wait(rt, context, key, make);
    let made = lane.found_or_made(answer)?;
    Ok((made.value.letter, made.number, made.is_new))
}

/// The fault that is kept where a factory fails in the context.
fn kept_fault<'s, R: Wait>(
    rt: &R,
    lane: &mut LentLane<'s, Letter>,
    context: ContextNo,
    key: &Key,
) -> Option<&'s Fault> {
    let fails = |_key: &Key| -> Result<Letter, Fault> { Err(Fault::Memory) };
    match lane.compute_wait(rt, context, key, fails) {
        Compute::FaultKept { number } => lane.show_fault(number),
        _ => None,
    }
}

/// Puts a letter at the root, finds it from the method, takes it out, and computes another one.
fn call_lent<R: Abort + Wait>(
    rt: &R,
    store: &Store<Letter>,
    key: &Key,
    lane: &mut Lane<Letter>,
    _other: &mut Lane<Letter>,
)
    requires { IsLaneOf store.now.id lane.old }
{
    let mut lent = lend(store, lane);
    let found = Look::Found { at: 0, number: 1 };
    let letter = Letter { letter: 'x' };
    same(rt, lent.tree().len(), 3, "the contexts");
    same(rt, put(rt, &mut lent, 0, key), Ok(None), "the put");
    same(rt, lent.get(2, key), Ok(found), "the look-up");
    same(rt, lent.get_wait(rt, 2, key), Ok(found), "the other one");
    same(rt, lent.show(1).copied(), Some(letter), "the value");
    same(rt, lent.remove_wait(rt, 0, key), Ok(Some(1)), "the remove");
    let made = [make(rt, &mut lent, 1, key), make(rt, &mut lent, 2, key)];
    let wanted = [Ok(('z', 2, true)), Ok(('z', 2, false))];
    same(rt, made, wanted, "the computes");
}

/// Tests `lend`, `LentLane::tree`, `LentLane::get`, `LentLane::get_wait`, `LentLane::show`,
/// `LentLane::keep_wait`, `LentLane::put_wait`, `LentLane::remove_wait`, `LentLane::compute_wait`
/// and `LentLane::found_or_made`.
#[test]
fn calls_by_a_lent_lane(rt: HostRuntime) -> Result<(), Fail> {
    with_pair(&rt, rt.alloc(), limits(2, false), call_lent)
}

/// Calls in context 3, where there are 0, 1 and 2, and has a fault kept in the last of them.
fn call_nowhere<R: Abort + Wait>(
    rt: &R,
    store: &Store<Letter>,
    key: &Key,
    lane: &mut Lane<Letter>,
    _other: &mut Lane<Letter>,
)
    requires { IsLaneOf store.now.id lane.old }
{
    let mut lent = lend(store, lane);
    let closed = Refusal::Closed(3);
    same(rt, lent.get(3, key), Ok(Look::Closed(3)), "the look-up");
    let looked = lent.get_wait(rt, 3, key);
    same(rt, looked, Ok(Look::Closed(3)), "the other one");
    same(rt, put(rt, &mut lent, 3, key), Err(closed), "the put");
    let removed = lent.remove_wait(rt, 3, key);
    same(rt, removed, Err(closed), "the remove");
    let text = match make(rt, &mut lent, 3, key) {
        Err(Fault::Text(text)) => text,
        _ => panic!(rt; "the compute has no text"),
    };
    same(rt, text.as_str(), "context 3 is closed", "the compute");
    let kept = kept_fault(rt, &mut lent, 2, key);
    same(rt, kept, Some(&Fault::Memory), "the fault that is kept");
}

/// Tests `LentLane::get`, `LentLane::get_wait`, `LentLane::put_wait`, `LentLane::remove_wait`,
/// `LentLane::compute_wait` and `LentLane::show_fault`.
#[test]
fn a_context_that_is_not_there_is_closed(rt: HostRuntime) -> Result<(), Fail> {
    with_pair(&rt, rt.alloc(), limits(2, true), call_nowhere)
}
