//! Keys that get their numbers during the run, and calls by numbers that no key has yet.
ghost use Rattle.std.specs.Prelude.{◌≡◌, ◌<◌, length};
ghost use Rattle.ext_store.specs.Stores.{IsLaneOf};

use crate::asked::{Scenario, same, with_chain};
use crate::chain::{Answer, Call, rows};
use crate::full::{name_from, number_key};
use crate::opening::{Letter, closeable, plain};
use ext_model::Look;
use ext_store::{Lane, Refusal, Store};
use ext_tree::Key;
use std::alloc::Global;
use std::process::Abort;
use std::thread::Threads;

/// Two lanes name three keys, in different orders: each key has one number in both, and one lane
/// finds what the other put under it.
/// Tests `Kept::number`, `Lane::number`, `Store::number`, `Store::key_count` and `Lane::knows_key`.
#[test]
fn key_has_one_number_in_both_lanes(rt: HostRuntime) {
    let found = Look::Found { at: 1, number: 1 };
    let all = [
        (0, 0, "a", Call::Numbers(Ok(0))),
        (1, 0, "b", Call::Numbers(Ok(1))),
        (1, 0, "a", Call::Numbers(Ok(0))),
        (0, 0, "c", Call::Numbers(Ok(2))),
        (0, 0, "b", Call::Numbers(Ok(1))),
        (0, 1, "b", Call::Puts(plain('x'), 1, Ok(None))),
        (1, 2, "b", Call::Gets(Ok(found))),
        (1, 2, "a", Call::Gets(Ok(Look::Absent))),
        (1, 2, "c", Call::Gets(Ok(Look::Absent))),
        (1, 0, "c", Call::Numbers(Ok(2))),
    ];
    rows(&rt, rt.alloc(), 8, &all);
}

/// A look-up, a remove and a compute give their keys the first three numbers, which both lanes are
/// told.
/// Tests `Kept::number`, `Lane::number`, `Store::number`, `Store::key_count` and `Lane::knows_key`.
#[test]
fn look_up_and_remove_take_a_number(rt: HostRuntime) {
    let all = [
        (0, 2, "a", Call::Gets(Ok(Look::Absent))),
        (1, 2, "b", Call::Removes(Ok(None))),
        (0, 2, "c", Call::Computes('x', Answer::Computed(1))),
        (1, 0, "d", Call::Numbers(Ok(3))),
        (1, 0, "a", Call::Numbers(Ok(0))),
        (0, 0, "b", Call::Numbers(Ok(1))),
    ];
    rows(&rt, rt.alloc(), 8, &all);
}

/// A context is closed before several keys are named: calls there by these keys are refused as
/// `Closed`, and those in the class above are not until that is closed.
/// Tests `CloseAction::close` and `close`.
#[test]
fn closed_to_keys_named_later(rt: HostRuntime) {
    let closed = Refusal::Closed(2);
    let found = Look::Found { at: 1, number: 1 };
    let all = [
        (0, 2, "", Call::Closes(Ok(0), [0; 4])),
        (0, 2, "q", Call::PutsInstead(closeable('x'), 1, closed, 1)),
        (0, 2, "q", Call::Gets(Ok(Look::Closed(2)))),
        (0, 1, "q", Call::Gets(Ok(found))),
        (1, 2, "r", Call::Computes('y', Answer::Refused(closed))),
        (1, 2, "s", Call::Removes(Err(closed))),
        (1, 2, "t", Call::FailsAs("boom", Answer::Refused(closed))),
        (1, 2, "u", Call::Gets(Ok(Look::Closed(2)))),
        (1, 1, "r", Call::Gets(Ok(Look::Absent))),
        (0, 2, "v", Call::Puts(plain('z'), 2, Err(closed))),
        (0, 1, "", Call::Closes(Ok(1), [1, 0, 0, 0])),
        (0, 1, "w", Call::Gets(Ok(Look::Closed(1)))),
    ];
    rows(&rt, rt.alloc(), 8, &all);
}

/// The letter is kept as number 1 and put in the class under the last number, which no key has: the
/// context where it is found from the method then.
fn puts_at_a_number(store: &Store<Letter>, lane: &mut Lane<Letter>) -> Option<Look>
    requires lane { IsLaneOf store.now.id lane.old }
    requires contexts { 2 < length store.now.tree }
    ensures { IsLaneOf store.now.id lane.new }
{
    let last = store.key_count() - 1;
    let Ok(Look::Absent) = store.get_numbered(lane, 2, last) else {
        return None;
    };
    let Ok(None) = store.remove_numbered(lane, 1, last) else {
        return None;
    };
    let kept = store.keep(lane, plain('x')).ok()?;
    let Ok(None) = store.put_numbered(lane, 1, last, kept) else {
        return None;
    };
    store.get_numbered(lane, 2, last).ok()
}

/// Where the key is found from the method, and what is taken out of the class under the last number
/// then.
fn finds_and_takes_out(
    store: &Store<Letter>,
    lane: &mut Lane<Letter>,
    key: &Key,
) -> Option<(Look, Option<u32>)>
    requires lane { IsLaneOf store.now.id lane.old }
    requires contexts { 2 < length store.now.tree }
    ensures { IsLaneOf store.now.id lane.new }
{
    let found = store.get(lane, 2, key).ok()?;
    let last = store.key_count() - 1;
    let taken = store.remove_numbered(lane, 1, last).ok()?;
    Some((found, taken))
}

/// A number that no key has yet: what stands there is found by the number, and by the key that gets
/// it later.
#[derive(Drop)]
struct NumberBeforeKey {
    alloc: Global,
}

impl Scenario for NumberBeforeKey {
    fn play<R: Threads + Sync + Abort>(
        &self,
        rt: &R,
        store: &Store<Letter>,
        first: &mut Lane<Letter>,
        second: &mut Lane<Letter>,
        a: &Key,
        _d: &Key,
    ) {
        let there = Look::Found { at: 1, number: 1 };
        same(rt, puts_at_a_number(store, first), Some(there), "the put");
        same(rt, second.knows_key(63), false, "no key is known");
        name_from(rt, self.alloc, store, second, 0);
        same(rt, second.knows_key(63), true, "the key is known");
        let last = number_key(rt, self.alloc, 63);
        let found = finds_and_takes_out(store, first, &last);
        same(rt, found, Some((there, Some(1))), "the key finds it");
        let full = Err(Refusal::DirectoryFull);
        same(rt, store.get(first, 2, a), full, "the look-up of a");
    }
}

/// A value is put under a number that no key has yet, and the key that gets it later finds the
/// value.
/// Tests `Kept::number`, `Lane::number`, `Store::number`, `Store::key_count`, `Lane::knows_key`,
/// `Store::get`, `Store::get_numbered`, `Store::put`, `Store::remove`, `Store::compute`,
/// `Store::get_wait`, `Store::put_wait`, `Store::remove_wait` and `Store::compute_wait`.
#[test]
fn number_may_come_before_its_key(rt: HostRuntime) {
    let before = NumberBeforeKey { alloc: rt.alloc() };
    with_chain(&rt, rt.alloc(), 8, &before);
}
