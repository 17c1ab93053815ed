//! Merged sets, and requests that are not merged.
use crate::held::same;
use crate::locks::asking::{global, merged_at, read, write};
use crate::locks::scenario::{Scenario, with_locks};
use ext_locks::{LockFault, LockLane, LockMode, LockNo, LockRequest, Locks};
use std::process::Abort;

/// Asserts that the set that the requests ask for has these locks at its first places.
pub(crate) fn merges(
    rt: &impl Abort,
    locks: &Locks,
    requests: &[LockRequest],
    wanted: &[Option<(LockNo, LockMode)>],
) {
    for (at, lock) in wanted.iter().enumerate() {
        same(rt, merged_at(locks, requests, at), Ok(*lock), "a place");
    }
}

/// Each lock is in the set once, in the strongest mode.
#[derive(Drop)]
struct StrongestModes;

impl<R: Abort> Scenario<R> for StrongestModes {
    fn play(self, rt: &R, locks: &Locks, _lanes: &mut [LockLane]) {
        let asked = [read("b"), write("a"), write("b"), global(LockMode::Read)];
        let wanted = [
            Some((0, LockMode::Read)),
            Some((1, LockMode::ReadWrite)),
            Some((2, LockMode::ReadWrite)),
            None,
        ];
        merges(rt, locks, &asked, &wanted);
    }
}

/// Tests `Locks::merge`, `LockSet::get` and `Locks::name`.
#[test]
fn merged_set(rt: HostRuntime) {
    with_locks(&rt, rt.alloc(), &["b", "a"], 1, 8, StrongestModes);
}

/// The names' numbers are in the order of their bytes, and the global lock has no name.
#[derive(Drop)]
struct OrderOfNames;

impl<R: Abort> Scenario<R> for OrderOfNames {
    fn play(self, rt: &R, locks: &Locks, _lanes: &mut [LockLane]) {
        assert!(rt; locks.name(0).is_none());
        for (at, name) in ["B", "a", "ab", "b"].iter().enumerate() {
            merges(rt, locks, &[read(name)], &[Some((at + 1, LockMode::Read))]);
        }
    }
}

/// Tests `Locks::open`.
#[test]
fn names_are_in_the_order_of_their_bytes(rt: HostRuntime) {
    with_locks(&rt, rt.alloc(), &["b", "ab", "a", "B"], 1, 1, OrderOfNames);
}

/// Asserts that the requests are not merged, since there is no lock of the name of the one at this
/// place.
fn not_merged(rt: &impl Abort, locks: &Locks, requests: &[LockRequest], at: usize) {
    let fault = LockFault::UnknownResource(at);
    same(rt, merged_at(locks, requests, 0), Err(fault), "no set");
}

/// Unknown names are refused, and no request asks for nothing.
#[derive(Drop)]
struct UnknownNames;

impl<R: Abort> Scenario<R> for UnknownNames {
    fn play(self, rt: &R, locks: &Locks, _lanes: &mut [LockLane]) {
        not_merged(rt, locks, &[read("a"), read("c")], 1);
        not_merged(rt, locks, &[read(""), read("c")], 0);
        merges(rt, locks, &[], &[None]);
    }
}

/// Tests `Locks::merge`, `LockSet::get` and `Locks::name`.
#[test]
fn refused_merges_and_the_empty_set(rt: HostRuntime) {
    with_locks(&rt, rt.alloc(), &["a", "b"], 1, 8, UnknownNames);
}
