//! The one lane of some locks.
ghost use Rattle.std.specs.Prelude.{◌≡◌, ◌+◌, length, IsTrue};
ghost use Rattle.ext_locks.specs.Sets.{HoldsNothing, AllBelow};

use crate::held::same;
use crate::locks::asking::write;
use crate::locks::scenario::{Scenario, with_locks};
use ext_locks::{LockFault, LockLane, LockRequest, LockSet, Locks, lock_laws};
use std::process::Abort;

/// The one lane that there is gets every set: nobody else can hold a lock, or make the events of a
/// contended call.
fn take_alone(locks: &Locks, lane: &mut LockLane, set: &LockSet) -> bool
    requires lane { lane.old.table ≡ locks.now.table }
    requires alone { lane.old.lanes ≡ 1 }
    requires nothing { HoldsNothing lane.old }
    requires set { AllBelow (length locks.now.names + 1) set.now }
    ensures taken { IsTrue result }
    ensures nothing { HoldsNothing lane.new }
    ensures same { (lane.new.table ≡ lane.old.table) × (lane.new.lanes ≡ lane.old.lanes) }
{
    lock_laws();
    locks.tell_proof();
    lane.tell_proof();
    match locks.try_take(lane, set) {
        Ok(held) => {
            locks.give(lane, held);
            true
        }
        Err(_) => {
            lane.tell_proof();
            false
        }
    }
}

/// Takes the set that the requests ask for, and gives it back: whether it was taken.
fn ask_alone(
    locks: &Locks,
    lane: &mut LockLane,
    requests: &[LockRequest],
) -> Result<bool, LockFault>
    requires lane { lane.old.table ≡ locks.now.table }
    requires alone { lane.old.lanes ≡ 1 }
    requires nothing { HoldsNothing lane.old }
    ensures nothing { HoldsNothing lane.new }
    ensures same { (lane.new.table ≡ lane.old.table) × (lane.new.lanes ≡ lane.old.lanes) }
{
    let set = locks.merge(requests)?;
    Ok(take_alone(locks, lane, &set))
}

/// Asserts that the one lane gets a lock, and a set of none.
fn gets_all(rt: &impl Abort, locks: &Locks, lane: &mut LockLane)
    requires lane { lane.old.table ≡ locks.now.table }
    requires alone { lane.old.lanes ≡ 1 }
    requires nothing { HoldsNothing lane.old }
{
    same(rt, ask_alone(locks, lane, &[write("a")]), Ok(true), "a");
    same(rt, ask_alone(locks, lane, &[]), Ok(true), "the empty set");
}

/// The one lane that there is gets all that it asks for.
#[derive(Drop)]
struct Alone;

impl<R: Abort> Scenario<R> for Alone {
    fn play(self, rt: &R, locks: &Locks, lanes: &mut [LockLane]) {
        let [lane] = lanes else {
            panic!(rt; "not one lane");
        };
        gets_all(rt, locks, lane);
    }
}

/// Tests `Locks::open`, `Locks::try_take`, `Locks::give`, `Locks::tell_proof` and `LockLane::tell_proof`.
#[test]
fn lane_alone_is_never_refused(rt: HostRuntime) {
    with_locks(&rt, rt.alloc(), &["a"], 1, 1, Alone);
}
