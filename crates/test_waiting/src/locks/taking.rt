//! Sets that are taken, refused and given back by several lanes.
ghost use Rattle.std.specs.Prelude.{◌≡◌, ◌+◌, ◌++◌, length, IfNone, IfSome};
ghost use Rattle.ext_locks.specs.Views.{LaneCalls};
ghost use Rattle.ext_locks.specs.Sets.{takes_of, gives_of, HoldsNothing, AllBelow, IsHeldBy};
ghost use Rattle.ext_locks.specs.Refusals.{undone};

use crate::held::same;
use crate::locks::apart::show_apart;
use crate::locks::asking::{global, read, write};
use crate::locks::scenario::{Scenario, with_locks};
use ext_locks::{
    Held, LockFault, LockLane, LockMode, LockNo, LockRefusal, LockRequest, LockSet, Locks,
    lock_laws,
};
use std::process::Abort;

/// What a lane is answered that asks for a set: nothing, once it had it, or a refusal.
type Answer = Result<Option<LockRefusal>, LockFault>;

/// Takes a set and gives it back: that is one call, with the events of both. Answers why it was
/// refused, if it was.
pub(crate) fn take_and_give(
    locks: &Locks,
    lane: &mut LockLane,
    set: &LockSet,
) -> Option<LockRefusal>
    requires lane { lane.old.table ≡ locks.now.table }
    requires nothing { HoldsNothing lane.old }
    requires set { AllBelow (length locks.now.names + 1) set.now }
    ensures held { IfNone result (LaneCalls lane.old lane.new (takes_of lane.old.view.number set.now ++ gives_of lane.old.view.number set.now)) }
    ensures refused { IfSome result (λ refusal. LaneCalls lane.old lane.new (undone lane.old.view.number set.now refusal)) }
    ensures nothing { HoldsNothing lane.new }
    ensures table { lane.new.table ≡ lane.old.table }
{
    lock_laws();
    match locks.try_take(lane, set) {
        Ok(held) => {
            locks.give(lane, held);
            None
        }
        Err(refusal) => Some(refusal),
    }
}

/// Takes the set that the requests ask for, and gives it back, or answers why it is refused.
fn ask(locks: &Locks, lane: &mut LockLane, requests: &[LockRequest]) -> Answer
    requires lane { lane.old.table ≡ locks.now.table }
    requires nothing { HoldsNothing lane.old }
    ensures nothing { HoldsNothing lane.new }
    ensures table { lane.new.table ≡ lane.old.table }
{
    let set = locks.merge(requests)?;
    Ok(take_and_give(locks, lane, &set))
}

/// Takes the set that the requests ask for, if the lane gets it.
fn hold(locks: &Locks, lane: &mut LockLane, requests: &[LockRequest]) -> Option<Held>
    requires lane { lane.old.table ≡ locks.now.table }
    requires nothing { HoldsNothing lane.old }
    ensures held { IfSome result (λ held. IsHeldBy held lane.new) }
    ensures table { lane.new.table ≡ lane.old.table }
{
    let set = locks.merge(requests).ok()?;
    locks.try_take(lane, &set).ok()
}

/// What two lanes are answered while a first one reads by b, and what that one has. Nothing, if it
/// doesn't get b.
fn beside_a_reader(
    locks: &Locks,
    one: &mut LockLane,
    two: &mut LockLane,
    three: &mut LockLane,
) -> Option<([Answer; 3], Option<(LockNo, LockMode)>)>
    requires lanes { (one.old.table ≡ locks.now.table) × (two.old.table ≡ locks.now.table) × (three.old.table ≡ locks.now.table) }
    requires nothing { HoldsNothing one.old × HoldsNothing two.old × HoldsNothing three.old }
{
    let held = hold(locks, one, &[read("b")])?;
    let answers = [
        ask(locks, two, &[read("b")]),
        ask(locks, three, &[write("b"), write("a")]),
        ask(locks, three, &[write("a")]),
    ];
    let lock = held.set().get(0);
    locks.give(one, held);
    Some((answers, lock))
}

/// Two lanes read by b, and the third one writes by a beside them.
#[derive(Drop)]
struct BesideReader;

impl<R: Abort> Scenario<R> for BesideReader {
    fn play(self, rt: &R, locks: &Locks, lanes: &mut [LockLane]) {
        let [one, two, three] = lanes else {
            panic!(rt; "not three lanes");
        };
        same(
            rt,
            beside_a_reader(locks, one, two, three),
            Some((
                [Ok(None), Ok(Some(LockRefusal::Taken(2))), Ok(None)],
                Some((2, LockMode::Read)),
            )),
            "beside a reader",
        );
    }
}

/// Tests `Locks::try_take` and `Held::set`.
#[test]
fn merge_and_shared_read(rt: HostRuntime) {
    with_locks(&rt, rt.alloc(), &["b", "a"], 3, 8, BesideReader);
}

/// What a second lane is answered while a first one reads by a, and then a third one has the global
/// lock too, and whether these two were shown to be apart. Nothing, if the first or the third lane
/// doesn't get its lock.
fn beside_the_global_lock(
    locks: &Locks,
    one: &mut LockLane,
    two: &mut LockLane,
    three: &mut LockLane,
) -> Option<([Answer; 2], bool)>
    requires lanes { (one.old.table ≡ locks.now.table) × (two.old.table ≡ locks.now.table) × (three.old.table ≡ locks.now.table) }
    requires nothing { HoldsNothing one.old × HoldsNothing two.old × HoldsNothing three.old }
{
    let first = hold(locks, one, &[read("a")])?;
    let before = ask(locks, two, &[global(LockMode::Read), write("a")]);
    let third = hold(locks, three, &[global(LockMode::ReadWrite)]);
    let after = ask(locks, two, &[global(LockMode::Read)]);
    let apart = show_apart(locks, three, two);
    locks.give(one, first);
    locks.give(three, third?);
    Some(([before, after], apart))
}

/// The third lane takes the global lock, and is apart from the second one.
#[derive(Drop)]
struct BesideGlobalLock;

impl<R: Abort> Scenario<R> for BesideGlobalLock {
    fn play(self, rt: &R, locks: &Locks, lanes: &mut [LockLane]) {
        let [one, two, three] = lanes else {
            panic!(rt; "not three lanes");
        };
        same(
            rt,
            beside_the_global_lock(locks, one, two, three),
            Some((
                [
                    Ok(Some(LockRefusal::Taken(1))),
                    Ok(Some(LockRefusal::Taken(0))),
                ],
                true,
            )),
            "beside the global lock",
        );
    }
}

/// Tests `LockLane::number`, `Locks::open`, `Locks::try_take`, `Locks::tell_proof` and
/// `Locks::exclusive`.
#[test]
fn third_lane_takes_the_global_lock(rt: HostRuntime) {
    with_locks(&rt, rt.alloc(), &["a"], 3, 8, BesideGlobalLock);
}

/// What the last lane is answered that reads b and wants to write it while the first one reads it,
/// and what the first one is answered that reads b while the last one writes it. Nothing, if one of
/// them doesn't get its lock.
fn first_and_last(locks: &Locks, first: &mut LockLane, last: &mut LockLane) -> Option<[Answer; 3]>
    requires lanes { (first.old.table ≡ locks.now.table) × (last.old.table ≡ locks.now.table) }
    requires nothing { HoldsNothing first.old × HoldsNothing last.old }
{
    let reads = hold(locks, first, &[read("b")])?;
    let beside = ask(locks, last, &[read("b")]);
    let over = ask(locks, last, &[write("b")]);
    locks.give(first, reads);
    let writes = hold(locks, last, &[write("b")])?;
    let under = ask(locks, first, &[read("b")]);
    locks.give(last, writes);
    Some([beside, over, under])
}

/// The first and the last of as many lanes as there can be read beside each other, and one writes
/// alone.
#[derive(Drop)]
struct FirstAndLast;

impl<R: Abort> Scenario<R> for FirstAndLast {
    fn play(self, rt: &R, locks: &Locks, lanes: &mut [LockLane]) {
        let [first, .., last] = lanes else {
            panic!(rt; "not two lanes");
        };
        let taken = Ok(Some(LockRefusal::Taken(2)));
        same(
            rt,
            first_and_last(locks, first, last),
            Some([Ok(None), taken, taken]),
            "first and last",
        );
    }
}

/// Tests `Locks::open_within` and `Locks::try_take`.
#[test]
fn last_of_32_lanes(rt: HostRuntime) {
    with_locks(&rt, rt.alloc(), &["b", "a"], 32, 8, FirstAndLast);
}
