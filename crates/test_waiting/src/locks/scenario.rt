//! The locks of a test, which are opened in one place and lent to what the test does with them.
ghost use Rattle.std.specs.Prelude.{◌≡◌, ◌+◌, All, length};
ghost use Rattle.ext_locks.specs.Sets.{AllBelow, HoldsNothing};
ghost use Rattle.ext_locks.specs.Opening.{fresh_lanes};

use crate::held::same;
use ext_locks::{LockLane, LockRequest, LockSet, Locks};
use std::alloc::Global;
use std::process::Abort;

/// What a test does with locks and all of their lanes.
pub(crate) trait Scenario<R>: Drop {
    /// Does it, and asserts what is answered.
    fn play(self, rt: &R, locks: &Locks, lanes: &mut [LockLane])
        requires table { All (λ lane. lane.table ≡ locks.now.table) lanes.old }
        requires nothing { All HoldsNothing lanes.old }
        requires number { All (λ lane. lane.lanes ≡ length lanes.old) lanes.old };
}

/// Locks of these names, with so many lanes and tries.
pub(crate) fn open(
    rt: &impl Abort,
    alloc: Global,
    names: &[&str],
    lanes: usize,
    tries: u32,
) -> (Locks, Vec<LockLane>)
    ensures { result.1.items ≡ fresh_lanes result.0.table lanes lanes }
{
    match Locks::open_within(alloc, names, lanes, tries, 32) {
        Ok(opened) => opened,
        Err(fault) => panic!(rt; "{fault}"),
    }
}

/// Plays the scenario on locks and all of their lanes, which are fresh.
fn lend<R: Abort, S: Scenario<R>>(
    rt: &R,
    locks: &Locks,
    lanes: &mut [LockLane],
    count: usize,
    scenario: S,
)
    requires { lanes.old ≡ fresh_lanes locks.now.table count count }
{
    same(rt, lanes.len(), count, "the number of lanes");
    scenario.play(rt, locks, lanes);
}

/// Opens locks of these names, with so many lanes and tries, and plays the scenario on them.
pub(crate) fn with_locks<R: Abort, S: Scenario<R>>(
    rt: &R,
    alloc: Global,
    names: &[&str],
    lanes: usize,
    tries: u32,
    scenario: S,
) {
    let (locks, mut opened) = open(rt, alloc, names, lanes, tries);
    lend(rt, &locks, opened.as_mut_slice(), lanes, scenario);
}

/// The set that the requests ask for.
pub(crate) fn merged(rt: &impl Abort, locks: &Locks, requests: &[LockRequest]) -> LockSet
    ensures { AllBelow (length locks.now.names + 1) result }
{
    match locks.merge(requests) {
        Ok(set) => set,
        Err(_) => panic!(rt; "not merged"),
    }
}
