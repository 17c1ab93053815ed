//! The store and the locks of a run.
ghost use Rattle.std.specs.Prelude.{◌≡◌, ◌≤◌, ◌*◌, map, length, All, IfOk};
ghost use Rattle.ext_cells.specs.Lanes.{fresh_lanes};
ghost use Rattle.ext_plan.specs.Plans.{plan_view};
ghost use Rattle.ext_plan.specs.ReadPlans.{HasFewLocks, HasKeyPlaces, NodesAreTree};
ghost use Rattle.ext_store.specs.Stores.{IsLaneOf, closers_below, fresh_store_lane};
ghost use Rattle.ext_locks.specs.Opening as locking;
ghost use Rattle.ext_plan_parallel.specs.Opened.{IsLocksOf, IsStoreOf};

use crate::contexts::tree_of;
use ext_locks::{LockFault, LockLane, Locks};
use ext_plan::Plan;
use ext_store::{Closer, Lane, Limits, Store, StoreFault, StoreValue};
use std::alloc::{AllocError, Global};

/// How many exchanges a call tries before it waits or starts over.
const TRIES: u32 = 64;

/// Opens a store of the plan's contexts, with its lanes and a closer for each context.
pub(crate) fn open_store<V: StoreValue + Drop>(
    alloc: Global,
    plan: &Plan,
    lanes: usize,
) -> Result<(Store<V>, Vec<Lane<V>>, Vec<Closer>), AllocError>
    requires lanes { (1 ≤ lanes) × (lanes ≤ 16) }
    requires tree { NodesAreTree (plan_view plan.now) }
    requires places { HasKeyPlaces (plan_view plan.now) }
    ensures store { IfOk result (λ r. IsStoreOf (plan_view plan.now) lanes r.0) }
    ensures lanes { IfOk result (λ r. r.1.items ≡ map (fresh_store_lane r.0.id.slots r.0.id.fault_slots r.0.id.keys) (fresh_lanes r.0.id.cells 0 lanes)) }
    ensures own_lanes { IfOk result (λ r. All (IsLaneOf r.0.id) r.1.items) }
    ensures closers { IfOk result (λ r. r.2.items ≡ closers_below r.0.id.cells (length r.0.tree)) }
{
    let tree = tree_of(alloc, plan)?;
    let _most = plan.size.lanes();
    let limits = Limits {
        lanes,
        tries: TRIES,
        keys: plan.key_places,
        numbers: plan.size.numbers(),
        keep_faults: plan.keep_faults,
        size: plan.size,
    };
    match Store::open(alloc, tree, limits) {
        Ok(opened) => Ok(opened),
        Err(StoreFault::Memory) => Err(AllocError),
        // The limits are within their ranges.
        Err(StoreFault::BadLimit) => unreachable!(),
    }
}

/// Opens locks with the names that the plan's nodes name, and their lanes.
pub(crate) fn open_locks(
    alloc: Global,
    plan: &Plan,
    lanes: usize,
) -> Result<(Locks, Vec<LockLane>), AllocError>
    requires lanes { (1 ≤ lanes) × (lanes ≤ 16) }
    requires few { HasFewLocks (plan_view plan.now) }
    ensures locks { IfOk result (λ r. IsLocksOf (plan_view plan.now) lanes r.0) }
    ensures lanes { IfOk result (λ r. r.1.items ≡ locking.fresh_lanes r.0.table lanes lanes) }
{
    let names = plan.lock_names(alloc)?;
    match Locks::open(alloc, names.as_slice(), lanes, TRIES) {
        Ok(opened) => Ok(opened),
        Err(LockFault::Memory) => Err(AllocError),
        // The limits are within their ranges, and the names are few and different; opening requests
        // no lock.
        Err(LockFault::BadLimit) => unreachable!(),
        Err(LockFault::TooMany) => unreachable!(),
        Err(LockFault::Twice(_)) => unreachable!(),
        Err(LockFault::UnknownResource(_)) => unreachable!(),
    }
}
