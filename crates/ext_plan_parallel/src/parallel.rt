//! The run of a plan on several lanes.
ghost use Rattle.std.specs.Prelude.{◌≡◌, ◌<◌, ◌≤◌, All, List, length, map, IfOk, IfErr};
ghost use Rattle.ext_lifecycle.specs.Results.{as_result};
ghost use Rattle.ext_plan.specs.Plans.{plan_view};
ghost use Rattle.ext_plan.specs.ReadPlans.{IsRunnablePlan};
ghost use Rattle.ext_store.specs.Stores.{closers_below};
ghost use Rattle.ext_engine.specs.TreeRun.{IsRunnable, IsUsable, Lanes, Ran, TreeRun, all_results};
ghost use Rattle.ext_plan_parallel.specs.Opened.{ShareHistory, ShareKeys};
ghost use Rattle.ext_plan_parallel.specs.ParallelRun.{EndsOver, IsRefusedRun, ParallelRun, setting_of_plan};
ghost use Rattle.ext_plan_parallel.specs.PlanSuites.{suite_of};
ghost use Rattle.ext_plan_parallel.specs.declared.steps.stored_value.StoredValue.{StoredValue};

use crate::PlanSuite;
use crate::meeting::meet_all;
use crate::opening::{open_locks, open_store};
use crate::steps::StoredValue;
use ext_crew::OpenGate;
use ext_engine::{EngineFault, run_tree};
use ext_lifecycle::{NodeResult, RunListener};
use ext_locks::{LockLane, Locks};
use ext_plan::Plan;
use ext_store::{Closer, Lane, Store};
use std::alloc::Global;
use std::sync::Wait;
use std::thread::Threads;

/// Runs a plan on `lanes` lanes (1 to 16) and returns one result for each node, in the order of the
/// plan.
///
/// It opens a store with the plan's contexts and locks with its names, and runs the tree of the
/// nodes over them (`ext_engine::run_tree`), each lane on at most one thread. A key gets its number
/// when a lane first names it, the same in all lanes. Steps make the store's waiting calls. The
/// listener is notified when a node starts, with its lane, of each of its calls, of each fault of
/// these and of its closes as it comes, and when the node has ended. Each plan that
/// `ext_plan_reading` has read is runnable.
///
/// Refused as `Memory` if memory for the suite, the locks or the store is refused, before anything
/// runs, which no clause states; or if the run ended early for want of memory, as `run_tree` says.
/// Refused as `Unjoined` if a context cannot be closed because no lane in hand knows a value that
/// remains in it. Then, too, the run ended early; no plan is known that causes it. `NoThread` is
/// never answered. A step that lacks memory fails by itself, and `may_have_lacked` tells whether
/// there may have been one. Takes memory, and may wait.
///
/// Source: JUnit 5 User Guide, section "Parallel Execution"; lanes are an own rule.
pub fn parallel_results<R: Threads + Wait + Sync, L: RunListener + Sync>(
    rt: &R,
    alloc: Global,
    plan: &Plan,
    lanes: usize,
    listener: &L,
) -> Result<Vec<NodeResult>, EngineFault>
    requires lanes { (1 ≤ lanes) × (lanes ≤ 16) }
    requires runnable { IsRunnablePlan (plan_view plan.now) }
    ensures run { IfOk result (λ results. ParallelRun (plan_view plan.now) lanes (map as_result results.items)) }
    ensures in_tree { IfOk result (λ results. All (λ r. r.node < length plan.now.nodes.items) results.items) }
    ensures fault { IfErr result (IsRefusedRun (plan_view plan.now) lanes) }
{
    let suite = PlanSuite::new(alloc, plan, listener)?;
    let (locks, mut lock_lanes) = open_locks(alloc, plan, lanes)?;
    let (store, mut store_lanes, closers) = open_store(alloc, plan, lanes)?;
    let all_lanes = store_lanes.as_mut_slice();
    let all_locks = lock_lanes.as_mut_slice();
    results_of(
        rt, alloc, &suite, &store, &locks, all_lanes, all_locks, closers,
    )
}

/// Runs the tree of the suite over this store and these locks, and then lets all lanes meet,
/// however it ended.
fn results_of<'a, R: Threads + Wait + Sync, L: RunListener + Sync>(
    rt: &R,
    alloc: Global,
    suite: &PlanSuite<'a, L>,
    store: &Store<StoredValue<'a>>,
    locks: &Locks,
    lanes: &mut [Lane<StoredValue<'a>>],
    lock_lanes: &mut [LockLane],
    closers: Vec<Closer>,
) -> Result<Vec<NodeResult>, EngineFault>
    requires lanes { IsUsable store.now locks.now (record { first = lanes.old; second = lock_lanes.old }) }
    requires closers { closers.items ≡ closers_below store.now.id.cells (length store.now.tree) }
    requires runnable { IsRunnable store.now locks.now (suite_of suite.now) }
    ensures run { IfOk result (λ results. (ran : List Ran) × (after : Lanes StoredValue)
        × TreeRun (setting_of_plan suite.now store.now locks.now) 16 0 (record { first = lanes.old; second = lock_lanes.old }) ran after
        × (map as_result results.items ≡ all_results (suite_of suite.now) (length store.now.tree) ran)
        × ShareHistory store.now after.first × ShareKeys after.first) }
    ensures in_tree { IfOk result (λ results. All (λ r. r.node < length store.now.tree) results.items) }
    ensures early { IfErr result (EndsOver suite.now store.now locks.now (record { first = lanes.old; second = lock_lanes.old })) }
{
    let ran = run_tree(
        rt, alloc, suite, store, locks, lanes, lock_lanes, closers, &OpenGate,
    );
    meet_all(store, lanes);
    ran
}
