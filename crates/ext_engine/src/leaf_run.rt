//! A run of tests that are the leaves of a tree, from its opening to its results.
ghost use Rattle.std.specs.Prelude.{◌≡◌, ◌<◌, All, IfErr, IfOk, List, length, map};
ghost use Rattle.ext_lifecycle.specs.Modes.{is_concurrent};
ghost use Rattle.ext_lifecycle.specs.Results.{as_result};
ghost use Rattle.ext_store.specs.Stores.{StoreView, closers_below};
ghost use Rattle.ext_engine.specs.Failing.{EndsEarly};
ghost use Rattle.ext_engine.specs.LeafRuns.{IsLeafFault, IsLeafRun, IsStoreFor};
ghost use Rattle.ext_engine.specs.LeafSuites.{leaf_setting, leaves_view};
ghost use Rattle.ext_engine.specs.TreeRun.{IsUsable, Ran, TreeRun, all_results};

use crate::leaf_suite::Leaves;
use crate::{EngineFault, LeafSuite, OpenFault, Opened, leaf_laws, open_run, run_tree};
use ext_crew::OpenGate;
use ext_ids::UniqueId;
use ext_lifecycle::{Mode, NodeResult};
use ext_locks::{LockLane, Locks};
use ext_store::{Closer, Lane, Limits, Store, StoreValue};
use std::alloc::Global;
use std::sync::Wait;
use std::thread::Threads;
use thiserror::Error;

/// What a run of leaves leaves behind.
#[derive(Drop)]
pub struct LeafRun<V> {
    /// The store that was opened for the run. Its contexts are the nodes, and all are closed.
    pub store: Store<V>,
    /// One result a node, in the order of the contexts.
    pub results: Vec<NodeResult>,
}

/// Why a run of leaves has no results.
///
/// Prints as a sentence without capital or full stop.
#[derive(Clone, Copy, Debug, PartialEq, Eq, Error)]
pub enum LeafFault {
    /// Nothing was opened, and so nothing was run. It is never `OpenFault::Id`.
    #[error("{0}")]
    Open(OpenFault),
    /// The run has not reached its end.
    #[error("{0}")]
    Run(EngineFault),
}

/// Runs the tests of the suite over a tree of these ids. It opens a store of them, as `open_run`
/// does without names of locks, and runs the tree on all its lanes, as `run_tree` does with a gate
/// that is always open. The nodes with nothing below them are the tests, and the one call of each
/// is `LeafSuite::run`. All nodes have this mode.
///
/// The suite may be run over each store that is opened for these ids with these limits.
///
/// Refused, in this order, as `Open` for what `open_run` is refused for, and as `Run` where the run
/// ends early, as `run_tree` is refused: as `Memory`, or as `Unjoined`. The store is dropped then,
/// with what was not closed. Takes memory, and may wait.
///
/// JUnit 5 User Guide, sections "Parallel Execution" and "Keeping State in Extensions"; that the
/// leaves are the tests is an own rule.
pub fn run_leaves<
    R: Threads + Wait + Sync,
    V: StoreValue + Drop + Send + Sync,
    S: LeafSuite<V> + Sync,
>(
    rt: &R,
    alloc: Global,
    suite: &S,
    ids: &[UniqueId],
    mode: Mode,
    limits: Limits,
) -> Result<LeafRun<V>, LeafFault>
    requires fits { (store : StoreView) → IsStoreFor ids.now limits store → S.fits suite.now store }
    ensures run { IfOk result (λ run. IsLeafRun
        (leaf_setting V.is_closeable S.may_disable S.run_gives S.action_gives S.Action.close_gives suite.now (is_concurrent mode))
        ids.now limits run.store (map as_result run.results.items)) }
    ensures nodes { IfOk result (λ run. All (λ r. r.node < length run.store.tree) run.results.items) }
    ensures fault { IfErr result (IsLeafFault
        (leaf_setting V.is_closeable S.may_disable S.run_gives S.action_gives S.Action.close_gives suite.now (is_concurrent mode))
        ids.now limits) }
{
    let opened = match open_run(alloc, ids, &[], limits) {
        Ok(opened) => opened,
        Err(why) => return Err(LeafFault::Open(why)),
    };
    let Opened {
        store,
        mut lanes,
        closers,
        locks,
        mut lock_lanes,
    } = opened;
    let all_lanes = lanes.as_mut_slice();
    let all_locks = lock_lanes.as_mut_slice();
    match results_over(
        rt, alloc, suite, mode, &store, &locks, all_lanes, all_locks, closers,
    ) {
        Ok(results) => Ok(LeafRun { store, results }),
        Err(why) => Err(LeafFault::Run(why)),
    }
}

/// Runs the tests of the suite over this store and these locks.
fn results_over<
    R: Threads + Wait + Sync,
    V: StoreValue + Drop + Send + Sync,
    S: LeafSuite<V> + Sync,
>(
    rt: &R,
    alloc: Global,
    suite: &S,
    mode: Mode,
    store: &Store<V>,
    locks: &Locks,
    lanes: &mut [Lane<V>],
    lock_lanes: &mut [LockLane],
    closers: Vec<Closer>,
) -> Result<Vec<NodeResult>, EngineFault>
    requires lanes { IsUsable store.now locks.now (record { first = lanes.old; second = lock_lanes.old }) }
    requires closers { closers.items ≡ closers_below store.now.id.cells (length store.now.tree) }
    requires fits { S.fits suite.now store.now }
    ensures run { IfOk result (λ results. (ran : List Ran)
        × TreeRun (leaf_setting V.is_closeable S.may_disable S.run_gives S.action_gives S.Action.close_gives suite.now (is_concurrent mode) store.now locks.now)
        16 0 (record { first = lanes.old; second = lock_lanes.old }) ran (record { first = lanes.new; second = lock_lanes.new })
        × (map as_result results.items ≡ all_results (leaves_view (is_concurrent mode) store.now.tree) (length store.now.tree) ran)) }
    ensures nodes { IfOk result (λ results. All (λ r. r.node < length store.now.tree) results.items) }
    ensures early { IfErr result (λ why.
        EndsEarly (leaf_setting V.is_closeable S.may_disable S.run_gives S.action_gives S.Action.close_gives suite.now (is_concurrent mode) store.now locks.now)
        16 0 (record { first = lanes.old; second = lock_lanes.old }) why (record { first = lanes.new; second = lock_lanes.new })) }
{
    let leaves = Leaves { suite, store, mode };
    leaf_laws(&leaves, store, locks);
    run_tree(
        rt, alloc, &leaves, store, locks, lanes, lock_lanes, closers, &OpenGate,
    )
}
