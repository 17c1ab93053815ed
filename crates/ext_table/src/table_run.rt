//! A run of a table, from its opening to its results.
ghost use Rattle.std.specs.Prelude.{◌≡◌, ◌<◌, All, IfErr, IfOk, IsPermutation, List, length, map};
ghost use Rattle.ext_lifecycle.specs.Results.{as_result};
ghost use Rattle.ext_locks.specs.Names.{texts_of};
ghost use Rattle.ext_store.specs.Stores.{closers_below};
ghost use Rattle.ext_engine.specs.Failing.{EndsEarly};
ghost use Rattle.ext_engine.specs.TreeRun.{IsRunnable, IsUsable, Ran, TreeRun, all_results};
ghost use Rattle.ext_table.specs.InnerSharing.{level_keys};
ghost use Rattle.ext_table.specs.Sharing.{level_key};
ghost use Rattle.ext_table.specs.TableRuns.{IsTableFault, IsTableRun, table_setting};
ghost use Rattle.ext_table.specs.Tables.{AreKnown, table_view, texts_in};

use crate::suite::TableSuite;
use crate::{Engine, Kept, TableListener, TestTable};
use ext_engine::{EngineFault, NodeResult, OpenFault, OpenGate, Opened, open_run, run_tree};
use ext_locks::{LockLane, Locks};
use ext_store::{Closer, Lane, Limits, Store};
use ext_tree::{Key, Namespace};
use std::alloc::{AllocError, Global};
use std::sync::Wait;
use std::sync::atomic::AtomicU64;
use std::thread::Threads;
use thiserror::Error;

/// Why a run has no results.
///
/// Prints as a sentence without capital or full stop.
#[derive(Clone, Copy, Debug, PartialEq, Eq, Error)]
pub enum RunFault {
    #[error("out of memory")]
    Memory,
    /// Nothing was opened.
    #[error("{0}")]
    Open(OpenFault),
    /// The run has not reached its end.
    #[error("{0}")]
    Run(EngineFault),
}

impl From<AllocError> for RunFault {
    ghost use Rattle.std.specs.Prelude.{◌≡◌};
    ghost use Rattle.ext_table.specs.declared.table_run.RunFault.TheVariants.{Memory};

    ghost from_gives = { λ why fault. fault ≡ Memory };

    fn from(_why: AllocError) -> RunFault {
        RunFault::Memory
    }
}

/// What a run leaves behind.
#[derive(Drop)]
pub struct TableRun<S> {
    /// The store that was opened for the run. Its contexts are the nodes of the table.
    pub store: Store<Kept<S>>,
    /// One result a node, in the order of the table.
    pub results: Vec<NodeResult>,
}

/// How the tests of a table are run.
#[derive(Clone, Copy, Debug, PartialEq, Eq)]
pub struct RunLimits {
    /// The limits of the store; its lanes are the threads that run tests.
    pub limits: Limits,
    /// How often a test is run at most until it does not fail, where the table does not say so; 0
    /// stands for 1.
    pub attempts: u32,
    /// After how many failed tests no more are begun; 0 if all are.
    pub stop_after: u64,
}

/// Runs the nodes of a table. It opens a store of the table's ids, with locks of its names, and runs
/// the tree on all lanes, as `run_tree` of ext_engine does with a gate that is always open. A call
/// is handed what the nodes on its node's path share, and what it does then is said in
/// `specs/TableCalls`.
///
/// Refused, in this order, as `Memory` for want of memory before the opening, as `Open` for what
/// `open_run` is refused for, and as `Run` where the run ends early, as `run_tree` is refused. The
/// store is dropped then, with what was not closed. Takes memory, and may wait.
///
/// JUnit 5 User Guide, sections "Parallel Execution", "Synchronization" and "Keeping State in
/// Extensions"; that a suite is a table is an own rule.
pub fn run_table<R: Threads + Wait + Sync, E: Engine + Sync, L: TableListener + Sync>(
    threads: &R,
    rt: &HostRuntime,
    engine: &E,
    table: &TestTable<E::Given>,
    run: RunLimits,
    listener: &L,
) -> Result<TableRun<E::Shared>, RunFault>
where
    E::Given: Sync,
    E::Shared: Send + Sync,
    ensures run { IfOk result (λ done. IsTableRun
        (table_setting {L = L} engine.now (E.test_gives engine.now) (E.make_gives engine.now) (E.lane_gives engine.now) E.close_gives table.now.rows.items (texts_in table.now.lock_names.items) run.attempts run.stop_after)
        table.now.ids.items (texts_in table.now.lock_names.items) run.limits done.store (map as_result done.results.items)) }
    ensures nodes { IfOk result (λ done. All (λ r. r.node < length done.store.tree) done.results.items) }
    ensures fault { IfErr result (λ why. IsTableFault
        (table_setting {L = L} engine.now (E.test_gives engine.now) (E.make_gives engine.now) (E.lane_gives engine.now) E.close_gives table.now.rows.items (texts_in table.now.lock_names.items) run.attempts run.stop_after)
        table.now.ids.items (texts_in table.now.lock_names.items) run.limits why) }
{
    let alloc = rt.alloc();
    let ids = table.ids.as_slice();
    let rows = table.rows.as_slice();
    let Ok(texts) = texts(alloc, table.lock_names.as_slice()) else {
        return Err(RunFault::Memory);
    };
    let names = texts.as_slice();
    let Ok(keys) = level_keys(alloc) else {
        return Err(RunFault::Memory);
    };
    let opened = match open_run(alloc, ids, names, run.limits) {
        Ok(opened) => opened,
        Err(why) => return Err(RunFault::Open(why)),
    };
    let failed = AtomicU64::new(0);
    let Opened {
        store,
        mut lanes,
        closers,
        locks,
        mut lock_lanes,
    } = opened;
    let suite = TableSuite {
        rt,
        engine,
        store: &store,
        names,
        rows,
        keys: keys.as_slice(),
        attempts: run.attempts,
        stop_after: run.stop_after,
        failed: &failed,
        listener,
    };
    let all_lanes = lanes.as_mut_slice();
    let all_locks = lock_lanes.as_mut_slice();
    match results_over(threads, &suite, &locks, all_lanes, all_locks, closers) {
        Ok(results) => Ok(TableRun { store, results }),
        Err(why) => Err(RunFault::Run(why)),
    }
}

/// Runs the nodes of the suite over its store and these locks.
fn results_over<'a, R: Threads + Wait + Sync, E: Engine + Sync, L: TableListener + Sync>(
    threads: &R,
    suite: &TableSuite<'a, E, L>,
    locks: &Locks,
    lanes: &mut [Lane<Kept<E::Shared>>],
    lock_lanes: &mut [LockLane],
    closers: Vec<Closer>,
) -> Result<Vec<NodeResult>, EngineFault>
where
    E::Given: Sync,
    E::Shared: Send + Sync,
    requires lanes { IsUsable suite.now.store.now locks.now (record { first = lanes.old; second = lock_lanes.old }) }
    requires closers { closers.items ≡ closers_below suite.now.store.now.id.cells (length suite.now.store.now.tree) }
    requires keys { suite.now.keys.now ≡ level_keys }
    requires known { AreKnown (length suite.now.names.now) suite.now.rows.now }
    requires names { IsPermutation (texts_of suite.now.names.now) locks.now.names }
    ensures run { IfOk result (λ results. (ran : List Ran)
        × TreeRun (table_setting {L = L} suite.now.engine.now (E.test_gives suite.now.engine.now) (E.make_gives suite.now.engine.now) (E.lane_gives suite.now.engine.now) E.close_gives suite.now.rows.now (texts_of suite.now.names.now) suite.now.attempts suite.now.stop_after suite.now.store.now locks.now)
        16 0 (record { first = lanes.old; second = lock_lanes.old }) ran (record { first = lanes.new; second = lock_lanes.new })
        × (map as_result results.items ≡ all_results (table_view suite.now.rows.now (texts_of suite.now.names.now) suite.now.store.now.tree) (length suite.now.store.now.tree) ran)) }
    ensures nodes { IfOk result (λ results. All (λ r. r.node < length suite.now.store.now.tree) results.items) }
    ensures early { IfErr result (λ why.
        EndsEarly (table_setting {L = L} suite.now.engine.now (E.test_gives suite.now.engine.now) (E.make_gives suite.now.engine.now) (E.lane_gives suite.now.engine.now) E.close_gives suite.now.rows.now (texts_of suite.now.names.now) suite.now.attempts suite.now.stop_after suite.now.store.now locks.now)
        16 0 (record { first = lanes.old; second = lock_lanes.old }) why (record { first = lanes.new; second = lock_lanes.new })) }
{
    table_laws(suite, locks);
    run_tree(
        threads,
        suite.rt.alloc(),
        suite,
        suite.store,
        locks,
        lanes,
        lock_lanes,
        closers,
        &OpenGate,
    )
}

/// Proves the condition `runnable` of `run_tree` for the suite of a table, over its store with locks
/// of its names.
fn table_laws<E: Engine, L: TableListener>(suite: &TableSuite<E, L>, locks: &Locks)
    requires known { AreKnown (length suite.now.names.now) suite.now.rows.now }
    requires names { IsPermutation (texts_of suite.now.names.now) locks.now.names }
    ensures runnable { IsRunnable suite.now.store.now locks.now (table_view suite.now.rows.now (texts_of suite.now.names.now) suite.now.store.now.tree) }
{}

/// The keys of shared values, one for each level of a tree.
fn level_keys(alloc: Global) -> Result<Vec<Key>, AllocError>
    ensures { IfOk result (λ keys. keys.items ≡ level_keys) }
{
    let mut keys = Vec::new(alloc);
    for level in 0..16 {
        let key = level_key(alloc, level)?;
        keys.push(key)?;
    }
    Ok(keys)
}

/// The key of what the nodes of a level share.
fn level_key(alloc: Global, level: u32) -> Result<Key, AllocError>
    ensures { IfOk result (λ key. key ≡ level_key level) }
{
    let name = format!(in alloc; "shared {level}")?;
    match Key::new(alloc, Namespace::global(), name.as_str()) {
        Ok(key) => Ok(key),
        Err(_) => Err(AllocError),
    }
}

/// The texts of these strings.
fn texts(alloc: Global, names: &[String]) -> Result<Vec<&str>, AllocError>
    ensures { IfOk result (λ texts. texts_of texts.items ≡ texts_in names.now) }
{
    let mut texts = Vec::new(alloc);
    for name in names {
        texts.push(name.as_str())?;
    }
    Ok(texts)
}
