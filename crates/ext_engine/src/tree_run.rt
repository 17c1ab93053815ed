//! The run of a tree.
ghost use Rattle.std.specs.Prelude.{◌≡◌, ◌+◌, ◌-◌, ◌<◌, ◌≤◌, List, length, map, IfOk, IfErr, All, [], vec_capacity, vec_len};
ghost use denote.Param.Send.{IsSync, IsSend};
ghost use Rattle.ext_lifecycle.specs.Results.{as_result};
ghost use Rattle.ext_store.specs.Stores.{closers_below};
ghost use Rattle.ext_engine.specs.InnerClosers.{IsNode};
ghost use Rattle.ext_engine.specs.InnerContainers.{AreChildren};
ghost use Rattle.ext_engine.specs.TreeRun.{Ran, setting_of, IsUsable, IsRunnable, TreeRun, all_results};
ghost use Rattle.ext_engine.specs.Failing.{EndsEarly};
ghost use Rattle.ext_engine.specs.InnerRuns.{nodes_in, NodeEnds, BodyEnds, TurnEnds, BesideEnds};

use crate::meeting::{fork, join};
use crate::node::{
    Below, Children, Item, NodeRunner, RanNode, all_skipped, close_container, first_refusal,
    gathered, open_container, put_results,
};
use crate::runner::TreeRunner;
use crate::{EngineFault, Suite};
use ext_crew::{Gate, run_children};
use ext_lifecycle::NodeResult;
use ext_locks::{LockLane, Locks};
use ext_model::ContextNo;
use ext_store::{Closer, Lane, Store, StoreValue};
use std::alloc::Global;
use std::sync::Wait;
use std::thread::Threads;

/// The most levels of a tree.
const LEVELS: usize = 16;

/// Runs all nodes of the store's tree, and gives one result a node, in the order of their contexts.
///
/// A container's before-callbacks are called, its children are run if all of these were successful,
/// then its after-callbacks are called, and its context is closed. Before the children all lanes of
/// its share are shown what the first one has seen, and after the concurrent ones the first is
/// shown what all have seen; neither is an event. The concurrent children are drawn by as many
/// workers as the share has lanes, or fewer if there are fewer such children, each with its own
/// part of the share. When all of them have ended, the others are run one after another, each with
/// the whole share. The root has all lanes, so a run has at most as many threads at work as lanes.
///
/// A test takes the global lock and those named at itself and at its ancestors. All its calls are
/// lent them, and they are given back once its context is closed. The calls of a node are made on
/// the first lane of its share. A node is skipped exactly where a node above it did not run its
/// children, or where the suite leaves out the node or one above it: then nothing of it is called,
/// and its context is not closed. `gate` is told when each concurrent child begins and when it has
/// ended, by its index among those of its container, and nothing of the root and of other children.
///
/// There are 1 to 32 lanes of the store and as many of the locks, which hold nothing. The closers
/// are those of all contexts, in order. The locks have every name that a node asks for, and no node
/// is below a test. The suite may be run over the store.
///
/// Refused as `Memory` where memory is refused for the lists of a node, of which nothing was done
/// then, or for the workers of a container's concurrent children, of which none was begun then.
/// Refused as `Unjoined`, with its context and the number, where a context can't be closed, as no
/// lane of its node's share knows a value that remains in it. All calls of that node were made
/// then, its close action was not called, and a test's locks are given back. For the root's
/// context, and for those of same-thread children of such nodes, the share is all lanes, as they
/// are after the run. Otherwise it is the lanes of the concurrent child in which that happened, as
/// it left them: lanes of another share may know the value, and a lane that ran another child
/// afterwards may have been shown it since.
///
/// A container ends early where a child does. All its concurrent children are run then, and the
/// first refusal in their order is answered; of the others none is run after one that is refused.
/// No after-callback of the container is called, and its context is not closed. Contexts that are
/// not closed stay open, and their closers are dropped; the lock lanes hold nothing. `NoThread` is
/// never answered. Takes memory, and may wait.
///
/// JUnit 5 User Guide, sections "Relative Execution Order of User Code and Extensions", "Parallel
/// Execution" and "Synchronization"; shares, lanes, modes and locks of ancestors are own rules.
pub fn run_tree<
    R: Threads + Wait + Sync,
    V: StoreValue + Drop + Send + Sync,
    S: Suite<V> + Sync,
    G: Gate + Sync,
>(
    rt: &R,
    alloc: Global,
    suite: &S,
    store: &Store<V>,
    locks: &Locks,
    lanes: &mut [Lane<V>],
    lock_lanes: &mut [LockLane],
    closers: Vec<Closer>,
    gate: &G,
) -> Result<Vec<NodeResult>, EngineFault>
    requires lanes { IsUsable store.now locks.now (record { first = lanes.old; second = lock_lanes.old }) }
    requires closers { closers.items ≡ closers_below store.now.id.cells (length store.now.tree) }
    requires runnable { IsRunnable store.now locks.now (S.suite_view suite.now) }
    requires suite_fits { S.fits suite.now store.now }
    ensures lanes { IsUsable store.now locks.now (record { first = lanes.new; second = lock_lanes.new }) }
    ensures count { length lanes.new ≡ length lanes.old }
    ensures run { IfOk result (λ results. (ran : List Ran)
        × TreeRun (setting_of V.is_closeable S.suite_view S.enabled_gives S.registered S.call_gives S.action_gives S.Action.close_gives suite.now store.now locks.now)
        16 0 (record { first = lanes.old; second = lock_lanes.old }) ran (record { first = lanes.new; second = lock_lanes.new })
        × (map as_result results.items ≡ all_results (S.suite_view suite.now) (length store.now.tree) ran)) }
    ensures nodes { IfOk result (λ results. All (λ r. r.node < length store.now.tree) results.items) }
    ensures early { IfErr result (λ why.
        EndsEarly (setting_of V.is_closeable S.suite_view S.enabled_gives S.registered S.call_gives S.action_gives S.Action.close_gives suite.now store.now locks.now)
        16 0 (record { first = lanes.old; second = lock_lanes.old }) why (record { first = lanes.new; second = lock_lanes.new })) }
{
    let nodes = NodeRunner {
        rt,
        suite,
        store,
        locks,
    };
    let runner = TreeRunner { nodes, gate };
    let mut results = all_skipped(alloc, suite, store.tree().len())?;
    let item = Item { node: 0, closers };
    let ran = runner.run_node(alloc, LEVELS, item, lanes, lock_lanes)?;
    put_results(&mut results, ran);
    Ok(results)
}

impl<
    'a,
    R: Threads + Wait + Sync,
    V: StoreValue + Drop + Send + Sync,
    S: Suite<V> + Sync,
    G: Gate + Sync,
> TreeRunner<'a, R, V, S, G> {
    /// Runs a node and all below it, unless the suite leaves it out: a test, or a container with its
    /// before-callbacks, its children if all of these were successful, its after-callbacks, and its
    /// close.
    #[cycle(tree)]
    fn run_node(
        &self,
        alloc: Global,
        depth: usize,
        item: Item,
        lanes: &mut [Lane<V>],
        lock_lanes: &mut [LockLane],
    ) -> Result<Vec<RanNode>, EngineFault>
        requires item { IsNode self.now.nodes.store.now depth item }
        requires ready { IsRunnable self.now.nodes.store.now self.now.nodes.locks.now (S.suite_view self.now.nodes.suite.now)
            × S.fits self.now.nodes.suite.now self.now.nodes.store.now
            × IsUsable self.now.nodes.store.now self.now.nodes.locks.now (record { first = lanes.old; second = lock_lanes.old }) }
        ensures left { NodeEnds (setting_of V.is_closeable S.suite_view S.enabled_gives S.registered S.call_gives S.action_gives S.Action.close_gives
            self.now.nodes.suite.now self.now.nodes.store.now self.now.nodes.locks.now) depth item.node
            (record { first = lanes.old; second = lock_lanes.old }) result (record { first = lanes.new; second = lock_lanes.new }) }
    {
        let tree = self.nodes.store.tree();
        let _count = tree.len();
        if !self.nodes.suite.is_enabled(item.node) {
            let _path = tree.path(item.node);
            return self.nodes.leave_out(alloc, item.node);
        }
        if self.nodes.suite.is_test(item.node) {
            let _path = tree.path(item.node);
            return self.nodes.run_test(alloc, depth, item, lanes, lock_lanes);
        }
        let node = item.node;
        let ran = Vec::with_capacity(alloc, item.closers.len())?;
        let (begun, children) = open_container(&self.nodes, alloc, depth, item, lanes)?;
        let went_on = begun.went_on;
        let below = self.run_body(alloc, depth - 1, went_on, node, children, lanes, lock_lanes)?;
        let own = close_container(&self.nodes, node, begun, lanes)?;
        Ok(gathered(ran, own, below))
    }

    /// Runs the children of a container, if they are to be run: those that run beside one another,
    /// and then the others, unless one of the first was refused.
    #[cycle(tree)]
    fn run_body(
        &self,
        alloc: Global,
        depth: usize,
        go: bool,
        node: ContextNo,
        children: Children,
        lanes: &mut [Lane<V>],
        lock_lanes: &mut [LockLane],
    ) -> Result<Below, EngineFault>
        requires children { AreChildren self.now.nodes.store.now (S.suite_view self.now.nodes.suite.now) depth node children }
        requires ready { IsRunnable self.now.nodes.store.now self.now.nodes.locks.now (S.suite_view self.now.nodes.suite.now)
            × S.fits self.now.nodes.suite.now self.now.nodes.store.now
            × IsUsable self.now.nodes.store.now self.now.nodes.locks.now (record { first = lanes.old; second = lock_lanes.old }) }
        ensures left { BodyEnds (setting_of V.is_closeable S.suite_view S.enabled_gives S.registered S.call_gives S.action_gives S.Action.close_gives
            self.now.nodes.suite.now self.now.nodes.store.now self.now.nodes.locks.now) depth go node
            (record { first = lanes.old; second = lock_lanes.old }) result (record { first = lanes.new; second = lock_lanes.new }) }
    {
        let Children {
            beside,
            in_turn,
            outcomes,
        } = children;
        if !go {
            return Ok(Below {
                beside: Vec::new(alloc),
                in_turn: outcomes,
            });
        }
        fork(self.nodes.store, lanes);
        let first = self.run_beside(alloc, depth, beside, lanes, lock_lanes)?;
        first_refusal(first.as_slice())?;
        join(self.nodes.store, lanes);
        let others = self.run_in_turn(alloc, depth, in_turn, outcomes, lanes, lock_lanes)?;
        Ok(Below {
            beside: first,
            in_turn: others,
        })
    }

    /// Runs children one after another, each with the whole share of the lanes, up to one that is
    /// refused. There is room for what they give.
    #[cycle(tree)]
    fn run_in_turn(
        &self,
        alloc: Global,
        depth: usize,
        items: Vec<Item>,
        mut outcomes: Vec<Result<Vec<RanNode>, EngineFault>>,
        lanes: &mut [Lane<V>],
        lock_lanes: &mut [LockLane],
    ) -> Result<Vec<Result<Vec<RanNode>, EngineFault>>, EngineFault>
        requires items { All (IsNode self.now.nodes.store.now depth) items.items }
        requires room { (outcomes.items ≡ []) × (vec_len items ≤ vec_capacity outcomes) }
        requires ready { IsRunnable self.now.nodes.store.now self.now.nodes.locks.now (S.suite_view self.now.nodes.suite.now)
            × S.fits self.now.nodes.suite.now self.now.nodes.store.now
            × IsUsable self.now.nodes.store.now self.now.nodes.locks.now (record { first = lanes.old; second = lock_lanes.old }) }
        ensures left { TurnEnds (setting_of V.is_closeable S.suite_view S.enabled_gives S.registered S.call_gives S.action_gives S.Action.close_gives
            self.now.nodes.suite.now self.now.nodes.store.now self.now.nodes.locks.now) depth (nodes_in items)
            (record { first = lanes.old; second = lock_lanes.old }) result (record { first = lanes.new; second = lock_lanes.new }) }
    {
        for item in items {
            let below = self.run_node(alloc, depth, item, lanes, lock_lanes)?;
            outcomes.push_reserved(Ok(below));
        }
        Ok(outcomes)
    }

    /// Runs children beside one another, each with a share of the lanes.
    #[cycle(tree)]
    fn run_beside(
        &self,
        alloc: Global,
        depth: usize,
        items: Vec<Item>,
        lanes: &mut [Lane<V>],
        lock_lanes: &mut [LockLane],
    ) -> Result<Vec<Result<Vec<RanNode>, EngineFault>>, EngineFault>
        requires items { All (IsNode self.now.nodes.store.now depth) items.items }
        requires few { vec_len items ≤ 65536 }
        requires ready { IsRunnable self.now.nodes.store.now self.now.nodes.locks.now (S.suite_view self.now.nodes.suite.now)
            × S.fits self.now.nodes.suite.now self.now.nodes.store.now
            × IsUsable self.now.nodes.store.now self.now.nodes.locks.now (record { first = lanes.old; second = lock_lanes.old }) }
        ensures left { BesideEnds (setting_of V.is_closeable S.suite_view S.enabled_gives S.registered S.call_gives S.action_gives S.Action.close_gives
            self.now.nodes.suite.now self.now.nodes.store.now self.now.nodes.locks.now) depth items
            (record { first = lanes.old; second = lock_lanes.old }) result (record { first = lanes.new; second = lock_lanes.new }) }
    {
        let run = |_index: usize, item: Item, lanes: &mut [Lane<
            V,
        >], lock_lanes: &mut [LockLane]| -> Result<Vec<RanNode>, EngineFault>
            requires { IsSync R.row × IsSync S.row × IsSync G.row × IsSync V.row × IsSend V.row × IsSync S.Action.row × IsSend S.Action.row
                × IsNode self.now.nodes.store.now depth item
                × IsRunnable self.now.nodes.store.now self.now.nodes.locks.now (S.suite_view self.now.nodes.suite.now)
                × S.fits self.now.nodes.suite.now self.now.nodes.store.now
                × IsUsable self.now.nodes.store.now self.now.nodes.locks.now (record { first = lanes.old; second = lock_lanes.old }) }
            ensures { NodeEnds (setting_of V.is_closeable S.suite_view S.enabled_gives S.registered S.call_gives S.action_gives S.Action.close_gives
                self.entry.now.nodes.suite.now self.entry.now.nodes.store.now self.entry.now.nodes.locks.now) depth item.node
                (record { first = lanes.old; second = lock_lanes.old }) result (record { first = lanes.new; second = lock_lanes.new }) }
        { self.run_node(alloc, depth, item, lanes, lock_lanes) };
        match run_children(
            self.nodes.rt,
            alloc,
            lanes,
            lock_lanes,
            items,
            &run,
            self.gate,
        ) {
            Ok(outcomes) => Ok(outcomes),
            Err(fault) => Err(EngineFault::from(fault)),
        }
    }
}
