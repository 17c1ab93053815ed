//! How one node is run.
ghost use Rattle.std.specs.Prelude.{◌≡◌, ◌∷◌, [], false, ◌⊎◌, ◌<◌, ◌≤◌, ℕ, List, Option, length, map, All, IfOk, IfErr, true};
ghost use Rattle.ext_model.specs.declared.look.Fault.{Fault};
ghost use Rattle.ext_lifecycle.specs.Results.{skipped_result};
ghost use Rattle.ext_tree.specs.Trees.{IsPathOf};
ghost use Rattle.ext_closing.specs.Closed.{closed_of};
ghost use Rattle.ext_store.specs.Stores.{IsCloserOf, IsLaneOf};
ghost use Rattle.ext_engine.specs.InnerClosers.{IsNode};
ghost use Rattle.ext_engine.specs.InnerResults.{ran_view, of_test, ArePartsOf, TestEnds};
ghost use Rattle.ext_engine.specs.declared.node.fault.EngineFault.TheVariants as engine_fault;
ghost use Rattle.ext_engine.specs.NodeFailing.{IsNotBegun, LeavesOpen, TestEndsEarly};
ghost use Rattle.ext_engine.specs.NodeRun.{setting_of, ClosesNode, IsUsable, IsRunnable, TestRun};

use crate::node::closers::closer_of;
use crate::node::closing::close_again;
use crate::node::node_calls::call_test;
use crate::node::{EngineFault, Item, RanNode};
use crate::{Suite, give_locks, take_locks, test_set};
use ext_closing::Closed;
use ext_lifecycle::{Call, Kind, NodeResult, calls_round};
use ext_locks::{LockLane, LockSet, Locks};
use ext_model::ContextNo;
use ext_store::{Closer, Lane, Store, StoreValue};
use std::alloc::{AllocError, Global};
use std::sync::Wait;

/// Runs single nodes, with the runtime, the suite of the nodes, the store and the locks.
#[derive(Drop)]
pub(crate) struct NodeRunner<'a, R, V: StoreValue + Drop, S: Suite<V>> {
    pub rt: &'a R,
    /// What the nodes are, and what their calls do.
    pub suite: &'a S,
    /// The store whose contexts the nodes are.
    pub store: &'a Store<V>,
    /// The locks that tests take.
    pub locks: &'a Locks,
}

/// What a test is run with: its callbacks in the order of their calls, its locks, and a list with
/// room for its result.
#[derive(Drop)]
struct TestParts {
    befores: Vec<Call>,
    afters: Vec<Call>,
    set: LockSet,
    ran: Vec<RanNode>,
}

impl<'a, R: Wait, V: StoreValue + Drop, S: Suite<V>> NodeRunner<'a, R, V, S> {
    /// Runs a test: takes its locks on the first lock lane, makes its calls on the first lane, each
    /// with the locks lent to it, closes its context with all lanes, and gives the locks back. It
    /// runs this node alone.
    ///
    /// The item is a test with the closer of its context, and no node is below it. There are 1 to
    /// 32 lanes of the store and as many of the locks, which hold nothing. The locks have every
    /// name that the test and the nodes above it ask for, and the suite may be run over the store.
    /// `depth` is 17 less the levels from the root to the test.
    ///
    /// Refused as `Memory` where there is none for its lists or its locks: then nothing was called,
    /// and all lanes are as they were. Refused as `Unjoined`, with its context, where that can't be
    /// closed, as no lane in hand knows a value that remains in it: its calls were made then, its
    /// locks are given back, and its context stays open. Takes memory, all of it before the locks,
    /// so that these are given back whatever happens. May wait.
    ///
    /// JUnit 5 User Guide, sections "Relative Execution Order of User Code and Extensions",
    /// "Synchronization" and "Keeping State in Extensions"; lanes and locks of ancestors are own
    /// rules.
    pub fn run_test(
        &self,
        alloc: Global,
        depth: usize,
        item: Item,
        lanes: &mut [Lane<V>],
        lock_lanes: &mut [LockLane],
    ) -> Result<Vec<RanNode>, EngineFault>
        requires item { IsNode self.now.store.now depth item }
        requires runnable { IsRunnable self.now.store.now self.now.locks.now (S.suite_view self.now.suite.now) }
        requires suite_fits { S.fits self.now.suite.now self.now.store.now }
        requires test { (S.suite_view self.now.suite.now).is_test item.node ≡ true }
        requires lanes { IsUsable self.now.store.now self.now.locks.now (record { first = lanes.old; second = lock_lanes.old }) }
        ensures lanes { IsUsable self.now.store.now self.now.locks.now (record { first = lanes.new; second = lock_lanes.new }) }
        ensures count { length lanes.new ≡ length lanes.old }
        ensures run { IfOk result (λ ran. (path : List ℕ) × IsPathOf self.now.store.now.tree item.node path
            × TestRun (setting_of V.is_closeable S.suite_view S.enabled_gives S.registered S.call_gives S.action_gives S.Action.close_gives self.now.suite.now self.now.store.now self.now.locks.now) item.node path
            (record { first = lanes.old; second = lock_lanes.old }) (map ran_view ran.items) (record { first = lanes.new; second = lock_lanes.new })) }
        ensures early { IfErr result (λ why. IsNotBegun (record { first = lanes.old; second = lock_lanes.old }) why (record { first = lanes.new; second = lock_lanes.new })
            ⊎ ((path : List ℕ) × IsPathOf self.now.store.now.tree item.node path
            × TestEndsEarly (setting_of V.is_closeable S.suite_view S.enabled_gives S.registered S.call_gives S.action_gives S.Action.close_gives self.now.suite.now self.now.store.now self.now.locks.now) item.node path
            (record { first = lanes.old; second = lock_lanes.old }) why (record { first = lanes.new; second = lock_lanes.new }))) }
    {
        let node = item.node;
        let closer = closer_of(self.store, item);
        let parts = self.test_parts(alloc, node)?;
        self.run_parts(node, closer, parts, lanes, lock_lanes)
    }

    /// What is told of a node that the suite leaves out: it is skipped, and so are those below it.
    /// Refused as `Memory` where there is none for the list. Takes memory.
    pub fn leave_out(&self, alloc: Global, node: ContextNo) -> Result<Vec<RanNode>, EngineFault>
        ensures left { IfOk result (λ ran. map ran_view ran.items ≡ record {
          result = skipped_result node ((S.suite_view self.now.suite.now).is_test node);
          went_on = false;
        } ∷ []) }
        ensures fault { IfErr result (λ why. why ≡ engine_fault.Memory) }
    {
        let mut ran = Vec::with_capacity(alloc, 1)?;
        ran.push_reserved(RanNode {
            result: NodeResult::skipped(node, self.suite.is_test(node)),
            went_on: false,
        });
        Ok(ran)
    }

    /// What the test is run with: its callbacks, its locks, and a list for its result. Takes memory
    /// for them.
    fn test_parts(&self, alloc: Global, node: ContextNo) -> Result<TestParts, AllocError>
        requires node { node < length self.now.store.now.tree }
        requires runnable { IsRunnable self.now.store.now self.now.locks.now (S.suite_view self.now.suite.now) }
        ensures { IfOk result (ArePartsOf (setting_of V.is_closeable S.suite_view S.enabled_gives S.registered S.call_gives S.action_gives S.Action.close_gives
            self.now.suite.now self.now.store.now self.now.locks.now) node) }
    {
        let path = self.store.tree().path(node);
        let (befores, afters) = calls_round(alloc, self.suite, true, node, path.as_slice())?;
        let set = test_set(alloc, self.suite, self.locks, path.as_slice())?;
        let ran = Vec::with_capacity(alloc, 1)?;
        Ok(TestParts {
            befores,
            afters,
            set,
            ran,
        })
    }

    /// Runs the test with its parts. Takes no memory except what its calls take.
    fn run_parts(
        &self,
        node: ContextNo,
        closer: Closer,
        parts: TestParts,
        lanes: &mut [Lane<V>],
        lock_lanes: &mut [LockLane],
    ) -> Result<Vec<RanNode>, EngineFault>
        requires lanes { IsUsable self.now.store.now self.now.locks.now (record { first = lanes.old; second = lock_lanes.old }) }
        requires suite_fits { S.fits self.now.suite.now self.now.store.now }
        requires test { (S.suite_view self.now.suite.now).is_test node ≡ true }
        requires closer { IsCloserOf self.now.store.now closer × (closer.context ≡ node) }
        requires node { node < length self.now.store.now.tree }
        requires parts { ArePartsOf (setting_of V.is_closeable S.suite_view S.enabled_gives S.registered S.call_gives S.action_gives S.Action.close_gives
            self.now.suite.now self.now.store.now self.now.locks.now) node parts }
        ensures { TestEnds (setting_of V.is_closeable S.suite_view S.enabled_gives S.registered S.call_gives S.action_gives S.Action.close_gives
            self.now.suite.now self.now.store.now self.now.locks.now) (λ ran. map ran_view ran.items) node
            (record { first = lanes.old; second = lock_lanes.old }) result (record { first = lanes.new; second = lock_lanes.new }) }
    {
        let result = self.run_locked(node, closer, &parts, lanes, lock_lanes)?;
        let mut ran = parts.ran;
        ran.push_reserved(RanNode {
            result,
            went_on: true,
        });
        Ok(ran)
    }

    /// Tells the suite that the test starts, takes its locks, makes its calls, closes its context,
    /// gives the locks back, and tells the suite how the test ended.
    fn run_locked(
        &self,
        node: ContextNo,
        closer: Closer,
        parts: &TestParts,
        lanes: &mut [Lane<V>],
        lock_lanes: &mut [LockLane],
    ) -> Result<NodeResult, EngineFault>
        requires lanes { IsUsable self.now.store.now self.now.locks.now (record { first = lanes.old; second = lock_lanes.old }) }
        requires suite_fits { S.fits self.now.suite.now self.now.store.now }
        requires test { (S.suite_view self.now.suite.now).is_test node ≡ true }
        requires closer { IsCloserOf self.now.store.now closer × (closer.context ≡ node) }
        requires node { node < length self.now.store.now.tree }
        requires parts { ArePartsOf (setting_of V.is_closeable S.suite_view S.enabled_gives S.registered S.call_gives S.action_gives S.Action.close_gives
            self.now.suite.now self.now.store.now self.now.locks.now) node parts.now }
        ensures { TestEnds (setting_of V.is_closeable S.suite_view S.enabled_gives S.registered S.call_gives S.action_gives S.Action.close_gives self.now.suite.now self.now.store.now self.now.locks.now) of_test node
            (record { first = lanes.old; second = lock_lanes.old }) result (record { first = lanes.new; second = lock_lanes.new }) }
    {
        let body = Call {
            kind: Kind::Test,
            from: node,
            index: 0,
        };
        self.suite.started(node, lanes[0].number());
        let held = take_locks(self.rt, self.locks, &mut lock_lanes[0], &parts.set);
        let tally = call_test(
            self.rt,
            self.suite,
            self.store,
            node,
            &held,
            &mut lanes[0],
            parts.befores.as_slice(),
            body,
            parts.afters.as_slice(),
        );
        let closed = self.close_node(node, closer, lanes);
        give_locks(self.locks, &mut lock_lanes[0], held);
        match closed {
            Ok(closes) => {
                let ended = tally.result(node, true, closes);
                self.suite.ended(&ended);
                Ok(ended)
            }
            Err(number) => Err(EngineFault::Unjoined(node, number)),
        }
    }

    /// Closes the context of a node with the lanes in hand, by an action of the suite, and asks
    /// again where a lane computes a value for it or other lanes are in the way.
    ///
    /// There is at least one lane, all are the store's, and the closer is that of the node's
    /// context. Refused with the number of a remaining value that no lane in hand knows: then the
    /// action was not called, and the closer is dropped, so that the context stays open. Takes no
    /// memory except what the action takes. May wait.
    ///
    /// JUnit 5 User Guide, section "Keeping State in Extensions"; that a close is asked again is an
    /// own rule.
    pub fn close_node(
        &self,
        node: ContextNo,
        closer: Closer,
        lanes: &mut [Lane<V>],
    ) -> Result<Closed, u32>
        requires lanes { 1 ≤ length lanes.old }
        requires own_lanes { All (IsLaneOf self.now.store.now.id) lanes.old }
        requires closer { IsCloserOf self.now.store.now closer }
        requires context { closer.context ≡ node }
        ensures closes { IfOk result (λ closes. (faults : List (Option Fault)) × ClosesNode (setting_of V.is_closeable S.suite_view S.enabled_gives S.registered S.call_gives S.action_gives S.Action.close_gives
            self.now.suite.now self.now.store.now self.now.locks.now) node lanes.old faults lanes.new × (closes ≡ closed_of faults)) }
        ensures unjoined { IfErr result (λ number. LeavesOpen (setting_of V.is_closeable S.suite_view S.enabled_gives S.registered S.call_gives S.action_gives S.Action.close_gives
            self.now.suite.now self.now.store.now self.now.locks.now) node lanes.old (engine_fault.Unjoined node number) lanes.new) }
        ensures own_lanes { All (IsLaneOf self.now.store.now.id) lanes.new }
        ensures count { length lanes.new ≡ length lanes.old }
    {
        let mut action = self.suite.action(node);
        match close_again(self.rt, self.store, closer, lanes, &mut action) {
            Ok(closes) => Ok(closes),
            Err(number) => Err(number),
        }
    }
}
