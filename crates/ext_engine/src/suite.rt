//! What a suite says of its nodes, and its calls.

use ext_closing::CloseAction;
use ext_lifecycle::{Call, Callbacks, Mode, NodeResult, Outcome};
use ext_locks::{Held, LockRequest};
use ext_model::{ContextNo, LaneNo};
use ext_store::{Lane, Store, StoreValue};
use std::sync::Wait;

/// The nodes of a tree of tests, and their calls. Nodes are the contexts of the store's tree,
/// numbered from 0.
///
/// All workers of a run share it, and what it says of a node doesn't change. Its calls may come
/// from several threads at once.
pub trait Suite<V: StoreValue + Drop>: Callbacks {
    ghost use Rattle.std.specs.Prelude.{◌≡◌, ◌<◌, ◌≤◌, ℕ, Bool, true, Option, length, slice_get, Some, option_map};
    ghost use Rattle.ext_locks.specs.Sets.{HeldView};
    ghost use Rattle.ext_store.specs.Stores.{StoreView, StoreLane, IsLaneOf};
    ghost use Rattle.ext_lifecycle.specs.Modes.{is_concurrent};
    ghost use Rattle.ext_lifecycle.specs.declared.call.Call.{Call};
    ghost use Rattle.ext_lifecycle.specs.declared.outcome.Outcome.{Outcome};
    ghost use Rattle.ext_engine.specs.Suites.{SuiteView, asks, IsLent};

    /// What closes the values of a context.
    type Action: CloseAction<V> + Drop + Send + Sync;

    /// What it says of its nodes: their modes, tests and locks.
    ghost suite_view: { Self → SuiteView };

    /// Which stores it may be run over.
    ghost fits: { Self → StoreView → Type 0 };

    /// What a call does: the store, the node, the call, what it is lent, the lane before it, its
    /// outcome, and the lane after it.
    ghost call_gives: { Self → StoreView → ℕ → Call → Option HeldView → StoreLane V → Outcome → StoreLane V → Type 0 };

    /// The actions that a node may be given.
    ghost action_gives: { Self → ℕ → Self.Action → Type 0 };

    /// Whether the node runs beside the others of its container. It is never asked of the root.
    /// JUnit 5 User Guide, section "Parallel Execution".
    fn mode(&self, node: ContextNo) -> Mode
        ensures { is_concurrent result ≡ (suite_view self.now).is_concurrent node };

    /// Whether no other test may run beside a test at or below the node. Javadoc `Isolated`.
    fn isolated(&self, node: ContextNo) -> bool
        ensures { result ≡ (suite_view self.now).is_isolated node };

    /// Whether the node is a test; otherwise it is a container.
    fn is_test(&self, node: ContextNo) -> bool
        ensures { result ≡ (suite_view self.now).is_test node };

    /// How many locks the node names. Javadoc `ResourceLock`.
    fn lock_count(&self, node: ContextNo) -> usize
        ensures { result ≡ length ((suite_view self.now).locks node) };

    /// Answers one of the locks that the node names, from 0, and `None` past the last. Javadoc
    /// `ResourceLock`.
    fn lock<'a>(&'a self, node: ContextNo, i: usize) -> Option<LockRequest<'a>>
        ensures { option_map asks result ≡ slice_get ((suite_view self.now).locks node) i };

    /// What `is_enabled` may answer of a node: always yes, in a suite that does not say what else.
    ghost enabled_gives: { Self → ℕ → Bool → Type 0 } = { λ suite node answer. answer ≡ true };

    /// Whether the node is to be run. Asked once where a run comes to the node, by the thread that
    /// would run it: after the before-callbacks of its container, and before anything of the node is
    /// called. If not, the node is skipped with all nodes below it. So tests that are known only
    /// when their container starts have nodes of their own: as many as there may be are in the
    /// tree, and those that did not come are left out.
    /// JUnit 5 User Guide, section "Conditional Test Execution"; that it is asked of nodes in
    /// reserve is an own rule.
    fn is_enabled(&self, node: ContextNo) -> bool
        ensures { enabled_gives self.now node result };

    /// Answers what closes the values of the node's context. A run that closes a context asks for
    /// it once, and gives the context's values to no other action; that it asks for no second one
    /// is tested, since a clause can't speak of an action that was let go again. JUnit 5 User
    /// Guide, section "Keeping State in Extensions"; that the suite gives it is an own rule.
    fn action(&self, node: ContextNo) -> Self::Action
        ensures { action_gives self.now node result };

    /// Called when the node starts, once for each node that is not skipped. The thread that runs
    /// the node calls it before the first of the node's calls, and before a test waits for its
    /// locks. It is not called where memory for its lists or for its locks is refused. `lane` is
    /// the number of the first lane of its share, on which its calls are made. Does nothing, unless
    /// the suite says otherwise. JUnit Platform, Javadoc `EngineExecutionListener`,
    /// `executionStarted`; that lanes are told is an own rule.
    fn started(&self, _node: ContextNo, _lane: LaneNo) {}

    /// Called when a node has ended, with its result: once for each node whose calls were made and
    /// whose context was closed, by the thread that ran it, after it gave its locks back. It is not
    /// called for nodes that were skipped, nor where the run is refused before that. Does nothing,
    /// unless the suite says otherwise. JUnit Platform, Javadoc `EngineExecutionListener`,
    /// `executionFinished`.
    fn ended(&self, _ran: &NodeResult) {}

    /// Makes one call of the node, on a lane of the store: a callback of the node or of one above
    /// it, or the test. A test is lent the locks that it holds, and a container none. The suite may
    /// be run over the store. What memory the call takes, and for whom it waits, is its own matter:
    /// want of memory is an outcome.
    fn call<R: Wait>(
        &self,
        rt: &R,
        store: &Store<V>,
        node: ContextNo,
        call: &Call,
        lane: &mut Lane<V>,
        held: Option<&Held>,
    ) -> Outcome
        requires fits { fits self.now store.now }
        requires lane { IsLaneOf store.now.id lane.old }
        requires node { node < length store.now.tree }
        requires held { IsLent (suite_view self.now) store.now.tree node (option_map (λ h. h.now) held) }
        ensures call { call_gives self.now store.now node call.now (option_map (λ h. h.now) held.entry) lane.old result lane.new }
        ensures lane { IsLaneOf store.now.id lane.new };
}
