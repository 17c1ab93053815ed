//! Suites whose tests are the leaves of the tree, which say only what a test does and what closes
//! its values.
ghost use Rattle.std.specs.Prelude.{◌≡◌};
ghost use Rattle.ext_engine.specs.LeafSuites.{outcome_with, verdict_of};

use crate::{Suite, is_leaf};
use ext_closing::CloseAction;
use ext_lifecycle::{Call, Callbacks, Kind, Mode, Outcome, Verdict};
use ext_locks::{Held, LockRequest};
use ext_model::{ContextNo, Fault};
use ext_store::{Lane, Made, Store, StoreValue};
use std::sync::Wait;

/// The tests of a run, where they are the nodes with nothing below them, and where nothing but the
/// tests is called and no node names a lock. `run_leaves` runs them.
///
/// All workers of a run share it, and its tests may run in several threads at once. A suite with
/// callbacks, with locks, or with nodes of both modes is a `Suite`.
pub trait LeafSuite<V: StoreValue + Drop> {
    ghost use Rattle.std.specs.Prelude.{◌≡◌, ◌<◌, ℕ, false, length, Result};
    ghost use Rattle.ext_model.specs.declared.look.Fault.{Fault};
    ghost use Rattle.ext_lifecycle.specs.declared.outcome.Outcome.{Outcome};
    ghost use Rattle.ext_store.specs.Stores.{StoreView, StoreLane, IsLaneOf};

    /// What closes the values of a context.
    type Action: CloseAction<V> + Drop + Send + Sync;

    /// Which stores it may be run over: any, unless the suite says otherwise.
    ghost fits: { Self → StoreView → Type 0 } = { λ suite store. Unit {0} };

    /// What a test does: the store, the node, the lane before it, its answer, and the lane after
    /// it. A suite that leaves it out promises nothing of its tests.
    ghost run_gives: { Self → StoreView → ℕ → StoreLane V → Result Outcome Fault → StoreLane V → Type 0 } = { λ suite store node before answer after. Unit {0} };

    /// The actions that a node may be given: any, unless the suite says otherwise.
    ghost action_gives: { Self → ℕ → Self.Action → Type 0 } = { λ suite node action. Unit {0} };

    /// The nodes that may be left out of a run: none, unless the suite says otherwise.
    ghost may_disable: { Self → ℕ → Type 0 } = { λ suite node. ⊥ };

    /// Whether the node is to be run, as `Suite::is_enabled` says it. `true`, unless the suite says
    /// otherwise.
    fn is_enabled(&self, _node: ContextNo) -> bool
        ensures { (result ≡ false) → may_disable self.now _node }
    {
        true
    }

    /// Answers what closes the values of the node's context, as `Suite::action` does. JUnit 5 User
    /// Guide, section "Keeping State in Extensions"; that the suite gives it is an own rule.
    fn action(&self, node: ContextNo) -> Self::Action
        ensures { action_gives self.now node result };

    /// Runs the test of a node, on a lane of the store, and answers its outcome. A fault in its
    /// place is that of a test which failed, and computed and found nothing. The suite may be run
    /// over the store. What memory the test takes, and for whom it waits, is its own matter.
    fn run<R: Wait>(
        &self,
        rt: &R,
        store: &Store<V>,
        node: ContextNo,
        lane: &mut Lane<V>,
    ) -> Result<Outcome, Fault>
        requires fits { fits self.now store.now }
        requires lane { IsLaneOf store.now.id lane.old }
        requires node { node < length store.now.tree }
        ensures run { run_gives self.now store.now node lane.old result lane.new }
        ensures lane { IsLaneOf store.now.id lane.new };
}

/// The outcome of a test that was handed this value, and then ended so. It counts the value as
/// computed where the test's compute has made it, and otherwise as found.
pub fn outcome_with<V>(made: &Made<'_, V>, ended: Result<(), Fault>) -> Outcome
    ensures { result ≡ outcome_with made.now.is_new ended }
{
    let verdict = verdict_of(ended);
    if made.is_new {
        Outcome {
            verdict,
            computed: 1,
            found: 0,
        }
    } else {
        Outcome {
            verdict,
            computed: 0,
            found: 1,
        }
    }
}

/// The verdict on a test that ended so.
fn verdict_of(ended: Result<(), Fault>) -> Verdict
    ensures { result ≡ verdict_of ended }
{
    match ended {
        Ok(()) => Verdict::Successful,
        Err(why) => Verdict::Failed(why),
    }
}

/// The leaves of a store's tree as a whole suite. All nodes have the mode.
#[derive(Drop)]
pub(crate) struct Leaves<'a, V, S> {
    pub(crate) suite: &'a S,
    pub(crate) store: &'a Store<V>,
    pub(crate) mode: Mode,
}

impl<V, S> Callbacks for Leaves<'_, V, S> {
    ghost registered = { λ leaves kind node. 0 };

    fn count(&self, _kind: Kind, _node: ContextNo) -> usize {
        0
    }
}

impl<'a, V: StoreValue + Drop, S: LeafSuite<V>> Suite<V> for Leaves<'a, V, S> {
    ghost use Rattle.std.specs.Prelude.{false};
    ghost use Rattle.ext_lifecycle.specs.Modes.{is_concurrent};
    ghost use Rattle.ext_engine.specs.LeafSuites.{MakesLeaf, leaves_view};

    type Action = S::Action;

    ghost suite_view = { λ leaves. leaves_view (is_concurrent leaves.mode) leaves.store.now.tree };

    ghost fits = { λ leaves store. S.fits leaves.suite.now store };

    ghost call_gives = { λ leaves store node call held before outcome after. MakesLeaf (λ answer left. S.run_gives leaves.suite.now store node before answer left) outcome after };

    ghost action_gives = { λ leaves node action. S.action_gives leaves.suite.now node action };

    ghost enabled_gives = { λ leaves node answer. answer ≡ false → S.may_disable leaves.suite.now node };

    fn mode(&self, _node: ContextNo) -> Mode {
        self.mode
    }

    fn isolated(&self, _node: ContextNo) -> bool {
        false
    }

    fn is_test(&self, node: ContextNo) -> bool {
        is_leaf(self.store.tree(), node)
    }

    fn is_enabled(&self, node: ContextNo) -> bool {
        self.suite.is_enabled(node)
    }

    fn lock_count(&self, _node: ContextNo) -> usize {
        0
    }

    fn lock<'l>(&'l self, _node: ContextNo, _i: usize) -> Option<LockRequest<'l>> {
        None
    }

    fn action(&self, node: ContextNo) -> S::Action {
        self.suite.action(node)
    }

    fn call<R: Wait>(
        &self,
        rt: &R,
        store: &Store<V>,
        node: ContextNo,
        _call: &Call,
        lane: &mut Lane<V>,
        _held: Option<&Held>,
    ) -> Outcome {
        match self.suite.run(rt, store, node, lane) {
            Ok(outcome) => outcome,
            Err(why) => Outcome {
                verdict: Verdict::Failed(why),
                computed: 0,
                found: 0,
            },
        }
    }
}
