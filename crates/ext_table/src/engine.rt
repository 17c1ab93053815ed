//! What an author writes.
use crate::{Kind, Scope, Stop};
use ext_lane::{LentLane, lend};
use ext_store::{Lane, Store, StoreValue};
use std::sync::Wait;

/// What the tests of a table do.
///
/// All threads of a run share it, and its tests may run in several threads at once. What memory its
/// methods take, and for whom they wait, is their own matter.
pub trait Engine {
    ghost use Rattle.std.specs.Prelude.{◌≡◌, ◌⊎◌, ℕ, List, Result, map};
    ghost use Rattle.ext_store.specs.Stores.{IsLaneOf, StoreLane};
    ghost use Rattle.ext_lane.specs.Lent.{IsSame};
    ghost use Rattle.ext_table.specs.declared.engine.Kept.{Kept};
    ghost use Rattle.ext_table.specs.declared.stop.Stop.{Stop};

    /// What a node is given: the words by which the engine knows what to do.
    type Given;

    /// What tests share: an enum where there are several kinds. `run_table` asks that threads may
    /// hand it over and share it.
    type Shared: Drop;

    /// What a test or a callback may answer, by what it is given and what is shared with it: anything,
    /// unless the engine says otherwise.
    ghost test_gives: { Self → Self.Given → List Self.Shared → Result (Unit {0}) Stop → Type 0 } = { λ engine given shared answer. Unit {0} };

    /// What a test may do to the lane that it is lent, in its context: anything, unless the engine says
    /// otherwise. Or else the lane stays as it was.
    ghost lane_gives: { Self → ℕ → StoreLane (Kept Self.Shared) → StoreLane (Kept Self.Shared) → Type 0 } = { λ engine node before after. Unit {0} };

    /// What may be made of this, below what the nodes above share: anything, unless the engine says
    /// otherwise.
    ghost make_gives: { Self → Self.Given → List Self.Shared → Result Self.Shared Stop → Type 0 } = { λ engine given above made. Unit {0} };

    /// Makes what the tests at and below a node share, of what the node is given. The first call that
    /// comes makes it, once; the others find it, or wait. A fault is kept: all calls that need the
    /// value fail with it. Javadoc `ExtensionContext.Store`, `getOrComputeIfAbsent`.
    fn make(&self, node: &Scope<Self::Given, Self::Shared>) -> Result<Self::Shared, Stop>
        ensures { make_gives self.now node.now.given.now (map (λ s. s.now) node.now.shared.now) result };

    /// What the end of a shared value may answer: anything, unless the engine says otherwise.
    ghost close_gives: { Self → Self.Shared → Result (Unit {0}) Stop → Type 0 } = { λ engine shared answer. Unit {0} };

    /// Ends what was shared, once, when the context of its node is closed. A fault makes the node
    /// fail. Javadoc `ExtensionContext.Store.CloseableResource`.
    fn close(&self, rt: &HostRuntime, shared: &Self::Shared) -> Result<(), Stop>
        ensures { close_gives self.now shared.now result };

    /// Runs a test.
    fn run_test(&self, test: &Scope<Self::Given, Self::Shared>) -> Result<(), Stop>
        ensures { test_gives self.now test.now.given.now (map (λ s. s.now) test.now.shared.now) result };

    /// Runs a test that needs more: to call the store, by a lane that it is lent, or to wait, as for
    /// a `Mutex`, by `threads`. Calls `run_test`, unless the engine says otherwise; a run calls
    /// `run_test` nowhere else, so an engine that says otherwise may use it as it likes.
    ///
    /// What is stored in the context `test.node`, as `Kept(value)`, is found by later attempts too,
    /// and `close` ends it with the context. What is stored in context 0 all tests find. Javadoc
    /// `ExtensionContext`, `getStore`.
    fn run_in_store<R: Wait>(
        &self,
        _threads: &R,
        test: &Scope<Self::Given, Self::Shared>,
        _lane: &mut LentLane<Kept<Self::Shared>>,
    ) -> Result<(), Stop>
        ensures test { test_gives self.now test.now.given.now (map (λ s. s.now) test.now.shared.now) result }
        ensures lane { (_lane.new.lane.now ≡ _lane.old.lane.now) ⊎ lane_gives self.now test.now.node _lane.old.lane.now _lane.new.lane.now }
        ensures same { IsSame _lane.old _lane.new }
    {
        self.run_test(test)
    }

    /// Lends the lane to `run_in_store`, for as long as it takes. A run calls this one, and no engine
    /// writes it.
    fn run_on_lane<R: Wait>(
        &self,
        threads: &R,
        test: &Scope<Self::Given, Self::Shared>,
        store: &Store<Kept<Self::Shared>>,
        lane: &mut Lane<Kept<Self::Shared>>,
    ) -> Result<(), Stop>
        requires { IsLaneOf store.now.id lane.old }
        ensures test { test_gives self.now test.now.given.now (map (λ s. s.now) test.now.shared.now) result }
        ensures moved { (lane.new ≡ lane.old) ⊎ lane_gives self.now test.now.node lane.old lane.new }
        ensures lane { IsLaneOf store.now.id lane.new }
    {
        let mut lent = lend(store, lane);
        self.run_in_store(threads, test, &mut lent)
    }

    /// Makes a callback of this kind, which is never `Kind::Test`. It is handed what it was
    /// registered with, and what the nodes on the path of the node that is called share. Does what
    /// `run_test` does of it, unless the engine says otherwise. JUnit 5 User Guide, section "Test
    /// Lifecycle Callbacks".
    fn call_back(&self, _kind: Kind, node: &Scope<Self::Given, Self::Shared>) -> Result<(), Stop>
        ensures { test_gives self.now node.now.given.now (map (λ s. s.now) node.now.shared.now) result }
    {
        self.run_test(node)
    }

    /// Whether a test in reserve comes. It is asked when the run comes to the test. All come, unless
    /// the engine says otherwise. JUnit 5 User Guide, section "Parameterized Tests"; that cases stand
    /// in reserve is an own rule.
    fn comes(&self, _given: &Self::Given) -> bool {
        true
    }
}

/// A value in the store of a run. A run wraps what `Engine::make` makes, and a test what it stores, as
/// `lane.keep_wait(Kept(value))`; what is found is `kept.0`. All are closed with their contexts, by
/// `Engine::close`.
#[derive(Drop)]
pub struct Kept<S>(pub S);

impl<S> StoreValue for Kept<S> {
    ghost use Rattle.std.specs.Prelude.{true};

    ghost is_closeable = { λ _. true };

    fn closeable(&self) -> bool {
        true
    }
}
