//! Calls along a path that is not the tree's, for contexts that are opened during a run.
//!
//! The cells of such a context are there since the opening: it is a context in reserve, of which
//! its opener says what its path is. `put`, `remove` and the close do not ask for a path.
ghost use Rattle.std.specs.Prelude.{ℕ, ◌≡◌, ◌≢◌, ◌↔◌, ◌+◌, ◌*◌, ◌<◌, ◌≤◌, [], IfErr, IfOk, IsFalse, IsSome, IsTrue, MatchResult, Ok, Some, length};
ghost use Rattle.std.specs.Fn.{FnOnceReturnsAt};
ghost use Rattle.ext_model.specs.CallActs.{IsHeld};
ghost use Rattle.ext_tree.specs.Keys.{KeyValue, key_at};
ghost use Rattle.ext_store.specs.Stores.{IsKeptBy, IsLaneOf};
ghost use Rattle.ext_store.specs.LaneCalls.{Frame, GetsAlong, Grows, IsFaultlessLook, IsTrail, steps_of, Stays};
ghost use Rattle.ext_store.specs.Computing.{ClaimsAlong, HandsBack, IfComputed, IsFaultless, IsFaultlessUnused, Uses, without_factory};
ghost use Rattle.ext_store.specs.Waiting.{ComputesAlongAfterWaits, IsDecidedCompute, IsDecidedLook};

use crate::{Compute, Lane, Refusal, Store, StoreValue};
use ext_cells::Claim;
use ext_model::{ContextNo, Fault, KeyNo, Look};
use ext_store_core::Unused;
use ext_tree::Key;
use std::sync::Wait;

impl<V: StoreValue + Drop> Store<V> {
    /// Whether look-ups can go along this path: at most 16 contexts of the store, all different.
    pub fn is_trail(&self, path: &[ContextNo]) -> bool
        ensures { IsTrue result ↔ IsTrail self.now path.now }
    {
        self.shared.is_trail(path)
    }

    /// Looks up a key by its number as `get_numbered` does, but in the contexts of the path, the
    /// first one first. The path must have at least one context, and `is_trail` tests the rest. The
    /// number must be below `key_count`. Refused only as `Contended`.
    ///
    /// JUnit opens contexts during a run (User Guide, section "Keeping State in Extensions"). Here
    /// such a context is one in reserve, whose path is what its opener says: the context itself,
    /// and then the path of its parent.
    #[tactic(auto, unfolding(crate::specs::LaneCalls::Frame))]
    pub fn get_along(
        &self,
        lane: &mut Lane<V>,
        path: &[ContextNo],
        key: KeyNo,
    ) -> Result<Look, Refusal>
        requires lane { IsLaneOf self.now.id lane.old }
        requires some { 1 ≤ length path.now }
        requires path { IsTrail self.now path.now }
        requires key { key < length self.now.id.keys }
        ensures answer { GetsAlong self.now path.now key lane.old.cells lane.new.cells result }
        ensures no_faults { IsFalse self.now.id.cells.limits.keep_faults → IfOk result IsFaultlessLook }
        ensures stays { Stays self.now.id [] lane.old lane.new }
        ensures keys { lane.new.keys ≡ lane.old.keys }
        ensures steps { steps_of lane.old.cells lane.new.cells ≤ 16 * (self.now.tries + 1) }
    {
        self.shared.get_along(&mut lane.cells, path, key)
    }

    /// Begins a compute as `begin_numbered` does, but for the first context of the path, with the
    /// others as its ancestors. The path is as for `get_along`. Refused as `begin_numbered` is.
    #[tactic(auto, unfolding(crate::specs::LaneCalls::Frame))]
    pub fn begin_along(
        &self,
        lane: &mut Lane<V>,
        path: &[ContextNo],
        key: KeyNo,
    ) -> Result<Claim, Unused>
        requires lane { IsLaneOf self.now.id lane.old }
        requires some { 1 ≤ length path.now }
        requires path { IsTrail self.now path.now }
        requires key { key < length self.now.id.keys }
        ensures answer { ClaimsAlong self.now path.now key lane.old.cells.view lane.new.cells.view result }
        ensures held { IfOk result (IsHeld lane.new.cells.view) }
        ensures no_faults { IsFalse self.now.id.cells.limits.keep_faults → IfErr result IsFaultlessUnused }
        ensures stays { Stays self.now.id [] lane.old lane.new }
        ensures keys { lane.new.keys ≡ lane.old.keys }
        ensures steps { MatchResult result (λ _. steps_of lane.old.cells lane.new.cells ≤ 33 * (self.now.tries + 1)) (λ _. steps_of lane.old.cells lane.new.cells ≤ 33 * (self.now.tries + 1) + 2) }
    {
        self.shared.tell_proof();
        let claimed = self.shared.claim_along(&mut lane.cells, path, key);
        lane.cells.tell_proof();
        claimed
    }

    /// Begins a compute as `begin_along` does, but wakes nobody where it gives the claim up, so
    /// that a static library can use it. Call it only if no lane of this store ever waits: a
    /// sleeping lane would not be woken.
    #[tactic(auto, unfolding(crate::specs::LaneCalls::Frame))]
    pub fn begin_along_quietly(
        &self,
        lane: &mut Lane<V>,
        path: &[ContextNo],
        key: KeyNo,
    ) -> Result<Claim, Unused>
        requires lane { IsLaneOf self.now.id lane.old }
        requires some { 1 ≤ length path.now }
        requires path { IsTrail self.now path.now }
        requires key { key < length self.now.id.keys }
        ensures answer { ClaimsAlong self.now path.now key lane.old.cells.view lane.new.cells.view result }
        ensures held { IfOk result (IsHeld lane.new.cells.view) }
        ensures no_faults { IsFalse self.now.id.cells.limits.keep_faults → IfErr result IsFaultlessUnused }
        ensures stays { Stays self.now.id [] lane.old lane.new }
        ensures keys { lane.new.keys ≡ lane.old.keys }
        ensures steps { MatchResult result (λ _. steps_of lane.old.cells lane.new.cells ≤ 33 * (self.now.tries + 1)) (λ _. steps_of lane.old.cells lane.new.cells ≤ 33 * (self.now.tries + 1) + 2) }
    {
        self.shared.tell_proof();
        let claimed = self.shared.claim_along_quietly(&mut lane.cells, path, key);
        lane.cells.tell_proof();
        claimed
    }

    /// Looks up a key by its number as `get_wait_numbered` does, but in the contexts of the path,
    /// the first one first: it looks again until neither a running factory nor other lanes are in
    /// the way. While the nearest entry is a factory that still runs, it sleeps until a claim has
    /// ended. So it never answers `Look::Busy`. The path is as for `get_along`. Never refused. It
    /// may wait.
    ///
    /// Javadoc `ExtensionContext.Store`, `get`, which waits for a running factory too; contexts
    /// that are opened during a run: User Guide, section "Keeping State in Extensions".
    #[tactic(auto, unfolding(crate::specs::LaneCalls::Frame))]
    pub fn get_along_wait<R: Wait>(
        &self,
        rt: &R,
        lane: &mut Lane<V>,
        path: &[ContextNo],
        key: KeyNo,
    ) -> Look
        requires lane { IsLaneOf self.now.id lane.old }
        requires some { 1 ≤ length path.now }
        requires path { IsTrail self.now path.now }
        requires key { key < length self.now.id.keys }
        ensures answer { GetsAlong self.now path.now key lane.old.cells lane.new.cells (Ok result) }
        ensures no_faults { IsFalse self.now.id.cells.limits.keep_faults → IsFaultlessLook result }
        ensures decided { IsDecidedLook result }
        ensures stays { Stays self.now.id [] lane.old lane.new }
        ensures keys { lane.new.keys ≡ lane.old.keys }
    {
        self.shared.get_along_wait(rt, &mut lane.cells, path, key)
    }

    /// Computes as `compute_wait_numbered` does, but for the first context of the path, with the
    /// others as its ancestors. The path is as for `get_along`. It tries again until neither a
    /// running factory nor other lanes are in the way. While a running factory decides a look-up
    /// or the claim, it sleeps until a claim has ended, and holds no claim meanwhile. The factory
    /// is called at most once, with the key of this number. The number must be below `key_count`,
    /// and the lane must know its key, which `Lane::knows_key` tests. Takes memory for the value.
    /// It may wait.
    ///
    /// Refused as `compute_wait_numbered` is: as `Closed` or `Exhausted`. Neither it nor its value
    /// is ever refused as `Busy` or `Contended`. Where the answer is `Found`, `FaultStands` or
    /// `Refused`, the factory was not called and is handed back. A value or a fault that is not
    /// kept comes back as `Unkept` or `FaultUnkept`.
    ///
    /// Javadoc `ExtensionContext.Store`, `getOrComputeIfAbsent`, which waits for a running factory;
    /// contexts that are opened during a run: User Guide, section "Keeping State in Extensions".
    #[tactic(auto, unfolding(crate::specs::LaneCalls::Frame))]
    pub fn compute_along_wait<R: Wait, F: FnOnce(&Key) -> Result<V, Fault>>(
        &self,
        rt: &R,
        lane: &mut Lane<V>,
        path: &[ContextNo],
        key: KeyNo,
        factory: F,
    ) -> Compute<V, F>
        requires lane { IsLaneOf self.now.id lane.old }
        requires some { 1 ≤ length path.now }
        requires path { IsTrail self.now path.now }
        requires key { key < length self.now.id.keys }
        requires named { IsSome (key_at lane.old.keys key) }
        requires factory { F.IsAlwaysCallable factory }
        ensures answer { ComputesAlongAfterWaits self.now path.now key lane.old.cells lane.new.cells (without_factory result) }
        ensures decided { IsDecidedCompute result }
        ensures factory { (name : KeyValue) → key_at lane.old.keys key ≡ Some name → Uses (λ answer. FnOnceReturnsAt F.FnOnce factory name answer) lane.old lane.new (without_factory result) }
        ensures handed_back { HandsBack factory result }
        ensures no_faults { IsFalse self.now.id.cells.limits.keep_faults → IsFaultless result }
        ensures grows { Grows self.now.id lane.old lane.new }
        ensures apart { IfComputed result (λ number. (m : ℕ) → IsKeptBy lane.old m → m ≢ number) }
    {
        let name = self.shared.keys().key(&mut lane.keys, key);
        self.compute_along_wait_named(rt, lane, path, key, name, factory)
    }
}
