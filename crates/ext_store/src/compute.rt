//! Computes: a value is made where none is found (`compute` and its forms).
ghost use Rattle.std.specs.Prelude.{ℕ, ◌≡◌, ◌≢◌, ◌+◌, ◌*◌, ◌<◌, ◌≤◌, [], IsFalse, Ok, Err, length, IsSome, Some};
ghost use Rattle.ext_model.specs.CallActs.{IsHeld};
ghost use Rattle.ext_tree.specs.Keys.{PlacesOnly, KeyValue, key_at};
ghost use Rattle.ext_store.specs.Stores.{IsKeptBy, IsLaneOf};
ghost use Rattle.ext_store.specs.LaneCalls.{Frame, IsTrail, OfKey, steps_of, Grows};
ghost use Rattle.ext_store_core.specs.declared.claim.Unused.TheVariants as unused;
ghost use Rattle.ext_store.specs.Computing.{Computes, EndsFailed, HandsBack, IfComputed, IsFaultless, Uses, without_factory};
ghost use Rattle.std.specs.Fn.{FnOnceReturnsAt};
ghost use Rattle.ext_store.specs.declared.computed.Compute.TheVariants.{Refused};
ghost use Rattle.ext_store.specs.Waiting.{ComputesAfterWaits, ComputesAlongAfterWaits, IsDecidedCompute};

use crate::computed::{hand_back, run_factory};
use crate::{Compute, Lane, Store, StoreValue};
use ext_cells::Claim;
use ext_model::{ContextNo, Fault, KeyNo};
use ext_tree::Key;
use std::sync::Wait;

impl<V: StoreValue + Drop> Store<V> {
    /// Computes a value for the key where a look-up from the context finds none, and stores its
    /// number in the context itself. It calls the factory with the key, and keeps the value. The
    /// factory is called at most once, after the lane has claimed the context's cell and has looked
    /// at the ancestors again. It claims only where a first look-up along the whole path found
    /// nothing. While the claim stands, calls of other lanes on the cell are refused as `Busy`;
    /// that it stands while the factory runs is tested, since no clause can say it. A value that an
    /// ancestor gets after the second look does not stop the factory. Takes memory for the value,
    /// and may take it for a key that is new to the lane.
    ///
    /// `Found` where a value stands in the context or an ancestor, the nearest first. Between two
    /// values that were computed for one place there is a remove of the place, as `history_laws` of
    /// ext_model says.
    ///
    /// Refused, step by step: for the key as `number` is, as `DirectoryFull` or `Memory`, before
    /// any step on the cells; at the first look-up as `Contended`, or as `Busy` or `Closed` where
    /// that decides; at the claim also as `Exhausted`, after more than 2^40 - 4 events in the
    /// context under the key; and at the second look-up as at the first. In that last case the lane
    /// has claimed the cell and given it up, two events there. Where the answer is `Found`,
    /// `FaultStands` or `Refused`, the factory was not called and is handed back.
    ///
    /// `Unkept`, with the factory's value, where it is not kept, for the causes of `keep`: then
    /// nothing is stored. Where the factory fails, `Failed` with its fault, and nothing is stored.
    /// A store that keeps faults answers `FaultKept` instead, and the fault stands in the context
    /// until it is removed or replaced; or `FaultUnkept`, with the fault, where it is not kept, for
    /// the causes of `keep`. Such a store answers `FaultStands` instead of `Found` where a kept
    /// fault stands.
    ///
    /// Javadoc `ExtensionContext.Store`, `getOrComputeIfAbsent`; JUnit 5 User Guide, section
    /// "Keeping State in Extensions". The second look is an own rule.
    #[tactic(auto, unfolding(crate::specs::LaneCalls::Frame))]
    pub fn compute<F: FnOnce(&Key) -> Result<V, Fault>>(
        &self,
        lane: &mut Lane<V>,
        context: ContextNo,
        key: &Key,
        factory: F,
    ) -> Compute<V, F>
        requires lane { IsLaneOf self.now.id lane.old }
        requires context { context < length self.now.tree }
        requires factory { F.IsAlwaysCallable factory }
        ensures answer { OfKey lane.old lane.new key.now (λ why. result ≡ Refused why factory) (λ number. Computes self.now context number lane.old.cells lane.new.cells (without_factory result)) }
        ensures factory { Uses (λ answer. FnOnceReturnsAt F.FnOnce factory key.now answer) lane.old lane.new (without_factory result) }
        ensures handed_back { HandsBack factory result }
        ensures no_faults { IsFalse self.now.id.cells.limits.keep_faults → IsFaultless result }
        ensures grows { Grows self.now.id lane.old lane.new }
        ensures apart { IfComputed result (λ number. (m : ℕ) → IsKeptBy lane.old m → m ≢ number) }
        ensures steps { steps_of lane.old.cells lane.new.cells ≤ 34 * (self.now.tries + 1) + 2 }
        ensures placed { PlacesOnly key.now lane.old.keys lane.new.keys }
    {
        match self.number(lane, key) {
            Ok(number) => self.compute_named(lane, context, number, key, factory),
            Err(refusal) => Compute::Refused {
                refusal,
                unused: factory,
            },
        }
    }

    /// Computes as `compute` does, but by the key's number, as `number` gives it. The factory is
    /// called with the key that stands in the place of this number. The number must be below
    /// `key_count`, and the lane must know its key, which `Lane::knows_key` tests. Refused as
    /// `compute` is, except for the key. Takes memory for the value.
    #[tactic(auto, unfolding(crate::specs::LaneCalls::Frame))]
    pub fn compute_numbered<F: FnOnce(&Key) -> Result<V, Fault>>(
        &self,
        lane: &mut Lane<V>,
        context: ContextNo,
        key: KeyNo,
        factory: F,
    ) -> Compute<V, F>
        requires lane { IsLaneOf self.now.id lane.old }
        requires context { context < length self.now.tree }
        requires key { key < length self.now.id.keys }
        requires named { IsSome (key_at lane.old.keys key) }
        requires factory { F.IsAlwaysCallable factory }
        ensures answer { Computes self.now context key lane.old.cells lane.new.cells (without_factory result) }
        ensures factory { (name : KeyValue) → key_at lane.old.keys key ≡ Some name → Uses (λ answer. FnOnceReturnsAt F.FnOnce factory name answer) lane.old lane.new (without_factory result) }
        ensures handed_back { HandsBack factory result }
        ensures no_faults { IsFalse self.now.id.cells.limits.keep_faults → IsFaultless result }
        ensures grows { Grows self.now.id lane.old lane.new }
        ensures apart { IfComputed result (λ number. (m : ℕ) → IsKeptBy lane.old m → m ≢ number) }
        ensures steps { steps_of lane.old.cells lane.new.cells ≤ 34 * (self.now.tries + 1) + 2 }
    {
        let name = self.shared.keys().key(&mut lane.keys, key);
        self.compute_named(lane, context, key, name, factory)
    }

    // Computes as `compute_numbered` does, and calls the factory with this key.
    #[tactic(auto, unfolding(crate::specs::LaneCalls::Frame))]
    fn compute_named<F: FnOnce(&Key) -> Result<V, Fault>>(
        &self,
        lane: &mut Lane<V>,
        context: ContextNo,
        key: KeyNo,
        name: &Key,
        factory: F,
    ) -> Compute<V, F>
        requires lane { IsLaneOf self.now.id lane.old }
        requires context { context < length self.now.tree }
        requires key { key < length self.now.id.keys }
        requires factory { F.IsAlwaysCallable factory }
        ensures answer { Computes self.now context key lane.old.cells lane.new.cells (without_factory result) }
        ensures factory { Uses (λ answer. FnOnceReturnsAt F.FnOnce factory name.now answer) lane.old lane.new (without_factory result) }
        ensures handed_back { HandsBack factory result }
        ensures no_faults { IsFalse self.now.id.cells.limits.keep_faults → IsFaultless result }
        ensures grows { Grows self.now.id lane.old lane.new }
        ensures apart { IfComputed result (λ number. (m : ℕ) → IsKeptBy lane.old m → m ≢ number) }
        ensures steps { steps_of lane.old.cells lane.new.cells ≤ 34 * (self.now.tries + 1) + 2 }
        ensures keys { lane.new.keys ≡ lane.old.keys }
    {
        let claim = match self.begin_numbered(lane, context, key) {
            Ok(claim) => claim,
            Err(why) => return hand_back(why, factory),
        };
        let value = match run_factory(lane, &claim, name, factory) {
            Ok(value) => value,
            Err(fault) => return self.end_failed(lane, claim, fault),
        };
        match self.fill(lane, claim, value) {
            Ok(number) => Compute::Computed { number },
            Err((value, cause)) => Compute::Unkept { value, cause },
        }
    }

    /// Computes as `compute` does, and tries again until neither a running factory nor other lanes
    /// are in the way. While a running factory decides a look-up or the claim, it sleeps until a
    /// claim has ended, and then begins anew. Where other lanes were in the way it begins anew, or
    /// draws again if its own factory has run. So neither it nor its value is ever refused as
    /// `Busy` or `Contended`; otherwise it answers as `compute` does. It may wait.
    ///
    /// Before its last attempt it may claim the context's cell and give it up several times, each
    /// time since a factory runs in an ancestor or other lanes were in the way. It holds no claim
    /// while it sleeps, so that no two lanes wait for each other: what it calls with a claim in
    /// hand gets no means to sleep. The factory is called at most once. That its last claim stands
    /// meanwhile is tested, since no clause can say it. Takes memory as `compute` does.
    ///
    /// Javadoc `ExtensionContext.Store`, `getOrComputeIfAbsent`: it waits for a running factory.
    #[tactic(auto, unfolding(crate::specs::LaneCalls::Frame))]
    pub fn compute_wait<R: Wait, F: FnOnce(&Key) -> Result<V, Fault>>(
        &self,
        rt: &R,
        lane: &mut Lane<V>,
        context: ContextNo,
        key: &Key,
        factory: F,
    ) -> Compute<V, F>
        requires lane { IsLaneOf self.now.id lane.old }
        requires context { context < length self.now.tree }
        requires factory { F.IsAlwaysCallable factory }
        ensures answer { OfKey lane.old lane.new key.now (λ why. result ≡ Refused why factory) (λ number. ComputesAfterWaits self.now context number lane.old.cells lane.new.cells (without_factory result)) }
        ensures decided { IsDecidedCompute result }
        ensures factory { Uses (λ answer. FnOnceReturnsAt F.FnOnce factory key.now answer) lane.old lane.new (without_factory result) }
        ensures handed_back { HandsBack factory result }
        ensures no_faults { IsFalse self.now.id.cells.limits.keep_faults → IsFaultless result }
        ensures grows { Grows self.now.id lane.old lane.new }
        ensures apart { IfComputed result (λ number. (m : ℕ) → IsKeptBy lane.old m → m ≢ number) }
        ensures placed { PlacesOnly key.now lane.old.keys lane.new.keys }
    {
        match self.number(lane, key) {
            Ok(number) => self.compute_wait_named(rt, lane, context, number, key, factory),
            Err(refusal) => Compute::Refused {
                refusal,
                unused: factory,
            },
        }
    }

    /// Computes as `compute_wait` does, but by the key's number, as `number` gives it. The factory
    /// is called with the key of this number. The number must be below
    /// `key_count`, and the lane must know its key, which `Lane::knows_key` tests. Refused as
    /// `compute_wait` is, except for the key. Takes memory for the value. It may wait.
    #[tactic(auto, unfolding(crate::specs::LaneCalls::Frame))]
    pub fn compute_wait_numbered<R: Wait, F: FnOnce(&Key) -> Result<V, Fault>>(
        &self,
        rt: &R,
        lane: &mut Lane<V>,
        context: ContextNo,
        key: KeyNo,
        factory: F,
    ) -> Compute<V, F>
        requires lane { IsLaneOf self.now.id lane.old }
        requires context { context < length self.now.tree }
        requires key { key < length self.now.id.keys }
        requires named { IsSome (key_at lane.old.keys key) }
        requires factory { F.IsAlwaysCallable factory }
        ensures answer { ComputesAfterWaits self.now context key lane.old.cells lane.new.cells (without_factory result) }
        ensures decided { IsDecidedCompute result }
        ensures factory { (name : KeyValue) → key_at lane.old.keys key ≡ Some name → Uses (λ answer. FnOnceReturnsAt F.FnOnce factory name answer) lane.old lane.new (without_factory result) }
        ensures handed_back { HandsBack factory result }
        ensures no_faults { IsFalse self.now.id.cells.limits.keep_faults → IsFaultless result }
        ensures grows { Grows self.now.id lane.old lane.new }
        ensures apart { IfComputed result (λ number. (m : ℕ) → IsKeptBy lane.old m → m ≢ number) }
    {
        let name = self.shared.keys().key(&mut lane.keys, key);
        self.compute_wait_named(rt, lane, context, key, name, factory)
    }

    // Computes as `compute_wait_numbered` does, and calls the factory with this key.
    #[tactic(auto, unfolding(crate::specs::LaneCalls::Frame))]
    fn compute_wait_named<R: Wait, F: FnOnce(&Key) -> Result<V, Fault>>(
        &self,
        rt: &R,
        lane: &mut Lane<V>,
        context: ContextNo,
        key: KeyNo,
        name: &Key,
        factory: F,
    ) -> Compute<V, F>
        requires lane { IsLaneOf self.now.id lane.old }
        requires context { context < length self.now.tree }
        requires key { key < length self.now.id.keys }
        requires factory { F.IsAlwaysCallable factory }
        ensures answer { ComputesAfterWaits self.now context key lane.old.cells lane.new.cells (without_factory result) }
        ensures decided { IsDecidedCompute result }
        ensures factory { Uses (λ answer. FnOnceReturnsAt F.FnOnce factory name.now answer) lane.old lane.new (without_factory result) }
        ensures handed_back { HandsBack factory result }
        ensures no_faults { IsFalse self.now.id.cells.limits.keep_faults → IsFaultless result }
        ensures grows { Grows self.now.id lane.old lane.new }
        ensures apart { IfComputed result (λ number. (m : ℕ) → IsKeptBy lane.old m → m ≢ number) }
        ensures keys { lane.new.keys ≡ lane.old.keys }
    {
        let path = self.tree().path(context);
        self.compute_along_wait_named(rt, lane, path.as_slice(), key, name, factory)
    }

    // Computes along the path as `compute_wait_named` does in the tree.
    #[tactic(auto, unfolding(crate::specs::LaneCalls::Frame))]
    pub(crate) fn compute_along_wait_named<R: Wait, F: FnOnce(&Key) -> Result<V, Fault>>(
        &self,
        rt: &R,
        lane: &mut Lane<V>,
        path: &[ContextNo],
        key: KeyNo,
        name: &Key,
        factory: F,
    ) -> Compute<V, F>
        requires lane { IsLaneOf self.now.id lane.old }
        requires some { 1 ≤ length path.now }
        requires path { IsTrail self.now path.now }
        requires key { key < length self.now.id.keys }
        requires factory { F.IsAlwaysCallable factory }
        ensures answer { ComputesAlongAfterWaits self.now path.now key lane.old.cells lane.new.cells (without_factory result) }
        ensures decided { IsDecidedCompute result }
        ensures factory { Uses (λ answer. FnOnceReturnsAt F.FnOnce factory name.now answer) lane.old lane.new (without_factory result) }
        ensures handed_back { HandsBack factory result }
        ensures no_faults { IsFalse self.now.id.cells.limits.keep_faults → IsFaultless result }
        ensures grows { Grows self.now.id lane.old lane.new }
        ensures apart { IfComputed result (λ number. (m : ℕ) → IsKeptBy lane.old m → m ≢ number) }
        ensures keys { lane.new.keys ≡ lane.old.keys }
    {
        self.shared.tell_proof();
        let claim = match self.shared.claim_along_wait(rt, &mut lane.cells, path, key) {
            Ok(claim) => claim,
            Err(why) => {
                lane.cells.tell_proof();
                return hand_back(why, factory);
            }
        };
        let value = match run_factory(lane, &claim, name, factory) {
            Ok(value) => value,
            Err(fault) => return self.end_failed_decided(lane, claim, fault),
        };
        match self.fill_decided(lane, claim, value) {
            Ok(number) => Compute::Computed { number },
            Err((value, cause)) => Compute::Unkept { value, cause },
        }
    }

    // Ends the claim of a factory that failed: keeps the fault if the store keeps faults, and
    // otherwise gives the claim up.
    #[tactic(auto, unfolding(crate::specs::LaneCalls::Frame))]
    fn end_failed<F>(&self, lane: &mut Lane<V>, claim: Claim, fault: Fault) -> Compute<V, F>
        requires lane { IsLaneOf self.now.id lane.old }
        requires held { IsHeld lane.old.cells.view claim }
        ensures ends { EndsFailed self.now fault claim lane.old lane.new (without_factory result) }
        ensures frame { Frame self.now.id [] lane.old lane.new }
        ensures steps { steps_of lane.old.cells lane.new.cells ≤ self.now.tries + 3 }
        ensures keys { lane.new.keys ≡ lane.old.keys }
    {
        if !self.keeps_faults() {
            self.abandon(lane, claim);
            return Compute::Failed(fault);
        }
        match self.fail(lane, claim, fault) {
            Ok(number) => Compute::FaultKept { number },
            Err((fault, cause)) => Compute::FaultUnkept { fault, cause },
        }
    }

    // Ends the claim as `end_failed` does, but draws again where other lanes were in the way.
    #[tactic(auto, unfolding(crate::specs::LaneCalls::Frame))]
    fn end_failed_decided<F>(&self, lane: &mut Lane<V>, claim: Claim, fault: Fault) -> Compute<V, F>
        requires lane { IsLaneOf self.now.id lane.old }
        requires held { IsHeld lane.old.cells.view claim }
        ensures ends { EndsFailed self.now fault claim lane.old lane.new (without_factory result) }
        ensures decided { IsDecidedCompute result }
        ensures frame { Frame self.now.id [] lane.old lane.new }
        ensures keys { lane.new.keys ≡ lane.old.keys }
    {
        if !self.keeps_faults() {
            self.shared.abandon(&mut lane.cells, claim);
            return Compute::Failed(fault);
        }
        match self.fail_decided(lane, claim, fault) {
            Ok(number) => Compute::FaultKept { number },
            Err((fault, cause)) => Compute::FaultUnkept { fault, cause },
        }
    }
}
