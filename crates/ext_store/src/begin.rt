//! The first of the two calls of a compute (`begin` and its forms), for engines that can't hand
//! over a closure.
ghost use Rattle.std.specs.Prelude.{◌≡◌, ◌+◌, ◌*◌, ◌<◌, ◌≤◌, [], IfErr, IfOk, IsFalse, MatchResult, Ok, Err, length};
ghost use Rattle.ext_model.specs.CallActs.{IsHeld};
ghost use Rattle.ext_tree.specs.Keys.{PlacesOnly};
ghost use Rattle.ext_store.specs.Stores.{IsLaneOf};
ghost use Rattle.ext_store.specs.LaneCalls.{Frame, OfKey, steps_of, Stays};
ghost use Rattle.ext_store_core.specs.declared.claim.Unused.TheVariants as unused;
ghost use Rattle.ext_store.specs.Computing.{ClaimsMissing, IsFaultlessUnused};
ghost use Rattle.ext_store.specs.declared.computed.Compute.TheVariants.{Refused};

use crate::{Lane, Store, StoreValue};
use ext_cells::Claim;
use ext_model::{ContextNo, KeyNo};
use ext_store_core::Unused;
use ext_tree::Key;

impl<V: StoreValue + Drop> Store<V> {
    /// Claims the context's cell where a look-up from the context finds nothing, so that the caller
    /// can make a value. It is the first of the two calls of a compute. Exactly one of `fill`,
    /// `fail` and `abandon` ends the claim, on the same lane; until then calls of other lanes on
    /// the cell are refused as `Busy`. It does what `compute` does before it calls its factory. May
    /// take memory for a key that is new to the lane.
    ///
    /// `Unused::Found` where a value stands in the context or an ancestor, and
    /// `Unused::FaultStands` where a kept fault does, the nearest first. `Unused::Refused`, step by
    /// step: for the key as `number` is, as `DirectoryFull` or `Memory`, before any step on the
    /// cells; at the first look-up as `Contended`, or as `Busy` or `Closed` where that decides; at
    /// the claim also as `Exhausted`, after more than 2^40 - 4 events in the context under the key;
    /// and at the second look-up as at the first. In that last case the lane has claimed the cell
    /// and given it up, two events there, and wakes the lanes that wait for a claim to end.
    ///
    /// Javadoc `ExtensionContext.Store`, `getOrComputeIfAbsent`, up to its factory.
    #[tactic(auto, unfolding(crate::specs::LaneCalls::Frame))]
    pub fn begin(&self, lane: &mut Lane<V>, context: ContextNo, key: &Key) -> Result<Claim, Unused>
        requires lane { IsLaneOf self.now.id lane.old }
        requires context { context < length self.now.tree }
        ensures answer { OfKey lane.old lane.new key.now (λ why. result ≡ Err (unused.Refused why)) (λ number. ClaimsMissing self.now context number lane.old.cells.view lane.new.cells.view result) }
        ensures held { IfOk result (IsHeld lane.new.cells.view) }
        ensures no_faults { IsFalse self.now.id.cells.limits.keep_faults → IfErr result IsFaultlessUnused }
        ensures stays { Stays self.now.id [] lane.old lane.new }
        ensures steps { steps_of lane.old.cells lane.new.cells ≤ 33 * (self.now.tries + 1) + 2 }
        ensures placed { PlacesOnly key.now lane.old.keys lane.new.keys }
    {
        match self.number(lane, key) {
            Ok(number) => self.begin_numbered(lane, context, number),
            Err(why) => Err(Unused::Refused(why)),
        }
    }

    /// Begins a compute as `begin` does, but by the key's number, as `number` gives it. The number
    /// must be below `key_count`. Refused as `begin` is, except for the key.
    #[tactic(auto, unfolding(crate::specs::LaneCalls::Frame))]
    pub fn begin_numbered(
        &self,
        lane: &mut Lane<V>,
        context: ContextNo,
        key: KeyNo,
    ) -> Result<Claim, Unused>
        requires lane { IsLaneOf self.now.id lane.old }
        requires context { context < length self.now.tree }
        requires key { key < length self.now.id.keys }
        ensures answer { ClaimsMissing self.now context key lane.old.cells.view lane.new.cells.view result }
        ensures held { IfOk result (IsHeld lane.new.cells.view) }
        ensures no_faults { IsFalse self.now.id.cells.limits.keep_faults → IfErr result IsFaultlessUnused }
        ensures stays { Stays self.now.id [] lane.old lane.new }
        ensures keys { lane.new.keys ≡ lane.old.keys }
        ensures steps { MatchResult result (λ _. steps_of lane.old.cells lane.new.cells ≤ 33 * (self.now.tries + 1)) (λ _. steps_of lane.old.cells lane.new.cells ≤ 33 * (self.now.tries + 1) + 2) }
    {
        self.shared.tell_proof();
        let claimed = self.shared.claim(&mut lane.cells, context, key);
        lane.cells.tell_proof();
        claimed
    }

    /// Begins a compute as `begin_numbered` does, but wakes nobody where it gives the claim up, so
    /// that a static library can use it. Call it only if no lane of this store ever waits: a
    /// sleeping lane would not be woken.
    #[tactic(auto, unfolding(crate::specs::LaneCalls::Frame))]
    pub fn begin_numbered_quietly(
        &self,
        lane: &mut Lane<V>,
        context: ContextNo,
        key: KeyNo,
    ) -> Result<Claim, Unused>
        requires lane { IsLaneOf self.now.id lane.old }
        requires context { context < length self.now.tree }
        requires key { key < length self.now.id.keys }
        ensures answer { ClaimsMissing self.now context key lane.old.cells.view lane.new.cells.view result }
        ensures held { IfOk result (IsHeld lane.new.cells.view) }
        ensures no_faults { IsFalse self.now.id.cells.limits.keep_faults → IfErr result IsFaultlessUnused }
        ensures stays { Stays self.now.id [] lane.old lane.new }
        ensures keys { lane.new.keys ≡ lane.old.keys }
        ensures steps { MatchResult result (λ _. steps_of lane.old.cells lane.new.cells ≤ 33 * (self.now.tries + 1)) (λ _. steps_of lane.old.cells lane.new.cells ≤ 33 * (self.now.tries + 1) + 2) }
    {
        self.shared.tell_proof();
        let claimed = self.shared.claim_quietly(&mut lane.cells, context, key);
        lane.cells.tell_proof();
        claimed
    }
}
