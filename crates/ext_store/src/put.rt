//! Puts: a kept number is stored under a key (`put` and its forms).
ghost use Rattle.std.specs.Prelude.{◌≡◌, ◌+◌, ◌<◌, ◌≤◌, IfErr, Ok, Err, length};
ghost use Rattle.ext_model.specs.declared.event.Act.TheVariants as act_is;
ghost use Rattle.ext_tree.specs.Keys.{PlacesOnly};
ghost use Rattle.ext_cells.specs.CellCalls.{ComesLast};
ghost use Rattle.ext_store.specs.Stores.{IsKeptBy, IsLaneOf, cell_in};
ghost use Rattle.ext_store.specs.LaneCalls.{Frame, stored_by, OfKey, Puts, steps_of, Stays};
ghost use Rattle.ext_store.specs.declared.computed.Compute.TheVariants.{Refused};
ghost use Rattle.ext_store.specs.Waiting.{IsDecided};

use crate::{Kept, Lane, Refusal, Store, StoreValue};
use ext_model::{ContextNo, KeyNo};
use ext_tree::Key;
use std::sync::Wait;

impl<V: StoreValue + Drop> Store<V> {
    /// Stores the kept number under the key in the context itself and answers the number that it
    /// replaces, if any. Contexts below find it unless something stands nearer to them. A replaced
    /// value is not closed. May take memory for a key that is new to the lane.
    ///
    /// Refused, in this order, for the key as `number` is, as `DirectoryFull` or `Memory`, before
    /// any step on the cells; as `Busy` where a lane computes a value for the context; as `Closed`;
    /// as `Exhausted` after more than 2^40 - 3 events there; and as `Contended`, which counts
    /// events in this context under this key alone. The kept number is then handed back, and can
    /// still be put.
    ///
    /// Javadoc `ExtensionContext.Store`, `put`, which answers nothing.
    #[tactic(auto, unfolding(crate::specs::LaneCalls::Frame))]
    pub fn put(
        &self,
        lane: &mut Lane<V>,
        context: ContextNo,
        key: &Key,
        kept: Kept,
    ) -> Result<Option<u32>, (Kept, Refusal)>
        requires lane { IsLaneOf self.now.id lane.old }
        requires context { context < length self.now.tree }
        requires kept { IsKeptBy lane.old kept }
        ensures answer { OfKey lane.old lane.new key.now (λ why. result ≡ Err (kept, why)) (λ number. Puts self.now context number kept lane.old.cells lane.new.cells result) }
        ensures contended { OfKey lane.old lane.new key.now (λ why. result ≡ Err (kept, why)) (λ number. ComesLast (kept, Refusal.Contended) self.now.tries lane.old.cells lane.new.cells (act_is.Put (cell_in self.now number context) kept) result) }
        ensures handed_back { IfErr result (λ e. e.0 ≡ kept) }
        ensures stays { Stays self.now.id (stored_by kept result) lane.old lane.new }
        ensures steps { steps_of lane.old.cells lane.new.cells ≤ self.now.tries + 1 }
        ensures placed { PlacesOnly key.now lane.old.keys lane.new.keys }
    {
        match self.number(lane, key) {
            Ok(key) => self.put_numbered(lane, context, key, kept),
            Err(why) => Err((kept, why)),
        }
    }

    /// Stores the kept number as `put` does, but by the key's number, as `number` gives it. The
    /// number must be below `key_count`, and need not have a key yet. Refused as `put` is, except
    /// for the key.
    #[tactic(auto, unfolding(crate::specs::LaneCalls::Frame))]
    pub fn put_numbered(
        &self,
        lane: &mut Lane<V>,
        context: ContextNo,
        key: KeyNo,
        kept: Kept,
    ) -> Result<Option<u32>, (Kept, Refusal)>
        requires lane { IsLaneOf self.now.id lane.old }
        requires context { context < length self.now.tree }
        requires key { key < length self.now.id.keys }
        requires kept { IsKeptBy lane.old kept }
        ensures answer { Puts self.now context key kept lane.old.cells lane.new.cells result }
        ensures contended { ComesLast (kept, Refusal.Contended) self.now.tries lane.old.cells lane.new.cells (act_is.Put (cell_in self.now key context) kept) result }
        ensures handed_back { IfErr result (λ e. e.0 ≡ kept) }
        ensures stays { Stays self.now.id (stored_by kept result) lane.old lane.new }
        ensures keys { lane.new.keys ≡ lane.old.keys }
        ensures steps { steps_of lane.old.cells lane.new.cells ≤ self.now.tries + 1 }
    {
        self.shared.tell_proof();
        let stored = self.shared.put(&mut lane.cells, context, key, kept.number);
        kept.unless_stored(stored)
    }

    /// Stores the kept number as `put` does, and tries again until neither a running factory nor
    /// other lanes are in the way. While a lane computes a value for the context, it sleeps until a
    /// claim has ended. So it is never refused as `Busy` or `Contended`, and otherwise as `put` is,
    /// with the kept number handed back. May take memory for a key that is new to the lane. It may
    /// wait.
    ///
    /// Javadoc `ExtensionContext.Store`, `put`, which replaces at once: JUnit waits for no factory
    /// here.
    #[tactic(auto, unfolding(crate::specs::LaneCalls::Frame))]
    pub fn put_wait<R: Wait>(
        &self,
        rt: &R,
        lane: &mut Lane<V>,
        context: ContextNo,
        key: &Key,
        kept: Kept,
    ) -> Result<Option<u32>, (Kept, Refusal)>
        requires lane { IsLaneOf self.now.id lane.old }
        requires context { context < length self.now.tree }
        requires kept { IsKeptBy lane.old kept }
        ensures answer { OfKey lane.old lane.new key.now (λ why. result ≡ Err (kept, why)) (λ number. Puts self.now context number kept lane.old.cells lane.new.cells result) }
        ensures decided { IfErr result (λ e. IsDecided e.1) }
        ensures handed_back { IfErr result (λ e. e.0 ≡ kept) }
        ensures stays { Stays self.now.id (stored_by kept result) lane.old lane.new }
        ensures placed { PlacesOnly key.now lane.old.keys lane.new.keys }
    {
        match self.number(lane, key) {
            Ok(key) => self.put_wait_numbered(rt, lane, context, key, kept),
            Err(why) => Err((kept, why)),
        }
    }

    /// Stores the kept number as `put_wait` does, but by the key's number, as `number` gives it.
    /// The number must be below `key_count`, and need not have a key yet. Refused as `put_wait` is,
    /// except for the key. It may wait.
    #[tactic(auto, unfolding(crate::specs::LaneCalls::Frame))]
    pub fn put_wait_numbered<R: Wait>(
        &self,
        rt: &R,
        lane: &mut Lane<V>,
        context: ContextNo,
        key: KeyNo,
        kept: Kept,
    ) -> Result<Option<u32>, (Kept, Refusal)>
        requires lane { IsLaneOf self.now.id lane.old }
        requires context { context < length self.now.tree }
        requires key { key < length self.now.id.keys }
        requires kept { IsKeptBy lane.old kept }
        ensures answer { Puts self.now context key kept lane.old.cells lane.new.cells result }
        ensures decided { IfErr result (λ e. IsDecided e.1) }
        ensures handed_back { IfErr result (λ e. e.0 ≡ kept) }
        ensures stays { Stays self.now.id (stored_by kept result) lane.old lane.new }
        ensures keys { lane.new.keys ≡ lane.old.keys }
    {
        self.shared.tell_proof();
        let stored = self
            .shared
            .put_wait(rt, &mut lane.cells, context, key, kept.number);
        kept.unless_stored(stored)
    }
}
