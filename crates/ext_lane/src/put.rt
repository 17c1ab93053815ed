//! A put: a kept number is stored under a key.
ghost use Rattle.std.specs.Prelude.{◌≡◌, ◌<◌, ◌≤◌, IfErr, Err, length};
ghost use Rattle.ext_tree.specs.Keys.{PlacesOnly};
ghost use Rattle.ext_store.specs.Stores.{IsKeptBy};
ghost use Rattle.ext_store.specs.LaneCalls.{stored_by, OfKey, Puts, Stays};
ghost use Rattle.ext_store.specs.Waiting.{IsDecided};
ghost use Rattle.ext_lane.specs.Lent.{IsSame};

use crate::LentLane;
use ext_model::ContextNo;
use ext_store::{Kept, Refusal, StoreValue};
use ext_tree::Key;
use std::sync::Wait;

impl<'l, V: StoreValue + Drop> LentLane<'l, V> {
    /// Stores the number, which `keep_wait` of this lane gave, under the key in the context itself,
    /// and answers the number that it replaces, if any. It tries again until neither a running
    /// factory nor other lanes are in the way, as `Store::put_wait` does. A replaced value is not
    /// closed. May take memory for a key that is new to the lane. It may wait.
    ///
    /// Refused for the key, as `DirectoryFull` or `Memory`; as `Closed`, also for a context that
    /// isn't there; and as `Exhausted` after more than 2^40 - 3 events there. The kept number is
    /// then handed back, and can still be put.
    ///
    /// Javadoc `ExtensionContext.Store`, `put`, which replaces at once: JUnit waits for no factory
    /// here.
    #[tactic(auto, using(crate::proofs::Unmoved::stays_unmoved))]
    pub fn put_wait<R: Wait>(
        &mut self,
        rt: &R,
        context: ContextNo,
        key: &Key,
        kept: Kept,
    ) -> Result<Option<u32>, (Kept, Refusal)>
        requires kept { IsKeptBy self.old.lane.now kept }
        ensures answer { context < length self.old.store.now.tree → OfKey self.old.lane.now self.new.lane.now key.now (λ why. result ≡ Err (kept, why)) (λ number. Puts self.old.store.now context number kept self.old.lane.now.cells self.new.lane.now.cells result) }
        ensures decided { IfErr result (λ e. IsDecided e.1) }
        ensures handed_back { IfErr result (λ e. e.0 ≡ kept) }
        ensures stays { Stays self.old.store.now.id (stored_by kept result) self.old.lane.now self.new.lane.now }
        ensures placed { PlacesOnly key.now self.old.lane.now.keys self.new.lane.now.keys }
        ensures same { IsSame self.old self.new }
        ensures still_kept { IfErr result (λ e. IsKeptBy self.new.lane.now e.0) }
        ensures no_context { length self.old.store.now.tree ≤ context → (result ≡ Err (kept, Refusal.Closed context)) × (self.new.lane.now ≡ self.old.lane.now) }
    {
        if context >= self.store.tree().len() {
            return Err((kept, Refusal::Closed(context)));
        }
        self.store.put_wait(rt, self.lane, context, key, kept)
    }
}
