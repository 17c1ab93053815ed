//! A remove: what stands under a key is taken away.
ghost use Rattle.std.specs.Prelude.{◌≡◌, ◌<◌, ◌≤◌, [], IfErr, Err, length};
ghost use Rattle.ext_tree.specs.Keys.{PlacesOnly};
ghost use Rattle.ext_store.specs.LaneCalls.{OfKey, Removes, Stays};
ghost use Rattle.ext_store.specs.Waiting.{IsDecided};
ghost use Rattle.ext_lane.specs.Lent.{IsSame};

use crate::LentLane;
use ext_model::ContextNo;
use ext_store::{Refusal, StoreValue};
use ext_tree::Key;
use std::sync::Wait;

impl<'l, V: StoreValue + Drop> LentLane<'l, V> {
    /// Takes what stands under the key in the context itself, not in its ancestors, and answers its
    /// number. Where nothing stands the answer is `None`, and nothing happens. It tries again until
    /// neither a running factory nor other lanes are in the way, as `Store::remove_wait` does. The
    /// value is not closed. May take memory for a key that is new to the lane. It may wait.
    ///
    /// Refused for the key, as `DirectoryFull` or `Memory`; as `Closed`, also for a context that
    /// isn't there; and as `Exhausted` where a number stands after more than 2^40 - 3 events there.
    ///
    /// Javadoc `ExtensionContext.Store`, `remove`, which answers the value and takes it at once:
    /// JUnit waits for no factory here.
    #[tactic(auto, using(crate::proofs::Unmoved::stays_unmoved))]
    pub fn remove_wait<R: Wait>(
        &mut self,
        rt: &R,
        context: ContextNo,
        key: &Key,
    ) -> Result<Option<u32>, Refusal>
        ensures answer { context < length self.old.store.now.tree → OfKey self.old.lane.now self.new.lane.now key.now (λ why. result ≡ Err why) (λ number. Removes self.old.store.now context number self.old.lane.now.cells self.new.lane.now.cells result) }
        ensures decided { IfErr result IsDecided }
        ensures stays { Stays self.old.store.now.id [] self.old.lane.now self.new.lane.now }
        ensures placed { PlacesOnly key.now self.old.lane.now.keys self.new.lane.now.keys }
        ensures same { IsSame self.old self.new }
        ensures no_context { length self.old.store.now.tree ≤ context → (result ≡ Err (Refusal.Closed context)) × (self.new.lane.now ≡ self.old.lane.now) }
    {
        if context >= self.store.tree().len() {
            return Err(Refusal::Closed(context));
        }
        self.store.remove_wait(rt, self.lane, context, key)
    }
}
