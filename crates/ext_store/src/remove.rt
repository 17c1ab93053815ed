//! Removes: what stands under a key is taken away (`remove` and its forms).
ghost use Rattle.std.specs.Prelude.{◌≡◌, ◌+◌, ◌<◌, ◌≤◌, [], IfErr, Ok, Err, length};
ghost use Rattle.ext_model.specs.declared.event.Act.TheVariants as act_is;
ghost use Rattle.ext_tree.specs.Keys.{PlacesOnly};
ghost use Rattle.ext_cells.specs.CellCalls.{ComesLast};
ghost use Rattle.ext_store.specs.Stores.{IsLaneOf, cell_in};
ghost use Rattle.ext_store.specs.LaneCalls.{Frame, OfKey, Removes, steps_of, Stays};
ghost use Rattle.ext_store.specs.declared.computed.Compute.TheVariants.{Refused};
ghost use Rattle.ext_store.specs.Waiting.{IsDecided};

use crate::{Lane, Refusal, Store, StoreValue};
use ext_model::{ContextNo, KeyNo};
use ext_tree::Key;
use std::sync::Wait;

impl<V: StoreValue + Drop> Store<V> {
    /// Takes what stands under the key in the context itself, not in its ancestors, and answers its
    /// number. Where nothing stands the answer is `None`, and nothing happens. The value is not
    /// closed. May take memory for a key that is new to the lane.
    ///
    /// Refused, in this order, for the key as `number` is, as `DirectoryFull` or `Memory`, before
    /// any step on the cells; as `Busy` where a lane computes a value for the context; as `Closed`;
    /// as `Exhausted` where a number stands after more than 2^40 - 3 events there; and as
    /// `Contended`, which counts events in this context under this key alone.
    ///
    /// Javadoc `ExtensionContext.Store`, `remove`, which answers the value.
    #[tactic(auto, unfolding(crate::specs::LaneCalls::Frame))]
    pub fn remove(
        &self,
        lane: &mut Lane<V>,
        context: ContextNo,
        key: &Key,
    ) -> Result<Option<u32>, Refusal>
        requires lane { IsLaneOf self.now.id lane.old }
        requires context { context < length self.now.tree }
        ensures answer { OfKey lane.old lane.new key.now (λ why. result ≡ Err why) (λ number. Removes self.now context number lane.old.cells lane.new.cells result) }
        ensures contended { OfKey lane.old lane.new key.now (λ why. result ≡ Err why) (λ number. ComesLast Refusal.Contended self.now.tries lane.old.cells lane.new.cells (act_is.Remove (cell_in self.now number context)) result) }
        ensures stays { Stays self.now.id [] lane.old lane.new }
        ensures steps { steps_of lane.old.cells lane.new.cells ≤ self.now.tries + 1 }
        ensures placed { PlacesOnly key.now lane.old.keys lane.new.keys }
    {
        match self.number(lane, key) {
            Ok(key) => self.remove_numbered(lane, context, key),
            Err(why) => Err(why),
        }
    }

    /// Takes what stands under the key as `remove` does, but by the key's number, as `number` gives
    /// it. The number must be below `key_count`, and need not have a key yet. Refused as `remove`
    /// is, except for the key.
    #[tactic(auto, unfolding(crate::specs::LaneCalls::Frame))]
    pub fn remove_numbered(
        &self,
        lane: &mut Lane<V>,
        context: ContextNo,
        key: KeyNo,
    ) -> Result<Option<u32>, Refusal>
        requires lane { IsLaneOf self.now.id lane.old }
        requires context { context < length self.now.tree }
        requires key { key < length self.now.id.keys }
        ensures answer { Removes self.now context key lane.old.cells lane.new.cells result }
        ensures contended { ComesLast Refusal.Contended self.now.tries lane.old.cells lane.new.cells (act_is.Remove (cell_in self.now key context)) result }
        ensures stays { Stays self.now.id [] lane.old lane.new }
        ensures keys { lane.new.keys ≡ lane.old.keys }
        ensures steps { steps_of lane.old.cells lane.new.cells ≤ self.now.tries + 1 }
    {
        self.shared.tell_proof();
        self.shared.remove(&mut lane.cells, context, key)
    }

    /// Takes what stands under the key as `remove` does, and tries again until neither a running
    /// factory nor other lanes are in the way. While a lane computes a value for the context, it
    /// sleeps until a claim has ended. So it is never refused as `Busy` or `Contended`, and
    /// otherwise as `remove` is. May take memory for a key that is new to the lane. It may wait.
    ///
    /// Javadoc `ExtensionContext.Store`, `remove`, which takes the entry at once: JUnit waits for
    /// no factory here.
    #[tactic(auto, unfolding(crate::specs::LaneCalls::Frame))]
    pub fn remove_wait<R: Wait>(
        &self,
        rt: &R,
        lane: &mut Lane<V>,
        context: ContextNo,
        key: &Key,
    ) -> Result<Option<u32>, Refusal>
        requires lane { IsLaneOf self.now.id lane.old }
        requires context { context < length self.now.tree }
        ensures answer { OfKey lane.old lane.new key.now (λ why. result ≡ Err why) (λ number. Removes self.now context number lane.old.cells lane.new.cells result) }
        ensures decided { IfErr result IsDecided }
        ensures stays { Stays self.now.id [] lane.old lane.new }
        ensures placed { PlacesOnly key.now lane.old.keys lane.new.keys }
    {
        match self.number(lane, key) {
            Ok(key) => self.remove_wait_numbered(rt, lane, context, key),
            Err(why) => Err(why),
        }
    }

    /// Takes what stands under the key as `remove_wait` does, but by the key's number, as `number`
    /// gives it. The number must be below `key_count`, and need not have a key yet. Refused as
    /// `remove_wait` is, except for the key. It may wait.
    #[tactic(auto, unfolding(crate::specs::LaneCalls::Frame))]
    pub fn remove_wait_numbered<R: Wait>(
        &self,
        rt: &R,
        lane: &mut Lane<V>,
        context: ContextNo,
        key: KeyNo,
    ) -> Result<Option<u32>, Refusal>
        requires lane { IsLaneOf self.now.id lane.old }
        requires context { context < length self.now.tree }
        requires key { key < length self.now.id.keys }
        ensures answer { Removes self.now context key lane.old.cells lane.new.cells result }
        ensures decided { IfErr result IsDecided }
        ensures stays { Stays self.now.id [] lane.old lane.new }
        ensures keys { lane.new.keys ≡ lane.old.keys }
    {
        self.shared.tell_proof();
        self.shared.remove_wait(rt, &mut lane.cells, context, key)
    }
}
