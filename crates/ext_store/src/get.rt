//! Look-ups: what stands under a key (`get` and its forms), and what a number has (`show`,
//! `show_fault`).
ghost use Rattle.std.specs.Prelude.{◌≡◌, ◌+◌, ◌*◌, ◌<◌, ◌≤◌, [], IfNone, IfOk, IfSome, IsFalse, IsNone, MatchResult, Ok, Err, length};
ghost use Rattle.ext_tree.specs.Keys.{PlacesOnly};
ghost use Rattle.ext_values.specs.Known.{KeepsKnown, Learns, known_at};
ghost use Rattle.ext_store.specs.Stores.{IsLaneOf, StillKeeps};
ghost use Rattle.ext_store.specs.LaneCalls.{Frame, OfKey, Gets, IsFaultlessLook, steps_of, Stays};
ghost use Rattle.ext_store.specs.declared.computed.Compute.TheVariants.{Refused};
ghost use Rattle.ext_store.specs.Waiting.{IsDecided, IsDecidedLook};

use crate::{Lane, Refusal, Store, StoreValue};
use ext_model::{ContextNo, Fault, KeyNo, Look};
use ext_tree::Key;
use std::sync::Wait;

impl<V: StoreValue + Drop> Store<V> {
    /// Looks for the key in the context and then in its ancestors, the nearest first, at one point
    /// of the call. The first of these where anything stands under the key decides. May take memory
    /// for a key that is new to the lane.
    ///
    /// Refused, in this order, for the key as `number` is, as `DirectoryFull` or `Memory`, before
    /// any step on the cells, and as `Contended`. That a context has a kept fault, computes a value
    /// or is closed is an answer: `Look::Fault`, `Look::Busy` or `Look::Closed`. A store that keeps
    /// no faults answers no `Look::Fault`.
    ///
    /// Javadoc `ExtensionContext.Store`, `get`. Here the answer is the context and the number,
    /// which `show` makes a value.
    #[tactic(auto, unfolding(crate::specs::LaneCalls::Frame))]
    pub fn get(&self, lane: &mut Lane<V>, context: ContextNo, key: &Key) -> Result<Look, Refusal>
        requires lane { IsLaneOf self.now.id lane.old }
        requires context { context < length self.now.tree }
        ensures answer { OfKey lane.old lane.new key.now (λ why. result ≡ Err why) (λ number. Gets self.now context number lane.old.cells lane.new.cells result) }
        ensures no_faults { IsFalse self.now.id.cells.limits.keep_faults → IfOk result IsFaultlessLook }
        ensures stays { Stays self.now.id [] lane.old lane.new }
        ensures steps { steps_of lane.old.cells lane.new.cells ≤ 16 * (self.now.tries + 1) }
        ensures placed { PlacesOnly key.now lane.old.keys lane.new.keys }
    {
        match self.number(lane, key) {
            Ok(key) => self.get_numbered(lane, context, key),
            Err(why) => Err(why),
        }
    }

    /// Looks up a key as `get` does, but by its number, as `number` gives it. The number must be
    /// below `key_count`, and need not have a key yet. Refused only as `Contended`.
    #[tactic(auto, unfolding(crate::specs::LaneCalls::Frame))]
    #[inline(always)]
    pub fn get_numbered(
        &self,
        lane: &mut Lane<V>,
        context: ContextNo,
        key: KeyNo,
    ) -> Result<Look, Refusal>
        requires lane { IsLaneOf self.now.id lane.old }
        requires context { context < length self.now.tree }
        requires key { key < length self.now.id.keys }
        ensures answer { Gets self.now context key lane.old.cells lane.new.cells result }
        ensures no_faults { IsFalse self.now.id.cells.limits.keep_faults → IfOk result IsFaultlessLook }
        ensures stays { Stays self.now.id [] lane.old lane.new }
        ensures keys { lane.new.keys ≡ lane.old.keys }
        ensures steps { steps_of lane.old.cells lane.new.cells ≤ 16 * (self.now.tries + 1) }
    {
        self.shared.tell_proof();
        self.shared.get(&mut lane.cells, context, key)
    }

    /// Looks up the key as `get` does, and looks again until neither a running factory nor other
    /// lanes are in the way. While the nearest entry is a factory that still runs, it sleeps until
    /// a claim has ended. So it never answers `Look::Busy`, and is refused only for the key, as
    /// `number` is. May take memory for a key that is new to the lane. It may wait.
    ///
    /// Javadoc `ExtensionContext.Store`, `get`, which waits for a running factory too.
    #[tactic(auto, unfolding(crate::specs::LaneCalls::Frame))]
    pub fn get_wait<R: Wait>(
        &self,
        rt: &R,
        lane: &mut Lane<V>,
        context: ContextNo,
        key: &Key,
    ) -> Result<Look, Refusal>
        requires lane { IsLaneOf self.now.id lane.old }
        requires context { context < length self.now.tree }
        ensures answer { OfKey lane.old lane.new key.now (λ why. result ≡ Err why) (λ number. Gets self.now context number lane.old.cells lane.new.cells result) }
        ensures no_faults { IsFalse self.now.id.cells.limits.keep_faults → IfOk result IsFaultlessLook }
        ensures decided { MatchResult result IsDecidedLook IsDecided }
        ensures stays { Stays self.now.id [] lane.old lane.new }
        ensures placed { PlacesOnly key.now lane.old.keys lane.new.keys }
    {
        match self.number(lane, key) {
            Ok(key) => Ok(self.get_wait_numbered(rt, lane, context, key)),
            Err(why) => Err(why),
        }
    }

    /// Looks up a key as `get_wait` does, but by its number, as `number` gives it. The number must
    /// be below `key_count`, and need not have a key yet. Never refused. It may wait.
    #[tactic(auto, unfolding(crate::specs::LaneCalls::Frame))]
    pub fn get_wait_numbered<R: Wait>(
        &self,
        rt: &R,
        lane: &mut Lane<V>,
        context: ContextNo,
        key: KeyNo,
    ) -> Look
        requires lane { IsLaneOf self.now.id lane.old }
        requires context { context < length self.now.tree }
        requires key { key < length self.now.id.keys }
        ensures answer { Gets self.now context key lane.old.cells lane.new.cells (Ok result) }
        ensures no_faults { IsFalse self.now.id.cells.limits.keep_faults → IsFaultlessLook result }
        ensures decided { IsDecidedLook result }
        ensures stays { Stays self.now.id [] lane.old lane.new }
        ensures keys { lane.new.keys ≡ lane.old.keys }
    {
        self.shared.tell_proof();
        self.shared.get_wait(rt, &mut lane.cells, context, key)
    }

    /// Answers the number's value, if it is found; the lane knows it from then on. It is always
    /// found if the lane kept it or was shown it, and otherwise if this thread finds it. It is
    /// never the value of another number.
    ///
    /// `None`, with nothing changed, for a number that has no slot, and where the thread finds no
    /// value.
    #[tactic(auto, unfolding(crate::specs::LaneCalls::Frame))]
    pub fn show<'a>(&'a self, lane: &mut Lane<V>, number: u32) -> Option<&'a V>
        requires lane { IsLaneOf self.now.id lane.old }
        ensures found { IfSome result (λ value. Learns lane.old.known lane.new.known number value.now) }
        ensures known { KeepsKnown lane.old.known lane.new.known }
        ensures faults { lane.new.faults ≡ lane.old.faults }
        ensures none { IfNone result ((known_at lane.old.known number ≡ None) × (lane.new ≡ lane.old)) }
        ensures keys { lane.new.keys ≡ lane.old.keys }
        ensures steps { lane.new.cells ≡ lane.old.cells }
        ensures lane { IsLaneOf self.now.id lane.new }
        ensures kept { StillKeeps lane.old lane.new }
        ensures frame { Frame self.now.id [] lane.old lane.new }
    {
        lane.notes.get(&self.values, number)
    }

    /// Answers the number's fault, if it is found; the lane knows it from then on. It is always
    /// found if the lane kept it or was shown it, and otherwise if this thread finds it. It is
    /// never the fault of another number.
    ///
    /// `None`, with nothing changed, for a number that has no slot, and where the thread finds no
    /// fault; always in a store that keeps no faults.
    #[tactic(auto, unfolding(crate::specs::LaneCalls::Frame))]
    pub fn show_fault<'a>(&'a self, lane: &mut Lane<V>, number: u32) -> Option<&'a Fault>
        requires lane { IsLaneOf self.now.id lane.old }
        ensures found { IfSome result (λ fault. Learns lane.old.faults lane.new.faults number fault.now) }
        ensures known { lane.new.known ≡ lane.old.known }
        ensures faults { KeepsKnown lane.old.faults lane.new.faults }
        ensures keys { lane.new.keys ≡ lane.old.keys }
        ensures none { IfNone result ((known_at lane.old.faults number ≡ None) × (lane.new ≡ lane.old)) }
        ensures none_kept { IsFalse self.now.id.cells.limits.keep_faults → IsNone result }
        ensures steps { lane.new.cells ≡ lane.old.cells }
        ensures lane { IsLaneOf self.now.id lane.new }
        ensures kept { StillKeeps lane.old lane.new }
        ensures frame { Frame self.now.id [] lane.old lane.new }
    {
        self.tell_proof();
        lane.faults.get(&self.faults, number)
    }
}
