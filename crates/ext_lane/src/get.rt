//! Look-ups: what stands under a key (`get`, `get_wait`), and what a number has (`show`,
//! `show_fault`).
ghost use Rattle.std.specs.Prelude.{◌≡◌, ◌+◌, ◌*◌, ◌<◌, ◌≤◌, [], IfNone, IfOk, IfSome, IsFalse, IsNone, MatchResult, Ok, Err, length};
ghost use Rattle.ext_tree.specs.Keys.{PlacesOnly};
ghost use Rattle.ext_values.specs.Known.{KeepsKnown, Learns, known_at};
ghost use Rattle.ext_store.specs.Stores.{IsLaneOf, StillKeeps};
ghost use Rattle.ext_store.specs.LaneCalls.{Frame, OfKey, Gets, IsFaultlessLook, steps_of, Stays};
ghost use Rattle.ext_store.specs.Waiting.{IsDecided, IsDecidedLook};
ghost use Rattle.ext_lane.specs.Lent.{IsSame};

use crate::LentLane;
use ext_model::{ContextNo, Fault, Look};
use ext_store::{Refusal, StoreValue};
use ext_tree::Key;
use std::sync::Wait;

impl<'l, V: StoreValue + Drop> LentLane<'l, V> {
    /// Looks for the key in the context and then in its ancestors, the nearest first, as
    /// `Store::get` does. May take memory for a key that is new to the lane.
    ///
    /// `Look::Closed` for a context that isn't there too. Refused for the key, as `DirectoryFull`
    /// or `Memory`, and as `Contended`.
    ///
    /// Javadoc `ExtensionContext.Store`, `get`. Here the answer is the context and the number,
    /// which `show` makes a value.
    #[tactic(auto, using(crate::proofs::Unmoved::stays_unmoved))]
    pub fn get(&mut self, context: ContextNo, key: &Key) -> Result<Look, Refusal>
        ensures answer { context < length self.old.store.now.tree → OfKey self.old.lane.now self.new.lane.now key.now (λ why. result ≡ Err why) (λ number. Gets self.old.store.now context number self.old.lane.now.cells self.new.lane.now.cells result) }
        ensures no_faults { IsFalse self.old.store.now.id.cells.limits.keep_faults → IfOk result IsFaultlessLook }
        ensures stays { Stays self.old.store.now.id [] self.old.lane.now self.new.lane.now }
        ensures steps { steps_of self.old.lane.now.cells self.new.lane.now.cells ≤ 16 * (self.old.store.now.tries + 1) }
        ensures placed { PlacesOnly key.now self.old.lane.now.keys self.new.lane.now.keys }
        ensures same { IsSame self.old self.new }
        ensures no_context { length self.old.store.now.tree ≤ context → (result ≡ Ok (Look.Closed context)) × (self.new.lane.now ≡ self.old.lane.now) }
    {
        if context >= self.store.tree().len() {
            return Ok(Look::Closed(context));
        }
        self.store.get(self.lane, context, key)
    }

    /// Looks up the key as `get` does, and looks again until neither a running factory nor other
    /// lanes are in the way, as `Store::get_wait` does. So it never answers `Look::Busy`, and is
    /// refused only for the key. May take memory for a key that is new to the lane. It may wait.
    ///
    /// `Look::Closed` for a context that isn't there too.
    ///
    /// Javadoc `ExtensionContext.Store`, `get`, which waits for a running factory too.
    #[tactic(auto, using(crate::proofs::Unmoved::stays_unmoved))]
    pub fn get_wait<R: Wait>(
        &mut self,
        rt: &R,
        context: ContextNo,
        key: &Key,
    ) -> Result<Look, Refusal>
        ensures answer { context < length self.old.store.now.tree → OfKey self.old.lane.now self.new.lane.now key.now (λ why. result ≡ Err why) (λ number. Gets self.old.store.now context number self.old.lane.now.cells self.new.lane.now.cells result) }
        ensures no_faults { IsFalse self.old.store.now.id.cells.limits.keep_faults → IfOk result IsFaultlessLook }
        ensures decided { MatchResult result IsDecidedLook IsDecided }
        ensures stays { Stays self.old.store.now.id [] self.old.lane.now self.new.lane.now }
        ensures placed { PlacesOnly key.now self.old.lane.now.keys self.new.lane.now.keys }
        ensures same { IsSame self.old self.new }
        ensures no_context { length self.old.store.now.tree ≤ context → (result ≡ Ok (Look.Closed context)) × (self.new.lane.now ≡ self.old.lane.now) }
    {
        if context >= self.store.tree().len() {
            return Ok(Look::Closed(context));
        }
        self.store.get_wait(rt, self.lane, context, key)
    }

    /// Answers the number's value, if it is found; the lane knows it from then on. It is always
    /// found if the lane kept it or was shown it, and otherwise if this thread finds it. The value
    /// stays in the store, and may be held longer than the lane.
    ///
    /// `None`, with nothing changed, for a number that has no place, and where the thread finds no
    /// value. An own rule: JUnit answers values.
    pub fn show(&mut self, number: u32) -> Option<&'l V>
        ensures found { IfSome result (λ value. Learns self.old.lane.now.known self.new.lane.now.known number value.now) }
        ensures known { KeepsKnown self.old.lane.now.known self.new.lane.now.known }
        ensures faults { self.new.lane.now.faults ≡ self.old.lane.now.faults }
        ensures none { IfNone result ((known_at self.old.lane.now.known number ≡ None) × (self.new.lane.now ≡ self.old.lane.now)) }
        ensures keys { self.new.lane.now.keys ≡ self.old.lane.now.keys }
        ensures steps { self.new.lane.now.cells ≡ self.old.lane.now.cells }
        ensures lane { IsLaneOf self.old.store.now.id self.new.lane.now }
        ensures kept { StillKeeps self.old.lane.now self.new.lane.now }
        ensures frame { Frame self.old.store.now.id [] self.old.lane.now self.new.lane.now }
        ensures same { IsSame self.old self.new }
    {
        self.store.show(self.lane, number)
    }

    /// Answers the number's fault, if it is found; the lane knows it from then on. It is always
    /// found if the lane kept it or was shown it, and otherwise if this thread finds it. The fault
    /// stays in the store, and may be held longer than the lane.
    ///
    /// `None`, with nothing changed, for a number that has no place, and where the thread finds no
    /// fault; always in a store that keeps no faults. An own rule.
    pub fn show_fault(&mut self, number: u32) -> Option<&'l Fault>
        ensures found { IfSome result (λ fault. Learns self.old.lane.now.faults self.new.lane.now.faults number fault.now) }
        ensures known { self.new.lane.now.known ≡ self.old.lane.now.known }
        ensures faults { KeepsKnown self.old.lane.now.faults self.new.lane.now.faults }
        ensures keys { self.new.lane.now.keys ≡ self.old.lane.now.keys }
        ensures none { IfNone result ((known_at self.old.lane.now.faults number ≡ None) × (self.new.lane.now ≡ self.old.lane.now)) }
        ensures none_kept { IsFalse self.old.store.now.id.cells.limits.keep_faults → IsNone result }
        ensures steps { self.new.lane.now.cells ≡ self.old.lane.now.cells }
        ensures lane { IsLaneOf self.old.store.now.id self.new.lane.now }
        ensures kept { StillKeeps self.old.lane.now self.new.lane.now }
        ensures frame { Frame self.old.store.now.id [] self.old.lane.now self.new.lane.now }
        ensures same { IsSame self.old self.new }
    {
        self.store.show_fault(self.lane, number)
    }
}
