//! Keeping of values (`keep` and `keep_wait`): each gets the next number, and its slot.
ghost use Rattle.std.specs.Prelude.{ℕ, ◌≡◌, ◌≢◌, ◌+◌, ◌*◌, ◌<◌, ◌≤◌, [], IfErr, IfOk, MatchResult, Ok, Err};
ghost use Rattle.ext_model.specs.declared.event.Act.TheVariants as act_is;
ghost use Rattle.ext_values.specs.Known.{KeepsKnown, AreNotesOf};
ghost use Rattle.ext_cells.specs.CellCalls.{ComesLast};
ghost use Rattle.ext_store.specs.Stores.{IsKeptBy, IsLaneOf, StillKeeps};
ghost use Rattle.ext_store.specs.LaneCalls.{Frame, KeepsAs, KeepsNothing, steps_of};
ghost use Rattle.ext_store.specs.declared.computed.Compute.TheVariants.{Refused};
ghost use Rattle.ext_store.specs.Waiting.{IsDecidedFault};
ghost use Rattle.ext_values.specs.Slots.{IsNumber};
ghost use Rattle.ext_store.specs.InnerKeeping.{IsOfCount, SlotsDrawn};

use crate::{KeepFault, Kept, Lane, Store, StoreValue};
use ext_cells::CellRefusal;
use ext_values::Notes;

impl<V: StoreValue + Drop> Store<V> {
    /// Keeps a value under the next number, which the value has from then on. The first number is
    /// 1, each is the last plus one, and their order is the order of addition. Takes memory for the
    /// value.
    ///
    /// Refused, in this order and with the value handed back, as `Memory`; as `NumbersFull` where
    /// all numbers were drawn; as `Contended` where other lanes have drawn at least as many as
    /// there are tries and a number is left; and as `Unplaced` where another value stands in the
    /// number's slot: the lane knows that one then, and the number is lost. JUnit numbers values
    /// as they are stored.
    #[tactic(auto, unfolding(crate::specs::LaneCalls::KeepFails, crate::specs::LaneCalls::Frame))]
    #[inline(always)]
    pub fn keep(&self, lane: &mut Lane<V>, value: V) -> Result<Kept, (V, KeepFault)>
        requires lane { IsLaneOf self.now.id lane.old }
        ensures answer { MatchResult result (KeepsAs value lane.old lane.new) (λ e. KeepsNothing self.now value lane.old lane.new e.0 e.1) }
        ensures contended { ComesLast (value, KeepFault.Contended) self.now.tries lane.old.cells lane.new.cells (act_is.Keep 0) result }
        ensures lane { IsLaneOf self.now.id lane.new }
        ensures known { KeepsKnown lane.old.known lane.new.known }
        ensures faults { lane.new.faults ≡ lane.old.faults }
        ensures keys { lane.new.keys ≡ lane.old.keys }
        ensures kept { StillKeeps lane.old lane.new }
        ensures apart { IfOk result (λ number. (m : ℕ) → IsKeptBy lane.old m → m ≢ number) }
        ensures frame { Frame self.now.id [] lane.old lane.new }
        ensures steps { steps_of lane.old.cells lane.new.cells ≤ self.now.tries + 1 }
    {
        self.tell_proof();
        let boxed = match Box::new(self.alloc, value) {
            Ok(boxed) => boxed,
            Err(failed) => return Err((failed.value, KeepFault::Memory)),
        };
        let drawn = self.shared.keep(&mut lane.cells);
        lane.cells.tell_proof();
        self.slot_drawn(&mut lane.notes, drawn, boxed)
    }

    /// Keeps a value as `keep` does, but draws again at once where other lanes were in the way.
    /// They have drawn numbers then, of which there are only so many: so it is never refused as
    /// `Contended`, and waits for nobody. It is otherwise refused as `keep` is, with the value
    /// handed back. Takes memory for the value.
    #[tactic(auto, unfolding(crate::specs::LaneCalls::KeepFails, crate::specs::LaneCalls::Frame))]
    pub fn keep_wait(&self, lane: &mut Lane<V>, value: V) -> Result<Kept, (V, KeepFault)>
        requires lane { IsLaneOf self.now.id lane.old }
        ensures answer { MatchResult result (KeepsAs value lane.old lane.new) (λ e. KeepsNothing self.now value lane.old lane.new e.0 e.1) }
        ensures decided { IfErr result (λ e. IsDecidedFault e.1) }
        ensures lane { IsLaneOf self.now.id lane.new }
        ensures known { KeepsKnown lane.old.known lane.new.known }
        ensures faults { lane.new.faults ≡ lane.old.faults }
        ensures keys { lane.new.keys ≡ lane.old.keys }
        ensures kept { StillKeeps lane.old lane.new }
        ensures apart { IfOk result (λ number. (m : ℕ) → IsKeptBy lane.old m → m ≢ number) }
        ensures frame { Frame self.now.id [] lane.old lane.new }
        ensures steps { steps_of lane.old.cells lane.new.cells ≤ 2 * self.now.id.cells.limits.numbers + self.now.tries + 1 }
    {
        self.tell_proof();
        let boxed = match Box::new(self.alloc, value) {
            Ok(boxed) => boxed,
            Err(refused) => return Err((refused.value, KeepFault::Memory)),
        };
        let drawn = self.shared.keep_wait(&mut lane.cells);
        lane.cells.tell_proof();
        self.slot_drawn(&mut lane.notes, drawn, boxed)
    }

    // Puts the value in the slot that was drawn for it, or hands it back.
    pub(crate) fn slot_drawn(
        &self,
        notes: &mut Notes<V>,
        drawn: Result<u32, CellRefusal>,
        boxed: Box<V>,
    ) -> Result<Kept, (V, KeepFault)>
        requires notes { AreNotesOf self.now.id.slots notes.old }
        requires drawn { MatchResult drawn (IsNumber self.now.id.slots) IsOfCount }
        ensures { SlotsDrawn boxed.value drawn notes.old notes.new result }
    {
        let number = match drawn {
            Ok(number) => number,
            Err(why) => return Err((Box::into_inner(boxed), KeepFault::of(why))),
        };
        match notes.place(&self.values, number, boxed) {
            Ok(()) => Ok(Kept { number }),
            Err(back) => Err((Box::into_inner(back), KeepFault::Unplaced)),
        }
    }
}
