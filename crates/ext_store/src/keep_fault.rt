//! Keeping of factories' faults: each gets the next number, and its slot.
ghost use Rattle.std.specs.Prelude.{ℕ, ◌≡◌, ◌≢◌, ◌+◌, ◌*◌, ◌<◌, ◌≤◌, [], IfErr, IfOk, IsTrue, MatchResult, Ok, Err};
ghost use Rattle.ext_model.specs.declared.event.Act.TheVariants as act_is;
ghost use Rattle.ext_values.specs.Known.{AreNotesOf};
ghost use Rattle.ext_cells.specs.CellCalls.{ComesLast};
ghost use Rattle.ext_store.specs.Stores.{IsKeptBy, IsLaneOf};
ghost use Rattle.ext_store.specs.LaneCalls.{Frame, steps_of, KeepsFault, KeepsNoFault};
ghost use Rattle.ext_store.specs.Waiting.{IsDecidedFault};
ghost use Rattle.ext_values.specs.Slots.{IsNumber};
ghost use Rattle.ext_store.specs.InnerKeeping.{IsOfCount, SlotsDrawn};

use crate::{KeepFault, Lane, Store, StoreValue};
use ext_cells::CellRefusal;
use ext_model::Fault;
use ext_values::SilentNotes;

impl<V: StoreValue + Drop> Store<V> {
    // Draws a number for the fault, which has it from then on.
    #[tactic(auto, unfolding(crate::specs::LaneCalls::KeepFails, crate::specs::LaneCalls::Frame))]
    pub(crate) fn keep_fault(
        &self,
        lane: &mut Lane<V>,
        fault: Fault,
    ) -> Result<u32, (Fault, KeepFault)>
        requires lane { IsLaneOf self.now.id lane.old }
        requires faults { IsTrue self.now.id.cells.limits.keep_faults }
        ensures answer { MatchResult result (KeepsFault fault lane.old lane.new) (λ e. KeepsNoFault self.now fault lane.old lane.new e.0 e.1) }
        ensures known { lane.new.known ≡ lane.old.known }
        ensures keys { lane.new.keys ≡ lane.old.keys }
        ensures apart { IfOk result (λ number. (m : ℕ) → IsKeptBy lane.old m → m ≢ number) }
        ensures frame { Frame self.now.id [] lane.old lane.new }
        ensures steps { steps_of lane.old.cells lane.new.cells ≤ self.now.tries + 1 }
        ensures contended { ComesLast (fault, KeepFault.Contended) self.now.tries lane.old.cells lane.new.cells (act_is.Keep 0) result }
    {
        self.tell_proof();
        let boxed = match Box::new(self.alloc, fault) {
            Ok(boxed) => boxed,
            Err(failed) => return Err((failed.value, KeepFault::Memory)),
        };
        let drawn = self.shared.keep(&mut lane.cells);
        lane.cells.tell_proof();
        self.slot_drawn_fault(&mut lane.faults, drawn, boxed)
    }

    // Keeps a fault as `keep_fault` does, but draws again at once where other lanes were in the
    // way, so that it is decided: never refused as `Contended`.
    #[tactic(auto, unfolding(crate::specs::LaneCalls::KeepFails, crate::specs::LaneCalls::Frame))]
    pub(crate) fn keep_fault_decided(
        &self,
        lane: &mut Lane<V>,
        fault: Fault,
    ) -> Result<u32, (Fault, KeepFault)>
        requires lane { IsLaneOf self.now.id lane.old }
        requires faults { IsTrue self.now.id.cells.limits.keep_faults }
        ensures answer { MatchResult result (KeepsFault fault lane.old lane.new) (λ e. KeepsNoFault self.now fault lane.old lane.new e.0 e.1) }
        ensures decided { IfErr result (λ e. IsDecidedFault e.1) }
        ensures known { lane.new.known ≡ lane.old.known }
        ensures apart { IfOk result (λ number. (m : ℕ) → IsKeptBy lane.old m → m ≢ number) }
        ensures frame { Frame self.now.id [] lane.old lane.new }
        ensures keys { lane.new.keys ≡ lane.old.keys }
        ensures steps { steps_of lane.old.cells lane.new.cells ≤ 2 * self.now.id.cells.limits.numbers + self.now.tries + 1 }
    {
        self.tell_proof();
        let boxed = match Box::new(self.alloc, fault) {
            Ok(boxed) => boxed,
            Err(failed) => return Err((failed.value, KeepFault::Memory)),
        };
        let drawn = self.shared.keep_wait(&mut lane.cells);
        lane.cells.tell_proof();
        self.slot_drawn_fault(&mut lane.faults, drawn, boxed)
    }

    // Puts the fault in the slot that was drawn for it, and answers the number, or hands the
    // fault back.
    pub(crate) fn slot_drawn_fault(
        &self,
        notes: &mut SilentNotes<Fault>,
        drawn: Result<u32, CellRefusal>,
        boxed: Box<Fault>,
    ) -> Result<u32, (Fault, KeepFault)>
        requires notes { AreNotesOf self.now.id.fault_slots notes.old }
        requires drawn { MatchResult drawn (IsNumber self.now.id.fault_slots) IsOfCount }
        ensures { SlotsDrawn boxed.value drawn notes.old notes.new result }
    {
        let number = match drawn {
            Ok(number) => number,
            Err(why) => return Err((Box::into_inner(boxed), KeepFault::of(why))),
        };
        match notes.place(&self.faults, number, boxed) {
            Ok(()) => Ok(number),
            Err(back) => Err((Box::into_inner(back), KeepFault::Unplaced)),
        }
    }
}
