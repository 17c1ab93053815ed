//! Changes of one cell (put, remove and seal), the drawing of a number, and the seals of keys that
//! nobody used.
ghost use Rattle.std.specs.Prelude.{ℕ, ◌≡◌, ◌≢◌, ◌+◌, ◌*◌, ◌<◌, ◌≤◌, Contains, Err, IfOk, length};
ghost use Rattle.ext_history.specs.Histories.{seen_by};
ghost use Rattle.ext_model.specs.CallActs.{MayStoreNow};
ghost use Rattle.ext_model.specs.History.{by};
ghost use Rattle.ext_model.specs.declared.event.Act.TheVariants as act_is;
ghost use Rattle.ext_cells.specs.declared.refusal.CellRefusal.TheVariants as cell_refusal;
ghost use Rattle.ext_cells.specs.CellCalls as cells;
ghost use Rattle.ext_cells.specs.CellCalls.{ComesLast};
ghost use Rattle.ext_store_core.specs.ContextCalls.{cell_in, Puts, Removes, steps_of, with_kept, SealsKey, SealsUnused};

use crate::{Refusal, StoreCore};
use ext_cells::{CellLane, CellRefusal};
use ext_model::{ContextNo, KeyNo};

impl StoreCore {
    /// Stores the number under the key in the context itself and answers the number that it
    /// replaces, if any. Values and kept faults are replaced alike. The lane must have drawn the
    /// number and not stored it yet.
    ///
    /// Refused, in this order, as `Busy` where a lane computes a value for the context, as
    /// `Closed`, as `Exhausted` after more than 2^40 - 3 events there, and as `Contended`, which
    /// counts events on this cell alone.
    ///
    /// Javadoc `ExtensionContext.Store`, `put`, which answers nothing.
    #[tactic(auto, unfolding(crate::specs::ContextCalls::Puts))]
    pub fn put(
        &self,
        lane: &mut CellLane,
        context: ContextNo,
        key: KeyNo,
        number: u32,
    ) -> Result<Option<u32>, Refusal>
        requires lane { lane.old.cells ≡ self.now.cells }
        requires context { context < length self.now.tree }
        requires key { key < length self.now.keys }
        requires number { MayStoreNow lane.old.view number }
        ensures lane { lane.new.cells ≡ lane.old.cells }
        ensures answer { Puts self.now context key number lane.old lane.new (with_kept number result) }
        ensures contended { ComesLast Refusal.Contended self.now.tries lane.old lane.new (act_is.Put (cell_in self.now key context) number) result }
        ensures steps { steps_of lane.old lane.new ≤ self.now.tries + 1 }
    {
        let cell = self.cell(context, key);
        match self.cells.put(lane, cell, number) {
            Ok(stood) => Ok(stood),
            Err(why) => Err(Refusal::at(context, why)),
        }
    }

    /// Takes what stands under the key in the context itself, not in its ancestors, and answers its
    /// number. Where nothing stands the answer is `None`, and nothing happens.
    ///
    /// Refused, in this order, as `Busy` where a lane computes a value for the context, as
    /// `Closed`, as `Exhausted` where a number stands after more than 2^40 - 3 events there, and as
    /// `Contended`, which counts events on this cell alone.
    ///
    /// Javadoc `ExtensionContext.Store`, `remove`.
    #[tactic(auto, unfolding(crate::specs::ContextCalls::Removes))]
    pub fn remove(
        &self,
        lane: &mut CellLane,
        context: ContextNo,
        key: KeyNo,
    ) -> Result<Option<u32>, Refusal>
        requires lane { lane.old.cells ≡ self.now.cells }
        requires context { context < length self.now.tree }
        requires key { key < length self.now.keys }
        ensures lane { lane.new.cells ≡ lane.old.cells }
        ensures answer { Removes self.now context key lane.old lane.new result }
        ensures contended { ComesLast Refusal.Contended self.now.tries lane.old lane.new (act_is.Remove (cell_in self.now key context)) result }
        ensures steps { steps_of lane.old lane.new ≤ self.now.tries + 1 }
    {
        let cell = self.cell(context, key);
        match self.cells.remove(lane, cell) {
            Ok(stood) => Ok(stood),
            Err(why) => Err(Refusal::at(context, why)),
        }
    }

    /// Draws the next number. The first is 1, and each is the last plus one.
    ///
    /// Refused as `NumbersFull` where all numbers were drawn, and otherwise as `Contended` where
    /// other lanes have drawn at least as many as there are tries.
    pub fn keep(&self, lane: &mut CellLane) -> Result<u32, CellRefusal>
        requires lane { lane.old.cells ≡ self.now.cells }
        ensures lane { lane.new.cells ≡ lane.old.cells }
        ensures reply { cells.Answers self.now.tries lane.old lane.new cells.number_acts (cells.number_reply lane.old) result }
        ensures contended { ComesLast CellRefusal.Contended self.now.tries lane.old lane.new (act_is.Keep 0) result }
        ensures within { IfOk result (λ number. (1 ≤ number) × (number ≤ self.now.cells.limits.numbers)) }
        ensures fresh { IfOk result (λ number. (other : ℕ) → ¬ Contains (seen_by lane.old.view) (by other (act_is.Keep number))) }
        ensures storable { IfOk result (MayStoreNow lane.new.view) }
        ensures steps { steps_of lane.old lane.new ≤ self.now.tries + 1 }
    {
        self.cells.next_number(lane)
    }

    /// Draws the next number as `keep` does, and again at once where other lanes were in the way.
    /// They have drawn numbers then, of which there are only so many: so it is never refused as
    /// `Contended`, and returns without waiting for anyone. Refused as `NumbersFull` where all
    /// numbers were drawn.
    pub fn keep_wait(&self, lane: &mut CellLane) -> Result<u32, CellRefusal>
        requires lane { lane.old.cells ≡ self.now.cells }
        ensures lane { lane.new.cells ≡ lane.old.cells }
        ensures reply { cells.Answers self.now.tries lane.old lane.new cells.number_acts (cells.number_reply lane.old) result }
        ensures decided { result ≢ Err cell_refusal.Contended }
        ensures storable { IfOk result (MayStoreNow lane.new.view) }
        ensures steps { steps_of lane.old lane.new ≤ 2 * self.now.cells.limits.numbers + self.now.tries + 1 }
    {
        self.tell_proof();
        for _ in 0..1_048_575_u32 {
            let why = match self.keep(lane) {
                Ok(number) => return Ok(number),
                Err(why) => why,
            };
            if why != CellRefusal::Contended {
                return Err(why);
            }
        }
        unreachable!()
    }

    /// Seals the key in the context for good and answers the number of the value that stood there,
    /// which the seal keeps. A kept fault is discarded. For a key that is sealed already the answer
    /// is what its seal kept, and nothing happens.
    ///
    /// Refused as `Busy` with the context where a lane computes a value for it under this key, and
    /// otherwise as `Contended`, which counts events on this cell alone.
    pub fn seal(
        &self,
        lane: &mut CellLane,
        context: ContextNo,
        key: KeyNo,
    ) -> Result<Option<u32>, Refusal>
        requires lane { lane.old.cells ≡ self.now.cells }
        requires context { context < length self.now.tree }
        requires key { key < length self.now.keys }
        ensures lane { lane.new.cells ≡ lane.old.cells }
        ensures answer { SealsKey self.now context key lane.old lane.new result }
        ensures contended { ComesLast Refusal.Contended self.now.tries lane.old lane.new (act_is.Seal (cell_in self.now key context)) result }
        ensures steps { steps_of lane.old lane.new ≤ self.now.tries + 1 }
    {
        let cell = self.cell(context, key);
        match self.cells.seal(lane, cell) {
            Ok(kept) => Ok(kept),
            Err(why) => Err(Refusal::at(context, why)),
        }
    }

    /// Seals, at one step, the keys of a block of the context under which there was no event yet:
    /// keys 0 to 31 are block 0, the next 32 block 1, and so on. Answers which of the others may
    /// hold something, the first of the block in bit 0. Their seals are left to `seal`. Never
    /// refused.
    pub fn seal_unused(&self, lane: &mut CellLane, context: ContextNo, block: usize) -> u32
        requires lane { lane.old.cells ≡ self.now.cells }
        requires context { context < length self.now.tree }
        requires block { block * 32 < length self.now.keys }
        ensures lane { lane.new.cells ≡ lane.old.cells }
        ensures answer { SealsUnused self.now context block result lane.old lane.new }
        ensures steps { steps_of lane.old lane.new ≡ 1 }
    {
        self.tell_proof();
        let _contexts = self.tree.len();
        let blocks = self.blocks();
        self.cells.end_block(lane, context * blocks + block)
    }
}
