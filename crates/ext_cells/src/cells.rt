//! The cells that lanes share, and all calls on them.
ghost use Rattle.std.specs.Prelude.{◌≡◌, ◌≢◌, ◌≤◌, ◌<◌, ◌+◌, ◌*◌, ◌^◌, ◌↔◌, ℕ, nat_eq, [], ◌∷◌, ◌++◌, length, map, Some, All, Contains, IfOk, IfErr, IfSome, IfNone, IsTrue, OnErr, true, Err};
ghost use Rattle.std.specs.List.{IsDistinct};
ghost use mathlib.Core.List.{IsPrefix};
ghost use Rattle.ext_model.specs.History.{History, by, stored_number, fault_number, state_after, IsLegal};
ghost use Rattle.ext_model.specs.CellWords.{word_of};
ghost use Rattle.ext_history.specs.Histories.{seen_by, call_fronts};
ghost use Rattle.ext_model.specs.CallActs.{Calls, IsHeld, MayStoreNow};
ghost use Rattle.ext_model.specs.declared.event.Act.TheVariants as act_is;
ghost use Rattle.ext_model.specs.declared.size.Size.TheVariants.{Usual, Large};
ghost use Rattle.ext_cells.specs.Lanes.{AreLimits, fresh_lanes};
ghost use Rattle.ext_cells.specs.InnerMarks.{block_index, bits_of};
ghost use Rattle.ext_cells.specs.InnerTableSteps.{IsWordAt, index_in};
ghost use Rattle.ext_cells.specs.CellCalls.{Answers, SealAnswers, ComesLast, EndsClaim, EndsBlock, Collects, IsOvertakenOn, before_last_pass, IfWon, change_reply, claim_reply, number_reply, number_acts, put_acts, remove_acts, claim_acts};
ghost use Rattle.ext_cells.specs.InnerSteps.{stepped, Finds, MayGoOn, IsChangeOf, IsEndOf, Draws, Changes};
ghost use Rattle.ext_cells.specs.InnerPasses.{ReadPass};
ghost use Rattle.ext_cells.specs.WordChanges.{HasState};

use crate::cell_steps::CellSteps;
use crate::cell_word::{next_word, parts};
use crate::decision::{Decision, decide};
use crate::limits::CellLimits;
use crate::marks::TO_BLOCKS;
use crate::opening::{are_limits, give_out, open_words};
use crate::stood::{Stood, any_number, value_number};
use crate::{CellLane, CellRefusal, Claim, Claimed, Words};
use ext_model::{Act, CellNo, Size};
use std::alloc::Global;
use std::marker::{Brand, Model};

/// The cells of a store and the count of its numbers, each a word of its own, shared by reference
/// between the threads that own its lanes.
///
/// A lane is used only with the cells that it was opened with. A refused call makes no event. A
/// change first loads its cell's word, and then makes at most `tries` exchanges of it. If one
/// fails, it decides anew by the word that it found, also after the last: so `Contended` comes
/// after every other refusal, and means at least `tries` events on that cell.
///
/// A cell that has no mark yet gets it before its first event, by at most 32 exchanges of its
/// block's word: each that fails, but for the last, found a further cell of the block marked. The
/// clauses `steps` count neither these nor the load of a block's word before that of a cell's.
#[derive(Drop)]
pub struct Cells {
    table: CellSteps,
    pub(crate) limits: CellLimits,
    tries: u32,
}

impl Model for Cells {
    ghost use Rattle.std.specs.Prelude.{◌≡◌, ◌≤◌, ◌+◌};
    ghost use Rattle.ext_cells.specs.Lanes.{CellsView};
    ghost use Rattle.ext_cells.specs.InnerViews.{limits_of};
    ghost use Rattle.ext_cells.specs.InnerMarks.{marks};

    ghost Value = { CellsView };

    ghost view = { λ s. record { id = record { table = s.table.table.shared.table_id; limits = limits_of s.limits }; tries = s.tries } };

    ghost invariant = { λ s.
        (s.table.table.shared.table_id.words ≡ (marks s.limits.cells).width)
        × (s.table.table.shared.key ≡ s.limits)
        × (s.limits.cells ≤ 67108864)
        × (s.limits.numbers ≤ 1048575)
        × (1 ≤ s.tries)
        × (s.tries ≤ 64) };
}

impl Cells {
    /// Opens `cells` empty cells that may keep faults, and their lanes, numbered from 0 in the
    /// order of the list. Only these lanes make events: while none of them has made one, the
    /// history is empty (`no_lane` of `history_laws` in ext_model). Takes memory.
    ///
    /// Refused as `BadLimit` unless there are at most 262,144 cells, 1 to 16 lanes, 1 to 64 tries
    /// and 1 to 65,535 numbers, and then as `Memory`.
    pub fn open(
        alloc: Global,
        cells: usize,
        lanes: usize,
        tries: u32,
        numbers: u32,
    ) -> Result<(Cells, Vec<CellLane>), CellRefusal>
        ensures within { IfOk result (λ _. AreLimits Usual cells lanes tries numbers) }
        ensures limits { IfOk result (λ r. r.0.id.limits ≡ record { cells = cells; lanes = lanes; numbers = numbers; keep_faults = true }) }
        ensures tries { IfOk result (λ r. r.0.tries ≡ tries) }
        ensures lanes { IfOk result (λ r. r.1.items ≡ fresh_lanes r.0.id 0 lanes) }
        ensures bad_limit { (result ≡ Err CellRefusal.BadLimit) ↔ (¬ (AreLimits Usual cells lanes tries numbers)) }
        ensures refusal { IfErr result (λ why. AreLimits Usual cells lanes tries numbers → why ≡ CellRefusal.Memory) }
    {
        if !are_limits(Size::Usual, cells, lanes, tries, numbers) {
            return Err(CellRefusal::BadLimit);
        }
        Cells::open_for(alloc, cells, lanes, tries, numbers, true)
    }

    /// Opens cells as `open` does, but they keep faults only if `keep_faults` is true. Otherwise no
    /// lane makes a fail, and no cell ever has a fault (`no_faults` of `history_laws` in
    /// ext_model). Takes memory.
    ///
    /// Refused as `BadLimit` unless there are at most 67,108,864 cells, 1 to 32 lanes, 1 to 64
    /// tries and 1 to 1,048,575 numbers, and then as `Memory`.
    pub fn open_for(
        alloc: Global,
        cells: usize,
        lanes: usize,
        tries: u32,
        numbers: u32,
        keep_faults: bool,
    ) -> Result<(Cells, Vec<CellLane>), CellRefusal>
        ensures within { IfOk result (λ _. AreLimits Large cells lanes tries numbers) }
        ensures limits { IfOk result (λ r. r.0.id.limits ≡ record { cells = cells; lanes = lanes; numbers = numbers; keep_faults = keep_faults }) }
        ensures tries { IfOk result (λ r. r.0.tries ≡ tries) }
        ensures lanes { IfOk result (λ r. r.1.items ≡ fresh_lanes r.0.id 0 lanes) }
        ensures bad_limit { (result ≡ Err CellRefusal.BadLimit) ↔ (¬ (AreLimits Large cells lanes tries numbers)) }
        ensures refusal { IfErr result (λ why. AreLimits Large cells lanes tries numbers → why ≡ CellRefusal.Memory) }
    {
        if !are_limits(Size::Large, cells, lanes, tries, numbers) {
            return Err(CellRefusal::BadLimit);
        }
        let limits = CellLimits {
            cells,
            lanes,
            numbers,
            keep_faults,
        };
        let (table, first) = open_words(alloc, &limits)?;
        let lanes = give_out(&table.shared, alloc, first, lanes)?;
        let cells = Cells {
            table: CellSteps::of(table),
            limits,
            tries,
        };
        Ok((cells, lanes))
    }

    // Recalls the limits on which the calls rely.
    pub(crate) fn tell_proof(&self)
        ensures cells { self.now.id.limits.cells ≤ 67108864 }
        ensures numbers { self.now.id.limits.numbers < 2 ^ 20 }
        ensures tries { 1 ≤ self.now.tries }
    {
        let _tries = self.tries;
    }

    /// The greatest number of exchanges that a call makes of a cell's word, or of the count of
    /// numbers: from 1 to 64.
    pub fn tries(&self) -> u32
        ensures tries { result ≡ self.now.tries }
        ensures within { (1 ≤ self.now.tries) × (self.now.tries ≤ 64) }
    {
        self.tries
    }

    /// Whether faults may be kept in the cells, as `fail` requires.
    pub fn keeps_faults(&self) -> bool
        ensures { result ≡ self.now.id.limits.keep_faults }
    {
        self.limits.keep_faults
    }

    /// The words of the cells as they stood together at one point of the call, in the order in
    /// which they are named. At most 16 cells, all different. No other call hands words out.
    ///
    /// A pass reads each cell once, and the answer is the first pass that equals the pass before
    /// it. Each event raises the version of its cell, so no event on these cells came between the
    /// two, and the words stood together after the last read of the earlier one. Refused only as
    /// `Contended`, if `tries` passes differed from the ones before them: other lanes made at least
    /// that many events on these cells meanwhile. A collect of no cells makes no step.
    pub fn collect(&self, lane: &mut CellLane, cells: &[CellNo]) -> Result<Words, CellRefusal>
        requires lane { lane.old.cells ≡ self.now.id }
        requires few { length cells.now ≤ 16 }
        requires known { All (λ cell. cell < self.now.id.limits.cells) cells.now }
        requires different { IsDistinct nat_eq cells.now }
        ensures lane { lane.new.cells ≡ lane.old.cells }
        ensures words { Collects self.now.tries lane.old lane.new cells.now result }
        ensures moment { IfOk result (λ words. words ≡ map (word_of (before_last_pass (length cells.now) lane.old.view lane.new.view)) cells.now) }
        ensures steps { length (call_fronts lane.old.view lane.new.view) ≤ length cells.now * (self.now.tries + 1) }
        ensures contended { OnErr result (IsOvertakenOn self.now.tries cells.now lane.old.view lane.new.view) }
    {
        lane.tell_proof();
        let mut words = self.pass(lane, cells);
        for _ in 0..self.tries {
            let again = self.pass(lane, cells);
            if again.same(&words) {
                return Ok(again);
            }
            words = again;
        }
        Err(CellRefusal::Contended)
    }

    /// Draws the next number: the first is 1, each further one is the last plus one. No lane has
    /// drawn it before, and none draws it afterwards (`drawn_once` of `cell_laws`). JUnit numbers
    /// values as they are stored.
    ///
    /// Refused as `NumbersFull` if all numbers were drawn, and else as `Contended`, if other lanes
    /// have drawn at least `tries` numbers.
    pub fn next_number(&self, lane: &mut CellLane) -> Result<u32, CellRefusal>
        requires lane { lane.old.cells ≡ self.now.id }
        ensures lane { lane.new.cells ≡ lane.old.cells }
        ensures reply { Answers self.now.tries lane.old lane.new number_acts (number_reply lane.old) result }
        ensures contended { ComesLast CellRefusal.Contended self.now.tries lane.old lane.new (act_is.Keep 0) result }
        ensures within { IfOk result (λ number. (1 ≤ number) × (number ≤ self.now.id.limits.numbers)) }
        ensures fresh { IfOk result (λ number. (other : ℕ) → ¬ Contains (seen_by lane.old.view) (by other (act_is.Keep number))) }
        ensures storable { IfOk result (MayStoreNow lane.new.view) }
        ensures steps { length (call_fronts lane.old.view lane.new.view) ≤ self.now.tries + 1 }
    {
        let most = u64::from(self.limits.numbers);
        let count = self.read(lane, self.limits.cells);
        if count >= most {
            return Err(CellRefusal::NumbersFull);
        }
        match self.draw(lane) {
            Some(number) => Ok(number),
            None => Err(CellRefusal::NumbersFull),
        }
    }

    /// Stores the number in the cell, and answers the number that it replaces there, of a value or
    /// of a kept fault. The lane must have drawn the number and not have stored it.
    ///
    /// Refused as `Busy` if a claim stands, as `Closed` if the cell is sealed, as `Exhausted` if
    /// the cell's version is above 2^40 - 3, and else as `Contended`; the number may still be
    /// stored then.
    ///
    /// JUnit 5 User Guide, section "Keeping State in Extensions"; claims, seals and versions are
    /// own rules.
    pub fn put(
        &self,
        lane: &mut CellLane,
        cell: CellNo,
        number: u32,
    ) -> Result<Option<u32>, CellRefusal>
        requires lane { lane.old.cells ≡ self.now.id }
        requires cell { cell < self.now.id.limits.cells }
        requires number { MayStoreNow lane.old.view number }
        ensures lane { lane.new.cells ≡ lane.old.cells }
        ensures reply { Answers self.now.tries lane.old lane.new (put_acts cell number) (change_reply lane.old (act_is.Put cell number)) result }
        ensures contended { ComesLast CellRefusal.Contended self.now.tries lane.old lane.new (act_is.Put cell number) result }
        ensures storable { IfErr result (λ _. MayStoreNow lane.new.view number) }
        ensures steps { length (call_fronts lane.old.view lane.new.view) ≤ self.now.tries + 1 }
    {
        any_number(self.change(lane, cell, Act::Put(cell, number)))
    }

    /// Removes the number from the cell, of a value or of a kept fault, and answers it. If nothing
    /// stands there, the answer is `None`, and nothing happens.
    ///
    /// Refused as `Busy` if a claim stands, as `Closed` if the cell is sealed, as `Exhausted` if a
    /// number stands at a version above 2^40 - 3, and else as `Contended`.
    ///
    /// JUnit 5 User Guide, section "Keeping State in Extensions"; claims, seals and versions are
    /// own rules.
    pub fn remove(&self, lane: &mut CellLane, cell: CellNo) -> Result<Option<u32>, CellRefusal>
        requires lane { lane.old.cells ≡ self.now.id }
        requires cell { cell < self.now.id.limits.cells }
        ensures lane { lane.new.cells ≡ lane.old.cells }
        ensures reply { Answers self.now.tries lane.old lane.new (remove_acts cell) (change_reply lane.old (act_is.Remove cell)) result }
        ensures contended { ComesLast CellRefusal.Contended self.now.tries lane.old lane.new (act_is.Remove cell) result }
        ensures steps { length (call_fronts lane.old.view lane.new.view) ≤ self.now.tries + 1 }
    {
        any_number(self.change(lane, cell, Act::Remove(cell)))
    }

    /// Seals the cell for good, and answers the number of the value that stood there, which the
    /// seal keeps. A kept fault is dropped. A cell that is sealed already answers what it kept, and
    /// nothing happens.
    ///
    /// Refused as `Busy` if a claim stands, and else as `Contended`; never as `Exhausted`.
    pub fn seal(&self, lane: &mut CellLane, cell: CellNo) -> Result<Option<u32>, CellRefusal>
        requires lane { lane.old.cells ≡ self.now.id }
        requires cell { cell < self.now.id.limits.cells }
        ensures lane { lane.new.cells ≡ lane.old.cells }
        ensures reply { SealAnswers self.now.tries lane.old lane.new cell result }
        ensures contended { ComesLast CellRefusal.Contended self.now.tries lane.old lane.new (act_is.Seal cell) result }
        ensures steps { length (call_fronts lane.old.view lane.new.view) ≤ self.now.tries + 1 }
    {
        value_number(self.change(lane, cell, Act::Seal(cell)))
    }

    /// Claims the cell for the lane if nothing stands there. Until the lane ends the claim, each
    /// put, remove, seal and claim of the cell, by any lane, is refused as `Busy`. If the number of
    /// a value or of a kept fault stands there, the answer is that number, and nothing happens.
    ///
    /// Refused as `Busy` if a claim stands, the lane's own too, as `Closed` if the cell is sealed,
    /// as `Exhausted` if nothing stands at a version above 2^40 - 4, and else as `Contended`.
    ///
    /// In JUnit a running factory holds its key.
    pub fn claim(&self, lane: &mut CellLane, cell: CellNo) -> Result<Claimed, CellRefusal>
        requires lane { lane.old.cells ≡ self.now.id }
        requires cell { cell < self.now.id.limits.cells }
        ensures lane { lane.new.cells ≡ lane.old.cells }
        ensures reply { Answers self.now.tries lane.old lane.new (claim_acts cell) (claim_reply lane.old cell) result }
        ensures contended { ComesLast CellRefusal.Contended self.now.tries lane.old lane.new (act_is.Claim cell) result }
        ensures held { IfWon result (λ claim. (claim ≡ cell) × IsHeld lane.new.view claim) }
        ensures steps { length (call_fronts lane.old.view lane.new.view) ≤ self.now.tries + 1 }
    {
        match self.change(lane, cell, Act::Claim(cell))? {
            Stood::Nothing => Ok(Claimed::Won(Claim { cell })),
            Stood::Value(number) => Ok(Claimed::Standing(number)),
            Stood::Fault(number) => Ok(Claimed::Fault(number)),
        }
    }

    /// Ends the lane's claim and stores the number in the cell. The lane must have drawn the number
    /// and not have stored it. It is never refused, and makes two steps: a load, and one exchange,
    /// which cannot fail, since no step of another lane changes a claimed cell (`held_words` of
    /// `call_laws` in ext_model).
    ///
    /// In JUnit the value of a factory is stored under its key.
    pub fn fill(&self, lane: &mut CellLane, claim: Claim, number: u32)
        requires lane { lane.old.cells ≡ self.now.id }
        requires held { IsHeld lane.old.view claim }
        requires number { MayStoreNow lane.old.view number }
        ensures lane { lane.new.cells ≡ lane.old.cells }
        ensures filled { EndsClaim lane.old lane.new (act_is.Fill claim number) }
        ensures steps { length (call_fronts lane.old.view lane.new.view) ≡ 2 }
    {
        let Claim { cell } = claim;
        self.end_claim(lane, cell, Act::Fill(cell, number));
    }

    /// Ends the lane's claim and keeps the number in the cell as that of a fault, until it is
    /// removed or replaced. The cells must keep faults, and the lane must have drawn the number and
    /// not have stored it. It is never refused, and makes two steps, as `fill` and by the same law.
    pub fn fail(&self, lane: &mut CellLane, claim: Claim, number: u32)
        requires lane { lane.old.cells ≡ self.now.id }
        requires faults { IsTrue self.now.id.limits.keep_faults }
        requires held { IsHeld lane.old.view claim }
        requires number { MayStoreNow lane.old.view number }
        ensures lane { lane.new.cells ≡ lane.old.cells }
        ensures failed { EndsClaim lane.old lane.new (act_is.Fail claim number) }
        ensures steps { length (call_fronts lane.old.view lane.new.view) ≡ 2 }
    {
        let Claim { cell } = claim;
        self.end_claim(lane, cell, Act::Fail(cell, number));
    }

    /// Ends the lane's claim and leaves the cell empty. It is never refused, and makes two steps,
    /// as `fill` and by the same law.
    pub fn abandon(&self, lane: &mut CellLane, claim: Claim)
        requires lane { lane.old.cells ≡ self.now.id }
        requires held { IsHeld lane.old.view claim }
        ensures lane { lane.new.cells ≡ lane.old.cells }
        ensures abandoned { EndsClaim lane.old lane.new (act_is.Abandon claim) }
        ensures steps { length (call_fronts lane.old.view lane.new.view) ≡ 2 }
    {
        let Claim { cell } = claim;
        self.end_claim(lane, cell, Act::Abandon(cell));
    }

    /// Ends a block of 32 cells; block 0 has the cells 0 to 31. Seals at once all cells of the
    /// block that never had an event, and answers the marks of the others, the first of the block
    /// in bit 0. A cell that has a mark may still be empty. Of a block that was ended before, the
    /// call only reads the marks. It is never refused, and makes one step.
    pub fn end_block(&self, lane: &mut CellLane, block: usize) -> u32
        requires lane { lane.old.cells ≡ self.now.id }
        requires block { block * 32 < self.now.id.limits.cells }
        ensures lane { lane.new.cells ≡ lane.old.cells }
        ensures ended { EndsBlock lane.old lane.new block result }
        ensures steps { length (call_fronts lane.old.view lane.new.view) ≡ 1 }
    {
        let index = self.limits.cells + TO_BLOCKS + block;
        let found = self.table.end(&mut lane.seat, index);
        (found >> 1 & 0xffff_ffff) as u32
    }

    /// Makes what the first lane has seen a prefix of what the second has seen, so that both speak
    /// of one history. Neither makes an event; the first makes no step, and the second one.
    pub fn meet(&self, first: &mut CellLane, second: &mut CellLane)
        requires first { first.old.cells ≡ self.now.id }
        requires second { second.old.cells ≡ self.now.id }
        ensures first_lane { first.new.cells ≡ first.old.cells }
        ensures second_lane { second.new.cells ≡ second.old.cells }
        ensures first_call { Calls first.old.cells.limits first.old.view first.new.view [] }
        ensures second_call { Calls second.old.cells.limits second.old.view second.new.view [] }
        ensures met { IsPrefix (seen_by first.new.view) (seen_by second.new.view) }
        ensures first_steps { length (call_fronts first.old.view first.new.view) ≡ 0 }
        ensures second_steps { length (call_fronts second.old.view second.new.view) ≡ 1 }
    {
        let cells = self.limits.cells;
        self.table.tell(&mut first.seat, &mut second.seat, cells);
    }

    /// Makes a put, a remove, a claim or a seal of the cell. It answers what stood there, or what
    /// the seal there keeps: a claim is won if that is nothing.
    #[inline(always)]
    fn change(
        &self,
        lane: &mut CellLane,
        cell: CellNo,
        act: Act<CellNo>,
    ) -> Result<Stood, CellRefusal>
        requires lane { lane.old.cells ≡ self.now.id }
        requires cell { cell < self.now.id.limits.cells }
        requires act { IsChangeOf cell act }
        requires number { IfSome (stored_number act) (MayStoreNow lane.old.view) }
        ensures lane { lane.new.cells ≡ lane.old.cells }
        ensures reply { Changes self.now.tries lane.old lane.new act result }
        ensures contended { ComesLast CellRefusal.Contended self.now.tries lane.old lane.new act result }
        ensures steps { length (call_fronts lane.old.view lane.new.view) ≤ self.now.tries + 1 }
    {
        let mut word = self.read(lane, cell);
        for _ in 0..self.tries {
            let (next, stood) = match decide(word, act) {
                Decision::Change { next, stood } => (next, stood),
                Decision::Done(reply) => return reply,
            };
            match self.exchange(lane, cell, word, next, act) {
                Ok(()) => return Ok(stood),
                Err(found) => word = found,
            }
        }
        match decide(word, act) {
            Decision::Change { .. } => Err(CellRefusal::Contended),
            Decision::Done(reply) => reply,
        }
    }

    /// Makes a fill, a fail or an abandon of the cell, which the lane has claimed. Each caller's
    /// act is a constant, so the compiler removes the tests of it.
    #[inline(always)]
    fn end_claim(&self, lane: &mut CellLane, cell: CellNo, act: Act<CellNo>)
        requires lane { lane.old.cells ≡ self.now.id }
        requires held { IsHeld lane.old.view cell }
        requires act { IsEndOf cell act }
        requires faults { IfSome (fault_number act) (λ _. IsTrue lane.old.cells.limits.keep_faults) }
        requires number { IfSome (stored_number act) (MayStoreNow lane.old.view) }
        ensures lane { lane.new.cells ≡ lane.old.cells }
        ensures ended { EndsClaim lane.old lane.new act }
        ensures steps { length (call_fronts lane.old.view lane.new.view) ≡ 2 }
    {
        lane.tell_proof();
        let word = self.read(lane, cell);
        let (state, number, version) = parts(word);
        let next = next_word(act, state, number, version);
        match self.exchange(lane, cell, word, next, act) {
            Ok(()) => {}
            Err(_) => unreachable!(),
        }
    }

    /// Reads each of the cells once, in order.
    fn pass(&self, lane: &mut CellLane, cells: &[CellNo]) -> Words
        requires lane { lane.old.cells ≡ self.now.id }
        requires legal { IsLegal lane.old.cells.limits (seen_by lane.old.view) }
        requires few { length cells.now ≤ 16 }
        requires known { All (λ cell. cell < self.now.id.limits.cells) cells.now }
        ensures lane { lane.new.cells ≡ lane.old.cells }
        ensures read { ReadPass lane.old.cells.limits lane.old.view lane.new.view cells.now result }
    {
        let mut words = Words::new();
        for cell in cells {
            let word = self.read(lane, *cell);
            words.push(word);
        }
        words
    }

    /// Reads the word at an index, for a lane. The words of the cells stand at their numbers, and
    /// the count of numbers after them. Which of them it is, each caller knows.
    #[inline(always)]
    pub(crate) fn read(&self, lane: &mut CellLane, index: usize) -> u64
        requires lane { lane.old.cells ≡ self.now.id }
        requires index { index ≤ self.now.id.limits.cells }
        ensures found { (h : History) × Finds lane.old.cells.limits lane.old.view index result h × (lane.new ≡ stepped lane.old h) }
        ensures state { index < self.now.id.limits.cells → HasState result }
        ensures numbers { self.now.id.limits.numbers < 2 ^ 20 }
    {
        if index < self.limits.cells {
            return self
                .table
                .read::<Brand>(&mut lane.seat, self.limits.cells, index);
        }
        self.table
            .load_count(&mut lane.seat, index, self.limits.numbers)
    }

    /// Reads the word of a cell, where the index of its block's word is at hand, and the bits there
    /// that tell of it.
    #[inline(always)]
    pub(crate) fn read_marked(
        &self,
        lane: &mut CellLane,
        cell: CellNo,
        block: usize,
        bits: u64,
    ) -> u64
        requires lane { lane.old.cells ≡ self.now.id }
        requires cell { cell < self.now.id.limits.cells }
        requires block { block ≡ block_index self.now.id.limits.cells cell }
        requires bits { bits ≡ bits_of cell }
        ensures found { (h : History) × Finds lane.old.cells.limits lane.old.view cell result h × (lane.new ≡ stepped lane.old h) }
        ensures state { HasState result }
    {
        self.table
            .read_at::<Brand>(&mut lane.seat, cell, block, bits)
    }

    /// Makes an event of a cell, which changes the cell's word, if that is still the word that was
    /// seen, and else answers the word that it found. The act is for the proof alone: inlined, it
    /// costs nothing.
    #[inline(always)]
    fn exchange(
        &self,
        lane: &mut CellLane,
        index: usize,
        old: u64,
        new: u64,
        act: Act<CellNo>,
    ) -> Result<(), u64>
        requires lane { lane.old.cells ≡ self.now.id }
        requires index { index ≡ index_in self.now.id.limits act }
        requires within { index < self.now.id.limits.cells }
        requires seen { IsWordAt lane.old.cells.limits (seen_by lane.old.view) index old }
        requires may { (h : History) → Finds lane.old.cells.limits lane.old.view index old h → MayGoOn lane.old.cells.limits lane.old.view h index new act }
        ensures made { IfOk result (λ _. (h : History) × Finds lane.old.cells.limits lane.old.view index old h × MayGoOn lane.old.cells.limits lane.old.view h index new act × (lane.new ≡ stepped lane.old (h ++ by lane.old.view.number act ∷ []))) }
        ensures missed { IfErr result (λ found. (found ≢ old) × ((h : History) × Finds lane.old.cells.limits lane.old.view index found h × (lane.new ≡ stepped lane.old h))) }
    {
        let found = self
            .table
            .exchange::<Brand>(&mut lane.seat, self.limits.cells, index, old, new, act);
        if found == old {
            return Ok(());
        }
        Err(found)
    }

    /// Draws the next number, if one is left; the lane has seen one left. The count stands behind the
    /// cells.
    #[inline(always)]
    fn draw(&self, lane: &mut CellLane) -> Option<u32>
        requires lane { lane.old.cells ≡ self.now.id }
        requires left { (state_after (seen_by lane.old.view)).drawn < self.now.id.limits.numbers }
        ensures drew { IfSome result (λ number. Draws lane.old lane.new number) }
        ensures full { IfNone result ((h : History) × Finds lane.old.cells.limits lane.old.view lane.old.cells.limits.cells lane.old.cells.limits.numbers h × (lane.new ≡ stepped lane.old h)) }
    {
        let count = self.table.draw(&mut lane.seat, self.limits.cells);
        if count < u64::from(self.limits.numbers) {
            return Some(count as u32 + 1);
        }
        None
    }
}
