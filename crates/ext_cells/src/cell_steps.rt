//! Single steps on the shared words. Only these touch them once they are open.
ghost use Rattle.std.specs.Prelude.{◌≡◌, ◌≢◌, ℕ, ◌+◌, ◌<◌, ◌≤◌, true, false, Some};
ghost use mathlib.Core.Option.{some, none};
ghost use Rattle.atomic_table.specs.Table.{step};
ghost use Rattle.ext_model.specs.History.{History, state_after};
ghost use Rattle.ext_model.specs.declared.event.Act.TheVariants.{Keep};
ghost use Rattle.ext_history.specs.Histories.{seen};
ghost use Rattle.ext_cells.specs.Standings.{ended_word};
ghost use Rattle.ext_cells.specs.InnerViews.{limits_of, shown, note, noted};
ghost use Rattle.ext_cells.specs.InnerTableSteps.{IsWordAt, IsKnown, FoundBy, MayExchange, Exchanged, EndedBy};
ghost use Rattle.ext_cells.specs.InnerMarks.{marks, block_index as block_index_of, bits_of as bits_of_cell};
ghost use Rattle.ext_cells.specs.InnerSteps.{IsTable, IsMarked, Found, Made};

use crate::marks::{
    END, ENDED_WORD, bits_of, block_index, has_mark, is_ended, is_marked, is_open, with_mark,
};
use crate::rule::{
    Aim, CellTable, Draw, End, Exchange, LaneSeat, Lead, Load, LoadCount, Mark, Note, Seek,
};
use ext_model::{Act, CellNo};

/// The words of open cells, of their blocks, and the count of numbers. Only this module reaches
/// them, and each function of it that reads or changes one is a step of a lane's seat, or several:
/// so no call can look at them otherwise.
#[derive(Drop)]
pub(crate) struct CellSteps {
    table: CellTable,
}

impl CellSteps {
    /// The words of an open table.
    pub(crate) fn of(table: CellTable) -> CellSteps
        ensures { result.table ≡ table }
    {
        CellSteps { table }
    }

    // Reads the word of a cell, at an index that the lane knows.
    fn load(&self, seat: &mut LaneSeat, index: usize) -> u64
        requires table { seat.old.table_id ≡ self.now.table.shared.table_id }
        requires lane { (number : ℕ) × (seat.old.me.0.lane ≡ Some number) }
        requires known { IsKnown (marks self.now.table.shared.key.cells) seat.old.me.0 index index }
        requires index { index < self.now.table.shared.table_id.words }
        ensures table { seat.new.table_id ≡ seat.old.table_id }
        ensures found { (h : History) × FoundBy seat.old.me.0 index result h × (seat.new.me.0 ≡ shown seat.old.me.0 h) }
    {
        self.table.shared.load::<Load>(seat, index)
    }

    /// Reads the word of a cell. Only a cell with a mark is loaded: the word of its block tells
    /// that of another one.
    #[inline(always)]
    pub(crate) fn read<A: Aim>(&self, seat: &mut LaneSeat, cells: usize, cell: CellNo) -> u64
        requires table { seat.old.table_id ≡ self.now.table.shared.table_id }
        requires lane { (number : ℕ) × (seat.old.me.0.lane ≡ Some number) }
        requires cells { IsTable self.now.table.shared.table_id.words self.now.table.shared.key.cells seat.old.me.0 cells }
        requires aim { A.cell ≡ cell }
        requires cell { cell < cells }
        ensures table { seat.new.table_id ≡ seat.old.table_id }
        ensures found { Found seat.old.me.0 seat.new.me.0 cell result }
    {
        self.read_at::<A>(seat, cell, block_index(cells, cell), bits_of(cell))
    }

    /// The same, where the index of its block's word is at hand, and the bits there that tell of
    /// it.
    #[inline(always)]
    pub(crate) fn read_at<A: Aim>(
        &self,
        seat: &mut LaneSeat,
        cell: CellNo,
        block: usize,
        bits: u64,
    ) -> u64
        requires table { seat.old.table_id ≡ self.now.table.shared.table_id }
        requires lane { (number : ℕ) × (seat.old.me.0.lane ≡ Some number) }
        requires cells { IsTable self.now.table.shared.table_id.words self.now.table.shared.key.cells seat.old.me.0 seat.old.me.0.limits.cells }
        requires aim { A.cell ≡ cell }
        requires cell { cell < seat.old.me.0.limits.cells }
        requires block { block ≡ block_index_of seat.old.me.0.limits.cells cell }
        requires bits { bits ≡ bits_of_cell cell }
        ensures table { seat.new.table_id ≡ seat.old.table_id }
        ensures found { Found seat.old.me.0 seat.new.me.0 cell result }
    {
        let marks = self.table.shared.load::<Lead<A>>(seat, block);
        if is_open(marks, bits) {
            return 0;
        }
        if is_marked(marks, bits) {
            return self.load(seat, cell);
        }
        ENDED_WORD
    }

    /// Gives the cell its mark, unless its block has ended: then it answers false, and the cell has
    /// the word of an ended one. Each mark that another lane was faster to set makes the block's
    /// word greater.
    fn mark<A: Aim>(&self, seat: &mut LaneSeat, cells: usize, cell: CellNo) -> bool
        requires table { seat.old.table_id ≡ self.now.table.shared.table_id }
        requires lane { (number : ℕ) × (seat.old.me.0.lane ≡ Some number) }
        requires cells { IsTable self.now.table.shared.table_id.words self.now.table.shared.key.cells seat.old.me.0 cells }
        requires aim { A.cell ≡ cell }
        requires cell { cell < cells }
        ensures table { seat.new.table_id ≡ seat.old.table_id }
        ensures marked { result ≡ true → IsMarked seat.old.me.0 seat.new.me.0 cell }
        ensures ended { result ≡ false → Found seat.old.me.0 seat.new.me.0 cell ended_word }
    {
        let index = block_index(cells, cell);
        let mut block = self.table.shared.load::<Seek<A>>(seat, index);
        while !has_mark(block, cell) {
            if is_ended(block) {
                return false;
            }
            let marked = with_mark(block, cell);
            let found = self
                .table
                .shared
                .compare_exchange::<Mark<A>>(seat, index, block, marked);
            if found == block {
                return true;
            }
            block = found;
        }
        true
    }

    // Exchanges a word whose index the lane knows.
    #[inline(always)]
    fn change(&self, seat: &mut LaneSeat, index: usize, old: u64, new: u64, act: Act<CellNo>) -> u64
        requires table { seat.old.table_id ≡ self.now.table.shared.table_id }
        requires known { IsKnown (marks self.now.table.shared.key.cells) seat.old.me.0 index index }
        requires index { index < self.now.table.shared.table_id.words }
        requires may { (lane : ℕ) × MayExchange seat.old.me.0 lane act index old new }
        ensures table { seat.new.table_id ≡ seat.old.table_id }
        ensures step { Exchanged index (step self.now.table.shared.table_id.slots index old new (some act)) seat.old.me result seat.new.me }
    {
        self.table
            .shared
            .compare_exchange_with::<Exchange>(seat, index, old, new, &act)
    }

    /// Makes an event of a cell, which changes the cell's word, if that is still the word that was
    /// seen. Returns the word that it found. A cell that had no event gets its mark first.
    #[inline(always)]
    pub(crate) fn exchange<A: Aim>(
        &self,
        seat: &mut LaneSeat,
        cells: usize,
        index: usize,
        old: u64,
        new: u64,
        act: Act<CellNo>,
    ) -> u64
        requires table { seat.old.table_id ≡ self.now.table.shared.table_id }
        requires cells { IsTable self.now.table.shared.table_id.words self.now.table.shared.key.cells seat.old.me.0 cells }
        requires aim { A.cell ≡ index }
        requires may { (lane : ℕ) × MayExchange seat.old.me.0 lane act index old new }
        requires seen { IsWordAt (limits_of seat.old.me.0.limits) (seen seat.old.me.0.fronts) index old }
        requires cell { index < cells }
        requires standing { index < cells → old ≢ ended_word }
        ensures table { seat.new.table_id ≡ seat.old.table_id }
        ensures missed { result ≢ old → Found seat.old.me.0 seat.new.me.0 index result }
        ensures made { result ≡ old → Made seat.old.me.0 seat.new.me.0 index old act }
    {
        if old == 0 && !self.mark::<A>(seat, cells, index) {
            return ENDED_WORD;
        }
        self.change(seat, index, old, new, act)
    }

    /// How many numbers were drawn, by the count, which stands right behind so many cells. Lanes may
    /// have added to it beyond the limit.
    pub(crate) fn load_count(&self, seat: &mut LaneSeat, cells: usize, numbers: u32) -> u64
        requires table { seat.old.table_id ≡ self.now.table.shared.table_id }
        requires lane { (number : ℕ) × (seat.old.me.0.lane ≡ Some number) }
        requires cells { IsTable self.now.table.shared.table_id.words self.now.table.shared.key.cells seat.old.me.0 cells }
        requires numbers { numbers ≡ seat.old.me.0.limits.numbers }
        ensures table { seat.new.table_id ≡ seat.old.table_id }
        ensures found { (h : History) × FoundBy seat.old.me.0 cells result h × (seat.new.me.0 ≡ shown seat.old.me.0 h) }
    {
        let count = self.table.shared.load::<LoadCount>(seat, cells);
        let most = u64::from(numbers);
        if count < most {
            return count;
        }
        most
    }

    /// Adds one to the count, and so draws the next number if one is left. The lane has seen that
    /// one is. Returns the count that it found.
    pub(crate) fn draw(&self, seat: &mut LaneSeat, cells: usize) -> u64
        requires table { seat.old.table_id ≡ self.now.table.shared.table_id }
        requires lane { (number : ℕ) × (seat.old.me.0.lane ≡ Some number) }
        requires cells { IsTable self.now.table.shared.table_id.words self.now.table.shared.key.cells seat.old.me.0 cells }
        requires left { (state_after (seen seat.old.me.0.fronts)).drawn < seat.old.me.0.limits.numbers }
        ensures table { seat.new.table_id ≡ seat.old.table_id }
        ensures drew { result < seat.old.me.0.limits.numbers → Made seat.old.me.0 seat.new.me.0 seat.old.me.0.limits.cells result (Keep (result + 1)) }
        ensures full { seat.old.me.0.limits.numbers ≤ result → Found seat.old.me.0 seat.new.me.0 seat.old.me.0.limits.cells seat.old.me.0.limits.numbers }
    {
        self.table.shared.fetch_add::<Draw>(seat, cells, 1)
    }

    /// Ends the block whose word stands at this index. Returns the word that it found.
    pub(crate) fn end(&self, seat: &mut LaneSeat, block: usize) -> u64
        requires table { seat.old.table_id ≡ self.now.table.shared.table_id }
        requires lane { (number : ℕ) × (seat.old.me.0.lane ≡ Some number) }
        requires cells { IsTable self.now.table.shared.table_id.words self.now.table.shared.key.cells seat.old.me.0 seat.old.me.0.limits.cells }
        requires block { (seat.old.me.0.limits.cells < block) × (block < self.now.table.shared.table_id.words) }
        ensures table { seat.new.table_id ≡ seat.old.table_id }
        ensures ended { EndedBy (marks seat.old.me.0.limits.cells) (step self.now.table.shared.table_id.slots block 1 0 none) seat.old.me result seat.new.me }
    {
        self.table.shared.fetch_or::<End>(seat, block, END)
    }

    /// Shows a lane all that another has seen, and loads the count for it, which stands behind so
    /// many cells.
    pub(crate) fn tell(&self, from: &mut LaneSeat, to: &mut LaneSeat, cells: usize)
        requires from { from.old.table_id ≡ self.now.table.shared.table_id }
        requires to { to.old.table_id ≡ self.now.table.shared.table_id }
        requires lane { (number : ℕ) × (to.old.me.0.lane ≡ Some number) }
        requires cells { IsTable self.now.table.shared.table_id.words self.now.table.shared.key.cells to.old.me.0 cells }
        ensures from { (from.new.table_id ≡ from.old.table_id) × (from.new.me ≡ from.old.me) }
        ensures table { to.new.table_id ≡ to.old.table_id }
        ensures told { (word : ℕ) × (h : History) × FoundBy (noted to.old.me.0 (note from.old.me.0)) cells word h × (to.new.me.0 ≡ shown (noted to.old.me.0 (note from.old.me.0)) h) }
    {
        let note = self.table.shared.split_seat::<Note>(from);
        self.table.shared.join_seat::<Note>(to, note);
        self.table.shared.load::<LoadCount>(to, cells);
    }
}
