//! The look-up of the nearest of some rows that has anything in one column.
ghost use Rattle.std.specs.Prelude.{ℕ, nat_eq, List, ◌≡◌, ◌≤◌, ◌<◌, ◌+◌, ◌*◌, ◌^◌, [], ◌∷◌, ◌++◌, length, All, IfNone, IfSome, None, OnErr, Some, sum_by};
ghost use Rattle.std.specs.List.{IsDistinct};
ghost use Rattle.ext_history.specs.Histories.{call_fronts};
ghost use Rattle.ext_model.specs.History.{History};
ghost use Rattle.ext_cells.specs.CellCalls.{cell_at, cells_in, FindsNearest, IsOvertakenOn};
ghost use Rattle.ext_cells.specs.InnerPasses.{FirstPass, IsColumn, IsReading, ReadPass, Says};
ghost use Rattle.ext_cells.specs.InnerSteps.{stepped, Finds};
ghost use Rattle.ext_cells.specs.WordChanges.{HasState, IsEmptyWord, version_in};

use crate::cell_word::{is_empty, version, what_stands};
use crate::marks::{TO_BLOCKS, bits_of};
use crate::{CellLane, CellRefusal, Cells, Standing};

/// A row, of some that were named in order, in whose cell anything stands.
#[derive(Clone, Copy, Debug, Drop)]
pub struct Nearest {
    /// Its index in the order in which the rows were named, from 0.
    pub index: usize,
    /// What stands in its cell.
    pub standing: Standing,
}

// One column of the rows, with what all its cells have in common.
#[derive(Clone, Copy, Drop)]
pub(crate) struct Column {
    // How many blocks of 32 cells a row has.
    pub(crate) blocks: usize,
    // Its index in a row.
    pub(crate) index: usize,
    // Where the marks of the first row's block stand.
    pub(crate) marks: usize,
    // The bits there that tell of its cell.
    pub(crate) bits: u64,
}

// What a pass that reads some cells in order keeps of their words.
#[derive(Clone, Copy, Drop)]
pub(crate) struct Reading {
    // How many cells these are.
    pub(crate) count: usize,
    // The sum of their versions.
    pub(crate) versions: u64,
    // The first cell where anything stood.
    pub(crate) nearest: Option<Nearest>,
}

impl Reading {
    fn new() -> Reading
        ensures reading { IsReading [] result }
        ensures empty { (result.count ≡ 0) × (result.versions ≡ 0) }
    {
        Reading {
            count: 0,
            versions: 0,
            nearest: None,
        }
    }

    // The reading after one more word.
    fn with(self, word: u64) -> Reading
        requires count { self.count < 16 }
        requires versions { self.versions ≤ self.count * 2 ^ 40 }
        requires state { HasState word }
        ensures count { result.count ≡ self.count + 1 }
        ensures versions { result.versions ≤ result.count * 2 ^ 40 }
        ensures reading { (words : List ℕ) → IsReading words self → IsReading (words ++ word ∷ []) result }
    {
        let nearest = match self.nearest {
            Some(nearest) => Some(nearest),
            None => nearest_at(self.count, word),
        };
        Reading {
            count: self.count + 1,
            versions: self.versions + version(word),
            nearest,
        }
    }
}

// What the first pass of a look-up reads: empty cells, in order, up to the first where anything
// stands.
#[derive(Clone, Copy, Drop)]
pub(crate) struct EmptyCells {
    // How many cells these are.
    pub(crate) count: usize,
    // The sum of their versions.
    pub(crate) versions: u64,
    // The word of the cell after them, where something stands, or of a fresh cell if there is none.
    pub(crate) behind: u64,
}

// The cell at this index, if its word says that anything stands there.
fn nearest_at(index: usize, word: u64) -> Option<Nearest>
    requires { HasState word }
    ensures none { IfNone result (IsEmptyWord word) }
    ensures some { IfSome result (λ n. (n.index ≡ index) × Says word (Some n.standing)) }
{
    match what_stands(word) {
        Some(standing) => Some(Nearest { index, standing }),
        None => None,
    }
}

impl Cells {
    /// The first of the rows in whose cell of this column anything stands, at one point of the
    /// call. There are at most 16 rows, all different, each of so many blocks of 32 cells: the cell
    /// of a row is `row * blocks * 32 + column`. `None` if nothing stands in any of these cells.
    ///
    /// It reads the cells up to the first where anything stands, and then those before it once
    /// more. If none of them had an event meanwhile, that is the answer: so if the first cell is
    /// not empty, it is read once and no other. Otherwise it reads all cells, pass after pass, as
    /// `collect` does. Refused only as `Contended`, if other lanes made at least `tries` events on
    /// these cells meanwhile.
    #[inline(always)]
    pub fn nearest(
        &self,
        lane: &mut CellLane,
        rows: &[usize],
        blocks: usize,
        column: usize,
    ) -> Result<Option<Nearest>, CellRefusal>
        requires lane { lane.old.cells ≡ self.now.id }
        requires few { length rows.now ≤ 16 }
        requires blocks { 1 ≤ blocks }
        requires known { All (λ cell. cell < self.now.id.limits.cells) (cells_in rows.now (blocks * 32) column) }
        requires different { IsDistinct nat_eq rows.now }
        ensures lane { lane.new.cells ≡ lane.old.cells }
        ensures nearest { FindsNearest self.now.tries lane.old lane.new (cells_in rows.now (blocks * 32) column) result }
        ensures steps { length (call_fronts lane.old.view lane.new.view) ≤ length rows.now * (self.now.tries + 1) }
        ensures contended { OnErr result (IsOvertakenOn self.now.tries (cells_in rows.now (blocks * 32) column) lane.old.view lane.new.view) }
    {
        self.tell_proof();
        let cells = Column {
            blocks,
            index: column,
            marks: self.limits.cells + TO_BLOCKS + column / 32,
            bits: bits_of(column),
        };
        let empty = self.read_empty(lane, rows, cells);
        let again = self.read_versions(lane, &rows[..empty.count], cells);
        if again == empty.versions {
            return Ok(nearest_at(empty.count, empty.behind));
        }
        let rest = self.read_versions(lane, &rows[empty.count..], cells);
        let mut seen = again + rest;
        for _ in 1..self.tries() {
            let again = self.read_each(lane, rows, cells);
            if again.versions == seen {
                return Ok(again.nearest);
            }
            seen = again.versions;
        }
        Err(CellRefusal::Contended)
    }

    // Reads the cells in order up to the first where anything stands.
    #[inline(always)]
    fn read_empty(&self, lane: &mut CellLane, rows: &[usize], column: Column) -> EmptyCells
        requires lane { lane.old.cells ≡ self.now.id }
        requires few { length rows.now ≤ 16 }
        requires column { IsColumn self.now.id.limits.cells column }
        requires known { All (λ cell. cell < self.now.id.limits.cells) (cells_in rows.now (column.blocks * 32) column.index) }
        ensures lane { lane.new.cells ≡ lane.old.cells }
        ensures within { result.count ≤ length rows.now }
        ensures state { HasState result.behind }
        ensures read { FirstPass lane.old.cells.limits lane.old.view lane.new.view (cells_in rows.now (column.blocks * 32) column.index) result }
    {
        lane.tell_proof();
        let mut versions = 0;
        for (count, row) in rows.iter().enumerate() {
            let word = self.read_at(lane, *row, column);
            // A fresh cell, as most are.
            if word == 0 {
                continue;
            }
            if !is_empty(word) {
                return EmptyCells {
                    count,
                    versions,
                    behind: word,
                };
            }
            versions += version(word);
        }
        EmptyCells {
            count: rows.len(),
            versions,
            behind: 0,
        }
    }

    // Reads each of the cells once, in order, and answers the sum of their versions.
    #[inline(always)]
    fn read_versions(&self, lane: &mut CellLane, rows: &[usize], column: Column) -> u64
        requires lane { lane.old.cells ≡ self.now.id }
        requires few { length rows.now ≤ 16 }
        requires column { IsColumn self.now.id.limits.cells column }
        requires known { All (λ cell. cell < self.now.id.limits.cells) (cells_in rows.now (column.blocks * 32) column.index) }
        ensures lane { lane.new.cells ≡ lane.old.cells }
        ensures within { result ≤ length rows.now * 2 ^ 40 }
        ensures read { (words : List ℕ) × ReadPass lane.old.cells.limits lane.old.view lane.new.view (cells_in rows.now (column.blocks * 32) column.index) words × (result ≡ sum_by version_in words) }
    {
        lane.tell_proof();
        let mut versions = 0;
        for row in rows {
            let word = self.read_at(lane, *row, column);
            // A fresh cell, as most are.
            if word == 0 {
                continue;
            }
            versions += version(word);
        }
        versions
    }

    // Reads each of the cells once, in order, and keeps which is the first where anything stands.
    fn read_each(&self, lane: &mut CellLane, rows: &[usize], column: Column) -> Reading
        requires lane { lane.old.cells ≡ self.now.id }
        requires few { length rows.now ≤ 16 }
        requires column { IsColumn self.now.id.limits.cells column }
        requires known { All (λ cell. cell < self.now.id.limits.cells) (cells_in rows.now (column.blocks * 32) column.index) }
        ensures lane { lane.new.cells ≡ lane.old.cells }
        ensures versions { result.versions ≤ length rows.now * 2 ^ 40 }
        ensures read { (words : List ℕ) × ReadPass lane.old.cells.limits lane.old.view lane.new.view (cells_in rows.now (column.blocks * 32) column.index) words × IsReading words result }
    {
        lane.tell_proof();
        let mut reading = Reading::new();
        for row in rows {
            let word = self.read_at(lane, *row, column);
            reading = reading.with(word);
        }
        reading
    }

    // The word of the cell that the row has in the column.
    #[inline(always)]
    fn read_at(&self, lane: &mut CellLane, row: usize, column: Column) -> u64
        requires lane { lane.old.cells ≡ self.now.id }
        requires column { IsColumn self.now.id.limits.cells column }
        requires cell { cell_at (column.blocks * 32) column.index row < self.now.id.limits.cells }
        ensures found { (h : History) × Finds lane.old.cells.limits lane.old.view (cell_at (column.blocks * 32) column.index row) result h × (lane.new ≡ stepped lane.old h) }
        ensures state { HasState result }
    {
        self.tell_proof();
        let block = row * column.blocks;
        let cell = block * 32 + column.index;
        self.read_marked(lane, cell, column.marks + block, column.bits)
    }
}
