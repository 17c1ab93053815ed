//! The word of a block: which of its cells have a mark, and whether it has ended. No other module
//! takes one apart.
ghost use Rattle.std.specs.Prelude.{ℕ, ◌≡◌, ◌<◌, ◌^◌, ◌↔◌, IsTrue};
ghost use Rattle.ext_cells.specs.Standings.{Open};
ghost use Rattle.ext_cells.specs.InnerMarks.{block_count as block_count_of, block_index as block_index_of, is_ended as is_ended_of, mark_of as mark_of_cell, bits_of as bits_of_cell, has_mark as has_mark_of, with_mark as with_mark_of, standing_in};

use ext_model::CellNo;

/// What a block's end sets in its word.
pub(crate) const END: u64 = 1;

/// How far behind the cells the words of blocks begin. The count of numbers stands right behind the
/// cells, and so on another line of the cache than these words, which each look-up reads.
pub(crate) const TO_BLOCKS: usize = 16;

/// The word of a cell that its block's end sealed.
pub(crate) const ENDED_WORD: u64 = 16_777_219;

/// How many blocks so many cells have.
pub(crate) fn block_count(cells: usize) -> usize
    requires cells { cells < 2 ^ 32 }
    ensures count { result ≡ block_count_of cells }
{
    (cells + 31) / 32
}

/// The index of a cell's block, of so many cells.
#[inline(always)]
pub(crate) fn block_index(cells: usize, cell: CellNo) -> usize
    requires cells { cells < 2 ^ 32 }
    requires cell { cell < cells }
    ensures index { result ≡ block_index_of cells cell }
{
    cells + TO_BLOCKS + cell / 32
}

/// Whether the block of this word has ended.
#[inline(always)]
pub(crate) fn is_ended(block: u64) -> bool
    ensures ended { result ≡ is_ended_of block }
{
    block & END == 1
}

// The bit of a cell's mark in the word of its block.
#[inline(always)]
fn mark_of(cell: CellNo) -> u32
    ensures bit { result ≡ mark_of_cell cell }
{
    (cell % 32) as u32 + 1
}

/// What a block's word tells of a cell is in these bits: its mark, and the block's end.
#[inline(always)]
pub(crate) fn bits_of(cell: CellNo) -> u64
    ensures bits { result ≡ bits_of_cell cell }
{
    (1 << mark_of(cell)) + END
}

/// Whether a cell with these bits is open: its block has not ended, and it has no mark there.
#[inline(always)]
pub(crate) fn is_open(block: u64, bits: u64) -> bool
    ensures told { (cell : ℕ) → bits ≡ bits_of_cell cell → IsTrue result ↔ (standing_in block cell ≡ Open) }
{
    block & bits == 0
}

/// Whether a cell with these bits has a mark in the word of its block.
#[inline(always)]
pub(crate) fn is_marked(block: u64, bits: u64) -> bool
    ensures mark { (cell : ℕ) → bits ≡ bits_of_cell cell → result ≡ has_mark_of block cell }
{
    block & bits > END
}

/// Whether the cell has a mark in the word of its block.
#[inline(always)]
pub(crate) fn has_mark(block: u64, cell: CellNo) -> bool
    ensures mark { result ≡ has_mark_of block cell }
{
    is_marked(block, bits_of(cell))
}

/// The word of the cell's block with the cell's mark.
#[inline(always)]
pub(crate) fn with_mark(block: u64, cell: CellNo) -> u64
    ensures word { result ≡ with_mark_of block cell }
{
    block | 1 << mark_of(cell)
}
