//! The answer to a lane that asks for a cell, and the claim that it may win.

use ext_model::CellNo;
use std::marker::Model;

/// The claim of a cell by one lane. It cannot be copied or dropped: `Cells::fill`, `Cells::fail` or
/// `Cells::abandon` ends it, by a call on the lane that won it. Contracts see the cell. In JUnit a
/// running factory holds its key.
pub struct Claim {
    pub(crate) cell: CellNo,
}

impl Model for Claim {
    ghost use Rattle.std.specs.Prelude.{ℕ};

    ghost Value = { ℕ };

    ghost view = { λ s. s.cell };
}

/// The answer to a lane that asks for a cell.
pub enum Claimed {
    /// The cell is claimed for the lane.
    Won(Claim),
    /// The value of this number stands there, from 1 to 1,048,575.
    Standing(u32),
    /// The fault of this number is kept there, from 1 to 1,048,575.
    Fault(u32),
}
