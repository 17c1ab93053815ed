//! Why a call on the cells was refused.
ghost use Rattle.std.specs.Prelude.{◌≡◌};
ghost use Rattle.ext_cells.specs.declared.refusal.CellRefusal.TheVariants.{Memory};

use std::alloc::AllocError;
use std::fmt;
use thiserror::Error;

/// Why a call on the cells was refused. A refused call makes no event, so the cells are as other
/// lanes left them. If several reasons apply, each call says which is answered.
#[derive(Clone, Copy, Debug, PartialEq, Eq, Error)]
pub enum CellRefusal {
    /// Other lanes made at least as many events as a call has tries.
    Contended,
    /// A lane's claim stands at the cell.
    Busy,
    /// The cell is sealed.
    Closed,
    /// The cell has had too many events: its version is above 2^40 - 3, or above 2^40 - 4 for a
    /// claim.
    Exhausted,
    /// All numbers were drawn.
    NumbersFull,
    /// An allocation failed.
    Memory,
    /// Too many cells were asked for, or too few or too many lanes, tries or numbers.
    BadLimit,
}

fn text(refusal: CellRefusal) -> &'static str {
    match refusal {
        CellRefusal::Contended => "contended",
        CellRefusal::Busy => "busy",
        CellRefusal::Closed => "closed",
        CellRefusal::Exhausted => "exhausted",
        CellRefusal::NumbersFull => "numbers full",
        CellRefusal::Memory => "no memory",
        CellRefusal::BadLimit => "a limit is out of its range",
    }
}

impl fmt::Display for CellRefusal {
    fn fmt<W: fmt::Write>(&self, f: &mut fmt::Formatter<W>) -> fmt::Result {
        f.write_str(text(*self))
    }
}

impl From<AllocError> for CellRefusal {
    ghost from_gives = { λ _ e. e ≡ Memory };

    fn from(_e: AllocError) -> CellRefusal {
        CellRefusal::Memory
    }
}
