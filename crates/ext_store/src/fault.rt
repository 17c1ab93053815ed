//! Why a value is not kept.
ghost use Rattle.std.specs.Prelude.{◌≡◌};
ghost use Rattle.ext_store.specs.InnerKeeping.{IsOfCount, keep_fault};

use ext_cells::CellRefusal;
use std::fmt;
use thiserror::Error;

/// Why a value is not kept, by `keep`, by `fill` or by a `compute` whose factory gave it; or why a
/// fault is not, by `fail` or by a `compute` whose factory failed.
#[derive(Clone, Copy, Debug, PartialEq, Eq, Error)]
pub enum KeepFault {
    /// There is no memory for the value or the fault.
    Memory,
    /// All numbers of the store were drawn.
    NumbersFull,
    /// Other lanes were in the way: they drew at least as many numbers as a call has tries.
    Contended,
    /// Another one stands in the number's slot: the lane knows it from then on, and the number is
    /// lost. Tests never meet it.
    Unplaced,
}

impl fmt::Display for KeepFault {
    ghost use Rattle.std.specs.Prelude.{Some};
    ghost use Rattle.ext_store.specs.FaultTexts.{keep_fault_text};

    ghost output = { λ why. Some (keep_fault_text why) };

    fn fmt<W: fmt::Write>(&self, f: &mut fmt::Formatter<W>) -> fmt::Result {
        match self {
            KeepFault::Memory => f.write_str("no memory"),
            KeepFault::NumbersFull => f.write_str("numbers full"),
            KeepFault::Contended => f.write_str("contended"),
            KeepFault::Unplaced => f.write_str("unplaced"),
        }
    }
}

impl KeepFault {
    // The fault for a refusal to draw a number.
    pub(crate) fn of(why: CellRefusal) -> KeepFault
        requires { IsOfCount why }
        ensures { result ≡ keep_fault why }
    {
        match why {
            CellRefusal::NumbersFull => KeepFault::NumbersFull,
            CellRefusal::Contended => KeepFault::Contended,
            CellRefusal::Busy
            | CellRefusal::Closed
            | CellRefusal::Exhausted
            | CellRefusal::Memory
            | CellRefusal::BadLimit => unreachable!(),
        }
    }
}
