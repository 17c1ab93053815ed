//! What stood at a cell that a change met.
ghost use Rattle.std.specs.Prelude.{◌≡◌};
ghost use Rattle.ext_cells.specs.InnerDeciding.{stood_in};
ghost use Rattle.ext_cells.specs.InnerSteps.{number_of, value_of, number_result, value_result};

use crate::{CellRefusal, CellState};

// What stood at a cell, or what its seal keeps: the number of a value, or that of a kept fault.
#[derive(Clone, Copy, Debug, Drop)]
pub(crate) enum Stood {
    Nothing,
    Value(u32),
    Fault(u32),
}

impl Stood {
    // By the state and the number in the cell's word, where 0 is no number.
    pub(crate) fn of(state: CellState, number: u32) -> Stood
        ensures { result ≡ stood_in state number }
    {
        match state {
            CellState::Empty | CellState::Computing => Stood::Nothing,
            CellState::Present => Stood::Value(number),
            CellState::Failed => Stood::Fault(number),
            CellState::Sealed => {
                if number == 0 {
                    Stood::Nothing
                } else {
                    Stood::Value(number)
                }
            }
        }
    }

    // The number, of a value or of a fault.
    fn number(self) -> Option<u32>
        ensures { result ≡ number_of self }
    {
        match self {
            Stood::Nothing => None,
            Stood::Value(number) => Some(number),
            Stood::Fault(number) => Some(number),
        }
    }

    // The number of a value.
    fn value(self) -> Option<u32>
        ensures { result ≡ value_of self }
    {
        match self {
            Stood::Nothing => None,
            Stood::Value(number) => Some(number),
            Stood::Fault(_) => None,
        }
    }
}

// What a put or a remove answers, by what it met.
pub(crate) fn any_number(met: Result<Stood, CellRefusal>) -> Result<Option<u32>, CellRefusal>
    ensures { result ≡ number_result met }
{
    match met {
        Ok(stood) => Ok(stood.number()),
        Err(why) => Err(why),
    }
}

// What a seal answers, by what it met.
pub(crate) fn value_number(met: Result<Stood, CellRefusal>) -> Result<Option<u32>, CellRefusal>
    ensures { result ≡ value_result met }
{
    match met {
        Ok(stood) => Ok(stood.value()),
        Err(why) => Err(why),
    }
}
