//! What a call does next, by the word that it found.
ghost use Rattle.std.specs.Prelude.{◌≡◌, ℕ, ◌<◌, ◌%◌, IsTrue, Option};
ghost use Rattle.ext_model.specs.declared.slot.Slot.{Slot};
ghost use Rattle.ext_cells.specs.WordChanges.{IsEmptyWord};
ghost use Rattle.ext_cells.specs.InnerDeciding.{IsCellWord, IsChange, IsSeal, is_settled as is_settled_of, Decides};

use crate::cell_word::{SEAL_OF_NOTHING, SEAL_OF_VALUE, after, is_empty, number_in, parts};
use crate::stood::Stood;
use crate::{CellRefusal, CellState};
use ext_model::{Act, CellNo};

// What a call does next.
#[derive(Drop)]
pub(crate) enum Decision {
    // It exchanges the word for the next one, and then answers by what stood.
    Change { next: u64, stood: Stood },
    // It answers by what stands, or is refused, without an event.
    Done(Result<Stood, CellRefusal>),
}

fn is_settled(act: Act<CellNo>, state: CellState) -> bool
    ensures { result ≡ is_settled_of act state }
{
    match act {
        Act::Remove(_) => matches!(state, CellState::Empty),
        Act::Claim(_) => matches!(state, CellState::Present | CellState::Failed),
        Act::Seal(_) => matches!(state, CellState::Sealed),
        Act::Keep(_) | Act::Put(_, _) | Act::Fill(_, _) | Act::Fail(_, _) | Act::Abandon(_) => {
            false
        }
    }
}

// Whether the act seals an empty cell, as do most acts that close a context.
#[inline(always)]
fn seals_nothing(word: u64, act: Act<CellNo>) -> bool
    ensures { IsTrue result → IsSeal act × IsEmptyWord word }
{
    matches!(act, Act::Seal(_)) && is_empty(word)
}

// Whether the act seals a value.
#[inline(always)]
fn seals_value(word: u64, act: Act<CellNo>) -> bool
    ensures { IsTrue result → IsSeal act × (word % 16 ≡ 2) }
{
    matches!(act, Act::Seal(_)) && word % 16 == 2
}

// Decides a put, a remove, a claim or a seal of the cell whose word this is. The act is a constant
// in each caller, so the compiler removes the tests of it.
#[inline(always)]
pub(crate) fn decide(word: u64, act: Act<CellNo>) -> Decision
    requires word { (stands : Option Slot) × (version : ℕ) × IsCellWord stands version word }
    requires act { IsChange act }
    ensures { (stands : Option Slot) (version : ℕ) → IsCellWord stands version word → Decides act stands version result }
{
    if seals_value(word, act) {
        return Decision::Change {
            next: word + SEAL_OF_VALUE,
            stood: Stood::Value(number_in(word)),
        };
    }
    if seals_nothing(word, act) {
        return Decision::Change {
            next: word + SEAL_OF_NOTHING,
            stood: Stood::Nothing,
        };
    }
    let (state, number, _) = parts(word);
    let stood = Stood::of(state, number);
    if is_settled(act, state) {
        return Decision::Done(Ok(stood));
    }
    match after(word, act) {
        Ok(next) => Decision::Change { next, stood },
        Err(refusal) => Decision::Done(Err(refusal)),
    }
}
