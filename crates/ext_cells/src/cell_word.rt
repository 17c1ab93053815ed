//! A cell in one word of 64 bits: its state, the number that stands there, and how many events it
//! has had. No other module takes a word apart.
ghost use Rattle.std.specs.Prelude.{◌≡◌, ◌↔◌, ℕ, ◌+◌, ◌*◌, ◌-◌, ◌/◌, ◌%◌, ◌^◌, ◌<◌, IsTrue, IfNone};
ghost use Rattle.ext_cells.specs.WordChanges.{word_with, sealed_number as sealed_number_of, next_word as next_word_of, ends_claim as ends_claim_of, is_worn_by, refusal_in, after_word, version_in, HasState, IsEmptyWord, Suits};
ghost use Rattle.ext_cells.specs.InnerPasses.{Says};

use crate::{CellRefusal, CellState, Standing};
use ext_model::{Act, CellNo};

/// The word of a cell with this state, number and version. The state is in bits 0 to 3, the number,
/// below 2^20, in bits 4 to 23, and the version, below 2^40, in bits 24 to 63. A fresh cell is 0.
/// Only `Cells::collect` hands words out, and no call on cells takes one.
pub fn word(state: CellState, number: u32, version: u64) -> u64
    requires number { number < 2 ^ 20 }
    requires version { version < 2 ^ 40 }
    ensures { result ≡ word_with state number version }
{
    let bits = match state {
        CellState::Empty => 0,
        CellState::Computing => 1,
        CellState::Present => 2,
        CellState::Sealed => 3,
        CellState::Failed => 4,
    };
    version * 16_777_216 + u64::from(number) * 16 + bits
}

/// The state, the number and the version of a word, the only ones that it can have. Its bits 0 to 3
/// must be those of a state. To learn what stands at a cell, call `Cells::nearest`, which needs no
/// word.
pub fn parts(word: u64) -> (CellState, u32, u64)
    requires { HasState word }
    ensures parts { word_with result.0 result.1 result.2 ≡ word }
    ensures number { result.1 < 2 ^ 20 }
    ensures version { result.2 < 2 ^ 40 }
    ensures only { (state : _) (number version : ℕ) → number < 2 ^ 20 → word ≡ word_with state number version → result ≡ (state, number, version) }
{
    let number = number_in(word);
    let version = word / 16_777_216;
    let state = match word % 16 {
        0 => CellState::Empty,
        1 => CellState::Computing,
        2 => CellState::Present,
        3 => CellState::Sealed,
        _ => CellState::Failed,
    };
    (state, number, version)
}

/// What stands at the cell of this word, or `None` if it is empty.
pub(crate) fn what_stands(word: u64) -> Option<Standing>
    requires { HasState word }
    ensures none { IfNone result (IsEmptyWord word) }
    ensures says { Says word result }
{
    // Most often a value or nothing: a test is faster than the jump by a table below.
    if word % 16 == 2 {
        return Some(Standing::Value(number_in(word)));
    }
    if is_empty(word) {
        return None;
    }
    let (state, number, _) = parts(word);
    match state {
        CellState::Empty => None,
        CellState::Computing => Some(Standing::Claim),
        CellState::Present => Some(Standing::Value(number)),
        CellState::Sealed => Some(Standing::Seal),
        CellState::Failed => Some(Standing::Fault(number)),
    }
}

// The number in a word.
pub(crate) fn number_in(word: u64) -> u32
    ensures { result ≡ word / 16 % 2 ^ 20 }
{
    (word / 16 % 1_048_576) as u32
}

/// The version in a word.
pub(crate) fn version(word: u64) -> u64
    ensures version { result ≡ version_in word }
    ensures within { result < 2 ^ 40 }
{
    word / 16_777_216
}

// What sealing an empty cell adds to its word: a version, and the state of a seal that keeps no
// number.
pub(crate) const SEAL_OF_NOTHING: u64 = 16_777_216 + 3;

// What sealing a value adds to its cell's word: a version, and the state of a seal in place of that
// of a value.
pub(crate) const SEAL_OF_VALUE: u64 = 16_777_216 + 1;

// Whether nothing stands at the cell of this word.
#[inline(always)]
pub(crate) fn is_empty(word: u64) -> bool
    ensures { IsTrue result ↔ IsEmptyWord word }
{
    word % 16 == 0
}

// The greatest versions at which a cell accepts a put or a remove, and a claim.
const LAST_CHANGE: u64 = 1_099_511_627_773;

const LAST_CLAIM: u64 = 1_099_511_627_772;

fn is_worn(act: Act<CellNo>, version: u64) -> bool
    ensures { result ≡ is_worn_by act version }
{
    match act {
        Act::Put(_, _) | Act::Remove(_) => version > LAST_CHANGE,
        Act::Claim(_) => version > LAST_CLAIM,
        Act::Keep(_) | Act::Fill(_, _) | Act::Fail(_, _) | Act::Abandon(_) | Act::Seal(_) => false,
    }
}

fn ends_claim(act: Act<CellNo>) -> bool
    ensures { result ≡ ends_claim_of act }
{
    matches!(act, Act::Fill(_, _) | Act::Fail(_, _) | Act::Abandon(_))
}

fn refusal(state: CellState, version: u64, act: Act<CellNo>) -> Option<CellRefusal>
    ensures { result ≡ refusal_in state version act }
{
    match state {
        CellState::Empty | CellState::Present | CellState::Failed => {
            if is_worn(act, version) {
                Some(CellRefusal::Exhausted)
            } else {
                None
            }
        }
        CellState::Computing => {
            if ends_claim(act) {
                None
            } else {
                Some(CellRefusal::Busy)
            }
        }
        CellState::Sealed => Some(CellRefusal::Closed),
    }
}

// The number that a seal keeps of what it found: a fault's number is dropped.
fn sealed_number(state: CellState, number: u32) -> u32
    ensures { result ≡ sealed_number_of state number }
{
    match state {
        CellState::Failed => 0,
        CellState::Empty | CellState::Computing | CellState::Present | CellState::Sealed => number,
    }
}

// The word after an act that is not refused.
pub(crate) fn next_word(act: Act<CellNo>, state: CellState, number: u32, version: u64) -> u64
    requires number { number < 2 ^ 20 }
    requires version { version + 1 < 2 ^ 40 }
    requires act { Suits act state version }
    ensures { result ≡ next_word_of act state number version }
{
    match act {
        Act::Put(_, stored) | Act::Fill(_, stored) => word(CellState::Present, stored, version + 1),
        Act::Fail(_, stored) => word(CellState::Failed, stored, version + 1),
        Act::Remove(_) | Act::Abandon(_) => word(CellState::Empty, 0, version + 1),
        Act::Claim(_) => word(CellState::Computing, 0, version + 1),
        Act::Seal(_) => word(CellState::Sealed, sealed_number(state, number), version + 1),
        Act::Keep(_) => unreachable!(),
    }
}

/// The word after an act, with a version that is one more. It changes no cell.
///
/// Refused as `Busy` if a claim stands, except for a fill, a fail or an abandon; as `Closed` if the
/// cell is sealed; as `Exhausted` if the version is above 2^40 - 3 for a put or a remove, or above
/// 2^40 - 4 for a claim: so the end of a claim and one seal always have a version left. The act
/// must not be a keep; a fill, a fail or an abandon must be of a claimed cell; there must be a
/// number to remove, no seal to seal again, and no number if a claim is asked for; a number to
/// store must be below 2^20, and for a fill, a fail, an abandon or a seal the version below
/// 2^40 - 1.
pub fn after(word: u64, act: Act<CellNo>) -> Result<u64, CellRefusal>
    requires state { HasState word }
    requires act { (state : _) (number version : ℕ) → number < 2 ^ 20 → word ≡ word_with state number version → Suits act state version }
    ensures { (state : _) (number version : ℕ) → number < 2 ^ 20 → word ≡ word_with state number version → result ≡ after_word act state number version }
{
    let (state, number, version) = parts(word);
    if let Some(refusal) = refusal(state, version, act) {
        return Err(refusal);
    }
    Ok(next_word(act, state, number, version))
}
