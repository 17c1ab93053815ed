//! The scanner: where a part ends, and the first fault.
ghost use Rattle.std.specs.Prelude.{◌≡◌, ◌≢◌, ◌≤◌, ◌<◌, ◌+◌, false, length, drop, slice_index, slice_range, IsOk, IfOk, IfErr, OnOk, Err};
ghost use Rattle.ext_ids.specs.declared.fault.IdFault.TheVariants.{Memory};
ghost use Rattle.ext_ids.specs.Grammar.{IsPartText};
ghost use Rattle.ext_ids.specs.Reading.{Gives, closing, part_end, at_colon, at_bracket, segment_at, read_id};

use crate::escape::escape_of;
use crate::fault::IdFault;

/// The greatest number of segments of an id.
pub(crate) const MAX_SEGMENTS: usize = 16;

/// Checks a whole text, and keeps nothing of it.
pub(crate) fn check(text: &[u8]) -> Result<(), IdFault>
    ensures ok { OnOk result (IsOk (read_id text.now)) }
    ensures fault { IfErr result (λ e. read_id text.now ≡ Err e) }
    ensures text { IfErr result (λ e. e ≢ Memory) }
{
    if text.is_empty() {
        return Err(IdFault::Empty);
    }
    let mut at = 0;
    for _ in 0..MAX_SEGMENTS {
        let ends = segment_ends(text, at)?;
        let next = ends.value + 1;
        if next == text.len() {
            return Ok(());
        }
        if text[next] != b'/' {
            return Err(IdFault::RawCharacter(next));
        }
        at = next + 1;
    }
    Err(IdFault::TooDeep)
}

/// Which part of a segment is read.
#[derive(Clone, Copy, Debug, PartialEq, Eq)]
pub(crate) enum Part {
    Type,
    Value,
}

/// The offset of the closing mark of the part that begins at `from`.
pub(crate) fn part_end(text: &[u8], from: usize, part: Part) -> Result<usize, IdFault>
    requires { from ≤ length text.now }
    ensures exact { Gives (λ n. n) result (part_end part from false (drop from text.now)) }
    ensures text { IfErr result (λ e. e ≢ Memory) }
    ensures within { IfOk result (λ n. (from < n) × (n < length text.now)) }
    ensures mark { IfOk result (λ n. slice_index text.now n ≡ closing part) }
{
    let mut some = false;
    for at in from..text.len() {
        match text[at] {
            b'%' if escape_of(&text[at + 1..]).is_none() => return Err(IdFault::BadEscape(at)),
            b'+' | b'[' | b'/' => return Err(IdFault::RawCharacter(at)),
            b':' => return at_colon(part, some, at),
            b']' => return at_bracket(part, some, at),
            _ => some = true,
        }
    }
    Err(match part {
        Part::Type => IdFault::NoSeparator(text.len()),
        Part::Value => IdFault::NoClose(text.len()),
    })
}

/// What a `:` means: it ends a type. `some` is whether the part has an item.
fn at_colon(part: Part, some: bool, at: usize) -> Result<usize, IdFault>
    ensures { Gives (λ n. n) result (at_colon part some at) }
{
    match part {
        Part::Value => Err(IdFault::RawCharacter(at)),
        Part::Type if some => Ok(at),
        Part::Type => Err(IdFault::EmptyPart(at)),
    }
}

/// What a `]` means: it ends a value. `some` is whether the part has an item.
fn at_bracket(part: Part, some: bool, at: usize) -> Result<usize, IdFault>
    ensures { Gives (λ n. n) result (at_bracket part some at) }
{
    match part {
        Part::Type => Err(IdFault::NoSeparator(at)),
        Part::Value if some => Ok(at),
        Part::Value => Err(IdFault::EmptyPart(at)),
    }
}

/// Where the type and the value of a segment end.
#[derive(Clone, Copy, Debug)]
pub(crate) struct Ends {
    pub kind: usize,
    pub value: usize,
}

/// The ends of the segment that begins at `from`.
#[tactic(auto, unfolding(crate::specs::Reading::segment_at))]
pub(crate) fn segment_ends(text: &[u8], from: usize) -> Result<Ends, IdFault>
    requires { from ≤ length text.now }
    ensures exact { Gives (λ n. (n.kind, n.value)) result (segment_at text.now from) }
    ensures text { IfErr result (λ e. e ≢ Memory) }
    ensures order { IfOk result (λ n. (from + 1 < n.kind) × (n.kind + 1 < n.value) × (n.value < length text.now)) }
    ensures open { IfOk result (λ n. slice_index text.now from ≡ 91) }
    ensures colon { IfOk result (λ n. slice_index text.now n.kind ≡ 58) }
    ensures kind { IfOk result (λ n. IsPartText (slice_range text.now (from + 1) n.kind)) }
    ensures value { IfOk result (λ n. IsPartText (slice_range text.now (n.kind + 1) n.value)) }
    ensures close { IfOk result (λ n. slice_index text.now n.value ≡ 93) }
{
    if from == text.len() || text[from] != b'[' {
        return Err(IdFault::NoOpen(from));
    }
    let kind = part_end(text, from + 1, Part::Type)?;
    let value = part_end(text, kind + 1, Part::Value)?;
    Ok(Ends { kind, value })
}
