//! One segment of an id: its type and its value, decoded.
ghost use Rattle.std.specs.Prelude.{◌≡◌, ◌+◌, ◌<◌, ◌++◌, IfOk, OnOk, length, string_bytes, slice_index, slice_range};
ghost use Rattle.std.specs.List.{flat_map};
ghost use Rattle.std.specs.Ordering.{on};
ghost use Rattle.std.specs.Cmp.{partial_equiv_from_equiv};
ghost use Rattle.ext_ids.specs.Grammar.{IsPartText, segment_text, further_text, id_text};
ghost use Rattle.ext_ids.specs.Reading.{pair_of};
ghost use Rattle.ext_ids.specs.Ids.{pair_eq};
ghost use Rattle.ext_ids.specs.InnerTraits.{pair_eq_equiv};

use crate::escape::{decoded, write_part};
use crate::scan::Ends;
use std::alloc::{AllocError, Global};
use std::marker::Model;

/// One segment of an id, seen as the pair of its type and its value.
#[derive(Debug, Drop)]
pub(crate) struct Segment {
    kind: String,
    value: String,
}

impl Model for Segment {
    ghost use Rattle.std.specs.Prelude.{ℕ, List, string_bytes};

    ghost Value = { List ℕ × List ℕ };

    ghost view = { λ s. (string_bytes s.kind, string_bytes s.value) };
}

impl Segment {
    /// The segment of a text that begins at `at` and has these ends.
    pub fn read(alloc: Global, text: &str, at: usize, ends: Ends) -> Result<Segment, AllocError>
        requires order { (at + 1 < ends.kind) × (ends.kind + 1 < ends.value) × (ends.value < length text.now) }
        requires open { slice_index text.now at ≡ 91 }
        requires colon { slice_index text.now ends.kind ≡ 58 }
        requires kind { IsPartText (slice_range text.now (at + 1) ends.kind) }
        requires value { IsPartText (slice_range text.now (ends.kind + 1) ends.value) }
        requires close { slice_index text.now ends.value ≡ 93 }
        ensures { IfOk result (λ s. s ≡ pair_of text.now at (ends.kind, ends.value)) }
    {
        Ok(Segment {
            kind: decoded(alloc, &text[at + 1..ends.kind])?,
            value: decoded(alloc, &text[ends.kind + 1..ends.value])?,
        })
    }

    /// The segment of this type and this value.
    pub fn new(alloc: Global, kind: &str, value: &str) -> Result<Segment, AllocError>
        ensures { IfOk result (λ s. s ≡ (kind.now, value.now)) }
    {
        Ok(Segment {
            kind: String::from_str(alloc, kind)?,
            value: String::from_str(alloc, value)?,
        })
    }

    /// The type and the value.
    pub fn parts(&self) -> (&str, &str)
        ensures { (result.0.now, result.1.now) ≡ self.now }
    {
        (self.kind.as_str(), self.value.as_str())
    }

    /// Appends the segment to a text.
    fn write_to(&self, text: &mut String) -> Result<(), AllocError>
        ensures { OnOk result (string_bytes text.new ≡ string_bytes text.old ++ segment_text self.now) }
    {
        text.push('[')?;
        write_part(self.kind.as_str(), text)?;
        text.push(':')?;
        write_part(self.value.as_str(), text)?;
        text.push(']')
    }
}

impl Clone for Segment {
    ghost is_clone = { λ segment copy. copy ≡ segment };

    fn clone(&self) -> Result<Segment, AllocError> {
        Ok(Segment {
            kind: self.kind.clone()?,
            value: self.value.clone()?,
        })
    }
}

impl PartialEq for Segment {
    ghost eq = { pair_eq };

    ghost laws = { partial_equiv_from_equiv pair_eq_equiv };

    fn eq(&self, other: &Segment) -> bool {
        self.kind == other.kind && self.value == other.value
    }
}

impl Eq for Segment {
    ghost laws = { pair_eq_equiv };
}

/// Appends segments to a text, with `/` between two.
pub(crate) fn write_segments(segments: &[Segment], text: &mut String) -> Result<(), AllocError>
    ensures { OnOk result (string_bytes text.new ≡ string_bytes text.old ++ id_text segments.now) }
{
    match segments {
        [] => Ok(()),
        [first, others @ ..] => {
            first.write_to(text)?;
            write_further(others, text)
        }
    }
}

/// Appends segments to a text, each after a `/`.
fn write_further(segments: &[Segment], text: &mut String) -> Result<(), AllocError>
    ensures { OnOk result (string_bytes text.new ≡ string_bytes text.old ++ flat_map further_text segments.now) }
{
    for segment in segments {
        text.push('/')?;
        segment.write_to(text)?;
    }
    Ok(())
}
