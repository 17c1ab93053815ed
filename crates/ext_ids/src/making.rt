//! Ids from parts: which parts make an id, and the first fault of others.
ghost use Rattle.std.specs.Prelude.{◌≡◌, ◌++◌, ◌∷◌, [], IfOk};
ghost use Rattle.ext_ids.specs.Making.{fault_at, pairs_of, parts_fault};
ghost use Rattle.ext_ids.specs.declared.making.PartFault.TheVariants.{Memory};

use crate::scan::MAX_SEGMENTS;
use crate::segment::Segment;
use std::alloc::{AllocError, Global};
use std::fmt;
use thiserror::Error;

/// The first fault of parts that make no id, from the left, or a failed allocation.
///
/// A part is named by its number from 0, which is that of the segment that it would be. Each
/// variant prints as a line, such as `id: part 2 has no value`.
#[derive(Clone, Copy, Debug, PartialEq, Eq, Error)]
pub enum PartFault {
    /// There is no part, and an id has at least one segment.
    NoPart,
    /// The type of this part is empty.
    NoType(usize),
    /// The type of this part is not empty, and its value is.
    NoValue(usize),
    /// There is a part more than the 16 that an id may have.
    TooMany,
    /// I9: an allocation failed.
    Memory,
}

impl fmt::Display for PartFault {
    ghost use Rattle.std.specs.Prelude.{Some};
    ghost use Rattle.ext_ids.specs.Making.{line_of};

    ghost output = { λ fault. Some (line_of fault) };

    fn fmt<W: fmt::Write>(&self, f: &mut fmt::Formatter<W>) -> fmt::Result {
        match self {
            PartFault::NoPart => f.write_str("id: no part"),
            PartFault::NoType(at) => write!(f, "id: part {at} has no type"),
            PartFault::NoValue(at) => write!(f, "id: part {at} has no value"),
            PartFault::TooMany => f.write_str("id: more than 16 parts"),
            PartFault::Memory => f.write_str("id: I9"),
        }
    }
}

impl From<AllocError> for PartFault {
    ghost from_gives = { λ _ e. e ≡ Memory };

    fn from(_e: AllocError) -> PartFault {
        PartFault::Memory
    }
}

/// The fault of the part that would be segment `at`.
pub(crate) fn fault_at(at: usize, kind: &str, value: &str) -> Option<PartFault>
    ensures { result ≡ fault_at at (kind.now, value.now) }
{
    if at >= MAX_SEGMENTS {
        return Some(PartFault::TooMany);
    }
    if kind.is_empty() {
        return Some(PartFault::NoType(at));
    }
    if value.is_empty() {
        return Some(PartFault::NoValue(at));
    }
    None
}

/// The fault of these parts, if they make no id.
pub(crate) fn parts_fault(parts: &[(&str, &str)]) -> Option<PartFault>
    ensures { result ≡ parts_fault (pairs_of parts.now) }
{
    if parts.is_empty() {
        return Some(PartFault::NoPart);
    }
    for (at, part) in parts.iter().enumerate() {
        let fault = fault_at(at, part.0, part.1);
        if fault.is_some() {
            return fault;
        }
    }
    None
}

/// The segments of these parts.
pub(crate) fn segments_from(
    alloc: Global,
    parts: &[(&str, &str)],
) -> Result<Vec<Segment>, AllocError>
    ensures { IfOk result (λ segments. segments.items ≡ pairs_of parts.now) }
{
    let mut segments = Vec::new(alloc);
    for part in parts {
        let segment = Segment::new(alloc, part.0, part.1)?;
        segments.push(segment)?;
    }
    Ok(segments)
}

/// These segments, and behind them one of this part.
pub(crate) fn with_segment(
    alloc: Global,
    segments: &Vec<Segment>,
    kind: &str,
    value: &str,
) -> Result<Vec<Segment>, AllocError>
    ensures { IfOk result (λ all. all.items ≡ segments.now.items ++ (kind.now, value.now) ∷ []) }
{
    let last = Segment::new(alloc, kind, value)?;
    let mut all = segments.clone()?;
    all.push(last)?;
    Ok(all)
}
