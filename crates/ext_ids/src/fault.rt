//! Why a text is not a unique id.
ghost use Rattle.std.specs.Prelude.{◌≡◌};
ghost use Rattle.ext_ids.specs.declared.fault.IdFault.TheVariants.{Memory};

use std::alloc::{AllocError, AllocFailed};
use std::fmt;
use thiserror::Error;

/// The first fault of a text, from the left, or a failed allocation.
///
/// An offset counts bytes from 0; if the text ends too early, it is the text's length. Each variant
/// prints as its code and its offset, such as `id: I6 at 9`.
#[derive(Clone, Copy, Debug, PartialEq, Eq, Error)]
pub enum IdFault {
    /// I1: the text is empty.
    Empty,
    /// I2: a segment does not begin with `[`.
    NoOpen(usize),
    /// I3: a type has no `:`: a `]` or the end of the text comes first.
    NoSeparator(usize),
    /// I4: the text ends within a value.
    NoClose(usize),
    /// I5: the `%` at this offset begins none of the six escapes.
    BadEscape(usize),
    /// I6: an unescaped mark, or something other than `/` after a segment.
    RawCharacter(usize),
    /// I7: the type or the value that ends here is empty.
    EmptyPart(usize),
    /// I8: a `/` follows the 16th segment.
    TooDeep,
    /// I9: an allocation failed.
    Memory,
}

impl fmt::Display for IdFault {
    ghost use Rattle.std.specs.Prelude.{Some};
    ghost use Rattle.ext_ids.specs.FaultLines.{line_of};

    ghost output = { λ fault. Some (line_of fault) };

    fn fmt<W: fmt::Write>(&self, f: &mut fmt::Formatter<W>) -> fmt::Result {
        match self {
            IdFault::Empty => f.write_str("id: I1"),
            IdFault::NoOpen(at) => write!(f, "id: I2 at {at}"),
            IdFault::NoSeparator(at) => write!(f, "id: I3 at {at}"),
            IdFault::NoClose(at) => write!(f, "id: I4 at {at}"),
            IdFault::BadEscape(at) => write!(f, "id: I5 at {at}"),
            IdFault::RawCharacter(at) => write!(f, "id: I6 at {at}"),
            IdFault::EmptyPart(at) => write!(f, "id: I7 at {at}"),
            IdFault::TooDeep => f.write_str("id: I8"),
            IdFault::Memory => f.write_str("id: I9"),
        }
    }
}

impl From<AllocError> for IdFault {
    ghost from_gives = { λ _ e. e ≡ Memory };

    fn from(_e: AllocError) -> IdFault {
        IdFault::Memory
    }
}

impl<T: Drop> From<AllocFailed<T>> for IdFault {
    ghost from_gives = { λ _ e. e ≡ Memory };

    fn from(_e: AllocFailed<T>) -> IdFault {
        IdFault::Memory
    }
}
