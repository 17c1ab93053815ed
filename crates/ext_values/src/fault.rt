//! Why slots or notes were not made.
ghost use Rattle.std.specs.Prelude.{◌≡◌};
ghost use Rattle.ext_values.specs.declared.fault.ValuesFault.TheVariants.{Memory};

use std::alloc::AllocError;
use thiserror::Error;

/// A failed allocation, the only fault of the makers. Prints in lower case, without a full stop.
#[derive(Clone, Copy, Debug, PartialEq, Eq, Error)]
pub enum ValuesFault {
    /// An allocation failed.
    #[error("no memory")]
    Memory,
}

impl From<AllocError> for ValuesFault {
    ghost from_gives = { λ _ e. e ≡ Memory };

    fn from(_e: AllocError) -> ValuesFault {
        ValuesFault::Memory
    }
}
