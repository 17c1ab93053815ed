//! Why a key was not numbered.
ghost use Rattle.std.specs.Prelude.{◌≡◌};
ghost use Rattle.ext_tree.specs.declared.key_fault.KeyFault.TheVariants.{Memory};

use std::alloc::{AllocError, AllocFailed};
use thiserror::Error;

/// Why `KeyPlaces::number` gave a key no number. Prints in lower case, without a full stop.
#[derive(Clone, Copy, Debug, PartialEq, Eq, Error)]
pub enum KeyFault {
    /// All places hold other keys for good: this key gets no number from now on.
    #[error("the directory is full")]
    DirectoryFull,
    /// A place neither took a copy of the key nor showed a key. `KeyPlaces::number` is proved never
    /// to answer this.
    #[error("the key was not placed")]
    Unplaced,
    /// An allocation failed, so the key was not copied. A later call may number the key.
    #[error("no memory")]
    Memory,
}

impl From<AllocError> for KeyFault {
    ghost from_gives = { λ _ e. e ≡ Memory };

    fn from(_e: AllocError) -> KeyFault {
        KeyFault::Memory
    }
}

impl<T: Drop> From<AllocFailed<T>> for KeyFault {
    ghost from_gives = { λ _ e. e ≡ Memory };

    fn from(_e: AllocFailed<T>) -> KeyFault {
        KeyFault::Memory
    }
}
