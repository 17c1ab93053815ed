//! Why a list of ids is not a tree, or a key was not declared.
ghost use Rattle.std.specs.Prelude.{◌≡◌};
ghost use Rattle.ext_tree.specs.declared.fault.TreeFault.TheVariants.{Memory};

use std::alloc::{AllocError, AllocFailed};
use thiserror::Error;

/// What is wrong with a list of ids, a key too many, or a failed allocation.
///
/// The numbers are indices in the list of ids, from 0. Prints in lower case, without a full stop.
#[derive(Clone, Copy, Debug, PartialEq, Eq, Error)]
pub enum TreeFault {
    /// There is no id, or the first one has more than one segment.
    #[error("the first id is no root")]
    NoRoot,
    /// A later id has one segment.
    #[error("id {0} is a second root")]
    TwoRoots(usize),
    /// The parent of this id does not stand before it.
    #[error("the parent of id {0} does not stand before it")]
    NoParent(usize),
    /// This id also stands earlier in the list.
    #[error("id {0} stands twice")]
    Twice(usize),
    /// There are more ids, or keys, than the call allows.
    #[error("too many contexts or keys")]
    TooMany,
    /// An allocation failed.
    #[error("no memory")]
    Memory,
}

impl From<AllocError> for TreeFault {
    ghost from_gives = { λ _ e. e ≡ Memory };

    fn from(_e: AllocError) -> TreeFault {
        TreeFault::Memory
    }
}

impl<T: Drop> From<AllocFailed<T>> for TreeFault {
    ghost from_gives = { λ _ e. e ≡ Memory };

    fn from(_e: AllocFailed<T>) -> TreeFault {
        TreeFault::Memory
    }
}
