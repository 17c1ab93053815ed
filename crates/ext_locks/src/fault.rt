//! Why locks were not opened, or requests not merged.
use thiserror::Error;

/// Why locks were not opened, or requests not merged. If several reasons apply, the first in this
/// order is answered. No object is made.
#[derive(Clone, Copy, Debug, PartialEq, Eq, Error)]
pub enum LockFault {
    /// There are no lanes or more than are asked for (`open_within`), or not 1 to 64 tries.
    #[error("bad limit")]
    BadLimit,
    /// There are more than 63 names.
    #[error("too many names")]
    TooMany,
    /// The name at this index, from 0, is the first that also stands before it.
    #[error("name {0} stands twice")]
    Twice(usize),
    /// The request at this index, from 0, is the first that names an unknown lock. Only `merge`
    /// answers it.
    #[error("request {0} has an unknown resource")]
    UnknownResource(usize),
    /// An allocation failed.
    #[error("no memory")]
    Memory,
}
