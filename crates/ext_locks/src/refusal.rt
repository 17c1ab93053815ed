//! Why a set of locks was refused.
use crate::LockNo;
use thiserror::Error;

/// Why a set of locks was refused. The lane then holds nothing: it has given back what it had
/// taken.
#[derive(Clone, Copy, Debug, PartialEq, Eq, Error)]
pub enum LockRefusal {
    /// At a moment of the call another lane held this lock, in a mode that excludes the one wanted.
    #[error("lock {0} is taken")]
    Taken(LockNo),
    /// The lock was free for the mode, but other lanes made at least as many lock events during the
    /// call as the locks have tries.
    #[error("lock {0} is contended")]
    Contended(LockNo),
}
