//! Why a call of the plain store was refused.
use thiserror::Error;

/// Why a call of the plain store was refused. If several reasons apply, the first in the order
/// `Busy`, `Closed`, `Taken`, `FaultStands`, `Memory` is answered. The store is as it was.
///
/// JUnit's `NamespacedHierarchicalStore` waits for a value that is being computed, and throws after
/// closing.
#[derive(Clone, Copy, Debug, PartialEq, Eq, Error)]
pub enum PlainFault {
    /// A lane's claim stands at the place.
    #[error("busy")]
    Busy,
    /// The place is sealed.
    #[error("closed")]
    Closed,
    /// This number stands at the place that was to be claimed. Only `claim` answers it.
    #[error("number {0} stands there")]
    Taken(u32),
    /// A fault of this number is kept at the place that was to be claimed. Only `claim` answers it.
    #[error("fault {0} stands there")]
    FaultStands(u32),
    /// All numbers of the store were drawn. Only `keep` answers it.
    #[error("numbers full")]
    NumbersFull,
    /// An allocation failed. It can come only if the place was empty.
    #[error("no memory")]
    Memory,
}
