//! What stands at a place.
use crate::LaneNo;

/// What stands at a place, a context and a key, that is not empty.
///
/// `NamespacedHierarchicalStore` keeps values and values being computed; seals and kept faults are
/// own rules.
#[derive(Clone, Copy, Debug, PartialEq, Eq)]
pub enum Slot {
    /// The number of a value, from 1.
    Entry(u32),
    /// The number of a fault, from 1: a factory for the place failed with it, and it is kept.
    Fault(u32),
    /// The claim of a lane, which computes a value.
    Claim(LaneNo),
    /// The place is closed, and keeps the number of the value that stood there, if one did.
    Sealed(Option<u32>),
}
