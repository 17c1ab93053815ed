//! What a lane's seat at the table of lock words knows.
use crate::LockEvent;
use std::collections::LinkedList;

/// The view of a seat, which exists in proofs only.
pub(crate) struct SeatView {
    /// The lane's number.
    pub number: Option<u64>,
    /// The next number to be given to a lane, if this seat gives them.
    pub next: Option<u64>,
    /// How many lanes there are, if this seat is a lane's or gives the numbers.
    pub lanes: u64,
    /// The histories that the lane saw, the oldest first.
    pub fronts: LinkedList<LinkedList<LockEvent>>,
    /// The history that it was shown and has not seen yet.
    pub told: LinkedList<LockEvent>,
}
