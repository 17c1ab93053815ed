//! Acts of lanes on the store, and the numbers that name contexts, keys, cells and lanes.

/// A context: its index, from 0, in the list of contexts that the store was opened with.
pub type ContextNo = usize;

/// A key: its number, from 0.
pub type KeyNo = usize;

/// A cell: a context and a key in one number, from 0.
pub type CellNo = usize;

/// A lane, numbered from 0: an actor on the store, which makes one step after another.
pub type LaneNo = usize;

/// What a lane can do to the store, at a place of type `P`. Values and kept faults are numbered
/// from 1.
///
/// `Put` and `Remove` are those of `ExtensionContext.Store`, and `Claim` with `Fill` or `Abandon`
/// are the parts of its `getOrComputeIfAbsent`. `Keep`, `Fail` and `Seal` are own rules.
#[derive(Clone, Copy, Debug, PartialEq, Eq)]
pub enum Act<P> {
    /// Draws the next number, for a value or a fault.
    Keep(u32),
    /// Stores the number at the place, over one that stands there.
    Put(P, u32),
    /// Removes the number that stands at the place, of a value or of a kept fault.
    Remove(P),
    /// Claims the empty place for the lane, which then computes a value for it.
    Claim(P),
    /// Ends the lane's claim and stores the number at the place.
    Fill(P, u32),
    /// Ends the lane's claim and keeps the number at the place as that of a fault.
    Fail(P, u32),
    /// Ends the lane's claim and leaves the place empty.
    Abandon(P),
    /// Closes the place for good: it keeps the number of a value that stands there, but not of a
    /// fault.
    Seal(P),
}

/// An act that a lane has made.
#[derive(Clone, Copy, Debug, PartialEq, Eq)]
pub struct Event<P> {
    /// The lane that made it.
    pub lane: LaneNo,
    /// What the lane did.
    pub act: Act<P>,
}
