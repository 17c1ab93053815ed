//! What the look-up of the nearest cell finds there.

/// What stands at a cell that is not empty.
#[derive(Clone, Copy, Debug, Drop, PartialEq, Eq)]
pub enum Standing {
    /// The value of this number, from 1 to 1,048,575.
    Value(u32),
    /// The kept fault of this number, from 1 to 1,048,575.
    Fault(u32),
    /// The claim of a lane, which computes a value.
    Claim,
    /// A seal: the cell is closed for good.
    Seal,
}
