//! What stands at a cell, as its word says.

/// What stands at a cell, in bits 0 to 3 of its word.
#[derive(Clone, Copy, Debug, PartialEq, Eq)]
pub enum CellState {
    /// 0: nothing. The number is 0.
    Empty,
    /// 1: the claim of a lane, which computes a value. The number is 0.
    Computing,
    /// 2: the number of a value.
    Present,
    /// 3: a seal, which keeps the number of the value that stood, or 0.
    Sealed,
    /// 4: the number of a kept fault.
    Failed,
}
