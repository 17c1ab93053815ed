//! What a seat knows.
use crate::limits::CellLimits;
use ext_model::{CellNo, Event, LaneNo};
use std::collections::LinkedList;

/// What a seat knows. It exists in proofs only.
pub(crate) struct View {
    pub(crate) limits: CellLimits,
    /// The lane's number; a note has none.
    pub(crate) lane: Option<LaneNo>,
    /// How many lane numbers were given out; only the first lane's view has it.
    pub(crate) given: Option<LaneNo>,
    /// The history as it stood after each step that showed it.
    pub(crate) fronts: LinkedList<LinkedList<Event<CellNo>>>,
    /// What a note has shown, until the next front.
    pub(crate) told: LinkedList<Event<CellNo>>,
    /// Cells and the indices of their words, for good.
    pub(crate) indexed: LinkedList<(CellNo, usize)>,
    /// The index of a block's word, which is not below `least`.
    pub(crate) block: usize,
    pub(crate) least: u64,
}
