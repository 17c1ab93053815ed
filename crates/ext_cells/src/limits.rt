//! What the rule reads.
use ext_model::LaneNo;

/// How many cells, lanes and numbers there are, and whether faults are kept.
#[derive(Clone, Copy, Drop)]
pub(crate) struct CellLimits {
    pub(crate) cells: usize,
    pub(crate) lanes: LaneNo,
    pub(crate) numbers: u32,
    pub(crate) keep_faults: bool,
}
