//! The mark of a factory that fails, by which its fault is known again.
use ext_model::{Fault, LaneNo};
use std::alloc::Global;

/// The lane of a factory that fails, and how many replies it had before: no two faults that a round
/// keeps have one mark.
#[derive(Clone, Copy, PartialEq, Eq)]
pub(crate) struct Mark {
    pub(crate) lane: LaneNo,
    pub(crate) before: usize,
}

impl Mark {
    /// The fault with this mark; want of memory, which has none, where there is no memory for its
    /// text.
    pub(crate) fn fault(self, alloc: Global) -> Fault {
        let (lane, before) = (self.lane, self.before);
        match format!(in alloc; "{lane} {before}") {
            Ok(text) => Fault::Text(text),
            Err(_) => Fault::Memory,
        }
    }

    /// The mark of the fault, where it has one.
    pub(crate) fn of(fault: &Fault) -> Option<Mark> {
        let Fault::Text(text) = fault else {
            return None;
        };
        let (lane, before) = text.split_once(" ")?;
        Some(Mark {
            lane: lane.parse().ok()?,
            before: before.parse().ok()?,
        })
    }
}
