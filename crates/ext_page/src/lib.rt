//! The page of a run: one file of HTML that shows what failed, the tree, the lanes over time and what
//! tests shared. It loads nothing from anywhere.
#![tactic(auto)]

mod ascii;
mod data;
mod holders;
mod markup;
mod nodes;
mod page;
mod rows;
mod run;
mod script;
mod style;

pub use crate::data::data_of;
pub use crate::holders::{HeldLock, Holders, LEAST_WAIT, NodeLocks, TakenLock};
pub use crate::nodes::PlacedNodes;
pub use crate::page::page_of;
pub use crate::run::{
    Attempt, Closing, FaultRow, Node, RunData, RunHead, SharedValue, Wait, Waited,
};
