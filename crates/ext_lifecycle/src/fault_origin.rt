//! Where in a node a fault came.
use crate::Call;

/// Where in a node a fault came. JUnit tells it by the stack of what was thrown; that calls and
/// steps are numbered is an own rule.
#[derive(Clone, Copy, Debug, PartialEq, Eq)]
pub enum FaultOrigin {
    /// In this call of the node, at its step with this number, from 0.
    Step { call: Call, step: usize },
    /// At the end of the node's context, where a value could not be closed.
    Close,
}
