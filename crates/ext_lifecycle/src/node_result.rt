//! The result of a node.
ghost use Rattle.std.specs.Prelude.{◌≡◌};
ghost use Rattle.ext_lifecycle.specs.Results.{as_result, skipped_result};

use crate::Status;
use ext_model::{ContextNo, Fault};

/// The result of one node of a run. Nothing here checks that the fields fit together, such as that
/// a successful node has no fault.
#[derive(Debug, Drop, PartialEq, Eq)]
pub struct NodeResult {
    /// The node's context, a number from 0.
    pub node: ContextNo,
    /// Whether the node is a test; else it is a container.
    pub is_test: bool,
    /// The status with which the node ended.
    pub status: Status,
    /// The first fault of a failed node, the first abort of an aborted one.
    pub fault: Option<Fault>,
    /// How many faults and aborts came besides `fault`.
    pub more: u64,
    /// How many values the node's calls computed.
    pub computed: u64,
    /// How many values the node's calls found instead of computing one.
    pub found: u64,
    /// How many values were closed with the node's context, including those whose close failed.
    pub closed: u64,
    /// How many of these closes failed.
    pub close_faults: u64,
    /// Whether one of all its faults and aborts tells of a lack (`Fault::tells_lack` of ext_model).
    pub lacked: bool,
}

impl NodeResult {
    /// The result of a node that did not run: skipped, with no fault, no lack and all counts 0.
    pub fn skipped(node: ContextNo, is_test: bool) -> NodeResult
        ensures { as_result result ≡ skipped_result node is_test }
    {
        NodeResult {
            node,
            is_test,
            status: Status::Skipped,
            fault: None,
            more: 0,
            computed: 0,
            found: 0,
            closed: 0,
            close_faults: 0,
            lacked: false,
        }
    }
}
