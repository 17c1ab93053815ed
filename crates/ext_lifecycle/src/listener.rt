//! A listener to a run while it lasts.

use crate::{Call, FaultOrigin, NodeResult};
use ext_model::{ContextNo, Fault};

/// A listener to the progress of a run of nodes.
///
/// It is called from the threads that run the nodes, from several of them at once if nodes run
/// beside one another, and holds up the calling thread until it returns. What it does has no effect
/// on the results. For one node it is told in this order: it starts, each of its calls and the fault
/// of that, the faults of its close, it has ended. JUnit Platform, Javadoc
/// `EngineExecutionListener`; that it is told of calls, and of nothing else, is an own rule.
pub trait RunListener {
    /// The node starts: none of its calls was made yet. A test that names locks waits for them
    /// after that. `lane` is the number, from 0, of the lane that runs it: 0 if the run has one
    /// thread. Called once for each node that is not skipped. Javadoc `executionStarted`.
    fn started(&self, _node: ContextNo, _lane: usize) {}

    /// A call of the node begins: a test has its locks. It is told by the thread that makes the call,
    /// on the lane on which the node started, once for each call that is made, before what it does.
    /// An own rule.
    fn called(&self, _node: ContextNo, _call: &Call) {}

    /// A call of the node failed or was aborted with this fault, or a value of its context could
    /// not be closed: `origin` tells which. Called once for each, in the order in which they came:
    /// the first failure is the fault of the node's result, or the first abort if there is no
    /// failure.
    fn faulted(&self, _node: ContextNo, _origin: FaultOrigin, _fault: &Fault) {}

    /// A node has ended with this result: its calls were made and its context was closed. Called
    /// once for each such node, and not for those that were skipped, nor if the run is refused
    /// before that. `nodes` is the number of nodes of the run. Javadoc `executionFinished`.
    fn ended(&self, ran: &NodeResult, nodes: usize);
}

/// A listener that does nothing.
#[derive(Clone, Copy, Debug, Drop)]
pub struct NoListener;

impl RunListener for NoListener {
    /// Does nothing and returns at once.
    fn ended(&self, _ran: &NodeResult, _nodes: usize) {}
}

/// Reports a fault of the node with this origin to the listener, if there is one, by
/// `RunListener::faulted`.
pub fn tell_fault<L: RunListener>(
    listener: &L,
    node: ContextNo,
    origin: FaultOrigin,
    fault: Option<&Fault>,
) {
    if let Some(fault) = fault {
        listener.faulted(node, origin, fault);
    }
}
