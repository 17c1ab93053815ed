//! What is told of a run of a table while it lasts.
use ext_lifecycle::{Call, NoListener, RunListener};
use ext_model::{ContextNo, Fault};

/// Why a node was left out of a run.
#[derive(Clone, Copy, Debug, PartialEq, Eq)]
pub enum LeftOut {
    /// So many tests had failed that no more were to be begun.
    Stopped,
    /// It stood in reserve, and its engine did not let it come.
    DidNotCome,
}

/// A listener to a run of a table while it lasts.
///
/// It is told what a `RunListener` is, in the same way: from the threads that run the nodes, each of
/// which it holds up. Between the start and the end of a node come its calls, and then the close of
/// what it shares. Within a call first come what it is handed, the outermost first, and then, if it
/// is a test, its attempts. An own rule.
pub trait TableListener: RunListener {
    /// The call asks for what the node `from` shares. It may wait for it, or make it.
    fn asks(&self, _node: ContextNo, _from: ContextNo) {}

    /// The call makes it.
    fn makes(&self, _node: ContextNo, _from: ContextNo) {}

    /// The call has made it, or failed to with this fault.
    fn made(&self, _node: ContextNo, _from: ContextNo, _fault: Option<&Fault>) {}

    /// The call was handed it, a value of this number. It has made it if it is new, or else found it.
    fn handed(&self, _node: ContextNo, _from: ContextNo, _number: u32, _is_new: bool) {}

    /// An attempt of the test begins: the first is 1.
    fn tries(&self, _node: ContextNo, _attempt: u32) {}

    /// An attempt failed with this fault, and is followed by another one. The fault of the last
    /// attempt is told as that of the call.
    fn failed_attempt(&self, _node: ContextNo, _attempt: u32, _fault: &Fault) {}

    /// The call has ended.
    fn returned(&self, _node: ContextNo, _call: &Call) {}

    /// The value of this number in the node's context is closed, the latest first: what the node
    /// shares, or what a test has kept there by its lane. A number is that of one value.
    fn closes(&self, _node: ContextNo, _number: u32) {}

    /// It was closed, or its close failed with this fault, which is told as that of the node, too.
    fn closed(&self, _node: ContextNo, _number: u32, _fault: Option<&Fault>) {}

    /// The node was left out, with all nodes below it.
    fn left_out(&self, _node: ContextNo, _why: LeftOut) {}
}

impl TableListener for NoListener {}
