//! A run as its page shows it.
use ext_lifecycle::Status;

/// A run as its page shows it. Times are whole microseconds since the run began. Nodes, locks and
/// values are spoken of by their places in these lists.
#[derive(Drop)]
pub struct RunData {
    pub head: RunHead,
    /// The names of the locks.
    pub locks: Vec<String>,
    /// Each node, behind its parent, in the order in which they are shown.
    pub nodes: Vec<Node>,
    /// One for each time that a test ran, and for the calls of a container before its children, and
    /// behind them. Those of a node stand in their order.
    pub attempts: Vec<Attempt>,
    /// All faults and aborts, in the order in which they came.
    pub faults: Vec<FaultRow>,
    /// When a lane slept for another one.
    pub waits: Vec<Wait>,
    /// What nodes shared, in the order in which it was made.
    pub values: Vec<SharedValue>,
}

/// What is said of a run as a whole.
#[derive(Drop)]
pub struct RunHead {
    pub name: String,
    /// How long it took.
    pub wall: u64,
    /// How many lanes it had. Lanes are numbered from 0.
    pub lanes: usize,
    /// What else is said of it.
    pub note: Option<String>,
}

/// A node of the tree.
#[derive(Drop)]
pub struct Node {
    pub parent: Option<usize>,
    /// The last part of its id, as `[test:gift]`.
    pub name: String,
    pub is_test: bool,
    pub status: Status,
}

/// A time that a test ran, or that calls of a container took, on one lane: those of a lane lie beside
/// one another.
#[derive(Clone, Copy, Debug, PartialEq, Eq)]
pub struct Attempt {
    pub node: usize,
    pub lane: usize,
    /// When it began. A test held its locks then.
    pub begun: u64,
    /// When it ended. On an engine's page the node's context was not closed yet; on that of a plan it
    /// was.
    pub ended: u64,
    pub status: Status,
}

/// A fault or an abort.
#[derive(Drop)]
pub struct FaultRow {
    pub node: usize,
    /// The attempt in which it came, from 1.
    pub attempt: Option<usize>,
    /// Where it came, as `test` or `close`.
    pub place: String,
    pub text: String,
}

/// What a lane slept for.
#[derive(Clone, Copy, Debug, PartialEq, Eq)]
pub enum Waited {
    /// A lock; without a place it is the one that isolated tests take to be alone.
    ForLock(Option<usize>),
    /// A shared value.
    ForValue(usize),
}

/// A time that a lane slept.
#[derive(Clone, Copy, Debug, PartialEq, Eq)]
pub struct Wait {
    pub lane: usize,
    /// The node that waited.
    pub node: usize,
    pub begun: u64,
    pub ended: u64,
    pub waited: Waited,
    /// The node that held the lock or made the value, if it is known.
    pub by: Option<usize>,
}

/// What a node shared.
#[derive(Drop)]
pub struct SharedValue {
    pub key: String,
    /// The node in whose context it stood.
    pub context: usize,
    /// The node whose call made it.
    pub maker: usize,
    pub lane: usize,
    /// When its factory was called.
    pub begun: Option<u64>,
    /// When it was there, or its factory had failed.
    pub ended: u64,
    /// The fault with which its factory failed.
    pub fault: Option<String>,
    /// How many other calls found it.
    pub found: u64,
    /// When it was closed.
    pub closing: Option<Closing>,
    /// The fault of its close.
    pub close_fault: Option<String>,
}

/// The close of a value.
#[derive(Clone, Copy, Debug, PartialEq, Eq)]
pub struct Closing {
    pub lane: usize,
    pub begun: u64,
    pub ended: u64,
}
