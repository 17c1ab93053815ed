//! The calls of a node.
use ext_model::ContextNo;

/// What is called: a callback of one of four kinds, or the test. Source: the extension interfaces
/// `BeforeAllCallback`, `BeforeEachCallback`, `AfterEachCallback` and `AfterAllCallback` of
/// JUnit 5.
#[derive(Clone, Copy, Debug, PartialEq, Eq)]
pub enum Kind {
    /// Before all children of a container.
    BeforeAll,
    /// Before each test at or below the node that registered it.
    BeforeEach,
    /// The call of the test itself.
    Test,
    /// After each test at or below the node that registered it.
    AfterEach,
    /// After all children of a container.
    AfterAll,
}

/// One call of a node.
#[derive(Clone, Copy, Debug, PartialEq, Eq)]
pub struct Call {
    /// The kind of the call.
    pub kind: Kind,
    /// The node that registered the callback, a number from 0; for a test the test itself.
    pub from: ContextNo,
    /// Its index among the callbacks of this kind that the node registered, from 0; for a test 0.
    pub index: usize,
}
