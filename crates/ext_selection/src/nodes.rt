//! What a selection looks at of a table's nodes.

/// What a selection and an order look at of a node of a table.
#[derive(Clone, Copy, Debug, PartialEq, Eq)]
pub struct Node {
    /// Whether something is given to a test here.
    pub is_test: bool,
    /// Whether the node's mode is `Mode::SameThread`.
    pub is_in_turn: bool,
    /// The index of the node that it stands in. One that is not before the node's own index, as the
    /// root's, stands for none.
    pub above: usize,
}
