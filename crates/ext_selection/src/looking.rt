//! Looks at a node.
ghost use Rattle.std.specs.Prelude.{◌≡◌, ◌<◌, length};
ghost use Rattle.ext_selection.specs.Nodes.{node_at};

use crate::nodes::Node;

pub(crate) fn node_at(nodes: &[Node], index: usize) -> Node
    requires { index < length nodes.now }
    ensures { result ≡ node_at nodes.now index }
{
    nodes[index]
}
