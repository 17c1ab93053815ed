//! The first test below a node at some depth.
ghost use Rattle.std.specs.Prelude.{◌≡◌, ◌<◌, length, IfSome};
ghost use Rattle.ext_plan.specs.Plans.{node_view, plan_view};
ghost use Rattle.ext_lint.specs.Heights.{first_test, is_test_below};
ghost use Rattle.ext_lint.specs.InnerLists.{is_sought};
ghost use Rattle.ext_lint.specs.Live.{is_among};

use crate::live::path_of;
use ext_model::ContextNo;
use ext_plan::{Plan, PlanNode};
use ext_tree::Tree;

/// Which depths of tests are looked for.
#[derive(Clone, Copy, Debug)]
pub(crate) enum Sought {
    /// At most so many more than this one.
    Within(usize, usize),
    /// Each other one.
    Other(usize),
}

/// The first test at or below the node at a depth that is looked for.
pub(crate) fn first_test(plan: &Plan, above: ContextNo, sought: Sought) -> Option<ContextNo>
    ensures first { result ≡ first_test (plan_view plan.now) above (λ depth. is_sought sought depth) }
    ensures within { IfSome result (λ test. test < length plan.now.tree) }
{
    let tree = plan.tree();
    for (number, node) in plan.nodes.iter().enumerate() {
        if is_test_below(tree, above, sought, number, node) {
            return Some(number);
        }
    }
    None
}

/// Tests whether the node with this number is a test at or below the other, at a depth that is looked
/// for.
fn is_test_below(
    tree: &Tree,
    above: ContextNo,
    sought: Sought,
    number: ContextNo,
    node: &PlanNode,
) -> bool
    requires { number < length tree.now }
    ensures { result ≡ is_test_below tree.now above (λ depth. is_sought sought depth) number (node_view node.now) }
{
    if node.test.is_none() {
        return false;
    }
    let path = path_of(tree, number);
    is_among(path, above) && is_sought(sought, path.len())
}

/// Tests whether the node is among these.
fn is_among(nodes: &[ContextNo], node: ContextNo) -> bool
    ensures { result ≡ is_among nodes.now node }
{
    nodes.iter().any(|other| *other == node)
}

/// Tests whether the depth is one that is looked for.
fn is_sought(sought: Sought, depth: usize) -> bool
    ensures { result ≡ is_sought sought depth }
{
    match sought {
        Sought::Within(most, more) => depth.saturating_sub(more) <= most,
        Sought::Other(other) => depth != other,
    }
}
