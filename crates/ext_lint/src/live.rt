//! Which nodes have a test at or below them.
ghost use Rattle.std.specs.Prelude.{ℕ, ◌≡◌, ◌<◌, ◌==◌, ◌||◌, length, IfOk, OnOk};
ghost use Rattle.ext_plan.specs.Plans.{node_view, plan_view};
ghost use Rattle.ext_races.specs.MadeSteps.{path_of};
ghost use Rattle.ext_lint.specs.InnerLists.{has_node};
ghost use Rattle.ext_lint.specs.Live.{has_test, is_among, path_of_test};

use ext_model::ContextNo;
use ext_plan::{Plan, PlanNode};
use ext_tree::Tree;
use std::alloc::{AllocError, Global};
use std::collections::BTreeSet;

/// The nodes with a test at or below them. Takes memory for them.
pub(crate) fn nodes_with_tests(
    alloc: Global,
    plan: &Plan,
) -> Result<BTreeSet<ContextNo>, AllocError>
    ensures { IfOk result (λ set. (node : ℕ) → has_node set node ≡ has_test (plan_view plan.now) node) }
{
    let tree = plan.tree();
    let mut set = BTreeSet::new(alloc);
    for (number, node) in plan.nodes.iter().enumerate() {
        add_test(tree, number, node, &mut set)?;
    }
    Ok(set)
}

/// Adds the path of the node with this number, if it is a test.
fn add_test(
    tree: &Tree,
    number: ContextNo,
    node: &PlanNode,
    set: &mut BTreeSet<ContextNo>,
) -> Result<(), AllocError>
    requires { number < length tree.now }
    ensures { OnOk result ((other : ℕ) → has_node set.new other ≡ (is_among (path_of_test tree.now number (node_view node.now)) other || has_node set.old other)) }
{
    if node.test.is_some() {
        add_nodes(path_of(tree, number), set)?;
    }
    Ok(())
}

/// The path of the node with this number.
pub(crate) fn path_of(tree: &Tree, number: ContextNo) -> &[ContextNo]
    requires { number < length tree.now }
    ensures { result.now ≡ path_of tree.now number }
{
    let _ = tree.len();
    tree.path(number).as_slice()
}

/// Adds these nodes to the set.
fn add_nodes(nodes: &[ContextNo], set: &mut BTreeSet<ContextNo>) -> Result<(), AllocError>
    ensures { OnOk result ((node : ℕ) → has_node set.new node ≡ (is_among nodes.now node || has_node set.old node)) }
{
    for node in nodes {
        add_node(node, set)?;
    }
    Ok(())
}

/// Adds a node to the set.
fn add_node(node: &ContextNo, set: &mut BTreeSet<ContextNo>) -> Result<(), AllocError>
    ensures { OnOk result ((other : ℕ) → has_node set.new other ≡ ((node.now == other) || has_node set.old other)) }
{
    set.insert(*node)?;
    Ok(())
}
