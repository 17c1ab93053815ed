//! The tree of contexts that the store of a run owns.
ghost use Rattle.std.specs.Prelude.{◌≡◌, map, IfOk};
ghost use Rattle.ext_tree.specs.Trees.{IsTree};
ghost use Rattle.ext_plan.specs.Plans.{plan_view};
ghost use Rattle.ext_plan.specs.ReadPlans.{NodesAreTree, ids_of_nodes};

use ext_ids::UniqueId;
use ext_model::Size;
use ext_plan::{Plan, PlanNode};
use ext_tree::{Tree, TreeFault};
use std::alloc::{AllocError, Global};

/// A tree like the plan's, for the store. Takes memory for it.
pub(crate) fn tree_of(alloc: Global, plan: &Plan) -> Result<Tree, AllocError>
    requires { NodesAreTree (plan_view plan.now) }
    ensures { IfOk result (λ tree. tree ≡ ids_of_nodes (plan_view plan.now).nodes) }
{
    tree_of_nodes(alloc, plan.nodes.as_slice())
}

/// The tree of the contexts of these nodes, whose ids form one.
fn tree_of_nodes(alloc: Global, nodes: &[PlanNode]) -> Result<Tree, AllocError>
    requires { IsTree (map (λ n. n.id) nodes.now) }
    ensures { IfOk result (λ tree. tree ≡ map (λ n. n.id) nodes.now) }
{
    let ids = ids_of(alloc, nodes)?;
    match Tree::build_within(alloc, ids.as_slice(), Size::Large.contexts()) {
        Ok(tree) => Ok(tree),
        Err(TreeFault::Memory) => Err(AllocError),
        Err(_) => unreachable!(),
    }
}

/// Copies of the ids of the nodes, in order.
fn ids_of(alloc: Global, nodes: &[PlanNode]) -> Result<Vec<UniqueId>, AllocError>
    ensures { IfOk result (λ ids. ids.items ≡ map (λ n. n.id) nodes.now) }
{
    let mut ids = Vec::new(alloc);
    for node in nodes {
        ids.push(node.id.clone()?)?;
    }
    Ok(ids)
}
