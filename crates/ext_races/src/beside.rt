//! Which nodes may run beside one another.
ghost use Rattle.std.specs.Prelude.{◌≡◌};
ghost use Rattle.ext_plan.specs.Plans.{plan_view};
ghost use Rattle.ext_races.specs.Beside.{are_beside, comes_by_other, nodes_beside};

use crate::made::path_in;
use ext_model::ContextNo;
use ext_plan::Plan;

/// Tests whether two nodes of the plan may run beside one another.
pub(crate) fn nodes_beside(plan: &Plan, first: ContextNo, second: ContextNo) -> bool
    ensures { result ≡ nodes_beside (plan_view plan.now) first second }
{
    if first >= plan.nodes.len() || second >= plan.nodes.len() {
        return false;
    }
    are_beside(
        plan,
        path_in(plan.tree(), first),
        path_in(plan.tree(), second),
    )
}

/// Tests whether nodes with these paths may run beside one another.
fn are_beside(plan: &Plan, path: &[ContextNo], other: &[ContextNo]) -> bool
    ensures { result ≡ are_beside (plan_view plan.now) path.now other.now }
{
    path.iter().zip(path.iter().skip(1)).any(|(child, container)| {
        plan.mode(*child).is_concurrent() && comes_by_other(plan, *child, *container, other)
    })
}

/// Tests whether the path passes through a concurrent child of the container other than this one.
fn comes_by_other(plan: &Plan, child: ContextNo, container: ContextNo, path: &[ContextNo]) -> bool
    ensures { result ≡ comes_by_other (plan_view plan.now) child container path.now }
{
    path.iter().zip(path.iter().skip(1)).any(|(other, above)| {
        *above == container && *other != child && plan.mode(*other).is_concurrent()
    })
}
