//! Which tests never run at one moment.
ghost use Rattle.std.specs.Prelude.{◌≡◌};
ghost use Rattle.std.specs.List.{list_any};
ghost use Rattle.ext_plan.specs.PlanCalls.{locks_of};
ghost use Rattle.ext_plan.specs.Plans.{lock_view, plan_view};
ghost use Rattle.ext_races.specs.LockedApart.{excludes, is_isolated, locked_apart, locks_exclude, node_excludes, path_excludes, paths_exclude, writes};

use crate::made::path_in;
use ext_model::ContextNo;
use ext_plan::{Plan, PlanLock};

/// Tests whether two nodes are tests that never run at one moment: both take one lock, one of them
/// to write, or one of the two is isolated.
pub(crate) fn locked_apart(plan: &Plan, first: ContextNo, second: ContextNo) -> bool
    ensures { result ≡ locked_apart (plan_view plan.now) first second }
{
    if !plan.is_test(first) || !plan.is_test(second) {
        return false;
    }
    paths_exclude(
        plan,
        path_in(plan.tree(), first),
        path_in(plan.tree(), second),
    )
}

/// Tests whether tests with these paths never run at one moment.
fn paths_exclude(plan: &Plan, path: &[ContextNo], other: &[ContextNo]) -> bool
    ensures { result ≡ paths_exclude (plan_view plan.now) path.now other.now }
{
    is_isolated(plan, path) || is_isolated(plan, other) || locks_exclude(plan, path, other)
}

/// Tests whether a node of the path is isolated.
fn is_isolated(plan: &Plan, path: &[ContextNo]) -> bool
    ensures { result ≡ is_isolated (plan_view plan.now) path.now }
{
    path.iter().any(|node| plan.is_isolated(*node))
}

/// Tests whether a lock of the one path excludes one of the other.
fn locks_exclude(plan: &Plan, path: &[ContextNo], other: &[ContextNo]) -> bool
    ensures { result ≡ locks_exclude (plan_view plan.now) path.now other.now }
{
    path.iter().any(|node| is_excluded(plan, *node, other))
}

/// Tests whether a lock that the node names is excluded by one of the path.
fn is_excluded(plan: &Plan, node: ContextNo, path: &[ContextNo]) -> bool
    ensures { result ≡ list_any (λ lock. path_excludes (plan_view plan.now) path.now lock) (locks_of (plan_view plan.now) node) }
{
    any_excluded(plan, plan.locks_of(node), path)
}

/// Tests whether one of these locks is excluded by one of the path.
fn any_excluded(plan: &Plan, locks: &[PlanLock], path: &[ContextNo]) -> bool
    ensures { result ≡ list_any (λ lock. path_excludes (plan_view plan.now) path.now (lock_view lock)) locks.now }
{
    locks.iter().any(|lock| path_excludes(plan, path, lock))
}

/// Tests whether a node of the path names a lock that excludes this one.
fn path_excludes(plan: &Plan, path: &[ContextNo], lock: &PlanLock) -> bool
    ensures { result ≡ path_excludes (plan_view plan.now) path.now (lock_view lock.now) }
{
    path.iter().any(|node| node_excludes(plan, *node, lock))
}

/// Tests whether the node names a lock that excludes this one.
fn node_excludes(plan: &Plan, node: ContextNo, lock: &PlanLock) -> bool
    ensures { result ≡ node_excludes (plan_view plan.now) (lock_view lock.now) node }
{
    any_excludes(plan.locks_of(node), lock)
}

/// Tests whether one of these locks excludes this one.
fn any_excludes(locks: &[PlanLock], lock: &PlanLock) -> bool
    ensures { result ≡ list_any (λ other. excludes (lock_view lock.now) (lock_view other)) locks.now }
{
    locks.iter().any(|other| excludes(lock, other))
}

/// Tests whether the locks have one name, and one of them is for writing.
fn excludes(lock: &PlanLock, other: &PlanLock) -> bool
    ensures { result ≡ excludes (lock_view lock.now) (lock_view other.now) }
{
    (writes(lock) || writes(other)) && lock.name() == other.name()
}

fn writes(lock: &PlanLock) -> bool
    ensures { result ≡ writes (lock_view lock.now) }
{
    match lock {
        PlanLock::Read(_) => false,
        PlanLock::ReadWrite(_) => true,
    }
}
