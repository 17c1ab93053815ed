//! What is proved of the report of a plan without races, by the groups of its touches.
ghost use Rattle.std.specs.Prelude.{◌≡◌, ◌≤◌, IfOk, length, map};
ghost use Rattle.std.specs.List.{list_any};
ghost use Rattle.ext_model.specs.Sizes.{most_numbers};
ghost use Rattle.ext_plan.specs.Plans.{plan_view};
ghost use Rattle.ext_plan.specs.ReadPlans.{ids_of_nodes};
ghost use Rattle.ext_races.specs.declared.race.Race.{Race};
ghost use Rattle.ext_races.specs.InnerGroups.{IsGrouped, groups_view};
ghost use Rattle.ext_races.specs.InnerProving.{computes_value, group_shares, groups_share, has_share, share_beside};
ghost use Rattle.ext_races.specs.Proving.{IsProved};
ghost use Rattle.ext_races.specs.Races.{IsRace};
ghost use Rattle.ext_races.specs.Touches.{keys_named, numbers_drawn, touch_view, touches_made};

use crate::beside::nodes_beside;
use crate::passing::{Passed, may_meet, none_passed, note_changing};
use crate::proved::Proved;
use crate::touch::Touch;
use ext_plan::Plan;
use std::alloc::{AllocError, Global};

/// What is proved of a plan without races whose touches are in these groups, of which each context
/// has one for each of `keys` keys and one more. Takes memory for what it notes at each context.
pub(crate) fn proved_of<'p>(
    alloc: Global,
    plan: &Plan,
    keys: usize,
    groups: &[Vec<Touch<'p>>],
) -> Result<Proved, AllocError>
    requires groups { IsGrouped keys (touches_made (plan_view plan.now)) (groups_view groups.now) }
    requires free { (race : Race) → ¬ IsRace (plan_view plan.now) race }
    requires places { length (keys_named (plan_view plan.now)) ≤ (plan_view plan.now).key_places }
    requires numbers { numbers_drawn (plan_view plan.now) ≤ most_numbers (plan_view plan.now).size }
    ensures { IfOk result (IsProved (plan_view plan.now)) }
{
    let mut passed = none_passed(alloc, plan.tree().len())?;
    if groups_share(plan, groups, passed.as_mut_slice()) {
        Ok(Proved::NearReport)
    } else {
        Ok(Proved::OneReport)
    }
}

/// Tests whether two nodes that may run beside one another compute the same value in one place. What
/// is noted in `passed` before does not matter.
fn groups_share<'p>(
    plan: &Plan,
    groups: &[Vec<Touch<'p>>],
    passed: &mut [Option<Passed<'p>>],
) -> bool
    requires { length passed.old ≡ length (ids_of_nodes (plan_view plan.now).nodes) }
    ensures { result ≡ groups_share (plan_view plan.now) (groups_view groups.now) }
{
    for group in groups {
        if group_shares(plan, group.as_slice(), passed) {
            return true;
        }
    }
    false
}

/// The same in one group.
fn group_shares<'p>(plan: &Plan, group: &[Touch<'p>], passed: &mut [Option<Passed<'p>>]) -> bool
    requires { length passed.old ≡ length (ids_of_nodes (plan_view plan.now).nodes) }
    ensures { result ≡ group_shares (plan_view plan.now) (map touch_view group.now) }
{
    if !computes_any(group) {
        return false;
    }
    note_changing(plan, group, passed);
    any_shares(plan, group, passed)
}

/// Tests whether a touch of the group computes a value.
fn computes_any(group: &[Touch<'_>]) -> bool
    ensures { result ≡ list_any (λ t. computes_value (touch_view t)) group.now }
{
    group.iter().any(|touch| touch.computes_value())
}

/// The same as `group_shares`, by what is noted of the group.
fn any_shares(plan: &Plan, group: &[Touch<'_>], passed: &[Option<Passed<'_>>]) -> bool
    ensures { result ≡ list_any (λ t. has_share (plan_view plan.now) passed.now group.now (touch_view t)) group.now }
{
    group
        .iter()
        .any(|touch| has_share(plan, group, passed, touch))
}

/// Tests whether this computes a value, and so does a touch of the group, by a node that may run
/// beside its node.
fn has_share(
    plan: &Plan,
    group: &[Touch<'_>],
    passed: &[Option<Passed<'_>>],
    touch: &Touch<'_>,
) -> bool
    ensures { result ≡ has_share (plan_view plan.now) passed.now group.now (touch_view touch.now) }
{
    touch.computes_value()
        && may_meet(plan, passed, touch.node, false)
        && any_share(plan, group, touch)
}

/// Tests whether a touch of the group shares the value of this one.
fn any_share(plan: &Plan, group: &[Touch<'_>], touch: &Touch<'_>) -> bool
    ensures { result ≡ list_any (λ u. share_beside (plan_view plan.now) (touch_view touch.now) (touch_view u)) group.now }
{
    group.iter().any(|other| share_beside(plan, touch, other))
}

/// Tests whether both compute the same value there, by nodes that may run beside one another.
fn share_beside(plan: &Plan, touch: &Touch<'_>, other: &Touch<'_>) -> bool
    ensures { result ≡ share_beside (plan_view plan.now) (touch_view touch.now) (touch_view other.now) }
{
    touch.shares_value(other) && nodes_beside(plan, touch.node, other.node)
}
