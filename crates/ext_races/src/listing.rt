//! Races of touches.
ghost use Rattle.std.specs.Prelude.{◌≡◌, ◌<◌, IfOk, OnOk, length, map};
ghost use Rattle.std.specs.List.{list_any};
ghost use Rattle.ext_plan.specs.Plans.{plan_view};
ghost use Rattle.ext_plan.specs.ReadPlans.{ids_of_nodes};
ghost use Rattle.ext_races.specs.InnerGroups.{groups_view};
ghost use Rattle.ext_races.specs.InnerListed.{group_listed, groups_listed, pair_listed, race_eq, touch_listed, with_race};
ghost use Rattle.ext_races.specs.Touches.{touch_view};

use crate::Race;
use crate::beside::nodes_beside;
use crate::passing::{Passed, may_meet, none_passed, note_group};
use crate::touch::Touch;
use ext_plan::Plan;
use std::alloc::{AllocError, Global};

/// Lists at most `most` races in these groups, without repetition. Takes memory for the list.
pub(crate) fn races_listed<'p>(
    alloc: Global,
    plan: &Plan,
    groups: &[Vec<Touch<'p>>],
    most: usize,
) -> Result<Vec<Race>, AllocError>
    ensures { IfOk result (λ listed. listed.items ≡ groups_listed (plan_view plan.now) most (groups_view groups.now)) }
{
    let mut listed = Vec::new(alloc);
    let mut passed = none_passed(alloc, plan.tree().len())?;
    for group in groups {
        let passed = passed.as_mut_slice();
        list_group(plan, group.as_slice(), passed, most, &mut listed)?;
    }
    Ok(listed)
}

/// Adds the races in a group. What is noted in `passed` before does not matter.
fn list_group<'p>(
    plan: &Plan,
    group: &[Touch<'p>],
    passed: &mut [Option<Passed<'p>>],
    most: usize,
    listed: &mut Vec<Race>,
) -> Result<(), AllocError>
    requires { length passed.old ≡ length (ids_of_nodes (plan_view plan.now).nodes) }
    ensures { OnOk result (listed.new.items ≡ group_listed (plan_view plan.now) most listed.old.items (map touch_view group.now)) }
{
    if listed.len() >= most {
        return Ok(());
    }
    if !changes_any(group) {
        return Ok(());
    }
    note_group(plan, group, passed);
    for touch in group {
        if may_meet(plan, passed, touch.node, true) {
            list_touch(plan, touch, group, most, listed)?;
        }
    }
    Ok(())
}

/// Tests whether a touch of the group may change its place.
fn changes_any(group: &[Touch<'_>]) -> bool
    ensures { result ≡ list_any (λ t. t.changes) group.now }
{
    group.iter().any(|touch| touch.changes)
}

/// Adds the races of a touch with others of its group.
fn list_touch(
    plan: &Plan,
    touch: &Touch<'_>,
    group: &[Touch<'_>],
    most: usize,
    listed: &mut Vec<Race>,
) -> Result<(), AllocError>
    ensures { OnOk result (listed.new.items ≡ touch_listed (plan_view plan.now) most (map touch_view group.now) listed.old.items (touch_view touch.now)) }
{
    if !touch.changes {
        return Ok(());
    }
    if listed.len() >= most {
        return Ok(());
    }
    for other in group {
        list_pair(plan, touch, other, most, listed)?;
    }
    Ok(())
}

/// Adds the race of two touches, if there is one.
fn list_pair(
    plan: &Plan,
    touch: &Touch<'_>,
    other: &Touch<'_>,
    most: usize,
    listed: &mut Vec<Race>,
) -> Result<(), AllocError>
    ensures { OnOk result (listed.new.items ≡ pair_listed (plan_view plan.now) most (touch_view touch.now) listed.old.items (touch_view other.now)) }
{
    if touch.clashes(other) && nodes_beside(plan, touch.node, other.node) {
        list_race(touch.race_with(other), most, listed)?;
    }
    Ok(())
}

/// Adds a race, unless it is listed or the list is full.
fn list_race(race: Race, most: usize, listed: &mut Vec<Race>) -> Result<(), AllocError>
    ensures { OnOk result (listed.new.items ≡ with_race most listed.old.items race) }
{
    if listed.len() < most && !is_listed(listed.as_slice(), &race) {
        listed.push(race)?;
    }
    Ok(())
}

/// Tests whether the race is listed.
fn is_listed(listed: &[Race], race: &Race) -> bool
    ensures { result ≡ list_any (λ other. race_eq other race.now) listed.now }
{
    listed.iter().any(|other| other.is_same(race))
}
