//! The races of a plan.
ghost use Rattle.std.specs.Prelude.{◌≡◌, ◌==◌, ◌&&◌, IfOk, length, nat_lt};
ghost use Rattle.ext_plan.specs.Plans.{plan_view};
ghost use Rattle.ext_plan.specs.ReadPlans.{IsRunnablePlan};
ghost use Rattle.ext_races.specs.Found.{IsFound, IsWithin};
ghost use Rattle.ext_races.specs.InnerGroups.{IsGrouped, groups_view};
ghost use Rattle.ext_races.specs.Touches.{touches_made};

use crate::groups::groups_of;
use crate::listing::races_listed;
use crate::made::steps_made;
use crate::naming::{keys_named, numbers_drawn};
use crate::proving::proved_of;
use crate::standing::standing_of;
use crate::touch::Touch;
use crate::{Found, Race};
use ext_plan::{Plan, StepKey, StepKeys};
use ext_tree::TreeFault;
use std::alloc::{AllocError, Global};

/// Lists at most `most` races of a plan, without repetition, or reports a limit that its steps
/// exceed. A race is of two nodes that may run beside one another, each with a step. Both steps
/// touch one place that one of them may change, and do not compute the same result there, or find
/// it; or both leave values in one context whose closes may fail with different texts. If fewer
/// than `most` races are listed there are no others. Where `most` is at least 1 and the plan has no race,
/// `NoRaces` tells what is proved of its report; with `most` of 0 nothing is looked for.
///
/// `TooManyKeys` reports that the steps name more keys than `Plan::key_places`, and otherwise
/// `TooManyNumbers` that they may draw more numbers than a plan of this size may. Such a plan has
/// no one report, whatever its nodes touch.
///
/// Takes memory for the steps that the plan may make, 24 bytes each, for what they touch, for each
/// node, for each key that its callbacks before all children compute or put, 40 bytes, and for a list
/// for each key that the steps name in each context; fails with `AllocError` only if that is refused.
/// The time grows with the number of steps. At a place where nodes that may run beside one another
/// don't all look, or all compute the same or find it, it grows with the number of pairs of touches,
/// too, until `most` races are listed.
pub fn races<'p>(alloc: Global, plan: &'p Plan, most: usize) -> Result<Found<'p>, AllocError>
    requires { IsRunnablePlan (plan_view plan.now) }
    ensures { IfOk result (IsFound (plan_view plan.now) most) }
{
    let made = steps_made(alloc, plan)?;
    let declared = plan.store_keys(alloc)?;
    let keys = StepKeys::of(plan.keys.as_slice(), declared.as_slice());
    let (directory, names) = match keys_named(alloc, &keys, made.as_slice(), plan.key_places) {
        Ok(named) => named,
        Err(TreeFault::TooMany) => return Ok(Found::TooManyKeys),
        Err(_) => return Err(AllocError),
    };
    let numbers = plan.size.numbers() as usize;
    if numbers_drawn(plan, made.as_slice()) > numbers {
        return Ok(Found::TooManyNumbers);
    }
    let standing = standing_of(alloc, &keys, &directory, plan, made.as_slice())?;
    let tree = plan.tree();
    let groups = groups_of(alloc, &keys, &directory, tree, &standing, made.as_slice())?;
    let keys = directory.len();
    found_in(alloc, plan, keys, groups.as_slice(), most, names)
}

/// At most `most` races of the touches in these groups, of which each context has one for each of
/// `keys` keys and one more; or, if there are none, what is proved of the plan.
fn found_in<'p>(
    alloc: Global,
    plan: &Plan,
    keys: usize,
    groups: &[Vec<Touch<'p>>],
    most: usize,
    names: Vec<&'p StepKey>,
) -> Result<Found<'p>, AllocError>
    requires groups { IsGrouped keys (touches_made (plan_view plan.now)) (groups_view groups.now) }
    requires within { IsWithin (plan_view plan.now) names.items }
    ensures { IfOk result (IsFound (plan_view plan.now) most) }
{
    let races = races_listed(alloc, plan, groups, most)?;
    if !is_free(races.as_slice(), most) {
        return Ok(Found::Races { races, names });
    }
    let proved = proved_of(alloc, plan, keys, groups)?;
    Ok(Found::NoRaces(proved))
}

/// Tests whether races were looked for, and there are none.
fn is_free(races: &[Race], most: usize) -> bool
    ensures { result ≡ (nat_lt 0 most && (length races.now == 0)) }
{
    most > 0 && races.is_empty()
}
