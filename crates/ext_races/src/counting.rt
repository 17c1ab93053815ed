//! How many keys the steps of a plan name.
ghost use Rattle.std.specs.Prelude.{◌≡◌, ◌<◌, ◌≤◌, None, Ok, IfOk, IfSome, length};
ghost use Rattle.ext_plan.specs.Plans.{plan_view};
ghost use Rattle.ext_plan.specs.ReadPlans.{IsRunnablePlan};
ghost use Rattle.ext_races.specs.Touches.{keys_named};

use crate::made::steps_made;
use crate::naming::keys_named;
use ext_plan::{Plan, StepKeys};
use ext_tree::TreeFault;
use std::alloc::{AllocError, Global};

/// The greatest number of keys that are counted.
const KEYS: usize = 1_024;

/// Counts the different keys that the steps of the plan name in a run: `None` if they are more than
/// 1,024.
///
/// Takes memory for the steps that the plan may make, 24 bytes each, and for the keys, and gives it
/// back; fails with `AllocError` only if that is refused.
pub fn count_keys(alloc: Global, plan: &Plan) -> Result<Option<usize>, AllocError>
    requires { IsRunnablePlan (plan_view plan.now) }
    ensures count { IfOk result (λ count. IfSome count (λ n. n ≡ length (keys_named (plan_view plan.now)))) }
    ensures few { IfOk result (λ count. IfSome count (λ n. n ≤ 1024)) }
    ensures many { result ≡ Ok None → 1024 < length (keys_named (plan_view plan.now)) }
{
    let made = steps_made(alloc, plan)?;
    let declared = plan.store_keys(alloc)?;
    let keys = StepKeys::of(plan.keys.as_slice(), declared.as_slice());
    match keys_named(alloc, &keys, made.as_slice(), KEYS) {
        Ok((directory, _)) => Ok(Some(directory.len())),
        Err(TreeFault::TooMany) => Ok(None),
        Err(_) => Err(AllocError),
    }
}
