//! The keys that the steps of a plan name.
ghost use Rattle.std.specs.Prelude.{◌≡◌, ◌<◌, ◌≤◌, ◌++◌, [], ◌∷◌, Err, IfOk, OnOk, length, map, if◌then◌else◌};
ghost use Rattle.std.specs.List.{count_by};
ghost use Rattle.ext_tree.specs.declared.fault.TreeFault.TheVariants as fault;
ghost use Rattle.ext_plan.specs.Plans.{plan_view, step_key_view, step_view};
ghost use Rattle.ext_plan.specs.StepCalls.{keys_in};
ghost use Rattle.ext_plan.specs.StoreKeys.{key_of_step, with_key};
ghost use Rattle.ext_races.specs.Acts.{draws};
ghost use Rattle.ext_races.specs.InnerMade.{made_view};
ghost use Rattle.ext_races.specs.InnerNaming.{keys_listed, keys_of};
ghost use Rattle.ext_races.specs.Touches.{key_of_made, with_key_of};

use crate::act::{act_of, draws};
use crate::made::MadeStep;
use ext_plan::{Plan, StepKey, StepKeys};
use ext_tree::{Directory, Key, TreeFault};
use std::alloc::{AllocError, Global};

/// The different keys that the steps name, in the order in which they are first named, and the word
/// that first names each. Takes memory for them.
///
/// Refused as `TooMany` if there are more than `most`, which is at most 1,024, and as `Memory`.
pub(crate) fn keys_named<'p>(
    alloc: Global,
    keys: &StepKeys<'_>,
    made: &[MadeStep<'p>],
    most: usize,
) -> Result<(Directory, Vec<&'p StepKey>), TreeFault>
    requires most { most ≤ 1024 }
    ensures keys { IfOk result (λ named. named.0 ≡ keys_listed (keys_in keys.now) (map made_view made.now)) }
    ensures names { IfOk result (λ named. keys_of (keys_in keys.now) named.1.items ≡ named.0) }
    ensures few { IfOk result (λ named. length named.0 ≤ most) }
    ensures full { result ≡ Err fault.TooMany → most < length (keys_listed (keys_in keys.now) (map made_view made.now)) }
{
    let mut directory = Directory::new(alloc);
    let mut names = Vec::new(alloc);
    for step in made {
        name(alloc, keys, step, &mut directory, &mut names, most)?;
    }
    Ok((directory, names))
}

/// Numbers the key that the step names, unless it has a number: one of at most `most` keys.
fn name<'p>(
    alloc: Global,
    keys: &StepKeys<'_>,
    step: &MadeStep<'p>,
    directory: &mut Directory,
    names: &mut Vec<&'p StepKey>,
    most: usize,
) -> Result<(), TreeFault>
    requires most { most ≤ 1024 }
    requires names { keys_of (keys_in keys.now) names.old.items ≡ directory.old }
    requires few { length directory.old ≤ most }
    ensures keys { OnOk result (directory.new ≡ with_key_of directory.old (key_of_made (keys_in keys.now) (made_view step.now))) }
    ensures names { OnOk result (keys_of (keys_in keys.now) names.new.items ≡ directory.new) }
    ensures few { OnOk result (length directory.new ≤ most) }
    ensures full { result ≡ Err fault.TooMany → most < length (with_key_of directory.old (key_of_made (keys_in keys.now) (made_view step.now))) }
{
    let Some(act) = act_of(step.step) else {
        return Ok(());
    };
    let called = keys.key_of(alloc, act.key)?;
    if declare(directory, called.key(), most)? {
        names.push(act.key)?;
    }
    Ok(())
}

/// Numbers the key, one of at most `most`, and tells whether it had no number before. Takes memory
/// only then.
fn declare(directory: &mut Directory, key: &Key, most: usize) -> Result<bool, TreeFault>
    requires most { most ≤ 1024 }
    requires few { length directory.old ≤ most }
    ensures keys { OnOk result (directory.new ≡ with_key directory.old key.now) }
    ensures added { IfOk result (λ is_new. directory.new ≡ (if is_new then directory.old ++ key.now ∷ [] else directory.old)) }
    ensures few { OnOk result (length directory.new ≤ most) }
    ensures full { result ≡ Err fault.TooMany → most < length (with_key directory.old key.now) }
{
    if directory.number_of(key).is_some() {
        return Ok(false);
    }
    let before = directory.len();
    let copy = key.clone()?;
    match directory.declare(copy, most) {
        Ok(_) => Ok(directory.len() != before),
        Err(fault) => Err(fault),
    }
}

/// Counts the steps that may draw a number.
pub(crate) fn numbers_drawn(plan: &Plan, made: &[MadeStep<'_>]) -> usize
    ensures { result ≡ count_by (λ made. draws (plan_view plan.now).keep_faults made.step) (map made_view made.now) }
{
    made.iter()
        .filter(|made| draws(plan.keep_faults, made.step))
        .count()
}
