//! The keys that the steps of a plan name.
ghost use Rattle.std.specs.Prelude.{◌≡◌, ◌<◌, ◌≤◌, [], Err, IfOk, OnOk, length, map};
ghost use Rattle.ext_tree.specs.declared.fault.TreeFault.TheVariants as fault;
ghost use Rattle.ext_plan.specs.Plans.{step_key_view, step_view};
ghost use Rattle.ext_plan.specs.StepCalls.{keys_in};
ghost use Rattle.ext_plan.specs.StoreKeys.{key_of_step, number_of_key, with_key};
ghost use Rattle.ext_races.specs.Acts.{act_of};
ghost use Rattle.ext_races.specs.Touches.{key_of_act, with_key_of};
ghost use Rattle.ext_lint.specs.NodeSteps.{node_step_view};
ghost use Rattle.ext_lint.specs.Said.{keys_with};

use crate::node_step::NodeStep;
use ext_model::KeyNo;
use ext_plan::{Step, StepKey, StepKeys};
use ext_tree::{Directory, Key, TreeFault};
use std::alloc::{AllocError, Global};

/// The greatest number of different keys: a directory has no more.
const KEYS: usize = 1_024;

/// The different keys that the steps name, in the order in which they are first named. Takes memory
/// for them.
///
/// Refused as `TooMany` if there are more than 1,024, and as `Memory`.
pub(crate) fn keys_of(
    alloc: Global,
    keys: &StepKeys<'_>,
    node_steps: &[NodeStep<'_>],
) -> Result<Directory, TreeFault>
    ensures keys { IfOk result (λ named. named ≡ keys_with (keys_in keys.now) [] (map node_step_view node_steps.now)) }
    ensures few { IfOk result (λ named. length named ≤ 1024) }
    ensures full { result ≡ Err fault.TooMany → 1024 < length (keys_with (keys_in keys.now) [] (map node_step_view node_steps.now)) }
{
    let mut directory = Directory::new(alloc);
    for node_step in node_steps {
        name(alloc, keys, node_step.step, &mut directory)?;
    }
    Ok(directory)
}

/// Numbers the key that the step names, unless it has a number.
fn name(
    alloc: Global,
    keys: &StepKeys<'_>,
    step: &Step,
    directory: &mut Directory,
) -> Result<(), TreeFault>
    requires few { length directory.old ≤ 1024 }
    ensures keys { OnOk result (directory.new ≡ with_key_of directory.old (key_of_act (keys_in keys.now) (act_of (step_view step.now)))) }
    ensures few { OnOk result (length directory.new ≤ 1024) }
    ensures full { result ≡ Err fault.TooMany → 1024 < length (with_key_of directory.old (key_of_act (keys_in keys.now) (act_of (step_view step.now)))) }
{
    match step.key() {
        None => Ok(()),
        Some(key) => declare(directory, store_key(alloc, keys, key)?),
    }
}

/// Numbers the key, unless it has a number.
fn declare(directory: &mut Directory, key: Key) -> Result<(), TreeFault>
    requires few { length directory.old ≤ 1024 }
    ensures keys { OnOk result (directory.new ≡ with_key directory.old key) }
    ensures few { OnOk result (length directory.new ≤ 1024) }
    ensures full { result ≡ Err fault.TooMany → 1024 < length (with_key directory.old key) }
{
    match directory.declare(key, KEYS) {
        Ok(_) => Ok(()),
        Err(fault) => Err(fault),
    }
}

/// Makes the key of the store that a step names.
fn store_key(alloc: Global, keys: &StepKeys<'_>, key: &StepKey) -> Result<Key, AllocError>
    ensures { IfOk result (λ k. k ≡ key_of_step (keys_in keys.now) (step_key_view key.now)) }
{
    let called = keys.key_of(alloc, key)?;
    called.key().clone()
}

/// The number of a key that a step names; one past the last if the directory has no such key.
pub(crate) fn key_number(
    alloc: Global,
    keys: &StepKeys<'_>,
    directory: &Directory,
    key: &StepKey,
) -> Result<KeyNo, AllocError>
    ensures { IfOk result (λ n. n ≡ number_of_key directory.now (key_of_step (keys_in keys.now) (step_key_view key.now))) }
{
    let called = keys.key_of(alloc, key)?;
    Ok(number_of(directory, called.key()))
}

/// The number of a key; one past the last if the directory does not have it.
fn number_of(directory: &Directory, key: &Key) -> KeyNo
    ensures { result ≡ number_of_key directory.now key.now }
{
    match directory.number_of(key) {
        Some(number) => number,
        None => directory.len(),
    }
}
