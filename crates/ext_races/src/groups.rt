//! Touches in groups: one for each place, and one for each context's values whose closes may fail.
ghost use Rattle.std.specs.Prelude.{◌≡◌, ◌+◌, ◌*◌, ◌<◌, ◌||◌, [], ◌∷◌, true, false, ℕ, List, All, IfOk, IfSome, OnOk, Option, length, map, option_map, vec_len, drop, take, reverse, if◌then◌else◌};
ghost use Rattle.std.specs.List.{flat_map, list_any};
ghost use Rattle.ext_plan.specs.StepCalls.{keys_in};
ghost use Rattle.ext_plan.specs.Plans.{StepText, step_key_view};
ghost use Rattle.ext_plan.specs.StepWords.{changes};
ghost use Rattle.ext_plan.specs.StoreKeys.{is_there, key_of_step, number_of_key};
ghost use Rattle.ext_tree.specs.Keys.{KeyValue};
ghost use Rattle.ext_races.specs.Acts.{act_view};
ghost use Rattle.ext_races.specs.InnerGroups.{AreEmpty, HasGroups, IsAdded, IsGrouped, IsPushed, groups_view};
ghost use Rattle.ext_races.specs.InnerMade.{left_by, made_behind, made_view, made_views};
ghost use Rattle.ext_races.specs.InnerNaming.{keys_listed};
ghost use Rattle.ext_races.specs.InnerReach.{AreWhole, Tells, is_computed};
ghost use Rattle.ext_races.specs.InnerStanding.{TellsAbove, compute_view, stands};
ghost use Rattle.ext_races.specs.InnerListed.{touch_eq};
ghost use Rattle.ext_races.specs.Touches.{ComputeText, key_of_made, touch_view, touches_above, touches_along, touches_of};

use crate::act::act_of;
use crate::made::{MadeStep, path_in};
use crate::reach::{forget, is_computed, note, reach, whole_paths};
use crate::standing::{Compute, Standing, stands};
use crate::touch::{Touch, look_at, touch_first};
use ext_model::{ContextNo, KeyNo};
use ext_plan::{KeyedStep, StepKey, StepKeys};
use ext_tree::{Directory, Tree};
use std::alloc::{AllocError, Global};

/// How many of a group's last touches are compared with a new one.
const COMPARED: usize = 16;

/// Groups the touches of these steps, by what was computed above their nodes. Each context has a
/// group for each key of the directory and one for closes. Takes memory for the groups and the
/// touches.
pub(crate) fn groups_of<'p>(
    alloc: Global,
    keys: &StepKeys<'_>,
    directory: &Directory,
    tree: &Tree,
    standing: &Standing<'p>,
    made: &[MadeStep<'p>],
) -> Result<Vec<Vec<Touch<'p>>>, AllocError>
    requires keys { directory.now ≡ keys_listed (keys_in keys.now) (map made_view made.now) }
    requires nodes { All (λ m. m.node < length tree.now) made.now }
    ensures count { IfOk result (λ v. vec_len v ≡ length tree.now * (length directory.now + 1)) }
    ensures groups { IfOk result (λ v. (above : ℕ → KeyValue → Option ComputeText) → TellsAbove tree.now directory.now above standing.now → IsGrouped (length directory.now) (flat_map (touches_of tree.now (keys_in keys.now) directory.now above) (made_views [] made.now)) (groups_view v.items)) }
{
    let mut groups = no_groups(alloc, tree.len() * (directory.len() + 1))?;
    let mut below = whole_paths(alloc, directory.len())?;
    for step in made {
        add_step(
            alloc,
            keys,
            directory,
            tree,
            standing,
            step,
            &mut below,
            &mut groups,
        )?;
    }
    Ok(groups)
}

fn no_groups<'p>(alloc: Global, count: usize) -> Result<Vec<Vec<Touch<'p>>>, AllocError>
    ensures count { IfOk result (λ v. vec_len v ≡ count) }
    ensures empty { IfOk result (λ v. AreEmpty (groups_view v.items)) }
{
    let mut groups = Vec::new(alloc);
    for _ in 0..count {
        groups.push(Vec::new(alloc))?;
    }
    Ok(groups)
}

/// Adds what a step touches, and notes what it computes. Its key has to be in the directory.
fn add_step<'p>(
    alloc: Global,
    keys: &StepKeys<'_>,
    directory: &Directory,
    tree: &Tree,
    standing: &Standing<'p>,
    step: &MadeStep<'p>,
    below: &mut Vec<usize>,
    groups: &mut Vec<Vec<Touch<'p>>>,
) -> Result<(), AllocError>
    requires below { length below.old.items ≡ length directory.now }
    requires key { IfSome (key_of_made (keys_in keys.now) (made_view step.now)) (λ key. is_there directory.now key ≡ true) }
    requires node { step.now.node < length tree.now }
    requires count { vec_len groups.old ≡ length tree.now * (length directory.now + 1) }
    ensures added { OnOk result ((before : List StepText) (above : ℕ → KeyValue → Option ComputeText) → Tells (keys_in keys.now) directory.now before below.old.items → TellsAbove tree.now directory.now above standing.now → IsAdded (length directory.now) (touches_of tree.now (keys_in keys.now) directory.now above (made_behind before step.now)) (groups_view groups.old.items) (groups_view groups.new.items)) }
    ensures count { OnOk result (vec_len groups.new ≡ vec_len groups.old) }
    ensures tells { OnOk result ((before : List StepText) → Tells (keys_in keys.now) directory.now before below.old.items → Tells (keys_in keys.now) directory.now (left_by before step.now) below.new.items) }
{
    begin(step, below);
    let Some(act) = act_of(step.step) else {
        return Ok(());
    };
    let key = key_number(alloc, keys, directory, act.key)?;
    let path = path_in(tree, step.node);
    let found = found_above(standing, below.as_slice(), &act, key, path);
    let seen = reach(below.as_slice(), &act, key, path);
    let path = ancestor(seen, act.up);
    add_act(groups, directory.len(), step.node, key, &act, &found, path)?;
    note(below, &act, key);
    Ok(())
}

/// Forgets what was computed, if the step is marked as the first.
fn begin(step: &MadeStep<'_>, below: &mut Vec<usize>)
    ensures count { length below.new.items ≡ length below.old.items }
    ensures kept { step.now.first ≡ false → below.new.items ≡ below.old.items }
    ensures whole { step.now.first ≡ true → AreWhole below.new.items }
{
    if step.first {
        forget(below);
    }
}

/// The number of a key that a step names, which has to be in the directory.
fn key_number(
    alloc: Global,
    keys: &StepKeys<'_>,
    directory: &Directory,
    key: &StepKey,
) -> Result<KeyNo, AllocError>
    requires { is_there directory.now (key_of_step (keys_in keys.now) (step_key_view key.now)) ≡ true }
    ensures number { IfOk result (λ n. n ≡ number_of_key directory.now (key_of_step (keys_in keys.now) (step_key_view key.now))) }
    ensures few { IfOk result (λ n. n < length directory.now) }
{
    let called = keys.key_of(alloc, key)?;
    Ok(directory.number_of(called.key()).unwrap_or(0))
}

/// What was computed above the node with this path for an act on the key with this number: for a
/// look-up, unless a step before it computed the key.
fn found_above<'p>(
    standing: &Standing<'p>,
    below: &[usize],
    act: &KeyedStep<'_>,
    key: KeyNo,
    path: &[ContextNo],
) -> Option<Compute<'p>>
    requires { key < length below.now }
    ensures { option_map compute_view result ≡ (if changes (act_view act.now).word || is_computed below.now key then None else stands standing.now path.now key) }
{
    if act.word.changes() || is_computed(below, key) {
        return None;
    }
    stands(standing, path, key)
}

/// The path of the ancestor `up` contexts up.
fn ancestor(path: &[ContextNo], up: usize) -> &[ContextNo]
    ensures { result.now ≡ drop up path.now }
{
    match path.get(up..) {
        Some(path) => path,
        None => &[],
    }
}

/// Adds what an act touches on this path, which begins with the context that it acts on, if this was
/// computed above its node. The act's key is one of `keys` keys.
fn add_act<'p>(
    groups: &mut Vec<Vec<Touch<'p>>>,
    keys: usize,
    node: ContextNo,
    key: KeyNo,
    act: &KeyedStep<'p>,
    found: &Option<Compute<'p>>,
    path: &[ContextNo],
) -> Result<(), AllocError>
    requires key { key < keys }
    requires path { All (HasGroups keys (vec_len groups.old)) path.now }
    ensures { OnOk result (IsAdded keys (touches_along node key (act_view act.now) (option_map compute_view found.now) path.now) (groups_view groups.old.items) (groups_view groups.new.items)) }
{
    match path.split_first() {
        None => Ok(()),
        Some((context, above)) => {
            let touch = touch_first(node, key, act, found, *context);
            add(groups, keys, touch)?;
            add_above(groups, keys, node, key, act, found, above)?;
            Ok(())
        }
    }
}

/// Adds what an act touches above the context that it acts on.
fn add_above<'p>(
    groups: &mut Vec<Vec<Touch<'p>>>,
    keys: usize,
    node: ContextNo,
    key: KeyNo,
    act: &KeyedStep<'p>,
    found: &Option<Compute<'p>>,
    above: &[ContextNo],
) -> Result<(), AllocError>
    requires key { key < keys }
    requires path { All (HasGroups keys (vec_len groups.old)) above.now }
    ensures { OnOk result (IsAdded keys (touches_above node key (act_view act.now) (option_map compute_view found.now) above.now) (groups_view groups.old.items) (groups_view groups.new.items)) }
{
    if !act.word.looks_along() {
        return Ok(());
    }
    for context in above {
        let touch = look_at(node, key, act, found, *context);
        add(groups, keys, touch)?;
    }
    Ok(())
}

/// Adds a touch to its groups, of which each context has one for each of `keys` keys and one more.
fn add<'p>(
    groups: &mut Vec<Vec<Touch<'p>>>,
    keys: usize,
    touch: Touch<'p>,
) -> Result<(), AllocError>
    requires key { touch.key < keys }
    requires context { HasGroups keys (vec_len groups.old) touch.context }
    ensures { OnOk result (IsAdded keys (touch_view touch.entry ∷ []) (groups_view groups.old.items) (groups_view groups.new.items)) }
{
    let first = touch.context * (keys + 1);
    push_in(groups, first + touch.key, touch)?;
    if touch.may_fail() {
        push_in(groups, first + keys, touch)?;
    }
    Ok(())
}

/// Adds a touch to a group, unless it equals one of the group's last.
fn push_in<'p>(
    groups: &mut Vec<Vec<Touch<'p>>>,
    number: usize,
    touch: Touch<'p>,
) -> Result<(), AllocError>
    requires { number < vec_len groups.old }
    ensures { OnOk result (IsPushed (groups_view groups.old.items) number (touch_view touch.entry) (groups_view groups.new.items)) }
{
    if stands_last(groups[number].as_slice(), &touch) {
        return Ok(());
    }
    groups[number].push(touch)?;
    Ok(())
}

/// Tests whether a touch equals one of the group's last.
fn stands_last(group: &[Touch<'_>], touch: &Touch<'_>) -> bool
    ensures { result ≡ list_any (λ other. touch_eq (touch_view other) (touch_view touch.now)) (take COMPARED (reverse group.now)) }
{
    group
        .iter()
        .rev()
        .take(COMPARED)
        .any(|other| other.is_same(touch))
}
