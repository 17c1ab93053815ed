//! What was computed or put above a node when it begins.
ghost use Rattle.std.specs.Prelude.{◌≡◌, ◌≢◌, ◌<◌, ◌==◌, ◌&&◌, [], ◌∷◌, ◌++◌, ℕ, All, List, Option, IfOk, OnOk, drop, length, map, not, option_map, vec_len};
ghost use Rattle.std.specs.List.{filter, flat_map, list_any};
ghost use Rattle.ext_tree.specs.Trees.{children_of};
ghost use Rattle.ext_plan.specs.Plans.{plan_view, step_key_view, step_view};
ghost use Rattle.ext_plan.specs.PlanCalls.{steps_of_call};
ghost use Rattle.ext_plan.specs.ReadPlans.{CallbacksAreFew, IsRunnablePlan, ids_of_nodes};
ghost use Rattle.ext_plan.specs.StepCalls.{keys_in, start_of};
ghost use Rattle.ext_plan.specs.StoreKeys.{key_of_step};
ghost use Rattle.ext_races.specs.Acts.{ActText, act_of, act_view, as_compute};
ghost use Rattle.ext_races.specs.InnerMade.{made_view, made_views};
ghost use Rattle.ext_races.specs.InnerStanding.{AreComputed, AreFirst, AreLeft, AreStored, AreWithout, AreWithoutRemoved, IsNumber, IsRemoved, TellsAbove, compute_at, compute_view, computed_in, computes_of, computes_view, context_of, is_number, removed_by, stands, unless};
ghost use Rattle.ext_races.specs.MadeSteps.{path_of, plan_path, steps_before, steps_made};
ghost use Rattle.ext_races.specs.Touches.{or_above, standing};

use crate::act::{act_of, as_compute, stores};
use crate::made::{MadeStep, calls_before, path_in};
use ext_lifecycle::Call;
use ext_model::{ContextNo, KeyNo};
use ext_plan::{KeyedStep, Plan, Step, StepKey, StepKeys, Word};
use ext_tree::{Directory, Tree};
use std::alloc::{AllocError, Global};

/// A value that is computed or put: for which key, in which context, with which word and text of a
/// compute.
#[derive(Clone, Copy, Debug)]
pub(crate) struct Compute<'p> {
    pub(crate) key: KeyNo,
    pub(crate) context: ContextNo,
    pub(crate) word: Word,
    pub(crate) text: &'p str,
}

/// What is noted of a plan.
#[derive(Drop)]
pub(crate) struct Standing<'p> {
    /// For each node with children the first compute of each key in its callbacks before them, if
    /// neither these remove the key, nor a step of a node below it in its context or above.
    computes: Vec<Vec<Compute<'p>>>,
    /// The same of puts.
    puts: Vec<Vec<Compute<'p>>>,
}

/// What was computed above the node with this path for the key with this number, or else put.
pub(crate) fn stands<'p>(
    standing: &Standing<'p>,
    path: &[ContextNo],
    key: KeyNo,
) -> Option<Compute<'p>>
    ensures { option_map compute_view result ≡ stands standing.now path.now key }
{
    let nodes = above(path);
    let computed = computed_in(standing.computes.as_slice(), key, nodes);
    if computed.is_some() {
        return computed;
    }
    computed_in(standing.puts.as_slice(), key, nodes)
}

/// The contexts above that of the node with this path.
fn above(path: &[ContextNo]) -> &[ContextNo]
    ensures { result.now ≡ drop 1 path.now }
{
    match path.split_first() {
        Some((_, above)) => above,
        None => path,
    }
}

/// The compute of the first of these nodes that has one of the key with this number.
fn computed_in<'p>(
    lists: &[Vec<Compute<'p>>],
    key: KeyNo,
    nodes: &[ContextNo],
) -> Option<Compute<'p>>
    ensures { option_map compute_view result ≡ computed_in (computes_view lists.now) key nodes.now }
{
    for node in nodes {
        let found = computed_by(lists, *node, key);
        if found.is_some() {
            return found;
        }
    }
    None
}

/// A node's compute of the key with this number.
fn computed_by<'p>(lists: &[Vec<Compute<'p>>], node: ContextNo, key: KeyNo) -> Option<Compute<'p>>
    ensures { option_map compute_view result ≡ compute_at (computes_of (computes_view lists.now) node) key }
{
    match lists.get(node) {
        Some(computes) => compute_at(computes.as_slice(), key),
        None => None,
    }
}

/// The first of these computes of the key with this number.
fn compute_at<'p>(computes: &[Compute<'p>], key: KeyNo) -> Option<Compute<'p>>
    ensures { option_map compute_view result ≡ compute_at computes.now key }
{
    computes.iter().find(|compute| compute.key == key).copied()
}

// ---- what is noted

/// Notes what the callbacks before all children compute and put, for keys in the directory that
/// neither these remove, nor a step of a node below in their node's context or above. Takes memory
/// for each node, and for each key that it computes or puts, 40 bytes.
pub(crate) fn standing_of<'p>(
    alloc: Global,
    keys: &StepKeys<'_>,
    directory: &Directory,
    plan: &'p Plan,
    made: &[MadeStep<'p>],
) -> Result<Standing<'p>, AllocError>
    requires plan { IsRunnablePlan (plan_view plan.now) }
    requires keys { keys_in keys.now ≡ (plan_view plan.now).keys }
    requires made { made_views [] made.now ≡ steps_made (plan_view plan.now) }
    requires nodes { All (λ m. m.node < length (ids_of_nodes (plan_view plan.now).nodes)) made.now }
    ensures { IfOk result (TellsAbove (ids_of_nodes (plan_view plan.now).nodes) directory.now (standing (plan_view plan.now))) }
{
    let computes = stored_of(alloc, keys, directory, plan, made, false)?;
    let puts = stored_of(alloc, keys, directory, plan, made, true)?;
    Ok(Standing { computes, puts })
}

/// The puts among these, if `put`, and else the computes.
fn stored_of<'p>(
    alloc: Global,
    keys: &StepKeys<'_>,
    directory: &Directory,
    plan: &'p Plan,
    made: &[MadeStep<'p>],
    put: bool,
) -> Result<Vec<Vec<Compute<'p>>>, AllocError>
    requires plan { IsRunnablePlan (plan_view plan.now) }
    requires keys { keys_in keys.now ≡ (plan_view plan.now).keys }
    requires made { made_views [] made.now ≡ steps_made (plan_view plan.now) }
    requires nodes { All (λ m. m.node < length (ids_of_nodes (plan_view plan.now).nodes)) made.now }
    ensures { IfOk result (λ v. AreStored (plan_view plan.now) directory.now put (computes_view v.items)) }
{
    let mut lists = computes_made(alloc, keys, directory, plan, put)?;
    forget_made(alloc, keys, directory, plan.tree(), made, &mut lists)?;
    Ok(lists)
}

/// For each node the puts or computes in its callbacks before all children.
fn computes_made<'p>(
    alloc: Global,
    keys: &StepKeys<'_>,
    directory: &Directory,
    plan: &'p Plan,
    put: bool,
) -> Result<Vec<Vec<Compute<'p>>>, AllocError>
    requires { CallbacksAreFew (plan_view plan.now) }
    ensures { IfOk result (λ v. AreComputed (plan_view plan.now) (keys_in keys.now) directory.now put (length (ids_of_nodes (plan_view plan.now).nodes)) (computes_view v.items)) }
{
    let tree = plan.tree();
    let mut lists = Vec::new(alloc);
    for node in 0..tree.len() {
        let computes = computes_before(alloc, keys, directory, plan, node, put)?;
        lists.push(computes)?;
    }
    Ok(lists)
}

/// The puts or computes in the callbacks before the body of a node, for keys that these don't remove;
/// none, if it has no children.
fn computes_before<'p>(
    alloc: Global,
    keys: &StepKeys<'_>,
    directory: &Directory,
    plan: &'p Plan,
    node: ContextNo,
    put: bool,
) -> Result<Vec<Compute<'p>>, AllocError>
    requires few { CallbacksAreFew (plan_view plan.now) }
    requires node { node < length (ids_of_nodes (plan_view plan.now).nodes) }
    ensures { IfOk result (λ v. children_of (ids_of_nodes (plan_view plan.now).nodes) node ≢ [] → AreLeft (keys_in keys.now) directory.now put (plan_path (plan_view plan.now) node) (steps_before (plan_view plan.now) node) v.items) }
{
    let tree = plan.tree();
    let mut computes = Vec::new(alloc);
    if tree.children(node).is_empty() {
        return Ok(computes);
    }
    let path = path_in(tree, node);
    let calls = calls_before(alloc, plan, node)?;
    note_calls(
        alloc,
        keys,
        directory,
        plan,
        path,
        calls.as_slice(),
        put,
        &mut computes,
    )?;
    forget_calls(
        alloc,
        keys,
        directory,
        plan,
        calls.as_slice(),
        &mut computes,
    )?;
    Ok(computes)
}

/// Notes what the steps of these calls put or compute, in the context with this path.
fn note_calls<'p>(
    alloc: Global,
    keys: &StepKeys<'_>,
    directory: &Directory,
    plan: &'p Plan,
    path: &[ContextNo],
    calls: &[Call],
    put: bool,
    computes: &mut Vec<Compute<'p>>,
) -> Result<(), AllocError>
    ensures { OnOk result (AreFirst (keys_in keys.now) directory.now put path.now [] computes.old.items → AreFirst (keys_in keys.now) directory.now put path.now (map act_of (flat_map (steps_of_call (plan_view plan.now)) calls.now)) computes.new.items) }
{
    for call in calls {
        let steps = plan.steps_of(call);
        note_steps(alloc, keys, directory, path, steps, put, computes)?;
    }
    Ok(())
}

/// Notes what these steps put or compute, in the context with this path.
fn note_steps<'p>(
    alloc: Global,
    keys: &StepKeys<'_>,
    directory: &Directory,
    path: &[ContextNo],
    steps: &'p [Step],
    put: bool,
    computes: &mut Vec<Compute<'p>>,
) -> Result<(), AllocError>
    ensures { OnOk result ((before : List (Option ActText)) → AreFirst (keys_in keys.now) directory.now put path.now before computes.old.items → AreFirst (keys_in keys.now) directory.now put path.now (before ++ map act_of (map step_view steps.now)) computes.new.items) }
{
    for step in steps {
        note_step(alloc, keys, directory, path, step, put, computes)?;
    }
    Ok(())
}

fn note_step<'p>(
    alloc: Global,
    keys: &StepKeys<'_>,
    directory: &Directory,
    path: &[ContextNo],
    step: &'p Step,
    put: bool,
    computes: &mut Vec<Compute<'p>>,
) -> Result<(), AllocError>
    ensures { OnOk result ((before : List (Option ActText)) → AreFirst (keys_in keys.now) directory.now put path.now before computes.old.items → AreFirst (keys_in keys.now) directory.now put path.now (before ++ act_of (step_view step.now) ∷ []) computes.new.items) }
{
    let Some(act) = act_of(step) else {
        return Ok(());
    };
    if !stores(put, act.word) {
        return Ok(());
    }
    let Some(key) = number_in(alloc, keys, directory, act.key)? else {
        return Ok(());
    };
    push_first(compute_of(key, &act, path), computes)?;
    Ok(())
}

/// Notes a value, unless one of its key is noted.
fn push_first<'p>(compute: Compute<'p>, computes: &mut Vec<Compute<'p>>) -> Result<(), AllocError>
    ensures { OnOk result ((key : ℕ) → compute_at computes.new.items key ≡ or_above (compute_at computes.old.items key) (compute_at (compute.entry ∷ []) key)) }
{
    if compute_at(computes.as_slice(), compute.key).is_some() {
        return Ok(());
    }
    computes.push(compute)?;
    Ok(())
}

/// What an act on the key with this number stores, in the context with this path.
fn compute_of<'p>(key: KeyNo, act: &KeyedStep<'p>, path: &[ContextNo]) -> Compute<'p>
    ensures key { result.key ≡ key }
    ensures compute { compute_view result ≡ record { context = start_of (drop (act_view act.now).up path.now); word = as_compute (act_view act.now).word; text = (act_view act.now).text } }
{
    Compute {
        key,
        context: context_up(path, act.up),
        word: as_compute(act.word),
        text: act.text,
    }
}

/// The context `up` contexts up this path.
fn context_up(path: &[ContextNo], up: usize) -> ContextNo
    ensures { result ≡ start_of (drop up path.now) }
{
    path.get(up).copied().unwrap_or(0)
}

/// The number of a key that a step names, if it is in the directory.
fn number_in(
    alloc: Global,
    keys: &StepKeys<'_>,
    directory: &Directory,
    key: &StepKey,
) -> Result<Option<KeyNo>, AllocError>
    ensures { IfOk result (IsNumber directory.now (key_of_step (keys_in keys.now) (step_key_view key.now))) }
{
    let called = keys.key_of(alloc, key)?;
    Ok(directory.number_of(called.key()))
}

// ---- the keys that are removed

/// Forgets the computes of the keys that the steps of these calls remove.
fn forget_calls(
    alloc: Global,
    keys: &StepKeys<'_>,
    directory: &Directory,
    plan: &Plan,
    calls: &[Call],
    computes: &mut Vec<Compute<'_>>,
) -> Result<(), AllocError>
    ensures { OnOk result (AreWithout directory.now (removed_by (keys_in keys.now) (flat_map (steps_of_call (plan_view plan.now)) calls.now)) computes.old.items computes.new.items) }
{
    for call in calls {
        forget_steps(alloc, keys, directory, plan.steps_of(call), computes)?;
    }
    Ok(())
}

/// Forgets the computes of the keys that these steps remove.
fn forget_steps(
    alloc: Global,
    keys: &StepKeys<'_>,
    directory: &Directory,
    steps: &[Step],
    computes: &mut Vec<Compute<'_>>,
) -> Result<(), AllocError>
    ensures { OnOk result (AreWithout directory.now (removed_by (keys_in keys.now) (map step_view steps.now)) computes.old.items computes.new.items) }
{
    for step in steps {
        let key = key_removed(alloc, keys, directory, step)?;
        forget_key(computes, key);
    }
    Ok(())
}

/// Forgets for each node the computes of the keys that these steps remove, if they are of nodes
/// below it and act on its context or above.
fn forget_made(
    alloc: Global,
    keys: &StepKeys<'_>,
    directory: &Directory,
    tree: &Tree,
    made: &[MadeStep<'_>],
    lists: &mut Vec<Vec<Compute<'_>>>,
) -> Result<(), AllocError>
    requires count { vec_len lists.old ≡ length tree.now }
    requires nodes { All (λ m. m.node < length tree.now) made.now }
    ensures { OnOk result (AreWithoutRemoved (keys_in keys.now) directory.now tree.now (map made_view made.now) (computes_view lists.old.items) (computes_view lists.new.items)) }
{
    for step in made {
        let key = key_removed(alloc, keys, directory, step.step)?;
        let path = path_in(tree, step.node);
        forget_past(tree, lists, above(path), context_of(step.step, path), key);
    }
    Ok(())
}

/// The context on which a step of the node with this path acts.
fn context_of(step: &Step, path: &[ContextNo]) -> ContextNo
    ensures { result ≡ context_of path.now (act_of (step_view step.now)) }
{
    match act_of(step) {
        Some(act) => context_up(path, act.up),
        None => 0,
    }
}

/// Forgets for each of these nodes on whose path the context stands the compute of the key with this
/// number.
fn forget_past(
    tree: &Tree,
    lists: &mut Vec<Vec<Compute<'_>>>,
    nodes: &[ContextNo],
    context: ContextNo,
    key: Option<KeyNo>,
)
    requires count { vec_len lists.old ≡ length tree.now }
    requires nodes { All (λ c. c < length tree.now) nodes.now }
    ensures count { vec_len lists.new ≡ vec_len lists.old }
    ensures forgotten { (node number : ℕ) → compute_at (computes_of (computes_view lists.new.items) node) number ≡ unless (is_number key number && list_any (λ c. c == node) nodes.now && list_any (λ c. c == context) (path_of tree.now node)) (compute_at (computes_of (computes_view lists.old.items) node) number) }
{
    for node in nodes {
        let key = key_past(path_in(tree, *node), context, key);
        forget_key(&mut lists[*node], key);
    }
}

/// The number of this key, if the context stands on the path.
fn key_past(path: &[ContextNo], context: ContextNo, key: Option<KeyNo>) -> Option<KeyNo>
    ensures { (number : ℕ) → is_number result number ≡ (is_number key number && list_any (λ c. c == context) path.now) }
{
    if is_on(path, context) {
        return key;
    }
    None
}

/// Tests whether the context stands on the path.
fn is_on(path: &[ContextNo], context: ContextNo) -> bool
    ensures { result ≡ list_any (λ c. c == context) path.now }
{
    path.iter().any(|at| *at == context)
}

/// Forgets the compute of the key with this number. Most steps remove nothing, and no compute is gone
/// over for them.
fn forget_key(computes: &mut Vec<Compute<'_>>, key: Option<KeyNo>)
    ensures { computes.new.items ≡ filter (λ c. not (is_number key c.key)) computes.old.items }
{
    if key.is_some() {
        computes.retain(|compute| !is_of(key, compute));
    }
}

/// Tests whether the compute is of the key with this number.
fn is_of(key: Option<KeyNo>, compute: &Compute<'_>) -> bool
    ensures { result ≡ is_number key compute.now.key }
{
    match key {
        Some(key) => key == compute.key,
        None => false,
    }
}

/// The number of the key that a step removes, if it removes one of the directory.
fn key_removed(
    alloc: Global,
    keys: &StepKeys<'_>,
    directory: &Directory,
    step: &Step,
) -> Result<Option<KeyNo>, AllocError>
    ensures { IfOk result (IsRemoved (keys_in keys.now) directory.now (act_of (step_view step.now))) }
{
    let Some(act) = act_of(step) else {
        return Ok(None);
    };
    if act.word != Word::Remove {
        return Ok(None);
    }
    let number = number_in(alloc, keys, directory, act.key)?;
    Ok(number)
}
