//! The notes of a plan, in order.
ghost use Rattle.std.specs.Prelude.{ℕ, ◌≡◌, ◌++◌, ◌&&◌, ◌==◌, All, List, Some, is_some, map, IfOk, OnOk};
ghost use Rattle.std.specs.List.{count_by, flat_map, list_any};
ghost use Rattle.std.specs.Str.{bytes_eq};
ghost use Rattle.ext_plan.specs.LockNames.{lock_name};
ghost use Rattle.ext_plan.specs.Plans.{key_view, keys_view, lock_view, node_view, nodes_view, plan_view, step_view};
ghost use Rattle.ext_plan.specs.StoreKeys.{HasParts, is_there};
ghost use Rattle.ext_plan_reading.specs.Nearest.{nearest};
ghost use Rattle.ext_lint.specs.InnerLists.{declared_in, has, has_node, note_view, said_view};
ghost use Rattle.ext_lint.specs.Live.{has_test};
ghost use Rattle.ext_lint.specs.Notes.{crowd_notes, is_idle, is_lone, key_note, key_notes, lock_note, lock_notes, missing_if, names_lock, notes_of_step, stored_by, test_notes};
ghost use Rattle.ext_lint.specs.NodeSteps.{node_step_view, node_steps};
ghost use Rattle.ext_lint.specs.Said.{is_key_said, is_said, keys_said, said_of};

use crate::node_step::NodeStep;
use crate::note::Note;
use crate::said::{Said, asks, wants};
use crate::said_set::SaidSet;
use crate::speech::Speech;
use crate::text::names_of;
use ext_model::{ContextNo, KeyNo};
use ext_plan::{Plan, PlanKey, PlanLock, PlanNode};
use ext_plan_reading::nearest;
use ext_tree::{Directory, Key};
use std::alloc::{AllocError, Global};
use std::collections::BTreeSet;

/// What the notes of a plan's steps go by: what the steps say, the nodes with tests, and what the
/// steps store, as a set and in order.
#[derive(Drop)]
pub(crate) struct StepRules<'p> {
    plan: &'p Plan,
    speech: Speech<'p>,
    live: BTreeSet<ContextNo>,
    stored: SaidSet<'p>,
    said: Vec<Said<'p>>,
    ghost declared: { declared_in speech ≡ (plan_view plan.now).keys },
    ghost keys: { speech.directory.now ≡ keys_said (plan_view plan.now) },
    ghost tests: { (node : ℕ) → has_node live node ≡ has_test (plan_view plan.now) node },
    ghost known: { (key : ℕ) (text : List ℕ) → has stored key text ≡ is_said (stored_by (plan_view plan.now) (node_steps (plan_view plan.now))) key text },
    ghost in_order: { map said_view said.items ≡ stored_by (plan_view plan.now) (node_steps (plan_view plan.now)) },
}

impl<'p> StepRules<'p> {
    ghost use Rattle.std.specs.Prelude.{◌||◌};
    ghost use Rattle.ext_lint.specs.Notes.{idle_if, is_known, is_met_by, step_notes};
    ghost use Rattle.ext_lint.specs.Said.{asks, said_if};

    /// Joins what the notes of this plan's steps go by.
    pub(crate) fn of(
        plan: &'p Plan,
        speech: Speech<'p>,
        live: BTreeSet<ContextNo>,
        stored: SaidSet<'p>,
        said: Vec<Said<'p>>,
    ) -> StepRules<'p>
        requires declared { declared_in speech ≡ (plan_view plan.now).keys }
        requires keys { speech.directory.now ≡ keys_said (plan_view plan.now) }
        requires tests { (node : ℕ) → has_node live node ≡ has_test (plan_view plan.now) node }
        requires known { (key : ℕ) (text : List ℕ) → has stored key text ≡ is_said (stored_by (plan_view plan.now) (node_steps (plan_view plan.now))) key text }
        requires in_order { map said_view said.items ≡ stored_by (plan_view plan.now) (node_steps (plan_view plan.now)) }
        ensures { result.plan.now ≡ plan.now }
    {
        StepRules {
            plan,
            speech,
            live,
            stored,
            said,
        }
    }

    /// Returns what the plan's steps store, in order.
    pub(crate) fn stored(&self) -> &[Said<'p>]
        ensures { map said_view result.now ≡ stored_by (plan_view self.now.plan.now) (node_steps (plan_view self.now.plan.now)) }
    {
        self.said.as_slice()
    }

    /// Adds the notes of the plan's steps, in order. Takes memory for them and for what the steps
    /// ask for.
    pub(crate) fn note_steps(
        &self,
        alloc: Global,
        steps: &[NodeStep<'p>],
        notes: &mut Vec<Note<'p>>,
    ) -> Result<(), AllocError>
        requires { map node_step_view steps.now ≡ node_steps (plan_view self.now.plan.now) }
        ensures { OnOk result (map note_view notes.new.items ≡ map note_view notes.old.items ++ step_notes (plan_view self.now.plan.now)) }
    {
        let mut asked = SaidSet::new(alloc);
        for node_step in steps {
            self.note_step(alloc, node_step, &mut asked, notes)?;
        }
        Ok(())
    }

    /// Adds the notes of a step, and what it asks for.
    fn note_step(
        &self,
        alloc: Global,
        node_step: &NodeStep<'p>,
        asked: &mut SaidSet<'p>,
        notes: &mut Vec<Note<'p>>,
    ) -> Result<(), AllocError>
        ensures notes { OnOk result (map note_view notes.new.items ≡ map note_view notes.old.items ++ notes_of_step (plan_view self.now.plan.now) (has asked.old) (node_step_view node_step.now)) }
        ensures asked { OnOk result ((key : ℕ) (text : List ℕ) → has asked.new key text ≡ (is_said (said_if asks (said_of (plan_view self.now.plan.now).keys (keys_said (plan_view self.now.plan.now)) (step_view node_step.now.step.now))) key text || has asked.old key text)) }
    {
        self.note_idle(node_step, notes)?;
        match self.speech.said_of(alloc, node_step.step)? {
            None => Ok(()),
            Some(said) => self.note_said(alloc, node_step, said, asked, notes),
        }
    }

    /// Adds the note of a callback that begins with this step and runs for no test.
    fn note_idle(
        &self,
        node_step: &NodeStep<'p>,
        notes: &mut Vec<Note<'p>>,
    ) -> Result<(), AllocError>
        ensures { OnOk result (map note_view notes.new.items ≡ map note_view notes.old.items ++ idle_if (plan_view self.now.plan.now) (node_step_view node_step.now)) }
    {
        if self.is_idle(node_step) {
            notes.push(Note::Idle(*node_step))?;
        }
        Ok(())
    }

    /// Tests whether the step begins a callback without a test at or below its node.
    fn is_idle(&self, node_step: &NodeStep<'_>) -> bool
        ensures { result ≡ is_idle (plan_view self.now.plan.now) (node_step_view node_step.now) }
    {
        node_step.at == 0 && !self.live.contains(&node_step.node)
    }

    /// Adds the note of a step that asks for what no step stores, for the first time, and what it
    /// asks for.
    fn note_said(
        &self,
        alloc: Global,
        node_step: &NodeStep<'p>,
        said: Said<'p>,
        asked: &mut SaidSet<'p>,
        notes: &mut Vec<Note<'p>>,
    ) -> Result<(), AllocError>
        ensures notes { OnOk result (map note_view notes.new.items ≡ map note_view notes.old.items ++ missing_if (plan_view self.now.plan.now) (has asked.old) (node_step_view node_step.now) (Some (said_view said.entry))) }
        ensures asked { OnOk result ((key : ℕ) (text : List ℕ) → has asked.new key text ≡ (is_said (said_if asks (Some (said_view said.entry))) key text || has asked.old key text)) }
    {
        if !asks(said.word) {
            return Ok(());
        }
        if !self.is_known(alloc, &said, asked)? {
            notes.push(Note::Missing(*node_step, said))?;
        }
        asked.add(said.key, said.text)
    }

    /// Tests whether what is said is among what was asked for, or the steps meet it.
    fn is_known(
        &self,
        alloc: Global,
        said: &Said<'p>,
        asked: &SaidSet<'p>,
    ) -> Result<bool, AllocError>
        ensures { IfOk result (λ known. known ≡ is_known (plan_view self.now.plan.now) (has asked.now) (said_view said.now)) }
    {
        if asked.has(said.key, said.text) {
            return Ok(true);
        }
        self.is_met(alloc, said)
    }

    /// Tests whether a step stores what is wanted; or, for a key alone, whether one stores under it,
    /// or none does under a near name.
    fn is_met(&self, alloc: Global, said: &Said<'p>) -> Result<bool, AllocError>
        ensures { IfOk result (λ met. met ≡ is_met_by (stored_by (plan_view self.now.plan.now) (node_steps (plan_view self.now.plan.now))) (said_view said.now)) }
    {
        if wants(said.word) {
            return Ok(self.stored.has(said.key, said.text));
        }
        if is_key_said(self.said.as_slice(), said.key) {
            return Ok(true);
        }
        Ok(!is_near(alloc, self.said.as_slice(), said.name)?)
    }
}

/// Tests whether something is said of this key.
fn is_key_said(said: &[Said<'_>], key: KeyNo) -> bool
    ensures { result ≡ is_key_said (map said_view said.now) key }
{
    any_of_key(said, key)
}

/// The same, by what is said as it lies in memory.
fn any_of_key(said: &[Said<'_>], key: KeyNo) -> bool
    ensures { result ≡ list_any (λ s. (said_view s).key == key) said.now }
{
    said.iter().any(|one| one.key == key)
}

/// Tests whether one of the keys of which something is said has a near name. Takes memory for their
/// names.
fn is_near(alloc: Global, said: &[Said<'_>], name: &str) -> Result<bool, AllocError>
    ensures { IfOk result (λ near. near ≡ is_some (nearest (map (λ other. other.name) (map said_view said.now)) name.now)) }
{
    let names = names_of(alloc, said)?;
    Ok(has_near(names.as_slice(), name))
}

fn has_near(names: &[&str], name: &str) -> bool
    ensures { result ≡ is_some (nearest (map (λ n. n.now) names.now) name.now) }
{
    nearest(names, name).is_some()
}

/// Adds a note if none of the nodes is a test.
pub(crate) fn note_tests(nodes: &[PlanNode], notes: &mut Vec<Note<'_>>) -> Result<(), AllocError>
    ensures { OnOk result (map note_view notes.new.items ≡ map note_view notes.old.items ++ test_notes (nodes_view nodes.now)) }
{
    if !has_test(nodes) {
        notes.push(Note::Untested)?;
    }
    Ok(())
}

/// Tests whether one of the nodes is a test.
fn has_test(nodes: &[PlanNode]) -> bool
    ensures { result ≡ list_any (λ node. is_some node.test) (nodes_view nodes.now) }
{
    any_test(nodes)
}

/// The same, by the nodes as they lie in memory.
fn any_test(nodes: &[PlanNode]) -> bool
    ensures { result ≡ list_any (λ node. is_some (node_view node).test) nodes.now }
{
    nodes.iter().any(|node| is_test(node))
}

/// Adds a note for each of the declared keys that no step names. Takes memory for the keys, one at a
/// time.
pub(crate) fn note_keys<'p>(
    alloc: Global,
    keys: &'p [PlanKey],
    directory: &Directory,
    notes: &mut Vec<Note<'p>>,
) -> Result<(), AllocError>
    requires { All HasParts (keys_view keys.now) }
    ensures { OnOk result (map note_view notes.new.items ≡ map note_view notes.old.items ++ key_notes directory.now (keys_view keys.now)) }
{
    for key in keys {
        note_key(alloc, key, directory, notes)?;
    }
    Ok(())
}

/// Adds a note for a declared key that no step names.
fn note_key<'p>(
    alloc: Global,
    key: &'p PlanKey,
    directory: &Directory,
    notes: &mut Vec<Note<'p>>,
) -> Result<(), AllocError>
    requires { HasParts (key_view key.now) }
    ensures { OnOk result (map note_view notes.new.items ≡ map note_view notes.old.items ++ key_note directory.now (key_view key.now)) }
{
    let Ok(made) = key.store_key(alloc) else {
        return Err(AllocError);
    };
    if !is_there(directory, &made) {
        notes.push(Note::Unnamed(key.label.as_str()))?;
    }
    Ok(())
}

/// Tests whether the directory has the key.
fn is_there(directory: &Directory, key: &Key) -> bool
    ensures { result ≡ is_there directory.now key.now }
{
    directory.number_of(key).is_some()
}

/// Adds a note where the steps name more keys than there are places.
pub(crate) fn note_crowd(
    node_steps: usize,
    directory: &Directory,
    notes: &mut Vec<Note<'_>>,
) -> Result<(), AllocError>
    ensures { OnOk result (map note_view notes.new.items ≡ map note_view notes.old.items ++ crowd_notes node_steps directory.now) }
{
    if directory.len() > node_steps {
        notes.push(Note::Crowded)?;
    }
    Ok(())
}

/// Adds a note for each lock that one test alone names. Takes memory for the names.
pub(crate) fn note_locks<'p>(
    alloc: Global,
    plan: &'p Plan,
    notes: &mut Vec<Note<'p>>,
) -> Result<(), AllocError>
    ensures { OnOk result (map note_view notes.new.items ≡ map note_view notes.old.items ++ lock_notes (plan_view plan.now).nodes) }
{
    let names = plan.lock_names(alloc)?;
    note_names(plan.nodes.as_slice(), names.as_slice(), notes)
}

/// Adds a note for each of these locks that one test alone names.
fn note_names<'p>(
    nodes: &[PlanNode],
    names: &[&'p str],
    notes: &mut Vec<Note<'p>>,
) -> Result<(), AllocError>
    ensures { OnOk result (map note_view notes.new.items ≡ map note_view notes.old.items ++ flat_map (lock_note (nodes_view nodes.now)) (map (λ n. n.now) names.now)) }
{
    for name in names {
        note_name(nodes, name, notes)?;
    }
    Ok(())
}

/// Adds a note for a lock that one test alone names.
fn note_name<'p>(
    nodes: &[PlanNode],
    name: &'p str,
    notes: &mut Vec<Note<'p>>,
) -> Result<(), AllocError>
    ensures { OnOk result (map note_view notes.new.items ≡ map note_view notes.old.items ++ lock_note (nodes_view nodes.now) name.now) }
{
    if is_lone(nodes, name) {
        notes.push(Note::Lone(name))?;
    }
    Ok(())
}

/// Tests whether one of the nodes alone names the lock, and is a test.
fn is_lone(nodes: &[PlanNode], name: &str) -> bool
    ensures { result ≡ is_lone (nodes_view nodes.now) name.now }
{
    count_of(nodes, name) == 1 && is_named_by_test(nodes, name)
}

/// Counts the nodes that name the lock.
fn count_of(nodes: &[PlanNode], name: &str) -> usize
    ensures { result ≡ count_by (names_lock name.now) (nodes_view nodes.now) }
{
    nodes.iter().filter(|node| names_lock(node, name)).count()
}

/// Tests whether one of the nodes is a test and names the lock.
fn is_named_by_test(nodes: &[PlanNode], name: &str) -> bool
    ensures { result ≡ list_any (λ node. is_some node.test && names_lock name.now node) (nodes_view nodes.now) }
{
    any_test_names(nodes, name)
}

/// The same, by the nodes as they lie in memory.
fn any_test_names(nodes: &[PlanNode], name: &str) -> bool
    ensures { result ≡ list_any (λ node. is_some (node_view node).test && names_lock name.now (node_view node)) nodes.now }
{
    nodes
        .iter()
        .any(|node| is_test(node) && names_lock(node, name))
}

/// Tests whether the node is a test.
fn is_test(node: &PlanNode) -> bool
    ensures { result ≡ is_some (node_view node.now).test }
{
    match &node.test {
        Some(_) => true,
        None => false,
    }
}

/// Tests whether the node names the lock.
fn names_lock(node: &PlanNode, name: &str) -> bool
    ensures { result ≡ names_lock name.now (node_view node.now) }
{
    is_named(node.locks.as_slice(), name)
}

/// Tests whether one of the locks has this name.
fn is_named(locks: &[PlanLock], name: &str) -> bool
    ensures { result ≡ list_any (λ lock. bytes_eq name.now (lock_name (lock_view lock))) locks.now }
{
    locks.iter().any(|lock| name == lock.name())
}
