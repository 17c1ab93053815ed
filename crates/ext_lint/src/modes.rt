//! Nodes that are concurrent with nothing beside them.
ghost use Rattle.std.specs.Prelude.{◌≡◌, ◌<◌, ◌++◌, length, map, OnOk};
ghost use Rattle.std.specs.List.{count_by, flat_map, list_any};
ghost use Rattle.ext_plan.specs.PlanCalls.{concurrent_of};
ghost use Rattle.ext_plan.specs.Plans.{plan_view};
ghost use Rattle.ext_lint.specs.InnerLists.{note_view};
ghost use Rattle.ext_lint.specs.Notes.{is_solitary, mode_notes, sibling_notes, solitary_if};

use crate::note::Note;
use ext_model::ContextNo;
use ext_plan::Plan;
use std::alloc::AllocError;

/// Adds a note for each node that is concurrent, if neither another child of its parent nor one of
/// its own is.
pub(crate) fn note_modes(plan: &Plan, notes: &mut Vec<Note<'_>>) -> Result<(), AllocError>
    ensures { OnOk result (map note_view notes.new.items ≡ map note_view notes.old.items ++ mode_notes (plan_view plan.now)) }
{
    note_siblings(plan, &[0], notes)?;
    let tree = plan.tree();
    for (number, _) in plan.nodes.iter().enumerate() {
        note_siblings(plan, tree.children(number), notes)?;
    }
    Ok(())
}

/// Adds the note of the only concurrent one of these nodes, which have one parent.
fn note_siblings(
    plan: &Plan,
    siblings: &[ContextNo],
    notes: &mut Vec<Note<'_>>,
) -> Result<(), AllocError>
    ensures { OnOk result (map note_view notes.new.items ≡ map note_view notes.old.items ++ sibling_notes (plan_view plan.now) siblings.now) }
{
    if count_of(plan, siblings) != 1 {
        return Ok(());
    }
    for node in siblings {
        note_node(plan, *node, notes)?;
    }
    Ok(())
}

/// Counts the concurrent ones of these nodes.
fn count_of(plan: &Plan, nodes: &[ContextNo]) -> usize
    ensures { result ≡ count_by (concurrent_of (plan_view plan.now)) nodes.now }
{
    nodes
        .iter()
        .filter(|node| plan.mode(**node).is_concurrent())
        .count()
}

/// Adds the note of a node, if it is concurrent and none of its children is.
fn note_node(plan: &Plan, node: ContextNo, notes: &mut Vec<Note<'_>>) -> Result<(), AllocError>
    ensures { OnOk result (map note_view notes.new.items ≡ map note_view notes.old.items ++ solitary_if (plan_view plan.now) node) }
{
    if is_solitary(plan, node) {
        notes.push(Note::Solitary(node))?;
    }
    Ok(())
}

/// Tests whether the node is concurrent, and none of its children is.
fn is_solitary(plan: &Plan, node: ContextNo) -> bool
    ensures { result ≡ is_solitary (plan_view plan.now) node }
{
    if node >= plan.nodes.len() {
        return false;
    }
    plan.mode(node).is_concurrent() && !any_concurrent(plan, plan.tree().children(node))
}

/// Tests whether one of these nodes is concurrent.
fn any_concurrent(plan: &Plan, nodes: &[ContextNo]) -> bool
    ensures { result ≡ list_any (concurrent_of (plan_view plan.now)) nodes.now }
{
    nodes.iter().any(|node| plan.mode(*node).is_concurrent())
}
