//! The notes of callbacks and tests without steps.
ghost use Rattle.std.specs.Prelude.{◌≡◌, ◌++◌, map, option_map, OnOk};
ghost use Rattle.ext_plan.specs.Plans.{node_view, plan_view, step_view, steps_view};
ghost use Rattle.ext_lint.specs.InnerLists.{note_view};
ghost use Rattle.ext_lint.specs.Notes.{callback_notes, empty_if, empty_of_kind, empty_of_node, empty_of_test};

use crate::note::Note;
use ext_lifecycle::{Call, Kind};
use ext_model::ContextNo;
use ext_plan::{Plan, PlanNode, Step};
use std::alloc::AllocError;

/// Adds a note for each callback and test without steps, in the order of the plan.
pub(crate) fn note_callbacks(plan: &Plan, notes: &mut Vec<Note<'_>>) -> Result<(), AllocError>
    ensures { OnOk result (map note_view notes.new.items ≡ map note_view notes.old.items ++ callback_notes (plan_view plan.now)) }
{
    for (number, node) in plan.nodes.iter().enumerate() {
        note_node(number, node, notes)?;
    }
    Ok(())
}

/// Adds the notes of a node's callbacks and test without steps.
fn note_node(
    number: ContextNo,
    node: &PlanNode,
    notes: &mut Vec<Note<'_>>,
) -> Result<(), AllocError>
    ensures { OnOk result (map note_view notes.new.items ≡ map note_view notes.old.items ++ empty_of_node number (node_view node.now)) }
{
    note_kind(number, Kind::BeforeAll, node.before_all.as_slice(), notes)?;
    note_kind(number, Kind::BeforeEach, node.before_each.as_slice(), notes)?;
    note_test(number, &node.test, notes)?;
    note_kind(number, Kind::AfterEach, node.after_each.as_slice(), notes)?;
    note_kind(number, Kind::AfterAll, node.after_all.as_slice(), notes)
}

/// Adds the notes of those of a node's callbacks of one kind that have no steps.
fn note_kind(
    from: ContextNo,
    kind: Kind,
    callbacks: &[Vec<Step>],
    notes: &mut Vec<Note<'_>>,
) -> Result<(), AllocError>
    ensures { OnOk result (map note_view notes.new.items ≡ map note_view notes.old.items ++ empty_of_kind from kind (map steps_view callbacks.now)) }
{
    for (index, steps) in callbacks.iter().enumerate() {
        note_callback(Call { kind, from, index }, steps.as_slice(), notes)?;
    }
    Ok(())
}

/// Adds the note of a node's test, if it is one and has no steps.
fn note_test(
    from: ContextNo,
    test: &Option<Vec<Step>>,
    notes: &mut Vec<Note<'_>>,
) -> Result<(), AllocError>
    ensures { OnOk result (map note_view notes.new.items ≡ map note_view notes.old.items ++ empty_of_test from (option_map steps_view test.now)) }
{
    match test {
        None => Ok(()),
        Some(steps) => {
            let kind = Kind::Test;
            note_callback(
                Call {
                    kind,
                    from,
                    index: 0,
                },
                steps.as_slice(),
                notes,
            )
        }
    }
}

/// Adds the note of a callback or test, if it has no steps.
fn note_callback(call: Call, steps: &[Step], notes: &mut Vec<Note<'_>>) -> Result<(), AllocError>
    ensures { OnOk result (map note_view notes.new.items ≡ map note_view notes.old.items ++ empty_if call (map step_view steps.now)) }
{
    if steps.is_empty() {
        notes.push(Note::Empty(call))?;
    }
    Ok(())
}
