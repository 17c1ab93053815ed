//! A plan's notes as JSON.
ghost use Rattle.std.specs.Prelude.{◌≡◌, ◌++◌, ◌∷◌, [], length, map, nat_lt, take, IfOk, OnOk};
ghost use Rattle.std.specs.List.{flat_map};
ghost use Rattle.json.specs.Print.{print};
ghost use Rattle.ext_plan.specs.Plans.{plan_view};
ghost use Rattle.ext_races.specs.RaceLines.{line_limit};
ghost use Rattle.ext_lint.specs.InnerLists.{note_view, said_view};
ghost use Rattle.ext_lint.specs.NoteJson.{node_of_note, node_value, note_object, notes_json, notes_object};

use crate::note::Note;
use crate::said::Said;
use crate::text::{LINES, push_id, push_words};
use ext_model::ContextNo;
use ext_plan::Plan;
use json::Writer;
use std::alloc::{AllocError, Global};

/// These notes as an object of JSON on a line, as UTF-8 bytes, where steps store what is in `stored`.
pub(crate) fn json_of(
    alloc: Global,
    plan: &Plan,
    stored: &[Said<'_>],
    notes: &[Note<'_>],
) -> Result<Vec<u8>, AllocError>
    ensures { IfOk result (λ bytes. bytes.items ≡ notes_json (plan_view plan.now) (map said_view stored.now) (map note_view notes.now)) }
{
    let mut object = object_of(alloc, plan, stored, notes)?;
    object.push(b'\n')?;
    Ok(object)
}

#[tactic(auto, unfolding(crate::specs::NoteJson::notes_object))]
fn object_of(
    alloc: Global,
    plan: &Plan,
    stored: &[Said<'_>],
    notes: &[Note<'_>],
) -> Result<Vec<u8>, AllocError>
    ensures { IfOk result (λ text. text.items ≡ print (notes_object (plan_view plan.now) (map said_view stored.now) (map note_view notes.now))) }
{
    let mut writer = Writer::new(Vec::new(alloc));
    writer.begin_object()?;
    writer.key("notes")?;
    writer.begin_array()?;
    write_notes(&mut writer, alloc, plan, stored, first_of(notes))?;
    writer.end_array()?;
    writer.key("more")?;
    writer.boolean(has_more(notes))?;
    writer.end_object()?;
    Ok(writer.into_inner())
}

/// The first 20 of these notes.
fn first_of<'a, 'p>(notes: &'a [Note<'p>]) -> &'a [Note<'p>]
    ensures { map note_view result.now ≡ take line_limit (map note_view notes.now) }
{
    &notes[..notes.len().min(LINES)]
}

/// Tests whether there are more notes than are written.
fn has_more(notes: &[Note<'_>]) -> bool
    ensures { result ≡ nat_lt line_limit (length (map note_view notes.now)) }
{
    notes.len() > LINES
}

/// Writes the objects of these notes.
fn write_notes(
    writer: &mut Writer,
    alloc: Global,
    plan: &Plan,
    stored: &[Said<'_>],
    notes: &[Note<'_>],
) -> Result<(), AllocError>
    ensures before { OnOk result (writer.new.before ≡ writer.old.before) }
    ensures tokens { OnOk result
        (writer.new.tokens ≡ writer.old.tokens ++ flat_map (note_object (plan_view plan.now) (map said_view stored.now)) (map note_view notes.now)) }
{
    for note in notes {
        write_note(writer, alloc, plan, stored, note)?;
    }
    Ok(())
}

#[tactic(auto, unfolding(crate::specs::NoteJson::note_object))]
fn write_note(
    writer: &mut Writer,
    alloc: Global,
    plan: &Plan,
    stored: &[Said<'_>],
    note: &Note<'_>,
) -> Result<(), AllocError>
    ensures before { OnOk result (writer.new.before ≡ writer.old.before) }
    ensures tokens { OnOk result
        (writer.new.tokens ≡ writer.old.tokens ++ note_object (plan_view plan.now) (map said_view stored.now) (note_view note.now)) }
{
    writer.begin_object()?;
    writer.key("node")?;
    write_node(writer, alloc, plan, node_of(note))?;
    writer.key("text")?;
    let mut text = String::new(alloc);
    push_words(alloc, &mut text, plan, stored, note)?;
    writer.string(text.as_str())?;
    writer.end_object()
}

/// Writes the id of a node, or null.
fn write_node(
    writer: &mut Writer,
    alloc: Global,
    plan: &Plan,
    node: Option<ContextNo>,
) -> Result<(), AllocError>
    ensures before { OnOk result (writer.new.before ≡ writer.old.before) }
    ensures tokens { OnOk result (writer.new.tokens ≡ writer.old.tokens ++ node_value (plan_view plan.now) node ∷ []) }
{
    match node {
        None => writer.null(),
        Some(node) => {
            let mut id = String::new(alloc);
            push_id(&mut id, plan, node)?;
            writer.string(id.as_str())
        }
    }
}

/// The node of which a note is.
fn node_of(note: &Note<'_>) -> Option<ContextNo>
    ensures { result ≡ node_of_note (note_view note.now) }
{
    match note {
        Note::Idle(step) | Note::Missing(step, _) | Note::Uneven(step) => Some(step.node),
        Note::Empty(call) => Some(call.from),
        Note::Solitary(node) => Some(*node),
        Note::Untested | Note::Unnamed(_) | Note::Crowded | Note::Lone(_) => None,
    }
}
