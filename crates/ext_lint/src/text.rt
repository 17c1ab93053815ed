//! The lines of a plan's notes.
ghost use Rattle.std.specs.Prelude.{◌≡◌, ◌++◌, [], codes, length, map, nat_lt, option_map, string_bytes, take, if◌then◌else◌, IfOk, OnOk};
ghost use Rattle.std.specs.Fmt.{decimal};
ghost use Rattle.std.specs.List.{flat_map};
ghost use Rattle.ext_plan.specs.Plans.{plan_view};
ghost use Rattle.ext_races.specs.RaceLines.{id_of_node, line_limit};
ghost use Rattle.ext_lint.specs.InnerLists.{note_view, said_view};
ghost use Rattle.ext_lint.specs.NoteLines.{asked_words, call_words, callback_note, hint, missing_note, missing_words, note_line, note_lines, note_words, node_step_words, texts_of};
ghost use Rattle.ext_lint.specs.NodeSteps.{node_step_view};

use crate::height_text::push_uneven;
use crate::node_step::NodeStep;
use crate::note::Note;
use crate::said::{Said, wants};
use ext_lifecycle::{Call, Kind};
use ext_model::{ContextNo, KeyNo};
use ext_plan::Plan;
use ext_plan_reading::nearest;
use std::alloc::{AllocError, Global};

/// How many notes the text lists.
pub(crate) const LINES: usize = 20;

/// The lines of these notes, where steps store what is in `stored`.
pub(crate) fn text_of(
    alloc: Global,
    plan: &Plan,
    stored: &[Said<'_>],
    notes: &[Note<'_>],
) -> Result<String, AllocError>
    ensures { IfOk result (λ text. string_bytes text ≡ note_lines (plan_view plan.now) (map said_view stored.now) (map note_view notes.now)) }
{
    if notes.is_empty() {
        return String::from_str(alloc, "nothing to note\n");
    }
    let mut text = String::new(alloc);
    push_first(alloc, &mut text, plan, stored, notes)?;
    Ok(text)
}

/// Adds the lines of the first 20 of these notes, and that there are more.
fn push_first(
    alloc: Global,
    text: &mut String,
    plan: &Plan,
    stored: &[Said<'_>],
    notes: &[Note<'_>],
) -> Result<(), AllocError>
    ensures { OnOk result (string_bytes text.new ≡ string_bytes text.old ++ (flat_map (note_line (plan_view plan.now) (map said_view stored.now)) (take line_limit (map note_view notes.now)) ++ (if nat_lt line_limit (length (map note_view notes.now)) then codes "and more\n" else []))) }
{
    if notes.len() > LINES {
        push_notes(alloc, text, plan, stored, &notes[..LINES])?;
        return text.push_str("and more\n");
    }
    push_notes(alloc, text, plan, stored, notes)
}

/// Adds the lines of these notes.
fn push_notes(
    alloc: Global,
    text: &mut String,
    plan: &Plan,
    stored: &[Said<'_>],
    notes: &[Note<'_>],
) -> Result<(), AllocError>
    ensures { OnOk result (string_bytes text.new ≡ string_bytes text.old ++ flat_map (note_line (plan_view plan.now) (map said_view stored.now)) (map note_view notes.now)) }
{
    for note in notes {
        push_note(alloc, text, plan, stored, note)?;
    }
    Ok(())
}

/// Adds the line of a note.
fn push_note(
    alloc: Global,
    text: &mut String,
    plan: &Plan,
    stored: &[Said<'_>],
    note: &Note<'_>,
) -> Result<(), AllocError>
    ensures { OnOk result (string_bytes text.new ≡ string_bytes text.old ++ note_line (plan_view plan.now) (map said_view stored.now) (note_view note.now)) }
{
    push_words(alloc, text, plan, stored, note)?;
    text.push_str("\n")
}

/// Adds what a note says.
pub(crate) fn push_words(
    alloc: Global,
    text: &mut String,
    plan: &Plan,
    stored: &[Said<'_>],
    note: &Note<'_>,
) -> Result<(), AllocError>
    ensures { OnOk result (string_bytes text.new ≡ string_bytes text.old ++ note_words (plan_view plan.now) (map said_view stored.now) (note_view note.now)) }
{
    match note {
        Note::Idle(node_step) => push_callback(text, plan, node_step.call(), "no test is below"),
        Note::Missing(node_step, said) => push_missing(alloc, text, plan, stored, node_step, said),
        Note::Uneven(node_step) => push_uneven(text, plan, node_step),
        Note::Empty(call) => push_callback(text, plan, *call, "it has no steps"),
        Note::Untested => text.push_str("the plan: it has no test"),
        Note::Solitary(node) => push_solitary(text, plan, *node),
        Note::Unnamed(label) => push_named(text, "key ", label, ": no step names it"),
        Note::Crowded => push_crowded(text, plan.key_places),
        Note::Lone(name) => push_named(text, "lock ", name, ": one test alone takes it"),
    }
}

/// Adds that a node is concurrent, and no node beside it.
fn push_solitary(text: &mut String, plan: &Plan, node: ContextNo) -> Result<(), AllocError>
    ensures { OnOk result (string_bytes text.new ≡ string_bytes text.old ++ (id_of_node (plan_view plan.now) node ++ codes ": its mode is concurrent, and that of no node beside it")) }
{
    push_id(text, plan, node)?;
    text.push_str(": its mode is concurrent, and that of no node beside it")
}

/// Adds a name between two texts.
fn push_named(text: &mut String, before: &str, name: &str, after: &str) -> Result<(), AllocError>
    ensures { OnOk result (string_bytes text.new ≡ string_bytes text.old ++ (before.now ++ name.now ++ after.now)) }
{
    text.push_str(before)?;
    text.push_str(name)?;
    text.push_str(after)
}

/// Adds that the steps name more keys than there are places for.
fn push_crowded(text: &mut String, places: usize) -> Result<(), AllocError>
    ensures { OnOk result (string_bytes text.new ≡ string_bytes text.old ++ (codes "the steps name more than " ++ decimal places ++ codes " keys")) }
{
    write!(text, "the steps name more than {places} keys")
}

/// Adds what is noted of a callback, with these words at the end.
fn push_callback(text: &mut String, plan: &Plan, call: Call, end: &str) -> Result<(), AllocError>
    ensures { OnOk result (string_bytes text.new ≡ string_bytes text.old ++ callback_note (plan_view plan.now) call end.now) }
{
    push_id(text, plan, call.from)?;
    text.push_str(": ")?;
    push_call(text, call.kind, call.index)?;
    text.push_str(": ")?;
    text.push_str(end)
}

/// Adds that a step asks for what no step stores.
fn push_missing(
    alloc: Global,
    text: &mut String,
    plan: &Plan,
    stored: &[Said<'_>],
    node_step: &NodeStep<'_>,
    said: &Said<'_>,
) -> Result<(), AllocError>
    ensures { OnOk result (string_bytes text.new ≡ string_bytes text.old ++ missing_note (plan_view plan.now) (map said_view stored.now) (node_step_view node_step.now) (said_view said.now)) }
{
    push_node_step(text, plan, node_step)?;
    text.push_str(", ")?;
    push_asked(text, said)?;
    text.push_str(": ")?;
    push_why(alloc, text, stored, said)
}

/// Adds what a step asks for.
fn push_asked(text: &mut String, said: &Said<'_>) -> Result<(), AllocError>
    ensures { OnOk result (string_bytes text.new ≡ string_bytes text.old ++ asked_words (said_view said.now)) }
{
    push_named(text, said.word.text(), " ", said.name)?;
    if wants(said.word) {
        text.push_str(" ")?;
        text.push_str(said.text)?;
    }
    Ok(())
}

/// Adds the words for a step of a callback or of a test.
pub(crate) fn push_node_step(
    text: &mut String,
    plan: &Plan,
    node_step: &NodeStep<'_>,
) -> Result<(), AllocError>
    ensures { OnOk result (string_bytes text.new ≡ string_bytes text.old ++ node_step_words (plan_view plan.now) (node_step_view node_step.now)) }
{
    push_id(text, plan, node_step.node)?;
    push_step(text, node_step.at)?;
    push_call(text, node_step.kind, node_step.index)
}

/// Adds the words for the number of a step.
fn push_step(text: &mut String, at: usize) -> Result<(), AllocError>
    ensures { OnOk result (string_bytes text.new ≡ string_bytes text.old ++ codes ": step " ++ decimal at ++ codes " of its ") }
{
    write!(text, ": step {at} of its ")
}

/// Adds the words for a callback or a test.
fn push_call(text: &mut String, kind: Kind, index: usize) -> Result<(), AllocError>
    ensures { OnOk result (string_bytes text.new ≡ string_bytes text.old ++ call_words kind index) }
{
    match kind {
        Kind::BeforeAll => write!(text, "before_all {index}"),
        Kind::BeforeEach => write!(text, "before_each {index}"),
        Kind::Test => text.push_str("test"),
        Kind::AfterEach => write!(text, "after_each {index}"),
        Kind::AfterAll => write!(text, "after_all {index}"),
    }
}

/// Adds why a text is missing.
fn push_why(
    alloc: Global,
    text: &mut String,
    stored: &[Said<'_>],
    said: &Said<'_>,
) -> Result<(), AllocError>
    ensures { OnOk result (string_bytes text.new ≡ string_bytes text.old ++ missing_words (said_view said.now) (texts_of said.now.key (map said_view stored.now)) (map (λ other. other.name) (map said_view stored.now))) }
{
    let texts = texts_of(alloc, said.key, stored)?;
    if texts.is_empty() {
        let names = names_of(alloc, stored)?;
        return push_no_key(text, said.name, nearest(names.as_slice(), said.name));
    }
    let near = nearest(texts.as_slice(), said.text);
    push_no_text(text, said.text, said.name, near)
}

/// Adds that no step stores under a key, and which key may have been meant.
fn push_no_key(text: &mut String, name: &str, near: Option<&str>) -> Result<(), AllocError>
    ensures { OnOk result (string_bytes text.new ≡ string_bytes text.old ++ (codes "no step stores " ++ name.now ++ hint (option_map (λ n. n.now) near.entry))) }
{
    text.push_str("no step stores ")?;
    text.push_str(name)?;
    push_hint(text, near)
}

/// Adds that no step stores a text under a key, and which text may have been meant.
fn push_no_text(
    text: &mut String,
    wanted: &str,
    name: &str,
    near: Option<&str>,
) -> Result<(), AllocError>
    ensures { OnOk result (string_bytes text.new ≡ string_bytes text.old ++ (codes "no step stores " ++ wanted.now ++ codes " under " ++ name.now ++ hint (option_map (λ n. n.now) near.entry))) }
{
    push_named(text, "no step stores ", wanted, " under ")?;
    text.push_str(name)?;
    push_hint(text, near)
}

/// Adds the name that may have been meant.
fn push_hint(text: &mut String, near: Option<&str>) -> Result<(), AllocError>
    ensures { OnOk result (string_bytes text.new ≡ string_bytes text.old ++ hint (option_map (λ n. n.now) near.entry)) }
{
    match near {
        None => Ok(()),
        Some(near) => push_named(text, ": did you mean ", near, "?"),
    }
}

/// The texts that are stored under the key with this number. Takes memory for the list.
fn texts_of<'p>(alloc: Global, key: KeyNo, stored: &[Said<'p>]) -> Result<Vec<&'p str>, AllocError>
    ensures { IfOk result (λ v. map (λ t. t.now) v.items ≡ texts_of key (map said_view stored.now)) }
{
    let mut texts = Vec::new(alloc);
    for said in stored {
        if said.key == key {
            texts.push(said.text)?;
        }
    }
    Ok(texts)
}

/// The words by which steps name the keys that they store. Takes memory for the list.
pub(crate) fn names_of<'p>(alloc: Global, stored: &[Said<'p>]) -> Result<Vec<&'p str>, AllocError>
    ensures { IfOk result (λ v. map (λ t. t.now) v.items ≡ map (λ other. other.name) (map said_view stored.now)) }
{
    let mut names = Vec::new(alloc);
    for said in stored {
        names.push(said.name)?;
    }
    Ok(names)
}

/// Adds the id of a node.
pub(crate) fn push_id(text: &mut String, plan: &Plan, node: ContextNo) -> Result<(), AllocError>
    ensures { OnOk result (string_bytes text.new ≡ string_bytes text.old ++ id_of_node (plan_view plan.now) node) }
{
    match plan.nodes.get(node) {
        Some(node) => node.id.write_to(text),
        None => Ok(()),
    }
}
