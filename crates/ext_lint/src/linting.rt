//! The notes of a plan, in lines.
ghost use Rattle.std.specs.Prelude.{◌≡◌, ◌∷◌, [], true, string_bytes, IfOk};
ghost use Rattle.ext_plan.specs.Plans.{plan_view};
ghost use Rattle.ext_plan.specs.ReadPlans.{IsRunnablePlan};
ghost use Rattle.ext_lint.specs.NoteJson.{lint_json, notes_json};
ghost use Rattle.ext_lint.specs.NoteLines.{has_notes, lint_text, note_lines};
ghost use Rattle.ext_lint.specs.Notes.{crowded};

use crate::callbacks::note_callbacks;
use crate::heights::Heights;
use crate::keys::keys_of;
use crate::live::nodes_with_tests;
use crate::modes::note_modes;
use crate::node_step::node_steps_of;
use crate::note::Note;
use crate::note_json::json_of;
use crate::noting::{StepRules, note_crowd, note_keys, note_locks, note_tests};
use crate::said_set::SaidSet;
use crate::speech::Speech;
use crate::text::text_of;
use ext_plan::{Plan, StepKeys};
use ext_tree::TreeFault;
use std::alloc::{AllocError, Global};

/// The notes of a plan, in two forms.
#[derive(Debug, Drop)]
pub struct PlanNotes {
    /// Their lines, each with a line feed.
    pub text: String,
    /// The same as an object of JSON on a line, as UTF-8 bytes.
    pub json: Vec<u8>,
    /// Whether there is a note.
    pub found: bool,
}

/// Tells what of a plan is most likely a mistake. Each of the first 20 notes has a line, and
/// `and more` follows if there are others; `nothing to note` stands alone if there are none. As JSON
/// the same notes are texts of objects, each with the id of its node or null. The notes are, in this
/// order:
///
/// - for each step, in the order of the plan: that it begins a callback with no test at or below its
///   node; and that it wants a text that no step of the plan stores under its key, if no step before
///   it wanted the same, with the text or the key that may have been meant; or that it is a `none` or
///   `remove` of a key under which no step stores, if no step before it was one, and a near name has
///   a key under which one stores;
/// - for each step of a callback before or after each test, in the order of the plan, that it acts on
///   its callback's node or above for some tests at or below the node, and there are others at another
///   depth; with the first test for which it does, and the first at another depth than that one;
/// - for each callback and each test without steps, in the order of the plan, that it has none;
/// - that the plan has no test;
/// - for each node, that it is concurrent, and neither another child of its parent nor one of its own
///   is: the root first, and then by the order of their parents;
/// - for each declared key that no step names it;
/// - that the steps name more keys than there are places;
/// - for each lock that one test alone names it.
///
/// If the steps name more than 1,024 keys, that is the only note.
///
/// Takes memory for the steps, the keys, what is stored and wanted, the nodes and the lines, and
/// fails with `AllocError` only if that is refused. The time grows with the number of steps and its
/// logarithm, and with how many store for each key that `none` or `remove` names.
pub fn lint(alloc: Global, plan: &Plan) -> Result<PlanNotes, AllocError>
    requires { IsRunnablePlan (plan_view plan.now) }
    ensures text { IfOk result (λ notes. string_bytes notes.text ≡ lint_text (plan_view plan.now)) }
    ensures json { IfOk result (λ notes. notes.json.items ≡ lint_json (plan_view plan.now)) }
    ensures found { IfOk result (λ notes. notes.found ≡ has_notes (plan_view plan.now)) }
{
    let node_steps = node_steps_of(alloc, plan)?;
    let made = plan.store_keys(alloc)?;
    let keys = StepKeys::of(plan.keys.as_slice(), made.as_slice());
    let directory = match keys_of(alloc, &keys, node_steps.as_slice()) {
        Ok(directory) => directory,
        Err(TreeFault::TooMany) => return crowded(alloc, plan),
        Err(_) => return Err(AllocError),
    };
    let live = nodes_with_tests(alloc, plan)?;
    let speech = Speech::of(plan.keys.as_slice(), keys, &directory);
    let stored = speech.stored(alloc, node_steps.as_slice())?;
    let set = SaidSet::of(alloc, stored.as_slice())?;
    let rules = StepRules::of(plan, speech, live, set, stored);
    let heights = Heights::of(alloc, plan)?;
    let mut notes = Vec::new(alloc);
    rules.note_steps(alloc, node_steps.as_slice(), &mut notes)?;
    heights.note_steps(node_steps.as_slice(), &mut notes)?;
    note_callbacks(plan, &mut notes)?;
    note_tests(plan.nodes.as_slice(), &mut notes)?;
    note_modes(plan, &mut notes)?;
    note_keys(alloc, plan.keys.as_slice(), &directory, &mut notes)?;
    note_crowd(plan.key_places, &directory, &mut notes)?;
    note_locks(alloc, plan, &mut notes)?;
    Ok(PlanNotes {
        text: text_of(alloc, plan, rules.stored(), notes.as_slice())?,
        json: json_of(alloc, plan, rules.stored(), notes.as_slice())?,
        found: !notes.is_empty(),
    })
}

/// The only note of a plan whose steps name more than 1,024 keys.
fn crowded(alloc: Global, plan: &Plan) -> Result<PlanNotes, AllocError>
    ensures text { IfOk result (λ notes. string_bytes notes.text ≡ note_lines (plan_view plan.now) [] (crowded ∷ [])) }
    ensures json { IfOk result (λ notes. notes.json.items ≡ notes_json (plan_view plan.now) [] (crowded ∷ [])) }
    ensures found { IfOk result (λ notes. notes.found ≡ true) }
{
    Ok(PlanNotes {
        text: text_of(alloc, plan, &[], &[Note::Crowded])?,
        json: json_of(alloc, plan, &[], &[Note::Crowded])?,
        found: true,
    })
}
