//! Explanations of faults in steps.
ghost use Rattle.std.specs.Prelude.{◌≡◌, ◌<◌, HoldsAt, IfOk, IfSome, IsErr, length, map};
ghost use Rattle.ext_plan_reading.specs.InnerSketches.{sketch_view};
ghost use Rattle.ext_plan_reading.specs.NodeReading.{ids_of};
ghost use Rattle.ext_plan_reading.specs.StepReading.{step_at};

use crate::depths::least_test_depth;
use crate::explaining::fields::listed;
use crate::explaining::near::nearest;
use crate::explaining::nodes::{keys_in, nodes_in};
use crate::explaining::spots::TextNo;
use crate::explaining::words::{Meaning, of_text};
use crate::fault::PlanFault;
use crate::labels::Labels;
use crate::nodes::{NodeSketch, tree_of};
use crate::steps::{step_at, step_of, words_of};
use ext_model::Size;
use ext_tree::Tree;
use std::alloc::{AllocError, Global};
use toml::Table;

/// The words that begin a step.
const STEP_WORDS: [&str; 10] = [
    "put",
    "put!",
    "want",
    "none",
    "remove",
    "compute",
    "compute!",
    "computefail",
    "fail",
    "abort",
];

/// Explains the first text of the callbacks and the test in a node's table that is no step there, in
/// reading order.
pub(crate) fn bad_step(
    alloc: Global,
    top: &Table,
    size: Size,
    node: usize,
) -> Result<Option<Meaning>, PlanFault> {
    let keys = keys_in(alloc, top)?;
    let sketches = nodes_in(alloc, top, size)?;
    bad_step_among(alloc, size, &keys.labels, sketches.as_slice(), node)
}

/// Explains the same, given the labels and the nodes after the first pass.
fn bad_step_among(
    alloc: Global,
    size: Size,
    labels: &Labels<'_>,
    sketches: &[NodeSketch<'_>],
    table: usize,
) -> Result<Option<Meaning>, PlanFault> {
    let tree = tree_of(alloc, size, sketches)?;
    for (node, sketch) in sketches.iter().enumerate() {
        if sketch.table == table
            && let Some(found) = bad_in_node(alloc, labels, &tree, sketches, node)?
        {
            return Ok(Some(found));
        }
    }
    Ok(None)
}

/// Explains the first text of a node's callbacks and test that is no step there.
fn bad_in_node(
    alloc: Global,
    labels: &Labels<'_>,
    tree: &Tree,
    sketches: &[NodeSketch<'_>],
    node: usize,
) -> Result<Option<Meaning>, PlanFault>
    requires tree { tree.now ≡ ids_of (map sketch_view sketches.now) }
    requires within { node < length sketches.now }
{
    let sketch = &sketches[node];
    let own = sketch.id.len();
    let least = least_test_depth(tree, sketches, node);
    let lists = sketch.callbacks.in_order(own, least);
    match bad_in_kinds(alloc, labels, sketch.table, &lists)? {
        Some(found) => Ok(Some(found)),
        None => bad_in_test(alloc, labels, own, sketch.table, &sketch.test),
    }
}

/// Explains the first text of a node's callbacks that is no step there. The kinds are those of
/// `CallbackSketch::in_order`.
fn bad_in_kinds(
    alloc: Global,
    labels: &Labels<'_>,
    node: usize,
    kinds: &[(&str, usize, &[Vec<&str>])],
) -> Result<Option<Meaning>, PlanFault> {
    for (name, depth, lists) in kinds {
        let found = bad_in_callbacks(alloc, labels, *depth, node, name, lists)?;
        if found.is_some() {
            return Ok(found);
        }
    }
    Ok(None)
}

/// Explains the first text of one kind's callbacks that is no step there. `name` is the kind's
/// field.
fn bad_in_callbacks(
    alloc: Global,
    labels: &Labels<'_>,
    depth: usize,
    node: usize,
    name: &str,
    lists: &[Vec<&str>],
) -> Result<Option<Meaning>, PlanFault> {
    for (i, texts) in lists.iter().enumerate() {
        if let Some(step) = first_bad(alloc, labels, depth, node, texts.as_slice())? {
            return bad_in_callback(alloc, labels, name, i, step, texts[step]);
        }
    }
    Ok(None)
}

/// Explains a text of callback `i` of a kind that is no step.
fn bad_in_callback(
    alloc: Global,
    labels: &Labels<'_>,
    name: &str,
    i: usize,
    step: usize,
    text: &str,
) -> Result<Option<Meaning>, PlanFault> {
    let list = format!(in alloc; "{name} {i}")?;
    let words = no_step(alloc, labels, list.as_str(), step, text)?;
    of_text(alloc, name, TextNo::InList(i, step), words)
}

/// Explains the first of a test's texts that is no step there.
fn bad_in_test(
    alloc: Global,
    labels: &Labels<'_>,
    depth: usize,
    node: usize,
    texts: &Option<Vec<&str>>,
) -> Result<Option<Meaning>, PlanFault> {
    let Some(texts) = texts else {
        return Ok(None);
    };
    match first_bad(alloc, labels, depth, node, texts.as_slice())? {
        None => Ok(None),
        Some(step) => {
            let words = no_step(alloc, labels, "test", step, texts[step])?;
            of_text(alloc, "test", TextNo::In(step), words)
        }
    }
}

/// Explains a text that is no step. `list` names its test or callback.
fn no_step(
    alloc: Global,
    labels: &Labels<'_>,
    list: &str,
    step: usize,
    text: &str,
) -> Result<Option<String>, PlanFault> {
    let why = reason(alloc, labels, text)?;
    Ok(Some(format!(in alloc; "step {step} of its {list}, {text:?}, {}", why.as_str())?))
}

/// The index of the first text that the reader refuses as a step of the node.
fn first_bad(
    alloc: Global,
    labels: &Labels<'_>,
    depth: usize,
    node: usize,
    texts: &[&str],
) -> Result<Option<usize>, PlanFault>
    ensures within { IfOk result (λ found. IfSome found (λ index. index < length texts.now)) }
    ensures refused { IfOk result (λ found. IfSome found (λ index. HoldsAt (λ text. IsErr (step_at labels.now depth node text.now)) texts.now index)) }
{
    for (index, text) in texts.iter().enumerate() {
        match step_at(alloc, labels, depth, node, text) {
            Ok(_) => {}
            Err(PlanFault::BadStep(_)) => return Ok(Some(index)),
            Err(fault) => return Err(fault),
        }
    }
    Ok(None)
}

/// Why the reader refuses a text as a step.
fn reason(alloc: Global, labels: &Labels<'_>, text: &str) -> Result<String, PlanFault> {
    if is_step(alloc, labels, text)? {
        return Ok(String::from_str(alloc, "goes up past the root")?);
    }
    reason_of_text(alloc, text)
}

/// Tests whether a text is a step.
fn is_step(alloc: Global, labels: &Labels<'_>, text: &str) -> Result<bool, PlanFault> {
    Ok(step_of(alloc, labels, text)?.is_some())
}

/// Why a text is no step, wherever it stands.
fn reason_of_text(alloc: Global, text: &str) -> Result<String, PlanFault> {
    if text.is_empty() {
        return Ok(String::from_str(alloc, "is an empty step")?);
    }
    let why = reason_of_words(alloc, text)?;
    if text.contains('\u{feff}') {
        return Ok(format!(in alloc; "has a byte order mark, and {}", why.as_str())?);
    }
    if text.contains('\t') {
        return Ok(format!(in alloc; "has a tab, and {}", why.as_str())?);
    }
    if text.chars().any(|c| c.is_whitespace() && c != ' ') {
        return Ok(format!(in alloc;
            "has a white character that is no space, and {}",
            why.as_str()
        )?);
    }
    Ok(why)
}

/// Why the words of a text are no step.
fn reason_of_words(alloc: Global, text: &str) -> Result<String, PlanFault> {
    if text.split(' ').any(|word| word.is_empty()) {
        return Ok(String::from_str(alloc, "has a space too many")?);
    }
    match words_of(text).as_slice() {
        [name, rest @ ..] => match reason_of(name, rest) {
            None => no_step_word(alloc, name),
            Some(NoStep::Said(why)) => Ok(String::from_str(alloc, why)?),
            Some(NoStep::Shape(takes, shape)) => Ok(format!(in alloc;
                "{takes}: {name} {shape}, or {name} {shape} up N"
            )?),
            Some(NoStep::Alone) => Ok(format!(in alloc;
                "takes one word as its text, and no up: {name} TEXT"
            )?),
        },
        [] => no_step_word(alloc, ""),
    }
}

/// Says that no step begins with the word, which one is near, and which there are.
fn no_step_word(alloc: Global, word: &str) -> Result<String, PlanFault> {
    let all = listed(alloc, &STEP_WORDS)?;
    let all = all.as_str();
    Ok(match meant_by(word) {
        None => format!(in alloc; "is none of the steps. The steps are {all}")?,
        Some(near) => format!(in alloc;
            "is none of the steps: did you mean {near:?}? The steps are {all}"
        )?,
    })
}

/// The word of a step that was meant by another one.
fn meant_by(word: &str) -> Option<&'static str> {
    match word {
        "get" | "assert" | "expect" => Some("want"),
        "set" => Some("put"),
        "delete" => Some("remove"),
        _ => nearest(&STEP_WORDS, word),
    }
}

/// Why a text is no step.
enum NoStep {
    /// What is said of it.
    Said(&'static str),
    /// What its first word takes, and how that is written.
    Shape(&'static str, &'static str),
    /// Its first word takes one word alone.
    Alone,
}

const NO_HEIGHT: NoStep = NoStep::Said("has an up that is no number from 1 to 15");

/// Why a text is no step, by its first word and the words after it, unless no step begins so.
fn reason_of(name: &str, rest: &[&str]) -> Option<NoStep> {
    match name {
        "fail" | "abort" => Some(NoStep::Alone),
        "none" | "remove" => Some(no_key_alone(rest)),
        "put" | "compute" if rest.first() == Some(&"!") => {
            Some(NoStep::Said("has a space before its !"))
        }
        "put" | "put!" | "want" | "compute" | "compute!" | "computefail" => {
            Some(no_key_and_text(rest))
        }
        _ => None,
    }
}

/// Why these words do not follow the name of a step with a key.
fn no_key_alone(rest: &[&str]) -> NoStep {
    match rest {
        [_, up, _] if *up == "up" => NO_HEIGHT,
        _ => NoStep::Shape("takes a key and no text", "KEY"),
    }
}

/// Why these words do not follow the name of a step with a key and a text.
fn no_key_and_text(rest: &[&str]) -> NoStep {
    match rest {
        [_, _, up, _] if *up == "up" => NO_HEIGHT,
        _ => NoStep::Shape("takes a key and one word as its text", "KEY TEXT"),
    }
}
