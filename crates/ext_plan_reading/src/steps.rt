//! The steps of a test or of a callback.
ghost use Rattle.std.specs.Prelude.{◌≡◌, ◌==◌, [], map, take, length, option_map, IfOk, IfSome, position, ◌<◌};
ghost use Rattle.std.specs.List.{slice_split, list_any};
ghost use Rattle.std.specs.Str.{bytes_eq};
ghost use Rattle.ext_plan.specs.Plans.{step_key_view, step_view, steps_view};
ghost use Rattle.ext_plan_reading.specs.Faults.{Gives};
ghost use Rattle.ext_plan_reading.specs.InnerSketches.{GivesAll};
ghost use Rattle.ext_plan_reading.specs.StepReading.{height_of, key_of_word, key_word, text_word, worded_step, short_step, step_of_words, step_of, step_at, steps_after, steps_at};

use crate::fault::PlanFault;
use crate::labels::Labels;
use arrayvec::ArrayVec;
use ext_plan::{Step, StepKey};
use std::alloc::{AllocError, Global};

/// The numbers behind `up`, as they are written: from 1 to 15, in order.
const HEIGHTS: [&str; 15] = [
    "1", "2", "3", "4", "5", "6", "7", "8", "9", "10", "11", "12", "13", "14", "15",
];

/// The greatest number of steps of a test or a callback, so that what they compute and find is
/// counted in 32 bits. A text with more has over 12 GB.
const STEP_LIMIT: usize = 4_294_967_295;

/// The steps that the texts of a test or a callback are, in order, if they are not too many. `node`
/// is the index of its node in the plan, and `depth` how many segments the id of a test or
/// container in which it runs has at least.
#[tactic(auto, unfolding(crate::specs::StepReading::steps_at))]
pub(crate) fn steps_of(
    alloc: Global,
    labels: &Labels<'_>,
    depth: usize,
    node: usize,
    texts: &[&str],
) -> Result<Vec<Step>, PlanFault>
    ensures { Gives steps_view result (steps_at labels.now depth node (map (λ t. t.now) texts.now)) }
{
    if texts.len() > STEP_LIMIT {
        return Err(PlanFault::BadStep(node));
    }
    steps_in_order(alloc, labels, depth, node, texts)
}

/// The steps that the texts of a test or a callback are, in order, however many there are.
fn steps_in_order(
    alloc: Global,
    labels: &Labels<'_>,
    depth: usize,
    node: usize,
    texts: &[&str],
) -> Result<Vec<Step>, PlanFault>
    ensures { Gives steps_view result (steps_after labels.now depth node [] (map (λ t. t.now) texts.now)) }
{
    let mut steps = Vec::new(alloc);
    for text in texts {
        let step = step_at(alloc, labels, depth, node, text)?;
        steps.push(step)?;
    }
    Ok(steps)
}

/// The step that a text of a node is, if it is one that stays below the root.
#[tactic(auto, unfolding(crate::specs::StepReading::step_at))]
pub(crate) fn step_at(
    alloc: Global,
    labels: &Labels<'_>,
    depth: usize,
    node: usize,
    text: &str,
) -> Result<Step, PlanFault>
    ensures { Gives step_view result (step_at labels.now depth node text.now) }
{
    let Some(step) = step_of(alloc, labels, text)? else {
        return Err(PlanFault::BadStep(node));
    };
    if step.height() >= depth {
        return Err(PlanFault::BadStep(node));
    }
    Ok(step)
}

/// The step that a text is, if it is one.
#[tactic(auto, unfolding(crate::specs::StepReading::step_of))]
pub(crate) fn step_of(
    alloc: Global,
    labels: &Labels<'_>,
    text: &str,
) -> Result<Option<Step>, PlanFault>
    ensures { GivesAll (option_map step_view) result (step_of labels.now text.now) }
{
    let words = words_of(text);
    if has_empty(words.as_slice()) {
        return Ok(None);
    }
    step_of_words(alloc, labels, words.as_slice())
}

/// The words of a text, with one space between two, but no more than the first six: what has so
/// many is no step, and no lock.
pub(crate) fn words_of<'a>(text: &'a str) -> ArrayVec<&'a str, 6>
    ensures { map (λ w. w.now) result.items ≡ take 6 (slice_split (λ b. b == 32) text.now) }
{
    let mut words = ArrayVec::new();
    for word in text.split(' ').take(6) {
        words.push(word);
    }
    words
}

/// Tests whether one of the words has no character.
fn has_empty(words: &[&str]) -> bool
    ensures { result ≡ list_any (λ word. length word.now == 0) words.now }
{
    words.iter().any(|word| word.is_empty())
}

/// The step that the words are, if they are one. How many there are tells what each is.
fn step_of_words(
    alloc: Global,
    labels: &Labels<'_>,
    words: &[&str],
) -> Result<Option<Step>, PlanFault>
    ensures { GivesAll (option_map step_view) result (step_of_words labels.now (map (λ w. w.now) words.now)) }
{
    match words {
        [name, word] => short_step(alloc, labels, name, word),
        [name, key, text] => text_step(alloc, labels, name, key, text, 0),
        [name, key, word, number] => match height_of(word, number) {
            None => Ok(None),
            Some(up) => key_step(alloc, labels, name, key, up),
        },
        [name, key, text, word, number] => match height_of(word, number) {
            None => Ok(None),
            Some(up) => text_step(alloc, labels, name, key, text, up),
        },
        _ => Ok(None),
    }
}

/// The step of two words: a name, and a text or a key.
fn short_step(
    alloc: Global,
    labels: &Labels<'_>,
    name: &str,
    word: &str,
) -> Result<Option<Step>, PlanFault>
    ensures { GivesAll (option_map step_view) result (short_step labels.now name.now word.now) }
{
    match name {
        "fail" => Ok(Some(Step::Fail {
            text: String::from_str(alloc, word)?,
        })),
        "abort" => Ok(Some(Step::Abort {
            text: String::from_str(alloc, word)?,
        })),
        _ => key_step(alloc, labels, name, word, 0),
    }
}

/// The step of a name and the word of a key, if the name has such steps.
fn key_step(
    alloc: Global,
    labels: &Labels<'_>,
    name: &str,
    word: &str,
    up: usize,
) -> Result<Option<Step>, PlanFault>
    ensures { GivesAll (option_map step_view) result (worded_step labels.now (key_word name.now) word.now [] up) }
{
    let key = key_of_word(alloc, labels, word)?;
    Ok(match name {
        "none" => Some(Step::None { key, up }),
        "remove" => Some(Step::Remove { key, up }),
        _ => None,
    })
}

/// The step of a name, the word of a key and a text, if the name has such steps.
fn text_step(
    alloc: Global,
    labels: &Labels<'_>,
    name: &str,
    word: &str,
    text: &str,
    up: usize,
) -> Result<Option<Step>, PlanFault>
    ensures { GivesAll (option_map step_view) result (worded_step labels.now (text_word name.now) word.now text.now up) }
{
    let key = key_of_word(alloc, labels, word)?;
    let text = String::from_str(alloc, text)?;
    Ok(match name {
        "put" => Some(Step::Put { key, text, up }),
        "put!" => Some(Step::PutCloseable { key, text, up }),
        "want" => Some(Step::Want { key, text, up }),
        "compute" => Some(Step::Compute { key, text, up }),
        "compute!" => Some(Step::ComputeCloseable { key, text, up }),
        "computefail" => Some(Step::ComputeFail { key, text, up }),
        _ => None,
    })
}

/// The key that a word names: that of the label which it is, or else the one of this name.
fn key_of_word(alloc: Global, labels: &Labels<'_>, word: &str) -> Result<StepKey, AllocError>
    ensures { IfOk result (λ k. step_key_view k ≡ key_of_word labels.now word.now) }
{
    match labels.number_of(word) {
        Some(label) => Ok(StepKey::Label(label)),
        None => Ok(StepKey::Named(String::from_str(alloc, word)?)),
    }
}

/// The number of two words `up` and a number, if they are such.
fn height_of(word: &str, number: &str) -> Option<usize>
    ensures { result ≡ height_of word.now number.now }
{
    if word != "up" {
        return None;
    }
    let index = index_among(&HEIGHTS, number)?;
    Some(index + 1)
}

/// The index of a text among others.
fn index_among(texts: &[&str], text: &str) -> Option<usize>
    ensures index { result ≡ position (λ t. bytes_eq t.now text.now) texts.now }
    ensures within { IfSome result (λ index. index < length texts.now) }
{
    texts.iter().position(|other| *other == text)
}
