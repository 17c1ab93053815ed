//! The text of a plan's races.
ghost use Rattle.std.specs.Prelude.{◌≡◌, ◌++◌, codes, string_bytes, take, IfOk, OnOk};
ghost use Rattle.std.specs.Fmt.{decimal};
ghost use Rattle.std.specs.List.{flat_map, slice_get};
ghost use Rattle.ext_model.specs.Sizes.{most_numbers};
ghost use Rattle.ext_plan.specs.Plans.{plan_view, step_key_view};
ghost use Rattle.ext_plan.specs.StepCalls.{label_of};
ghost use Rattle.ext_races.specs.RaceLines.{found_text, id_of_node, line_limit, lock_text, name_if, proved_text, race_line, race_lines, side_text};

use crate::locked_apart::locked_apart;
use crate::{Found, Proved, Race, Side};
use ext_model::{ContextNo, KeyNo};
use ext_plan::{Plan, StepKey};
use std::alloc::{AllocError, Global};

/// How many races the text lists.
pub(crate) const LINES: usize = 20;

/// Returns the text of what `races` found, in which each of the first 20 races has a line. Such a
/// line is `put a of [engine:x]/[test:m] and want a of [engine:x]/[test:n] in [engine:x]`, and
/// `: a lock keeps them apart, not in order` behind it where both are tests under a common lock of
/// which one is for writing, or one of the two is isolated. The line `and more` follows if there are
/// more. If there are none, the only line is `no races: one report` or `no races: one report but for
/// computed and found`. If the plan exceeds a limit, the only line names it.
///
/// Takes memory for the text, and fails with `AllocError` only if that is refused.
pub fn races_text(alloc: Global, plan: &Plan, found: &Found<'_>) -> Result<String, AllocError>
    ensures { IfOk result (λ text. string_bytes text ≡ found_text (plan_view plan.now) found.now) }
{
    let mut text = String::new(alloc);
    match found {
        Found::TooManyKeys => push_places(&mut text, plan)?,
        Found::TooManyNumbers => push_numbers(&mut text, plan)?,
        Found::Races { races, names } => {
            push_races(&mut text, plan, races.as_slice(), names.as_slice())?;
        }
        Found::NoRaces(proved) => push_proved(&mut text, proved)?,
    }
    Ok(text)
}

/// Adds the line that tells how many keys a run has places for.
fn push_places(text: &mut String, plan: &Plan) -> Result<(), AllocError>
    ensures { OnOk result (string_bytes text.new ≡ string_bytes text.old ++ codes "the steps name more than " ++ decimal (plan_view plan.now).key_places ++ codes " keys\n") }
{
    write!(text, "the steps name more than {} keys\n", plan.key_places)
}

/// Adds the line that tells how many numbers a run draws at most.
fn push_numbers(text: &mut String, plan: &Plan) -> Result<(), AllocError>
    ensures { OnOk result (string_bytes text.new ≡ string_bytes text.old ++ codes "the steps may draw more than " ++ decimal (most_numbers (plan_view plan.now).size) ++ codes " numbers\n") }
{
    write!(
        text,
        "the steps may draw more than {} numbers\n",
        plan.size.numbers()
    )
}

fn push_races(
    text: &mut String,
    plan: &Plan,
    races: &[Race],
    names: &[&StepKey],
) -> Result<(), AllocError>
    ensures { OnOk result (string_bytes text.new ≡ string_bytes text.old ++ race_lines (plan_view plan.now) names.now races.now) }
{
    push_first(text, plan, races, names)?;
    if races.len() > LINES {
        text.push_str("and more\n")?;
    }
    Ok(())
}

/// Adds the lines of the first 20 of these races.
fn push_first(
    text: &mut String,
    plan: &Plan,
    races: &[Race],
    names: &[&StepKey],
) -> Result<(), AllocError>
    ensures { OnOk result (string_bytes text.new ≡ string_bytes text.old ++ flat_map (race_line (plan_view plan.now) names.now) (take line_limit races.now)) }
{
    let first = first_of(races);
    for race in first {
        push_race(text, plan, race, names)?;
    }
    Ok(())
}

/// The races that have lines: the first 20.
pub(crate) fn first_of(races: &[Race]) -> &[Race]
    ensures { result.now ≡ take line_limit races.now }
{
    match races.get(..LINES) {
        Some(first) => first,
        None => races,
    }
}

fn push_race(
    text: &mut String,
    plan: &Plan,
    race: &Race,
    names: &[&StepKey],
) -> Result<(), AllocError>
    ensures { OnOk result (string_bytes text.new ≡ string_bytes text.old ++ race_line (plan_view plan.now) names.now race.now) }
{
    push_side(text, plan, &race.first, names)?;
    text.push_str(" and ")?;
    push_side(text, plan, &race.second, names)?;
    text.push_str(" in ")?;
    push_id(text, plan, race.context)?;
    text.push_str(lock_text(plan, race.first.node, race.second.node))?;
    text.push_str("\n")
}

/// What a lock does, where it keeps two tests apart; else empty.
fn lock_text(plan: &Plan, first: ContextNo, second: ContextNo) -> &'static str
    ensures { result.now ≡ lock_text (plan_view plan.now) first second }
{
    if locked_apart(plan, first, second) {
        ": a lock keeps them apart, not in order"
    } else {
        ""
    }
}

/// Adds what is proved of a plan without races.
fn push_proved(text: &mut String, proved: &Proved) -> Result<(), AllocError>
    ensures { OnOk result (string_bytes text.new ≡ string_bytes text.old ++ proved_text proved.now) }
{
    match proved {
        Proved::OneReport => text.push_str("no races: one report\n"),
        Proved::NearReport => text.push_str("no races: one report but for computed and found\n"),
    }
}

/// Adds a step's word, its key's name and its node's id.
fn push_side(
    text: &mut String,
    plan: &Plan,
    side: &Side,
    names: &[&StepKey],
) -> Result<(), AllocError>
    ensures { OnOk result (string_bytes text.new ≡ string_bytes text.old ++ side_text (plan_view plan.now) names.now side.now) }
{
    text.push_str(side.word.text())?;
    text.push_str(" ")?;
    text.push_str(name_at(plan, names, side.key))?;
    text.push_str(" of ")?;
    push_id(text, plan, side.node)
}

/// The word by which a step first names the key of this number; empty if no step does.
pub(crate) fn name_at<'a>(plan: &'a Plan, names: &[&'a StepKey], key: KeyNo) -> &'a str
    ensures { result.now ≡ name_if (plan_view plan.now) (slice_get names.now key) }
{
    match names.get(key) {
        None => "",
        Some(name) => name_of(plan, name),
    }
}

/// The word by which a step names its key.
fn name_of<'a>(plan: &'a Plan, key: &'a StepKey) -> &'a str
    ensures { result.now ≡ label_of (plan_view plan.now).keys (step_key_view key.now) }
{
    match key {
        StepKey::Label(label) => match plan.keys.get(*label) {
            Some(key) => key.label.as_str(),
            None => "",
        },
        StepKey::Named(name) => name.as_str(),
    }
}

/// Adds the id of a node.
pub(crate) fn push_id(text: &mut String, plan: &Plan, node: ContextNo) -> Result<(), AllocError>
    ensures { OnOk result (string_bytes text.new ≡ string_bytes text.old ++ id_of_node (plan_view plan.now) node) }
{
    match plan.nodes.get(node) {
        Some(node) => node.id.write_to(text),
        None => Ok(()),
    }
}
