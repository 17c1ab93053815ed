//! A plan's races as JSON.
ghost use Rattle.std.specs.Prelude.{◌≡◌, ◌++◌, ◌∷◌, [], codes, length, nat_lt, take, IfOk, OnOk};
ghost use Rattle.std.specs.Fmt.{decimal};
ghost use Rattle.std.specs.List.{flat_map};
ghost use Rattle.json.specs.Token.{begin_array, end_array, key, number, string};
ghost use Rattle.json.specs.Print.{print};
ghost use Rattle.ext_plan.specs.Plans.{plan_view};
ghost use Rattle.ext_races.specs.RaceLines.{id_of_node, line_limit};
ghost use Rattle.ext_races.specs.RaceJson.{found_json, found_object, id_member, limit_object, limit_value, more_value, place_members, proved_value, proved_word, race_members, race_object, races_array, races_value, side_object, text_member};

use crate::locked_apart::locked_apart;
use crate::text::{LINES, first_of, name_at, push_id};
use crate::{Found, Proved, Race, Side};
use ext_model::ContextNo;
use ext_plan::{Plan, StepKey};
use json::Writer;
use std::alloc::{AllocError, Global};

/// Returns what `races` found as an object of JSON on a line, as UTF-8 bytes. Its members are
/// `races`, `more`, `proved` and `limit`, in this order. They tell what `races_text` does: the first
/// 20 races, of each in `locked` whether a lock keeps its tests apart, and whether there are more; if
/// there are none, what is proved of the plan's report; or the limit that the plan exceeds, and then
/// the others are null.
///
/// Takes memory for the text, and fails with `AllocError` only if that is refused.
pub fn races_json(alloc: Global, plan: &Plan, found: &Found<'_>) -> Result<Vec<u8>, AllocError>
    ensures { IfOk result (λ bytes. bytes.items ≡ found_json (plan_view plan.now) found.now) }
{
    let mut object = object_of(alloc, plan, found)?;
    object.push(b'\n')?;
    Ok(object)
}

#[tactic(auto, unfolding(crate::specs::RaceJson::found_object))]
fn object_of(alloc: Global, plan: &Plan, found: &Found<'_>) -> Result<Vec<u8>, AllocError>
    ensures { IfOk result (λ text. text.items ≡ print (found_object (plan_view plan.now) found.now)) }
{
    let mut writer = Writer::new(Vec::new(alloc));
    writer.begin_object()?;
    write_race_members(&mut writer, alloc, plan, found)?;
    writer.key("proved")?;
    write_proved(&mut writer, found)?;
    writer.key("limit")?;
    write_limit(&mut writer, plan, found)?;
    writer.end_object()?;
    Ok(writer.into_inner())
}

/// Writes the members that tell of races.
fn write_race_members(
    writer: &mut Writer,
    alloc: Global,
    plan: &Plan,
    found: &Found<'_>,
) -> Result<(), AllocError>
    ensures before { OnOk result (writer.new.before ≡ writer.old.before) }
    ensures tokens { OnOk result
        (writer.new.tokens ≡ writer.old.tokens ++ race_members (plan_view plan.now) found.now) }
{
    writer.key("races")?;
    write_races(writer, alloc, plan, found)?;
    writer.key("more")?;
    write_more(writer, found)
}

fn write_races(
    writer: &mut Writer,
    alloc: Global,
    plan: &Plan,
    found: &Found<'_>,
) -> Result<(), AllocError>
    ensures before { OnOk result (writer.new.before ≡ writer.old.before) }
    ensures tokens { OnOk result
        (writer.new.tokens ≡ writer.old.tokens ++ races_value (plan_view plan.now) found.now) }
{
    match found {
        Found::TooManyKeys | Found::TooManyNumbers => writer.null(),
        Found::Races { races, names } => {
            write_array(writer, alloc, plan, races.as_slice(), names.as_slice())
        }
        Found::NoRaces(_) => write_empty(writer),
    }
}

fn write_empty(writer: &mut Writer) -> Result<(), AllocError>
    ensures before { OnOk result (writer.new.before ≡ writer.old.before) }
    ensures tokens { OnOk result (writer.new.tokens ≡ writer.old.tokens ++ begin_array ∷ end_array ∷ []) }
{
    writer.begin_array()?;
    writer.end_array()
}

fn write_array(
    writer: &mut Writer,
    alloc: Global,
    plan: &Plan,
    races: &[Race],
    names: &[&StepKey],
) -> Result<(), AllocError>
    ensures before { OnOk result (writer.new.before ≡ writer.old.before) }
    ensures tokens { OnOk result
        (writer.new.tokens ≡ writer.old.tokens ++ races_array (plan_view plan.now) names.now races.now) }
{
    writer.begin_array()?;
    write_first(writer, alloc, plan, races, names)?;
    writer.end_array()
}

/// Writes the objects of the first 20 of these races.
fn write_first(
    writer: &mut Writer,
    alloc: Global,
    plan: &Plan,
    races: &[Race],
    names: &[&StepKey],
) -> Result<(), AllocError>
    ensures before { OnOk result (writer.new.before ≡ writer.old.before) }
    ensures tokens { OnOk result
        (writer.new.tokens ≡ writer.old.tokens ++ flat_map (race_object (plan_view plan.now) names.now) (take line_limit races.now)) }
{
    let first = first_of(races);
    for race in first {
        write_race(writer, alloc, plan, race, names)?;
    }
    Ok(())
}

#[tactic(auto, unfolding(crate::specs::RaceJson::race_object))]
fn write_race(
    writer: &mut Writer,
    alloc: Global,
    plan: &Plan,
    race: &Race,
    names: &[&StepKey],
) -> Result<(), AllocError>
    ensures before { OnOk result (writer.new.before ≡ writer.old.before) }
    ensures tokens { OnOk result
        (writer.new.tokens ≡ writer.old.tokens ++ race_object (plan_view plan.now) names.now race.now) }
{
    writer.begin_object()?;
    writer.key("first")?;
    write_side(writer, alloc, plan, &race.first, names)?;
    writer.key("second")?;
    write_side(writer, alloc, plan, &race.second, names)?;
    write_place(writer, alloc, plan, race)?;
    writer.end_object()
}

/// Writes where a race is, and whether a lock keeps its tests apart.
#[tactic(auto, unfolding(crate::specs::RaceJson::place_members))]
fn write_place(
    writer: &mut Writer,
    alloc: Global,
    plan: &Plan,
    race: &Race,
) -> Result<(), AllocError>
    ensures before { OnOk result (writer.new.before ≡ writer.old.before) }
    ensures tokens { OnOk result
        (writer.new.tokens ≡ writer.old.tokens ++ place_members (plan_view plan.now) race.now) }
{
    write_id(writer, alloc, plan, "context", race.context)?;
    writer.key("locked")?;
    writer.boolean(locked_apart(plan, race.first.node, race.second.node))
}

/// Writes a step's node, word and key.
#[tactic(auto, unfolding(crate::specs::RaceJson::side_object))]
fn write_side(
    writer: &mut Writer,
    alloc: Global,
    plan: &Plan,
    side: &Side,
    names: &[&StepKey],
) -> Result<(), AllocError>
    ensures before { OnOk result (writer.new.before ≡ writer.old.before) }
    ensures tokens { OnOk result
        (writer.new.tokens ≡ writer.old.tokens ++ side_object (plan_view plan.now) names.now side.now) }
{
    writer.begin_object()?;
    write_id(writer, alloc, plan, "node", side.node)?;
    write_text(writer, "word", side.word.text())?;
    write_text(writer, "key", name_at(plan, names, side.key))?;
    writer.end_object()
}

/// Writes whether there are more races.
fn write_more(writer: &mut Writer, found: &Found<'_>) -> Result<(), AllocError>
    ensures before { OnOk result (writer.new.before ≡ writer.old.before) }
    ensures tokens { OnOk result (writer.new.tokens ≡ writer.old.tokens ++ more_value found.now ∷ []) }
{
    match found {
        Found::TooManyKeys | Found::TooManyNumbers => writer.null(),
        Found::Races { races, .. } => writer.boolean(has_more(races.as_slice())),
        Found::NoRaces(_) => writer.boolean(false),
    }
}

/// Tests whether there are more races than are written.
fn has_more(races: &[Race]) -> bool
    ensures { result ≡ nat_lt line_limit (length races.now) }
{
    races.len() > LINES
}

/// Writes what is proved.
fn write_proved(writer: &mut Writer, found: &Found<'_>) -> Result<(), AllocError>
    ensures before { OnOk result (writer.new.before ≡ writer.old.before) }
    ensures tokens { OnOk result (writer.new.tokens ≡ writer.old.tokens ++ proved_value found.now ∷ []) }
{
    match found {
        Found::NoRaces(proved) => writer.string(word_of(proved)),
        Found::Races { .. } | Found::TooManyKeys | Found::TooManyNumbers => writer.null(),
    }
}

/// What is proved, in words.
fn word_of(proved: &Proved) -> &'static str
    ensures { result.now ≡ proved_word proved.now }
{
    match proved {
        Proved::OneReport => "one report",
        Proved::NearReport => "one report but for computed and found",
    }
}

/// Writes the limit that the plan exceeds, or null if there is none.
fn write_limit(writer: &mut Writer, plan: &Plan, found: &Found<'_>) -> Result<(), AllocError>
    ensures before { OnOk result (writer.new.before ≡ writer.old.before) }
    ensures tokens { OnOk result
        (writer.new.tokens ≡ writer.old.tokens ++ limit_value (plan_view plan.now) found.now) }
{
    match found {
        Found::TooManyKeys => write_most(writer, "keys", plan.key_places as u64),
        Found::TooManyNumbers => write_most(writer, "numbers", u64::from(plan.size.numbers())),
        Found::Races { .. } | Found::NoRaces(_) => writer.null(),
    }
}

/// Writes a limit: what it counts, and how many there are at most.
fn write_most(writer: &mut Writer, counted: &str, most: u64) -> Result<(), AllocError>
    ensures before { OnOk result (writer.new.before ≡ writer.old.before) }
    ensures tokens { OnOk result (writer.new.tokens ≡ writer.old.tokens ++ limit_object counted.now most) }
{
    writer.begin_object()?;
    write_text(writer, "of", counted)?;
    writer.key("most")?;
    writer.u64(most)?;
    writer.end_object()
}

/// Writes a member whose value is the id of a node.
fn write_id(
    writer: &mut Writer,
    alloc: Global,
    plan: &Plan,
    name: &str,
    node: ContextNo,
) -> Result<(), AllocError>
    ensures before { OnOk result (writer.new.before ≡ writer.old.before) }
    ensures tokens { OnOk result
        (writer.new.tokens ≡ writer.old.tokens ++ id_member (plan_view plan.now) name.now node) }
{
    let mut id = String::new(alloc);
    push_id(&mut id, plan, node)?;
    write_text(writer, name, id.as_str())
}

/// Writes a member whose value is a text.
fn write_text(writer: &mut Writer, name: &str, text: &str) -> Result<(), AllocError>
    ensures before { OnOk result (writer.new.before ≡ writer.old.before) }
    ensures tokens { OnOk result (writer.new.tokens ≡ writer.old.tokens ++ text_member name.now text.now) }
{
    writer.key(name)?;
    writer.string(text)
}
