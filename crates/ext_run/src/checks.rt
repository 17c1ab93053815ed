//! Reading a plan without running it.
ghost use Rattle.std.specs.Prelude.{◌≡◌, ◌≢◌, ◌≤◌, ◌+◌, ℕ, List, false, length, option_map, string_bytes, IfOk, IfErr, IfSome, OnOk};
ghost use Rattle.std.specs.Io.KnownBytes.{Consumes, Appends};
ghost use Rattle.ext_plan_reading.specs.Plans.{nodes_view, plan_view};
ghost use Rattle.ext_run.specs.Reports.{input_limit, plan_of_bytes, plan_of_input};
ghost use Rattle.ext_plan_reading.specs.ReadPlans.{IsReadPlan, IsRunnablePlan};
ghost use Rattle.ext_races.specs.Touches.{keys_named};
ghost use Rattle.ext_run.specs.Checks.{counts_line, IsCountsOf, IsRacesOf, RefusedUnrun, TellsRaces, is_free, keys_explained, line_of_keys, races_as, raise_line, test_count};
ghost use Rattle.ext_run.specs.InnerOutputs.{ChecksAs};
ghost use Rattle.ext_report.specs.JsonTexts.{json_text};

use crate::fault::RunFault;
use crate::input::read_input;
use crate::list_form::ListForm;
use crate::options::Summary;
use crate::reading::plan_of;
use crate::runs::write_whole;
use ext_model::Size;
use ext_plan_reading::{Plan, PlanNode};
use ext_races::{Found, count_keys, races, races_json, races_text};
use ext_report::write_json;
use std::alloc::{AllocError, Global};
use std::io::{Read, Write};

/// How many races are looked for: one more than the text lists.
const RACES: usize = 21;

/// Reads a plan of at most this size and writes how many nodes and tests it has, and how many
/// different keys its steps name of those that there are places for, without running it. The line
/// is `ok, 7 nodes, 3 tests, 2 of 64 keys`. If the steps name more keys than there are places, some
/// of them may fail with `directory full` in a run. More than 1,024 keys are not counted.
///
/// It reads like `run`, and is refused like a plain run of the plan: as `Read`, `TooLong`, `Plan`
/// or `Memory`, with nothing written, or as `Write`.
///
/// Takes memory for the input, the plan and the line, and gives all of it back. It waits only for
/// the reader and the writer.
#[tactic(auto, unfolding(crate::specs::Reports::plan_of_input))]
pub fn check<I: Read, W: Write>(
    alloc: Global,
    reader: &mut I,
    writer: &mut W,
    size: Size,
) -> Result<(), RunFault>
    ensures written { OnOk result (IfSome (I.remaining reader.old) (λ input. (line : List ℕ)
        × IsCountsOf (plan_of_input size input) line
        × Appends (W.contents writer.old) (W.contents writer.new) line)) }
    ensures refused { IfErr result (λ fault. IfSome (I.remaining reader.old)
        (λ input. RefusedUnrun fault (plan_of_input size input))) }
    ensures unwritten { IfErr result (λ fault. fault ≢ RunFault.Write → writer.new ≡ writer.old) }
    ensures taken { (bytes : List ℕ) × (length bytes ≤ input_limit size + 1)
        × Consumes (I.remaining reader.old) (I.remaining reader.new) bytes }
{
    let input = read_input(alloc, reader, size)?;
    let line = line_of(alloc, input.as_slice(), size)?;
    write_whole(writer, line.as_bytes())
}

/// Reads a plan of at most this size and writes its races, without running it. Each of the first 20
/// races has a line, and `and more` follows if there are others. If there are none, the only line
/// says what `run` promises of the plan's report. One line names the limit if the steps name more
/// keys than there are places, or may draw more numbers than there are (`ext_races::races_text`). As
/// JSON one object tells the same. In the summary, `failed` tells whether there is a race or a limit
/// is exceeded.
///
/// It reads like `run`, and is refused like `check`.
///
/// Takes memory for the input, the plan, its steps, what they touch and the lines, and gives all of
/// it back. It waits only for the reader and the writer.
#[tactic(auto, unfolding(crate::specs::Reports::plan_of_input))]
pub fn check_races<I: Read, W: Write>(
    alloc: Global,
    reader: &mut I,
    writer: &mut W,
    size: Size,
    form: ListForm,
) -> Result<Summary, RunFault>
    ensures written { IfOk result (λ summary. IfSome (I.remaining reader.old) (λ input. (text : List ℕ)
        × IsRacesOf form (plan_of_input size input) text summary.failed
        × Appends (W.contents writer.old) (W.contents writer.new) text)) }
    ensures unrun { IfOk result (λ summary. summary.lacked ≡ false) }
    ensures refused { IfErr result (λ fault. IfSome (I.remaining reader.old)
        (λ input. RefusedUnrun fault (plan_of_input size input))) }
    ensures unwritten { IfErr result (λ fault. fault ≢ RunFault.Write → writer.new ≡ writer.old) }
    ensures taken { (bytes : List ℕ) × (length bytes ≤ input_limit size + 1)
        × Consumes (I.remaining reader.old) (I.remaining reader.new) bytes }
{
    let input = read_input(alloc, reader, size)?;
    let (text, failed) = races_of(alloc, input.as_slice(), size, form)?;
    write_whole(writer, text.as_slice())?;
    Ok(Summary {
        failed,
        lacked: false,
    })
}

/// The text of the races of the plan in these bytes, and whether there is one or a limit is
/// exceeded.
fn races_of(
    alloc: Global,
    input: &[u8],
    size: Size,
    form: ListForm,
) -> Result<(Vec<u8>, bool), RunFault>
    ensures races { IfOk result (λ found. IsRacesOf form (plan_of_bytes size input.now) found.0.items found.1) }
    ensures refused { IfErr result (λ fault. RefusedUnrun fault (plan_of_bytes size input.now)) }
    ensures unwritten { IfErr result (λ fault. fault ≢ RunFault.Write) }
{
    let plan = match plan_of(alloc, input, size) {
        Ok(plan) => plan,
        Err(fault) => return Err(RunFault::Plan(fault)),
    };
    Ok(races_in(alloc, &plan, form)?)
}

/// The text of a plan's races, and whether there is one or a limit is exceeded.
fn races_in(alloc: Global, plan: &Plan, form: ListForm) -> Result<(Vec<u8>, bool), AllocError>
    requires { IsRunnablePlan (plan_view plan.now) }
    ensures { IfOk result (λ found. TellsRaces form (plan_view plan.now) found.0.items found.1) }
{
    let found = races(alloc, plan, RACES)?;
    Ok((races_as(alloc, form, plan, &found)?, !is_free(&found)))
}

/// What was found of a plan's races in this form, as UTF-8 bytes.
fn races_as(
    alloc: Global,
    form: ListForm,
    plan: &Plan,
    found: &Found<'_>,
) -> Result<Vec<u8>, AllocError>
    ensures { IfOk result (λ bytes. bytes.items ≡ races_as form (plan_view plan.now) found.now) }
{
    match form {
        ListForm::Lines => Ok(races_text(alloc, plan, found)?.into_bytes()),
        ListForm::Json => printed(alloc, races_json(alloc, plan, found)?),
    }
}

/// A text of JSON as it is printed (`ext_report::write_json`). Each is UTF-8; no contract of
/// `races_json` or `lint` says so, and one that was not would be refused.
pub(crate) fn printed(alloc: Global, json: Vec<u8>) -> Result<Vec<u8>, AllocError>
    ensures { IfOk result (λ bytes. bytes.items ≡ json_text json.items) }
{
    let Ok(json) = String::from_utf8(json) else {
        return Err(AllocError);
    };
    let mut text = String::new(alloc);
    write_json(&mut text, json.as_str())?;
    Ok(text.into_bytes())
}

/// Tests whether the plan has no race and exceeds no limit.
fn is_free(found: &Found<'_>) -> bool
    ensures { result ≡ is_free found.now }
{
    match found {
        Found::NoRaces(_) => true,
        Found::Races { .. } | Found::TooManyKeys | Found::TooManyNumbers => false,
    }
}

/// The line of the plan in these bytes.
fn line_of(alloc: Global, input: &[u8], size: Size) -> Result<String, RunFault>
    ensures { ChecksAs string_bytes result (plan_of_bytes size input.now) }
{
    match plan_of(alloc, input, size) {
        Ok(plan) => Ok(counts_line(alloc, &plan)?),
        Err(fault) => Err(RunFault::Plan(fault)),
    }
}

#[tactic(auto, unfolding(crate::specs::Checks::counts_line))]
fn counts_line(alloc: Global, plan: &Plan) -> Result<String, AllocError>
    requires { IsRunnablePlan (plan_view plan.now) }
    ensures { IfOk result (λ line. string_bytes line ≡ counts_line (plan_view plan.now)) }
{
    let nodes = plan.nodes.len();
    let tests = test_count(plan.nodes.as_slice());
    let places = plan.key_places;
    match count_keys(alloc, plan)? {
        Some(keys) => {
            format!(in alloc; "ok, {nodes} nodes, {tests} tests, {keys} of {places} keys\n")
        }
        None => format!(in alloc;
            "ok, {nodes} nodes, {tests} tests, more than 1024 of {places} keys\n"
        ),
    }
}

/// Explains why steps of a run of this plan may fail with `directory full`, in a line without its
/// line feed: they name more different keys than there are places. The line says how many, and which
/// field of the plan raises the limit. There is none if the steps name no more.
///
/// Takes memory for the keys and the line; fails with `AllocError` only if that is refused.
pub fn explain_keys(alloc: Global, plan: &Plan) -> Result<Option<String>, AllocError>
    requires plan { IsReadPlan (plan_view plan.now) }
    ensures explained { IfOk result (λ line. option_map string_bytes line ≡ keys_explained (plan_view plan.now)) }
{
    match count_keys(alloc, plan)? {
        Some(keys) => line_of_keys(alloc, keys, plan.key_places),
        None => Ok(Some(format!(in alloc;
            "the plan: its steps name more than 1024 different keys, for which no plan has places"
        )?)),
    }
}

/// What it says where so many keys are named, and there are so many places.
fn line_of_keys(alloc: Global, keys: usize, places: usize) -> Result<Option<String>, AllocError>
    requires { keys ≤ 1024 }
    ensures { IfOk result (λ line. option_map string_bytes line ≡ line_of_keys keys places) }
{
    if keys <= places {
        return Ok(None);
    }
    Ok(Some(raise_line(alloc, keys, places)?))
}

/// The line where more keys are named than there are places.
fn raise_line(alloc: Global, keys: usize, places: usize) -> Result<String, AllocError>
    ensures { IfOk result (λ line. string_bytes line ≡ raise_line keys places) }
{
    format!(in alloc;
        "the plan: its steps name {keys} different keys, and there are places for {places}. Write keys = {keys} at the top of the plan"
    )
}

/// Counts the nodes that are tests.
fn test_count(nodes: &[PlanNode]) -> usize
    ensures { result ≡ test_count (nodes_view nodes.now) }
{
    nodes.iter().filter(|node| node.test.is_some()).count()
}
