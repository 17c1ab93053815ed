//! The report of a run as JSON lines.
ghost use Rattle.std.specs.Prelude.{◌≡◌, ◌<◌, ◌++◌, ◌∷◌, [], length, option_map, string_bytes, All, IfOk, OnOk};
ghost use Rattle.ext_lifecycle.specs.FaultTexts.{fault_text, result_view, results_view};
ghost use Rattle.json.specs.Token.{boolean, key, string};
ghost use Rattle.json.specs.Print.{print};
ghost use Rattle.ext_report.specs.JsonLines.{attempt_member, count_member, count_members, ending_members, extra_members, fault_token, json_line, json_lines, json_report, json_with, node_object, time_member, totals_line};
ghost use Rattle.ext_report.specs.JsonTexts.{json_text};

use crate::extra::{Extra, extra_of};
use crate::is_status::is_status;
use crate::json_text::printed_json;
use crate::line::{fault_text, status_text};
use crate::totals::{NodeSums, TestCounts};
use ext_ids::UniqueId;
use ext_lifecycle::{NodeResult, Status};
use ext_model::Fault;
use ext_tree::Tree;
use json::Writer;
use std::alloc::{AllocError, Global};

/// Returns the report of results as JSON lines: an object for each result on its own line, in the
/// order of the list, and a last one with the totals. Each result is of a context of the tree. A
/// context may have no result, or several.
///
/// An object has the members `id`, `test`, `status`, `fault`, `more`, `computed`, `found`, `closed`
/// and `close_faults`, in this order. `fault` is null if the result has none, whatever its status.
/// U+007F to U+009F, and the characters that turn the direction of a text, are escaped.
/// The last object has `version`, which is 1, and `totals`: an object with `tests`, `successful`,
/// `aborted`, `failed` and `skipped` of the tests, and `computed`, `found`, `closed` and
/// `close_faults` of all nodes.
///
/// Takes memory for the text, and fails with `AllocError` only if that is refused.
pub fn json_report(
    alloc: Global,
    tree: &Tree,
    results: &[NodeResult],
) -> Result<Vec<u8>, AllocError>
    requires in_tree { All (λ r. r.node < length tree.now) results.now }
    ensures { IfOk result
        (λ bytes. bytes.items ≡ json_report tree.now (results_view results.now)) }
{
    json_report_with(alloc, tree, results, &[])
}

/// Returns the report of results as JSON lines as `json_report` does, with what is known of the
/// nodes beside their results. The extras stand in the order of the contexts; there may be fewer,
/// or none.
///
/// Where a node's time is known, its object has a further member `millis`, and that of a successful
/// node that passed at its second attempt or a later one has `attempt`, the last of all. The object
/// with the totals stays as it is.
pub fn json_report_with(
    alloc: Global,
    tree: &Tree,
    results: &[NodeResult],
    extras: &[Extra],
) -> Result<Vec<u8>, AllocError>
    requires in_tree { All (λ r. r.node < length tree.now) results.now }
    ensures { IfOk result
        (λ bytes. bytes.items ≡ json_with extras.now tree.now (results_view results.now)) }
{
    let mut lines = lines_of(alloc, tree, results, extras)?;
    let totals = totals_line(alloc, results)?;
    lines.extend_from_slice(totals.as_bytes())?;
    Ok(lines)
}

fn lines_of(
    alloc: Global,
    tree: &Tree,
    results: &[NodeResult],
    extras: &[Extra],
) -> Result<Vec<u8>, AllocError>
    requires in_tree { All (λ r. r.node < length tree.now) results.now }
    ensures { IfOk result
        (λ bytes. bytes.items ≡ json_lines extras.now tree.now (results_view results.now)) }
{
    let mut lines = Vec::new(alloc);
    for node in results {
        let line = line_of(alloc, extras, tree.id(node.node), node)?;
        lines.extend_from_slice(line.as_bytes())?;
    }
    Ok(lines)
}

fn totals_line(alloc: Global, results: &[NodeResult]) -> Result<String, AllocError>
    ensures { IfOk result (λ line. string_bytes line ≡ totals_line (results_view results.now)) }
{
    let mut line = String::new(alloc);
    line.push_str("{\"version\":1,\"totals\":{")?;
    TestCounts::of(results).write_members_to(&mut line)?;
    NodeSums::of(results).write_members_to(&mut line)?;
    line.push_str("}}\n")?;
    Ok(line)
}

fn line_of(
    alloc: Global,
    extras: &[Extra],
    id: &UniqueId,
    node: &NodeResult,
) -> Result<String, AllocError>
    ensures { IfOk result (λ line. string_bytes line ≡ json_line extras.now id.now (result_view node.now)) }
{
    let mut name = String::new(alloc);
    id.write_to(&mut name)?;
    let mut line = object_of(alloc, name.as_str(), extra_of(extras, node.node), node)?;
    line.push_str("\n")?;
    Ok(line)
}

/// The object of a node with this id, of which this is known.
fn object_of(alloc: Global, id: &str, extra: Extra, node: &NodeResult) -> Result<String, AllocError>
    ensures { IfOk result
        (λ text. string_bytes text ≡ json_text (print (node_object id.now extra (result_view node.now)))) }
{
    let mut writer = Writer::new(Vec::new(alloc));
    write_object(&mut writer, id, extra, node)?;
    let text = printed_json(alloc, writer)?;
    Ok(text)
}

/// Writes the object of a node with this id, of which this is known.
#[tactic(auto, unfolding(crate::specs::JsonLines::node_object))]
fn write_object(
    writer: &mut Writer,
    id: &str,
    extra: Extra,
    node: &NodeResult,
) -> Result<(), AllocError>
    ensures before { OnOk result (writer.new.before ≡ writer.old.before) }
    ensures tokens { OnOk result
        (writer.new.tokens ≡ writer.old.tokens ++ node_object id.now extra (result_view node.now)) }
{
    writer.begin_object()?;
    write_ending(writer, id, node)?;
    write_counts(writer, node)?;
    write_extra(writer, node.status, extra)?;
    writer.end_object()
}

/// Writes the members that say what a node is and how it ended.
fn write_ending(writer: &mut Writer, id: &str, node: &NodeResult) -> Result<(), AllocError>
    ensures before { OnOk result (writer.new.before ≡ writer.old.before) }
    ensures tokens { OnOk result
        (writer.new.tokens ≡ writer.old.tokens ++ ending_members id.now (result_view node.now)) }
{
    write_text(writer, "id", id)?;
    write_truth(writer, "test", node.is_test)?;
    write_text(writer, "status", status_text(node.status))?;
    write_fault(writer, "fault", &node.fault)?;
    Ok(())
}

fn write_counts(writer: &mut Writer, node: &NodeResult) -> Result<(), AllocError>
    ensures before { OnOk result (writer.new.before ≡ writer.old.before) }
    ensures tokens { OnOk result
        (writer.new.tokens ≡ writer.old.tokens ++ count_members (result_view node.now)) }
{
    write_count(writer, "more", node.more)?;
    write_count(writer, "computed", node.computed)?;
    write_count(writer, "found", node.found)?;
    write_count(writer, "closed", node.closed)?;
    write_count(writer, "close_faults", node.close_faults)?;
    Ok(())
}

/// Writes the members of what is known of a node with this status beside its result.
fn write_extra(writer: &mut Writer, status: Status, extra: Extra) -> Result<(), AllocError>
    ensures before { OnOk result (writer.new.before ≡ writer.old.before) }
    ensures tokens { OnOk result (writer.new.tokens ≡ writer.old.tokens ++ extra_members status extra) }
{
    write_time(writer, extra.millis)?;
    write_attempt(writer, status, extra.attempt)
}

/// Writes how long a node took, where it is known.
fn write_time(writer: &mut Writer, millis: Option<u64>) -> Result<(), AllocError>
    ensures before { OnOk result (writer.new.before ≡ writer.old.before) }
    ensures tokens { OnOk result (writer.new.tokens ≡ writer.old.tokens ++ time_member millis) }
{
    match millis {
        None => Ok(()),
        Some(millis) => write_count(writer, "millis", millis),
    }
}

/// Writes at which attempt a node with this status passed: nothing if it was the first, or if the
/// node is not successful.
fn write_attempt(writer: &mut Writer, status: Status, attempt: u32) -> Result<(), AllocError>
    ensures before { OnOk result (writer.new.before ≡ writer.old.before) }
    ensures tokens { OnOk result (writer.new.tokens ≡ writer.old.tokens ++ attempt_member status attempt) }
{
    if is_status(status, Status::Successful) && attempt > 1 {
        return write_count(writer, "attempt", u64::from(attempt));
    }
    Ok(())
}

/// Writes a member whose value is a text.
fn write_text(writer: &mut Writer, name: &str, text: &str) -> Result<(), AllocError>
    ensures before { OnOk result (writer.new.before ≡ writer.old.before) }
    ensures tokens { OnOk result (writer.new.tokens ≡ writer.old.tokens ++ key name.now ∷ string text.now ∷ []) }
{
    writer.key(name)?;
    writer.string(text)
}

/// Writes a member whose value is true or false.
fn write_truth(writer: &mut Writer, name: &str, truth: bool) -> Result<(), AllocError>
    ensures before { OnOk result (writer.new.before ≡ writer.old.before) }
    ensures tokens { OnOk result (writer.new.tokens ≡ writer.old.tokens ++ key name.now ∷ boolean truth ∷ []) }
{
    writer.key(name)?;
    writer.boolean(truth)
}

/// Writes a member whose value is a count.
fn write_count(writer: &mut Writer, name: &str, count: u64) -> Result<(), AllocError>
    ensures before { OnOk result (writer.new.before ≡ writer.old.before) }
    ensures tokens { OnOk result (writer.new.tokens ≡ writer.old.tokens ++ count_member name.now count) }
{
    writer.key(name)?;
    writer.u64(count)
}

/// Writes a member whose value is a fault, or null if there is none.
fn write_fault(writer: &mut Writer, name: &str, fault: &Option<Fault>) -> Result<(), AllocError>
    ensures before { OnOk result (writer.new.before ≡ writer.old.before) }
    ensures tokens { OnOk result (writer.new.tokens ≡ writer.old.tokens ++ key name.now ∷ fault_token (option_map fault_text fault.now) ∷ []) }
{
    writer.key(name)?;
    match fault {
        None => writer.null(),
        Some(fault) => writer.string(fault_text(fault)),
    }
}
