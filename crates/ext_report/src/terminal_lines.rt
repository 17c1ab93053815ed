//! The report of a run for people at a terminal.
ghost use Rattle.std.specs.Prelude.{◌≡◌, ◌<◌, ◌++◌, length, string_bytes, All, IfOk, OnOk};
ghost use Rattle.ext_lifecycle.specs.FaultTexts.{result_view, results_view};
ghost use Rattle.ext_report.specs.Report.{fault_part, tells_fault};
ghost use Rattle.ext_report.specs.TerminalLines.{apart, closed_part, color_of, containers_line, containers_with, count_part, each_line, escape, line_if_fault, line_unless_fault, shown_counts, shown_line, shown_status, terminal_of, visible};

use crate::is_status::is_status;
use crate::line::{status_text, write_fault};
use crate::totals::TestCounts;
use crate::visible::write_visible;
use ext_ids::UniqueId;
use ext_lifecycle::{NodeResult, Status};
use ext_tree::Tree;
use std::alloc::{AllocError, Global};

/// Returns the report of results for people at a terminal: one line for each, in the order of the
/// list, those of the nodes that aborted or failed last, between empty lines, and then the totals of
/// the tests. If containers aborted or failed, another line says how many. Counts that are 0 are left out, but
/// for that of all tests. Control characters of ids and faults, and those that turn the direction
/// of a text, are escaped; with `colored` each status has a colour. Each result is of a context of
/// the tree. A context may have no result, or several.
///
/// Takes memory for the text, and fails with `AllocError` only if that is refused.
pub fn terminal_report(
    alloc: Global,
    tree: &Tree,
    results: &[NodeResult],
    colored: bool,
) -> Result<String, AllocError>
    requires in_tree { All (λ r. r.node < length tree.now) results.now }
    ensures { IfOk result
        (λ text. string_bytes text ≡ terminal_of colored tree.now (results_view results.now)) }
{
    let mut text = lines_without_faults(alloc, tree, results, colored)?;
    let faults = lines_with_faults(alloc, tree, results, colored)?;
    write_apart(&mut text, faults.as_str())?;
    TestCounts::of(results).write_shown_to(&mut text, colored)?;
    let aborted = containers_with(results, Status::Aborted);
    let failed = containers_with(results, Status::Failed);
    write_containers(&mut text, aborted, failed, colored)?;
    Ok(text)
}

/// Counts the containers that ended with this status.
fn containers_with(results: &[NodeResult], status: Status) -> usize
    ensures { result ≡ containers_with status (results_view results.now) }
{
    results
        .iter()
        .filter(|r| !r.is_test && is_status(r.status, status))
        .count()
}

/// Writes how many containers aborted and failed at the end of a text, if any did.
fn write_containers(
    text: &mut String,
    aborted: usize,
    failed: usize,
    colored: bool,
) -> Result<(), AllocError>
    ensures { OnOk result
        (string_bytes text.new ≡ string_bytes text.old ++ containers_line colored aborted failed) }
{
    if aborted == 0 && failed == 0 {
        return Ok(());
    }
    text.push_str("containers")?;
    write_count(text, Status::Aborted, aborted, colored)?;
    write_count(text, Status::Failed, failed, colored)?;
    text.push('\n')
}

/// The lines of the nodes that neither aborted nor failed.
fn lines_without_faults(
    alloc: Global,
    tree: &Tree,
    results: &[NodeResult],
    colored: bool,
) -> Result<String, AllocError>
    requires in_tree { All (λ r. r.node < length tree.now) results.now }
    ensures { IfOk result
        (λ text. string_bytes text ≡ each_line (line_unless_fault colored) tree.now (results_view results.now)) }
{
    let mut text = String::new(alloc);
    for node in results {
        write_unless_fault(alloc, &mut text, tree.id(node.node), node, colored)?;
    }
    Ok(text)
}

/// The lines of the nodes that aborted or failed.
fn lines_with_faults(
    alloc: Global,
    tree: &Tree,
    results: &[NodeResult],
    colored: bool,
) -> Result<String, AllocError>
    requires in_tree { All (λ r. r.node < length tree.now) results.now }
    ensures { IfOk result
        (λ text. string_bytes text ≡ each_line (line_if_fault colored) tree.now (results_view results.now)) }
{
    let mut text = String::new(alloc);
    for node in results {
        write_if_fault(alloc, &mut text, tree.id(node.node), node, colored)?;
    }
    Ok(text)
}

/// Writes the line of a node at the end of a text, unless it aborted or failed.
fn write_unless_fault(
    alloc: Global,
    text: &mut String,
    id: &UniqueId,
    node: &NodeResult,
    colored: bool,
) -> Result<(), AllocError>
    ensures { OnOk result
        (string_bytes text.new ≡ string_bytes text.old ++ line_unless_fault colored id.now (result_view node.now)) }
{
    if tells_fault(node.status) {
        return Ok(());
    }
    write_shown_line(alloc, text, id, node, colored)
}

/// Writes the line of a node at the end of a text, if it aborted or failed.
fn write_if_fault(
    alloc: Global,
    text: &mut String,
    id: &UniqueId,
    node: &NodeResult,
    colored: bool,
) -> Result<(), AllocError>
    ensures { OnOk result
        (string_bytes text.new ≡ string_bytes text.old ++ line_if_fault colored id.now (result_view node.now)) }
{
    if tells_fault(node.status) {
        return write_shown_line(alloc, text, id, node, colored);
    }
    Ok(())
}

/// Tests whether the line of a node with this status has its fault.
fn tells_fault(status: Status) -> bool
    ensures { result ≡ tells_fault status }
{
    match status {
        Status::Aborted | Status::Failed => true,
        Status::Successful | Status::Skipped => false,
    }
}

/// Writes the line of a node at the end of a text.
fn write_shown_line(
    alloc: Global,
    text: &mut String,
    id: &UniqueId,
    node: &NodeResult,
    colored: bool,
) -> Result<(), AllocError>
    ensures { OnOk result
        (string_bytes text.new ≡ string_bytes text.old ++ shown_line colored id.now (result_view node.now)) }
{
    let mut spelled = String::new(alloc);
    id.write_to(&mut spelled)?;
    let mut fault = String::new(alloc);
    write_fault(&mut fault, node)?;
    write_visible(text, spelled.as_str())?;
    text.push(' ')?;
    write_status(text, node.status, colored)?;
    write_closed(text, node.closed)?;
    write_visible(text, fault.as_str())?;
    text.push('\n')
}

/// Writes how many values were closed at the end of a text, if any were.
fn write_closed(text: &mut String, closed: u64) -> Result<(), AllocError>
    ensures { OnOk result (string_bytes text.new ≡ string_bytes text.old ++ closed_part closed) }
{
    if closed != 0 {
        write!(text, " closed {closed}")?;
    }
    Ok(())
}

/// Writes how many ended with this status at the end of a text, if any did.
pub(crate) fn write_count(
    text: &mut String,
    status: Status,
    count: usize,
    colored: bool,
) -> Result<(), AllocError>
    ensures { OnOk result
        (string_bytes text.new ≡ string_bytes text.old ++ count_part colored status count) }
{
    if count == 0 {
        return Ok(());
    }
    text.push(' ')?;
    write_status(text, status, colored)?;
    write!(text, " {count}")
}

/// Writes a status at the end of a text, in its colour if there are colours.
fn write_status(text: &mut String, status: Status, colored: bool) -> Result<(), AllocError>
    ensures { OnOk result
        (string_bytes text.new ≡ string_bytes text.old ++ shown_status colored status) }
{
    if !colored {
        return text.push_str(status_text(status));
    }
    text.push_str(color_of(status))?;
    text.push_str(status_text(status))?;
    text.push_str("\x1b[0m")
}

/// The escape that begins the colour of a status.
fn color_of(status: Status) -> &'static str
    ensures { result.now ≡ escape (color_of status) }
{
    match status {
        Status::Successful => "\x1b[32m",
        Status::Aborted => "\x1b[33m",
        Status::Failed => "\x1b[31m",
        Status::Skipped => "\x1b[2m",
    }
}

/// Writes a text at the end of another, between empty lines, unless it is empty.
fn write_apart(text: &mut String, more: &str) -> Result<(), AllocError>
    ensures { OnOk result (string_bytes text.new ≡ string_bytes text.old ++ apart more.now) }
{
    if more.is_empty() {
        return Ok(());
    }
    text.push('\n')?;
    text.push_str(more)?;
    text.push('\n')
}
