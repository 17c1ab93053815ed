//! The report of a run.
ghost use Rattle.std.specs.Prelude.{◌≡◌, ◌<◌, length, string_bytes, IfOk, All};
ghost use Rattle.ext_lifecycle.specs.FaultTexts.{results_view};
ghost use Rattle.ext_report.specs.Report.{report_of, report_with, any_failed};

use crate::extra::Extra;
use crate::is_status::is_status;
use crate::line::write_line;
use crate::totals::{NodeSums, TestCounts};
use ext_lifecycle::{NodeResult, Status};
use ext_tree::Tree;
use std::alloc::{AllocError, Global};

/// Returns the report of results as text: one line for each, in the order of the list, and two
/// lines of totals. Each result is of a context of the tree. A context may have no result, or
/// several.
///
/// Takes memory for the text, and fails with `AllocError` only if that is refused.
pub fn report_text(alloc: Global, tree: &Tree, results: &[NodeResult]) -> Result<String, AllocError>
    requires in_tree { All (λ r. r.node < length tree.now) results.now }
    ensures { IfOk result
        (λ text. string_bytes text ≡ report_of tree.now (results_view results.now)) }
{
    report_text_with(alloc, tree, results, &[])
}

/// Returns the report of results as text as `report_text` does, where the line of a node also tells
/// what is known of it beside its result: how long it took, and at which attempt it passed. The
/// extras stand in the order of the contexts; there may be fewer, or none.
pub fn report_text_with(
    alloc: Global,
    tree: &Tree,
    results: &[NodeResult],
    extras: &[Extra],
) -> Result<String, AllocError>
    requires in_tree { All (λ r. r.node < length tree.now) results.now }
    ensures { IfOk result
        (λ text. string_bytes text ≡ report_with extras.now tree.now (results_view results.now)) }
{
    let mut text = String::new(alloc);
    for node in results {
        write_line(&mut text, extras, tree.id(node.node), node)?;
    }
    TestCounts::of(results).write_to(&mut text)?;
    NodeSums::of(results).write_to(&mut text)?;
    Ok(text)
}

/// Tests whether a node failed, whether a test or a container; aborted and skipped nodes did not.
pub fn any_failed(results: &[NodeResult]) -> bool
    ensures { result ≡ any_failed (results_view results.now) }
{
    for r in results {
        if is_status(r.status, Status::Failed) {
            return true;
        }
    }
    false
}
