//! The forms of a report.
ghost use Rattle.std.specs.Prelude.{◌≡◌, ◌<◌, length, All, IfOk};
ghost use Rattle.ext_lifecycle.specs.FaultTexts.{results_view};
ghost use Rattle.ext_report.specs.Forms.{report_in};

use crate::json_lines::json_report;
use crate::junit_xml::junit_report;
use crate::report::report_text;
use crate::terminal_lines::terminal_report;
use crate::tree_lines::tree_report;
use ext_lifecycle::NodeResult;
use ext_tree::Tree;
use std::alloc::{AllocError, Global};

/// The form in which the report of a run is written.
#[derive(Clone, Copy, Debug, PartialEq, Eq)]
pub enum ReportForm {
    /// A line for each node, and two lines of totals: `report_text`.
    Text,
    /// A JSON object for each node, on a line of its own, and one with the totals: `json_report`.
    Json,
    /// A line for each node, indented further than that of its parent, and two lines of totals:
    /// `tree_report`.
    Tree,
    /// JUnit's XML, with a suite for each container that has tests: `junit_report`.
    Junit,
    /// A line for each node and two lines of totals, for people at a terminal, with colours or
    /// without: `terminal_report`.
    Terminal { colored: bool },
}

/// Returns the report of results in this form, as UTF-8 bytes. Each result is of a context of the
/// tree. Takes memory for the text, and fails with `AllocError` only if that is refused.
pub fn report_in(
    alloc: Global,
    form: ReportForm,
    tree: &Tree,
    results: &[NodeResult],
) -> Result<Vec<u8>, AllocError>
    requires in_tree { All (λ r. r.node < length tree.now) results.now }
    ensures { IfOk result (λ bytes. bytes.items ≡ report_in form tree.now (results_view results.now)) }
{
    match form {
        ReportForm::Text => Ok(report_text(alloc, tree, results)?.into_bytes()),
        ReportForm::Json => json_report(alloc, tree, results),
        ReportForm::Tree => Ok(tree_report(alloc, tree, results)?.into_bytes()),
        ReportForm::Junit => Ok(junit_report(alloc, tree, results)?.into_bytes()),
        ReportForm::Terminal { colored } => {
            Ok(terminal_report(alloc, tree, results, colored)?.into_bytes())
        }
    }
}
