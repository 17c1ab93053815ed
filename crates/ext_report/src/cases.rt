//! The cases of a report in JUnit's XML, and how many there are.
ghost use Rattle.std.specs.Prelude.{◌≡◌, ◌≢◌, ◌<◌, ◌++◌, ◌==◌, ◌&&◌, not, length, string_bytes, vec_len, All, IfOk, OnOk};
ghost use Rattle.std.specs.List.{AllZip, count_by};
ghost use Rattle.ext_lifecycle.specs.declared.status.Status.TheVariants.{Failed};
ghost use Rattle.ext_lifecycle.specs.FaultTexts.{result_view, results_view};
ghost use Rattle.ext_report.specs.InnerSuites.{AreSuites, IsSuiteOf, cases_view, counts_of_cases};
ghost use Rattle.ext_report.specs.Report.{is_status};
ghost use Rattle.ext_report.specs.JunitXml.{count_attributes, counts_where, is_case, is_left_out};
ghost use Rattle.ext_tree.specs.Trees.{IsParentOf};

use crate::grouping::grouped;
use crate::is_status::is_status;
use ext_lifecycle::{NodeResult, Status};
use ext_model::ContextNo;
use ext_tree::Tree;
use std::alloc::{AllocError, Global};

/// How many cases there are, and how many of them failed or were left out.
#[derive(Debug, Drop)]
pub(crate) struct CaseCounts {
    tests: usize,
    failures: usize,
    skipped: usize,
}

impl CaseCounts {
    /// Counts the cases among the results.
    pub(crate) fn among(results: &[NodeResult]) -> CaseCounts
        ensures { result ≡ counts_where is_case (results_view results.now) }
    {
        CaseCounts {
            tests: cases(results),
            failures: failed_cases(results),
            skipped: cases_left_out(results),
        }
    }

    /// Counts these cases.
    pub(crate) fn of(cases: &[&NodeResult]) -> CaseCounts
        ensures { result ≡ counts_of_cases (cases_view cases.now) }
    {
        CaseCounts {
            tests: cases.len(),
            failures: failed_in(cases),
            skipped: left_out_in(cases),
        }
    }

    /// Writes the counts at the end of a text, as attributes and the end of their line.
    #[tactic(auto, unfolding(crate::specs::JunitXml::count_attributes))]
    pub(crate) fn write_to(&self, text: &mut String) -> Result<(), AllocError>
        ensures { OnOk result
            (string_bytes text.new ≡ string_bytes text.old ++ count_attributes self.now) }
    {
        let CaseCounts {
            tests,
            failures,
            skipped,
        } = self;
        write!(
            text,
            " tests=\"{tests}\" failures=\"{failures}\" errors=\"0\" skipped=\"{skipped}\">\n"
        )
    }
}

/// Counts the results that are a case.
fn cases(results: &[NodeResult]) -> usize
    ensures { result ≡ count_by is_case (results_view results.now) }
{
    results.iter().filter(|r| is_case(r)).count()
}

/// Counts the cases that failed.
fn failed_cases(results: &[NodeResult]) -> usize
    ensures { result ≡ count_by (λ r. is_case r && is_status r.status Failed) (results_view results.now) }
{
    results
        .iter()
        .filter(|r| is_case(r) && is_status(r.status, Status::Failed))
        .count()
}

/// Counts the cases that were left out.
fn cases_left_out(results: &[NodeResult]) -> usize
    ensures { result ≡ count_by (λ r. is_case r && is_left_out r.status) (results_view results.now) }
{
    results
        .iter()
        .filter(|r| is_case(r) && is_left_out(r.status))
        .count()
}

/// Counts those of these cases that failed.
fn failed_in(cases: &[&NodeResult]) -> usize
    ensures { result ≡ count_by (λ r. is_status r.status Failed) (cases_view cases.now) }
{
    cases
        .iter()
        .filter(|r| is_status(r.status, Status::Failed))
        .count()
}

/// Counts those of these cases that were left out.
fn left_out_in(cases: &[&NodeResult]) -> usize
    ensures { result ≡ count_by (λ r. is_left_out r.status) (cases_view cases.now) }
{
    cases.iter().filter(|r| is_left_out(r.status)).count()
}

/// Lists the cases of each suite, by the suites' contexts. Takes memory for the lists.
pub(crate) fn cases_by_suite<'r>(
    alloc: Global,
    tree: &Tree,
    results: &'r [NodeResult],
) -> Result<Vec<Vec<&'r NodeResult>>, AllocError>
    requires in_tree { All (λ r. r.node < length tree.now) results.now }
    ensures count { IfOk result (λ suites. vec_len suites ≡ length tree.now) }
    ensures cases { IfOk result (λ suites. AreSuites tree.now (results_view results.now) suites.items) }
{
    let numbers = suite_numbers(alloc, tree, results)?;
    let suites = grouped(alloc, results, numbers.as_slice(), tree.len())?;
    Ok(suites)
}

/// Numbers the suite of each result. Takes memory for the numbers.
fn suite_numbers(
    alloc: Global,
    tree: &Tree,
    results: &[NodeResult],
) -> Result<Vec<usize>, AllocError>
    requires in_tree { All (λ r. r.node < length tree.now) results.now }
    ensures { IfOk result (λ numbers. AllZip (IsSuiteOf tree.now) results.now numbers.items) }
{
    let mut numbers = Vec::new(alloc);
    for node in results {
        numbers.push(suite_of(tree, node))?;
    }
    Ok(numbers)
}

/// The context of the suite in which a result is a case: `tree.len()` if it is none.
fn suite_of(tree: &Tree, node: &NodeResult) -> ContextNo
    requires in_tree { node.now.node < length tree.now }
    ensures { IsSuiteOf tree.now node.now result }
{
    let none = tree.len();
    if is_test_below(node) {
        return parent_of(tree, node.node);
    }
    if is_case(node) {
        return node.node;
    }
    none
}

/// Tests whether a result is of a test below the root.
fn is_test_below(node: &NodeResult) -> bool
    ensures { result ≡ (node.now.is_test && not (node.now.node == 0)) }
{
    node.is_test && node.node != 0
}

/// The parent of a context below the root.
fn parent_of(tree: &Tree, context: ContextNo) -> ContextNo
    requires context { context < length tree.now }
    requires below { context ≢ 0 }
    ensures { IsParentOf tree.now result context }
{
    let path = tree.path(context).as_slice();
    path[1]
}

/// Tests whether a result is a case of any suite.
fn is_case(node: &NodeResult) -> bool
    ensures { result ≡ is_case (result_view node.now) }
{
    node.is_test
        || match node.status {
            Status::Aborted | Status::Failed => true,
            Status::Successful | Status::Skipped => false,
        }
}

/// Tests whether a case with this status counts as skipped.
fn is_left_out(status: Status) -> bool
    ensures { result ≡ is_left_out status }
{
    match status {
        Status::Aborted | Status::Skipped => true,
        Status::Successful | Status::Failed => false,
    }
}
