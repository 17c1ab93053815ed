//! The totals at the end of a report.
ghost use Rattle.std.specs.Prelude.{◌≡◌, ◌++◌, string_bytes, OnOk};
ghost use Rattle.std.specs.List.{count_by};
ghost use Rattle.ext_lifecycle.specs.FaultTexts.{results_view};
ghost use Rattle.ext_report.specs.Report.{tests_with, counts_of, sums_of, counts_line, sums_line};
ghost use Rattle.ext_report.specs.JsonLines.{count_totals, sum_totals};
ghost use Rattle.ext_report.specs.TerminalLines.{shown_counts};

use crate::is_status::is_status;
use crate::terminal_lines::write_count;
use ext_lifecycle::{NodeResult, Status};
use std::alloc::AllocError;

/// How many tests there are, and how many ended in each way.
#[derive(Debug, Drop)]
pub(crate) struct TestCounts {
    tests: usize,
    successful: usize,
    aborted: usize,
    failed: usize,
    skipped: usize,
}

impl TestCounts {
    /// Counts the tests among the results.
    pub(crate) fn of(results: &[NodeResult]) -> TestCounts
        ensures { result ≡ counts_of (results_view results.now) }
    {
        TestCounts {
            tests: tests(results),
            successful: tests_with(Status::Successful, results),
            aborted: tests_with(Status::Aborted, results),
            failed: tests_with(Status::Failed, results),
            skipped: tests_with(Status::Skipped, results),
        }
    }

    /// Writes the line of counts at the end of a text.
    pub(crate) fn write_to(&self, text: &mut String) -> Result<(), AllocError>
        ensures { OnOk result
            (string_bytes text.new ≡ string_bytes text.old ++ counts_line self.now) }
    {
        let TestCounts {
            tests,
            successful,
            aborted,
            failed,
            skipped,
        } = self;
        write!(
            text,
            "tests {tests} successful {successful} aborted {aborted} failed {failed} skipped {skipped}\n"
        )
    }

    /// Writes the line of counts at the end of a text, for people at a terminal.
    pub(crate) fn write_shown_to(&self, text: &mut String, colored: bool) -> Result<(), AllocError>
        ensures { OnOk result
            (string_bytes text.new ≡ string_bytes text.old ++ shown_counts colored self.now) }
    {
        let tests = self.tests;
        write!(text, "tests {tests}")?;
        write_count(text, Status::Successful, self.successful, colored)?;
        write_count(text, Status::Aborted, self.aborted, colored)?;
        write_count(text, Status::Failed, self.failed, colored)?;
        write_count(text, Status::Skipped, self.skipped, colored)?;
        text.push('\n')
    }

    /// Writes the members of the counts at the end of an object of JSON.
    pub(crate) fn write_members_to(&self, text: &mut String) -> Result<(), AllocError>
        ensures { OnOk result
            (string_bytes text.new ≡ string_bytes text.old ++ count_totals self.now) }
    {
        let TestCounts {
            tests,
            successful,
            aborted,
            failed,
            skipped,
        } = self;
        write!(
            text,
            "\"tests\":{tests},\"successful\":{successful},\"aborted\":{aborted},\"failed\":{failed},\"skipped\":{skipped}"
        )
    }
}

#[derive(Debug, Drop)]
pub(crate) struct NodeSums {
    computed: u128,
    found: u128,
    closed: u128,
    close_faults: u128,
}

impl NodeSums {
    /// Adds up the counts of the nodes. A list has fewer than 2^64 of them, so no sum of 64-bit
    /// counts overflows.
    pub(crate) fn of(results: &[NodeResult]) -> NodeSums
        ensures { result ≡ sums_of (results_view results.now) }
    {
        NodeSums {
            computed: results.iter().map(|r| u128::from(r.computed)).sum(),
            found: results.iter().map(|r| u128::from(r.found)).sum(),
            closed: results.iter().map(|r| u128::from(r.closed)).sum(),
            close_faults: results.iter().map(|r| u128::from(r.close_faults)).sum(),
        }
    }

    /// Writes the line of sums at the end of a text.
    #[tactic(auto, unfolding(crate::specs::Report::sums_line))]
    pub(crate) fn write_to(&self, text: &mut String) -> Result<(), AllocError>
        ensures { OnOk result
            (string_bytes text.new ≡ string_bytes text.old ++ sums_line self.now) }
    {
        let NodeSums {
            computed,
            found,
            closed,
            close_faults,
        } = self;
        write!(
            text,
            "computed {computed} found {found} closed {closed} close faults {close_faults}\n"
        )
    }

    /// Writes the members of the sums at the end of an object of JSON that has members.
    #[tactic(auto, unfolding(crate::specs::JsonLines::sum_totals))]
    pub(crate) fn write_members_to(&self, text: &mut String) -> Result<(), AllocError>
        ensures { OnOk result
            (string_bytes text.new ≡ string_bytes text.old ++ sum_totals self.now) }
    {
        let NodeSums {
            computed,
            found,
            closed,
            close_faults,
        } = self;
        write!(
            text,
            ",\"computed\":{computed},\"found\":{found},\"closed\":{closed},\"close_faults\":{close_faults}"
        )
    }
}

/// Counts the results of tests.
fn tests(results: &[NodeResult]) -> usize
    ensures { result ≡ count_by (λ r. r.is_test) (results_view results.now) }
{
    results.iter().filter(|r| r.is_test).count()
}

/// Counts the tests that ended with this status.
fn tests_with(status: Status, results: &[NodeResult]) -> usize
    ensures { result ≡ tests_with status (results_view results.now) }
{
    results
        .iter()
        .filter(|r| r.is_test && is_status(r.status, status))
        .count()
}
