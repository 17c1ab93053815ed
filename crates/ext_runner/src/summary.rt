//! What people are told of a run.
ghost use Rattle.std.specs.Prelude.{◌<◌, All, length};

use crate::live::{write_time, write_word};
use crate::results::earlier_attempts;
use crate::run_log::{Listed, State};
use crate::skipped::left_out;
use ext_report::{NodeResult, Status, write_visible, write_visible_lines};
use ext_table::LeftOut;
use std::alloc::{AllocError, Global};
use std::time::Duration;

/// How many tests ended in each way.
#[derive(Clone, Copy)]
struct Counts {
    passed: usize,
    flaky: usize,
    failed: usize,
    aborted: usize,
    skipped: usize,
    /// Containers that failed or aborted.
    containers: usize,
}

/// How many tests were skipped for each reason.
#[derive(Clone, Copy)]
struct Skips {
    /// So many had failed that no more were begun.
    stopped: usize,
    /// What they stand in is in reserve, and did not come.
    not_come: usize,
    /// What they stand in did not pass before them.
    above: usize,
}

/// What did not pass, each with all that it said, and how many tests ended in each way.
pub(crate) fn summary(
    alloc: Global,
    listed: &[Listed],
    state: &State,
    results: &[NodeResult],
    took: Option<Duration>,
    colored: bool,
) -> Result<String, AllocError> {
    let mut text = String::new(alloc);
    for ran in results {
        if let Some(node) = listed.get(ran.node) {
            write_not_passed(alloc, &mut text, node.id.as_str(), ran, colored)?;
        }
    }
    for (node, log) in listed.iter().zip(state.nodes.iter()) {
        if log.is_flaky() {
            let earlier = earlier_attempts(alloc, log.earlier.as_slice())?;
            write_flaky(&mut text, node.id.as_str(), earlier.as_str(), colored)?;
        }
    }
    write_counts(alloc, &mut text, counts_of(state, results), took, colored)?;
    write_skipped(&mut text, skips_of(listed, state, results))?;
    if state.lost {
        text.push_str("what failed is not told whole, for want of memory\n")?;
    }
    Ok(text)
}

/// Writes a node that failed or aborted, and all that it said.
fn write_not_passed(
    alloc: Global,
    text: &mut String,
    id: &str,
    ran: &NodeResult,
    colored: bool,
) -> Result<(), AllocError> {
    let (word, color) = match ran.status {
        Status::Failed => ("failed ", "\x1b[31m"),
        Status::Aborted => ("aborted", "\x1b[33m"),
        Status::Successful | Status::Skipped => return Ok(()),
    };
    write_word(text, word, color, colored)?;
    text.push_str(" ")?;
    write_visible(text, id)?;
    text.push('\n')?;
    if let Some(fault) = &ran.fault {
        let fault = format!(in alloc; "{fault}")?;
        write_lines_indented(text, fault.as_str())?;
    }
    text.push('\n')
}

/// Writes the lines of a text, each indented.
fn write_lines_indented(text: &mut String, lines: &str) -> Result<(), AllocError> {
    for line in lines.lines() {
        text.push_str("    ")?;
        write_visible_lines(text, line)?;
        text.push('\n')?;
    }
    Ok(())
}

/// Writes a test that passed after attempts that failed, with what they said.
fn write_flaky(
    text: &mut String,
    id: &str,
    earlier: &str,
    colored: bool,
) -> Result<(), AllocError> {
    write_word(text, "flaky  ", "\x1b[33m", colored)?;
    text.push_str(" ")?;
    write_visible(text, id)?;
    text.push('\n')?;
    write_lines_indented(text, earlier)?;
    text.push('\n')
}

/// Counts how tests ended.
fn counts_of(state: &State, results: &[NodeResult]) -> Counts {
    let mut counts = Counts {
        passed: 0,
        flaky: 0,
        failed: 0,
        aborted: 0,
        skipped: 0,
        containers: 0,
    };
    for ran in results {
        let is_flaky = match state.nodes.get(ran.node) {
            Some(log) => log.is_flaky(),
            None => false,
        };
        let count = match (ran.is_test, ran.status) {
            (true, Status::Successful) if is_flaky => &mut counts.flaky,
            (true, Status::Successful) => &mut counts.passed,
            (true, Status::Failed) => &mut counts.failed,
            (true, Status::Aborted) => &mut counts.aborted,
            (true, Status::Skipped) => &mut counts.skipped,
            (false, Status::Failed | Status::Aborted) => &mut counts.containers,
            (false, Status::Successful | Status::Skipped) => continue,
        };
        *count = count.saturating_add(1);
    }
    counts
}

/// Writes how many tests ended in each way, and how long the run took.
fn write_counts(
    alloc: Global,
    text: &mut String,
    counts: Counts,
    took: Option<Duration>,
    colored: bool,
) -> Result<(), AllocError> {
    let mut parts = String::new(alloc);
    write_part(&mut parts, counts.passed, "passed", "\x1b[32m", colored)?;
    write_part(&mut parts, counts.flaky, "flaky", "\x1b[33m", colored)?;
    write_part(&mut parts, counts.failed, "failed", "\x1b[31m", colored)?;
    write_part(&mut parts, counts.aborted, "aborted", "\x1b[33m", colored)?;
    write_part(&mut parts, counts.skipped, "skipped", "\x1b[2m", colored)?;
    let tests = counts
        .passed
        .saturating_add(counts.flaky)
        .saturating_add(counts.failed)
        .saturating_add(counts.aborted)
        .saturating_add(counts.skipped);
    write!(text, "{tests} test")?;
    write_plural(text, tests)?;
    if let Some(took) = took {
        text.push_str(" in ")?;
        write_time(text, took)?;
    }
    text.push_str(parts.as_str())?;
    if counts.containers > 0 {
        let containers = counts.containers;
        write!(text, "; {containers} container")?;
        write_plural(text, containers)?;
        let own = if containers == 1 {
            "itself"
        } else {
            "themselves"
        };
        write!(text, " did not pass {own}")?;
    }
    text.push('\n')
}

/// Writes what ends a word of which there are so many.
fn write_plural(text: &mut String, count: usize) -> Result<(), AllocError> {
    if count == 1 {
        return Ok(());
    }
    text.push('s')
}

/// Writes how many tests ended so, unless none did: behind a colon the first, others behind commas.
fn write_part(
    parts: &mut String,
    count: usize,
    word: &str,
    color: &str,
    colored: bool,
) -> Result<(), AllocError> {
    if count == 0 {
        return Ok(());
    }
    parts.push_str(if parts.is_empty() { ": " } else { ", " })?;
    write!(parts, "{count} ")?;
    write_word(parts, word, color, colored)
}

/// Counts for which reasons tests were skipped.
fn skips_of(listed: &[Listed], state: &State, results: &[NodeResult]) -> Skips {
    let mut skips = Skips {
        stopped: 0,
        not_come: 0,
        above: 0,
    };
    for ran in results {
        if ran.is_test && matches!(ran.status, Status::Skipped) {
            let count = match left_out(listed, state.nodes.as_slice(), ran.node) {
                Some(LeftOut::Stopped) => &mut skips.stopped,
                Some(LeftOut::DidNotCome) => &mut skips.not_come,
                None => &mut skips.above,
            };
            *count = count.saturating_add(1);
        }
    }
    skips
}

/// Says why tests were skipped: for each reason how many.
fn write_skipped(text: &mut String, skips: Skips) -> Result<(), AllocError> {
    if skips.stopped > 0 {
        let count = skips.stopped;
        write!(
            text,
            "{count} skipped: so many had failed that no more were begun\n"
        )?;
    }
    write_for_above(text, skips.not_come, "come")?;
    write_for_above(text, skips.above, "pass before")
}

/// Says how many tests were skipped because of what they stand in, if any were.
fn write_for_above(text: &mut String, count: usize, lacked: &str) -> Result<(), AllocError> {
    if count == 0 {
        return Ok(());
    }
    let stand = if count == 1 {
        "it stands"
    } else {
        "they stand"
    };
    write!(text, "{count} skipped: what {stand} in did not {lacked}\n")
}
