//! The lines that are told while a run lasts.
use crate::node_log::NodeLog;
use ext_report::{write_seconds, write_visible};
use ext_table::Status;
use std::alloc::{AllocError, Global};
use std::time::Duration;

/// The line of a test that ended: how, how long it took, and its id.
pub(crate) fn ended_line(
    alloc: Global,
    id: &str,
    log: &NodeLog,
    colored: bool,
) -> Result<String, AllocError> {
    let mut line = String::new(alloc);
    write_word(&mut line, word_of(log), color_of(log), colored)?;
    write_took(alloc, &mut line, log.took)?;
    line.push_str("  ")?;
    write_visible(&mut line, id)?;
    if log.is_flaky() {
        let attempt = log.attempt;
        write!(&mut line, ", at attempt {attempt}")?;
    }
    line.push('\n')?;
    Ok(line)
}

/// How a test ended, in six letters or seven.
fn word_of(log: &NodeLog) -> &'static str {
    match log.status {
        Some(Status::Successful) if log.attempt > 1 => "flaky  ",
        Some(Status::Successful) => "passed ",
        Some(Status::Failed) => "failed ",
        Some(Status::Aborted) => "aborted",
        Some(Status::Skipped) | None => "skipped",
    }
}

/// The escape that begins its colour.
fn color_of(log: &NodeLog) -> &'static str {
    match log.status {
        Some(Status::Successful) if log.attempt > 1 => "\x1b[33m",
        Some(Status::Successful) => "\x1b[32m",
        Some(Status::Failed) => "\x1b[31m",
        Some(Status::Aborted) => "\x1b[33m",
        Some(Status::Skipped) | None => "\x1b[2m",
    }
}

/// Writes a word at the end of a text, in this colour if there are colours.
pub(crate) fn write_word(
    text: &mut String,
    word: &str,
    color: &str,
    colored: bool,
) -> Result<(), AllocError> {
    if !colored {
        return text.push_str(word);
    }
    text.push_str(color)?;
    text.push_str(word)?;
    text.push_str("\x1b[0m")
}

/// Writes a time in seconds, in a column of eleven, at the end of a text.
fn write_took(alloc: Global, text: &mut String, took: Option<Duration>) -> Result<(), AllocError> {
    let mut column = String::new(alloc);
    match took {
        Some(took) => write_time(&mut column, took)?,
        None => column.push('-')?,
    }
    let column = column.as_str();
    write!(text, "{column:>11}")
}

/// Writes a time in seconds at the end of a text.
pub(crate) fn write_time(text: &mut String, took: Duration) -> Result<(), AllocError> {
    write_seconds(text, took.as_millis())?;
    text.push_str(" s")
}

/// The line of a test that has run longer than it should.
pub(crate) fn slow_line(alloc: Global, seconds: u32, id: &str) -> Result<String, AllocError> {
    let mut line = String::new(alloc);
    write!(&mut line, "slow    > {seconds} s  ")?;
    write_visible(&mut line, id)?;
    line.push('\n')?;
    Ok(line)
}

/// The line that says how many tests have ended.
pub(crate) fn progress_line(
    alloc: Global,
    ended: usize,
    tests: usize,
) -> Result<String, AllocError> {
    format!(in alloc; "{ended} tests have ended, {tests} are selected\n")
}
