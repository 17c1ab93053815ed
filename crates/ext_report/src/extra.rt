//! What an engine knows of its nodes beside their results.
ghost use Rattle.std.specs.Prelude.{◌≡◌, ◌++◌, string_bytes, OnOk};
ghost use Rattle.ext_report.specs.Extras.{attempt_part, extra_of, extra_part, flaky_part, seconds, time_part, whole_millis};

use ext_lifecycle::Status;
use ext_model::ContextNo;
use std::alloc::AllocError;
use std::time::Duration;

/// What an engine knows of a node beside its result, by a clock and a count of its own: a suite
/// notes it in its calls. Of a node of which nothing is known it is the default.
#[derive(Clone, Copy, Debug, Default, PartialEq, Eq)]
pub struct Extra {
    /// How long the node took, in milliseconds.
    pub millis: Option<u64>,
    /// The attempt at which it passed, from 1. It is told from 2 on, and of a successful node
    /// alone.
    pub attempt: u32,
}

impl Extra {
    ghost use Rattle.ext_report.specs.Extras.{extra_by};

    /// What is known of a node that took this long, whose last attempt is this one. The time is not
    /// known where its milliseconds do not fit 64 bits.
    pub fn new(took: Option<Duration>, attempt: u32) -> Extra
        ensures { result ≡ extra_by took attempt }
    {
        Extra {
            millis: whole_millis(took),
            attempt,
        }
    }
}

/// The time in whole milliseconds, if it is known and they fit.
fn whole_millis(took: Option<Duration>) -> Option<u64>
    ensures { result ≡ whole_millis took }
{
    match took {
        Some(took) => u64::try_from(took.as_millis()).ok(),
        None => None,
    }
}

/// What is known of a node: nothing past the end of the list.
pub(crate) fn extra_of(extras: &[Extra], node: ContextNo) -> Extra
    ensures { result ≡ extra_of extras.now node }
{
    match extras.get(node) {
        Some(extra) => *extra,
        None => Extra {
            millis: None,
            attempt: 0,
        },
    }
}

/// Writes what is known of a node with this status at the end of a text, for its line.
pub(crate) fn write_extra(text: &mut String, status: Status, extra: Extra) -> Result<(), AllocError>
    ensures { OnOk result
        (string_bytes text.new ≡ string_bytes text.old ++ extra_part status extra) }
{
    write_time(text, extra.millis)?;
    write_attempt(text, status, extra.attempt)
}

/// Writes how long a node took at the end of a text, where it is known.
fn write_time(text: &mut String, millis: Option<u64>) -> Result<(), AllocError>
    ensures { OnOk result (string_bytes text.new ≡ string_bytes text.old ++ time_part millis) }
{
    match millis {
        None => Ok(()),
        Some(millis) => {
            text.push_str(" took ")?;
            write_seconds(text, u128::from(millis))?;
            text.push_str(" s")
        }
    }
}

/// Writes at which attempt a node with this status passed, at the end of a text: nothing if it was
/// the first, or if the node is not successful.
fn write_attempt(text: &mut String, status: Status, attempt: u32) -> Result<(), AllocError>
    ensures { OnOk result
        (string_bytes text.new ≡ string_bytes text.old ++ attempt_part status attempt) }
{
    match status {
        Status::Successful => write_flaky(text, attempt),
        Status::Aborted | Status::Failed | Status::Skipped => Ok(()),
    }
}

/// Writes at which attempt a successful node passed, at the end of a text.
fn write_flaky(text: &mut String, attempt: u32) -> Result<(), AllocError>
    ensures { OnOk result
        (string_bytes text.new ≡ string_bytes text.old ++ flaky_part attempt) }
{
    if attempt > 1 {
        write!(text, " flaky, passed at attempt {attempt}")?;
    }
    Ok(())
}

/// Writes milliseconds as seconds with three decimals, as `0.123`, at the end of a text.
///
/// Takes memory if the text has no room, and fails with `AllocError` only if that is refused.
pub fn write_seconds(text: &mut String, millis: u128) -> Result<(), AllocError>
    ensures { OnOk result (string_bytes text.new ≡ string_bytes text.old ++ seconds millis) }
{
    let whole = millis / 1000;
    let (tenths, hundredths) = (millis / 100 % 10, millis / 10 % 10);
    let thousandths = millis % 10;
    write!(text, "{whole}.{tenths}{hundredths}{thousandths}")
}
