//! The line of a node in a report.
ghost use Rattle.std.specs.Prelude.{◌≡◌, ◌++◌, string_bytes, OnOk, Some};
ghost use Rattle.ext_lifecycle.specs.FaultTexts.{fault_text, result_view};
ghost use Rattle.ext_report.specs.Report.{status_text, fault_part, fault_and_further, further_faults, line_of, outcome_part};

use crate::extra::{Extra, extra_of, write_extra};
use ext_ids::UniqueId;
use ext_lifecycle::{NodeResult, Status};
use ext_model::Fault;
use std::alloc::AllocError;

/// Writes the line of a node at the end of a text.
pub(crate) fn write_line(
    text: &mut String,
    extras: &[Extra],
    id: &UniqueId,
    node: &NodeResult,
) -> Result<(), AllocError>
    ensures { OnOk result
        (string_bytes text.new ≡ string_bytes text.old ++ line_of extras.now id.now (result_view node.now)) }
{
    id.write_to(text)?;
    write_outcome(text, extras, node)
}

/// Writes a node's outcome, which ends its line, at the end of a text.
pub(crate) fn write_outcome(
    text: &mut String,
    extras: &[Extra],
    node: &NodeResult,
) -> Result<(), AllocError>
    ensures { OnOk result
        (string_bytes text.new ≡ string_bytes text.old ++ outcome_part extras.now (result_view node.now)) }
{
    let status = status_text(node.status);
    let closed = node.closed;
    write!(text, " {status} closed {closed}")?;
    write_extra(text, node.status, extra_of(extras, node.node))?;
    write_fault(text, node)?;
    text.push('\n')
}

/// Writes a node's faults at the end of a text: nothing unless it aborted or failed.
pub(crate) fn write_fault(text: &mut String, node: &NodeResult) -> Result<(), AllocError>
    ensures { OnOk result
        (string_bytes text.new ≡ string_bytes text.old ++ fault_part (result_view node.now)) }
{
    match node.status {
        Status::Successful | Status::Skipped => Ok(()),
        Status::Aborted | Status::Failed => match &node.fault {
            None => Ok(()),
            Some(fault) => write_fault_and_further(text, fault, node.more),
        },
    }
}

/// Writes a fault, and how many others there are, at the end of a text.
fn write_fault_and_further(text: &mut String, fault: &Fault, more: u64) -> Result<(), AllocError>
    ensures { OnOk result
        (string_bytes text.new ≡ string_bytes text.old
        ++ fault_and_further (Some (fault_text fault.now)) more) }
{
    let words = fault_text(fault);
    write!(text, ": {words}")?;
    write_further(text, more)
}

/// Writes how many other faults there are, if any, at the end of a text.
fn write_further(text: &mut String, more: u64) -> Result<(), AllocError>
    ensures { OnOk result (string_bytes text.new ≡ string_bytes text.old ++ further_faults more) }
{
    if more != 0 {
        write!(text, " (+{more})")?;
    }
    Ok(())
}

pub(crate) fn status_text(status: Status) -> &'static str
    ensures { result.now ≡ status_text status }
{
    match status {
        Status::Successful => "successful",
        Status::Aborted => "aborted",
        Status::Failed => "failed",
        Status::Skipped => "skipped",
    }
}

pub(crate) fn fault_text(fault: &Fault) -> &str
    ensures { result.now ≡ fault_text fault.now }
{
    match fault {
        Fault::Text(text) => text.as_str(),
        Fault::Memory => "no memory",
    }
}
