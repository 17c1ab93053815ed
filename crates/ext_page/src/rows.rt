//! The rows of a run's lists.
ghost use Rattle.std.specs.Prelude.{◌≡◌, ◌++◌, option_map, string_bytes, OnOk};
ghost use Rattle.ext_page.specs.Data.{attempt_tokens, closing_tokens, count, fault_tokens, flag, node_tokens, optional_count, optional_text, status, text_of, value_tokens, wait_tokens, waited_tokens};

use crate::run::{Attempt, Closing, FaultRow, Node, SharedValue, Wait, Waited};
use ext_lifecycle::Status;
use json::Writer;
use std::alloc::AllocError;

#[tactic(auto, unfolding(crate::specs::Data::node_tokens))]
pub(crate) fn write_node(writer: &mut Writer, node: &Node) -> Result<(), AllocError>
    ensures before { OnOk result (writer.new.before ≡ writer.old.before) }
    ensures tokens { OnOk result (writer.new.tokens ≡ writer.old.tokens ++ node_tokens node.now) }
{
    writer.begin_array()?;
    write_optional_count(writer, node.parent)?;
    writer.string(node.name.as_str())?;
    write_flag(writer, node.is_test)?;
    write_status(writer, node.status)?;
    writer.end_array()
}

#[tactic(auto, unfolding(crate::specs::Data::attempt_tokens))]
pub(crate) fn write_attempt(writer: &mut Writer, attempt: &Attempt) -> Result<(), AllocError>
    ensures before { OnOk result (writer.new.before ≡ writer.old.before) }
    ensures tokens { OnOk result (writer.new.tokens ≡ writer.old.tokens ++ attempt_tokens attempt.now) }
{
    writer.begin_array()?;
    write_count(writer, attempt.node)?;
    write_count(writer, attempt.lane)?;
    writer.u64(attempt.begun)?;
    writer.u64(attempt.ended)?;
    write_status(writer, attempt.status)?;
    writer.end_array()
}

#[tactic(auto, unfolding(crate::specs::Data::fault_tokens))]
pub(crate) fn write_fault(writer: &mut Writer, fault: &FaultRow) -> Result<(), AllocError>
    ensures before { OnOk result (writer.new.before ≡ writer.old.before) }
    ensures tokens { OnOk result (writer.new.tokens ≡ writer.old.tokens ++ fault_tokens fault.now) }
{
    writer.begin_array()?;
    write_count(writer, fault.node)?;
    write_optional_count(writer, fault.attempt)?;
    writer.string(fault.place.as_str())?;
    writer.string(fault.text.as_str())?;
    writer.end_array()
}

#[tactic(auto, unfolding(crate::specs::Data::wait_tokens))]
pub(crate) fn write_wait(writer: &mut Writer, wait: &Wait) -> Result<(), AllocError>
    ensures before { OnOk result (writer.new.before ≡ writer.old.before) }
    ensures tokens { OnOk result (writer.new.tokens ≡ writer.old.tokens ++ wait_tokens wait.now) }
{
    writer.begin_array()?;
    write_count(writer, wait.lane)?;
    write_count(writer, wait.node)?;
    writer.u64(wait.begun)?;
    writer.u64(wait.ended)?;
    write_waited(writer, wait.waited)?;
    write_optional_count(writer, wait.by)?;
    writer.end_array()
}

fn write_waited(writer: &mut Writer, waited: Waited) -> Result<(), AllocError>
    ensures before { OnOk result (writer.new.before ≡ writer.old.before) }
    ensures tokens { OnOk result (writer.new.tokens ≡ writer.old.tokens ++ waited_tokens waited) }
{
    match waited {
        Waited::ForLock(at) => {
            writer.u64(0)?;
            write_optional_count(writer, at)
        }
        Waited::ForValue(at) => {
            writer.u64(1)?;
            write_count(writer, at)
        }
    }
}

#[tactic(auto, unfolding(crate::specs::Data::value_tokens))]
pub(crate) fn write_value(writer: &mut Writer, value: &SharedValue) -> Result<(), AllocError>
    ensures before { OnOk result (writer.new.before ≡ writer.old.before) }
    ensures tokens { OnOk result (writer.new.tokens ≡ writer.old.tokens ++ value_tokens value.now) }
{
    writer.begin_array()?;
    writer.string(value.key.as_str())?;
    write_count(writer, value.context)?;
    write_count(writer, value.maker)?;
    write_count(writer, value.lane)?;
    write_optional_time(writer, value.begun)?;
    writer.u64(value.ended)?;
    write_optional_text(writer, &value.fault)?;
    writer.u64(value.found)?;
    write_closing(writer, value.closing)?;
    write_optional_text(writer, &value.close_fault)?;
    writer.end_array()
}

fn write_closing(writer: &mut Writer, closing: Option<Closing>) -> Result<(), AllocError>
    ensures before { OnOk result (writer.new.before ≡ writer.old.before) }
    ensures tokens { OnOk result (writer.new.tokens ≡ writer.old.tokens ++ closing_tokens closing) }
{
    match closing {
        None => {
            writer.null()?;
            writer.null()?;
            writer.null()
        }
        Some(closing) => {
            write_count(writer, closing.lane)?;
            writer.u64(closing.begun)?;
            writer.u64(closing.ended)
        }
    }
}

pub(crate) fn write_count(writer: &mut Writer, n: usize) -> Result<(), AllocError>
    ensures before { OnOk result (writer.new.before ≡ writer.old.before) }
    ensures tokens { OnOk result (writer.new.tokens ≡ writer.old.tokens ++ count n) }
{
    writer.u64(n as u64)
}

fn write_optional_count(writer: &mut Writer, n: Option<usize>) -> Result<(), AllocError>
    ensures before { OnOk result (writer.new.before ≡ writer.old.before) }
    ensures tokens { OnOk result (writer.new.tokens ≡ writer.old.tokens ++ optional_count n) }
{
    match n {
        None => writer.null(),
        Some(n) => write_count(writer, n),
    }
}

fn write_optional_time(writer: &mut Writer, time: Option<u64>) -> Result<(), AllocError>
    ensures before { OnOk result (writer.new.before ≡ writer.old.before) }
    ensures tokens { OnOk result (writer.new.tokens ≡ writer.old.tokens ++ optional_count time) }
{
    match time {
        None => writer.null(),
        Some(time) => writer.u64(time),
    }
}

pub(crate) fn write_optional_text(
    writer: &mut Writer,
    text: &Option<String>,
) -> Result<(), AllocError>
    ensures before { OnOk result (writer.new.before ≡ writer.old.before) }
    ensures tokens { OnOk result (writer.new.tokens ≡ writer.old.tokens ++ optional_text (text_of text.now)) }
{
    match text {
        None => writer.null(),
        Some(text) => writer.string(text.as_str()),
    }
}

fn write_flag(writer: &mut Writer, is_so: bool) -> Result<(), AllocError>
    ensures before { OnOk result (writer.new.before ≡ writer.old.before) }
    ensures tokens { OnOk result (writer.new.tokens ≡ writer.old.tokens ++ flag is_so) }
{
    if is_so { writer.u64(1) } else { writer.u64(0) }
}

fn write_status(writer: &mut Writer, ended: Status) -> Result<(), AllocError>
    ensures before { OnOk result (writer.new.before ≡ writer.old.before) }
    ensures tokens { OnOk result (writer.new.tokens ≡ writer.old.tokens ++ status ended) }
{
    match ended {
        Status::Successful => writer.u64(0),
        Status::Failed => writer.u64(1),
        Status::Aborted => writer.u64(2),
        Status::Skipped => writer.u64(3),
    }
}
