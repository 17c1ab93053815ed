//! A run as JSON.
ghost use Rattle.std.specs.Prelude.{◌≡◌, ◌++◌, ◌∷◌, [], flat_map, string_bytes, IfOk, OnOk};
ghost use Rattle.json.specs.Token.{begin_array, key};
ghost use Rattle.json.specs.Print.{print};
ghost use Rattle.ext_page.specs.Data.{attempt_tokens, call_lists, fact_members, fault_tokens, head_tokens, lock_tokens, node_tokens, run_text, run_tokens, shared_lists, size_members, text_member, text_of, tree_lists, value_tokens, wait_tokens};

use crate::ascii::write_ascii;
use crate::rows::{
    write_attempt, write_count, write_fault, write_node, write_optional_text, write_value,
    write_wait,
};
use crate::run::{Attempt, FaultRow, Node, RunData, RunHead, SharedValue, Wait};
use json::Writer;
use std::alloc::{AllocError, Global};

/// A run as JSON, as it stands in its page: ASCII without `<`, so that it can stand in a script. It is
/// an object with `version`, which is 1, `run`, and the lists of the run by their names, whose rows
/// are lists of their fields in the order of `RunData`; what is not there is null.
///
/// Takes memory for the text, and fails with `AllocError` only if that is refused. An own rule.
#[tactic(auto, unfolding(crate::specs::Data::run_text))]
pub fn data_of(alloc: Global, run: &RunData) -> Result<String, AllocError>
    ensures { IfOk result (λ text. string_bytes text ≡ run_text run.now) }
{
    let mut writer = Writer::new(Vec::new(alloc));
    write_run(&mut writer, run)?;
    let json = written(writer);
    let mut text = String::new(alloc);
    write_ascii(&mut text, json.as_str())?;
    Ok(text)
}

/// What was written, as a text.
fn written(writer: Writer) -> String
    requires { writer.before ≡ [] }
    ensures { string_bytes result ≡ print writer.tokens }
{
    match String::from_utf8(writer.into_inner()) {
        Ok(text) => text,
        Err(_) => unreachable!(),
    }
}

#[tactic(auto, unfolding(crate::specs::Data::run_tokens))]
fn write_run(writer: &mut Writer, run: &RunData) -> Result<(), AllocError>
    ensures before { OnOk result (writer.new.before ≡ writer.old.before) }
    ensures tokens { OnOk result (writer.new.tokens ≡ writer.old.tokens ++ run_tokens run.now) }
{
    writer.begin_object()?;
    writer.key("version")?;
    writer.u64(1)?;
    write_head(writer, &run.head)?;
    write_tree(writer, run)?;
    write_calls(writer, run)?;
    write_shared(writer, run)?;
    writer.end_object()
}

#[tactic(auto, unfolding(crate::specs::Data::head_tokens))]
fn write_head(writer: &mut Writer, head: &RunHead) -> Result<(), AllocError>
    ensures before { OnOk result (writer.new.before ≡ writer.old.before) }
    ensures tokens { OnOk result (writer.new.tokens ≡ writer.old.tokens ++ head_tokens head.now) }
{
    writer.key("run")?;
    writer.begin_object()?;
    writer.key("name")?;
    writer.string(head.name.as_str())?;
    write_facts(writer, head)?;
    writer.end_object()
}

/// Writes what is said of the run beside its name.
#[tactic(auto, unfolding(crate::specs::Data::fact_members))]
fn write_facts(writer: &mut Writer, head: &RunHead) -> Result<(), AllocError>
    ensures before { OnOk result (writer.new.before ≡ writer.old.before) }
    ensures tokens { OnOk result (writer.new.tokens ≡ writer.old.tokens ++ fact_members head.now) }
{
    write_sizes(writer, head.wall, head.lanes)?;
    write_member(writer, "note", &head.note)
}

/// Writes a member whose value is a text, or null.
#[tactic(auto, unfolding(crate::specs::Data::text_member))]
fn write_member(writer: &mut Writer, name: &str, text: &Option<String>) -> Result<(), AllocError>
    ensures before { OnOk result (writer.new.before ≡ writer.old.before) }
    ensures tokens { OnOk result (writer.new.tokens ≡ writer.old.tokens ++ text_member name.now (text_of text.now)) }
{
    writer.key(name)?;
    write_optional_text(writer, text)
}

/// Writes how long the run took, and how many lanes it had.
#[tactic(auto, unfolding(crate::specs::Data::size_members))]
fn write_sizes(writer: &mut Writer, wall: u64, lanes: usize) -> Result<(), AllocError>
    ensures before { OnOk result (writer.new.before ≡ writer.old.before) }
    ensures tokens { OnOk result (writer.new.tokens ≡ writer.old.tokens ++ size_members wall lanes) }
{
    writer.key("wall")?;
    writer.u64(wall)?;
    writer.key("lanes")?;
    write_count(writer, lanes)
}

/// Writes the locks and the nodes.
#[tactic(auto, unfolding(crate::specs::Data::tree_lists))]
fn write_tree(writer: &mut Writer, run: &RunData) -> Result<(), AllocError>
    ensures before { OnOk result (writer.new.before ≡ writer.old.before) }
    ensures tokens { OnOk result (writer.new.tokens ≡ writer.old.tokens ++ tree_lists run.now) }
{
    begin_list(writer, "locks")?;
    write_locks(writer, run.locks.as_slice())?;
    writer.end_array()?;
    begin_list(writer, "nodes")?;
    write_nodes(writer, run.nodes.as_slice())?;
    writer.end_array()
}

/// Writes the attempts and the faults.
#[tactic(auto, unfolding(crate::specs::Data::call_lists))]
fn write_calls(writer: &mut Writer, run: &RunData) -> Result<(), AllocError>
    ensures before { OnOk result (writer.new.before ≡ writer.old.before) }
    ensures tokens { OnOk result (writer.new.tokens ≡ writer.old.tokens ++ call_lists run.now) }
{
    begin_list(writer, "attempts")?;
    write_attempts(writer, run.attempts.as_slice())?;
    writer.end_array()?;
    begin_list(writer, "faults")?;
    write_faults(writer, run.faults.as_slice())?;
    writer.end_array()
}

/// Writes the waits and the values.
#[tactic(auto, unfolding(crate::specs::Data::shared_lists))]
fn write_shared(writer: &mut Writer, run: &RunData) -> Result<(), AllocError>
    ensures before { OnOk result (writer.new.before ≡ writer.old.before) }
    ensures tokens { OnOk result (writer.new.tokens ≡ writer.old.tokens ++ shared_lists run.now) }
{
    begin_list(writer, "waits")?;
    write_waits(writer, run.waits.as_slice())?;
    writer.end_array()?;
    begin_list(writer, "values")?;
    write_values(writer, run.values.as_slice())?;
    writer.end_array()
}

/// Begins a list of this name.
fn begin_list(writer: &mut Writer, name: &str) -> Result<(), AllocError>
    ensures before { OnOk result (writer.new.before ≡ writer.old.before) }
    ensures tokens { OnOk result (writer.new.tokens ≡ writer.old.tokens ++ key name.now ∷ begin_array ∷ []) }
{
    writer.key(name)?;
    writer.begin_array()
}

fn write_locks(writer: &mut Writer, names: &[String]) -> Result<(), AllocError>
    ensures before { OnOk result (writer.new.before ≡ writer.old.before) }
    ensures tokens { OnOk result (writer.new.tokens ≡ writer.old.tokens ++ flat_map lock_tokens names.now) }
{
    for name in names {
        writer.string(name.as_str())?;
    }
    Ok(())
}

fn write_nodes(writer: &mut Writer, nodes: &[Node]) -> Result<(), AllocError>
    ensures before { OnOk result (writer.new.before ≡ writer.old.before) }
    ensures tokens { OnOk result (writer.new.tokens ≡ writer.old.tokens ++ flat_map node_tokens nodes.now) }
{
    for node in nodes {
        write_node(writer, node)?;
    }
    Ok(())
}

fn write_attempts(writer: &mut Writer, attempts: &[Attempt]) -> Result<(), AllocError>
    ensures before { OnOk result (writer.new.before ≡ writer.old.before) }
    ensures tokens { OnOk result (writer.new.tokens ≡ writer.old.tokens ++ flat_map attempt_tokens attempts.now) }
{
    for attempt in attempts {
        write_attempt(writer, attempt)?;
    }
    Ok(())
}

fn write_faults(writer: &mut Writer, faults: &[FaultRow]) -> Result<(), AllocError>
    ensures before { OnOk result (writer.new.before ≡ writer.old.before) }
    ensures tokens { OnOk result (writer.new.tokens ≡ writer.old.tokens ++ flat_map fault_tokens faults.now) }
{
    for fault in faults {
        write_fault(writer, fault)?;
    }
    Ok(())
}

fn write_waits(writer: &mut Writer, waits: &[Wait]) -> Result<(), AllocError>
    ensures before { OnOk result (writer.new.before ≡ writer.old.before) }
    ensures tokens { OnOk result (writer.new.tokens ≡ writer.old.tokens ++ flat_map wait_tokens waits.now) }
{
    for wait in waits {
        write_wait(writer, wait)?;
    }
    Ok(())
}

fn write_values(writer: &mut Writer, values: &[SharedValue]) -> Result<(), AllocError>
    ensures before { OnOk result (writer.new.before ≡ writer.old.before) }
    ensures tokens { OnOk result (writer.new.tokens ≡ writer.old.tokens ++ flat_map value_tokens values.now) }
{
    for value in values {
        write_value(writer, value)?;
    }
    Ok(())
}
