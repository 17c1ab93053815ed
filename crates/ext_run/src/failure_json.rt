//! A fault of a node as JSON.
ghost use Rattle.std.specs.Prelude.{◌≡◌, ◌++◌, string_bytes, IfOk, OnOk};
ghost use Rattle.json.specs.Print.{print};
ghost use Rattle.ext_races.specs.RaceJson.{text_member};
ghost use Rattle.ext_report.specs.JsonLines.{count_member};
ghost use Rattle.ext_report.specs.JsonTexts.{json_text};
ghost use Rattle.ext_run.specs.FailureJson.{call_members, callback_members, failure_json, failure_object, null_member, origin_members, plain_members};

use crate::failures::{NodeFault, write_id};
use ext_ids::UniqueId;
use ext_lifecycle::{Call, FaultOrigin, Kind};
use ext_model::ContextNo;
use ext_report::printed_json;
use ext_tree::Tree;
use json::Writer;
use std::alloc::{AllocError, Global};

/// Writes the object of a fault of the node with this id on a line at the end of a text.
pub(crate) fn write_object(
    text: &mut String,
    alloc: Global,
    tree: &Tree,
    id: &UniqueId,
    fault: &NodeFault,
) -> Result<(), AllocError>
    ensures { OnOk result (string_bytes text.new ≡ string_bytes text.old ++ failure_json tree.now id.now fault.now) }
{
    let object = object_of(alloc, tree, id, fault)?;
    text.push_str(object.as_str())?;
    text.push_str("\n")
}

fn object_of(
    alloc: Global,
    tree: &Tree,
    id: &UniqueId,
    fault: &NodeFault,
) -> Result<String, AllocError>
    ensures { IfOk result (λ object. string_bytes object ≡ json_text (print (failure_object tree.now id.now fault.now))) }
{
    let mut writer = Writer::new(Vec::new(alloc));
    write_members(&mut writer, alloc, tree, id, fault)?;
    let text = printed_json(alloc, writer)?;
    Ok(text)
}

/// Writes the object of a fault with its members.
#[tactic(auto, unfolding(crate::specs::FailureJson::failure_object))]
fn write_members(
    writer: &mut Writer,
    alloc: Global,
    tree: &Tree,
    id: &UniqueId,
    fault: &NodeFault,
) -> Result<(), AllocError>
    ensures before { OnOk result (writer.new.before ≡ writer.old.before) }
    ensures tokens { OnOk result (writer.new.tokens ≡ writer.old.tokens ++ failure_object tree.now id.now fault.now) }
{
    let mut name = String::new(alloc);
    id.write_to(&mut name)?;
    writer.begin_object()?;
    write_text(writer, "id", name.as_str())?;
    write_text(writer, "fault", fault.text.as_str())?;
    write_origin(writer, alloc, tree, fault.origin)?;
    writer.end_object()
}

/// Writes the members that tell the origin of a fault.
fn write_origin(
    writer: &mut Writer,
    alloc: Global,
    tree: &Tree,
    origin: FaultOrigin,
) -> Result<(), AllocError>
    ensures before { OnOk result (writer.new.before ≡ writer.old.before) }
    ensures tokens { OnOk result (writer.new.tokens ≡ writer.old.tokens ++ origin_members tree.now origin) }
{
    match origin {
        FaultOrigin::Step { call, step } => {
            write_call(writer, alloc, tree, call)?;
            write_count(writer, "step", step)
        }
        FaultOrigin::Close => {
            write_plain(writer, "close")?;
            write_null(writer, "step")
        }
    }
}

/// Writes the members that tell which of a node's calls it is.
#[tactic(auto, unfolding(crate::specs::FailureJson::call_members))]
fn write_call(writer: &mut Writer, alloc: Global, tree: &Tree, call: Call) -> Result<(), AllocError>
    ensures before { OnOk result (writer.new.before ≡ writer.old.before) }
    ensures tokens { OnOk result (writer.new.tokens ≡ writer.old.tokens ++ call_members tree.now call.kind call.from call.index) }
{
    let Call { kind, from, index } = call;
    match kind {
        Kind::BeforeAll => write_callback(writer, alloc, tree, "before_all", index, from),
        Kind::BeforeEach => write_callback(writer, alloc, tree, "before_each", index, from),
        Kind::Test => write_plain(writer, "test"),
        Kind::AfterEach => write_callback(writer, alloc, tree, "after_each", index, from),
        Kind::AfterAll => write_callback(writer, alloc, tree, "after_all", index, from),
    }
}

/// Writes which callback it is, and the node that registered it.
fn write_callback(
    writer: &mut Writer,
    alloc: Global,
    tree: &Tree,
    name: &str,
    index: usize,
    from: ContextNo,
) -> Result<(), AllocError>
    ensures before { OnOk result (writer.new.before ≡ writer.old.before) }
    ensures tokens { OnOk result (writer.new.tokens ≡ writer.old.tokens ++ callback_members tree.now name.now index from) }
{
    let mut id = String::new(alloc);
    write_id(&mut id, tree, from)?;
    write_text(writer, "call", name)?;
    write_count(writer, "index", index)?;
    write_text(writer, "of", id.as_str())
}

/// Writes what is no callback.
fn write_plain(writer: &mut Writer, name: &str) -> Result<(), AllocError>
    ensures before { OnOk result (writer.new.before ≡ writer.old.before) }
    ensures tokens { OnOk result (writer.new.tokens ≡ writer.old.tokens ++ plain_members name.now) }
{
    write_text(writer, "call", name)?;
    write_null(writer, "index")?;
    write_null(writer, "of")
}

/// Writes a member whose value is a text.
fn write_text(writer: &mut Writer, name: &str, text: &str) -> Result<(), AllocError>
    ensures before { OnOk result (writer.new.before ≡ writer.old.before) }
    ensures tokens { OnOk result (writer.new.tokens ≡ writer.old.tokens ++ text_member name.now text.now) }
{
    writer.key(name)?;
    writer.string(text)
}

/// Writes a member whose value is a number.
fn write_count(writer: &mut Writer, name: &str, count: usize) -> Result<(), AllocError>
    ensures before { OnOk result (writer.new.before ≡ writer.old.before) }
    ensures tokens { OnOk result (writer.new.tokens ≡ writer.old.tokens ++ count_member name.now count) }
{
    writer.key(name)?;
    writer.u64(count as u64)
}

/// Writes a member that does not apply.
fn write_null(writer: &mut Writer, name: &str) -> Result<(), AllocError>
    ensures before { OnOk result (writer.new.before ≡ writer.old.before) }
    ensures tokens { OnOk result (writer.new.tokens ≡ writer.old.tokens ++ null_member name.now) }
{
    writer.key(name)?;
    writer.null()
}
