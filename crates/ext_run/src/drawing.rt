//! A plan, drawn as a tree.
ghost use Rattle.std.specs.Prelude.{◌≡◌, ◌≢◌, ◌≤◌, ◌+◌, ◌++◌, ℕ, List, length, option_map, string_bytes, IfOk, IfErr, IfSome, OnOk};
ghost use Rattle.std.specs.Io.KnownBytes.{Consumes, Appends};
ghost use Rattle.std.specs.List.{flat_map, slice_get};
ghost use Rattle.ext_plan_reading.specs.Plans.{lock_view, node_view, nodes_view, plan_view, steps_view};
ghost use Rattle.ext_run.specs.Reports.{input_limit, plan_of_bytes, plan_of_input};
ghost use Rattle.ext_run.specs.Checks.{RefusedUnrun};
ghost use Rattle.ext_run.specs.Drawings.{IsTextOf, TextAs, drawing_of, drawn_line, lock_words, node_line, node_words, test_words, word_if};

use crate::fault::RunFault;
use crate::input::read_input;
use crate::reading::plan_of;
use crate::runs::write_whole;
use ext_model::Size;
use ext_plan_reading::{Plan, PlanLock, PlanNode, Step};
use ext_report::{depth_first, write_head};
use std::alloc::{AllocError, Global};
use std::io::{Read, Write};

/// Reads a plan of at most this size and draws its nodes as a tree, one line each, depth first,
/// without running it. A line is, for example, `  class:A, concurrent, READ db`.
///
/// It reads like `run`, and is refused like `check`. Takes memory for the input, the plan and the
/// drawing, and gives all of it back. It waits only for the reader and the writer.
#[tactic(auto, unfolding(crate::specs::Reports::plan_of_input))]
pub fn draw<I: Read, W: Write>(
    alloc: Global,
    reader: &mut I,
    writer: &mut W,
    size: Size,
) -> Result<(), RunFault>
    ensures written { OnOk result (IfSome (I.remaining reader.old) (λ input. (text : List ℕ)
        × IsTextOf drawing_of (plan_of_input size input) text
        × Appends (W.contents writer.old) (W.contents writer.new) text)) }
    ensures refused { IfErr result (λ fault. IfSome (I.remaining reader.old)
        (λ input. RefusedUnrun fault (plan_of_input size input))) }
    ensures unwritten { IfErr result (λ fault. fault ≢ RunFault.Write → writer.new ≡ writer.old) }
    ensures taken { (bytes : List ℕ) × (length bytes ≤ input_limit size + 1)
        × Consumes (I.remaining reader.old) (I.remaining reader.new) bytes }
{
    let input = read_input(alloc, reader, size)?;
    let text = text_of(alloc, input.as_slice(), size)?;
    write_whole(writer, text.as_bytes())
}

/// The drawing of the plan in these bytes.
fn text_of(alloc: Global, input: &[u8], size: Size) -> Result<String, RunFault>
    ensures { TextAs string_bytes drawing_of result (plan_of_bytes size input.now) }
{
    match plan_of(alloc, input, size) {
        Ok(plan) => Ok(drawing_of(alloc, &plan)?),
        Err(fault) => Err(RunFault::Plan(fault)),
    }
}

fn drawing_of(alloc: Global, plan: &Plan) -> Result<String, AllocError>
    ensures { IfOk result (λ text. string_bytes text ≡ drawing_of (plan_view plan.now)) }
{
    let order = depth_first(alloc, plan.tree())?;
    drawing_in(alloc, plan.nodes.as_slice(), order.as_slice())
}

/// The lines of the nodes with these indexes.
fn drawing_in(alloc: Global, nodes: &[PlanNode], order: &[usize]) -> Result<String, AllocError>
    ensures { IfOk result (λ text. string_bytes text ≡ flat_map (λ context. node_line (slice_get (nodes_view nodes.now) context)) order.now) }
{
    let mut text = String::new(alloc);
    for index in order {
        write_line_at(&mut text, nodes, *index)?;
    }
    Ok(text)
}

/// Writes the line of the node with this index at the end of a text, if there is one.
fn write_line_at(text: &mut String, nodes: &[PlanNode], index: usize) -> Result<(), AllocError>
    ensures { OnOk result (string_bytes text.new ≡ string_bytes text.old ++ node_line (slice_get (nodes_view nodes.now) index)) }
{
    match nodes.get(index) {
        None => Ok(()),
        Some(node) => write_line(text, node),
    }
}

/// Writes the line of a node at the end of a text.
fn write_line(text: &mut String, node: &PlanNode) -> Result<(), AllocError>
    ensures { OnOk result (string_bytes text.new ≡ string_bytes text.old ++ drawn_line (node_view node.now)) }
{
    write_head(text, &node.id)?;
    write_words(text, node)?;
    text.push('\n')
}

/// Writes the rest of a node's line, after its head, at the end of a text.
fn write_words(text: &mut String, node: &PlanNode) -> Result<(), AllocError>
    ensures { OnOk result (string_bytes text.new ≡ string_bytes text.old ++ node_words (node_view node.now)) }
{
    write_word(text, node.mode.is_concurrent(), ", concurrent")?;
    write_word(text, node.isolated, ", isolated")?;
    write_locks(text, node.locks.as_slice())?;
    write_test(text, &node.test)?;
    Ok(())
}

/// Writes a word at the end of a text, if it applies.
fn write_word(text: &mut String, applies: bool, word: &str) -> Result<(), AllocError>
    ensures { OnOk result (string_bytes text.new ≡ string_bytes text.old ++ word_if applies word.now) }
{
    if applies {
        return text.push_str(word);
    }
    Ok(())
}

/// Writes the locks that a node names at the end of a text.
fn write_locks(text: &mut String, locks: &[PlanLock]) -> Result<(), AllocError>
    ensures { OnOk result (string_bytes text.new ≡ string_bytes text.old ++ flat_map (λ lock. lock_words (lock_view lock)) locks.now) }
{
    for lock in locks {
        write_lock(text, lock)?;
    }
    Ok(())
}

/// Writes a lock at the end of a text.
fn write_lock(text: &mut String, lock: &PlanLock) -> Result<(), AllocError>
    ensures { OnOk result (string_bytes text.new ≡ string_bytes text.old ++ lock_words (lock_view lock.now)) }
{
    match lock {
        PlanLock::Read(name) => write_two(text, ", READ ", name.as_str()),
        PlanLock::ReadWrite(name) => write_two(text, ", READ_WRITE ", name.as_str()),
    }
}

/// Writes two texts at the end of a text.
fn write_two(text: &mut String, first: &str, second: &str) -> Result<(), AllocError>
    ensures { OnOk result (string_bytes text.new ≡ string_bytes text.old ++ (first.now ++ second.now)) }
{
    text.push_str(first)?;
    text.push_str(second)
}

/// Writes the number of a test's steps at the end of a text, if the node is a test.
fn write_test(text: &mut String, test: &Option<Vec<Step>>) -> Result<(), AllocError>
    ensures { OnOk result (string_bytes text.new ≡ string_bytes text.old ++ test_words (option_map steps_view test.now)) }
{
    match test {
        None => Ok(()),
        Some(steps) => {
            let count = steps.len();
            write!(text, ", test of {count} steps")
        }
    }
}
