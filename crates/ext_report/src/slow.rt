//! The tests that took longest.
ghost use Rattle.std.specs.Prelude.{◌≡◌, ◌<◌, ◌++◌, length, string_bytes, All, IfOk, OnOk};
ghost use Rattle.std.specs.List.{flat_map};
ghost use Rattle.ext_lifecycle.specs.FaultTexts.{result_view, results_view};
ghost use Rattle.ext_report.specs.Slow.{AreSlowestFirst, AreTold, slow_line, timed_at, timed_test, timed_tests};

use crate::extra::{Extra, extra_of, write_seconds};
use ext_lifecycle::NodeResult;
use ext_model::ContextNo;
use ext_tree::Tree;
use std::alloc::{AllocError, Global};

/// A test, and how many milliseconds it took.
#[derive(Clone, Copy)]
pub(crate) struct Timed {
    node: ContextNo,
    millis: u64,
}

/// Tells the tests that took longest, so many at most, a line each, most first: those among the
/// results whose time is known. The extras stand in the order of the contexts; there may be fewer.
/// The text is empty if no time is known.
///
/// Takes memory for the text and for a list of all tests, and fails with `AllocError` only if that
/// is refused.
pub fn slowest_tests(
    alloc: Global,
    tree: &Tree,
    results: &[NodeResult],
    extras: &[Extra],
    most: usize,
) -> Result<String, AllocError>
    requires in_tree { All (λ r. r.node < length tree.now) results.now }
    ensures { IfOk result
        (λ text. AreTold most tree.now (timed_tests extras.now (results_view results.now)) (string_bytes text)) }
{
    let mut slow = timed_tests(alloc, results, extras)?;
    sort_slowest_first(&mut slow)?;
    slow.truncate(most);
    let text = lines_of(alloc, tree, slow.as_slice())?;
    Ok(text)
}

/// Lists the tests whose time is known. Takes memory for the list.
fn timed_tests(
    alloc: Global,
    results: &[NodeResult],
    extras: &[Extra],
) -> Result<Vec<Timed>, AllocError>
    ensures { IfOk result
        (λ timed. timed.items ≡ timed_tests extras.now (results_view results.now)) }
{
    let mut timed = Vec::new(alloc);
    for node in results {
        push_timed(&mut timed, extras, node)?;
    }
    Ok(timed)
}

/// Adds a node to the list, if it is a test whose time is known.
fn push_timed(timed: &mut Vec<Timed>, extras: &[Extra], node: &NodeResult) -> Result<(), AllocError>
    ensures { OnOk result
        (timed.new.items ≡ timed.old.items ++ timed_test extras.now (result_view node.now)) }
{
    if !node.is_test {
        return Ok(());
    }
    let extra = extra_of(extras, node.node);
    push_at(timed, node.node, extra.millis)
}

/// Adds a test to the list, if its time is known.
fn push_at(timed: &mut Vec<Timed>, node: ContextNo, millis: Option<u64>) -> Result<(), AllocError>
    ensures { OnOk result (timed.new.items ≡ timed.old.items ++ timed_at node millis) }
{
    match millis {
        None => Ok(()),
        Some(millis) => {
            timed.push(Timed { node, millis })?;
            Ok(())
        }
    }
}

/// Sorts the tests by how long they took, most first. Takes memory.
fn sort_slowest_first(timed: &mut Vec<Timed>) -> Result<(), AllocError>
    ensures { OnOk result (AreSlowestFirst timed.old.items timed.new.items) }
{
    timed.sort_by(|first, second| second.millis.cmp(&first.millis))?;
    Ok(())
}

/// The lines of these tests.
fn lines_of(alloc: Global, tree: &Tree, slow: &[Timed]) -> Result<String, AllocError>
    requires in_tree { All (λ timed. timed.node < length tree.now) slow.now }
    ensures { IfOk result (λ text. string_bytes text ≡ flat_map (slow_line tree.now) slow.now) }
{
    let mut text = String::new(alloc);
    for timed in slow {
        write_slow_line(&mut text, tree, timed)?;
    }
    Ok(text)
}

/// Writes the line of a test at the end of a text.
fn write_slow_line(text: &mut String, tree: &Tree, timed: &Timed) -> Result<(), AllocError>
    requires in_tree { timed.now.node < length tree.now }
    ensures { OnOk result
        (string_bytes text.new ≡ string_bytes text.old ++ slow_line tree.now timed.now) }
{
    text.push_str("took ")?;
    write_seconds(text, u128::from(timed.millis))?;
    text.push_str(" s ")?;
    tree.id(timed.node).write_to(text)?;
    text.push('\n')?;
    Ok(())
}
