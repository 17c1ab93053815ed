//! The report of a run as a tree.
ghost use Rattle.std.specs.Prelude.{◌≡◌, ◌<◌, ◌++◌, length, map, string_bytes, vec_len, All, IfOk, OnOk};
ghost use Rattle.std.specs.List.{flat_map};
ghost use Rattle.ext_lifecycle.specs.FaultTexts.{result_view, results_view};
ghost use Rattle.ext_report.specs.Groups.{AreGrouped, shown};
ghost use Rattle.ext_report.specs.Report.{outcome_part};
ghost use Rattle.ext_report.specs.TreeLines.{depth_first, depth_first_from, indent, segment_words, tree_head, tree_of, tree_with};
ghost use Rattle.ext_tree.specs.Trees.{id_at};

use crate::extra::Extra;
use crate::grouping::grouped;
use crate::line::write_outcome;
use crate::totals::{NodeSums, TestCounts};
use ext_ids::UniqueId;
use ext_lifecycle::NodeResult;
use ext_model::ContextNo;
use ext_tree::Tree;
use std::alloc::{AllocError, Global};

/// Returns the report of results as a tree: one line for each, depth first, and two lines of
/// totals. Each result is of a context of the tree. A context may have no result, or several.
///
/// The lines of a context come in the order of the list. Each line is indented by two spaces for
/// each context above. It has the last segment of the context's id, and the outcome of the node. A
/// result of no context of the tree would be counted and have no line.
///
/// Takes memory for the text, for the order of the contexts and for a list of each context's
/// results, and fails with `AllocError` only if that is refused.
pub fn tree_report(alloc: Global, tree: &Tree, results: &[NodeResult]) -> Result<String, AllocError>
    ensures { IfOk result
        (λ text. string_bytes text ≡ tree_of tree.now (results_view results.now)) }
{
    tree_report_with(alloc, tree, results, &[])
}

/// Returns the report of results as a tree as `tree_report` does, where the line of a node also
/// tells what is known of it beside its result, as in `report_text_with`.
pub fn tree_report_with(
    alloc: Global,
    tree: &Tree,
    results: &[NodeResult],
    extras: &[Extra],
) -> Result<String, AllocError>
    ensures { IfOk result
        (λ text. string_bytes text ≡ tree_with extras.now tree.now (results_view results.now)) }
{
    let order = depth_first(alloc, tree)?;
    let of_contexts = results_by_context(alloc, tree, results)?;
    let mut text = String::new(alloc);
    for context in order.as_slice() {
        let of_context = of_contexts[*context].as_slice();
        write_tree_lines(&mut text, extras, tree.id(*context), of_context)?;
    }
    TestCounts::of(results).write_to(&mut text)?;
    NodeSums::of(results).write_to(&mut text)?;
    Ok(text)
}

/// Lists the results of each context, by the contexts. Takes memory for the lists.
fn results_by_context<'r>(
    alloc: Global,
    tree: &Tree,
    results: &'r [NodeResult],
) -> Result<Vec<Vec<&'r NodeResult>>, AllocError>
    ensures count { IfOk result (λ groups. vec_len groups ≡ length tree.now) }
    ensures groups { IfOk result
        (λ groups. AreGrouped (length tree.now) (map (λ r. r.node) results.now) results.now groups.items) }
{
    let nodes = nodes_of(alloc, results)?;
    let groups = grouped(alloc, results, nodes.as_slice(), tree.len())?;
    Ok(groups)
}

/// Lists the node of each result. Takes memory for the list.
fn nodes_of(alloc: Global, results: &[NodeResult]) -> Result<Vec<ContextNo>, AllocError>
    ensures { IfOk result (λ nodes. nodes.items ≡ map (λ r. r.node) results.now) }
{
    let mut nodes = Vec::new(alloc);
    for r in results {
        nodes.push(r.node)?;
    }
    Ok(nodes)
}

/// Lists the contexts of the tree depth first: each before those below it, and siblings in the
/// order of the tree.
///
/// Takes memory for the list, and fails with `AllocError` only if that is refused.
pub fn depth_first(alloc: Global, tree: &Tree) -> Result<Vec<ContextNo>, AllocError>
    ensures order { IfOk result (λ order. order.items ≡ depth_first tree.now) }
    ensures in_tree { IfOk result (λ order. All (λ context. context < length tree.now) order.items) }
{
    let mut order = Vec::new(alloc);
    push_from(tree, tree.len(), 0, &mut order)?;
    Ok(order)
}

/// Adds a context and those below it, `levels` levels in all.
fn push_from(
    tree: &Tree,
    levels: usize,
    context: ContextNo,
    order: &mut Vec<ContextNo>,
) -> Result<(), AllocError>
    requires context { context < length tree.now }
    ensures { OnOk result (order.new.items ≡ order.old.items ++ depth_first_from levels tree.now context) }
{
    if levels == 0 {
        return Ok(());
    }
    order.push(context)?;
    for child in tree.children(context) {
        push_from(tree, levels - 1, *child, order)?;
    }
    Ok(())
}

/// Writes a line for each of these results of the context with this id, at the end of a text.
fn write_tree_lines(
    text: &mut String,
    extras: &[Extra],
    id: &UniqueId,
    results: &[&NodeResult],
) -> Result<(), AllocError>
    ensures { OnOk result
        (string_bytes text.new ≡ string_bytes text.old
        ++ flat_map (λ r. tree_head id.now ++ outcome_part extras.now r) (results_view (shown results.now))) }
{
    for node in results {
        write_tree_line(text, extras, id, node)?;
    }
    Ok(())
}

/// Writes the line of a result of the context with this id, at the end of a text.
fn write_tree_line(
    text: &mut String,
    extras: &[Extra],
    id: &UniqueId,
    node: &NodeResult,
) -> Result<(), AllocError>
    ensures { OnOk result
        (string_bytes text.new ≡ string_bytes text.old
        ++ (tree_head id.now ++ outcome_part extras.now (result_view node.now))) }
{
    write_head(text, id)?;
    write_outcome(text, extras, node)
}

/// Writes the beginning of a context's line at the end of a text: the indentation and the last
/// segment of the id. The indentation is two spaces for each context above. The segment is decoded,
/// such as `class:A`.
///
/// Takes memory if the text has no room, and fails with `AllocError` only if that is refused.
pub fn write_head(text: &mut String, id: &UniqueId) -> Result<(), AllocError>
    ensures { OnOk result (string_bytes text.new ≡ string_bytes text.old ++ tree_head id.now) }
{
    let last = id.len() - 1;
    write_indent(text, last)?;
    write_segment(text, id.segment(last))?;
    Ok(())
}

/// Writes a segment, decoded, at the end of a text.
fn write_segment(text: &mut String, segment: (&str, &str)) -> Result<(), AllocError>
    ensures { OnOk result (string_bytes text.new ≡ string_bytes text.old ++ segment_words (segment.entry.0.now, segment.entry.1.now)) }
{
    text.push_str(segment.0)?;
    text.push(':')?;
    text.push_str(segment.1)
}

/// Writes two spaces for each level at the end of a text.
fn write_indent(text: &mut String, levels: usize) -> Result<(), AllocError>
    ensures { OnOk result (string_bytes text.new ≡ string_bytes text.old ++ indent levels) }
{
    for _ in 0..levels {
        text.push_str("  ")?;
    }
    Ok(())
}
