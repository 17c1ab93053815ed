//! The nodes of a plan.
ghost use Rattle.std.specs.Prelude.{◌≡◌, ◌≤◌, [], All, length, map, option_map, IfOk};
ghost use Rattle.toml.specs.View.{table_view};
ghost use Rattle.ext_ids.specs.Reading.{read_id};
ghost use Rattle.ext_model.specs.Sizes.{most_contexts};
ghost use Rattle.ext_tree.specs.Decided.{is_tree};
ghost use Rattle.ext_plan.specs.Plans.{node_view, nodes_view, steps_view};
ghost use Rattle.ext_plan_reading.specs.InnerSketches.{HasRoom, nodes_of_sketches, sketch_view};
ghost use Rattle.ext_plan_reading.specs.Faults.{check, Gives};
ghost use Rattle.ext_plan_reading.specs.NodeReading.{id_or, sketch_at, sketches_after, ids_of, is_bad_test, test_at, node_at, nodes_after, nodes_of_tables};

use crate::callbacks::CallbackSketch;
use crate::depths::least_test_depth;
use crate::fault::{PlanFault, PlanPart};
use crate::fields::{has_only, repeats_at, text_at, text_if_given, texts_at, truth_at};
use crate::labels::Labels;
use crate::locks::locks_of;
use crate::modes::mode_at;
use crate::repeats::with_repetitions;
use crate::steps::steps_of;
use ext_ids::{IdFault, UniqueId};
use ext_model::Size;
use ext_plan::{PlanNode, Step};
use ext_tree::{Tree, TreeFault};
use std::alloc::{AllocError, Global};
use toml::Table;

/// The names of the fields of a node.
pub(crate) const NODE_FIELDS: [&str; 10] = [
    "id",
    "test",
    "repeat",
    "mode",
    "isolated",
    "locks",
    "before_all",
    "after_all",
    "before_each",
    "after_each",
];

/// A node after the first pass: its fields have their types and its id is valid; its mode, locks
/// and steps are still texts. `table` is the number of the table that it comes from.
#[derive(Drop)]
pub(crate) struct NodeSketch<'a> {
    pub table: usize,
    pub id: UniqueId,
    pub mode: Option<&'a str>,
    pub isolated: bool,
    pub locks: Option<Vec<&'a str>>,
    pub callbacks: CallbackSketch<'a>,
    pub test: Option<Vec<&'a str>>,
    pub repeat: Option<usize>,
}

/// The nodes in the tables, in order, of a plan of this size, and the tree of their contexts.
#[tactic(auto, unfolding(crate::specs::NodeReading::nodes_of_tables))]
pub(crate) fn nodes_of_tables(
    alloc: Global,
    size: Size,
    labels: &Labels<'_>,
    tables: &[&Table],
) -> Result<(Vec<PlanNode>, Tree), PlanFault>
    ensures exact { Gives (λ v. nodes_view v.0.items) result (nodes_of_tables size labels.now (map (λ t. table_view t.now) tables.now)) }
    ensures few { IfOk result (λ v. length v.0.items ≤ most_contexts size) }
    ensures contexts { IfOk result (λ v. v.1 ≡ map (λ n. n.id) v.0.items) }
{
    let sketches = sketches_of(alloc, tables)?;
    let sketches = with_repetitions(alloc, size.contexts(), sketches)?;
    nodes_of(alloc, size, labels, sketches.as_slice())
}

/// The nodes of these sketches, in order, of a plan of this size, and the tree of their contexts.
fn nodes_of(
    alloc: Global,
    size: Size,
    labels: &Labels<'_>,
    sketches: &[NodeSketch<'_>],
) -> Result<(Vec<PlanNode>, Tree), PlanFault>
    ensures exact { Gives (λ v. nodes_view v.0.items) result (nodes_of_sketches size labels.now (map sketch_view sketches.now)) }
    ensures few { IfOk result (λ v. length v.0.items ≤ most_contexts size) }
    ensures contexts { IfOk result (λ v. v.1 ≡ map (λ n. n.id) v.0.items) }
{
    let tree = tree_of(alloc, size, sketches)?;
    let nodes = nodes_in_order(alloc, labels, &tree, sketches)?;
    Ok((nodes, tree))
}

/// The first pass over the tables of the nodes, in order.
pub(crate) fn sketches_of<'a>(
    alloc: Global,
    tables: &[&'a Table],
) -> Result<Vec<NodeSketch<'a>>, PlanFault>
    ensures exact { Gives (λ v. map sketch_view v.items) result (sketches_after [] (map (λ t. table_view t.now) tables.now)) }
    ensures room { IfOk result (λ v. All HasRoom (map sketch_view v.items)) }
{
    let mut sketches = Vec::new(alloc);
    for table in tables {
        let sketch = sketch_of(alloc, sketches.len(), table)?;
        sketches.push(sketch)?;
    }
    Ok(sketches)
}

/// The first pass over a node's table. `node` is the table's index in the plan.
#[tactic(auto, unfolding(crate::specs::NodeReading::sketch_at))]
pub(crate) fn sketch_of<'a>(
    alloc: Global,
    node: usize,
    table: &'a Table,
) -> Result<NodeSketch<'a>, PlanFault>
    ensures { Gives sketch_view result (sketch_at node (table_view table.now)) }
{
    if !has_only(&NODE_FIELDS, table) {
        return Err(PlanFault::UnknownField(PlanPart::Node(node)));
    }
    let fault = PlanFault::BadField(PlanPart::Node(node));
    let Some(text) = text_at(table, "id") else {
        return Err(fault);
    };
    let mode = text_if_given(table, "mode", fault)?;
    let isolated = truth_at(table, "isolated", fault)?;
    let locks = texts_at(alloc, table, "locks", fault)?;
    let callbacks = CallbackSketch::of(alloc, node, table)?;
    let test = texts_at(alloc, table, "test", fault)?;
    let repeat = repeats_at(table, "repeat", fault)?;
    if repeat.is_some() && !test.is_some() {
        return Err(fault);
    }
    let id = id_of(alloc, node, text)?;
    if repeat.is_some() && id.len() >= 16 {
        return Err(PlanFault::BadId(node));
    }
    Ok(NodeSketch {
        table: node,
        id,
        mode,
        isolated,
        locks,
        callbacks,
        test,
        repeat,
    })
}

/// The id that a node's text spells, or the node's fault.
fn id_of(alloc: Global, node: usize, text: &str) -> Result<UniqueId, PlanFault>
    ensures { Gives (λ id. id) result (id_or (PlanFault.BadId node) (read_id text.now)) }
{
    match UniqueId::parse(alloc, text) {
        Ok(id) => Ok(id),
        Err(IdFault::Memory) => Err(PlanFault::Memory),
        Err(_) => Err(PlanFault::BadId(node)),
    }
}

pub(crate) fn tree_of(
    alloc: Global,
    size: Size,
    sketches: &[NodeSketch<'_>],
) -> Result<Tree, PlanFault>
    ensures exact { Gives (λ _. tt) result (check PlanFault.BadTree (is_tree (most_contexts size) (ids_of (map sketch_view sketches.now)))) }
    ensures ids { IfOk result (λ tree. tree ≡ ids_of (map sketch_view sketches.now)) }
    ensures few { IfOk result (λ _. length sketches.now ≤ most_contexts size) }
{
    let ids = ids_of(alloc, sketches)?;
    match Tree::build_within(alloc, ids.as_slice(), size.contexts()) {
        Ok(tree) => Ok(tree),
        Err(fault) => match fault {
            TreeFault::Memory => Err(PlanFault::Memory),
            _ => Err(PlanFault::BadTree),
        },
    }
}

/// Copies each node's id, in order.
pub(crate) fn ids_of(
    alloc: Global,
    sketches: &[NodeSketch<'_>],
) -> Result<Vec<UniqueId>, AllocError>
    ensures { IfOk result (λ v. v.items ≡ ids_of (map sketch_view sketches.now)) }
{
    let mut ids = Vec::new(alloc);
    for sketch in sketches {
        ids.push(sketch.id.clone()?)?;
    }
    Ok(ids)
}

/// The second pass over the nodes, in order. `tree` has to be the tree of their ids.
fn nodes_in_order(
    alloc: Global,
    labels: &Labels<'_>,
    tree: &Tree,
    sketches: &[NodeSketch<'_>],
) -> Result<Vec<PlanNode>, PlanFault>
    requires { tree.now ≡ ids_of (map sketch_view sketches.now) }
    ensures exact { Gives (λ v. nodes_view v.items) result (nodes_after labels.now (map sketch_view sketches.now) [] (map sketch_view sketches.now)) }
    ensures count { IfOk result (λ v. length v.items ≡ length sketches.now) }
{
    let mut nodes = Vec::new(alloc);
    for sketch in sketches {
        let number = nodes.len();
        let is_parent = !tree.children(number).is_empty();
        let least = least_test_depth(tree, sketches, number);
        let node = node_of(alloc, labels, is_parent, least, sketch)?;
        nodes.push(node)?;
    }
    Ok(nodes)
}

/// The second pass over a node. `least` is the least number of segments of a test's id at or below
/// it. A test that has children or callbacks round them is refused before its mode and locks are
/// read, and these before its steps.
#[tactic(auto, unfolding(crate::specs::NodeReading::node_at))]
pub(crate) fn node_of(
    alloc: Global,
    labels: &Labels<'_>,
    is_parent: bool,
    least: usize,
    sketch: &NodeSketch<'_>,
) -> Result<PlanNode, PlanFault>
    ensures { Gives node_view result (node_at labels.now is_parent least (sketch_view sketch.now)) }
{
    let node = sketch.table;
    if is_bad_test(is_parent, sketch) {
        return Err(PlanFault::BadTest(node));
    }
    let own = sketch.id.len();
    let mode = mode_at(node, sketch.mode)?;
    let locks = locks_of(alloc, node, &sketch.locks)?;
    let callbacks = sketch.callbacks.read(alloc, labels, own, least, node)?;
    let test = test_of(alloc, labels, own, node, &sketch.test)?;
    Ok(PlanNode {
        id: sketch.id.clone()?,
        mode,
        isolated: sketch.isolated,
        locks,
        before_all: callbacks.before_all,
        after_all: callbacks.after_all,
        before_each: callbacks.before_each,
        after_each: callbacks.after_each,
        test,
    })
}

/// Tests whether a node is a test that has children or callbacks round them.
fn is_bad_test(is_parent: bool, sketch: &NodeSketch<'_>) -> bool
    ensures { result ≡ is_bad_test is_parent (sketch_view sketch.now) }
{
    sketch.test.is_some() && (is_parent || sketch.callbacks.are_of_container())
}

/// The steps of a node, if it is a test. `depth` is the number of segments of its id.
#[tactic(auto, unfolding(crate::specs::NodeReading::test_at))]
fn test_of(
    alloc: Global,
    labels: &Labels<'_>,
    depth: usize,
    node: usize,
    texts: &Option<Vec<&str>>,
) -> Result<Option<Vec<Step>>, PlanFault>
    ensures { Gives (option_map steps_view) result (test_at labels.now depth node (option_map (λ v. map (λ t. t.now) v.items) texts.now)) }
{
    match texts {
        None => Ok(None),
        Some(texts) => Ok(Some(steps_of(alloc, labels, depth, node, texts.as_slice())?)),
    }
}
