//! Steps of callbacks that act on their node or above for some of its tests alone.
ghost use Rattle.std.specs.Prelude.{ℕ, ◌≡◌, ◌<◌, ◌==◌, ◌&&◌, ◌||◌, length, slice_get, IfOk, OnOk};
ghost use Rattle.ext_plan.specs.Plans.{node_view, plan_view};
ghost use Rattle.ext_lint.specs.Heights.{depth_in, has_depth, is_each, is_test_below};
ghost use Rattle.ext_lint.specs.InnerLists.{has_pair};
ghost use Rattle.ext_lint.specs.Live.{is_among};

use crate::live::path_of;
use crate::node_step::NodeStep;
use crate::note::Note;
use ext_lifecycle::Kind;
use ext_model::ContextNo;
use ext_plan::{Plan, PlanNode};
use ext_tree::Tree;
use std::alloc::{AllocError, Global};
use std::collections::BTreeSet;

/// The depths that there are.
const DEPTHS: [usize; 16] = [1, 2, 3, 4, 5, 6, 7, 8, 9, 10, 11, 12, 13, 14, 15, 16];

/// Each node of a plan with the depths at which tests stand at or below it.
#[derive(Drop)]
pub(crate) struct Heights<'p> {
    plan: &'p Plan,
    depths: BTreeSet<(ContextNo, usize)>,
    ghost all: { (node : ℕ) (depth : ℕ) → has_pair depths node depth ≡ has_depth (plan_view plan.now) node depth },
}

impl<'p> Heights<'p> {
    ghost use Rattle.std.specs.Prelude.{◌++◌, map, not};
    ghost use Rattle.std.specs.List.{flat_map, list_any};
    ghost use Rattle.ext_lint.specs.Heights.{depth_range, has_other, is_uneven, is_uneven_at};
    ghost use Rattle.ext_lint.specs.InnerLists.{note_view};
    ghost use Rattle.ext_lint.specs.NodeSteps.{node_step_view};
    ghost use Rattle.ext_lint.specs.Notes.{uneven_if};

    /// Goes over the tests of a plan. Takes memory for the depths.
    pub(crate) fn of(alloc: Global, plan: &'p Plan) -> Result<Heights<'p>, AllocError>
        ensures { IfOk result (λ heights. heights.plan.now ≡ plan.now) }
    {
        Ok(Heights {
            plan,
            depths: depths_of(alloc, plan)?,
        })
    }

    /// Adds a note for each of these steps that acts on its callback's node or above for some tests
    /// alone.
    pub(crate) fn note_steps(
        &self,
        steps: &[NodeStep<'p>],
        notes: &mut Vec<Note<'p>>,
    ) -> Result<(), AllocError>
        ensures { OnOk result (map note_view notes.new.items ≡ map note_view notes.old.items ++ flat_map (uneven_if (plan_view self.now.plan.now)) (map node_step_view steps.now)) }
    {
        for step in steps {
            self.note_step(step, notes)?;
        }
        Ok(())
    }

    /// Adds the note of a step.
    fn note_step(&self, step: &NodeStep<'p>, notes: &mut Vec<Note<'p>>) -> Result<(), AllocError>
        ensures { OnOk result (map note_view notes.new.items ≡ map note_view notes.old.items ++ uneven_if (plan_view self.now.plan.now) (node_step_view step.now)) }
    {
        if self.is_uneven(step) {
            notes.push(Note::Uneven(*step))?;
        }
        Ok(())
    }

    /// Tests whether the step acts on its callback's node or above for some tests alone.
    fn is_uneven(&self, step: &NodeStep<'_>) -> bool
        ensures { result ≡ is_uneven (plan_view self.now.plan.now) (node_step_view step.now) }
    {
        is_each(step.kind) && self.is_uneven_at_some(step)
    }

    /// Tests whether it does for the tests of some depth, and there are others.
    fn is_uneven_at_some(&self, step: &NodeStep<'_>) -> bool
        ensures { result ≡ list_any (is_uneven_at (plan_view self.now.plan.now) (node_step_view step.now)) depth_range }
    {
        DEPTHS.iter().any(|depth| self.is_uneven_at(step, *depth))
    }

    /// Tests whether it does for the tests of this depth, and there are others.
    fn is_uneven_at(&self, step: &NodeStep<'_>, depth: usize) -> bool
        ensures { result ≡ is_uneven_at (plan_view self.now.plan.now) (node_step_view step.now) depth }
    {
        self.has_depth(step.node, depth)
            && depth.saturating_sub(step.step.height()) <= depth_of(self.plan, step.node)
            && self.has_other(step.node, depth)
    }

    /// Tests whether a test at or below the node stands at another depth.
    fn has_other(&self, node: ContextNo, depth: usize) -> bool
        ensures { result ≡ has_other (plan_view self.now.plan.now) node depth }
    {
        DEPTHS
            .iter()
            .any(|other| self.is_other(node, depth, *other))
    }

    /// Tests whether a test at or below the node stands at the second depth, and that is another.
    fn is_other(&self, node: ContextNo, depth: usize, other: usize) -> bool
        ensures { result ≡ (has_depth (plan_view self.now.plan.now) node other && not (other == depth)) }
    {
        self.has_depth(node, other) && other != depth
    }

    /// Tests whether a test of this depth stands at or below the node.
    fn has_depth(&self, node: ContextNo, depth: usize) -> bool
        ensures { result ≡ has_depth (plan_view self.now.plan.now) node depth }
    {
        self.depths.contains(&(node, depth))
    }
}

/// Each node with the depths at which tests stand at or below it. Takes memory for them.
fn depths_of(alloc: Global, plan: &Plan) -> Result<BTreeSet<(ContextNo, usize)>, AllocError>
    ensures { IfOk result (λ set. (node : ℕ) (depth : ℕ) → has_pair set node depth ≡ has_depth (plan_view plan.now) node depth) }
{
    let tree = plan.tree();
    let mut set = BTreeSet::new(alloc);
    for (number, node) in plan.nodes.iter().enumerate() {
        add_test(tree, number, node, &mut set)?;
    }
    Ok(set)
}

/// Adds the nodes on the path of the node with this number with its depth, if it is a test.
fn add_test(
    tree: &Tree,
    number: ContextNo,
    node: &PlanNode,
    set: &mut BTreeSet<(ContextNo, usize)>,
) -> Result<(), AllocError>
    requires { number < length tree.now }
    ensures { OnOk result ((other : ℕ) (depth : ℕ) → has_pair set.new other depth ≡ (is_test_below tree.now other (λ d. d == depth) number (node_view node.now) || has_pair set.old other depth)) }
{
    if node.test.is_some() {
        let path = path_of(tree, number);
        add_nodes(path, path.len(), set)?;
    }
    Ok(())
}

/// Adds these nodes with this depth.
fn add_nodes(
    nodes: &[ContextNo],
    depth: usize,
    set: &mut BTreeSet<(ContextNo, usize)>,
) -> Result<(), AllocError>
    ensures { OnOk result ((node : ℕ) (other : ℕ) → has_pair set.new node other ≡ (is_among nodes.now node && (depth == other) || has_pair set.old node other)) }
{
    for node in nodes {
        add_node(node, depth, set)?;
    }
    Ok(())
}

/// Adds a node with this depth.
fn add_node(
    node: &ContextNo,
    depth: usize,
    set: &mut BTreeSet<(ContextNo, usize)>,
) -> Result<(), AllocError>
    ensures { OnOk result ((other : ℕ) (of : ℕ) → has_pair set.new other of ≡ ((node.now == other) && (depth == of) || has_pair set.old other of)) }
{
    set.insert((*node, depth))?;
    Ok(())
}

/// Tests whether callbacks of this kind run for each test.
fn is_each(kind: Kind) -> bool
    ensures { result ≡ is_each kind }
{
    matches!(kind, Kind::BeforeEach | Kind::AfterEach)
}

/// How many segments the id of the node has; 0 if the plan has no such node.
pub(crate) fn depth_of(plan: &Plan, node: ContextNo) -> usize
    ensures { result ≡ depth_in (slice_get (plan_view plan.now).nodes node) }
{
    match plan.nodes.get(node) {
        Some(node) => node.id.len(),
        None => 0,
    }
}
