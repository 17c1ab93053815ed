//! The steps of a plan, each with its node and its call.
ghost use Rattle.std.specs.Prelude.{◌≡◌, ◌++◌, map, option_map, IfOk, OnOk};
ghost use Rattle.ext_plan.specs.Plans.{node_view, plan_view, step_view, steps_view};
ghost use Rattle.ext_plan.specs.PlanCalls.{or_no_steps};
ghost use Rattle.ext_lint.specs.NodeSteps.{call_at, node_step_view, node_steps, node_steps_of_kind, node_steps_of_node, node_steps_of_call};

use ext_lifecycle::{Call, Kind};
use ext_model::ContextNo;
use ext_plan::{Plan, PlanNode, Step};
use std::alloc::{AllocError, Global};

/// A step of the callback of a node with this kind and index, or of its test, by its number from 0.
#[derive(Clone, Copy, Debug)]
pub(crate) struct NodeStep<'p> {
    pub(crate) node: ContextNo,
    pub(crate) kind: Kind,
    pub(crate) index: usize,
    pub(crate) at: usize,
    pub(crate) step: &'p Step,
}

impl NodeStep<'_> {
    /// The callback or the test that the step is of.
    pub(crate) fn call(&self) -> Call
        ensures { result ≡ call_at (node_step_view self.now) }
    {
        Call {
            kind: self.kind,
            from: self.node,
            index: self.index,
        }
    }
}

/// Lists all steps of the plan, in its order. Takes memory for the list.
pub(crate) fn node_steps_of<'p>(
    alloc: Global,
    plan: &'p Plan,
) -> Result<Vec<NodeStep<'p>>, AllocError>
    ensures { IfOk result (λ v. map node_step_view v.items ≡ node_steps (plan_view plan.now)) }
{
    let mut node_steps = Vec::new(alloc);
    for (number, node) in plan.nodes.iter().enumerate() {
        push_node(number, node, &mut node_steps)?;
    }
    Ok(node_steps)
}

/// Adds the steps of a node's callbacks and of its test.
fn push_node<'p>(
    number: ContextNo,
    node: &'p PlanNode,
    node_steps: &mut Vec<NodeStep<'p>>,
) -> Result<(), AllocError>
    ensures { OnOk result (map node_step_view node_steps.new.items ≡ map node_step_view node_steps.old.items ++ node_steps_of_node number (node_view node.now)) }
{
    push_kind(
        number,
        Kind::BeforeAll,
        node.before_all.as_slice(),
        node_steps,
    )?;
    push_kind(
        number,
        Kind::BeforeEach,
        node.before_each.as_slice(),
        node_steps,
    )?;
    push_test(number, &node.test, node_steps)?;
    push_kind(
        number,
        Kind::AfterEach,
        node.after_each.as_slice(),
        node_steps,
    )?;
    push_kind(
        number,
        Kind::AfterAll,
        node.after_all.as_slice(),
        node_steps,
    )?;
    Ok(())
}

/// Adds the steps of a node's callbacks of one kind.
fn push_kind<'p>(
    number: ContextNo,
    kind: Kind,
    callbacks: &'p [Vec<Step>],
    node_steps: &mut Vec<NodeStep<'p>>,
) -> Result<(), AllocError>
    ensures { OnOk result (map node_step_view node_steps.new.items ≡ map node_step_view node_steps.old.items ++ node_steps_of_kind number kind (map steps_view callbacks.now)) }
{
    for (index, steps) in callbacks.iter().enumerate() {
        push_steps(number, kind, index, steps.as_slice(), node_steps)?;
    }
    Ok(())
}

/// Adds the steps of a node's test, if it is one.
fn push_test<'p>(
    number: ContextNo,
    test: &'p Option<Vec<Step>>,
    node_steps: &mut Vec<NodeStep<'p>>,
) -> Result<(), AllocError>
    ensures { OnOk result (map node_step_view node_steps.new.items ≡ map node_step_view node_steps.old.items ++ node_steps_of_call number Kind.Test 0 (or_no_steps (option_map steps_view test.now))) }
{
    match test {
        None => Ok(()),
        Some(steps) => push_steps(number, Kind::Test, 0, steps.as_slice(), node_steps),
    }
}

/// Adds the steps of a callback or a test.
fn push_steps<'p>(
    node: ContextNo,
    kind: Kind,
    index: usize,
    steps: &'p [Step],
    node_steps: &mut Vec<NodeStep<'p>>,
) -> Result<(), AllocError>
    ensures { OnOk result (map node_step_view node_steps.new.items ≡ map node_step_view node_steps.old.items ++ node_steps_of_call node kind index (map step_view steps.now)) }
{
    for (at, step) in steps.iter().enumerate() {
        node_steps.push(NodeStep {
            node,
            kind,
            index,
            at,
            step,
        })?;
    }
    Ok(())
}
