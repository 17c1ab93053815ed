//! On which contexts a step acts for two tests.
ghost use Rattle.std.specs.Prelude.{◌≡◌, ◌++◌, ◌<◌, length, slice_get, string_bytes, IfSome, OnOk};
ghost use Rattle.ext_plan.specs.Plans.{plan_view};
ghost use Rattle.ext_lint.specs.NodeSteps.{node_step_view};
ghost use Rattle.ext_lint.specs.NoteLines.{both_words, context_words, id_if_there, others_words, path_in_plan, uneven_note};

use crate::first_test::{Sought, first_test};
use crate::heights::depth_of;
use crate::live::path_of;
use crate::node_step::NodeStep;
use crate::text::{push_id, push_node_step};
use ext_model::ContextNo;
use ext_plan::Plan;
use std::alloc::AllocError;

/// Adds on which contexts the step acts for the first test for which that is its callback's node or
/// one above, and for the first test at another depth.
pub(crate) fn push_uneven(
    text: &mut String,
    plan: &Plan,
    step: &NodeStep<'_>,
) -> Result<(), AllocError>
    ensures { OnOk result (string_bytes text.new ≡ string_bytes text.old ++ uneven_note (plan_view plan.now) (node_step_view step.now)) }
{
    push_node_step(text, plan, step)?;
    let up = step.step.height();
    write!(text, ": up {up} is ")?;
    let within = Sought::Within(depth_of(plan, step.node), up);
    push_others(
        text,
        plan,
        step.node,
        up,
        first_test(plan, step.node, within),
    )
}

/// Adds the contexts of a test and of the first one at or below the node at another depth.
fn push_others(
    text: &mut String,
    plan: &Plan,
    node: ContextNo,
    up: usize,
    near: Option<ContextNo>,
) -> Result<(), AllocError>
    requires { IfSome near (λ test. test < length plan.now.tree) }
    ensures { OnOk result (string_bytes text.new ≡ string_bytes text.old ++ others_words (plan_view plan.now) node up near) }
{
    match near {
        None => Ok(()),
        Some(near) => {
            let depth = path_of(plan.tree(), near).len();
            let other = first_test(plan, node, Sought::Other(depth));
            push_both(text, plan, up, near, other)
        }
    }
}

/// Adds the contexts of these two tests.
fn push_both(
    text: &mut String,
    plan: &Plan,
    up: usize,
    near: ContextNo,
    other: Option<ContextNo>,
) -> Result<(), AllocError>
    requires near { near < length plan.now.tree }
    requires other { IfSome other (λ test. test < length plan.now.tree) }
    ensures { OnOk result (string_bytes text.new ≡ string_bytes text.old ++ both_words (plan_view plan.now) up near other) }
{
    match other {
        None => Ok(()),
        Some(other) => {
            push_context(text, plan, up, near)?;
            text.push_str(", and ")?;
            push_context(text, plan, up, other)
        }
    }
}

/// Adds the context that stands so much higher than the test, and the test.
fn push_context(
    text: &mut String,
    plan: &Plan,
    up: usize,
    test: ContextNo,
) -> Result<(), AllocError>
    requires { test < length plan.now.tree }
    ensures { OnOk result (string_bytes text.new ≡ string_bytes text.old ++ context_words (plan_view plan.now) up test) }
{
    push_if_there(text, plan, context_above(plan, up, test))?;
    text.push_str(" for ")?;
    push_id(text, plan, test)
}

/// The context that stands so much higher than the test, if there is one.
fn context_above(plan: &Plan, up: usize, test: ContextNo) -> Option<ContextNo>
    requires { test < length plan.now.tree }
    ensures { result ≡ slice_get (path_in_plan (plan_view plan.now) test) up }
{
    path_of(plan.tree(), test).get(up).copied()
}

/// Adds the id of a node, if there is one.
fn push_if_there(text: &mut String, plan: &Plan, node: Option<ContextNo>) -> Result<(), AllocError>
    ensures { OnOk result (string_bytes text.new ≡ string_bytes text.old ++ id_if_there (plan_view plan.now) node) }
{
    match node {
        None => Ok(()),
        Some(node) => push_id(text, plan, node),
    }
}
