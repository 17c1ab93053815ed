//! The steps that a run of a plan may make.
ghost use Rattle.std.specs.Prelude.{◌≡◌, [], ◌∷◌, ◌++◌, ◌<◌, ◌≤◌, ◌&&◌, ◌==◌, All, map, length, IfOk, OnOk};
ghost use Rattle.std.specs.List.{flat_map};
ghost use Rattle.std.proofs.Props.{props};
ghost use Rattle.ext_lifecycle.specs.Callbacks.{test_call};
ghost use Rattle.ext_tree.specs.Trees.{IsPathOf, IsTree};
ghost use Rattle.ext_plan.specs.Plans.{plan_view, step_view};
ghost use Rattle.ext_plan.specs.PlanCalls.{steps_of_call};
ghost use Rattle.ext_plan.specs.ReadPlans.{CallbacksAreFew, ids_of_nodes};
ghost use Rattle.ext_races.specs.InnerMade.{counted, made_views};
ghost use Rattle.ext_races.specs.MadeSteps.{calls_after, calls_before, made_after, made_in_turn, made_of_node, path_of, steps_made};

use ext_lifecycle::{Call, Callbacks, Kind, befores_of, calls_round};
use ext_model::ContextNo;
use ext_plan::{Plan, Step};
use ext_tree::Tree;
use std::alloc::{AllocError, Global};

/// A step that a node may make. All steps between the last one that is marked as the first and this
/// one have succeeded when it runs.
#[derive(Clone, Copy, Debug)]
pub(crate) struct MadeStep<'p> {
    pub(crate) node: ContextNo,
    pub(crate) step: &'p Step,
    pub(crate) first: bool,
}

/// A plan, seen as the number of callbacks that each node registers.
#[derive(Drop)]
pub(crate) struct PlanCallbacks<'a> {
    plan: &'a Plan,
    ghost few: { CallbacksAreFew (plan_view plan.now) },
}

impl Callbacks for PlanCallbacks<'_> {
    ghost use Rattle.ext_plan.specs.Plans.{plan_view};
    ghost use Rattle.ext_plan.specs.PlanCalls.{registered};

    ghost registered = { λ s kind node. registered (plan_view s.plan.now) kind node };

    fn count(&self, kind: Kind, node: ContextNo) -> usize {
        self.plan.callback_count(kind, node)
    }
}

/// Lists the steps that a run of the plan may make, in the order of its nodes. Takes memory for the
/// list: 24 bytes for each step.
pub(crate) fn steps_made<'p>(alloc: Global, plan: &'p Plan) -> Result<Vec<MadeStep<'p>>, AllocError>
    requires { CallbacksAreFew (plan_view plan.now) }
    ensures { IfOk result (λ v. made_views [] v.items ≡ steps_made (plan_view plan.now)) }
{
    let tree = plan.tree();
    let mut made = Vec::new(alloc);
    for node in 0..tree.len() {
        push_node(alloc, plan, node, &mut made)?;
    }
    Ok(made)
}

fn push_node<'p>(
    alloc: Global,
    plan: &'p Plan,
    node: ContextNo,
    made: &mut Vec<MadeStep<'p>>,
) -> Result<(), AllocError>
    requires few { CallbacksAreFew (plan_view plan.now) }
    requires node { node < length (ids_of_nodes (plan_view plan.now).nodes) }
    ensures { OnOk result (made_views [] made.new.items ≡ made_views [] made.old.items ++ made_of_node (plan_view plan.now) node) }
{
    let (calls, afters) = calls_of(alloc, plan, node)?;
    push_in_turn(plan, node, calls.as_slice(), made)?;
    push_each(plan, node, afters.as_slice(), made)?;
    Ok(())
}

/// The calls of a node up to its body, and those after it.
fn calls_of(
    alloc: Global,
    plan: &Plan,
    node: ContextNo,
) -> Result<(Vec<Call>, Vec<Call>), AllocError>
    requires few { CallbacksAreFew (plan_view plan.now) }
    requires node { node < length (ids_of_nodes (plan_view plan.now).nodes) }
    ensures calls { IfOk result (λ v. v.0.items ≡ calls_before (plan_view plan.now) node ++ test_call node ∷ []) }
    ensures afters { IfOk result (λ v. v.1.items ≡ calls_after (plan_view plan.now) node) }
{
    let path = path_in(plan.tree(), node);
    let callbacks = PlanCallbacks { plan };
    let (mut calls, afters) = calls_round(alloc, &callbacks, plan.is_test(node), node, path)?;
    calls.push(Call {
        kind: Kind::Test,
        from: node,
        index: 0,
    })?;
    Ok((calls, afters))
}

/// The callbacks before the body of a node.
pub(crate) fn calls_before(
    alloc: Global,
    plan: &Plan,
    node: ContextNo,
) -> Result<Vec<Call>, AllocError>
    requires few { CallbacksAreFew (plan_view plan.now) }
    requires node { node < length (ids_of_nodes (plan_view plan.now).nodes) }
    ensures { IfOk result (λ v. v.items ≡ calls_before (plan_view plan.now) node) }
{
    let callbacks = PlanCallbacks { plan };
    befores_of(
        alloc,
        &callbacks,
        plan.is_test(node),
        node,
        path_in(plan.tree(), node),
    )
}

/// Adds the steps of calls of which each is made only if those before it were successful.
fn push_in_turn<'p>(
    plan: &'p Plan,
    node: ContextNo,
    calls: &[Call],
    made: &mut Vec<MadeStep<'p>>,
) -> Result<(), AllocError>
    ensures { OnOk result (made_views [] made.new.items ≡ made_views [] made.old.items ++ made_in_turn (plan_view plan.now) node [] calls.now) }
{
    let mut begins = true;
    for call in calls {
        let steps = plan.steps_of(call);
        push_steps(node, steps, begins, made)?;
        begins = still(begins, steps.len());
    }
    Ok(())
}

/// Adds the steps of calls of which each is made, whatever the others came to.
fn push_each<'p>(
    plan: &'p Plan,
    node: ContextNo,
    calls: &[Call],
    made: &mut Vec<MadeStep<'p>>,
) -> Result<(), AllocError>
    ensures { OnOk result (made_views [] made.new.items ≡ made_views [] made.old.items ++ flat_map (λ call. made_after node [] (steps_of_call (plan_view plan.now) call)) calls.now) }
{
    for call in calls {
        push_steps(node, plan.steps_of(call), true, made)?;
    }
    Ok(())
}

/// The path from a node to the root; empty if the tree has no such node.
pub(crate) fn path_in(tree: &Tree, node: ContextNo) -> &[ContextNo]
    ensures path { node < length tree.now → result.now ≡ path_of tree.now node }
    ensures walk { node < length tree.now → IsPathOf tree.now node result.now }
    ensures few { length result.now ≤ 16 }
    ensures within { All (λ c. c < length tree.now) result.now }
{
    if node >= tree.len() {
        return &[];
    }
    tree.path(node).as_slice()
}

/// Adds the steps of a call of the node. If they begin, no steps before them count for them.
fn push_steps<'p>(
    node: ContextNo,
    steps: &'p [Step],
    begins: bool,
    made: &mut Vec<MadeStep<'p>>,
) -> Result<(), AllocError>
    ensures made { OnOk result (made_views [] made.new.items ≡ made_views [] made.old.items ++ made_after node (counted begins made.old.items) (map step_view steps.now)) }
    ensures counted { OnOk result (counted (begins && (length steps.now == 0)) made.new.items ≡ counted begins made.old.items ++ map step_view steps.now) }
{
    for (at, step) in steps.iter().enumerate() {
        let first = still(begins, at);
        made.push(MadeStep { node, step, first })?;
    }
    Ok(())
}

/// Tests whether what begins has not made a step yet.
fn still(begins: bool, made: usize) -> bool
    ensures { result ≡ (begins && (made == 0)) }
{
    begins && made == 0
}
