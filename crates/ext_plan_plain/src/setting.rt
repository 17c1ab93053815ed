//! What a plain run reads of its plan.
ghost use Rattle.std.specs.Prelude.{◌≡◌, ◌≤◌, is_some, length, map};
ghost use Rattle.std.proofs.Props.{props};
ghost use Rattle.ext_plan.specs.Plans.{keys_view, plan_view, step_view};
ghost use Rattle.ext_plan.specs.StoreKeys.{named_key};
ghost use Rattle.ext_plan.specs.ReadPlans.{CallbacksAreFew, StepListsAreShort, ids_of_nodes};
ghost use Rattle.ext_plan.specs.Steps.{step_limit};

use ext_lifecycle::{Call, Callbacks, Kind};
use ext_model::ContextNo;
use ext_plan::{Plan, Step, StepKeys};
use ext_tree::{Key, Tree};

/// A plan, its declared keys and the tree of its nodes.
#[derive(Drop)]
pub(crate) struct Setting<'a> {
    pub(crate) plan: &'a Plan,
    pub(crate) keys: StepKeys<'a>,
    pub(crate) tree: &'a Tree,
    ghost keyed: { keys_view keys.keys.now ≡ keys_view plan.now.keys.items },
    ghost planted: { tree.now ≡ ids_of_nodes (plan_view plan.now).nodes },
    ghost short: { StepListsAreShort (plan_view plan.now) } by { Prim.hlevel props },
    ghost called: { CallbacksAreFew (plan_view plan.now) },
}

impl<'a> Setting<'a> {
    ghost use Rattle.ext_plan_plain.specs.InnerSteps.{plan_in};
    ghost use Rattle.ext_plan.specs.PlanCalls.{steps_of_call, test_of, concurrent_of};

    /// Joins the plan with the keys of the store that its labels name, in order.
    pub(crate) fn of(plan: &'a Plan, made: &'a [Key]) -> Setting<'a>
        requires keys { made.now ≡ map named_key (keys_view plan.now.keys.items) }
        requires short { StepListsAreShort (plan_view plan.now) }
        requires called { CallbacksAreFew (plan_view plan.now) }
        ensures plan { plan_in result ≡ plan_view plan.now }
        ensures tree { result.tree.now ≡ ids_of_nodes (plan_view plan.now).nodes }
    {
        Setting {
            plan,
            keys: StepKeys::of(plan.keys.as_slice(), made),
            tree: plan.tree(),
        }
    }

    /// Tests whether a node is a test.
    pub(crate) fn is_test(&self, at: ContextNo) -> bool
        ensures { result ≡ is_some (test_of (plan_in self.now) at) }
    {
        self.plan.is_test(at)
    }

    /// Tests whether a node may run concurrently with its siblings.
    pub(crate) fn is_concurrent(&self, at: ContextNo) -> bool
        ensures { result ≡ concurrent_of (plan_in self.now) at }
    {
        self.plan.mode(at).is_concurrent()
    }

    /// The steps of a call, in order.
    pub(crate) fn steps_of(&self, call: &Call) -> &'a [Step]
        ensures steps { map step_view result.now ≡ steps_of_call (plan_in self.now) call.now }
        ensures short { length result.now ≤ step_limit }
    {
        let plan: &'a Plan = self.plan;
        plan.steps_of(call)
    }
}

impl Callbacks for Setting<'_> {
    ghost use Rattle.ext_plan_plain.specs.InnerSteps.{plan_in};
    ghost use Rattle.ext_plan.specs.PlanCalls.{registered};

    ghost registered = { λ s kind node. registered (plan_in s) kind node };

    fn count(&self, kind: Kind, node: ContextNo) -> usize {
        self.plan.callback_count(kind, node)
    }
}
