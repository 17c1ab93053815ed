//! The suite of a plan.
ghost use Rattle.std.specs.Prelude.{◌≡◌, IfOk};
ghost use Rattle.ext_plan.specs.ReadPlans.{CallbacksAreFew, NamespacesHaveParts, StepListsAreShort};
ghost use Rattle.ext_plan.specs.Plans.{lock_view, plan_view};
ghost use Rattle.ext_engine.specs.Suites.{asks};
ghost use Rattle.ext_plan_parallel.specs.PlanSuites.{asked};

use crate::PlanAction;
use crate::steps::{StoreSteps, StoredValue};
use ext_engine::{Call, Callbacks, Kind, Mode, Outcome, Suite};
use ext_lifecycle::{FaultOrigin, NodeResult, RunListener, tell_fault};
use ext_locks::{Held, LockMode, LockRequest, Resource};
use ext_model::{ContextNo, LaneNo};
use ext_plan::{Plan, PlanLock, StepKeys};
use ext_store::{Lane, Store};
use ext_tree::Key;
use std::alloc::{AllocError, Global};
use std::marker::Model;
use std::sync::Wait;

/// A plan as a suite for the engine: the nodes are the plan's, in its order, and their calls make
/// the plan's steps. Contracts see it as the plan. The listener is notified when a node starts, of
/// each of its calls, of each fault of these and of its closes, and when the node has ended.
#[derive(Drop)]
pub struct PlanSuite<'a, L> {
    alloc: Global,
    plan: &'a Plan,
    listener: &'a L,
    // The key of each label, in the order of the plan.
    keys: Vec<Key>,
}

impl<'a, L> Model for PlanSuite<'a, L> {
    ghost use Rattle.ext_plan.specs.Plans.{PlanText, plan_view};
    ghost use Rattle.ext_plan_parallel.specs.InnerSuites.{IsSuiteOf};

    ghost Value = { PlanText };

    ghost view = { λ s. plan_view s.plan.now };

    ghost invariant = { λ s. IsSuiteOf (plan_view s.plan.now) s.keys.items };
}

impl<'a, L> PlanSuite<'a, L> {
    /// Makes the suite of a plan, which reports the events of its nodes to `listener`. Takes memory
    /// for the keys of the plan's labels. `alloc` also serves the steps of a run, among them a step
    /// that names no label, whose key is made when it runs.
    ///
    /// A created namespace has a part, and the lists of steps and callbacks are within a plan's
    /// limits, as in each plan that was read. Fails with `AllocError` only if memory is refused.
    pub fn new(
        alloc: Global,
        plan: &'a Plan,
        listener: &'a L,
    ) -> Result<PlanSuite<'a, L>, AllocError>
        requires parts { NamespacesHaveParts (plan_view plan.now) }
        requires short { StepListsAreShort (plan_view plan.now) }
        requires few { CallbacksAreFew (plan_view plan.now) }
        ensures { IfOk result (λ suite. suite ≡ plan_view plan.now) }
    {
        let keys = plan.store_keys(alloc)?;
        Ok(PlanSuite {
            alloc,
            plan,
            listener,
            keys,
        })
    }
}

impl<L> Callbacks for PlanSuite<'_, L> {
    ghost use Rattle.ext_plan.specs.PlanCalls.{registered};

    ghost registered = { registered };

    fn count(&self, kind: Kind, node: ContextNo) -> usize {
        self.plan.callback_count(kind, node)
    }
}

impl<'a, L: RunListener + Sync> Suite<StoredValue<'a>> for PlanSuite<'a, L> {
    ghost use Rattle.ext_plan_parallel.specs.PlanSuites.{suite_of, RunsCall};

    type Action = PlanAction<'a, L>;

    ghost suite_view = { suite_of };

    ghost fits = { λ plan store. Unit {0} };

    ghost call_gives = { λ plan store node call held before outcome after. RunsCall plan store node call before outcome after };

    ghost action_gives = { λ plan node action. action ≡ node };

    fn mode(&self, node: ContextNo) -> Mode {
        self.plan.mode(node)
    }

    fn isolated(&self, node: ContextNo) -> bool {
        self.plan.is_isolated(node)
    }

    fn is_test(&self, node: ContextNo) -> bool {
        self.plan.is_test(node)
    }

    fn lock_count(&self, node: ContextNo) -> usize {
        self.plan.locks_of(node).len()
    }

    fn lock<'l>(&'l self, node: ContextNo, i: usize) -> Option<LockRequest<'l>> {
        let lock = self.plan.locks_of(node).get(i)?;
        Some(request(lock))
    }

    fn is_enabled(&self, _node: ContextNo) -> bool {
        true
    }

    /// An action that closes the node's values, and reports each fault to the listener.
    fn action(&self, node: ContextNo) -> PlanAction<'a, L> {
        PlanAction::new(self.alloc, node, self.listener)
    }

    fn started(&self, node: ContextNo, lane: LaneNo) {
        self.listener.started(node, lane);
    }

    fn ended(&self, ran: &NodeResult) {
        self.listener.ended(ran, self.plan.nodes.len());
    }

    /// Tells the listener that the call begins, makes its steps in the node's context, up to the
    /// first that is not successful, and reports the fault of that one to the listener.
    fn call<R: Wait>(
        &self,
        rt: &R,
        store: &Store<StoredValue<'a>>,
        node: ContextNo,
        call: &Call,
        lane: &mut Lane<StoredValue<'a>>,
        _held: Option<&Held>,
    ) -> Outcome {
        self.listener.called(node, call);
        let plan: &'a Plan = self.plan;
        let names = StepKeys::of(plan.keys.as_slice(), self.keys.as_slice());
        let steps = StoreSteps::of(self.alloc, names);
        let path = store.tree().path(node);
        let end = steps.run(rt, store, lane, path.as_slice(), plan.steps_of(call));
        let origin = FaultOrigin::Step {
            call: *call,
            step: end.passed,
        };
        tell_fault(self.listener, node, origin, end.outcome.verdict.fault());
        end.outcome
    }
}

/// The request for a lock that a node names.
fn request(lock: &PlanLock) -> LockRequest<'_>
    ensures { asks result ≡ asked (lock_view lock.now) }
{
    match lock {
        PlanLock::Read(name) => LockRequest {
            resource: Resource::Named(name.as_str()),
            mode: LockMode::Read,
        },
        PlanLock::ReadWrite(name) => LockRequest {
            resource: Resource::Named(name.as_str()),
            mode: LockMode::ReadWrite,
        },
    }
}
