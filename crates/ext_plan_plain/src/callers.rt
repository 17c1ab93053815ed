//! The calls of a node, each on the store of the run.
use crate::setting::Setting;
use crate::value_store::ValueStore;
use ext_lifecycle::{Call, Caller, FaultOrigin, Outcome, RunListener, tell_fault};
use ext_model::ContextNo;
use std::alloc::Global;

/// Makes the calls of one node after another, and reports each with its fault to the listener.
#[derive(Drop)]
pub(crate) struct NodeCaller<'a, L> {
    pub(crate) alloc: Global,
    pub(crate) listener: &'a L,
    pub(crate) setting: Setting<'a>,
    pub(crate) store: ValueStore<'a>,
    /// The node whose calls are made.
    pub(crate) node: ContextNo,
    /// Whether a step has lacked memory.
    pub(crate) lacked: bool,
}

impl<L> NodeCaller<'_, L> {
    ghost use Rattle.std.specs.Prelude.{◌≡◌, false};

    /// Tests whether a step has lacked memory, before or now.
    fn has_lacked(&self, now: bool) -> bool
        ensures before { result ≡ false → self.now.lacked ≡ false }
        ensures now { result ≡ false → now ≡ false }
        ensures neither { self.now.lacked ≡ false → now ≡ false → result ≡ false }
    {
        self.lacked || now
    }
}

impl<L: RunListener> Caller for NodeCaller<'_, L> {
    ghost use Rattle.ext_plan_plain.specs.InnerSteps.{DoesCall, IsReady};

    ghost ready = { λ c. IsReady c };

    ghost reference = { λ _. 0 };

    ghost call_gives = { λ before call outcome after. DoesCall before call outcome after };

    fn call(&mut self, call: &Call) -> Outcome {
        self.listener.called(self.node, call);
        let steps = self.setting.steps_of(call);
        let keys = self.setting.keys;
        let path = self.setting.tree.path(self.node);
        let alloc = self.alloc;
        let end = self.store.run_steps(alloc, &keys, path.as_slice(), steps);
        self.lacked = self.has_lacked(end.lacked);
        let origin = FaultOrigin::Step {
            call: *call,
            step: end.passed,
        };
        tell_fault(
            self.listener,
            self.node,
            origin,
            end.outcome.verdict.fault(),
        );
        end.outcome
    }
}
