//! The plain run of a plan, on one thread over the one-thread store.
ghost use Rattle.std.specs.Prelude.{◌≡◌, ◌<◌, ◌∷◌, length, map, filter, fold, All, IfOk, OnOk};
ghost use Rattle.ext_lifecycle.specs.FaultTexts.{result_view, results_view};
ghost use Rattle.ext_lifecycle.specs.Lifecycle.{IsRoomy};
ghost use Rattle.ext_tree.specs.Trees.{IsTree, children_of};
ghost use Rattle.ext_plan.specs.Plans.{plan_view};
ghost use Rattle.ext_plan.specs.ReadPlans.{CallbacksAreFew, HasKeyPlaces, NamespacesHaveParts, StepListsAreShort};
ghost use Rattle.ext_plan_plain.specs.PlainRun.{ArePlain};

use crate::callers::NodeCaller;
use crate::setting::Setting;
use crate::skipped::skipped;
use crate::value_store::ValueStore;
use ext_lifecycle::{
    Call, Kind, NodeResult, RunListener, Tally, afters_of, befores_of, run_afters, run_befores,
    run_calls,
};
use ext_model::ContextNo;
use ext_plan::Plan;
use ext_tree::Tree;
use std::alloc::{AllocError, Global};

/// A plain run between two nodes.
#[derive(Drop)]
pub(crate) struct PlainRunner<'a, L> {
    pub(crate) caller: NodeCaller<'a, L>,
    /// A result for each node, skipped until it has run.
    pub(crate) results: Vec<NodeResult>,
}

/// The outcome of a plain run.
#[derive(Drop)]
pub struct PlainRun {
    /// The results of the nodes, in the order of the plan.
    pub results: Vec<NodeResult>,
    /// Whether a step lacked memory. If it is true, a node failed with `no memory`, or with further
    /// faults besides the one that is reported.
    pub lacked: bool,
}

/// Runs a plan on this thread and returns one result for each node, in the order of the plan.
/// The listener is notified when a node starts, on lane 0, of each of its calls, of each fault of these
/// and of its closes as it comes, and when the node has ended.
///
/// If the plan keeps faults, the fault of a factory stays in its place until it is removed or
/// replaced. The steps that meet it report it, and it is never closed. Otherwise the fault comes
/// back, and the place is empty.
///
/// A key gets its number when a step first names it, and keeps it to the end of the run. At most
/// `key_places` of the plan have one: a step that names another fails with `directory full`. A step
/// that puts has kept its value before, which drew a number. At most `size.numbers()` of the plan
/// are drawn: a step for which none is left fails with `numbers full`. The end of a node seals all
/// places of its context.
///
/// Takes memory for the keys, the lists of calls, the store, the values, the texts of faults and
/// the results. A step that finds none fails with `Fault::Memory`, and the run goes on: the results
/// are those of the plain run in which these steps lack memory. `lacked` tells whether there was
/// such a step. If not, the results are those of the only plain run that the plan has. `AllocError`
/// comes only if memory is refused elsewhere, as for the declared keys, for results or for the end
/// of a context.
///
/// Source: JUnit 5 User Guide, sections "Keeping State in Extensions" and "Relative Execution Order
/// of User Code and Extensions". What runs in which order, and what is reported of a node, are own
/// rules.
pub fn run_plain<'x, L: RunListener>(
    alloc: Global,
    plan: &'x Plan,
    listener: &'x L,
) -> Result<PlainRun, AllocError>
    requires namespaces { NamespacesHaveParts (plan_view plan.now) }
    requires short { StepListsAreShort (plan_view plan.now) }
    requires called { CallbacksAreFew (plan_view plan.now) }
    requires places { HasKeyPlaces (plan_view plan.now) }
    ensures results { IfOk result (λ run. ArePlain (plan_view plan.now) (results_view run.results.items) run.lacked) }
    ensures in_tree { IfOk result (λ run. All (λ r. r.node < length plan.now.nodes.items) run.results.items) }
{
    let made = plan.store_keys(alloc)?;
    let caller = NodeCaller {
        alloc,
        listener,
        setting: Setting::of(plan, made.as_slice()),
        store: ValueStore::new(
            alloc,
            plan.keep_faults,
            plan.key_places,
            plan.size.numbers(),
        ),
        node: 0,
        lacked: false,
    };
    let mut runner = PlainRunner {
        caller,
        results: skipped(alloc, plan.nodes.as_slice())?,
    };
    // No tree is deeper than it has nodes, so this many levels reach all of them.
    let levels = plan.tree().len();
    runner.run_node(alloc, levels, 0)?;
    Ok(PlainRun {
        lacked: runner.caller.lacked,
        results: runner.results,
    })
}

impl<'a, L: RunListener> PlainRunner<'a, L> {
    ghost use Rattle.ext_plan.specs.PlanCalls.{concurrent_of};
    ghost use Rattle.ext_plan_plain.specs.PlainRun.{body_run, container_run, node_run, test_node_run, with_result};
    ghost use Rattle.ext_plan_plain.specs.InnerSteps.{ChildrenRun, EndsNode, NodeRuns, any_child, chosen, plan_in, run_view};

    /// Runs a node and those below it, `levels` levels in all.
    #[cycle(nodes)]
    fn run_node(&mut self, alloc: Global, levels: usize, at: ContextNo) -> Result<(), AllocError>
        requires within { at < length self.old.caller.setting.tree.now }
        requires tree { IsTree self.old.caller.setting.tree.now }
        ensures run { OnOk result (NodeRuns self.old.caller.setting at (node_run (plan_in self.old.caller.setting) levels) (run_view self.old) (run_view self.new)) }
        ensures setting { OnOk result (self.new.caller.setting ≡ self.old.caller.setting) }
    {
        if levels == 0 {
            return Ok(());
        }
        if self.caller.setting.is_test(at) {
            return self.run_test(alloc, at);
        }
        self.run_container(alloc, levels - 1, at)
    }

    /// Runs a test: its before-callbacks, its steps, its after-callbacks, and the end of its
    /// context.
    fn run_test(&mut self, alloc: Global, at: ContextNo) -> Result<(), AllocError>
        requires within { at < length self.old.caller.setting.tree.now }
        requires tree { IsTree self.old.caller.setting.tree.now }
        ensures run { OnOk result (NodeRuns self.old.caller.setting at (test_node_run (plan_in self.old.caller.setting) at) (run_view self.old) (run_view self.new)) }
        ensures setting { OnOk result (self.new.caller.setting ≡ self.old.caller.setting) }
    {
        let path = self.caller.setting.tree.path(at);
        let befores = befores_of(alloc, &self.caller.setting, true, at, path.as_slice())?;
        let afters = afters_of(alloc, &self.caller.setting, true, at, path.as_slice())?;
        let body = Call {
            kind: Kind::Test,
            from: at,
            index: 0,
        };
        self.caller.listener.started(at, 0);
        self.caller.node = at;
        let tally = run_calls(
            befores.as_slice(),
            body,
            afters.as_slice(),
            &mut self.caller,
        );
        self.end_node(alloc, at, true, tally)
    }

    /// Runs a container: its before-callbacks, then, if all were successful, its children, down to
    /// `levels` levels, then its after-callbacks, and the end of its context.
    #[cycle(nodes)]
    fn run_container(
        &mut self,
        alloc: Global,
        levels: usize,
        at: ContextNo,
    ) -> Result<(), AllocError>
        requires within { at < length self.old.caller.setting.tree.now }
        requires tree { IsTree self.old.caller.setting.tree.now }
        ensures run { OnOk result (NodeRuns self.old.caller.setting at (container_run (plan_in self.old.caller.setting) (node_run (plan_in self.old.caller.setting) levels) at) (run_view self.old) (run_view self.new)) }
        ensures setting { OnOk result (self.new.caller.setting ≡ self.old.caller.setting) }
    {
        let path = self.caller.setting.tree.path(at);
        let befores = befores_of(alloc, &self.caller.setting, false, at, path.as_slice())?;
        let afters = afters_of(alloc, &self.caller.setting, false, at, path.as_slice())?;
        self.caller.listener.started(at, 0);
        self.caller.node = at;
        let mut tally = run_befores(befores.as_slice(), &mut self.caller);
        self.run_body(alloc, levels, at, tally.is_successful())?;
        self.caller.node = at;
        run_afters(afters.as_slice(), &mut self.caller, &mut tally);
        self.end_node(alloc, at, false, tally)
    }

    /// Runs the children of a container unless its body is skipped: first the concurrent ones, then
    /// the others.
    #[cycle(nodes)]
    fn run_body(
        &mut self,
        alloc: Global,
        levels: usize,
        at: ContextNo,
        go: bool,
    ) -> Result<(), AllocError>
        requires within { at < length self.old.caller.setting.tree.now }
        requires tree { IsTree self.old.caller.setting.tree.now }
        ensures run { OnOk result (ChildrenRun self.old.caller.setting at any_child (body_run (plan_in self.old.caller.setting) (node_run (plan_in self.old.caller.setting) levels) go) (run_view self.old) (run_view self.new)) }
        ensures setting { OnOk result (self.new.caller.setting ≡ self.old.caller.setting) }
    {
        if !go {
            return Ok(());
        }
        self.run_children(alloc, levels, at, true)?;
        self.run_children(alloc, levels, at, false)
    }

    /// Runs the children of a container that are concurrent, or those that are not, in order.
    #[cycle(nodes)]
    fn run_children(
        &mut self,
        alloc: Global,
        levels: usize,
        at: ContextNo,
        concurrent: bool,
    ) -> Result<(), AllocError>
        requires within { at < length self.old.caller.setting.tree.now }
        requires tree { IsTree self.old.caller.setting.tree.now }
        ensures run { OnOk result (ChildrenRun self.old.caller.setting at (chosen concurrent (concurrent_of (plan_in self.old.caller.setting)))
            (λ path run. fold (λ r child. node_run (plan_in self.old.caller.setting) levels (child ∷ path) r) run
            (filter (chosen concurrent (concurrent_of (plan_in self.old.caller.setting))) (children_of self.old.caller.setting.tree.now at)))
            (run_view self.old) (run_view self.new)) }
        ensures setting { OnOk result (self.new.caller.setting ≡ self.old.caller.setting) }
    {
        let tree: &'a Tree = self.caller.setting.tree;
        let children = tree.children(at);
        for child in children {
            if self.caller.setting.is_concurrent(*child) == concurrent {
                self.run_node(alloc, levels, *child)?;
            }
        }
        Ok(())
    }

    /// Seals the places of all keys in a node's context, including keys without a number. Closes
    /// the closeable values that the seals kept, notifies the listener how the node has ended, and
    /// stores its result.
    fn end_node(
        &mut self,
        alloc: Global,
        at: ContextNo,
        is_test: bool,
        tally: Tally,
    ) -> Result<(), AllocError>
        requires room { IsRoomy 1 tally }
        ensures end { OnOk result (EndsNode self.old.caller.setting at is_test tally (run_view self.old) (run_view self.new)) }
        ensures setting { OnOk result (self.new.caller.setting ≡ self.old.caller.setting) }
    {
        let numbers = self.caller.store.seal_context(at)?;
        let listener = self.caller.listener;
        let closes = self
            .caller
            .store
            .close_values(alloc, listener, at, numbers.as_slice())?;
        let ended = tally.result(at, is_test, closes);
        listener.ended(&ended, self.results.len());
        self.set_result(ended);
        Ok(())
    }

    /// Stores the result of a node, if the list has a place for it.
    fn set_result(&mut self, ended: NodeResult)
        ensures results { results_view self.new.results.items ≡ with_result (result_view ended) (results_view self.old.results.items) }
        ensures caller { self.new.caller ≡ self.old.caller }
    {
        let node = ended.node;
        if node < self.results.len() {
            self.results[node] = ended;
        }
    }
}
