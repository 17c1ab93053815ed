//! What is done for a container before and after its children.
ghost use Rattle.std.specs.Prelude.{◌≡◌, ℕ, ◌-◌, ◌<◌, ◌≤◌, List, length, All, IfOk, IfErr, false};
ghost use Rattle.ext_lifecycle.specs.declared.outcome.Outcome.{Outcome};
ghost use Rattle.ext_store.specs.Stores.{IsLaneOf};
ghost use Rattle.ext_engine.specs.declared.node.fault.EngineFault.TheVariants as engine_fault;
ghost use Rattle.ext_engine.specs.InnerClosers.{IsNode};
ghost use Rattle.ext_engine.specs.NodeRun.{EndsContainer, setting_of};
ghost use Rattle.ext_engine.specs.InnerResults.{ran_view};
ghost use Rattle.ext_engine.specs.InnerContainers.{AreChildren, IsOpen, IsOpenBy, Opens};
ghost use Rattle.ext_engine.specs.NodeFailing.{IsLeftUnclosed};

use crate::Suite;
use crate::node::parts::{Parts, container_parts};
use crate::node::{Children, EngineFault, Item, NodeRunner, RanNode, call_afters, call_befores};
use ext_lifecycle::{Call, Tally};
use ext_model::ContextNo;
use ext_store::{Closer, Lane, StoreValue};
use std::alloc::Global;
use std::sync::Wait;

/// A container whose before-callbacks were called.
#[derive(Drop)]
pub(crate) struct OpenContainer {
    /// The closer of its context.
    pub closer: Closer,
    /// Its after-callbacks, in the order of their calls.
    pub afters: Vec<Call>,
    /// The tally of its calls so far.
    pub tally: Tally,
    /// Whether all before-callbacks were successful, so that its children are run.
    pub went_on: bool,
}

/// Opens a container: tells the suite that it starts, and calls its before-callbacks on the first
/// lane, in order, up to the first that isn't successful. Answers what is left to be done after its
/// children, and these.
///
/// The item is a container with the closers of its subtree, and `depth` is 17 less the levels from
/// the root to it. There is at least one lane, all are the store's, and the suite may be run over
/// the store. Refused as `Memory` where there is none for its lists: then nothing was called, the
/// lanes are as they were, and the closers are dropped, so that its context stays open. Takes
/// memory. What more a call takes, and for whom it waits, is its own matter.
///
/// JUnit 5 User Guide, section "Relative Execution Order of User Code and Extensions".
pub(crate) fn open_container<'a, R: Wait, V: StoreValue + Drop, S: Suite<V>>(
    nodes: &NodeRunner<'a, R, V, S>,
    alloc: Global,
    depth: usize,
    item: Item,
    lanes: &mut [Lane<V>],
) -> Result<(OpenContainer, Children), EngineFault>
    requires item { IsNode nodes.now.store.now depth item }
    requires container { (S.suite_view nodes.now.suite.now).is_test item.node ≡ false }
    requires suite_fits { S.fits nodes.now.suite.now nodes.now.store.now }
    requires lanes { 0 < length lanes.old }
    requires own_lanes { All (IsLaneOf nodes.now.store.now.id) lanes.old }
    ensures own_lanes { All (IsLaneOf nodes.now.store.now.id) lanes.new }
    ensures count { length lanes.new ≡ length lanes.old }
    ensures begun { IfOk result (λ r. IsOpen nodes.now.store.now item.node r.0) }
    ensures befores { IfOk result (λ r. Opens (setting_of V.is_closeable S.suite_view S.enabled_gives S.registered S.call_gives S.action_gives S.Action.close_gives
        nodes.now.suite.now nodes.now.store.now nodes.now.locks.now) item.node lanes.old r.0 lanes.new) }
    ensures children { IfOk result (λ r. AreChildren nodes.now.store.now (S.suite_view nodes.now.suite.now) (depth - 1) item.node r.1 × (1 ≤ depth)) }
    ensures fault { IfErr result (λ why. why ≡ engine_fault.Memory) }
    ensures untouched { IfErr result (λ _. lanes.new ≡ lanes.old) }
{
    let node = item.node;
    let Parts {
        closer,
        befores,
        afters,
        children,
    } = container_parts(nodes, alloc, depth, item)?;
    nodes.suite.started(node, lanes[0].number());
    let tally = call_befores(
        nodes.rt,
        nodes.suite,
        nodes.store,
        node,
        &mut lanes[0],
        befores.as_slice(),
    );
    let went_on = tally.is_successful();
    let begun = OpenContainer {
        closer,
        afters,
        tally,
        went_on,
    };
    Ok((begun, children))
}

/// Closes a container: calls its after-callbacks on the first lane, in order, however each ends,
/// closes its context with all lanes, tells the suite how it ended, and answers its result.
///
/// The container is one that `open_container` gave. There is at least one lane, all are the
/// store's, and the suite may be run over the store. Refused as `Unjoined` where its context can't
/// be closed, as no lane in hand knows a value that remains in it: its calls were made then, and
/// its context stays open. What memory a call takes is its own matter. May wait.
///
/// JUnit 5 User Guide, sections "Relative Execution Order of User Code and Extensions" and "Keeping
/// State in Extensions".
pub(crate) fn close_container<'a, R: Wait, V: StoreValue + Drop, S: Suite<V>>(
    nodes: &NodeRunner<'a, R, V, S>,
    node: ContextNo,
    begun: OpenContainer,
    lanes: &mut [Lane<V>],
) -> Result<RanNode, EngineFault>
    requires begun { IsOpen nodes.now.store.now node begun }
    requires container { (S.suite_view nodes.now.suite.now).is_test node ≡ false }
    requires suite_fits { S.fits nodes.now.suite.now nodes.now.store.now }
    requires lanes { 0 < length lanes.old }
    requires own_lanes { All (IsLaneOf nodes.now.store.now.id) lanes.old }
    ensures own_lanes { All (IsLaneOf nodes.now.store.now.id) lanes.new }
    ensures count { length lanes.new ≡ length lanes.old }
    ensures ends { IfOk result (λ ran. (path : List ℕ) (befores : List Outcome) → IsOpenBy (S.registered nodes.now.suite.now) node path befores begun
        → EndsContainer (setting_of V.is_closeable S.suite_view S.enabled_gives S.registered S.call_gives S.action_gives S.Action.close_gives
        nodes.now.suite.now nodes.now.store.now nodes.now.locks.now) node path befores lanes.old (ran_view ran) lanes.new) }
    ensures unclosed { IfErr result (λ why. (path : List ℕ) (befores : List Outcome) → IsOpenBy (S.registered nodes.now.suite.now) node path befores begun
        → IsLeftUnclosed (setting_of V.is_closeable S.suite_view S.enabled_gives S.registered S.call_gives S.action_gives S.Action.close_gives
        nodes.now.suite.now nodes.now.store.now nodes.now.locks.now) node path lanes.old why lanes.new) }
{
    let OpenContainer {
        closer,
        afters,
        mut tally,
        went_on,
    } = begun;
    call_afters(
        nodes.rt,
        nodes.suite,
        nodes.store,
        node,
        &mut lanes[0],
        afters.as_slice(),
        &mut tally,
    );
    match nodes.close_node(node, closer, lanes) {
        Ok(closes) => {
            let ended = tally.result(node, false, closes);
            nodes.suite.ended(&ended);
            Ok(RanNode {
                result: ended,
                went_on,
            })
        }
        Err(number) => Err(EngineFault::Unjoined(node, number)),
    }
}
