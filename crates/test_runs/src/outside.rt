//! A value of a lane that a run has not in hand.
ghost use Rattle.std.specs.Prelude.{◌≡◌, ◌<◌, All, length};
ghost use Rattle.ext_store.specs.Stores.{IsLaneOf, closers_below};
ghost use Rattle.ext_engine.specs.TreeRun.{IsUsable};

use crate::opening::{OpenedApart, a_key, open_apart, same};
use ext_closing::CloseAction;
use ext_engine::{
    Call, Callbacks, EngineFault, Kind, Mode, OpenGate, Opened, Outcome, Suite, Verdict, is_leaf,
    leaf_laws, run_tree,
};
use ext_locks::{Held, LockRequest};
use ext_model::{ContextNo, Fault};
use ext_store::{Lane, Store, StoreValue};
use ext_tree::{Key, Tree};
use std::alloc::Global;
use std::process::Abort;
use std::sync::Wait;
use std::thread::Threads;

/// A closeable value.
#[derive(Debug, Drop, PartialEq, Eq)]
pub(crate) struct Page;

impl StoreValue for Page {
    ghost use Rattle.std.specs.Prelude.{true};

    ghost is_closeable = { λ _. true };

    fn closeable(&self) -> bool {
        true
    }
}

/// What closes a value: it does nothing.
#[derive(Drop)]
pub(crate) struct LetGo;

impl CloseAction<Page> for LetGo {
    ghost close_gives = { λ action number value answer left. Unit {0} };

    fn close(&mut self, _number: u32, _value: &Page) -> Result<(), Fault> {
        Ok(())
    }
}

/// Nodes whose calls do nothing. Those with nothing below them are tests, which may run beside one
/// another.
#[derive(Drop)]
pub(crate) struct QuietSuite<'a> {
    pub(crate) tree: &'a Tree,
}

impl Callbacks for QuietSuite<'_> {
    ghost registered = { λ suite kind node. 0 };

    /// No node has callbacks.
    fn count(&self, _kind: Kind, _node: ContextNo) -> usize {
        0
    }
}

impl<'a> Suite<Page> for QuietSuite<'a> {
    ghost use Rattle.std.specs.Prelude.{◌≡◌, []};
    ghost use Rattle.test_runs.specs.Leaves.{leaves_with};

    type Action = LetGo;

    ghost suite_view = { λ suite. leaves_with suite.tree.now [] };

    ghost fits = { λ suite store. suite.tree.now ≡ store.tree };

    ghost call_gives = { λ suite store node call held before outcome after. Unit {0} };

    ghost action_gives = { λ suite node action. Unit {0} };

    fn mode(&self, node: ContextNo) -> Mode {
        if self.is_test(node) {
            Mode::Concurrent
        } else {
            Mode::SameThread
        }
    }

    fn isolated(&self, _node: ContextNo) -> bool {
        false
    }

    fn is_test(&self, node: ContextNo) -> bool {
        is_leaf(self.tree, node)
    }

    fn lock_count(&self, _node: ContextNo) -> usize {
        0
    }

    fn lock<'l>(&'l self, _node: ContextNo, _i: usize) -> Option<LockRequest<'l>> {
        None
    }

    fn is_enabled(&self, _node: ContextNo) -> bool {
        true
    }

    fn action(&self, _node: ContextNo) -> LetGo {
        LetGo
    }

    fn call<R: Wait>(
        &self,
        _rt: &R,
        _store: &Store<Page>,
        _node: ContextNo,
        _call: &Call,
        _lane: &mut Lane<Page>,
        _held: Option<&Held>,
    ) -> Outcome {
        Outcome::of(Verdict::Successful)
    }
}

/// Puts a value into the context.
fn put(rt: &impl Abort, store: &Store<Page>, lane: &mut Lane<Page>, context: ContextNo, key: &Key)
    requires lane { IsLaneOf store.now.id lane.old }
    requires context { context < length store.now.tree }
{
    let Ok(kept) = store.keep(lane, Page) else {
        panic!(rt; "not kept");
    };
    let stood = store.put(lane, context, key, kept);
    assert!(rt; matches!(stood, Ok(None)), "nothing stood there");
}

/// Has the first of the lanes name the key.
fn name_by_first(store: &Store<Page>, lanes: &mut [Lane<Page>], key: &Key)
    requires some { 0 < length lanes.old }
    requires lanes { All (IsLaneOf store.now.id) lanes.old }
    ensures lanes { All (IsLaneOf store.now.id) lanes.new }
    ensures count { length lanes.new ≡ length lanes.old }
{
    let _number = store.number(&mut lanes[0], key);
}

/// Runs the nodes, and asserts that each lane is told the key that the first one named before.
/// Gives why the run is refused.
fn refused<R: Threads + Wait + Sync + Abort>(
    rt: &R,
    alloc: Global,
    opened: Opened<Page>,
    key: &Key,
) -> EngineFault
    requires usable { IsUsable opened.store opened.locks (record { first = opened.lanes.items; second = opened.lock_lanes.items }) }
    requires closers { opened.closers.items ≡ closers_below opened.store.id.cells (length opened.store.tree) }
{
    let Opened {
        store,
        mut lanes,
        closers,
        locks,
        mut lock_lanes,
    } = opened;
    let all_lanes = lanes.as_mut_slice();
    name_by_first(&store, all_lanes, key);
    let suite = QuietSuite { tree: store.tree() };
    leaf_laws(&suite, &store, &locks);
    let ran = run_tree(
        rt,
        alloc,
        &suite,
        &store,
        &locks,
        all_lanes,
        lock_lanes.as_mut_slice(),
        closers,
        &OpenGate,
    );
    assert!(rt; all_lanes.iter().all(|lane| lane.knows_key(0)), "the key");
    match ran {
        Ok(_) => panic!(rt; "not refused"),
        Err(why) => why,
    }
}

/// Asserts that a run on two lanes is refused where a third one has put a value into this context,
/// and that the refusal names it.
fn value_is_unknown<R: Threads + Wait + Sync + Abort>(rt: &R, alloc: Global, context: ContextNo) {
    let key = a_key(alloc).expect(rt, "a key");
    let contexts = &[
        "[engine:x]",
        "[engine:x]/[class:A]",
        "[engine:x]/[class:A]/[method:m()]",
    ];
    let apart = open_apart(alloc, contexts, &[], 2).expect(rt, "a store");
    let OpenedApart {
        opened,
        mut lane,
        lock_lane: _lock_lane,
    } = apart;
    assert!(rt; context < opened.store.tree().len());
    let first = opened.closers.as_slice().first().map(|it| it.context());
    same(rt, first, Some(0), "the first closer");
    put(rt, &opened.store, &mut lane, context, &key);
    let why = refused(rt, alloc, opened, &key);
    same(rt, why, EngineFault::Unjoined(context, 1), "the refusal");
}

/// A value of another lane in the root, shown to nobody, refuses the run as `Unjoined`, and each
/// lane of the run knows the key that its first one named.
/// Tests `run_tree`.
#[test]
fn value_of_another_lane_in_the_root(rt: HostRuntime) {
    value_is_unknown(&rt, rt.alloc(), 0);
}

/// A value of another lane in a container, shown to nobody, refuses the run as `Unjoined`, with
/// that context.
/// Tests `run_tree` and `open_run`.
#[test]
fn value_of_another_lane_in_a_container(rt: HostRuntime) {
    value_is_unknown(&rt, rt.alloc(), 1);
}

/// A value of another lane in the context of a test, shown to nobody, refuses the run as
/// `Unjoined`, with that context.
/// Tests `run_tree`.
#[test]
fn value_of_another_lane_in_a_test(rt: HostRuntime) {
    value_is_unknown(&rt, rt.alloc(), 2);
}
