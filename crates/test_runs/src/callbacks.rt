//! A suite whose class has callbacks.
ghost use Rattle.std.specs.Prelude.{◌≡◌, IfOk, length};
ghost use Rattle.ext_store.specs.Stores.{closers_below};
ghost use Rattle.ext_engine.specs.TreeRun.{IsUsable};

use crate::opening::same;
use crate::outside::{LetGo, Page};
use ext_engine::{
    Call, Callbacks, Kind, Mode, OpenFault, OpenGate, Opened, Outcome, Suite, Verdict, is_leaf,
    leaf_laws, open_run, read_ids, run_tree,
};
use ext_locks::{Held, LockRequest};
use ext_model::{ContextNo, Fault};
use ext_store::{Lane, Limits, Store};
use ext_tree::Tree;
use std::alloc::{AllocError, Global};
use std::process::Abort;
use std::sync::{Mutex, Wait};
use std::thread::Threads;

/// The class, whose tests are the nodes 2 and 3.
const CLASS: ContextNo = 1;

/// Nodes whose calls are noted.
#[derive(Drop)]
struct NotedSuite<'a> {
    tree: &'a Tree,
    calls: &'a Mutex<String>,
}

impl Callbacks for NotedSuite<'_> {
    ghost use Rattle.std.specs.Prelude.{◌==◌, if◌then◌else◌};

    ghost registered = { λ suite kind node. if node == 1 then 1 else 0 };

    /// The class registers one callback of each kind.
    fn count(&self, _kind: Kind, node: ContextNo) -> usize {
        if node == CLASS { 1 } else { 0 }
    }
}

impl NotedSuite<'_> {
    /// Notes a call.
    fn note<R: Wait>(&self, rt: &R, name: &str, node: ContextNo) -> Outcome {
        let mut calls = self.calls.lock(rt);
        match write_call(&mut calls, name, node) {
            Ok(()) => Outcome::of(Verdict::Successful),
            Err(_) => Outcome::of(Verdict::Failed(Fault::Memory)),
        }
    }
}

/// Writes a call at the end of a text.
fn write_call(calls: &mut String, name: &str, node: ContextNo) -> Result<(), AllocError> {
    write!(calls, "{name} of {node}\n")
}

impl<'a> Suite<Page> for NotedSuite<'a> {
    ghost use Rattle.std.specs.Prelude.{◌≡◌, [], false};
    ghost use Rattle.ext_engine.specs.Leaves.{is_leaf};

    type Action = LetGo;

    ghost suite_view = { λ suite. record { is_concurrent = λ node. false; is_isolated = λ node. false; is_test = is_leaf suite.tree.now; locks = λ node. [] } };

    ghost fits = { λ suite store. suite.tree.now ≡ store.tree };

    ghost call_gives = { λ suite store node call held before outcome after. Unit {0} };

    ghost action_gives = { λ suite node action. Unit {0} };

    fn mode(&self, _node: ContextNo) -> Mode {
        Mode::SameThread
    }

    fn isolated(&self, _node: ContextNo) -> bool {
        false
    }

    fn is_test(&self, node: ContextNo) -> bool {
        is_leaf(self.tree, node)
    }

    fn lock_count(&self, _node: ContextNo) -> usize {
        0
    }

    fn lock<'l>(&'l self, _node: ContextNo, _i: usize) -> Option<LockRequest<'l>> {
        None
    }

    fn is_enabled(&self, _node: ContextNo) -> bool {
        true
    }

    fn action(&self, _node: ContextNo) -> LetGo {
        LetGo
    }

    /// A callback of the class comes with the test's node and lane, as the test itself does.
    fn call<R: Wait>(
        &self,
        rt: &R,
        _store: &Store<Page>,
        node: ContextNo,
        call: &Call,
        _lane: &mut Lane<Page>,
        _held: Option<&Held>,
    ) -> Outcome {
        match call.kind {
            Kind::BeforeAll => self.note(rt, "before all", node),
            Kind::BeforeEach => self.note(rt, "before each", node),
            Kind::Test => self.note(rt, "test", node),
            Kind::AfterEach => self.note(rt, "after each", node),
            Kind::AfterAll => self.note(rt, "after all", node),
        }
    }
}

/// Opens a store of an engine, a class and two tests, with one lane.
fn open(alloc: Global) -> Result<Opened<Page>, OpenFault>
    ensures usable { IfOk result (λ o. IsUsable o.store o.locks (record { first = o.lanes.items; second = o.lock_lanes.items })) }
    ensures closers { IfOk result (λ o. o.closers.items ≡ closers_below o.store.id.cells (length o.store.tree)) }
{
    let contexts = &[
        "[engine:x]",
        "[engine:x]/[class:A]",
        "[engine:x]/[class:A]/[method:m1()]",
        "[engine:x]/[class:A]/[method:m2()]",
    ];
    let ids = read_ids(alloc, contexts)?;
    open_run(alloc, ids.as_slice(), &[], Limits::new(1))
}

/// Runs the nodes, and asserts that the run has its results.
fn run<R: Threads + Wait + Sync + Abort>(
    rt: &R,
    alloc: Global,
    opened: Opened<Page>,
    calls: &Mutex<String>,
)
    requires usable { IsUsable opened.store opened.locks (record { first = opened.lanes.items; second = opened.lock_lanes.items }) }
    requires closers { opened.closers.items ≡ closers_below opened.store.id.cells (length opened.store.tree) }
{
    let Opened {
        store,
        mut lanes,
        closers,
        locks,
        mut lock_lanes,
    } = opened;
    let suite = NotedSuite {
        tree: store.tree(),
        calls,
    };
    leaf_laws(&suite, &store, &locks);
    let ran = run_tree(
        rt,
        alloc,
        &suite,
        &store,
        &locks,
        lanes.as_mut_slice(),
        lock_lanes.as_mut_slice(),
        closers,
        &OpenGate,
    );
    assert!(rt; ran.is_ok(), "the run");
}

/// The calls of the class and its tests.
const CALLS: &str = "before all of 1
before each of 2
test of 2
after each of 2
before each of 3
test of 3
after each of 3
after all of 1
";

/// A class registers one callback of each kind, which are called once round its two tests or round
/// each of them, for the node that they belong to.
/// Tests `run_tree`.
#[test]
fn callbacks_of_a_class(rt: HostRuntime) {
    let calls = Mutex::new(String::new(rt.alloc()));
    let opened = open(rt.alloc()).expect(&rt, "a store");
    run(&rt, rt.alloc(), opened, &calls);
    same(&rt, calls.lock(&rt).as_str(), CALLS, "the calls");
}
