//! The locks of a test while its context is closed.
ghost use Rattle.std.specs.Prelude.{◌≡◌, ◌+◌, IsPermutation, [], ◌∷◌, codes, length};
ghost use Rattle.ext_locks.specs.Sets.{AllBelow};
ghost use Rattle.ext_store.specs.Stores.{closers_below};
ghost use Rattle.ext_engine.specs.TreeRun.{IsIdle, IsUsable};

use crate::gates::reaches;
use crate::opening::{OpenedApart, a_key, open_apart, same};
use ext_closing::CloseAction;
use ext_engine::{
    Call, Callbacks, Kind, Mode, OpenGate, Opened, Outcome, Suite, Verdict, is_leaf, leaf_laws,
    run_tree,
};
use ext_locks::{Held, LockLane, LockMode, LockRefusal, LockRequest, LockSet, Locks, Resource};
use ext_model::{ContextNo, Fault};
use ext_report::report_text;
use ext_store::{Closer, Lane, Store, StoreValue};
use ext_tree::{Key, Tree};
use std::alloc::Global;
use std::process::Abort;
use std::sync::Wait;
use std::sync::atomic::{AtomicU64, Ordering};
use std::thread::{Threads, join};

/// A closeable value.
#[derive(Debug, Drop, PartialEq, Eq)]
struct Table;

impl StoreValue for Table {
    ghost use Rattle.std.specs.Prelude.{true};

    ghost is_closeable = { λ _. true };

    fn closeable(&self) -> bool {
        true
    }
}

/// That the value is being closed, and that another lane has tried to take the lock meanwhile.
#[derive(Drop)]
struct Signs {
    closing: AtomicU64,
    tried: AtomicU64,
}

impl Signs {
    fn new() -> Signs {
        Signs {
            closing: AtomicU64::new(0),
            tried: AtomicU64::new(0),
        }
    }
}

/// What closes the value: it lets the other lane try, and fails where that one has not tried in
/// time.
#[derive(Drop)]
struct LetTry<'a> {
    signs: &'a Signs,
}

impl CloseAction<Table> for LetTry<'_> {
    ghost close_gives = { λ action number value answer left. Unit {0} };

    fn close(&mut self, _number: u32, _value: &Table) -> Result<(), Fault> {
        self.signs.closing.store(1, Ordering::SeqCst);
        if reaches(&self.signs.tried, 1) {
            Ok(())
        } else {
            Err(Fault::Memory)
        }
    }
}

/// A test that writes by a lock, and leaves a value in its context.
#[derive(Drop)]
struct TableSuite<'a> {
    tree: &'a Tree,
    key: &'a Key,
    lock: &'a str,
    signs: &'a Signs,
}

impl Callbacks for TableSuite<'_> {
    ghost registered = { λ suite kind node. 0 };

    /// No node has callbacks.
    fn count(&self, _kind: Kind, _node: ContextNo) -> usize {
        0
    }
}

impl<'a> Suite<Table> for TableSuite<'a> {
    ghost use Rattle.std.specs.Prelude.{◌≡◌, [], ◌∷◌};
    ghost use Rattle.ext_engine.specs.Leaves.{writes};
    ghost use Rattle.test_runs.specs.Leaves.{leaves_with};

    type Action = LetTry<'a>;

    ghost suite_view = { λ suite. leaves_with suite.tree.now (writes suite.lock.now ∷ []) };

    ghost fits = { λ suite store. suite.tree.now ≡ store.tree };

    ghost call_gives = { λ suite store node call held before outcome after. Unit {0} };

    ghost action_gives = { λ suite node action. Unit {0} };

    fn mode(&self, node: ContextNo) -> Mode {
        if self.is_test(node) {
            Mode::Concurrent
        } else {
            Mode::SameThread
        }
    }

    fn isolated(&self, _node: ContextNo) -> bool {
        false
    }

    fn is_test(&self, node: ContextNo) -> bool {
        is_leaf(self.tree, node)
    }

    /// Each node names the lock: what a test and those above it name is taken once.
    fn lock_count(&self, _node: ContextNo) -> usize {
        1
    }

    fn lock<'l>(&'l self, _node: ContextNo, i: usize) -> Option<LockRequest<'l>> {
        match i {
            0 => Some(LockRequest {
                resource: Resource::Named(self.lock),
                mode: LockMode::ReadWrite,
            }),
            _ => None,
        }
    }

    fn is_enabled(&self, _node: ContextNo) -> bool {
        true
    }

    fn action(&self, _node: ContextNo) -> LetTry<'a> {
        LetTry { signs: self.signs }
    }

    /// Leaves a value in the node's context.
    fn call<R: Wait>(
        &self,
        rt: &R,
        store: &Store<Table>,
        node: ContextNo,
        _call: &Call,
        lane: &mut Lane<Table>,
        _held: Option<&Held>,
    ) -> Outcome {
        let Ok(kept) = store.keep_wait(lane, Table) else {
            return Outcome::of(Verdict::Failed(Fault::Memory));
        };
        match store.put_wait(rt, lane, node, self.key, kept) {
            Ok(_) => Outcome::of(Verdict::Successful),
            Err(_) => Outcome::of(Verdict::Failed(Fault::Memory)),
        }
    }
}

/// Runs the test, with lanes that it has to itself. Gives the report.
fn run_test<R: Threads + Wait + Sync + Abort>(
    rt: &R,
    alloc: Global,
    key: &Key,
    store: &Store<Table>,
    locks: &Locks,
    lanes: &mut [Lane<Table>],
    lock_lanes: &mut [LockLane],
    closers: Vec<Closer>,
    signs: &Signs,
) -> String
    requires usable { IsUsable store.now locks.now (record { first = lanes.old; second = lock_lanes.old }) }
    requires closers { closers.items ≡ closers_below store.now.id.cells (length store.now.tree) }
    requires lock { IsPermutation (codes "db" ∷ []) locks.now.names }
{
    let suite = TableSuite {
        tree: store.tree(),
        key,
        lock: "db",
        signs,
    };
    leaf_laws(&suite, store, locks);
    let results = run_tree(
        rt, alloc, &suite, store, locks, lanes, lock_lanes, closers, &OpenGate,
    )
    .expect(rt, "a run");
    report_text(alloc, store.tree(), results.as_slice()).expect(rt, "a report")
}

/// Tries to take the set, and gives it back where it is taken. Answers why it can't be, or `None`.
fn refusal_of(locks: &Locks, lane: &mut LockLane, set: &LockSet) -> Option<LockRefusal>
    requires idle { IsIdle locks.now lane.old }
    requires set { AllBelow (length locks.now.names + 1) set.now }
{
    match locks.try_take(lane, set) {
        Ok(held) => {
            locks.give(lane, held);
            None
        }
        Err(refusal) => Some(refusal),
    }
}

/// Once the test's context is being closed, tries to read by the lock. Answers why it can't, or
/// `None`.
fn try_read(locks: &Locks, lane: &mut LockLane, signs: &Signs) -> Option<LockRefusal>
    requires { IsIdle locks.now lane.old }
{
    let reads = LockRequest {
        resource: Resource::Named("db"),
        mode: LockMode::Read,
    };
    let set = locks.merge(&[reads]).ok()?;
    if !reaches(&signs.closing, 1) {
        return None;
    }
    let refused = refusal_of(locks, lane, &set);
    signs.tried.store(1, Ordering::SeqCst);
    refused
}

/// The report of the test, and why another lane can't take its lock while its context is closed.
fn run_and_try<R: Threads + Wait + Sync + Abort>(
    rt: &R,
    alloc: Global,
    key: &Key,
    opened: Opened<Table>,
    mut spare: LockLane,
    signs: &Signs,
) -> (String, Option<LockRefusal>)
    requires usable { IsUsable opened.store opened.locks (record { first = opened.lanes.items; second = opened.lock_lanes.items }) }
    requires spare { IsIdle opened.locks spare }
    requires closers { opened.closers.items ≡ closers_below opened.store.id.cells (length opened.store.tree) }
    requires lock { IsPermutation (codes "db" ∷ []) opened.locks.names }
{
    let Opened {
        store,
        mut lanes,
        closers,
        locks,
        mut lock_lanes,
    } = opened;
    let (shared, all_locks) = (&store, &locks);
    join(
        rt,
        move || -> String
            requires usable { IsUsable shared.now all_locks.now (record { first = lanes.items; second = lock_lanes.items }) }
            requires closers { closers.items ≡ closers_below shared.now.id.cells (length shared.now.tree) }
            requires lock { IsPermutation (codes "db" ∷ []) all_locks.now.names }
        {
            run_test(
                rt,
                alloc,
                key,
                shared,
                all_locks,
                lanes.as_mut_slice(),
                lock_lanes.as_mut_slice(),
                closers,
                signs,
            )
        },
        move || -> Option<LockRefusal>
            requires { IsIdle all_locks.now spare }
        { try_read(all_locks, &mut spare, signs) },
    )
}

/// Runs the test beside another lane that tries to read by its lock. Asserts what both tell.
fn lock_is_held<R: Threads + Wait + Sync + Abort>(rt: &R, alloc: Global, key: &Key, signs: &Signs) {
    let contexts = &["[engine:x]", "[engine:x]/[method:m()]"];
    let apart = open_apart(alloc, contexts, &["db"], 2).expect(rt, "a store");
    let OpenedApart {
        opened,
        lane: _lane,
        lock_lane,
    } = apart;
    let (text, refused) = run_and_try(rt, alloc, key, opened, lock_lane, signs);
    same(rt, refused, Some(LockRefusal::Taken(1)), "the other lane");
    let wanted =
        "[engine:x] successful closed 0\n[engine:x]/[method:m()] successful closed 1\ntests 1 successful 1 aborted 0 failed 0 skipped 0\ncomputed 0 found 0 closed 1 close faults 0\n";
    same(rt, text.as_str(), wanted, "the report");
}

/// While the context of a test is closed another lane tries to read by the lock by which the test
/// writes, and is refused as `Taken`.
/// Tests `run_tree`.
#[test]
fn test_locks_are_held_until_its_context_is_closed(rt: HostRuntime) {
    let key = a_key(rt.alloc()).expect(&rt, "a key");
    let signs = Signs::new();
    lock_is_held(&rt, rt.alloc(), &key, &signs);
}
