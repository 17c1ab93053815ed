//! A suite with a store beside that of its run, for values of another type.
ghost use Rattle.std.specs.Prelude.{◌<◌, length};
ghost use Rattle.ext_store.specs.Stores.{IsLaneOf};

use crate::opening::a_key;
use crate::outside::{LetGo, Page};
use ext_engine::{
    LeafSuite, Mode, Opened, Outcome, open_run, outcome_with, read_ids, run_leaves, take_lane,
};
use ext_model::{ContextNo, Fault};
use ext_report::report_text;
use ext_store::{Compute, Lane, Limits, Store, StoreValue, fault_of};
use ext_tree::Key;
use std::alloc::Global;
use std::marker::Model;
use std::sync::{Mutex, Wait};
use std::test::Fail;
use std::thread::Threads;

/// A value of the store beside.
#[derive(Drop)]
struct Ticket;

impl StoreValue for Ticket {
    ghost use Rattle.std.specs.Prelude.{false};

    ghost is_closeable = { λ _. false };

    fn closeable(&self) -> bool {
        false
    }
}

/// A store with one lane. Tests call it in turn.
#[derive(Drop)]
struct Beside {
    store: Store<Ticket>,
    lane: Lane<Ticket>,
}

impl Model for Beside {
    ghost Value = { Unit {0} };

    ghost view = { λ beside. tt };

    ghost invariant = { λ beside. IsLaneOf beside.store.id beside.lane × (0 < length beside.store.tree) };
}

impl Beside {
    /// Opens it with one context; `None` where there is no memory.
    fn open(alloc: Global) -> Option<Beside> {
        let Ok(ids) = read_ids(alloc, &["[engine:beside]"]) else {
            return None;
        };
        let Ok(opened) = open_run(alloc, &ids, &[], Limits::new(1)) else {
            return None;
        };
        let Opened {
            store,
            mut lanes,
            closers: _,
            locks: _,
            lock_lanes: _,
        } = opened;
        let lane = take_lane(&store, &mut lanes)?;
        Some(Beside { store, lane })
    }

    /// The number of the ticket under this key, which is made once.
    fn ticket(&mut self, key: &Key) -> Option<u32> {
        let make = |_key: &Key| -> Result<Ticket, Fault> { Ok(Ticket) };
        match self.store.compute(&mut self.lane, 0, key, make) {
            Compute::Computed { number } | Compute::Found { number, .. } => Some(number),
            _ => None,
        }
    }
}

/// Tests that share a page in the store of the run, and a ticket in the other.
#[derive(Drop)]
struct Both<'a> {
    alloc: Global,
    key: &'a Key,
    beside: Mutex<Beside>,
}

impl LeafSuite<Page> for Both<'_> {
    type Action = LetGo;

    fn action(&self, _node: ContextNo) -> LetGo {
        LetGo
    }

    fn run<R: Wait>(
        &self,
        rt: &R,
        store: &Store<Page>,
        _node: ContextNo,
        lane: &mut Lane<Page>,
    ) -> Result<Outcome, Fault> {
        let make = |_key: &Key| -> Result<Page, Fault> { Ok(Page) };
        let answer = store.compute_wait(rt, lane, 0, self.key, make);
        let page = store.found_or_made(answer, lane)?;
        let ended = match self.beside.lock(rt).ticket(self.key) {
            Some(1) => Ok(()),
            _ => Err(fault_of(self.alloc, "another ticket")),
        };
        Ok(outcome_with(&page, ended))
    }
}

/// Runs two tests on two lanes, and gives the report.
fn report_of<R: Threads + Wait + Sync>(
    rt: &R,
    alloc: Global,
    suite: &Both,
) -> Result<String, Fail> {
    let ids = read_ids(
        alloc,
        &["[engine:x]", "[engine:x]/[test:a]", "[engine:x]/[test:b]"],
    )?;
    let run = run_leaves(rt, alloc, suite, &ids, Mode::Concurrent, Limits::new(2))?;
    Ok(report_text(alloc, run.store.tree(), &run.results)?)
}

/// Tests `run_leaves` and `Store::compute`: tests of a run may call another store, by a lane that
/// they have in turn.
#[test]
fn a_second_store(rt: HostRuntime) -> Result<(), Fail> {
    let key = a_key(rt.alloc()).ok_or("no key")?;
    let beside = Beside::open(rt.alloc()).ok_or("no store")?;
    let suite = Both {
        alloc: rt.alloc(),
        key: &key,
        beside: Mutex::new(beside),
    };
    let report = report_of(&rt, rt.alloc(), &suite)?;
    let wanted = "[engine:x] successful closed 1
[engine:x]/[test:a] successful closed 0
[engine:x]/[test:b] successful closed 0
tests 2 successful 2 aborted 0 failed 0 skipped 0
computed 1 found 1 closed 1 close faults 0
";
    assert_eq!(rt; report.as_str(), wanted, "the report");
    Ok(())
}
