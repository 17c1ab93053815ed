//! Tests that come during the run, and tests that a suite leaves out.
use crate::outside::{LetGo, Page};
use ext_engine::{LeafSuite, Mode, Outcome, Verdict, run_leaves};
use ext_ids::UniqueId;
use ext_model::{ContextNo, Fault};
use ext_report::{leave_out_reserve, report_text};
use ext_store::{Lane, Limits, Store};
use std::alloc::Global;
use std::sync::Wait;
use std::sync::atomic::{AtomicU64, Ordering};
use std::test::Fail;
use std::thread::Threads;

/// The type of nodes that are kept in reserve.
const ROW: &str = "test-template-invocation";

/// The context of the test whose rows are known when its turn comes. Those of the rows follow it.
const SUMS: ContextNo = 1;

/// A test that runs once for each row of a table.
#[derive(Drop)]
struct Table {
    /// How many rows the table has.
    length: u64,
    /// How many were read.
    rows: AtomicU64,
    /// A node that is not to be run.
    off: ContextNo,
    asked: AtomicU64,
    ran: AtomicU64,
}

/// No node.
const NONE: ContextNo = 99;

impl Table {
    fn of(length: u64, off: ContextNo) -> Table {
        Table {
            length,
            rows: AtomicU64::new(0),
            off,
            asked: AtomicU64::new(0),
            ran: AtomicU64::new(0),
        }
    }

    /// How often it was asked whether a node is to be run, and how many rows ran.
    fn told(&self) -> (u64, u64) {
        let asked = self.asked.load(Ordering::SeqCst);
        (asked, self.ran.load(Ordering::SeqCst))
    }
}

impl LeafSuite<Page> for Table {
    type Action = LetGo;

    ghost may_disable = { λ table node. Unit {0} };

    /// The table is read when the turn of its test comes. Then each row that it has is run.
    fn is_enabled(&self, node: ContextNo) -> bool {
        self.asked.fetch_add(1, Ordering::SeqCst);
        if node == SUMS {
            self.rows.store(self.length, Ordering::SeqCst);
        }
        let read = self.rows.load(Ordering::SeqCst);
        node != self.off && (node <= SUMS || (node - SUMS) as u64 <= read)
    }

    fn action(&self, _node: ContextNo) -> LetGo {
        LetGo
    }

    fn run<R: Wait>(
        &self,
        _rt: &R,
        _store: &Store<Page>,
        _node: ContextNo,
        _lane: &mut Lane<Page>,
    ) -> Result<Outcome, Fault> {
        self.ran.fetch_add(1, Ordering::SeqCst);
        Ok(Outcome::of(Verdict::Successful))
    }
}

/// An engine, a test, and as many rows of it as there may be.
fn ids_for(alloc: Global, most: usize) -> Result<Vec<UniqueId>, Fail> {
    let engine = UniqueId::from_parts(alloc, &[("engine", "x")])?;
    let sums = engine.append(alloc, "test-template", "sums()")?;
    let mut ids = Vec::new(alloc);
    ids.push(engine)?;
    ids.push(sums.clone()?)?;
    for row in 1..=most {
        let number = format!(in alloc; "#{row}")?;
        ids.push(sums.append(alloc, ROW, number.as_str())?)?;
    }
    Ok(ids)
}

/// Runs a table of three rows, for which eight nodes are kept in reserve, and gives the report.
fn run_three_rows<R: Threads + Wait + Sync>(
    rt: &R,
    alloc: Global,
    table: &Table,
    mode: Mode,
    lanes: usize,
) -> Result<String, Fail> {
    let ids = ids_for(alloc, 8)?;
    let mut run = run_leaves(rt, alloc, table, &ids, mode, Limits::new(lanes))?;
    leave_out_reserve(run.store.tree(), ROW, &mut run.results);
    Ok(report_text(alloc, run.store.tree(), &run.results)?)
}

const THREE_ROWS: &str = "[engine:x] successful closed 0
[engine:x]/[test-template:sums()] successful closed 0
[engine:x]/[test-template:sums()]/[test-template-invocation:#1] successful closed 0
[engine:x]/[test-template:sums()]/[test-template-invocation:#2] successful closed 0
[engine:x]/[test-template:sums()]/[test-template-invocation:#3] successful closed 0
tests 3 successful 3 aborted 0 failed 0 skipped 0
computed 0 found 0 closed 0 close faults 0
";

/// Tests `Suite::is_enabled`, `LeafSuite::is_enabled`, `run_tree` and `leave_out_reserve`: each
/// node is asked for once, and those that did not come are neither run nor told.
#[test]
fn rows_come_during_the_run(rt: HostRuntime) -> Result<(), Fail> {
    let table = Table::of(3, NONE);
    let report = run_three_rows(&rt, rt.alloc(), &table, Mode::SameThread, 1)?;
    assert_eq!(rt; report.as_str(), THREE_ROWS, "the report");
    assert_eq!(rt; table.told(), (10, 3), "asked and run");
    Ok(())
}

/// Tests `run_tree`: on four lanes the report and what is asked for are those of one lane.
#[test]
fn rows_come_on_four_lanes(rt: HostRuntime) -> Result<(), Fail> {
    let table = Table::of(3, NONE);
    let report = run_three_rows(&rt, rt.alloc(), &table, Mode::Concurrent, 4)?;
    assert_eq!(rt; report.as_str(), THREE_ROWS, "the report");
    assert_eq!(rt; table.told(), (10, 3), "asked and run");
    Ok(())
}

/// Tests `run_tree`: below a node that is left out nothing is asked for or run, and all is skipped.
#[test]
fn node_left_out_with_all_below_it(rt: HostRuntime) -> Result<(), Fail> {
    let table = Table::of(3, SUMS);
    let ids = ids_for(rt.alloc(), 1)?;
    let run = run_leaves(
        &rt,
        rt.alloc(),
        &table,
        &ids,
        Mode::SameThread,
        Limits::new(1),
    )?;
    let report = report_text(rt.alloc(), run.store.tree(), &run.results)?;
    let wanted = "[engine:x] successful closed 0
[engine:x]/[test-template:sums()] skipped closed 0
[engine:x]/[test-template:sums()]/[test-template-invocation:#1] skipped closed 0
tests 1 successful 0 aborted 0 failed 0 skipped 1
computed 0 found 0 closed 0 close faults 0
";
    assert_eq!(rt; report.as_str(), wanted, "the report");
    assert_eq!(rt; table.told(), (2, 0), "asked and run");
    Ok(())
}
