//! A large run of which half of the tests come while it runs, on one lane and on several.
ghost use Rattle.std.specs.Prelude.{◌<◌, length};

use crate::opening::a_key;
use crate::outside::{LetGo, Page};
use crate::recipes::class_of;
use ext_engine::{LeafSuite, Mode, Outcome, Verdict, outcome_with, run_leaves};
use ext_ids::UniqueId;
use ext_model::{ContextNo, Fault, Size};
use ext_report::{leave_out_reserve, report_text};
use ext_store::{Lane, Limits, Store};
use ext_tree::Key;
use std::alloc::{AllocError, Global};
use std::sync::Wait;
use std::test::Fail;
use std::thread::Threads;

const CLASSES: usize = 200;

// How many tests each class has from the beginning, and how many may come.
const GIVEN: usize = 50;

const ROOM: usize = 60;

// How many nodes there are from a class to the next.
const SPAN: usize = 1 + GIVEN + ROOM;

/// The type of nodes that are kept in reserve.
const ROW: &str = "row";

/// How many tests come in a class: from 40 to 60, and 10,055 in all classes.
fn count_of(class: usize) -> usize {
    ROOM - class % 21
}

/// Classes whose tests share a value each.
#[derive(Drop)]
struct Crowd<'a> {
    key: &'a Key,
}

impl LeafSuite<Page> for Crowd<'_> {
    type Action = LetGo;

    ghost may_disable = { λ crowd node. Unit {0} };

    fn is_enabled(&self, node: ContextNo) -> bool {
        if node == 0 {
            return true;
        }
        let (class, at) = ((node - 1) / SPAN, (node - 1) % SPAN);
        at <= GIVEN || at - GIVEN <= count_of(class)
    }

    fn action(&self, _node: ContextNo) -> LetGo {
        LetGo
    }

    fn run<R: Wait>(
        &self,
        rt: &R,
        store: &Store<Page>,
        node: ContextNo,
        lane: &mut Lane<Page>,
    ) -> Result<Outcome, Fault> {
        let make = |_key: &Key| -> Result<Page, Fault> { Ok(Page) };
        let answer = store.compute_wait(rt, lane, class_of(store, node), self.key, make);
        match store.found_or_made(answer, lane) {
            Ok(made) => Ok(outcome_with(&made, Ok(()))),
            Err(why) => Ok(Outcome::of(Verdict::Failed(why))),
        }
    }
}

/// Puts as many tests of this type below the class behind the others.
fn add_tests(
    alloc: Global,
    ids: &mut Vec<UniqueId>,
    class: &UniqueId,
    kind: &str,
    count: usize,
) -> Result<(), Fail> {
    for test in 1..=count {
        let number = format!(in alloc; "#{test}")?;
        ids.push(class.append(alloc, kind, number.as_str())?)?;
    }
    Ok(())
}

/// Puts a class and its tests behind the others.
fn add_class(
    alloc: Global,
    ids: &mut Vec<UniqueId>,
    engine: &UniqueId,
    class: usize,
) -> Result<(), Fail> {
    let number = format!(in alloc; "{class}")?;
    let class = engine.append(alloc, "class", number.as_str())?;
    ids.push(class.clone()?)?;
    add_tests(alloc, ids, &class, "test", GIVEN)?;
    add_tests(alloc, ids, &class, ROW, ROOM)
}

/// The ids of the engine, and of all classes and tests.
fn crowd_ids(alloc: Global) -> Result<Vec<UniqueId>, Fail> {
    let engine = UniqueId::from_parts(alloc, &[("engine", "x")])?;
    let mut ids = Vec::new(alloc);
    ids.push(engine.clone()?)?;
    for class in 0..CLASSES {
        add_class(alloc, &mut ids, &engine, class)?;
    }
    Ok(ids)
}

/// Puts the lines of as many tests of this type of the class behind the text.
fn write_tests(
    text: &mut String,
    class: usize,
    kind: &str,
    count: usize,
) -> Result<(), AllocError> {
    for test in 1..=count {
        writeln!(
            text,
            "[engine:x]/[class:{class}]/[{kind}:#{test}] successful closed 0"
        )?;
    }
    Ok(())
}

/// The report of each run. In each class the test that comes first makes the value, and all others
/// find it.
fn wanted_report(alloc: Global) -> Result<String, AllocError> {
    let mut text = String::new(alloc);
    text.push_str("[engine:x] successful closed 0\n")?;
    for class in 0..CLASSES {
        writeln!(text, "[engine:x]/[class:{class}] successful closed 1")?;
        write_tests(&mut text, class, "test", GIVEN)?;
        write_tests(&mut text, class, ROW, count_of(class))?;
    }
    text.push_str(
        "tests 20055 successful 20055 aborted 0 failed 0 skipped 0
computed 200 found 19855 closed 200 close faults 0
",
    )?;
    Ok(text)
}

/// Runs the classes on so many lanes, and gives the report.
fn report_on<R: Threads + Wait + Sync>(
    rt: &R,
    alloc: Global,
    ids: &[UniqueId],
    key: &Key,
    lanes: usize,
) -> Result<String, Fail> {
    let limits = Limits {
        size: Size::Large,
        ..Limits::new(lanes)
    };
    let crowd = Crowd { key };
    let mut run = run_leaves(rt, alloc, &crowd, ids, Mode::Concurrent, limits)?;
    leave_out_reserve(run.store.tree(), ROW, &mut run.results);
    Ok(report_text(alloc, run.store.tree(), &run.results)?)
}

/// Tells whether a run on so many lanes has the report that is wanted.
fn is_reported_on<R: Threads + Wait + Sync>(
    rt: &R,
    alloc: Global,
    lanes: usize,
) -> Result<bool, Fail> {
    let ids = crowd_ids(alloc)?;
    let key = a_key(alloc).ok_or("no key")?;
    let report = report_on(rt, alloc, ids.as_slice(), &key, lanes)?;
    Ok(report == wanted_report(alloc)?)
}

// One report, however many lanes there are. Each run is a test of its own, since a test has a
// minute, and without a proof it takes a good part of one.

/// On one lane half of the tests come during the run: the report has each of them, and nothing of
/// the nodes in reserve that were left over.
/// Tests `run_leaves`, `LeafSuite::is_enabled` and `leave_out_reserve`.
#[test]
fn half_of_20_000_tests_come_during_the_run(rt: HostRuntime) -> Result<(), Fail> {
    assert!(rt; is_reported_on(&rt, rt.alloc(), 1)?);
    Ok(())
}

/// Tests `run_leaves`: on four lanes half of the tests come, and the report is that of one lane.
#[test]
fn half_of_20_000_tests_come_on_4_lanes(rt: HostRuntime) -> Result<(), Fail> {
    assert!(rt; is_reported_on(&rt, rt.alloc(), 4)?);
    Ok(())
}

/// Tests `run_leaves`: on sixteen lanes half of the tests come, and the report is that of one lane.
#[test]
fn half_of_20_000_tests_come_on_16_lanes(rt: HostRuntime) -> Result<(), Fail> {
    assert!(rt; is_reported_on(&rt, rt.alloc(), 16)?);
    Ok(())
}
