//! An engine in a page: tests that need a server, which is made once, found by all of them, and stopped at the end of the run.
use crate::server::{Server, server_key};
use ext_closing::CloseAction;
use ext_engine::{
    LeafFault, LeafSuite, Mode, OpenFault, Outcome, outcome_with, read_ids, run_leaves,
};
use ext_model::{ContextNo, Fault};
use ext_report::report_text;
use ext_store::{Lane, Limits, Store};
use ext_tree::Key;
use std::alloc::{AllocError, Global};
use std::sync::Wait;
use std::sync::atomic::{AtomicU64, Ordering};
use std::thread::Threads;
use thiserror::Error;

/// How many servers were started, and how many stopped.
#[derive(Drop)]
pub(crate) struct Servers {
    started: AtomicU64,
    stopped: AtomicU64,
}

impl Servers {
    pub(crate) fn new() -> Servers {
        Servers {
            started: AtomicU64::new(0),
            stopped: AtomicU64::new(0),
        }
    }

    pub(crate) fn told(&self) -> (u64, u64) {
        let started = self.started.load(Ordering::SeqCst);
        (started, self.stopped.load(Ordering::SeqCst))
    }
}

/// What closes the values of a context: it stops a server.
#[derive(Drop)]
struct StopServer<'a> {
    servers: &'a Servers,
}

impl CloseAction<Server> for StopServer<'_> {
    ghost close_gives = { λ action number server answer left. Unit {0} };

    fn close(&mut self, _number: u32, _server: &Server) -> Result<(), Fault> {
        self.servers.stopped.fetch_add(1, Ordering::SeqCst);
        Ok(())
    }
}

/// The tests of a run, and what they need.
#[derive(Drop)]
struct ServerSuite<'a> {
    key: &'a Key,
    servers: &'a Servers,
}

/// The context of the engine.
const ENGINE: ContextNo = 0;

impl<'a> LeafSuite<Server> for ServerSuite<'a> {
    type Action = StopServer<'a>;

    fn action(&self, _node: ContextNo) -> StopServer<'a> {
        StopServer {
            servers: self.servers,
        }
    }

    /// A test finds the server of the engine, or starts it.
    fn run<R: Wait>(
        &self,
        rt: &R,
        store: &Store<Server>,
        _node: ContextNo,
        lane: &mut Lane<Server>,
    ) -> Result<Outcome, Fault> {
        let start = |_key: &Key| -> Result<Server, Fault> {
            self.servers.started.fetch_add(1, Ordering::SeqCst);
            Ok(Server { port: 8080 })
        };
        let answer = store.compute_wait(rt, lane, ENGINE, self.key, start);
        let made = store.found_or_made(answer, lane)?;
        Ok(outcome_with(&made, Ok(())))
    }
}

/// Why there is no report.
#[derive(Debug, Drop, Error)]
pub(crate) enum PageFault {
    #[error("not read: {0}")]
    Read(#[from] OpenFault),
    #[error("not run: {0}")]
    Run(#[from] LeafFault),
    #[error("no memory")]
    Memory(#[from] AllocError),
}

/// An engine, two classes, and four tests.
const CONTEXTS: [&str; 7] = [
    "[engine:x]",
    "[engine:x]/[class:A]",
    "[engine:x]/[class:A]/[method:m1()]",
    "[engine:x]/[class:A]/[method:m2()]",
    "[engine:x]/[class:B]",
    "[engine:x]/[class:B]/[method:m1()]",
    "[engine:x]/[class:B]/[method:m2()]",
];

/// Runs the tests on so many lanes, and gives the report.
pub(crate) fn run_page<R: Threads + Wait + Sync>(
    rt: &R,
    alloc: Global,
    key: &Key,
    lanes: usize,
    servers: &Servers,
) -> Result<String, PageFault> {
    let ids = read_ids(alloc, &CONTEXTS)?;
    let suite = ServerSuite { key, servers };
    let limits = Limits::new(lanes);
    let run = run_leaves(rt, alloc, &suite, &ids, Mode::Concurrent, limits)?;
    Ok(report_text(alloc, run.store.tree(), &run.results)?)
}

/// Tests `run_leaves`, `outcome_with`, `run_tree`, `open_run` and `is_leaf`: four tests on two
/// lanes need a server, which one of them makes, the others find, and the run's end stops.
#[test]
fn engine_in_a_page(rt: HostRuntime) {
    let servers = Servers::new();
    let key = server_key(rt.alloc()).expect(&rt, "a key");
    let report = run_page(&rt, rt.alloc(), &key, 2, &servers).expect(&rt, "a report");
    let wanted = "[engine:x] successful closed 1
[engine:x]/[class:A] successful closed 0
[engine:x]/[class:A]/[method:m1()] successful closed 0
[engine:x]/[class:A]/[method:m2()] successful closed 0
[engine:x]/[class:B] successful closed 0
[engine:x]/[class:B]/[method:m1()] successful closed 0
[engine:x]/[class:B]/[method:m2()] successful closed 0
tests 4 successful 4 aborted 0 failed 0 skipped 0
computed 1 found 3 closed 1 close faults 0
";
    assert_eq!(rt; report.as_str(), wanted, "the report");
    assert_eq!(rt; servers.told(), (1, 1), "the servers");
}
