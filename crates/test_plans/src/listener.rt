//! What the listener of a run is told.
ghost use Rattle.std.specs.Prelude.{◌≡◌, ◌≤◌, false};

use crate::rows::{FOUR_LANES, PLAIN};
use crate::same::same;
use ext_model::Fault;
use ext_run::{
    Call, FaultOrigin, Kind, NodeResult, Options, ReportForm, RunListener, Size, plan_of,
    report_text, run_plan,
};
use std::alloc::Global;
use std::process::Abort;
use std::sync::Wait;
use std::sync::atomic::{AtomicU64, Ordering};
use std::test::Fail;
use std::thread::{Threads, sleep};
use std::time::{Clock, Duration};

/// A container that is aborted before its children, with a test that is skipped, and beside it a
/// test that fails.
const PLAN: &str =
    "[[node]]\nid = \"[engine:x]\"\n\n[[node]]\nid = \"[engine:x]/[class:A]\"\nbefore_all = [[\"abort no\"]]\n\n[[node]]\nid = \"[engine:x]/[class:A]/[method:m()]\"\ntest = []\n\n[[node]]\nid = \"[engine:x]/[method:n()]\"\ntest = [\"fail f\"]\n";

/// A test with three faults: its own, at its second step, one of the second after-callback of its
/// engine, and one of a close.
const THREE_FAULTS: &str =
    "[[key]]\nlabel = \"a\"\n\n[[node]]\nid = \"[engine:x]\"\nafter_each = [[], [\"fail u\"]]\n\n[[node]]\nid = \"[engine:x]/[method:m()]\"\ntest = [\"put! a bad\", \"fail t\"]\n";

/// The faults of that test, in the order in which they come, with their origins,
const FAULTS: [(&str, FaultOrigin); 3] = [
    (
        "t",
        FaultOrigin::Step {
            call: Call {
                kind: Kind::Test,
                from: 1,
                index: 0,
            },
            step: 1,
        },
    ),
    (
        "u",
        FaultOrigin::Step {
            call: Call {
                kind: Kind::AfterEach,
                from: 0,
                index: 1,
            },
            step: 0,
        },
    ),
    ("close bad", FaultOrigin::Close),
];

/// The report of the run of that plan.
const THREE_FAULTS_REPORT: &str =
    "[engine:x] successful closed 0\n[engine:x]/[method:m()] failed closed 1: t (+2)\ntests 1 successful 0 aborted 0 failed 1 skipped 0\ncomputed 0 found 0 closed 1 close faults 1\n";

/// Two tests that fail and may run at once, but for a lock: the first one names it to write, and
/// their engine, so both of them, to read.
const ONE_LOCK: &str =
    "[[node]]\nid = \"[engine:x]\"\nlocks = [\"READ db\"]\n\n[[node]]\nid = \"[engine:x]/[method:m()]\"\nmode = \"concurrent\"\nlocks = [\"READ_WRITE db\"]\ntest = [\"fail f\"]\n\n[[node]]\nid = \"[engine:x]/[method:n()]\"\nmode = \"concurrent\"\ntest = [\"fail f\"]\n";

/// Two tests that fail and may run at once, but that the first one is isolated.
const ONE_ISOLATED: &str =
    "[[node]]\nid = \"[engine:x]\"\n\n[[node]]\nid = \"[engine:x]/[method:m()]\"\nmode = \"concurrent\"\nisolated = true\ntest = [\"fail f\"]\n\n[[node]]\nid = \"[engine:x]/[method:n()]\"\nmode = \"concurrent\"\ntest = [\"fail f\"]\n";

/// On two lanes, over the store for several threads.
const TWO_LANES: Options = Options {
    lanes: 2,
    plain: false,
    form: ReportForm::Text,
    size: Size::Usual,
};

/// How often the listener looks whether another test has started, a thousandth of a second apart.
const LOOKS: u32 = 10_000;

/// Counters of a node each.
#[derive(Drop)]
struct Counts([AtomicU64; 4]);

impl Counts {
    fn new() -> Counts {
        Counts([
            AtomicU64::new(0),
            AtomicU64::new(0),
            AtomicU64::new(0),
            AtomicU64::new(0),
        ])
    }

    /// Counts one more, and gives how many there were. A node that the plans don't have is not
    /// counted.
    fn add(&self, node: usize) -> Option<u64> {
        let count = self.0.get(node)?;
        Some(count.fetch_add(1, Ordering::SeqCst))
    }

    /// How many there are.
    fn of(&self, node: usize) -> Option<u64> {
        let count = self.0.get(node)?;
        Some(count.load(Ordering::SeqCst))
    }

    /// How many there are of each node.
    fn all(&self) -> [Option<u64>; 4] {
        [self.of(0), self.of(1), self.of(2), self.of(3)]
    }
}

/// Counts what is told of up to four nodes, and what is told in a wrong order.
#[derive(Drop)]
struct Heard {
    /// How many lanes the run has, and how many nodes.
    lanes: usize,
    nodes: usize,
    starts: Counts,
    calls: Counts,
    faults: Counts,
    ends: Counts,
    wrong: AtomicU64,
}

impl Heard {
    fn of(options: Options, nodes: usize) -> Heard {
        Heard {
            lanes: if options.plain { 1 } else { options.lanes },
            nodes,
            starts: Counts::new(),
            calls: Counts::new(),
            faults: Counts::new(),
            ends: Counts::new(),
            wrong: AtomicU64::new(0),
        }
    }

    /// Counts what is wrong unless this is right.
    fn expect(&self, right: bool) {
        if !right {
            self.wrong.fetch_add(1, Ordering::SeqCst);
        }
    }
}

impl RunListener for Heard {
    /// Comes first, on a lane of the run.
    fn started(&self, node: usize, lane: usize) {
        self.expect(lane < self.lanes);
        self.expect(self.calls.of(node) == Some(0) && self.ends.of(node) == Some(0));
        self.starts.add(node);
    }

    /// Comes between the start and the end.
    fn called(&self, node: usize, _call: &Call) {
        self.expect(self.starts.of(node) == Some(1) && self.ends.of(node) == Some(0));
        self.calls.add(node);
    }

    /// Comes between a call and the end, with the next of the faults where the node has three.
    fn faulted(&self, node: usize, origin: FaultOrigin, fault: &Fault) {
        self.expect(self.calls.of(node) > Some(0) && self.ends.of(node) == Some(0));
        let told = self.faults.add(node);
        if self.nodes == 2 {
            self.expect(is_next(told, origin, fault));
        }
    }

    /// Comes last, with as many faults as were told.
    fn ended(&self, ran: &NodeResult, nodes: usize) {
        let node = ran.node;
        self.expect(nodes == self.nodes && self.starts.of(node) == Some(1));
        self.expect(self.faults.of(node) == Some(faults_in(ran)));
        self.ends.add(node);
    }
}

/// How many faults a result has.
fn faults_in(ran: &NodeResult) -> u64 {
    match &ran.fault {
        Some(_) => ran.more.saturating_add(1),
        None => 0,
    }
}

/// Whether it is the fault that comes after so many, with its origin.
fn is_next(before: Option<u64>, origin: FaultOrigin, fault: &Fault) -> bool {
    let Fault::Text(text) = fault else {
        return false;
    };
    let (wanted, at) = match before {
        Some(0) => FAULTS[0],
        Some(1) => FAULTS[1],
        Some(2) => FAULTS[2],
        _ => return false,
    };
    text.as_str() == wanted && origin == at
}

/// Runs the plan so, with this listener, and asserts that a node failed and that the report is that
/// of the results which are handed back. Gives the report.
fn failing_report<R: Threads + Wait + Sync + Abort, L: RunListener + Sync>(
    rt: &R,
    alloc: Global,
    plan: &str,
    options: Options,
    listener: &L,
) -> Result<String, Fail>
    requires { options.plain ≡ false → (1 ≤ options.lanes) × (options.lanes ≤ 16) }
{
    let plan = plan_of(alloc, plan.as_bytes(), options.size)?;
    let mut written = Vec::new(alloc);
    let ran = run_plan(rt, alloc, &mut written, &plan, options, listener)?;
    same(rt, ran.summary.failed, true, "whether a node failed");
    let text = std::str::from_utf8(written.as_slice()).map_err(|_| "the report is text")?;
    let again = report_text(alloc, plan.tree(), ran.results.as_slice())?;
    same(rt, again.as_str(), text, "the report of the results");
    Ok(String::from_str(alloc, text)?)
}

/// Asserts that of each node that was run so it is told once that it started and once that it
/// ended, with its call and the fault of that between, and nothing of the skipped one.
fn hears_each_node<R: Threads + Wait + Sync + Abort>(
    rt: &R,
    alloc: Global,
    options: Options,
) -> Result<(), Fail>
    requires { options.plain ≡ false → (1 ≤ options.lanes) × (options.lanes ≤ 16) }
{
    let heard = Heard::of(options, 4);
    failing_report(rt, alloc, PLAN, options, &heard)?;
    let ran = [Some(1), Some(1), Some(0), Some(1)];
    same(rt, heard.starts.all(), ran, "the starts");
    let calls = [Some(0), Some(1), Some(0), Some(1)];
    same(rt, heard.calls.all(), calls, "the calls");
    let faults = [Some(0), Some(1), Some(0), Some(1)];
    same(rt, heard.faults.all(), faults, "the faults");
    same(rt, heard.ends.all(), ran, "the ends");
    let wrong = heard.wrong.load(Ordering::SeqCst);
    same(rt, wrong, 0, "what came in a wrong order");
    Ok(())
}

/// In a plain run and on four lanes the listener is told once of each node's start, call, fault and
/// end, in this order, and nothing of a skipped one.
/// Tests `run_plan`.
#[test]
fn listener_is_told_once_of_each_node_that_ran(rt: HostRuntime) -> Result<(), Fail> {
    hears_each_node(&rt, rt.alloc(), PLAIN)?;
    hears_each_node(&rt, rt.alloc(), FOUR_LANES)
}

/// Asserts that the three faults of a test that was run so are told, in order: the first is that of
/// its result, which counts the others.
fn hears_three_faults<R: Threads + Wait + Sync + Abort>(
    rt: &R,
    alloc: Global,
    options: Options,
) -> Result<(), Fail>
    requires { options.plain ≡ false → (1 ≤ options.lanes) × (options.lanes ≤ 16) }
{
    let heard = Heard::of(options, 2);
    let report = failing_report(rt, alloc, THREE_FAULTS, options, &heard)?;
    same(rt, report.as_str(), THREE_FAULTS_REPORT, "the report");
    let calls = [Some(0), Some(3), Some(0), Some(0)];
    same(rt, heard.calls.all(), calls, "the calls");
    let faults = [Some(0), Some(3), Some(0), Some(0)];
    same(rt, heard.faults.all(), faults, "the faults");
    let wrong = heard.wrong.load(Ordering::SeqCst);
    same(rt, wrong, 0, "other faults, or in another order");
    Ok(())
}

/// In a plain run and on four lanes the listener is told the three faults of a test in order, of
/// which the report has the first and a count.
/// Tests `run_plan`.
#[test]
fn listener_is_told_all_faults_of_a_test(rt: HostRuntime) -> Result<(), Fail> {
    hears_three_faults(&rt, rt.alloc(), PLAIN)?;
    hears_three_faults(&rt, rt.alloc(), FOUR_LANES)
}

/// Holds the first of two tests up, while it has its locks, until the other one has started and for
/// a while more, and counts the starts on either lane. It counts what is missed: the start of the
/// other one, that its call begins behind that, or that no more than one is held up at a time.
#[derive(Drop)]
struct HoldsUp<'a, C> {
    clock: &'a C,
    starts: Counts,
    held: AtomicU64,
    missed: AtomicU64,
}

impl<C> HoldsUp<'_, C> {
    /// Whether both lanes have started a test, and the first one the root before.
    fn have_both_started(&self) -> bool {
        self.starts.of(0) == Some(2) && self.starts.of(1) == Some(1)
    }

    fn miss(&self) {
        self.missed.fetch_add(1, Ordering::SeqCst);
    }
}

impl<C: Clock> RunListener for HoldsUp<'_, C> {
    fn started(&self, _node: usize, lane: usize) {
        self.starts.add(lane);
    }

    /// The other test has its locks, and so none is held up.
    fn called(&self, _node: usize, _call: &Call) {
        if self.held.load(Ordering::SeqCst) == 1 {
            self.miss();
        }
    }

    fn faulted(&self, _node: usize, _origin: FaultOrigin, _fault: &Fault) {
        if self.held.swap(1, Ordering::SeqCst) == 1 {
            self.miss();
        }
        for _ in 0..LOOKS {
            if self.have_both_started() {
                sleep(self.clock, Duration::from_millis(100));
                self.held.store(0, Ordering::SeqCst);
                return;
            }
            sleep(self.clock, Duration::from_millis(1));
        }
        self.miss();
    }

    fn ended(&self, _ran: &NodeResult, _nodes: usize) {}
}

/// Asserts that two tests of a plan have both started before the first of them ends, and that they
/// are not held up at once.
fn one_waits<R: Threads + Wait + Sync + Abort + Clock>(
    rt: &R,
    alloc: Global,
    plan: &str,
) -> Result<(), Fail> {
    let listener = HoldsUp {
        clock: rt,
        starts: Counts::new(),
        held: AtomicU64::new(0),
        missed: AtomicU64::new(0),
    };
    failing_report(rt, alloc, plan, TWO_LANES, &listener)?;
    let missed = listener.missed.load(Ordering::SeqCst);
    same(rt, missed, 0, "what is missed");
    Ok(())
}

/// Of two tests that may not run at once, by a lock or since one is isolated, both are told as
/// started before the first one ends, and a call of the second after it.
/// Tests `run_plan` and `run_tree`.
#[test]
fn listener_is_told_of_a_test_that_waits_for_a_lock(rt: HostRuntime) -> Result<(), Fail> {
    one_waits(&rt, rt.alloc(), ONE_LOCK)?;
    one_waits(&rt, rt.alloc(), ONE_ISOLATED)
}
