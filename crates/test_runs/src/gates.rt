//! Signs that threads give one another, and a gate that holds children at their start.
use crate::outside::QuietSuite;
use ext_engine::{Gate, Opened, leaf_laws, open_run, read_ids, run_tree};
use ext_store::Limits;
use std::alloc::Global;
use std::process::Abort;
use std::sync::Wait;
use std::sync::atomic::{AtomicU64, Ordering};
use std::thread::Threads;

/// How often a thread looks for a sign, by one atomic load each.
const TURNS: u64 = 10_000_000_000;

/// Whether the counter came to be as great before the turns were used up.
pub(crate) fn reaches(counter: &AtomicU64, least: u64) -> bool {
    for _ in 0..TURNS {
        if counter.load(Ordering::SeqCst) >= least {
            return true;
        }
    }
    false
}

/// Holds each of two children at its start until both have started, or until the turns are used up.
#[derive(Drop)]
pub(crate) struct MeetingGate {
    started: AtomicU64,
    given_up: AtomicU64,
}

impl MeetingGate {
    pub(crate) fn new() -> MeetingGate {
        MeetingGate {
            started: AtomicU64::new(0),
            given_up: AtomicU64::new(0),
        }
    }

    /// How many children have started, and how many of them have given up.
    pub(crate) fn told(&self) -> (u64, u64) {
        (
            self.started.load(Ordering::SeqCst),
            self.given_up.load(Ordering::SeqCst),
        )
    }
}

impl Gate for MeetingGate {
    fn started(&self, _index: usize) {
        self.started.fetch_add(1, Ordering::SeqCst);
        if !reaches(&self.started, 2) {
            self.given_up.fetch_add(1, Ordering::SeqCst);
        }
    }

    fn ended(&self, _index: usize) {}
}

/// Runs two tests on two lanes, beside one another and with this gate.
fn run_two<R: Abort + Threads + Wait + Sync>(rt: &R, alloc: Global, gate: &MeetingGate) {
    let texts = [
        "[engine:x]",
        "[engine:x]/[method:m1()]",
        "[engine:x]/[method:m2()]",
    ];
    let ids = read_ids(alloc, &texts).expect(rt, "ids");
    let Opened {
        store,
        mut lanes,
        closers,
        locks,
        mut lock_lanes,
    } = open_run(alloc, ids.as_slice(), &[], Limits::new(2)).expect(rt, "a store");
    let suite = QuietSuite { tree: store.tree() };
    leaf_laws(&suite, &store, &locks);
    let (lanes, lock_lanes) = (lanes.as_mut_slice(), lock_lanes.as_mut_slice());
    let ran = run_tree(
        rt, alloc, &suite, &store, &locks, lanes, lock_lanes, closers, gate,
    );
    assert!(rt; ran.is_ok(), "a run");
}

/// The gate holds each of two children at its start until both have started, so two lanes run them
/// at once.
/// Tests `run_tree`.
#[test]
fn two_children_run_at_once(rt: HostRuntime) {
    let gate = MeetingGate::new();
    run_two(&rt, rt.alloc(), &gate);
    assert_eq!(rt; gate.told(), (2, 0), "the gate");
}
