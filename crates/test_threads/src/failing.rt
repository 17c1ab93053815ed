//! Two lanes that compute one value by factories that fail: one of the two runs, and its fault is
//! kept for both.
ghost use Rattle.std.specs.Prelude.{◌<◌, length};
ghost use Rattle.ext_store.specs.Stores.{IsLaneOf};

use crate::gates::is_raised;
use crate::opening::with_opened;
use crate::same::same;
use ext_model::Fault;
use ext_store::{Compute, Lane, Refusal, Store};
use ext_tree::Key;
use std::alloc::Global;
use std::process::Abort;
use std::sync::Wait;
use std::sync::atomic::{AtomicU64, Ordering};
use std::thread::{Threads, join};
use std::time::Clock;
use test_store::{Letter, key, open_chain_for};

/// What the factories of two lanes share.
#[derive(Drop)]
struct Signs {
    /// How many factories ran.
    runs: AtomicU64,
    /// Whether a lane was refused as busy.
    was_busy: AtomicU64,
}

/// What a lane was answered.
#[derive(Clone, Copy, Debug, PartialEq, Eq)]
enum Answer {
    /// The fault of its own factory was kept under this number.
    Kept(u32),
    /// The fault of this number stands there.
    Stands(u32),
    /// Something else.
    Otherwise,
}

/// The fault of a factory, once another lane was refused beside it: a text, or else want of memory.
fn fault_of(clock: &impl Clock, alloc: Global, signs: &Signs, text: &str) -> Fault {
    signs.runs.fetch_add(1, Ordering::SeqCst);
    if !is_raised(clock, &signs.was_busy) {
        return Fault::Memory;
    }
    match String::from_str(alloc, text) {
        Ok(text) => Fault::Text(text),
        Err(_) => Fault::Memory,
    }
}

/// Computes in the class by a factory that fails with this text, and asks again while another
/// lane's factory runs there.
fn fail_or_meet<R: Wait + Clock>(
    rt: &R,
    alloc: Global,
    store: &Store<Letter>,
    lane: &mut Lane<Letter>,
    key: &Key,
    signs: &Signs,
    text: &str,
) -> Answer
    requires lane { IsLaneOf store.now.id lane.old }
    requires context { 2 < length store.now.tree }
    ensures { IsLaneOf store.now.id lane.new }
{
    for _ in rt.forever() {
        let factory = |_key: &Key| -> Result<Letter, Fault> {
            Err(fault_of(rt, alloc, signs, text))
        };
        match store.compute(lane, 1, key, factory) {
            Compute::FaultKept { number } => return Answer::Kept(number),
            Compute::FaultStands { at: 1, number, .. } => return Answer::Stands(number),
            Compute::Refused {
                refusal: Refusal::Busy(1),
                ..
            } => signs.was_busy.store(1, Ordering::SeqCst),
            Compute::Refused {
                refusal: Refusal::Contended,
                ..
            } => {}
            _ => return Answer::Otherwise,
        }
    }
    Answer::Otherwise
}

/// What both lanes are answered, whose factories fail with texts of their own, each in a thread, and
/// their lanes.
fn fail_in_two_threads<R: Threads + Wait + Clock + Sync>(
    rt: &R,
    alloc: Global,
    store: &Store<Letter>,
    first: Lane<Letter>,
    second: Lane<Letter>,
    key: &Key,
    signs: &Signs,
) -> ((Lane<Letter>, Answer), (Lane<Letter>, Answer))
    requires first { IsLaneOf store.now.id first }
    requires second { IsLaneOf store.now.id second }
    requires contexts { 2 < length store.now.tree }
    ensures first { IsLaneOf store.now.id result.0.0 }
    ensures second { IsLaneOf store.now.id result.1.0 }
{
    join(
        rt,
        move || -> (Lane<Letter>, Answer)
            requires lane { IsLaneOf store.now.id first }
            requires contexts { 2 < length store.now.tree }
            ensures { IsLaneOf store.entry.now.id result.0 }
        {
            let mut lane = first;
            let answer = fail_or_meet(rt, alloc, store, &mut lane, key, signs, "zero");
            (lane, answer)
        },
        move || -> (Lane<Letter>, Answer)
            requires lane { IsLaneOf store.now.id second }
            requires contexts { 2 < length store.now.tree }
            ensures { IsLaneOf store.entry.now.id result.0 }
        {
            let mut lane = second;
            let answer = fail_or_meet(rt, alloc, store, &mut lane, key, signs, "one");
            (lane, answer)
        },
    )
}

/// The text of the factory that ran, where one lane kept its fault under number 1 and the other met
/// that.
fn text_kept(first: Answer, second: Answer) -> Option<&'static str> {
    match (first, second) {
        (Answer::Kept(1), Answer::Stands(1)) => Some("zero"),
        (Answer::Stands(1), Answer::Kept(1)) => Some("one"),
        _ => None,
    }
}

/// Asserts that the lane is shown this text as the fault of number 1.
fn is_shown<R: Abort>(rt: &R, store: &Store<Letter>, lane: &mut Lane<Letter>, text: Option<&str>)
    requires { IsLaneOf store.now.id lane.old }
    ensures { IsLaneOf store.now.id lane.new }
{
    let shown = match store.show_fault(lane, 1) {
        Some(Fault::Text(text)) => Some(text.as_str()),
        _ => None,
    };
    assert!(rt; text.is_some());
    same(rt, shown, text, "the fault that is kept");
}

/// One of the two factories runs, and both lanes tell its fault, whichever it was.
fn fail_once<R: Abort + Threads + Wait + Clock + Sync>(
    rt: &R,
    alloc: Global,
    store: &Store<Letter>,
    first: Lane<Letter>,
    second: Lane<Letter>,
    key: &Key,
)
    requires first { IsLaneOf store.now.id first }
    requires second { IsLaneOf store.now.id second }
    requires contexts { 2 < length store.now.tree }
{
    let signs = Signs {
        runs: AtomicU64::new(0),
        was_busy: AtomicU64::new(0),
    };
    let ((mut first, one), (mut second, other)) = fail_in_two_threads(
        rt, alloc, store, first, second, key, &signs,
    );
    let text = text_kept(one, other);
    is_shown(rt, store, &mut first, text);
    is_shown(rt, store, &mut second, text);
    store.meet(&mut first, &mut second);
    same(rt, signs.runs.load(Ordering::SeqCst), 1, "factories");
}

/// Two threads compute one key by factories that fail: one of them runs, and both lanes are shown
/// its fault.
/// Tests `Store::compute` and `Store::compute_numbered`.
#[test]
fn failing_factory_runs_once_for_two_lanes(rt: HostRuntime) {
    let alloc = rt.alloc();
    with_opened(
        &rt,
        key(alloc, "a"),
        open_chain_for(alloc, 8, true),
        |a, store, first, second, _closers| fail_once(&rt, alloc, store, first, second, a),
    );
}
