//! Computes that store a value, that fail, that find one, that are refused, and that call a
//! caller's box.
ghost use Rattle.std.specs.Prelude.{◌<◌, length};
ghost use Rattle.ext_store.specs.Stores.{IsLaneOf};

use crate::asked::{Scenario, same, with_chain};
use crate::chain::{Answer, Call, rows, rows_with_faults};
use crate::opening::{Letter, plain};
use ext_model::{Fault, Look};
use ext_store::{Compute, KeepFault, Lane, Store};
use ext_tree::Key;
use std::alloc::Global;
use std::process::Abort;
use std::thread::Threads;

/// A factory fails and nothing is found then, so the next compute stores its value.
/// Tests `Store::compute` and `Store::compute_numbered`.
#[test]
fn failed_factory_leaves_cell_empty(rt: HostRuntime) {
    let found = Look::Found { at: 2, number: 1 };
    let all = [
        (0, 2, "a", Call::Fails("boom")),
        (0, 2, "a", Call::Gets(Ok(Look::Absent))),
        (0, 2, "a", Call::Computes('x', Answer::Computed(1))),
        (0, 2, "a", Call::Gets(Ok(found))),
    ];
    rows(&rt, rt.alloc(), 8, &all);
}

/// A compute made of a begin and what ends its claim answers as one call does: it computes, finds,
/// fails, and meets a kept fault.
/// Tests `Store::begin`, `Store::begin_numbered`, `Store::begin_numbered_quietly`, `Store::fill`,
/// `Store::fill_decided_quietly`, `Store::fail`, `Store::fail_decided_quietly`, `Store::abandon`
/// and `Store::abandon_quietly`.
#[test]
fn two_calls_answer_as_one(rt: HostRuntime) {
    let found = Look::Found { at: 1, number: 1 };
    let all = [
        (0, 1, "a", Call::Computes('x', Answer::Computed(1))),
        (1, 2, "a", Call::Computes('y', Answer::Found(1, 1))),
        (1, 2, "a", Call::Gets(Ok(found))),
    ];
    rows(&rt, rt.alloc(), 8, &all);
    let all = [
        (0, 1, "b", Call::Fails("boom")),
        (0, 1, "b", Call::Gets(Ok(Look::Absent))),
        (1, 1, "b", Call::Computes('x', Answer::Computed(1))),
        (0, 1, "b", Call::Shows(1, Some(plain('x')))),
    ];
    rows(&rt, rt.alloc(), 8, &all);
    let stands = Look::Fault { at: 1, number: 1 };
    let all = [
        (0, 1, "c", Call::FailsAs("boom", Answer::FaultKept(1))),
        (1, 2, "c", Call::Computes('x', Answer::FaultStands(1, 1))),
        (1, 2, "c", Call::Gets(Ok(stands))),
        (1, 2, "d", Call::Computes('y', Answer::Computed(2))),
    ];
    rows_with_faults(&rt, rt.alloc(), 8, &all);
}

/// A value stands in the root: computes of both lanes in the method find it, their factories come
/// back unused, and under another key nothing is found.
/// Tests `Store::get`, `Store::get_numbered`, `Store::put`, `Store::remove`, `Store::compute`,
/// `Store::get_wait`, `Store::put_wait`, `Store::remove_wait`, `Store::compute_wait` and
/// `Store::compute_numbered`.
#[test]
fn value_at_root_leaves_factory_unused(rt: HostRuntime) {
    let found = Look::Found { at: 0, number: 1 };
    let all = [
        (1, 0, "a", Call::Puts(plain('x'), 1, Ok(None))),
        (0, 2, "a", Call::Computes('y', Answer::Found(0, 1))),
        (1, 2, "a", Call::Computes('z', Answer::Found(0, 1))),
        (0, 2, "a", Call::Gets(Ok(found))),
        (0, 2, "b", Call::Gets(Ok(Look::Absent))),
    ];
    rows(&rt, rt.alloc(), 8, &all);
}

/// A lane computes a value in the class, which both find from the method and are shown, until it is
/// removed and a compute in the method stores another.
/// Tests `Store::compute` and `Store::compute_numbered`.
#[test]
fn computed_value_is_shown_and_found(rt: HostRuntime) {
    let all = [
        (0, 1, "a", Call::Computes('x', Answer::Computed(1))),
        (0, 1, "a", Call::Shows(1, Some(plain('x')))),
        (1, 2, "a", Call::Computes('y', Answer::Found(1, 1))),
        (1, 2, "a", Call::Shows(1, Some(plain('x')))),
        (1, 1, "a", Call::Removes(Ok(Some(1)))),
        (1, 2, "a", Call::Computes('z', Answer::Computed(2))),
        (0, 1, "a", Call::Gets(Ok(Look::Absent))),
    ];
    rows(&rt, rt.alloc(), 8, &all);
}

/// The only number is drawn, so a compute hands its value back as `Unkept`, and neither lane finds
/// anything there.
/// Tests `Store::compute`, `Store::compute_numbered`, `Store::fill` and
/// `Store::fill_decided_quietly`.
#[test]
fn compute_without_a_number_hands_its_value_back(rt: HostRuntime) {
    let all = [
        (1, 0, "a", Call::Puts(plain('x'), 1, Ok(None))),
        (
            0,
            2,
            "b",
            Call::Computes('y', Answer::Unkept(KeepFault::NumbersFull)),
        ),
        (0, 2, "b", Call::Gets(Ok(Look::Absent))),
        (1, 2, "b", Call::Gets(Ok(Look::Absent))),
    ];
    rows(&rt, rt.alloc(), 1, &all);
}

/// The number under which the value of a caller's box was stored.
fn computed_by(
    store: &Store<Letter>,
    lane: &mut Lane<Letter>,
    key: &Key,
    mut maker: Box<dyn FnMut(&Key) -> Result<Letter, Fault> + Drop>,
) -> Option<u32>
    requires lane { IsLaneOf store.now.id lane.old }
    requires context { 0 < length store.now.tree }
    requires maker { IsAlwaysCallable maker }
    ensures { IsLaneOf store.now.id lane.new }
{
    match store.compute(
        lane,
        0,
        key,
        move |name: &Key| -> Result<Letter, Fault>
            requires { IsAlwaysCallable maker }
        { maker(name) },
    ) {
        Compute::Computed { number } => Some(number),
        _ => None,
    }
}

/// The number under which the value of a caller's box was stored, which makes w at its first call;
/// `None` where there is no memory.
fn computed_by_a_box(
    store: &Store<Letter>,
    lane: &mut Lane<Letter>,
    key: &Key,
    alloc: Global,
) -> Option<u32>
    requires lane { IsLaneOf store.now.id lane.old }
    requires context { 0 < length store.now.tree }
    ensures { IsLaneOf store.now.id lane.new }
{
    let mut letter = 'w';
    let Ok(maker) = Box::new(alloc, move |_key: &Key| -> Result<Letter, Fault> {
        let last = letter;
        letter = 'x';
        Ok(plain(last))
    }) else {
        return None;
    };
    computed_by(store, lane, key, maker)
}

/// A caller's box makes the value.
#[derive(Drop)]
struct Boxed {
    alloc: Global,
}

impl Scenario for Boxed {
    fn play<R: Threads + Sync + Abort>(
        &self,
        rt: &R,
        store: &Store<Letter>,
        first: &mut Lane<Letter>,
        _second: &mut Lane<Letter>,
        a: &Key,
        _d: &Key,
    ) {
        let number = computed_by_a_box(store, first, a, self.alloc);
        same(rt, number, Some(1), "the compute");
        let value = store.show(first, 1).copied();
        same(rt, value, Some(plain('w')), "the value");
    }
}

/// A box that a caller made is the factory, and the value of its first call is stored.
/// Tests `Store::compute` and `Store::compute_numbered`.
#[test]
fn caller_gives_a_box(rt: HostRuntime) {
    let boxed = Boxed { alloc: rt.alloc() };
    with_chain(&rt, rt.alloc(), 8, &boxed);
}
