//! Waiting forms along a path that is not the tree's, beside a factory that is held: each is
//! answered once it has ended, in a thread of its own.
ghost use Rattle.std.specs.Prelude.{◌<◌, length};
ghost use Rattle.ext_store.specs.Stores.{IsLaneOf};

use crate::held::{Ended, Gate, compute_held, same};
use crate::opening::{Letter, limits, with_pair};
use ext_model::{ContextNo, Fault, KeyNo, Look};
use ext_store::{Compute, Lane, Store};
use ext_tree::Key;
use std::alloc::Global;
use std::process::Abort;
use std::sync::Wait;
use std::test::Fail;
use std::thread::{Threads, join};
use std::time::Clock;

/// Context 0, as one that was opened below the class: in the tree nothing is above it.
const OPENED: [ContextNo; 2] = [0, 1];

/// The call that waits.
#[derive(Clone, Copy)]
enum Call {
    /// A look-up along the path.
    Get,
    /// A compute for the first context of the path.
    Compute,
}

/// What the call that waits answers.
#[derive(Clone, Copy, Debug, PartialEq, Eq)]
enum Answer {
    /// A look-up was answered so.
    Looked(Look),
    /// The value of this number stands there, and the factory came back.
    Found(ContextNo, u32),
    /// The kept fault of this number stands there, and the factory came back.
    FaultStands(ContextNo, u32),
    /// The factory's value was stored under this number, in the place where a look-up finds it.
    Computed(u32, Look),
    /// Anything else.
    Otherwise,
}

/// The answer, where the factory that came back is the one that was handed over.
fn given_back<F: FnOnce(&Key) -> Result<Letter, Fault>>(
    unused: F,
    key: &Key,
    answer: Answer,
) -> Answer
    requires { F.IsAlwaysCallable unused }
{
    match unused(key) {
        Ok(Letter { letter: 'y' }) => answer,
        _ => Answer::Otherwise,
    }
}

/// What a compute along the path answers.
fn compute_along<R: Wait>(
    rt: &R,
    store: &Store<Letter>,
    lane: &mut Lane<Letter>,
    path: &[ContextNo],
    number: KeyNo,
    key: &Key,
) -> Answer
    requires lane { IsLaneOf store.now.id lane.old }
    requires context { 0 < length store.now.tree }
    requires number { number < length store.now.id.keys }
{
    if path.is_empty() || !store.is_trail(path) || !lane.knows_key(number) {
        return Answer::Otherwise;
    }
    let make = |_key: &Key| -> Result<Letter, Fault> { Ok(Letter { letter: 'y' }) };
    match store.compute_along_wait(rt, lane, path, number, make) {
        Compute::Computed { number: made } => {
            Answer::Computed(made, store.get_wait_numbered(rt, lane, 0, number))
        }
        Compute::Found { at, number, unused } => {
            given_back(unused, key, Answer::Found(at, number))
        }
        Compute::FaultStands { at, number, unused } => {
            given_back(unused, key, Answer::FaultStands(at, number))
        }
        _ => Answer::Otherwise,
    }
}

/// What a look-up along the path answers.
fn look_along<R: Wait>(
    rt: &R,
    store: &Store<Letter>,
    lane: &mut Lane<Letter>,
    path: &[ContextNo],
    number: KeyNo,
) -> Answer
    requires lane { IsLaneOf store.now.id lane.old }
    requires number { number < length store.now.id.keys }
{
    if path.is_empty() || !store.is_trail(path) {
        return Answer::Otherwise;
    }
    Answer::Looked(store.get_along_wait(rt, lane, path, number))
}

/// What the call answers, which begins while the factory runs.
fn call_beside<R: Wait + Clock>(
    rt: &R,
    store: &Store<Letter>,
    lane: &mut Lane<Letter>,
    key: &Key,
    gate: &Gate,
    waits: Call,
) -> Answer
    requires lane { IsLaneOf store.now.id lane.old }
    requires context { 0 < length store.now.tree }
{
    let Ok(number) = store.number(lane, key) else {
        return Answer::Otherwise;
    };
    gate.come(rt);
    let answer = match waits {
        Call::Get => look_along(rt, store, lane, &OPENED, number),
        Call::Compute => compute_along(rt, store, lane, &OPENED, number, key),
    };
    gate.end();
    answer
}

/// What a compute in the class, by a factory that is held and then fails where it is to, and the
/// call beside it answer.
fn answers<R: Abort + Clock + Threads + Wait + Sync>(
    rt: &R,
    store: &Store<Letter>,
    key: &Key,
    first: &mut Lane<Letter>,
    second: &mut Lane<Letter>,
    fails: bool,
    waits: Call,
) -> (Ended, Answer)
    requires first { IsLaneOf store.now.id first.old }
    requires second { IsLaneOf store.now.id second.old }
    requires contexts { 2 < length store.now.tree }
{
    let gate = Gate::new(1);
    let held = &gate;
    join(
        rt,
        ||
            requires { IsLaneOf store.now.id first.now × (1 < length store.now.tree) }
        {
            let ended = compute_held(rt, store, first, key, held, fails, false);
            held.watch(rt);
            ended
        },
        ||
            requires { IsLaneOf store.now.id second.now × (0 < length store.now.tree) }
        { call_beside(rt, store, second, key, held, waits) },
    )
}

/// Asserts what is answered in a store of its own, which keeps faults or not. The factory fails
/// unless it is to compute a value.
fn beside<R: Abort + Clock + Threads + Wait + Sync>(
    rt: &R,
    alloc: Global,
    keep_faults: bool,
    waits: Call,
    ended: Ended,
    wanted: Answer,
) -> Result<(), Fail> {
    let fails = ended.is_failed();
    with_pair(
        rt,
        alloc,
        limits(2, keep_faults),
        |rt: &R, store: &Store<Letter>, key: &Key, first: &mut Lane<Letter>, second: &mut Lane<
            Letter,
        >|
            requires first { IsLaneOf store.now.id first.old }
            requires second { IsLaneOf store.now.id second.old }
            requires contexts { 2 < length store.now.tree }
        {
            let (computed, answer) = answers(rt, store, key, first, second, fails, waits);
            same(rt, computed, ended, "the compute");
            same(rt, answer, wanted, "the call that waited");
        },
    )
}

/// The lane that waits finds the value of the other lane's factory.
/// Tests `Store::get_along_wait`.
#[test]
fn look_up_along_a_path_waits_for_a_factory(rt: HostRuntime) -> Result<(), Fail> {
    let found = Answer::Looked(Look::Found { at: 1, number: 1 });
    beside(&rt, rt.alloc(), false, Call::Get, Ended::Computed(1), found)
}

/// The factory's fault is kept, which ends the wait as a value does.
/// Tests `Store::get_along_wait`.
#[test]
fn look_up_along_a_path_waits_for_a_factory_whose_fault_is_kept(
    rt: HostRuntime,
) -> Result<(), Fail> {
    let met = Answer::Looked(Look::Fault { at: 1, number: 1 });
    beside(&rt, rt.alloc(), true, Call::Get, Ended::FaultKept(1), met)
}

/// The lane that waits finds the value of the other lane's factory, and has its own back.
/// Tests `Store::compute_along_wait`.
#[test]
fn compute_along_a_path_waits_for_a_factory(rt: HostRuntime) -> Result<(), Fail> {
    let found = Answer::Found(1, 1);
    beside(
        &rt,
        rt.alloc(),
        false,
        Call::Compute,
        Ended::Computed(1),
        found,
    )
}

/// The other lane's factory fails: what it claimed is given up, which ends the wait too. Then the
/// own factory is called, and its value stands in the first context of the path.
/// Tests `Store::compute_along_wait`.
#[test]
fn compute_along_a_path_waits_for_a_factory_that_fails(rt: HostRuntime) -> Result<(), Fail> {
    let made = Answer::Computed(1, Look::Found { at: 0, number: 1 });
    beside(&rt, rt.alloc(), false, Call::Compute, Ended::Failed, made)
}

/// The factory's fault is kept, which ends the wait as a value does.
/// Tests `Store::compute_along_wait`.
#[test]
fn compute_along_a_path_waits_for_a_factory_whose_fault_is_kept(
    rt: HostRuntime,
) -> Result<(), Fail> {
    let met = Answer::FaultStands(1, 1);
    beside(
        &rt,
        rt.alloc(),
        true,
        Call::Compute,
        Ended::FaultKept(1),
        met,
    )
}
