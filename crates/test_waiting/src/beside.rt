//! Waiting forms beside a factory that is held: each is answered once it has ended, in a thread of
//! its own.
ghost use Rattle.std.specs.Prelude.{◌<◌, All, length};
ghost use Rattle.ext_store.specs.Stores.{IsLaneOf};

use crate::held::{Ended, Gate, compute_held, find, same};
use crate::opening::{Letter, limits, with_pair, with_store};
use ext_model::{Fault, Look};
use ext_store::{Closer, Lane, Limits, Store};
use ext_tree::Key;
use std::alloc::Global;
use std::process::Abort;
use std::sync::Wait;
use std::test::Fail;
use std::thread::{Threads, join};
use std::time::Clock;

/// The call that waits.
#[derive(Clone, Copy)]
pub(crate) enum Call {
    /// A look-up from the method.
    Get,
    /// A compute from the method.
    Compute,
    /// A remove in the class, which is told as a number that is found where it takes one.
    Remove,
    /// A put in the class, which is told as a number that is found where it replaces one.
    Put,
}

/// What a put in the class replaces.
fn replaced<R: Wait>(
    rt: &R,
    store: &Store<Letter>,
    lane: &mut Lane<Letter>,
    key: &Key,
) -> Option<Look>
    requires lane { IsLaneOf store.now.id lane.old }
    requires context { 1 < length store.now.tree }
    ensures { IsLaneOf store.now.id lane.new }
{
    let Ok(kept) = store.keep_wait(lane, Letter { letter: 'z' }) else {
        return None;
    };
    match store.put_wait(rt, lane, 1, key, kept) {
        Ok(Some(number)) => Some(Look::Found { at: 1, number }),
        Ok(None) => Some(Look::Absent),
        Err(_) => None,
    }
}

/// What the call finds; nothing where it is refused, or has another answer.
pub(crate) fn found_by<R: Wait>(
    rt: &R,
    store: &Store<Letter>,
    lane: &mut Lane<Letter>,
    key: &Key,
    call: Call,
) -> Option<Look>
    requires lane { IsLaneOf store.now.id lane.old }
    requires context { 2 < length store.now.tree }
    ensures { IsLaneOf store.now.id lane.new }
{
    match call {
        Call::Get => store.get_wait(rt, lane, 2, key).ok(),
        Call::Compute => find(rt, store, lane, key),
        Call::Remove => match store.remove_wait(rt, lane, 1, key) {
            Ok(Some(number)) => Some(Look::Found { at: 1, number }),
            Ok(None) => Some(Look::Absent),
            Err(_) => None,
        },
        Call::Put => replaced(rt, store, lane, key),
    }
}

/// What was found, where a fault that was found is shown as the one with which held factories fail.
fn shown(store: &Store<Letter>, lane: &mut Lane<Letter>, found: Option<Look>) -> Option<Look>
    requires { IsLaneOf store.now.id lane.old }
{
    match found {
        Some(Look::Fault { number, .. }) => match store.show_fault(lane, number) {
            Some(Fault::Memory) => found,
            _ => None,
        },
        _ => found,
    }
}

/// What the call finds, which begins while the factory runs.
fn call_beside<R: Wait + Clock>(
    rt: &R,
    store: &Store<Letter>,
    lane: &mut Lane<Letter>,
    key: &Key,
    gate: &Gate,
    waits: Call,
) -> Option<Look>
    requires lane { IsLaneOf store.now.id lane.old }
    requires context { 2 < length store.now.tree }
{
    gate.come(rt);
    let found = found_by(rt, store, lane, key, waits);
    gate.end();
    shown(store, lane, found)
}

/// A compute in the class whose factory is held.
#[derive(Clone, Copy)]
struct Held {
    /// Whether the store keeps faults.
    keep_faults: bool,
    /// Whether the compute is by the form that waits.
    waits: bool,
    /// What it comes to. Where nothing is kept, the number was drawn before.
    ended: Ended,
}

/// Draws the number that there is, where the compute is to find none.
fn spend<R: Abort>(rt: &R, store: &Store<Letter>, lane: &mut Lane<Letter>, ended: Ended)
    requires { IsLaneOf store.now.id lane.old }
    ensures { IsLaneOf store.now.id lane.new }
{
    if matches!(ended, Ended::Unkept | Ended::FaultUnkept) {
        let kept = store.keep(lane, Letter { letter: 'w' });
        same(rt, kept.is_ok(), true, "whether the number is drawn");
    }
}

/// What the compute and the call beside it answer.
fn answers<R: Abort + Clock + Threads + Wait + Sync>(
    rt: &R,
    store: &Store<Letter>,
    key: &Key,
    first: &mut Lane<Letter>,
    second: &mut Lane<Letter>,
    held: Held,
    waits: Call,
) -> (Ended, Option<Look>)
    requires first { IsLaneOf store.now.id first.old }
    requires second { IsLaneOf store.now.id second.old }
    requires contexts { 2 < length store.now.tree }
{
    let gate = &Gate::new(1);
    spend(rt, store, first, held.ended);
    let fails = held.ended.is_failed();
    join(
        rt,
        ||
            requires { IsLaneOf store.now.id first.now × (1 < length store.now.tree) }
        {
            let answer = compute_held(rt, store, first, key, gate, fails, held.waits);
            gate.watch(rt);
            answer
        },
        || call_beside(rt, store, second, key, gate, waits),
    )
}

/// Asserts what is answered in a store of its own, of one number.
fn beside_held<R: Abort + Clock + Threads + Wait + Sync>(
    rt: &R,
    alloc: Global,
    held: Held,
    waits: Call,
    found: Look,
) -> Result<(), Fail> {
    let one_number = Limits {
        numbers: 1,
        ..limits(2, held.keep_faults)
    };
    with_pair(
        rt,
        alloc,
        one_number,
        |rt: &R, store: &Store<Letter>, key: &Key, first: &mut Lane<Letter>, second: &mut Lane<
            Letter,
        >|
            requires first { IsLaneOf store.now.id first.old }
            requires second { IsLaneOf store.now.id second.old }
            requires contexts { 2 < length store.now.tree }
        {
            let (computed, beside) = answers(rt, store, key, first, second, held, waits);
            same(rt, computed, held.ended, "the compute");
            same(rt, beside, Some(found), "the call that waited");
        },
    )
}

/// The same of a compute that does not wait.
fn beside<R: Abort + Clock + Threads + Wait + Sync>(
    rt: &R,
    alloc: Global,
    keep_faults: bool,
    waits: Call,
    ended: Ended,
    found: Look,
) -> Result<(), Fail> {
    let held = Held {
        keep_faults,
        waits: false,
        ended,
    };
    beside_held(rt, alloc, held, waits, found)
}

/// Tests `Store::get_wait`.
#[test]
fn look_up_waits_for_a_factory(rt: HostRuntime) -> Result<(), Fail> {
    let found = Look::Found { at: 1, number: 1 };
    beside(&rt, rt.alloc(), false, Call::Get, Ended::Computed(1), found)
}

/// Tests `Store::compute_wait`.
#[test]
fn compute_waits_for_a_factory(rt: HostRuntime) -> Result<(), Fail> {
    let found = Look::Found { at: 1, number: 1 };
    beside(
        &rt,
        rt.alloc(),
        false,
        Call::Compute,
        Ended::Computed(1),
        found,
    )
}

/// The factory fails: what was claimed is given up, which ends the wait too.
/// Tests `Store::remove_wait`.
#[test]
fn remove_waits_for_a_factory_that_fails(rt: HostRuntime) -> Result<(), Fail> {
    beside(
        &rt,
        rt.alloc(),
        false,
        Call::Remove,
        Ended::Failed,
        Look::Absent,
    )
}

/// The factory's fault is kept, which ends the wait as a value does.
/// Tests `Store::compute`, `Store::get_wait` and `Store::get_wait_numbered`.
#[test]
fn look_up_waits_for_a_factory_whose_fault_is_kept(rt: HostRuntime) -> Result<(), Fail> {
    let met = Look::Fault { at: 1, number: 1 };
    beside(&rt, rt.alloc(), true, Call::Get, Ended::FaultKept(1), met)
}

/// Tests `Store::compute` and `Store::compute_wait`.
#[test]
fn compute_waits_for_a_factory_whose_fault_is_kept(rt: HostRuntime) -> Result<(), Fail> {
    let met = Look::Fault { at: 1, number: 1 };
    beside(
        &rt,
        rt.alloc(),
        true,
        Call::Compute,
        Ended::FaultKept(1),
        met,
    )
}

/// The remove takes the number of the fault.
/// Tests `Store::compute` and `Store::remove_wait`.
#[test]
fn remove_waits_for_a_factory_whose_fault_is_kept(rt: HostRuntime) -> Result<(), Fail> {
    let taken = Look::Found { at: 1, number: 1 };
    beside(
        &rt,
        rt.alloc(),
        true,
        Call::Remove,
        Ended::FaultKept(1),
        taken,
    )
}

/// In a store that keeps faults a value is found as ever.
/// Tests `Store::compute` and `Store::compute_wait`.
#[test]
fn compute_waits_for_a_factory_beside_kept_faults(rt: HostRuntime) -> Result<(), Fail> {
    let found = Look::Found { at: 1, number: 1 };
    beside(
        &rt,
        rt.alloc(),
        true,
        Call::Compute,
        Ended::Computed(1),
        found,
    )
}

/// How a held compute ends, whether its store keeps faults, and what a look-up that waits for it
/// finds then.
const ENDS: [(bool, Ended, Look); 6] = [
    (false, Ended::Computed(1), Look::Found { at: 1, number: 1 }),
    (false, Ended::Unkept, Look::Absent),
    (false, Ended::Failed, Look::Absent),
    (true, Ended::Unkept, Look::Absent),
    (true, Ended::FaultKept(1), Look::Fault { at: 1, number: 1 }),
    (true, Ended::FaultUnkept, Look::Absent),
];

/// A look-up goes on after each end of a claim, by either form of the compute: also where nothing
/// is kept, since all numbers are drawn.
/// Tests `Store::compute`, `Store::compute_wait`, `Store::fill`, `Store::fail`, `Store::abandon`,
/// `StoreCore::fill`, `StoreCore::fail`, `StoreCore::abandon`, `StoreCore::get_wait`,
/// `StoreCore::wake` and `Waiters::wake_all`.
#[test]
fn look_up_waits_for_each_end_of_a_claim(rt: HostRuntime) -> Result<(), Fail> {
    for waits in [false, true] {
        for row in &ENDS {
            let (keep_faults, ended, found) = *row;
            let held = Held {
                keep_faults,
                waits,
                ended,
            };
            beside_held(&rt, rt.alloc(), held, Call::Get, found)?;
        }
    }
    Ok(())
}

/// What a compute that is held and the look-ups of two lanes that wait for it answer.
fn two_answers<R: Abort + Clock + Threads + Wait + Sync>(
    rt: &R,
    store: &Store<Letter>,
    key: &Key,
    lanes: &mut [Lane<Letter>],
) -> (Ended, (Option<Look>, Option<Look>))
    requires lanes { All (IsLaneOf store.now.id) lanes.old }
    requires contexts { 2 < length store.now.tree }
{
    let [first, second, third] = lanes else {
        panic!(rt; "there are three lanes");
    };
    let gate = &Gate::new(2);
    join(
        rt,
        ||
            requires { IsLaneOf store.now.id first.now × (1 < length store.now.tree) }
        {
            let answer = compute_held(rt, store, first, key, gate, false, false);
            gate.watch(rt);
            answer
        },
        ||
            requires { IsLaneOf store.now.id second.now × IsLaneOf store.now.id third.now × (2 < length store.now.tree) }
        {
            join(
                rt,
                || call_beside(rt, store, second, key, gate, Call::Get),
                || call_beside(rt, store, third, key, gate, Call::Get),
            )
        },
    )
}

/// Both sleep when the claim ends, and each goes on.
/// Tests `Store::get_wait`, `StoreCore::wake` and `Waiters::wake_all`.
#[test]
fn two_look_ups_wait_for_a_factory(rt: HostRuntime) -> Result<(), Fail> {
    with_store(
        rt.alloc(),
        limits(3, false),
        |store: &Store<Letter>, key: &Key, lanes: &mut [Lane<Letter>], _closers: &mut Vec<Closer>|
            requires lanes { All (IsLaneOf store.now.id) lanes.old }
            requires contexts { 2 < length store.now.tree }
        {
            let (computed, looked) = two_answers(&rt, store, key, lanes);
            let found = Some(Look::Found { at: 1, number: 1 });
            same(&rt, computed, Ended::Computed(1), "the compute");
            same(&rt, looked, (found, found), "the look-ups that waited");
        },
    )
}
