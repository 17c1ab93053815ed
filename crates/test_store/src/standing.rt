//! Factories that look by another lane: while each runs the claim stands in its place, whatever the
//! compute comes to then.
ghost use Rattle.std.specs.Prelude.{◌<◌, length};
ghost use Rattle.ext_store.specs.Stores.{IsLaneOf};

use crate::asked::{key, same, with_made};
use crate::opening::{Letter, Opened, open_chain_for, plain};
use ext_model::{Fault, Look};
use ext_store::{Compute, KeepFault, Lane, Refusal, Store};
use ext_tree::Key;
use std::alloc::Global;
use std::process::Abort;
use std::sync::Wait;

/// A compute whose factory looks: whether it waits, whether its factory fails, whether all numbers
/// were drawn before, and whether its store keeps faults.
#[derive(Clone, Copy)]
struct Case {
    waits: bool,
    fails: bool,
    spent: bool,
    keeps_faults: bool,
}

/// What the compute comes to.
#[derive(Clone, Copy, Debug, PartialEq, Eq)]
enum End {
    Computed,
    Unkept,
    Failed,
    FaultKept,
    FaultUnkept,
    Other,
}

/// What the answer says, where a number that is wanting is the only cause for which nothing is
/// kept.
fn end_of<F: Drop>(outcome: Compute<Letter, F>) -> End {
    match outcome {
        Compute::Computed { .. } => End::Computed,
        Compute::Unkept {
            cause: KeepFault::NumbersFull,
            ..
        } => End::Unkept,
        Compute::Failed(_) => End::Failed,
        Compute::FaultKept { .. } => End::FaultKept,
        Compute::FaultUnkept {
            cause: KeepFault::NumbersFull,
            ..
        } => End::FaultUnkept,
        _ => End::Other,
    }
}

/// What a compute in the method comes to, and what a look-up of the other lane from there answers
/// while its factory runs; nothing where no factory ran.
fn compute_and_look<R: Wait>(
    rt: &R,
    store: &Store<Letter>,
    lane: &mut Lane<Letter>,
    other: &mut Lane<Letter>,
    key: &Key,
    case: Case,
) -> (End, Option<Result<Look, Refusal>>)
    requires lane { IsLaneOf store.now.id lane.old }
    requires other { IsLaneOf store.now.id other.old }
    requires contexts { 2 < length store.now.tree }
{
    let mut looked = None;
    let factory = |name: &Key| -> Result<Letter, Fault>
        requires { IsLaneOf store.now.id other.now × (2 < length store.now.tree) }
    {
        looked = Some(store.get(other, 2, name));
        if case.fails {
            Err(Fault::Memory)
        } else {
            Ok(plain('x'))
        }
    };
    let end = if case.waits {
        end_of(store.compute_wait(rt, lane, 2, key, factory))
    } else {
        end_of(store.compute(lane, 2, key, factory))
    };
    (end, looked)
}

/// Asserts that the factory finds the claim, and what the compute comes to.
fn check<R: Abort + Wait>(rt: &R, opened: &mut Opened<Letter>, key: &Key, case: Case, end: End)
    requires first { IsLaneOf opened.old.store.id opened.old.first }
    requires second { IsLaneOf opened.old.store.id opened.old.second }
    requires contexts { 2 < length opened.old.store.tree }
{
    if case.spent {
        let kept = opened.store.keep(&mut opened.first, plain('w'));
        same(rt, kept.is_ok(), true, "whether the number is drawn");
    }
    let (came, looked) = compute_and_look(
        rt,
        &opened.store,
        &mut opened.first,
        &mut opened.second,
        key,
        case,
    );
    same(
        rt,
        looked,
        Some(Ok(Look::Busy(2))),
        "what the factory finds",
    );
    same(rt, came, end, "the compute");
}

/// The same in a store of its own, with one number.
fn claim_stands<R: Abort + Wait>(rt: &R, alloc: Global, case: Case, end: End) {
    with_made(
        rt,
        open_chain_for(alloc, 1, case.keeps_faults),
        |opened: &mut Opened<Letter>|
            requires first { IsLaneOf opened.old.store.id opened.old.first }
            requires second { IsLaneOf opened.old.store.id opened.old.second }
            requires contexts { 2 < length opened.old.store.tree }
        { check(rt, opened, &key(rt, alloc, "a"), case, end) },
    );
}

/// The claim stands where the value is kept and where it can't be, and where the factory fails and
/// its fault is not kept, is kept, and can't be.
fn claim_stands_in_all_cases<R: Abort + Wait>(rt: &R, alloc: Global, waits: bool) {
    let computed = Case {
        waits,
        fails: false,
        spent: false,
        keeps_faults: false,
    };
    let unkept = Case {
        spent: true,
        ..computed
    };
    let failed = Case {
        fails: true,
        ..computed
    };
    let kept = Case {
        keeps_faults: true,
        ..failed
    };
    let fault_unkept = Case {
        spent: true,
        ..kept
    };
    claim_stands(rt, alloc, computed, End::Computed);
    claim_stands(rt, alloc, unkept, End::Unkept);
    claim_stands(rt, alloc, failed, End::Failed);
    claim_stands(rt, alloc, kept, End::FaultKept);
    claim_stands(rt, alloc, fault_unkept, End::FaultUnkept);
}

/// A factory looks up its own key by another lane and is answered `Busy`, whether its value or its
/// fault is kept afterwards or not.
/// Tests `Store::compute`.
#[test]
fn claim_stands_while_a_factory_runs(rt: HostRuntime) {
    claim_stands_in_all_cases(&rt, rt.alloc(), false);
}

/// A factory of a waiting form looks up its own key by another lane and is answered `Busy`, whether
/// its value or its fault is kept afterwards or not.
/// Tests `Store::compute_wait`.
#[test]
fn claim_stands_while_a_factory_of_a_waiting_form_runs(rt: HostRuntime) {
    claim_stands_in_all_cases(&rt, rt.alloc(), true);
}
