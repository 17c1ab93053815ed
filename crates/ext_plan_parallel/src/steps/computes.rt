//! The steps that compute unless something is found: `compute`, `compute!` and `computefail`.
ghost use Rattle.std.specs.Prelude.{◌≡◌, ◌<◌, ◌≤◌, ◌⊎◌, ℕ, [], length, string_bytes};
ghost use Rattle.ext_tree.specs.Keys.{PlacesOnly};
ghost use Rattle.ext_store.specs.Stores.{IsLaneOf};
ghost use Rattle.ext_store.specs.declared.computed.Compute.TheVariants.{Refused};
ghost use Rattle.ext_store.specs.LaneCalls.{Frame, OfKey};
ghost use Rattle.ext_store.specs.Computing.{Uses, without_factory};
ghost use Rattle.ext_store.specs.Waiting.{ComputesAfterWaits, IsDecidedCompute};
ghost use Rattle.ext_plan.specs.StepCalls.{call_view, start_of};
ghost use Rattle.ext_plan_parallel.specs.StoreCalls.{HasFrame, ShowsFault, stored_view};
ghost use Rattle.ext_plan.specs.Verdicts.{SeenText, fail_verdict, none_verdict};
ghost use Rattle.ext_plan_parallel.specs.Saying.{Ends};
ghost use Rattle.ext_plan_parallel.specs.StoreSteps.{FindsNoMemory, StepComputes, StepFails};

use crate::steps::StoredValue;
use crate::steps::looks::{show, show_fault};
use crate::steps::reasons::{end_refused, end_unkept, or_no_memory};
use ext_lifecycle::{Outcome, Verdict};
use ext_model::{ContextNo, Fault};
use ext_plan::{StepCall, fail_verdict, none_verdict};
use ext_store::{Compute, Lane, Store, StoreValue};
use ext_tree::Key;
use std::alloc::Global;
use std::sync::Wait;

/// Runs a step `compute` or `compute!`: computes the value for the context, unless one is found.
pub(crate) fn compute<'a, R: Wait>(
    alloc: Global,
    rt: &R,
    store: &Store<StoredValue<'a>>,
    lane: &mut Lane<StoredValue<'a>>,
    call: &StepCall<'_>,
    value: StoredValue<'a>,
) -> Outcome
    requires lane { IsLaneOf store.now.id lane.old }
    requires context { start_of (call_view call.now).path < length store.now.tree }
    ensures computes { StepComputes store.now (call_view call.now) (stored_view value.entry) lane.old result lane.new }
    ensures computed { result.computed ≤ 1 }
    ensures found { result.found ≤ 1 }
    ensures lane { IsLaneOf store.now.id lane.new }
    ensures frame { HasFrame store.now lane.old lane.new }
    ensures placed { PlacesOnly (call_view call.now).key lane.old.keys lane.new.keys }
{
    match compute_made(rt, store, lane, call.at(), call.key, Ok(value)) {
        Compute::Computed { number: _ } => counted(Verdict::Successful, 1, 0),
        Compute::Found {
            at: _,
            number: _,
            unused: _,
        } => counted(Verdict::Successful, 0, 1),
        Compute::FaultStands {
            at: _,
            number,
            unused: _,
        } => end_met(alloc, store, lane, call, number),
        // The factory does not fail.
        Compute::Failed(_) => unreachable!(),
        Compute::FaultKept { number: _ } => unreachable!(),
        Compute::FaultUnkept { fault: _, cause: _ } => unreachable!(),
        Compute::Unkept { value: _, cause } => end_unkept(alloc, call, cause),
        Compute::Refused { refusal, unused: _ } => end_refused(alloc, call, refusal),
    }
}

/// Runs a step `computefail`: computes by a factory that fails with this text. If memory for its
/// fault is refused, the step makes no call.
pub(crate) fn compute_fail<'a, R: Wait>(
    alloc: Global,
    rt: &R,
    store: &Store<StoredValue<'a>>,
    lane: &mut Lane<StoredValue<'a>>,
    call: &StepCall<'_>,
    text: &str,
) -> Outcome
    requires lane { IsLaneOf store.now.id lane.old }
    requires context { start_of (call_view call.now).path < length store.now.tree }
    ensures fails { StepFails store.now (call_view call.now) text.now lane.old result lane.new ⊎ FindsNoMemory lane.old result lane.new }
    ensures computed { result.computed ≤ 1 }
    ensures found { result.found ≤ 1 }
    ensures lane { IsLaneOf store.now.id lane.new }
    ensures frame { HasFrame store.now lane.old lane.new }
    ensures placed { PlacesOnly (call_view call.now).key lane.old.keys lane.new.keys }
{
    match String::from_str(alloc, text) {
        Ok(copy) => compute_fault(alloc, rt, store, lane, call, copy, text),
        Err(_) => Outcome::of(Verdict::Failed(Fault::Memory)),
    }
}

/// Computes by a factory that fails with this text; `copy` is the text for its fault.
fn compute_fault<'a, R: Wait>(
    alloc: Global,
    rt: &R,
    store: &Store<StoredValue<'a>>,
    lane: &mut Lane<StoredValue<'a>>,
    call: &StepCall<'_>,
    copy: String,
    text: &str,
) -> Outcome
    requires lane { IsLaneOf store.now.id lane.old }
    requires context { start_of (call_view call.now).path < length store.now.tree }
    requires text { string_bytes copy ≡ text.now }
    ensures fails { StepFails store.now (call_view call.now) text.now lane.old result lane.new }
    ensures computed { result.computed ≤ 1 }
    ensures found { result.found ≤ 1 }
    ensures lane { IsLaneOf store.now.id lane.new }
    ensures frame { HasFrame store.now lane.old lane.new }
    ensures placed { PlacesOnly (call_view call.now).key lane.old.keys lane.new.keys }
{
    let fault = Fault::Text(copy);
    match compute_made(rt, store, lane, call.at(), call.key, Err(fault)) {
        Compute::Found {
            at: _,
            number,
            unused: _,
        } => {
            let seen = show(store, lane, number);
            counted(or_no_memory(none_verdict(alloc, call, seen)), 0, 1)
        }
        Compute::Failed(_) => Outcome::of(Verdict::Successful),
        Compute::FaultKept { number: _ } => Outcome::of(Verdict::Successful),
        Compute::FaultUnkept { fault: _, cause } => end_unkept(alloc, call, cause),
        Compute::FaultStands {
            at: _,
            number,
            unused: _,
        } => end_met_failing(alloc, store, lane, call, text, number),
        Compute::Refused { refusal, unused: _ } => end_refused(alloc, call, refusal),
        // The factory gives no value.
        Compute::Computed { number: _ } => unreachable!(),
        Compute::Unkept { value: _, cause: _ } => unreachable!(),
    }
}

/// The outcome of a step that should compute a value, and met the kept fault with this number.
fn end_met<'a>(
    alloc: Global,
    store: &Store<StoredValue<'a>>,
    lane: &mut Lane<StoredValue<'a>>,
    call: &StepCall<'_>,
    number: u32,
) -> Outcome
    requires lane { IsLaneOf store.now.id lane.old }
    ensures ends { (seen : SeenText) × ShowsFault number lane.old.faults seen lane.new.faults × Ends (none_verdict (call_view call.now).name (call_view call.now).label seen) 0 0 result }
    ensures known { lane.new.known ≡ lane.old.known }
    ensures keys { lane.new.keys ≡ lane.old.keys }
    ensures steps { lane.new.cells ≡ lane.old.cells }
    ensures lane { IsLaneOf store.now.id lane.new }
    ensures frame { HasFrame store.now lane.old lane.new }
{
    let seen = show_fault(store, lane, number);
    counted(or_no_memory(none_verdict(alloc, call, seen)), 0, 0)
}

/// The outcome of a step whose factory should fail with this text, and that met the kept fault with
/// this number.
fn end_met_failing<'a>(
    alloc: Global,
    store: &Store<StoredValue<'a>>,
    lane: &mut Lane<StoredValue<'a>>,
    call: &StepCall<'_>,
    text: &str,
    number: u32,
) -> Outcome
    requires lane { IsLaneOf store.now.id lane.old }
    ensures ends { (seen : SeenText) × ShowsFault number lane.old.faults seen lane.new.faults × Ends (fail_verdict (call_view call.now).name (call_view call.now).label text.now seen) 0 0 result }
    ensures known { lane.new.known ≡ lane.old.known }
    ensures keys { lane.new.keys ≡ lane.old.keys }
    ensures steps { lane.new.cells ≡ lane.old.cells }
    ensures lane { IsLaneOf store.now.id lane.new }
    ensures frame { HasFrame store.now lane.old lane.new }
{
    let seen = show_fault(store, lane, number);
    counted(or_no_memory(fail_verdict(alloc, call, text, seen)), 0, 0)
}

/// The answer of a compute whose factory returns `made`.
fn compute_made<R: Wait, V: StoreValue + Drop>(
    rt: &R,
    store: &Store<V>,
    lane: &mut Lane<V>,
    context: ContextNo,
    key: &Key,
    made: Result<V, Fault>,
) -> Compute<V, ()>
    requires lane { IsLaneOf store.now.id lane.old }
    requires context { context < length store.now.tree }
    ensures answer { OfKey lane.old lane.new key.now (λ why. result ≡ Refused why tt) (λ number. ComputesAfterWaits store.now context number lane.old.cells lane.new.cells (without_factory result)) }
    ensures decided { IsDecidedCompute result }
    ensures factory { Uses (λ answer. answer ≡ made) lane.old lane.new (without_factory result) }
    ensures lane { IsLaneOf store.now.id lane.new }
    ensures frame { Frame store.now.id [] lane.old lane.new }
    ensures placed { PlacesOnly key.now lane.old.keys lane.new.keys }
{
    let factory = move |_key: &Key| -> Result<V, Fault>
        ensures { result ≡ made }
    { made };
    match store.compute_wait(rt, lane, context, key, factory) {
        Compute::Computed { number } => Compute::Computed { number },
        Compute::Found {
            at,
            number,
            unused: _,
        } => Compute::Found {
            at,
            number,
            unused: (),
        },
        Compute::Failed(fault) => Compute::Failed(fault),
        Compute::FaultKept { number } => Compute::FaultKept { number },
        Compute::FaultUnkept { fault, cause } => Compute::FaultUnkept { fault, cause },
        Compute::FaultStands {
            at,
            number,
            unused: _,
        } => Compute::FaultStands {
            at,
            number,
            unused: (),
        },
        Compute::Unkept { value, cause } => Compute::Unkept { value, cause },
        Compute::Refused { refusal, unused: _ } => Compute::Refused {
            refusal,
            unused: (),
        },
    }
}

/// The outcome with these counts of values computed and found.
fn counted(verdict: Verdict, computed: u32, found: u32) -> Outcome
    ensures verdict { result.verdict ≡ verdict }
    ensures computed { result.computed ≡ computed }
    ensures found { result.found ≡ found }
{
    Outcome {
        verdict,
        computed,
        found,
    }
}
