//! The steps that look up: `want` and `none`.
ghost use Rattle.std.specs.Prelude.{ℕ, ◌≡◌, ◌<◌, IfErr, IfOk, length};
ghost use Rattle.ext_tree.specs.Keys.{IsKeyNumber, PlacesOnly};
ghost use Rattle.ext_store.specs.LaneCalls.{IsKeyRefused};
ghost use Rattle.ext_store.specs.Stores.{IsLaneOf};
ghost use Rattle.ext_plan.specs.StepCalls.{call_view, start_of};
ghost use Rattle.ext_plan.specs.Verdicts.{none_verdict, seen_view, want_verdict};
ghost use Rattle.ext_plan_parallel.specs.StoreCalls.{HasFrame, KnowsTheSame, Sees, ShowsFault, ShowsNumber};
ghost use Rattle.ext_plan_parallel.specs.StoreSteps.{StepLooks};

use crate::steps::StoredValue;
use crate::steps::reasons::{end_refused, or_no_memory};
use ext_lifecycle::Outcome;
use ext_model::{ContextNo, Fault, Look};
use ext_plan::{Reason, Seen, StepCall, none_verdict, want_verdict};
use ext_store::{Lane, Refusal, Store};
use ext_tree::Key;
use std::alloc::Global;
use std::sync::Wait;

/// Runs a step `want`: looks up, and expects a value with this text.
pub(crate) fn want<'a, R: Wait>(
    alloc: Global,
    rt: &R,
    store: &Store<StoredValue<'a>>,
    lane: &mut Lane<StoredValue<'a>>,
    call: &StepCall<'_>,
    text: &str,
) -> Outcome
    requires lane { IsLaneOf store.now.id lane.old }
    requires context { start_of (call_view call.now).path < length store.now.tree }
    ensures looks { StepLooks store.now (call_view call.now) (want_verdict (call_view call.now).name (call_view call.now).label text.now) lane.old result lane.new }
    ensures computed { result.computed ≡ 0 }
    ensures found { result.found ≡ 0 }
    ensures lane { IsLaneOf store.now.id lane.new }
    ensures frame { HasFrame store.now lane.old lane.new }
    ensures placed { PlacesOnly (call_view call.now).key lane.old.keys lane.new.keys }
{
    match see(rt, store, lane, call.at(), call.key) {
        Ok(seen) => Outcome::of(or_no_memory(want_verdict(alloc, call, text, seen))),
        Err(why) => end_refused(alloc, call, why),
    }
}

/// Runs a step `none`: looks up, and expects to find nothing.
pub(crate) fn none<'a, R: Wait>(
    alloc: Global,
    rt: &R,
    store: &Store<StoredValue<'a>>,
    lane: &mut Lane<StoredValue<'a>>,
    call: &StepCall<'_>,
) -> Outcome
    requires lane { IsLaneOf store.now.id lane.old }
    requires context { start_of (call_view call.now).path < length store.now.tree }
    ensures looks { StepLooks store.now (call_view call.now) (none_verdict (call_view call.now).name (call_view call.now).label) lane.old result lane.new }
    ensures computed { result.computed ≡ 0 }
    ensures found { result.found ≡ 0 }
    ensures lane { IsLaneOf store.now.id lane.new }
    ensures frame { HasFrame store.now lane.old lane.new }
    ensures placed { PlacesOnly (call_view call.now).key lane.old.keys lane.new.keys }
{
    match see(rt, store, lane, call.at(), call.key) {
        Ok(seen) => Outcome::of(or_no_memory(none_verdict(alloc, call, seen))),
        Err(why) => end_refused(alloc, call, why),
    }
}

/// What a look-up from the context shows, or why it was refused for its key.
fn see<'s, 'a, R: Wait>(
    rt: &R,
    store: &'s Store<StoredValue<'a>>,
    lane: &mut Lane<StoredValue<'a>>,
    context: ContextNo,
    key: &Key,
) -> Result<Seen<'s>, Refusal>
    requires lane { IsLaneOf store.now.id lane.old }
    requires context { context < length store.now.tree }
    ensures sees { IfOk result (λ seen. (number : ℕ) × IsKeyNumber lane.new.keys key.now number × Sees store.now context number lane.old (seen_view seen) lane.new) }
    ensures refused { IfErr result (λ why. IsKeyRefused lane.old lane.new key.now why × KnowsTheSame lane.old lane.new) }
    ensures lane { IsLaneOf store.now.id lane.new }
    ensures frame { HasFrame store.now lane.old lane.new }
    ensures placed { PlacesOnly key.now lane.old.keys lane.new.keys }
{
    match store.get_wait(rt, lane, context, key) {
        Ok(Look::Found { at: _, number }) => Ok(show(store, lane, number)),
        Ok(Look::Fault { at: _, number }) => Ok(show_fault(store, lane, number)),
        Ok(Look::Absent) => Ok(Seen::Nothing),
        Ok(Look::Closed(_)) => Ok(Seen::Refused(Reason::Closed)),
        // A waiting look-up waits until the factory has ended.
        Ok(Look::Busy(_)) => unreachable!(),
        Err(why) => Err(why),
    }
}

/// What a step is shown of the value with the number that it found.
pub(crate) fn show<'a>(
    store: &Store<StoredValue<'a>>,
    lane: &mut Lane<StoredValue<'a>>,
    number: u32,
) -> Seen<'a>
    requires lane { IsLaneOf store.now.id lane.old }
    ensures shows { ShowsNumber number lane.old.known (seen_view result) lane.new.known }
    ensures faults { lane.new.faults ≡ lane.old.faults }
    ensures keys { lane.new.keys ≡ lane.old.keys }
    ensures steps { lane.new.cells ≡ lane.old.cells }
    ensures lane { IsLaneOf store.now.id lane.new }
    ensures frame { HasFrame store.now lane.old lane.new }
{
    match store.show(lane, number) {
        Some(stored) => Seen::Value(stored.value.text),
        None => Seen::Refused(Reason::NotShown),
    }
}

/// What a step is shown of the kept fault with the number that it met.
pub(crate) fn show_fault<'s, 'a>(
    store: &'s Store<StoredValue<'a>>,
    lane: &mut Lane<StoredValue<'a>>,
    number: u32,
) -> Seen<'s>
    requires lane { IsLaneOf store.now.id lane.old }
    ensures shows { ShowsFault number lane.old.faults (seen_view result) lane.new.faults }
    ensures known { lane.new.known ≡ lane.old.known }
    ensures keys { lane.new.keys ≡ lane.old.keys }
    ensures steps { lane.new.cells ≡ lane.old.cells }
    ensures lane { IsLaneOf store.now.id lane.new }
    ensures frame { HasFrame store.now lane.old lane.new }
{
    match store.show_fault(lane, number) {
        Some(Fault::Text(text)) => Seen::Fault(text.as_str()),
        Some(Fault::Memory) => Seen::NoMemory,
        None => Seen::Refused(Reason::NotShown),
    }
}
