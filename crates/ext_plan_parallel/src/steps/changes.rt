//! The steps that change what stands in a context: `put`, `put!` and `remove`.
ghost use Rattle.std.specs.Prelude.{◌≡◌, ◌<◌, length};
ghost use Rattle.ext_tree.specs.Keys.{PlacesOnly};
ghost use Rattle.ext_store.specs.Stores.{IsLaneOf};
ghost use Rattle.ext_plan.specs.StepCalls.{call_view, start_of};
ghost use Rattle.ext_plan_parallel.specs.StoreCalls.{HasFrame, stored_view};
ghost use Rattle.ext_plan_parallel.specs.StoreSteps.{StepPuts, StepRemoves};

use crate::steps::StoredValue;
use crate::steps::reasons::{end_refused, end_unkept};
use ext_lifecycle::{Outcome, Verdict};
use ext_plan::StepCall;
use ext_store::{Lane, Store};
use std::alloc::Global;
use std::sync::Wait;

/// Runs a step `put` or `put!`: keeps the value, and then stores it in the context, which numbers
/// the key.
pub(crate) fn put_value<'a, R: Wait>(
    alloc: Global,
    rt: &R,
    store: &Store<StoredValue<'a>>,
    lane: &mut Lane<StoredValue<'a>>,
    call: &StepCall<'_>,
    value: StoredValue<'a>,
) -> Outcome
    requires lane { IsLaneOf store.now.id lane.old }
    requires context { start_of (call_view call.now).path < length store.now.tree }
    ensures puts { StepPuts store.now (call_view call.now) (stored_view value.entry) lane.old result lane.new }
    ensures computed { result.computed ≡ 0 }
    ensures found { result.found ≡ 0 }
    ensures lane { IsLaneOf store.now.id lane.new }
    ensures frame { HasFrame store.now lane.old lane.new }
    ensures placed { PlacesOnly (call_view call.now).key lane.old.keys lane.new.keys }
{
    let kept = match store.keep_wait(lane, value) {
        Ok(kept) => kept,
        Err((_, why)) => return end_unkept(alloc, call, why),
    };
    let context = call.at();
    match store.put_wait(rt, lane, context, call.key, kept) {
        Ok(_) => Outcome::of(Verdict::Successful),
        Err((_, why)) => end_refused(alloc, call, why),
    }
}

/// Runs a step `remove`: takes out what stands in the context itself, if anything does.
pub(crate) fn remove_value<'a, R: Wait>(
    alloc: Global,
    rt: &R,
    store: &Store<StoredValue<'a>>,
    lane: &mut Lane<StoredValue<'a>>,
    call: &StepCall<'_>,
) -> Outcome
    requires lane { IsLaneOf store.now.id lane.old }
    requires context { start_of (call_view call.now).path < length store.now.tree }
    ensures removes { StepRemoves store.now (call_view call.now) lane.old result lane.new }
    ensures computed { result.computed ≡ 0 }
    ensures found { result.found ≡ 0 }
    ensures lane { IsLaneOf store.now.id lane.new }
    ensures frame { HasFrame store.now lane.old lane.new }
    ensures placed { PlacesOnly (call_view call.now).key lane.old.keys lane.new.keys }
{
    let context = call.at();
    match store.remove_wait(rt, lane, context, call.key) {
        Ok(_) => Outcome::of(Verdict::Successful),
        Err(why) => end_refused(alloc, call, why),
    }
}
