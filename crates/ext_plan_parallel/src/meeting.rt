//! Lanes that meet.
ghost use Rattle.std.specs.Prelude.{◌≡◌, List, All, AllPairs};
ghost use Rattle.std.specs.List.{AllZip};
ghost use Rattle.ext_model.specs.History.{History, IsLegal};
ghost use Rattle.ext_tree.specs.Keys.{KnownPlace};
ghost use Rattle.ext_values.specs.Known.{AllAgree};
ghost use Rattle.ext_store.specs.Stores.{IsLaneOf};
ghost use Rattle.ext_plan_parallel.specs.InnerMeeting.{HasRecalled, Turns};
ghost use Rattle.ext_plan_parallel.specs.Opened.{ShareHistory, ShareKeys, all_faults, all_known};

use ext_store::{Lane, Store, StoreValue};

/// Lets each lane meet the next one, then each the one before it, and then each all others. This
/// shows that what the lanes had seen is one history that contains all events of each. Any two
/// agree on what they know of a number, as a value or as a fault, and what all know of the places
/// of keys is part of one numbering.
pub(crate) fn meet_all<V: StoreValue + Drop>(store: &Store<V>, lanes: &mut [Lane<V>])
    requires lanes { All (IsLaneOf store.now.id) lanes.old }
    ensures shared { ShareHistory store.now lanes.old }
    ensures numbered { ShareKeys lanes.old }
{
    tell_proof_of_all(lanes);
    turn_all(store, lanes);
    agree_all(store, lanes);
}

/// Lets each lane meet the next one, and then each the one before it.
fn turn_all<V: StoreValue + Drop>(store: &Store<V>, lanes: &mut [Lane<V>])
    requires lanes { All (IsLaneOf store.now.id) lanes.old }
    requires looked { All HasRecalled lanes.old }
    ensures turned { (h : History) × (numbering : List KnownPlace) × IsLegal store.now.id.cells.limits h × AllZip (Turns store.now h numbering) lanes.old lanes.new }
{
    if let Some((first, rest)) = lanes.split_first_mut() {
        meet_rest(store, first, rest);
    }
}

/// Lets a lane meet the first of the others, that one the next, and so on, and then back.
fn meet_rest<V: StoreValue + Drop>(store: &Store<V>, lane: &mut Lane<V>, others: &mut [Lane<V>])
    requires lane { IsLaneOf store.now.id lane.old }
    requires others { All (IsLaneOf store.now.id) others.old }
    requires looked { HasRecalled lane.old × All HasRecalled others.old }
    ensures turned { (h : History) × (numbering : List KnownPlace) × IsLegal store.now.id.cells.limits h × Turns store.now h numbering lane.old lane.new × AllZip (Turns store.now h numbering) others.old others.new }
{
    if let Some((next, more)) = others.split_first_mut() {
        store.meet(lane, next);
        next.tell_proof();
        meet_rest(store, next, more);
        store.meet(next, lane);
    }
}

/// Lets each lane meet all lanes after it.
fn agree_all<V: StoreValue + Drop>(store: &Store<V>, lanes: &mut [Lane<V>])
    requires lanes { All (IsLaneOf store.now.id) lanes.old }
    ensures agree { AllPairs AllAgree (all_known lanes.old) }
    ensures agree_faults { AllPairs AllAgree (all_faults lanes.old) }
{
    if let Some((first, rest)) = lanes.split_first_mut() {
        agree_rest(store, first, rest);
        agree_all(store, rest);
    }
}

/// Lets a lane meet each of the others.
fn agree_rest<V: StoreValue + Drop>(store: &Store<V>, first: &mut Lane<V>, others: &mut [Lane<V>])
    requires first { IsLaneOf store.now.id first.old }
    requires others { All (IsLaneOf store.now.id) others.old }
    ensures lanes { All (IsLaneOf store.now.id) others.new }
    ensures first { (first.new.known ≡ first.old.known) × (first.new.faults ≡ first.old.faults) }
    ensures known { all_known others.new ≡ all_known others.old }
    ensures faults { all_faults others.new ≡ all_faults others.old }
    ensures agree { All (AllAgree first.old.known) (all_known others.old) }
    ensures agree_faults { All (AllAgree first.old.faults) (all_faults others.old) }
{
    if let Some((next, more)) = others.split_first_mut() {
        store.meet(first, next);
        agree_rest(store, first, more);
    }
}

/// Shows what is true of each of these lanes, and does nothing when it runs.
fn tell_proof_of_all<V: StoreValue + Drop>(lanes: &[Lane<V>])
    ensures { All HasRecalled lanes.now }
{
    for lane in lanes {
        lane.tell_proof();
    }
}
