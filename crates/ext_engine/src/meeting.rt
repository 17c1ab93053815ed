//! How lanes of a share meet.
ghost use Rattle.std.specs.Prelude.{◌≡◌, All, length};
ghost use Rattle.std.specs.List.{AllZip};
ghost use Rattle.ext_history.specs.Histories.{seen_by};
ghost use Rattle.ext_store.specs.Stores.{IsLaneOf};
ghost use Rattle.ext_engine.specs.Meeting.{Forks, HasSeen, HasSeenWithin, Joins, OnlyMeets};

use ext_store::{Lane, Store, StoreValue};

/// Shows all lanes what the first of them has seen.
pub(crate) fn fork<V: StoreValue + Drop>(store: &Store<V>, lanes: &mut [Lane<V>])
    requires lanes { All (IsLaneOf store.now.id) lanes.old }
    ensures forked { Forks store.now lanes.old lanes.new }
{
    if let Some((first, rest)) = lanes.split_first_mut() {
        show_rest(store, first, rest);
    }
}

/// Shows the first lane what each of them has seen.
pub(crate) fn join<V: StoreValue + Drop>(store: &Store<V>, lanes: &mut [Lane<V>])
    requires lanes { All (IsLaneOf store.now.id) lanes.old }
    ensures joined { Joins store.now lanes.old lanes.new }
{
    if let Some((first, rest)) = lanes.split_first_mut() {
        see_rest(store, first, rest);
    }
}

/// Shows each of the other lanes what the first has seen.
fn show_rest<V: StoreValue + Drop>(store: &Store<V>, first: &mut Lane<V>, others: &mut [Lane<V>])
    requires first { IsLaneOf store.now.id first.old }
    requires others { All (IsLaneOf store.now.id) others.old }
    ensures met { OnlyMeets store.now first.old first.new × AllZip (OnlyMeets store.now) others.old others.new }
    ensures shown { All (HasSeen (seen_by first.old.cells.view)) others.new }
{
    if let Some((next, more)) = others.split_first_mut() {
        store.meet(first, next);
        show_rest(store, first, more);
    }
}

/// Shows the first lane what each of the others has seen.
fn see_rest<V: StoreValue + Drop>(store: &Store<V>, first: &mut Lane<V>, others: &mut [Lane<V>])
    requires first { IsLaneOf store.now.id first.old }
    requires others { All (IsLaneOf store.now.id) others.old }
    ensures met { OnlyMeets store.now first.old first.new × AllZip (OnlyMeets store.now) others.old others.new }
    ensures shown { All (HasSeenWithin (seen_by first.new.cells.view)) others.old }
{
    if let Some((next, more)) = others.split_first_mut() {
        store.meet(next, first);
        see_rest(store, first, more);
    }
}
