//! What a run of a tree goes over with lanes to spare, and its report.
ghost use Rattle.std.specs.Prelude.{◌≡◌, ◌<◌, ◌≤◌, All, IfSome, IsPermutation, length};
ghost use Rattle.ext_locks.specs.Names.{texts_of};
ghost use Rattle.ext_store.specs.Stores.{IsLaneOf, closers_below};
ghost use Rattle.ext_engine.specs.TreeRun.{IsIdle, IsUsable};

use ext_engine::{Opened, open_run, read_ids};
use ext_locks::LockLane;
use ext_store::{Lane, Limits, StoreValue};
use ext_tree::{Key, Namespace};
use std::alloc::Global;
use std::fmt::Debug;
use std::process::Abort;

/// What a run of a tree goes over, and a lane of its store and one of its locks that the run has
/// not in hand.
#[derive(Drop)]
pub(crate) struct OpenedApart<V> {
    pub(crate) opened: Opened<V>,
    pub(crate) lane: Lane<V>,
    pub(crate) lock_lane: LockLane,
}

/// A store of these contexts, with so many lanes for a run and one more, which keeps no faults, and
/// as many lanes of locks of these names.
pub(crate) fn open_apart<V: StoreValue + Drop>(
    alloc: Global,
    texts: &[&str],
    names: &[&str],
    lanes: usize,
) -> Option<OpenedApart<V>>
    requires { lanes ≤ 15 }
    ensures usable { IfSome result (λ o. IsUsable o.opened.store o.opened.locks (record { first = o.opened.lanes.items; second = o.opened.lock_lanes.items })) }
    ensures lane { IfSome result (λ o. IsLaneOf o.opened.store.id o.lane) }
    ensures lock_lane { IfSome result (λ o. IsIdle o.opened.locks o.lock_lane) }
    ensures closers { IfSome result (λ o. o.opened.closers.items ≡ closers_below o.opened.store.id.cells (length o.opened.store.tree)) }
    ensures names { IfSome result (λ o. IsPermutation (texts_of names.now) o.opened.locks.names) }
{
    let limits = Limits::new(lanes + 1);
    let ids = read_ids(alloc, texts).ok()?;
    let Ok(mut opened) = open_run(alloc, ids.as_slice(), names, limits) else {
        return None;
    };
    if opened.lanes.len() < 2 {
        return None;
    }
    let lane = opened.lanes.pop()?;
    let lock_lane = opened.lock_lanes.pop()?;
    Some(OpenedApart {
        opened,
        lane,
        lock_lane,
    })
}

/// A key; `None` where there is no memory.
pub(crate) fn a_key(alloc: Global) -> Option<Key> {
    Key::new(alloc, Namespace::global(), "page").ok()
}

/// Asserts that this was answered. Tests assert by it, since a call is cheaper to prove than what
/// `assert_eq!` writes.
pub(crate) fn same<T: Debug + Drop + PartialEq>(rt: &impl Abort, answer: T, wanted: T, what: &str) {
    assert_eq!(rt; answer, wanted, "{what}");
}
