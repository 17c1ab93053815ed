//! Keys that come when all 64 numbers are given: every call by such a key is refused, and what was
//! moved in comes back.
ghost use Rattle.std.specs.Prelude.{◌≡◌};
ghost use Rattle.ext_store.specs.Stores.{IsLaneOf};

use crate::asked::key;
use crate::chain::{Answer, Call, rows_when_full};
use crate::opening::plain;
use ext_model::Look;
use ext_store::{Lane, Refusal, Store, StoreValue};
use ext_tree::Key;
use std::alloc::Global;
use std::process::Abort;

/// The global key whose name is this number.
pub(crate) fn number_key(rt: &impl Abort, alloc: Global, number: usize) -> Key {
    let Ok(name) = format!(in alloc; "{number}") else {
        panic!(rt; "no memory");
    };
    key(rt, alloc, name.as_str())
}

/// Has the lane name the keys from this number on up to `63`, each of which gets its own number:
/// those before are given.
pub(crate) fn name_from<R: Abort, V: StoreValue + Drop>(
    rt: &R,
    alloc: Global,
    store: &Store<V>,
    lane: &mut Lane<V>,
    first: usize,
)
    requires { IsLaneOf store.now.id lane.old }
    ensures { IsLaneOf store.now.id lane.new }
{
    for number in first..64 {
        let key = number_key(rt, alloc, number);
        assert!(rt; store.number(lane, &key) == Ok(number));
    }
}

/// All 64 numbers are given: each call by a further key is refused as `DirectoryFull`, and those by
/// the last key that has one are not.
/// Tests `Kept::number`, `Lane::number`, `Store::number`, `Store::get`, `Store::put`,
/// `Store::remove`, `Store::compute`, `Store::get_wait`, `Store::put_wait`, `Store::remove_wait`,
/// `Store::compute_wait` and `Store::compute_numbered`.
#[test]
fn key_without_a_number_is_refused(rt: HostRuntime) {
    let full = Refusal::DirectoryFull;
    let last = Look::Found { at: 1, number: 2 };
    let all = [
        (0, 1, "d", Call::Numbers(Err(full))),
        (0, 1, "d", Call::Gets(Err(full))),
        (0, 1, "d", Call::Removes(Err(full))),
        (0, 1, "d", Call::Puts(plain('x'), 1, Err(full))),
        (0, 1, "d", Call::Computes('y', Answer::Refused(full))),
        (1, 0, "e", Call::FailsAs("boom", Answer::Refused(full))),
        (0, 1, "63", Call::Numbers(Ok(63))),
        (0, 1, "63", Call::Puts(plain('z'), 2, Ok(None))),
        (1, 2, "63", Call::Gets(Ok(last))),
        (1, 2, "d", Call::Gets(Err(full))),
    ];
    rows_when_full(&rt, rt.alloc(), 8, &all);
}
