//! The chain's store and keys as the tests ask for them: where there is no memory the test ends.
ghost use Rattle.std.specs.Prelude.{◌≡◌, ◌<◌, IfSome, length};
ghost use Rattle.std.specs.Borrow.{MutBor};
ghost use Rattle.ext_store.specs.Stores.{IsLaneOf};

use crate::opening;
use crate::opening::{Letter, Opened, open_chain};
use ext_store::{Lane, Store};
use ext_tree::Key;
use std::alloc::Global;
use std::fmt::Debug;
use std::process::Abort;
use std::thread::Threads;

/// The global key of this name.
pub(crate) fn key(rt: &impl Abort, alloc: Global, name: &str) -> Key {
    let Some(key) = opening::key(alloc, name) else {
        panic!(rt; "no memory");
    };
    key
}

/// Does the work with what was made, and drops it then: nothing need be known of what it is made
/// of. The test fails where nothing was made, as where there is no memory.
pub(crate) fn with_made<R: Abort, T: Drop, W: FnOnce(&mut T)>(rt: &R, made: Option<T>, work: W)
    requires { IfSome made (λ value. (lent : MutBor T) → lent.now ≡ value → W.pre work lent) }
{
    let Some(value) = made else {
        panic!(rt; "nothing was made");
    };
    let mut value = value;
    work(&mut value);
}

/// What a test does with the store of the chain and its two lanes.
pub(crate) trait Scenario {
    /// Does it, and asserts what is answered. It has the keys a and d, which no lane has named.
    fn play<R: Threads + Sync + Abort>(
        &self,
        rt: &R,
        store: &Store<Letter>,
        first: &mut Lane<Letter>,
        second: &mut Lane<Letter>,
        a: &Key,
        d: &Key,
    )
        requires first { IsLaneOf store.now.id first.old }
        requires second { IsLaneOf store.now.id second.old }
        requires contexts { 2 < length store.now.tree };
}

/// Plays the scenario with its keys.
fn play<R: Threads + Sync + Abort, S: Scenario>(
    rt: &R,
    alloc: Global,
    opened: &mut Opened<Letter>,
    scenario: &S,
)
    requires first { IsLaneOf opened.old.store.id opened.old.first }
    requires second { IsLaneOf opened.old.store.id opened.old.second }
    requires contexts { 2 < length opened.old.store.tree }
{
    let a = key(rt, alloc, "a");
    let d = key(rt, alloc, "d");
    scenario.play(
        rt,
        &opened.store,
        &mut opened.first,
        &mut opened.second,
        &a,
        &d,
    );
}

/// Opens the store of the chain with so many numbers, and plays the scenario on it.
pub(crate) fn with_chain<R: Threads + Sync + Abort, S: Scenario>(
    rt: &R,
    alloc: Global,
    numbers: u32,
    scenario: &S,
) {
    with_made(
        rt,
        open_chain(alloc, numbers),
        |opened: &mut Opened<Letter>|
            requires first { IsLaneOf opened.old.store.id opened.old.first }
            requires second { IsLaneOf opened.old.store.id opened.old.second }
            requires contexts { 2 < length opened.old.store.tree }
        { play(rt, alloc, opened, scenario) },
    );
}

/// Asserts that this was answered. Tests assert by it, since a call is cheaper to prove than what
/// `assert_eq!` writes.
pub(crate) fn same<T: Debug + Drop + PartialEq>(rt: &impl Abort, answer: T, wanted: T, what: &str) {
    assert_eq!(rt; answer, wanted, "{what}");
}
