//! A value that moves between two contexts while another lane looks it up.
ghost use Rattle.std.specs.Prelude.{◌≡◌, ◌<◌, length};
ghost use Rattle.ext_store.specs.Stores.{IsLaneOf};

use crate::opening::with_opened;
use crate::same::same;
use ext_model::{ContextNo, Look};
use ext_store::{Lane, Refusal, Store};
use ext_tree::Key;
use std::process::Abort;
use std::sync::Wait;
use std::thread::{Threads, join};
use test_store::{Letter, key, open_chain, plain};

// How often the value goes to the class and back, and how often it is looked up meanwhile.
const ROUNDS: u32 = 1_000;

const LOOKS: u32 = 100_000;

/// The value of a number.
fn value(number: u32) -> Letter {
    plain(char::from(b'a' + (number % 26) as u8))
}

/// Keeps the value of the number that comes next and stores it in the context. Says whether nothing
/// stood there.
fn store_next(
    store: &Store<Letter>,
    lane: &mut Lane<Letter>,
    key: &Key,
    to: ContextNo,
    next: u32,
) -> bool
    requires lane { IsLaneOf store.now.id lane.old }
    requires context { to < length store.now.tree }
    ensures { IsLaneOf store.now.id lane.new }
{
    let Ok(kept) = store.keep(lane, value(next)) else {
        return false;
    };
    let is_next = kept.number() == next;
    let stored = matches!(store.put(lane, to, key, kept), Ok(None));
    is_next && stored
}

/// Moves the value from the root to the class and back, again and again, and stores before it
/// removes. Says whether no call was refused.
fn move_often(store: &Store<Letter>, lane: &mut Lane<Letter>, key: &Key) -> bool
    requires lane { IsLaneOf store.now.id lane.old }
    requires contexts { 2 < length store.now.tree }
    ensures { IsLaneOf store.now.id lane.new }
{
    let mut moved = true;
    for round in 0..ROUNDS {
        let there = store_next(store, lane, key, 1, 2 * round + 2);
        let left = matches!(store.remove(lane, 0, key), Ok(Some(_)));
        let back = store_next(store, lane, key, 0, 2 * round + 3);
        let gone = matches!(store.remove(lane, 1, key), Ok(Some(_)));
        moved = moved && there && left && back && gone;
    }
    moved
}

/// Looks the key up from the method, again and again. Says whether the value was found each time,
/// or other lanes were in the way.
fn look_often(store: &Store<Letter>, lane: &mut Lane<Letter>, key: &Key) -> bool
    requires lane { IsLaneOf store.now.id lane.old }
    requires contexts { 2 < length store.now.tree }
    ensures { IsLaneOf store.now.id lane.new }
{
    let mut found = true;
    for _ in 0..LOOKS {
        let seen = store.get(lane, 2, key);
        let is_there = matches!(
            seen,
            Ok(Look::Found { at: 0 | 1, .. }) | Err(Refusal::Contended)
        );
        found = found && is_there;
    }
    found
}

/// Whether the lane is shown the value of each number.
fn all_are_shown(store: &Store<Letter>, lane: &mut Lane<Letter>) -> bool
    requires lane { IsLaneOf store.now.id lane.old }
    ensures { IsLaneOf store.now.id lane.new }
{
    let mut shown = true;
    for number in 1..2 * ROUNDS + 2 {
        shown = shown && store.show(lane, number) == Some(&value(number));
    }
    shown
}

/// What both threads say, of which one moves the value and the other looks it up, and the lane of
/// the second.
fn move_and_look<R: Threads + Wait + Sync>(
    rt: &R,
    store: &Store<Letter>,
    mover: Lane<Letter>,
    looker: Lane<Letter>,
    key: &Key,
) -> (bool, (bool, Lane<Letter>))
    requires mover { IsLaneOf store.now.id mover }
    requires looker { IsLaneOf store.now.id looker }
    requires contexts { 2 < length store.now.tree }
    ensures { IsLaneOf store.now.id result.1.1 }
{
    join(
        rt,
        move || -> bool
            requires lane { IsLaneOf store.now.id mover }
            requires contexts { 2 < length store.now.tree }
        {
            let mut mover = mover;
            move_often(store, &mut mover, key)
        },
        move || -> (bool, Lane<Letter>)
            requires lane { IsLaneOf store.now.id looker }
            requires contexts { 2 < length store.now.tree }
            ensures { IsLaneOf store.entry.now.id result.1 }
        {
            let mut looker = looker;
            let found = look_often(store, &mut looker, key);
            (found, looker)
        },
    )
}

/// Moves the value and looks it up meanwhile, and then looks where it is.
fn never_missed<R: Abort + Threads + Wait + Sync>(
    rt: &R,
    store: &Store<Letter>,
    mover: Lane<Letter>,
    looker: Lane<Letter>,
    key: &Key,
)
    requires mover { IsLaneOf store.now.id mover }
    requires looker { IsLaneOf store.now.id looker }
    requires contexts { 2 < length store.now.tree }
{
    let mut mover = mover;
    assert!(rt; store_next(store, &mut mover, key, 0, 1));
    let (moved, (found, mut looker)) = move_and_look(rt, store, mover, looker, key);
    same(rt, (moved, found), (true, true), "what both threads say");
    let last = Look::Found {
        at: 0,
        number: 2 * ROUNDS + 1,
    };
    let seen = store.get(&mut looker, 2, key);
    same(rt, seen, Ok(last), "where the value is");
    let shown = all_are_shown(store, &mut looker);
    same(rt, shown, true, "each number's value is shown");
}

/// A value goes from the root to the class and back, stored before it is removed, and another lane
/// finds it at each of 100,000 looks and is shown each number's value then.
/// Tests `Store::get` and `Store::get_numbered`.
#[test]
fn value_that_moves_is_never_missed(rt: HostRuntime) {
    let alloc = rt.alloc();
    with_opened(
        &rt,
        key(alloc, "a"),
        open_chain(alloc, 2 * ROUNDS + 1),
        |a, store, mover, looker, _closers| never_missed(&rt, store, mover, looker, a),
    );
}
