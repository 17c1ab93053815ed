//! Calls along a path that is not the tree's, as that of a context that is opened during a run.
ghost use Rattle.std.specs.Prelude.{◌≡◌, ◌<◌, length};
ghost use Rattle.ext_store.specs.Stores.{IsLaneOf};

use crate::asked::{Scenario, same, with_chain};
use crate::opening::{Letter, plain};
use crate::wide::engine_ids;
use ext_model::{ContextNo, KeyNo, Look};
use ext_store::{Lane, Limits, Refusal, Store, Unused};
use ext_tree::{Key, Tree};
use std::process::Abort;
use std::test::Fail;
use std::thread::Threads;

/// What the look-up of the key along the path answers; `None` where it is no path.
fn look(
    store: &Store<Letter>,
    lane: &mut Lane<Letter>,
    path: &[ContextNo],
    key: KeyNo,
) -> Option<Result<Look, Refusal>>
    requires lane { IsLaneOf store.now.id lane.old }
    requires key { key < length store.now.id.keys }
    ensures lane { IsLaneOf store.now.id lane.new }
{
    if path.is_empty() || !store.is_trail(path) {
        return None;
    }
    Some(store.get_along(lane, path, key))
}

/// Computes the value along the path in two calls; answers its number, or why there is none.
fn make(
    store: &Store<Letter>,
    lane: &mut Lane<Letter>,
    path: &[ContextNo],
    key: KeyNo,
    quietly: bool,
) -> Option<Result<u32, Unused>>
    requires lane { IsLaneOf store.now.id lane.old }
    requires key { key < length store.now.id.keys }
    ensures lane { IsLaneOf store.now.id lane.new }
{
    if path.is_empty() || !store.is_trail(path) {
        return None;
    }
    let begun = if quietly {
        store.begin_along_quietly(lane, path, key)
    } else {
        store.begin_along(lane, path, key)
    };
    match begun {
        Ok(claim) => Some(Ok(store.fill(lane, claim, plain('m')).ok()?)),
        Err(why) => Some(Err(why)),
    }
}

/// Context 2, opened below the engine, past the class: what stands in the class is not found from
/// there, and is found from below the class.
struct Opened;

impl Scenario for Opened {
    fn play<R: Threads + Sync + Abort>(
        &self,
        rt: &R,
        store: &Store<Letter>,
        first: &mut Lane<Letter>,
        second: &mut Lane<Letter>,
        a: &Key,
        _d: &Key,
    )
        requires first { IsLaneOf store.now.id first.old }
        requires second { IsLaneOf store.now.id second.old }
        requires contexts { 2 < length store.now.tree }
    {
        let Ok(key) = store.number(first, a) else {
            panic!(rt; "the key has no number");
        };
        let made = make(store, first, &[1, 0], key, false);
        same(rt, made, Some(Ok(1)), "the class computes");
        let absent = look(store, second, &[2, 0], key);
        same(rt, absent, Some(Ok(Look::Absent)), "past the class");
        let found = Look::Found { at: 1, number: 1 };
        let below = look(store, second, &[2, 1, 0], key);
        same(rt, below, Some(Ok(found)), "below the class");
        let met = make(store, second, &[2, 1, 0], key, true);
        let unused = Unused::Found { at: 1, number: 1 };
        same(rt, met, Some(Err(unused)), "a compute below the class");
        let own = make(store, second, &[2, 0], key, true);
        same(rt, own, Some(Ok(2)), "a compute past the class");
        let own = Look::Found { at: 2, number: 2 };
        let there = look(store, first, &[2, 0], key);
        same(rt, there, Some(Ok(own)), "its own value");
    }
}

/// A look-up and a compute go along a path that leaves out the class, and find nothing of what
/// stands there, and along one with the class, and find it.
/// Tests `Store::get_along`, `Store::begin_along` and `Store::begin_along_quietly`.
#[test]
fn path_of_its_own_decides(rt: HostRuntime) {
    with_chain(&rt, rt.alloc(), 8, &Opened);
}

/// Which paths a look-up may go along.
struct Paths;

impl Scenario for Paths {
    fn play<R: Threads + Sync + Abort>(
        &self,
        rt: &R,
        store: &Store<Letter>,
        first: &mut Lane<Letter>,
        second: &mut Lane<Letter>,
        _a: &Key,
        _d: &Key,
    )
        requires first { IsLaneOf store.now.id first.old }
        requires second { IsLaneOf store.now.id second.old }
        requires contexts { 2 < length store.now.tree }
    {
        same(rt, (first.number(), second.number()), (0, 1), "the lanes");
        let trails: [&[ContextNo]; 4] = [&[], &[2, 1, 0], &[0, 2], &[1]];
        for path in trails {
            same(rt, store.is_trail(path), true, "contexts of the store");
        }
        let others: [&[ContextNo]; 3] = [&[3, 0], &[2, 1, 2], &[0; 17]];
        for path in others {
            same(rt, store.is_trail(path), false, "no path");
        }
    }
}

/// Contexts of the store make a path in any order, and one that is not the store's, or comes twice,
/// makes none.
/// Tests `Store::is_trail`.
#[test]
fn paths_are_contexts_of_the_store(rt: HostRuntime) {
    with_chain(&rt, rt.alloc(), 8, &Paths);
}

/// Sixteen contexts of a store make a path, and seventeen make none.
/// Tests `Store::is_trail`.
#[test]
fn paths_are_16_contexts_at_most(rt: HostRuntime) -> Result<(), Fail> {
    let ids = engine_ids(rt.alloc(), 16)?;
    let tree = Tree::build(rt.alloc(), ids.as_slice())?;
    let Ok((store, _lanes, _closers)) = Store::<Letter>::open(rt.alloc(), tree, Limits::new(1))
    else {
        panic!(rt; "no store");
    };
    let path = [16, 15, 14, 13, 12, 11, 10, 9, 8, 7, 6, 5, 4, 3, 2, 1, 0];
    same(&rt, store.is_trail(&path[1..]), true, "16 contexts");
    same(&rt, store.is_trail(&path), false, "17 contexts");
    Ok(())
}
