//! Large stores: more contexts, lanes and numbers than a store of the usual size has.
ghost use Rattle.std.specs.Prelude.{◌<◌, All, length};
ghost use Rattle.ext_store.specs.Stores.{IsCloserOf, IsLaneOf};

use crate::Log;
use crate::asked::{key, same, with_made};
use crate::chain::{Answer, Call, rows_by_last_lanes};
use crate::opening::{Letter, Opened, closeable, contexts, open_store, plain};
use crate::wide::{engine_ids, lanes_and_closers};
use ext_closing::{CloseFault, close};
use ext_model::{ContextNo, Look, Size};
use ext_store::{Closer, Lane, Limits, Store, StoreFault};
use ext_tree::{Key, Tree};
use std::alloc::Global;
use std::process::Abort;
use std::slice;
use std::test::Fail;

/// Has the lane keep so many letters, whose numbers rise from 1.
fn keep_many<R: Abort>(rt: &R, store: &Store<Letter>, lane: &mut Lane<Letter>, count: u32)
    requires { IsLaneOf store.now.id lane.old }
    ensures { IsLaneOf store.now.id lane.new }
{
    for before in 0..count {
        let Ok(kept) = store.keep(lane, plain('x')) else {
            panic!(rt; "no number");
        };
        assert!(rt; kept.number() == before + 1);
    }
}

/// Has the first lane put a letter in the method, after so many that it only keeps; the second
/// finds it there.
fn put_and_find<R: Abort>(
    rt: &R,
    alloc: Global,
    store: &Store<Letter>,
    first: &mut Lane<Letter>,
    second: &mut Lane<Letter>,
    before: u32,
)
    requires first { IsLaneOf store.now.id first.old }
    requires second { IsLaneOf store.now.id second.old }
    requires contexts { 2 < length store.now.tree }
{
    keep_many(rt, store, first, before);
    let key = key(rt, alloc, "a");
    let Ok(kept) = store.keep(first, plain('y')) else {
        panic!(rt; "no number");
    };
    let number = kept.number();
    let Ok(None) = store.put(first, 2, &key, kept) else {
        panic!(rt; "no put");
    };
    let found = store.get(second, 2, &key);
    same(
        rt,
        found,
        Ok(Look::Found { at: 2, number }),
        "what is found",
    );
    let letter = store.show(second, number).copied();
    same(rt, letter, Some(plain('y')), "the letter");
}

/// Has the first lane put a letter, after so many that it only keeps in a store of so many numbers.
fn put_after<R: Abort>(rt: &R, alloc: Global, before: u32, numbers: u32) {
    let limits = Limits {
        numbers,
        size: Size::Large,
        ..Limits::new(2)
    };
    with_made(
        rt,
        open_store(alloc, limits),
        |opened: &mut Opened<Letter>|
            requires first { IsLaneOf opened.old.store.id opened.old.first }
            requires second { IsLaneOf opened.old.store.id opened.old.second }
            requires contexts { 2 < length opened.old.store.tree }
        {
            put_and_find(
                rt,
                alloc,
                &opened.store,
                &mut opened.first,
                &mut opened.second,
                before,
            );
        },
    );
}

/// A lane draws 66,000 numbers and puts the value of the next one, which another lane finds and is
/// shown.
/// Tests `Store::open`, `Store::keep`, `Kept::number`, `Store::put`, `Store::get` and
/// `Store::show`.
#[test]
fn numbers_of_a_large_store_are_found(rt: HostRuntime) {
    put_after(&rt, rt.alloc(), 66_000, 70_000);
}

/// Number 1,048,575, after which there is none.
/// Tests `Store::keep`, `Kept::number`, `Store::put`, `Store::get` and `Store::show`.
#[test]
fn last_number_is_shown_to_another_lane(rt: HostRuntime) {
    put_after(&rt, rt.alloc(), 1_048_574, 1_048_575);
}

/// The last two of 32 lanes put, find, compute and remove what the other sees then, and the method
/// is closed once the lane that computed is in hand.
/// Tests `Store::number`, `Store::get`, `Store::put`, `Store::remove`, `Store::compute`,
/// `Store::begin`, `Store::begin_numbered_quietly`, `Store::fill`, `Store::fill_decided_quietly`,
/// `Store::abandon`, `Store::abandon_quietly`, `Store::show`, `Lane::number` and `close`.
#[test]
fn last_of_32_lanes_makes_all_calls(rt: HostRuntime) {
    let value = closeable('x');
    let found = Look::Found { at: 1, number: 1 };
    let closed = Ok(Look::Closed(2));
    let all = [
        (1, 2, "a", Call::Gets(Ok(Look::Absent))),
        (1, 1, "a", Call::Puts(value, 1, Ok(None))),
        (1, 2, "a", Call::Gets(Ok(found))),
        (0, 2, "a", Call::Gets(Ok(found))),
        (0, 2, "a", Call::Shows(1, Some(value))),
        (0, 1, "a", Call::Puts(value, 2, Ok(Some(1)))),
        (1, 1, "a", Call::Shows(2, Some(value))),
        (1, 1, "a", Call::Removes(Ok(Some(2)))),
        (1, 2, "b", Call::Fails("f")),
        (1, 2, "b", Call::ComputesToClose('y', Answer::Computed(3))),
        (1, 2, "b", Call::Computes('z', Answer::Found(2, 3))),
        (0, 2, "b", Call::Computes('z', Answer::Found(2, 3))),
        (0, 2, "", Call::Closes(Err(CloseFault::Unjoined(3)), [0; 4])),
        (1, 2, "", Call::Closes(Ok(1), [3, 0, 0, 0])),
        (1, 2, "b", Call::Gets(closed)),
    ];
    rows_by_last_lanes(&rt, rt.alloc(), 8, &all);
}

/// A store opens with 65,535 numbers of the usual size or 1,048,575 of the large one, and is
/// refused one more as `BadLimit`.
/// Tests `Store::open`.
#[test]
fn open_within_the_numbers_of_a_size(rt: HostRuntime) {
    let opened = Ok((1, 3));
    let refused = Err(StoreFault::BadLimit);
    for (size, numbers, answer) in [
        (Size::Usual, 65_535, opened),
        (Size::Usual, 65_536, refused),
        (Size::Large, 65_536, opened),
        (Size::Large, 1_048_575, opened),
        (Size::Large, 1_048_576, refused),
    ] {
        let Some(tree) = contexts(rt.alloc()) else {
            panic!(rt; "no memory");
        };
        let limits = Limits {
            numbers,
            size,
            ..Limits::new(1)
        };
        let told = lanes_and_closers(rt.alloc(), tree, limits);
        same(
            &rt,
            (size, numbers, told),
            (size, numbers, answer),
            "size and numbers",
        );
    }
}

/// Has the lane put a letter in the context.
fn put_at<R: Abort>(
    rt: &R,
    store: &Store<Letter>,
    lane: &mut Lane<Letter>,
    at: ContextNo,
    key: &Key,
)
    requires lane { IsLaneOf store.now.id lane.old }
    requires context { at < length store.now.tree }
    ensures { IsLaneOf store.now.id lane.new }
{
    let Ok(kept) = store.keep(lane, closeable('x')) else {
        panic!(rt; "no number");
    };
    let Ok(None) = store.put(lane, at, key, kept) else {
        panic!(rt; "no put");
    };
}

/// Asserts that a close of the context gives its action this number alone.
fn closes_one<R: Abort>(
    rt: &R,
    alloc: Global,
    store: &Store<Letter>,
    lane: &mut Lane<Letter>,
    closer: Closer,
    number: u32,
)
    requires lane { IsLaneOf store.now.id lane.old }
    requires closer { IsCloserOf store.now closer }
    ensures { IsLaneOf store.now.id lane.new }
{
    let mut log = Log {
        numbers: Vec::new(alloc),
    };
    let Ok(closed) = close(store, closer, slice::from_mut(lane), &mut log) else {
        panic!(rt; "not closed");
    };
    assert!(rt; closed.closed == 1 && log.numbers.as_slice() == [number].as_slice());
}

/// Has the lane put a letter in the closer's context, find it, and close the context.
fn put_and_close<R: Abort>(
    rt: &R,
    alloc: Global,
    store: &Store<Letter>,
    lane: &mut Lane<Letter>,
    closer: Closer,
    wanted: ContextNo,
)
    requires lane { IsLaneOf store.now.id lane.old }
    requires closer { IsCloserOf store.now closer }
{
    let at = closer.context();
    let key = key(rt, alloc, "a");
    put_at(rt, store, lane, at, &key);
    let found = store.get(lane, at, &key);
    let number_1 = Look::Found {
        at: wanted,
        number: 1,
    };
    same(rt, found, Ok(number_1), "what is found");
    closes_one(rt, alloc, store, lane, closer, 1);
}

/// A tree of an engine with so many classes.
fn engine(alloc: Global, classes: u32) -> Result<Tree, Fail> {
    let ids = engine_ids(alloc, classes)?;
    Ok(Tree::build_within(alloc, ids.as_slice(), Size::Large.contexts())?)
}

/// The limits of a large store with one lane.
fn one_lane() -> Limits {
    Limits {
        size: Size::Large,
        ..Limits::new(1)
    }
}

/// Opens a large store of an engine with so many classes, and closes the last of them.
fn close_last<R: Abort>(rt: &R, alloc: Global, classes: u32) -> Result<(), Fail> {
    let tree = engine(alloc, classes)?;
    let Ok((store, mut lanes, mut closers)) = Store::open(alloc, tree, one_lane()) else {
        panic!(rt; "no store");
    };
    let Some(mut lane) = lanes.pop() else {
        panic!(rt; "no lane");
    };
    let Some(closer) = closers.pop() else {
        panic!(rt; "no closer");
    };
    put_and_close(rt, alloc, &store, &mut lane, closer, classes as usize);
    Ok(())
}

/// In a large store a value is put in the last of 300 contexts, is found there, and is the only one
/// that a close gives its action.
/// Tests `Tree::build_within`, `Store::open`, `Closer::context`, `Store::put`, `Store::get` and
/// `close`.
#[test]
fn last_of_300_contexts_is_closed(rt: HostRuntime) -> Result<(), Fail> {
    close_last(&rt, rt.alloc(), 299)
}

/// As many contexts as there can be.
/// Tests `Tree::build_within`, `Store::open`, `Closer::context`, `Store::put`, `Store::get` and
/// `close`.
#[test]
fn last_of_65536_contexts_is_closed(rt: HostRuntime) -> Result<(), Fail> {
    close_last(&rt, rt.alloc(), 65_535)
}

/// Has the lane put a letter in each context.
fn put_in_all<R: Abort>(rt: &R, store: &Store<Letter>, lane: &mut Lane<Letter>, key: &Key)
    requires lane { IsLaneOf store.now.id lane.old }
    ensures { IsLaneOf store.now.id lane.new }
{
    for at in 0..store.tree().len() {
        put_at(rt, store, lane, at, key);
    }
}

/// Closes so many contexts, the last first. Each close gives its action the number that was put
/// there.
fn close_all<R: Abort>(
    rt: &R,
    alloc: Global,
    store: &Store<Letter>,
    lane: &mut Lane<Letter>,
    closers: &mut Vec<Closer>,
    count: u32,
)
    requires lane { IsLaneOf store.now.id lane.old }
    requires closers { All (IsCloserOf store.now) closers.old.items }
{
    for after in 0..count {
        let Some(closer) = closers.pop() else {
            panic!(rt; "no closer");
        };
        closes_one(rt, alloc, store, lane, closer, count - after);
    }
}

/// Each of 1,000 contexts has a value, and their closes, the last context first, each give the
/// action that one alone.
/// Tests `Tree::build_within`, `Store::open`, `Store::put` and `close`.
#[test]
fn all_of_1000_contexts_are_closed(rt: HostRuntime) -> Result<(), Fail> {
    let tree = engine(rt.alloc(), 999)?;
    let Ok((store, mut lanes, mut closers)) = Store::open(rt.alloc(), tree, one_lane()) else {
        panic!(rt; "no store");
    };
    let Some(mut lane) = lanes.pop() else {
        panic!(rt; "no lane");
    };
    same(&rt, closers.len(), 1_000, "the closers");
    let key = key(&rt, rt.alloc(), "a");
    put_in_all(&rt, &store, &mut lane, &key);
    close_all(&rt, rt.alloc(), &store, &mut lane, &mut closers, 1_000);
    Ok(())
}
