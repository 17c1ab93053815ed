//! Worked rows of the store that several lanes share, and a caller that goes by its clauses alone.
ghost use Rattle.std.specs.Prelude.{◌≡◌, ◌<◌, IfErr, IfSome, length};
ghost use Rattle.ext_store.specs.Stores.{IsKeptBy, IsLaneOf, StillKeeps};

use crate::asked::{Scenario, same, with_chain};
use crate::chain::{Answer, Call, rows};
use crate::full::name_from;
use crate::opening::{Letter, contexts, plain};
use crate::wide::lanes_and_closers;
use ext_closing::CloseFault;
use ext_model::{ContextNo, Look};
use ext_store::{KeepFault, Kept, Lane, Limits, Refusal, Store, StoreFault, StoreValue};
use ext_tree::Key;
use std::alloc::Global;
use std::process::Abort;
use std::thread;
use std::thread::Threads;

/// A value stands in the root: a remove in the class answers nothing, and both lanes find it from
/// the method then.
/// Tests `Store::get`, `Store::get_numbered`, `Store::remove` and `Store::remove_numbered`.
#[test]
fn remove_own_context_only_in_two_lanes(rt: HostRuntime) {
    let found = Look::Found { at: 0, number: 1 };
    let all = [
        (0, 0, "a", Call::Puts(plain('r'), 1, Ok(None))),
        (1, 1, "a", Call::Removes(Ok(None))),
        (1, 2, "a", Call::Gets(Ok(found))),
        (0, 2, "a", Call::Gets(Ok(found))),
    ];
    rows(&rt, rt.alloc(), 8, &all);
}

/// One lane has put a value in the root, and the first call of the other, a look-up, a remove, a
/// compute, a put or a close, sees it.
/// Tests `Store::get`, `Store::put` and `Store::remove`.
#[test]
fn first_calls_see_what_another_lane_put(rt: HostRuntime) {
    let found = Look::Found { at: 0, number: 1 };
    let calls = [
        Call::Gets(Ok(found)),
        Call::Removes(Ok(Some(1))),
        Call::Computes('y', Answer::Found(0, 1)),
        // the number that is drawn first is the next one
        Call::Puts(plain('y'), 2, Ok(Some(1))),
        // the seals of a close, which names the value that its lane was not shown
        Call::Closes(Err(CloseFault::Unjoined(1)), [0; 4]),
    ];
    for call in calls {
        let put = Call::Puts(plain('x'), 1, Ok(None));
        rows(&rt, rt.alloc(), 8, &[(1, 0, "a", put), (0, 0, "a", call)]);
    }
}

/// Whether a look-up from the context answers this.
fn answers(
    store: &Store<Letter>,
    lane: &mut Lane<Letter>,
    context: ContextNo,
    a: &Key,
    look: Look,
) -> bool
    requires lane { IsLaneOf store.now.id lane.old }
    requires context { context < length store.now.tree }
    ensures { IsLaneOf store.now.id lane.new }
{
    store.get(lane, context, a) == Ok(look)
}

/// Whether number 1, which has the letter x, is found in the context itself, is taken out, and is
/// gone then.
fn is_taken_out(store: &Store<Letter>, lane: &mut Lane<Letter>, context: ContextNo, a: &Key) -> bool
    requires lane { IsLaneOf store.now.id lane.old }
    requires context { context < length store.now.tree }
    ensures { IsLaneOf store.now.id lane.new }
{
    let found = Look::Found {
        at: context,
        number: 1,
    };
    answers(store, lane, context, a, found)
        && store.remove(lane, context, a) == Ok(Some(1))
        && answers(store, lane, context, a, Look::Absent)
        && store.show(lane, 1).copied() == Some(plain('x'))
}

/// Keeps the letter, where its number is this one.
fn keep_as(
    store: &Store<Letter>,
    lane: &mut Lane<Letter>,
    letter: char,
    number: u32,
) -> Option<Kept>
    requires { IsLaneOf store.now.id lane.old }
    ensures lane { IsLaneOf store.now.id lane.new }
    ensures still { StillKeeps lane.old lane.new }
    ensures kept { IfSome result (IsKeptBy lane.new) }
{
    match store.keep(lane, plain(letter)) {
        Ok(kept) if kept.number() == number => Some(kept),
        _ => None,
    }
}

/// Why the letter is not kept, where it comes back.
fn keep_fault(store: &Store<Letter>, lane: &mut Lane<Letter>, letter: char) -> Option<KeepFault>
    requires { IsLaneOf store.now.id lane.old }
    ensures lane { IsLaneOf store.now.id lane.new }
    ensures still { StillKeeps lane.old lane.new }
{
    match store.keep(lane, plain(letter)) {
        Err((back, fault)) if back.letter == letter => Some(fault),
        _ => None,
    }
}

/// Puts the kept number; where that is refused it comes back.
fn put(
    store: &Store<Letter>,
    lane: &mut Lane<Letter>,
    context: ContextNo,
    key: &Key,
    kept: Kept,
) -> Result<Option<u32>, (Kept, Refusal)>
    requires lane { IsLaneOf store.now.id lane.old }
    requires context { context < length store.now.tree }
    requires kept { IsKeptBy lane.old kept }
    ensures lane { IsLaneOf store.now.id lane.new }
    ensures kept { IfErr result (λ e. IsKeptBy lane.new e.0) }
{
    store.put(lane, context, key, kept)
}

/// Whether x was stored at the root as number 1.
fn stores_x(store: &Store<Letter>, lane: &mut Lane<Letter>, a: &Key) -> bool
    requires lane { IsLaneOf store.now.id lane.old }
    requires contexts { 2 < length store.now.tree }
    ensures { IsLaneOf store.now.id lane.new }
{
    let Some(kept) = keep_as(store, lane, 'x', 1) else {
        return false;
    };
    matches!(put(store, lane, 0, a, kept), Ok(None))
}

/// Whether the method finds number 1 at the root, and the lane is shown x for it and nothing for
/// number 2.
fn finds_x(store: &Store<Letter>, lane: &mut Lane<Letter>, a: &Key) -> bool
    requires lane { IsLaneOf store.now.id lane.old }
    requires contexts { 2 < length store.now.tree }
    ensures { IsLaneOf store.now.id lane.new }
{
    let Ok(Look::Found { at: 0, number: 1 }) = store.get(lane, 2, a) else {
        return false;
    };
    store.show(lane, 2).is_none() && store.show(lane, 1).copied() == Some(plain('x'))
}

/// Whether x was stored at the root as number 1 by a thread of its own.
fn stores_x_in_a_thread<R: Threads>(
    rt: &R,
    store: &Store<Letter>,
    lane: &mut Lane<Letter>,
    a: &Key,
) -> bool
    requires lane { IsLaneOf store.now.id lane.old }
    requires contexts { 2 < length store.now.tree }
    ensures { IsLaneOf store.now.id lane.new }
{
    let (stored, _) = thread::join_mut(
        rt,
        &mut || -> bool
            requires lane { IsLaneOf store.now.id lane.now }
            requires contexts { 2 < length store.now.tree }
            ensures { IsLaneOf store.entry.now.id lane.exit.now }
        { stores_x(store, lane, a) },
        &mut || (),
    );
    stored
}

/// One lane stores x in a thread of its own, and both find it then.
#[derive(Drop)]
struct SeenByAnother;

impl Scenario for SeenByAnother {
    fn play<R: Threads + Sync + Abort>(
        &self,
        rt: &R,
        store: &Store<Letter>,
        first: &mut Lane<Letter>,
        second: &mut Lane<Letter>,
        a: &Key,
        _d: &Key,
    ) {
        assert!(rt; stores_x_in_a_thread(rt, store, first, a));
        assert!(rt; finds_x(store, second, a));
        assert!(rt; finds_x(store, first, a));
        store.meet(first, second);
    }
}

/// A lane stores a value in a thread of its own, and both lanes find it and are shown it then.
/// Tests `Store::show` and `Store::meet`.
#[test]
fn value_seen_by_another_lane(rt: HostRuntime) {
    with_chain(&rt, rt.alloc(), 8, &SeenByAnother);
}

/// Whether z is refused where x and y were kept, and x can be put then.
fn third_is_refused(store: &Store<Letter>, lane: &mut Lane<Letter>, a: &Key) -> bool
    requires lane { IsLaneOf store.now.id lane.old }
    requires contexts { 2 < length store.now.tree }
    ensures { IsLaneOf store.now.id lane.new }
{
    let Some(x) = keep_as(store, lane, 'x', 1) else {
        return false;
    };
    let Some(_y) = keep_as(store, lane, 'y', 2) else {
        return false;
    };
    let Some(KeepFault::NumbersFull) = keep_fault(store, lane, 'z') else {
        return false;
    };
    matches!(put(store, lane, 0, a, x), Ok(None))
}

/// There are numbers for two values.
#[derive(Drop)]
struct TwoNumbers;

impl Scenario for TwoNumbers {
    fn play<R: Threads + Sync + Abort>(
        &self,
        rt: &R,
        store: &Store<Letter>,
        first: &mut Lane<Letter>,
        _second: &mut Lane<Letter>,
        a: &Key,
        _d: &Key,
    ) {
        assert!(rt; third_is_refused(store, first, a));
        assert!(rt; is_taken_out(store, first, 0, a));
    }
}

/// A store of two numbers keeps two values and hands a third back as `NumbersFull`, and the first
/// can still be put and taken out.
/// Tests `Store::keep` and `Kept::number`.
#[test]
fn numbers_run_out(rt: HostRuntime) {
    with_chain(&rt, rt.alloc(), 2, &TwoNumbers);
}

/// Whether a value is refused under the first key, which gets no number, and then put under the
/// second, both in the class.
fn put_elsewhere(store: &Store<Letter>, lane: &mut Lane<Letter>, late: &Key, known: &Key) -> bool
    requires lane { IsLaneOf store.now.id lane.old }
    requires contexts { 2 < length store.now.tree }
    ensures { IsLaneOf store.now.id lane.new }
{
    let Some(kept) = keep_as(store, lane, 'x', 1) else {
        return false;
    };
    let Err((kept, Refusal::DirectoryFull)) = put(store, lane, 1, late, kept) else {
        return false;
    };
    matches!(put(store, lane, 1, known, kept), Ok(None))
}

/// A value is refused under a key that comes when all numbers are given, and put under another.
#[derive(Drop)]
struct PutElsewhere {
    alloc: Global,
}

impl Scenario for PutElsewhere {
    fn play<R: Threads + Sync + Abort>(
        &self,
        rt: &R,
        store: &Store<Letter>,
        first: &mut Lane<Letter>,
        _second: &mut Lane<Letter>,
        a: &Key,
        d: &Key,
    ) {
        same(rt, store.number(first, a), Ok(0), "the number of a");
        name_from(rt, self.alloc, store, first, 1);
        assert!(rt; put_elsewhere(store, first, d, a));
        assert!(rt; is_taken_out(store, first, 1, a));
    }
}

/// A value comes back from a put under a key that gets no number, refused as `DirectoryFull`, and
/// is put under another key.
/// Tests `Store::put`, `Store::put_numbered`, `Store::get`, `Store::remove`, `Store::compute`,
/// `Store::get_wait`, `Store::put_wait`, `Store::remove_wait` and `Store::compute_wait`.
#[test]
fn refused_values_are_put_elsewhere(rt: HostRuntime) {
    let late = PutElsewhere { alloc: rt.alloc() };
    with_chain(&rt, rt.alloc(), 8, &late);
}

/// Two kept values are stored in either order, whatever was done meanwhile: a caller that goes by
/// the store's clauses.
fn stores_two<V: StoreValue + Drop>(
    store: &Store<V>,
    lane: &mut Lane<V>,
    a: &Key,
    values: (V, V),
) -> bool
    requires lane { IsLaneOf store.now.id lane.old }
    requires contexts { 0 < length store.now.tree }
    ensures { IsLaneOf store.now.id lane.new }
{
    let (first, second) = values;
    let Ok(one) = store.keep(lane, first) else {
        return false;
    };
    let Ok(other) = store.keep(lane, second) else {
        return false;
    };
    if store.get(lane, 0, a).is_err() || store.show(lane, 1).is_none() {
        return false;
    }
    let Ok(_) = store.put(lane, 0, a, other) else {
        return false;
    };
    store.put(lane, 0, a, one).is_ok()
}

/// Of two kept values the second is put first.
#[derive(Drop)]
struct AnyOrder;

impl Scenario for AnyOrder {
    fn play<R: Threads + Sync + Abort>(
        &self,
        rt: &R,
        store: &Store<Letter>,
        first: &mut Lane<Letter>,
        _second: &mut Lane<Letter>,
        a: &Key,
        _d: &Key,
    ) {
        assert!(rt; stores_two(store, first, a, (plain('x'), plain('y'))));
        assert!(rt; is_taken_out(store, first, 0, a));
    }
}

/// Of two kept values the second is put first, by a caller that goes by the clauses alone, and the
/// first is found then.
/// Tests `Store::keep` and `Store::put`.
#[test]
fn kept_values_are_stored_in_any_order(rt: HostRuntime) {
    with_chain(&rt, rt.alloc(), 8, &AnyOrder);
}

/// How many lanes and closers a store of the chain has with such limits, or why it is not opened;
/// `None` where there is no memory.
fn opened(
    alloc: Global,
    lanes: usize,
    tries: u32,
    keys: usize,
    numbers: u32,
) -> Option<Result<(usize, usize), StoreFault>> {
    let limits = Limits {
        tries,
        keys,
        numbers,
        ..Limits::new(lanes)
    };
    Some(lanes_and_closers(alloc, contexts(alloc)?, limits))
}

/// A store opens with the fewest and the most lanes, tries, keys and numbers, and one fewer or more
/// of any is refused as `BadLimit`.
/// Tests `Store::open`.
#[test]
fn open_within_the_limits_of_the_store(rt: HostRuntime) {
    let refused = Err(StoreFault::BadLimit);
    for (lanes, tries, keys, numbers, answer) in [
        (1, 1, 1, 1, Ok((1, 3))),
        (16, 64, 1_024, 65_535, Ok((16, 3))),
        (0, 8, 64, 8, refused),
        (17, 8, 64, 8, refused),
        (2, 0, 64, 8, refused),
        (2, 65, 64, 8, refused),
        (2, 8, 0, 8, refused),
        (2, 8, 1_025, 8, refused),
        (2, 8, 64, 0, refused),
        (2, 8, 64, 65_536, refused),
    ] {
        let Some(told) = opened(rt.alloc(), lanes, tries, keys, numbers) else {
            panic!(&rt; "no memory");
        };
        same(
            &rt,
            (lanes, tries, keys, numbers, told),
            (lanes, tries, keys, numbers, answer),
            "lanes, tries, keys and numbers",
        );
    }
}
