//! A lane that puts number after number while another lane looks.
ghost use Rattle.std.specs.Prelude.{◌<◌, All, IfSome, length};
ghost use Rattle.ext_store.specs.Stores.{IsCloserOf, IsLaneOf};

use crate::gates::is_raised;
use crate::opening::with_opened;
use crate::same::same;
use ext_model::Look;
use ext_store::{Lane, Limits, Refusal, Store};
use ext_tree::Key;
use std::alloc::Global;
use std::process::Abort;
use std::sync::atomic::{AtomicU64, Ordering};
use std::thread::{Threads, join};
use std::time::Clock;
use test_store::{Letter, Opened, key, open_store, plain};

// How many numbers are put, and how often the other lane looks at most.
const NUMBERS: u32 = 1_000;

const LOOKS: u64 = 100_000_000;

/// Signs of two lanes: that one has begun to look, and that the other has put all its numbers.
#[derive(Drop)]
struct Signs {
    looks: AtomicU64,
    has_put: AtomicU64,
}

/// Keeps the value of the number that comes next and puts it in the engine. Says whether it stands
/// over the one before.
fn put_next(store: &Store<Letter>, lane: &mut Lane<Letter>, key: &Key, next: u32) -> bool
    requires lane { IsLaneOf store.now.id lane.old }
    requires context { 0 < length store.now.tree }
    ensures { IsLaneOf store.now.id lane.new }
{
    let Ok(kept) = store.keep(lane, plain('x')) else {
        return false;
    };
    let is_next = kept.number() == next;
    match store.put(lane, 0, key, kept) {
        Ok(None) => is_next && next == 1,
        Ok(Some(stood)) => is_next && stood < next && next - stood == 1,
        Err(_) => false,
    }
}

/// Puts all numbers once the other lane looks. Says whether no call was refused.
fn put_all<C: Clock>(
    clock: &C,
    store: &Store<Letter>,
    lane: &mut Lane<Letter>,
    key: &Key,
    signs: &Signs,
) -> bool
    requires lane { IsLaneOf store.now.id lane.old }
    requires context { 0 < length store.now.tree }
    ensures { IsLaneOf store.now.id lane.new }
{
    let mut has_put = is_raised(clock, &signs.looks);
    for number in 1..NUMBERS + 1 {
        let put = put_next(store, lane, key, number);
        has_put = has_put && put;
    }
    signs.has_put.store(1, Ordering::SeqCst);
    has_put
}

/// The number that was found last, 0 before the first, where this look-up may follow it.
fn follow(last: u32, seen: Result<Look, Refusal>) -> Option<u32> {
    match seen {
        Ok(Look::Absent) if last == 0 => Some(0),
        Ok(Look::Found { at: 0, number }) if last <= number && number <= NUMBERS => Some(number),
        Err(Refusal::Contended) => Some(last),
        _ => None,
    }
}

/// Looks from the method until all numbers are put. Says whether none was less than one before, and
/// all were put in time.
fn look_on(store: &Store<Letter>, lane: &mut Lane<Letter>, key: &Key, signs: &Signs) -> bool
    requires lane { IsLaneOf store.now.id lane.old }
    requires contexts { 2 < length store.now.tree }
    ensures { IsLaneOf store.now.id lane.new }
{
    let mut last = 0;
    for _ in 0..LOOKS {
        let Some(found) = follow(last, store.get(lane, 2, key)) else {
            return false;
        };
        last = found;
        signs.looks.store(1, Ordering::SeqCst);
        if signs.has_put.load(Ordering::SeqCst) == 1 {
            return true;
        }
    }
    false
}

/// One lane puts all numbers while the other looks, and then finds the last of them.
fn put_and_look<R: Abort + Clock + Threads + Sync>(
    rt: &R,
    store: &Store<Letter>,
    looker: Lane<Letter>,
    putter: Lane<Letter>,
    key: &Key,
)
    requires looker { IsLaneOf store.now.id looker }
    requires putter { IsLaneOf store.now.id putter }
    requires contexts { 2 < length store.now.tree }
{
    let signs = Signs {
        looks: AtomicU64::new(0),
        has_put: AtomicU64::new(0),
    };
    let given = &signs;
    let ((mut looker, rising), (mut putter, put)) = join(
        rt,
        move || -> (Lane<Letter>, bool)
            requires lane { IsLaneOf store.now.id looker }
            requires contexts { 2 < length store.now.tree }
            ensures { IsLaneOf store.entry.now.id result.0 }
        {
            let mut looker = looker;
            let rising = look_on(store, &mut looker, key, given);
            (looker, rising)
        },
        move || -> (Lane<Letter>, bool)
            requires lane { IsLaneOf store.now.id putter }
            requires contexts { 2 < length store.now.tree }
            ensures { IsLaneOf store.entry.now.id result.0 }
        {
            let mut putter = putter;
            let put = put_all(rt, store, &mut putter, key, given);
            (putter, put)
        },
    );
    same(rt, (rising, put), (true, true), "what both threads say");
    store.meet(&mut putter, &mut looker);
    let last = Look::Found {
        at: 0,
        number: NUMBERS,
    };
    let seen = store.get(&mut looker, 2, key);
    same(rt, seen, Ok(last), "the number that was put last");
}

/// A store of the chain with one try and all numbers; `None` where there is no memory.
fn open_for_numbers(alloc: Global) -> Option<Opened<Letter>>
    ensures first { IfSome result (λ o. IsLaneOf o.store.id o.first) }
    ensures second { IfSome result (λ o. IsLaneOf o.store.id o.second) }
    ensures closers { IfSome result (λ o. All (IsCloserOf o.store) o.closers.items) }
    ensures contexts { IfSome result (λ o. 2 < length o.store.tree) }
{
    let limits = Limits {
        tries: 1,
        numbers: NUMBERS,
        ..Limits::new(2)
    };
    open_store(alloc, limits)
}

/// One lane puts 1,000 numbers, each over the one before, and no look-up of another lane meanwhile
/// finds a lower number than one before it.
/// Tests `Store::get` and `Store::get_numbered`.
#[test]
fn numbers_never_fall(rt: HostRuntime) {
    let alloc = rt.alloc();
    with_opened(
        &rt,
        key(alloc, "a"),
        open_for_numbers(alloc),
        |a, store, looker, putter, _closers| put_and_look(&rt, store, looker, putter, a),
    );
}
