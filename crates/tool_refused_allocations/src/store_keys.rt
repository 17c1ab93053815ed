//! Keys that are named in a store: a call by a new key may want memory, and hands back what was
//! moved in; a call by a known key wants none.
ghost use Rattle.std.specs.Prelude.{◌<◌, length};
ghost use Rattle.ext_store.specs.Stores.{IsLaneOf};

use crate::outcome::Outcome;
use ext_model::{Fault, Look};
use ext_store::{Compute, KeepFault, Kept, Lane, Refusal, Store};
use ext_tree::Key;
use std::alloc::Global;
use test_store::{Letter, key, open_chain, plain};

/// The keys that are numbered, a spare one, and those of the other calls.
#[derive(Drop)]
struct Keys {
    numbered: [Key; 3],
    spare: Key,
    called: CallKeys,
}

/// A key for each other call that names one.
#[derive(Drop)]
struct CallKeys {
    looked_up: Key,
    put: Key,
    removed: Key,
    computed: Key,
}

impl Keys {
    /// `None` where there is no memory.
    fn new(alloc: Global) -> Option<Keys> {
        Some(Keys {
            numbered: three_keys(alloc, "a", "b", "c")?,
            spare: key(alloc, "spare")?,
            called: CallKeys::new(alloc)?,
        })
    }
}

impl CallKeys {
    fn new(alloc: Global) -> Option<CallKeys> {
        Some(CallKeys {
            looked_up: key(alloc, "looked up")?,
            put: key(alloc, "put")?,
            removed: key(alloc, "removed")?,
            computed: key(alloc, "computed")?,
        })
    }
}

/// The keys of these names, in turn; `None` where there is no memory.
fn three_keys(alloc: Global, a: &str, b: &str, c: &str) -> Option<[Key; 3]> {
    Some([key(alloc, a)?, key(alloc, b)?, key(alloc, c)?])
}

/// Opens the store of a chain, and names keys by each call.
pub(crate) fn names_keys(alloc: Global) -> Outcome {
    let Some(mut opened) = open_chain(alloc, 8) else {
        return Outcome::NoMemory;
    };
    names_in(alloc, &opened.store, &mut opened.first, &mut opened.second)
}

/// Makes the keys, and names them by each call.
fn names_in(
    alloc: Global,
    store: &Store<Letter>,
    first: &mut Lane<Letter>,
    second: &mut Lane<Letter>,
) -> Outcome
    requires first { IsLaneOf store.now.id first.old }
    requires second { IsLaneOf store.now.id second.old }
    requires contexts { 2 < length store.now.tree }
{
    match Keys::new(alloc) {
        Some(keys) => makes_calls(store, first, second, &keys),
        None => Outcome::NoMemory,
    }
}

/// Names keys by each call of one lane, and calls by known keys then, by both lanes.
fn makes_calls(
    store: &Store<Letter>,
    first: &mut Lane<Letter>,
    second: &mut Lane<Letter>,
    keys: &Keys,
) -> Outcome
    requires first { IsLaneOf store.now.id first.old }
    requires second { IsLaneOf store.now.id second.old }
    requires contexts { 2 < length store.now.tree }
{
    let [a, ..] = &keys.numbered;
    let named = numbers(store, first, keys)
        .and(looks_up(store, first, &keys.called.looked_up))
        .and(removes(store, first, &keys.called.removed))
        .and(puts(store, first, &keys.called.put, a))
        .and(computes(store, first, &keys.called.computed));
    named
        .and(calls_known(store, first, a))
        .and(calls_known(store, second, a))
}

/// Numbers three keys, one after the other.
fn numbers(store: &Store<Letter>, lane: &mut Lane<Letter>, keys: &Keys) -> Outcome
    requires { IsLaneOf store.now.id lane.old }
    ensures { IsLaneOf store.now.id lane.new }
{
    for number in 0..3 {
        match store.number(lane, &keys.numbered[number]) {
            Ok(given) if given == number => {}
            Err(Refusal::Memory) => {
                return numbers_again(store, lane, &keys.numbered[number], &keys.spare, number);
            }
            _ => return Outcome::Wrong("a key gets another number than the next"),
        }
    }
    Outcome::Whole
}

/// Numbers a key that was refused for want of memory: it took no place, so another key gets the
/// number, and it gets the next.
fn numbers_again(
    store: &Store<Letter>,
    lane: &mut Lane<Letter>,
    key: &Key,
    spare: &Key,
    number: usize,
) -> Outcome
    requires lane { IsLaneOf store.now.id lane.old }
    requires number { number < 3 }
    ensures { IsLaneOf store.now.id lane.new }
{
    let is_free = store.number(lane, spare) == Ok(number);
    let is_next = store.number(lane, key) == Ok(number + 1);
    Outcome::of(is_free && is_next, "a refused key took a place").again()
}

/// Looks a new key up.
fn looks_up(store: &Store<Letter>, lane: &mut Lane<Letter>, key: &Key) -> Outcome
    requires lane { IsLaneOf store.now.id lane.old }
    requires contexts { 2 < length store.now.tree }
    ensures { IsLaneOf store.now.id lane.new }
{
    match store.get(lane, 2, key) {
        Ok(Look::Absent) => Outcome::Whole,
        Err(Refusal::Memory) => Outcome::of(
            store.get(lane, 2, key) == Ok(Look::Absent),
            "a look-up is refused again",
        )
        .again(),
        _ => Outcome::Wrong("a look-up by a new key finds something"),
    }
}

/// Removes what stands under a new key.
fn removes(store: &Store<Letter>, lane: &mut Lane<Letter>, key: &Key) -> Outcome
    requires lane { IsLaneOf store.now.id lane.old }
    requires contexts { 2 < length store.now.tree }
    ensures { IsLaneOf store.now.id lane.new }
{
    match store.remove(lane, 2, key) {
        Ok(None) => Outcome::Whole,
        Err(Refusal::Memory) => Outcome::of(
            store.remove(lane, 2, key) == Ok(None),
            "a remove is refused again",
        )
        .again(),
        _ => Outcome::Wrong("a remove by a new key takes something"),
    }
}

/// Puts a value under a new key. Where that is refused, the kept number comes back, and is put
/// under the known key.
fn puts(store: &Store<Letter>, lane: &mut Lane<Letter>, key: &Key, known: &Key) -> Outcome
    requires lane { IsLaneOf store.now.id lane.old }
    requires contexts { 2 < length store.now.tree }
    ensures { IsLaneOf store.now.id lane.new }
{
    let Ok(kept) = store.keep(lane, plain('x')) else {
        return Outcome::NoMemory;
    };
    match store.put(lane, 2, key, kept) {
        Ok(None) => Outcome::Whole,
        Err((kept, Refusal::Memory)) => Outcome::of(
            matches!(store.put(lane, 2, known, kept), Ok(None)),
            "a kept number that came back is not put",
        )
        .again(),
        _ => Outcome::Wrong("a put by a new key is answered otherwise"),
    }
}

/// What a compute of y in the method answers.
fn compute(store: &Store<Letter>, lane: &mut Lane<Letter>, key: &Key) -> Answer
    requires lane { IsLaneOf store.now.id lane.old }
    requires contexts { 2 < length store.now.tree }
    ensures { IsLaneOf store.now.id lane.new }
{
    let factory = |_key: &Key| -> Result<Letter, Fault> { Ok(plain('y')) };
    match store.compute(lane, 2, key, factory) {
        Compute::Computed { .. } => Answer::Computed,
        Compute::Found { .. } => Answer::Found,
        Compute::Unkept {
            cause: KeepFault::Memory,
            ..
        } => Answer::Unkept,
        Compute::Refused {
            refusal: Refusal::Memory,
            unused,
        } if unused(key).is_ok() => Answer::Refused,
        _ => Answer::Other,
    }
}

/// Computes a value under a new key. Where that is refused, the factory comes back, and nothing
/// stands there.
fn computes(store: &Store<Letter>, lane: &mut Lane<Letter>, key: &Key) -> Outcome
    requires lane { IsLaneOf store.now.id lane.old }
    requires contexts { 2 < length store.now.tree }
    ensures { IsLaneOf store.now.id lane.new }
{
    match compute(store, lane, key) {
        Answer::Computed => Outcome::Whole,
        Answer::Unkept => Outcome::NoMemory,
        Answer::Refused => Outcome::of(
            store.get(lane, 2, key) == Ok(Look::Absent),
            "something stands after a refused compute",
        )
        .again(),
        _ => Outcome::Wrong("a compute by a new key is answered otherwise"),
    }
}

/// Makes all calls by a key that has a number, which want no memory but for a value: so none of
/// them is refused.
fn calls_known(store: &Store<Letter>, lane: &mut Lane<Letter>, known: &Key) -> Outcome
    requires lane { IsLaneOf store.now.id lane.old }
    requires contexts { 2 < length store.now.tree }
    ensures { IsLaneOf store.now.id lane.new }
{
    let Ok(kept) = store.keep(lane, plain('z')) else {
        return Outcome::NoMemory;
    };
    let numbered = store.number(lane, known).is_ok();
    let stored = store.put(lane, 2, known, kept).is_ok();
    let found = matches!(store.get(lane, 2, known), Ok(Look::Found { at: 2, .. }));
    let computed = matches!(compute(store, lane, known), Answer::Found);
    let removed = matches!(store.remove(lane, 2, known), Ok(Some(_)));
    Outcome::of(
        numbered && stored && found && computed && removed,
        "a call by a known key is refused",
    )
}

/// What a compute answers.
#[derive(Clone, Copy)]
enum Answer {
    /// Its value is stored.
    Computed,
    /// A value stood there.
    Found,
    /// There was no memory for its value.
    Unkept,
    /// There was no memory for its key, and its factory came back.
    Refused,
    /// Something else.
    Other,
}
