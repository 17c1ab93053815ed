//! Keys that two and sixteen threads number at once, in opposite orders.
ghost use Rattle.std.specs.Prelude.{◌≡◌, All, IfOk};
ghost use Rattle.ext_tree.specs.Keys.{AreKeyNotesOf};

use crate::key_places::key;
use crate::same::same;
use ext_tree::{Key, KeyNotes, KeyPlaces, TreeFault};
use std::alloc::Global;
use std::process::Abort;
use std::test::Fail;
use std::thread::{Threads, for_each_mut, map_indices};

/// How many keys each thread numbers.
const KEYS: usize = 10;

/// How often the threads number them, each time by other places.
const ROUNDS: usize = 1_000;

/// The numbers of the keys, in the order of the keys.
type Numbers = [Option<usize>; KEYS];

/// The keys, in their order.
fn all_keys(alloc: Global) -> Result<Vec<Key>, TreeFault> {
    let mut keys = Vec::new(alloc);
    for number in 0..KEYS {
        keys.push(key(alloc, number)?)?;
    }
    Ok(keys)
}

/// Places for each round.
fn all_places(alloc: Global) -> Result<Vec<KeyPlaces>, TreeFault> {
    let mut rounds = Vec::new(alloc);
    for _ in 0..ROUNDS {
        rounds.push(KeyPlaces::new(alloc, KEYS)?)?;
    }
    Ok(rounds)
}

/// Numbers the keys, from the first to the last or from the last to the first.
fn number_all(places: &KeyPlaces, notes: &mut KeyNotes, keys: &[Key], upwards: bool) -> Numbers
    requires { AreKeyNotesOf places.now notes.old }
    ensures { AreKeyNotesOf places.now notes.new }
{
    let mut numbers = [None; KEYS];
    for step in 0..KEYS {
        let place = if upwards { step } else { KEYS - 1 - step };
        if let Some(key) = keys.get(place) {
            numbers[place] = places.number(notes, key).ok();
        }
    }
    numbers
}

/// Numbers the keys by the places of each round.
fn number_in_rounds(
    alloc: Global,
    rounds: &[KeyPlaces],
    keys: &[Key],
    upwards: bool,
) -> Result<Vec<Numbers>, TreeFault> {
    let mut all = Vec::new(alloc);
    for places in rounds {
        let mut notes = places.notes()?;
        all.push(number_all(places, &mut notes, keys, upwards))?;
    }
    Ok(all)
}

/// Whether these are the numbers from 0 on, each once.
fn are_first(numbers: &Numbers) -> bool {
    for number in 0..KEYS {
        if !numbers.contains(&Some(number)) {
            return false;
        }
    }
    true
}

/// Asserts that so many threads give each key one number in each round, and that the numbers are
/// those from 0 on. Every other thread begins with the last key. None of them waits for another:
/// one that comes later only has to look, and so catches up.
fn number_beside<R: Abort + Threads + Sync>(
    rt: &R,
    alloc: Global,
    threads: usize,
) -> Result<(), Fail> {
    let keys = all_keys(alloc)?;
    let rounds = all_places(alloc)?;
    let (keys, rounds) = (keys.as_slice(), rounds.as_slice());
    let told = map_indices(
        rt,
        alloc,
        threads,
        &|thread| number_in_rounds(alloc, rounds, keys, thread % 2 == 0),
    )?;
    let mut first: Option<Vec<Numbers>> = None;
    for numbers in told {
        let numbers = numbers?;
        match &first {
            None => {
                let right = numbers.as_slice().iter().all(are_first);
                same(rt, right, true, "the numbers from 0 on");
                first = Some(numbers);
            }
            Some(first) => same(rt, &numbers == first, true, "one number a key"),
        }
    }
    Ok(())
}

/// Two threads number ten keys at once, in opposite orders, in 1,000 rounds: in each they have one
/// number for a key, and all numbers are below ten.
/// Tests `KeyPlaces::number`.
#[test]
fn two_threads_number_the_same_keys(rt: HostRuntime) -> Result<(), Fail> {
    number_beside(&rt, rt.alloc(), 2)
}

/// Sixteen threads number ten keys at once, every other one in the opposite order, in 1,000 rounds:
/// in each they have one number for a key, and all numbers are below ten.
/// Tests `KeyPlaces::number`.
#[test]
fn sixteen_threads_number_the_same_keys(rt: HostRuntime) -> Result<(), Fail> {
    number_beside(&rt, rt.alloc(), 16)
}

/// Notes for so many lanes.
fn notes_for(alloc: Global, places: &KeyPlaces, lanes: usize) -> Result<Vec<KeyNotes>, TreeFault>
    ensures { IfOk result (λ all. All (AreKeyNotesOf places.now) all.items) }
{
    let mut all = Vec::new(alloc);
    for _ in 0..lanes {
        all.push(places.notes()?)?;
    }
    Ok(all)
}

/// Has sixteen lanes number the keys at once, each in a thread of its own.
fn number_in_threads<R: Threads + Sync>(
    rt: &R,
    places: &KeyPlaces,
    lanes: &mut [KeyNotes],
    keys: &[Key],
)
    requires { All (AreKeyNotesOf places.now) lanes.old }
    ensures { All (AreKeyNotesOf places.now) lanes.new }
{
    for_each_mut(
        rt,
        lanes,
        16,
        &|lane, notes: &mut KeyNotes|
            requires { AreKeyNotesOf places.now notes.old }
            ensures { AreKeyNotesOf places.entry.now notes.new }
        {
            let _ = number_all(places, notes, keys, lane % 2 == 0);
        },
    );
}

/// Asserts that each lane gives each key the number that it has in all others, and that they agree.
fn agree_in_turn(
    rt: &impl Abort,
    places: &KeyPlaces,
    last: &mut KeyNotes,
    lanes: &mut [KeyNotes],
    keys: &[Key],
)
    requires last { AreKeyNotesOf places.now last.old }
    requires lanes { All (AreKeyNotesOf places.now) lanes.old }
{
    let wanted = number_all(places, last, keys, true);
    for notes in lanes {
        let numbers = number_all(places, notes, keys, true);
        same(rt, numbers, wanted, "one number a key");
        places.agree(last, notes);
        places.agree(notes, last);
    }
    same(rt, are_first(&wanted), true, "the numbers from 0 on");
}

/// Sixteen lanes number ten keys at once, each in a thread of its own, and after the join each
/// agrees with a further lane on every number.
/// Tests `KeyPlaces::agree`.
#[test]
fn sixteen_lanes_agree_after_the_join(rt: HostRuntime) -> Result<(), Fail> {
    let places = KeyPlaces::new(rt.alloc(), KEYS)?;
    let keys = all_keys(rt.alloc())?;
    let mut last = places.notes()?;
    let mut lanes = notes_for(rt.alloc(), &places, 16)?;
    number_in_threads(&rt, &places, lanes.as_mut_slice(), keys.as_slice());
    agree_in_turn(
        &rt,
        &places,
        &mut last,
        lanes.as_mut_slice(),
        keys.as_slice(),
    );
    Ok(())
}
