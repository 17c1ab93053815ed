//! Keys that lanes number as they come, in one thread, and a caller that goes by the clauses alone.
ghost use Rattle.std.specs.Prelude.{◌≡◌, IfSome};
ghost use Rattle.ext_tree.specs.Keys.{AreKeyNotesOf};

use crate::same::same;
use ext_tree::{Key, KeyFault, KeyNotes, KeyPlaces, Namespace, TreeFault};
use std::alloc::Global;
use std::process::Abort;
use std::test::Fail;

/// The key `k` and this number, in the global namespace.
pub(crate) fn key(alloc: Global, number: usize) -> Result<Key, TreeFault> {
    let name = format!(in alloc; "k{number}")?;
    Key::new(alloc, Namespace::global(), name.as_str())
}

/// What a lane is answered for the key `k` and this number.
fn numbered(
    alloc: Global,
    places: &KeyPlaces,
    notes: &mut KeyNotes,
    number: usize,
) -> Result<Result<usize, KeyFault>, TreeFault>
    requires { AreKeyNotesOf places.now notes.old }
    ensures { AreKeyNotesOf places.now notes.new }
{
    let key = key(alloc, number)?;
    Ok(places.number(notes, &key))
}

/// Asserts that the keys `k0`, `k1` and so on, so many, have the numbers from 0 on.
fn has_first_numbers(
    rt: &impl Abort,
    alloc: Global,
    places: &KeyPlaces,
    notes: &mut KeyNotes,
    count: usize,
) -> Result<(), TreeFault>
    requires { AreKeyNotesOf places.now notes.old }
    ensures { AreKeyNotesOf places.now notes.new }
{
    for number in 0..count {
        let answer = numbered(alloc, places, notes, number)?;
        same(rt, answer, Ok(number), "a key's number");
    }
    Ok(())
}

/// The first lane numbers 64 keys, and is refused a further one; the second one finds the last of
/// them.
fn number_64(
    rt: &impl Abort,
    alloc: Global,
    places: &KeyPlaces,
    first: &mut KeyNotes,
    second: &mut KeyNotes,
) -> Result<(), TreeFault>
    requires first { AreKeyNotesOf places.now first.old }
    requires second { AreKeyNotesOf places.now second.old }
    ensures first { AreKeyNotesOf places.now first.new }
    ensures second { AreKeyNotesOf places.now second.new }
{
    has_first_numbers(rt, alloc, places, first, 64)?;
    let full = numbered(alloc, places, first, 64)?;
    same(rt, full, Err(KeyFault::DirectoryFull), "a key too many");
    let known = numbered(alloc, places, first, 5)?;
    same(rt, known, Ok(5), "a known key");
    let last = numbered(alloc, places, second, 63)?;
    same(rt, last, Ok(63), "the last key, by another lane");
    Ok(())
}

/// One lane numbers 64 keys and is refused a further one as `DirectoryFull`, and a second lane is
/// answered the same numbers.
/// Tests `KeyPlaces::number`.
#[test]
fn keys_are_64_at_most(rt: HostRuntime) -> Result<(), Fail> {
    let places = KeyPlaces::new(rt.alloc(), 64)?;
    let mut first = places.notes()?;
    let mut second = places.notes()?;
    number_64(&rt, rt.alloc(), &places, &mut first, &mut second)?;
    places.agree(&mut first, &mut second);
    has_first_numbers(&rt, rt.alloc(), &places, &mut first, 64)?;
    has_first_numbers(&rt, rt.alloc(), &places, &mut second, 64)?;
    Ok(())
}

/// Of 1,025 keys the last is refused as `DirectoryFull`, and the others keep the numbers from 0 on.
/// Tests `KeyPlaces::number` and `KeyPlaces::len`.
#[test]
fn keys_are_1024_at_most(rt: HostRuntime) -> Result<(), Fail> {
    let places = KeyPlaces::new(rt.alloc(), 1_024)?;
    same(&rt, places.len(), 1_024, "the places");
    let mut notes = places.notes()?;
    has_first_numbers(&rt, rt.alloc(), &places, &mut notes, 1_024)?;
    let full = numbered(rt.alloc(), &places, &mut notes, 1_024)?;
    same(&rt, full, Err(KeyFault::DirectoryFull), "a key too many");
    has_first_numbers(&rt, rt.alloc(), &places, &mut notes, 1_024)?;
    Ok(())
}

/// One lane numbers three keys, and another these and one more: each tells which ones it set
/// itself, also after they agreed.
/// Tests `KeyPlaces::number`, `KeyPlaces::agree` and `KeyNotes::has_placed`.
#[test]
fn a_lane_tells_which_places_it_set(rt: HostRuntime) -> Result<(), Fail> {
    let places = KeyPlaces::new(rt.alloc(), 64)?;
    let mut first = places.notes()?;
    let mut second = places.notes()?;
    has_first_numbers(&rt, rt.alloc(), &places, &mut first, 3)?;
    has_first_numbers(&rt, rt.alloc(), &places, &mut second, 4)?;
    places.agree(&mut first, &mut second);
    for number in 0..5 {
        same(
            &rt,
            first.has_placed(number),
            number < 3,
            "a place of the first lane",
        );
        same(
            &rt,
            second.has_placed(number),
            number == 3,
            "a place of the second lane",
        );
    }
    Ok(())
}

/// The numbers of one key in two lanes, which are one number.
fn numbered_by_both(
    places: &KeyPlaces,
    first: &mut KeyNotes,
    second: &mut KeyNotes,
    key: &Key,
) -> Option<(usize, usize)>
    requires first { AreKeyNotesOf places.now first.old }
    requires second { AreKeyNotesOf places.now second.old }
    ensures { IfSome result (λ numbers. numbers.0 ≡ numbers.1) }
{
    let one = places.number(first, key).ok()?;
    let other = places.number(second, key).ok()?;
    places.agree(first, second);
    Some((one, other))
}

/// Two lanes ask for the number of one key, and by the clauses alone they are answered the same.
/// Tests `KeyPlaces::agree`.
#[test]
fn lanes_give_one_number(rt: HostRuntime) -> Result<(), Fail> {
    let places = KeyPlaces::new(rt.alloc(), 64)?;
    let mut first = places.notes()?;
    let mut second = places.notes()?;
    has_first_numbers(&rt, rt.alloc(), &places, &mut first, 3)?;
    let key = key(rt.alloc(), 2)?;
    let numbers = numbered_by_both(&places, &mut first, &mut second, &key);
    same(&rt, numbers, Some((2, 2)), "the numbers of one key");
    Ok(())
}

/// The key of this name, in the namespace that is created of the first parts, the global one where
/// there are none, with the further ones appended.
fn key_in(alloc: Global, parts: &[&str], more: &[&str], name: &str) -> Result<Key, TreeFault> {
    let namespace = if parts.is_empty() {
        Namespace::global().append(alloc, more)?
    } else {
        Namespace::create(alloc, parts)?.append(alloc, more)?
    };
    Key::new(alloc, namespace, name)
}

/// Asserts which numbers keys of several namespaces have, in the order of their coming.
fn tells_namespaces_apart(
    rt: &impl Abort,
    alloc: Global,
    places: &KeyPlaces,
    notes: &mut KeyNotes,
) -> Result<(), TreeFault>
    requires { AreKeyNotesOf places.now notes.old }
{
    let none: &[&str] = &[];
    for (parts, more, name, wanted) in [
        (none, none, "server", 0),
        (none, &["a", "b"], "server", 1),
        (&["a", "b"], none, "server", 2),
        (&["a"], &["b"], "server", 2),
        (none, &["b"], "server", 3),
        (&["b", "a"], none, "server", 4),
        (&["a"], none, "server", 5),
        (&["a"], none, "client", 6),
        (none, &["a", "b"], "server", 1),
        (none, none, "server", 0),
    ] {
        let key = key_in(alloc, parts, more, name)?;
        let answer = places.number(notes, &key);
        same(rt, answer, Ok(wanted), "a key of a namespace");
    }
    Ok(())
}

/// Keys of one name have a number for each namespace, and the same one where the namespaces are
/// equal, however these were made.
/// Tests `KeyPlaces::number`.
#[test]
fn namespaces_are_told_apart(rt: HostRuntime) -> Result<(), Fail> {
    let places = KeyPlaces::new(rt.alloc(), 64)?;
    let mut notes = places.notes()?;
    tells_namespaces_apart(&rt, rt.alloc(), &places, &mut notes)?;
    Ok(())
}

/// A key that differs from all others of these in the first part of its namespace alone: hints look
/// at its name and its last part, so they stand in each other's way.
fn key_of_one_hash(alloc: Global, number: usize) -> Result<Key, TreeFault> {
    let first = format!(in alloc; "{number}")?;
    key_in(alloc, &[first.as_str(), "same"], &[], "name")
}

/// Asserts that 64 keys of one hash get the numbers from 0 on.
fn number_keys_of_one_hash(
    rt: &impl Abort,
    alloc: Global,
    places: &KeyPlaces,
    notes: &mut KeyNotes,
) -> Result<(), TreeFault>
    requires { AreKeyNotesOf places.now notes.old }
    ensures { AreKeyNotesOf places.now notes.new }
{
    for number in 0..64 {
        let key = key_of_one_hash(alloc, number)?;
        let answer = places.number(notes, &key);
        same(rt, answer, Ok(number), "a new key");
    }
    Ok(())
}

/// Asserts that a further key of that hash is refused, and that each of the 64 has its number, from
/// the last to the first.
fn ask_keys_of_one_hash(
    rt: &impl Abort,
    alloc: Global,
    places: &KeyPlaces,
    notes: &mut KeyNotes,
) -> Result<(), TreeFault>
    requires { AreKeyNotesOf places.now notes.old }
{
    for step in 0..65 {
        let key = key_of_one_hash(alloc, 64 - step)?;
        let wanted = if step == 0 {
            Err(KeyFault::DirectoryFull)
        } else {
            Ok(64 - step)
        };
        let answer = places.number(notes, &key);
        same(rt, answer, wanted, "a key once more");
    }
    Ok(())
}

/// 64 keys of one hash get the numbers from 0 on, a further one is refused, and each of the 64 is
/// found again.
/// Tests `KeyPlaces::number`.
#[test]
fn keys_of_one_hash_are_told_apart(rt: HostRuntime) -> Result<(), Fail> {
    let places = KeyPlaces::new(rt.alloc(), 64)?;
    let mut notes = places.notes()?;
    number_keys_of_one_hash(&rt, rt.alloc(), &places, &mut notes)?;
    ask_keys_of_one_hash(&rt, rt.alloc(), &places, &mut notes)?;
    Ok(())
}

/// Whether the lane knows the key of this number, and it is this one.
fn names(places: &KeyPlaces, notes: &mut KeyNotes, number: usize, key: &Key) -> bool
    requires { AreKeyNotesOf places.now notes.old }
    ensures { AreKeyNotesOf places.now notes.new }
{
    notes.knows(number) && places.key(notes, number) == key
}

/// The first lane has numbered three keys, which the second knows once they agree; what the second
/// numbers then the first does not know.
/// Tests `KeyPlaces::new`, `KeyPlaces::notes`, `KeyPlaces::agree`, `KeyPlaces::key` and
/// `KeyNotes::knows`.
#[test]
fn agreeing_teaches_the_second_lane(rt: HostRuntime) -> Result<(), Fail> {
    let places = KeyPlaces::new(rt.alloc(), 64)?;
    let mut first = places.notes()?;
    let mut second = places.notes()?;
    has_first_numbers(&rt, rt.alloc(), &places, &mut first, 3)?;
    same(&rt, second.knows(2), false, "the second lane before");
    places.agree(&mut first, &mut second);
    let known = (second.knows(0), second.knows(2), second.knows(3));
    same(&rt, known, (true, true, false), "the second lane");
    same(&rt, second.knows(64), false, "no number");
    let taught = names(&places, &mut second, 2, &key(rt.alloc(), 2)?);
    same(&rt, taught, true, "the key of a number");
    let further = numbered(rt.alloc(), &places, &mut second, 3)?;
    same(&rt, further, Ok(3), "a further key");
    same(&rt, first.knows(3), false, "the first lane");
    has_first_numbers(&rt, rt.alloc(), &places, &mut second, 4)?;
    Ok(())
}

/// With 64 keys the first and the last cell of the contexts 0, 1 and 255 are the context times 64,
/// plus the key.
/// Tests `KeyPlaces::cell`.
#[test]
fn cells_of_all_contexts_and_keys(rt: HostRuntime) -> Result<(), Fail> {
    let places = KeyPlaces::new(rt.alloc(), 64)?;
    for (context, key, wanted) in [(0, 0, 0), (0, 63, 63), (1, 0, 64), (255, 63, 16_383)] {
        let cell = places.cell(context, key);
        same(&rt, cell, wanted, "a cell");
    }
    Ok(())
}

#[test]
fn key_faults_print_sentences(rt: HostRuntime) -> Result<(), Fail> {
    for (fault, text) in [
        (KeyFault::DirectoryFull, "the directory is full"),
        (KeyFault::Unplaced, "the key was not placed"),
        (KeyFault::Memory, "no memory"),
    ] {
        same(&rt, fault.to_string(rt.alloc())?.as_str(), text, text);
    }
    Ok(())
}
