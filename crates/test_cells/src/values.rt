//! The worked examples of slots and notes, and callers that go by the clauses alone.
//!
//! `placed_and_found` and `notes_know_what_was_placed_or_shown` show the calls of `ext_values`: a
//! value that was placed is found by other lanes too, and a taken slot hands the box back and
//! shows which value stands there.
ghost use Rattle.std.specs.Prelude.{◌≡◌, ◌<◌, IfErr, IfOk, IfSome};
ghost use Rattle.ext_values.specs.Slots.{IsCapacity, IsNoteOf, IsNumber};
ghost use Rattle.ext_values.specs.Known.{AreNotesOf};

use crate::same::same;
use ext_values::{Note, Notes, SilentNotes, Values, ValuesFault};
use std::alloc::Global;
use std::test::Fail;
use std::thread;

/// A value that is shown at a number is the one that was placed there, by both notes.
fn placed_and_shown(values: &Values<u8>, number: u32, value: Box<u8>) -> Option<u8>
    requires { IsNumber values.now number }
    ensures { IfSome result (λ found. found ≡ value.value) }
{
    let Ok(mut note) = values.place(number, value) else {
        return None;
    };
    let (found, mut second) = values.show(number)?;
    values.agree(&mut note, &mut second);
    if note.number() != number || second.number() != number {
        return None;
    }
    if *values.show_known(&mut note) != *found {
        unreachable!();
    }
    Some(*values.show_known(&mut second))
}

/// What a taken slot hands back, and the value that it keeps.
fn handed_back(values: &Values<u8>, number: u32, value: Box<u8>) -> Option<(u8, u8)>
    requires { IsNumber values.now number }
    ensures { IfSome result (λ r. r.0 ≡ value.value) }
{
    match values.place(number, value) {
        Ok(_) => None,
        Err((back, mut note)) => Some((*back, *values.show_known(&mut note))),
    }
}

/// The value that is shown at the number.
fn shown(values: &Values<u8>, number: u32) -> Option<u8> {
    let (found, _) = values.show(number)?;
    Some(*found)
}

/// Two of three numbers get a value: both notes of each show it, a further value is handed back,
/// and a number without a value shows none.
/// Tests `Values::place`, `Values::show`, `Values::has_number`, `Values::show_known`,
/// `Values::agree` and `Note::number`.
#[test]
fn slots_are_set_once(rt: HostRuntime) -> Result<(), Fail> {
    let values = Values::new(rt.alloc(), 3)?;
    let first = placed_and_shown(&values, 1, Box::new(rt.alloc(), 7)?);
    let third = placed_and_shown(&values, 3, Box::new(rt.alloc(), 9)?);
    let back = handed_back(&values, 1, Box::new(rt.alloc(), 8)?);
    let placed = (first, third, back);
    same(
        &rt,
        placed,
        (Some(7), Some(9), Some((8, 7))),
        "what is placed",
    );
    for (number, value) in [(0, None), (1, Some(7)), (2, None), (3, Some(9)), (4, None)] {
        same(&rt, shown(&values, number), value, "what is shown");
        let is_inside = number > 0 && number < 4;
        same(&rt, values.has_number(number), is_inside, "a slot");
    }
    Ok(())
}

/// Another thread's note of number 1.
fn noted_by_thread(values: &Values<u8>, value: Box<u8>) -> Option<Note<u8>>
    requires { IsNumber values.now 1 }
    ensures { IfSome result (λ note. IsNoteOf values.now note × (note.number ≡ 1)) }
{
    match values.place(1, value) {
        Ok(note) => Some(note),
        Err(_) => None,
    }
}

/// The value of number 1, where the note is of it and so is a note that is shown.
fn agreed(values: &Values<u8>, mut note: Note<u8>) -> Option<u8>
    requires { IsNoteOf values.now note × (note.number ≡ 1) }
{
    let (found, mut own) = values.show(1)?;
    values.agree(&mut note, &mut own);
    Some(*found)
}

/// A thread places a value and ends: the value is shown to this thread, its note agrees with the
/// thread's, and a further value is handed back.
/// Tests `Values::place`, `Values::show` and `Values::has_number`.
#[test]
fn value_seen_after_the_thread_ended(rt: HostRuntime) -> Result<(), Fail> {
    let values = Values::new(rt.alloc(), 2)?;
    let shared = &values;
    let first = Box::new(rt.alloc(), 7u8)?;
    let (theirs, _) = thread::join(
        &rt,
        move || -> Option<Note<u8>>
            requires { IsNumber shared.now 1 }
            ensures { IfSome result (λ note. IsNoteOf shared.entry.now note × (note.number ≡ 1)) }
        { noted_by_thread(shared, first) },
        || (),
    );
    let note = theirs.ok_or("the slot was taken")?;
    same(&rt, agreed(shared, note), Some(7), "the value");
    let back = handed_back(shared, 1, Box::new(rt.alloc(), 8)?);
    same(&rt, back, Some((8, 7)), "a further value");
    Ok(())
}

/// Places the value for a lane, which then finds it; what is handed back where the slot is taken.
fn placed_and_found(
    values: &Values<u8>,
    notes: &mut Notes<u8>,
    number: u32,
    value: Box<u8>,
) -> Result<u8, u8>
    requires of { AreNotesOf values.now notes.old }
    requires number { IsNumber values.now number }
    ensures found { IfOk result (λ found. found ≡ value.value) }
    ensures back { IfErr result (λ back. back ≡ value.value) }
    ensures of { AreNotesOf values.now notes.new }
{
    if let Err(back) = notes.place(values, number, value) {
        return Err(*back);
    }
    match notes.get(values, number) {
        Some(found) => Ok(*found),
        None => unreachable!(),
    }
}

/// Two lanes that both find a value at a number find the same one.
fn found_by_both(
    values: &Values<u8>,
    notes: &mut Notes<u8>,
    others: &mut Notes<u8>,
    number: u32,
) -> Option<(u8, u8)>
    requires notes { AreNotesOf values.now notes.old }
    requires others { AreNotesOf values.now others.old }
    ensures found { IfSome result (λ found. found.0 ≡ found.1) }
    ensures notes { AreNotesOf values.now notes.new }
    ensures others { AreNotesOf values.now others.new }
{
    let first = *notes.get(values, number)?;
    let second = *others.get(values, number)?;
    notes.meet(others);
    Some((first, second))
}

/// A lane of another thread: its notes go there and come back.
fn placed_by_lane(
    values: &Values<u8>,
    mut notes: Notes<u8>,
    number: u32,
    value: Box<u8>,
) -> (Notes<u8>, bool)
    requires of { AreNotesOf values.now notes }
    requires number { IsNumber values.now number }
    ensures { AreNotesOf values.now result.0 }
{
    let placed = notes.place(values, number, value).is_ok();
    (notes, placed)
}

/// A lane in another thread places a value, which this thread's lane does not know before it finds
/// the same one.
/// Tests `Notes::meet`.
#[test]
fn lanes_of_two_threads_meet(rt: HostRuntime) -> Result<(), Fail> {
    let values = Values::new(rt.alloc(), 2)?;
    let theirs = Notes::new(rt.alloc(), &values)?;
    let mut own = Notes::new(rt.alloc(), &values)?;
    let shared = &values;
    let value = Box::new(rt.alloc(), 7u8)?;
    let ((mut theirs, placed), _) = thread::join(
        &rt,
        move || -> (Notes<u8>, bool)
            requires of { AreNotesOf shared.now theirs }
            requires number { IsNumber shared.now 2 }
            ensures { AreNotesOf shared.entry.now result.0 }
        { placed_by_lane(shared, theirs, 2, value) },
        || (),
    );
    let known = (placed, theirs.knows(2), own.knows(2));
    same(&rt, known, (true, true, false), "what is known");
    let found = found_by_both(shared, &mut own, &mut theirs, 2);
    same(&rt, found, Some((7, 7)), "the value");
    Ok(())
}

/// One lane places a value and another one's is handed back: both know that number then and find
/// one value, and know no number without a value.
/// Tests `Notes::get`, `Notes::knows`, `Notes::place`, `SilentNotes::place`, `Values::place`,
/// `Values::new`, `Values::capacity` and `Notes::new`.
#[test]
fn notes_know_what_was_placed_or_shown(rt: HostRuntime) -> Result<(), Fail> {
    let values = Values::new(rt.alloc(), 2)?;
    let mut own = Notes::new(rt.alloc(), &values)?;
    let mut other = Notes::new(rt.alloc(), &values)?;
    let nothing = found_by_both(&values, &mut own, &mut other, 2);
    same(&rt, nothing, None, "an empty slot");
    let placed = placed_and_found(&values, &mut own, 2, Box::new(rt.alloc(), 7)?);
    let refused = placed_and_found(&values, &mut other, 2, Box::new(rt.alloc(), 8)?);
    same(&rt, (placed, refused), (Ok(7), Err(8)), "one slot");
    let known = (own.knows(2), own.knows(1), other.knows(2));
    same(&rt, known, (true, false, true), "what is known");
    let found = found_by_both(&values, &mut own, &mut other, 2);
    same(&rt, found, Some((7, 7)), "what both find");
    let known = (other.knows(2), other.knows(0), other.knows(3));
    same(&rt, known, (true, false, false), "what is known then");
    let empty = found_by_both(&values, &mut own, &mut other, 1);
    let outside = found_by_both(&values, &mut own, &mut other, 3);
    same(&rt, (empty, outside), (None, None), "no value");
    let further = placed_and_found(&values, &mut own, 1, Box::new(rt.alloc(), 9)?);
    same(&rt, (further, own.knows(2)), (Ok(9), true), "both");
    Ok(())
}

/// Places the value for a lane whose notes nobody asks, which then finds it; what is handed back
/// where the slot is taken.
fn placed_silently(
    values: &Values<u8>,
    notes: &mut SilentNotes<u8>,
    number: u32,
    value: Box<u8>,
) -> Result<u8, u8>
    requires of { AreNotesOf values.now notes.old }
    requires number { IsNumber values.now number }
    ensures found { IfOk result (λ found. found ≡ value.value) }
    ensures back { IfErr result (λ back. back ≡ value.value) }
    ensures of { AreNotesOf values.now notes.new }
{
    if let Err(back) = notes.place(values, number, value) {
        return Err(*back);
    }
    match notes.get(values, number) {
        Some(found) => Ok(*found),
        None => unreachable!(),
    }
}

/// Two such lanes that both find a value at a number find the same one.
fn found_silently(
    values: &Values<u8>,
    notes: &mut SilentNotes<u8>,
    others: &mut SilentNotes<u8>,
    number: u32,
) -> Option<(u8, u8)>
    requires notes { AreNotesOf values.now notes.old }
    requires others { AreNotesOf values.now others.old }
    ensures found { IfSome result (λ found. found.0 ≡ found.1) }
    ensures notes { AreNotesOf values.now notes.new }
    ensures others { AreNotesOf values.now others.new }
{
    let first = *notes.get(values, number)?;
    let second = *others.get(values, number)?;
    notes.meet(others);
    Some((first, second))
}

/// A lane whose notes nobody asks places a value, and that of another such lane is handed back:
/// both find the first value, and none under other numbers.
/// Tests `Notes::get`, `Notes::knows`, `Notes::place`, `SilentNotes::place` and `Values::place`.
#[test]
fn silent_notes_find_what_was_placed(rt: HostRuntime) -> Result<(), Fail> {
    let values = Values::new(rt.alloc(), 2)?;
    let mut own = SilentNotes::new(rt.alloc(), &values)?;
    let mut other = SilentNotes::new(rt.alloc(), &values)?;
    let nothing = found_silently(&values, &mut own, &mut other, 2);
    same(&rt, nothing, None, "an empty slot");
    let placed = placed_silently(&values, &mut own, 2, Box::new(rt.alloc(), 7)?);
    let refused = placed_silently(&values, &mut other, 2, Box::new(rt.alloc(), 8)?);
    same(&rt, (placed, refused), (Ok(7), Err(8)), "one slot");
    let found = found_silently(&values, &mut other, &mut own, 2);
    same(&rt, found, Some((7, 7)), "what both find");
    let below = found_silently(&values, &mut own, &mut other, 0);
    let empty = found_silently(&values, &mut own, &mut other, 1);
    let above = found_silently(&values, &mut own, &mut other, 3);
    same(&rt, (below, empty, above), (None, None, None), "no value");
    Ok(())
}

/// The capacity for so many numbers, and whether the last of them is known once it was placed, and
/// the one behind it.
fn last_number(alloc: Global, capacity: u32) -> Result<(u32, bool, bool), Fail>
    requires capacity { IsCapacity capacity }
    requires some { 0 < capacity }
{
    let values = Values::new(alloc, capacity)?;
    let mut notes = Notes::new(alloc, &values)?;
    let placed = placed_and_found(&values, &mut notes, capacity, Box::new(alloc, 7)?);
    let told = values.capacity();
    Ok((
        told,
        placed == Ok(7) && notes.knows(told),
        notes.knows(told + 1),
    ))
}

/// With 1, 65,535 and 1,048,575 numbers the last one takes a value and is known, and the next is
/// not.
/// Tests `Values::new`, `Values::capacity` and `Notes::new`.
#[test]
fn capacities_from_1_to_1048575(rt: HostRuntime) -> Result<(), Fail> {
    same(&rt, last_number(rt.alloc(), 1)?, (1, true, false), "1");
    let usual = last_number(rt.alloc(), 65_535)?;
    same(&rt, usual, (65_535, true, false), "65,535");
    let largest = last_number(rt.alloc(), 1_048_575)?;
    same(&rt, largest, (1_048_575, true, false), "1,048,575");
    Ok(())
}

/// With a capacity of 0 there is no number, and neither kind of notes finds a value.
/// Tests `Values::new`, `Values::capacity` and `Notes::new`.
#[test]
fn no_slots_for_no_numbers(rt: HostRuntime) -> Result<(), Fail> {
    let values: Values<u8> = Values::new(rt.alloc(), 0)?;
    let numbers = (
        values.capacity(),
        values.has_number(0),
        values.has_number(1),
    );
    same(&rt, numbers, (0, false, false), "the numbers");
    let mut notes = Notes::new(rt.alloc(), &values)?;
    let mut silent = SilentNotes::new(rt.alloc(), &values)?;
    let none = notes.get(&values, 1).is_none();
    same(&rt, none, true, "no value");
    let none = silent.get(&values, 1).is_none();
    same(&rt, none, true, "no value, in silence");
    Ok(())
}

#[test]
fn fault_prints_a_sentence(rt: HostRuntime) -> Result<(), Fail> {
    let text = ValuesFault::Memory.to_string(rt.alloc())?;
    same(&rt, text.as_str(), "no memory", "want of memory");
    Ok(())
}
