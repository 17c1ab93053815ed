//! Slots for values, found by their numbers.
ghost use Rattle.std.specs.Prelude.{◌≡◌, ◌↔◌, IfErr, IfOk, IfSome, IsSome, IsTrue, OnSome, Some, length};
ghost use Rattle.once_cell.specs.Once.{cell_name};
ghost use Rattle.ext_values.specs.Slots.{IsCapacity, IsNoteOf, IsNumber, slot_of};

use crate::{Note, ValuesFault};
use once_cell::race::OnceBox;
use std::alloc::Global;
use std::marker::Model;
use std::mem::size_of;

/// A fixed number of slots for values, numbered from 1. Each is set at most once and keeps its
/// value until all are dropped; any thread may set or read one. Takes one pointer per number.
#[derive(Drop)]
pub struct Values<V> {
    slots: Vec<OnceBox<V>>,
}

// One pointer per number, however large the values are.
const _: () = prove!(size_of::<OnceBox<[u64; 4]>>() == size_of::<usize>());

impl<V> Model for Values<V> {
    ghost use Rattle.std.specs.Prelude.{ℕ, List, length, map};
    ghost use Rattle.once_cell.specs.Once.{cell_name};
    ghost use Rattle.ext_values.specs.Slots.{IsCapacity};

    ghost Value = { List ℕ };

    ghost view = { λ v. map cell_name v.slots.items };

    ghost invariant = { λ v. IsCapacity (length v.slots.items) };
}

impl<V> Values<V> {
    /// Makes `capacity` free slots, at most 1,048,575. Takes memory, unless the capacity is 0.
    ///
    /// Refused as `Memory`, only if its one allocation fails.
    pub fn new(alloc: Global, capacity: u32) -> Result<Values<V>, ValuesFault>
        requires { IsCapacity capacity }
        ensures { IfOk result (λ v. length v ≡ capacity) }
    {
        let mut slots = Vec::with_capacity(alloc, capacity as usize)?;
        for _ in 0..capacity {
            slots.push_reserved(OnceBox::new(alloc));
        }
        Ok(Values { slots })
    }

    /// The number of slots, which is the last number: at most 1,048,575.
    pub fn capacity(&self) -> u32
        ensures count { result ≡ length self.now }
        ensures within { IsCapacity result }
    {
        self.slots.len() as u32
    }

    /// Whether there is a slot with this number: whether it is 1 to the capacity.
    pub fn has_number(&self, number: u32) -> bool
        ensures { IsTrue result ↔ IsNumber self.now number }
    {
        number > 0 && number as usize <= self.slots.len()
    }
}

impl<V: Drop> Values<V> {
    /// Puts the value at this number, 1 to the capacity, and gives a note of it.
    ///
    /// Refused if the slot is taken: the box is handed back with its value, beside a note of the
    /// value that stands there, which the slot keeps.
    pub fn place(&self, number: u32, value: Box<V>) -> Result<Note<V>, (Box<V>, Note<V>)>
        requires { IsNumber self.now number }
        ensures note { IfOk result (λ n. IsNoteOf self.now n) }
        ensures number { IfOk result (λ n. n.number ≡ number) }
        ensures value { IfOk result (λ n. n.value ≡ Some value.value) }
        ensures handed_back { IfErr result (λ e. e.0.value ≡ value.value) }
        ensures taken { IfErr result (λ e. IsNoteOf self.now e.1 × (e.1.number ≡ number) × IsSome e.1.value) }
    {
        let slot = self.slot_at(number);
        let mut seen = slot.note();
        match slot.set_as(value, &mut seen) {
            Ok(()) => Ok(Note { number, seen }),
            Err(back) => Err((back, Note { number, seen })),
        }
    }
}

impl<V> Values<V> {
    /// The value of a number and a note of it, if this thread finds one.
    ///
    /// `None` for a number outside 1 to the capacity, and if the thread finds the slot free. A
    /// test, not a clause, shows that a value which another thread placed is found once that thread
    /// was joined.
    pub fn show(&self, number: u32) -> Option<(&V, Note<V>)>
        ensures within { OnSome result (IsNumber self.now number) }
        ensures note { IfSome result (λ r. IsNoteOf self.now r.1) }
        ensures number { IfSome result (λ r. r.1.number ≡ number) }
        ensures value { IfSome result (λ r. r.1.value ≡ Some r.0.now) }
    {
        if !self.has_number(number) {
            return None;
        }
        let slot = self.slot_at(number);
        let mut seen = slot.note();
        let value = slot.get_as(&mut seen)?;
        Some((value, Note { number, seen }))
    }

    /// The value that the note shows. The note must be of these slots, and stays as it was.
    pub fn show_known<'a>(&'a self, note: &mut Note<V>) -> &'a V
        requires { IsNoteOf self.now note.old }
        ensures value { note.old.value ≡ Some result.now }
        ensures unchanged { note.new ≡ note.old }
    {
        match self.slot_at(note.number).get_as(&mut note.seen) {
            Some(value) => value,
            None => unreachable!(),
        }
    }

    /// Shows that two notes of one number have the same value. The notes must be of these slots
    /// and of one number, and stay as they were.
    pub fn agree(&self, note: &mut Note<V>, second: &mut Note<V>)
        requires note { IsNoteOf self.now note.old }
        requires second { IsNoteOf self.now second.old }
        requires number { note.old.number ≡ second.old.number }
        ensures value { note.old.value ≡ second.old.value }
        ensures unchanged { (note.new ≡ note.old) × (second.new ≡ second.old) }
    {
        note.seen.compare(second.seen.again());
    }

    // The slot with this number.
    pub(crate) fn slot_at(&self, number: u32) -> &OnceBox<V>
        requires { IsNumber self.now number }
        ensures { cell_name result.now ≡ slot_of self.now number }
    {
        &self.slots[number as usize - 1]
    }
}
