//! What one lane knows of the values of all numbers, if nobody asks whether it does.
ghost use Rattle.std.specs.Prelude.{◌≡◌, IfErr, IfNone, IfOk, IfSome, OnErr, OnOk, OnSome, None};
ghost use Rattle.ext_values.specs.Slots.{IsNumber};
ghost use Rattle.ext_values.specs.Known.{AllAgree, AreNotesOf, KeepsKnown, Learns, LearnsOne, known_at, nothing_known, slots_of};

use crate::entry::Entry;
use crate::{Values, ValuesFault};
use std::alloc::Global;
use std::marker::Model;

/// What one lane knows of the values of all numbers of a `Values`. Unlike `Notes`, it cannot be
/// asked whether it knows one, so it takes no bytes per number: the notes exist in proofs only.
#[derive(Drop)]
pub struct SilentNotes<V> {
    entries: Vec<Entry<V>>,
}

impl<V> Model for SilentNotes<V> {
    ghost use Rattle.std.specs.Prelude.{List};
    ghost use Rattle.ext_values.specs.Known.{Known};

    ghost Value = { List (Known V) };

    ghost view = { λ n. n.entries.items };
}

impl<V> SilentNotes<V> {
    /// Makes notes of these slots that know no value yet. Takes no memory, since no entry has a
    /// size.
    ///
    /// Refused as `Memory`, as making any list may be, only if an allocation fails.
    pub fn new(alloc: Global, values: &Values<V>) -> Result<SilentNotes<V>, ValuesFault>
        ensures nothing { IfOk result (λ n. n ≡ nothing_known values.now) }
        ensures of { IfOk result (λ n. AreNotesOf values.now n) }
    {
        let capacity = values.capacity();
        let mut entries = Vec::with_capacity(alloc, capacity as usize)?;
        for index in 0..capacity {
            entries.push_reserved(Entry::unknown(values.slot_at(index + 1)));
        }
        Ok(SilentNotes { entries })
    }

    /// The number's value, if it is known or this thread finds it; it is known from now on. What
    /// was known stays known. The notes must be of these slots.
    ///
    /// `None`, with nothing changed, for a number outside 1 to the capacity, and if the thread
    /// finds the slot free.
    pub fn get<'a>(&mut self, values: &'a Values<V>, number: u32) -> Option<&'a V>
        requires { AreNotesOf values.now self.old }
        ensures within { OnSome result (IsNumber values.now number) }
        ensures found { IfSome result (λ x. Learns self.old self.new number x.now) }
        ensures kept { KeepsKnown self.old self.new }
        ensures none { IfNone result (known_at self.old number ≡ None) }
        ensures unchanged { IfNone result (self.new ≡ self.old) }
        ensures of { AreNotesOf values.now self.new }
    {
        if !values.has_number(number) {
            return None;
        }
        self.entries[number as usize - 1].get(values.slot_at(number))
    }

    /// Shows that a number that both notes know has the same value in both. The notes must be of
    /// the same slots, and stay as they were.
    pub fn meet(&mut self, other: &mut SilentNotes<V>)
        requires { slots_of self.old ≡ slots_of other.old }
        ensures agree { AllAgree self.old other.old }
        ensures unchanged { (self.new ≡ self.old) × (other.new ≡ other.old) }
    {
        for index in 0..self.entries.len() {
            self.entries[index].agree(&mut other.entries[index]);
        }
    }
}

impl<V: Drop> SilentNotes<V> {
    /// Puts the value at this number; it is known from now on. The notes must be of these slots,
    /// and the number 1 to the capacity.
    ///
    /// Refused if the slot is taken, so always if the number's value is known: the box is handed
    /// back with its value, and the value that stands there is known from now on. Nothing else
    /// changes.
    pub fn place(&mut self, values: &Values<V>, number: u32, value: Box<V>) -> Result<(), Box<V>>
        requires of { AreNotesOf values.now self.old }
        requires number { IsNumber values.now number }
        ensures placed { OnOk result (Learns self.old self.new number value.value) }
        ensures free { OnOk result (known_at self.old number ≡ None) }
        ensures kept { KeepsKnown self.old self.new }
        ensures handed_back { IfErr result (λ b. b.value ≡ value.value) }
        ensures taken { OnErr result (LearnsOne self.old self.new number) }
        ensures of { AreNotesOf values.now self.new }
    {
        self.entries[number as usize - 1].place(values.slot_at(number), value)
    }
}
