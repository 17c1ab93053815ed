//! What one lane knows of the values of all numbers, and whether it knows one.
ghost use Rattle.std.specs.Prelude.{◌≡◌, IfErr, IfNone, IfOk, IfSome, OnErr, OnOk, OnSome, None, is_some};
ghost use Rattle.ext_values.specs.Slots.{IsNumber};
ghost use Rattle.ext_values.specs.Known.{AllAgree, AreNotesOf, KeepsKnown, Learns, LearnsOne, known_at, nothing_known, slots_of};

use crate::flag_bits::FlagBits;
use crate::{SilentNotes, Values, ValuesFault};
use std::alloc::Global;
use std::marker::Model;

/// What one lane knows of the values of all numbers of a `Values`: those that it placed, and those
/// that it was shown. A known value stays known. Takes one bit per number, rounded up to 8 bytes,
/// however large the values are.
#[derive(Drop)]
pub struct Notes<V> {
    notes: SilentNotes<V>,
    // For each number in order, whether its value is known.
    flags: FlagBits,
}

impl<V> Model for Notes<V> {
    ghost use Rattle.std.specs.Prelude.{◌≡◌, List};
    ghost use Rattle.ext_values.specs.Known.{Known, are_known};

    ghost Value = { List (Known V) };

    ghost view = { λ n. n.notes };

    ghost invariant = { λ n. n.flags ≡ are_known n.notes };
}

impl<V> Notes<V> {
    /// Makes notes of these slots that know no value yet. Takes memory.
    ///
    /// Refused as `Memory`, only if its one allocation fails.
    pub fn new(alloc: Global, values: &Values<V>) -> Result<Notes<V>, ValuesFault>
        ensures nothing { IfOk result (λ n. n ≡ nothing_known values.now) }
        ensures of { IfOk result (λ n. AreNotesOf values.now n) }
    {
        let notes = SilentNotes::new(alloc, values)?;
        let flags = FlagBits::new(alloc, values.capacity() as usize)?;
        Ok(Notes { notes, flags })
    }

    /// Whether the number's value is known: these notes placed it or were shown it. False for a
    /// number outside 1 to the capacity.
    pub fn knows(&self, number: u32) -> bool
        ensures { result ≡ is_some (known_at self.now number) }
    {
        number > 0 && number as usize <= self.flags.len() && self.flags.get(number as usize - 1)
    }

    /// The number's value, if it is known or this thread finds it; it is known from now on. What
    /// was known stays known. The notes must be of these slots.
    ///
    /// `None`, with nothing changed, for a number outside 1 to the capacity, and if the thread
    /// finds the slot free.
    pub fn get<'a>(&mut self, values: &'a Values<V>, number: u32) -> Option<&'a V>
        requires { AreNotesOf values.now self.old }
        ensures within { OnSome result (IsNumber values.now number) }
        ensures found { IfSome result (λ x. Learns self.old self.new number x.now) }
        ensures kept { KeepsKnown self.old self.new }
        ensures none { IfNone result (known_at self.old number ≡ None) }
        ensures unchanged { IfNone result (self.new ≡ self.old) }
        ensures of { AreNotesOf values.now self.new }
    {
        let value = self.notes.get(values, number)?;
        self.flags.set(number as usize - 1);
        Some(value)
    }

    /// Shows that a number that both notes know has the same value in both. The notes must be of
    /// the same slots, and stay as they were.
    pub fn meet(&mut self, other: &mut Notes<V>)
        requires { slots_of self.old ≡ slots_of other.old }
        ensures agree { AllAgree self.old other.old }
        ensures unchanged { (self.new ≡ self.old) × (other.new ≡ other.old) }
    {
        self.notes.meet(&mut other.notes);
    }
}

impl<V: Drop> Notes<V> {
    /// Puts the value at this number; it is known from now on. The notes must be of these slots,
    /// and the number 1 to the capacity.
    ///
    /// Refused if the slot is taken, so always if the number's value is known: the box is handed
    /// back with its value, and the value that stands there is known from now on. Nothing else
    /// changes.
    pub fn place(&mut self, values: &Values<V>, number: u32, value: Box<V>) -> Result<(), Box<V>>
        requires of { AreNotesOf values.now self.old }
        requires number { IsNumber values.now number }
        ensures placed { OnOk result (Learns self.old self.new number value.value) }
        ensures free { OnOk result (known_at self.old number ≡ None) }
        ensures kept { KeepsKnown self.old self.new }
        ensures handed_back { IfErr result (λ b. b.value ≡ value.value) }
        ensures taken { OnErr result (LearnsOne self.old self.new number) }
        ensures of { AreNotesOf values.now self.new }
    {
        let placed = self.notes.place(values, number, value);
        self.flags.set(number as usize - 1);
        placed
    }
}
