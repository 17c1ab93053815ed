//! What a lane knows of one slot.
ghost use Rattle.std.specs.Prelude.{◌≡◌, IfErr, IfNone, IfSome, None, OnOk, Some};
ghost use Rattle.once_cell.specs.Once.{Agrees, cell_name};
ghost use Rattle.ext_values.specs.Known.{unknown};

use once_cell::race;
use once_cell::race::OnceBox;
use std::marker::Model;
use std::mem::size_of;

/// What a lane knows of one slot. Takes no bytes: the note of the value has no size.
#[derive(Drop)]
pub(crate) struct Entry<V> {
    seen: race::Note<V>,
}

// No bytes per number, however large the values are.
const _: () = prove!(size_of::<Entry<[u64; 4]>>() == 0);

impl<V> Model for Entry<V> {
    ghost use Rattle.ext_values.specs.Known.{Known};

    ghost Value = { Known V };

    ghost view = { λ e. record { slot = e.seen.cell; value = e.seen.known } };
}

impl<V> Entry<V> {
    /// An entry that knows nothing of the slot yet.
    pub fn unknown(slot: &OnceBox<V>) -> Entry<V>
        ensures { result ≡ unknown (cell_name slot.now) }
    {
        Entry { seen: slot.note() }
    }

    /// The value of the slot, if one is found. A known value is always found.
    pub fn get<'a>(&mut self, slot: &'a OnceBox<V>) -> Option<&'a V>
        requires { self.old.slot ≡ cell_name slot.now }
        ensures slot { self.new.slot ≡ self.old.slot }
        ensures found { IfSome result (λ x. self.new.value ≡ Some x.now) }
        ensures same { IfSome result (λ x. Agrees self.old.value x.now) }
        ensures none { IfNone result ((self.new ≡ self.old) × (self.old.value ≡ None)) }
    {
        slot.get_as(&mut self.seen)
    }

    /// Shows that two entries of one slot know the same value, if both know one.
    pub fn agree(&mut self, other: &mut Entry<V>)
        requires { self.old.slot ≡ other.old.slot }
        ensures value { IfSome other.old.value (Agrees self.old.value) }
        ensures unchanged { (self.new ≡ self.old) × (other.new ≡ other.old) }
    {
        self.seen.compare(other.seen.again());
    }
}

impl<V: Drop> Entry<V> {
    /// Puts the value in the slot. If the slot is taken, the box is handed back, and the entry
    /// knows the value that stands there.
    pub fn place(&mut self, slot: &OnceBox<V>, value: Box<V>) -> Result<(), Box<V>>
        requires { self.old.slot ≡ cell_name slot.now }
        ensures slot { self.new.slot ≡ self.old.slot }
        ensures placed { OnOk result (self.new.value ≡ Some value.value) }
        ensures free { OnOk result (self.old.value ≡ None) }
        ensures handed_back { IfErr result (λ b. b.value ≡ value.value) }
        ensures known { (x : V) × (self.new.value ≡ Some x) × Agrees self.old.value x }
    {
        slot.set_as(value, &mut self.seen)
    }
}
