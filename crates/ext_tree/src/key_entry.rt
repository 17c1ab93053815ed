//! What a lane knows of one place for a key.
ghost use Rattle.std.specs.Prelude.{◌⊎◌, ◌≡◌, IfErr, IfNone, IfOk, IfSome, IsSome, None, Some, is_some};
ghost use Rattle.once_cell.specs.Once.{Agrees, cell_name};
ghost use Rattle.ext_tree.specs.Keys.{KeyValue, Tells, unknown_place};
ghost use Rattle.ext_tree.specs.declared.key_fault.KeyFault.TheVariants.{Memory};

use crate::learnt::Learnt;
use crate::{Key, KeyFault};
use once_cell::race;
use once_cell::race::OnceBox;
use std::alloc::Global;
use std::marker::Model;
use std::mem::size_of;

/// What a lane knows of one place for a key. Takes one byte: the note of the key has no size.
#[derive(Drop)]
pub(crate) struct KeyEntry {
    learnt: Learnt,
    seen: race::Note<Key>,
}

// One byte per place, however long the keys are.
const _: () = prove!(size_of::<KeyEntry>() == 1);

impl Model for KeyEntry {
    ghost use Rattle.std.specs.Prelude.{◌≡◌, is_some};
    ghost use Rattle.ext_tree.specs.Keys.{KnownPlace};
    ghost use Rattle.ext_tree.specs.InnerLearning.{knows_key, put_key};

    ghost Value = { KnownPlace };

    ghost view = { λ e. record { place = e.seen.cell; key = e.seen.known; placed = put_key e.learnt } };

    ghost invariant = { λ e. knows_key e.learnt ≡ is_some e.seen.known };
}

impl KeyEntry {
    /// An entry that knows nothing of the place yet.
    pub fn unknown(place: &OnceBox<Key>) -> KeyEntry
        ensures { result ≡ unknown_place (cell_name place.now) }
    {
        KeyEntry {
            learnt: Learnt::Nothing,
            seen: place.note(),
        }
    }

    /// Whether the key of the place is known.
    pub fn is_known(&self) -> bool
        ensures { result ≡ is_some self.now.key }
    {
        self.learnt.is_known()
    }

    /// Whether the lane put the key there.
    pub fn is_placed(&self) -> bool
        ensures { result ≡ self.now.placed }
    {
        self.learnt.is_placed()
    }

    /// The key that the place holds, if one is found there. A known key is always found.
    pub fn get<'a>(&mut self, place: &'a OnceBox<Key>) -> Option<&'a Key>
        requires { self.old.place ≡ cell_name place.now }
        ensures place { self.new.place ≡ self.old.place }
        ensures found { IfSome result (λ key. self.new.key ≡ Some key.now) }
        ensures same { IfSome result (λ key. Agrees self.old.key key.now) }
        ensures placed { self.new.placed ≡ self.old.placed }
        ensures none { IfNone result ((self.new ≡ self.old) × (self.old.key ≡ None)) }
    {
        let key = place.get_as(&mut self.seen)?;
        self.learnt = self.learnt.shown();
        Some(key)
    }

    /// The key that the place is known to hold.
    pub fn known<'a>(&mut self, place: &'a OnceBox<Key>) -> &'a Key
        requires place { self.old.place ≡ cell_name place.now }
        requires known { IsSome self.old.key }
        ensures key { self.old.key ≡ Some result.now }
        ensures unchanged { self.new ≡ self.old }
    {
        match place.get_as(&mut self.seen) {
            Some(key) => key,
            None => unreachable!(),
        }
    }

    // Puts the key at the place if that is free. Gives the key that the place then holds: this one,
    // or one that another lane put there before, in which case this one is dropped.
    fn offer<'a>(&mut self, place: &'a OnceBox<Key>, key: Box<Key>) -> &'a Key
        requires { self.old.place ≡ cell_name place.now }
        ensures place { self.new.place ≡ self.old.place }
        ensures found { self.new.key ≡ Some result.now }
        ensures same { Agrees self.old.key result.now }
        ensures placed { (self.new.placed ≡ self.old.placed) ⊎ (self.new.key ≡ Some key.value) }
    {
        // A refused set also shows which key the place holds.
        match place.set_as(key, &mut self.seen) {
            Ok(()) => self.learnt = Learnt::Placed,
            Err(back) => {
                drop(back);
                self.learnt = self.learnt.shown();
            }
        }
        match place.get_as(&mut self.seen) {
            Some(found) => found,
            None => unreachable!(),
        }
    }

    /// Whether the place holds the key. A free place is first offered a copy of the key, which
    /// takes memory.
    pub fn ask(&mut self, alloc: Global, place: &OnceBox<Key>, key: &Key) -> Result<bool, KeyFault>
        requires { self.old.place ≡ cell_name place.now }
        ensures place { self.new.place ≡ self.old.place }
        ensures known { (k : KeyValue) → self.old.key ≡ Some k → self.new ≡ self.old }
        ensures told { IfOk result (Tells self.new.key key.now) }
        ensures placed { (self.new.placed ≡ self.old.placed) ⊎ (self.new.key ≡ Some key.now) }
        ensures refused { IfErr result (λ e. (e ≡ Memory) × (self.new ≡ self.old) × (self.old.key ≡ None)) }
    {
        if let Some(found) = self.get(place) {
            return Ok(found == key);
        }
        let copy = Box::new(alloc, key.clone()?)?;
        Ok(self.offer(place, copy) == key)
    }

    /// Shows that two entries of one place know the same key, if both know one. Afterwards the
    /// second knows the key, if the first does.
    pub fn agree(&mut self, other: &mut KeyEntry)
        requires { self.old.place ≡ other.old.place }
        ensures key { IfSome other.old.key (Agrees self.old.key) }
        ensures unchanged { self.new ≡ self.old }
        ensures place { other.new.place ≡ other.old.place }
        ensures kept { (k : KeyValue) → other.old.key ≡ Some k → other.new.key ≡ Some k }
        ensures taught { (k : KeyValue) → self.old.key ≡ Some k → other.new.key ≡ Some k }
        ensures placed { other.new.placed ≡ other.old.placed }
    {
        self.seen.compare(other.seen.again());
        if self.learnt.is_known() {
            other.seen = self.seen.again();
            other.learnt = other.learnt.shown();
        }
    }
}
