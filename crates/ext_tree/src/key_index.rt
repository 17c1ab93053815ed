//! Where a lane finds the numbers of the keys that it knows.
ghost use Rattle.std.specs.Prelude.{◌≡◌, ◌*◌, ◌<◌, ◌≤◌, IfErr, IfOk, IfSome, IsSome, length, map, replicate};
ghost use Rattle.once_cell.specs.Once.{cell_name};
ghost use Rattle.ext_tree.specs.Keys.{AreKeyNotesOf, IsKeyNumber, PassedBefore, key_at};
ghost use Rattle.ext_tree.specs.InnerIndexing.{AreNotes, Ends, Finds, first_slot};

use crate::Key;
use crate::key_entry::KeyEntry;
use crate::key_walk::known_key;
use ext_model::KeyNo;
use once_cell::race::OnceBox;
use std::alloc::{AllocError, Global};

/// A table of numbers by the hashes of their keys. A search begins at the slot of the hash and goes
/// on from slot to slot, until it finds the key or a free slot.
#[derive(Drop)]
pub(crate) struct KeyIndex {
    // In each slot one more than the number of a known key, or 0.
    pub hints: Vec<u16>,
    // A search finds the keys of all places before this one.
    pub next: usize,
}

impl KeyIndex {
    /// An index of no keys. It has twice as many slots as there are places, so that few keys
    /// collide. Takes memory.
    pub fn new(alloc: Global, places: usize) -> Result<KeyIndex, AllocError>
        requires { places ≤ 1024 }
        ensures hints { IfOk result (λ index. index.hints.items ≡ replicate (2 * places) 0) }
        ensures next { IfOk result (λ index. index.next ≡ 0) }
    {
        let hints = vec![in alloc; 0u16; 2 * places]?;
        Ok(KeyIndex { hints, next: 0 })
    }

    /// The slot at which a search for the key begins.
    #[inline(always)]
    fn first_slot(&self, key: &Key) -> usize
        requires some { 0 < length self.now.hints.items }
        requires few { length self.now.hints.items ≤ 2048 }
        ensures slot { result ≡ first_slot self.now.hints.items key.now }
        ensures within { result < length self.now.hints.items }
    {
        key.short_hash() * self.hints.len() / 65_536
    }

    /// The number of the key, if the search finds it at its first slot, as it mostly does.
    #[inline(always)]
    pub fn first(
        &self,
        places: &[OnceBox<Key>],
        entries: &mut [KeyEntry],
        key: &Key,
    ) -> Option<KeyNo>
        requires places { AreKeyNotesOf (map cell_name places.now) entries.old }
        requires notes { AreNotes entries.old self.now.hints.items self.now.next }
        ensures number { IfSome result (IsKeyNumber entries.old key.now) }
        ensures unchanged { entries.new ≡ entries.old }
    {
        if self.hints.is_empty() {
            return None;
        }
        let hint = self.hints[self.first_slot(key)];
        if hint == 0 {
            return None;
        }
        let number = hint as usize - 1;
        if known_key(places, entries, number) == key {
            return Some(number);
        }
        None
    }

    /// The number of the key, if the search finds it. Else the free slot where the search ended, if
    /// there is one.
    pub fn search(
        &self,
        places: &[OnceBox<Key>],
        entries: &mut [KeyEntry],
        key: &Key,
    ) -> Result<KeyNo, Option<usize>>
        requires places { AreKeyNotesOf (map cell_name places.now) entries.old }
        requires notes { AreNotes entries.old self.now.hints.items self.now.next }
        ensures number { IfOk result (IsKeyNumber entries.old key.now) }
        ensures found { IfOk result (Finds entries.old self.now.hints.items key.now) }
        ensures passed { IfErr result (λ slot. PassedBefore entries.old key.now self.now.next) }
        ensures free { IfErr result (λ slot. IfSome slot (Ends self.now.hints.items key.now)) }
        ensures unchanged { entries.new ≡ entries.old }
    {
        if self.hints.is_empty() {
            return Err(None);
        }
        let first = self.first_slot(key);
        for step in 0..self.hints.len() {
            let slot = (first + step) % self.hints.len();
            let hint = self.hints[slot];
            if hint == 0 {
                return Err(Some(slot));
            }
            let number = hint as usize - 1;
            if known_key(places, entries, number) == key {
                return Ok(number);
            }
        }
        Err(None)
    }

    /// Adds the key of this number, which is known, if it is that of the next place.
    pub fn add(&mut self, places: &[OnceBox<Key>], entries: &mut [KeyEntry], number: KeyNo)
        requires places { AreKeyNotesOf (map cell_name places.now) entries.old }
        requires notes { AreNotes entries.old self.old.hints.items self.old.next }
        requires known { IsSome (key_at entries.old number) }
        ensures notes { AreNotes entries.old self.new.hints.items self.new.next }
        ensures unchanged { entries.new ≡ entries.old }
    {
        if number != self.next {
            return;
        }
        let key = known_key(places, entries, number);
        match self.search(places, entries, key) {
            // An earlier place holds the key.
            Ok(_) => self.next += 1,
            Err(Some(slot)) => {
                self.hints[slot] = number as u16 + 1;
                self.next += 1;
            }
            // No slot is free, so a later walk passes the place again.
            Err(None) => {}
        }
    }
}
