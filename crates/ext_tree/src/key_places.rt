//! Places for keys, which number them during a run.
ghost use Rattle.std.specs.Prelude.{ℕ, ◌≡◌, ◌+◌, ◌*◌, ◌<◌, ◌≤◌, IfErr, IfOk, IsSome, Ok, Some, length};
ghost use Rattle.ext_tree.specs.Keys.{KeyValue, AreKeyNotesOf, IsKeyFault, IsKeyNumber, KeepsKeys, PlacesNone, PlacesOnly, OneKey, OneNumber, key_at, no_key_known};
ghost use Rattle.ext_tree.specs.declared.fault.TreeFault.TheVariants as fault;

use crate::key_notes::KeyNotes;
use crate::key_walk::{agree_all, entries_of, known_key, number_of};
use crate::{Key, KeyFault, TreeFault};
use ext_model::{CellNo, ContextNo, KeyNo};
use once_cell::race::OnceBox;
use std::alloc::Global;
use std::marker::Model;

/// The directory of keys that are numbered during a run: up to 1,024 places, each set at most once,
/// which hold their keys until all are dropped. The number of a key is that of its place, from 0
/// on.
///
/// Several threads share it, each with `KeyNotes` of its own. Any of them may number any key at any
/// time, without a lock, and all get the same number for the same key. If one owner declares all
/// keys, a `Directory` suffices. Contracts see the list of the names of its places.
#[derive(Drop)]
pub struct KeyPlaces {
    places: Vec<OnceBox<Key>>,
    alloc: Global,
}

impl Model for KeyPlaces {
    ghost use Rattle.std.specs.Prelude.{ℕ, ◌≤◌, List, length, map};
    ghost use Rattle.once_cell.specs.Once.{cell_name};

    ghost Value = { List ℕ };

    ghost view = { λ p. map cell_name p.places.items };

    ghost invariant = { λ p. length p.places.items ≤ 1024 };
}

impl KeyPlaces {
    /// Makes so many free places, 0 to 1,024. Takes memory for all of them, one pointer each; the
    /// allocator is kept, for the keys and the notes.
    ///
    /// Refused as `Memory`, only if that one allocation fails.
    pub fn new(alloc: Global, count: usize) -> Result<KeyPlaces, TreeFault>
        requires count { count ≤ 1024 }
        ensures places { IfOk result (λ p. length p ≡ count) }
        ensures memory { IfErr result (λ e. e ≡ fault.Memory) }
    {
        let mut places = Vec::with_capacity(alloc, count)?;
        for _ in 0..count {
            places.push_reserved(OnceBox::new(alloc));
        }
        Ok(KeyPlaces { places, alloc })
    }

    /// How many places there are: 0 to 1,024.
    pub fn len(&self) -> usize
        ensures count { result ≡ length self.now }
        ensures small { result ≤ 1024 }
    {
        self.places.len()
    }

    /// Makes notes of these places for one lane, which know no key yet, whatever the places hold.
    /// Takes memory: two allocations, five bytes for each place.
    ///
    /// `Memory` is its only fault.
    pub fn notes(&self) -> Result<KeyNotes, TreeFault>
        ensures nothing { IfOk result (λ notes. notes ≡ no_key_known self.now) }
        ensures of { IfOk result (λ notes. AreKeyNotesOf self.now notes) }
        ensures memory { IfErr result (λ e. e ≡ fault.Memory) }
    {
        let entries = entries_of(self.alloc, self.places.as_slice())?;
        Ok(KeyNotes::of(self.alloc, entries)?)
    }

    /// Answers the number of the key, from now on: that of the first place that holds it. The notes
    /// must be of these places.
    ///
    /// Among the places that these notes passed before, the key is looked up by its hash: one load
    /// and one comparison, and a few more if hashes collide. If it is not there, the places after
    /// those are tried in order: one that holds another key is passed, once for all keys, and a
    /// free one is offered a copy of the key. Memory is taken for copies only: none if a place
    /// already holds the key, else one copy, and one more for each place that another thread sets
    /// in between.
    ///
    /// A key that has a number in the notes is never refused. Any other is refused as `Memory` if
    /// it cannot be copied, at the first place that is not known to hold a key, and as
    /// `DirectoryFull` if all places are known to hold other keys; `Unplaced` does not come.
    /// These notes set no place but that of the key's number, so a refused call sets none. They
    /// still know what they knew, and may know the keys of further places.
    pub fn number(&self, notes: &mut KeyNotes, key: &Key) -> Result<KeyNo, KeyFault>
        requires { AreKeyNotesOf self.now notes.old }
        ensures number { IfOk result (IsKeyNumber notes.new key.now) }
        ensures within { IfOk result (λ number. number < length self.now) }
        ensures again { (number : ℕ) → IsKeyNumber notes.old key.now number → result ≡ Ok number }
        ensures refused { IfErr result (IsKeyFault notes.new key.now) }
        ensures kept { KeepsKeys notes.old notes.new }
        ensures placed { PlacesOnly key.now notes.old notes.new }
        ensures of { AreKeyNotesOf self.now notes.new }
    {
        let entries = notes.entries.as_mut_slice();
        match notes.index.first(self.places.as_slice(), entries, key) {
            Some(number) => Ok(number),
            None => self.searched(notes, key),
        }
    }

    // Answers the number of a key that the first slot of the index doesn't have. A function of its
    // own, so that `number` costs less where that slot has it.
    #[cold]
    #[inline(never)]
    fn searched(&self, notes: &mut KeyNotes, key: &Key) -> Result<KeyNo, KeyFault>
        requires { AreKeyNotesOf self.now notes.old }
        ensures number { IfOk result (IsKeyNumber notes.new key.now) }
        ensures within { IfOk result (λ number. number < length self.now) }
        ensures again { (number : ℕ) → IsKeyNumber notes.old key.now number → result ≡ Ok number }
        ensures refused { IfErr result (IsKeyFault notes.new key.now) }
        ensures kept { KeepsKeys notes.old notes.new }
        ensures placed { PlacesOnly key.now notes.old notes.new }
        ensures of { AreKeyNotesOf self.now notes.new }
    {
        number_of(
            self.alloc,
            self.places.as_slice(),
            notes.entries.as_mut_slice(),
            &mut notes.index,
            key,
        )
    }

    /// The key of this number, which the notes must know (`KeyNotes::knows`). The notes must be of
    /// these places, and stay as they were.
    pub fn key<'a>(&'a self, notes: &mut KeyNotes, number: KeyNo) -> &'a Key
        requires of { AreKeyNotesOf self.now notes.old }
        requires known { IsSome (key_at notes.old number) }
        ensures key { key_at notes.old number ≡ Some result.now }
        ensures unchanged { notes.new ≡ notes.old }
    {
        known_key(self.places.as_slice(), notes.entries.as_mut_slice(), number)
    }

    /// Shows that a key that both notes know has the same number in both, and a number the same
    /// key. Afterwards the second notes also know what the first know, and the first are unchanged:
    /// of lanes that agree one after another, the last knows all keys. Both must be of these
    /// places.
    pub fn agree(&self, notes: &mut KeyNotes, others: &mut KeyNotes)
        requires notes { AreKeyNotesOf self.now notes.old }
        requires others { AreKeyNotesOf self.now others.old }
        ensures number { OneNumber notes.old others.old }
        ensures key { OneKey notes.old others.old }
        ensures unchanged { notes.new ≡ notes.old }
        ensures kept { KeepsKeys others.old others.new }
        ensures taught { KeepsKeys notes.old others.new }
        ensures placed { PlacesNone others.old others.new }
        ensures of { AreKeyNotesOf self.now others.new }
    {
        agree_all(notes.entries.as_mut_slice(), others.entries.as_mut_slice());
    }

    /// The cell of a context, 0 to 65,535, and the number of a place: the context times the number
    /// of places, plus the key. Different pairs have different cells.
    pub fn cell(&self, context: ContextNo, key: KeyNo) -> CellNo
        requires context { context < 65536 }
        requires key { key < length self.now }
        ensures cell { result ≡ context * length self.now + key }
        ensures within { result < 65536 * length self.now }
    {
        context * self.len() + key
    }
}
