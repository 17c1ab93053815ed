//! The walk over the places for keys, and where it may begin.
ghost use Rattle.std.specs.Prelude.{◌≡◌, IfErr, IfOk, IsSome, Some, length, map};
ghost use Rattle.once_cell.specs.Once.{cell_name};
ghost use Rattle.ext_tree.specs.Keys.{AgreeBelow, AreKeyNotesOf, IsKeyFault, IsKeyNumber, KeepsKeys, PassedBefore, PlacesNone, PlacesOnly, key_at, no_key_known, key_places_of};
ghost use Rattle.ext_tree.specs.InnerIndexing.{AreNotes};

use crate::key_entry::KeyEntry;
use crate::key_index::KeyIndex;
use crate::{Key, KeyFault};
use ext_model::KeyNo;
use once_cell::race::OnceBox;
use std::alloc::{AllocError, Global};

/// The number of the key: by the index, else by the walk.
pub(crate) fn number_of(
    alloc: Global,
    places: &[OnceBox<Key>],
    entries: &mut [KeyEntry],
    index: &mut KeyIndex,
    key: &Key,
) -> Result<KeyNo, KeyFault>
    requires places { AreKeyNotesOf (map cell_name places.now) entries.old }
    requires notes { AreNotes entries.old index.old.hints.items index.old.next }
    ensures notes { AreNotes entries.new index.new.hints.items index.new.next }
    ensures kept { KeepsKeys entries.old entries.new }
    ensures placed { PlacesOnly key.now entries.old entries.new }
    ensures number { IfOk result (IsKeyNumber entries.new key.now) }
    ensures refused { IfErr result (IsKeyFault entries.new key.now) }
{
    match index.search(places, entries, key) {
        Ok(number) => Ok(number),
        Err(_) => walk(alloc, places, entries, index, key),
    }
}

/// Tries the places from the index's next one on, in order, until one holds the key: one that is
/// known to hold another is passed, and a free one is offered a copy of the key, which takes
/// memory. All of them are added to the index, so no later walk reads them again.
fn walk(
    alloc: Global,
    places: &[OnceBox<Key>],
    entries: &mut [KeyEntry],
    index: &mut KeyIndex,
    key: &Key,
) -> Result<KeyNo, KeyFault>
    requires places { AreKeyNotesOf (map cell_name places.now) entries.old }
    requires notes { AreNotes entries.old index.old.hints.items index.old.next }
    requires passed { PassedBefore entries.old key.now index.old.next }
    ensures notes { AreNotes entries.new index.new.hints.items index.new.next }
    ensures kept { KeepsKeys entries.old entries.new }
    ensures placed { PlacesOnly key.now entries.old entries.new }
    ensures number { IfOk result (IsKeyNumber entries.new key.now) }
    ensures refused { IfErr result (IsKeyFault entries.new key.now) }
{
    for number in index.next..places.len() {
        let is_here = entries[number].ask(alloc, &places[number], key)?;
        index.add(places, entries, number);
        if is_here {
            return Ok(number);
        }
    }
    Err(KeyFault::DirectoryFull)
}

/// The key of the place with this number; it is known.
pub(crate) fn known_key<'a>(
    places: &'a [OnceBox<Key>],
    entries: &mut [KeyEntry],
    number: KeyNo,
) -> &'a Key
    requires places { AreKeyNotesOf (map cell_name places.now) entries.old }
    requires known { IsSome (key_at entries.old number) }
    ensures key { key_at entries.old number ≡ Some result.now }
    ensures unchanged { entries.new ≡ entries.old }
{
    entries[number].known(&places[number])
}

/// Shows that entries of the same places know the same key of each, if both know one. Afterwards
/// the second ones know what the first ones know.
pub(crate) fn agree_all(entries: &mut [KeyEntry], others: &mut [KeyEntry])
    requires { key_places_of entries.old ≡ key_places_of others.old }
    ensures agree { AgreeBelow entries.old others.old (length entries.old) }
    ensures unchanged { entries.new ≡ entries.old }
    ensures kept { KeepsKeys others.old others.new }
    ensures taught { KeepsKeys entries.old others.new }
    ensures placed { PlacesNone others.old others.new }
{
    for index in 0..entries.len() {
        entries[index].agree(&mut others[index]);
    }
}

/// An entry for each of the places, with nothing known of it. Takes memory.
pub(crate) fn entries_of(
    alloc: Global,
    places: &[OnceBox<Key>],
) -> Result<Vec<KeyEntry>, AllocError>
    ensures { IfOk result (λ entries. entries.items ≡ no_key_known (map cell_name places.now)) }
{
    let mut entries = Vec::with_capacity(alloc, places.len())?;
    for place in places {
        entries.push_reserved(KeyEntry::unknown(place));
    }
    Ok(entries)
}
