//! What one lane knows of the places for keys.
ghost use Rattle.std.specs.Prelude.{◌≡◌, ◌≤◌, IfOk, is_some, length};
ghost use Rattle.ext_tree.specs.Keys.{key_at, placed_at};

use crate::key_entry::KeyEntry;
use crate::key_index::KeyIndex;
use ext_model::KeyNo;
use std::alloc::{AllocError, Global};
use std::marker::Model;

/// What one lane knows of the keys of a `KeyPlaces`: those that it numbered, and those that it was
/// shown. A known key stays known. `KeyPlaces::notes` makes them. They take five bytes for each
/// place, and hold no copy of a key.
#[derive(Drop)]
pub struct KeyNotes {
    pub(crate) entries: Vec<KeyEntry>,
    pub(crate) index: KeyIndex,
}

impl Model for KeyNotes {
    ghost use Rattle.std.specs.Prelude.{List};
    ghost use Rattle.ext_tree.specs.Keys.{KnownPlace};
    ghost use Rattle.ext_tree.specs.InnerIndexing.{AreNotes};

    ghost Value = { List KnownPlace };

    ghost view = { λ n. n.entries.items };

    ghost invariant = { λ n. AreNotes n.entries.items n.index.hints.items n.index.next };
}

impl KeyNotes {
    /// Whether the key of this number is known: this lane numbered it, or was shown it. False past
    /// the last place.
    pub fn knows(&self, number: KeyNo) -> bool
        ensures { result ≡ is_some (key_at self.now number) }
    {
        number < self.entries.len() && self.entries[number].is_known()
    }

    /// Whether this lane put the key of this number at its place. False if another did, and past
    /// the last place.
    pub fn has_placed(&self, number: KeyNo) -> bool
        ensures { result ≡ placed_at self.now number }
    {
        number < self.entries.len() && self.entries[number].is_placed()
    }

    // Notes with these entries, and an index of no keys, which takes memory.
    pub(crate) fn of(alloc: Global, entries: Vec<KeyEntry>) -> Result<KeyNotes, AllocError>
        requires { length entries.items ≤ 1024 }
        ensures { IfOk result (λ notes. notes ≡ entries.items) }
    {
        let index = KeyIndex::new(alloc, entries.len())?;
        Ok(KeyNotes { entries, index })
    }
}
