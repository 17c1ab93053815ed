//! The directory, which numbers declared keys.
ghost use Rattle.std.specs.Prelude.{ℕ, true, ◌⊎◌, ◌≡◌, ◌+◌, ◌*◌, ◌<◌, ◌≤◌, ◌++◌, ◌∷◌, [], ◌↔◌, Some, None, Ok, Err, IfOk, IfErr, IfSome, OnOk, OnErr, Contains, length};
ghost use Rattle.ext_tree.specs.Keys.{HasNumber, AreDifferent};
ghost use Rattle.ext_tree.specs.declared.fault.TreeFault.TheVariants as fault;

use crate::{Key, TreeFault};
use ext_model::{CellNo, ContextNo, KeyNo};
use indexmap::IndexSet;
use std::alloc::Global;
use std::marker::Model;

/// The declared keys, at most 1,024, in the order of their numbers, which begin at 0.
///
/// A directory has one owner: `declare` borrows it mutably. If several threads number keys, use
/// `KeyPlaces`.
#[derive(Drop)]
pub struct Directory {
    keys: IndexSet<Key>,
}

impl Model for Directory {
    ghost use Rattle.std.specs.Prelude.{List, ◌≤◌, length};
    ghost use Rattle.ext_tree.specs.Keys.{KeyValue, AreDifferent};

    ghost Value = { List KeyValue };

    ghost view = { λ d. d.keys.keys };

    ghost invariant = { λ d. (length d.keys.keys ≤ 1024) × AreDifferent d.keys.keys };
}

impl Directory {
    /// A directory without keys. The allocator is for later calls.
    pub fn new(alloc: Global) -> Directory
        ensures { result ≡ [] }
    {
        Directory {
            keys: IndexSet::new(alloc),
        }
    }

    /// Declares the key, one of at most `most`, and answers its number: the one that it had before,
    /// else the next one. `most` is at most 1,024. May take memory, for a new key only.
    ///
    /// Refused, in this order, as `TooMany` if `most` other keys are declared, and as `Memory`. A
    /// refused call drops the key and changes nothing.
    pub fn declare(&mut self, key: Key, most: usize) -> Result<KeyNo, TreeFault>
        requires most { most ≤ 1024 }
        ensures number { IfOk result (HasNumber self.new key) }
        ensures again { (number : ℕ) → HasNumber self.old key number → (result ≡ Ok number) × (self.new ≡ self.old) }
        ensures added { IfOk result (λ number. ¬ (Contains self.old key) →
            (number ≡ length self.old) × (self.new ≡ self.old ++ key ∷ [])) }
        ensures full { (result ≡ Err fault.TooMany) ↔ (¬ (Contains self.old key) × (most ≤ length self.old)) }
        ensures memory { result ≡ Err fault.Memory → ¬ (Contains self.old key) × (length self.old < most) }
        ensures refusal { IfErr result (λ e. (e ≡ fault.TooMany) ⊎ (e ≡ fault.Memory)) }
        ensures unchanged { OnErr result (self.new ≡ self.old) }
    {
        if let Some(number) = self.number_of(&key) {
            return Ok(number);
        }
        let number = self.keys.len();
        if number >= most {
            return Err(TreeFault::TooMany);
        }
        self.keys.insert(key)?;
        Ok(number)
    }

    /// The number of the key, or `None` if it was not declared.
    pub fn number_of(&self, key: &Key) -> Option<KeyNo>
        ensures number { IfSome result (HasNumber self.now key.now) }
        ensures found { (number : ℕ) → HasNumber self.now key.now number → result ≡ Some number }
        ensures absent { (result ≡ None) ↔ ¬ (Contains self.now key.now) }
    {
        self.keys.get_index_of(key)
    }

    /// The declared key of this number, which must be a declared key's.
    pub fn key(&self, number: KeyNo) -> &Key
        requires number { number < length self.now }
        ensures key { HasNumber self.now result.now number }
    {
        &self.keys.as_slice()[number]
    }

    /// How many keys were declared: 0 to 1,024.
    pub fn len(&self) -> usize
        ensures count { result ≡ length self.now }
        ensures small { result ≤ 1024 }
        ensures different { AreDifferent self.now }
    {
        self.keys.len()
    }

    /// Whether no key was declared.
    pub fn is_empty(&self) -> bool
        ensures { result ≡ true ↔ (self.now ≡ []) }
    {
        self.keys.is_empty()
    }

    /// The cell of a context, 0 to 65,535, and a declared key: the context times the number of
    /// keys, plus the key. Different pairs have different cells. Declaring a further key changes
    /// the cells.
    pub fn cell(&self, context: ContextNo, key: KeyNo) -> CellNo
        requires context { context < 65536 }
        requires key { key < length self.now }
        ensures cell { result ≡ context * length self.now + key }
        ensures within { result < 65536 * length self.now }
    {
        context * self.len() + key
    }
}
