//! Sets of texts under keys.
ghost use Rattle.std.specs.Prelude.{ℕ, ◌≡◌, ◌==◌, ◌&&◌, ◌||◌, false, List, map, IfOk, OnOk};
ghost use Rattle.std.specs.Str.{bytes_eq};
ghost use Rattle.ext_lint.specs.InnerLists.{said_view};
ghost use Rattle.ext_lint.specs.Said.{is_said};

use crate::said::Said;
use ext_model::KeyNo;
use std::alloc::{AllocError, Global};
use std::collections::BTreeSet;

/// Texts under keys, found by their order and not by a hash: the author of a plan chooses its texts,
/// and could choose many with the same hash.
#[derive(Drop)]
pub(crate) struct SaidSet<'p> {
    pairs: BTreeSet<(KeyNo, &'p str)>,
}

impl<'p> SaidSet<'p> {
    ghost use Rattle.ext_lint.specs.InnerLists.{has};

    /// Makes an empty set.
    pub(crate) fn new(alloc: Global) -> SaidSet<'p>
        ensures { (key : ℕ) (text : List ℕ) → has result key text ≡ false }
    {
        SaidSet {
            pairs: BTreeSet::new(alloc),
        }
    }

    /// Makes the set of the texts that are said. Takes memory for it.
    pub(crate) fn of(alloc: Global, said: &[Said<'p>]) -> Result<SaidSet<'p>, AllocError>
        ensures { IfOk result (λ set. (key : ℕ) (text : List ℕ) → has set key text ≡ is_said (map said_view said.now) key text) }
    {
        let mut set = SaidSet::new(alloc);
        for one in said {
            set.add_said(one)?;
        }
        Ok(set)
    }

    /// Adds what is said.
    fn add_said(&mut self, said: &Said<'p>) -> Result<(), AllocError>
        ensures { OnOk result ((key : ℕ) (text : List ℕ) → has self.new key text ≡ ((said.now.key == key) && bytes_eq said.now.text.now text || has self.old key text)) }
    {
        self.add(said.key, said.text)
    }

    /// Tests whether the set has this text under this key.
    pub(crate) fn has(&self, key: KeyNo, text: &'p str) -> bool
        ensures { result ≡ has self.now key text.now }
    {
        self.pairs.contains(&(key, text))
    }

    /// Adds this text under this key.
    pub(crate) fn add(&mut self, key: KeyNo, text: &'p str) -> Result<(), AllocError>
        ensures { OnOk result ((other : ℕ) (word : List ℕ) → has self.new other word ≡ ((key == other) && bytes_eq text.now word || has self.old other word)) }
    {
        self.pairs.insert((key, text))?;
        Ok(())
    }
}
