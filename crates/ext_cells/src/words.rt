//! The words that one collect gives.
ghost use Rattle.std.specs.Prelude.{◌≡◌, ◌↔◌, IsTrue, ◌<◌, [], ◌∷◌, ◌++◌, length, slice_index};

use std::marker::Model;

/// The words of at most 16 cells as they stood together at one point, in the order in which the
/// cells were named. Contracts see the list of the words.
#[derive(Drop)]
pub struct Words {
    words: [u64; 16],
    len: usize,
}

impl Model for Words {
    ghost use Rattle.std.specs.Prelude.{ℕ, List, take, ◌≤◌};

    ghost Value = { List ℕ };

    ghost view = { λ s. take s.len s.words };

    ghost invariant = { λ s. s.len ≤ 16 };
}

impl Words {
    /// The word of the cell that was named at index `i`, from 0, below the number of cells. `parts`
    /// takes it apart.
    pub fn get(&self, i: usize) -> u64
        requires { i < length self.now }
        ensures { result ≡ slice_index self.now i }
    {
        let words = &self.words[..self.len];
        words[i]
    }

    pub(crate) fn new() -> Words
        ensures { result ≡ [] }
    {
        Words {
            words: [0; 16],
            len: 0,
        }
    }

    pub(crate) fn push(&mut self, word: u64)
        requires { length self.old < 16 }
        ensures { self.new ≡ self.old ++ word ∷ [] }
    {
        self.words[self.len] = word;
        self.len += 1;
    }

    /// Whether these are the same words in the same order.
    pub(crate) fn same(&self, other: &Words) -> bool
        ensures { IsTrue result ↔ (self.now ≡ other.now) }
    {
        self.words[..self.len] == other.words[..other.len]
    }
}
