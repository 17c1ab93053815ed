//! Flags that take one bit each.
ghost use Rattle.std.specs.Prelude.{◌≡◌, ◌<◌, IfOk, false, length, replicate, slice_index_or, slice_set, true};

use std::alloc::{AllocError, Global};
use std::marker::Model;
use std::mem::size_of;

// How many flags a word has.
const WORD_FLAGS: usize = 64;

const _: () = prove!(size_of::<u64>() * 8 == WORD_FLAGS);

/// A fixed number of flags, in order, with indices from 0. Takes one bit per flag, rounded up to 8
/// bytes.
#[derive(Drop)]
pub(crate) struct FlagBits {
    words: Vec<u64>,
    count: usize,
}

impl Model for FlagBits {
    ghost use Rattle.std.specs.Prelude.{◌≡◌, Bool, List, length};
    ghost use Rattle.std.specs.Int.{div_ceil};
    ghost use Rattle.ext_values.specs.InnerFlags.{flags_of};

    ghost Value = { List Bool };

    ghost view = { λ f. flags_of f.count f.words.items };

    // No more words than the flags need.
    ghost invariant = { λ f. length f.words.items ≡ div_ceil f.count 64 };
}

impl FlagBits {
    /// `count` flags, none of which is set. Takes memory, unless `count` is 0.
    ///
    /// Refused only if its one allocation fails.
    pub fn new(alloc: Global, count: usize) -> Result<FlagBits, AllocError>
        ensures { IfOk result (λ f. f ≡ replicate count false) }
    {
        let words = vec![in alloc; 0u64; count.div_ceil(WORD_FLAGS)]?;
        Ok(FlagBits { words, count })
    }

    /// How many flags there are.
    pub fn len(&self) -> usize
        ensures { result ≡ length self.now }
    {
        self.count
    }

    /// Whether the flag is set.
    pub fn get(&self, index: usize) -> bool
        requires { index < length self.now }
        ensures { result ≡ slice_index_or self.now index false }
    {
        (self.words[index / WORD_FLAGS] >> (index % WORD_FLAGS)) & 1 == 1
    }

    /// Sets the flag, and no other.
    pub fn set(&mut self, index: usize)
        requires { index < length self.old }
        ensures { self.new ≡ slice_set self.old index true }
    {
        self.words[index / WORD_FLAGS] |= 1 << (index % WORD_FLAGS);
    }
}
