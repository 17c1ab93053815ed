//! A set of locks, as a test takes it.
use crate::{LockMode, LockNo};
use std::marker::Model;

/// The greatest number of locks: the global one and 63 named ones.
pub(crate) const MAX_LOCKS: usize = 64;

/// A set of locks, each once and in one mode, of a fixed size.
///
/// Contracts see the list of its locks with their modes, in the order of their numbers.
#[derive(Drop)]
pub struct LockSet {
    pub(crate) modes: [Option<LockMode>; MAX_LOCKS],
    /// How many locks there are: the modes behind these are those of no lock.
    pub(crate) locks: usize,
}

impl Model for LockSet {
    ghost use Rattle.std.specs.Prelude.{ℕ, ◌≤◌, List, take};
    ghost use Rattle.ext_locks.specs.declared.event.LockMode.{LockMode};
    ghost use Rattle.ext_locks.specs.Sets.{locks_of};

    ghost Value = { List (ℕ × LockMode) };

    ghost view = { λ s. locks_of (take s.locks s.modes) };

    ghost invariant = { λ s. s.locks ≤ 64 };
}

impl LockSet {
    ghost use Rattle.std.specs.Prelude.{◌≡◌, slice_get};
    ghost use Rattle.ext_locks.specs.Sets.{locks_of};

    /// The mode of each lock, by its number.
    #[inline(always)]
    pub(crate) fn modes(&self) -> &[Option<LockMode>]
        ensures { locks_of result.now ≡ self.now }
    {
        let modes: &[Option<LockMode>] = &self.modes;
        &modes[..self.locks]
    }

    /// The same set.
    pub(crate) fn copied(&self) -> LockSet
        ensures { result ≡ self.now }
    {
        LockSet {
            modes: self.modes,
            locks: self.locks,
        }
    }

    /// The lock at index `i`, from 0, in the order of the locks' numbers, and its mode, or `None`
    /// past the last one.
    pub fn get(&self, i: usize) -> Option<(LockNo, LockMode)>
        ensures { result ≡ slice_get self.now i }
    {
        let modes = self.modes();
        let mut left = i;
        for lock in 0..modes.len() {
            if let Some(mode) = modes[lock] {
                if left == 0 {
                    return Some((lock, mode));
                }
                left -= 1;
            }
        }
        None
    }
}
