//! A list of numbers, the greatest first.
ghost use Rattle.std.specs.Prelude.{ℕ, ◌≡◌, ◌≤◌, ◌<◌, ◌+◌, [], length, slice_index, EachIndex, IfNone, IfSome};
ghost use Rattle.ext_model.specs.Closing.{IsFalling, put_in, put_in_kept};

use arrayvec::ArrayVec;
use std::marker::Model;

/// The numbers that the seals of a context keep: at most so many, the greatest first, without
/// repetition. They are stored inline, and a new list costs the more the more it has room for.
///
/// JUnit 5 User Guide, section "Keeping State in Extensions": the values of a context are closed in
/// the inverse order in which they were added.
#[derive(Drop)]
pub struct FallingNumbers<const ROOM: usize> {
    numbers: ArrayVec<u32, ROOM>,
}

impl<const ROOM: usize> Model for FallingNumbers<ROOM> {
    ghost use Rattle.std.specs.Prelude.{ℕ, List};
    ghost use Rattle.ext_model.specs.Closing.{IsFalling};

    ghost Value = { List ℕ };

    ghost view = { λ n. n.numbers.items };

    ghost invariant = { λ n. IsFalling n.numbers.items };
}

impl<const ROOM: usize> FallingNumbers<ROOM> {
    /// Makes an empty list of numbers.
    pub fn new() -> FallingNumbers<ROOM>
        ensures { result ≡ [] }
    {
        FallingNumbers {
            numbers: ArrayVec::new(),
        }
    }

    /// The numbers, the greatest first.
    pub fn as_slice(&self) -> &[u32]
        ensures numbers { result.now ≡ self.now }
        ensures falling { IsFalling result.now }
        ensures few { length result.now ≤ ROOM }
    {
        self.numbers.as_slice()
    }

    /// Inserts the number before the first smaller one, unless it is already there. There must be
    /// room for one more.
    pub fn put_in(&mut self, number: u32)
        requires room { length self.old < ROOM }
        ensures numbers { self.new ≡ put_in number self.old }
        ensures few { length self.new ≤ length self.old + 1 }
    {
        let Some(at) = index_for(self.numbers.as_slice(), number) else {
            self.numbers.push(number);
            return;
        };
        if self.numbers.as_slice()[at] < number {
            self.numbers.insert(at, number);
        }
    }

    /// Inserts the number that a seal keeps, if it keeps one. There must be room for one more.
    pub fn put_in_kept(&mut self, kept: Option<u32>)
        requires room { length self.old < ROOM }
        ensures numbers { self.new ≡ put_in_kept kept self.old }
        ensures few { length self.new ≤ length self.old + 1 }
    {
        if let Some(number) = kept {
            self.put_in(number);
        }
    }
}

// The index of the first number that is not greater than this one.
fn index_for(numbers: &[u32], number: u32) -> Option<usize>
    ensures within { IfSome result (λ at. at < length numbers.now) }
    ensures not_greater { IfSome result (λ at. slice_index numbers.now at ≤ number) }
    ensures greater { IfSome result (λ at. (k : ℕ) → k < at → number < slice_index numbers.now k) }
    ensures none { IfNone result (EachIndex numbers.now (λ k. number < slice_index numbers.now k)) }
{
    numbers.iter().position(|n| *n <= number)
}
