//! The number of a kept value, which can be stored.
ghost use Rattle.std.specs.Prelude.{◌≡◌, ◌≤◌};
ghost use Rattle.ext_store.specs.LaneCalls.{with_kept};

use crate::Refusal;
use std::marker::Model;

/// The number of a value that a lane has kept: one `put` of this lane stores it, and no other call.
/// If it is dropped, its value can be found by its number alone. In contracts it is the number.
#[derive(Debug, Drop)]
pub struct Kept {
    pub(crate) number: u32,
}

impl Model for Kept {
    ghost use Rattle.std.specs.Prelude.{ℕ, ◌≤◌};

    ghost Value = { ℕ };

    ghost view = { λ k. k.number };

    ghost invariant = { λ k. 1 ≤ k.number };
}

impl Kept {
    /// Answers the number, from 1.
    pub fn number(&self) -> u32
        ensures number { result ≡ self.now }
        ensures from_one { 1 ≤ result }
    {
        self.number
    }

    // What a put answers after this answer of the cells: a refused one hands the kept number back.
    pub(crate) fn unless_stored(
        self,
        stored: Result<Option<u32>, Refusal>,
    ) -> Result<Option<u32>, (Kept, Refusal)>
        ensures { result ≡ with_kept self stored }
    {
        match stored {
            Ok(stood) => Ok(stood),
            Err(why) => Err((self, why)),
        }
    }
}
