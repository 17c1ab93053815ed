//! A note of the value of one number.
ghost use Rattle.std.specs.Prelude.{◌≡◌};

use once_cell::race;
use std::marker::Model;

/// Shows that a number has a value, and which one. The calls of `Values` that place or show a value
/// make it. It holds no copy of the value.
#[derive(Drop)]
pub struct Note<V> {
    pub(crate) number: u32,
    pub(crate) seen: race::Note<V>,
}

impl<V> Model for Note<V> {
    ghost use Rattle.std.specs.Prelude.{IsSome};
    ghost use Rattle.ext_values.specs.Slots.{Shown};

    ghost Value = { Shown V };

    ghost view = { λ n. record { number = n.number; slot = n.seen.cell; value = n.seen.known } };

    ghost invariant = { λ n. IsSome n.seen.known };
}

impl<V> Note<V> {
    /// The number whose value the note shows, from 1.
    pub fn number(&self) -> u32
        ensures { result ≡ self.now.number }
    {
        self.number
    }
}
