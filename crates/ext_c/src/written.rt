//! What a close writes out.
ghost use Rattle.std.specs.Prelude.{◌≡◌, ◌<◌, ◌≤◌, ◌∷◌, ◌++◌, [], drop, length, take};

use crate::value::ExtValue;
use arrayvec::ArrayVec;
use std::marker::Model;

/// The values of a context that are to be closed, in the order of the close: one a place at most. A
/// new list costs the more the more it has room for.
#[derive(Drop)]
pub struct Written<const ROOM: usize> {
    values: ArrayVec<ExtValue, ROOM>,
    // How many values there are at most.
    room: usize,
    pub context: usize,
}

impl<const ROOM: usize> Model for Written<ROOM> {
    ghost use Rattle.std.specs.Prelude.{◌≤◌, length};
    ghost use Rattle.ext_c.specs.Writing.{Writings};

    ghost Value = { Writings };

    ghost view = { λ w. record { context = w.context; room = w.room; values = w.values.items } };

    ghost invariant = { λ w. (length w.values.items ≤ w.room) × (w.room ≤ ROOM) };
}

impl<const ROOM: usize> Written<ROOM> {
    pub(crate) fn none(context: usize, room: usize) -> Written<ROOM>
        requires { room ≤ ROOM }
        ensures values { result.values ≡ [] }
        ensures context { result.context ≡ context }
        ensures room { result.room ≡ room }
    {
        Written {
            values: ArrayVec::new(),
            room,
            context,
        }
    }

    // Adds the value while there is room.
    pub(crate) fn add(&mut self, value: ExtValue)
        ensures context { self.new.context ≡ self.old.context }
        ensures room { self.new.room ≡ self.old.room }
        ensures added { length self.old.values < self.old.room → self.new.values ≡ self.old.values ++ value ∷ [] }
    {
        if self.values.len() < self.room {
            self.values.push(value);
        }
    }

    // Writes the values to the front of the list, and answers their count.
    pub(crate) fn copy_to(&self, values: &mut [ExtValue]) -> usize
        requires room { self.now.room ≤ length values.old }
        ensures count { result ≡ length self.now.values }
        ensures copied { take result values.new ≡ self.now.values }
        ensures rest { drop result values.new ≡ drop result values.old }
    {
        let own = self.values.as_slice();
        let (front, _) = values.split_at_mut(own.len());
        front.copy_from_slice(own);
        own.len()
    }
}
