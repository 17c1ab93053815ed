//! The slots of an opening: whether they are empty, and the seats that they get.
ghost use Rattle.std.specs.Prelude.{◌≡◌, ◌↔◌, IsTrue, length};
ghost use Rattle.std.specs.List.{AllZip};
ghost use Rattle.ext_c.specs.Opening.{AreEmpty, IsIn};

use crate::seat::Seat;
use crate::slot::ExtSlot;

/// Whether no slot has a lane.
pub(crate) fn are_empty(slots: &[ExtSlot]) -> bool
    ensures { IsTrue result ↔ AreEmpty slots.now }
{
    for slot in slots {
        if slot.state != 0 {
            return false;
        }
    }
    true
}

/// Gives a seat to each slot, in order.
pub(crate) fn take_seats(slots: &mut [ExtSlot], seats: Vec<Box<Seat>>)
    requires { length slots.old ≡ length seats.items }
    ensures { AllZip IsIn seats.items slots.new }
{
    let mut rest = seats.into_iter();
    for slot in slots.iter_mut() {
        match rest.next() {
            Some(seat) => slot.give(seat),
            None => unreachable!(),
        }
    }
}
