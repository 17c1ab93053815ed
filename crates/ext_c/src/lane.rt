//! A lane as C has it: a pointer, or nothing.
ghost use Rattle.std.specs.Prelude.{◌≡◌, IsSome, Option, None, Some};
ghost use Rattle.ext_c.specs.declared.seat.Seat.{Seat};
ghost use Rattle.ext_c.specs.Held.{held};

use crate::box_pointer::BoxPointer;
use crate::seat::Seat;
use std::alloc::Global;
use std::marker::Model;
use std::ptr::null_mut;

/// The pointer to a lane's seat, or null. In contracts it has the seat, if there is one.
#[repr(C)]
#[derive(Drop)]
pub struct ExtLane {
    at: *mut u8,
    pub ghost seat: { Option Seat },
}

impl Model for ExtLane {
    ghost also_owns = { λ h. held h.seat h.at };
}

impl ExtLane {
    pub(crate) fn gone() -> ExtLane
        ensures { result.seat ≡ None }
    {
        ExtLane { at: null_mut() }
    }

    pub(crate) fn of(pointer: BoxPointer<Seat, Global>) -> ExtLane
        ensures { result.seat ≡ Some pointer.value }
    {
        let BoxPointer { at, alloc: _ } = pointer;
        ExtLane { at: at as *mut u8 }
    }

    pub(crate) fn into_pointer(self, alloc: Global) -> BoxPointer<Seat, Global>
        requires { IsSome self.seat }
        ensures { Some result.value ≡ self.seat }
    {
        let ExtLane { at } = self;
        BoxPointer {
            at: at as *mut Seat,
            alloc,
        }
    }
}
