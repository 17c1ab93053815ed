//! A lane in the caller's memory.
ghost use Rattle.std.specs.Prelude.{◌≡◌, ◌≢◌, IsSome, IfSome, IfNone, Some, None};
ghost use Rattle.ext_c.specs.Answers.{SeesLegal};

use crate::box_pointer::BoxPointer;
use crate::lane::ExtLane;
use crate::seat::Seat;
use std::alloc::Global;
use std::mem;

/// A lane in the caller's memory, or all zero.
#[repr(C)]
#[derive(Drop)]
pub struct ExtSlot {
    pub state: u64,
    pub lane: ExtLane,
    ghost told: { state ≡ 1 → IsSome lane.seat },
}

impl ExtSlot {
    /// Takes out the lane's seat, and leaves the slot empty until it is given back.
    #[inline(always)]
    pub(crate) fn take(&mut self, alloc: Global) -> Option<Box<Seat>>
        ensures taken { IfSome result (λ b. self.old.lane.seat ≡ Some b.value) }
        ensures empty { IfSome result (λ _. self.new.lane.seat ≡ None) }
        ensures emptied { IfSome result (λ _. self.new.state ≡ 0) }
        ensures none { IfNone result (self.new ≡ self.old) }
        ensures missing { IfNone result (self.old.state ≢ 1) }
    {
        if self.state != 1 {
            return None;
        }
        let empty = ExtSlot {
            state: 0,
            lane: ExtLane::gone(),
        };
        let ExtSlot { state: _, lane } = mem::replace(self, empty);
        Some(lane.into_pointer(alloc).into_box())
    }

    /// Gives the seat to the slot.
    #[inline(always)]
    pub(crate) fn give(&mut self, seat: Box<Seat>)
        ensures state { self.new.state ≡ 1 }
        ensures seat { self.new.lane.seat ≡ Some seat.value }
        ensures legal { SeesLegal seat.value }
    {
        seat.lane.tell_proof();
        *self = ExtSlot {
            state: 1,
            lane: ExtLane::of(BoxPointer::of(seat)),
        };
    }
}
