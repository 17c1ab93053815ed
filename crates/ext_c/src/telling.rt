//! What a call reports of the numbers that it met.
ghost use Rattle.std.specs.Prelude.{◌≡◌, None};
ghost use Rattle.ext_c.specs.Answers.{TellsFound, TellsLook, TellsPut, TellsRemove, TellsStanding, TellsStood, TellsUnused};

use crate::code::Code;
use crate::seat::Seat;
use crate::value::ExtValue;
use ext_model::Look;
use ext_store::{Kept, Refusal, Unused};

impl Seat {
    // Reports a value that was found.
    #[inline(always)]
    pub(crate) fn tell_found(&mut self, context: usize, number: u32, told: &mut ExtValue) -> Code
        requires idle { self.old.claim ≡ None }
        ensures store { self.new.store ≡ self.old.store }
        ensures keys { self.new.lane.keys ≡ self.old.lane.keys }
        ensures closers { self.new.closers ≡ self.old.closers }
        ensures claim { self.new.claim ≡ None }
        ensures still { self.new.lane.cells ≡ self.old.lane.cells }
        ensures told { TellsFound context number self.old.lane self.new.lane told.new result }
    {
        if self.tell_value(context, number, told) {
            Code::Done
        } else {
            Code::Unshown
        }
    }

    // Reports a kept fault that was found.
    pub(crate) fn tell_standing(&mut self, context: usize, number: u32, told: &mut ExtValue) -> Code
        requires idle { self.old.claim ≡ None }
        ensures store { self.new.store ≡ self.old.store }
        ensures keys { self.new.lane.keys ≡ self.old.lane.keys }
        ensures closers { self.new.closers ≡ self.old.closers }
        ensures claim { self.new.claim ≡ None }
        ensures still { self.new.lane.cells ≡ self.old.lane.cells }
        ensures told { TellsStanding context number self.old.lane self.new.lane told.new result }
    {
        if self.tell_fault(context, number, told) {
            Code::FaultStands
        } else {
            Code::Unshown
        }
    }

    // Reports what stood, a value or a kept fault.
    pub(crate) fn tell_stood(&mut self, context: usize, number: u32, told: &mut ExtValue) -> Code
        requires idle { self.old.claim ≡ None }
        ensures store { self.new.store ≡ self.old.store }
        ensures keys { self.new.lane.keys ≡ self.old.lane.keys }
        ensures closers { self.new.closers ≡ self.old.closers }
        ensures claim { self.new.claim ≡ None }
        ensures still { self.new.lane.cells ≡ self.old.lane.cells }
        ensures told { TellsStood context number self.old.lane self.new.lane told.new result }
    {
        if self.tell_value(context, number, told) {
            return Code::Done;
        }
        if self.tell_fault(context, number, told) {
            Code::Done
        } else {
            Code::Unshown
        }
    }

    #[inline(always)]
    pub(crate) fn tell_look(&mut self, looked: Result<Look, Refusal>, found: &mut ExtValue) -> Code
        requires idle { self.old.claim ≡ None }
        ensures store { self.new.store ≡ self.old.store }
        ensures keys { self.new.lane.keys ≡ self.old.lane.keys }
        ensures closers { self.new.closers ≡ self.old.closers }
        ensures claim { self.new.claim ≡ None }
        ensures still { self.new.lane.cells ≡ self.old.lane.cells }
        ensures told { TellsLook looked self.old.lane self.new.lane found.old found.new result }
    {
        match looked {
            Ok(Look::Found { at, number }) => self.tell_found(at, number, found),
            Ok(Look::Fault { at, number }) => self.tell_standing(at, number, found),
            Ok(Look::Absent) => Code::Absent,
            Ok(Look::Busy(at)) => {
                found.context = at;
                Code::Busy
            }
            Ok(Look::Closed(at)) => {
                found.context = at;
                Code::Closed
            }
            Err(why) => Code::of_refusal(why),
        }
    }

    // Reports a put. A number that was kept and is not stored is lost.
    pub(crate) fn tell_put(
        &mut self,
        context: usize,
        put: Result<Option<u32>, (Kept, Refusal)>,
        stood: &mut ExtValue,
    ) -> Code
        requires idle { self.old.claim ≡ None }
        ensures store { self.new.store ≡ self.old.store }
        ensures keys { self.new.lane.keys ≡ self.old.lane.keys }
        ensures closers { self.new.closers ≡ self.old.closers }
        ensures claim { self.new.claim ≡ None }
        ensures still { self.new.lane.cells ≡ self.old.lane.cells }
        ensures told { TellsPut context put self.old.lane self.new.lane stood.old stood.new result }
    {
        match put {
            Ok(Some(number)) => self.tell_stood(context, number, stood),
            Ok(None) => {
                *stood = ExtValue::unshown(context, 0);
                Code::Done
            }
            Err((_, why)) => Code::of_refusal(why),
        }
    }

    pub(crate) fn tell_remove(
        &mut self,
        context: usize,
        removed: Result<Option<u32>, Refusal>,
        taken: &mut ExtValue,
    ) -> Code
        requires idle { self.old.claim ≡ None }
        ensures store { self.new.store ≡ self.old.store }
        ensures keys { self.new.lane.keys ≡ self.old.lane.keys }
        ensures closers { self.new.closers ≡ self.old.closers }
        ensures claim { self.new.claim ≡ None }
        ensures still { self.new.lane.cells ≡ self.old.lane.cells }
        ensures told { TellsRemove context removed self.old.lane self.new.lane taken.old taken.new result }
    {
        match removed {
            Ok(Some(number)) => self.tell_stood(context, number, taken),
            Ok(None) => Code::Absent,
            Err(why) => Code::of_refusal(why),
        }
    }

    // Reports why there is no claim.
    pub(crate) fn tell_unused(&mut self, why: Unused, found: &mut ExtValue) -> Code
        requires idle { self.old.claim ≡ None }
        ensures store { self.new.store ≡ self.old.store }
        ensures keys { self.new.lane.keys ≡ self.old.lane.keys }
        ensures closers { self.new.closers ≡ self.old.closers }
        ensures claim { self.new.claim ≡ None }
        ensures still { self.new.lane.cells ≡ self.old.lane.cells }
        ensures told { TellsUnused why self.old.lane self.new.lane found.old found.new result }
    {
        match why {
            Unused::Found { at, number } => self.tell_found(at, number, found),
            Unused::FaultStands { at, number } => self.tell_standing(at, number, found),
            Unused::Refused(refusal) => {
                if let Refusal::Busy(at) | Refusal::Closed(at) = refusal {
                    found.context = at;
                }
                Code::of_refusal(refusal)
            }
        }
    }
}
