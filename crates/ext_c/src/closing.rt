//! The close of a context, by the lane that has its closer.
ghost use Rattle.std.specs.Prelude.{ℕ, ◌≡◌, ◌≢◌, ◌≤◌, ◌<◌, ◌∷◌, [], IfErr, IfOk, None, Some, length, slice_index_or};
ghost use Rattle.ext_store.specs.Stores.{IsCloserOf};
ghost use Rattle.ext_closing.specs.Closes as closing;
ghost use Rattle.ext_c.specs.Answers.{store_of};
ghost use Rattle.ext_c.specs.Closing.{CloseSays, IsRefusedFor, KeepsOthers, NotClosing, TellsRefused, WritesClosed, room_for};
ghost use Rattle.ext_c.specs.Writing.{WritesNext};

use crate::code::Code;
use crate::handle::Handle;
use crate::seat::Seat;
use crate::value::ExtValue;
use crate::written::Written;
use ext_closing::{CloseAction, CloseFault, Closed, close};
use ext_model::Fault;
use ext_store::{Closer, Store};
use std::{mem, slice};

impl<const ROOM: usize> CloseAction<Handle> for Written<ROOM> {
    ghost close_gives = { WritesNext };

    fn close(&mut self, number: u32, value: &Handle) -> Result<(), Fault> {
        let own = ExtValue {
            handle: value.raw,
            context: self.context,
            number,
            closeable: value.closeable,
            fault: false,
        };
        self.add(own);
        Ok(())
    }
}

impl Seat {
    // Closes the context: writes out the values that are to be closed, and counts them. If the lane
    // does not know a value, it is shown the value, and the close is to be asked again.
    pub(crate) fn close(
        &mut self,
        context: usize,
        values: &mut [ExtValue],
        count: &mut usize,
    ) -> Code
        ensures store { self.new.store ≡ self.old.store }
        ensures keys { self.new.lane.keys ≡ self.old.lane.keys }
        ensures claim { self.new.claim ≡ self.old.claim }
        ensures says { CloseSays context self.old self.new values.old values.new count.new result }
    {
        *count = 0;
        if self.claim.is_some() {
            return Code::Claiming;
        }
        if values.len() < self.room() {
            return Code::TooFewPlaces;
        }
        let closer = match self.take_closer(context) {
            Ok(closer) => closer,
            Err(code) => return code,
        };
        match self.ask(context, closer, values, count) {
            Ok(()) => Code::Done,
            Err((closer, why)) => {
                self.give_closer(context, closer);
                self.mend(why)
            }
        }
    }

    // How many values a close writes out at most.
    fn room(&self) -> usize
        ensures room { result ≡ room_for (store_of self.now) }
        ensures few { result ≤ 1024 }
    {
        let shared: &Store<Handle> = &self.store;
        shared.key_count()
    }

    // `close` of ext_closing with only this lane in hand. What is to be closed is written out.
    fn ask(
        &mut self,
        context: usize,
        closer: Closer,
        values: &mut [ExtValue],
        count: &mut usize,
    ) -> Result<(), (Closer, CloseFault)>
        requires idle { self.old.claim ≡ None }
        requires closer { IsCloserOf (store_of self.old) closer }
        requires room { room_for (store_of self.old) ≤ length values.old }
        ensures store { self.new.store ≡ self.old.store }
        ensures keys { self.new.lane.keys ≡ self.old.lane.keys }
        ensures claim { self.new.claim ≡ None }
        ensures closers { self.new.closers ≡ self.old.closers }
        ensures closed { IfOk result (λ _. WritesClosed context (store_of self.old) closer self.old.lane self.new.lane values.old values.new count.new) }
        ensures refused { IfErr result (λ e. IsRefusedFor (store_of self.old) closer self.old.lane self.new.lane e.1) }
        ensures handed_back { IfErr result (λ e. e.0 ≡ closer) }
        ensures untold { IfErr result (λ _. (values.new ≡ values.old) × (count.new ≡ count.old)) }
    {
        if self.room() <= 64 {
            self.ask_with_room::<64>(context, closer, values, count)
        } else {
            self.ask_with_room::<1024>(context, closer, values, count)
        }
    }

    // `ask` with a list of this room, which costs the more the more room it has.
    #[inline(never)]
    fn ask_with_room<const ROOM: usize>(
        &mut self,
        context: usize,
        closer: Closer,
        values: &mut [ExtValue],
        count: &mut usize,
    ) -> Result<(), (Closer, CloseFault)>
        requires idle { self.old.claim ≡ None }
        requires closer { IsCloserOf (store_of self.old) closer }
        requires room { room_for (store_of self.old) ≤ length values.old }
        requires own_room { room_for (store_of self.old) ≤ ROOM }
        requires few { ROOM ≤ 1024 }
        ensures store { self.new.store ≡ self.old.store }
        ensures keys { self.new.lane.keys ≡ self.old.lane.keys }
        ensures claim { self.new.claim ≡ None }
        ensures closers { self.new.closers ≡ self.old.closers }
        ensures closed { IfOk result (λ _. WritesClosed context (store_of self.old) closer self.old.lane self.new.lane values.old values.new count.new) }
        ensures refused { IfErr result (λ e. IsRefusedFor (store_of self.old) closer self.old.lane self.new.lane e.1) }
        ensures handed_back { IfErr result (λ e. e.0 ≡ closer) }
        ensures untold { IfErr result (λ _. (values.new ≡ values.old) × (count.new ≡ count.old)) }
    {
        let mut written: Written<ROOM> = Written::none(context, self.room());
        match self.close_into(closer, &mut written) {
            Ok(_) => {
                *count = written.copy_to(values);
                Ok(())
            }
            Err(refused) => Err(refused),
        }
    }

    // The close itself.
    fn close_into<const ROOM: usize>(
        &mut self,
        closer: Closer,
        written: &mut Written<ROOM>,
    ) -> Result<Closed, (Closer, CloseFault)>
        requires few { ROOM ≤ 1024 }
        requires idle { self.old.claim ≡ None }
        requires closer { IsCloserOf (store_of self.old) closer }
        ensures store { self.new.store ≡ self.old.store }
        ensures keys { self.new.lane.keys ≡ self.old.lane.keys }
        ensures claim { self.new.claim ≡ None }
        ensures closers { self.new.closers ≡ self.old.closers }
        ensures happened { closing.Closes (λ h. h.closeable) WritesNext (store_of self.old) closer (self.old.lane ∷ []) written.old result (self.new.lane ∷ []) written.new }
    {
        let shared: &Store<Handle> = &self.store;
        close(shared, closer, slice::from_mut(&mut self.lane), written)
    }

    // The code of a refused close. If the lane does not know a value, it is shown the value, so
    // that the close may be asked again; if the thread does not find it, the code is another one.
    fn mend(&mut self, why: CloseFault) -> Code
        requires idle { self.old.claim ≡ None }
        ensures store { self.new.store ≡ self.old.store }
        ensures keys { self.new.lane.keys ≡ self.old.lane.keys }
        ensures claim { self.new.claim ≡ None }
        ensures closers { self.new.closers ≡ self.old.closers }
        ensures still { self.new.lane.cells ≡ self.old.lane.cells }
        ensures told { TellsRefused why self.old.lane self.new.lane result }
    {
        if let CloseFault::Unjoined(number) = why {
            let mut shown = ExtValue::unshown(0, number);
            if !self.tell_value(0, number, &mut shown) {
                return Code::Unshown;
            }
        }
        Code::of_close(why)
    }

    // Takes the context's closer out of the seat.
    fn take_closer(&mut self, context: usize) -> Result<Closer, Code>
        ensures store { self.new.store ≡ self.old.store }
        ensures lane { self.new.lane ≡ self.old.lane }
        ensures claim { self.new.claim ≡ self.old.claim }
        ensures own { IfOk result (IsCloserOf (store_of self.old)) }
        ensures context { IfOk result (λ c. c.context ≡ context) }
        ensures taken { IfOk result (λ c. slice_index_or self.old.closers.items context None ≡ Some c) }
        ensures listed { IfOk result (λ _. context < length (store_of self.old).tree) }
        ensures refused { IfErr result (λ code. (places : ℕ) → self.old.claim ≡ None → room_for (store_of self.old) ≤ places → NotClosing context places self.old code) }
        ensures unchanged { IfErr result (λ _. self.new ≡ self.old) }
        ensures within { IfOk result (λ _. context < length self.new.closers.items) }
        ensures gone { IfOk result (λ _. slice_index_or self.new.closers.items context None ≡ None) }
        ensures others { IfOk result (λ _. KeepsOthers context self.old self.new) }
        ensures places { IfOk result (λ _. length self.new.closers.items ≡ length self.old.closers.items) }
    {
        let shared: &Store<Handle> = &self.store;
        if context >= shared.tree().len() {
            return Err(Code::BadContext);
        }
        if context >= self.closers.len() {
            return Err(Code::NoCloser);
        }
        match &self.closers[context] {
            None => return Err(Code::Closed),
            Some(closer) => {
                if closer.context() != context {
                    return Err(Code::NoCloser);
                }
            }
        }
        match mem::replace(&mut self.closers[context], None) {
            Some(closer) => Ok(closer),
            None => unreachable!(),
        }
    }

    fn give_closer(&mut self, context: usize, closer: Closer)
        requires own { IsCloserOf (store_of self.old) closer }
        requires within { context < length self.old.closers.items }
        ensures store { self.new.store ≡ self.old.store }
        ensures lane { self.new.lane ≡ self.old.lane }
        ensures claim { self.new.claim ≡ self.old.claim }
        ensures there { slice_index_or self.new.closers.items context None ≡ Some closer }
        ensures others { KeepsOthers context self.old self.new }
        ensures places { length self.new.closers.items ≡ length self.old.closers.items }
    {
        self.closers[context] = Some(closer);
    }
}
