//! The calls of a seat: each may be made with any arguments, and answers a code.
ghost use Rattle.std.specs.Prelude.{◌≡◌, None};
ghost use Rattle.ext_c.specs.Answers.{AbandonSays, BeginSays, FailSays, FillSays, GetSays, KeySays, NamesKey, PutSays, RemoveSays};
ghost use Rattle.ext_c.specs.Slots.{OnlyLearnsKeys};

use crate::code::Code;
use crate::fault::fault_of;
use crate::handle::Handle;
use crate::names::key_of;
use crate::seat::Seat;
use crate::value::ExtValue;
use ext_store::{KeepFault, Store};
use ext_tree::Key;
use std::alloc::Global;
use std::mem;

impl Seat {
    // Looks for the key in the context and its ancestors.
    #[inline(always)]
    pub(crate) fn get(&mut self, context: usize, key: usize, found: &mut ExtValue) -> Code
        ensures store { self.new.store ≡ self.old.store }
        ensures keys { self.new.lane.keys ≡ self.old.lane.keys }
        ensures closers { self.new.closers ≡ self.old.closers }
        ensures claim { self.new.claim ≡ self.old.claim }
        ensures says { GetSays context key self.old self.new found.old found.new result }
    {
        if let Some(code) = self.bar(context, key) {
            return code;
        }
        let looked = self.look(context, key);
        self.tell_look(looked, found)
    }

    // Keeps the handle, and stores it under the key in the context itself.
    pub(crate) fn put(
        &mut self,
        context: usize,
        key: usize,
        handle: Handle,
        stood: &mut ExtValue,
    ) -> Code
        ensures store { self.new.store ≡ self.old.store }
        ensures keys { self.new.lane.keys ≡ self.old.lane.keys }
        ensures closers { self.new.closers ≡ self.old.closers }
        ensures claim { self.new.claim ≡ self.old.claim }
        ensures says { PutSays context key handle self.old self.new stood.old stood.new result }
    {
        if let Some(code) = self.bar(context, key) {
            return code;
        }
        let kept = match self.keep(handle) {
            Ok(kept) => kept,
            Err(why) => return Code::of_keep(why),
        };
        let put = self.put_kept(context, key, kept);
        self.tell_put(context, put, stood)
    }

    // Takes what stands under the key in the context itself.
    pub(crate) fn remove(&mut self, context: usize, key: usize, taken: &mut ExtValue) -> Code
        ensures store { self.new.store ≡ self.old.store }
        ensures keys { self.new.lane.keys ≡ self.old.lane.keys }
        ensures closers { self.new.closers ≡ self.old.closers }
        ensures claim { self.new.claim ≡ self.old.claim }
        ensures says { RemoveSays context key self.old self.new taken.old taken.new result }
    {
        if let Some(code) = self.bar(context, key) {
            return code;
        }
        let removed = self.take_out(context, key);
        self.tell_remove(context, removed, taken)
    }

    // Claims the place where nothing is found.
    pub(crate) fn begin(&mut self, context: usize, key: usize, found: &mut ExtValue) -> Code
        ensures store { self.new.store ≡ self.old.store }
        ensures keys { self.new.lane.keys ≡ self.old.lane.keys }
        ensures closers { self.new.closers ≡ self.old.closers }
        ensures says { BeginSays context key self.old self.new found.old found.new result }
    {
        if let Some(code) = self.bar(context, key) {
            return code;
        }
        match self.claim_missing(context, key) {
            None => Code::Run,
            Some(why) => self.tell_unused(why, found),
        }
    }

    // Ends the claim by a handle.
    pub(crate) fn fill(&mut self, handle: Handle, number: &mut u32) -> Code
        ensures store { self.new.store ≡ self.old.store }
        ensures keys { self.new.lane.keys ≡ self.old.lane.keys }
        ensures closers { self.new.closers ≡ self.old.closers }
        ensures claim { self.new.claim ≡ None }
        ensures says { FillSays handle self.old self.new number.old number.new result }
    {
        let Some(claim) = mem::replace(&mut self.claim, None) else {
            return Code::NoClaim;
        };
        let shared: &Store<Handle> = &self.store;
        match shared.fill_decided_quietly(&mut self.lane, claim, handle) {
            Ok(own) => {
                *number = own;
                Code::Done
            }
            Err((_, why)) => Code::of_keep(why),
        }
    }

    // Ends the claim by the handle of a fault, which the store keeps where it keeps faults.
    pub(crate) fn fail(&mut self, alloc: Global, handle: u64, number: &mut u32) -> Code
        ensures store { self.new.store ≡ self.old.store }
        ensures keys { self.new.lane.keys ≡ self.old.lane.keys }
        ensures closers { self.new.closers ≡ self.old.closers }
        ensures claim { self.new.claim ≡ None }
        ensures says { FailSays handle self.old self.new number.old number.new result }
    {
        let Some(claim) = mem::replace(&mut self.claim, None) else {
            return Code::NoClaim;
        };
        let shared: &Store<Handle> = &self.store;
        if !shared.keeps_faults() {
            shared.abandon_quietly(&mut self.lane, claim);
            return Code::GivenUp;
        }
        let Ok(fault) = fault_of(alloc, handle) else {
            shared.abandon_quietly(&mut self.lane, claim);
            return Code::of_keep(KeepFault::Memory);
        };
        match self.fail_claim(claim, fault) {
            Ok(own) => {
                *number = own;
                Code::Done
            }
            Err(why) => Code::of_keep(why),
        }
    }

    pub(crate) fn abandon(&mut self) -> Code
        ensures store { self.new.store ≡ self.old.store }
        ensures keys { self.new.lane.keys ≡ self.old.lane.keys }
        ensures closers { self.new.closers ≡ self.old.closers }
        ensures claim { self.new.claim ≡ None }
        ensures says { AbandonSays self.old self.new result }
    {
        let Some(claim) = mem::replace(&mut self.claim, None) else {
            return Code::NoClaim;
        };
        let shared: &Store<Handle> = &self.store;
        shared.abandon_quietly(&mut self.lane, claim);
        Code::Done
    }

    // The number of the key that the texts name.
    pub(crate) fn number_named(
        &mut self,
        alloc: Global,
        bytes: &[u8],
        lengths: &[u32],
        number: &mut usize,
    ) -> Code
        ensures learns { OnlyLearnsKeys self.old self.new }
        ensures says { NamesKey bytes.now lengths.now self.old self.new number.old number.new result }
    {
        match key_of(alloc, bytes, lengths) {
            Ok(key) => self.number_of(&key, number),
            Err(code) => code,
        }
    }

    // The number of the key. A claim of the lane stands as it did.
    fn number_of(&mut self, key: &Key, number: &mut usize) -> Code
        ensures learns { OnlyLearnsKeys self.old self.new }
        ensures says { KeySays key.now self.old self.new number.old number.new result }
    {
        let shared: &Store<Handle> = &self.store;
        match shared.number(&mut self.lane, key) {
            Ok(own) => {
                *number = own;
                Code::Done
            }
            Err(why) => Code::of_refusal(why),
        }
    }
}
