//! The store's calls on the lane of a seat, in the store's own words.
ghost use Rattle.std.specs.Prelude.{◌≡◌, ◌<◌, [], IfErr, IfOk, IfSome, IsSome, IsTrue, MatchResult, None, Ok, Err, Some, false, length, true};
ghost use Rattle.ext_model.specs.CallActs.{IsHeld};
ghost use Rattle.ext_values.specs.Known.{Learns, known_at};
ghost use Rattle.ext_store.specs.Computing.{ClaimsMissing, Fails, IsUnkept};
ghost use Rattle.ext_store.specs.Stores.{IsKeptBy};
ghost use Rattle.ext_store.specs.Waiting.{IsDecidedFault};
ghost use Rattle.ext_store.specs.LaneCalls.{Gets, KeepsAs, KeepsNothing, Puts, Removes};
ghost use Rattle.ext_c.specs.Answers.{KnowsNoFault, NotAsked, TellsFault, TellsNumber, TellsValue, store_of};

use crate::code::Code;
use crate::fault::handle_of;
use crate::handle::Handle;
use crate::seat::Seat;
use crate::value::ExtValue;
use ext_model::{Fault, Look};
use ext_store::{Claim, KeepFault, Kept, Refusal, Store, Unused};
use std::mem;

impl Seat {
    // Why a call on a place is not made, or `None` if it is.
    #[inline(always)]
    pub(crate) fn bar(&self, context: usize, key: usize) -> Option<Code>
        ensures barred { IfSome result (NotAsked context key self.now) }
        ensures idle { result ≡ None → self.now.claim ≡ None }
        ensures context { result ≡ None → context < length (store_of self.now).tree }
        ensures key { result ≡ None → key < length (store_of self.now).id.keys }
    {
        if self.claim.is_some() {
            return Some(Code::Claiming);
        }
        let shared: &Store<Handle> = &self.store;
        if context >= shared.tree().len() {
            return Some(Code::BadContext);
        }
        if key >= shared.key_count() {
            return Some(Code::BadKey);
        }
        None
    }

    // `Store::get_numbered`.
    #[inline(always)]
    pub(crate) fn look(&mut self, context: usize, key: usize) -> Result<Look, Refusal>
        requires context { context < length (store_of self.old).tree }
        requires key { key < length (store_of self.old).id.keys }
        requires idle { self.old.claim ≡ None }
        ensures store { self.new.store ≡ self.old.store }
        ensures keys { self.new.lane.keys ≡ self.old.lane.keys }
        ensures closers { self.new.closers ≡ self.old.closers }
        ensures claim { self.new.claim ≡ None }
        ensures known { self.new.lane.known ≡ self.old.lane.known }
        ensures faults { self.new.lane.faults ≡ self.old.lane.faults }
        ensures answer { Gets (store_of self.old) context key self.old.lane.cells self.new.lane.cells result }
    {
        let shared: &Store<Handle> = &self.store;
        shared.get_numbered(&mut self.lane, context, key)
    }

    // `Store::keep`.
    pub(crate) fn keep(&mut self, handle: Handle) -> Result<Kept, KeepFault>
        requires idle { self.old.claim ≡ None }
        ensures store { self.new.store ≡ self.old.store }
        ensures keys { self.new.lane.keys ≡ self.old.lane.keys }
        ensures closers { self.new.closers ≡ self.old.closers }
        ensures claim { self.new.claim ≡ None }
        ensures kept { IfOk result (IsKeptBy self.new.lane) }
        ensures answer { MatchResult result (KeepsAs handle self.old.lane self.new.lane) (KeepsNothing (store_of self.old) handle self.old.lane self.new.lane handle) }
    {
        let shared: &Store<Handle> = &self.store;
        match shared.keep(&mut self.lane, handle) {
            Ok(kept) => Ok(kept),
            Err((_, why)) => Err(why),
        }
    }

    // `Store::put_numbered`.
    pub(crate) fn put_kept(
        &mut self,
        context: usize,
        key: usize,
        kept: Kept,
    ) -> Result<Option<u32>, (Kept, Refusal)>
        requires context { context < length (store_of self.old).tree }
        requires key { key < length (store_of self.old).id.keys }
        requires idle { self.old.claim ≡ None }
        requires kept { IsKeptBy self.old.lane kept }
        ensures store { self.new.store ≡ self.old.store }
        ensures keys { self.new.lane.keys ≡ self.old.lane.keys }
        ensures closers { self.new.closers ≡ self.old.closers }
        ensures claim { self.new.claim ≡ None }
        ensures known { self.new.lane.known ≡ self.old.lane.known }
        ensures faults { self.new.lane.faults ≡ self.old.lane.faults }
        ensures answer { Puts (store_of self.old) context key kept self.old.lane.cells self.new.lane.cells result }
    {
        let shared: &Store<Handle> = &self.store;
        shared.put_numbered(&mut self.lane, context, key, kept)
    }

    // `Store::remove_numbered`.
    pub(crate) fn take_out(&mut self, context: usize, key: usize) -> Result<Option<u32>, Refusal>
        requires context { context < length (store_of self.old).tree }
        requires key { key < length (store_of self.old).id.keys }
        requires idle { self.old.claim ≡ None }
        ensures store { self.new.store ≡ self.old.store }
        ensures keys { self.new.lane.keys ≡ self.old.lane.keys }
        ensures closers { self.new.closers ≡ self.old.closers }
        ensures claim { self.new.claim ≡ None }
        ensures known { self.new.lane.known ≡ self.old.lane.known }
        ensures faults { self.new.lane.faults ≡ self.old.lane.faults }
        ensures answer { Removes (store_of self.old) context key self.old.lane.cells self.new.lane.cells result }
    {
        let shared: &Store<Handle> = &self.store;
        shared.remove_numbered(&mut self.lane, context, key)
    }

    // `Store::begin_numbered_quietly`; the seat has the claim afterwards.
    pub(crate) fn claim_missing(&mut self, context: usize, key: usize) -> Option<Unused>
        requires context { context < length (store_of self.old).tree }
        requires key { key < length (store_of self.old).id.keys }
        requires idle { self.old.claim ≡ None }
        ensures store { self.new.store ≡ self.old.store }
        ensures keys { self.new.lane.keys ≡ self.old.lane.keys }
        ensures closers { self.new.closers ≡ self.old.closers }
        ensures known { self.new.lane.known ≡ self.old.lane.known }
        ensures faults { self.new.lane.faults ≡ self.old.lane.faults }
        ensures unclaimed { IfSome result (λ why. (self.new.claim ≡ None) × ClaimsMissing (store_of self.old) context key self.old.lane.cells.view self.new.lane.cells.view (Err why)) }
        ensures claimed { result ≡ None → IfSome self.new.claim (λ claim. ClaimsMissing (store_of self.old) context key self.old.lane.cells.view self.new.lane.cells.view (Ok claim)) }
        ensures has { result ≡ None → IsSome self.new.claim }
    {
        let shared: &Store<Handle> = &self.store;
        match shared.begin_numbered_quietly(&mut self.lane, context, key) {
            Ok(claim) => {
                match mem::replace(&mut self.claim, Some(claim)) {
                    None => None,
                    Some(_claim) => unreachable!(),
                }
            }
            Err(unused) => Some(unused),
        }
    }

    // `Store::fail_decided_quietly`, for a claim that the seat no longer has.
    pub(crate) fn fail_claim(&mut self, claim: Claim, fault: Fault) -> Result<u32, KeepFault>
        requires faults { IsTrue (store_of self.old).id.cells.limits.keep_faults }
        requires idle { self.old.claim ≡ None }
        requires held { IsHeld self.old.lane.cells.view claim }
        ensures store { self.new.store ≡ self.old.store }
        ensures keys { self.new.lane.keys ≡ self.old.lane.keys }
        ensures closers { self.new.closers ≡ self.old.closers }
        ensures claim { self.new.claim ≡ None }
        ensures failed { IfOk result (Fails (store_of self.old).id.cells.limits [] claim self.old.lane.cells.view self.new.lane.cells.view) }
        ensures learnt { IfOk result (λ number. Learns self.old.lane.faults self.new.lane.faults number fault) }
        ensures unkept { IfErr result (IsUnkept (store_of self.old).id.cells.limits (store_of self.old).tries [] claim self.old.lane.cells.view self.new.lane.cells.view) }
        ensures decided { IfErr result IsDecidedFault }
    {
        let shared: &Store<Handle> = &self.store;
        match shared.fail_decided_quietly(&mut self.lane, claim, fault) {
            Ok(number) => Ok(number),
            Err((_, why)) => Err(why),
        }
    }

    // `Store::show`: the handle of a value's number, which the lane knows from now on.
    #[inline(always)]
    pub(crate) fn tell_value(&mut self, context: usize, number: u32, told: &mut ExtValue) -> bool
        requires idle { self.old.claim ≡ None }
        ensures store { self.new.store ≡ self.old.store }
        ensures keys { self.new.lane.keys ≡ self.old.lane.keys }
        ensures closers { self.new.closers ≡ self.old.closers }
        ensures claim { self.new.claim ≡ None }
        ensures still { self.new.lane.cells ≡ self.old.lane.cells }
        ensures shown { result ≡ true → TellsValue context number self.old.lane self.new.lane told.new }
        ensures unshown { result ≡ false → TellsNumber context number told.new }
        ensures unchanged { result ≡ false → self.new ≡ self.old }
        ensures unknown { result ≡ false → known_at self.old.lane.known number ≡ None }
    {
        let shared: &Store<Handle> = &self.store;
        match shared.show(&mut self.lane, number) {
            Some(handle) => {
                *told = ExtValue {
                    handle: handle.raw,
                    context,
                    number,
                    closeable: handle.closeable,
                    fault: false,
                };
                true
            }
            None => {
                *told = ExtValue::unshown(context, number);
                false
            }
        }
    }

    // `Store::show_fault`: the handle of a kept fault's number, which the lane knows from now on.
    pub(crate) fn tell_fault(&mut self, context: usize, number: u32, told: &mut ExtValue) -> bool
        requires idle { self.old.claim ≡ None }
        ensures store { self.new.store ≡ self.old.store }
        ensures keys { self.new.lane.keys ≡ self.old.lane.keys }
        ensures closers { self.new.closers ≡ self.old.closers }
        ensures claim { self.new.claim ≡ None }
        ensures still { self.new.lane.cells ≡ self.old.lane.cells }
        ensures shown { result ≡ true → TellsFault context number self.old.lane self.new.lane told.new }
        ensures unshown { result ≡ false → TellsNumber context number told.new }
        ensures unknown { result ≡ false → KnowsNoFault number self.old.lane }
    {
        let shared: &Store<Handle> = &self.store;
        let Some(fault) = shared.show_fault(&mut self.lane, number) else {
            *told = ExtValue::unshown(context, number);
            return false;
        };
        let Some(handle) = handle_of(fault) else {
            *told = ExtValue::unshown(context, number);
            return false;
        };
        *told = ExtValue {
            handle,
            context,
            number,
            closeable: false,
            fault: true,
        };
        true
    }
}
