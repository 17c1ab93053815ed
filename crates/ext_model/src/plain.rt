//! The store of one thread: numbers of values and of kept faults, claims and seals in one map.
ghost use Rattle.std.specs.Prelude.{ℕ, ◌≡◌, ◌+◌, ◌≤◌, ◌↔◌, IsTrue, Some, None, Ok, Err, IfOk, IfErr, OnOk, OnErr};
ghost use Rattle.ext_model.specs.declared.event.Act.TheVariants as act;
ghost use Rattle.ext_model.specs.declared.slot.Slot.TheVariants as slot;
ghost use Rattle.ext_model.specs.State.{opening, lookup, standing, standing_value, IsClaimed, IsSealed};
ghost use Rattle.ext_model.specs.Events.{Happens};
ghost use Rattle.ext_model.specs.Plain.{any_lane, state_of, with_slot, under, plain_reply, IsStep, IsReply, number_drawn, what_stood, done, UnlessMemory};

use crate::{ContextNo, KeyNo, LaneNo, Look, PlainFault, Slot};
use std::alloc::Global;
use std::collections::BTreeMap;
use std::marker::Model;

/// The store of one thread. It holds the numbers of values and of kept faults; a caller that draws
/// a number keeps what it stands for.
///
/// A place is a context and a key; any two numbers may be named. Only the lane of a claim may fill,
/// fail or abandon it. Only `fail` keeps faults: a caller that never calls it meets none. Callers
/// should store only numbers that they drew, each at most once; nothing here checks this or relies
/// on it. A refusal leaves the store as it was.
///
/// JUnit's `NamespacedHierarchicalStore`, for one thread and with numbers in place of values.
#[derive(Drop)]
pub struct PlainStore {
    slots: BTreeMap<(ContextNo, KeyNo), Slot>,
    drawn: u32,
    numbers: u32,
}

impl Model for PlainStore {
    ghost use Rattle.ext_model.specs.Plain.{Plain};
    ghost use Rattle.std.specs.Prelude.{◌≤◌};

    ghost Value = { Plain };

    ghost view = { λ s. record { entries = s.slots.entries; drawn = s.drawn; numbers = s.numbers } };

    ghost invariant = { λ s. s.drawn ≤ s.numbers };
}

impl PlainStore {
    /// An empty store whose numbers are 1 to `numbers`. If `numbers` is 0, `keep` is always
    /// refused. The allocator is for later calls.
    pub fn new(alloc: Global, numbers: u32) -> PlainStore
        ensures state { state_of result ≡ opening }
        ensures numbers { result.numbers ≡ numbers }
    {
        PlainStore {
            slots: BTreeMap::new(alloc),
            drawn: 0,
            numbers,
        }
    }

    /// Draws the next number and answers it: the first is 1, each further one is the last plus one.
    ///
    /// Refused as `NumbersFull` if all numbers of the store were drawn.
    pub fn keep(&mut self) -> Result<u32, PlainFault>
        ensures reply { IsReply number_drawn any_lane (act.Keep (self.old.drawn + 1)) self.old result }
        ensures state { IsStep any_lane (act.Keep (self.old.drawn + 1)) self.old self.new }
        ensures numbers { self.new.numbers ≡ self.old.numbers }
        ensures unchanged { OnErr result (self.new ≡ self.old) }

        ensures next { IfOk result (λ number. number ≡ self.old.drawn + 1) }
        ensures drawn { IfOk result (λ number. self.new.drawn ≡ number) }
        ensures limit { IfOk result (λ number. number ≤ self.old.numbers) }
        ensures full { (result ≡ Err PlainFault.NumbersFull) ↔ (self.old.drawn ≡ self.old.numbers) }
        ensures slots { (context key : ℕ) → under (state_of self.new) key context ≡ under (state_of self.old) key context }
    {
        if self.drawn == self.numbers {
            return Err(PlainFault::NumbersFull);
        }
        self.drawn += 1;
        Ok(self.drawn)
    }

    /// Looks the key up along the path: the first context where anything stands under it decides.
    /// The path is a context and its ancestors, the nearest first. The answer is `Absent` if the
    /// path is empty or nothing stands along it.
    ///
    /// JUnit 5 User Guide, section "Keeping State in Extensions"; `ExtensionContext.Store`, `get`.
    #[tactic(auto, using(crate::proofs::Lookups::lookup_here, crate::proofs::Lookups::lookup_past))]
    pub fn get(&self, path: &[ContextNo], key: KeyNo) -> Look
        ensures look { result ≡ lookup (under (state_of self.now) key) path.now }
    {
        for context in path {
            match self.slot(*context, key) {
                None => {}
                Some(Slot::Entry(number)) => {
                    return Look::Found {
                        at: *context,
                        number,
                    };
                }
                Some(Slot::Fault(number)) => {
                    return Look::Fault {
                        at: *context,
                        number,
                    };
                }
                Some(Slot::Claim(_)) => return Look::Busy(*context),
                Some(Slot::Sealed(_)) => return Look::Closed(*context),
            }
        }
        Look::Absent
    }

    /// Stores the number at the place, and answers the number that it replaces there, of a value or
    /// of a fault. Any number will do: to store each value once, as JUnit's store does, put numbers
    /// that `keep` gave, each once. May take memory if nothing stood there.
    ///
    /// Refused, in this order, as `Busy` if a lane claims the place, `Closed` if it is sealed, and
    /// `Memory`, which can come only if nothing stood there. `ExtensionContext.Store`, `put`.
    pub fn put(&mut self, at: ContextNo, key: KeyNo, number: u32) -> Result<Option<u32>, PlainFault>
        ensures reply { UnlessMemory result (IsReply what_stood any_lane (act.Put (at, key) number) self.old result) }
        ensures state { UnlessMemory result (IsStep any_lane (act.Put (at, key) number) self.old self.new) }
        ensures numbers { self.new.numbers ≡ self.old.numbers }
        ensures unchanged { OnErr result (self.new ≡ self.old) }
        ensures memory { result ≡ Err PlainFault.Memory → under (state_of self.old) key at ≡ None }

        ensures stored { OnOk result
            (state_of self.new ≡ with_slot (state_of self.old) (at, key) (Some (slot.Entry number))) }
        ensures stands { OnOk result (under (state_of self.new) key at ≡ Some (slot.Entry number)) }
        ensures stood { IfOk result (λ stood. stood ≡ standing (under (state_of self.old) key at)) }
        ensures busy { (result ≡ Err PlainFault.Busy) ↔ IsClaimed (under (state_of self.old) key at) }
        ensures closed { (result ≡ Err PlainFault.Closed) ↔ IsSealed (under (state_of self.old) key at) }
    {
        let stood = match self.slot(at, key) {
            None => None,
            Some(Slot::Entry(number)) => Some(number),
            Some(Slot::Fault(number)) => Some(number),
            Some(Slot::Claim(_)) => return Err(PlainFault::Busy),
            Some(Slot::Sealed(_)) => return Err(PlainFault::Closed),
        };
        self.set(at, key, Slot::Entry(number))?;
        Ok(stood)
    }

    /// Removes the number from the place, of a value or of a fault, and answers it, or `None` if
    /// nothing stood there. A number under the key in another context, such as an ancestor, stays.
    ///
    /// Refused as `Busy` if a lane claims the place, and as `Closed` if it is sealed.
    /// `ExtensionContext.Store`, `remove`.
    pub fn remove(&mut self, at: ContextNo, key: KeyNo) -> Result<Option<u32>, PlainFault>
        ensures reply { IsReply what_stood any_lane (act.Remove (at, key)) self.old result }
        ensures state { IsStep any_lane (act.Remove (at, key)) self.old self.new }
        ensures numbers { self.new.numbers ≡ self.old.numbers }
        ensures unchanged { OnErr result (self.new ≡ self.old) }

        ensures removed { OnOk result (state_of self.new ≡ with_slot (state_of self.old) (at, key) None) }
        ensures gone { OnOk result (under (state_of self.new) key at ≡ None) }
        ensures stood { IfOk result (λ stood. stood ≡ standing (under (state_of self.old) key at)) }
        ensures busy { (result ≡ Err PlainFault.Busy) ↔ IsClaimed (under (state_of self.old) key at) }
        ensures closed { (result ≡ Err PlainFault.Closed) ↔ IsSealed (under (state_of self.old) key at) }
    {
        match self.slot(at, key) {
            None => Ok(None),
            Some(Slot::Entry(number)) => {
                self.clear(at, key);
                Ok(Some(number))
            }
            Some(Slot::Fault(number)) => {
                self.clear(at, key);
                Ok(Some(number))
            }
            Some(Slot::Claim(_)) => Err(PlainFault::Busy),
            Some(Slot::Sealed(_)) => Err(PlainFault::Closed),
        }
    }

    /// Claims the empty place for the lane, until the lane fills, fails or abandons it. May take
    /// memory.
    ///
    /// Refused, in this order, as `Busy` if a lane claims the place, this one or another, `Closed`
    /// if it is sealed, `Taken` with the number of the value that stands there, `FaultStands` with
    /// that of the fault that is kept there, and `Memory`. The first part of `getOrComputeIfAbsent`
    /// of `ExtensionContext.Store`.
    pub fn claim(&mut self, at: ContextNo, key: KeyNo, lane: LaneNo) -> Result<(), PlainFault>
        ensures reply { UnlessMemory result (IsReply done lane (act.Claim (at, key)) self.old result) }
        ensures state { UnlessMemory result (IsStep lane (act.Claim (at, key)) self.old self.new) }
        ensures numbers { self.new.numbers ≡ self.old.numbers }
        ensures unchanged { OnErr result (self.new ≡ self.old) }
        ensures memory { result ≡ Err PlainFault.Memory → under (state_of self.old) key at ≡ None }

        ensures claimed { OnOk result
            (state_of self.new ≡ with_slot (state_of self.old) (at, key) (Some (slot.Claim lane))) }
        ensures won { OnOk result (under (state_of self.new) key at ≡ Some (slot.Claim lane)) }
        ensures empty { OnOk result (under (state_of self.old) key at ≡ None) }
        ensures busy { (result ≡ Err PlainFault.Busy) ↔ IsClaimed (under (state_of self.old) key at) }
        ensures closed { (result ≡ Err PlainFault.Closed) ↔ IsSealed (under (state_of self.old) key at) }
        ensures taken { (number : ℕ) →
            (result ≡ Err (PlainFault.Taken number)) ↔ (under (state_of self.old) key at ≡ Some (slot.Entry number)) }
        ensures fault_stands { (number : ℕ) →
            (result ≡ Err (PlainFault.FaultStands number)) ↔ (under (state_of self.old) key at ≡ Some (slot.Fault number)) }
    {
        match self.slot(at, key) {
            None => self.set(at, key, Slot::Claim(lane)),
            Some(Slot::Entry(number)) => Err(PlainFault::Taken(number)),
            Some(Slot::Fault(number)) => Err(PlainFault::FaultStands(number)),
            Some(Slot::Claim(_)) => Err(PlainFault::Busy),
            Some(Slot::Sealed(_)) => Err(PlainFault::Closed),
        }
    }

    /// Ends the lane's claim and stores the number at the place. It always answers `Ok`: the place
    /// is in use, so no memory is needed.
    ///
    /// Only the lane of the claim may call it (`is_claimed_by`); any number will do, as for `put`.
    /// The last part of `getOrComputeIfAbsent` of `ExtensionContext.Store`.
    pub fn fill(
        &mut self,
        at: ContextNo,
        key: KeyNo,
        lane: LaneNo,
        number: u32,
    ) -> Result<(), PlainFault>
        requires { under (state_of self.old) key at ≡ Some (slot.Claim lane) }
        ensures reply { IsReply done lane (act.Fill (at, key) number) self.old result }
        ensures state { IsStep lane (act.Fill (at, key) number) self.old self.new }
        ensures numbers { self.new.numbers ≡ self.old.numbers }
        ensures ok { result ≡ Ok tt }
        ensures filled { state_of self.new ≡ with_slot (state_of self.old) (at, key) (Some (slot.Entry number)) }
        ensures stands { under (state_of self.new) key at ≡ Some (slot.Entry number) }
    {
        self.set(at, key, Slot::Entry(number))
    }

    /// Ends the lane's claim and keeps the number at the place as that of a fault, until it is
    /// removed or replaced. It always answers `Ok`: the place is in use, so no memory is needed.
    ///
    /// Only the lane of the claim may call it (`is_claimed_by`); any number will do, as for `put`.
    /// For a factory that failed and whose fault is kept.
    pub fn fail(
        &mut self,
        at: ContextNo,
        key: KeyNo,
        lane: LaneNo,
        number: u32,
    ) -> Result<(), PlainFault>
        requires { under (state_of self.old) key at ≡ Some (slot.Claim lane) }
        ensures reply { IsReply done lane (act.Fail (at, key) number) self.old result }
        ensures state { IsStep lane (act.Fail (at, key) number) self.old self.new }
        ensures numbers { self.new.numbers ≡ self.old.numbers }
        ensures ok { result ≡ Ok tt }
        ensures failed { state_of self.new ≡ with_slot (state_of self.old) (at, key) (Some (slot.Fault number)) }
        ensures stands { under (state_of self.new) key at ≡ Some (slot.Fault number) }
    {
        self.set(at, key, Slot::Fault(number))
    }

    /// Ends the lane's claim and leaves the place empty. It never fails.
    ///
    /// Only the lane of the claim may call it (`is_claimed_by`). For a factory that failed and
    /// whose fault is not kept.
    pub fn abandon(&mut self, at: ContextNo, key: KeyNo, lane: LaneNo)
        requires { under (state_of self.old) key at ≡ Some (slot.Claim lane) }
        ensures reply { plain_reply self.old.numbers (state_of self.old) lane (act.Abandon (at, key)) ≡ Happens None }
        ensures state { IsStep lane (act.Abandon (at, key)) self.old self.new }
        ensures numbers { self.new.numbers ≡ self.old.numbers }
        ensures emptied { state_of self.new ≡ with_slot (state_of self.old) (at, key) None }
        ensures gone { under (state_of self.new) key at ≡ None }
    {
        let _ = lane;
        self.clear(at, key);
    }

    /// Closes the place for good, and answers the number that it keeps: that of the value that
    /// stood there, if one did. A kept fault is dropped. A sealed place answers what it keeps, and
    /// stays as it is. May take memory if nothing stood there.
    ///
    /// Refused, in this order, as `Busy` if a lane claims the place, and `Memory`, which can come
    /// only if nothing stood there. Closing a context does this to each of its places.
    #[tactic(auto, using(crate::proofs::Changes::seal_happens, crate::proofs::Changes::seal_again))]
    pub fn seal(&mut self, at: ContextNo, key: KeyNo) -> Result<Option<u32>, PlainFault>
        ensures reply { UnlessMemory result (IsReply what_stood any_lane (act.Seal (at, key)) self.old result) }
        ensures state { UnlessMemory result (IsStep any_lane (act.Seal (at, key)) self.old self.new) }
        ensures numbers { self.new.numbers ≡ self.old.numbers }
        ensures unchanged { OnErr result (self.new ≡ self.old) }
        ensures memory { result ≡ Err PlainFault.Memory → under (state_of self.old) key at ≡ None }

        ensures sealed { IfOk result (λ kept.
            state_of self.new ≡ with_slot (state_of self.old) (at, key) (Some (slot.Sealed kept))) }
        ensures stands { IfOk result (λ kept. under (state_of self.new) key at ≡ Some (slot.Sealed kept)) }
        ensures kept { IfOk result (λ kept. ¬ (IsSealed (under (state_of self.old) key at)) → kept ≡ standing_value (under (state_of self.old) key at)) }
        ensures busy { (result ≡ Err PlainFault.Busy) ↔ IsClaimed (under (state_of self.old) key at) }
    {
        let kept = match self.slot(at, key) {
            None => None,
            Some(Slot::Entry(number)) => Some(number),
            Some(Slot::Fault(_)) => None,
            Some(Slot::Claim(_)) => return Err(PlainFault::Busy),
            Some(Slot::Sealed(kept)) => return Ok(kept),
        };
        self.set(at, key, Slot::Sealed(kept))?;
        Ok(kept)
    }

    /// Whether the lane claims the place, as `fill`, `fail` and `abandon` require.
    pub fn is_claimed_by(&self, at: ContextNo, key: KeyNo, lane: LaneNo) -> bool
        ensures { IsTrue result ↔ (under (state_of self.now) key at ≡ Some (slot.Claim lane)) }
    {
        match self.slot(at, key) {
            None => false,
            Some(Slot::Entry(_)) => false,
            Some(Slot::Fault(_)) => false,
            Some(Slot::Claim(by)) => by == lane,
            Some(Slot::Sealed(_)) => false,
        }
    }

    // What stands at the place.
    fn slot(&self, at: ContextNo, key: KeyNo) -> Option<Slot>
        ensures { result ≡ under (state_of self.now) key at }
    {
        self.slots.get(&(at, key)).copied()
    }

    // Sets what stands at the place. Only an empty place takes memory.
    fn set(&mut self, at: ContextNo, key: KeyNo, slot: Slot) -> Result<(), PlainFault>
        ensures state { OnOk result (state_of self.new ≡ with_slot (state_of self.old) (at, key) (Some slot)) }
        ensures stands { OnOk result (under (state_of self.new) key at ≡ Some slot) }
        ensures numbers { self.new.numbers ≡ self.old.numbers }
        ensures vacant { OnErr result (under (state_of self.old) key at ≡ None) }
        ensures refusal { IfErr result (λ fault. fault ≡ PlainFault.Memory) }
        ensures unchanged { OnErr result (self.new ≡ self.old) }
    {
        match self.slots.insert((at, key), slot) {
            Ok(_) => Ok(()),
            Err(_) => Err(PlainFault::Memory),
        }
    }

    fn clear(&mut self, at: ContextNo, key: KeyNo)
        ensures state { state_of self.new ≡ with_slot (state_of self.old) (at, key) None }
        ensures gone { under (state_of self.new) key at ≡ None }
        ensures numbers { self.new.numbers ≡ self.old.numbers }
    {
        let _ = self.slots.remove(&(at, key));
    }
}
