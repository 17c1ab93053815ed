//! The store of a plain run, by numbers: what stands at each place.
ghost use Rattle.std.specs.Prelude.{ℕ, ◌≡◌, ◌≤◌, ◌<◌, ◌+◌, true, false, Some, None, Ok, Err, IfErr, IfNone, IfOk, IfSome, OnErr, OnOk};
ghost use Rattle.ext_model.specs.declared.event.Act.TheVariants as act;
ghost use Rattle.ext_model.specs.declared.plain_fault.PlainFault.TheVariants as fault;
ghost use Rattle.ext_model.specs.declared.slot.Slot.TheVariants as slot;
ghost use Rattle.ext_model.specs.Closing.{kept_by};
ghost use Rattle.ext_model.specs.State.{look_in, lookup, opening};
ghost use Rattle.ext_model.specs.Plain.{any_lane, done, number_drawn, under, what_stood, UnlessMemory};
ghost use Rattle.ext_plan_plain.specs.InnerUsed.{is_used, IsNoted};

use ext_model::{ContextNo, KeyNo, LaneNo, Look, PlainFault, PlainStore};
use std::alloc::{AllocError, Global};
use std::collections::BTreeSet;

/// A `PlainStore` whose contexts end as a whole: the places of a context that nobody used are
/// sealed by its end alone, and take neither memory nor time.
#[derive(Drop)]
pub(crate) struct PlaceStore {
    /// How many keys can have numbers.
    pub(crate) places: usize,
    /// What was put, claimed or sealed at the places that were used.
    pub(crate) store: PlainStore,
    /// The places where something was put or claimed, or where that was tried.
    pub(crate) used: BTreeSet<(ContextNo, KeyNo)>,
    /// The contexts that have ended.
    pub(crate) ended: BTreeSet<ContextNo>,
    ghost few: { places ≤ 1024 },
    ghost noted: { IsNoted store used },
}

impl PlaceStore {
    ghost use Rattle.ext_plan_plain.specs.InnerPlaces.{is_spared, numbers_in, shown, HasEnded, IsAnswer, IsMove, IsNextUsed, KeepsUsed, HasLimitsOf};

    /// Makes an empty store with places for so many keys, which draws at most so many numbers.
    pub(crate) fn new(alloc: Global, places: usize, numbers: u32) -> PlaceStore
        requires { places ≤ 1024 }
        ensures state { shown result ≡ opening }
        ensures places { result.places ≡ places }
        ensures numbers { numbers_in result ≡ numbers }
    {
        PlaceStore {
            places,
            store: PlainStore::new(alloc, numbers),
            used: BTreeSet::new(alloc),
            ended: BTreeSet::new(alloc),
        }
    }

    /// Draws the next number.
    pub(crate) fn keep(&mut self) -> Result<u32, PlainFault>
        ensures reply { IsAnswer number_drawn any_lane (act.Keep ((shown self.old).drawn + 1)) self.old result }
        ensures state { IsMove any_lane (act.Keep ((shown self.old).drawn + 1)) self.old self.new }
        ensures limits { HasLimitsOf self.old self.new }
        ensures unchanged { OnErr result (self.new ≡ self.old) }
        ensures drawn { IfOk result (λ number. (shown self.new).drawn ≡ number) }
        ensures next { IfOk result (λ number. number ≡ (shown self.old).drawn + 1) }
        ensures slots { (context key : ℕ) → under (shown self.new) key context ≡ under (shown self.old) key context }
    {
        self.store.keep()
    }

    /// Looks up along a path.
    pub(crate) fn get(&self, path: &[ContextNo], key: KeyNo) -> Look
        ensures { result ≡ lookup (under (shown self.now) key) path.now }
    {
        for context in path {
            match self.look_in(*context, key) {
                Look::Absent => {}
                found => return found,
            }
        }
        Look::Absent
    }

    /// Stores the number at the place, as `PlainStore::put` does.
    pub(crate) fn put(
        &mut self,
        at: ContextNo,
        key: KeyNo,
        number: u32,
    ) -> Result<Option<u32>, PlainFault>
        ensures reply { UnlessMemory result (IsAnswer what_stood any_lane (act.Put (at, key) number) self.old result) }
        ensures state { UnlessMemory result (IsMove any_lane (act.Put (at, key) number) self.old self.new) }
        ensures limits { HasLimitsOf self.old self.new }
        ensures memory { result ≡ Err fault.Memory → under (shown self.old) key at ≡ None }
        ensures unchanged { result ≡ Err fault.Memory → shown self.new ≡ shown self.old }
    {
        if self.is_spared(at, key) {
            return Err(PlainFault::Closed);
        }
        let Ok(_) = self.note(at, key) else {
            return Err(PlainFault::Memory);
        };
        self.store.put(at, key, number)
    }

    /// Removes what stands at the place, as `PlainStore::remove` does.
    pub(crate) fn remove(&mut self, at: ContextNo, key: KeyNo) -> Result<Option<u32>, PlainFault>
        ensures reply { IsAnswer what_stood any_lane (act.Remove (at, key)) self.old result }
        ensures state { IsMove any_lane (act.Remove (at, key)) self.old self.new }
        ensures limits { HasLimitsOf self.old self.new }
    {
        if self.is_spared(at, key) {
            return Err(PlainFault::Closed);
        }
        self.store.remove(at, key)
    }

    /// Claims the empty place for the lane, as `PlainStore::claim` does.
    pub(crate) fn claim(
        &mut self,
        at: ContextNo,
        key: KeyNo,
        lane: LaneNo,
    ) -> Result<(), PlainFault>
        ensures reply { UnlessMemory result (IsAnswer done lane (act.Claim (at, key)) self.old result) }
        ensures state { UnlessMemory result (IsMove lane (act.Claim (at, key)) self.old self.new) }
        ensures limits { HasLimitsOf self.old self.new }
        ensures memory { result ≡ Err fault.Memory → under (shown self.old) key at ≡ None }
        ensures unchanged { result ≡ Err fault.Memory → shown self.new ≡ shown self.old }
        ensures won { OnOk result (under (shown self.new) key at ≡ Some (slot.Claim lane)) }
    {
        if self.is_spared(at, key) {
            return Err(PlainFault::Closed);
        }
        let Ok(_) = self.note(at, key) else {
            return Err(PlainFault::Memory);
        };
        self.store.claim(at, key, lane)
    }

    /// Ends the lane's claim and stores the number at the place.
    pub(crate) fn fill(&mut self, at: ContextNo, key: KeyNo, lane: LaneNo, number: u32)
        requires { under (shown self.old) key at ≡ Some (slot.Claim lane) }
        ensures state { IsMove lane (act.Fill (at, key) number) self.old self.new }
        ensures limits { HasLimitsOf self.old self.new }
    {
        // It is never refused: a claimed place is in use already, so the fill takes no memory.
        let _ = self.store.fill(at, key, lane, number);
    }

    /// Ends the lane's claim and keeps the number at the place as that of a fault.
    pub(crate) fn fail(&mut self, at: ContextNo, key: KeyNo, lane: LaneNo, number: u32)
        requires { under (shown self.old) key at ≡ Some (slot.Claim lane) }
        ensures state { IsMove lane (act.Fail (at, key) number) self.old self.new }
        ensures limits { HasLimitsOf self.old self.new }
    {
        // Like a fill, it is never refused.
        let _ = self.store.fail(at, key, lane, number);
    }

    /// Ends the lane's claim and leaves the place empty.
    pub(crate) fn abandon(&mut self, at: ContextNo, key: KeyNo, lane: LaneNo)
        requires { under (shown self.old) key at ≡ Some (slot.Claim lane) }
        ensures state { IsMove lane (act.Abandon (at, key)) self.old self.new }
        ensures limits { HasLimitsOf self.old self.new }
    {
        self.store.abandon(at, key, lane);
    }

    /// Ends a context: seals its places that nobody used. Those that were used stay as they are.
    pub(crate) fn end(&mut self, at: ContextNo) -> Result<(), AllocError>
        ensures ended { OnOk result (HasEnded at self.old self.new) }
        ensures limits { HasLimitsOf self.old self.new }
    {
        self.ended.insert(at)?;
        Ok(())
    }

    /// The first used key of a context from this one on, among those that can have numbers.
    pub(crate) fn next_used(&self, at: ContextNo, from: KeyNo) -> Option<KeyNo>
        requires { from ≤ self.now.places }
        ensures next { IfSome result (IsNextUsed self.now at from) }
        ensures none { IfNone result ((key : ℕ) → from ≤ key → key < self.now.places → is_used self.now.used (at, key) ≡ false) }
    {
        match self.used.range((at, from)..(at, self.places)).next() {
            Some((_, key)) => Some(*key),
            None => None,
        }
    }

    /// Seals a used place, as `PlainStore::seal` does.
    pub(crate) fn seal(&mut self, at: ContextNo, key: KeyNo) -> Result<Option<u32>, PlainFault>
        requires { is_used self.old.used (at, key) ≡ true }
        ensures reply { UnlessMemory result (IsAnswer what_stood any_lane (act.Seal (at, key)) self.old result) }
        ensures state { UnlessMemory result (IsMove any_lane (act.Seal (at, key)) self.old self.new) }
        ensures limits { HasLimitsOf self.old self.new }
        ensures used { self.new.used ≡ self.old.used }
        ensures stands { IfOk result (λ kept. under (shown self.new) key at ≡ Some (slot.Sealed kept)) }
        ensures refused { OnErr result (kept_by (under (shown self.new) key at) ≡ None) }
    {
        self.store.seal(at, key)
    }

    // What a look-up answers that this context decides.
    fn look_in(&self, at: ContextNo, key: KeyNo) -> Look
        ensures { result ≡ look_in at (under (shown self.now) key at) }
    {
        match self.store.get(&[at], key) {
            Look::Absent if self.is_spared(at, key) => Look::Closed(at),
            found => found,
        }
    }

    // Whether nobody used the place and its context has ended, so that it is sealed.
    fn is_spared(&self, at: ContextNo, key: KeyNo) -> bool
        ensures { result ≡ is_spared self.now (at, key) }
    {
        self.ended.contains(&at) && key < self.places && !self.used.contains(&(at, key))
    }

    // Notes that a place is used. It is not one that its context's end has sealed.
    fn note(&mut self, at: ContextNo, key: KeyNo) -> Result<(), AllocError>
        requires { is_spared self.old (at, key) ≡ false }
        ensures used { OnOk result (is_used self.new.used (at, key) ≡ true) }
        ensures others { KeepsUsed self.old self.new }
        ensures state { shown self.new ≡ shown self.old }
        ensures vacant { OnErr result (under (shown self.old) key at ≡ None) }
    {
        self.used.insert((at, key))?;
        Ok(())
    }
}
