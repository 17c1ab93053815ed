//! The store of a plain run, with the values of its numbers.
ghost use Rattle.std.specs.Prelude.{◌≡◌, ◌≤◌, true, None, Some, option_map, IfErr, IfOk, OnErr, OnOk};
ghost use Rattle.ext_model.specs.declared.event.Act.TheVariants as act;
ghost use Rattle.ext_model.specs.declared.slot.Slot.TheVariants as slot;
ghost use Rattle.ext_model.specs.State.{lookup};
ghost use Rattle.ext_model.specs.Plain.{any_lane, under};
ghost use Rattle.ext_model.specs.Closing.{kept_by};
ghost use Rattle.ext_plan.specs.Values.{value_view};
ghost use Rattle.ext_plan_plain.specs.declared.lack.Lack.TheVariants as lacks;
ghost use Rattle.ext_plan_plain.specs.InnerUsed.{is_used};
ghost use Rattle.ext_plan_plain.specs.ValueStates.{after_act, why_refused, value_of, value_opening};

use crate::lack::{Lack, StepLack};
use crate::place_store::PlaceStore;
use crate::reasons::reason_if_refused;
use ext_model::{ContextNo, KeyNo, LaneNo, Look, PlainFault};
use ext_plan::{PlanValue, Reason};
use ext_tree::{Directory, Key};
use std::alloc::{AllocError, Global};

/// The one lane of a plain run.
const LANE: LaneNo = 0;

/// The store of a plain run. A step's call that is refused returns the reason, or that it lacked
/// memory.
#[derive(Drop)]
pub(crate) struct ValueStore<'a> {
    keep_faults: bool,
    pub(crate) store: PlaceStore,
    /// The keys that have a number.
    keys: Directory,
    /// The kept values; the first has number 1. The text of a kept fault is among them, as a value
    /// that is not closeable.
    values: Vec<PlanValue<'a>>,
}

impl<'a> ValueStore<'a> {
    ghost use Rattle.ext_plan_plain.specs.InnerSteps.{state_view, Declares, Keeps};

    /// Makes an empty store with places for so many keys, which draws at most so many numbers and
    /// keeps the faults of factories or not.
    pub(crate) fn new(
        alloc: Global,
        keep_faults: bool,
        places: usize,
        numbers: u32,
    ) -> ValueStore<'a>
        requires { places ≤ 1024 }
        ensures { state_view result ≡ value_opening keep_faults places numbers }
    {
        ValueStore {
            keep_faults,
            store: PlaceStore::new(alloc, places, numbers),
            keys: Directory::new(alloc),
            values: Vec::new(alloc),
        }
    }

    /// Whether the store keeps the faults of factories that fail.
    pub(crate) fn keeps_faults(&self) -> bool
        ensures { result ≡ (state_view self.now).keep_faults }
    {
        self.keep_faults
    }

    /// Declares a key: returns its number, the next one if it had none, or why it gets none.
    pub(crate) fn declare(&mut self, key: &Key) -> Result<Result<KeyNo, Reason>, StepLack>
        ensures { Declares key.now (state_view self.old) (state_view self.new) result }
    {
        if let Some(number) = self.keys.number_of(key) {
            return Ok(Ok(number));
        }
        if self.keys.len() >= self.store.places {
            return Ok(Err(Reason::DirectoryFull));
        }
        let Ok(copy) = key.clone() else {
            return Err(StepLack::Number);
        };
        match self.keys.declare(copy, self.store.places) {
            Ok(number) => Ok(Ok(number)),
            Err(_) => Err(StepLack::Number),
        }
    }

    /// Keeps a value, and returns the number that it draws.
    pub(crate) fn keep(&mut self, value: PlanValue<'a>) -> Result<Result<u32, Reason>, Lack>
        ensures kept { IfOk result (Keeps (value_view value.entry) (state_view self.old) (state_view self.new)) }
        ensures lacks { IfErr result (λ lack. lack ≡ lacks.Value) }
        ensures unchanged { OnErr result (state_view self.new ≡ state_view self.old) }
    {
        // The first number is 1: the value with number n is the n-th that was pushed, before its
        // number is drawn.
        self.values.push(value)?;
        match self.store.keep() {
            Ok(number) => Ok(Ok(number)),
            Err(_) => {
                // It is refused only if all numbers have been drawn.
                let _ = self.values.pop();
                Ok(Err(Reason::NumbersFull))
            }
        }
    }

    /// Looks up along a path.
    pub(crate) fn look(&self, path: &[ContextNo], key: KeyNo) -> Look
        ensures { result ≡ lookup (under (state_view self.now).store key) path.now }
    {
        self.store.get(path, key)
    }

    /// The value with this number, from 1; `None` if the number was never drawn.
    pub(crate) fn value_of(&self, number: u32) -> Option<PlanValue<'a>>
        ensures { option_map value_view result ≡ value_of (state_view self.now).values number }
    {
        match number.checked_sub(1) {
            None => None,
            Some(place) => self.values.get(place as usize).copied(),
        }
    }

    /// Stores a number, or returns why it is refused.
    pub(crate) fn put(
        &mut self,
        at: ContextNo,
        key: KeyNo,
        number: u32,
    ) -> Result<Option<Reason>, Lack>
        ensures state { OnOk result (state_view self.new ≡ after_act (act.Put (at, key) number) (state_view self.old)) }
        ensures why { IfOk result (λ why. why ≡ why_refused (act.Put (at, key) number) (state_view self.old)) }
        ensures lacks { IfErr result (λ lack. lack ≡ lacks.Place) }
        ensures vacant { OnErr result (under (state_view self.old).store key at ≡ None) }
        ensures unchanged { OnErr result (state_view self.new ≡ state_view self.old) }
    {
        reason_if_refused(self.store.put(at, key, number))
    }

    /// Removes what stands there, or returns why it is refused.
    pub(crate) fn remove(&mut self, at: ContextNo, key: KeyNo) -> Option<Reason>
        ensures state { state_view self.new ≡ after_act (act.Remove (at, key)) (state_view self.old) }
        ensures why { result ≡ why_refused (act.Remove (at, key)) (state_view self.old) }
    {
        match reason_if_refused(self.store.remove(at, key)) {
            Ok(why) => why,
            // A remove takes no memory.
            Err(_) => unreachable!(),
        }
    }

    /// Claims an empty place, or returns why it is refused.
    pub(crate) fn claim(&mut self, at: ContextNo, key: KeyNo) -> Result<Option<Reason>, Lack>
        ensures state { OnOk result (state_view self.new ≡ after_act (act.Claim (at, key)) (state_view self.old)) }
        ensures why { IfOk result (λ why. why ≡ why_refused (act.Claim (at, key)) (state_view self.old)) }
        ensures lacks { IfErr result (λ lack. lack ≡ lacks.Place) }
        ensures allowed { OnErr result (why_refused (act.Claim (at, key)) (state_view self.old) ≡ None) }
        ensures unchanged { OnErr result (state_view self.new ≡ state_view self.old) }
        ensures won { IfOk result (λ why. why ≡ None → under (state_view self.new).store key at ≡ Some (slot.Claim any_lane)) }
    {
        reason_if_refused(self.store.claim(at, key, LANE))
    }

    /// Stores a number in a claimed place.
    pub(crate) fn fill(&mut self, at: ContextNo, key: KeyNo, number: u32)
        requires { under (state_view self.old).store key at ≡ Some (slot.Claim any_lane) }
        ensures { state_view self.new ≡ after_act (act.Fill (at, key) number) (state_view self.old) }
    {
        self.store.fill(at, key, LANE, number);
    }

    /// Stores the number of a kept fault in a claimed place.
    pub(crate) fn fail(&mut self, at: ContextNo, key: KeyNo, number: u32)
        requires { under (state_view self.old).store key at ≡ Some (slot.Claim any_lane) }
        ensures { state_view self.new ≡ after_act (act.Fail (at, key) number) (state_view self.old) }
    {
        self.store.fail(at, key, LANE, number);
    }

    /// Ends a claim: the place is empty.
    pub(crate) fn abandon(&mut self, at: ContextNo, key: KeyNo)
        requires { under (state_view self.old).store key at ≡ Some (slot.Claim any_lane) }
        ensures { state_view self.new ≡ after_act (act.Abandon (at, key)) (state_view self.old) }
    {
        self.store.abandon(at, key, LANE);
    }

    /// Seals a used place, and returns the number that the seal keeps.
    pub(crate) fn seal(&mut self, at: ContextNo, key: KeyNo) -> Result<Option<u32>, AllocError>
        requires { is_used self.old.store.used (at, key) ≡ true }
        ensures used { self.new.store.used ≡ self.old.store.used }
        ensures state { OnOk result (state_view self.new ≡ after_act (act.Seal (at, key)) (state_view self.old)) }
        ensures kept { IfOk result (λ kept. kept ≡ kept_by (under (state_view self.new).store key at)) }
    {
        match self.store.seal(at, key) {
            Ok(kept) => Ok(kept),
            Err(PlainFault::Memory) => Err(AllocError),
            // It would be refused by a claim, but one thread has no claims between two steps.
            Err(_) => Ok(None),
        }
    }
}
