//! The end of a context.
ghost use Rattle.std.specs.Prelude.{◌≡◌, ◌≤◌, length, map, option_map, IfOk, OnOk};
ghost use Rattle.ext_plan.specs.Values.{close_fault, value_view};
ghost use Rattle.ext_plan_plain.specs.ValueStates.{value_of};
ghost use Rattle.ext_plan_plain.specs.ContextEnds.{seal_keys, numbers_left, closeables};
ghost use Rattle.ext_plan_plain.specs.InnerPlaces.{SparesUnused};
ghost use Rattle.ext_plan_plain.specs.InnerSteps.{state_view, only_closeable, HasClosed};

use crate::value_store::ValueStore;
use ext_lifecycle::{FaultOrigin, RunListener, tell_fault};
use ext_model::{Closed, ContextNo, FallingNumbers};
use ext_plan::{PlanValue, close_fault};
use std::alloc::{AllocError, Global};

impl<'a> ValueStore<'a> {
    /// Seals all places of a context, and returns the numbers that the seals keep, the greatest
    /// first. It costs as much as places of the context were used.
    pub(crate) fn seal_context(&mut self, at: ContextNo) -> Result<FallingNumbers<1024>, AllocError>
        ensures state { OnOk result (state_view self.new ≡ seal_keys (state_view self.old).places at (state_view self.old)) }
        ensures numbers { IfOk result (λ numbers. numbers ≡ numbers_left (state_view self.old).places at (state_view self.new)) }
    {
        self.store.end(at)?;
        self.seal_used(at)
    }

    /// Seals the used places of a context whose others are sealed.
    fn seal_used(&mut self, at: ContextNo) -> Result<FallingNumbers<1024>, AllocError>
        requires { SparesUnused at self.old.store }
        ensures state { OnOk result (state_view self.new ≡ seal_keys (state_view self.old).places at (state_view self.old)) }
        ensures numbers { IfOk result (λ numbers. numbers ≡ numbers_left (state_view self.old).places at (state_view self.new)) }
    {
        let mut numbers = FallingNumbers::new();
        let mut from = 0;
        while let Some(key) = self.store.next_used(at, from) {
            let kept = self.seal(at, key)?;
            numbers.put_in_kept(kept);
            from = key + 1;
        }
        Ok(numbers)
    }

    /// Closes the closeable ones among the values with these numbers, in order, each once, and
    /// counts them. A close that fails does not stop the others. Its fault is reported to the
    /// listener, as one of the node `at`.
    pub(crate) fn close_values<L: RunListener>(
        &self,
        alloc: Global,
        listener: &L,
        at: ContextNo,
        numbers: &[u32],
    ) -> Result<Closed, AllocError>
        requires { length numbers.now ≤ 1024 }
        ensures { IfOk result (λ closes. HasClosed closes (map close_fault (closeables (state_view self.now).values numbers.now))) }
    {
        let mut closes = Closed::new();
        for number in numbers {
            if let Some(value) = self.closeable(*number) {
                let fault = close_fault(alloc, &value)?;
                tell_fault(listener, at, FaultOrigin::Close, fault.as_ref());
                closes.add(fault);
            }
        }
        Ok(closes)
    }

    /// The value with this number, if it is closeable.
    fn closeable(&self, number: u32) -> Option<PlanValue<'a>>
        ensures { option_map value_view result ≡ only_closeable (value_of (state_view self.now).values number) }
    {
        match self.value_of(number) {
            Some(value) if value.closeable => Some(value),
            _ => None,
        }
    }
}
