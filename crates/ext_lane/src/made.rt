//! What is made of a compute's answer.
ghost use Rattle.std.specs.Prelude.{◌≡◌, IfErr, IfOk};
ghost use Rattle.ext_store.specs.FoundOrMade.{IsFaultOf, IsMadeOf};
ghost use Rattle.ext_store.specs.LaneCalls.{Grows};
ghost use Rattle.ext_lane.specs.Lent.{IsSame};

use crate::LentLane;
use ext_model::Fault;
use ext_store::{Compute, Made, StoreValue};

impl<'l, V: StoreValue + Drop> LentLane<'l, V> {
    /// Answers the value that a compute of this lane found or made, or the fault by which a test
    /// may fail: that of the factory, a kept one, or the text of why there is no value, as
    /// `Store::found_or_made` does. The value stays in the store, and may be held longer than the
    /// lane. Takes memory for the text of a fault alone; `Fault::Memory` stands in its place where
    /// there is none.
    ///
    /// JUnit's `getOrComputeIfAbsent` answers the value itself, or throws: Javadoc
    /// `ExtensionContext.Store`.
    pub fn found_or_made<F: Drop>(&mut self, answer: Compute<V, F>) -> Result<Made<'l, V>, Fault>
        ensures value { IfOk result (λ made. IsMadeOf self.old.lane.now self.new.lane.now answer made.number made.is_new made.value.now) }
        ensures fault { IfErr result (IsFaultOf self.old.lane.now self.new.lane.now answer) }
        ensures still { (self.new.lane.now.cells ≡ self.old.lane.now.cells) × (self.new.lane.now.keys ≡ self.old.lane.now.keys) }
        ensures grows { Grows self.old.store.now.id self.old.lane.now self.new.lane.now }
        ensures same { IsSame self.old self.new }
    {
        self.store.found_or_made(answer, self.lane)
    }
}
