//! Keeping of a value, which gives it its number.
ghost use Rattle.std.specs.Prelude.{ℕ, ◌≡◌, ◌≢◌, ◌+◌, ◌*◌, ◌≤◌, [], IfErr, IfOk, MatchResult};
ghost use Rattle.ext_values.specs.Known.{KeepsKnown};
ghost use Rattle.ext_store.specs.Stores.{IsKeptBy, IsLaneOf, StillKeeps};
ghost use Rattle.ext_store.specs.LaneCalls.{Frame, KeepsAs, KeepsNothing, steps_of};
ghost use Rattle.ext_store.specs.Waiting.{IsDecidedFault};
ghost use Rattle.ext_lane.specs.Lent.{IsSame};

use crate::LentLane;
use ext_store::{KeepFault, Kept, StoreValue};

impl<'l, V: StoreValue + Drop> LentLane<'l, V> {
    /// Keeps a value under the next number, which the value has from then on, and which `put_wait`
    /// stores. Numbers begin at 1. Where other lanes were in the way it draws again at once, and
    /// waits for nobody, as `Store::keep_wait` does. Takes memory for the value.
    ///
    /// Refused, with the value handed back, as `Memory`; as `NumbersFull` where all numbers were
    /// drawn; and as `Unplaced` where another value stands in the number's slot: the number is
    /// lost then. An own rule: JUnit numbers values as they are stored.
    pub fn keep_wait(&mut self, value: V) -> Result<Kept, (V, KeepFault)>
        ensures answer { MatchResult result (KeepsAs value self.old.lane.now self.new.lane.now) (λ e. KeepsNothing self.old.store.now value self.old.lane.now self.new.lane.now e.0 e.1) }
        ensures decided { IfErr result (λ e. IsDecidedFault e.1) }
        ensures lane { IsLaneOf self.old.store.now.id self.new.lane.now }
        ensures known { KeepsKnown self.old.lane.now.known self.new.lane.now.known }
        ensures faults { self.new.lane.now.faults ≡ self.old.lane.now.faults }
        ensures keys { self.new.lane.now.keys ≡ self.old.lane.now.keys }
        ensures kept { StillKeeps self.old.lane.now self.new.lane.now }
        ensures apart { IfOk result (λ number. (m : ℕ) → IsKeptBy self.old.lane.now m → m ≢ number) }
        ensures frame { Frame self.old.store.now.id [] self.old.lane.now self.new.lane.now }
        ensures steps { steps_of self.old.lane.now.cells self.new.lane.now.cells ≤ 2 * self.old.store.now.id.cells.limits.numbers + self.old.store.now.tries + 1 }
        ensures same { IsSame self.old self.new }
    {
        self.store.keep_wait(self.lane, value)
    }
}
