//! What a close needs of the store: seals, and what a lane knows.
ghost use Rattle.std.specs.Prelude.{◌≡◌, ◌+◌, ◌*◌, ◌<◌, ◌≤◌, [], length, is_some};
ghost use Rattle.ext_model.specs.declared.event.Act.TheVariants as act_is;
ghost use Rattle.ext_values.specs.Known.{known_at};
ghost use Rattle.ext_cells.specs.CellCalls.{ComesLast};
ghost use Rattle.ext_store.specs.Stores.{IsCloserOf, IsLaneOf, cell_in};
ghost use Rattle.ext_store.specs.LaneCalls.{Frame, steps_of, Stays};
ghost use Rattle.ext_store.specs.declared.computed.Compute.TheVariants.{Refused};
ghost use Rattle.ext_store.specs.ContextCalls.{SealsKey, SealsUnused};

use crate::{Closer, Lane, Refusal, Store};
use ext_model::KeyNo;

impl<V> Store<V> {
    /// Seals the key in the closer's context for good and answers the number of the value that
    /// stood there, which the seal keeps. A kept fault is discarded. For a key that is sealed
    /// already the answer is what its seal kept, and nothing happens.
    ///
    /// Refused as `Busy` with the context where a lane computes a value for it under this key, and
    /// otherwise as `Contended`, which counts events in this context under this key alone.
    #[tactic(auto, unfolding(crate::specs::LaneCalls::Frame))]
    pub fn seal(
        &self,
        lane: &mut Lane<V>,
        closer: &Closer,
        key: KeyNo,
    ) -> Result<Option<u32>, Refusal>
        requires lane { IsLaneOf self.now.id lane.old }
        requires closer { IsCloserOf self.now closer.now }
        requires key { key < length self.now.id.keys }
        ensures answer { SealsKey self.now closer.now.context key lane.old.cells lane.new.cells result }
        ensures contended { ComesLast Refusal.Contended self.now.tries lane.old.cells lane.new.cells (act_is.Seal (cell_in self.now key closer.now.context)) result }
        ensures stays { Stays self.now.id [] lane.old lane.new }
        ensures keys { lane.new.keys ≡ lane.old.keys }
        ensures steps { steps_of lane.old.cells lane.new.cells ≤ self.now.tries + 1 }
    {
        self.shared.seal(&mut lane.cells, closer.context, key)
    }

    /// Seals, at one step, the keys of a block of the closer's context under which there was no
    /// event yet: keys 0 to 31 are block 0, the next 32 block 1, and so on. Answers which of the
    /// others may hold something, the first of the block in bit 0. Their seals are left to `seal`.
    /// Never refused.
    #[tactic(auto, unfolding(crate::specs::LaneCalls::Frame))]
    pub fn seal_unused(&self, lane: &mut Lane<V>, closer: &Closer, block: usize) -> u32
        requires lane { IsLaneOf self.now.id lane.old }
        requires closer { IsCloserOf self.now closer.now }
        requires block { block * 32 < length self.now.id.keys }
        ensures answer { SealsUnused self.now closer.now.context block result lane.old.cells lane.new.cells }
        ensures stays { Stays self.now.id [] lane.old lane.new }
        ensures keys { lane.new.keys ≡ lane.old.keys }
        ensures steps { steps_of lane.old.cells lane.new.cells ≡ 1 }
    {
        self.shared
            .seal_unused(&mut lane.cells, closer.context, block)
    }

    /// Whether the lane knows the number's value: whether it kept the value or was shown it. False
    /// for a number that has no slot.
    pub fn knows(&self, lane: &Lane<V>, number: u32) -> bool
        ensures { result ≡ is_some (known_at lane.now.known number) }
    {
        lane.notes.knows(number)
    }
}
