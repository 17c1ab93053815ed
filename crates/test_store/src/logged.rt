//! A caller of `close` that concludes from its contract what its own action was given.
ghost use Rattle.std.specs.Prelude.{◌≡◌, ◌≤◌, List, ◌++◌, None, length, All, IfErr, IfOk};
ghost use Rattle.ext_model.specs.Closing.{IsFalling};
ghost use Rattle.ext_store.specs.Stores.{IsCloserOf, IsLaneOf};
ghost use Rattle.ext_closing.specs.Lanes.{first_lane};
ghost use Rattle.ext_closing.specs.Sealing.{numbers_left};
ghost use Rattle.ext_closing.specs.Closing.{AreCloseable};

use ext_closing::{CloseAction, CloseFault, Closed, close};
use ext_model::Fault;
use ext_store::{Closer, Lane, Store, StoreValue};

/// A close action that writes down the numbers that it is given. Where there is no memory for a
/// number, its close fails.
#[derive(Drop)]
pub struct Log {
    /// The numbers, in the order in which they were given.
    pub numbers: Vec<u32>,
}

impl<V> CloseAction<V> for Log {
    ghost use Rattle.std.specs.Prelude.{◌≡◌, [], ◌∷◌, ◌++◌, MatchResult};

    ghost close_gives = { λ before number value answer after. MatchResult answer (λ done. after.numbers.items ≡ before.numbers.items ++ number ∷ []) (λ fault. after.numbers.items ≡ before.numbers.items) };

    fn close(&mut self, number: u32, _value: &V) -> Result<(), Fault> {
        match self.numbers.push(number) {
            Ok(()) => Ok(()),
            Err(_) => Err(Fault::Memory),
        }
    }
}

/// Closes the context. Where no close failed, the log has exactly the remaining numbers whose value
/// is closeable, the greatest first, behind what it had; a close that is refused writes nothing
/// down.
pub fn close_logged<V: StoreValue + Drop>(
    store: &Store<V>,
    closer: Closer,
    lanes: &mut [Lane<V>],
    log: &mut Log,
) -> Result<Closed, (Closer, CloseFault)>
    requires lanes { 1 ≤ length lanes.old }
    requires own_lanes { All (IsLaneOf store.now.id) lanes.old }
    requires closer { IsCloserOf store.now closer }
    ensures logged { IfOk result (λ closed. closed.first_fault ≡ None
        → (numbers : List _) × AreCloseable V.is_closeable lanes.new (numbers_left store.now closer.context (first_lane store.now lanes.new)) numbers
        × IsFalling numbers × (log.new.numbers.items ≡ log.old.numbers.items ++ numbers)) }
    ensures nothing { IfErr result (λ e. log.new ≡ log.old) }
{
    close(store, closer, lanes, log)
}
