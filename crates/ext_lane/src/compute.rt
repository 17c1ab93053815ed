//! A compute: a value is made where none is found.
ghost use Rattle.std.specs.Prelude.{ℕ, ◌≡◌, ◌≢◌, ◌<◌, ◌≤◌, IsFalse, length};
ghost use Rattle.std.specs.Fn.{FnOnceReturnsAt};
ghost use Rattle.ext_tree.specs.Keys.{PlacesOnly};
ghost use Rattle.ext_store_core.specs.declared.claim.Unused.TheVariants as unused;
ghost use Rattle.ext_store.specs.Stores.{IsKeptBy};
ghost use Rattle.ext_store.specs.LaneCalls.{OfKey, Grows};
ghost use Rattle.ext_store.specs.Computing.{HandsBack, IfComputed, IsFaultless, Uses, without_factory};
ghost use Rattle.ext_store.specs.declared.computed.Compute.TheVariants.{Refused};
ghost use Rattle.ext_store.specs.Waiting.{ComputesAfterWaits, IsDecidedCompute};
ghost use Rattle.ext_lane.specs.Lent.{IsSame};

use crate::LentLane;
use ext_model::{ContextNo, Fault};
use ext_store::{Compute, Refusal, StoreValue};
use ext_tree::Key;
use std::sync::Wait;

impl<'l, V: StoreValue + Drop> LentLane<'l, V> {
    /// Computes a value for the key where a look-up from the context finds none, and stores it in
    /// the context itself, as `Store::compute_wait` does. The factory is called with the key, at
    /// most once, and other lanes that compute for the key wait until it has ended. `found_or_made`
    /// makes a value or a fault of the answer. Takes memory for the value, and may take it for a
    /// key that is new to the lane. It may wait.
    ///
    /// Refused, with the factory handed back, for the key, as `DirectoryFull` or `Memory`; as
    /// `Closed` where that decides, and for a context that isn't there; and as `Exhausted` after
    /// more than 2^40 - 4 events in the context under the key. What the other answers are
    /// `Store::compute` says.
    ///
    /// Javadoc `ExtensionContext.Store`, `getOrComputeIfAbsent`: it waits for a running factory.
    #[tactic(auto, using(crate::proofs::Unmoved::grows_unmoved))]
    pub fn compute_wait<R: Wait, F: FnOnce(&Key) -> Result<V, Fault>>(
        &mut self,
        rt: &R,
        context: ContextNo,
        key: &Key,
        factory: F,
    ) -> Compute<V, F>
        requires factory { F.IsAlwaysCallable factory }
        ensures answer { context < length self.old.store.now.tree → OfKey self.old.lane.now self.new.lane.now key.now (λ why. result ≡ Refused why factory) (λ number. ComputesAfterWaits self.old.store.now context number self.old.lane.now.cells self.new.lane.now.cells (without_factory result)) }
        ensures decided { IsDecidedCompute result }
        ensures factory { Uses (λ answer. FnOnceReturnsAt F.FnOnce factory key.now answer) self.old.lane.now self.new.lane.now (without_factory result) }
        ensures handed_back { HandsBack factory result }
        ensures no_faults { IsFalse self.old.store.now.id.cells.limits.keep_faults → IsFaultless result }
        ensures grows { Grows self.old.store.now.id self.old.lane.now self.new.lane.now }
        ensures apart { IfComputed result (λ number. (m : ℕ) → IsKeptBy self.old.lane.now m → m ≢ number) }
        ensures placed { PlacesOnly key.now self.old.lane.now.keys self.new.lane.now.keys }
        ensures same { IsSame self.old self.new }
        ensures no_context { length self.old.store.now.tree ≤ context → (result ≡ Refused (Refusal.Closed context) factory) × (self.new.lane.now ≡ self.old.lane.now) }
    {
        if context >= self.store.tree().len() {
            return Compute::Refused {
                refusal: Refusal::Closed(context),
                unused: factory,
            };
        }
        self.store
            .compute_wait(rt, self.lane, context, key, factory)
    }
}
