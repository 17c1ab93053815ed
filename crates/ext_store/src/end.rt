//! The second of the two calls of a compute: a claim ends by a value (`fill`), by a fault (`fail`),
//! or empty (`abandon`).
ghost use Rattle.std.specs.Prelude.{ℕ, ◌≡◌, ◌≢◌, ◌+◌, ◌*◌, ◌<◌, ◌≤◌, [], IfErr, IfOk, IsTrue, MatchResult, Ok, Err};
ghost use Rattle.ext_model.specs.CallActs.{IsHeld};
ghost use Rattle.ext_model.specs.declared.event.Act.TheVariants as act_is;
ghost use Rattle.ext_values.specs.Known.{Learns};
ghost use Rattle.ext_cells.specs.CellCalls.{EndsClaim};
ghost use Rattle.ext_store.specs.Stores.{IsKeptBy, IsLaneOf, StillKeeps};
ghost use Rattle.ext_store.specs.LaneCalls.{Frame, steps_of, Stays, KnowsUnkept};
ghost use Rattle.ext_store.specs.Computing.{Fails, Fills, IsUnkept};
ghost use Rattle.ext_store.specs.Waiting.{IsDecidedFault};

use crate::{KeepFault, Lane, Store, StoreValue};
use ext_cells::Claim;
use ext_model::Fault;

impl<V: StoreValue + Drop> Store<V> {
    /// Ends the lane's claim by a value: keeps it, stores its number in the claimed cell, and
    /// answers the number. Wakes the lanes that wait for a claim to end. The claim must be the
    /// lane's. Takes memory for the value.
    ///
    /// Where the value is not kept, for the causes of `keep`, the claim is given up, nothing is
    /// stored, and the value is handed back.
    ///
    /// Javadoc `ExtensionContext.Store`, `getOrComputeIfAbsent`, from its factory on.
    #[tactic(auto, unfolding(crate::specs::LaneCalls::Frame))]
    pub fn fill(&self, lane: &mut Lane<V>, claim: Claim, value: V) -> Result<u32, (V, KeepFault)>
        requires lane { IsLaneOf self.now.id lane.old }
        requires held { IsHeld lane.old.cells.view claim }
        ensures events { MatchResult result (Fills self.now.id.cells.limits [] claim lane.old.cells.view lane.new.cells.view) (λ e. IsUnkept self.now.id.cells.limits self.now.tries [] claim lane.old.cells.view lane.new.cells.view e.1) }
        ensures known { MatchResult result (λ number. Learns lane.old.known lane.new.known number value) (λ e. (e.0 ≡ value) × KnowsUnkept lane.old.cells.view lane.new.cells.view lane.old.known lane.new.known e.1) }
        ensures faults { lane.new.faults ≡ lane.old.faults }
        ensures keys { lane.new.keys ≡ lane.old.keys }
        ensures lane { IsLaneOf self.now.id lane.new }
        ensures kept { StillKeeps lane.old lane.new }
        ensures apart { IfOk result (λ number. (m : ℕ) → IsKeptBy lane.old m → m ≢ number) }
        ensures frame { Frame self.now.id [] lane.old lane.new }
        ensures steps { steps_of lane.old.cells lane.new.cells ≤ self.now.tries + 3 }
    {
        match self.keep(lane, value) {
            Ok(kept) => {
                lane.tell_proof();
                let number = kept.number;
                self.shared.fill(&mut lane.cells, claim, number);
                Ok(number)
            }
            Err(unkept) => {
                lane.tell_proof();
                self.shared.abandon(&mut lane.cells, claim);
                Err(unkept)
            }
        }
    }

    /// Ends the claim as `fill` does, but draws again at once where other lanes were in the way, so
    /// that the value is never refused as `Contended`. It wakes nobody, so that a static library
    /// can use it. Call it only if no lane of this store ever waits: a sleeping lane would not be
    /// woken.
    #[tactic(auto, unfolding(crate::specs::LaneCalls::Frame))]
    pub fn fill_decided_quietly(
        &self,
        lane: &mut Lane<V>,
        claim: Claim,
        value: V,
    ) -> Result<u32, (V, KeepFault)>
        requires lane { IsLaneOf self.now.id lane.old }
        requires held { IsHeld lane.old.cells.view claim }
        ensures events { MatchResult result (Fills self.now.id.cells.limits [] claim lane.old.cells.view lane.new.cells.view) (λ e. IsUnkept self.now.id.cells.limits self.now.tries [] claim lane.old.cells.view lane.new.cells.view e.1) }
        ensures decided { IfErr result (λ e. IsDecidedFault e.1) }
        ensures known { MatchResult result (λ number. Learns lane.old.known lane.new.known number value) (λ e. (e.0 ≡ value) × KnowsUnkept lane.old.cells.view lane.new.cells.view lane.old.known lane.new.known e.1) }
        ensures faults { lane.new.faults ≡ lane.old.faults }
        ensures keys { lane.new.keys ≡ lane.old.keys }
        ensures lane { IsLaneOf self.now.id lane.new }
        ensures kept { StillKeeps lane.old lane.new }
        ensures apart { IfOk result (λ number. (m : ℕ) → IsKeptBy lane.old m → m ≢ number) }
        ensures frame { Frame self.now.id [] lane.old lane.new }
        ensures steps { steps_of lane.old.cells lane.new.cells ≤ 2 * self.now.id.cells.limits.numbers + self.now.tries + 3 }
    {
        match self.keep_wait(lane, value) {
            Ok(kept) => {
                lane.tell_proof();
                let number = kept.number;
                self.shared.fill_quietly(&mut lane.cells, claim, number);
                Ok(number)
            }
            Err(unkept) => {
                lane.tell_proof();
                self.shared.abandon_quietly(&mut lane.cells, claim);
                Err(unkept)
            }
        }
    }

    // Ends the claim as `fill_decided_quietly` does, and wakes the lanes that wait for a claim to
    // end.
    #[tactic(auto, unfolding(crate::specs::LaneCalls::Frame))]
    pub(crate) fn fill_decided(
        &self,
        lane: &mut Lane<V>,
        claim: Claim,
        value: V,
    ) -> Result<u32, (V, KeepFault)>
        requires lane { IsLaneOf self.now.id lane.old }
        requires held { IsHeld lane.old.cells.view claim }
        ensures events { MatchResult result (Fills self.now.id.cells.limits [] claim lane.old.cells.view lane.new.cells.view) (λ e. IsUnkept self.now.id.cells.limits self.now.tries [] claim lane.old.cells.view lane.new.cells.view e.1) }
        ensures decided { IfErr result (λ e. IsDecidedFault e.1) }
        ensures known { MatchResult result (λ number. Learns lane.old.known lane.new.known number value) (λ e. (e.0 ≡ value) × KnowsUnkept lane.old.cells.view lane.new.cells.view lane.old.known lane.new.known e.1) }
        ensures faults { lane.new.faults ≡ lane.old.faults }
        ensures apart { IfOk result (λ number. (m : ℕ) → IsKeptBy lane.old m → m ≢ number) }
        ensures frame { Frame self.now.id [] lane.old lane.new }
        ensures keys { lane.new.keys ≡ lane.old.keys }
    {
        let filled = self.fill_decided_quietly(lane, claim, value);
        self.shared.wake();
        filled
    }

    /// Ends the lane's claim by a fault: keeps it, stores its number in the claimed cell, and
    /// answers the number. The fault stands in the context until it is removed or replaced. Wakes
    /// the lanes that wait for a claim to end. The store must keep faults, which `keeps_faults`
    /// tests, and the claim must be the lane's. Takes memory for the fault.
    ///
    /// Where the fault is not kept, for the causes of `keep`, the claim is given up, and the fault
    /// is handed back.
    #[tactic(auto, unfolding(crate::specs::LaneCalls::Frame))]
    pub fn fail(
        &self,
        lane: &mut Lane<V>,
        claim: Claim,
        fault: Fault,
    ) -> Result<u32, (Fault, KeepFault)>
        requires lane { IsLaneOf self.now.id lane.old }
        requires faults { IsTrue self.now.id.cells.limits.keep_faults }
        requires held { IsHeld lane.old.cells.view claim }
        ensures events { MatchResult result (Fails self.now.id.cells.limits [] claim lane.old.cells.view lane.new.cells.view) (λ e. IsUnkept self.now.id.cells.limits self.now.tries [] claim lane.old.cells.view lane.new.cells.view e.1) }
        ensures known { lane.new.known ≡ lane.old.known }
        ensures faults { MatchResult result (λ number. Learns lane.old.faults lane.new.faults number fault) (λ e. (e.0 ≡ fault) × KnowsUnkept lane.old.cells.view lane.new.cells.view lane.old.faults lane.new.faults e.1) }
        ensures keys { lane.new.keys ≡ lane.old.keys }
        ensures lane { IsLaneOf self.now.id lane.new }
        ensures kept { StillKeeps lane.old lane.new }
        ensures frame { Frame self.now.id [] lane.old lane.new }
        ensures steps { steps_of lane.old.cells lane.new.cells ≤ self.now.tries + 3 }
    {
        match self.keep_fault(lane, fault) {
            Ok(number) => {
                lane.tell_proof();
                self.shared.fail(&mut lane.cells, claim, number);
                Ok(number)
            }
            Err(unkept) => {
                lane.tell_proof();
                self.shared.abandon(&mut lane.cells, claim);
                Err(unkept)
            }
        }
    }

    /// Ends the claim as `fail` does, but draws again at once where other lanes were in the way, so
    /// that the fault is never refused as `Contended`. It wakes nobody, so that a static library
    /// can use it. Call it only if no lane of this store ever waits: a sleeping lane would not be
    /// woken.
    #[tactic(auto, unfolding(crate::specs::LaneCalls::Frame))]
    pub fn fail_decided_quietly(
        &self,
        lane: &mut Lane<V>,
        claim: Claim,
        fault: Fault,
    ) -> Result<u32, (Fault, KeepFault)>
        requires lane { IsLaneOf self.now.id lane.old }
        requires faults { IsTrue self.now.id.cells.limits.keep_faults }
        requires held { IsHeld lane.old.cells.view claim }
        ensures events { MatchResult result (Fails self.now.id.cells.limits [] claim lane.old.cells.view lane.new.cells.view) (λ e. IsUnkept self.now.id.cells.limits self.now.tries [] claim lane.old.cells.view lane.new.cells.view e.1) }
        ensures decided { IfErr result (λ e. IsDecidedFault e.1) }
        ensures known { lane.new.known ≡ lane.old.known }
        ensures faults { MatchResult result (λ number. Learns lane.old.faults lane.new.faults number fault) (λ e. (e.0 ≡ fault) × KnowsUnkept lane.old.cells.view lane.new.cells.view lane.old.faults lane.new.faults e.1) }
        ensures keys { lane.new.keys ≡ lane.old.keys }
        ensures lane { IsLaneOf self.now.id lane.new }
        ensures kept { StillKeeps lane.old lane.new }
        ensures frame { Frame self.now.id [] lane.old lane.new }
        ensures steps { steps_of lane.old.cells lane.new.cells ≤ 2 * self.now.id.cells.limits.numbers + self.now.tries + 3 }
    {
        match self.keep_fault_decided(lane, fault) {
            Ok(number) => {
                lane.tell_proof();
                self.shared.fail_quietly(&mut lane.cells, claim, number);
                Ok(number)
            }
            Err(unkept) => {
                lane.tell_proof();
                self.shared.abandon_quietly(&mut lane.cells, claim);
                Err(unkept)
            }
        }
    }

    // Ends the claim as `fail_decided_quietly` does, and wakes the lanes that wait for a claim to
    // end.
    #[tactic(auto, unfolding(crate::specs::LaneCalls::Frame))]
    pub(crate) fn fail_decided(
        &self,
        lane: &mut Lane<V>,
        claim: Claim,
        fault: Fault,
    ) -> Result<u32, (Fault, KeepFault)>
        requires lane { IsLaneOf self.now.id lane.old }
        requires faults { IsTrue self.now.id.cells.limits.keep_faults }
        requires held { IsHeld lane.old.cells.view claim }
        ensures events { MatchResult result (Fails self.now.id.cells.limits [] claim lane.old.cells.view lane.new.cells.view) (λ e. IsUnkept self.now.id.cells.limits self.now.tries [] claim lane.old.cells.view lane.new.cells.view e.1) }
        ensures decided { IfErr result (λ e. IsDecidedFault e.1) }
        ensures known { lane.new.known ≡ lane.old.known }
        ensures faults { MatchResult result (λ number. Learns lane.old.faults lane.new.faults number fault) (λ e. (e.0 ≡ fault) × KnowsUnkept lane.old.cells.view lane.new.cells.view lane.old.faults lane.new.faults e.1) }
        ensures frame { Frame self.now.id [] lane.old lane.new }
        ensures keys { lane.new.keys ≡ lane.old.keys }
    {
        let failed = self.fail_decided_quietly(lane, claim, fault);
        self.shared.wake();
        failed
    }

    /// Gives the lane's claim up: nothing is stored. Wakes the lanes that wait for a claim to end.
    /// The claim must be the lane's. Never refused.
    #[tactic(auto, unfolding(crate::specs::LaneCalls::Frame))]
    pub fn abandon(&self, lane: &mut Lane<V>, claim: Claim)
        requires lane { IsLaneOf self.now.id lane.old }
        requires held { IsHeld lane.old.cells.view claim }
        ensures abandoned { EndsClaim lane.old.cells lane.new.cells (act_is.Abandon claim) }
        ensures stays { Stays self.now.id [] lane.old lane.new }
        ensures keys { lane.new.keys ≡ lane.old.keys }
        ensures steps { steps_of lane.old.cells lane.new.cells ≡ 2 }
    {
        self.abandon_quietly(lane, claim);
        self.shared.wake();
    }

    /// Gives the claim up as `abandon` does, but wakes nobody, so that a static library can use it.
    /// Call it only if no lane of this store ever waits: a sleeping lane would not be woken.
    #[tactic(auto, unfolding(crate::specs::LaneCalls::Frame))]
    pub fn abandon_quietly(&self, lane: &mut Lane<V>, claim: Claim)
        requires lane { IsLaneOf self.now.id lane.old }
        requires held { IsHeld lane.old.cells.view claim }
        ensures abandoned { EndsClaim lane.old.cells lane.new.cells (act_is.Abandon claim) }
        ensures stays { Stays self.now.id [] lane.old lane.new }
        ensures keys { lane.new.keys ≡ lane.old.keys }
        ensures steps { steps_of lane.old.cells lane.new.cells ≡ 2 }
    {
        self.shared.abandon_quietly(&mut lane.cells, claim);
    }
}
