//! Claims, under which missing values are computed.
ghost use Rattle.std.specs.Prelude.{◌≡◌, ◌+◌, ◌*◌, ◌<◌, ◌≤◌, IsTrue, MatchResult, length};
ghost use Rattle.ext_history.specs.Histories.{seen_by};
ghost use Rattle.ext_model.specs.History.{IsLegal};
ghost use Rattle.ext_model.specs.CallActs.{IsHeld, MayStoreNow};
ghost use Rattle.ext_model.specs.declared.event.Act.TheVariants as act_is;
ghost use Rattle.ext_cells.specs.CellCalls.{EndsClaim};
ghost use Rattle.ext_store_core.specs.ContextCalls.{IsTrail, steps_of};
ghost use Rattle.ext_store_core.specs.Claiming.{ClaimsAlong, ClaimsMissing, Stands, unused_of};
ghost use Rattle.ext_store_core.specs.InnerClaiming.{answer_of};

use crate::{Refusal, StoreCore};
use ext_cells::{CellLane, Claim, Claimed};
use ext_model::{ContextNo, KeyNo, Look};

/// Why a compute does not call its factory.
#[derive(Clone, Copy, Debug, PartialEq, Eq)]
pub enum Unused {
    /// The value of this number stands in `at`: the context itself, or its nearest ancestor where
    /// anything stands.
    Found { at: ContextNo, number: u32 },
    /// The kept fault of this number stands in `at`, for which a factory failed: the context
    /// itself, or its nearest ancestor where anything stands.
    FaultStands { at: ContextNo, number: u32 },
    /// The call was refused, for this reason.
    Refused(Refusal),
}

impl Unused {
    // Why no factory is called after this look-up, or `None` where it found nothing.
    pub(crate) fn of(looked: Result<Look, Refusal>) -> Option<Unused>
        ensures { result ≡ unused_of looked }
    {
        match looked {
            Ok(Look::Absent) => None,
            Ok(Look::Found { at, number }) => Some(Unused::Found { at, number }),
            Ok(Look::Fault { at, number }) => Some(Unused::FaultStands { at, number }),
            Ok(Look::Busy(at)) => Some(Unused::Refused(Refusal::Busy(at))),
            Ok(Look::Closed(at)) => Some(Unused::Refused(Refusal::Closed(at))),
            Err(why) => Some(Unused::Refused(why)),
        }
    }
}

// What an attempt to claim came to.
enum ClaimAttempt {
    Claimed(Claim),
    // The lane claimed nothing.
    Unclaimed(Unused),
    // The lane claimed the cell, and gave the claim up.
    GivenUp(Unused),
}

impl ClaimAttempt {
    fn answer(self) -> Result<Claim, Unused>
        ensures { result ≡ answer_of self }
    {
        match self {
            ClaimAttempt::Claimed(claim) => Ok(claim),
            ClaimAttempt::Unclaimed(unused) | ClaimAttempt::GivenUp(unused) => Err(unused),
        }
    }
}

impl StoreCore {
    /// Claims the cell of the key in the context where a look-up from there finds nothing, so that
    /// a value can be computed. After the claim the lane looks at the ancestors again. While the
    /// claim stands, calls of other lanes on the cell are refused as `Busy`. Where the lane gives
    /// the claim up again, it wakes the lanes that wait for a claim to end.
    ///
    /// `Unused::Found` where a value stands in the context or an ancestor, and
    /// `Unused::FaultStands` where a kept fault does, the nearest first. Refused at the first
    /// look-up as `Contended`, or as `Busy` or `Closed` where that decides; at the claim also as
    /// `Exhausted`, after more than 2^40 - 4 events in the context under the key; and at the second
    /// look-up as at the first. In that last case the lane has claimed the cell and given it up,
    /// two events there.
    pub fn claim(
        &self,
        lane: &mut CellLane,
        context: ContextNo,
        key: KeyNo,
    ) -> Result<Claim, Unused>
        requires lane { lane.old.cells ≡ self.now.cells }
        requires context { context < length self.now.tree }
        requires key { key < length self.now.keys }
        ensures lane { lane.new.cells ≡ lane.old.cells }
        ensures claim { ClaimsMissing self.now context key lane.old.view lane.new.view result }
        ensures steps { MatchResult result (λ _. steps_of lane.old lane.new ≤ 33 * (self.now.tries + 1)) (λ _. steps_of lane.old lane.new ≤ 33 * (self.now.tries + 1) + 2) }
    {
        let path = self.tree.path(context);
        self.claim_along(lane, path.as_slice(), key)
    }

    /// Claims as `claim` does, for the first context of the path, with the others as its ancestors.
    /// The path has at least one context, and `is_trail` tests the rest. Refused as `claim` is.
    pub fn claim_along(
        &self,
        lane: &mut CellLane,
        path: &[ContextNo],
        key: KeyNo,
    ) -> Result<Claim, Unused>
        requires lane { lane.old.cells ≡ self.now.cells }
        requires some { 1 ≤ length path.now }
        requires path { IsTrail self.now path.now }
        requires key { key < length self.now.keys }
        ensures lane { lane.new.cells ≡ lane.old.cells }
        ensures claim { ClaimsAlong self.now path.now key lane.old.view lane.new.view result }
        ensures steps { MatchResult result (λ _. steps_of lane.old lane.new ≤ 33 * (self.now.tries + 1)) (λ _. steps_of lane.old lane.new ≤ 33 * (self.now.tries + 1) + 2) }
    {
        let attempt = self.attempt(lane, path, key);
        if matches!(&attempt, ClaimAttempt::GivenUp(_)) {
            self.wake();
        }
        attempt.answer()
    }

    /// Claims as `claim` does, but wakes nobody where it gives the claim up. Call it only if no
    /// lane of this store ever waits: a sleeping lane would not be woken.
    pub fn claim_quietly(
        &self,
        lane: &mut CellLane,
        context: ContextNo,
        key: KeyNo,
    ) -> Result<Claim, Unused>
        requires lane { lane.old.cells ≡ self.now.cells }
        requires context { context < length self.now.tree }
        requires key { key < length self.now.keys }
        ensures lane { lane.new.cells ≡ lane.old.cells }
        ensures claim { ClaimsMissing self.now context key lane.old.view lane.new.view result }
        ensures steps { MatchResult result (λ _. steps_of lane.old lane.new ≤ 33 * (self.now.tries + 1)) (λ _. steps_of lane.old lane.new ≤ 33 * (self.now.tries + 1) + 2) }
    {
        let path = self.tree.path(context);
        self.claim_along_quietly(lane, path.as_slice(), key)
    }

    /// Claims as `claim_quietly` does, for the first context of the path, with the others as its
    /// ancestors. The path has at least one context, and `is_trail` tests the rest.
    pub fn claim_along_quietly(
        &self,
        lane: &mut CellLane,
        path: &[ContextNo],
        key: KeyNo,
    ) -> Result<Claim, Unused>
        requires lane { lane.old.cells ≡ self.now.cells }
        requires some { 1 ≤ length path.now }
        requires path { IsTrail self.now path.now }
        requires key { key < length self.now.keys }
        ensures lane { lane.new.cells ≡ lane.old.cells }
        ensures claim { ClaimsAlong self.now path.now key lane.old.view lane.new.view result }
        ensures steps { MatchResult result (λ _. steps_of lane.old lane.new ≤ 33 * (self.now.tries + 1)) (λ _. steps_of lane.old lane.new ≤ 33 * (self.now.tries + 1) + 2) }
    {
        self.attempt(lane, path, key).answer()
    }

    // Claims the cell of the first context of the path, and wakes nobody.
    fn attempt(&self, lane: &mut CellLane, path: &[ContextNo], key: KeyNo) -> ClaimAttempt
        requires lane { lane.old.cells ≡ self.now.cells }
        requires some { 1 ≤ length path.now }
        requires path { IsTrail self.now path.now }
        requires key { key < length self.now.keys }
        ensures lane { lane.new.cells ≡ lane.old.cells }
        ensures claim { ClaimsAlong self.now path.now key lane.old.view lane.new.view (answer_of result) }
        ensures steps { MatchResult (answer_of result) (λ _. steps_of lane.old lane.new ≤ 33 * (self.now.tries + 1)) (λ _. steps_of lane.old lane.new ≤ 33 * (self.now.tries + 1) + 2) }
    {
        let Some((first, ancestors)) = path.split_first() else {
            unreachable!()
        };
        let context = *first;
        if let Some(unused) = self.stands_along(lane, path, key) {
            return ClaimAttempt::Unclaimed(unused);
        }
        let claim = match self.cells.claim(lane, self.cell(context, key)) {
            Ok(Claimed::Won(claim)) => claim,
            Ok(Claimed::Standing(number)) => {
                return ClaimAttempt::Unclaimed(Unused::Found {
                    at: context,
                    number,
                });
            }
            Ok(Claimed::Fault(number)) => {
                return ClaimAttempt::Unclaimed(Unused::FaultStands {
                    at: context,
                    number,
                });
            }
            Err(why) => return ClaimAttempt::Unclaimed(Unused::Refused(Refusal::at(context, why))),
        };
        // An ancestor may have got a value between the first look and the claim. The claim keeps
        // all other lanes off the context's own cell, so from here on only the ancestors matter.
        match self.stands_along(lane, ancestors, key) {
            None => ClaimAttempt::Claimed(claim),
            Some(unused) => {
                self.abandon_quietly(lane, claim);
                ClaimAttempt::GivenUp(unused)
            }
        }
    }

    /// Stores the number in the claimed cell, which ends the claim, and wakes the lanes that wait
    /// for a claim to end. The claim must be the lane's, and the lane must have drawn the number
    /// and not stored it yet. Never refused.
    pub fn fill(&self, lane: &mut CellLane, claim: Claim, number: u32)
        requires lane { lane.old.cells ≡ self.now.cells }
        requires held { IsHeld lane.old.view claim }
        requires number { MayStoreNow lane.old.view number }
        ensures lane { lane.new.cells ≡ lane.old.cells }
        ensures filled { EndsClaim lane.old lane.new (act_is.Fill claim number) }
        ensures steps { steps_of lane.old lane.new ≡ 2 }
    {
        self.fill_quietly(lane, claim, number);
        self.wake();
    }

    /// Stores the number as `fill` does, but wakes nobody. Call it only if no lane of this store
    /// ever waits: a sleeping lane would not be woken.
    pub fn fill_quietly(&self, lane: &mut CellLane, claim: Claim, number: u32)
        requires lane { lane.old.cells ≡ self.now.cells }
        requires held { IsHeld lane.old.view claim }
        requires number { MayStoreNow lane.old.view number }
        ensures lane { lane.new.cells ≡ lane.old.cells }
        ensures filled { EndsClaim lane.old lane.new (act_is.Fill claim number) }
        ensures steps { steps_of lane.old lane.new ≡ 2 }
    {
        self.cells.fill(lane, claim, number);
    }

    /// Keeps the number of a fault in the claimed cell, which ends the claim, and wakes the lanes
    /// that wait for a claim to end. The store must keep faults, the claim must be the lane's, and
    /// the lane must have drawn the number and not stored it yet. Never refused.
    pub fn fail(&self, lane: &mut CellLane, claim: Claim, number: u32)
        requires lane { lane.old.cells ≡ self.now.cells }
        requires faults { IsTrue self.now.cells.limits.keep_faults }
        requires held { IsHeld lane.old.view claim }
        requires number { MayStoreNow lane.old.view number }
        ensures lane { lane.new.cells ≡ lane.old.cells }
        ensures failed { EndsClaim lane.old lane.new (act_is.Fail claim number) }
        ensures steps { steps_of lane.old lane.new ≡ 2 }
    {
        self.fail_quietly(lane, claim, number);
        self.wake();
    }

    /// Keeps a fault's number as `fail` does, but wakes nobody. Call it only if no lane of this
    /// store ever waits: a sleeping lane would not be woken.
    pub fn fail_quietly(&self, lane: &mut CellLane, claim: Claim, number: u32)
        requires lane { lane.old.cells ≡ self.now.cells }
        requires faults { IsTrue self.now.cells.limits.keep_faults }
        requires held { IsHeld lane.old.view claim }
        requires number { MayStoreNow lane.old.view number }
        ensures lane { lane.new.cells ≡ lane.old.cells }
        ensures failed { EndsClaim lane.old lane.new (act_is.Fail claim number) }
        ensures steps { steps_of lane.old lane.new ≡ 2 }
    {
        self.cells.fail(lane, claim, number);
    }

    /// Gives the claim up, and wakes the lanes that wait for a claim to end. The claim must be the
    /// lane's. Never refused.
    pub fn abandon(&self, lane: &mut CellLane, claim: Claim)
        requires lane { lane.old.cells ≡ self.now.cells }
        requires held { IsHeld lane.old.view claim }
        ensures lane { lane.new.cells ≡ lane.old.cells }
        ensures abandoned { EndsClaim lane.old lane.new (act_is.Abandon claim) }
        ensures steps { steps_of lane.old lane.new ≡ 2 }
    {
        self.abandon_quietly(lane, claim);
        self.wake();
    }

    /// Gives the claim up as `abandon` does, but wakes nobody. Call it only if no lane of this
    /// store ever waits: a sleeping lane would not be woken.
    pub fn abandon_quietly(&self, lane: &mut CellLane, claim: Claim)
        requires lane { lane.old.cells ≡ self.now.cells }
        requires held { IsHeld lane.old.view claim }
        ensures lane { lane.new.cells ≡ lane.old.cells }
        ensures abandoned { EndsClaim lane.old lane.new (act_is.Abandon claim) }
        ensures steps { steps_of lane.old lane.new ≡ 2 }
    {
        self.cells.abandon(lane, claim);
    }

    /// Wakes the lanes that wait for a claim to end, so that each tries again. Call it after a
    /// quiet end of a claim if lanes may wait. A static library cannot link it.
    pub fn wake(&self) {
        self.waiters.wake_all();
    }

    // What stands along the path, if anything, or why that can't be told. What the lane has seen
    // then is legal.
    fn stands_along(&self, lane: &mut CellLane, path: &[ContextNo], key: KeyNo) -> Option<Unused>
        requires lane { lane.old.cells ≡ self.now.cells }
        requires path { IsTrail self.now path.now }
        requires key { key < length self.now.keys }
        ensures lane { lane.new.cells ≡ lane.old.cells }
        ensures legal { IsLegal lane.old.cells.limits (seen_by lane.new.view) }
        ensures stands { Stands self.now path.now key lane.old lane.new result }
        ensures steps { steps_of lane.old lane.new ≤ 16 * (self.now.tries + 1) }
    {
        let looked = self.look_along(lane, path, key);
        lane.tell_proof();
        // Most often nothing stands there: one test is faster than the jump by a table.
        if looked == Ok(Look::Absent) {
            return None;
        }
        Unused::of(looked)
    }
}
