//! The waiting forms of the calls. What met a running factory is tried again once a claim has
//! ended, and what other lanes were in the way of at once.
ghost use Rattle.std.specs.Prelude.{◌≡◌, ◌≢◌, ◌<◌, ◌≤◌, Err, IfErr, IfOk, IsFalse, Ok, length};
ghost use Rattle.ext_model.specs.CallActs.{MayStoreNow};
ghost use Rattle.ext_cells.specs.declared.refusal.CellRefusal.TheVariants as cell_refusal;
ghost use Rattle.ext_cells.specs.CellCalls as cells;
ghost use Rattle.ext_store_core.specs.ContextCalls.{Gets, GetsAlong, IsFaultlessLook, IsTrail, Puts, Removes, with_kept};
ghost use Rattle.ext_store_core.specs.InnerLooking.{LooksAt};
ghost use Rattle.ext_store_core.specs.Waiting.{announced_after, ClaimsAlongAfterWaits, IsDecided, IsDecidedLook, IsDecidedUnused};

use crate::found::unless_busy;
use crate::{Refusal, StoreCore, Unused};
use ext_cells::{CellLane, CellRefusal, Claim};
use ext_model::{ContextNo, KeyNo, Look};
use ext_waiters::Waiting;
use std::sync::{Forever, Wait};

// What a lane does before it tries again. If it met a running factory it announces that it waits,
// or sleeps if it has announced that and tried once more since. If other lanes were in the way it
// does nothing.
fn pause<R: Wait>(rt: &R, waiting: &mut Waiting<'_>, met: Refusal)
    ensures { waiting.new ≡ announced_after met waiting.old }
{
    if matches!(met, Refusal::Busy(_)) {
        waiting.pause(rt);
    }
}

impl StoreCore {
    /// Looks up the key as `get` does, and looks again until neither a running factory nor other
    /// lanes are in the way. While the nearest entry is a factory that still runs, it sleeps until
    /// a claim has ended. So it never answers `Look::Busy`, and is never refused. It may wait.
    ///
    /// Javadoc `ExtensionContext.Store`, `get`, which waits for a running factory too.
    pub fn get_wait<R: Wait>(
        &self,
        rt: &R,
        lane: &mut CellLane,
        context: ContextNo,
        key: KeyNo,
    ) -> Look
        requires lane { lane.old.cells ≡ self.now.cells }
        requires context { context < length self.now.tree }
        requires key { key < length self.now.keys }
        ensures lane { lane.new.cells ≡ lane.old.cells }
        ensures answer { Gets self.now context key lane.old lane.new (Ok result) }
        ensures no_faults { IsFalse self.now.cells.limits.keep_faults → IsFaultlessLook result }
        ensures decided { IsDecidedLook result }
    {
        let path = self.tree.path(context);
        self.get_along_wait(rt, lane, path.as_slice(), key)
    }

    /// Looks for the key in the contexts of the path as `get_along` does, and looks again as
    /// `get_wait` does. The path has at least one context, and `is_trail` tests the rest. Never
    /// refused. It may wait.
    pub fn get_along_wait<R: Wait>(
        &self,
        rt: &R,
        lane: &mut CellLane,
        path: &[ContextNo],
        key: KeyNo,
    ) -> Look
        requires lane { lane.old.cells ≡ self.now.cells }
        requires some { 1 ≤ length path.now }
        requires path { IsTrail self.now path.now }
        requires key { key < length self.now.keys }
        ensures lane { lane.new.cells ≡ lane.old.cells }
        ensures answer { GetsAlong self.now path.now key lane.old lane.new (Ok result) }
        ensures no_faults { IsFalse self.now.cells.limits.keep_faults → IsFaultlessLook result }
        ensures decided { IsDecidedLook result }
    {
        let looked = self.wait_along(rt, lane, path, key);
        lane.tell_proof();
        looked
    }

    // Looks up the key along the path until no factory decides it.
    fn wait_along<R: Wait>(
        &self,
        rt: &R,
        lane: &mut CellLane,
        path: &[ContextNo],
        key: KeyNo,
    ) -> Look
        requires lane { lane.old.cells ≡ self.now.cells }
        requires path { IsTrail self.now path.now }
        requires key { key < length self.now.keys }
        ensures lane { lane.new.cells ≡ lane.old.cells }
        ensures look { LooksAt self.now path.now key lane.old lane.new result }
        ensures decided { IsDecidedLook result }
    {
        let mut waiting = self.waiters.begin();
        for _ in rt.forever() {
            match unless_busy(self.look_along(lane, path, key)) {
                Ok(look) => return look,
                Err(met) => pause(rt, &mut waiting, met),
            }
        }
        unreachable!()
    }

    /// Stores the number as `put` does, and tries again until neither a running factory nor other
    /// lanes are in the way. While a lane computes a value for the context, it sleeps until a claim
    /// has ended. So it is never refused as `Busy` or `Contended`, and otherwise as `put` is. It
    /// may wait.
    ///
    /// Javadoc `ExtensionContext.Store`, `put`, which replaces at once: JUnit waits for no factory
    /// here.
    pub fn put_wait<R: Wait>(
        &self,
        rt: &R,
        lane: &mut CellLane,
        context: ContextNo,
        key: KeyNo,
        number: u32,
    ) -> Result<Option<u32>, Refusal>
        requires lane { lane.old.cells ≡ self.now.cells }
        requires context { context < length self.now.tree }
        requires key { key < length self.now.keys }
        requires number { MayStoreNow lane.old.view number }
        ensures lane { lane.new.cells ≡ lane.old.cells }
        ensures answer { Puts self.now context key number lane.old lane.new (with_kept number result) }
        ensures decided { IfErr result IsDecided }
    {
        let mut waiting = self.waiters.begin();
        for _ in rt.forever() {
            let met = match self.put(lane, context, key, number) {
                Ok(stood) => return Ok(stood),
                Err(why) => why,
            };
            if met.is_decided() {
                return Err(met);
            }
            pause(rt, &mut waiting, met);
        }
        unreachable!()
    }

    /// Takes what stands under the key as `remove` does, and tries again until neither a running
    /// factory nor other lanes are in the way. While a lane computes a value for the context, it
    /// sleeps until a claim has ended. So it is never refused as `Busy` or `Contended`, and
    /// otherwise as `remove` is. It may wait.
    ///
    /// Javadoc `ExtensionContext.Store`, `remove`, which takes the entry at once: JUnit waits for
    /// no factory here.
    pub fn remove_wait<R: Wait>(
        &self,
        rt: &R,
        lane: &mut CellLane,
        context: ContextNo,
        key: KeyNo,
    ) -> Result<Option<u32>, Refusal>
        requires lane { lane.old.cells ≡ self.now.cells }
        requires context { context < length self.now.tree }
        requires key { key < length self.now.keys }
        ensures lane { lane.new.cells ≡ lane.old.cells }
        ensures answer { Removes self.now context key lane.old lane.new result }
        ensures decided { IfErr result IsDecided }
    {
        let mut waiting = self.waiters.begin();
        for _ in rt.forever() {
            let met = match self.remove(lane, context, key) {
                Ok(stood) => return Ok(stood),
                Err(why) => why,
            };
            if met.is_decided() {
                return Err(met);
            }
            pause(rt, &mut waiting, met);
        }
        unreachable!()
    }

    /// Claims the cell as `claim_along` does, and tries again until neither a running factory nor
    /// other lanes are in the way. While a running factory decides a look-up or the claim, it
    /// sleeps until a claim has ended. So it is never refused as `Busy` or `Contended`, and
    /// otherwise as `claim_along` is. Where it meets a factory in an ancestor, it gives its own
    /// claim up before it waits. Before its last attempt it gives no claim up except for that or
    /// for other lanes in the way. It may wait.
    pub fn claim_along_wait<R: Wait>(
        &self,
        rt: &R,
        lane: &mut CellLane,
        path: &[ContextNo],
        key: KeyNo,
    ) -> Result<Claim, Unused>
        requires lane { lane.old.cells ≡ self.now.cells }
        requires some { 1 ≤ length path.now }
        requires path { IsTrail self.now path.now }
        requires key { key < length self.now.keys }
        ensures lane { lane.new.cells ≡ lane.old.cells }
        ensures claim { ClaimsAlongAfterWaits self.now path.now key lane.old.view lane.new.view result }
        ensures decided { IfErr result IsDecidedUnused }
    {
        let mut waiting = self.waiters.begin();
        for _ in rt.forever() {
            let met = match self.claim_along(lane, path, key) {
                Ok(claim) => return Ok(claim),
                Err(Unused::Found { at, number }) => return Err(Unused::Found { at, number }),
                Err(Unused::FaultStands { at, number }) => {
                    return Err(Unused::FaultStands { at, number });
                }
                Err(Unused::Refused(why)) => why,
            };
            if met.is_decided() {
                return Err(Unused::Refused(met));
            }
            pause(rt, &mut waiting, met);
        }
        unreachable!()
    }
}
