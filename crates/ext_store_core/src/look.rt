//! The look-up of a key from a context through its ancestors.
ghost use Rattle.std.specs.Prelude.{◌≡◌, ◌+◌, ◌*◌, ◌<◌, ◌≤◌, IfOk, IsFalse, length};
ghost use Rattle.ext_store_core.specs.ContextCalls.{Gets, GetsAlong, IsFaultlessLook, IsTrail, steps_of};
ghost use Rattle.ext_store_core.specs.InnerLooking.{Looks};

use crate::found::found_at;
use crate::{Refusal, StoreCore};
use ext_cells::{CellLane, CellRefusal};
use ext_model::{ContextNo, KeyNo, Look};

impl StoreCore {
    /// Looks for the key in the context and then in its ancestors, the nearest first, at one point
    /// of the call. The first of these where anything stands under the key decides.
    ///
    /// Refused only as `Contended`, which counts events on the key's cells along the path. That a
    /// context has a kept fault, computes a value or is closed is an answer. A store that keeps no
    /// faults answers none.
    ///
    /// Javadoc `ExtensionContext.Store`, `get`.
    #[inline(always)]
    pub fn get(&self, lane: &mut CellLane, context: ContextNo, key: KeyNo) -> Result<Look, Refusal>
        requires lane { lane.old.cells ≡ self.now.cells }
        requires context { context < length self.now.tree }
        requires key { key < length self.now.keys }
        ensures lane { lane.new.cells ≡ lane.old.cells }
        ensures answer { Gets self.now context key lane.old lane.new result }
        ensures no_faults { IsFalse self.now.cells.limits.keep_faults → IfOk result IsFaultlessLook }
        ensures steps { steps_of lane.old lane.new ≤ 16 * (self.now.tries + 1) }
    {
        let path = self.tree.path(context);
        self.get_along(lane, path.as_slice(), key)
    }

    /// Looks for the key in the contexts of the path, the first one first, at one point of the
    /// call, as `get` does along the path of a context. The path has at least one context, and
    /// `is_trail` tests the rest. Refused as `get` is.
    ///
    /// For contexts that are opened during a run: their path is what their opener says.
    #[inline(always)]
    pub fn get_along(
        &self,
        lane: &mut CellLane,
        path: &[ContextNo],
        key: KeyNo,
    ) -> Result<Look, Refusal>
        requires lane { lane.old.cells ≡ self.now.cells }
        requires some { 1 ≤ length path.now }
        requires path { IsTrail self.now path.now }
        requires key { key < length self.now.keys }
        ensures lane { lane.new.cells ≡ lane.old.cells }
        ensures answer { GetsAlong self.now path.now key lane.old lane.new result }
        ensures no_faults { IsFalse self.now.cells.limits.keep_faults → IfOk result IsFaultlessLook }
        ensures steps { steps_of lane.old lane.new ≤ 16 * (self.now.tries + 1) }
    {
        let looked = self.look_along(lane, path, key);
        lane.tell_proof();
        looked
    }

    // The look-up of the key along the path.
    #[inline(always)]
    pub(crate) fn look_along(
        &self,
        lane: &mut CellLane,
        path: &[ContextNo],
        key: KeyNo,
    ) -> Result<Look, Refusal>
        requires lane { lane.old.cells ≡ self.now.cells }
        requires path { IsTrail self.now path.now }
        requires key { key < length self.now.keys }
        ensures lane { lane.new.cells ≡ lane.old.cells }
        ensures look { Looks self.now path.now key lane.old lane.new result }
        ensures steps { steps_of lane.old lane.new ≤ length path.now * (self.now.tries + 1) }
    {
        self.tell_proof();
        let blocks = self.blocks();
        match self.cells.nearest(lane, path, blocks, key) {
            Ok(Some(nearest)) => Ok(found_at(path[nearest.index], nearest.standing)),
            Ok(None) => Ok(Look::Absent),
            Err(CellRefusal::Contended) => Err(Refusal::Contended),
            Err(
                CellRefusal::Busy
                | CellRefusal::Closed
                | CellRefusal::Exhausted
                | CellRefusal::NumbersFull
                | CellRefusal::Memory
                | CellRefusal::BadLimit,
            ) => unreachable!(),
        }
    }
}
