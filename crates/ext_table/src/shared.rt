//! What the nodes on a path share.
ghost use Rattle.std.specs.Prelude.{◌≡◌, ◌<◌, ◌≤◌, ◌+◌, All, IfErr, IfOk, OnErr, OnOk, Some, length, map, option_map, slice_get, vec_len};
ghost use Rattle.std.specs.Fn.{FnOnceReturnsAt};
ghost use Rattle.ext_store.specs.Stores.{IsLaneOf, StoreLane};
ghost use Rattle.ext_tree.specs.Trees.{IsPathOf};
ghost use Rattle.ext_table.specs.InnerSharing.{IsBegun, IsRoomy, handed_by, level_keys};
ghost use Rattle.ext_table.specs.Sharing.{Hands, HandsAll, HandsAt, IsMade, Misses, MissesOne, share_in};
ghost use Rattle.ext_table.specs.declared.engine.Kept.{Kept};

use crate::suite::TableSuite;
use crate::{Engine, Kept, Scope, TableListener};
use ext_model::{ContextNo, Fault};
use ext_store::{Lane, Made, Store};
use ext_tree::Key;
use std::alloc::{AllocError, Global};
use std::sync::Wait;

/// The most nodes on a path.
const LEVELS: usize = 16;

/// What a call was handed so far.
#[derive(Drop)]
pub(crate) struct Handing<'s, S> {
    /// What the nodes on the path share, the outermost first.
    pub(crate) values: Vec<&'s S>,
    /// How many of them the call computed.
    pub(crate) computed: u32,
    /// How many it found.
    pub(crate) found: u32,
}

/// Nothing was handed, and there is room for what the nodes on a path share.
pub(crate) fn nothing_handed<'s, S>(alloc: Global) -> Result<Handing<'s, S>, AllocError>
    ensures { IfOk result IsBegun }
{
    Ok(Handing {
        values: Vec::with_capacity(alloc, LEVELS)?,
        computed: 0,
        found: 0,
    })
}

impl<E: Engine, L: TableListener> TableSuite<'_, E, L> {
    /// Hands over what the nodes on the path of a node share, the outermost first: found, or made.
    /// Refused with the fault of the first that is not to be had.
    pub(crate) fn hand_all<'s, R: Wait>(
        &self,
        rt: &R,
        store: &'s Store<Kept<E::Shared>>,
        node: ContextNo,
        lane: &mut Lane<Kept<E::Shared>>,
        handing: &mut Handing<'s, E::Shared>,
    ) -> Result<(), Fault>
        requires keys { self.now.keys.now ≡ level_keys }
        requires lane { IsLaneOf store.now.id lane.old }
        requires node { node < length store.now.tree }
        requires begun { IsBegun handing.old }
        ensures all { OnOk result (HandsAll self.now.rows.now store.now (E.make_gives self.now.engine.now) node lane.old (handed_by handing.new lane.new)) }
        ensures missed { IfErr result (λ why. (reached : StoreLane (Kept E.Shared)) × MissesOne self.now.rows.now store.now (E.make_gives self.now.engine.now) node lane.old why (handed_by handing.new reached) lane.new) }
        ensures lane { IsLaneOf store.now.id lane.new }
    {
        let path = store.tree().path(node).as_slice();
        self.hand_along(rt, store, node, path, lane, handing)
    }

    /// Hands over what the nodes on this path share.
    fn hand_along<'s, R: Wait>(
        &self,
        rt: &R,
        store: &'s Store<Kept<E::Shared>>,
        node: ContextNo,
        path: &[ContextNo],
        lane: &mut Lane<Kept<E::Shared>>,
        handing: &mut Handing<'s, E::Shared>,
    ) -> Result<(), Fault>
        requires keys { self.now.keys.now ≡ level_keys }
        requires lane { IsLaneOf store.now.id lane.old }
        requires path { IsPathOf store.now.tree node path.now }
        requires few { length path.now ≤ 16 }
        requires within { All (λ c. c < length store.now.tree) path.now }
        requires begun { IsBegun handing.old }
        ensures all { OnOk result (HandsAll self.now.rows.now store.now (E.make_gives self.now.engine.now) node lane.old (handed_by handing.new lane.new)) }
        ensures missed { IfErr result (λ why. (reached : StoreLane (Kept E.Shared)) × MissesOne self.now.rows.now store.now (E.make_gives self.now.engine.now) node lane.old why (handed_by handing.new reached) lane.new) }
        ensures lane { IsLaneOf store.now.id lane.new }
    {
        // A path begins at its node.
        for at in path.iter().rev() {
            match self.hand(rt, store, node, *at, lane, handing) {
                Ok(()) => {}
                Err(why) => return Err(why),
            }
        }
        Ok(())
    }

    /// Hands over what a node on the path shares, if it does.
    fn hand<'s, R: Wait>(
        &self,
        rt: &R,
        store: &'s Store<Kept<E::Shared>>,
        node: ContextNo,
        at: ContextNo,
        lane: &mut Lane<Kept<E::Shared>>,
        handing: &mut Handing<'s, E::Shared>,
    ) -> Result<(), Fault>
        requires keys { self.now.keys.now ≡ level_keys }
        requires lane { IsLaneOf store.now.id lane.old }
        requires at { at < length store.now.tree }
        requires roomy { IsRoomy handing.old }
        requires room { vec_len handing.old.values < 16 }
        ensures handed { OnOk result (HandsAt self.now.rows.now store.now (E.make_gives self.now.engine.now) (handed_by handing.old lane.old) at (handed_by handing.new lane.new)) }
        ensures missed { IfErr result (λ why. (given : E.Given) × (share_in (slice_get self.now.rows.now at) ≡ Some given)
            × Misses store.now (E.make_gives self.now.engine.now given (map (λ s. s.now) handing.old.values.items)) at lane.old why lane.new) }
        ensures kept { OnErr result (handing.new ≡ handing.old) }
        ensures lane { IsLaneOf store.now.id lane.new }
        ensures roomy { OnOk result (IsRoomy handing.new) }
        ensures one { OnOk result (vec_len handing.new.values ≤ vec_len handing.old.values + 1) }
    {
        let Some(given) = self.share_of(at) else {
            return Ok(());
        };
        self.listener.asks(node, at);
        let above = handing.values.as_slice();
        let made = match self.value_of(rt, store, node, at, given, above, lane) {
            Ok(made) => made,
            Err(why) => return Err(why),
        };
        self.listener.handed(node, at, made.number, made.is_new);
        if made.is_new {
            handing.computed += 1;
        } else {
            handing.found += 1;
        }
        handing.values.push_reserved(&made.value.0);
        Ok(())
    }

    /// Of what the value is made that a node shares.
    fn share_of(&self, at: ContextNo) -> Option<&E::Given>
        ensures { option_map (λ given. given.now) result ≡ share_in (slice_get self.now.rows.now at) }
    {
        match self.rows.get(at) {
            Some(row) => row.share.as_ref(),
            None => None,
        }
    }

    /// The value that a node shares with `node`, found or made.
    fn value_of<'s, R: Wait>(
        &self,
        rt: &R,
        store: &'s Store<Kept<E::Shared>>,
        node: ContextNo,
        at: ContextNo,
        given: &E::Given,
        above: &[&E::Shared],
        lane: &mut Lane<Kept<E::Shared>>,
    ) -> Result<Made<'s, Kept<E::Shared>>, Fault>
        requires keys { self.now.keys.now ≡ level_keys }
        requires lane { IsLaneOf store.now.id lane.old }
        requires at { at < length store.now.tree }
        ensures hands { IfOk result (λ r. Hands store.now (E.make_gives self.now.engine.now given.now (map (λ s. s.now) above.now)) at lane.old r.is_new (r.value.now).0 lane.new) }
        ensures misses { IfErr result (λ why. Misses store.now (E.make_gives self.now.engine.now given.now (map (λ s. s.now) above.now)) at lane.old why lane.new) }
        ensures lane { IsLaneOf store.now.id lane.new }
    {
        let make = |_key: &Key| -> Result<Kept<E::Shared>, Fault> {
            self.made(node, at, given, above)
        };
        self.value_by(rt, store, at, given, above, lane, make)
    }

    /// The same by a factory that makes it of this.
    fn value_by<'s, R: Wait, F: FnOnce(&Key) -> Result<Kept<E::Shared>, Fault>>(
        &self,
        rt: &R,
        store: &'s Store<Kept<E::Shared>>,
        at: ContextNo,
        given: &E::Given,
        above: &[&E::Shared],
        lane: &mut Lane<Kept<E::Shared>>,
        make: F,
    ) -> Result<Made<'s, Kept<E::Shared>>, Fault>
        requires keys { self.now.keys.now ≡ level_keys }
        requires lane { IsLaneOf store.now.id lane.old }
        requires at { at < length store.now.tree }
        requires factory { F.IsAlwaysCallable make }
        requires makes { (key : _) (made : _) → FnOnceReturnsAt F.FnOnce make key made → IsMade (E.make_gives self.now.engine.now given.now (map (λ s. s.now) above.now)) made }
        ensures hands { IfOk result (λ r. Hands store.now (E.make_gives self.now.engine.now given.now (map (λ s. s.now) above.now)) at lane.old r.is_new (r.value.now).0 lane.new) }
        ensures misses { IfErr result (λ why. Misses store.now (E.make_gives self.now.engine.now given.now (map (λ s. s.now) above.now)) at lane.old why lane.new) }
        ensures lane { IsLaneOf store.now.id lane.new }
    {
        let level = store.tree().path(at).as_slice().len() - 1;
        let key = &self.keys[level];
        let answer = store.compute_wait(rt, lane, at, key, make);
        match store.found_or_made(answer, lane) {
            Ok(made) => Ok(made),
            Err(why) => Err(why),
        }
    }

    /// What is made of this, for `node`, of which the listener is told.
    fn made(
        &self,
        node: ContextNo,
        at: ContextNo,
        given: &E::Given,
        above: &[&E::Shared],
    ) -> Result<Kept<E::Shared>, Fault>
        ensures { IsMade (E.make_gives self.now.engine.now given.now (map (λ s. s.now) above.now)) result }
    {
        self.listener.makes(node, at);
        let made = self.made_of(at, given, above);
        self.listener.made(node, at, made.as_ref().err());
        made
    }

    /// What is made of this.
    fn made_of(
        &self,
        node: ContextNo,
        given: &E::Given,
        above: &[&E::Shared],
    ) -> Result<Kept<E::Shared>, Fault>
        ensures { IsMade (E.make_gives self.now.engine.now given.now (map (λ s. s.now) above.now)) result }
    {
        let scope = Scope {
            rt: self.rt,
            node,
            given,
            shared: above,
        };
        match self.engine.make(&scope) {
            Ok(shared) => Ok(Kept(shared)),
            Err(stop) => Err(stop.fault(self.rt)),
        }
    }
}
