//! The calls of a seat along a path of the caller's, for contexts that are opened during a run.
ghost use Rattle.std.specs.Prelude.{◌≡◌, ◌<◌, ◌≤◌, Err, IfSome, IsSome, None, Ok, length};
ghost use Rattle.ext_store.specs.Computing.{ClaimsAlong};
ghost use Rattle.ext_store.specs.LaneCalls.{GetsAlong, IsTrail};
ghost use Rattle.ext_c.specs.Answers.{BeginAlongSays, GetAlongSays, NotAskedAlong, store_of};

use crate::code::Code;
use crate::handle::Handle;
use crate::seat::Seat;
use crate::value::ExtValue;
use ext_model::Look;
use ext_store::{Refusal, Store, Unused};
use std::mem;

impl Seat {
    // Looks for the key in the contexts of the path.
    #[inline(always)]
    pub(crate) fn get_along(&mut self, path: &[usize], key: usize, found: &mut ExtValue) -> Code
        ensures store { self.new.store ≡ self.old.store }
        ensures keys { self.new.lane.keys ≡ self.old.lane.keys }
        ensures closers { self.new.closers ≡ self.old.closers }
        ensures claim { self.new.claim ≡ self.old.claim }
        ensures says { GetAlongSays path.now key self.old self.new found.old found.new result }
    {
        if let Some(code) = self.bar_along(path, key) {
            return code;
        }
        let looked = self.look_along(path, key);
        self.tell_look(looked, found)
    }

    // Claims the place in the path's first context where nothing is found.
    pub(crate) fn begin_along(&mut self, path: &[usize], key: usize, found: &mut ExtValue) -> Code
        ensures store { self.new.store ≡ self.old.store }
        ensures keys { self.new.lane.keys ≡ self.old.lane.keys }
        ensures closers { self.new.closers ≡ self.old.closers }
        ensures says { BeginAlongSays path.now key self.old self.new found.old found.new result }
    {
        if let Some(code) = self.bar_along(path, key) {
            return code;
        }
        match self.claim_along(path, key) {
            None => Code::Run,
            Some(why) => self.tell_unused(why, found),
        }
    }

    // Why a call along the path is not made, or `None` if it is.
    #[inline(always)]
    fn bar_along(&self, path: &[usize], key: usize) -> Option<Code>
        ensures barred { IfSome result (NotAskedAlong path.now key self.now) }
        ensures idle { result ≡ None → self.now.claim ≡ None }
        ensures some { result ≡ None → 1 ≤ length path.now }
        ensures path { result ≡ None → IsTrail (store_of self.now) path.now }
        ensures key { result ≡ None → key < length (store_of self.now).id.keys }
    {
        if self.claim.is_some() {
            return Some(Code::Claiming);
        }
        let shared: &Store<Handle> = &self.store;
        if path.is_empty() {
            return Some(Code::BadContext);
        }
        if !shared.is_trail(path) {
            return Some(Code::BadContext);
        }
        if key >= shared.key_count() {
            return Some(Code::BadKey);
        }
        None
    }

    // `Store::get_along`.
    #[inline(always)]
    fn look_along(&mut self, path: &[usize], key: usize) -> Result<Look, Refusal>
        requires some { 1 ≤ length path.now }
        requires path { IsTrail (store_of self.old) path.now }
        requires key { key < length (store_of self.old).id.keys }
        requires idle { self.old.claim ≡ None }
        ensures store { self.new.store ≡ self.old.store }
        ensures keys { self.new.lane.keys ≡ self.old.lane.keys }
        ensures closers { self.new.closers ≡ self.old.closers }
        ensures claim { self.new.claim ≡ None }
        ensures known { self.new.lane.known ≡ self.old.lane.known }
        ensures faults { self.new.lane.faults ≡ self.old.lane.faults }
        ensures answer { GetsAlong (store_of self.old) path.now key self.old.lane.cells self.new.lane.cells result }
    {
        let shared: &Store<Handle> = &self.store;
        shared.get_along(&mut self.lane, path, key)
    }

    // `Store::begin_along_quietly`; the seat has the claim afterwards.
    fn claim_along(&mut self, path: &[usize], key: usize) -> Option<Unused>
        requires some { 1 ≤ length path.now }
        requires path { IsTrail (store_of self.old) path.now }
        requires key { key < length (store_of self.old).id.keys }
        requires idle { self.old.claim ≡ None }
        ensures store { self.new.store ≡ self.old.store }
        ensures keys { self.new.lane.keys ≡ self.old.lane.keys }
        ensures closers { self.new.closers ≡ self.old.closers }
        ensures known { self.new.lane.known ≡ self.old.lane.known }
        ensures faults { self.new.lane.faults ≡ self.old.lane.faults }
        ensures unclaimed { IfSome result (λ why. (self.new.claim ≡ None) × ClaimsAlong (store_of self.old) path.now key self.old.lane.cells.view self.new.lane.cells.view (Err why)) }
        ensures claimed { result ≡ None → IfSome self.new.claim (λ claim. ClaimsAlong (store_of self.old) path.now key self.old.lane.cells.view self.new.lane.cells.view (Ok claim)) }
        ensures has { result ≡ None → IsSome self.new.claim }
    {
        let shared: &Store<Handle> = &self.store;
        match shared.begin_along_quietly(&mut self.lane, path, key) {
            Ok(claim) => {
                match mem::replace(&mut self.claim, Some(claim)) {
                    None => None,
                    Some(_claim) => unreachable!(),
                }
            }
            Err(unused) => Some(unused),
        }
    }
}
