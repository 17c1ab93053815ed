//! The store: what it is, how it is opened, how keys get numbers, and how its lanes meet.
ghost use Rattle.std.specs.Prelude.{ℕ, ◌≡◌, ◌↔◌, ◌+◌, ◌*◌, ◌<◌, ◌≤◌, [], All, IfErr, IfOk, IsFalse, IsTrue, Ok, Err, length, map};
ghost use mathlib.Core.List.{IsPrefix};
ghost use Rattle.ext_model.specs.CallActs.{Calls};
ghost use Rattle.ext_history.specs.Histories.{seen_by};
ghost use Rattle.ext_tree.specs.Keys.{IsKeyNumber, KeepsKeys, OneKey, OneNumber, PlacesNone, PlacesOnly};
ghost use Rattle.ext_values.specs.Known.{AllAgree};
ghost use Rattle.ext_cells.specs.Lanes.{fresh_lanes};
ghost use Rattle.ext_store_core.specs.ContextCalls.{AreBlocks};
ghost use Rattle.ext_store.specs.declared.limits.StoreFault.TheVariants as store_fault;
ghost use Rattle.ext_store.specs.Stores.{AreStoreLimits, IsCloserOf, IsLaneOf, StillKeeps, closers_below, fresh_store_lane};
ghost use Rattle.ext_store.specs.Opening.{fault_count, places_for};
ghost use Rattle.ext_store.specs.LaneCalls.{Frame, IsKeyRefused, key_refusal, Stays};
ghost use Rattle.ext_store.specs.declared.computed.Compute.TheVariants.{Refused};

use crate::opening::open_parts;
use crate::{Closer, Lane, Limits, Refusal, StoreFault, StoreValue};
use ext_model::{Fault, KeyNo};
use ext_store_core::StoreCore;
use ext_tree::{Key, KeyFault, Tree};
use ext_values::Values;
use std::alloc::Global;
use std::marker::Model;

/// Values under keys in the contexts of a test run, shared by reference between the threads that
/// own its lanes.
///
/// A value is kept, which gives it a number. The number is stored under a key in a context, and is
/// found from there and from all contexts below. A lane and a closer are used with the store that
/// gave them out. A refused call changes nothing unless it says so.
///
/// A key has a number from the first call on that names it, for as long as the store lives. A
/// look-up gives it one too, and so does a call that is then refused for another reason than the
/// key.
///
/// Javadoc `ExtensionContext.Store`; JUnit 5 User Guide, section "Keeping State in Extensions".
/// Numbers, lanes, claims, closers and refusals are own rules.
#[derive(Drop)]
pub struct Store<V> {
    pub(crate) shared: StoreCore,
    pub(crate) values: Values<V>,
    pub(crate) faults: Values<Fault>,
    pub(crate) alloc: Global,
}

impl<V> Model for Store<V> {
    ghost use Rattle.ext_store.specs.Stores.{HasSlots, StoreView};

    ghost Value = { StoreView };

    ghost view = { λ s. record { id = record { cells = s.shared.cells; slots = s.values; fault_slots = s.faults; keys = s.shared.keys }; tree = s.shared.tree; tries = s.shared.tries } };

    ghost invariant = { λ s. HasSlots s.shared.cells.limits s.values s.faults };
}

impl<V> Store<V> {
    /// Answers the tree of the contexts.
    pub fn tree(&self) -> &Tree
        ensures { result.now ≡ self.now.tree }
    {
        self.shared.tree()
    }

    /// How many keys can have a number: those of `Limits::keys`, rounded up to a multiple of 32.
    /// Each context has a cell for each of these numbers, whether a key has it or not.
    pub fn key_count(&self) -> KeyNo
        ensures count { result ≡ length self.now.id.keys }
        ensures blocks { AreBlocks self.now.id.keys }
    {
        self.shared.tell_proof();
        self.shared.keys().len()
    }

    /// Whether the store keeps the faults of factories that fail.
    pub fn keeps_faults(&self) -> bool
        ensures { result ≡ self.now.id.cells.limits.keep_faults }
    {
        self.shared.keeps_faults()
    }

    // Tells a proof that there is a slot for each number and, if faults are kept, one for its
    // fault too; otherwise none.
    pub(crate) fn tell_proof(&self)
        ensures numbers { self.now.id.cells.limits.numbers ≡ length self.now.id.slots }
        ensures faults { IsTrue self.now.id.cells.limits.keep_faults → self.now.id.cells.limits.numbers ≡ length self.now.id.fault_slots }
        ensures no_faults { IsFalse self.now.id.cells.limits.keep_faults → self.now.id.fault_slots ≡ [] }
    {
        let _tries = self.shared.tries();
    }

    /// Answers the most exchanges of a change on its cell's word, and the most passes of a look-up
    /// after its first, before the answer is `Contended`: 1 to 64. The clause `steps` of each call
    /// counts by it.
    pub fn tries(&self) -> u32
        ensures tries { result ≡ self.now.tries }
        ensures within { (1 ≤ self.now.tries) × (self.now.tries ≤ 64) }
    {
        self.shared.tries()
    }
}

impl<V: StoreValue + Drop> Store<V> {
    /// Opens a store in which nothing stands and no key has a number, with its lanes and a closer
    /// for each context. The lanes are numbered from 0 in the order of the list, and the closers
    /// stand in the order of the contexts. Takes all memory that the store needs, except for the
    /// values, the faults and the keys themselves; a store that keeps no faults takes none for
    /// them. Nobody but these lanes makes an event: where none of them has made one, the history is
    /// empty (`no_lane` of `history_laws` in ext_model).
    ///
    /// Refused, in this order, as `BadLimit` unless there are 1 to `limits.size.lanes()` lanes, 1
    /// to 64 tries, 1 to 1,024 keys and 1 to `limits.size.numbers()` numbers, and as `Memory`. A
    /// refused call drops the tree.
    pub fn open(
        alloc: Global,
        tree: Tree,
        limits: Limits,
    ) -> Result<(Store<V>, Vec<Lane<V>>, Vec<Closer>), StoreFault>
        // The store is of these contexts and limits.
        ensures tree { IfOk result (λ r. r.0.tree ≡ tree) }
        ensures limits { IfOk result (λ r. r.0.id.cells.limits ≡ record { cells = length tree * places_for limits.keys; lanes = limits.lanes; numbers = limits.numbers; keep_faults = limits.keep_faults }) }
        ensures keys { IfOk result (λ r. length r.0.id.keys ≡ places_for limits.keys) }
        ensures slots { IfOk result (λ r. length r.0.id.slots ≡ limits.numbers) }
        ensures fault_slots { IfOk result (λ r. length r.0.id.fault_slots ≡ fault_count limits.keep_faults limits.numbers) }
        ensures tries { IfOk result (λ r. r.0.tries ≡ limits.tries) }

        // Its lanes have made no step and know nothing, and there is one closer a context.
        ensures lanes { IfOk result (λ r. r.1.items ≡ map (fresh_store_lane r.0.id.slots r.0.id.fault_slots r.0.id.keys) (fresh_lanes r.0.id.cells 0 limits.lanes)) }
        ensures own_lanes { IfOk result (λ r. All (IsLaneOf r.0.id) r.1.items) }
        ensures closers { IfOk result (λ r. r.2.items ≡ closers_below r.0.id.cells (length tree)) }
        ensures own_closers { IfOk result (λ r. All (IsCloserOf r.0) r.2.items) }

        // When it is refused.
        ensures within { IfOk result (λ _. AreStoreLimits limits.size limits.keys limits.lanes limits.tries limits.numbers) }
        ensures bad_limit { (result ≡ Err store_fault.BadLimit) ↔ (¬ AreStoreLimits limits.size limits.keys limits.lanes limits.tries limits.numbers) }
    {
        let contexts = tree.len();
        let (cells, values, faults, keys, lanes, closers) = open_parts(alloc, contexts, limits)?;
        let shared = StoreCore::new(tree, keys, cells);
        let store = Store {
            shared,
            values,
            faults,
            alloc,
        };
        Ok((store, lanes, closers))
    }

    /// Answers the key's number, from 0, which the key has from then on, the same in all lanes, as
    /// `meet` shows. It is the first place that holds the key. A key that the lane knows is found
    /// by its stored hash, takes no memory and is never refused. For any other key it takes memory
    /// for a copy at each place that it finds free. It makes no step on the cells.
    ///
    /// Refused as `Memory` where there is none for the copy, at the first place that is not known
    /// to hold a key, and as `DirectoryFull` where all places are known to hold other keys.
    /// `Unplaced` does not come. A refused call placed no key, though the lane may know further
    /// keys then. JUnit 5 keeps values in maps, under the keys themselves.
    #[tactic(auto, unfolding(crate::specs::LaneCalls::Frame))]
    pub fn number(&self, lane: &mut Lane<V>, key: &Key) -> Result<KeyNo, Refusal>
        requires lane { IsLaneOf self.now.id lane.old }
        ensures number { IfOk result (IsKeyNumber lane.new.keys key.now) }
        ensures within { IfOk result (λ number. number < length self.now.id.keys) }
        ensures again { (number : ℕ) → IsKeyNumber lane.old.keys key.now number → result ≡ Ok number }
        ensures refused { IfErr result (IsKeyRefused lane.old lane.new key.now) }
        ensures still { lane.new.cells ≡ lane.old.cells }
        ensures stays { Stays self.now.id [] lane.old lane.new }
        // The lane itself put no other key at a place.
        ensures placed { PlacesOnly key.now lane.old.keys lane.new.keys }
    {
        self.shared.tell_proof();
        match self.shared.keys().number(&mut lane.keys, key) {
            Ok(number) => Ok(number),
            Err(why) => Err(refusal_of(why)),
        }
    }

    /// Makes both lanes speak of one history: afterwards what the first has seen is a prefix of
    /// what the second has seen. A number that both know has one value in both, or one fault. A key
    /// that both know has one number in both, and a key's number that both know has one key in
    /// both. Afterwards the second also knows all keys that the first knows. So of lanes that meet
    /// one after the other the last knows all keys, and all have numbered alike. Neither makes an
    /// event.
    ///
    /// Call it where the second lane goes on with what the first has done, as after a fork or a
    /// join of threads, if a proof is to know that it sees all of it, or where the second lane is to
    /// name keys by numbers that the first has drawn. Only `knows_key` answers otherwise behind it.
    #[tactic(auto, unfolding(crate::specs::LaneCalls::Frame))]
    pub fn meet(&self, first: &mut Lane<V>, second: &mut Lane<V>)
        requires first { IsLaneOf self.now.id first.old }
        requires second { IsLaneOf self.now.id second.old }
        ensures first_call { Calls first.old.cells.cells.limits first.old.cells.view first.new.cells.view [] }
        ensures second_call { Calls second.old.cells.cells.limits second.old.cells.view second.new.cells.view [] }
        ensures met { IsPrefix (seen_by first.new.cells.view) (seen_by second.new.cells.view) }
        ensures agree { AllAgree first.old.known second.old.known }
        ensures agree_faults { AllAgree first.old.faults second.old.faults }
        ensures known { (first.new.known ≡ first.old.known) × (second.new.known ≡ second.old.known) }
        ensures faults { (first.new.faults ≡ first.old.faults) × (second.new.faults ≡ second.old.faults) }
        ensures first_keys { first.new.keys ≡ first.old.keys }
        ensures one_number { OneNumber first.old.keys second.old.keys }
        ensures one_key { OneKey first.old.keys second.old.keys }
        ensures taught { KeepsKeys first.old.keys second.new.keys }
        ensures placed { PlacesNone second.old.keys second.new.keys }
        ensures first_lane { IsLaneOf self.now.id first.new }
        ensures second_lane { IsLaneOf self.now.id second.new }
        ensures first_kept { StillKeeps first.old first.new }
        ensures second_kept { StillKeeps second.old second.new }
        ensures first_frame { Frame self.now.id [] first.old first.new }
        ensures second_frame { Frame self.now.id [] second.old second.new }
    {
        self.shared.meet(&mut first.cells, &mut second.cells);
        first.notes.meet(&mut second.notes);
        first.faults.meet(&mut second.faults);
        self.shared.keys().agree(&mut first.keys, &mut second.keys);
    }
}

/// The refusal of a call whose key got no number.
pub(crate) fn refusal_of(why: KeyFault) -> Refusal
    ensures { result ≡ key_refusal why }
{
    match why {
        KeyFault::DirectoryFull => Refusal::DirectoryFull,
        KeyFault::Unplaced => Refusal::Unplaced,
        KeyFault::Memory => Refusal::Memory,
    }
}
