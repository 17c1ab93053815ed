//! Locks with names, and the lanes that take them.
ghost use Rattle.std.specs.Prelude.{◌≡◌, ◌≤◌, ◌<◌, IfOk, length, replicate, Some};
ghost use Rattle.ext_locks.specs.Names.{texts_of, AreDifferent};
ghost use Rattle.ext_locks.specs.Opening.{AreLimits, IsOpened, fresh_lanes};
ghost use Rattle.ext_locks.specs.InnerRule.{founder};

use crate::merging::merge_requests;
use crate::names::{first_twice, sorted_copies};
use crate::rule::{Deals, LaneSeat, LockCounts, LockTable, LockWords};
use crate::set::MAX_LOCKS;
use crate::steps::LockSteps;
use crate::taking::{give_locks, take_locks};
use crate::telling::exclude;
use crate::waiting::{SharedLocks, wait_for_locks};
use crate::{Held, LockFault, LockLane, LockMode, LockNo, LockRefusal, LockRequest, LockSet};
use atomic_table::Table;
use ext_waiters::Waiters;
use std::alloc::{AllocError, Global};
use std::marker::Model;
use std::snapshot::Snapshot;
use std::sync::Wait;

/// The greatest number of exchanges that a call may make for one lock.
const MAX_TRIES: u32 = 64;

/// The global lock and named ones, one word for each, shared by reference. Only lanes change them.
///
/// Contracts see the table of words, the names, the number of lanes, and the tries.
#[derive(Drop)]
pub struct Locks {
    table: LockSteps,
    names: Vec<String>,
    tries: u32,
    /// The lanes that wait until a lane gives locks back. No clause speaks of them.
    waiters: Waiters,
}

impl Model for Locks {
    ghost use Rattle.std.specs.Prelude.{◌≡◌, ◌+◌, ◌≤◌, map, length, string_bytes};
    ghost use Rattle.std.specs.String.{string_cmp};
    ghost use Rattle.std.specs.List.Sorted.{IsSorted};
    ghost use Rattle.ext_locks.specs.Names.{AreDifferent};
    ghost use Rattle.ext_locks.specs.Opening.{LocksView, AreLimits};

    ghost Value = { LocksView };

    ghost view = { λ l. record { table = l.table.table.shared.table_id; names = map string_bytes l.names.items; lanes = l.table.table.shared.key.lanes; tries = l.tries } };

    ghost invariant = { λ l.
        (l.table.table.shared.key.locks ≡ l.table.table.shared.table_id.words)
        × (l.table.table.shared.key.locks ≡ length l.names.items + 1)
        × (length l.names.items ≤ 63)
        × IsSorted string_cmp l.names.items
        × AreDifferent (map string_bytes l.names.items)
        × AreLimits 32 l.table.table.shared.key.lanes l.tries };
}

impl Locks {
    ghost use Rattle.std.specs.Prelude.{◌≡◌, ◌≢◌, ◌+◌, ◌≤◌, ◌↔◌, [], length, None, IfOk, IfErr, IfSome, OnOk, OnErr};
    ghost use mathlib.Core.List.{IsPrefix};
    ghost use Rattle.ext_history.specs.Histories.{seen_by, call_fronts};
    ghost use Rattle.ext_locks.specs.Views.{LaneCalls};
    ghost use Rattle.ext_locks.specs.Sets.{AllBelow, takes_of, gives_of, HoldsNothing, HoldsExactly, Excludes, IsHeldBy};
    ghost use Rattle.ext_locks.specs.Refusals.{undone, steps_to_take, steps_to_refuse, IsRefused};
    ghost use Rattle.ext_locks.specs.Names.{IsNamed, IsMerged, IsNotMerged};
    ghost use Rattle.ext_locks.specs.Opening.{AreLimits, AreLocks, IsOpened, IsNotOpened};

    /// Opens the global lock and one lock for each name, which nobody holds, and their lanes. The
    /// names, at most 63, are numbered from 1 in the order of their bytes, and the lanes, 1 to 16,
    /// from 0. A call that does not wait makes at most `tries` exchanges, 1 to 64, for each lock.
    /// Takes memory; no other call does.
    ///
    /// Only these lanes can make events, and none of them has made any. So nobody holds a lock, and
    /// nobody but these lanes ever will (`fresh` and `only_lanes` of `lock_laws`).
    ///
    /// Refused, in this order, as `BadLimit`, `TooMany`, `Twice(at)` and `Memory`. JUnit 5 User
    /// Guide, section "Synchronization"; limits and refusals are own rules.
    pub fn open(
        alloc: Global,
        names: &[&str],
        lanes: usize,
        tries: u32,
    ) -> Result<(Locks, Vec<LockLane>), LockFault>
        ensures opened { IfOk result (λ made. IsOpened (texts_of names.now) lanes tries made.0 made.1.items) }
        ensures within { IfOk result (λ _. AreLimits 16 lanes tries) }
        ensures fault { IfErr result (IsNotOpened 16 (texts_of names.now) lanes tries) }
    {
        Locks::open_within(alloc, names, lanes, tries, 16)
    }

    /// Opens locks as `open` does, but with up to `most` lanes, which is at most 32.
    pub fn open_within(
        alloc: Global,
        names: &[&str],
        lanes: usize,
        tries: u32,
        most: usize,
    ) -> Result<(Locks, Vec<LockLane>), LockFault>
        requires most { most ≤ 32 }
        ensures opened { IfOk result (λ made. IsOpened (texts_of names.now) lanes tries made.0 made.1.items) }
        ensures within { IfOk result (λ _. AreLimits most lanes tries) }
        ensures fault { IfErr result (IsNotOpened most (texts_of names.now) lanes tries) }
    {
        if lanes == 0 || lanes > most || tries == 0 || tries > MAX_TRIES {
            return Err(LockFault::BadLimit);
        }
        if names.len() >= MAX_LOCKS {
            return Err(LockFault::TooMany);
        }
        if let Some(at) = first_twice(names) {
            return Err(LockFault::Twice(at));
        }
        match open_words(alloc, names, lanes, tries) {
            Ok(made) => Ok(made),
            Err(_) => Err(LockFault::Memory),
        }
    }

    /// The set of locks that the requests ask for: each lock once, in the strongest mode asked for.
    /// The global one comes first, then the named ones by the bytes of their names. A name is found
    /// by binary search.
    ///
    /// Refused as `UnknownResource(at)`, at the first request of a name that these locks do not
    /// have. JUnit 5 User Guide, section "Synchronization"; the order is an own rule.
    pub fn merge(&self, requests: &[LockRequest]) -> Result<LockSet, LockFault>
        ensures merged { IfOk result (IsMerged self.now.names requests.now) }
        ensures within { IfOk result (AllBelow (length self.now.names + 1)) }
        ensures fault { IfErr result (IsNotMerged self.now.names requests.now) }
    {
        merge_requests(self.names.as_slice(), requests)
    }

    /// The name of a lock, or `None` for the global one, 0.
    pub fn name(&self, lock: LockNo) -> Option<&str>
        requires { lock ≤ length self.now.names }
        ensures global { (result ≡ None) ↔ (lock ≡ 0) }
        ensures named { IfSome result (λ name. IsNamed self.now.names lock name.now) }
    {
        if lock == 0 {
            return None;
        }
        Some(self.names[lock - 1].as_str())
    }

    /// Proves what is true of all locks: the names are at most 63, different and in the order of
    /// their bytes, and lanes and tries are within their limits. So requests have one merged set.
    /// It does nothing when it runs.
    pub fn tell_proof(&self)
        ensures { AreLocks self.now }
    {
        let _tries = self.tries;
    }

    /// Takes all locks of a set, in the order of their numbers, or none. For each lock it loads the
    /// word once and makes at most `tries` exchanges. The lane must hold nothing before.
    ///
    /// Refused as `Taken(lock)` if another lane held that lock, in a mode that excludes the one
    /// wanted, at a moment of the call, and as `Contended(lock)` if other lanes made at least
    /// `tries` lock events during the call, though the lock was free when its word was last read.
    /// After either the lane holds nothing: it has given back what it took, and woken the lanes
    /// that wait for locks. JUnit 5 User Guide, section "Synchronization"; refusals in place of
    /// waiting are an own rule.
    pub fn try_take(&self, lane: &mut LockLane, set: &LockSet) -> Result<Held, LockRefusal>
        requires lane { lane.old.table ≡ self.now.table }
        requires free_hands { HoldsNothing lane.old }
        requires set { AllBelow (length self.now.names + 1) set.now }
        ensures steps { OnOk result (length (call_fronts lane.old.view lane.new.view) ≤ steps_to_take self.now.tries set.now) }
        ensures taken { OnOk result (HoldsExactly lane.new set.now) }
        ensures taken_events { OnOk result (LaneCalls lane.old lane.new (takes_of lane.old.view.number set.now)) }
        ensures held { IfOk result (λ held. (held.set ≡ set.now) × IsHeldBy held lane.new) }
        ensures names { IfOk result (λ held. held.names ≡ self.now.names) }
        ensures refused_steps { IfErr result (λ refusal. length (call_fronts lane.old.view lane.new.view) ≤ steps_to_refuse self.now.tries set.now refusal) }
        ensures nothing { OnErr result (HoldsNothing lane.new) }
        ensures refused_events { IfErr result (λ refusal. LaneCalls lane.old lane.new (undone lane.old.view.number set.now refusal)) }
        ensures refusal { IfErr result (λ refusal. IsRefused self.now.tries set.now lane.old lane.new refusal) }
    {
        match take_locks(
            &self.table,
            &mut lane.seat,
            lane.number,
            set.modes(),
            self.tries,
        ) {
            Ok(()) => Ok(Held {
                set: set.copied(),
                taken: Snapshot::of(lane),
                names: Snapshot::of(&self.names),
            }),
            Err(refusal) => {
                self.waiters.wake_all();
                Err(refusal)
            }
        }
    }

    /// Takes all locks of a set, one after another in the order of their numbers, and waits for
    /// each until it is free. It keeps what it has while it waits for the next. If another lane
    /// holds a lock, in a mode that excludes the one wanted, it waits, parked, until a lane has
    /// given locks back, and tries that lock again; if other lanes were in the way, it tries again
    /// at once. So it is never refused, but may wait. The lane must hold nothing before.
    ///
    /// Two lanes that wait here never wait for each other: each takes its locks in the one order of
    /// their numbers, so it waits only for a lock above all that it holds. A sleeping lane holds
    /// the locks of its set below the one that it waits for, so `try_take` may be refused by these.
    /// A writer may wait as long as readers keep coming, since no lock is kept free for it. JUnit 5
    /// User Guide, section "Synchronization".
    pub fn take_wait<R: Wait>(&self, rt: &R, lane: &mut LockLane, set: &LockSet) -> Held
        requires lane { lane.old.table ≡ self.now.table }
        requires free_hands { HoldsNothing lane.old }
        requires set { AllBelow (length self.now.names + 1) set.now }
        ensures taken { HoldsExactly lane.new set.now }
        ensures taken_events { LaneCalls lane.old lane.new (takes_of lane.old.view.number set.now) }
        ensures held { (result.set ≡ set.now) × IsHeldBy result lane.new }
        ensures names { result.names ≡ self.now.names }
    {
        let shared = SharedLocks {
            words: &self.table,
            waiters: &self.waiters,
            tries: self.tries,
        };
        wait_for_locks(rt, &shared, &mut lane.seat, lane.number, set.modes());
        Held {
            set: set.copied(),
            taken: Snapshot::of(lane),
            names: Snapshot::of(&self.names),
        }
    }

    /// Gives back the locks that a lane holds, in the order of their numbers, and then wakes the
    /// lanes that wait for locks. Each lock takes one step. It cannot fail.
    ///
    /// JUnit 5 User Guide, section "Synchronization".
    pub fn give(&self, lane: &mut LockLane, held: Held)
        requires lane { lane.old.table ≡ self.now.table }
        requires held { IsHeldBy held lane.old }
        ensures steps { length (call_fronts lane.old.view lane.new.view) ≡ length held.set }
        ensures nothing { HoldsNothing lane.new }
        ensures events { LaneCalls lane.old lane.new (gives_of lane.old.view.number held.set) }
    {
        let Held {
            set,
            taken: _,
            names: _,
        } = held;
        let modes = set.modes();
        give_locks(&self.table, &mut lane.seat, lane.number, modes, modes.len());
        self.waiters.wake_all();
    }

    /// Shows of two different lanes that if one holds a lock for writing, the other does not hold
    /// it. Each loads one word once and makes no event. It cannot fail.
    ///
    /// JUnit 5 User Guide, section "Synchronization".
    pub fn exclusive(&self, one: &mut LockLane, other: &mut LockLane)
        requires one { one.old.table ≡ self.now.table }
        requires other { other.old.table ≡ self.now.table }
        requires apart { one.old.view.number ≢ other.old.view.number }
        ensures steps_one { length (call_fronts one.old.view one.new.view) ≡ 1 }
        ensures steps_other { length (call_fronts other.old.view other.new.view) ≡ 1 }
        ensures one { LaneCalls one.old one.new [] }
        ensures other { LaneCalls other.old other.new [] }
        ensures one_history { IsPrefix (seen_by other.new.view) (seen_by one.new.view) }
        ensures one_excludes { Excludes one.new other.new }
        ensures other_excludes { Excludes other.new one.new }
    {
        exclude(
            &self.table,
            &mut one.seat,
            one.number,
            &mut other.seat,
            other.number,
        );
    }
}

/// `count` words, all zero. Takes memory.
fn zero_words(alloc: Global, count: usize) -> Result<Vec<u64>, AllocError>
    ensures { IfOk result (λ v. v.items ≡ replicate count 0) }
{
    Vec::from_elem(alloc, 0, count)
}

/// The table of locks that nobody holds, and the seat that gives the lanes theirs. Takes memory.
fn zero_table(alloc: Global, counts: &LockCounts) -> Result<(LockTable, LaneSeat), AllocError>
    requires { counts.now.lanes ≤ 32 }
    ensures { IfOk result (λ r. (r.0.shared.table_id.words ≡ counts.now.locks) × (r.0.shared.key ≡ counts.now) × (r.1.table_id ≡ r.0.shared.table_id) × (r.1.me.0 ≡ founder counts.now.lanes)) }
{
    let zeros = zero_words(alloc, counts.locks)?;
    Table::of_words(alloc, zeros.as_slice(), counts)
}

/// A lane for each number, with a seat from the dealer, which then has none left. Takes memory.
fn deal_lanes(
    words: &LockWords,
    alloc: Global,
    dealer: &mut LaneSeat,
    lanes: usize,
) -> Result<Vec<LockLane>, AllocError>
    requires table { (dealer.old.table_id ≡ words.now.table_id) × (0 < words.now.table_id.words) }
    requires dealer { dealer.old.me.0 ≡ founder lanes }
    requires lanes { (words.now.key.lanes ≡ lanes) × (lanes ≤ 32) }
    ensures { IfOk result (λ made. (made.items ≡ fresh_lanes words.now.table_id lanes lanes) × (dealer.new.table_id ≡ words.now.table_id)
        × (dealer.new.me.0.next ≡ Some lanes) × (dealer.new.me.0.lanes ≡ lanes)) }
{
    let mut made = Vec::with_capacity(alloc, lanes)?;
    for number in 0..lanes {
        let seat = words.split_seat::<Deals>(dealer);
        made.push_reserved(LockLane { seat, number });
    }
    Ok(made)
}

/// The locks of these names, which nobody holds, and their lanes. Takes memory.
fn open_words(
    alloc: Global,
    names: &[&str],
    lanes: usize,
    tries: u32,
) -> Result<(Locks, Vec<LockLane>), AllocError>
    requires names { length names.now ≤ 63 }
    requires different { AreDifferent (texts_of names.now) }
    requires limits { AreLimits 32 lanes tries }
    ensures { IfOk result (λ made. IsOpened (texts_of names.now) lanes tries made.0 made.1.items) }
{
    let names = sorted_copies(alloc, names)?;
    let locks = names.len() + 1;
    let (table, mut dealer) = zero_table(alloc, &LockCounts { locks, lanes })?;
    let made = deal_lanes(&table.shared, alloc, &mut dealer, lanes)?;
    Ok((
        Locks {
            table: LockSteps::of(table),
            names,
            tries,
            waiters: Waiters::new(),
        },
        made,
    ))
}
