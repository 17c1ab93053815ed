//! The steps by which one lock is taken, and those of a whole set of locks.
ghost use Rattle.std.specs.Prelude.{◌≡◌, ◌+◌, ◌<◌, ◌≤◌, ◌↔◌, true, false, [], ◌∷◌, length, take, IsTrue, IfErr, OnOk, OnErr};
ghost use Rattle.ext_history.specs.Histories.{seen};
ghost use Rattle.ext_locks.specs.declared.event.LockMode.{LockMode};
ghost use Rattle.ext_locks.specs.History.{event, holds};
ghost use Rattle.ext_locks.specs.InnerWords.{IsFreeWord};
ghost use Rattle.ext_locks.specs.InnerRule.{lane_view};
ghost use Rattle.ext_locks.specs.Sets.{locks_of, takes_of, gives_of, HoldsNothing, HoldsExactly};
ghost use Rattle.ext_locks.specs.Refusals.{lock_of, undone, steps_to_take, steps_to_refuse, IsRefused};
ghost use Rattle.ext_locks.specs.InnerSteps.{lane_at, IsLane, Makes, AddsAtMost, SameHeld, HeldBut, Missed, HoldsBetween, IsWithin};

use crate::rule::LaneSeat;
use crate::steps::{LockSteps, MAX_LANES, give_back, load, take_if};
use crate::{LockMode, LockNo, LockRefusal};

/// Whether a lock is free for a mode, by its word.
fn is_free(mode: LockMode, word: u64) -> bool
    ensures { IsTrue result ↔ IsFreeWord mode word }
{
    match mode {
        LockMode::Read => word < 1 << MAX_LANES,
        LockMode::ReadWrite => word == 0,
    }
}

/// Takes a lock, by at most `tries` exchanges. A failed exchange is a load, and the word that it
/// found decides anew, also after the last: so a lock that is held is never reported as contended.
pub(crate) fn take_lock(
    words: &LockSteps,
    seat: &mut LaneSeat,
    lane: usize,
    lock: LockNo,
    mode: LockMode,
    tries: u32,
) -> Result<(), LockRefusal>
    requires lane { IsLane words.now.table.shared.table_id words.now.table.shared.key.locks seat.old lane }
    requires lock { lock < words.now.table.shared.key.locks }
    requires unheld { (held : LockMode) → holds (seen seat.old.me.0.fronts) lock held lane ≡ false }
    ensures steps { AddsAtMost (tries + 1) seat.old.me.0.fronts seat.new.me.0.fronts }
    ensures taken { OnOk result (Makes seat.old seat.new lane (event lane lock mode true ∷ [])) }
    ensures held { OnOk result (HeldBut seat.old.me.0.fronts seat.new.me.0.fronts lane lock mode true) }
    ensures missed { IfErr result (λ _. Makes seat.old seat.new lane []) }
    ensures unheld { IfErr result (λ _. SameHeld seat.old.me.0.fronts seat.new.me.0.fronts lane) }
    ensures lock { IfErr result (λ refusal. lock_of refusal ≡ lock) }
    ensures why { IfErr result (λ refusal. Missed refusal (lane_view seat.old.me.0 lane) (lane_view seat.new.me.0 lane) mode tries) }
{
    let mut found = load(words, seat, lane, lock);
    for attempt in 0..tries {
        if !is_free(mode, found) {
            return Err(LockRefusal::Taken(lock));
        }
        let next = take_if(words, seat, lane, lock, mode, found);
        if next == found {
            return Ok(());
        }
        found = next;
    }
    if is_free(mode, found) {
        Err(LockRefusal::Contended(lock))
    } else {
        Err(LockRefusal::Taken(lock))
    }
}

/// Gives back the locks of a set below `end`.
pub(crate) fn give_locks(
    words: &LockSteps,
    seat: &mut LaneSeat,
    lane: usize,
    modes: &[Option<LockMode>],
    end: usize,
)
    requires lane { IsLane words.now.table.shared.table_id words.now.table.shared.key.locks seat.old lane }
    requires locks { IsWithin modes.now words.now.table.shared.key.locks }
    requires end { end ≤ length modes.now }
    requires held { HoldsBetween seat.old.me.0.fronts lane modes.now 0 end }
    ensures steps { length seat.new.me.0.fronts ≡ length seat.old.me.0.fronts + length (locks_of (take end modes.now)) }
    ensures events { Makes seat.old seat.new lane (gives_of lane (locks_of (take end modes.now))) }
    ensures nothing { HoldsNothing (lane_at seat.new lane) }
{
    for lock in 0..end {
        if let Some(mode) = modes[lock] {
            give_back(words, seat, lane, lock, mode);
        }
    }
}

/// Takes all locks of a set, or none: what was taken before a refused lock is given back.
pub(crate) fn take_locks(
    words: &LockSteps,
    seat: &mut LaneSeat,
    lane: usize,
    modes: &[Option<LockMode>],
    tries: u32,
) -> Result<(), LockRefusal>
    requires lane { IsLane words.now.table.shared.table_id words.now.table.shared.key.locks seat.old lane }
    requires locks { IsWithin modes.now words.now.table.shared.key.locks }
    requires nothing { HoldsNothing (lane_at seat.old lane) }
    ensures steps { OnOk result (AddsAtMost (steps_to_take tries (locks_of modes.now)) seat.old.me.0.fronts seat.new.me.0.fronts) }
    ensures refused_steps { IfErr result (λ refusal. AddsAtMost (steps_to_refuse tries (locks_of modes.now) refusal) seat.old.me.0.fronts seat.new.me.0.fronts) }
    ensures taken { OnOk result (Makes seat.old seat.new lane (takes_of lane (locks_of modes.now))) }
    ensures held { OnOk result (HoldsExactly (lane_at seat.new lane) (locks_of modes.now)) }
    ensures undone { IfErr result (λ refusal. Makes seat.old seat.new lane (undone lane (locks_of modes.now) refusal)) }
    ensures nothing { OnErr result (HoldsNothing (lane_at seat.new lane)) }
    ensures why { IfErr result (λ refusal. IsRefused tries (locks_of modes.now) (lane_at seat.old lane) (lane_at seat.new lane) refusal) }
{
    for lock in 0..modes.len() {
        if let Some(mode) = modes[lock] {
            if let Err(refusal) = take_lock(words, seat, lane, lock, mode, tries) {
                give_locks(words, seat, lane, modes, lock);
                return Err(refusal);
            }
        }
    }
    Ok(())
}
