//! Locks that a lane waits for, one after another.
ghost use Rattle.std.specs.Prelude.{◌≡◌, ◌<◌, true, false, [], ◌∷◌};
ghost use Rattle.ext_history.specs.Histories.{seen};
ghost use Rattle.ext_locks.specs.declared.event.LockMode.{LockMode};
ghost use Rattle.ext_locks.specs.History.{event, holds};
ghost use Rattle.ext_locks.specs.Sets.{locks_of, takes_of, HoldsNothing, HoldsExactly};
ghost use Rattle.ext_locks.specs.InnerSteps.{lane_at, IsLane, Makes, HeldBut, IsWithin};

use crate::rule::LaneSeat;
use crate::steps::LockSteps;
use crate::taking::take_lock;
use crate::{LockMode, LockNo, LockRefusal};
use ext_waiters::Waiters;
use std::sync::Wait;

/// What all lanes share: the words of the locks, the lanes that wait, and the greatest number of
/// exchanges of a try.
#[derive(Drop)]
pub(crate) struct SharedLocks<'a> {
    pub words: &'a LockSteps,
    pub waiters: &'a Waiters,
    pub tries: u32,
}

/// Takes a lock, however often it has to try: after a wake if another lane held it, and at once if
/// other lanes were in the way.
fn wait_for_lock<R: Wait>(
    rt: &R,
    locks: &SharedLocks<'_>,
    seat: &mut LaneSeat,
    lane: usize,
    lock: LockNo,
    mode: LockMode,
)
    requires lane { IsLane locks.now.words.now.table.shared.table_id locks.now.words.now.table.shared.key.locks seat.old lane }
    requires lock { lock < locks.now.words.now.table.shared.key.locks }
    requires unheld { (held : LockMode) → holds (seen seat.old.me.0.fronts) lock held lane ≡ false }
    ensures taken { Makes seat.old seat.new lane (event lane lock mode true ∷ []) }
    ensures held { HeldBut seat.old.me.0.fronts seat.new.me.0.fronts lane lock mode true }
{
    let mut waiting = locks.waiters.begin();
    for _ in rt.forever() {
        match take_lock(locks.words, seat, lane, lock, mode, locks.tries) {
            Ok(()) => return,
            Err(LockRefusal::Taken(_)) => waiting.pause(rt),
            Err(LockRefusal::Contended(_)) => {}
        }
    }
    unreachable!()
}

/// Takes all locks of a set, one after another, and waits for each until it is free.
pub(crate) fn wait_for_locks<R: Wait>(
    rt: &R,
    locks: &SharedLocks<'_>,
    seat: &mut LaneSeat,
    lane: usize,
    modes: &[Option<LockMode>],
)
    requires lane { IsLane locks.now.words.now.table.shared.table_id locks.now.words.now.table.shared.key.locks seat.old lane }
    requires locks { IsWithin modes.now locks.now.words.now.table.shared.key.locks }
    requires nothing { HoldsNothing (lane_at seat.old lane) }
    ensures taken { Makes seat.old seat.new lane (takes_of lane (locks_of modes.now)) }
    ensures held { HoldsExactly (lane_at seat.new lane) (locks_of modes.now) }
{
    for lock in 0..modes.len() {
        if let Some(mode) = modes[lock] {
            wait_for_lock(rt, locks, seat, lane, lock, mode);
        }
    }
}
