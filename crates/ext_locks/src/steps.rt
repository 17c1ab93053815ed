//! Single steps on the word of one lock. Only these touch the shared words.
ghost use Rattle.std.specs.Prelude.{◌≡◌, ◌^◌, ◌<◌, ◌==◌, Some, true, false};
ghost use Rattle.ext_history.specs.Histories.{seen};
ghost use Rattle.ext_locks.specs.History.{holds};
ghost use Rattle.ext_locks.specs.InnerWords.{bit_of, IsFreeWord};
ghost use Rattle.ext_locks.specs.InnerRule.{TakesIf, Stepped, Loaded, told_of, noted};
ghost use Rattle.ext_locks.specs.InnerSteps.{IsLane};

use crate::rule::{GivesRead, GivesWrite, LaneSeat, LockTable, Notes, Sees, TakesRead, TakesWrite};
use crate::{LockMode, LockNo};

/// The greatest number of lanes: each has one bit for reading in a word, and one for writing above
/// these.
pub(crate) const MAX_LANES: usize = 32;

/// The words of open locks. Only this module reaches them, and each function of it that reads or
/// changes one is a step of a lane's seat: so no call can look at them otherwise.
#[derive(Drop)]
pub(crate) struct LockSteps {
    table: LockTable,
}

impl LockSteps {
    /// The words of an open table.
    pub(crate) fn of(table: LockTable) -> LockSteps
        ensures { result.table ≡ table }
    {
        LockSteps { table }
    }
}

/// The bit of a lane that holds a lock in this mode.
fn bit(mode: LockMode, lane: usize) -> u64
    requires { lane < 32 }
    ensures { result ≡ 2 ^ bit_of mode lane }
{
    match mode {
        LockMode::Read => 1 << lane,
        LockMode::ReadWrite => 1 << (MAX_LANES + lane),
    }
}

/// Takes a lock, if its word is as expected. Returns the word that it found.
pub(crate) fn take_if(
    words: &LockSteps,
    seat: &mut LaneSeat,
    lane: usize,
    lock: LockNo,
    mode: LockMode,
    old: u64,
) -> u64
    requires table { (seat.old.table_id ≡ words.now.table.shared.table_id) × (words.now.table.shared.key.locks ≡ words.now.table.shared.table_id.words) }
    requires lane { (seat.old.me.0.number ≡ Some lane) × (lane < 32) }
    requires lock { lock < words.now.table.shared.key.locks }
    requires free { IsFreeWord mode old }
    ensures table { seat.new.table_id ≡ seat.old.table_id }
    ensures step { TakesIf (result == old) seat.old.me.0 lane lock mode result seat.new.me.0 }
{
    let new = old | bit(mode, lane);
    match mode {
        LockMode::Read => words
            .table
            .shared
            .compare_exchange::<TakesRead>(seat, lock, old, new),
        LockMode::ReadWrite => words
            .table
            .shared
            .compare_exchange::<TakesWrite>(seat, lock, old, new),
    }
}

pub(crate) fn give_back(
    words: &LockSteps,
    seat: &mut LaneSeat,
    lane: usize,
    lock: LockNo,
    mode: LockMode,
)
    requires table { (seat.old.table_id ≡ words.now.table.shared.table_id) × (words.now.table.shared.key.locks ≡ words.now.table.shared.table_id.words) }
    requires lane { (seat.old.me.0.number ≡ Some lane) × (lane < 32) }
    requires lock { lock < words.now.table.shared.key.locks }
    requires held { holds (seen seat.old.me.0.fronts) lock mode lane ≡ true }
    ensures table { seat.new.table_id ≡ seat.old.table_id }
    ensures step { Stepped seat.old.me.0 lane lock mode false seat.new.me.0 }
{
    let mask = !bit(mode, lane);
    match mode {
        LockMode::Read => words.table.shared.fetch_and::<GivesRead>(seat, lock, mask),
        LockMode::ReadWrite => words.table.shared.fetch_and::<GivesWrite>(seat, lock, mask),
    };
}

/// Reads the word of a lock.
pub(crate) fn load(words: &LockSteps, seat: &mut LaneSeat, lane: usize, lock: LockNo) -> u64
    requires table { (seat.old.table_id ≡ words.now.table.shared.table_id) × (words.now.table.shared.key.locks ≡ words.now.table.shared.table_id.words) }
    requires lane { seat.old.me.0.number ≡ Some lane }
    requires lock { lock < words.now.table.shared.key.locks }
    ensures table { seat.new.table_id ≡ seat.old.table_id }
    ensures step { Loaded seat.old.me.0 lane lock result seat.new.me.0 }
{
    words.table.shared.load::<Sees>(seat, lock)
}

/// Shows a lane all that another has seen, and loads the global lock's word for it.
pub(crate) fn tell(words: &LockSteps, from: &mut LaneSeat, to: &mut LaneSeat, lane: usize) -> u64
    requires from { from.old.table_id ≡ words.now.table.shared.table_id }
    requires to { IsLane words.now.table.shared.table_id words.now.table.shared.key.locks to.old lane }
    requires lock { 0 < words.now.table.shared.key.locks }
    ensures from { (from.new.table_id ≡ from.old.table_id) × (from.new.me ≡ from.old.me) }
    ensures table { to.new.table_id ≡ to.old.table_id }
    ensures step { Loaded (told_of to.old.me.0 (noted from.old.me.0)) lane 0 result to.new.me.0 }
{
    let note = words.table.shared.split_seat::<Notes>(from);
    words.table.shared.join_seat::<Notes>(to, note);
    load(words, to, lane, 0)
}
