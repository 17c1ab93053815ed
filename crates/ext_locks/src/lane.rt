//! A lane, which takes locks and gives them back.
use crate::rule::LaneSeat;
use std::marker::Model;

/// A lane of some locks, owned by one thread at a time. It may be moved to another thread.
///
/// Contracts see the locks that it belongs to, how many lanes these have, its number, from 0, and
/// the histories that it saw.
#[derive(Drop)]
pub struct LockLane {
    pub(crate) seat: LaneSeat,
    pub(crate) number: usize,
}

impl Model for LockLane {
    ghost use Rattle.std.specs.Prelude.{◌≡◌, ◌<◌, ◌≤◌, [], Some};
    ghost use Rattle.ext_history.specs.Histories.{seen, Follow};
    ghost use Rattle.ext_locks.specs.History.{IsLegal};
    ghost use Rattle.ext_locks.specs.Views.{Lane};

    ghost Value = { Lane };

    ghost view = { λ a. record { table = a.seat.table_id; lanes = a.seat.me.0.lanes; view = record { number = a.number; fronts = a.seat.me.0.fronts } } };

    ghost invariant = { λ a.
        (a.seat.me.0.number ≡ Some a.number)
        × (a.number < a.seat.me.0.lanes)
        × (a.seat.me.0.lanes ≤ 32)
        × Follow [] a.seat.me.0.fronts
        × IsLegal a.seat.me.0.lanes (seen a.seat.me.0.fronts) };
}

impl LockLane {
    ghost use Rattle.std.specs.Prelude.{◌≡◌, ◌<◌, ◌≤◌, []};
    ghost use Rattle.ext_history.specs.Histories.{seen_by, Follow};
    ghost use Rattle.ext_locks.specs.History.{IsLegal};

    /// The lane's number, from 0, below the count of lanes; no other lane of these locks has it.
    pub fn number(&self) -> usize
        ensures number { result ≡ self.now.view.number }
        ensures below { result < self.now.lanes }
    {
        self.number
    }

    /// Proves what is true of every lane: all that it has seen is legal, and each history goes on
    /// from the one before it. It does nothing when it runs.
    pub fn tell_proof(&self)
        ensures lane { self.now.view.number < self.now.lanes }
        ensures lanes { self.now.lanes ≤ 32 }
        ensures one_history { Follow [] self.now.view.fronts }
        ensures legal { IsLegal self.now.lanes (seen_by self.now.view) }
    {
        let _number = self.number;
    }
}
