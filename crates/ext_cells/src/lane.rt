//! A lane: what a thread owns to act on the cells.
ghost use Rattle.std.specs.Prelude.{◌≡◌, ◌<◌, []};
ghost use Rattle.ext_model.specs.History.{IsLegal};
ghost use Rattle.ext_history.specs.Histories.{Follow, seen_by};

use crate::rule::LaneSeat;
use ext_model::LaneNo;
use std::marker::Model;

/// A lane of some cells, owned by one thread at a time. It may be moved to another thread, and
/// dropped.
///
/// Contracts see its cells, its number, and the history as it stood after each of its steps.
#[derive(Drop)]
pub struct CellLane {
    pub(crate) number: LaneNo,
    pub(crate) seat: LaneSeat,
}

impl Model for CellLane {
    ghost use Rattle.std.specs.Prelude.{◌≡◌, ◌<◌, [], Some};
    ghost use Rattle.ext_model.specs.History.{IsLegal};
    ghost use Rattle.ext_history.specs.Histories.{Follow, seen};
    ghost use Rattle.ext_cells.specs.Lanes.{Lane};
    ghost use Rattle.ext_cells.specs.InnerViews.{limits_of};

    ghost Value = { Lane };

    ghost view = { λ s. record { cells = record { table = s.seat.table_id; limits = limits_of s.seat.me.0.limits }; view = record { number = s.number; fronts = s.seat.me.0.fronts } } };

    ghost invariant = { λ s. (s.seat.me.0.lane ≡ Some s.number) × IsLegal (limits_of s.seat.me.0.limits) (seen s.seat.me.0.fronts) × Follow [] s.seat.me.0.fronts × (s.number < s.seat.me.0.limits.lanes) };
}

impl CellLane {
    /// The lane's number, below the count of lanes: its index in the list that `Cells::open` gave.
    pub fn number(&self) -> LaneNo
        ensures number { result ≡ self.now.view.number }
        ensures below { result < self.now.cells.limits.lanes }
    {
        self.number
    }

    /// Proves what is true of every lane: what it has seen is legal, and each front goes on from
    /// the one before it. It does nothing when it runs.
    pub fn tell_proof(&self)
        ensures legal { IsLegal self.now.cells.limits (seen_by self.now.view) }
        ensures follow { Follow [] self.now.view.fronts }
    {
        let _number = self.number;
    }
}
