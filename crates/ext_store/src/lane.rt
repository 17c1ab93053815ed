//! A lane of a store, which a thread owns.
ghost use Rattle.std.specs.Prelude.{◌≡◌, ◌<◌, [], is_some};
ghost use Rattle.ext_model.specs.History.{IsLegal};
ghost use Rattle.ext_history.specs.Histories.{Follow, seen_by};
ghost use Rattle.ext_tree.specs.Keys.{key_at};

use ext_cells::CellLane;
use ext_model::{Fault, KeyNo, LaneNo};
use ext_tree::KeyNotes;
use ext_values::{Notes, SilentNotes};
use std::marker::Model;

/// A lane of a store, which one thread at a time owns. It may go to another thread, and be dropped.
///
/// In contracts it is its lane of the cells, what it knows of the value and of the fault of each
/// number, and what it knows of the places of keys. It knows a value or a fault that it kept or was
/// shown. It knows a key that it named, was shown while it named another, or was told by
/// `Store::meet`.
#[derive(Drop)]
pub struct Lane<V> {
    pub(crate) cells: CellLane,
    pub(crate) notes: Notes<V>,
    pub(crate) faults: SilentNotes<Fault>,
    pub(crate) keys: KeyNotes,
}

impl<V> Model for Lane<V> {
    ghost use Rattle.ext_store.specs.Stores.{StoreLane};

    ghost Value = { StoreLane V };

    ghost view = { λ l. record { cells = l.cells; known = l.notes; faults = l.faults; keys = l.keys } };
}

impl<V> Lane<V> {
    /// Answers the lane's number, from 0 in the order in which `Store::open` gave the lanes out,
    /// and so below their count.
    pub fn number(&self) -> LaneNo
        ensures number { result ≡ self.now.cells.view.number }
        ensures below { result < self.now.cells.cells.limits.lanes }
    {
        self.cells.number()
    }

    /// Whether this lane knows the key of this number: whether it named it, was shown it or was
    /// told it. False for a number past the last place.
    pub fn knows_key(&self, number: KeyNo) -> bool
        ensures { result ≡ is_some (key_at self.now.keys number) }
    {
        self.keys.knows(number)
    }

    /// Tells a proof what holds of every lane in hand. It has seen a legal history, and each of its
    /// fronts goes on from the one before it. So where lanes met one after the other, all their
    /// fronts are parts of one legal history, as `frame_laws` says. It does nothing when it runs.
    pub fn tell_proof(&self)
        ensures legal { IsLegal self.now.cells.cells.limits (seen_by self.now.cells.view) }
        ensures follow { Follow [] self.now.cells.view.fronts }
    {
        self.cells.tell_proof();
    }
}
