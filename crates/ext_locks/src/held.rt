//! A set of locks that a lane holds.
use crate::{LockLane, LockSet};
use std::marker::Model;
use std::snapshot::Snapshot;

/// A set of locks that a lane holds. It must be given back: it cannot be dropped.
///
/// Contracts see the lane, the names of its locks, the set, and the lane's own lock events as they
/// were once the set was taken. So a caller that has this, and not the locks, knows the set by
/// names and modes. JUnit 5 User Guide, section "Synchronization": a test holds its locks from
/// before its callbacks until it has ended.
pub struct Held {
    pub(crate) set: LockSet,
    pub(crate) taken: Snapshot<LockLane>,
    pub(crate) names: Snapshot<Vec<String>>,
}

impl Model for Held {
    ghost use Rattle.std.specs.Prelude.{◌+◌, map, length, string_bytes};
    ghost use Rattle.ext_locks.specs.Views.{own_of};
    ghost use Rattle.ext_locks.specs.Sets.{HeldView, HoldsExactly, AllBelow};

    ghost Value = { HeldView };

    ghost view = { λ h. record { table = h.taken.value.table; lane = h.taken.value.view.number; names = map string_bytes h.names.value.items; set = h.set; own_events = own_of h.taken.value } };

    ghost invariant = { λ h.
        HoldsExactly h.taken.value h.set
        × AllBelow h.taken.value.table.words h.set
        × AllBelow (length h.names.value.items + 1) h.set };
}

impl Held {
    ghost use Rattle.std.specs.Prelude.{◌≡◌, ◌+◌, length};
    ghost use Rattle.ext_locks.specs.Sets.{AllBelow};

    /// The set that is held: each of its locks is the global one, or has one of the names.
    pub fn set(&self) -> &LockSet
        ensures set { result.now ≡ self.now.set }
        ensures named { AllBelow (length self.now.names + 1) self.now.set }
    {
        &self.set
    }
}
