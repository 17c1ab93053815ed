//! The rule of the counter from which workers draw jobs, what its steps show, and how seats are
//! split off and joined in. Everything here exists in proofs only: it takes no bytes and runs no
//! code.
use crate::jobs::Done;
use crate::jobs::slot::Slot;
use atomic_table::{Join, Play, Seat, Shared, Split, Table, TableRule};
use std::alloc::Allocator;
use std::collections::LinkedList;
use std::snapshot::Snapshot;

/// The counter, word 0, and a slot for each job, as workers share them. The key is the list of
/// items.
pub(crate) type Counter<T, O, M> = Shared<Slot<T, O>, Drawn<T, O>, Snapshot<Vec<T, M>>, Drawing>;

/// The counter and the slots with their memory. Workers share `shared` of it.
pub(crate) type CounterTable<T, O, M> = Table<
    Slot<T, O>,
    Drawn<T, O>,
    Snapshot<Vec<T, M>>,
    Drawing,
    M,
>;

/// A worker's hand: a seat at the counter, with which it draws jobs and gives back their outcomes.
pub(crate) type Hand<T, O> = Seat<Slot<T, O>, Drawn<T, O>>;

/// The view of a seat.
pub(crate) struct Drawn<T, O> {
    /// How many of the seats that were split off at first this one stands for. A seat that stands
    /// for none is spent.
    pub parts: u64,
    /// The numbers that it drew.
    pub draws: LinkedList<u64>,
    /// The jobs that it did and whose slots it gave back, with their outcomes.
    pub given: LinkedList<Done<O>>,
    /// The items that there are to draw.
    pub items: LinkedList<T>,
}

/// The views together hold each number below the counter once, each slot from the counter on has
/// its item, and each slot that was given back has its job's outcome.
pub(crate) struct Drawing;

impl<T, O, M: Allocator> TableRule<Slot<T, O>, Drawn<T, O>, Snapshot<Vec<T, M>>> for Drawing {
    ghost use Rattle.std.specs.Prelude.{[]};
    ghost use Rattle.ext_crew.specs.InnerCounter.{Kept, drawn};

    ghost holds = { λ key s. Kept key.value.items s };

    ghost first = { λ key. drawn 33 [] [] key.value.items };
}

/// A load of the counter.
pub(crate) struct Loads;

impl<T, O> Play<Slot<T, O>, Drawn<T, O>> for Loads {
    ghost use Rattle.ext_crew.specs.InnerCounter.{Loaded};

    ghost then = { λ _ v found w. Loaded v found w };
}

/// A draw: the counter goes from the expected number to the next one.
pub(crate) struct Draws;

impl<T, O> Play<Slot<T, O>, Drawn<T, O>> for Draws {
    ghost use Rattle.std.specs.Prelude.{◌==◌};
    ghost use Rattle.ext_crew.specs.InnerCounter.{DrawsIf};

    ghost then = { λ s v found w. DrawsIf (found == s.first) v found w };
}

/// Splits a worker's seat off the first one, and joins it in again.
pub(crate) struct Hires;

impl<T, O> Split<Drawn<T, O>> for Hires {
    ghost use Rattle.ext_crew.specs.InnerCounter.{hirer, hired};

    ghost left = { hirer };

    ghost right = { hired };
}

impl<T, O> Join<Drawn<T, O>> for Hires {
    ghost use Rattle.ext_crew.specs.InnerCounter.{together, spent};

    ghost both = { together };

    ghost spent = { spent };
}
