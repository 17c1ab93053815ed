//! The rule of the table of lock words, what its steps show, and how seats are split off and joined
//! in.
use crate::seat::SeatView;
use atomic_table::{Join, Play, Seat, Shared, Split, Table, TableRule};
use std::alloc::Global;

/// How many locks and lanes there are: the rule reads it, and nothing changes it.
#[derive(Clone, Copy)]
pub(crate) struct LockCounts {
    pub locks: usize,
    pub lanes: usize,
}

/// The words of the locks, with the memory that they stand in.
pub(crate) type LockTable = Table<(), SeatView, LockCounts, LockRule, Global>;

/// The words of the locks, which all lanes step on.
pub(crate) type LockWords = Shared<(), SeatView, LockCounts, LockRule>;

/// A lane's seat at these words.
pub(crate) type LaneSeat = Seat<(), SeatView>;

/// Each word has the bits of its lock's holders in one legal history, of which every lane has seen
/// prefixes.
pub(crate) struct LockRule;

impl TableRule<(), SeatView, LockCounts> for LockRule {
    ghost use Rattle.ext_locks.specs.InnerRule.{Kept, founder};

    ghost holds = { λ counts s. Kept counts.locks counts.lanes s.words s.views };

    ghost first = { λ counts. founder counts.lanes };
}

/// An exchange that may take a lock for reading.
pub(crate) struct TakesRead;

impl Play<(), SeatView> for TakesRead {
    ghost use Rattle.ext_locks.specs.declared.event.LockMode.TheVariants.{Read};
    ghost use Rattle.ext_locks.specs.InnerRule.{Takes};

    ghost then = { Takes Read };
}

/// An exchange that may take a lock for reading and writing.
pub(crate) struct TakesWrite;

impl Play<(), SeatView> for TakesWrite {
    ghost use Rattle.ext_locks.specs.declared.event.LockMode.TheVariants.{ReadWrite};
    ghost use Rattle.ext_locks.specs.InnerRule.{Takes};

    ghost then = { Takes ReadWrite };
}

/// Gives back a lock that was held for reading.
pub(crate) struct GivesRead;

impl Play<(), SeatView> for GivesRead {
    ghost use Rattle.ext_locks.specs.declared.event.LockMode.TheVariants.{Read};
    ghost use Rattle.ext_locks.specs.InnerRule.{GivesBack};

    ghost then = { GivesBack Read };
}

/// Gives back a lock that was held for reading and writing.
pub(crate) struct GivesWrite;

impl Play<(), SeatView> for GivesWrite {
    ghost use Rattle.ext_locks.specs.declared.event.LockMode.TheVariants.{ReadWrite};
    ghost use Rattle.ext_locks.specs.InnerRule.{GivesBack};

    ghost then = { GivesBack ReadWrite };
}

/// A load of a lock's word.
pub(crate) struct Sees;

impl Play<(), SeatView> for Sees {
    ghost use Rattle.ext_locks.specs.InnerRule.{Loads};

    ghost then = { Loads };
}

/// A note of what a lane has seen, for another lane.
pub(crate) struct Notes;

impl Split<SeatView> for Notes {
    ghost use Rattle.ext_locks.specs.InnerRule.{noted};

    ghost left = { λ v. v };

    ghost right = { noted };
}

impl Join<SeatView> for Notes {
    ghost use Rattle.ext_locks.specs.InnerRule.{told_of, nobody};

    ghost both = { told_of };

    ghost spent = { nobody };
}

/// A lane's seat, split off the seat that gives the numbers.
pub(crate) struct Deals;

impl Split<SeatView> for Deals {
    ghost use Rattle.ext_locks.specs.InnerRule.{dealer, dealt};

    ghost left = { dealer };

    ghost right = { dealt };
}
