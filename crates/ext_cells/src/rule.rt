//! The rule of the shared words: one legal history, of which each lane has seen a prefix.
//!
//! A cell stands at an index of the table, or it is open, or it has ended without one. The words of
//! blocks say which, and how they say it is a layout, here that of marks. A block's end seals all
//! its cells that have no word: one step, and an event for each.
//!
//! A lane adds one to the count of numbers once it has seen that one is left, and so draws the next
//! number, or finds that no number was left. It has seen that then, and does not add again: so the
//! count is beyond the limit by at most the number of lanes.
//!
//! A seat takes no bytes: its view exists in proofs only. An exchange announces the act that it
//! makes, since a step cannot read it off the one word that it changes.
ghost use Rattle.std.specs.Prelude.{ℕ};

use crate::limits::CellLimits;
use crate::view::View;
use atomic_table::{Join, Play, Seat, Shared, Split, Table, TableRule};
use ext_model::{Act, CellNo};
use std::alloc::Global;
use std::marker::{Brand, PhantomData};

/// The cells' words, after them the count of numbers drawn, and then the words of blocks.
pub(crate) type CellTable = Table<Act<CellNo>, View, CellLimits, OneHistory, Global>;

pub(crate) type SharedWords = Shared<Act<CellNo>, View, CellLimits, OneHistory>;

pub(crate) type LaneSeat = Seat<Act<CellNo>, View>;

pub(crate) struct OneHistory;

impl TableRule<Act<CellNo>, View, CellLimits> for OneHistory {
    ghost use Rattle.ext_cells.specs.InnerViews.{first_lane};
    ghost use Rattle.ext_cells.specs.InnerRule.{Kept};
    ghost use Rattle.ext_cells.specs.InnerMarks.{marks};

    ghost holds = { λ limits. Kept limits (marks limits.cells) };

    ghost first = { first_lane };
}

pub(crate) struct Load;

impl Play<Act<CellNo>, View> for Load {
    ghost use Rattle.ext_cells.specs.InnerTableSteps.{Loaded};

    ghost then = { λ s. Loaded s.word s };
}

/// An exchange, which is a load if it fails.
pub(crate) struct Exchange;

impl Play<Act<CellNo>, View> for Exchange {
    ghost use Rattle.ext_cells.specs.InnerTableSteps.{Exchanged};

    ghost then = { λ s. Exchanged s.word s };
}

/// A load of the count of numbers.
pub(crate) struct LoadCount;

impl Play<Act<CellNo>, View> for LoadCount {
    ghost use Rattle.ext_cells.specs.InnerTableSteps.{CountLoaded};

    ghost then = { λ _ me. CountLoaded me };
}

/// An addition to the count, which draws the next number if one is left.
pub(crate) struct Draw;

impl Play<Act<CellNo>, View> for Draw {
    ghost use Rattle.ext_cells.specs.InnerTableSteps.{Drawn};

    ghost then = { λ _ me. Drawn me };
}

/// Splits a further lane off the first.
pub(crate) struct NewLane;

impl Split<View> for NewLane {
    ghost use Rattle.ext_cells.specs.InnerViews.{giving, born};

    ghost left = { giving };

    ghost right = { born };
}

/// Splits a note of what a lane has seen off it, and joins it into another lane.
pub(crate) struct Note;

impl Split<View> for Note {
    ghost use Rattle.ext_cells.specs.InnerViews.{note};

    ghost left = { λ v. v };

    ghost right = { note };
}

impl Join<View> for Note {
    ghost use Rattle.ext_cells.specs.InnerViews.{noted, spent};

    ghost both = { noted };

    ghost spent = { spent };
}

/// Which cell a step on a block's word is for. Each call picks it, in its proof.
pub(crate) trait Aim {
    ghost cell: { ℕ };
}

impl Aim for Brand {
    ghost cell = { 0 };
}

/// A load of a block's word, to read a cell.
pub(crate) struct Lead<A: Aim> {
    aim: PhantomData<A>,
}

impl<A: Aim> Play<Act<CellNo>, View> for Lead<A> {
    ghost use Rattle.ext_cells.specs.InnerTableSteps.{Led};
    ghost use Rattle.ext_cells.specs.InnerMarks.{marks};

    ghost then = { λ s me. Led (marks me.0.limits.cells) A.cell s me };
}

/// A load of a block's word, to give a cell its mark.
pub(crate) struct Seek<A: Aim> {
    aim: PhantomData<A>,
}

impl<A: Aim> Play<Act<CellNo>, View> for Seek<A> {
    ghost use Rattle.ext_cells.specs.InnerTableSteps.{Sought};
    ghost use Rattle.ext_cells.specs.InnerMarks.{marks};

    ghost then = { λ s me. Sought (marks me.0.limits.cells) A.cell s me };
}

/// An exchange of a block's word, which gives a cell its mark.
pub(crate) struct Mark<A: Aim> {
    aim: PhantomData<A>,
}

impl<A: Aim> Play<Act<CellNo>, View> for Mark<A> {
    ghost use Rattle.ext_cells.specs.InnerTableSteps.{Marked};
    ghost use Rattle.ext_cells.specs.InnerMarks.{marks};

    ghost then = { λ s me. Marked (marks me.0.limits.cells) A.cell s me };
}

/// The end of a block.
pub(crate) struct End;

impl Play<Act<CellNo>, View> for End {
    ghost use Rattle.ext_cells.specs.InnerTableSteps.{EndedBy};
    ghost use Rattle.ext_cells.specs.InnerMarks.{marks};

    ghost then = { λ s me. EndedBy (marks me.0.limits.cells) s me };
}
