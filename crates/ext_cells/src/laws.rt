//! Laws of the words of cells and of the numbers that lanes draw, as the contract of an empty
//! function.
ghost use Rattle.ext_cells.specs.CellLaws.{NumbersAreDrawnOnce, NumbersAreFromOne, TableFollowsEvents, TableFollowsReplies};

/// Proves the laws of the table of words, which `after` computes, and of the numbers that lanes
/// draw.
pub fn cell_laws()
    ensures table { TableFollowsReplies }
    ensures next_words { TableFollowsEvents }
    ensures drawn_once { NumbersAreDrawnOnce }
    ensures from_one { NumbersAreFromOne }
{}
