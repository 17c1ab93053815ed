//! Opening the cells, and giving out their lanes.
ghost use Rattle.std.specs.Prelude.{◌≡◌, ◌≤◌, ◌<◌, ◌+◌, ◌^◌, ◌↔◌, IsTrue, IfOk, [], replicate};
ghost use Rattle.ext_cells.specs.Lanes.{AreLimits, fresh_lanes};
ghost use Rattle.ext_cells.specs.InnerViews.{first_lane, limits_of};
ghost use Rattle.ext_cells.specs.InnerMarks.{marks};

use crate::CellLane;
use crate::limits::CellLimits;
use crate::marks::{TO_BLOCKS, block_count};
use crate::rule::{CellTable, LaneSeat, NewLane, SharedWords};
use ext_model::{LaneNo, Size};
use std::alloc::{AllocError, Global};

/// Whether cells of this size may have these limits: at most 1,024 cells for each context, 1 to
/// `size.lanes()` lanes, 1 to 64 tries and 1 to `size.numbers()` numbers. `Cells::open` refuses all
/// others of the usual size, and `Cells::open_for` of the large one.
pub fn are_limits(size: Size, cells: usize, lanes: usize, tries: u32, numbers: u32) -> bool
    ensures { IsTrue result ↔ AreLimits size cells lanes tries numbers }
{
    cells <= size.contexts() * 1024
        && (1..=size.lanes()).contains(&lanes)
        && (1..=64).contains(&tries)
        && (1..=size.numbers()).contains(&numbers)
}

/// `count` words, all zero.
fn zero_words(alloc: Global, count: usize) -> Result<Vec<u64>, AllocError>
    ensures { IfOk result (λ v. v.items ≡ replicate count 0) }
{
    Vec::from_elem(alloc, 0, count)
}

/// The words of a history without events, and the seat of the first lane.
pub(crate) fn open_words(
    alloc: Global,
    limits: &CellLimits,
) -> Result<(CellTable, LaneSeat), AllocError>
    requires cells { limits.now.cells ≤ 67108864 }
    requires lanes { 1 ≤ limits.now.lanes }
    requires few { limits.now.numbers + limits.now.lanes < 2 ^ 32 }
    ensures words { IfOk result (λ r. r.0.shared.table_id.words ≡ (marks limits.now.cells).width) }
    ensures key { IfOk result (λ r. r.0.shared.key ≡ limits.now) }
    ensures table { IfOk result (λ r. r.1.table_id ≡ r.0.shared.table_id) }
    ensures first { IfOk result (λ r. r.1.me.0 ≡ first_lane limits.now) }
{
    let words = zero_words(alloc, limits.cells + TO_BLOCKS + block_count(limits.cells))?;
    CellTable::of_words(alloc, words.as_slice(), limits)
}

/// Splits a seat for each further lane off the first.
pub(crate) fn give_out(
    shared: &SharedWords,
    alloc: Global,
    mut first: LaneSeat,
    lanes: LaneNo,
) -> Result<Vec<CellLane>, AllocError>
    requires table { first.table_id ≡ shared.now.table_id }
    requires words { 0 < shared.now.table_id.words }
    requires first { first.me.0 ≡ first_lane shared.now.key }
    requires lanes { (1 ≤ lanes) × (lanes ≡ shared.now.key.lanes) }
    ensures { IfOk result (λ v. v.items ≡ fresh_lanes (record { table = shared.now.table_id; limits = limits_of shared.now.key }) 0 lanes) }
{
    let mut others = Vec::new(alloc);
    for number in 1..lanes {
        let seat = shared.split_seat::<NewLane>(&mut first);
        others.push(CellLane { number, seat })?;
    }
    others.insert(
        0,
        CellLane {
            number: 0,
            seat: first,
        },
    )?;
    Ok(others)
}
