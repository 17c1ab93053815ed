//! The first call of a lane, of each kind, after another lane's put: no clause says that it looks
//! at the cells as they are then.
ghost use Rattle.std.specs.Prelude.{◌≡◌, ◌≤◌};

use crate::hand::{Call, go, open};
use crate::same::same;
use ext_cells::{CellLane, Cells};
use std::alloc::Global;
use std::process::Abort;

/// Two rows of cells, whose first lane has put number 1 into cell 0, and their other lane, which
/// has made no call.
fn opened_and_put<R: Abort>(rt: &R, alloc: Global) -> (Cells, CellLane)
    ensures lane { result.1.cells ≡ result.0.id }
    ensures cells { result.0.id.limits.cells ≡ 128 }
{
    let (cells, mut first, second) = open(rt, alloc, 128, 1);
    go(rt, &cells, &mut first, 0, Call::Puts(1, Ok(None)));
    (cells, second)
}

/// The first lane has put number 1, and the first call of the other, a collect, a claim, a remove,
/// a seal or a put, sees it.
/// Tests `Cells::collect` and `Cells::put`.
#[test]
fn first_calls_see_another_lanes_put(rt: HostRuntime) {
    let calls = [
        // the value of number 1, at version 1
        Call::Reads(16_777_234),
        Call::Asks(Ok(Some(1))),
        Call::Removes(Ok(Some(1))),
        Call::Seals(Ok(Some(1))),
        // the number that is drawn first is the next one
        Call::Puts(2, Ok(Some(1))),
    ];
    for call in calls {
        let (cells, mut lane) = opened_and_put(&rt, rt.alloc());
        go(&rt, &cells, &mut lane, 0, call);
    }
}

/// The index of the nearest of the two rows.
fn nearest_of_two(cells: &Cells, lane: &mut CellLane) -> Option<usize>
    requires lane { lane.old.cells ≡ cells.now.id }
    requires cells { 128 ≤ cells.now.id.limits.cells }
{
    match cells.nearest(lane, &[1, 0], 2, 0) {
        Ok(Some(nearest)) => Some(nearest.index),
        Ok(None) | Err(_) => None,
    }
}

/// The first lane has put a number in the second of two rows, and the first look of the other along
/// both finds it there.
/// Tests `Cells::nearest`.
#[test]
fn first_look_sees_another_lanes_put(rt: HostRuntime) {
    let (cells, mut lane) = opened_and_put(&rt, rt.alloc());
    let found = nearest_of_two(&cells, &mut lane);
    same(&rt, found, Some(1), "the nearest row");
}

/// The first lane has put a number in a block: the first end of that block by the other shows its
/// mark, and that of a block that nobody used shows none.
/// Tests `Cells::end_block`.
#[test]
fn first_end_of_a_block_sees_another_lanes_put(rt: HostRuntime) {
    let (cells, mut lane) = opened_and_put(&rt, rt.alloc());
    same(
        &rt,
        cells.end_block(&mut lane, 0),
        1,
        "the marks of a block with a value",
    );
    same(
        &rt,
        cells.end_block(&mut lane, 1),
        0,
        "those of a block that nobody used",
    );
}

/// What a put answers that stores the number which the lane drew before the first lane put its own.
fn put_after_another<R: Abort>(rt: &R, alloc: Global) -> Option<u32> {
    let (cells, mut first, mut second) = open(rt, alloc, 2, 1);
    let number = cells.next_number(&mut second).ok()?;
    go(rt, &cells, &mut first, 0, Call::Puts(2, Ok(None)));
    cells.put(&mut second, 0, number).ok()?
}

/// A lane draws a number, another one puts its own, and the first put of the first answers that
/// one.
/// Tests `Cells::put`.
#[test]
fn first_put_sees_another_lanes_put(rt: HostRuntime) {
    let stood = put_after_another(&rt, rt.alloc());
    same(&rt, stood, Some(2), "what stood");
}
