//! Cells whose answers were worked out by hand.
//!
//! `zero_words_at_open` and `claim_beside` show the calls of `ext_cells`: three cells are opened
//! and read at one moment, and a claim keeps other lanes out until its lane fills, fails or
//! abandons it.
ghost use Rattle.std.specs.Prelude.{◌≡◌, ◌<◌, ◌≤◌, IsTrue};
ghost use Rattle.ext_model.specs.CallActs.{IsHeld};

use crate::hand::{Call, end_claim, fail_claim, go, open, rows};
use crate::same::same;
use ext_cells::{CellLane, CellRefusal, Cells, Claim, Claimed, Nearest, Standing};
use std::alloc::Global;
use std::process::Abort;

/// A cell is sealed with number 1 in it: a second seal answers 1 again, and any other call is
/// refused as `Closed`.
/// Tests `Cells::open`, `Cells::open_for`, `Cells::tries`, `Cells::next_number`, `Cells::put`,
/// `Cells::remove`, `Cells::seal`, `CellLane::number`, `Cells::collect` and `Cells::nearest`.
#[test]
fn sealed_cells_keep_their_numbers(rt: HostRuntime) {
    let closed = Err(CellRefusal::Closed);
    let all = [
        (0, 0, Call::Reads(0)),
        (0, 3, Call::Reads(0)),
        (0, 1, Call::Removes(Ok(None))),
        (0, 1, Call::Reads(0)),
        (0, 0, Call::Puts(1, Ok(None))),
        (1, 0, Call::Seals(Ok(Some(1)))),
        (1, 0, Call::Seals(Ok(Some(1)))),
        (0, 0, Call::Puts(2, closed)),
        (0, 0, Call::Removes(closed)),
        (0, 0, Call::Asks(closed)),
        // sealed, with number 1, at version 2
        (0, 0, Call::Reads(33_554_451)),
    ];
    rows(&rt, rt.alloc(), &all);
}

/// Tests `Cells::end_block`: each end of a block marks the cells that had an event, and no others.
#[test]
fn ends_mark_cells_that_had_an_event(rt: HostRuntime) {
    let (cells, mut lane, _second) = open(&rt, rt.alloc(), 32, 1);
    go(&rt, &cells, &mut lane, 3, Call::Puts(1, Ok(None)));
    go(&rt, &cells, &mut lane, 4, Call::Removes(Ok(None)));
    same(
        &rt,
        cells.end_block(&mut lane, 0),
        8,
        "the marks at the first end",
    );
    same(
        &rt,
        cells.end_block(&mut lane, 0),
        8,
        "the marks at the second end",
    );
}

/// Two lanes claim a cell in turn and give it up: it stays empty, and once it is sealed a claim is
/// refused as `Closed`.
/// Tests `Cells::fill`, `Cells::fail` and `Cells::abandon`.
#[test]
fn abandoned_cells_are_empty(rt: HostRuntime) {
    let all = [
        (0, 0, Call::Asks(Ok(None))),
        (1, 0, Call::Asks(Ok(None))),
        // empty, at version 4
        (1, 0, Call::Reads(67_108_864)),
        (0, 0, Call::Seals(Ok(None))),
        (1, 0, Call::Asks(Err(CellRefusal::Closed))),
    ];
    rows(&rt, rt.alloc(), &all);
}

/// A failed claim leaves its fault's number, which both lanes meet until a put or a remove takes it
/// out or a seal drops it; the cells beside it stay empty.
/// Tests `after` and `Cells::seal`.
#[test]
fn failed_cells_keep_their_numbers(rt: HostRuntime) {
    let all = [
        (0, 1, Call::Fails(1)),
        // the fault of number 1, at version 2
        (1, 1, Call::Reads(33_554_452)),
        (1, 1, Call::Meets(1)),
        (0, 1, Call::Meets(1)),
        (0, 1, Call::Reads(33_554_452)),
        (1, 1, Call::Puts(2, Ok(Some(1)))),
        // the value of number 2, at version 3
        (0, 1, Call::Reads(50_331_682)),
        (0, 1, Call::Asks(Ok(Some(2)))),
        (0, 1, Call::Removes(Ok(Some(2)))),
        (1, 1, Call::Fails(3)),
        (0, 1, Call::Removes(Ok(Some(3)))),
        // empty, at version 7
        (1, 1, Call::Reads(117_440_512)),
        (1, 1, Call::Fails(4)),
        (0, 1, Call::Seals(Ok(None))),
        // sealed, with no number, at version 10
        (1, 1, Call::Reads(167_772_163)),
        (1, 1, Call::Seals(Ok(None))),
        (1, 1, Call::Asks(Err(CellRefusal::Closed))),
        (0, 1, Call::Removes(Err(CellRefusal::Closed))),
        // the cells beside it
        (0, 0, Call::Reads(0)),
        (0, 2, Call::Asks(Ok(None))),
    ];
    rows(&rt, rt.alloc(), &all);
}

/// The claim of cell 0.
fn won(rt: &impl Abort, cells: &Cells, lane: &mut CellLane) -> Claim
    requires lane { lane.old.cells ≡ cells.now.id }
    requires cell { 0 < cells.now.id.limits.cells }
    ensures lane { lane.new.cells ≡ lane.old.cells }
    ensures held { IsHeld lane.new.view result }
{
    match cells.claim(lane, 0) {
        Ok(Claimed::Won(claim)) => claim,
        Ok(Claimed::Standing(_) | Claimed::Fault(_)) | Err(_) => panic!(rt; "no claim"),
    }
}

/// Asserts that the lane is refused cell 0, which another one has claimed.
fn all_are_busy(rt: &impl Abort, cells: &Cells, lane: &mut CellLane)
    requires lane { lane.old.cells ≡ cells.now.id }
    requires cell { 0 < cells.now.id.limits.cells }
    ensures { lane.new.cells ≡ lane.old.cells }
{
    let busy = Err(CellRefusal::Busy);
    go(rt, cells, lane, 0, Call::Asks(busy));
    go(rt, cells, lane, 0, Call::Removes(busy));
    go(rt, cells, lane, 0, Call::Seals(busy));
    go(rt, cells, lane, 0, Call::Puts(1, busy));
}

/// Asserts that the second lane is refused the cell that the first one has claimed, and meets then
/// the fault with which that one failed it.
fn fail_beside(rt: &impl Abort, cells: &Cells, first: &mut CellLane, second: &mut CellLane)
    requires first { first.old.cells ≡ cells.now.id }
    requires second { second.old.cells ≡ cells.now.id }
    requires faults { IsTrue cells.now.id.limits.keep_faults }
    requires cell { 0 < cells.now.id.limits.cells }
{
    let claim = won(rt, cells, first);
    all_are_busy(rt, cells, second);
    let failed = fail_claim(cells, first, claim);
    same(rt, failed, Ok(2), "the number");
    go(rt, cells, second, 0, Call::Meets(2));
    go(rt, cells, second, 0, Call::Removes(Ok(Some(2))));
    go(rt, cells, first, 0, Call::Asks(Ok(None)));
    cells.meet(second, first);
}

/// While one lane holds a claim each call of the other is refused as `Busy`, and once the claim has
/// failed the other meets the fault's number.
/// Tests `Cells::fill`, `Cells::fail` and `Cells::abandon`.
#[test]
fn claims_that_fail_keep_others_out(rt: HostRuntime) {
    let (cells, mut first, mut second) = open(&rt, rt.alloc(), 1, 8);
    fail_beside(&rt, &cells, &mut first, &mut second);
}

/// `open` makes cells that keep faults, and `open_for` cells that do so if it is told to.
/// Tests `Cells::open`, `Cells::open_for` and `Cells::keeps_faults`.
#[test]
fn cells_keep_faults_as_they_are_opened(rt: HostRuntime) {
    let Ok((cells, _lanes)) = Cells::open(rt.alloc(), 3, 1, 1, 8) else {
        panic!(rt; "no memory")
    };
    same(&rt, cells.keeps_faults(), true, "cells that keep faults");
    for keep_faults in [false, true] {
        let opened = Cells::open_for(rt.alloc(), 3, 1, 1, 8, keep_faults);
        let told = opened.ok().map(|(cells, _lanes)| cells.keeps_faults());
        same(&rt, told, Some(keep_faults), "cells as they are opened");
    }
}

/// Asserts that the second lane is refused the cell that the first one has claimed, and finds then
/// what that one filled it with.
fn claim_beside(rt: &impl Abort, cells: &Cells, first: &mut CellLane, second: &mut CellLane)
    requires first { first.old.cells ≡ cells.now.id }
    requires second { second.old.cells ≡ cells.now.id }
    requires cell { 0 < cells.now.id.limits.cells }
{
    let claim = won(rt, cells, first);
    all_are_busy(rt, cells, second);
    let filled = end_claim(cells, first, claim);
    same(rt, filled, Ok(2), "the number");
    go(rt, cells, second, 0, Call::Asks(Ok(Some(2))));
    go(rt, cells, second, 0, Call::Removes(Ok(Some(2))));
    cells.meet(second, first);
}

/// While one lane holds a claim each call of the other is refused as `Busy`, and once the claim is
/// filled the other finds its number.
/// Tests `Cells::claim`.
#[test]
fn claims_keep_others_out(rt: HostRuntime) {
    let (cells, mut first, mut second) = open(&rt, rt.alloc(), 1, 8);
    claim_beside(&rt, &cells, &mut first, &mut second);
}

/// A cell with as many lanes as there can be, and the last two of them.
fn with_last_lanes<R: Abort>(rt: &R, alloc: Global) -> (Cells, CellLane, CellLane)
    ensures before { result.1.cells ≡ result.0.id }
    ensures last { result.2.cells ≡ result.0.id }
    ensures cells { result.0.id.limits.cells ≡ 1 }
    ensures faults { IsTrue result.0.id.limits.keep_faults }
{
    let Ok((cells, mut lanes)) = Cells::open_for(alloc, 1, 32, 1, 8, true) else {
        panic!(rt; "no memory");
    };
    let Some(last) = lanes.pop() else {
        panic!(rt; "no lanes");
    };
    let Some(before) = lanes.pop() else {
        panic!(rt; "no lanes");
    };
    (cells, before, last)
}

/// The last two of 32 lanes have the numbers 30 and 31, and a claim of the last keeps the other out
/// until it is filled or has failed.
/// Tests `Cells::open_for`, `CellLane::number`, `Cells::claim`, `Cells::fill`, `Cells::fail`,
/// `Cells::remove` and `Cells::meet`.
#[test]
fn last_of_32_lanes_keeps_others_out(rt: HostRuntime) {
    let (cells, mut before, mut last) = with_last_lanes(&rt, rt.alloc());
    let numbers = (before.number(), last.number());
    same(&rt, numbers, (30, 31), "the numbers of the lanes");
    claim_beside(&rt, &cells, &mut last, &mut before);
    let (cells, mut before, mut last) = with_last_lanes(&rt, rt.alloc());
    fail_beside(&rt, &cells, &mut last, &mut before);
}

/// Three cells that were just opened read 0 at one moment, and a collect of no cells is answered
/// too.
/// Tests `Cells::open`, `Cells::open_for`, `Cells::tries`, `Cells::collect` and `Words::get`.
#[test]
fn zero_words_at_open(rt: HostRuntime) {
    let Ok((cells, mut lanes)) = Cells::open(rt.alloc(), 3, 1, 1, 8) else {
        panic!(rt; "no memory")
    };
    let Some(mut lane) = lanes.pop() else {
        panic!(rt; "no lane")
    };
    let Ok(words) = cells.collect(&mut lane, &[2, 1, 0]) else {
        panic!(rt; "contended")
    };
    let three = (words.get(0), words.get(1), words.get(2));
    same(&rt, three, (0, 0, 0), "the words");
    let nothing = cells.collect(&mut lane, &[]).is_ok();
    same(&rt, nothing, true, "a collect of no cells");
}

/// What stands at these 16 cells together.
fn sixteen(cells: &Cells, lane: &mut CellLane) -> Option<[u64; 16]>
    requires lane { lane.old.cells ≡ cells.now.id }
    requires cells { 256 ≤ cells.now.id.limits.cells }
{
    let all = [255, 240, 32, 31, 30, 15, 14, 13, 12, 11, 10, 9, 8, 7, 1, 0];
    let words = cells.collect(lane, &all).ok()?;
    let mut found = [0; 16];
    for index in 0..16 {
        found[index] = words.get(index);
    }
    Some(found)
}

/// Two of 256 cells hold numbers, and a collect of sixteen cells shows both and 0 for the others.
/// Tests `Cells::collect` and `Words::get`.
#[test]
fn sixteen_cells_at_once(rt: HostRuntime) {
    let Ok((cells, mut lanes)) = Cells::open(rt.alloc(), 256, 1, 1, 8) else {
        panic!(rt; "no memory")
    };
    let Some(mut lane) = lanes.pop() else {
        panic!(rt; "no lane")
    };
    go(&rt, &cells, &mut lane, 240, Call::Puts(1, Ok(None)));
    go(&rt, &cells, &mut lane, 31, Call::Puts(2, Ok(None)));
    let mut wanted = [0; 16];
    wanted[1] = 16_777_234;
    wanted[3] = 16_777_250;
    let found = sixteen(&cells, &mut lane);
    same(&rt, found, Some(wanted), "the words");
}

/// The index of the nearest row and what stands there, where one was found.
fn place_and_standing(
    found: Result<Option<Nearest>, CellRefusal>,
) -> Result<Option<(usize, Standing)>, CellRefusal> {
    match found {
        Ok(Some(nearest)) => Ok(Some((nearest.index, nearest.standing))),
        Ok(None) => Ok(None),
        Err(refusal) => Err(refusal),
    }
}

/// Asserts what is nearest along some rows. In column 3 a value's number stands in the rows 4 and
/// 2, a fault's in the last but one, and a seal in the one of 5; the last has a value's number in
/// the column before it.
fn ask_for_nearest(rt: &impl Abort, cells: &Cells, lane: &mut CellLane)
    requires lane { lane.old.cells ≡ cells.now.id }
    requires cells { 576 ≤ cells.now.id.limits.cells }
{
    let own = place_and_standing(cells.nearest(lane, &[4, 2, 0], 2, 3));
    same(rt, own, Ok(Some((0, Standing::Value(1)))), "the first row");
    let above = place_and_standing(cells.nearest(lane, &[8, 6, 2, 0], 2, 3));
    same(rt, above, Ok(Some((2, Standing::Value(2)))), "a later row");
    let none = place_and_standing(cells.nearest(lane, &[8, 6, 0], 2, 3));
    same(rt, none, Ok(None), "empty cells");
    let failed = place_and_standing(cells.nearest(lane, &[8, 7, 2, 0], 2, 3));
    let fault = Ok(Some((1, Standing::Fault(3))));
    same(rt, failed, fault, "a row with a fault");
    let closed = place_and_standing(cells.nearest(lane, &[8, 5, 2], 2, 3));
    same(rt, closed, Ok(Some((1, Standing::Seal))), "a sealed row");
    let beside = place_and_standing(cells.nearest(lane, &[4, 2, 8], 2, 2));
    let value = Ok(Some((2, Standing::Value(4))));
    same(rt, beside, value, "another column");
}

/// Values, a fault and a seal stand in some rows of a column: the nearest row along a path decides,
/// and what stands in another column does not.
/// Tests `Cells::nearest`.
#[test]
fn nearest_row_decides(rt: HostRuntime) {
    let Ok((cells, mut lanes)) = Cells::open(rt.alloc(), 576, 1, 1, 8) else {
        panic!(rt; "no memory")
    };
    let Some(mut lane) = lanes.pop() else {
        panic!(rt; "no lane")
    };
    go(&rt, &cells, &mut lane, 259, Call::Puts(1, Ok(None)));
    go(&rt, &cells, &mut lane, 131, Call::Puts(2, Ok(None)));
    go(&rt, &cells, &mut lane, 451, Call::Fails(3));
    go(&rt, &cells, &mut lane, 323, Call::Seals(Ok(None)));
    go(&rt, &cells, &mut lane, 514, Call::Puts(4, Ok(None)));
    ask_for_nearest(&rt, &cells, &mut lane);
}
