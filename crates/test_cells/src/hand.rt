//! Cells with both of their lanes in one hand, so that a test names a lane by its number.
ghost use Rattle.std.specs.Prelude.{◌≡◌, ◌<◌, ◌%◌, IsTrue};
ghost use Rattle.ext_model.specs.CallActs.{IsHeld};

use crate::same::same;
use ext_cells::{CellLane, CellRefusal, Cells, Claim, Claimed};
use ext_model::CellNo;
use std::alloc::Global;
use std::marker::Model;
use std::process::Abort;

/// What a lane is answered that asks for a cell.
#[derive(Clone, Copy, Debug, PartialEq, Eq)]
pub(crate) enum Asked {
    /// It won the claim.
    Won,
    /// The value of this number stands there.
    Value(u32),
    /// The fault of this number is kept there.
    Fault(u32),
}

/// A call, with what it is to answer.
#[derive(Clone, Copy)]
pub(crate) enum Call {
    /// Draws a number, which is this one, and puts it.
    Puts(u32, Result<Option<u32>, CellRefusal>),
    Removes(Result<Option<u32>, CellRefusal>),
    Seals(Result<Option<u32>, CellRefusal>),
    /// Asks for the cell; `None` where the claim is won, which is given up again.
    Asks(Result<Option<u32>, CellRefusal>),
    /// Asks for the cell, where the fault of this number is kept.
    Meets(u32),
    /// Claims the cell, draws a number, which is this one, and fails the claim with it.
    Fails(u32),
    /// The cell's word by a collect of it alone.
    Reads(u64),
}

/// A row of a test: the lane that calls, 0 or 1, the cell, 0 to 3, and the call.
pub(crate) type Row = (usize, CellNo, Call);

/// So many cells with two lanes, so many tries, and eight numbers, in which faults may be kept.
pub(crate) fn open<R: Abort>(
    rt: &R,
    alloc: Global,
    cells: usize,
    tries: u32,
) -> (Cells, CellLane, CellLane)
    ensures first { result.1.cells ≡ result.0.id }
    ensures second { result.2.cells ≡ result.0.id }
    ensures cells { result.0.id.limits.cells ≡ cells }
    ensures faults { IsTrue result.0.id.limits.keep_faults }
{
    let Ok((cells, mut lanes)) = Cells::open(alloc, cells, 2, tries, 8) else {
        panic!(rt; "no memory");
    };
    let Some(second) = lanes.pop() else {
        panic!(rt; "no lanes");
    };
    let Some(first) = lanes.pop() else {
        panic!(rt; "no lanes");
    };
    (cells, first, second)
}

/// Cells and their two lanes.
#[derive(Drop)]
pub(crate) struct Hand {
    cells: Cells,
    lanes: [CellLane; 2],
}

impl Model for Hand {
    ghost use Rattle.std.specs.Prelude.{◌≡◌, ◌≤◌, All};

    ghost Value = { Unit {0} };

    ghost view = { λ _. tt };

    ghost invariant = { λ h. All (λ lane. lane.cells ≡ h.cells.id) h.lanes × (4 ≤ h.cells.id.limits.cells) };
}

/// What a lane is answered that asks for the cell. Where it wins the claim, it gives it up again.
pub(crate) fn ask(cells: &Cells, lane: &mut CellLane, cell: CellNo) -> Result<Asked, CellRefusal>
    requires lane { lane.old.cells ≡ cells.now.id }
    requires cell { cell < cells.now.id.limits.cells }
    ensures { lane.new.cells ≡ lane.old.cells }
{
    match cells.claim(lane, cell)? {
        Claimed::Won(claim) => {
            cells.abandon(lane, claim);
            Ok(Asked::Won)
        }
        Claimed::Standing(number) => Ok(Asked::Value(number)),
        Claimed::Fault(number) => Ok(Asked::Fault(number)),
    }
}

/// The word of one cell, or 0 where other lanes were in the way.
pub(crate) fn peek(cells: &Cells, lane: &mut CellLane, cell: CellNo) -> u64
    requires lane { lane.old.cells ≡ cells.now.id }
    requires cell { cell < cells.now.id.limits.cells }
    ensures lane { lane.new.cells ≡ lane.old.cells }
    ensures word { result % 16 < 5 }
{
    match cells.collect(lane, &[cell]) {
        Ok(words) => words.get(0),
        Err(_) => 0,
    }
}

/// Draws a number and fills the claimed cell with it; where there is none, the claim is given up.
pub(crate) fn end_claim(
    cells: &Cells,
    lane: &mut CellLane,
    claim: Claim,
) -> Result<u32, CellRefusal>
    requires lane { lane.old.cells ≡ cells.now.id }
    requires held { IsHeld lane.old.view claim }
    ensures { lane.new.cells ≡ lane.old.cells }
{
    match cells.next_number(lane) {
        Ok(number) => {
            lane.tell_proof();
            cells.fill(lane, claim, number);
            Ok(number)
        }
        Err(refusal) => {
            lane.tell_proof();
            cells.abandon(lane, claim);
            Err(refusal)
        }
    }
}

/// Draws a number and fails the claim with it, as that of a fault; where there is none, the claim
/// is given up.
pub(crate) fn fail_claim(
    cells: &Cells,
    lane: &mut CellLane,
    claim: Claim,
) -> Result<u32, CellRefusal>
    requires lane { lane.old.cells ≡ cells.now.id }
    requires faults { IsTrue cells.now.id.limits.keep_faults }
    requires held { IsHeld lane.old.view claim }
    ensures { lane.new.cells ≡ lane.old.cells }
{
    match cells.next_number(lane) {
        Ok(number) => {
            lane.tell_proof();
            cells.fail(lane, claim, number);
            Ok(number)
        }
        Err(refusal) => {
            lane.tell_proof();
            cells.abandon(lane, claim);
            Err(refusal)
        }
    }
}

/// Claims the cell and fails it. Says with which number; `None` where anything stands there, or
/// where no faults are kept.
fn fail_once(cells: &Cells, lane: &mut CellLane, cell: CellNo) -> Result<Option<u32>, CellRefusal>
    requires lane { lane.old.cells ≡ cells.now.id }
    requires cell { cell < cells.now.id.limits.cells }
    ensures { lane.new.cells ≡ lane.old.cells }
{
    if !cells.keeps_faults() {
        return Ok(None);
    }
    match cells.claim(lane, cell)? {
        Claimed::Won(claim) => Ok(Some(fail_claim(cells, lane, claim)?)),
        Claimed::Standing(_) | Claimed::Fault(_) => Ok(None),
    }
}

/// The number that is drawn, and what its put answers; or why there is none.
pub(crate) fn put(
    cells: &Cells,
    lane: &mut CellLane,
    cell: CellNo,
) -> Result<(u32, Result<Option<u32>, CellRefusal>), CellRefusal>
    requires lane { lane.old.cells ≡ cells.now.id }
    requires cell { cell < cells.now.id.limits.cells }
    ensures { lane.new.cells ≡ lane.old.cells }
{
    let number = cells.next_number(lane)?;
    Ok((number, cells.put(lane, cell, number)))
}

/// What a lane is answered that wins the claim, where this is nothing, or that finds the value of
/// this number.
fn won_or_found(answer: Result<Option<u32>, CellRefusal>) -> Result<Asked, CellRefusal> {
    match answer {
        Ok(None) => Ok(Asked::Won),
        Ok(Some(number)) => Ok(Asked::Value(number)),
        Err(refusal) => Err(refusal),
    }
}

/// Asserts that the call has its answer.
pub(crate) fn go(rt: &impl Abort, cells: &Cells, lane: &mut CellLane, cell: CellNo, call: Call)
    requires lane { lane.old.cells ≡ cells.now.id }
    requires cell { cell < cells.now.id.limits.cells }
    ensures { lane.new.cells ≡ lane.old.cells }
{
    match call {
        Call::Puts(number, answer) => {
            same(rt, put(cells, lane, cell), Ok((number, answer)), "put");
        }
        Call::Removes(answer) => same(rt, cells.remove(lane, cell), answer, "remove"),
        Call::Seals(answer) => same(rt, cells.seal(lane, cell), answer, "seal"),
        Call::Asks(answer) => same(rt, ask(cells, lane, cell), won_or_found(answer), "claim"),
        Call::Meets(number) => {
            let fault = Ok(Asked::Fault(number));
            same(rt, ask(cells, lane, cell), fault, "claim");
        }
        Call::Fails(number) => {
            same(rt, fail_once(cells, lane, cell), Ok(Some(number)), "fail");
        }
        Call::Reads(word) => same(rt, peek(cells, lane, cell), word, "collect"),
    }
}

impl Hand {
    /// Four cells, two lanes and eight numbers.
    fn open<R: Abort>(rt: &R, alloc: Global) -> Hand {
        let (cells, first, second) = open(rt, alloc, 4, 1);
        same(
            rt,
            (first.number(), second.number(), cells.tries()),
            (0, 1, 1),
            "the numbers of the lanes, and the tries",
        );
        Hand {
            cells,
            lanes: [first, second],
        }
    }

    fn go<R: Abort>(&mut self, rt: &R, row: Row) {
        let (lane, cell, call) = row;
        assert!(rt; lane < 2 && cell < 4);
        let lane = &mut self.lanes[lane];
        go(rt, &self.cells, lane, cell, call);
    }
}

/// Opens four cells with two lanes, and asserts that each row's call, in order, has its answer.
pub(crate) fn rows<R: Abort>(rt: &R, alloc: Global, rows: &[Row]) {
    let mut hand = Hand::open(rt, alloc);
    for row in rows {
        hand.go(rt, *row);
    }
}
