//! Two lanes of cells in threads of their own. Neither makes as many events as the calls of the
//! other have tries, so no call is contended, but where a test waits for that.
ghost use Rattle.std.specs.Prelude.{◌≡◌, ◌<◌};

use crate::hand::{Asked, ask, end_claim, peek, put};
use crate::same::same;
use ext_cells::{CellLane, CellRefusal, CellState, Cells, Claimed, parts};
use std::alloc::Global;
use std::process::Abort;
use std::sync::Wait;
use std::thread::{Threads, join};

/// Four cells with three lanes, so many tries and numbers.
fn open<R: Abort>(
    rt: &R,
    alloc: Global,
    tries: u32,
    numbers: u32,
) -> (Cells, CellLane, CellLane, CellLane)
    ensures first { result.1.cells ≡ result.0.id }
    ensures second { result.2.cells ≡ result.0.id }
    ensures third { result.3.cells ≡ result.0.id }
    ensures cells { result.0.id.limits.cells ≡ 4 }
{
    let Ok((cells, mut lanes)) = Cells::open(alloc, 4, 3, tries, numbers) else {
        panic!(rt; "no memory")
    };
    let (Some(third), Some(second), Some(first)) = (lanes.pop(), lanes.pop(), lanes.pop()) else {
        panic!(rt; "no lanes")
    };
    (cells, first, second, third)
}

/// What one lane was answered: how often each number from 0 to 50 was drawn, and how often a put
/// answered it; 0 stands for nothing.
#[derive(Drop)]
struct Replies {
    drawn: [u8; 51],
    replaced: [u8; 51],
}

/// One more of this number.
fn count(times: &mut [u8; 51], number: u32) {
    if let Some(time) = times.get_mut(number as usize) {
        *time = time.saturating_add(1);
    }
}

fn draw_and_put(cells: &Cells, lane: &mut CellLane) -> Option<Replies>
    requires lane { lane.old.cells ≡ cells.now.id }
    requires cell { 0 < cells.now.id.limits.cells }
{
    let mut replies = Replies {
        drawn: [0; 51],
        replaced: [0; 51],
    };
    for _ in 0..25 {
        let Ok(number) = cells.next_number(lane) else {
            return None;
        };
        let Ok(stood) = cells.put(lane, 0, number) else {
            return None;
        };
        count(&mut replies.drawn, number);
        count(&mut replies.replaced, stood.unwrap_or(0));
    }
    Some(replies)
}

fn in_two_threads<R: Threads + Wait + Sync>(
    rt: &R,
    cells: &Cells,
    first: &mut CellLane,
    second: &mut CellLane,
) -> (Option<Replies>, Option<Replies>)
    requires first { first.old.cells ≡ cells.now.id }
    requires second { second.old.cells ≡ cells.now.id }
    requires cell { 0 < cells.now.id.limits.cells }
{
    join(
        rt,
        || draw_and_put(cells, first),
        || draw_and_put(cells, second),
    )
}

/// Whether all numbers from 1 to 50 were drawn once, and each but the last that was put was
/// replaced once, as nothing was.
fn each_came_once(one: &Replies, other: &Replies, last: usize) -> bool {
    for number in 0..51 {
        let drawn = one.drawn[number].wrapping_add(other.drawn[number]);
        let replaced = one.replaced[number].wrapping_add(other.replaced[number]);
        if drawn != u8::from(number > 0) || replaced != u8::from(number != last) {
            return false;
        }
    }
    true
}

/// Asserts that two lanes draw each number once and put it, and what a third one finds then.
fn draw_beside<R: Abort + Threads + Wait + Sync>(
    rt: &R,
    cells: &Cells,
    first: &mut CellLane,
    second: &mut CellLane,
    third: &mut CellLane,
)
    requires lanes { (first.old.cells ≡ cells.now.id) × (second.old.cells ≡ cells.now.id) × (third.old.cells ≡ cells.now.id) }
    requires cell { 0 < cells.now.id.limits.cells }
{
    let (Some(one), Some(other)) = in_two_threads(rt, cells, first, second) else {
        panic!(rt; "a call was refused")
    };
    let (state, last, version) = parts(peek(cells, third, 0));
    same(rt, (state, version), (CellState::Present, 50), "the cell");
    let once = each_came_once(&one, &other, last as usize);
    same(rt, once, true, "each number comes once");
    let full = cells.next_number(third);
    same(rt, full, Err(CellRefusal::NumbersFull), "a further one");
}

/// Two threads draw 25 numbers each and put them in one cell: each number is drawn once and, but
/// for the last put, replaced once, and then no number is left.
/// Tests `Cells::next_number`, `Cells::put`, `Cells::remove` and `Cells::seal`.
#[test]
fn two_threads_draw_and_put(rt: HostRuntime) {
    let (cells, mut first, mut second, mut third) = open(&rt, rt.alloc(), 64, 50);
    draw_beside(&rt, &cells, &mut first, &mut second, &mut third);
}

/// Claims cell 0 and fills it, and says with which number; where a number stands, with none.
fn fill_once(cells: &Cells, lane: &mut CellLane) -> Result<Option<u32>, CellRefusal>
    requires lane { lane.old.cells ≡ cells.now.id }
    requires cell { 0 < cells.now.id.limits.cells }
    ensures { lane.new.cells ≡ lane.old.cells }
{
    match cells.claim(lane, 0)? {
        Claimed::Won(claim) => Ok(Some(end_claim(cells, lane, claim)?)),
        Claimed::Standing(_) | Claimed::Fault(_) => Ok(None),
    }
}

/// Fills cell 0 and takes the number out again, and says how often both were done.
fn fill_and_remove(cells: &Cells, mut lane: CellLane) -> u32
    requires lane { lane.cells ≡ cells.now.id }
    requires cell { 0 < cells.now.id.limits.cells }
{
    let mut done = 0;
    for _ in 0..15u32 {
        let filled = fill_once(cells, &mut lane);
        if matches!(filled, Ok(Some(_))) && cells.remove(&mut lane, 0) == filled {
            done += 1;
        }
    }
    done
}

/// Puts numbers in cell 1, and says how many.
fn put_beside(cells: &Cells, mut lane: CellLane) -> u32
    requires lane { lane.cells ≡ cells.now.id }
    requires cell { 1 < cells.now.id.limits.cells }
{
    let mut done = 0;
    for _ in 0..15u32 {
        if let Ok((_, Ok(_))) = put(cells, &mut lane, 1) {
            done += 1;
        }
    }
    done
}

fn fill_while_others_put<R: Threads + Wait + Sync>(
    rt: &R,
    cells: &Cells,
    first: CellLane,
    second: CellLane,
) -> (u32, u32)
    requires first { first.cells ≡ cells.now.id }
    requires second { second.cells ≡ cells.now.id }
    requires cell { 1 < cells.now.id.limits.cells }
{
    join(
        rt,
        move || -> u32
            requires { (first.cells ≡ cells.now.id) × (1 < cells.now.id.limits.cells) }
        { fill_and_remove(cells, first) },
        move || -> u32
            requires { (second.cells ≡ cells.now.id) × (1 < cells.now.id.limits.cells) }
        { put_beside(cells, second) },
    )
}

/// One thread fills and empties a cell 15 times while another puts 15 numbers in a second cell, and
/// no call is refused.
/// Tests `Cells::fill`, `Cells::fail` and `Cells::abandon`.
#[test]
fn two_threads_fill_and_put(rt: HostRuntime) {
    let (cells, first, second, mut third) = open(&rt, rt.alloc(), 64, 30);
    let done = fill_while_others_put(&rt, &cells, first, second);
    same(&rt, done, (15, 15), "how often");
    let filled = parts(peek(&cells, &mut third, 0));
    same(&rt, filled, (CellState::Empty, 0, 45), "the filled cell");
    let (state, _, version) = parts(peek(&cells, &mut third, 1));
    same(&rt, (state, version), (CellState::Present, 15), "the other");
}

/// Waits until another lane has sealed cell 2, and then claims cell 0 and gives it up without pause
/// until one has sealed cell 3. Says how often it did.
fn claim_without_pause(cells: &Cells, mut lane: CellLane) -> u64
    requires lane { lane.cells ≡ cells.now.id }
    requires cells { 3 < cells.now.id.limits.cells }
{
    for _ in 0..1_000_000_000u32 {
        if peek(cells, &mut lane, 2) != 0 {
            break;
        }
    }
    let mut done = 0;
    for _ in 0..100_000_000u64 {
        if ask(cells, &mut lane, 0) == Ok(Asked::Won) {
            done += 1;
        }
        if peek(cells, &mut lane, 3) != 0 {
            break;
        }
    }
    let _ = cells.seal(&mut lane, 1);
    done
}

/// Whether a collect of the cells 0 and 1 is contended; `None` where cell 1 is not sealed yet.
fn is_contended(cells: &Cells, lane: &mut CellLane) -> Option<bool>
    requires lane { lane.old.cells ≡ cells.now.id }
    requires cells { 3 < cells.now.id.limits.cells }
    ensures { lane.new.cells ≡ lane.old.cells }
{
    match cells.collect(lane, &[0, 1]) {
        Ok(words) if words.get(1) == 0 => None,
        Ok(_) => Some(false),
        Err(refusal) => Some(refusal == CellRefusal::Contended),
    }
}

/// Collects cells 0 and 1 until it is contended or cell 1 is sealed, and says whether it was.
fn collect_until_contended(cells: &Cells, mut lane: CellLane) -> bool
    requires lane { lane.cells ≡ cells.now.id }
    requires cells { 3 < cells.now.id.limits.cells }
{
    let _ = cells.seal(&mut lane, 2);
    let mut contended = false;
    for _ in 0..1_000_000_000u32 {
        if let Some(told) = is_contended(cells, &mut lane) {
            contended = told;
            break;
        }
    }
    let _ = cells.seal(&mut lane, 3);
    contended
}

fn collect_while_another_claims<R: Threads + Wait + Sync>(
    rt: &R,
    cells: &Cells,
    first: CellLane,
    second: CellLane,
) -> (u64, bool)
    requires first { first.cells ≡ cells.now.id }
    requires second { second.cells ≡ cells.now.id }
    requires cells { 3 < cells.now.id.limits.cells }
{
    join(
        rt,
        move || -> u64
            requires { (first.cells ≡ cells.now.id) × (3 < cells.now.id.limits.cells) }
        { claim_without_pause(cells, first) },
        move || -> bool
            requires { (second.cells ≡ cells.now.id) × (3 < cells.now.id.limits.cells) }
        { collect_until_contended(cells, second) },
    )
}

/// One lane claims a cell and gives it up without pause, and a collect of another, which is mid-way
/// in one nearly always, soon is contended.
/// Tests `Cells::next_number`, `Cells::put`, `Cells::remove`, `Cells::seal`, `Cells::claim`,
/// `Cells::collect` and `Cells::nearest`.
#[test]
fn collects_are_contended(rt: HostRuntime) {
    let (cells, first, second, mut third) = open(&rt, rt.alloc(), 1, 1);
    let (claims, contended) = collect_while_another_claims(&rt, &cells, first, second);
    same(&rt, contended, true, "a collect is contended");
    let (state, _, version) = parts(peek(&cells, &mut third, 0));
    let wanted = (CellState::Empty, claims.wrapping_mul(2));
    same(&rt, (state, version), wanted, "the cell");
}
