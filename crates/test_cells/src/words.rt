//! Words at their limits, the limits of opening, and the printed texts of refusals.
use crate::same::same;
use ext_cells::{CellRefusal, CellState, Cells, after, are_limits, parts, word};
use ext_model::{Act, Size};
use std::alloc::Global;
use std::process::Abort;
use std::test::Fail;

// 2^40 - 4, the greatest version at which a cell takes a claim.
const LAST_CLAIM: u64 = 1_099_511_627_772;

/// Asserts what the word after an act is, or why there is none.
fn next(rt: &impl Abort, answer: Result<u64, CellRefusal>, wanted: Result<u64, CellRefusal>) {
    same(rt, answer, wanted, "the next word");
}

/// The word of a value has its state, number and version, and is made of them, and that after a
/// remove or a put has the next version.
/// Tests `word`, `parts` and `after`.
#[test]
fn words_and_versions(rt: HostRuntime) {
    let present = (CellState::Present, 5, 3);
    same(&rt, parts(50_331_730), present, "a word");
    same(&rt, word(CellState::Present, 5, 3), 50_331_730, "its parts");
    let empty = (CellState::Empty, 0, 4);
    same(&rt, parts(67_108_864), empty, "the word without the number");
    next(&rt, after(50_331_730, Act::Remove(0)), Ok(67_108_864));
    next(&rt, after(50_331_730, Act::Put(0, 7)), Ok(67_108_978));
}

/// The word of a kept fault has its state, number and version, and is made of them; a remove, a
/// seal and a put take the fault out, and a claim that fails makes such a word.
/// Tests `word`, `parts`, `after` and `Cells::seal`.
#[test]
fn failed_words(rt: HostRuntime) {
    let failed = (CellState::Failed, 5, 3);
    same(&rt, parts(50_331_732), failed, "a word");
    same(&rt, word(CellState::Failed, 5, 3), 50_331_732, "its parts");
    next(&rt, after(50_331_732, Act::Remove(0)), Ok(67_108_864));
    next(&rt, after(50_331_732, Act::Seal(0)), Ok(67_108_867));
    next(&rt, after(50_331_732, Act::Put(0, 7)), Ok(67_108_978));
    let claimed = word(CellState::Computing, 0, 3);
    next(
        &rt,
        after(claimed, Act::Fail(0, 5)),
        Ok(word(CellState::Failed, 5, 4)),
    );
}

/// At the last versions a claim, a put and a remove are refused as `Exhausted`, but a seal is not,
/// and after it a put is refused as `Closed`.
/// Tests `word`, `parts` and `after`.
#[test]
fn versions_run_out(rt: HostRuntime) {
    let put = Ok(18_446_744_073_675_997_282);
    let removed = Ok(18_446_744_073_675_997_184);
    let last = 18_446_744_073_692_774_483;
    let present = word(CellState::Present, 5, LAST_CLAIM + 1);
    next(&rt, after(present, Act::Put(0, 6)), put);
    next(&rt, after(present, Act::Remove(0)), removed);
    let empty = word(CellState::Empty, 0, LAST_CLAIM + 1);
    let exhausted = Err(CellRefusal::Exhausted);
    next(&rt, after(empty, Act::Claim(0)), exhausted);
    let worn = word(CellState::Present, 5, LAST_CLAIM + 2);
    next(&rt, after(worn, Act::Put(0, 6)), exhausted);
    next(&rt, after(worn, Act::Remove(0)), exhausted);
    next(&rt, after(worn, Act::Seal(0)), Ok(last));
    let sealed = (CellState::Sealed, 5, 1_099_511_627_775);
    same(&rt, parts(last), sealed, "the last word");
    let closed = Err(CellRefusal::Closed);
    next(&rt, after(last, Act::Put(0, 6)), closed);
}

// The versions stand in the upper 40 bits of these words, a number in the 20 below them, and the
// state in the lowest four.
/// At the last version that takes a claim it is filled or given up, the value is sealed, and a call
/// that needs a further version is refused.
/// Tests `word`, `parts` and `after`.
#[test]
fn versions_at_their_limits(rt: HostRuntime) {
    let empty = 0xffff_ffff_fc00_0000;
    let computing = 0xffff_ffff_fd00_0001;
    let present = 0xffff_ffff_fe00_0092;
    let sealed = 0xffff_ffff_ff00_0093;
    let abandoned = 0xffff_ffff_fe00_0000;
    let first = (CellState::Empty, 0, LAST_CLAIM);
    same(&rt, parts(empty), first, "the word before the claim");
    next(&rt, after(empty, Act::Claim(0)), Ok(computing));
    next(&rt, after(computing, Act::Fill(0, 9)), Ok(present));
    next(&rt, after(present, Act::Seal(0)), Ok(sealed));
    next(&rt, after(computing, Act::Abandon(0)), Ok(abandoned));
    let busy = Err(CellRefusal::Busy);
    next(&rt, after(computing, Act::Put(0, 9)), busy);
    next(&rt, after(computing, Act::Seal(0)), busy);
    let exhausted = Err(CellRefusal::Exhausted);
    next(&rt, after(present, Act::Remove(0)), exhausted);
    let closed = Err(CellRefusal::Closed);
    next(&rt, after(sealed, Act::Put(0, 9)), closed);
}

/// A claim at the last such version fails: the fault can only be sealed, and one a version earlier
/// also replaced or removed.
/// Tests `word`, `parts` and `after`.
#[test]
fn failed_words_at_their_limits(rt: HostRuntime) {
    let computing = 0xffff_ffff_fd00_0001;
    let failed = 0xffff_ffff_fe00_0094;
    let sealed = 0xffff_ffff_ff00_0003;
    next(&rt, after(computing, Act::Fail(0, 9)), Ok(failed));
    let fault = (CellState::Failed, 9, LAST_CLAIM + 2);
    same(&rt, parts(failed), fault, "the word with the fault");
    let exhausted = Err(CellRefusal::Exhausted);
    next(&rt, after(failed, Act::Put(0, 6)), exhausted);
    next(&rt, after(failed, Act::Remove(0)), exhausted);
    next(&rt, after(failed, Act::Seal(0)), Ok(sealed));
    let last = word(CellState::Failed, 9, LAST_CLAIM + 1);
    let put = Ok(word(CellState::Present, 6, LAST_CLAIM + 2));
    let removed = Ok(word(CellState::Empty, 0, LAST_CLAIM + 2));
    next(&rt, after(last, Act::Put(0, 6)), put);
    next(&rt, after(last, Act::Remove(0)), removed);
}

/// How many lanes there are of so many cells, or why they are not opened.
fn opened(
    alloc: Global,
    cells: usize,
    lanes: usize,
    tries: u32,
    numbers: u32,
) -> Result<usize, CellRefusal> {
    match Cells::open(alloc, cells, lanes, tries, numbers) {
        Ok((_cells, lanes)) => Ok(lanes.len()),
        Err(refusal) => Err(refusal),
    }
}

/// Cells of the usual size are opened up to its limits, and refused as `BadLimit` for one more
/// cell, lane, try or number, and for no lane, try or number.
/// Tests `Cells::open`, `Cells::open_for` and `Cells::tries`.
#[test]
fn open_within_limits(rt: HostRuntime) {
    let bad = Err(CellRefusal::BadLimit);
    for (cells, lanes, tries, numbers, wanted) in [
        (262_144, 2, 1, 8, Ok(2)),
        (0, 16, 64, 65_535, Ok(16)),
        (262_145, 2, 1, 8, bad),
        (3, 2, 0, 8, bad),
        (3, 0, 1, 8, bad),
        (3, 17, 1, 8, bad),
        (3, 2, 65, 8, bad),
        (3, 2, 1, 0, bad),
        (3, 2, 1, 65_536, bad),
    ] {
        let answer = opened(rt.alloc(), cells, lanes, tries, numbers);
        same(&rt, answer, wanted, "the lanes");
    }
}

/// More than the usual cells, lanes and numbers are opened up to the limits of the large size, and
/// one more of each is refused as `BadLimit`.
/// Tests `Cells::open_for`.
#[test]
fn open_for_within_limits(rt: HostRuntime) {
    let bad = Err(CellRefusal::BadLimit);
    for (cells, lanes, numbers, wanted) in [
        (262_145, 2, 8, Ok(2)),
        (3, 32, 8, Ok(32)),
        (3, 2, 65_536, Ok(2)),
        (3, 2, 1_048_575, Ok(2)),
        (67_108_865, 2, 8, bad),
        (3, 33, 8, bad),
        (3, 2, 1_048_576, bad),
    ] {
        let answer = match Cells::open_for(rt.alloc(), cells, lanes, 1, numbers, true) {
            Ok((_cells, lanes)) => Ok(lanes.len()),
            Err(refusal) => Err(refusal),
        };
        same(&rt, answer, wanted, "the lanes");
    }
}

/// What a size has at most are limits of it, and one more cell, lane or number makes others.
/// Tests `are_limits`.
#[test]
fn limits_of_each_size(rt: HostRuntime) {
    for (size, cells, lanes, numbers, wanted) in [
        (Size::Usual, 262_144, 16, 65_535, true),
        (Size::Usual, 262_145, 1, 1, false),
        (Size::Usual, 0, 17, 1, false),
        (Size::Usual, 0, 1, 65_536, false),
        (Size::Large, 67_108_864, 32, 1_048_575, true),
        (Size::Large, 67_108_865, 1, 1, false),
        (Size::Large, 0, 33, 1, false),
        (Size::Large, 0, 1, 1_048_576, false),
    ] {
        let answer = are_limits(size, cells, lanes, 64, numbers);
        same(&rt, answer, wanted, "whether they are limits");
    }
}

#[test]
fn refusals_print_their_texts(rt: HostRuntime) -> Result<(), Fail> {
    for (refusal, text) in [
        (CellRefusal::Contended, "contended"),
        (CellRefusal::Busy, "busy"),
        (CellRefusal::Closed, "closed"),
        (CellRefusal::Exhausted, "exhausted"),
        (CellRefusal::NumbersFull, "numbers full"),
        (CellRefusal::Memory, "no memory"),
        (CellRefusal::BadLimit, "a limit is out of its range"),
    ] {
        same(&rt, refusal.to_string(rt.alloc())?.as_str(), text, text);
    }
    Ok(())
}
