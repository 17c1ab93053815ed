//! Closes of a context of the chain.
use crate::chain::{Call, rows};
use crate::opening::{Letter, closeable, plain};
use ext_closing::{CloseAction, CloseFault};
use ext_model::{Fault, Look};
use std::alloc::Global;

/// Writes down the numbers that it is given, at most four. Where it is to fail, each close does,
/// with the text `f` and the number.
#[derive(Drop)]
pub(crate) struct Recorder {
    alloc: Global,
    fails: bool,
    pub(crate) numbers: [u32; 4],
    pub(crate) calls: usize,
}

impl Recorder {
    pub(crate) fn new(alloc: Global, fails: bool) -> Recorder {
        Recorder {
            alloc,
            fails,
            numbers: [0; 4],
            calls: 0,
        }
    }
}

impl CloseAction<Letter> for Recorder {
    ghost use Rattle.std.specs.Prelude.{◌≡◌, ◌<◌, slice_set};

    // What it was given stands behind what it was given before, while there is room for it.
    ghost close_gives = { λ before number value answer after. before.calls < 4 → after.numbers ≡ slice_set before.numbers before.calls number };

    fn close(&mut self, number: u32, _value: &Letter) -> Result<(), Fault> {
        if self.calls < 4 {
            self.numbers[self.calls] = number;
            self.calls += 1;
        }
        if !self.fails {
            return Ok(());
        }
        match format!(in self.alloc; "f{number}") {
            Ok(text) => Err(Fault::Text(text)),
            Err(_) => Err(Fault::Memory),
        }
    }
}

/// Three closeable values stand in a context, one of them put over an earlier one, and a close
/// gives its action their numbers, the latest first.
/// Tests `FallingNumbers::put_in`, `FallingNumbers::put_in_kept`, `FallingNumbers::as_slice`,
/// `Store::open`, `Store::seal`, `CloseAction::close` and `close`.
#[test]
fn closes_latest_first(rt: HostRuntime) {
    let value = closeable('x');
    let all = [
        (0, 2, "a", Call::Puts(value, 1, Ok(None))),
        (0, 2, "b", Call::Puts(value, 2, Ok(None))),
        (0, 2, "c", Call::Puts(value, 3, Ok(None))),
        (0, 2, "b", Call::Puts(value, 4, Ok(Some(2)))),
        (0, 2, "", Call::Closes(Ok(3), [4, 3, 1, 0])),
    ];
    rows(&rt, rt.alloc(), 8, &all);
}

/// A context without a value is closed: look-ups from it are answered `Closed`, and those from the
/// class above it find nothing.
/// Tests `CloseAction::close` and `close`.
#[test]
fn empty_context_is_closed(rt: HostRuntime) {
    let all = [
        (0, 2, "", Call::Closes(Ok(0), [0; 4])),
        (0, 2, "a", Call::Gets(Ok(Look::Closed(2)))),
        (1, 1, "a", Call::Gets(Ok(Look::Absent))),
    ];
    rows(&rt, rt.alloc(), 8, &all);
}

/// A close by a lane that was not shown the value of another is refused as `Unjoined`, and one with
/// both lanes closes it.
/// Tests `Store::knows`, `CloseAction::close` and `close`.
#[test]
fn unjoined_lane_refuses_close(rt: HostRuntime) {
    let all = [
        (1, 0, "a", Call::Puts(closeable('x'), 1, Ok(None))),
        (0, 0, "", Call::Closes(Err(CloseFault::Unjoined(1)), [0; 4])),
        (1, 0, "", Call::Closes(Ok(1), [1, 0, 0, 0])),
    ];
    rows(&rt, rt.alloc(), 8, &all);
}

/// Of three values in a context one is closeable, and a close gives its action that one alone.
/// Tests `Store::seal`, `CloseAction::close` and `close`.
#[test]
fn values_that_are_not_closeable_stay(rt: HostRuntime) {
    let all = [
        (0, 2, "a", Call::Puts(plain('x'), 1, Ok(None))),
        (0, 2, "b", Call::Puts(closeable('y'), 2, Ok(None))),
        (0, 2, "c", Call::Puts(plain('z'), 3, Ok(None))),
        (0, 2, "", Call::Closes(Ok(1), [2, 0, 0, 0])),
    ];
    rows(&rt, rt.alloc(), 8, &all);
}

/// The action fails for each of three values: it is given all three, and the close tells the first
/// fault and how many there are beside it.
/// Tests `CloseAction::close` and `close`.
#[test]
fn faults_do_not_stop_the_others(rt: HostRuntime) {
    let value = closeable('x');
    let all = [
        (0, 2, "a", Call::Puts(value, 1, Ok(None))),
        (0, 2, "b", Call::Puts(value, 2, Ok(None))),
        (0, 2, "c", Call::Puts(value, 3, Ok(None))),
        (0, 2, "", Call::FailsToClose(3, 2, "f3", [3, 2, 1, 0])),
    ];
    rows(&rt, rt.alloc(), 8, &all);
}
