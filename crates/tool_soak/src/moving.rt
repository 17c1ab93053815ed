//! A value that one lane moves from the engine to a class and back, so that a look-up from below
//! always finds it.
ghost use Rattle.std.specs.Prelude.{◌<◌};
ghost use Rattle.ext_store.specs.Stores.{IsLaneOf};

use crate::calls::{make_call, put, remove};
use crate::chance::once_in;
use crate::opening::{CLASS, ENGINE, MOVED, Payload, Place, Shared};
use crate::replies::Log;
use ext_model::ContextNo;
use ext_store::Lane;
use rand_pcg::Pcg32;
use std::sync::Wait;

/// How often the value is moved there and back in a round.
const MOVES: u32 = 100;

/// Stores the value's successor in the one context and takes it out of the other. Says whether both
/// were done.
fn move_once<R: Wait>(
    rt: &R,
    shared: &Shared,
    lane: &mut Lane<Payload>,
    to: ContextNo,
    from: ContextNo,
    log: &mut Log,
) -> bool
    requires lane { IsLaneOf shared.now.store.id lane.old }
    requires contexts { (to < 7) × (from < 7) }
    ensures { IsLaneOf shared.now.store.id lane.new }
{
    let there = Place {
        context: to,
        key: MOVED,
    };
    let here = Place {
        context: from,
        key: MOVED,
    };
    put(rt, shared, lane, there, true, true, log) && remove(rt, shared, lane, here, true, log)
}

/// Moves the value there and back, and in half of the rounds there once more, until a context is
/// closed. Makes other calls meanwhile.
pub(crate) fn move_often<R: Wait>(
    rt: &R,
    shared: &Shared,
    lane: &mut Lane<Payload>,
    numbers: &mut Pcg32,
    log: &mut Log,
)
    requires { IsLaneOf shared.now.store.id lane.old }
    ensures { IsLaneOf shared.now.store.id lane.new }
{
    let mut moves = true;
    for _ in 0..MOVES {
        moves = moves && move_once(rt, shared, lane, CLASS, ENGINE, log);
        make_call(rt, shared, lane, numbers, log);
        moves = moves && move_once(rt, shared, lane, ENGINE, CLASS, log);
        make_call(rt, shared, lane, numbers, log);
    }
    if moves && once_in(numbers, 2) {
        move_once(rt, shared, lane, CLASS, ENGINE, log);
    }
}
