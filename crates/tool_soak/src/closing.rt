//! The closes of a round: by one lane beside the others, and of what is left by all lanes.
ghost use Rattle.std.specs.Prelude.{◌<◌, ◌≤◌, All, IfSome};
ghost use Rattle.ext_store.specs.Stores.{IsCloserOf, IsLaneOf};

use crate::calls::look;
use crate::chance::{below, once_in};
use crate::fault::SoakFault;
use crate::opening::{CONTEXTS, KEYS, Payload, Place, Shared};
use crate::replies::{Log, Reply};
use ext_closing::{CloseAction, Closed, close};
use ext_model::{ContextNo, Fault, Look};
use ext_store::{Closer, Lane};
use rand_pcg::Pcg32;
use std::alloc::Global;
use std::sync::Wait;

/// How many times a lane tries to close a context beside the others.
const TRIES: usize = 6;

/// How often it looks for each try.
const LOOKS: usize = 10;

/// The same in a store that keeps faults, whose contexts are open for longer, so that factories can
/// fail in them.
const MORE_LOOKS: usize = 60;

/// What the closes of a round give to their action, and the numbers and the replies of the lane
/// that closes. Every third number fails.
#[derive(Drop)]
pub(crate) struct Closing {
    pub(crate) log: Log,
    numbers: Pcg32,
    context: ContextNo,
    last: u32,
    calls: u32,
    faults: u32,
}

impl CloseAction<Payload> for Closing {
    ghost close_gives = { λ before number value answer after. Unit {0} };

    fn close(&mut self, number: u32, value: &Payload) -> Result<(), Fault> {
        let falls = self.last == 0 || number < self.last;
        let right = falls && value.closeable && value.place.context == self.context;
        self.log.wrong_unless(right, SoakFault::Closed);
        let place = value.place;
        self.log.add(Reply::Closed { place, number });
        self.last = number;
        self.calls = self.calls.wrapping_add(1);
        if number % 3 == 0 {
            self.faults = self.faults.wrapping_add(1);
            return Err(Fault::Memory);
        }
        Ok(())
    }
}

impl Closing {
    pub(crate) fn new(alloc: Global, numbers: Pcg32) -> Closing {
        Closing {
            log: Log::new(alloc),
            numbers,
            context: 0,
            last: 0,
            calls: 0,
            faults: 0,
        }
    }

    /// Begins with a context.
    fn begin(&mut self, context: ContextNo) {
        self.context = context;
        self.last = 0;
        self.calls = 0;
        self.faults = 0;
    }

    /// The context was closed: what the action was given is counted, and each of its faults.
    fn closed(&mut self, closes: &Closed) {
        let faults = closes
            .more_faults
            .wrapping_add(u32::from(closes.first_fault.is_some()));
        let right = closes.closed == self.calls && faults == self.faults;
        self.log.wrong_unless(right, SoakFault::Closed);
    }

    /// The close was refused: the action was given nothing.
    fn refused(&mut self) {
        self.log.wrong_unless(self.calls == 0, SoakFault::Closed);
    }
}

/// Looks once by the first lane in hand.
fn look_once<R: Wait>(
    rt: &R,
    shared: &Shared,
    hand: &mut [Lane<Payload>],
    numbers: &mut Pcg32,
    log: &mut Log,
)
    requires { All (IsLaneOf shared.now.store.id) hand.old }
    ensures { All (IsLaneOf shared.now.store.id) hand.new }
{
    let place = Place {
        context: below(numbers, CONTEXTS),
        key: below(numbers, KEYS),
    };
    if let Some(lane) = hand.first_mut() {
        look(rt, shared, lane, place, false, log);
    }
}

/// Tries to close the context. Answers its closer where it is not closed, as it is not without a
/// lane.
fn close_once(
    shared: &Shared,
    hand: &mut [Lane<Payload>],
    closer: Closer,
    closing: &mut Closing,
) -> Option<Closer>
    requires lanes { All (IsLaneOf shared.now.store.id) hand.old }
    requires closer { IsCloserOf shared.now.store closer }
    ensures lanes { All (IsLaneOf shared.now.store.id) hand.new }
    ensures closer { IfSome result (IsCloserOf shared.now.store) }
{
    if hand.is_empty() {
        return Some(closer);
    }
    closing.begin(closer.context());
    match close(&shared.store, closer, hand, closing) {
        Ok(closes) => {
            closing.closed(&closes);
            None
        }
        Err((closer, _)) => {
            closing.refused();
            Some(closer)
        }
    }
}

/// How often a lane looks for each try, in a store that keeps faults or not.
fn looks_for_a_try(keep_faults: bool) -> usize
    ensures { (0 < result) × (result ≤ 60) }
{
    if keep_faults { MORE_LOOKS } else { LOOKS }
}

/// Tries to close the context beside the other lanes, again and again. Answers its closer where it
/// is not closed.
fn close_beside<R: Wait>(
    rt: &R,
    shared: &Shared,
    hand: &mut [Lane<Payload>],
    closer: Closer,
    closing: &mut Closing,
) -> Option<Closer>
    requires lanes { All (IsLaneOf shared.now.store.id) hand.old }
    requires closer { IsCloserOf shared.now.store closer }
    ensures lanes { All (IsLaneOf shared.now.store.id) hand.new }
    ensures closer { IfSome result (IsCloserOf shared.now.store) }
{
    let looks = looks_for_a_try(shared.store.keeps_faults());
    let mut closer = closer;
    for _ in 0..TRIES * looks {
        look_once(rt, shared, hand, &mut closing.numbers, &mut closing.log);
        if once_in(&mut closing.numbers, looks) {
            closer = close_once(shared, hand, closer, closing)?;
        }
    }
    Some(closer)
}

/// Closes the next context, the last first, beside the other lanes. Answers its closer where it is
/// not closed.
fn close_next<R: Wait>(
    rt: &R,
    shared: &Shared,
    hand: &mut [Lane<Payload>],
    closers: &mut Vec<Closer>,
    closing: &mut Closing,
) -> Option<Closer>
    requires lanes { All (IsLaneOf shared.now.store.id) hand.old }
    requires closers { All (IsCloserOf shared.now.store) closers.old.items }
    ensures lanes { All (IsLaneOf shared.now.store.id) hand.new }
    ensures closers { All (IsCloserOf shared.now.store) closers.new.items }
    ensures closer { IfSome result (IsCloserOf shared.now.store) }
{
    match closers.pop() {
        Some(closer) => close_beside(rt, shared, hand, closer, closing),
        None => None,
    }
}

/// Leaves the closer, if there is one.
fn leave(shared: &Shared, closer: Option<Closer>, left: &mut Vec<Closer>, log: &mut Log)
    requires closer { IfSome closer (IsCloserOf shared.now.store) }
    requires left { All (IsCloserOf shared.now.store) left.old.items }
    ensures { All (IsCloserOf shared.now.store) left.new.items }
{
    if let Some(closer) = closer {
        let kept = left.push(closer).is_ok();
        log.wrong_unless(kept, SoakFault::Memory);
    }
}

/// Closes the contexts beside the other lanes, the last first, as far as that can be done. The
/// closers of the others are left.
pub(crate) fn close_some<R: Wait>(
    rt: &R,
    shared: &Shared,
    hand: &mut [Lane<Payload>],
    closers: &mut Vec<Closer>,
    left: &mut Vec<Closer>,
    closing: &mut Closing,
)
    requires lanes { All (IsLaneOf shared.now.store.id) hand.old }
    requires closers { All (IsCloserOf shared.now.store) closers.old.items }
    requires left { All (IsCloserOf shared.now.store) left.old.items }
    ensures lanes { All (IsLaneOf shared.now.store.id) hand.new }
    ensures left { All (IsCloserOf shared.now.store) left.new.items }
{
    for _ in 0..CONTEXTS {
        let closer = close_next(rt, shared, hand, closers, closing);
        leave(shared, closer, left, &mut closing.log);
    }
}

/// Closes the context once all other lanes have ended: it can't be refused.
fn close_last(shared: &Shared, lanes: &mut [Lane<Payload>], closer: Closer, closing: &mut Closing)
    requires lanes { All (IsLaneOf shared.now.store.id) lanes.old }
    requires closer { IsCloserOf shared.now.store closer }
    ensures { All (IsLaneOf shared.now.store.id) lanes.new }
{
    let left = close_once(shared, lanes, closer, closing);
    closing.log.wrong_unless(left.is_none(), SoakFault::Answer);
}

/// Closes the contexts that are left, with all lanes in hand.
pub(crate) fn close_all(
    shared: &Shared,
    lanes: &mut [Lane<Payload>],
    closers: &mut Vec<Closer>,
    closing: &mut Closing,
)
    requires lanes { All (IsLaneOf shared.now.store.id) lanes.old }
    requires closers { All (IsCloserOf shared.now.store) closers.old.items }
    ensures { All (IsLaneOf shared.now.store.id) lanes.new }
{
    for _ in 0..CONTEXTS {
        let Some(closer) = closers.pop() else {
            break;
        };
        close_last(shared, lanes, closer, closing);
    }
}

/// Whether each place of the context is closed, whether a key has its number or not, for the first
/// of the lanes.
fn is_closed(shared: &Shared, lane: &mut Lane<Payload>, context: ContextNo) -> bool
    requires lane { IsLaneOf shared.now.store.id lane.old }
    requires context { context < 7 }
    ensures { IsLaneOf shared.now.store.id lane.new }
{
    let mut closed = true;
    for number in 0..shared.store.key_count() {
        let seen = shared.store.get_numbered(lane, context, number);
        closed = closed && seen == Ok(Look::Closed(context));
    }
    closed
}

/// Whether all contexts are closed, for this lane.
pub(crate) fn are_closed(shared: &Shared, lane: &mut Lane<Payload>) -> bool
    requires { IsLaneOf shared.now.store.id lane.old }
    ensures { IsLaneOf shared.now.store.id lane.new }
{
    let mut closed = true;
    for context in 0..CONTEXTS {
        let this = is_closed(shared, lane, context);
        closed = closed && this;
    }
    closed
}
