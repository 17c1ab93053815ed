//! Calls of one lane, each with what it has to answer.
ghost use Rattle.std.specs.Prelude.{◌≡◌, length, slice_index_or, All};
ghost use Rattle.ext_store.specs.Stores.{IsCloserOf, IsKeptBy, IsLaneOf, StillKeeps};

use crate::gates::Gate;
use crate::same::same;
use ext_closing::{CloseFault, Closed, close};
use ext_model::{ContextNo, Fault, Look};
use ext_store::{Closer, Compute, Kept, Lane, Refusal, Store};
use ext_tree::Key;
use std::alloc::Global;
use std::process::Abort;
use std::time::Clock;
use test_store::{Letter, Log, closeable};

/// Computes a closeable value in the class, by a factory that is held, and that fails where it is
/// held too long. Asserts the value's number.
pub(crate) fn compute_held<R: Abort + Clock>(
    rt: &R,
    store: &Store<Letter>,
    lane: Lane<Letter>,
    key: &Key,
    gate: &Gate,
    wanted: u32,
) -> Lane<Letter>
    requires { IsLaneOf store.now.id lane }
    ensures { IsLaneOf store.now.id result }
{
    let mut lane = lane;
    assert!(rt; 1 < store.tree().len());
    let computed = store.compute(&mut lane, 1, key, |_key: &Key| -> Result<Letter, Fault> {
        if gate.hold(rt) {
            Ok(closeable('x'))
        } else {
            Err(Fault::Memory)
        }
    });
    let Compute::Computed { number } = computed else {
        panic!(rt; "not computed")
    };
    same(rt, number, wanted, "the computed number");
    lane
}

/// Asserts what a look-up of the key from the context answers.
pub(crate) fn look<R: Abort>(
    rt: &R,
    store: &Store<Letter>,
    lane: &mut Lane<Letter>,
    context: ContextNo,
    key: &Key,
    wanted: Look,
)
    requires { IsLaneOf store.now.id lane.old }
    ensures lane { IsLaneOf store.now.id lane.new }
    ensures kept { StillKeeps lane.old lane.new }
{
    assert!(rt; context < store.tree().len());
    same(rt, store.get(lane, context, key), Ok(wanted), "a look-up");
}

/// Keeps a closeable value, and asserts its number.
pub(crate) fn keep<R: Abort>(
    rt: &R,
    store: &Store<Letter>,
    lane: &mut Lane<Letter>,
    wanted: u32,
) -> Kept
    requires { IsLaneOf store.now.id lane.old }
    ensures lane { IsLaneOf store.now.id lane.new }
    ensures kept { IsKeptBy lane.new result }
{
    let Ok(kept) = store.keep(lane, closeable('z')) else {
        panic!(rt; "not kept")
    };
    same(rt, kept.number(), wanted, "the kept number");
    kept
}

/// Keeps a closeable value, whose number it asserts, and puts it in the context where nothing
/// stands.
pub(crate) fn put_first<R: Abort>(
    rt: &R,
    store: &Store<Letter>,
    lane: &mut Lane<Letter>,
    context: ContextNo,
    key: &Key,
    wanted: u32,
)
    requires { IsLaneOf store.now.id lane.old }
    ensures { IsLaneOf store.now.id lane.new }
{
    assert!(rt; context < store.tree().len());
    let kept = keep(rt, store, lane, wanted);
    let Ok(stood) = store.put(lane, context, key, kept) else {
        panic!(rt; "not put")
    };
    same(rt, stood, None, "what stood");
}

/// A put in the class, which is refused so, with the kept number handed back.
pub(crate) fn put_refused<R: Abort>(
    rt: &R,
    store: &Store<Letter>,
    lane: &mut Lane<Letter>,
    key: &Key,
    kept: Kept,
    wanted: Refusal,
) -> Kept
    requires lane { IsLaneOf store.now.id lane.old }
    requires kept { IsKeptBy lane.old kept }
    ensures lane { IsLaneOf store.now.id lane.new }
    ensures kept { IsKeptBy lane.new result }
    ensures handed_back { result ≡ kept }
{
    assert!(rt; 1 < store.tree().len());
    let Err((kept, refusal)) = store.put(lane, 1, key, kept) else {
        panic!(rt; "not refused")
    };
    same(rt, refusal, wanted, "the put");
    kept
}

/// A close by this lane alone, which is refused so. No action is called.
pub(crate) fn close_refused<R: Abort>(
    rt: &R,
    alloc: Global,
    store: &Store<Letter>,
    closer: Closer,
    lane: Lane<Letter>,
    wanted: CloseFault,
) -> (Closer, Lane<Letter>)
    requires lane { IsLaneOf store.now.id lane }
    requires closer { IsCloserOf store.now closer }
    ensures closer { IsCloserOf store.now result.0 }
    ensures lane { IsLaneOf store.now.id result.1 }
    ensures kept { StillKeeps lane result.1 }
{
    let mut log = Log {
        numbers: Vec::new(alloc),
    };
    let mut hand = [lane];
    let Err((closer, fault)) = close(store, closer, &mut hand, &mut log) else {
        panic!(rt; "closed")
    };
    let told = (fault, log.numbers.len());
    same(rt, told, (wanted, 0), "the close");
    let [lane] = hand;
    (closer, lane)
}

/// Asserts that a close had no fault, and that the values of exactly these numbers are closed, in
/// this order.
fn check_closed<R: Abort>(rt: &R, closed: &Closed, numbers: &[u32], wanted: &[u32]) {
    let counts = (closed.closed as usize, closed.more_faults);
    same(rt, counts, (wanted.len(), 0), "how many are closed");
    assert!(rt; closed.first_fault.is_none());
    same(rt, numbers, wanted, "what is closed");
}

/// A close with both lanes in hand, which closes the values of exactly these numbers, in this
/// order.
pub(crate) fn close_both<R: Abort>(
    rt: &R,
    alloc: Global,
    store: &Store<Letter>,
    closer: Closer,
    lanes: &mut [Lane<Letter>],
    wanted: &[u32],
)
    requires two { length lanes.old ≡ 2 }
    requires lanes { All (IsLaneOf store.now.id) lanes.old }
    requires closer { IsCloserOf store.now closer }
    ensures lanes { All (IsLaneOf store.now.id) lanes.new }
    ensures kept { (d : _) → StillKeeps (slice_index_or lanes.old 1 d) (slice_index_or lanes.new 1 d) }
{
    let mut log = Log {
        numbers: Vec::new(alloc),
    };
    let Ok(closed) = close(store, closer, lanes, &mut log) else {
        panic!(rt; "not closed")
    };
    check_closed(rt, &closed, log.numbers.as_slice(), wanted);
}
