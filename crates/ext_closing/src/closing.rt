//! The close of a context.
ghost use Rattle.std.specs.Prelude.{ℕ, ◌≡◌, ◌≤◌, ◌<◌, ◌+◌, ◌-◌, ◌*◌, ◌/◌, List, [], ◌∷◌, ◌++◌, length, slice_index_or, is_some, true, false, All, IfErr, IfNone, IfSome};
ghost use Rattle.std.specs.List.{AllZip};
ghost use Rattle.ext_model.specs.Closing.{IsFalling};
ghost use Rattle.ext_values.specs.Known.{known_at};
ghost use Rattle.ext_store.specs.Stores.{IsCloserOf, IsLaneOf, StillKeeps};
ghost use Rattle.ext_store.specs.LaneCalls.{steps_of};
ghost use Rattle.ext_closing.specs.Lanes.{first_lane, IsGreatestUnjoined, IsJoined, IsKnown, IsUnknown};
ghost use Rattle.ext_closing.specs.Closing.{ClosesNumbers, fault_in};
ghost use Rattle.ext_closing.specs.Sealing.{SealsInOrder};
ghost use Rattle.ext_closing.specs.Closes.{Closes};
ghost use Rattle.ext_closing.specs.InnerSteps.{Begun, IsMarked};

use crate::seals::{Marked, first_marked, seal_from};
use crate::{CloseAction, CloseFault};
use ext_model::{Closed, FallingNumbers, Fault};
use ext_store::{Closer, Lane, Store, StoreValue};

/// Closes the closer's context: seals its keys, and then closes its remaining closeable values, the
/// latest first.
///
/// The first of the lanes seals all places that the context has for keys, also those without a key.
/// Of each block of 32, those that nobody used are sealed at one step, and then the others in the
/// order of their numbers. Then each remaining value that is closeable is closed by one call
/// of the action, the one with the greatest number first. A value remains if it stood in the
/// context when its key was sealed; a kept fault that stood there is discarded. A close that fails
/// does not stop the others. Neither the parent nor the children of the context are closed.
/// Afterwards nothing is stored or claimed in the context, whatever key is named later.
///
/// It costs a step for each block, a seal for each place that was used in the context, a look at
/// each value that remains, and the calls of the action. The first lane makes at most `tries` + 1
/// steps for each seal, so no close waits for a factory. Takes no memory of its own.
///
/// There must be at least one lane, and the lanes and the closer must be the store's.
///
/// Refused as `Busy` at the first place for which a lane computes a value in the context, as
/// `Contended` at the first place whose seal is, and then as `Unjoined` with the greatest remaining
/// number whose value no lane in hand kept or was shown, closeable or not. The closer is then
/// handed back and the action is as it was, what was sealed stays sealed, and the close may be
/// tried again.
///
/// JUnit 5 User Guide, section "Keeping State in Extensions", and Javadoc
/// `ExtensionContext.Store.CloseableResource`; seals, lanes and refusals are own rules.
pub fn close<V: StoreValue + Drop, A: CloseAction<V>>(
    store: &Store<V>,
    closer: Closer,
    lanes: &mut [Lane<V>],
    action: &mut A,
) -> Result<Closed, (Closer, CloseFault)>
    requires lanes { 1 ≤ length lanes.old }
    requires own_lanes { All (IsLaneOf store.now.id) lanes.old }
    requires closer { IsCloserOf store.now closer }

    // What the close did, and when it is refused: each as a field.
    ensures happened { Closes V.is_closeable A.close_gives store.now closer lanes.old action.old result lanes.new action.new }

    // Block by block: one step, and then, in order, a seal for each key that the step's answer marks.
    ensures in_order { SealsInOrder store.now closer.context (first_lane store.now lanes.old) (first_lane store.now lanes.new) }

    // It waits for no factory: a step for each block of the places, and for each place a load, and
    // at most as many exchanges as a call has tries.
    ensures steps { steps_of (first_lane store.now lanes.old) (first_lane store.now lanes.new) ≤ length store.now.id.keys * (store.now.tries + 1) + length store.now.id.keys / 32 }

    // What the next call rests on.
    ensures handed_back { IfErr result (λ e. e.0 ≡ closer) }
    ensures own_lanes { All (IsLaneOf store.now.id) lanes.new }
    ensures kept { AllZip StillKeeps lanes.old lanes.new }
{
    // The lane that seals.
    let first = 0;
    let Some(marked) = first_marked(store, &closer, &mut lanes[first]) else {
        return Ok(Closed::new());
    };
    if store.key_count() <= 64 {
        close_from::<V, A, 64>(store, closer, lanes, action, marked)
    } else {
        close_from::<V, A, 1024>(store, closer, lanes, action, marked)
    }
}

// Closes from the first block on that has a mark, with room for so many numbers: a new list costs
// the more the more it has room for, so the close of a context that nobody used makes none.
#[inline(never)]
fn close_from<V: StoreValue + Drop, A: CloseAction<V>, const ROOM: usize>(
    store: &Store<V>,
    closer: Closer,
    lanes: &mut [Lane<V>],
    action: &mut A,
    marked: Marked,
) -> Result<Closed, (Closer, CloseFault)>
    requires room { length store.now.id.keys ≤ ROOM }
    requires few { ROOM ≤ 1024 }
    requires lanes { 1 ≤ length lanes.old }
    requires own_lanes { All (IsLaneOf store.now.id) lanes.old }
    requires closer { IsCloserOf store.now closer }
    requires marked { IsMarked store.now closer.context (first_lane store.now lanes.old) marked }
    ensures happened { (before : _) → Begun store.now closer.context before lanes.old marked → Closes V.is_closeable A.close_gives store.now closer before action.old result lanes.new action.new }
    ensures in_order { (before : _) → Begun store.now closer.context before lanes.old marked → SealsInOrder store.now closer.context (first_lane store.now before) (first_lane store.now lanes.new) }
    ensures steps { steps_of (first_lane store.now lanes.old) (first_lane store.now lanes.new) ≤ length store.now.id.keys * (store.now.tries + 1) + (length store.now.id.keys / 32 - (marked.block + 1)) }
    ensures handed_back { IfErr result (λ e. e.0 ≡ closer) }
    ensures own_lanes { All (IsLaneOf store.now.id) lanes.new }
    ensures kept { AllZip StillKeeps lanes.old lanes.new }
{
    let sealing = 0;
    let mut numbers: FallingNumbers<ROOM> = FallingNumbers::new();
    if let Err(why) = seal_from(store, &closer, &mut lanes[sealing], marked, &mut numbers) {
        return Err((closer, why));
    }
    let remaining = numbers.as_slice();
    if let Some(number) = first_unjoined(store, lanes, remaining) {
        return Err((closer, CloseFault::Unjoined(number)));
    }
    Ok(close_all(store, lanes, remaining, action))
}

// The first of these falling numbers whose value no lane in hand knows.
fn first_unjoined<V>(store: &Store<V>, lanes: &[Lane<V>], numbers: &[u32]) -> Option<u32>
    requires { IsFalling numbers.now }
    ensures joined { IfNone result (All (IsJoined lanes.now) numbers.now) }
    ensures unjoined { IfSome result (IsGreatestUnjoined lanes.now numbers.now) }
{
    for number in numbers {
        if !is_joined(store, lanes, *number) {
            return Some(*number);
        }
    }
    None
}

// Whether a lane in hand knows the number's value.
fn is_joined<V>(store: &Store<V>, lanes: &[Lane<V>], number: u32) -> bool
    ensures joined { result ≡ true → IsJoined lanes.now number }
    ensures unknown { result ≡ false → IsUnknown lanes.now number }
{
    lane_knowing(store, lanes, number).is_some()
}

// A lane in hand that knows the number's value.
fn lane_knowing<V>(store: &Store<V>, lanes: &[Lane<V>], number: u32) -> Option<usize>
    ensures within { IfSome result (λ at. at < length lanes.now) }
    ensures knows { IfSome result (λ at. (lane : _) → is_some (known_at (slice_index_or lanes.now at lane).known number) ≡ true) }
    ensures none { IfNone result (IsUnknown lanes.now number) }
{
    lanes.iter().position(|lane| store.knows(lane, number))
}

// Gives the closeable values of these numbers to the action, in order.
fn close_all<V: StoreValue + Drop, A: CloseAction<V>>(
    store: &Store<V>,
    lanes: &mut [Lane<V>],
    numbers: &[u32],
    action: &mut A,
) -> Closed
    requires lanes { All (IsLaneOf store.now.id) lanes.old }
    requires joined { All (IsJoined lanes.old) numbers.now }
    requires few { length numbers.now ≤ 1024 }
    ensures closes { ClosesNumbers V.is_closeable A.close_gives lanes.old numbers.now action.old action.new result }
    ensures unchanged { lanes.new ≡ lanes.old }
{
    let mut closed = Closed::new();
    for number in numbers {
        close_one(store, lanes, *number, action, &mut closed);
    }
    closed
}

// Gives the number's value to the action if it is closeable, and counts the answer.
fn close_one<V: StoreValue + Drop, A: CloseAction<V>>(
    store: &Store<V>,
    lanes: &mut [Lane<V>],
    number: u32,
    action: &mut A,
    closed: &mut Closed,
)
    requires lanes { All (IsLaneOf store.now.id) lanes.old }
    requires joined { IsJoined lanes.old number }
    requires room { (closed.old.closed < 1024) × (closed.old.more_faults ≤ closed.old.closed) }
    ensures closes { (numbers : List ℕ) (first : A) → ClosesNumbers V.is_closeable A.close_gives lanes.old numbers first action.old closed.old → ClosesNumbers V.is_closeable A.close_gives lanes.old (numbers ++ number ∷ []) first action.new closed.new }
    ensures one_more { closed.new.closed ≤ closed.old.closed + 1 }
    ensures few { closed.new.more_faults ≤ closed.new.closed }
    ensures unchanged { lanes.new ≡ lanes.old }
{
    let value = known_value(store, lanes, number);
    if value.closeable() {
        closed.add(fault_in(action.close(number, value)));
    }
}

// The fault in the action's answer, if it failed.
fn fault_in(answer: Result<(), Fault>) -> Option<Fault>
    ensures { result ≡ fault_in answer }
{
    match answer {
        Ok(()) => None,
        Err(fault) => Some(fault),
    }
}

// The value of the number, which a lane in hand knows.
fn known_value<'a, V: StoreValue + Drop>(
    store: &'a Store<V>,
    lanes: &mut [Lane<V>],
    number: u32,
) -> &'a V
    requires lanes { All (IsLaneOf store.now.id) lanes.old }
    requires joined { IsJoined lanes.old number }
    ensures value { IsKnown lanes.old number result.now }
    ensures unchanged { lanes.new ≡ lanes.old }
{
    let Some(at) = lane_knowing(store, lanes, number) else {
        unreachable!()
    };
    let Some(value) = store.show(&mut lanes[at], number) else {
        unreachable!()
    };
    value
}
