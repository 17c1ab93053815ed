//! The close of a node's context, asked again until nobody is in the way.
ghost use Rattle.std.specs.Prelude.{◌≡◌, ◌≤◌, length, All, IfOk, IfErr, IfNone, IfSome, Ok};
ghost use Rattle.ext_closing.specs.declared.fault.CloseFault.TheVariants as close_fault;
ghost use Rattle.ext_closing.specs.Closes.{Closes};
ghost use Rattle.ext_closing.specs.InnerSteps.{IsOfKey};
ghost use Rattle.ext_store.specs.Stores.{IsCloserOf, IsLaneOf};
ghost use Rattle.ext_engine.specs.NodeFailing.{IsLeftOpen};

use ext_closing::{CloseAction, CloseFault, Closed, close};
use ext_store::{Closer, Lane, Store, StoreValue};
use std::sync::Wait;
use std::thread;

/// Closes the context, and asks again where a lane computes a value for it or other lanes are in
/// the way.
pub(crate) fn close_again<R: Wait, V: StoreValue + Drop, A: CloseAction<V>>(
    rt: &R,
    store: &Store<V>,
    closer: Closer,
    lanes: &mut [Lane<V>],
    action: &mut A,
) -> Result<Closed, u32>
    requires lanes { 1 ≤ length lanes.old }
    requires own_lanes { All (IsLaneOf store.now.id) lanes.old }
    requires closer { IsCloserOf store.now closer }
    ensures closes { IfOk result (λ closed. Closes V.is_closeable A.close_gives store.now closer lanes.old action.old (Ok closed) lanes.new action.new) }
    ensures unjoined { IfErr result (λ number. IsLeftOpen V.is_closeable A.close_gives store.now closer action.old lanes.old number lanes.new) }
    ensures own_lanes { All (IsLaneOf store.now.id) lanes.new }
    ensures count { length lanes.new ≡ length lanes.old }
{
    let mut left = closer;
    for _ in rt.forever() {
        match close(store, left, lanes, action) {
            Ok(closed) => {
                lanes[0].tell_proof();
                return Ok(closed);
            }
            Err((back, why)) => {
                if let Some(number) = unjoined(why) {
                    return Err(number);
                }
                left = back;
            }
        }
        thread::yield_now();
    }
    unreachable!()
}

/// The number with which a close was refused as unjoined.
fn unjoined(why: CloseFault) -> Option<u32>
    ensures key { IfNone result (IsOfKey why) }
    ensures number { IfSome result (λ number. why ≡ close_fault.Unjoined number) }
{
    match why {
        CloseFault::Busy(_) => None,
        CloseFault::Contended(_) => None,
        CloseFault::Unjoined(number) => Some(number),
    }
}
