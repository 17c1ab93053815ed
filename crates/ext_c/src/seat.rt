//! What a lane's pointer leads to: the shared store, the lane, its claim, and for one lane of the
//! store the closers.
ghost use Rattle.std.specs.Prelude.{ℕ, ◌≡◌, All, Some};
ghost use Rattle.std.specs.Arc.{arc_value};
ghost use Rattle.ext_model.specs.CallActs.{IsHeld};
ghost use Rattle.ext_store.specs.Stores.{CloserView, IsCloserOf, IsLaneOf};

use crate::handle::Handle;
use ext_store::{Claim, Closer, Lane, Store};
use std::alloc::Global;
use std::sync::Arc;

/// One lane of a store with all that a caller needs of it. If it is dropped, its claim is given up.
pub struct Seat {
    pub store: Arc<Store<Handle>, Global>,
    pub lane: Lane<Handle>,
    pub claim: Option<Claim>,
    // For one lane of the store, the closer of each context whose close has not ended.
    pub closers: Vec<Option<Closer>>,
    ghost fits: { IsLaneOf (arc_value store).id lane },
    ghost held: { (c : ℕ) → claim ≡ Some c → IsHeld lane.cells.view c },
    ghost own_closers: { All (λ c. (x : CloserView) → c ≡ Some x → IsCloserOf (arc_value store) x) closers.items },
}

impl Drop for Seat {
    fn drop(self) {
        let Seat {
            store,
            lane,
            claim,
            closers: _,
        } = self;
        if let Some(claim) = claim {
            let mut lane = lane;
            let shared: &Store<Handle> = &store;
            shared.abandon_quietly(&mut lane, claim);
        }
    }
}
