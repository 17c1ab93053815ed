//! The seats of a store that is opened.
ghost use Rattle.std.specs.Prelude.{◌≡◌, ◌↔◌, [], All, IfSome, IsTrue, Some, map};
ghost use Rattle.std.specs.Arc.{arc_value};
ghost use Rattle.std.specs.List.{AllZip};
ghost use Rattle.ext_store.specs.Stores.{CloserView, IsCloserOf, IsLaneOf};
ghost use Rattle.ext_c.specs.Limits.{AreInRange};
ghost use Rattle.ext_c.specs.Opening.{AreOpened, AreSeats, IsSeatOf};

use crate::crossing::parts_cross;
use crate::handle::Handle;
use crate::seat::Seat;
use ext_store::{Closer, Lane, Limits, Store, StoreFault};
use ext_tree::Tree;
use std::alloc::Global;
use std::sync::Arc;

fn sit(
    alloc: Global,
    store: Arc<Store<Handle>, Global>,
    lane: Lane<Handle>,
    closers: Vec<Option<Closer>>,
) -> Option<Box<Seat>>
    requires lane { IsLaneOf (arc_value store).id lane }
    requires closers { All (λ c. (x : CloserView) → c ≡ Some x → IsCloserOf (arc_value store) x) closers.items }
    ensures { IfSome result (λ seat. IsSeatOf (arc_value store) closers.items lane seat.value) }
{
    let seat = Seat {
        store,
        lane,
        claim: None,
        closers,
    };
    let Ok(boxed) = Box::new(alloc, seat) else {
        return None;
    };
    Some(boxed)
}

// The closers, each of which can be taken out.
fn all_of(alloc: Global, closers: Vec<Closer>) -> Option<Vec<Option<Closer>>>
    ensures { IfSome result (λ cs. cs.items ≡ map Some closers.items) }
{
    let mut all = Vec::new(alloc);
    for closer in closers {
        let Ok(()) = all.push(Some(closer)) else {
            return None;
        };
    }
    Some(all)
}

// A seat with these closers.
#[tactic(auto, using(crate::proofs::Closers::all_some))]
fn closing_seat(
    alloc: Global,
    store: &Arc<Store<Handle>, Global>,
    lane: Lane<Handle>,
    closers: Vec<Closer>,
) -> Option<Box<Seat>>
    requires lane { IsLaneOf (arc_value store.now).id lane }
    requires closers { All (IsCloserOf (arc_value store.now)) closers.items }
    ensures { IfSome result (λ seat. IsSeatOf (arc_value store.now) (map Some closers.items) lane seat.value) }
{
    let own = all_of(alloc, closers)?;
    let Ok(shared) = Arc::try_clone(store) else {
        return None;
    };
    sit(alloc, shared, lane, own)
}

// A seat without closers for each lane.
fn plain_seats(
    alloc: Global,
    store: &Arc<Store<Handle>, Global>,
    lanes: Vec<Lane<Handle>>,
) -> Option<Vec<Box<Seat>>>
    requires lanes { All (λ l. IsLaneOf (arc_value store.now).id l) lanes.items }
    ensures { IfSome result (λ seats. AllZip (λ lane seat. IsSeatOf (arc_value store.now) [] lane seat.value) lanes.items seats.items) }
{
    let mut seats = Vec::new(alloc);
    for lane in lanes {
        let Ok(shared) = Arc::try_clone(store) else {
            return None;
        };
        let seat = sit(alloc, shared, lane, Vec::new(alloc))?;
        let Ok(()) = seats.push(seat) else {
            return None;
        };
    }
    Some(seats)
}

// A seat for each lane. The last has the closers.
fn seats(
    alloc: Global,
    store: &Arc<Store<Handle>, Global>,
    lanes: Vec<Lane<Handle>>,
    closers: Vec<Closer>,
) -> Option<Vec<Box<Seat>>>
    requires lanes { All (λ l. IsLaneOf (arc_value store.now).id l) lanes.items }
    requires closers { All (IsCloserOf (arc_value store.now)) closers.items }
    ensures { IfSome result (λ seats. AreSeats (arc_value store.now) lanes.items closers.items seats.items) }
{
    let mut lanes = lanes;
    let Some(last) = lanes.pop() else {
        return None;
    };
    let closing = closing_seat(alloc, store, last, closers)?;
    let mut seats = plain_seats(alloc, store, lanes)?;
    let Ok(()) = seats.push(closing) else {
        return None;
    };
    Some(seats)
}

// Whether a store can have these limits.
pub(crate) fn are_limits(limits: Limits) -> bool
    ensures { IsTrue result ↔ AreInRange limits }
{
    (1..=1024).contains(&limits.keys)
        && ext_cells::are_limits(limits.size, 0, limits.lanes, limits.tries, limits.numbers)
}

// The seats of a new store with these limits, if there is memory.
pub(crate) fn open_seats(alloc: Global, tree: Tree, limits: Limits) -> Option<Vec<Box<Seat>>>
    requires { AreInRange limits }
    ensures { IfSome result (λ seats. AreOpened tree limits seats.items) }
{
    parts_cross();
    match Store::<Handle>::open(alloc, tree, limits) {
        Ok((store, lanes, closers)) => {
            let Ok(shared) = Arc::new(alloc, store) else {
                return None;
            };
            seats(alloc, &shared, lanes, closers)
        }
        Err(StoreFault::Memory) => None,
        Err(StoreFault::BadLimit) => unreachable!(),
    }
}
