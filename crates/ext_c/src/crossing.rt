//! What C may hand from one thread to another: the check proves `Send` of a lane's seat.
ghost use denote.Param.Send.{IsSend};

use crate::handle::Handle;
use crate::seat::Seat;
use ext_store::{Claim, Closer, Lane, Store};
use std::alloc::Global;
use std::sync::Arc;

// Proves `Send` of the type.
fn crosses<T: Send>()
    ensures { IsSend T.row }
{}

// Proves that each part of a lane's seat may go to another thread, and so the seat. It does nothing
// when it runs.
pub(crate) fn parts_cross() {
    crosses::<Arc<Store<Handle>, Global>>();
    crosses::<Lane<Handle>>();
    crosses::<Option<Claim>>();
    crosses::<Vec<Option<Closer>>>();
    crosses::<Seat>();
}
