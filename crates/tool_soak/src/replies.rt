//! What a lane was answered, in the order of its calls.
use crate::fault::SoakFault;
use crate::mark::Mark;
use crate::opening::Place;
use ext_model::{ContextNo, KeyNo};
use std::alloc::Global;

/// A reply that is checked once all lanes have ended.
#[derive(Clone, Copy)]
pub(crate) enum Reply {
    /// The number was drawn for a value.
    Kept(u32),
    /// It was put in the place, over this one.
    Put {
        place: Place,
        number: u32,
        closeable: bool,
        stood: Option<u32>,
    },
    /// The number was drawn for the place's factory, and stored there.
    Computed {
        place: Place,
        number: u32,
        closeable: bool,
    },
    /// The number was drawn for the fault of the place's factory, which has this mark, and stored
    /// there.
    FaultKept {
        place: Place,
        number: u32,
        mark: Mark,
    },
    /// It was taken out of the place.
    Removed {
        place: Place,
        number: u32,
    },
    /// It was closed, as the place's.
    Closed {
        place: Place,
        number: u32,
    },
    /// A look-up from a context found it in this one or above.
    Found {
        key: usize,
        from: ContextNo,
        at: ContextNo,
        number: u32,
    },
    /// A look-up or a compute met it in this context, as that of a fault with this mark.
    FaultMet {
        key: usize,
        at: ContextNo,
        number: u32,
        mark: Mark,
    },
    /// A look-up from a context found nothing.
    Absent {
        key: usize,
        from: ContextNo,
    },
    /// A key's number in the store, or that it has none since all are given. The key is told by its
    /// place among the four names, and the late ones behind them.
    Named {
        key: usize,
        number: Option<KeyNo>,
    },
    /// A reply that is wrong whatever the others are.
    Wrong(SoakFault),
}

/// All replies of a lane.
#[derive(Drop)]
pub(crate) struct Log {
    pub(crate) replies: Vec<Reply>,
    /// Whether each of them found memory.
    pub(crate) whole: bool,
}

impl Log {
    pub(crate) fn new(alloc: Global) -> Log {
        Log {
            replies: Vec::new(alloc),
            whole: true,
        }
    }

    /// One more reply.
    pub(crate) fn add(&mut self, reply: Reply) {
        let kept = self.replies.push(reply).is_ok();
        self.whole = self.whole && kept;
    }

    /// One more reply, where it is wrong.
    pub(crate) fn wrong_unless(&mut self, right: bool, fault: SoakFault) {
        if !right {
            self.add(Reply::Wrong(fault));
        }
    }
}
