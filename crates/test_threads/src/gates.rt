//! A gate that holds a factory, and how a thread looks for another one or waits for it.
use std::sync::atomic::{AtomicU64, Ordering};
use std::thread::{sleep, yield_now};
use std::time::{Clock, Duration};

// How often a thread looks for another one, by one atomic load each, a thousandth of a second
// apart.
const TURNS: u64 = 20_000;

// How many turns a lane waits for others before it begins, in each of which it lets other threads
// run.
const BRIEFLY: u64 = 200;

/// Comes, and waits a little for so many lanes in all, so that they begin at once.
pub(crate) fn come(came: &AtomicU64, lanes: u64) {
    came.fetch_add(1, Ordering::SeqCst);
    for _ in 0..BRIEFLY {
        if came.load(Ordering::SeqCst) == lanes {
            return;
        }
        yield_now();
    }
}

/// Takes so many turns, of one atomic load each.
pub(crate) fn delay(turns: u64) {
    let word = AtomicU64::new(0);
    for _ in 0..turns {
        word.load(Ordering::SeqCst);
    }
}

/// Whether the flag was raised in time.
pub(crate) fn is_raised(clock: &impl Clock, flag: &AtomicU64) -> bool {
    for _ in 0..TURNS {
        if flag.load(Ordering::SeqCst) == 1 {
            return true;
        }
        sleep(clock, Duration::from_millis(1));
    }
    false
}

/// Holds a factory from its start until other calls were made beside it.
#[derive(Drop)]
pub(crate) struct Gate {
    runs: AtomicU64,
    may_end: AtomicU64,
}

impl Gate {
    pub(crate) fn new() -> Gate {
        Gate {
            runs: AtomicU64::new(0),
            may_end: AtomicU64::new(0),
        }
    }

    /// Of the factory: tells that it runs, and is held until the gate opens. Says whether it opened
    /// in time.
    pub(crate) fn hold(&self, clock: &impl Clock) -> bool {
        self.runs.store(1, Ordering::SeqCst);
        is_raised(clock, &self.may_end)
    }

    /// Of the other lane: whether the factory came to run in time.
    pub(crate) fn runs(&self, clock: &impl Clock) -> bool {
        is_raised(clock, &self.runs)
    }

    /// Of the other lane: lets the factory end.
    pub(crate) fn open(&self) {
        self.may_end.store(1, Ordering::SeqCst);
    }
}
