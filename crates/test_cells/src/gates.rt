//! Gates that hold jobs of a crew, so that a test sees which of them run side by side.
use ext_crew::Gate;
use std::sync::atomic::{AtomicU64, Ordering};

/// How often a held job looks for the other ones, by one atomic load each.
const TURNS: u64 = 10_000_000_000;

/// Waits until the counter is as great, or until the turns are used up, which is counted.
fn wait_for(counter: &AtomicU64, least: u64, given_up: &AtomicU64) {
    for _ in 0..TURNS {
        if counter.load(Ordering::SeqCst) >= least {
            return;
        }
    }
    given_up.fetch_add(1, Ordering::SeqCst);
}

/// Holds each of the first jobs, so many, at its start until all of these have started, or until
/// the turns are used up.
#[derive(Drop)]
pub(crate) struct MeetingGate {
    first: u64,
    started: AtomicU64,
    given_up: AtomicU64,
}

impl MeetingGate {
    pub(crate) fn of(first: u64) -> MeetingGate {
        MeetingGate {
            first,
            started: AtomicU64::new(0),
            given_up: AtomicU64::new(0),
        }
    }

    /// How many of the first jobs have started, and how many have given up.
    pub(crate) fn told(&self) -> (u64, u64) {
        (
            self.started.load(Ordering::SeqCst),
            self.given_up.load(Ordering::SeqCst),
        )
    }
}

impl Gate for MeetingGate {
    fn started(&self, index: usize) {
        if (index as u64) < self.first {
            self.started.fetch_add(1, Ordering::SeqCst);
            wait_for(&self.started, self.first, &self.given_up);
        }
    }

    fn ended(&self, _index: usize) {}
}

/// Holds job 0 at its start until the jobs 1, 2 and 3 have ended, or until the turns are used up.
#[derive(Drop)]
pub(crate) struct LastGate {
    others_ended: AtomicU64,
    given_up: AtomicU64,
}

impl LastGate {
    pub(crate) fn new() -> LastGate {
        LastGate {
            others_ended: AtomicU64::new(0),
            given_up: AtomicU64::new(0),
        }
    }

    /// How many other jobs have ended, and how often job 0 has given up.
    pub(crate) fn told(&self) -> (u64, u64) {
        (
            self.others_ended.load(Ordering::SeqCst),
            self.given_up.load(Ordering::SeqCst),
        )
    }
}

impl Gate for LastGate {
    fn started(&self, index: usize) {
        if index == 0 {
            wait_for(&self.others_ended, 3, &self.given_up);
        }
    }

    fn ended(&self, index: usize) {
        if index != 0 {
            self.others_ended.fetch_add(1, Ordering::SeqCst);
        }
    }
}

/// Notes how far each of four jobs is: 1 once it has started, 2 once it has run, 3 once it has
/// ended.
#[derive(Drop)]
pub(crate) struct OrderGate {
    steps: [AtomicU64; 4],
    wrong: AtomicU64,
}

impl OrderGate {
    pub(crate) fn new() -> OrderGate {
        OrderGate {
            steps: [
                AtomicU64::new(0),
                AtomicU64::new(0),
                AtomicU64::new(0),
                AtomicU64::new(0),
            ],
            wrong: AtomicU64::new(0),
        }
    }

    /// The job goes from one step to the next. Anything else is wrong.
    pub(crate) fn goes(&self, index: usize, from: u64, to: u64) {
        let found = match self.steps.get(index) {
            Some(step) => step.swap(to, Ordering::SeqCst),
            None => 4,
        };
        if found != from {
            self.wrong.fetch_add(1, Ordering::SeqCst);
        }
    }

    /// How far the four jobs are, and how many steps were wrong.
    pub(crate) fn told(&self) -> ([u64; 4], u64) {
        let [a, b, c, d] = &self.steps;
        let far = [
            a.load(Ordering::SeqCst),
            b.load(Ordering::SeqCst),
            c.load(Ordering::SeqCst),
            d.load(Ordering::SeqCst),
        ];
        (far, self.wrong.load(Ordering::SeqCst))
    }
}

impl Gate for OrderGate {
    fn started(&self, index: usize) {
        self.goes(index, 0, 1);
    }

    fn ended(&self, index: usize) {
        self.goes(index, 2, 3);
    }
}
