//! What is known of a node while a run lasts.
use ext_table::{FaultOrigin, LeftOut, Status};
use std::alloc::Global;
use std::time::{Duration, Instant};

/// A fault of a node, and where in the node it came.
#[derive(Drop)]
pub(crate) struct ReportedFault {
    pub(crate) origin: FaultOrigin,
    pub(crate) text: String,
}

/// What is known of a node.
#[derive(Drop)]
pub(crate) struct NodeLog {
    pub(crate) started: Option<Instant>,
    /// When the first of its calls began: a test has its locks then.
    pub(crate) called: Option<Instant>,
    /// When the call that runs asked for what is shared.
    pub(crate) asked: Option<Instant>,
    /// How long it waited for its locks.
    pub(crate) for_locks: Duration,
    /// How long it waited for values that others made or that it found.
    pub(crate) for_shared: Duration,
    /// How long it made values that others share.
    pub(crate) made: Duration,
    /// How long it took from its first call to its end.
    pub(crate) took: Option<Duration>,
    /// The attempt that ran last, from 1.
    pub(crate) attempt: u32,
    /// Its faults, in the order in which they came.
    pub(crate) faults: Vec<ReportedFault>,
    /// The faults of attempts before the last.
    pub(crate) earlier: Vec<String>,
    /// How it ended, if it did.
    pub(crate) status: Option<Status>,
    pub(crate) left_out: Option<LeftOut>,
    /// Whether it was reported as slow.
    pub(crate) is_reported_slow: bool,
}

impl NodeLog {
    /// Nothing is known.
    pub(crate) fn new(alloc: Global) -> NodeLog {
        NodeLog {
            started: None,
            called: None,
            asked: None,
            for_locks: Duration::ZERO,
            for_shared: Duration::ZERO,
            made: Duration::ZERO,
            took: None,
            attempt: 0,
            faults: Vec::new(alloc),
            earlier: Vec::new(alloc),
            status: None,
            left_out: None,
            is_reported_slow: false,
        }
    }

    /// Its first call, or another one, begins.
    pub(crate) fn call(&mut self, now: Option<Instant>) {
        if self.called.is_none() {
            self.called = now;
            self.for_locks = between(self.started, now);
        }
    }

    /// It was handed what it asked for.
    pub(crate) fn hand(&mut self, now: Option<Instant>, is_new: bool) {
        let waited = between(self.asked, now);
        if is_new {
            self.made = self.made.saturating_add(waited);
        } else {
            self.for_shared = self.for_shared.saturating_add(waited);
        }
        self.asked = None;
    }

    /// It ended.
    pub(crate) fn end(&mut self, now: Option<Instant>, status: Status) {
        let begun = self.called.or(self.started);
        self.took = match (begun, now) {
            (Some(begun), Some(now)) => Some(now.duration_since(begun)),
            _ => None,
        };
        self.status = Some(status);
    }

    /// Whether it runs.
    pub(crate) fn is_running(&self) -> bool {
        self.started.is_some() && self.status.is_none()
    }

    /// Whether it passed after an attempt that failed.
    pub(crate) fn is_flaky(&self) -> bool {
        self.attempt > 1 && matches!(self.status, Some(Status::Successful))
    }
}

/// The time between two moments, if both are known.
fn between(from: Option<Instant>, to: Option<Instant>) -> Duration {
    match (from, to) {
        (Some(from), Some(to)) => to.duration_since(from),
        _ => Duration::ZERO,
    }
}
