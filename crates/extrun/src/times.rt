//! When the nodes of a run started, and how long they took.
ghost use Rattle.std.specs.Prelude.{◌≡◌, string_bytes, vec_len, IfOk};
ghost use Rattle.std.specs.Duration.{as_nanos};
ghost use Rattle.extrun.specs.Times.{seconds_text};

use ext_page::{Attempt, Holders, LEAST_WAIT, Wait, Waited};
use ext_report::{Extra, write_seconds};
use ext_run::NodeResult;
use std::alloc::{AllocError, Global};
use std::time::{Duration, Instant};

/// The times of the nodes of a run, in the order of the plan.
#[derive(Drop)]
pub(crate) struct Times {
    started: Vec<Option<Started>>,
    /// How long each node took that has ended.
    extras: Vec<Extra>,
    /// When the first node started.
    begun: Option<Instant>,
    tests: TestTimes,
    /// Who held locks, if that is asked for.
    holders: Option<Holders>,
}

/// The start of a node.
#[derive(Clone, Copy)]
struct Started {
    at: Instant,
    lane: usize,
    /// How many tests had ended by then.
    ends: usize,
    /// When its first call began. A test has its locks then.
    called: Option<Instant>,
}

/// When the tests of a run ran.
#[derive(Drop)]
pub(crate) struct TestTimes {
    pub(crate) attempts: Vec<Attempt>,
    /// When they waited for locks.
    pub(crate) waits: Vec<Wait>,
    /// Whether something was lost for want of memory.
    pub(crate) lost: bool,
}

impl Times {
    /// The times of so many nodes, none of which has started. Waits for locks are noted with who held
    /// them if `holders` are given. Takes memory.
    pub(crate) fn new(
        alloc: Global,
        nodes: usize,
        holders: Option<Holders>,
    ) -> Result<Times, AllocError>
        ensures started { IfOk result (λ times. vec_len times.started ≡ nodes) }
        ensures extras { IfOk result (λ times. vec_len times.extras ≡ nodes) }
    {
        let mut started = Vec::new(alloc);
        let mut extras = Vec::new(alloc);
        for _ in 0..nodes {
            started.push(None)?;
            extras.push(Extra::default())?;
        }
        Ok(Times {
            started,
            extras,
            begun: None,
            tests: TestTimes::new(alloc),
            holders,
        })
    }

    /// Notes that a node starts now on this lane.
    pub(crate) fn start(&mut self, node: usize, lane: usize, now: Instant) {
        if self.begun.is_none() {
            self.begun = Some(now);
        }
        let ends = match &self.holders {
            Some(holders) => holders.ended(),
            None => 0,
        };
        if let Some(started) = self.started.get_mut(node) {
            *started = Some(Started {
                at: now,
                lane,
                ends,
                called: None,
            });
        }
    }

    /// Notes that a call of a node begins now; that of a test says so. A test has its locks then, for
    /// the last of which it waited if another one kept it meanwhile.
    pub(crate) fn call(&mut self, node: usize, is_test: bool, now: Instant) {
        let Some(Some(started)) = self.started.get_mut(node) else {
            return;
        };
        if started.called.is_some() {
            return;
        }
        started.called = Some(now);
        let started = *started;
        if is_test {
            let kept = self.note_locks(node, started, now);
            self.tests.lost |= kept.is_err();
        }
    }

    /// Notes the wait of a test that has its locks now.
    fn note_locks(
        &mut self,
        node: usize,
        started: Started,
        now: Instant,
    ) -> Result<(), AllocError> {
        let Some(holders) = &mut self.holders else {
            return Ok(());
        };
        let held = holders.begin(node, started.ends)?;
        let first = self.begun.unwrap_or(started.at);
        let (begun, ended) = (micros(first, started.at), micros(first, now));
        if let Some(held) = held
            && ended.saturating_sub(begun) >= LEAST_WAIT
        {
            self.tests.waits.push(Wait {
                lane: started.lane,
                node,
                begun,
                ended,
                waited: Waited::ForLock(held.lock),
                by: Some(held.by),
            })?;
        }
        Ok(())
    }

    /// Notes that a node has ended now.
    pub(crate) fn end(&mut self, ran: &NodeResult, now: Instant) {
        let Some(Some(started)) = self.started.get(ran.node) else {
            return;
        };
        let started = *started;
        if let Some(extra) = self.extras.get_mut(ran.node) {
            let took = now.saturating_duration_since(started.at);
            *extra = Extra::new(Some(took), 0);
        }
        if ran.is_test {
            self.note(ran, started, now);
        }
    }

    /// Notes when a test ran, if there is memory for it.
    fn note(&mut self, ran: &NodeResult, started: Started, now: Instant) {
        let first = self.begun.unwrap_or(started.at);
        let begun = started.called.unwrap_or(started.at);
        let kept = self.tests.attempts.push(Attempt {
            node: ran.node,
            lane: started.lane,
            begun: micros(first, begun),
            ended: micros(first, now),
            status: ran.status,
        });
        self.tests.lost |= kept.is_err();
        if let Some(holders) = &mut self.holders {
            self.tests.lost |= holders.end(ran.node).is_err();
        }
    }

    /// How long each node took, in the order of the plan, and when each test ran.
    pub(crate) fn into_parts(self) -> (Vec<Extra>, TestTimes) {
        let Times { extras, tests, .. } = self;
        (extras, tests)
    }
}

impl TestTimes {
    /// No test ran.
    pub(crate) fn new(alloc: Global) -> TestTimes {
        TestTimes {
            attempts: Vec::new(alloc),
            waits: Vec::new(alloc),
            lost: false,
        }
    }
}

/// The microseconds from one moment to another.
fn micros(from: Instant, to: Instant) -> u64 {
    let time = to.saturating_duration_since(from).as_micros();
    u64::try_from(time).unwrap_or(u64::MAX)
}

/// A time in seconds, as `0.123 s`. Takes memory.
pub(crate) fn seconds(alloc: Global, time: Duration) -> Result<String, AllocError>
    ensures { IfOk result (λ text. string_bytes text ≡ seconds_text (as_nanos time)) }
{
    let mut text = String::new(alloc);
    write_seconds(&mut text, time.as_millis())?;
    text.push_str(" s")?;
    Ok(text)
}
