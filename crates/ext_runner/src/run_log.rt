//! What is known of a run while it lasts.
use crate::live::{ended_line, progress_line, slow_line};
use crate::node_log::{NodeLog, ReportedFault};
use crate::results::place_text;
use crate::timeline::Timeline;
use ext_page::{FaultRow, NodeLocks, TakenLock};
use ext_table::{
    Call, ContextNo, Fault, FaultOrigin, Kind, LeftOut, LockMode, NamedLock, NodeResult,
    RunListener, TableListener,
};
use std::alloc::{AllocError, Global};
use std::sync::{Condvar, CondvarTimeouts, Mutex, Wait};
use std::time::{Clock, Duration, Instant};

/// After how many seconds it is told once more how many tests have ended, where no line tells of
/// each.
const SECONDS_BETWEEN: u64 = 60;

/// What is told while a run lasts.
#[derive(Clone, Copy)]
pub(crate) struct Watching {
    /// Whether a line tells of each test that ended; otherwise one a minute says how many have.
    pub(crate) each: bool,
    pub(crate) colored: bool,
}

/// A test of the table, as it is told.
#[derive(Drop)]
pub(crate) struct Listed {
    pub(crate) id: String,
    pub(crate) is_test: bool,
    /// The node that it stands in; that of the engine has none.
    pub(crate) above: ContextNo,
    /// After how many seconds it is told as slow.
    pub(crate) slow_after: Option<u32>,
    /// The locks that it holds, and whether it holds that of all others.
    pub(crate) locks: Vec<NamedLock>,
    pub(crate) is_isolated: bool,
}

/// What is known of a run. Several threads add to it at once.
#[derive(Drop)]
pub(crate) struct RunLog<'a, R> {
    threads: &'a R,
    rt: &'a HostRuntime,
    listed: Vec<Listed>,
    watching: Watching,
    begun: Option<Instant>,
    /// Whether the course of the run is noted.
    is_timed: bool,
    state: Mutex<State>,
    over: Condvar,
}

/// What the lock of a run's log guards.
#[derive(Drop)]
pub(crate) struct State {
    pub(crate) nodes: Vec<NodeLog>,
    /// How many tests have ended.
    ended: usize,
    /// How many tests there are.
    tests: usize,
    is_over: bool,
    /// Whether a fault was lost for want of memory.
    pub(crate) lost: bool,
    /// The course of the run, if a page is asked for.
    pub(crate) timeline: Option<Timeline>,
}

impl<'a, R: Wait + Clock> RunLog<'a, R> {
    /// The log of a run of these nodes that has not begun. Takes memory.
    pub(crate) fn new(
        threads: &'a R,
        rt: &'a HostRuntime,
        listed: Vec<Listed>,
        watching: Watching,
        is_timed: bool,
    ) -> Result<RunLog<'a, R>, AllocError> {
        let mut nodes = Vec::new(rt.alloc());
        for _ in listed.as_slice() {
            nodes.push(NodeLog::new(rt.alloc()))?;
        }
        let tests = listed.iter().filter(|node| node.is_test).count();
        let timeline = if is_timed {
            Some(Timeline::new(rt.alloc(), locks_of(rt.alloc(), &listed)?)?)
        } else {
            None
        };
        Ok(RunLog {
            threads,
            rt,
            listed,
            watching,
            begun: Instant::now(rt).ok(),
            is_timed,
            state: Mutex::new(State {
                nodes,
                ended: 0,
                tests,
                is_over: false,
                lost: false,
                timeline,
            }),
            over: Condvar::new(),
        })
    }

    /// What is known once the run is over, and the nodes.
    pub(crate) fn into_parts(self) -> (Vec<Listed>, State) {
        (self.listed, self.state.into_inner())
    }

    /// Announces that the run is over.
    pub(crate) fn finish(&self) {
        let mut state = self.state.lock(self.threads);
        state.is_over = true;
        self.over.notify_all();
    }

    /// Tells of slow tests, and where no line tells of each test how many have ended, until the run
    /// is over.
    pub(crate) fn tell_to_the_end(&self) {
        let mut seconds: u64 = 0;
        for _ in self.threads.forever() {
            if self.is_over_soon() {
                return;
            }
            seconds = seconds.saturating_add(1);
            self.tell_slow();
            if !self.watching.each && seconds % SECONDS_BETWEEN == 0 {
                self.tell_progress();
            }
        }
    }

    /// Waits for a second, and tells whether the run was over by then.
    fn is_over_soon(&self) -> bool {
        let state = self.state.lock(self.threads);
        let second = Duration::from_millis(1_000);
        let (state, _) = self
            .over
            .wait_timeout_while(self.threads, state, second, |state| !state.is_over);
        state.is_over
    }

    /// Tells once of each test that has run longer than it should.
    fn tell_slow(&self) {
        let now = Instant::now(self.rt).ok();
        let mut state = self.state.lock(self.threads);
        for (listed, node) in self.listed.iter().zip(state.nodes.iter_mut()) {
            if let Some(slow) = listed.slow_after
                && let (Some(begun), Some(now)) = (node.called, now)
                && node.is_running()
                && !node.is_reported_slow
                && now.duration_since(begun).as_secs() >= u64::from(slow)
            {
                node.is_reported_slow = true;
                self.print(slow_line(self.rt.alloc(), slow, listed.id.as_str()));
            }
        }
    }

    /// Tells of a test that ended: that it ran longer than it should, if that was not told meanwhile,
    /// and how it ended.
    fn tell_ended(&self, listed: &Listed, log: &mut NodeLog) {
        if let Some(slow) = listed.slow_after
            && let Some(took) = log.took
            && !log.is_reported_slow
            && took.as_secs() >= u64::from(slow)
        {
            log.is_reported_slow = true;
            self.print(slow_line(self.rt.alloc(), slow, listed.id.as_str()));
        }
        if self.watching.each {
            let colored = self.watching.colored;
            self.print(ended_line(self.rt.alloc(), listed.id.as_str(), log, colored));
        }
    }

    fn tell_progress(&self) {
        let state = self.state.lock(self.threads);
        self.print(progress_line(self.rt.alloc(), state.ended, state.tests));
    }

    /// Prints a line on standard error, if there was memory for it.
    fn print(&self, line: Result<String, AllocError>) {
        if let Ok(line) = line {
            let _ = eprint!(self.rt; "{}", line.as_str());
        }
    }

    fn now(&self) -> Option<Instant> {
        Instant::now(self.rt).ok()
    }

    /// The microseconds from the begin of the run to this moment; 0 if a clock was not read.
    fn micros(&self, now: Option<Instant>) -> u64 {
        match (self.begun, now) {
            (Some(begun), Some(now)) => {
                u64::try_from(now.duration_since(begun).as_micros()).unwrap_or(u64::MAX)
            }
            _ => 0,
        }
    }

    /// A fault of a node as a page shows it. Takes memory.
    fn fault_row(
        &self,
        node: ContextNo,
        attempt: Option<u32>,
        origin: FaultOrigin,
        fault: &Fault,
    ) -> Result<FaultRow, AllocError> {
        let alloc = self.rt.alloc();
        Ok(FaultRow {
            node,
            attempt: attempt.map(|attempt| attempt as usize),
            place: place_text(alloc, self.listed.as_slice(), node, origin)?,
            text: format!(in alloc; "{fault}")?,
        })
    }
}

impl<R: Wait + Clock> RunListener for RunLog<'_, R> {
    fn started(&self, node: ContextNo, lane: usize) {
        let now = self.now();
        let mut state = self.state.lock(self.threads);
        if let Some(log) = state.nodes.get_mut(node) {
            log.started = now;
        }
        if let Some(timeline) = &mut state.timeline {
            timeline.start(node, lane, self.micros(now));
        }
    }

    fn called(&self, node: ContextNo, call: &Call) {
        let now = self.now();
        let mut state = self.state.lock(self.threads);
        if let Some(log) = state.nodes.get_mut(node) {
            log.call(now);
        }
        if let Some(timeline) = &mut state.timeline {
            timeline.call(node, call.kind, self.micros(now));
        }
    }

    fn faulted(&self, node: ContextNo, origin: FaultOrigin, fault: &Fault) {
        let reported = reported_fault(self.rt.alloc(), origin, fault);
        let mut state = self.state.lock(self.threads);
        let kept = match (reported, state.nodes.get_mut(node)) {
            (Ok(reported), Some(log)) => log.faults.push(reported).is_ok(),
            _ => false,
        };
        if !kept {
            state.lost = true;
        }
        let attempt = attempt_in(state.nodes.get(node), origin);
        if let Some(timeline) = &mut state.timeline {
            if let FaultOrigin::Step { .. } = origin {
                timeline.fail(node);
            }
            timeline.add_fault(self.fault_row(node, attempt, origin, fault));
        }
    }

    fn ended(&self, ran: &NodeResult, _nodes: usize) {
        let now = self.now();
        let mut state = self.state.lock(self.threads);
        if let Some(log) = state.nodes.get_mut(ran.node) {
            log.end(now, ran.status);
        }
        if let Some(timeline) = &mut state.timeline {
            timeline.end(ran);
        }
        if !ran.is_test {
            return;
        }
        state.ended = state.ended.saturating_add(1);
        if let Some(listed) = self.listed.get(ran.node)
            && let Some(log) = state.nodes.get_mut(ran.node)
        {
            self.tell_ended(listed, log);
        }
    }
}

/// The locks of the nodes of a run. Takes memory.
fn locks_of(alloc: Global, listed: &[Listed]) -> Result<Vec<NodeLocks>, AllocError> {
    let mut nodes = Vec::new(alloc);
    for node in listed {
        let mut locks = Vec::new(alloc);
        for lock in node.locks.iter() {
            locks.push(TakenLock {
                lock: lock.name,
                writes: matches!(lock.mode, LockMode::ReadWrite),
            })?;
        }
        nodes.push(NodeLocks {
            locks,
            is_alone: node.is_isolated,
        })?;
    }
    Ok(nodes)
}

/// The origin of a fault of a node's test.
fn in_test(node: ContextNo) -> FaultOrigin {
    let call = Call {
        kind: Kind::Test,
        from: node,
        index: 0,
    };
    FaultOrigin::Step { call, step: 0 }
}

/// The attempt in which a fault came; none if it did not come in the test itself.
fn attempt_in(log: Option<&NodeLog>, origin: FaultOrigin) -> Option<u32> {
    match (origin, log) {
        (FaultOrigin::Step { call, .. }, Some(log)) if matches!(call.kind, Kind::Test) => {
            Some(log.attempt.max(1))
        }
        _ => None,
    }
}

/// The text of a fault, if there is one, and memory for it.
fn text_of(alloc: Global, fault: Option<&Fault>) -> Option<String> {
    match fault {
        Some(fault) => format!(in alloc; "{fault}").ok(),
        None => None,
    }
}

/// The fault with its origin. Takes memory for its text.
fn reported_fault(
    alloc: Global,
    origin: FaultOrigin,
    fault: &Fault,
) -> Result<ReportedFault, AllocError> {
    Ok(ReportedFault {
        origin,
        text: format!(in alloc; "{fault}")?,
    })
}

impl<R: Wait + Clock> TableListener for RunLog<'_, R> {
    fn asks(&self, node: ContextNo, from: ContextNo) {
        let now = self.now();
        let mut state = self.state.lock(self.threads);
        if let Some(log) = state.nodes.get_mut(node) {
            log.asked = now;
        }
        if let Some(timeline) = &mut state.timeline {
            timeline.ask(node, from, self.micros(now));
        }
    }

    fn makes(&self, node: ContextNo, from: ContextNo) {
        if !self.is_timed {
            return;
        }
        let now = self.micros(self.now());
        let mut state = self.state.lock(self.threads);
        if let Some(timeline) = &mut state.timeline {
            timeline.make(self.rt.alloc(), node, from, now);
        }
    }

    fn made(&self, _node: ContextNo, from: ContextNo, fault: Option<&Fault>) {
        if !self.is_timed {
            return;
        }
        let now = self.micros(self.now());
        let fault = text_of(self.rt.alloc(), fault);
        let mut state = self.state.lock(self.threads);
        if let Some(timeline) = &mut state.timeline {
            timeline.finish_making(from, fault, now);
        }
    }

    fn handed(&self, node: ContextNo, from: ContextNo, number: u32, is_new: bool) {
        let now = self.now();
        let mut state = self.state.lock(self.threads);
        if let Some(log) = state.nodes.get_mut(node) {
            log.hand(now, is_new);
        }
        if let Some(timeline) = &mut state.timeline {
            if is_new {
                timeline.name_value(from, number);
            } else {
                timeline.find(node, self.micros(now));
            }
        }
    }

    fn returned(&self, node: ContextNo, _call: &Call) {
        if !self.is_timed {
            return;
        }
        let now = self.micros(self.now());
        let mut state = self.state.lock(self.threads);
        if let Some(timeline) = &mut state.timeline {
            timeline.finish_call(node, now);
        }
    }

    fn closes(&self, node: ContextNo, _number: u32) {
        if !self.is_timed {
            return;
        }
        let now = self.micros(self.now());
        let mut state = self.state.lock(self.threads);
        if let Some(timeline) = &mut state.timeline {
            timeline.close(node, now);
        }
    }

    fn closed(&self, node: ContextNo, number: u32, fault: Option<&Fault>) {
        if !self.is_timed {
            return;
        }
        let now = self.micros(self.now());
        let fault = text_of(self.rt.alloc(), fault);
        let mut state = self.state.lock(self.threads);
        if let Some(timeline) = &mut state.timeline {
            timeline.finish_close(node, number, fault, now);
        }
    }

    fn tries(&self, node: ContextNo, attempt: u32) {
        let mut state = self.state.lock(self.threads);
        if let Some(log) = state.nodes.get_mut(node) {
            log.attempt = attempt;
        }
        if let Some(timeline) = &mut state.timeline
            && attempt > 1
        {
            timeline.try_again(node, self.micros(self.now()));
        }
    }

    fn failed_attempt(&self, node: ContextNo, attempt: u32, fault: &Fault) {
        let text = format!(in self.rt.alloc(); "{fault}");
        let mut state = self.state.lock(self.threads);
        let kept = match (text, state.nodes.get_mut(node)) {
            (Ok(text), Some(log)) => log.earlier.push(text).is_ok(),
            _ => false,
        };
        if !kept {
            state.lost = true;
        }
        if let Some(timeline) = &mut state.timeline {
            timeline.fail_attempt(node, self.micros(self.now()));
            let origin = in_test(node);
            timeline.add_fault(self.fault_row(node, Some(attempt), origin, fault));
        }
    }

    fn left_out(&self, node: ContextNo, why: LeftOut) {
        let mut state = self.state.lock(self.threads);
        if let Some(log) = state.nodes.get_mut(node) {
            log.left_out = Some(why);
        }
    }
}
