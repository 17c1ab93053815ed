//! The progress of a run, printed on standard error by a thread of its own.
ghost use Rattle.std.specs.Prelude.{◌≡◌, ◌≤◌, false};
ghost use Rattle.std.specs.Io.KnownBytes.{Appends};
ghost use Rattle.ext_plan_reading.specs.Plans.{plan_view};
ghost use Rattle.ext_plan_reading.specs.ReadPlans.{IsReadPlan};
ghost use Rattle.extrun.specs.Tasks.{IsPlanOutcome};
ghost use denote.Param.Send.{IsSync};

use crate::running::Running;
use crate::screen::shown_text;
use ext_run::{NodeResult, Options, Plan, PlanNode, PlanRun, RunFault, RunListener, run_plan};
use std::alloc::{AllocError, Global};
use std::io::Write;
use std::sync::{Condvar, CondvarTimeouts, Mutex, Wait};
use std::thread::{Threads, join_mut};
use std::time::{Clock, Duration, Instant};

/// The least number of milliseconds between two lines, and between the start and the first one.
const INTERVAL: u64 = 1_000;

/// Runs a plan by the contract of `ext_run::run_plan` with a listener that tells `progress` of it,
/// and prints that on standard error.
///
/// Once a second, a thread of its own prints a line with the number of nodes that have ended and
/// the nodes that run, if a node started or ended since the line before. So the last line of a run
/// that hangs names what hangs, and a run of less than a second has no line. A container is named
/// if no node below it runs, and a test also while it waits for its locks. At a terminal each line
/// takes the place of the one before, and there is none once all nodes have ended.
///
/// If the clock cannot be read or a thread cannot be created, nothing is printed, and a line for
/// which there is no memory is left out.
pub(crate) fn run_beside<R, W: Write, L: RunListener + Sync>(
    rt: &R,
    plan: &Plan,
    writer: &mut W,
    options: Options,
    listener: &L,
    progress: &Progress<'_, R>,
) -> Result<PlanRun, RunFault>
where
    R: Threads + Wait + Sync + Clock + AllocGlobal + Eprint,
    requires lanes { options.plain ≡ false → (1 ≤ options.lanes) × (options.lanes ≤ 16) }
    requires plan { IsReadPlan (plan_view plan.now) }
    ensures { IsPlanOutcome options (plan_view plan.now) result (Appends (W.contents writer.old) (W.contents writer.new)) }
{
    let mut tell = || progress.tell_to_the_end();
    let mut run = || -> Result<PlanRun, RunFault>
        requires { IsSync R.row × IsSync L.row × (options.plain ≡ false → (1 ≤ options.lanes) × (options.lanes ≤ 16)) × IsReadPlan (plan_view plan.now) }
        ensures { IsPlanOutcome options (plan_view plan.entry.now) result (Appends (W.contents writer.entry.now) (W.contents writer.exit.now)) }
    {
        let outcome = run_plan(rt, rt.alloc(), writer, plan, options, listener);
        progress.end();
        outcome
    };
    let ((), outcome) = join_mut(rt, &mut tell, &mut run);
    outcome
}

/// The progress of a run, shared by the threads that run its nodes and the one that prints.
#[derive(Drop)]
pub(crate) struct Progress<'a, R> {
    rt: &'a R,
    state: Mutex<State>,
    /// Notified when the run is over.
    over: Condvar,
    /// Whether standard error is a terminal.
    for_terminal: bool,
    /// Whether it can move to the line before and erase it.
    rewrites: bool,
}

/// What the lock of a run's progress guards.
#[derive(Drop)]
struct State {
    running: Running,
    /// Whether a node has started or ended since the last line.
    is_new: bool,
    /// Whether there was a line.
    is_told: bool,
    is_over: bool,
}

impl<'a, R: Wait + Clock + AllocGlobal + Eprint> Progress<'a, R> {
    /// The progress of a run of this plan that has not begun, told to a terminal or not, which can
    /// erase lines or not. Takes memory.
    pub(crate) fn new(
        rt: &'a R,
        plan: &Plan,
        for_terminal: bool,
        rewrites: bool,
    ) -> Result<Progress<'a, R>, AllocError> {
        let ids = ids_of(rt.alloc(), plan.nodes.as_slice())?;
        let state = State {
            running: Running::new(rt.alloc(), ids)?,
            is_new: false,
            is_told: false,
            is_over: false,
        };
        Ok(Progress {
            rt,
            state: Mutex::new(state),
            over: Condvar::new(),
            for_terminal,
            rewrites: for_terminal && rewrites,
        })
    }

    /// Announces that the run is over.
    fn end(&self) {
        let mut state = self.state.lock(self.rt);
        state.is_over = true;
        self.over.notify_all();
    }

    /// Prints a line once a second, if there is something new, until the run is over.
    fn tell_to_the_end(&self) {
        if Instant::now(self.rt).is_err() {
            return;
        }
        for _ in self.rt.forever() {
            if self.is_over_soon() {
                return;
            }
            self.tell_news();
        }
    }

    /// Waits for the time between two lines, and tells whether the run was over by then.
    fn is_over_soon(&self) -> bool {
        let state = self.state.lock(self.rt);
        let interval = Duration::from_millis(INTERVAL);
        let (state, _) = self
            .over
            .wait_timeout_while(self.rt, state, interval, |state| !state.is_over);
        state.is_over
    }

    /// Prints the next line, if a node has started or ended since the one before. What erases that
    /// one could erase a line of the report, which comes when all nodes have ended. So then there is
    /// none, and the lock is held until the line is there: without it no node ends.
    fn tell_news(&self) {
        let mut state = self.state.lock(self.rt);
        if !state.is_new || (self.rewrites && !state.running.is_any()) {
            return;
        }
        state.is_new = false;
        if let Ok(line) = state.running.line(self.rt.alloc())
            && let Ok(line) = shown_text(self.rt.alloc(), line, self.for_terminal)
        {
            self.print(line.as_str(), state.is_told);
            state.is_told = true;
        }
    }

    /// Prints a line, in place of the one before if there is one that can be erased. The terminal is
    /// told not to break the line, since it would erase its last part alone.
    fn print(&self, line: &str, is_told: bool) {
        let _ = match (self.rewrites, is_told) {
            (false, _) => eprintln!(self.rt; "{line}"),
            (true, false) => eprintln!(self.rt; "\x1b[?7l{line}\x1b[?7h"),
            (true, true) => eprintln!(self.rt; "\x1b[A\r\x1b[K\x1b[?7l{line}\x1b[?7h"),
        };
    }
}

impl<R: Wait> RunListener for Progress<'_, R> {
    fn started(&self, node: usize, lane: usize) {
        let mut state = self.state.lock(self.rt);
        state.running.start(node, lane);
        state.is_new = true;
    }

    fn ended(&self, ran: &NodeResult, _nodes: usize) {
        let mut state = self.state.lock(self.rt);
        state.running.end(ran.node);
        state.is_new = true;
    }
}

/// The ids of these nodes. Takes memory.
fn ids_of(alloc: Global, nodes: &[PlanNode]) -> Result<Vec<String>, AllocError> {
    let mut ids = Vec::new(alloc);
    for node in nodes {
        let mut id = String::new(alloc);
        node.id.write_to(&mut id)?;
        ids.push(id)?;
    }
    Ok(ids)
}
