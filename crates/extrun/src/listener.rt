//! What a run says beside its report, by one listener of three parts.
ghost use Rattle.std.specs.Prelude.{◌≡◌, ◌<◌, ◌≤◌, false, All, Ok, length};
ghost use Rattle.std.specs.Io.KnownBytes.{Appends};
ghost use Rattle.ext_plan_reading.specs.Plans.{plan_view};
ghost use Rattle.ext_plan_reading.specs.ReadPlans.{IsReadPlan, ids_of_nodes};
ghost use Rattle.extrun.specs.Tasks.{IsPlanOutcome, IsRunOutcome};

use crate::color::is_dumb;
use crate::command::Asides;
use crate::durations::{Durations, tell_durations};
use crate::failing::{is_json, tell_failures};
use crate::page::{Course, locks_of};
use crate::progress::{Progress, run_beside};
use crate::report_files::ReportFiles;
use crate::times::TestTimes;
use ext_model::Fault;
use ext_page::Holders;
use ext_run::{
    Call, Failures, FaultOrigin, NodeResult, Options, Plan, PlanRun, RunFault, RunListener,
    Summary, run_plan,
};
use std::alloc::AllocError;
use std::io::Write;
use std::rt::{Env, Files};
use std::sync::Wait;
use std::thread::Threads;
use std::time::Clock;

/// Runs a plan by the contract of `ext_run::run_plan`, and writes its report to files, too. It says
/// beside it on standard error what is asked for: while it lasts how far it is, and at the end how
/// long its slowest tests took, unless the report is JSON, and then the faults of its nodes.
///
/// Refused like `run_plan`, and as `Memory` if memory for what is kept of the run is refused.
/// `reports` keeps whether a file was not written.
pub(crate) fn run_with_asides<'a, R, W: Write>(
    rt: &'a R,
    plan: &Plan,
    writer: &mut W,
    options: Options,
    asides: Asides,
    reports: &mut ReportFiles<'_>,
) -> Result<Summary, RunFault>
where
    R: Threads + Wait + Sync + Clock + Env + Files + AllocGlobal + Eprint,
    requires lanes { options.plain ≡ false → (1 ≤ options.lanes) × (options.lanes ≤ 16) }
    requires plan { IsReadPlan (plan_view plan.now) }
    ensures { IsRunOutcome options (Ok (plan_view plan.now)) result (Appends (W.contents writer.old) (W.contents writer.new)) }
{
    let listener = Listener::new(
        rt,
        plan,
        asides,
        reports.is_asked_for(),
        reports.is_page_asked_for(),
    )?;
    match run_heard(rt, plan, writer, options, &listener) {
        Ok(ran) => {
            listener.end(plan, ran.results.as_slice(), options, asides, reports);
            Ok(ran.summary)
        }
        Err(fault) => Err(fault),
    }
}

/// Runs a plan with this listener, and beside a thread that prints its progress if it has one.
fn run_heard<R, W: Write>(
    rt: &R,
    plan: &Plan,
    writer: &mut W,
    options: Options,
    listener: &Listener<'_, R>,
) -> Result<PlanRun, RunFault>
where
    R: Threads + Wait + Sync + Clock + AllocGlobal + Eprint,
    requires lanes { options.plain ≡ false → (1 ≤ options.lanes) × (options.lanes ≤ 16) }
    requires plan { IsReadPlan (plan_view plan.now) }
    ensures { IsPlanOutcome options (plan_view plan.now) result (Appends (W.contents writer.old) (W.contents writer.new)) }
{
    match &listener.progress {
        Some(progress) => run_beside(rt, plan, writer, options, listener, progress),
        None => run_plan(rt, rt.alloc(), writer, plan, options, listener),
    }
}

/// What is kept of a run for what is said beside it. Each part is there if it is asked for; times are
/// also kept for files.
#[derive(Drop)]
struct Listener<'a, R> {
    rt: &'a R,
    progress: Option<Progress<'a, R>>,
    durations: Option<Durations<'a, R>>,
    failures: Option<Failures<'a, R>>,
    /// The names of the plan's locks, if a page is asked for.
    locks: Vec<String>,
}

impl<'a, R: Wait + Clock + AllocGlobal + Eprint> Listener<'a, R> {
    /// The listener to a run of this plan that has not begun. Takes memory.
    fn new(
        rt: &'a R,
        plan: &Plan,
        asides: Asides,
        for_files: bool,
        for_page: bool,
    ) -> Result<Listener<'a, R>, AllocError>
    where
        R: Env,
    {
        let mut listener = Listener {
            rt,
            progress: None,
            durations: None,
            failures: None,
            locks: Vec::new(rt.alloc()),
        };
        if asides.progress {
            let progress = Progress::new(rt, plan, asides.for_terminal, !is_dumb(rt))?;
            listener.progress = Some(progress);
        }
        let mut holders = None;
        if for_page {
            let (names, nodes) = locks_of(rt.alloc(), plan)?;
            listener.locks = names;
            holders = Some(Holders::new(rt.alloc(), nodes));
        }
        if asides.durations || for_files {
            listener.durations = Some(Durations::new(rt, plan.nodes.len(), holders)?);
        }
        if asides.failures || for_page {
            listener.failures = Some(Failures::new(rt, rt.alloc()));
        }
        Ok(listener)
    }

    /// Does what is done at the end of a run of this plan that had these results.
    fn end(
        self,
        plan: &Plan,
        results: &[NodeResult],
        options: Options,
        asides: Asides,
        reports: &mut ReportFiles<'_>,
    )
    where
        R: Files,
        requires { All (λ r. r.node < length (ids_of_nodes (plan_view plan.now).nodes)) results.now }
    {
        let Listener {
            rt,
            durations,
            failures,
            locks,
            ..
        } = self;
        let (tree, for_terminal) = (plan.tree(), asides.for_terminal);
        let mut times = TestTimes::new(rt.alloc());
        if let Some(durations) = durations {
            let (extras, of_tests) = durations.into_parts();
            times = of_tests;
            let extras = extras.as_slice();
            reports.write(rt, tree, results, extras);
            if asides.durations && !is_json(options.form) {
                tell_durations(rt, tree, results, extras, for_terminal);
            }
        }
        if let Some(failures) = failures {
            let faults = failures.into_reported();
            if asides.failures {
                tell_failures(rt, plan, options.form, &faults, for_terminal);
            }
            let course = Course {
                lanes: if options.plain { 1 } else { options.lanes },
                locks,
                times,
                faults,
            };
            reports.write_page(rt, tree, results, course);
        }
    }
}

impl<R: Wait + Clock> RunListener for Listener<'_, R> {
    fn started(&self, node: usize, lane: usize) {
        if let Some(durations) = &self.durations {
            durations.started(node, lane);
        }
        if let Some(progress) = &self.progress {
            progress.started(node, lane);
        }
    }

    fn called(&self, node: usize, call: &Call) {
        if let Some(durations) = &self.durations {
            durations.called(node, call);
        }
    }

    fn faulted(&self, node: usize, origin: FaultOrigin, fault: &Fault) {
        if let Some(failures) = &self.failures {
            failures.faulted(node, origin, fault);
        }
    }

    fn ended(&self, ran: &NodeResult, nodes: usize) {
        if let Some(durations) = &self.durations {
            durations.ended(ran, nodes);
        }
        if let Some(progress) = &self.progress {
            progress.ended(ran, nodes);
        }
    }
}
