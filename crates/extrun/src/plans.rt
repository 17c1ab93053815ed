//! Running, checking or drawing a plan, with its fault explained or not.
ghost use Rattle.std.specs.Prelude.{◌≡◌, ◌≤◌, false, Ok, IfErr, IfOk, IfSome};
ghost use Rattle.std.specs.Io.KnownBytes.{Appends};
ghost use Rattle.ext_plan_reading.specs.Plans.{plan_view};
ghost use Rattle.ext_plan_reading.specs.ReadPlans.{IsReadPlan};
ghost use Rattle.ext_run.specs.Checks.{RefusedUnrun};
ghost use Rattle.ext_run.specs.Reports.{plan_of_input};
ghost use Rattle.extrun.specs.Tasks.{AppendsFor, IsDone, IsOneDone, IsRequestDone, IsRunOutcome, IsUndone, IsUndoneRequest, IsUnreadRequest, is_for_people, request_outcome};

use crate::command::{Asides, Task};
use crate::failing::is_json;
use crate::listener::run_with_asides;
use crate::refusing::{explain_fault, tell_faults};
use crate::report_files::ReportFiles;
use crate::telling::tell;
use crate::times::seconds;
use crate::unread::{Source, explain_cause, explain_undone, explain_unread};
use ext_run::{
    Options, Plan, ReportForm, RequestFault, RunFault, Size, Summary, check, check_lint,
    check_races, draw, explain_keys, input_limit, plan_of, read_input,
};
use std::alloc::Global;
use std::fs;
use std::io::{Input, Read, Write};
use std::rt::{Env, Files};
use std::sync::Wait;
use std::thread::Threads;
use std::time::{Clock, Instant};

/// Reads the whole plan from this file, or from standard input if there is none, and then does the
/// task. Prints why if it was not done, unless standard output did not take the report. `reports`
/// keeps whether the report of a run was not written to a file.
pub(crate) fn outcome_of_source<R, W>(
    rt: &R,
    writer: &mut W,
    task: Task,
    file: Option<&str>,
    reports: &mut ReportFiles<'_>,
    explained: bool,
) -> Result<Summary, RequestFault>
where
    R: Threads + Wait + Sync + Clock + Env + Files + AllocGlobal + Input + Eprint,
    W: Write,
    ensures { IsRequestDone task result (AppendsFor task (W.contents writer.old) (W.contents writer.new)) }
{
    let input = match file {
        Some(name) => input_of_file(rt, name, task.size(), explained),
        None => {
            let source = Source::StandardInput;
            input_of(rt, &mut rt.reader(), source, task.size(), explained)
        }
    };
    match input {
        Err(fault) => Err(fault),
        Ok(input) => outcome_of_plan(rt, input.as_slice(), writer, task, reports, explained),
    }
}

/// The bytes of the file with this name, of a plan of this size. Prints why if they cannot be read.
fn input_of_file<R: Files + AllocGlobal + Eprint>(
    rt: &R,
    name: &str,
    size: Size,
    explained: bool,
) -> Result<Vec<u8>, RequestFault>
    ensures { IfErr result IsUnreadRequest }
{
    let source = Source::File(name);
    match fs::open(rt, name) {
        Ok(mut file) => input_of(rt, &mut file, source, size, explained),
        Err(cause) => {
            let _ = eprintln!(rt; "read failed: {name:?} can't be opened");
            if explained {
                explain_cause(rt, source, cause);
            }
            Err(RequestFault::Run(RunFault::Read))
        }
    }
}

/// All bytes of this reader, of a plan of this size. Prints why if they cannot be read.
fn input_of<R: AllocGlobal + Eprint, I: Read>(
    rt: &R,
    reader: &mut I,
    source: Source<'_>,
    size: Size,
    explained: bool,
) -> Result<Vec<u8>, RequestFault>
    ensures whole { IfOk result (λ bytes. IfSome (I.remaining reader.old) (λ input. bytes.items ≡ input)) }
    ensures unread { IfErr result IsUnreadRequest }
{
    let input = read_input(rt.alloc(), reader, size);
    let fault = input.as_ref().err().copied();
    let input = printed(rt, input);
    if explained && let Some(fault) = fault {
        explain_unread(rt, reader, source, size, fault);
    }
    input
}

/// Does the task with the plan in these bytes. Prints why if it was not done.
fn outcome_of_plan<R, W>(
    rt: &R,
    input: &[u8],
    writer: &mut W,
    task: Task,
    reports: &mut ReportFiles<'_>,
    explained: bool,
) -> Result<Summary, RequestFault>
where
    R: Threads + Wait + Sync + Clock + Env + Files + AllocGlobal + Eprint,
    W: Write,
    ensures done { IfOk result (λ summary. IsDone task input.now summary (AppendsFor task (W.contents writer.old) (W.contents writer.new))) }
    ensures one_report { IfOk result (λ summary. IsOneDone task input.now summary (AppendsFor task (W.contents writer.old) (W.contents writer.new))) }
    ensures refused { IfErr result (λ fault. IsUndoneRequest task input.now fault) }
{
    let begun = Instant::now(rt).ok();
    let done = outcome_of_task(rt, input, writer, task, reports, explained);
    write_time(rt, writer, task, &done, begun);
    printed_done(rt, input, task, done, explained)
}

/// The outcome of a task with the plan in these bytes. Prints why if it was not done.
fn printed_done<R: AllocGlobal + Eprint>(
    rt: &R,
    input: &[u8],
    task: Task,
    done: Result<Summary, RunFault>,
    explained: bool,
) -> Result<Summary, RequestFault>
    ensures { result ≡ request_outcome done }
{
    if let Task::CheckAll(size) = task
        && let Err(RunFault::Plan(fault)) = done
    {
        tell_faults(rt, input, size, fault, explained);
        return Err(RequestFault::Run(RunFault::Plan(fault)));
    }
    let outcome = printed(rt, done);
    if explained {
        explain_outcome(rt, input, task.size(), outcome);
    }
    outcome
}

/// Tests whether this is a run that says how far it is.
pub(crate) fn tells_progress(task: Task) -> bool {
    match task {
        Task::Run { asides, .. } => asides.progress,
        _ => false,
    }
}

/// Tests whether this is a run whose report is for people at a terminal.
pub(crate) fn is_for_people(task: Task) -> bool
    ensures { result ≡ is_for_people task }
{
    match task {
        Task::Run { options, .. } => matches!(options.form, ReportForm::Terminal { .. }),
        _ => false,
    }
}

/// Writes the time since a run began behind its report, if it has one and that is for people.
fn write_time<R: Clock + AllocGlobal, W: Write>(
    rt: &R,
    writer: &mut W,
    task: Task,
    done: &Result<Summary, RunFault>,
    begun: Option<Instant>,
)
    ensures { is_for_people task ≡ false → writer.new ≡ writer.old }
{
    if done.is_ok()
        && is_for_people(task)
        && let Some(begun) = begun
        && let Ok(took) = begun.elapsed(rt)
        && let Ok(time) = seconds(rt.alloc(), took)
    {
        let _ = writeln!(writer, "ran in {}", time.as_str());
    }
}

/// Prints why a task was not done.
fn explain_outcome<R: AllocGlobal + Eprint>(
    rt: &R,
    input: &[u8],
    size: Size,
    outcome: Result<Summary, RequestFault>,
) {
    match outcome {
        Err(RequestFault::Run(RunFault::Plan(fault))) => explain_fault(rt, input, size, fault),
        Err(RequestFault::Run(fault)) => explain_undone(rt, fault),
        _ => {}
    }
}

/// The outcome, whose fault is printed on standard error.
fn printed<T: Drop>(rt: &impl Eprint, outcome: Result<T, RunFault>) -> Result<T, RequestFault>
    ensures { result ≡ request_outcome outcome }
{
    match outcome {
        Ok(done) => Ok(done),
        Err(fault) => {
            tell(rt, RequestFault::Run(fault));
            Err(RequestFault::Run(fault))
        }
    }
}

/// Does the task with the plan in these bytes. Prints why keys of a run that failed have no place,
/// if that is to be explained.
fn outcome_of_task<R, W: Write>(
    rt: &R,
    input: &[u8],
    writer: &mut W,
    task: Task,
    reports: &mut ReportFiles<'_>,
    explained: bool,
) -> Result<Summary, RunFault>
where
    R: Threads + Wait + Sync + Clock + Env + Files + AllocGlobal + Eprint,
    ensures done { IfOk result (λ summary. IsDone task input.now summary (Appends (W.contents writer.old) (W.contents writer.new))) }
    ensures one_report { IfOk result (λ summary. IsOneDone task input.now summary (Appends (W.contents writer.old) (W.contents writer.new))) }
    ensures refused { IfErr result (λ fault. IsUndone task input.now fault) }
{
    let mut reader = input;
    match task {
        Task::Run {
            options,
            asides,
            ..
        } => run_input(
            rt,
            input,
            writer,
            in_range(options),
            asides,
            reports,
            explained,
        ),
        Task::Check(size) | Task::CheckAll(size) => {
            check(rt.alloc(), &mut reader, writer, size)?;
            Ok(Summary::done())
        }
        Task::Draw(size) => {
            draw(rt.alloc(), &mut reader, writer, size)?;
            Ok(Summary::done())
        }
        Task::CheckRaces { size, form } => {
            check_races(rt.alloc(), &mut reader, writer, size, form)
        }
        Task::Lint { size, form } => check_lint(rt.alloc(), &mut reader, writer, size, form),
    }
}

/// The options with 1 to 16 lanes. The command line is refused for other counts, but no contract of
/// its parser says so.
fn in_range(options: Options) -> Options
    ensures some { 1 ≤ result.lanes }
    ensures few { result.lanes ≤ 16 }
    ensures same { 1 ≤ options.lanes → options.lanes ≤ 16 → result ≡ options }
{
    Options {
        lanes: options.lanes.clamp(1, 16),
        plain: options.plain,
        form: options.form,
        size: options.size,
    }
}

/// Runs the plan in these bytes, and says beside it what is asked for. If the run failed and that is
/// to be explained, prints why keys have no place, unless the report is JSON.
fn run_input<R, W: Write>(
    rt: &R,
    input: &[u8],
    writer: &mut W,
    options: Options,
    asides: Asides,
    reports: &mut ReportFiles<'_>,
    explained: bool,
) -> Result<Summary, RunFault>
where
    R: Threads + Wait + Sync + Clock + Env + Files + AllocGlobal + Eprint,
    requires lanes { options.plain ≡ false → (1 ≤ options.lanes) × (options.lanes ≤ 16) }
    ensures { IsRunOutcome options (plan_of_input options.size input.now) result (Appends (W.contents writer.old) (W.contents writer.new)) }
{
    let plan = match plan_of_input(rt.alloc(), input, options.size) {
        Ok(plan) => plan,
        Err(fault) => return Err(fault),
    };
    let outcome = run_with_asides(rt, &plan, writer, options, asides, reports);
    if explained
        && !is_json(options.form)
        && let Ok(summary) = outcome
        && summary.failed
    {
        explain_full_keys(rt, &plan);
    }
    outcome
}

/// Prints why keys of this plan have no place, if steps name more than there are places.
fn explain_full_keys(rt: &(impl AllocGlobal + Eprint), plan: &Plan)
    requires plan { IsReadPlan (plan_view plan.now) }
{
    if let Ok(Some(line)) = explain_keys(rt.alloc(), plan) {
        let _ = eprintln!(rt; "{}", line.as_str());
    }
}

/// The plan in these bytes, which may be as large as this. Takes memory.
fn plan_of_input(alloc: Global, input: &[u8], size: Size) -> Result<Plan, RunFault>
    ensures read { IfOk result (λ plan. plan_of_input size input.now ≡ Ok (plan_view plan)) }
    ensures plan { IfOk result (λ plan. IsReadPlan (plan_view plan)) }
    ensures refused { IfErr result (λ fault. RefusedUnrun fault (plan_of_input size input.now)) }
{
    if input.len() > input_limit(size) {
        return Err(RunFault::TooLong);
    }
    match plan_of(alloc, input, size) {
        Ok(plan) => Ok(plan),
        Err(fault) => Err(RunFault::Plan(fault)),
    }
}
