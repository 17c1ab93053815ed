//! A run from the bytes of a plan to those of its report.
ghost use Rattle.std.specs.Prelude.{◌≡◌, ◌≢◌, ◌≤◌, ◌<◌, ◌+◌, ℕ, false, List, Ok, length, string_bytes, IfOk, IfErr, IfSome, OnOk, All};
ghost use Rattle.std.specs.Io.KnownBytes.{Consumes, Appends};
ghost use Rattle.ext_plan_reading.specs.Plans.{plan_view};
ghost use Rattle.ext_plan_reading.specs.ReadPlans.{IsReadPlan, ids_of_nodes};
ghost use Rattle.ext_lifecycle.specs.FaultTexts.{results_view};
ghost use Rattle.ext_report.specs.Report.{report_of};
ghost use Rattle.ext_run.specs.OneReports.{ReportsOne};
ghost use Rattle.ext_run.specs.Reports.{input_limit, plan_of_input, IsReportBy, IsRunFault, RefusedAs, Reports};
ghost use Rattle.ext_run.specs.InnerOutputs.{IsPlanFault, output_view};

use crate::fault::RunFault;
use crate::input::read_input;
use crate::options::{Options, Summary};
use crate::reading::plan_of;
use crate::results::results_of;
use ext_lifecycle::{NoListener, NodeResult, RunListener};
use ext_plan_reading::Plan;
use ext_report::{any_failed, report_in};
use ext_tree::Tree;
use std::alloc::Global;
use std::io::{Read, Write};
use std::sync::Wait;
use std::thread::Threads;

/// What a run of a plan gave.
#[derive(Drop)]
pub struct PlanRun {
    /// A result for each node, in the order of the plan.
    pub results: Vec<NodeResult>,
    pub summary: Summary,
}

/// Results with their report, whether a node failed, and whether a step may have lacked something.
#[derive(Drop)]
struct Output {
    results: Vec<NodeResult>,
    report: Vec<u8>,
    failed: bool,
    lacked: bool,
}

/// Reads a plan, runs it, and writes the report of the run in the form that `options` asks for.
/// Nothing else is written.
///
/// With `plain` the plan runs on this thread over the one-thread store. This is its plain run,
/// which has one report if memory suffices. Otherwise it runs on `lanes` lanes (1 to 16), each on
/// at most one thread, over a store for several threads (`ext_plan_parallel::parallel_results`). In
/// either run a step for which memory is refused fails with `no memory`, and a step that names a
/// key after `key_places` others of the plan with `directory full`. `Summary::lacked` tells whether
/// there was a step of a plain run for which memory was refused, or whether a step of a run on
/// several lanes may have lacked anything. If there was none, the report of a plain run is that of
/// the only plain run that the plan has.
///
/// If a plan has one report, as `check_races` tells, and `Summary::lacked` is false, what is written
/// is the report of its plain run, byte by byte; but where nodes beside one another compute the same
/// value, the report in JSON may tell otherwise which of them computed it and which found it.
///
/// It reads the input to its end, like `read_input`, and the first read that fails ends the run.
/// The report is complete before its first byte is written, and at last the writer is flushed.
///
/// Refused, with nothing written:
/// - `Read` if a read failed.
/// - `TooLong` if the input has more bytes than a plan of this size may have.
/// - `Plan` if the plan is refused: with `NotUtf8`, or else with the fault of `read_plan_within`,
///   which may be `Memory`.
/// - `Engine` if the run on several lanes was refused: with `Memory`, or with `Unjoined` if a
///   context could not be closed, for which no plan is known.
/// - `Memory` if memory was refused for the input, for a plain run outside its steps, or for the
///   report.
///
/// `Write` if a write or the flush failed, or a write took no byte. It does not tell how much was
/// written.
///
/// Takes memory for the input, the plan, the values, the results and the report, and gives all of
/// it back. It waits for the reader and the writer, and on several lanes for its threads and for
/// their steps.
#[tactic(auto, unfolding(crate::specs::Reports::plan_of_input))]
pub fn run<R: Threads + Wait + Sync, I: Read, W: Write>(
    rt: &R,
    alloc: Global,
    reader: &mut I,
    writer: &mut W,
    options: Options,
) -> Result<Summary, RunFault>
    requires lanes { options.plain ≡ false → (1 ≤ options.lanes) × (options.lanes ≤ 16) }
    ensures written { IfOk result (λ summary. IfSome (I.remaining reader.old) (λ input. (report : List ℕ)
        × Reports options (plan_of_input options.size input) (record { report = report; failed = summary.failed; lacked = summary.lacked })
        × Appends (W.contents writer.old) (W.contents writer.new) report)) }
    ensures one_report { IfOk result (λ summary. IfSome (I.remaining reader.old) (λ input. (report : List ℕ)
        × ReportsOne options (plan_of_input options.size input) (record { report = report; failed = summary.failed; lacked = summary.lacked })
        × Appends (W.contents writer.old) (W.contents writer.new) report)) }
    ensures refused { IfErr result (λ fault. IfSome (I.remaining reader.old)
        (λ input. RefusedAs options fault (plan_of_input options.size input))) }
    ensures unwritten { IfErr result (λ fault. fault ≢ RunFault.Write → writer.new ≡ writer.old) }
    ensures taken { (bytes : List ℕ) × (length bytes ≤ input_limit options.size + 1)
        × Consumes (I.remaining reader.old) (I.remaining reader.new) bytes }
{
    let input = read_input(alloc, reader, options.size)?;
    let plan = match plan_of(alloc, input.as_slice(), options.size) {
        Ok(plan) => plan,
        Err(fault) => return Err(RunFault::Plan(fault)),
    };
    match run_plan(rt, alloc, writer, &plan, options, &NoListener) {
        Ok(ran) => Ok(ran.summary),
        Err(fault) => Err(fault),
    }
}

/// Runs a plan that was read, writes its report like `run`, and hands back the results that it is
/// of. It notifies the listener when a node starts, of its calls and faults, and when it has ended.
///
/// The listener is called on the threads that run the nodes, and has no effect on what is written.
///
/// Refused as `Engine` or `Memory`, with nothing written, or as `Write`, as by `run`. Takes memory for
/// the values, the results and the report, and gives all but the results back. It waits for the
/// writer, and on several lanes for its threads and for their steps.
pub fn run_plan<R: Threads + Wait + Sync, W: Write, L: RunListener + Sync>(
    rt: &R,
    alloc: Global,
    writer: &mut W,
    plan: &Plan,
    options: Options,
    listener: &L,
) -> Result<PlanRun, RunFault>
    requires lanes { options.plain ≡ false → (1 ≤ options.lanes) × (options.lanes ≤ 16) }
    requires plan { IsReadPlan (plan_view plan.now) }
    ensures written { IfOk result (λ ran. (report : List ℕ)
        × Reports options (Ok (plan_view plan.now)) (record { report = report; failed = ran.summary.failed; lacked = ran.summary.lacked })
        × Appends (W.contents writer.old) (W.contents writer.new) report) }
    ensures one_report { IfOk result (λ ran. (report : List ℕ)
        × ReportsOne options (Ok (plan_view plan.now)) (record { report = report; failed = ran.summary.failed; lacked = ran.summary.lacked })
        × Appends (W.contents writer.old) (W.contents writer.new) report) }
    ensures results { IfOk result (λ ran. (report : List ℕ)
        × IsReportBy options (plan_view plan.now) (results_view ran.results.items) (record { report = report; failed = ran.summary.failed; lacked = ran.summary.lacked })
        × Appends (W.contents writer.old) (W.contents writer.new) report) }
    ensures in_tree { IfOk result (λ ran. All (λ r. r.node < length (ids_of_nodes (plan_view plan.now).nodes)) ran.results.items) }
    ensures refused { IfErr result (λ fault. RefusedAs options fault (Ok (plan_view plan.now))) }
    ensures of_run { IfErr result IsRunFault }
    ensures unwritten { IfErr result (λ fault. fault ≢ RunFault.Write → writer.new ≡ writer.old) }
{
    let output = output_of(rt, alloc, plan, options, listener)?;
    write_whole(writer, output.report.as_slice())?;
    let summary = Summary {
        failed: output.failed,
        lacked: output.lacked,
    };
    Ok(PlanRun {
        results: output.results,
        summary,
    })
}

/// Returns the report of results as text, like `ext_report::report_text`. Each result is of a
/// context of the tree.
///
/// Takes memory for the text, and is refused only as `Memory`.
pub fn report_text(alloc: Global, tree: &Tree, results: &[NodeResult]) -> Result<String, RunFault>
    requires in_tree { All (λ r. r.node < length tree.now) results.now }
    ensures text { IfOk result (λ text. string_bytes text ≡ report_of tree.now (results_view results.now)) }
    ensures memory { IfErr result (λ fault. fault ≡ RunFault.Memory) }
{
    Ok(ext_report::report_text(alloc, tree, results)?)
}

/// Writes all of the bytes, and flushes the writer.
pub(crate) fn write_whole<W: Write>(writer: &mut W, bytes: &[u8]) -> Result<(), RunFault>
    ensures written { OnOk result (Appends (W.contents writer.old) (W.contents writer.new) bytes.now) }
    ensures fault { IfErr result (λ e. e ≡ RunFault.Write) }
{
    if writer.write_all(bytes).is_err() || writer.flush().is_err() {
        return Err(RunFault::Write);
    }
    Ok(())
}

/// The results of a run of a plan, with their report.
fn output_of<R: Threads + Wait + Sync, L: RunListener + Sync>(
    rt: &R,
    alloc: Global,
    plan: &Plan,
    options: Options,
    listener: &L,
) -> Result<Output, RunFault>
    requires lanes { options.plain ≡ false → (1 ≤ options.lanes) × (options.lanes ≤ 16) }
    requires plan { IsReadPlan (plan_view plan.now) }
    ensures run { IfOk result (λ o. Reports options (Ok (plan_view plan.now)) (output_view o)) }
    ensures one { IfOk result (λ o. ReportsOne options (Ok (plan_view plan.now)) (output_view o)) }
    ensures results { IfOk result (λ o. IsReportBy options (plan_view plan.now) (results_view o.results.items) (output_view o)) }
    ensures in_tree { IfOk result (λ o. All (λ r. r.node < length (ids_of_nodes (plan_view plan.now).nodes)) o.results.items) }
    ensures fault { IfErr result (IsPlanFault options (plan_view plan.now)) }
{
    let ran = match results_of(rt, alloc, plan, options, listener) {
        Ok(ran) => ran,
        Err(fault) => return Err(fault),
    };
    let report = report_in(alloc, options.form, plan.tree(), ran.results.as_slice())?;
    let failed = any_failed(ran.results.as_slice());
    Ok(Output {
        results: ran.results,
        report,
        failed,
        lacked: ran.lacked,
    })
}
