//! A plan that is run, plans that are refused, and what other tests of whole runs need. Further
//! worked rows are files: examples/cases/rows has the plans with their reports, which the program is run
//! on (scripts/examples).
ghost use Rattle.std.specs.Prelude.{◌≡◌, ◌≤◌, false};

use crate::plain_runs::write_64_looks;
use crate::same::same;
use ext_run::{Options, ReportForm, RunFault, Size, Summary, run};
use std::alloc::{AllocError, Global};
use std::process::Abort;
use std::sync::Wait;
use std::test::Fail;
use std::thread::Threads;

/// As a plain run.
pub(crate) const PLAIN: Options = Options {
    lanes: 4,
    plain: true,
    form: ReportForm::Text,
    size: Size::Usual,
};

/// On one lane, over the store for several threads.
const ONE_LANE: Options = Options {
    lanes: 1,
    plain: false,
    form: ReportForm::Text,
    size: Size::Usual,
};

/// On four lanes, over the store for several threads.
pub(crate) const FOUR_LANES: Options = Options {
    lanes: 4,
    plain: false,
    form: ReportForm::Text,
    size: Size::Usual,
};

/// The contexts of the chain before its method, with one key.
const CHAIN_HEAD: &str =
    "[[key]]\nlabel = \"a\"\n\n[[node]]\nid = \"[engine:x]\"\n\n[[node]]\nid = \"[engine:x]/[class:A]\"\n\n[[node]]\nid = \"[engine:x]/[class:A]/[method:m()]\"\n";

/// The report of the chain whose method passes.
pub(crate) const CHAIN_PASSED: &str =
    "[engine:x] successful closed 0\n[engine:x]/[class:A] successful closed 0\n[engine:x]/[class:A]/[method:m()] successful closed 0\ntests 1 successful 1 aborted 0 failed 0 skipped 0\ncomputed 0 found 0 closed 0 close faults 0\n";

/// What a run of these bytes answers, and what it writes.
pub(crate) fn outcome<R: Threads + Wait + Sync>(
    rt: &R,
    alloc: Global,
    plan: &[u8],
    written: &mut Vec<u8>,
    options: Options,
) -> Result<Summary, RunFault>
    requires { options.plain ≡ false → (1 ≤ options.lanes) × (options.lanes ≤ 16) }
{
    let mut reader = plan;
    run(rt, alloc, &mut reader, written, options)
}

/// What became of a run of this plan, and the report.
fn report<R: Threads + Wait + Sync>(
    rt: &R,
    alloc: Global,
    plan: &str,
    options: Options,
) -> Result<(Summary, String), Fail>
    requires { options.plain ≡ false → (1 ≤ options.lanes) × (options.lanes ≤ 16) }
{
    let mut written = Vec::new(alloc);
    let summary = outcome(rt, alloc, plan.as_bytes(), &mut written, options)?;
    let text = std::str::from_utf8(written.as_slice()).map_err(|_| "the report is text")?;
    Ok((summary, String::from_str(alloc, text)?))
}

/// Asserts that the plan has this report, in which a node failed or none did, run so.
fn reports_run<R: Threads + Wait + Sync + Abort>(
    rt: &R,
    alloc: Global,
    plan: &str,
    options: Options,
    failed: bool,
    wanted: &str,
) -> Result<(), Fail>
    requires { options.plain ≡ false → (1 ≤ options.lanes) × (options.lanes ≤ 16) }
{
    let (summary, text) = report(rt, alloc, plan, options)?;
    // No step of these plans lacks anything, and their reports tell that.
    let lacked = false;
    same(rt, summary, Summary { failed, lacked }, "the summary");
    same(rt, text.as_str(), wanted, "the report");
    Ok(())
}

/// Asserts that the plan has this report, in which a node failed or none did: as a plain run, and
/// on one lane and four.
fn reports<R: Threads + Wait + Sync + Abort>(
    rt: &R,
    alloc: Global,
    plan: &str,
    failed: bool,
    wanted: &str,
) -> Result<(), Fail> {
    reports_run(rt, alloc, plan, PLAIN, failed, wanted)?;
    reports_run(rt, alloc, plan, ONE_LANE, failed, wanted)?;
    reports_run(rt, alloc, plan, FOUR_LANES, failed, wanted)
}

/// The chain whose method has these steps.
pub(crate) fn chain(alloc: Global, steps: &str) -> Result<String, Fail> {
    let text = format!(in alloc; "{CHAIN_HEAD}test = [{steps}]\n")?;
    Ok(text)
}

/// A method puts a value and wants it: a plain run and runs on one lane and four have the report of
/// a plan that passes.
/// Tests `run_plain`, `parallel_results`, `PlanSuite::new`, `may_have_lacked` and `run`.
#[test]
fn chain_put_and_want(rt: HostRuntime) -> Result<(), Fail> {
    let plan = chain(rt.alloc(), "\"put a x\", \"want a x\"")?;
    reports(&rt, rt.alloc(), plan.as_str(), false, CHAIN_PASSED)
}

/// As a plain run of a large plan.
const LARGE_PLAIN: Options = Options {
    lanes: 1,
    plain: true,
    form: ReportForm::Text,
    size: Size::Large,
};

/// On one lane, a large plan.
const LARGE_ON_ONE_LANE: Options = Options {
    lanes: 1,
    plain: false,
    form: ReportForm::Text,
    size: Size::Large,
};

/// The chain whose method puts so often.
fn chain_of_puts(alloc: Global, count: u32) -> Result<String, Fail> {
    let mut steps = String::new(alloc);
    for _ in 0..count {
        steps.push_str("\"put a x\",")?;
    }
    chain(alloc, steps.as_str())
}

/// A method puts 65,536 times, and as a large plan it passes in a plain run and on one lane.
/// Tests `run_plain` and `parallel_results`.
#[test]
fn large_plans_draw_more_numbers(rt: HostRuntime) -> Result<(), Fail> {
    let plan = chain_of_puts(rt.alloc(), 65_536)?;
    let text = plan.as_str();
    reports_run(&rt, rt.alloc(), text, LARGE_PLAIN, false, CHAIN_PASSED)?;
    reports_run(
        &rt,
        rt.alloc(),
        text,
        LARGE_ON_ONE_LANE,
        false,
        CHAIN_PASSED,
    )
}

/// An engine of whose two faults the second one is not reported.
const TWO_FAULTS: &str =
    "[[node]]\nid = \"[engine:x]\"\nbefore_all = [[\"fail f\"]]\nafter_all = [[\"fail g\"]]\n";

/// Two faults of one node that tell of no lack are no lack: so the plan's one report is promised of
/// its runs on lanes too. Tests `may_have_lacked`.
#[test]
fn further_faults_are_no_lack(rt: HostRuntime) -> Result<(), Fail> {
    let wanted =
        "[engine:x] failed closed 0: f (+1)\ntests 0 successful 0 aborted 0 failed 0 skipped 0\ncomputed 0 found 0 closed 0 close faults 0\n";
    reports(&rt, rt.alloc(), TWO_FAULTS, true, wanted)
}

/// An engine whose second fault, which is not reported, is that of a 65th key.
fn plan_of_a_lack_behind_a_fault(alloc: Global) -> Result<String, AllocError> {
    let mut text = String::new(alloc);
    text.push_str("[[node]]\nid = \"[engine:x]\"\nbefore_all = [[\"fail f\"]]\nafter_all = [[")?;
    write_64_looks(&mut text)?;
    text.push_str("\"none z\"]]\n")?;
    Ok(text)
}

/// A lack is told of a container whose report tells another fault. Tests `may_have_lacked`,
/// `Tally::add` and `Fault::tells_lack`.
#[test]
fn lack_behind_another_fault_is_told(rt: HostRuntime) -> Result<(), Fail> {
    let plan = plan_of_a_lack_behind_a_fault(rt.alloc())?;
    let (summary, text) = report(&rt, rt.alloc(), plan.as_str(), FOUR_LANES)?;
    same(&rt, summary.lacked, true, "whether a step lacked something");
    let told = text
        .as_str()
        .starts_with("[engine:x] failed closed 0: f (+1)\n");
    same(&rt, told, true, "the fault that is reported");
    Ok(())
}

/// Asserts that the plan has no report, but this line on standard error, and that nothing is
/// written.
fn refuses<R: Threads + Wait + Sync + Abort>(
    rt: &R,
    alloc: Global,
    plan: &[u8],
    wanted: &str,
) -> Result<(), Fail> {
    let mut written = Vec::new(alloc);
    let answer = outcome(rt, alloc, plan, &mut written, FOUR_LANES);
    let fault = answer.err().ok_or("a report")?;
    same(rt, fault.to_string(alloc)?.as_str(), wanted, "the line");
    same(rt, written.len(), 0, "what is written");
    Ok(())
}

/// An empty text, one that is no document, bytes that are no text and a bad step have their line
/// each, and nothing is written.
/// Tests `read_plan` and `run`.
#[test]
fn refused_plans(rt: HostRuntime) -> Result<(), Fail> {
    refuses(&rt, rt.alloc(), b"", "plan: P7")?;
    refuses(&rt, rt.alloc(), b"[[node", "plan: P2")?;
    refuses(&rt, rt.alloc(), b"\xff", "plan: P1")?;
    let one = b"[[node]]\nid = \"[engine:x]\"\ntest = [\"put a\"]\n";
    refuses(&rt, rt.alloc(), one, "plan: P8 node 0")
}
