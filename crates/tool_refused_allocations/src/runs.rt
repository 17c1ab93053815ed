//! Runs of plans: of four tests with locks on four lanes, and of a chain on one.
ghost use Rattle.std.specs.Prelude.{◌≤◌};

use crate::outcome::Outcome;
use ext_engine::EngineFault;
use ext_run::{NoListener, Options, PlanFault, ReportForm, RunFault, Size, plan_of, run_plan};
use std::alloc::Global;
use std::sync::Wait;
use std::thread::Threads;

/// Four tests that run beside each other where their locks let them, of which two store values, and
/// one of these keeps the fault of a factory.
const PLAN: &str = "\
keep_faults = true
key = [{ label = \"a\" }, { label = \"b\" }]
node = [
  { id = \"[e:x]\" },
  { id = \"[e:x]/[m:1]\", mode = \"concurrent\", locks = [\"READ_WRITE r\"], test = [\"compute! a x\"] },
  { id = \"[e:x]/[m:2]\", mode = \"concurrent\", locks = [\"READ_WRITE r\"], test = [\"put a y\", \"computefail b t\"] },
  { id = \"[e:x]/[m:3]\", mode = \"concurrent\", locks = [\"READ r\"], test = [] },
  { id = \"[e:x]/[m:4]\", mode = \"concurrent\", locks = [\"READ r\"], test = [] },
]
";

/// Its report.
const REPORT: &str = "\
[e:x] successful closed 0
[e:x]/[m:1] successful closed 1
[e:x]/[m:2] successful closed 0
[e:x]/[m:3] successful closed 0
[e:x]/[m:4] successful closed 0
tests 4 successful 4 aborted 0 failed 0 skipped 0
computed 1 found 0 closed 1 close faults 0
";

/// The plan of a chain of three contexts, whose method stores a value and finds it.
const CHAIN: &str = "\
key = [{ label = \"a\" }]
node = [
  { id = \"[engine:x]\" },
  { id = \"[engine:x]/[class:A]\" },
  { id = \"[engine:x]/[class:A]/[method:m()]\", test = [\"put a x\", \"want a x\"] },
]
";

/// Its report.
const CHAIN_REPORT: &str = "\
[engine:x] successful closed 0
[engine:x]/[class:A] successful closed 0
[engine:x]/[class:A]/[method:m()] successful closed 0
tests 1 successful 1 aborted 0 failed 0 skipped 0
computed 0 found 0 closed 0 close faults 0
";

/// Runs the plan of four tests on four lanes, which writes a report or nothing.
pub(crate) fn runs<R: Threads + Wait + Sync>(rt: &R, alloc: Global) -> Outcome {
    runs_on(rt, alloc, PLAN, REPORT, 4)
}

/// Runs the plan of the chain on one lane, which writes a report or nothing.
pub(crate) fn runs_chain<R: Threads + Wait + Sync>(rt: &R, alloc: Global) -> Outcome {
    runs_on(rt, alloc, CHAIN, CHAIN_REPORT, 1)
}

/// Runs the plan of this report on so many lanes, which writes a report or nothing.
fn runs_on<R: Threads + Wait + Sync>(
    rt: &R,
    alloc: Global,
    plan: &str,
    report: &str,
    lanes: usize,
) -> Outcome
    requires some { 1 ≤ lanes }
    requires few { lanes ≤ 16 }
{
    let options = Options {
        lanes,
        plain: false,
        form: ReportForm::Text,
        size: Size::Usual,
    };
    let plan = match plan_of(alloc, plan.as_bytes(), options.size) {
        Ok(plan) => plan,
        Err(PlanFault::Memory) => return Outcome::NoMemory,
        Err(_) => return Outcome::Wrong("a plan is refused, and not for want of memory"),
    };
    let mut written = [0u8; 1024];
    let mut writer = &mut written[..];
    match run_plan(rt, alloc, &mut writer, &plan, options, &NoListener) {
        Ok(_) => outcome_of(&written, report),
        Err(RunFault::Engine(EngineFault::Memory) | RunFault::Memory) if written == [0u8; 1024] => {
            Outcome::NoMemory
        }
        Err(_) => Outcome::Wrong(
            "a run is refused, and not for want of memory with nothing written",
        ),
    }
}

/// What became of a run that wrote this, with zeros behind it, of a plan of this report.
pub(crate) fn outcome_of(written: &[u8], wanted: &str) -> Outcome {
    let Ok(text) = std::str::from_utf8(written) else {
        return Outcome::Wrong("a report is no text");
    };
    let report = text.trim_end_matches('\0');
    if report == wanted {
        return Outcome::Whole;
    }
    if report.contains(": no memory") {
        return Outcome::NoMemoryTold;
    }
    Outcome::Wrong("a report is another one")
}
