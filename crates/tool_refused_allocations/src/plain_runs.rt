//! A plain run of a plan of three tests, which tells whether a step lacked memory.
use crate::outcome::Outcome;
use crate::runs::outcome_of;
use ext_run::{Options, PlanFault, ReportForm, RunFault, Size, run};
use std::alloc::Global;
use std::sync::Wait;
use std::thread::Threads;

/// Three tests with callbacks, steps of each kind that passes, keys with and without a label, and a
/// key in a namespace.
const PLAN: &str = "\
keep_faults = true
key = [{ label = \"a\" }, { label = \"b\", name = \"q\", namespace = [\"n\"] }]

[[node]]
id = \"[e:x]\"
before_all = [[\"compute! a one\"]]
after_each = [[\"none z\"]]

[[node]]
id = \"[e:x]/[m:1]\"
mode = \"concurrent\"
test = [\"put b y\", \"want b y\", \"remove b\", \"none b\"]

[[node]]
id = \"[e:x]/[m:2]\"
test = [\"put! free y\", \"computefail t t\", \"compute a two\"]

[[node]]
id = \"[e:x]/[m:3]\"
test = []
";

/// Its report.
const REPORT: &str = "\
[e:x] successful closed 1
[e:x]/[m:1] successful closed 0
[e:x]/[m:2] successful closed 1
[e:x]/[m:3] successful closed 0
tests 3 successful 3 aborted 0 failed 0 skipped 0
computed 1 found 1 closed 2 close faults 0
";

/// Makes a plain run of the plan, which writes a report or nothing.
pub(crate) fn runs_plainly<R: Threads + Wait + Sync>(rt: &R, alloc: Global) -> Outcome {
    let options = Options {
        lanes: 1,
        plain: true,
        form: ReportForm::Text,
        size: Size::Usual,
    };
    let mut written = [0u8; 1024];
    let mut reader = PLAN.as_bytes();
    let mut writer = &mut written[..];
    match run(rt, alloc, &mut reader, &mut writer, options) {
        Ok(summary) => told(outcome_of(&written, REPORT), summary.lacked),
        Err(RunFault::Plan(PlanFault::Memory) | RunFault::Memory) if written == [0u8; 1024] =>
            Outcome::NoMemory,
        Err(_) => Outcome::Wrong("a plain run is refused, and not for want of memory"),
    }
}

/// The same of a run of which it is told whether a step lacked memory: just that with a report that
/// says so.
fn told(outcome: Outcome, lacked: bool) -> Outcome {
    match (outcome, lacked) {
        (Outcome::Whole, true) => Outcome::Wrong("a step lacked memory, and the report is whole"),
        (Outcome::NoMemoryTold, false) => Outcome::Wrong("a step lacked memory, which is not told"),
        _ => outcome,
    }
}
