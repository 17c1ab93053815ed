//! How a plan is run, and the outcome of a request.
ghost use Rattle.std.specs.Prelude.{◌≡◌, false};

use ext_model::Size;
use ext_report::ReportForm;

/// How a plan is run.
#[derive(Clone, Copy, Debug, PartialEq, Eq)]
pub struct Options {
    /// How many lanes run the plan, each on at most one thread: 1 to 16. It has no effect on a
    /// plain run.
    pub lanes: usize,
    /// Whether the plan runs on one thread over the one-thread store.
    pub plain: bool,
    /// How its report is written.
    pub form: ReportForm,
    /// How large the plan may be: how many bytes, nodes and numbers it may have (`read_input`,
    /// `ext_plan_reading::read_plan_within`).
    pub size: Size,
}

/// The outcome of a request that was done: of a run whose report was written, or of another
/// request, in which no node fails.
#[derive(Clone, Copy, Debug, PartialEq, Eq)]
pub struct Summary {
    /// Whether a node failed, whether a test or a container. After `check_races`, whether there is
    /// a race or a limit is exceeded; after `check_lint`, whether there is a note.
    pub failed: bool,
    /// Whether a step may have lacked something. After a plain run this is memory alone. If it is
    /// false, no step lacked any, and the report is that of the only plain run that the plan has.
    /// If it is true, the report has a node that failed with `no memory`, or with further faults.
    /// After a run on several lanes it is what the results tell (`ext_plan_parallel::may_have_lacked`):
    /// true where a fault or an abort of a node, reported or only counted, tells of a lack. If it is
    /// false, no step and no close lacked anything. After a request that runs no step it is false.
    pub lacked: bool,
}

impl Summary {
    /// Makes the summary of a request that was done and runs no step.
    pub fn done() -> Summary
        ensures { result ≡ record { failed = false; lacked = false } }
    {
        Summary {
            failed: false,
            lacked: false,
        }
    }
}
