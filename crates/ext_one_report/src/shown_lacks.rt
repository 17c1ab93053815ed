//! The results of a run on several lanes tell what it lacked.
ghost use Rattle.ext_one_report.specs.ShownLacks.{OneReportWithoutLack, TellsLacks};

/// Proves that a run on several lanes lacks nothing if its results tell of no lack
/// (`ext_plan_parallel::may_have_lacked`).
///
/// So where its plan has one report, such a run reports of each node what the plain run does.
pub fn shown_lack_laws()
    ensures lacks { TellsLacks }
    ensures one_report { OneReportWithoutLack }
{}
