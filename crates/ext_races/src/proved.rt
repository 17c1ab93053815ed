//! What is proved of the report of a plan without races.

/// What is proved of each run on several lanes of a plan without races, if it lacks nothing: by
/// `report_laws` of `ext_one_report`, and of what a run writes by the clause `one_report` of
/// `ext_run::run`.
#[derive(Clone, Copy, Debug)]
pub enum Proved {
    /// It reports what the plain run does.
    OneReport,
    /// It reports what the plain run does, but for which nodes computed a value and which found it.
    NearReport,
}
