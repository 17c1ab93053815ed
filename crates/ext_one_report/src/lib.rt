//! One report: a run of a plan on several lanes that lacks nothing reports of each node what the
//! plain run reports.
//!
//! `report_laws` proves it if
//!
//! - no node may change a place that a node running beside it touches, unless both have a factory
//!   there that fails with one text, or both find what a node above them has computed, or compute the
//!   same value there (`specs/OneReports` of `ext_races`), and then which node computed it and which
//!   found it may differ, but not the totals (`specs/Shares`),
//! - no two such nodes leave values in one context whose closes fail with different texts,
//! - and no call and no close wants memory, a number, a key or a value (`specs/FullRuns`). The
//!   results of a run tell that this is so (`shown_lack_laws`).
//!
//! `ext_run::run` promises it of what it writes.
//!
//! Under it stand two laws of any suite, with no plan: who makes the events that a lane sees while
//! a node runs (`alone_laws`, `specs/Alone`), and which of them are on the node's own cells
//! (`apart_laws`, `specs/Changing`).
//!
//! `specs/OneReport` has the two sentences, and `specs/WorkedPlans` small plans for which they hold
//! or fail (`worked_plans`). Everything else is proof.
//!
//! JUnit has no counterpart.
#![tactic(auto)]

mod alone;
mod report;
mod shown_lacks;
mod worked;

pub use alone::{alone_laws, apart_laws};
pub use report::report_laws;
pub use shown_lacks::shown_lack_laws;
pub use worked::worked_plans;
