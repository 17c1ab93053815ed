//! Runs plans: from the bytes of a plan to the bytes of its report.
//!
//! `run` reads a plan, runs it and writes the report. It runs on several lanes over a store for
//! several threads (`ext_plan_parallel`), or on one thread over the one-thread store (`ext_plan_plain`). If a
//! plan is refused or a device fails, that is a `RunFault`. `specs/Reports.antt` defines what a run
//! answers to its input. `plan_of` and `run_plan` are its two halves, with a listener.
//!
//! `check` reads a plan without running it, `check_lint` notes its mistakes, and `draw` draws it.
//! `Failures` keeps the faults that a run reports, and `failures_text` repeats them. `read_input`,
//! `faults_of_plan`, `explain` and `explain_keys` serve callers that say why a plan was refused, or
//! a key had no place. `read_id` writes the lines of an id, `make_id` that of one made of parts, and
//! `status_of` is the exit status of a program for any of these requests. This crate also exports
//! the names of `ext_ids`, `ext_model`, `ext_plan_parallel`, `ext_plan_reading`, `ext_plan_plain`,
//! `ext_lifecycle` and `ext_report` that its callers need.
//!
//! JUnit has no plans.
#![tactic(auto)]

mod checks;
mod drawing;
mod failure_json;
mod failures;
mod fault;
mod id_lines;
mod input;
mod linting;
mod list_form;
mod options;
mod plan_faults;
mod reading;
mod request_fault;
mod results;
mod runs;

pub use checks::{check, check_races, explain_keys};
pub use drawing::draw;
pub use ext_ids::{IdFault, PartFault};
pub use ext_lifecycle::{Call, FaultOrigin, Kind, NoListener, NodeResult, RunListener, Status};
pub use ext_model::Size;
pub use ext_plan_parallel::EngineFault;
pub use ext_plan_plain::plain_run_laws;
pub use ext_plan_reading::{
    LabelNo, Plan, PlanFault, PlanKey, PlanLock, PlanNode, PlanPart, Step, explain, explain_id,
    read_plan_within,
};
pub use ext_report::ReportForm;
pub use ext_tree::Tree;
pub use failures::{Failures, NodeFault, ReportedFaults, failures_text, lost_line};
pub use fault::RunFault;
pub use id_lines::{id_text, make_id, read_id};
pub use input::{input_limit, read_input};
pub use linting::check_lint;
pub use list_form::ListForm;
pub use options::{Options, Summary};
pub use plan_faults::faults_of_plan;
pub use reading::plan_of;
pub use request_fault::{RequestFault, status_of};
pub use runs::{PlanRun, report_text, run, run_plan};
