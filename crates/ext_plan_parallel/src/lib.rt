//! Runs plans on several lanes: over a store for several threads and resource locks, by the engine.
//!
//! `parallel_results` opens a store with the contexts of a plan and locks with its names, runs the
//! tree of its nodes over them, and returns one result for each node. `specs/ParallelRun` defines
//! such a run in terms of `ext_engine`, and `specs/Finding` what its steps find. `may_have_lacked`
//! tells from the results whether a step may have lacked something (`specs/Lacking`).
//!
//! `PlanSuite` presents the nodes of a plan to the engine: a call of a node makes the plan's steps
//! on a lane of the store (module `steps`). `PlanAction` closes the values of a context.
//! `specs/PlanSuites` says what the nodes are and what a call does, `specs/PlanActions` what a
//! close does, and `specs/StoreSteps` what a sequence of steps does.
#![tactic(auto)]

mod contexts;
mod lacks;
mod laws;
mod meeting;
mod opening;
mod parallel;
mod plan_action;
mod plan_suite;
mod steps;

pub use ext_engine::EngineFault;
pub use lacks::may_have_lacked;
pub use laws::parallel_laws;
pub use parallel::parallel_results;
pub use plan_action::PlanAction;
pub use plan_suite::PlanSuite;
pub use steps::StoredValue;
