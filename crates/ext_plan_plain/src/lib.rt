//! The plain run of a plan: on one thread, over the one-thread store.
//!
//! `run_plain` visits the tree from its root. It runs a node's before-callbacks, its body and its
//! after-callbacks, and then closes the node's context. Each call consists of the steps that the
//! plan has for it, which run in the context of the node. A key gets its number when a step first
//! names it. A step that lacks memory fails with `no memory`, and the run goes on; the definitions
//! take as given which steps lack memory.
//!
//! In `specs/`, `StepRuns` defines what steps do, `NodeCalls` which calls a node has, `ContextEnds`
//! how its context is closed, and `PlainRun` the run of a plan. `PlainRunLaws` and `Ancestors` say
//! what is true of every plain run, which `plain_run_laws` proves.
#![tactic(auto)]

mod callers;
mod closing;
mod computes;
mod found;
mod keyed;
mod lack;
mod laws;
mod place_store;
mod plain;
mod reasons;
mod said;
mod setting;
mod skipped;
mod steps;
mod value_store;

pub use laws::plain_run_laws;
pub use plain::{PlainRun, run_plain};
