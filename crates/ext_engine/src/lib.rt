//! Runs trees of tests: the calls of each node, its children by several workers, its locks, and the
//! close of its context.
//!
//! A `Suite` says what the nodes are and what their calls do. `run_tree` runs them over a store, on
//! several lanes, and gives one result a node. Where only the tests are called, a `LeafSuite` says
//! less, and `run_leaves` opens what its run goes over. `ext_lifecycle` decides which calls of a
//! node are made and what they come to, and `ext_crew` what a gate is told. The names of both stand
//! here too, and so do the definitions of lower crates that an engine's clauses cite
//! (specs/Lib.antt).
//!
//! `specs/Suites` says what a suite says of its nodes and which locks a test takes, and
//! `specs/Taking` how they are taken (modules `suite` and `locks`); `specs/LeafSuites` and
//! `specs/LeafRuns` say the same of leaves. `specs/NodeRun` and `specs/InnerContainers` say what is
//! done for one node alone (module `node`), `specs/TreeRun` what a run of a tree is, and
//! `specs/Order` what comes before what in it. An own rule, for JUnit 5 User Guide, sections
//! "Parallel Execution", "Synchronization" and "Keeping State in Extensions".
//!
//! What memory a method of `Suite` takes, and for whom it waits, is its own matter.
#![tactic(auto)]

mod laws;
mod leaf_run;
mod leaf_suite;
mod leaves;
mod locks;
mod meeting;
mod node;
mod opening;
mod runner;
mod suite;
mod taken;
mod tree_run;

pub use ext_crew::{Gate, OpenGate};
pub use ext_lifecycle::{
    Call, Callbacks, Caller, Kind, Mode, NodeResult, Outcome, Status, Tally, Verdict, run_afters,
    run_befores, run_body,
};
pub use laws::{engine_laws, order_laws};
pub use leaf_run::{LeafFault, LeafRun, run_leaves};
pub use leaf_suite::{LeafSuite, outcome_with};
pub use leaves::{is_leaf, leaf_laws};
pub(crate) use locks::{give_locks, take_locks, test_set};
pub use node::EngineFault;
pub use opening::{OpenFault, Opened, open_run, read_ids};
pub use suite::Suite;
pub use taken::{take_closer, take_lane};
pub use tree_run::run_tree;
