//! Engines whose suite is data: a table of nodes, and what its tests do.
//!
//! An author lists classes and tests in a `TestTable`, each with what it is given, its mode, its
//! locks and what the tests below it share, and implements an `Engine`, which makes what is shared,
//! runs a test, and ends what was shared. `run_table` opens a store of the nodes and locks of the
//! names, and runs the tree. The author writes no contract and no proof.
//!
//! `specs/Tables` says what a table says of its nodes as a suite, `specs/TableCalls` what a call of
//! a node does, and `specs/TableRuns` what a run of a table is. An own rule, for JUnit 5 User Guide,
//! sections "Parallel Execution", "Synchronization" and "Keeping State in Extensions".
#![tactic(auto)]

mod arranged;
mod engine;
mod listener;
mod nodes;
mod row;
mod saying;
mod scope;
mod shared;
mod stop;
mod suite;
mod table;
mod table_run;

pub use engine::{Engine, Kept};
pub use ext_engine::{Call, EngineFault, Kind, Mode, NodeResult, OpenFault, Status};
pub use ext_lifecycle::{FaultOrigin, NoListener, RunListener};
pub use ext_locks::LockMode;
pub use ext_model::{ContextNo, Fault};
pub use ext_tree::Tree;
pub use listener::{LeftOut, TableListener};
pub use row::{NamedLock, Row};
pub use scope::Scope;
pub use stop::Stop;
pub use table::{TableFault, TestTable};
pub use table_run::{RunFault, RunLimits, TableRun, run_table};
