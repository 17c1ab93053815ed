//! The program of an engine: its command line, the tests that this selects, their run, and what is
//! told of it.
//!
//! `main_of` runs the tests of an `ext_table::TestTable`. An own rule; the options are those that
//! users of cargo-nextest, pytest and JUnit's ConsoleLauncher know.
#![tactic(auto)]

mod args;
mod command;
mod earlier_run;
mod ending;
mod live;
mod node_log;
mod page;
mod program;
mod results;
mod run_log;
mod saying;
mod selecting;
mod sharing;
mod skipped;
mod summary;
mod telling;
mod timeline;

pub use ext_lane::LentLane;
pub use ext_shared::SharedText;
pub use ext_table::{Engine, Fault, Kept, Kind, LockMode, Scope, Stop, TableFault, TestTable};
pub use ext_tree::{Key, Namespace};
pub use program::main_of;
pub use selecting::select;
pub use sharing::{SharingEngine, main_in_folder, shared_text};
pub use std::process::ExitCode;
