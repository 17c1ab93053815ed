//! How one node of a tree of tests is run: its calls on a lane, the locks of a test, the close of
//! its context, and its result.
//!
//! A `NodeRunner` runs a test and closes the context of any node. `open_container` does what comes
//! before a container's children, and `close_container` what comes after them. Its children with
//! their closers, and the results in order, are functions of their own. Module `tree_run` puts
//! them together to the run of a tree. `specs/NodeRun` says what the run of a test is, and
//! `specs/InnerContainers` what is done for a container. An own rule, for JUnit 5 User Guide,
//! sections "Relative Execution Order of User Code and Extensions", "Synchronization" and "Keeping
//! State in Extensions".

mod closers;
mod closing;
mod container;
mod fault;
mod node_calls;
mod node_runner;
mod parts;
mod results;

pub(crate) use closers::{Item, closer_index, items_of_children, take_own};
pub(crate) use container::{OpenContainer, close_container, open_container};
pub use fault::EngineFault;
pub(crate) use node_calls::{call_afters, call_befores};
pub(crate) use node_runner::NodeRunner;
pub(crate) use parts::Children;
pub(crate) use results::{Below, RanNode, all_skipped, first_refusal, gathered, put_results};
