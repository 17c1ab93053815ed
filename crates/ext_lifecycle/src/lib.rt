//! How a node is run: which of its calls are made, in which order, what its result is, and what is
//! reported of it.
//!
//! A node's before-callbacks are called up to the first that is not successful (`run_befores`),
//! then its body if there is no such one (`run_body`; for a container that is its children), then
//! all its after-callbacks (`run_afters`). Their outcomes make the node's `Tally`, and the closes
//! of its context its `NodeResult`. `befores_of` and `afters_of` give the callbacks in the order in
//! which they are called. What each call does is the `Caller`'s. A node's `Mode` says whether it
//! may be run beside its siblings. A `RunListener` follows the progress of a run.
//!
//! Whether a method of a trait takes memory or waits is for its implementation to say.
#![tactic(auto)]

mod call;
mod callbacks;
mod fault_origin;
mod lifecycle;
mod listener;
mod mode;
mod node_result;
mod outcome;
mod status;
mod tally;

pub use call::{Call, Kind};
pub use callbacks::{Callbacks, afters_of, befores_of, calls_round};
pub use fault_origin::FaultOrigin;
pub use lifecycle::{Caller, run_afters, run_befores, run_body, run_calls};
pub use listener::{NoListener, RunListener, tell_fault};
pub use mode::Mode;
pub use node_result::NodeResult;
pub use outcome::{Outcome, Verdict};
pub use status::Status;
pub use tally::Tally;
