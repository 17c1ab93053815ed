//! Reads plans of test runs from TOML documents, or reports the first fault of the text.
//!
//! `read_plan` and `read_plan_within` read, `Plan` is the result, and `PlanFault` is why a text was
//! refused. `all_faults` finds all faults of a text, `explain` explains one, `explain_id` the fault
//! of an id, and `nearest` finds the name that was meant by a word. What a plan is stands in
//! `ext_plan`, whose types of a plan's data this crate exports too.
//!
//! JUnit has no plans.
#![tactic(auto)]

mod callbacks;
mod depths;
mod explaining;
mod fault;
mod fields;
mod keys;
mod labels;
mod locks;
mod modes;
mod nodes;
mod read;
mod repeats;
mod stages;
mod steps;
mod top;

pub use explaining::{explain, explain_id, nearest};
pub use ext_plan::{LabelNo, Plan, PlanKey, PlanLock, PlanNode, Step, StepKey};
pub use fault::{PlanFault, PlanPart};
pub(crate) use keys::{Keys, keys_of};
pub(crate) use labels::Labels;
pub(crate) use locks::locks_are_few;
pub(crate) use nodes::nodes_of_tables;
pub use read::{read_plan, read_plan_within};
pub use stages::all_faults;
