//! Plans of test runs: keys, nodes and steps, the calls that steps make of a store, and their
//! verdicts.
//!
//! A `Plan` has `PlanKey`s and `PlanNode`s; callbacks and tests are lists of `Step`s, each of which
//! names its key by a `StepKey`. `Step::parts` takes a step apart, and its `Word` tells which call
//! of the store it makes. `Plan::store_keys` makes the keys of the labels, and `keys_are_few`
//! counts them. Contracts see a plan by `plan_view` (`specs/Plans.antt`); `specs/ReadPlans.antt`
//! says what holds of each plan that was read.
//!
//! A step's call of the store is a `StepCall`, which `StepKeys` makes with the key that the step
//! names. What a look-up shows a step is `Seen`, and why a call was refused is a `Reason`.
//! `want_verdict`, `none_verdict`, `fail_verdict`, `unless_refused` and `refused` turn them into
//! the step's verdict and its text. `PlanValue` is a value of a run, and `close_fault` its close
//! action. Nothing here depends on a store, so that all runs share these texts.
//!
//! JUnit has no plans.
#![tactic(auto)]

mod call_key;
mod keys;
mod lock_names;
mod plan;
mod plan_value;
mod reason;
mod seen;
mod step_call;
mod step_keys;
mod step_parts;
mod step_text;
mod verdicts;
mod word;

pub use call_key::CallKey;
pub use keys::keys_are_few;
pub use plan::{LabelNo, Plan, PlanKey, PlanLock, PlanNode, Step, StepKey};
pub use plan_value::{PlanValue, close_fault};
pub use reason::Reason;
pub use seen::{Seen, fail_verdict, none_verdict, want_verdict};
pub use step_call::StepCall;
pub use step_keys::StepKeys;
pub use step_parts::{KeyedStep, StepParts};
pub use verdicts::{aborted, failed, refused, unless_refused};
pub use word::Word;
