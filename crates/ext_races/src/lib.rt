//! Races of a plan: nodes that may run beside one another with steps that interfere.
//!
//! `races` lists them, or says what is proved of a plan without any, and `count_keys` counts the
//! keys that the steps name. In `specs/`, `MadeSteps` defines which steps a plan may make, `Touches`
//! what they touch, `Beside` which nodes may run beside one another, `Clashes` which touches clash,
//! `Races` what a race is, `OneReports` which plans have one report, and `Found` what is reported.
//!
//! JUnit has no such checker.
#![tactic(auto)]

mod act;
mod beside;
mod counting;
mod finding;
mod found;
mod groups;
mod listing;
mod locked_apart;
mod made;
mod naming;
mod passing;
mod proved;
mod proving;
mod race;
mod race_json;
mod reach;
mod standing;
mod text;
mod touch;

pub use counting::count_keys;
pub use finding::races;
pub use found::Found;
pub use proved::Proved;
pub use race::{Race, Side};
pub use race_json::races_json;
pub use text::races_text;
