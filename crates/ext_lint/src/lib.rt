//! What of a plan is most likely a mistake, although the plan can be read: texts that are wanted and
//! never stored, callbacks that run for no test or have no steps, steps of theirs that mean another
//! context for some tests, keys that no step names, locks that one test alone takes, and nodes that
//! are concurrent alone.
//!
//! `lint` gives the notes of a plan in lines and in JSON. In `specs/`, `NodeSteps` lists a plan's
//! steps, `Said` what they say of keys, `Live` which nodes have tests, `Heights` at which depths,
//! `Notes` defines the notes, and `NoteLines` and `NoteJson` how they are written.
//!
//! JUnit has no such checker.
#![tactic(auto)]

mod callbacks;
mod first_test;
mod height_text;
mod heights;
mod keys;
mod linting;
mod live;
mod modes;
mod node_step;
mod note;
mod note_json;
mod noting;
mod said;
mod said_set;
mod speech;
mod text;

pub use linting::{PlanNotes, lint};
