//! A lane that is lent together with its store, so that who calls by it writes no clause.
//!
//! A call of `ext_store::Store` takes a lane, and asks that the lane is one of the store's and the
//! context one of its tree. Each function between who opens the store and who calls it has to say
//! so. A `LentLane` knows its store, and its calls ask nothing of the context: one that isn't there
//! is told as closed. They are the calls that tests make, each with the clauses of the store's, and
//! what they answer means the same.
//!
//! What opens a store, closes a context, or compares histories takes a `Lane`: `LentLane` has
//! both, as `store` and `lane`. `specs/Lent` says what stays the same of a lane that is lent.
//!
//! Javadoc `ExtensionContext.Store`; JUnit 5 User Guide, section "Keeping State in Extensions".
//! Lanes are an own rule.
#![tactic(auto)]

mod compute;
mod get;
mod keep;
mod lent;
mod made;
mod put;
mod remove;

pub use lent::{LentLane, lend};
