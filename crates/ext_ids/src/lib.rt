//! Unique ids of test contexts: `[type:value]/[type:value]..`, from text to segments and back.
//!
//! Contracts see a `UniqueId` as the list of its segments, each a decoded type and value. A text is
//! refused for its first fault from the left, with its offset (`IdFault`), and parts for theirs,
//! with the part's number (`PartFault`).
//!
//! Ids are written as JUnit's `UniqueId` writes them.
#![tactic(auto)]

mod escape;
mod fault;
mod id;
mod laws;
mod making;
mod scan;
mod segment;

pub use fault::IdFault;
pub use id::UniqueId;
pub use laws::{
    characters_are_spelled_one_by_one, id_or_fault, one_reading, one_spelling, parts_or_fault,
};
pub use making::PartFault;
