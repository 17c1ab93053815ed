//! Which tests of a table are run, and in which order.
#![tactic(auto)]

mod grouping;
mod hashing;
mod laws;
mod looking;
mod nodes;
mod parts;
mod rank;
mod selection;
mod shards;
mod shuffling;

pub use laws::{parts_share_tests, tests_stay_wanted};
pub use nodes::Node;
pub use parts::part_of;
pub use selection::{Selection, chosen};
pub use shards::Shard;
pub use shuffling::shuffled;
