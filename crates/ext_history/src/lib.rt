//! Histories of several lanes: the vocabulary of contracts of calls on shared objects.
//!
//! A history is the list of the events that all lanes made, the oldest first. `Histories` defines
//! these lists and which of them are legal, what a lane has seen, what the contract of a call says,
//! and the points at which a call may be answered. An event may be of any type: the crates of cells
//! and of locks define theirs, and when one may come directly after others.
#![tactic(auto)]
