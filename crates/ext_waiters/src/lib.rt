//! Lanes that wait, parked, until another lane has ended what is in their way.
//!
//! A lane that may have to wait begins a `Waiting` and then tries again and again. After the first
//! failed try it announces itself (`announce`), and after the second it sleeps (`sleep`, which
//! needs an announcement); `pause` does the one or the other. So it tries once more between its
//! announcement and its sleep. A lane that ends what others may wait for ends it first, by one
//! atomic step, and then calls `wake_all`. What is waited for is not defined here.
//!
//! Nothing takes memory, and only `sleep` and `pause` take a runtime and may wait. That a sleeping
//! lane is woken is not proved: docs/ARCHITECTURE.md has the order of the steps that ensures it.
#![tactic(auto)]

#[cfg(test)]
mod tests;
mod waiters;

pub use waiters::{Waiters, Waiting};
