//! Tests of the store's waiting forms: alone, beside a factory that is held, along a path, beside a
//! claim that is given up, also just as they begin to wait, by keys that come late, and of sixteen
//! lanes at once; and what they take of a processor. And tests of the waits below them, and of
//! resource locks.
//!
//! `scripts/soak waits` runs those that wait over many more rounds.
#![tactic(auto)]

#[cfg(test)]
mod alone;
#[cfg(test)]
mod along;
#[cfg(test)]
mod beside;
#[cfg(test)]
mod closing;
#[cfg(test)]
mod crowd;
#[cfg(test)]
mod given_up;
#[cfg(test)]
mod held;
#[cfg(test)]
mod idle;
#[cfg(test)]
mod keys;
#[cfg(test)]
mod lent;
#[cfg(test)]
mod locks;
#[cfg(test)]
mod opening;
#[cfg(test)]
mod rounds;
#[cfg(test)]
mod waiters;
