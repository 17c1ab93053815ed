//! Tests of the store that several lanes share: its calls, computes and closes. For the tests of
//! other crates it has the chain's store (`open_chain`), and for its readers a caller of `close`
//! that concludes what its action was given (`close_logged`).
#![tactic(auto)]

#[cfg(test)]
mod along;
#[cfg(test)]
mod asked;
#[cfg(test)]
mod calls;
#[cfg(test)]
mod chain;
#[cfg(test)]
mod closes;
#[cfg(test)]
mod computes;
#[cfg(test)]
mod faults;
#[cfg(test)]
mod full;
#[cfg(test)]
mod keys;
#[cfg(test)]
mod large;
mod logged;
#[cfg(test)]
mod many;
mod opening;
#[cfg(test)]
mod standing;
#[cfg(test)]
mod texts;
#[cfg(test)]
mod wide;

pub use logged::{Log, close_logged};
pub use opening::{
    Letter, Opened, closeable, contexts, key, open_chain, open_chain_for, open_store, plain,
};
