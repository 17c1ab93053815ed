//! Everything the lanes of a store share, except the values, and what each call of the store does
//! to a lane of its cells.
//!
//! `StoreCore` has the contexts, the places of the keys, a cell for each context and place, and who
//! waits. Its calls are those of the store, by the number of a key's place. They require that
//! context and number are the store's, and that the lane is one of its cells. Values, kept faults,
//! and what a lane knows of these and of the keys, are the store's own matter.
//!
//! Each end of a claim wakes the lanes that wait for one. Its quiet form wakes nobody, so that a
//! static library can use it.
//!
//! `specs/ContextCalls` and `specs/Claiming` have the words of the contracts, and `specs/Waiting`
//! those of the waiting forms.
//!
//! Javadoc `ExtensionContext.Store`; JUnit 5 User Guide, section "Keeping State in Extensions".
//! Numbers, lanes, claims, refusals and limits are own rules.
#![tactic(auto)]

mod change;
mod claim;
mod fault;
mod found;
mod look;
mod store_core;
mod trail;
mod waiting;

pub use claim::Unused;
pub use fault::Refusal;
pub use store_core::StoreCore;
