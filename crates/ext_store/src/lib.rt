//! The store of values that parallel test engines share: contexts in a tree, keys that are named
//! during the run, and lanes.
//!
//! `Store` is shared by reference, and each thread owns a `Lane`. All calls of all lanes together
//! are one history, as `ext_model` defines it. Each answer of a get, a put and a remove, except
//! `Contended` and the refusals for a key, is that of one thread at a point of the call; a compute
//! is several such parts. A value is kept first, which gives it a number, and the number is then
//! stored under a key in a context; or it is computed where none is found.
//!
//! No key is declared: a key gets its number, below `Store::key_count`, when a lane first names it,
//! without a lock and the same in all lanes. A store has 64 keys, or by choice up to 1,024. A call
//! by a key numbers it itself; its numbered form takes the number that `Store::number` gave. A call
//! may take memory for a key that is new to its lane, and is refused for the key as `DirectoryFull`
//! or `Memory`, before anything else.
//!
//! Each operation has a file of its own, with all its forms: `get`, `put`, `remove`, `keep` and
//! `compute`; `along` has look-ups and computes along a path that is not the tree's; `begin` and
//! `end` have a compute in two calls, and `made` what an author makes of its answer. `store` has the
//! store itself.
//!
//! `specs/Stores`, `specs/ContextCalls`, `specs/LaneCalls` and `specs/Computing` have the words of
//! the contracts, `specs/Waiting` those of the waiting forms, and `specs/FoundOrMade` and
//! `specs/FaultTexts` those of `made`. ext_store_core says what a call does to a lane of the cells,
//! of a store without its values; `specs/ContextCalls` says it of the whole store.
//!
//! An engine that can't hand over a factory computes in two calls: `begin`, and then `fill`, `fail`
//! or `abandon`. Their quiet forms (`abandon_quietly` and the others) wake nobody, so that a static
//! library can use them. `fill_decided_quietly` and `fail_decided_quietly` also draw again where
//! other lanes were in the way. Call quiet forms only if no lane of the store ever waits.
//!
//! Each cell is a word of its own, and only the waiting forms (`get_wait` and the others) wait for
//! another lane: where a factory is in the way, they sleep until a claim has ended, and try again.
//!
//! Javadoc `ExtensionContext.Store`; JUnit 5 User Guide, section "Keeping State in Extensions".
//! Numbers, lanes, claims, closers, refusals and limits are own rules.
#![tactic(auto)]

mod along;
mod begin;
mod closer;
mod compute;
mod computed;
mod end;
mod fault;
mod get;
mod keep;
mod keep_fault;
mod kept;
mod lane;
mod laws;
mod limits;
mod made;
mod opening;
mod put;
mod remove;
mod seal;
mod store;
mod value;

pub use closer::Closer;
pub use computed::Compute;
pub use ext_cells::Claim;
pub use ext_store_core::{Refusal, Unused};
pub use fault::KeepFault;
pub use kept::Kept;
pub use lane::Lane;
pub use laws::frame_laws;
pub use limits::{Limits, StoreFault};
pub use made::{Made, fault_of};
pub use store::Store;
pub use value::StoreValue;
