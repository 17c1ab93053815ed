//! The end of a context: its keys are sealed, and its remaining closeable values are closed, the
//! latest first.
//!
//! `close` needs the context's only `Closer` and the lanes that know the values, and gives what is
//! to be closed to a `CloseAction`. `specs/Closes` has what a close did as one record, in the words
//! of `specs/Sealing`, `specs/Closing` and `specs/Lanes`. `close_laws` proves that a close that is
//! asked again is one with those that were refused before it. That nothing is stored or claimed in
//! a closed context is a law of histories, proved by `ext_model::closing_laws`.
#![tactic(auto)]

mod action;
mod closing;
mod fault;
mod laws;
mod seals;

pub use action::CloseAction;
pub use closing::close;
pub use ext_model::Closed;
pub use fault::CloseFault;
pub use laws::close_laws;
