//! Resource locks of parallel tests: a test takes all its locks or none, or waits for each in turn;
//! readers together, a writer alone.
//!
//! Follows the JUnit 5 User Guide, section "Synchronization", and the Javadoc of `ResourceLock`.
//! Each lock is one word, and each lock event one atomic step on it. Contracts speak of the history
//! of these events and of what each lane has seen of it, in the words of `ext_history`.
//! `specs/History` has what an event is, who holds what and when an event may come, `Views` lanes,
//! `Sets` sets of locks, `Refusals` when a set is refused, `Names` names and requests, and
//! `Opening` fresh locks. `InnerWords` and `InnerRule` have the words and what holds of them
//! between any two steps.
#![tactic(auto)]

mod event;
mod fault;
mod held;
mod lane;
mod laws;
mod locks;
mod merging;
mod names;
mod refusal;
mod request;
mod rule;
mod seat;
mod set;
mod steps;
mod taking;
mod telling;
mod waiting;

pub use event::{LockEvent, LockMode, LockNo};
pub use fault::LockFault;
pub use held::Held;
pub use lane::LockLane;
pub use laws::lock_laws;
pub use locks::Locks;
pub use refusal::LockRefusal;
pub use request::{LockRequest, Resource};
pub use set::LockSet;
