//! What a store of values for the contexts of a test run does, step by step: places, acts and
//! events, the look-up through ancestors, and `PlainStore`, the store of one thread.
//!
//! Follows the JUnit 5 User Guide, section "Keeping State in Extensions", and the Javadoc of
//! `ExtensionContext.Store` and `NamespacedHierarchicalStore`. Values are seen by their numbers;
//! claims, seals and refusals are own rules.
//!
//! The definitions are in `specs/`: `State` has the state and the look-up, `Events` what each act
//! answers and leaves, and `Plain` the words of `PlainStore`. For several lanes, `History` and
//! `Allowed` define lists of events and which of them are legal, `CellWords` a cell in one word,
//! `CallActs` what the contract of a call on a lane says and what is looked up under a claim,
//! `Closing` what a closed context still has, and `Closed` the result of the closes.
//! `FallingNumbers` holds the numbers that a closed context still has. The laws are in `StateLaws`,
//! `HistoryLaws`, `WordLaws`, `CallLaws` and `ClosingLaws`, and examples in `Worked` and
//! `WorkedCalls`; functions that do nothing prove them. `Sizes` has how large a store may be.
#![tactic(auto)]

mod closed;
mod event;
mod falling_numbers;
mod laws;
mod look;
mod plain;
mod plain_fault;
mod size;
mod slot;
mod worked;

pub use closed::Closed;
pub use event::{Act, CellNo, ContextNo, Event, KeyNo, LaneNo};
pub use falling_numbers::FallingNumbers;
pub use laws::{call_laws, closing_laws, history_laws, store_laws, word_laws};
pub use look::{Fault, Look};
pub use plain::PlainStore;
pub use plain_fault::PlainFault;
pub use size::Size;
pub use slot::Slot;
pub use worked::worked_histories;
