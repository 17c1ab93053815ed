//! Slots for values, each set at most once and found by its number, from any thread, without a
//! lock.
//!
//! Contracts see `Values` as the list of its slots' names, in the order of their numbers. A `Note`
//! shows which value one number has, and `Notes` those of all numbers that one lane knows. All
//! notes of one number show the same value.
//!
//! Only `Values::new` and `Notes::new` take memory: one pointer per number for the slots, and one
//! bit per number, rounded up to 8 bytes, for each lane's notes. `SilentNotes`, which cannot be
//! asked what they know, take none. The values stand in boxes that the caller hands in.
//!
//! JUnit keeps a value under its key, and has no number for it.
#![tactic(auto)]

mod entry;
mod fault;
mod flag_bits;
mod laws;
mod note;
mod notes;
mod silent_notes;
mod values;

pub use fault::ValuesFault;
pub use laws::notes_laws;
pub use note::Note;
pub use notes::Notes;
pub use silent_notes::SilentNotes;
pub use values::Values;
