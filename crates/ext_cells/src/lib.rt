//! The cells of a store that several threads share, and the lanes that act on them.
//!
//! A cell is a context and a key in one number. One word holds what stands there and how many
//! events it has had. `Cells` is shared by reference, and each thread owns a `CellLane`. All calls
//! of all lanes together form one history, as `ext_model` defines it, and each answer is that of
//! one thread at a point of the call. `specs/CellCalls` has the words of the contracts.
//!
//! The count of numbers drawn is a word, too, and so are the marks of each block of 32 cells. A
//! step reads or changes one word. A cell without a mark is not loaded: the word of its block tells
//! that it is empty, or that the block has ended.
#![tactic(auto)]

mod cell_state;
mod cell_steps;
mod cell_word;
mod cells;
mod claim;
mod decision;
mod lane;
mod laws;
mod limits;
mod marks;
mod nearest;
mod opening;
mod refusal;
mod rule;
mod standing;
mod stood;
mod view;
mod words;

pub use cell_state::CellState;
pub use cell_word::{after, parts, word};
pub use cells::Cells;
pub use claim::{Claim, Claimed};
pub use lane::CellLane;
pub use laws::cell_laws;
pub use nearest::Nearest;
pub use opening::are_limits;
pub use refusal::CellRefusal;
pub use standing::Standing;
pub use words::Words;
