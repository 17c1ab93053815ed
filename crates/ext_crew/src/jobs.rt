//! Jobs that several workers draw from a counter that they share, and the slots for the outcomes of
//! the jobs.
//!
//! A counter is opened over a list of items (`open_counter`). Workers draw the jobs of the items
//! one after another (`draw`), each puts the outcome of its job into that job's slot
//! (`put_outcome`), and when all have ended the counter is closed and the outcomes are taken out in
//! the order of the items (`take_outcomes`). Each worker has a `Hand` of its own, split off the
//! first one, and what all hands have drawn is joined in again. How jobs are run, and by which
//! threads, is not defined here.
//!
//! A draw is one atomic step on one word. `specs/InnerCounter.antt` has the rule that each step
//! keeps, and what each call says of a hand; `proofs/Draws.antt` has the laws with which a caller
//! splits hands off and joins them in.

mod counter;
mod done;
mod job;
mod rule;
mod slot;

pub(crate) use counter::{draw, open_counter, put_outcome, take_outcomes};
pub use done::Done;
pub(crate) use job::Job;
pub(crate) use rule::{Counter, CounterTable, Drawing, Drawn, Hand, Hires};
pub(crate) use slot::Slot;
