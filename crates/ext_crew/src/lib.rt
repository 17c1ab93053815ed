//! Runs one job for each item of a list on several workers, each of which is lent its own share of
//! two slices.
//!
//! Workers draw the jobs one after another from a counter that they share (module `jobs`), so a
//! long job holds up no other. The contract of `run_children` says that the outcomes and what is
//! left of the slices come from a run by some dealing of the jobs, and not by which.
//! `specs/Dealing.antt` has the definitions; `proofs/Runs.antt` and `proofs/RunLaws.antt` have the
//! laws with which a caller reads such a run. `specs/InnerHands.antt` says what the workers have in
//! hand, and `specs/InnerCounter.antt` what they have drawn, which no public call names.
//!
//! Whether a method of a trait takes memory or waits is for its implementation to say.
#![tactic(auto)]

mod crew;
mod fault;
mod gate;
mod hand;
mod job;
mod jobs;
mod workers;

pub use crew::run_children;
pub use fault::CrewFault;
pub use gate::{Gate, OpenGate};
pub use jobs::Done;
