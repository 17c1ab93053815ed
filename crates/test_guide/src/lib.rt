//! Tests of the engine: the code of the guide, and what is made of a compute's answers.
#![tactic(auto)]

#[cfg(test)]
mod ending;
#[cfg(test)]
mod hour;
#[cfg(test)]
mod locking;
#[cfg(test)]
mod made;
#[cfg(test)]
mod noting;
#[cfg(test)]
mod page;
#[cfg(test)]
mod server;
#[cfg(test)]
mod threads;
