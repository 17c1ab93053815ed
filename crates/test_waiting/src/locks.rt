//! Tests of resource locks: sets that are merged, taken, waited for, refused and given back, and
//! the refusals of opening and merging.

mod alone;
mod apart;
mod asking;
mod counting;
mod opening;
mod scenario;
mod sets;
mod taking;
mod texts;
mod waiting;
