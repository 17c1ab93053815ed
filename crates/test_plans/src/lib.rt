//! Tests of plans, and of what they stand on, by public calls: ids, trees and keys, the one-thread
//! store, plans and their races, plain runs, reports, and runs from the bytes of a plan to those of
//! its report. Also hostile devices, the calls of a node, the listener, and failures told once
//! more.
#![tactic(auto)]

#[cfg(test)]
mod all_faults;
#[cfg(test)]
mod callbacks;
#[cfg(test)]
mod devices;
#[cfg(test)]
mod failures;
#[cfg(test)]
mod faults;
#[cfg(test)]
mod guide;
#[cfg(test)]
mod hostile;
#[cfg(test)]
mod ids;
#[cfg(test)]
mod keys;
#[cfg(test)]
mod lifecycle;
#[cfg(test)]
mod listener;
#[cfg(test)]
mod locks;
#[cfg(test)]
mod plain_runs;
#[cfg(test)]
mod plain_store;
#[cfg(test)]
mod plans;
#[cfg(test)]
mod races;
#[cfg(test)]
mod reading;
#[cfg(test)]
mod repeats;
#[cfg(test)]
mod reports;
#[cfg(test)]
mod rows;
#[cfg(test)]
mod same;
#[cfg(test)]
mod step_keys;
#[cfg(test)]
mod trees;
