//! Tests of runs of trees: recipes, tests that come during the run, refused openings and sizes,
//! children that run at once, locks that are held until a context is closed, values of a lane that
//! a run has not in hand, callbacks, reports with times and attempts.
#![tactic(auto)]

#[cfg(test)]
mod beside;
#[cfg(test)]
mod callbacks;
#[cfg(test)]
mod crowd;
#[cfg(test)]
mod gates;
#[cfg(test)]
mod held;
#[cfg(test)]
mod later;
#[cfg(test)]
mod opening;
#[cfg(test)]
mod outside;
#[cfg(test)]
mod recipes;
#[cfg(test)]
mod run_opening;
#[cfg(test)]
mod texts;
#[cfg(test)]
mod timed;
