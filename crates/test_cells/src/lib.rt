//! Tests of what several lanes share and are run by, each by its public calls: cells, places for
//! values and for keys, the crew.
#![tactic(auto)]

#[cfg(test)]
mod cells;
#[cfg(test)]
mod crew;
#[cfg(test)]
mod first_calls;
#[cfg(test)]
mod gates;
#[cfg(test)]
mod hand;
#[cfg(test)]
mod key_places;
#[cfg(test)]
mod key_threads;
#[cfg(test)]
mod same;
#[cfg(test)]
mod threads;
#[cfg(test)]
mod values;
#[cfg(test)]
mod words;
