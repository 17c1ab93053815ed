//! Tests of the store by lanes in threads of their own.
#![tactic(auto)]

#[cfg(test)]
mod calls;
#[cfg(test)]
mod closing;
#[cfg(test)]
mod ending;
#[cfg(test)]
mod failing;
#[cfg(test)]
mod gates;
#[cfg(test)]
mod held;
#[cfg(test)]
mod moving;
#[cfg(test)]
mod naming;
#[cfg(test)]
mod opening;
#[cfg(test)]
mod rising;
#[cfg(test)]
mod same;
