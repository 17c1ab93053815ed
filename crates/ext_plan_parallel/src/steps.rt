//! The steps of plans over a store for several threads, by its waiting calls.
//!
//! `StoreSteps` runs the steps of a test or a callback on a lane of the store, in order, up to the
//! first that is not successful. The store keeps each value of a plan as a `StoredValue`.
//! `specs/StoreCalls` says what each call of a step does, by the contracts of the store's calls,
//! and `specs/StoreSteps` what a sequence of steps does. The texts of steps are those of
//! `ext_plan`. A step that lacks memory fails by itself.

mod calls;
mod changes;
mod computes;
mod looks;
mod reasons;
mod store_steps;
mod stored_value;

pub(crate) use store_steps::StoreSteps;
pub use stored_value::StoredValue;
