//! The form of what a list tells.

/// The form in which the races of a plan are listed, or the faults of a run.
#[derive(Clone, Copy, Debug, PartialEq, Eq)]
pub enum ListForm {
    /// A line for each.
    Lines,
    /// JSON: one object of all races, or an object for each fault, on a line each.
    Json,
}
