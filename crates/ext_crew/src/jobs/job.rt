//! A job that was drawn.

/// A job that was drawn: an item with its index in the list of items.
#[derive(Drop)]
pub(crate) struct Job<T> {
    /// The index of the item, from 0, which is also that of the job.
    pub index: usize,
    pub item: T,
}
