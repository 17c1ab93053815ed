//! What stands in the slot of a job.
ghost use Rattle.std.specs.Prelude.{◌≡◌};
ghost use Rattle.ext_crew.specs.InnerCounter.{item_in};

/// What stands in the slot of a job: its item until it is drawn, its outcome once it has ended, and
/// nothing between.
#[derive(Drop)]
pub(crate) enum Slot<T, O> {
    /// The item of a job that was not drawn yet.
    Item(T),
    /// The outcome of a job that has ended.
    Outcome(O),
    /// Nothing, while the job runs.
    Empty,
}

impl<T: Drop, O: Drop> Slot<T, O> {
    /// The item, if there is one.
    pub fn into_item(self) -> Option<T>
        ensures { result ≡ item_in self }
    {
        match self {
            Slot::Item(item) => Some(item),
            Slot::Outcome(_) => None,
            Slot::Empty => None,
        }
    }
}
