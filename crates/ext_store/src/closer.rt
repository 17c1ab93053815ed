//! The right to close a context.
ghost use Rattle.std.specs.Prelude.{◌≡◌};

use ext_cells::Cells;
use ext_model::ContextNo;
use std::marker::Model;
use std::snapshot::Snapshot;

/// The right to close a context, once. `Store::open` gives out one for each context, and there is
/// no other way to get one. It may go to another thread. If it is dropped, its context stays open.
/// In contracts it is its store's cells and its context.
#[derive(Drop)]
pub struct Closer {
    pub(crate) context: ContextNo,
    pub(crate) cells: Snapshot<Cells>,
}

impl Model for Closer {
    ghost use Rattle.ext_store.specs.Stores.{CloserView};

    ghost Value = { CloserView };

    ghost view = { λ c. record { cells = c.cells.value.id; context = c.context } };
}

impl Closer {
    /// Answers the context that it may close, from 0.
    pub fn context(&self) -> ContextNo
        ensures { result ≡ self.now.context }
    {
        self.context
    }
}
