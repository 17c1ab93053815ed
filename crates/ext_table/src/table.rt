//! The nodes of an engine, as values.
ghost use Rattle.std.specs.Prelude.{◌≡◌, ◌<◌, All, length};
ghost use Rattle.ext_table.specs.Tables.{AreKnown};

use crate::Row;
use ext_ids::{PartFault, UniqueId};
use std::alloc::{AllocError, Global};
use thiserror::Error;

/// Why a table is not made, or a node not added. The table is then as it was before.
///
/// Prints as a sentence without capital or full stop.
#[derive(Clone, Copy, Debug, PartialEq, Eq, Error)]
pub enum TableFault {
    #[error("out of memory")]
    Memory,
    /// The type or the name of the node is none that an id may have, or the node would stand on a
    /// level too many.
    #[error("{0}")]
    Part(PartFault),
    /// There is no node on the level above.
    #[error("a node has nothing above it")]
    NothingAbove,
}

impl From<AllocError> for TableFault {
    ghost use Rattle.std.specs.Prelude.{◌≡◌};
    ghost use Rattle.ext_table.specs.declared.table.TableFault.TheVariants.{Memory};

    ghost from_gives = { λ why fault. fault ≡ Memory };

    fn from(_why: AllocError) -> TableFault {
        TableFault::Memory
    }
}

/// The nodes of an engine, each with what is said of it. A new one stands in the last one of the
/// level above, and what is said is said of the last one.
#[derive(Drop)]
pub struct TestTable<T> {
    pub(crate) alloc: Global,
    pub ids: Vec<UniqueId>,
    pub rows: Vec<Row<T>>,
    /// The names of locks, each once.
    pub lock_names: Vec<String>,
    /// The indices of the last node and of the nodes that it stands in, from the first level on.
    pub last: Vec<usize>,
    ghost same_count: { length ids.items ≡ length rows.items },
    ghost known: { AreKnown (length lock_names.items) rows.items },
    ghost last_within: { All (λ index. index < length rows.items) last.items },
}
