//! Why calls are refused.
ghost use Rattle.std.specs.Prelude.{◌≡◌, ◌↔◌, IsTrue};
ghost use Rattle.ext_store_core.specs.InnerRefusals.{IsOfCell, refusal_at};
ghost use Rattle.ext_store_core.specs.Waiting.{IsDecided};

use ext_cells::CellRefusal;
use ext_model::ContextNo;
use std::fmt;
use thiserror::Error;

/// Why a call of a store is refused. A call by a key is refused for the key, as `DirectoryFull` or
/// `Memory`, before it makes a step on the cells. Otherwise a `get` is refused only as `Contended`,
/// since it answers that a context is busy or closed; a `seal` as `Busy` or `Contended`; a `put`, a
/// `remove`, a `begin` and a `compute` as any of the first four. Where several apply, each call
/// says which is answered.
#[derive(Clone, Copy, Debug, PartialEq, Eq, Error)]
pub enum Refusal {
    /// A lane computes a value for this context, which decides the answer.
    Busy(ContextNo),
    /// The place in this context, which decides the answer, is sealed: the context is closed or is
    /// being closed.
    Closed(ContextNo),
    /// Other lanes were in the way: they made at least as many events as a call has tries. For a
    /// put, a remove, a seal and a claim these are events on its own cell; for a look-up, on the
    /// key's cells along the path.
    Contended,
    /// There were too many events in this context under this key: more than 2^40 - 3 for a put or a
    /// remove, and more than 2^40 - 4 for the claim of a compute, which leaves one for its end.
    Exhausted,
    /// The key has no number and never gets one: all places hold other keys.
    DirectoryFull,
    /// A place neither took a copy of the key nor showed one. It is proved of `KeyPlaces::number`
    /// that this does not happen.
    Unplaced,
    /// The key is new to the lane, and there was no memory for a copy of it. A later call may give
    /// the key a number.
    Memory,
}

impl fmt::Display for Refusal {
    ghost use Rattle.std.specs.Prelude.{Some};
    ghost use Rattle.ext_store_core.specs.RefusalTexts.{refusal_text};

    ghost output = { λ why. Some (refusal_text why) };

    fn fmt<W: fmt::Write>(&self, f: &mut fmt::Formatter<W>) -> fmt::Result {
        match self {
            Refusal::Busy(at) => write!(f, "busy at context {at}"),
            Refusal::Closed(at) => write!(f, "context {at} is closed"),
            Refusal::Contended => f.write_str("contended"),
            Refusal::Exhausted => f.write_str("exhausted"),
            Refusal::DirectoryFull => f.write_str("directory full"),
            Refusal::Unplaced => f.write_str("unplaced"),
            Refusal::Memory => f.write_str("no memory"),
        }
    }
}

impl Refusal {
    // The store's refusal for a refusal of the context's cell.
    pub(crate) fn at(context: ContextNo, why: CellRefusal) -> Refusal
        requires { IsOfCell why }
        ensures { result ≡ refusal_at context why }
    {
        match why {
            CellRefusal::Busy => Refusal::Busy(context),
            CellRefusal::Closed => Refusal::Closed(context),
            CellRefusal::Exhausted => Refusal::Exhausted,
            CellRefusal::Contended => Refusal::Contended,
            CellRefusal::NumbersFull | CellRefusal::Memory | CellRefusal::BadLimit =>
                unreachable!(),
        }
    }

    // Whether a waiting form answers it, instead of trying again.
    pub(crate) fn is_decided(self) -> bool
        ensures { IsTrue result ↔ IsDecided self }
    {
        match self {
            Refusal::Busy(_) | Refusal::Contended => false,
            Refusal::Closed(_)
            | Refusal::Exhausted
            | Refusal::DirectoryFull
            | Refusal::Unplaced
            | Refusal::Memory => true,
        }
    }
}
