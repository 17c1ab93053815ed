//! Why a context is not closed.
ghost use Rattle.std.specs.Prelude.{◌≡◌};

use ext_model::KeyNo;
use thiserror::Error;

/// Why a close is refused. The action was not called then, cells that were sealed stay sealed with
/// their numbers, and the close may be tried again.
#[derive(Clone, Copy, Debug, PartialEq, Eq, Error)]
pub enum CloseFault {
    /// A lane computes a value for the context under this key. The keys before it are sealed, and
    /// of the others only such as nobody used.
    #[error("busy at key {0}")]
    Busy(KeyNo),
    /// Other lanes were in the way at this key: they made at least as many events on its cell as a
    /// call has tries. The keys before it are sealed, and of the others only such as nobody used.
    #[error("contended at key {0}")]
    Contended(KeyNo),
    /// No lane in hand kept the value of this number, or was shown it. All keys are sealed.
    #[error("the value of number {0} is not known")]
    Unjoined(u32),
}
