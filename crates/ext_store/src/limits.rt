//! The limits of a store, and why it is not opened.
use ext_model::{KeyNo, Size};
use thiserror::Error;

/// The limits that a store is opened with.
#[derive(Clone, Copy, Debug, PartialEq, Eq)]
pub struct Limits {
    /// How many lanes there are, for as many threads: 1 to `size.lanes()`.
    pub lanes: usize,
    /// The most exchanges of a change on its cell's word, and the most passes of a look-up after its
    /// first, before the answer is `Contended`: 1 to 64.
    pub tries: u32,
    /// How many keys can have a number: 1 to 1,024, rounded up to a multiple of 32. Each context
    /// takes 8.25 bytes for each of them, and each lane five.
    pub keys: KeyNo,
    /// How many values and faults can be kept while the store lives: 1 to `size.numbers()`.
    pub numbers: u32,
    /// Whether the fault of a factory that fails is kept, under a number of its own, until it is
    /// removed or replaced, so that the next compute meets it. If not, a factory that fails leaves
    /// its place empty, and its fault goes to its caller.
    pub keep_faults: bool,
    /// How large the store may be. It says how many lanes and numbers there are at most, and to
    /// `ext_engine::open_run` also how many contexts; a tree that is at hand is taken as it is.
    pub size: Size,
}

impl Limits {
    ghost use Rattle.std.specs.Prelude.{◌≡◌, false};
    ghost use Rattle.ext_model.specs.declared.size.Size.TheVariants.{Usual};

    /// The limits of a store of usual size for so many lanes: 64 tries, 64 keys and 65,535 numbers,
    /// and faults that are not kept.
    pub fn new(lanes: usize) -> Limits
        ensures { result ≡ record { lanes = lanes; tries = 64; keys = 64; numbers = 65535; keep_faults = false; size = Usual } }
    {
        Limits {
            lanes,
            tries: 64,
            keys: 64,
            numbers: 65_535,
            keep_faults: false,
            size: Size::Usual,
        }
    }
}

/// Why a store is not opened.
#[derive(Clone, Copy, Debug, PartialEq, Eq, Error)]
pub enum StoreFault {
    /// The count of lanes, of tries, of keys or of numbers is out of its range.
    #[error("a limit is out of its range")]
    BadLimit,
    /// An allocation failed.
    #[error("no memory")]
    Memory,
}
