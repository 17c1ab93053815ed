//! The limits of a store, as C has them.
ghost use Rattle.std.specs.Prelude.{◌≡◌};
ghost use Rattle.ext_c.specs.Limits.{size_if_large, store_limits};

use ext_model::Size;
use ext_store::Limits;

/// The limits that a store is opened with. It has as many lanes as there are slots.
#[repr(C)]
#[derive(Clone, Copy, Drop)]
pub struct ExtLimits {
    /// How often a call meets other lanes before it answers `Contended`: 1 to 64.
    pub tries: u32,
    /// How many values and faults can be kept while the store lives: 1 to 65,535, or 1,048,575 of a
    /// large store.
    pub numbers: u32,
    /// How many keys can have a number: 1 to 1,024, rounded up to a multiple of 32.
    pub keys: u32,
    /// Whether the fault of a factory that fails is kept.
    pub keep_faults: bool,
    /// Whether the store may have 65,536 contexts, 32 lanes and 1,048,575 numbers, and not only
    /// 256, 16 and 65,535.
    pub large: bool,
}

impl ExtLimits {
    // The limits of a store with so many lanes.
    pub(crate) fn with_lanes(&self, lanes: usize) -> Limits
        ensures { result ≡ store_limits self.now lanes }
    {
        Limits {
            lanes,
            tries: self.tries,
            keys: self.keys as usize,
            numbers: self.numbers,
            keep_faults: self.keep_faults,
            size: size_if_large(self.large),
        }
    }
}

fn size_if_large(large: bool) -> Size
    ensures { result ≡ size_if_large large }
{
    if large { Size::Large } else { Size::Usual }
}
