//! How large a store may be.
ghost use Rattle.std.specs.Prelude.{◌≡◌, ◌≤◌};
ghost use Rattle.ext_model.specs.Sizes.{most_contexts, most_lanes, most_numbers};

/// How large a store may be. JUnit's has no limits.
#[derive(Clone, Copy, Debug, PartialEq, Eq)]
pub enum Size {
    /// At most 256 contexts, 16 lanes and 65,535 numbers.
    Usual,
    /// At most 65,536 contexts, 32 lanes and 1,048,575 numbers.
    Large,
}

impl Size {
    /// How many contexts a tree of this size has at most.
    pub fn contexts(self) -> usize
        ensures { result ≡ most_contexts self }
    {
        match self {
            Size::Usual => 256,
            Size::Large => 65_536,
        }
    }

    /// How many lanes a store of this size has at most.
    pub fn lanes(self) -> usize
        ensures lanes { result ≡ most_lanes self }
        ensures within { (16 ≤ result) × (result ≤ 32) }
    {
        match self {
            Size::Usual => 16,
            Size::Large => 32,
        }
    }

    /// How many numbers a store of this size draws at most.
    pub fn numbers(self) -> u32
        ensures { result ≡ most_numbers self }
    {
        match self {
            Size::Usual => 65_535,
            Size::Large => 1_048_575,
        }
    }
}
