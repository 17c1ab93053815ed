//! What a lane has learnt of a place for a key.
ghost use Rattle.std.specs.Prelude.{true, ◌≡◌};
ghost use Rattle.ext_tree.specs.InnerLearning.{knows_key, put_key};

/// What a lane has learnt of a place: nothing, which key it holds, or that the lane itself put the
/// key there.
#[derive(Clone, Copy)]
pub(crate) enum Learnt {
    /// It does not know of a key there.
    Nothing,
    /// It was shown a key that others put there.
    Shown,
    /// It put the key there.
    Placed,
}

impl Learnt {
    /// Whether the key of the place is known.
    pub fn is_known(self) -> bool
        ensures { result ≡ knows_key self }
    {
        match self {
            Learnt::Nothing => false,
            Learnt::Shown | Learnt::Placed => true,
        }
    }

    /// Whether the lane put the key there.
    pub fn is_placed(self) -> bool
        ensures { result ≡ put_key self }
    {
        match self {
            Learnt::Nothing | Learnt::Shown => false,
            Learnt::Placed => true,
        }
    }

    /// What is learnt once the key of the place was shown. Whether the lane put it there stays
    /// known.
    pub fn shown(self) -> Learnt
        ensures known { knows_key result ≡ true }
        ensures placed { put_key result ≡ put_key self }
    {
        match self {
            Learnt::Nothing => Learnt::Shown,
            Learnt::Shown | Learnt::Placed => self,
        }
    }
}
