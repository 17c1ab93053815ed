//! A race of a plan.
ghost use Rattle.std.specs.Prelude.{◌≡◌};

use ext_model::{ContextNo, KeyNo};
use ext_plan::Word;

/// One of two steps that race: the node in whose context it runs, its first word, and the number of
/// its key.
#[derive(Clone, Copy, Debug)]
pub struct Side {
    /// The index of the node in the plan.
    pub node: ContextNo,
    /// The first word of the step.
    pub word: Word,
    /// The number of its key among the keys that the plan's steps name.
    pub key: KeyNo,
}

/// Two steps of two nodes that may run beside one another and interfere. If the keys are the same,
/// both steps touch one place, which one of them may change. If the keys differ, each step may
/// leave a value in the context whose close fails.
#[derive(Clone, Copy, Debug)]
pub struct Race {
    /// The step of the node that comes first in the plan.
    pub first: Side,
    /// The step of the other node.
    pub second: Side,
    /// The context in which they interfere, by the index of its node.
    pub context: ContextNo,
}

impl Side {
    ghost use Rattle.ext_races.specs.InnerListed.{side_eq};

    fn is_same(&self, other: &Side) -> bool
        ensures { result ≡ side_eq self.now other.now }
    {
        self.node == other.node && self.word == other.word && self.key == other.key
    }
}

impl Race {
    ghost use Rattle.ext_races.specs.InnerListed.{race_eq};

    pub(crate) fn is_same(&self, other: &Race) -> bool
        ensures { result ≡ race_eq self.now other.now }
    {
        self.first.is_same(&other.first)
            && self.second.is_same(&other.second)
            && self.context == other.context
    }
}
