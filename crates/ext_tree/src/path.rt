//! The path from a context to the root.
ghost use Rattle.std.specs.Prelude.{◌≡◌, ◌≤◌, length, take};

use ext_model::ContextNo;
use std::marker::Model;

/// The greatest depth of a tree: an id has at most 16 segments.
pub(crate) const MAX_DEPTH: usize = 16;

/// A context, its parent, and so on to the root: at most 16 contexts, stored inline.
///
/// The order in which JUnit's store looks up: User Guide, section "Keeping State in Extensions".
#[derive(Debug, Drop)]
pub struct Path {
    contexts: [ContextNo; MAX_DEPTH],
    depth: usize,
}

impl Model for Path {
    ghost use Rattle.std.specs.Prelude.{ℕ, List, take, ◌≤◌};

    ghost Value = { List ℕ };

    ghost view = { λ p. take p.depth p.contexts };

    ghost invariant = { λ p. p.depth ≤ 16 };
}

impl Path {
    /// The path of the first `depth` of these contexts, at most 16.
    pub(crate) fn of(contexts: [ContextNo; MAX_DEPTH], depth: usize) -> Path
        requires { depth ≤ 16 }
        ensures { result ≡ take depth contexts }
    {
        Path { contexts, depth }
    }

    /// The contexts of the path, nearest first.
    pub fn as_slice(&self) -> &[ContextNo]
        ensures contexts { result.now ≡ self.now }
        ensures few { length result.now ≤ 16 }
    {
        &self.contexts[..self.depth]
    }
}
