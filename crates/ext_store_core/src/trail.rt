//! Paths that are not those of the tree.
ghost use Rattle.std.specs.Prelude.{◌≢◌, ◌↔◌, ◌<◌, All, AllPairs, IsTrue, length};
ghost use Rattle.ext_store_core.specs.ContextCalls.{IsTrail};

use crate::StoreCore;
use ext_model::ContextNo;

impl StoreCore {
    /// Whether look-ups can go along this path: at most 16 contexts of the store, all different.
    pub fn is_trail(&self, path: &[ContextNo]) -> bool
        ensures { IsTrue result ↔ IsTrail self.now path.now }
    {
        path.len() <= 16 && are_below(path, self.tree.len()) && are_different(path)
    }
}

// Whether each of the numbers is below the limit.
fn are_below(path: &[ContextNo], limit: ContextNo) -> bool
    ensures { IsTrue result ↔ All (λ context. context < limit) path.now }
{
    path.iter().all(|context| *context < limit)
}

// Whether no number stands twice.
fn are_different(path: &[ContextNo]) -> bool
    ensures { IsTrue result ↔ AllPairs (λ a b. a ≢ b) path.now }
{
    match path.split_first() {
        None => true,
        Some((first, rest)) => !rest.contains(first) && are_different(rest),
    }
}
