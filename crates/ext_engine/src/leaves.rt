//! Suites whose tests are the leaves of the tree: the nodes with nothing below them.
ghost use Rattle.std.specs.Prelude.{◌≡◌, ℕ, ◌<◌, All, length};
ghost use Rattle.ext_engine.specs.Leaves.{is_leaf};
ghost use Rattle.ext_engine.specs.TreeRun.{IsNamedLock, IsRunnable};

use crate::Suite;
use ext_locks::Locks;
use ext_model::ContextNo;
use ext_store::{Store, StoreValue};
use ext_tree::Tree;

/// Whether this is a context of the tree that has nothing below it. A suite whose tests are these
/// nodes answers it in `is_test`, and says `is_leaf suite.tree.now` in its `suite_view`.
pub fn is_leaf(tree: &Tree, node: ContextNo) -> bool
    ensures { result ≡ is_leaf tree.now node }
{
    node < tree.len() && tree.children(node).is_empty()
}

/// Proves the condition `runnable` of `run_tree` for a suite whose tests are the leaves, over this
/// store with these locks. The locks must have each name that a node of the suite asks for.
pub fn leaf_laws<V: StoreValue + Drop, S: Suite<V>>(suite: &S, store: &Store<V>, locks: &Locks)
    requires leaves { (S.suite_view suite.now).is_test ≡ is_leaf store.now.tree }
    requires names { (node : ℕ) → node < length store.now.tree → All (λ asked. IsNamedLock locks.now.names asked.name) ((S.suite_view suite.now).locks node) }
    ensures runnable { IsRunnable store.now locks.now (S.suite_view suite.now) }
{}
