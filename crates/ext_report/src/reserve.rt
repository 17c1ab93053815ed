//! Nodes that were kept in reserve and did not come.
ghost use Rattle.std.specs.Prelude.{◌≡◌, ◌<◌, All, filter, length, not};
ghost use Rattle.ext_report.specs.Reserve.{did_not_come, has_type};

use crate::is_status::is_status;
use ext_ids::UniqueId;
use ext_lifecycle::{NodeResult, Status};
use ext_tree::Tree;

/// Takes out of the list the results of nodes that were kept in reserve and did not come. Such a
/// node was skipped, and its id has a segment of this type, such as `test-template-invocation` or
/// `dynamic-test` in JUnit. The other results stay, in their order. Takes no memory.
///
/// Source: JUnit 5 User Guide, sections "Parameterized Tests", "Repeated Tests" and "Dynamic
/// Tests"; that nodes are kept in reserve is an own rule.
pub fn leave_out_reserve(tree: &Tree, kind: &str, results: &mut Vec<NodeResult>)
    ensures left { results.new.items ≡ filter (λ r. not (did_not_come tree.now kind.now r)) results.old.items }
    ensures in_tree { All (λ r. r.node < length tree.now) results.old.items → All (λ r. r.node < length tree.now) results.new.items }
{
    results.retain(|r| !did_not_come(tree, kind, r));
}

/// Tests whether a node was kept in reserve and did not come.
fn did_not_come(tree: &Tree, kind: &str, node: &NodeResult) -> bool
    ensures { result ≡ did_not_come tree.now kind.now node.now }
{
    is_status(node.status, Status::Skipped)
        && node.node < tree.len()
        && has_type(tree.id(node.node), kind)
}

/// Tests whether an id has a segment of this type.
fn has_type(id: &UniqueId, kind: &str) -> bool
    ensures { result ≡ has_type kind.now id.now }
{
    for i in 0..id.len() {
        if id.segment(i).0 == kind {
            return true;
        }
    }
    false
}
