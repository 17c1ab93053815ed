//! How far up the callbacks round tests may go.
ghost use Rattle.std.specs.Prelude.{◌≡◌, ◌<◌, length, map};
ghost use Rattle.ext_tree.specs.Trees.{id_at};
ghost use Rattle.ext_plan_reading.specs.Depths.{least_test_depth};
ghost use Rattle.ext_plan_reading.specs.InnerSketches.{sketch_view};
ghost use Rattle.ext_plan_reading.specs.NodeReading.{ids_of, outlines_of};

use crate::nodes::NodeSketch;
use ext_tree::Tree;

/// As many segments as an id may have, and further than a step goes up.
const NO_DEPTH: usize = 16;

/// The least number of segments that the id of a test at or below this node has, or 16 where there
/// is no such test: round each of these tests the node's callbacks run on the test's context. Only
/// the nodes below are gone over, and none below a test: so for all nodes of a tree each is looked
/// at once for itself and once for each of its ancestors, at most 16 times.
pub(crate) fn least_test_depth(tree: &Tree, sketches: &[NodeSketch<'_>], node: usize) -> usize
    requires tree { tree.now ≡ ids_of (map sketch_view sketches.now) }
    requires within { node < length sketches.now }
    ensures { result ≡ least_test_depth (outlines_of (map sketch_view sketches.now)) (id_at tree.now node) }
{
    let sketch = &sketches[node];
    if sketch.test.is_some() {
        return sketch.id.len();
    }
    // For the proof alone: it brings in that the ids are those of a tree.
    let _count = tree.len();
    let mut least = NO_DEPTH;
    for child in tree.children(node) {
        least = least.min(least_test_depth(tree, sketches, *child));
    }
    least
}
