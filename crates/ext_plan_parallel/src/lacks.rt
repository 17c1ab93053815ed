//! Whether a run may have lacked something, judged by its results.
ghost use Rattle.std.specs.Prelude.{◌≡◌};
ghost use Rattle.ext_lifecycle.specs.FaultTexts.{results_view};
ghost use Rattle.ext_plan_parallel.specs.Lacking.{may_have_lacked};

use ext_lifecycle::NodeResult;

/// Tests whether a step or close of a run with these results lacked something: memory, a number, a
/// key or a place, or being shown what stands in its place. This is true if one of all faults and
/// aborts of a node tells of a lack, also one whose text is not reported.
///
/// If it is false, nothing was lacking (`ext_one_report::shown_lack_laws`).
pub fn may_have_lacked(results: &[NodeResult]) -> bool
    ensures { result ≡ may_have_lacked (results_view results.now) }
{
    for node in results {
        if node.lacked {
            return true;
        }
    }
    false
}
