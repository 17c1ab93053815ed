//! What is true of all runs of plans on several lanes.
ghost use Rattle.ext_plan_parallel.specs.Finding.{LanesNumberAlike, PlansGoOn, RunsFindWhatIsKept};

/// Proves the laws of runs of plans on several lanes: of order, of what their steps find, and of
/// the numbers of keys.
///
/// A call of a plan's node lets its lane go on, so that the laws of order of `ext_engine`
/// (`order_laws`) hold of each such run. A value that a step sees, which a `want`, a `none` or a
/// `computefail` may, is one that a step of the plan puts or computes under the same key: a text
/// that no step of the plan keeps under a key is never reported there. A kept fault that a step
/// meets, which a `compute` may too, is that of a `computefail` of the plan under the same key with
/// the same text, and the plan keeps faults. This rests on the numbers of keys: any two lanes of a
/// run have the same number for a key that both know, and the same key for a number that both know.
///
/// Source: Javadoc type `ExtensionContext.Store`, `get`.
pub fn parallel_laws()
    ensures go_on { PlansGoOn }
    ensures found { RunsFindWhatIsKept }
    ensures numbered { LanesNumberAlike }
{}
