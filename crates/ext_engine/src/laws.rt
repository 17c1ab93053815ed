//! What is true of all runs of trees.
ghost use Rattle.ext_engine.specs.Failing.{EndsByFault, UnknownToAll};
ghost use Rattle.ext_engine.specs.RunLaws.{OfRuns, RunsOnce, SkipsExactly, OneResultEach, SkippedBelow, KeepsLanes};
ghost use Rattle.ext_engine.specs.NodeRun.{setting_of};
ghost use Rattle.ext_engine.specs.Order.{ContainersAreMadeInOrder, ContainersAreSeenInOrder, NodesAreSeen, NodesGoOn, OfSuites};

use crate::Suite;
use ext_store::StoreValue;

/// Proves the laws of runs of trees, for any suite of this type. In a run each node runs at most
/// once, and no node runs that isn't at or below the one that was to be run. A node is skipped
/// exactly where one above it did not run the nodes below it, or where the suite leaves it out.
/// There is one result a node, in order. The lanes stay those of the store, and no lock lane holds
/// anything afterwards. A run ends early for want of memory, or where a context can't be closed. In
/// the latter case, where no node runs beside others, no lane knows the value that remained in it.
///
/// JUnit 5 User Guide, section "Relative Execution Order of User Code and Extensions"; when a node
/// is skipped is an own rule.
pub fn engine_laws<V: StoreValue + Drop, S: Suite<V>>()
    ensures once { OfRuns (setting_of V.is_closeable S.suite_view S.enabled_gives S.registered S.call_gives S.action_gives S.Action.close_gives) RunsOnce }
    ensures skipped { OfRuns (setting_of V.is_closeable S.suite_view S.enabled_gives S.registered S.call_gives S.action_gives S.Action.close_gives) SkipsExactly }
    ensures results { OfRuns (setting_of V.is_closeable S.suite_view S.enabled_gives S.registered S.call_gives S.action_gives S.Action.close_gives) OneResultEach }
    ensures results_skipped { OfRuns (setting_of V.is_closeable S.suite_view S.enabled_gives S.registered S.call_gives S.action_gives S.Action.close_gives) SkippedBelow }
    ensures lanes { OfRuns (setting_of V.is_closeable S.suite_view S.enabled_gives S.registered S.call_gives S.action_gives S.Action.close_gives) KeepsLanes }
    ensures faults { OfRuns (setting_of V.is_closeable S.suite_view S.enabled_gives S.registered S.call_gives S.action_gives S.Action.close_gives) EndsByFault }
    ensures unknown { OfRuns (setting_of V.is_closeable S.suite_view S.enabled_gives S.registered S.call_gives S.action_gives S.Action.close_gives) UnknownToAll }
{}

/// Proves in which order the lanes of a run act, for any suite of this type whose calls let their
/// lanes go on. What a lane does is an event of the one history that all lanes see. All events of a
/// node's run come after what the first lane of its share had seen before it, and are among what
/// that lane has seen after it. So in a container whose children are run, what a concurrent child
/// does comes after the before-callbacks, and before the other children, the after-callbacks and
/// the close. What each of the others does comes after all that was done before it, and before all
/// that is done after it. The after-callbacks come after all children, and the close after them.
/// Nothing is said of two concurrent children of one container.
///
/// An own rule, for JUnit 5 User Guide, sections "Relative Execution Order of User Code and
/// Extensions" and "Parallel Execution".
pub fn order_laws<V: StoreValue + Drop, S: Suite<V>>()
    ensures go_on { OfSuites (setting_of V.is_closeable S.suite_view S.enabled_gives S.registered S.call_gives S.action_gives S.Action.close_gives) NodesGoOn }
    ensures seen { OfSuites (setting_of V.is_closeable S.suite_view S.enabled_gives S.registered S.call_gives S.action_gives S.Action.close_gives) NodesAreSeen }
    ensures containers_seen { OfSuites (setting_of V.is_closeable S.suite_view S.enabled_gives S.registered S.call_gives S.action_gives S.Action.close_gives) ContainersAreSeenInOrder }
    ensures containers { OfSuites (setting_of V.is_closeable S.suite_view S.enabled_gives S.registered S.call_gives S.action_gives S.Action.close_gives) ContainersAreMadeInOrder }
{}
