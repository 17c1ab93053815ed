//! Who makes the events that a lane sees while a node of a tree runs, and which of them are on the
//! cells of that node.
ghost use Rattle.ext_one_report.specs.AloneLaws.{CallsAreAlone, ChildrenRunAlone, ContainersAreAlone, FreshLanesAreAll, TestsAreAlone, WholeRunsAreAlone};
ghost use Rattle.ext_one_report.specs.Changing.{ActsAreOnly, AloneOnCells, AloneSeesItsOwn, ApartIsLeft, CallsAreAloneOnCells, OfCells, RunsChangeOnly};
ghost use Rattle.ext_engine.specs.NodeRun.{setting_of};
ghost use Rattle.ext_engine.specs.Order.{OfSuites};

use ext_engine::Suite;
use ext_store::StoreValue;

/// Proves who makes the events that a lane sees while a node runs.
///
/// It is for any suite whose calls let their lanes go on.
///
/// A run with all lanes of a store makes all events that are seen meanwhile. Where a node runs
/// alone but for nodes that may run beside it, so does each child, so is each call of it and of the
/// nodes below it, and so is the close of its context. That a close is alone is proved of one
/// container and of one test at a time, and not of all closes of a run at once.
///
/// JUnit 5 User Guide, section "Parallel Execution", on nodes that run concurrently; all else is an
/// own rule.
pub fn alone_laws<V: StoreValue + Drop, S: Suite<V>>()
    ensures whole { OfSuites (setting_of V.is_closeable S.suite_view S.enabled_gives S.registered S.call_gives S.action_gives S.Action.close_gives) WholeRunsAreAlone }
    ensures fresh { FreshLanesAreAll V }
    ensures containers { OfSuites (setting_of V.is_closeable S.suite_view S.enabled_gives S.registered S.call_gives S.action_gives S.Action.close_gives) ContainersAreAlone }
    ensures children { OfSuites (setting_of V.is_closeable S.suite_view S.enabled_gives S.registered S.call_gives S.action_gives S.Action.close_gives) ChildrenRunAlone }
    ensures tests { OfSuites (setting_of V.is_closeable S.suite_view S.enabled_gives S.registered S.call_gives S.action_gives S.Action.close_gives) TestsAreAlone }
    ensures calls { OfSuites (setting_of V.is_closeable S.suite_view S.enabled_gives S.registered S.call_gives S.action_gives S.Action.close_gives) CallsAreAlone }
{}

/// Proves that a node is alone on the cells that no node beside it changes.
///
/// It is for any suite whose calls let their lanes go on, and any cells that each node changes.
/// Each event of a run is on a cell that its node or a node below it changes. A node that runs
/// alone but for nodes beside it is alone on each cell that none of these changes: an event there
/// that is seen meanwhile is its own, and so it is with each of its calls. Where nodes that may run
/// beside one another are apart, the cells that a node looks at are left to it.
///
/// JUnit 5 User Guide, section "Parallel Execution", on nodes that run concurrently; all else is an
/// own rule.
pub fn apart_laws<V: StoreValue + Drop, S: Suite<V>>()
    ensures acts { ActsAreOnly V }
    ensures changed { OfCells (setting_of V.is_closeable S.suite_view S.enabled_gives S.registered S.call_gives S.action_gives S.Action.close_gives) RunsChangeOnly }
    ensures alone { OfCells (setting_of V.is_closeable S.suite_view S.enabled_gives S.registered S.call_gives S.action_gives S.Action.close_gives) AloneOnCells }
    ensures calls { OfCells (setting_of V.is_closeable S.suite_view S.enabled_gives S.registered S.call_gives S.action_gives S.Action.close_gives) CallsAreAloneOnCells }
    ensures sees { OfCells (setting_of V.is_closeable S.suite_view S.enabled_gives S.registered S.call_gives S.action_gives S.Action.close_gives) AloneSeesItsOwn }
    ensures left { OfCells (setting_of V.is_closeable S.suite_view S.enabled_gives S.registered S.call_gives S.action_gives S.Action.close_gives) ApartIsLeft }
{}
