//! Isolation and resource locks, as a plan's reader gives them.
use crate::same::same;
use ext_plan_reading::{PlanLock, read_plan};
use std::test::Fail;

/// An engine that is isolated, a class with a lock, and a test with two.
const LOCKED: &str =
    "[[node]]\nid = \"[engine:x]\"\nisolated = true\n\n[[node]]\nid = \"[engine:x]/[class:A]\"\nlocks = [\"READ db\"]\n\n[[node]]\nid = \"[engine:x]/[class:A]/[method:m()]\"\nisolated = false\nlocks = [\"READ_WRITE db\", \"READ READ\"]\ntest = []\n";

/// A plan with an isolated node and locks is read with the mode and the name of each lock.
/// Tests `PlanLock::name` and `read_plan`.
#[test]
fn reads_isolation_and_locks(rt: HostRuntime) -> Result<(), Fail> {
    let plan = read_plan(rt.alloc(), LOCKED)?;
    let isolated: Vec<bool> = plan.nodes.iter().map(|n| n.isolated).collect(rt.alloc())?;
    same(&rt, isolated.as_slice(), &[true, false, false], "isolated");
    let mut names = String::new(rt.alloc());
    for node in plan.nodes.iter() {
        for lock in node.locks.iter() {
            names.push_str(match lock {
                PlanLock::Read(_) => "r ",
                PlanLock::ReadWrite(_) => "w ",
            })?;
            names.push_str(lock.name())?;
            names.push_str(",")?;
        }
    }
    same(&rt, names.as_str(), "r db,w db,r READ,", "the locks");
    Ok(())
}
