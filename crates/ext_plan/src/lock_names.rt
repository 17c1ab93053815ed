//! The names of a plan's locks.
ghost use Rattle.std.specs.Prelude.{◌≡◌, map, fold, IfOk, OnOk};
ghost use Rattle.std.specs.List.{list_any};
ghost use Rattle.std.specs.Str.{bytes_eq};
ghost use Rattle.ext_plan.specs.Plans.{lock_view, nodes_view};
ghost use Rattle.ext_plan.specs.LockNames.{lock_name, lock_names, with_name};

use crate::plan::{Plan, PlanLock};
use std::alloc::{AllocError, Global};

impl Plan {
    /// Lists the names of the resource locks of all nodes, without repetition, in the order in
    /// which the nodes first name them. A plan that was read has at most 63.
    ///
    /// Takes memory for the list, and fails with `AllocError` only if that is refused. Source:
    /// JUnit 5 User Guide, section "Synchronization".
    pub fn lock_names(&self, alloc: Global) -> Result<Vec<&str>, AllocError>
        ensures { IfOk result (λ names. map (λ n. n.now) names.items ≡ lock_names (nodes_view self.now.nodes.items)) }
    {
        let mut names = Vec::new(alloc);
        for node in self.nodes.as_slice() {
            add_names(&mut names, node.locks.as_slice())?;
        }
        Ok(names)
    }
}

/// Adds the names of the locks that are not there yet.
fn add_names<'a>(names: &mut Vec<&'a str>, locks: &'a [PlanLock]) -> Result<(), AllocError>
    ensures { OnOk result (map (λ n. n.now) names.new.items ≡ fold with_name (map (λ n. n.now) names.old.items) (map (λ l. lock_name (lock_view l)) locks.now)) }
{
    for lock in locks {
        add_name(names, lock.name())?;
    }
    Ok(())
}

/// Adds a name if it is not there yet.
fn add_name<'a>(names: &mut Vec<&'a str>, name: &'a str) -> Result<(), AllocError>
    ensures { OnOk result (map (λ n. n.now) names.new.items ≡ with_name (map (λ n. n.now) names.old.items) name.now) }
{
    if is_there(names.as_slice(), name) {
        return Ok(());
    }
    names.push(name)?;
    Ok(())
}

/// Tests whether a name is one of these.
fn is_there(names: &[&str], name: &str) -> bool
    ensures { result ≡ list_any (λ n. bytes_eq name.now n.now) names.now }
{
    names.iter().any(|other| name == *other)
}
