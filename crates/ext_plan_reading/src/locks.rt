//! The resource locks that the nodes of a plan name.
ghost use Rattle.std.specs.Prelude.{◌≡◌, [], map, fold, option_map, length, nat_le, IfErr, OnOk};
ghost use Rattle.ext_plan.specs.Plans.{lock_view, locks_view, nodes_view};
ghost use Rattle.ext_plan.specs.LockNames.{lock_limit, lock_name, lock_names, with_name};
ghost use Rattle.ext_plan_reading.specs.Faults.{Gives};
ghost use Rattle.ext_plan_reading.specs.InnerSketches.{GivesAll};
ghost use Rattle.ext_plan_reading.specs.LockReading.{lock_at, lock_named, lock_of, lock_of_words, locks_after, locks_at};

use crate::fault::PlanFault;
use crate::labels::Labels;
use crate::steps::words_of;
use ext_plan::{PlanLock, PlanNode};
use std::alloc::Global;

/// How many different names the locks of a plan have at most.
const LOCK_LIMIT: usize = 63;

/// The locks of a node, in order. `node` is the node's index in the plan.
#[tactic(auto, unfolding(crate::specs::LockReading::locks_at))]
pub(crate) fn locks_of(
    alloc: Global,
    node: usize,
    texts: &Option<Vec<&str>>,
) -> Result<Vec<PlanLock>, PlanFault>
    ensures { Gives locks_view result (locks_at node (option_map (λ v. map (λ t. t.now) v.items) texts.now)) }
{
    match texts {
        None => Ok(Vec::new(alloc)),
        Some(texts) => locks_in_order(alloc, node, texts.as_slice()),
    }
}

/// The locks that the texts of a node spell, in order.
fn locks_in_order(alloc: Global, node: usize, texts: &[&str]) -> Result<Vec<PlanLock>, PlanFault>
    ensures { Gives locks_view result (locks_after node [] (map (λ t. t.now) texts.now)) }
{
    let mut locks = Vec::new(alloc);
    for text in texts {
        let lock = lock_at(alloc, node, text)?;
        locks.push(lock)?;
    }
    Ok(locks)
}

/// The lock that a text of a node spells, or the node's fault.
#[tactic(auto, unfolding(crate::specs::LockReading::lock_at))]
pub(crate) fn lock_at(alloc: Global, node: usize, text: &str) -> Result<PlanLock, PlanFault>
    ensures { Gives lock_view result (lock_at node text.now) }
{
    match lock_of(alloc, text)? {
        None => Err(PlanFault::BadLock(node)),
        Some(lock) => Ok(lock),
    }
}

/// The lock that a text spells, if it is one.
#[tactic(auto, unfolding(crate::specs::LockReading::lock_of))]
fn lock_of(alloc: Global, text: &str) -> Result<Option<PlanLock>, PlanFault>
    ensures { GivesAll (option_map lock_view) result (lock_of text.now) }
{
    let words = words_of(text);
    lock_of_words(alloc, words.as_slice())
}

/// The lock that the words spell, if they are one.
fn lock_of_words(alloc: Global, words: &[&str]) -> Result<Option<PlanLock>, PlanFault>
    ensures { GivesAll (option_map lock_view) result (lock_of_words (map (λ w. w.now) words.now)) }
{
    match words {
        [mode, name] => lock_named(alloc, mode, name),
        _ => Ok(None),
    }
}

/// The lock with this mode and name, if both are valid.
fn lock_named(alloc: Global, mode: &str, name: &str) -> Result<Option<PlanLock>, PlanFault>
    ensures { GivesAll (option_map lock_view) result (lock_named mode.now name.now) }
{
    if name.is_empty() {
        return Ok(None);
    }
    let name = String::from_str(alloc, name)?;
    Ok(match mode {
        "READ" => Some(PlanLock::Read(name)),
        "READ_WRITE" => Some(PlanLock::ReadWrite(name)),
        _ => None,
    })
}

/// Tests whether the locks of the nodes have at most 63 different names.
pub(crate) fn locks_are_few(alloc: Global, nodes: &[PlanNode]) -> Result<bool, PlanFault>
    ensures { GivesAll (λ b. b) result (nat_le (length (lock_names (nodes_view nodes.now))) lock_limit) }
{
    let mut names = Labels::new(alloc);
    for node in nodes {
        add_names(&mut names, node.locks.as_slice())?;
    }
    Ok(names.len() <= LOCK_LIMIT)
}

/// Adds the names of the locks that are not there yet.
fn add_names<'a>(names: &mut Labels<'a>, locks: &'a [PlanLock]) -> Result<(), PlanFault>
    ensures names { OnOk result (names.new ≡ fold with_name names.old (map (λ l. lock_name (lock_view l)) locks.now)) }
    ensures memory { IfErr result (λ e. e ≡ PlanFault.Memory) }
{
    for lock in locks {
        names.add(lock.name())?;
    }
    Ok(())
}
