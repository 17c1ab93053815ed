//! Works out the parents, children and paths of a list of ids, or what is wrong with the list.
ghost use Rattle.std.specs.Prelude.{ℕ, ◌≡◌, ◌≢◌, ◌+◌, ◌<◌, ◌≤◌, ◌↔◌, IsTrue, IfOk, IfErr, OnOk, MatchResult, length, take, []};
ghost use Rattle.ext_tree.specs.Trees.{StandsBefore, HasRoot, IsTree, HasFault, IsWrong, IsPathOf};
ghost use Rattle.ext_tree.specs.InnerBuilding.{IsFirstWrong, IsParentBefore, IsJudged, AreParents, AreChildren, ArePaths, Follows};
ghost use Rattle.ext_tree.specs.declared.fault.TreeFault.TheVariants.{Memory};

use crate::path::MAX_DEPTH;
use crate::trail::Trail;
use crate::{Path, TreeFault};
use ext_ids::UniqueId;
use ext_model::ContextNo;
use indexmap::IndexSet;
use std::alloc::{AllocError, Global};

/// Checks that the list begins with a root, and that it has at most `most` ids.
pub(crate) fn check_root(ids: &[UniqueId], most: usize) -> Result<(), TreeFault>
    requires { most ≤ 65536 }
    ensures ok { OnOk result (HasRoot ids.now × (length ids.now ≤ most)) }
    ensures err { IfErr result (HasFault most ids.now) }
{
    if ids.is_empty() {
        return Err(TreeFault::NoRoot);
    }
    if ids.len() > most {
        return Err(TreeFault::TooMany);
    }
    if ids[0].len() != 1 {
        return Err(TreeFault::NoRoot);
    }
    Ok(())
}

/// The indices of the parents. Each id and its parent are looked up in a table, not among all other
/// ids.
pub(crate) fn parents_of(alloc: Global, ids: &[UniqueId]) -> Result<Vec<ContextNo>, TreeFault>
    requires { HasRoot ids.now }
    ensures { MatchResult result (λ v. AreParents ids.now (length ids.now) v.items) (λ e. e ≢ Memory → IsFirstWrong ids.now e) }
{
    let mut table = IndexSet::new(alloc);
    let mut parents = Vec::new(alloc);
    parents_by(alloc, &mut table, &mut parents, ids)?;
    Ok(parents)
}

/// Does the work of `parents_of`, with a table and a list that are empty before.
fn parents_by(
    alloc: Global,
    table: &mut IndexSet<Trail>,
    parents: &mut Vec<ContextNo>,
    ids: &[UniqueId],
) -> Result<(), TreeFault>
    requires root { HasRoot ids.now }
    requires empty { (table.old.keys ≡ []) × (parents.old.items ≡ []) }
    ensures { MatchResult result (λ _. AreParents ids.now (length ids.now) parents.new.items) (λ e. e ≢ Memory → IsFirstWrong ids.now e) }
{
    enter_root(alloc, table, ids)?;
    parents.push(0)?;
    for i in 1..ids.len() {
        let parent = enter(alloc, table, ids, i)?;
        parents.push(parent)?;
    }
    Ok(())
}

/// Puts the first id into the empty table.
fn enter_root(
    alloc: Global,
    table: &mut IndexSet<Trail>,
    ids: &[UniqueId],
) -> Result<(), AllocError>
    requires root { HasRoot ids.now }
    requires empty { table.old.keys ≡ [] }
    ensures { OnOk result (table.new.keys ≡ take 1 ids.now) }
{
    table.insert(Trail::of(alloc, &ids[0], ids[0].len())?)?;
    Ok(())
}

/// Puts the id into the table of those before it, and answers the index of its parent.
fn enter(
    alloc: Global,
    table: &mut IndexSet<Trail>,
    ids: &[UniqueId],
    at: usize,
) -> Result<ContextNo, TreeFault>
    requires within { (0 < at) × (at < length ids.now) }
    requires table { table.old.keys ≡ take at ids.now }
    ensures { MatchResult result (λ parent. Follows ids.now at parent × (table.new.keys ≡ take (at + 1) ids.now)) (λ e. e ≢ Memory → IsWrong ids.now at e) }
{
    let id = &ids[at];
    let above = id.len() - 1;
    let mut trail = Trail::of(alloc, id, above)?;
    let parent = table.get_index_of(&trail);
    trail.push(alloc, id, above)?;
    let stands = table.contains(&trail);
    let parent = judge(ids, at, stands, parent)?;
    table.insert(trail)?;
    Ok(parent)
}

/// The index of the parent of an id, or what is wrong with the id.
fn judge(
    ids: &[UniqueId],
    at: usize,
    stands: bool,
    parent: Option<ContextNo>,
) -> Result<ContextNo, TreeFault>
    requires within { (0 < at) × (at < length ids.now) }
    requires stands { IsTrue stands ↔ StandsBefore ids.now at }
    requires parent { IsParentBefore ids.now at parent }
    ensures { IsJudged ids.now at result }
{
    if stands {
        return Err(TreeFault::Twice(at));
    }
    if ids[at].len() == 1 {
        return Err(TreeFault::TwoRoots(at));
    }
    match parent {
        None => Err(TreeFault::NoParent(at)),
        Some(parent) => Ok(parent),
    }
}

/// Whether the ids are a tree, and the first fault if not, found without memory for a table.
fn check(ids: &[UniqueId]) -> Result<(), TreeFault>
    requires { HasRoot ids.now }
    ensures ok { OnOk result (IsTree ids.now) }
    ensures err { IfErr result (IsFirstWrong ids.now) }
{
    for i in 1..ids.len() {
        let _parent = judge(ids, i, stands_before(ids, i), parent_before(ids, i))?;
    }
    Ok(())
}

/// What is wrong with the ids that `parents_of` refused: `Memory` only if they are a tree. Takes no
/// memory.
pub(crate) fn refusal(ids: &[UniqueId], fault: TreeFault) -> TreeFault
    requires root { HasRoot ids.now }
    requires fault { fault ≢ Memory → IsFirstWrong ids.now fault }
    ensures fault { result ≢ Memory → IsFirstWrong ids.now result }
    ensures memory { result ≡ Memory → IsTree ids.now }
{
    match fault {
        TreeFault::Memory => match check(ids) {
            Ok(()) => TreeFault::Memory,
            Err(fault) => fault,
        },
        fault => fault,
    }
}

/// Whether the id also stands at an earlier index.
fn stands_before(ids: &[UniqueId], at: usize) -> bool
    requires { at < length ids.now }
    ensures { IsTrue result ↔ StandsBefore ids.now at }
{
    ids[..at].contains(&ids[at])
}

/// The index of the id's parent, if it stands before the id.
fn parent_before(ids: &[UniqueId], at: usize) -> Option<ContextNo>
    requires { at < length ids.now }
    ensures { IsParentBefore ids.now at result }
{
    for i in 0..at {
        if ids[i].is_parent_of(&ids[at]) {
            return Some(i);
        }
    }
    None
}

/// For each context the list of its children, in order.
pub(crate) fn children_lists(
    alloc: Global,
    ids: &[UniqueId],
    parents: &[ContextNo],
) -> Result<Vec<Vec<ContextNo>>, AllocError>
    requires tree { IsTree ids.now }
    requires parents { AreParents ids.now (length ids.now) parents.now }
    ensures { IfOk result (λ v. AreChildren ids.now (length ids.now) v.items) }
{
    let mut lists = empty_lists(alloc, ids)?;
    for i in 1..ids.len() {
        let parent = parents[i];
        lists[parent].push(i)?;
    }
    Ok(lists)
}

/// An empty list for each context.
fn empty_lists(alloc: Global, ids: &[UniqueId]) -> Result<Vec<Vec<ContextNo>>, AllocError>
    requires { IsTree ids.now }
    ensures { IfOk result (λ v. AreChildren ids.now 1 v.items) }
{
    let mut lists = Vec::with_capacity(alloc, ids.len())?;
    for _ in 0..ids.len() {
        lists.push_reserved(Vec::new(alloc));
    }
    Ok(lists)
}

/// The path of each context.
pub(crate) fn paths_of(
    alloc: Global,
    ids: &[UniqueId],
    parents: &[ContextNo],
) -> Result<Vec<Path>, AllocError>
    requires tree { IsTree ids.now }
    requires parents { AreParents ids.now (length ids.now) parents.now }
    ensures { IfOk result (λ v. ArePaths ids.now (length ids.now) v.items) }
{
    let mut paths = Vec::with_capacity(alloc, ids.len())?;
    for context in 0..ids.len() {
        paths.push_reserved(path_of(ids, parents, context));
    }
    Ok(paths)
}

/// The path of a context.
fn path_of(ids: &[UniqueId], parents: &[ContextNo], context: ContextNo) -> Path
    requires tree { IsTree ids.now }
    requires parents { AreParents ids.now (length ids.now) parents.now }
    requires context { context < length ids.now }
    ensures path { IsPathOf ids.now context result }
    ensures few { length result ≤ 16 }
{
    let depth = ids[context].len();
    let mut contexts = [context; MAX_DEPTH];
    let mut at = context;
    for i in 1..depth {
        at = parents[at];
        contexts[i] = at;
    }
    Path::of(contexts, depth)
}
