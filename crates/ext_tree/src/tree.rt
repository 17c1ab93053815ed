//! Contexts in a tree, by their unique ids.
ghost use Rattle.std.specs.Prelude.{ℕ, ◌≡◌, ◌≢◌, ◌<◌, ◌≤◌, Ok, Err, IfOk, IfErr, OnOk, IsErrOf, MatchResult, All, AllPairs, length};
ghost use Rattle.ext_ids.specs.Grammar.{IsId};
ghost use Rattle.ext_tree.specs.Trees.{Id, id_at, IsTree, IsTreeWithin, HasFault, IsPathOf, children_of};
ghost use Rattle.ext_tree.specs.InnerBuilding.{AreParents};
ghost use Rattle.ext_tree.specs.declared.fault.TreeFault.{TreeFault};
ghost use Rattle.ext_tree.specs.declared.fault.TreeFault.TheVariants.{Memory};

use crate::building::{check_root, children_lists, parents_of, paths_of, refusal};
use crate::{Path, TreeFault};
use ext_ids::UniqueId;
use ext_model::{ContextNo, Size};
use std::alloc::{AllocError, Global};
use std::marker::Model;

/// Contexts in a tree: 1 to 65,536 of them, numbered from 0, the root, in the order of their ids.
///
/// JUnit 5 User Guide, section "Keeping State in Extensions". The order and the limits are own
/// rules.
#[derive(Drop)]
pub struct Tree {
    ids: Vec<UniqueId>,
    paths: Vec<Path>,
    lists: Vec<Vec<ContextNo>>,
}

impl Model for Tree {
    ghost use Rattle.std.specs.Prelude.{ℕ, List, length};

    ghost Value = { List (List (List ℕ × List ℕ)) };

    ghost use Rattle.ext_tree.specs.InnerBuilding.{IsShaped};

    ghost view = { λ t. t.ids.items };

    ghost invariant = { λ t. IsShaped t.ids.items t.paths.items t.lists.items };
}

impl Tree {
    /// Builds the tree of contexts with these ids, at most 256, numbered as listed. Takes memory.
    /// `build_within` accepts more ids.
    ///
    /// Refused for the first fault: `NoRoot` if there is no id, `TooMany` for more than 256,
    /// `NoRoot` if the first id does not have exactly one segment; then for each later id in order
    /// `Twice`, `TwoRoots` if it has one segment, and `NoParent` if its parent does not stand
    /// before it. `Memory` comes only if nothing is wrong with the ids. The tree holds copies of
    /// the ids.
    ///
    /// The time grows as the number of ids. Only if memory is refused before all ids are checked,
    /// each id is compared with all before it.
    pub fn build(alloc: Global, ids: &[UniqueId]) -> Result<Tree, TreeFault>
        // Accepted ids are a tree, and the ids of a tree are accepted while there is memory.
        ensures found { OnOk result (IsTree ids.now) }
        ensures few { OnOk result (length ids.now ≤ 256) }
        ensures ids { IfOk result (λ t. t ≡ ids.now) }
        ensures only { IsTree ids.now → length ids.now ≤ 256 → MatchResult result (λ t. t ≡ ids.now) (λ e. e ≡ Memory) }

        // A refusal names the first fault, and ids with a fault are refused for it.
        ensures fault { IfErr result (λ e. e ≢ Memory → HasFault 256 ids.now e) }
        ensures first { (e : TreeFault) → HasFault 256 ids.now e → IsErrOf result e }
        ensures memory { result ≡ Err Memory → IsTreeWithin 256 ids.now }
    {
        Tree::build_within(alloc, ids, Size::Usual.contexts())
    }

    /// Builds the tree as `build` does, of at most `most` ids in place of 256: for suites that need
    /// more contexts, or a lower limit. `most` is at most 65,536. More ids are refused as
    /// `TooMany`.
    pub fn build_within(alloc: Global, ids: &[UniqueId], most: usize) -> Result<Tree, TreeFault>
        requires most { most ≤ 65536 }

        // Accepted ids are a tree, and the ids of a tree are accepted while there is memory.
        ensures found { OnOk result (IsTreeWithin most ids.now) }
        ensures ids { IfOk result (λ t. t ≡ ids.now) }
        ensures only { IsTreeWithin most ids.now → MatchResult result (λ t. t ≡ ids.now) (λ e. e ≡ Memory) }

        // A refusal names the first fault, and ids with a fault are refused for it.
        ensures fault { IfErr result (λ e. e ≢ Memory → HasFault most ids.now e) }
        ensures first { (e : TreeFault) → HasFault most ids.now e → IsErrOf result e }
        ensures memory { result ≡ Err Memory → IsTreeWithin most ids.now }
    {
        check_root(ids, most)?;
        match parents_of(alloc, ids) {
            Ok(parents) => Ok(Tree::of(alloc, ids, parents.as_slice())?),
            Err(fault) => Err(refusal(ids, fault)),
        }
    }

    /// The path of the context: itself, its parent, and so on to the root.
    ///
    /// JUnit 5 User Guide, section "Keeping State in Extensions".
    pub fn path(&self, context: ContextNo) -> &Path
        requires { context < length self.now }
        ensures path { IsPathOf self.now context result.now }
        ensures depth { length result.now ≡ length (id_at self.now context) }
        ensures some { 0 < length result.now }
        ensures few { length result.now ≤ 16 }
        ensures within { All (λ c. c < length self.now) result.now }
        ensures different { AllPairs (λ a b. a ≢ b) result.now }
    {
        &self.paths[context]
    }

    /// The context's children, in order.
    pub fn children(&self, context: ContextNo) -> &[ContextNo]
        requires { context < length self.now }
        ensures { result.now ≡ children_of self.now context }
    {
        self.lists[context].as_slice()
    }

    /// The unique id of the context.
    pub fn id(&self, context: ContextNo) -> &UniqueId
        requires { context < length self.now }
        ensures { result.now ≡ id_at self.now context }
    {
        &self.ids[context]
    }

    /// How many contexts there are: 1 to 65,536. A tree has its root, so there is no `is_empty`.
    pub fn len(&self) -> usize
        ensures count { result ≡ length self.now }
        ensures some { 0 < result }
        ensures few { result ≤ 65536 }
        ensures tree { IsTree self.now }
    {
        self.ids.len()
    }

    // The tree with copies of the ids, whose parents stand at these indices.
    fn of(alloc: Global, ids: &[UniqueId], parents: &[ContextNo]) -> Result<Tree, AllocError>
        requires tree { IsTree ids.now }
        requires parents { AreParents ids.now (length ids.now) parents.now }
        ensures { IfOk result (λ t. t ≡ ids.now) }
    {
        let lists = children_lists(alloc, ids, parents)?;
        let paths = paths_of(alloc, ids, parents)?;
        let ids = ids.to_vec(alloc)?;
        Ok(Tree { ids, paths, lists })
    }
}
