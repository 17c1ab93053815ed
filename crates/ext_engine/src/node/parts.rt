//! What a container is run with.
ghost use Rattle.std.specs.Prelude.{◌≡◌, ◌≤◌, ℕ, ◌-◌, List, IfOk, IfErr, false, vec_len};
ghost use Rattle.ext_tree.specs.Trees.{IsPathOf};
ghost use Rattle.ext_lifecycle.specs.Callbacks.{befores_of, afters_of};
ghost use Rattle.ext_store.specs.Stores.{IsCloserOf};
ghost use Rattle.ext_engine.specs.declared.node.fault.EngineFault.TheVariants as engine_fault;
ghost use Rattle.ext_engine.specs.InnerClosers.{IsNode};
ghost use Rattle.ext_engine.specs.InnerContainers.{AreChildren};

use crate::Suite;
use crate::node::{EngineFault, Item, NodeRunner, RanNode, items_of_children, take_own};
use ext_lifecycle::{Call, calls_round};
use ext_store::{Closer, StoreValue};
use std::alloc::Global;

/// The children of a container, each with the closers of its subtree.
#[derive(Drop)]
pub(crate) struct Children {
    /// Those that run beside one another.
    pub beside: Vec<Item>,
    /// Those that run one after another.
    pub in_turn: Vec<Item>,
    /// A list with room for what each child that runs in turn gives.
    pub outcomes: Vec<Result<Vec<RanNode>, EngineFault>>,
}

/// What a container is run with.
#[derive(Drop)]
pub(crate) struct Parts {
    pub(crate) closer: Closer,
    /// Its before-callbacks and its after-callbacks, in the order of their calls.
    pub(crate) befores: Vec<Call>,
    pub(crate) afters: Vec<Call>,
    pub(crate) children: Children,
}

/// What the container is run with: its closer, its callbacks, its children, and a list for what
/// these give. Takes memory for them.
pub(crate) fn container_parts<'a, R, V: StoreValue + Drop, S: Suite<V>>(
    nodes: &NodeRunner<'a, R, V, S>,
    alloc: Global,
    depth: usize,
    item: Item,
) -> Result<Parts, EngineFault>
    requires item { IsNode nodes.now.store.now depth item }
    ensures parts { IfOk result (λ r. IsCloserOf nodes.now.store.now r.closer × (r.closer.context ≡ item.node)
        × ((path : List ℕ) × IsPathOf nodes.now.store.now.tree item.node path
        × (r.befores.items ≡ befores_of (S.registered nodes.now.suite.now) false item.node path) × (r.afters.items ≡ afters_of (S.registered nodes.now.suite.now) false item.node path))
        × (vec_len r.befores ≤ 16777216) × (vec_len r.afters ≤ 16777216)
        × AreChildren nodes.now.store.now (S.suite_view nodes.now.suite.now) (depth - 1) item.node r.children × (1 ≤ depth))
        × IfErr result (λ why. why ≡ engine_fault.Memory) }
{
    let Item { node, mut closers } = item;
    let closer = take_own(nodes.store, node, &mut closers);
    let path = nodes.store.tree().path(node);
    let (befores, afters) = calls_round(alloc, nodes.suite, false, node, path.as_slice())?;
    let (beside, in_turn) = items_of_children(alloc, nodes.suite, nodes.store, node, closers)?;
    let outcomes = Vec::with_capacity(alloc, in_turn.len())?;
    Ok(Parts {
        closer,
        befores,
        afters,
        children: Children {
            beside,
            in_turn,
            outcomes,
        },
    })
}
