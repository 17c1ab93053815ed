//! The closers of a subtree, and how they are split among the children of its node.
ghost use Rattle.std.specs.Prelude.{◌≡◌, ◌≢◌, ◌<◌, ◌≤◌, ℕ, [], Some, not, length, vec_len, map, filter, All, IfOk, IfNone, IfSome, slice_index_or, take};
ghost use Rattle.ext_tree.specs.Trees.{children_of};
ghost use Rattle.ext_store.specs.Stores.{IsCloserOf};
ghost use Rattle.ext_engine.specs.InnerClosers.{IsItem, IsWithin, OfStore, HasClosers, HasBelow, HasTaken};

use crate::Suite;
use ext_model::ContextNo;
use ext_store::{Closer, Store, StoreValue};
use std::alloc::{AllocError, Global};

/// A node that is to be run, with the closers of its subtree.
#[derive(Drop)]
pub(crate) struct Item {
    pub node: ContextNo,
    /// The closers of its context and of those below it.
    pub closers: Vec<Closer>,
}

/// Takes out the closer of the node itself, and leaves those of the nodes below it.
///
/// The closers are the store's, and among them are those of the node and of all below it.
pub(crate) fn take_own<V>(store: &Store<V>, node: ContextNo, closers: &mut Vec<Closer>) -> Closer
    requires own { OfStore store.now closers.old.items }
    requires node { node < length store.now.tree }
    requires closers { HasClosers store.now node closers.old.items }
    ensures own { OfStore store.now closers.new.items }
    ensures of_store { IsCloserOf store.now result }
    ensures of_node { result.context ≡ node }
    ensures closers { HasBelow store.now node closers.new.items }
{
    let Some(at) = closer_index(closers.as_slice(), node) else {
        unreachable!()
    };
    closers.remove(at)
}

/// The closer of an item's node. Those of the nodes below it are dropped.
pub(crate) fn closer_of<V>(store: &Store<V>, item: Item) -> Closer
    requires node { item.node < length store.now.tree }
    requires own { OfStore store.now item.closers.items }
    requires closers { HasClosers store.now item.node item.closers.items }
    ensures { IsCloserOf store.now result × (result.context ≡ item.node) }
{
    let Item { node, mut closers } = item;
    take_own(store, node, &mut closers)
}

/// The index of the first closer of the node, if there is one.
pub(crate) fn closer_index(closers: &[Closer], node: ContextNo) -> Option<usize>
    ensures within { IfSome result (λ at. at < length closers.now) }
    ensures at { IfSome result (λ at. (d : _) → (slice_index_or closers.now at d).context ≡ node) }
    ensures first { IfSome result (λ at. All (λ c. c.context ≢ node) (take at closers.now)) }
    ensures none { IfNone result (All (λ c. c.context ≢ node) closers.now) }
{
    closers.iter().position(|c| c.context() == node)
}

/// The children of a node, in order, each with its closers: those that run beside one another, at
/// most 65,536, and the others.
///
/// The closers are the store's, and among them are those of all nodes below. Refused if there is no
/// memory: then the closers are dropped. Takes memory. JUnit 5 User Guide, section "Parallel
/// Execution"; that closers are split among children is an own rule.
pub(crate) fn items_of_children<V: StoreValue + Drop, S: Suite<V>>(
    alloc: Global,
    suite: &S,
    store: &Store<V>,
    node: ContextNo,
    closers: Vec<Closer>,
) -> Result<(Vec<Item>, Vec<Item>), AllocError>
    requires own { OfStore store.now closers.items }
    requires node { node < length store.now.tree }
    requires closers { HasBelow store.now node closers.items }
    ensures beside { IfOk result (λ r. map (λ i. i.node) r.0.items ≡ filter (S.suite_view suite.now).is_concurrent (children_of store.now.tree node)) }
    ensures in_turn { IfOk result (λ r. map (λ i. i.node) r.1.items ≡ filter (λ c. not ((S.suite_view suite.now).is_concurrent c)) (children_of store.now.tree node)) }
    ensures closers { IfOk result (λ r. All (IsItem store.now node) r.0.items × All (IsItem store.now node) r.1.items) }
    ensures few { IfOk result (λ r. vec_len r.0 ≤ 65536) }
{
    let _count = store.tree().len();
    let mut items = without_closers(alloc, store.tree().children(node))?;
    hand_out(store, node, closers, &mut items)?;
    by_mode(alloc, suite, items)
}

/// An item for each of these nodes, in order, without closers yet. Takes memory.
fn without_closers(alloc: Global, nodes: &[ContextNo]) -> Result<Vec<Item>, AllocError>
    ensures nodes { IfOk result (λ items. map (λ i. i.node) items.items ≡ nodes.now) }
    ensures closers { IfOk result (λ items. All (λ i. i.closers.items ≡ []) items.items) }
{
    let mut items = Vec::new(alloc);
    for node in nodes {
        items.push(Item {
            node: *node,
            closers: Vec::new(alloc),
        })?;
    }
    Ok(items)
}

/// Hands each closer to the item of the child whose context is at or above its own. Others are
/// dropped.
///
/// The items are those of the node's children, without closers yet. Refused if there is no memory.
/// Takes memory.
fn hand_out<V>(
    store: &Store<V>,
    node: ContextNo,
    closers: Vec<Closer>,
    items: &mut Vec<Item>,
) -> Result<(), AllocError>
    requires own { OfStore store.now closers.items }
    requires node { node < length store.now.tree }
    requires children { map (λ i. i.node) items.old.items ≡ children_of store.now.tree node }
    requires empty { All (λ i. i.closers.items ≡ []) items.old.items }
    ensures children { IfOk result (λ _. map (λ i. i.node) items.new.items ≡ children_of store.now.tree node) }
    ensures closers { IfOk result (λ _. All (HasTaken store.now closers.items) items.new.items) }
{
    for closer in closers {
        if let Some(at) = child_above(store, node, closer.context()) {
            items[at].closers.push(closer)?;
        }
    }
    Ok(())
}

/// The index, among the node's children, of the one at or above the context, if there is one.
fn child_above<V>(store: &Store<V>, node: ContextNo, context: ContextNo) -> Option<usize>
    requires node { node < length store.now.tree }
    requires context { context < length store.now.tree }
    ensures within { IfSome result (λ at. at < length (children_of store.now.tree node)) }
    ensures at { (at : ℕ) → at < length (children_of store.now.tree node) → IsWithin store.now.tree (slice_index_or (children_of store.now.tree node) at 0) context → result ≡ Some at }
{
    let tree = store.tree();
    let _count = tree.len();
    let depth = tree.path(node).as_slice().len();
    let path = tree.path(context).as_slice();
    if path.len() <= depth {
        return None;
    }
    let child = path[path.len() - depth - 1];
    tree.children(node).binary_search(&child).ok()
}

/// The items that run beside one another, and the others, each in order. Refused if there is no
/// memory. Takes memory.
fn by_mode<V: StoreValue + Drop, S: Suite<V>>(
    alloc: Global,
    suite: &S,
    items: Vec<Item>,
) -> Result<(Vec<Item>, Vec<Item>), AllocError>
    ensures { IfOk result (λ r. (r.0.items ≡ filter (λ i. (S.suite_view suite.now).is_concurrent i.node) items.items)
        × (r.1.items ≡ filter (λ i. not ((S.suite_view suite.now).is_concurrent i.node)) items.items)) }
{
    let mut beside = Vec::new(alloc);
    let mut in_turn = Vec::new(alloc);
    for item in items {
        if suite.mode(item.node).is_concurrent() {
            beside.push(item)?;
        } else {
            in_turn.push(item)?;
        }
    }
    Ok((beside, in_turn))
}
