//! A store of as many cells as there can be in one of the usual size.
use crate::asked::same;
use crate::opening::Letter;
use ext_ids::UniqueId;
use ext_model::Size;
use ext_store::{Limits, Store, StoreFault};
use ext_tree::Tree;
use std::alloc::Global;
use std::test::Fail;

/// The id of a class.
fn class_id(alloc: Global, class: u32) -> Result<UniqueId, Fail> {
    let text = format!(in alloc; "[engine:x]/[class:{class}]")?;
    Ok(UniqueId::parse(alloc, text.as_str())?)
}

/// The ids of an engine with so many classes.
pub(crate) fn engine_ids(alloc: Global, classes: u32) -> Result<Vec<UniqueId>, Fail> {
    let mut ids = Vec::new(alloc);
    ids.push(UniqueId::parse(alloc, "[engine:x]")?)?;
    for class in 0..classes {
        ids.push(class_id(alloc, class)?)?;
    }
    Ok(ids)
}

/// How many lanes and closers there are, or why a store is not opened, whatever the parts of a
/// store are.
fn counts<S: Drop, L: Drop, C: Drop>(
    opened: Result<(S, Vec<L>, Vec<C>), StoreFault>,
) -> Result<(usize, usize), StoreFault> {
    let (_store, lanes, closers) = opened?;
    Ok((lanes.len(), closers.len()))
}

/// How many lanes and closers the store has, or why it is not opened.
pub(crate) fn lanes_and_closers(
    alloc: Global,
    tree: Tree,
    limits: Limits,
) -> Result<(usize, usize), StoreFault> {
    counts(Store::<Letter>::open(alloc, tree, limits))
}

/// The limits of a store of the usual size that has as much of everything as there can be.
const WIDEST: Limits = Limits {
    lanes: 16,
    tries: 64,
    keys: 1_024,
    numbers: 65_535,
    keep_faults: true,
    size: Size::Usual,
};

/// A store of the usual size with as much of everything as there can be opens with 16 lanes and 256
/// closers.
/// Tests `Store::open`.
#[test]
fn widest_store_is_opened(rt: HostRuntime) -> Result<(), Fail> {
    let ids = engine_ids(rt.alloc(), 255)?;
    let tree = Tree::build(rt.alloc(), ids.as_slice())?;
    let counts = lanes_and_closers(rt.alloc(), tree, WIDEST);
    same(&rt, counts, Ok((16, 256)), "lanes and closers");
    Ok(())
}
