//! What a case opens: contexts and a store of them; and keys.
ghost use Rattle.std.specs.Prelude.{◌<◌, All, IfOk, length};
ghost use Rattle.ext_store.specs.Stores.{IsCloserOf, IsLaneOf};

use crate::fault::BenchFault;
use ext_ids::UniqueId;
use ext_model::Size;
use ext_store::{Closer, Lane, Limits, Store, StoreValue};
use ext_tree::{Key, Namespace, Tree};
use std::alloc::Global;

/// A value: a number, and whether it is closeable.
#[derive(Clone, Copy)]
pub(crate) struct Payload {
    pub(crate) number: u32,
    pub(crate) closeable: bool,
}

impl StoreValue for Payload {
    ghost is_closeable = { λ v. v.closeable };

    fn closeable(&self) -> bool {
        self.closeable
    }
}

/// The closeable value of a number.
pub(crate) fn resource(number: u32) -> Payload {
    Payload {
        number,
        closeable: true,
    }
}

/// A store, its lanes and its closers.
pub(crate) type Opened = (Store<Payload>, Vec<Lane<Payload>>, Vec<Closer>);

/// One more context.
fn add(alloc: Global, ids: &mut Vec<UniqueId>, text: &str) -> Option<()> {
    ids.push(UniqueId::parse(alloc, text).ok()?).ok()
}

/// An engine, and so many contexts one below the other.
pub(crate) fn chain(alloc: Global, below: usize) -> Option<Tree> {
    let mut ids = Vec::new(alloc);
    add_chain(alloc, &mut ids, below)?;
    Tree::build(alloc, ids.as_slice()).ok()
}

fn add_chain(alloc: Global, ids: &mut Vec<UniqueId>, below: usize) -> Option<()> {
    let mut text = String::from_str(alloc, "[engine:x]").ok()?;
    add(alloc, ids, text.as_str())?;
    for _ in 0..below {
        text.push_str("/[class:x]").ok()?;
        add(alloc, ids, text.as_str())?;
    }
    Some(())
}

/// An engine with so many classes.
pub(crate) fn wide(alloc: Global, classes: u32) -> Option<Tree> {
    let ids = wide_ids(alloc, classes)?;
    Tree::build_within(alloc, ids.as_slice(), 65_536).ok()
}

/// The ids of an engine and of so many classes.
pub(crate) fn wide_ids(alloc: Global, classes: u32) -> Option<Vec<UniqueId>> {
    let mut ids = Vec::new(alloc);
    add_wide(alloc, &mut ids, classes).and(Some(ids))
}

fn add_wide(alloc: Global, ids: &mut Vec<UniqueId>, classes: u32) -> Option<()> {
    add(alloc, ids, "[engine:x]")?;
    for class in 0..classes {
        add_class(alloc, ids, class)?;
    }
    Some(())
}

fn add_class(alloc: Global, ids: &mut Vec<UniqueId>, class: u32) -> Option<()> {
    let text = format!(in alloc; "[engine:x]/[class:{class}]").ok()?;
    add(alloc, ids, text.as_str())
}

/// The global key of this number.
fn key(alloc: Global, number: u32) -> Option<Key> {
    let name = format!(in alloc; "key{number}").ok()?;
    Key::new(alloc, Namespace::global(), name.as_str()).ok()
}

/// So many keys.
pub(crate) fn names(alloc: Global, count: u32) -> Option<Vec<Key>> {
    let mut names = Vec::new(alloc);
    add_names(alloc, &mut names, count).and(Some(names))
}

fn add_names(alloc: Global, names: &mut Vec<Key>, count: u32) -> Option<()> {
    for number in 0..count {
        names.push(key(alloc, number)?).ok()?;
    }
    Some(())
}

/// The size of a store of so many contexts.
pub(crate) fn size_for(contexts: usize) -> Size {
    if contexts > 256 {
        Size::Large
    } else {
        Size::Usual
    }
}

/// A store of these contexts, with so many lanes and all numbers that one of its size can have.
pub(crate) fn open(alloc: Global, tree: Option<Tree>, lanes: usize) -> Result<Opened, BenchFault>
    ensures lanes { IfOk result (λ r. All (IsLaneOf r.0.id) r.1.items) }
    ensures closers { IfOk result (λ r. All (IsCloserOf r.0) r.2.items) }
{
    let Some(tree) = tree else {
        return Err(BenchFault::Opening);
    };
    let size = size_for(tree.len());
    let limits = Limits {
        size,
        numbers: size.numbers(),
        ..Limits::new(lanes)
    };
    match Store::open(alloc, tree, limits) {
        Ok(opened) => Ok(opened),
        Err(_) => Err(BenchFault::Opening),
    }
}
