//! The store of the tests: a chain of three contexts, opened with two lanes.
ghost use Rattle.std.specs.Prelude.{◌≡◌, ◌<◌, ◌++◌, true, false, List, All, IfSome, Some, length, option_to_list};
ghost use Rattle.ext_store.specs.Stores.{IsCloserOf, IsLaneOf};

use ext_ids::UniqueId;
use ext_store::{Closer, Lane, Limits, Store, StoreValue};
use ext_tree::{Key, Namespace, Tree};
use std::alloc::Global;

/// A value of the tests: a letter, and whether it is closeable.
#[derive(Clone, Copy, Debug, PartialEq, Eq)]
pub struct Letter {
    /// The letter.
    pub letter: char,
    /// Whether it is closeable.
    pub closeable: bool,
}

impl StoreValue for Letter {
    ghost is_closeable = { λ v. v.closeable };

    fn closeable(&self) -> bool {
        self.closeable
    }
}

/// A letter that is not closeable.
pub fn plain(letter: char) -> Letter
    ensures letter { result.letter ≡ letter }
    ensures plain { result.closeable ≡ false }
{
    Letter {
        letter,
        closeable: false,
    }
}

/// A letter that is closeable.
pub fn closeable(letter: char) -> Letter
    ensures letter { result.letter ≡ letter }
    ensures closeable { result.closeable ≡ true }
{
    Letter {
        letter,
        closeable: true,
    }
}

/// The global key of this name; `None` where there is no memory.
pub fn key(alloc: Global, name: &str) -> Option<Key> {
    Key::new(alloc, Namespace::global(), name).ok()
}

/// The ids of an engine with one class with one method.
const IDS: [&str; 3] = [
    "[engine:x]",
    "[engine:x]/[class:A]",
    "[engine:x]/[class:A]/[method:m()]",
];

/// Puts the id of this text behind the others; says whether there was memory.
fn add_id(alloc: Global, ids: &mut Vec<UniqueId>, text: &str) -> bool {
    match UniqueId::parse(alloc, text) {
        Ok(id) => ids.push(id).is_ok(),
        Err(_) => false,
    }
}

/// Puts the ids of the engine behind the others; says whether there was memory.
fn add_ids(alloc: Global, ids: &mut Vec<UniqueId>) -> bool {
    for text in &IDS {
        if !add_id(alloc, ids, text) {
            return false;
        }
    }
    true
}

/// An engine with one class with one method; `None` where there is no memory.
fn chain(alloc: Global) -> Option<Tree> {
    let mut ids = Vec::new(alloc);
    if !add_ids(alloc, &mut ids) {
        return None;
    }
    Tree::build(alloc, ids.as_slice()).ok()
}

/// An engine with one class with one method: the contexts 0, 1 and 2; `None` where there is no
/// memory.
pub fn contexts(alloc: Global) -> Option<Tree>
    ensures { IfSome result (λ tree. 2 < length tree) }
{
    let tree = chain(alloc)?;
    if tree.len() < 3 {
        return None;
    }
    Some(tree)
}

/// A store of the chain, its two lanes, and its closers.
#[derive(Drop)]
pub struct Opened<V> {
    /// The store.
    pub store: Store<V>,
    /// Lane 0.
    pub first: Lane<V>,
    /// Lane 1.
    pub second: Lane<V>,
    /// The closers of the contexts 0, 1 and 2.
    pub closers: Vec<Closer>,
}

/// What was opened, with the last two of its lanes; `None` where it has fewer. What the parts are
/// made of need not be known.
fn with_last_two<S: Drop, L: Drop, C: Drop>(
    store: S,
    lanes: Vec<L>,
    closers: C,
) -> Option<(S, L, L, C)>
    ensures same { IfSome result (λ r. (r.0 ≡ store) × (r.3 ≡ closers)) }
    ensures lanes { IfSome result (λ r. (front middle : List _) × (lanes.items ≡ middle ++ option_to_list (Some r.2)) × (middle ≡ front ++ option_to_list (Some r.1))) }
{
    let mut lanes = lanes;
    let second = lanes.pop()?;
    let first = lanes.pop()?;
    Some((store, first, second, closers))
}

/// The store of the chain, where the limits have two lanes; `None` where they have others, or where
/// there is no memory.
pub fn open_store<V: StoreValue + Drop>(alloc: Global, limits: Limits) -> Option<Opened<V>>
    ensures first { IfSome result (λ o. IsLaneOf o.store.id o.first) }
    ensures second { IfSome result (λ o. IsLaneOf o.store.id o.second) }
    ensures closers { IfSome result (λ o. All (IsCloserOf o.store) o.closers.items) }
    ensures contexts { IfSome result (λ o. 2 < length o.store.tree) }
{
    let tree = contexts(alloc)?;
    let Ok((store, lanes, closers)) = Store::open(alloc, tree, limits) else {
        return None;
    };
    let (store, first, second, closers) = with_last_two(store, lanes, closers)?;
    Some(Opened {
        store,
        first,
        second,
        closers,
    })
}

/// The store of the chain with eight tries and so many numbers, which keeps no faults; `None` where
/// there is no memory.
pub fn open_chain(alloc: Global, numbers: u32) -> Option<Opened<Letter>>
    ensures first { IfSome result (λ o. IsLaneOf o.store.id o.first) }
    ensures second { IfSome result (λ o. IsLaneOf o.store.id o.second) }
    ensures closers { IfSome result (λ o. All (IsCloserOf o.store) o.closers.items) }
    ensures contexts { IfSome result (λ o. 2 < length o.store.tree) }
{
    open_chain_for(alloc, numbers, false)
}

/// The store of the chain, which keeps faults or not, as `open_chain` opens it.
pub fn open_chain_for(alloc: Global, numbers: u32, keep_faults: bool) -> Option<Opened<Letter>>
    ensures first { IfSome result (λ o. IsLaneOf o.store.id o.first) }
    ensures second { IfSome result (λ o. IsLaneOf o.store.id o.second) }
    ensures closers { IfSome result (λ o. All (IsCloserOf o.store) o.closers.items) }
    ensures contexts { IfSome result (λ o. 2 < length o.store.tree) }
{
    let limits = Limits {
        tries: 8,
        numbers,
        keep_faults,
        ..Limits::new(2)
    };
    open_store(alloc, limits)
}
