//! What the lanes of a round share: a store of seven contexts, and the keys that they name in it.
ghost use Rattle.std.specs.Prelude.{◌≡◌, ◌<◌, All, IfOk, length};
ghost use Rattle.ext_store.specs.Stores.{IsCloserOf, IsLaneOf};

use crate::fault::SoakFault;
use ext_ids::UniqueId;
use ext_model::ContextNo;
use ext_store::{Closer, Lane, Limits, Store, StoreValue};
use ext_tree::{Key, Namespace, Tree};
use std::alloc::Global;
use std::sync::atomic::AtomicU64;

/// How many contexts there are, and the engine and the class A among them.
pub(crate) const CONTEXTS: usize = 7;

pub(crate) const ENGINE: ContextNo = 0;

pub(crate) const CLASS: ContextNo = 1;

/// The last context of class A.
pub(crate) const LAST_IN_CLASS: ContextNo = 4;

/// How many keys there are under which something is stored. Here a key is told by its place among
/// the names; the number that it gets in the store is another one, in another order each round.
pub(crate) const KEYS: usize = 4;

/// How many further keys the lanes name late in a round, under which nothing is stored. They are
/// more than there are numbers.
pub(crate) const LATE: usize = 70;

/// How many these are in a round whose store has many keys.
pub(crate) const MANY_LATE: usize = 1_030;

/// The key under which a value stands in the engine all along.
pub(crate) const STANDING: usize = 0;

/// The key whose value one lane moves from the engine to class A and back; no other lane stores
/// under it.
pub(crate) const MOVED: usize = 1;

/// The key under which values are computed and removed, and never put: so factories often run
/// there, and faults are often kept.
pub(crate) const COMPUTED: usize = 3;

/// The names of the keys.
const NAMES: [&str; KEYS] = ["standing", "moved", "c", "computed"];

/// How many numbers a round has.
pub(crate) const NUMBERS: u32 = 16_384;

/// A key in a context.
#[derive(Clone, Copy, PartialEq, Eq)]
pub(crate) struct Place {
    pub(crate) context: ContextNo,
    pub(crate) key: usize,
}

/// A value: the place that it is for, and whether it is closeable.
#[derive(Clone, Copy)]
pub(crate) struct Payload {
    pub(crate) place: Place,
    pub(crate) closeable: bool,
}

impl StoreValue for Payload {
    ghost is_closeable = { λ v. v.closeable };

    fn closeable(&self) -> bool {
        self.closeable
    }
}

/// Whether the stores of a round keep faults: those of every second one do.
pub(crate) fn keeps_faults(round: u32) -> bool {
    round % 2 == 1
}

/// Whether the store of a round has 1,024 keys, and not 64: that of every second pair has.
pub(crate) fn has_many_keys(round: u32) -> bool {
    round / 2 % 2 == 1
}

/// The limits of a round's store with so many lanes and tries.
fn limits_of(lanes: usize, tries: u32, round: u32) -> Limits {
    Limits {
        tries,
        keys: if has_many_keys(round) { 1_024 } else { 64 },
        numbers: NUMBERS,
        keep_faults: keeps_faults(round),
        ..Limits::new(lanes)
    }
}

/// What the lanes of a round share.
#[derive(Drop)]
pub(crate) struct Shared {
    pub(crate) store: Store<Payload>,
    keys: Vec<Key>,
    /// Whether the store has 1,024 keys.
    pub(crate) many_keys: bool,
    /// Where factories take memory for their faults, and lanes for late keys.
    pub(crate) alloc: Global,
    /// The places for which a factory runs, one bit each.
    pub(crate) running: AtomicU64,
    ghost contexts: { length store.tree ≡ 7 },
    ghost names: { length keys.items ≡ 4 },
}

impl Shared {
    /// The key of this name.
    pub(crate) fn name(&self, key: usize) -> &Key
        requires { key < 4 }
    {
        &self.keys[key]
    }
}

/// A round's store, its lanes and its closers.
#[derive(Drop)]
pub(crate) struct Opened {
    pub(crate) shared: Shared,
    pub(crate) lanes: Vec<Lane<Payload>>,
    pub(crate) closers: Vec<Closer>,
}

/// One more context.
fn add(alloc: Global, ids: &mut Vec<UniqueId>, text: &str) -> Option<()> {
    ids.push(UniqueId::parse(alloc, text).ok()?).ok()
}

/// An engine with two classes, of which A has a class of its own, and a method in each of the
/// three.
fn contexts(alloc: Global) -> Option<Tree> {
    let mut ids = Vec::new(alloc);
    add_contexts(alloc, &mut ids)?;
    Tree::build(alloc, ids.as_slice()).ok()
}

fn add_contexts(alloc: Global, ids: &mut Vec<UniqueId>) -> Option<()> {
    for text in [
        "[engine:x]",
        "[engine:x]/[class:A]",
        "[engine:x]/[class:A]/[method:m()]",
        "[engine:x]/[class:A]/[class:B]",
        "[engine:x]/[class:A]/[class:B]/[method:m()]",
        "[engine:x]/[class:C]",
        "[engine:x]/[class:C]/[method:m()]",
    ] {
        add(alloc, ids, text)?;
    }
    Some(())
}

/// One more key.
fn add_key(alloc: Global, keys: &mut Vec<Key>, name: &str) -> Option<()> {
    keys.push(Key::new(alloc, Namespace::global(), name).ok()?)
        .ok()
}

fn add_keys(alloc: Global, keys: &mut Vec<Key>) -> Option<()> {
    for name in NAMES {
        add_key(alloc, keys, name)?;
    }
    Some(())
}

/// The four keys.
fn keys(alloc: Global) -> Option<Vec<Key>> {
    let mut keys = Vec::new(alloc);
    add_keys(alloc, &mut keys).and(Some(keys))
}

/// The late key of this number, made anew by each lane that names it.
pub(crate) fn late_key(alloc: Global, late: usize) -> Option<Key> {
    let name = format!(in alloc; "late{late}").ok()?;
    Key::new(alloc, Namespace::global(), name.as_str()).ok()
}

/// The tree and the four keys, where they were made with so many contexts.
fn made(
    tree: Option<Tree>,
    keys: Option<Vec<Key>>,
    contexts: usize,
) -> Result<(Tree, Vec<Key>), SoakFault>
    ensures { IfOk result (λ r. (length r.0 ≡ contexts) × (length r.1.items ≡ 4)) }
{
    let Some((tree, keys)) = tree.zip(keys) else {
        return Err(SoakFault::Memory);
    };
    if tree.len() != contexts || keys.len() != KEYS {
        return Err(SoakFault::Answer);
    }
    Ok((tree, keys))
}

/// A store, its lanes and its closers.
type Parts = (Store<Payload>, Vec<Lane<Payload>>, Vec<Closer>);

/// A store of these contexts with such limits.
fn open_store(alloc: Global, tree: Tree, limits: Limits) -> Result<Parts, SoakFault>
    ensures tree { IfOk result (λ r. r.0.tree ≡ tree) }
    ensures lanes { IfOk result (λ r. All (IsLaneOf r.0.id) r.1.items) }
    ensures closers { IfOk result (λ r. All (IsCloserOf r.0) r.2.items) }
{
    match Store::open(alloc, tree, limits) {
        Ok(parts) => Ok(parts),
        Err(_) => Err(SoakFault::Memory),
    }
}

/// The store of a round with so many lanes and tries.
pub(crate) fn open(alloc: Global, lanes: usize, tries: u32, round: u32) -> Result<Opened, SoakFault>
    ensures lanes { IfOk result (λ o. All (IsLaneOf o.shared.store.id) o.lanes.items) }
    ensures closers { IfOk result (λ o. All (IsCloserOf o.shared.store) o.closers.items) }
{
    match made(contexts(alloc), keys(alloc), CONTEXTS) {
        Ok(made) => open_with(
            alloc,
            made,
            limits_of(lanes, tries, round),
            has_many_keys(round),
        ),
        Err(fault) => Err(fault),
    }
}

/// The store of these seven contexts, with the four keys.
fn open_with(
    alloc: Global,
    made: (Tree, Vec<Key>),
    limits: Limits,
    many_keys: bool,
) -> Result<Opened, SoakFault>
    requires { (length made.0 ≡ 7) × (length made.1.items ≡ 4) }
    ensures lanes { IfOk result (λ o. All (IsLaneOf o.shared.store.id) o.lanes.items) }
    ensures closers { IfOk result (λ o. All (IsCloserOf o.shared.store) o.closers.items) }
{
    let (tree, keys) = made;
    match open_store(alloc, tree, limits) {
        Ok((store, lanes, closers)) => {
            let running = AtomicU64::new(0);
            let shared = Shared {
                store,
                keys,
                many_keys,
                alloc,
                running,
            };
            Ok(Opened {
                shared,
                lanes,
                closers,
            })
        }
        Err(fault) => Err(fault),
    }
}

/// A store of sixteen contexts, one below the other.
#[derive(Drop)]
pub(crate) struct Deep {
    pub(crate) store: Store<Payload>,
    keys: Vec<Key>,
    ghost contexts: { length store.tree ≡ 16 },
    ghost names: { length keys.items ≡ 4 },
}

impl Deep {
    /// The key that the races are for.
    pub(crate) fn name(&self) -> &Key {
        &self.keys[0]
    }
}

/// The deep store and its two lanes.
#[derive(Drop)]
pub(crate) struct OpenedDeep {
    pub(crate) deep: Deep,
    pub(crate) lanes: Vec<Lane<Payload>>,
}

/// An engine, and fifteen classes one below the other.
fn chain(alloc: Global) -> Option<Tree> {
    let mut ids = Vec::new(alloc);
    add_chain(alloc, &mut ids)?;
    Tree::build(alloc, ids.as_slice()).ok()
}

fn add_chain(alloc: Global, ids: &mut Vec<UniqueId>) -> Option<()> {
    let mut text = String::from_str(alloc, "[engine:x]").ok()?;
    add(alloc, ids, text.as_str())?;
    for _ in 0..15 {
        text.push_str("/[class:x]").ok()?;
        add(alloc, ids, text.as_str())?;
    }
    Some(())
}

/// The deep store with two lanes, which keeps faults or not.
pub(crate) fn open_deep(alloc: Global, keep_faults: bool) -> Result<OpenedDeep, SoakFault>
    ensures { IfOk result (λ o. All (IsLaneOf o.deep.store.id) o.lanes.items) }
{
    match made(chain(alloc), keys(alloc), 16) {
        Ok(made) => open_deep_with(alloc, made, keep_faults),
        Err(fault) => Err(fault),
    }
}

/// The deep store of these sixteen contexts, with the four keys.
fn open_deep_with(
    alloc: Global,
    made: (Tree, Vec<Key>),
    keep_faults: bool,
) -> Result<OpenedDeep, SoakFault>
    requires { (length made.0 ≡ 16) × (length made.1.items ≡ 4) }
    ensures { IfOk result (λ o. All (IsLaneOf o.deep.store.id) o.lanes.items) }
{
    let (tree, keys) = made;
    let limits = Limits {
        numbers: NUMBERS,
        keep_faults,
        ..Limits::new(2)
    };
    match open_store(alloc, tree, limits) {
        Ok((store, lanes, _closers)) => {
            let deep = Deep { store, keys };
            Ok(OpenedDeep { deep, lanes })
        }
        Err(fault) => Err(fault),
    }
}
