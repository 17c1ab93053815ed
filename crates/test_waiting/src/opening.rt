//! The store of the tests, of a chain of three contexts, and the key a.
ghost use Rattle.std.specs.Prelude.{◌<◌, All, IfOk, List, length};
ghost use Rattle.std.specs.Borrow.{Bor, MutBor};
ghost use Rattle.ext_store.specs.Stores.{IsCloserOf, IsLaneOf, StoreLane, StoreView};
ghost use Rattle.test_waiting.specs.declared.opening.Letter.{Letter};

use ext_ids::UniqueId;
use ext_store::{Closer, Lane, Limits, Store, StoreValue};
use ext_tree::{Key, Namespace, Tree};
use std::alloc::Global;
use std::process::Abort;
use std::test::Fail;

/// A closeable value of the tests.
#[derive(Clone, Copy, Debug, PartialEq, Eq)]
pub(crate) struct Letter {
    pub(crate) letter: char,
}

impl StoreValue for Letter {
    ghost use Rattle.std.specs.Prelude.{true};

    ghost is_closeable = { λ _. true };

    fn closeable(&self) -> bool {
        true
    }
}

/// The global key of this name.
pub(crate) fn key_of(alloc: Global, name: &str) -> Result<Key, Fail> {
    Ok(Key::new(alloc, Namespace::global(), name)?)
}

/// The ids of an engine with one class with one method.
fn ids(alloc: Global) -> Result<Vec<UniqueId>, Fail> {
    let mut ids = Vec::new(alloc);
    for text in [
        "[engine:x]",
        "[engine:x]/[class:A]",
        "[engine:x]/[class:A]/[method:m()]",
    ] {
        ids.push(UniqueId::parse(alloc, text)?)?;
    }
    Ok(ids)
}

/// Their contexts 0, 1 and 2.
fn contexts(alloc: Global) -> Result<Tree, Fail>
    ensures { IfOk result (λ tree. 2 < length tree) }
{
    let ids = ids(alloc)?;
    let tree = Tree::build(alloc, ids.as_slice())?;
    if tree.len() != 3 {
        return Err(Fail::from("the chain has three contexts"));
    }
    Ok(tree)
}

/// A store, its lanes, and the closers of its contexts.
#[derive(Drop)]
struct Opened {
    store: Store<Letter>,
    lanes: Vec<Lane<Letter>>,
    closers: Vec<Closer>,
}

/// The limits of a store with so many lanes and 65,535 numbers, which keeps faults or not.
pub(crate) fn limits(lanes: usize, keep_faults: bool) -> Limits {
    Limits {
        // Many lanes are to be in each other's way.
        tries: if lanes == 16 { 1 } else { 8 },
        keep_faults,
        ..Limits::new(lanes)
    }
}

/// Opens the store of the chain.
fn open(alloc: Global, limits: Limits) -> Result<Opened, Fail>
    ensures lanes { IfOk result (λ o. All (IsLaneOf o.store.id) o.lanes.items) }
    ensures closers { IfOk result (λ o. All (IsCloserOf o.store) o.closers.items) }
    ensures contexts { IfOk result (λ o. 2 < length o.store.tree) }
{
    let tree = contexts(alloc)?;
    let (store, lanes, closers) = Store::open(alloc, tree, limits)?;
    Ok(Opened {
        store,
        lanes,
        closers,
    })
}

/// Does the work with the parts of what is opened.
fn lend<W: FnOnce(&Store<Letter>, &Key, &mut [Lane<Letter>], &mut Vec<Closer>)>(
    opened: &mut Opened,
    key: &Key,
    work: W,
)
    requires lanes { All (IsLaneOf opened.old.store.id) opened.old.lanes.items }
    requires closers { All (IsCloserOf opened.old.store) opened.old.closers.items }
    requires contexts { 2 < length opened.old.store.tree }
    requires work { (store : Bor StoreView) (key : _) (lanes : MutBor (List (StoreLane Letter))) (closers : _)
        → All (IsLaneOf store.now.id) lanes.now → All (IsCloserOf store.now) closers.now.items → 2 < length store.now.tree
        → W.pre work store key lanes closers }
{
    work(
        &opened.store,
        key,
        opened.lanes.as_mut_slice(),
        &mut opened.closers,
    );
}

/// Opens the store of the chain, and does the work with its parts.
fn with_opened<W: FnOnce(&Store<Letter>, &Key, &mut [Lane<Letter>], &mut Vec<Closer>)>(
    alloc: Global,
    limits: Limits,
    key: &Key,
    work: W,
) -> Result<(), Fail>
    requires { (store : Bor StoreView) (key : _) (lanes : MutBor (List (StoreLane Letter))) (closers : _)
        → All (IsLaneOf store.now.id) lanes.now → All (IsCloserOf store.now) closers.now.items → 2 < length store.now.tree
        → W.pre work store key lanes closers }
{
    let mut opened = open(alloc, limits)?;
    lend(&mut opened, key, work);
    Ok(())
}

/// Opens the store of the chain with these limits, and does the work with it: with the store, the
/// key a, the lanes, and the closers of the contexts 0, 1 and 2.
pub(crate) fn with_store<W: FnOnce(&Store<Letter>, &Key, &mut [Lane<Letter>], &mut Vec<Closer>)>(
    alloc: Global,
    limits: Limits,
    work: W,
) -> Result<(), Fail>
    requires { (store : Bor StoreView) (key : _) (lanes : MutBor (List (StoreLane Letter))) (closers : _)
        → All (IsLaneOf store.now.id) lanes.now → All (IsCloserOf store.now) closers.now.items → 2 < length store.now.tree
        → W.pre work store key lanes closers }
{
    let key = key_of(alloc, "a")?;
    with_opened(alloc, limits, &key, work)
}

/// Does the work with two lanes in hand.
fn with_both<R: Abort, W: FnOnce(&R, &Store<Letter>, &Key, &mut Lane<Letter>, &mut Lane<Letter>)>(
    rt: &R,
    store: &Store<Letter>,
    key: &Key,
    lanes: &mut [Lane<Letter>],
    work: W,
)
    requires lanes { All (IsLaneOf store.now.id) lanes.old }
    requires contexts { 2 < length store.now.tree }
    requires work { (first second : MutBor (StoreLane Letter))
        → IsLaneOf store.now.id first.now → IsLaneOf store.now.id second.now → W.pre work rt store key first second }
{
    let [first, second] = lanes else {
        panic!(rt; "there are two lanes");
    };
    work(rt, store, key, first, second);
}

/// As `with_store`, with the two lanes that there are in hand.
pub(crate) fn with_pair<
    R: Abort,
    W: FnOnce(&R, &Store<Letter>, &Key, &mut Lane<Letter>, &mut Lane<Letter>),
>(rt: &R, alloc: Global, limits: Limits, work: W) -> Result<(), Fail>
    requires { (store : Bor StoreView) (key : _) (first second : MutBor (StoreLane Letter))
        → IsLaneOf store.now.id first.now → IsLaneOf store.now.id second.now → 2 < length store.now.tree
        → W.pre work rt store key first second }
{
    let work_on = |store: &Store<Letter>, key: &Key, lanes: &mut [Lane<Letter>], _closers: &mut Vec<
        Closer,
    >| { with_both(rt, store, key, lanes, work) };
    with_store(alloc, limits, work_on)
}
