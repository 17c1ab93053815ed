//! The opening of what a run of a tree goes over: the store of its contexts, its locks, and the
//! lanes of both.
ghost use Rattle.std.specs.Prelude.{◌≡◌, ◌*◌, All, IfErr, IfOk, IsPermutation, length, map};
ghost use Rattle.ext_cells.specs.Lanes.{fresh_lanes};
ghost use Rattle.ext_locks.specs.Names.{texts_of};
ghost use Rattle.ext_locks.specs.Opening as locking;
ghost use Rattle.ext_store.specs.Opening.{places_for};
ghost use Rattle.ext_store.specs.Stores.{AreStoreLimits, IsCloserOf, IsLaneOf, closers_below, fresh_store_lane};
ghost use Rattle.ext_engine.specs.Opening.{AreRead, IsNotOpened, IsNotRead, IsStoreFault};
ghost use Rattle.ext_engine.specs.TreeRun.{IsUsable};
ghost use Rattle.ext_model.specs.Sizes.{most_contexts};
ghost use Rattle.ext_tree.specs.Trees.{IsTreeWithin};

use ext_ids::{IdFault, UniqueId};
use ext_locks::{LockFault, LockLane, Locks};
use ext_store::{Closer, Lane, Limits, Store, StoreFault, StoreValue};
use ext_tree::{Tree, TreeFault};
use std::alloc::Global;
use thiserror::Error;

/// Everything that a run of a tree goes over, as `open_run` opens it.
#[derive(Drop)]
pub struct Opened<V> {
    /// The store, whose contexts are the nodes.
    pub store: Store<V>,
    /// The lanes of the store, in order.
    pub lanes: Vec<Lane<V>>,
    /// A closer for each context, in order.
    pub closers: Vec<Closer>,
    /// The locks that tests take.
    pub locks: Locks,
    /// The lanes of the locks, as many as those of the store.
    pub lock_lanes: Vec<LockLane>,
}

/// Why nothing was opened. Where several apply, the first in this order is answered. After any of
/// them there is no object.
///
/// Prints as a sentence without capital or full stop.
#[derive(Clone, Copy, Debug, PartialEq, Eq, Error)]
pub enum OpenFault {
    /// The text with this index, from 0, is no id, or memory ran out at it. It is the first such
    /// text. Only `read_ids` answers it.
    #[error("text {0} is no id: {1}")]
    Id(usize, IdFault),
    /// The ids are no tree of contexts, or memory ran out for it.
    #[error("{0}")]
    Tree(TreeFault),
    /// The limits are not those of a store, or memory ran out for it.
    #[error("{0}")]
    Store(StoreFault),
    /// The names are not those of locks, or memory ran out for them.
    #[error("{0}")]
    Locks(LockFault),
}

impl From<TreeFault> for OpenFault {
    ghost use Rattle.std.specs.Prelude.{◌≡◌};
    ghost use Rattle.ext_engine.specs.declared.opening.OpenFault.TheVariants.{Tree};

    ghost from_gives = { λ fault e. e ≡ Tree fault };

    fn from(fault: TreeFault) -> OpenFault {
        OpenFault::Tree(fault)
    }
}

impl From<StoreFault> for OpenFault {
    ghost use Rattle.std.specs.Prelude.{◌≡◌};
    ghost use Rattle.ext_engine.specs.declared.opening.OpenFault.TheVariants.{Store};

    ghost from_gives = { λ fault e. e ≡ Store fault };

    fn from(fault: StoreFault) -> OpenFault {
        OpenFault::Store(fault)
    }
}

impl From<LockFault> for OpenFault {
    ghost use Rattle.std.specs.Prelude.{◌≡◌};
    ghost use Rattle.ext_engine.specs.declared.opening.OpenFault.TheVariants.{Locks};

    ghost from_gives = { λ fault e. e ≡ Locks fault };

    fn from(fault: LockFault) -> OpenFault {
        OpenFault::Locks(fault)
    }
}

/// Reads the ids that these texts spell, in their order. Takes memory.
///
/// Refused as `Id(at, fault)` for the first text that is no id, with its fault, and with
/// `IdFault::Memory` where memory ran out at that text. JUnit Platform, Javadoc `UniqueId`.
pub fn read_ids(alloc: Global, texts: &[&str]) -> Result<Vec<UniqueId>, OpenFault>
    ensures ids { IfOk result (λ ids. AreRead (texts_of texts.now) ids.items) }
    ensures count { IfOk result (λ ids. length ids.items ≡ length texts.now) }
    ensures fault { IfErr result (IsNotRead (texts_of texts.now)) }
{
    let mut ids = Vec::new(alloc);
    for (at, text) in texts.iter().enumerate() {
        match UniqueId::parse(alloc, text) {
            Ok(id) => match ids.push(id) {
                Ok(()) => {}
                Err(_) => return Err(OpenFault::Id(at, IdFault::Memory)),
            },
            Err(fault) => return Err(OpenFault::Id(at, fault)),
        }
    }
    Ok(ids)
}

/// Opens what `run_tree` goes over: a store whose contexts have these ids, locks of these names,
/// the lanes of both, and a closer for each context. Nothing stands in the store, no lane has made
/// a step, and nobody holds a lock. The store and the locks get as many lanes as the limits say,
/// and the same limit of tries. Takes all memory that these need, except for values, kept faults
/// and keys.
///
/// Refused, in this order, as `Tree` for the first fault of the ids, of which there may be
/// `limits.size.contexts()`, as `Store(BadLimit)` unless there are 1 to `limits.size.lanes()`
/// lanes, 1 to 64 tries, 1 to 1,024 keys and 1 to `limits.size.numbers()` numbers, as
/// `Store(Memory)`, and as `Locks` for more than 63 names, for the first that stands twice, and for
/// want of memory.
pub fn open_run<V: StoreValue + Drop>(
    alloc: Global,
    ids: &[UniqueId],
    names: &[&str],
    limits: Limits,
) -> Result<Opened<V>, OpenFault>
    // A run can go over it: this is what `run_tree` asks of lanes, closers and locks.
    ensures usable { IfOk result (λ o. IsUsable o.store o.locks (record { first = o.lanes.items; second = o.lock_lanes.items })) }
    ensures closers { IfOk result (λ o. o.closers.items ≡ closers_below o.store.id.cells (length o.store.tree)) }
    ensures names { IfOk result (λ o. IsPermutation (texts_of names.now) o.locks.names) }

    // The store is of these ids and limits, and all of it is fresh.
    ensures tree { IfOk result (λ o. o.store.tree ≡ ids.now) }
    ensures limits { IfOk result (λ o. o.store.id.cells.limits ≡ record { cells = length ids.now * places_for limits.keys; lanes = limits.lanes; numbers = limits.numbers; keep_faults = limits.keep_faults }) }
    ensures keys { IfOk result (λ o. length o.store.id.keys ≡ places_for limits.keys) }
    ensures tries { IfOk result (λ o. (o.store.tries ≡ limits.tries) × (o.locks.tries ≡ limits.tries)) }
    ensures lanes { IfOk result (λ o. o.lanes.items ≡ map (fresh_store_lane o.store.id.slots o.store.id.fault_slots o.store.id.keys) (fresh_lanes o.store.id.cells 0 limits.lanes)) }
    ensures lock_lanes { IfOk result (λ o. o.lock_lanes.items ≡ locking.fresh_lanes o.locks.table limits.lanes limits.lanes) }
    ensures own_lanes { IfOk result (λ o. All (IsLaneOf o.store.id) o.lanes.items) }
    ensures own_closers { IfOk result (λ o. All (IsCloserOf o.store) o.closers.items) }

    // When it is refused.
    ensures within { IfOk result (λ _. IsTreeWithin (most_contexts limits.size) ids.now × AreStoreLimits limits.size limits.keys limits.lanes limits.tries limits.numbers) }
    ensures fault { IfErr result (IsNotOpened ids.now (texts_of names.now) limits) }
{
    let (store, lanes, closers) = open_store(alloc, ids, limits)?;
    let most = limits.size.lanes();
    let (locks, lock_lanes) = Locks::open_within(alloc, names, limits.lanes, limits.tries, most)?;
    Ok(Opened {
        store,
        lanes,
        closers,
        locks,
        lock_lanes,
    })
}

/// The store of a run, its lanes, and a closer for each context.
fn open_store<V: StoreValue + Drop>(
    alloc: Global,
    ids: &[UniqueId],
    limits: Limits,
) -> Result<(Store<V>, Vec<Lane<V>>, Vec<Closer>), OpenFault>
    ensures tree { IfOk result (λ r. (r.0.tree ≡ ids.now) × IsTreeWithin (most_contexts limits.size) ids.now) }
    ensures limits { IfOk result (λ r. r.0.id.cells.limits ≡ record { cells = length ids.now * places_for limits.keys; lanes = limits.lanes; numbers = limits.numbers; keep_faults = limits.keep_faults }) }
    ensures keys { IfOk result (λ r. length r.0.id.keys ≡ places_for limits.keys) }
    ensures within { IfOk result (λ r. AreStoreLimits limits.size limits.keys limits.lanes limits.tries limits.numbers) }
    ensures tries { IfOk result (λ r. r.0.tries ≡ limits.tries) }
    ensures lanes { IfOk result (λ r. r.1.items ≡ map (fresh_store_lane r.0.id.slots r.0.id.fault_slots r.0.id.keys) (fresh_lanes r.0.id.cells 0 limits.lanes)) }
    ensures own_lanes { IfOk result (λ r. All (IsLaneOf r.0.id) r.1.items) }
    ensures closers { IfOk result (λ r. r.2.items ≡ closers_below r.0.id.cells (length r.0.tree)) }
    ensures own_closers { IfOk result (λ r. All (IsCloserOf r.0) r.2.items) }
    ensures fault { IfErr result (IsStoreFault ids.now limits) }
{
    let tree = Tree::build_within(alloc, ids, limits.size.contexts())?;
    Ok(Store::open(alloc, tree, limits)?)
}
