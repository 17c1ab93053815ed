//! What the tests do with a store of the chain, which one function owns for all of them.
ghost use Rattle.std.specs.Prelude.{◌<◌, All, IfSome, length};
ghost use Rattle.std.specs.Borrow.{Bor};
ghost use Rattle.ext_store.specs.Stores.{IsCloserOf, IsLaneOf, StoreLane, StoreView};

use ext_store::{Closer, Lane, Store, StoreValue};
use std::process::Abort;
use test_store::Opened;

/// Does the work with what was opened: with the keys, the store, its two lanes, and the closers of
/// the contexts 0, 1 and 2. The test fails where nothing was. Nothing need be known of what the
/// keys are made of.
pub(crate) fn with_opened<
    R: Abort,
    K: Drop,
    V: StoreValue + Drop,
    T,
    W: FnOnce(&K, &Store<V>, Lane<V>, Lane<V>, &mut Vec<Closer>) -> T,
>(rt: &R, keys: Option<K>, opened: Option<Opened<V>>, work: W) -> T
    requires first { IfSome opened (λ o. IsLaneOf o.store.id o.first) }
    requires second { IfSome opened (λ o. IsLaneOf o.store.id o.second) }
    requires closers { IfSome opened (λ o. All (IsCloserOf o.store) o.closers.items) }
    requires contexts { IfSome opened (λ o. 2 < length o.store.tree) }
    requires work { (keys : _) (store : Bor StoreView) (first second : StoreLane V) (closers : _)
        → IsLaneOf store.now.id first → IsLaneOf store.now.id second → All (IsCloserOf store.now) closers.now.items
        → 2 < length store.now.tree → W.pre work keys store first second closers }
{
    let Some(keys) = keys else {
        panic!(rt; "no keys");
    };
    let Some(opened) = opened else {
        panic!(rt; "no store");
    };
    let Opened {
        store,
        first,
        second,
        mut closers,
    } = opened;
    work(&keys, &store, first, second, &mut closers)
}
