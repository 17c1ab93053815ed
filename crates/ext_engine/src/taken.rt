//! Closers and lanes taken, one at a time, out of those that were opened.
ghost use Rattle.std.specs.Prelude.{◌≡◌, ◌++◌, [], All, IfNone, IfSome, MatchOption, option_to_list};
ghost use Rattle.ext_store.specs.Stores.{IsCloserOf, IsLaneOf};
ghost use Rattle.ext_engine.specs.Opening.{HasNone, IsTaken};

use crate::node::closer_index;
use ext_model::ContextNo;
use ext_store::{Closer, Lane, Store, StoreValue};

/// Takes the first closer of this context out of the store's closers; the others stay, in their
/// order. `None` where there is none.
pub fn take_closer<V: StoreValue + Drop>(
    store: &Store<V>,
    closers: &mut Vec<Closer>,
    context: ContextNo,
) -> Option<Closer>
    requires { All (IsCloserOf store.now) closers.old.items }
    ensures taken { MatchOption result (HasNone context closers.old.items closers.new.items) (λ closer. IsTaken context closers.old.items closer closers.new.items) }
    ensures own { IfSome result (IsCloserOf store.now) }
    ensures others { All (IsCloserOf store.now) closers.new.items }
{
    let at = closer_index(closers.as_slice(), context)?;
    Some(closers.remove(at))
}

/// Takes the last lane out of the store's lanes; the others stay. `None` where there is none.
pub fn take_lane<V: StoreValue + Drop>(
    store: &Store<V>,
    lanes: &mut Vec<Lane<V>>,
) -> Option<Lane<V>>
    requires { All (IsLaneOf store.now.id) lanes.old.items }
    ensures taken { lanes.old.items ≡ lanes.new.items ++ option_to_list result }
    ensures none { IfNone result (lanes.old.items ≡ []) }
    ensures own { IfSome result (IsLaneOf store.now.id) }
    ensures others { All (IsLaneOf store.now.id) lanes.new.items }
{
    lanes.pop()
}
