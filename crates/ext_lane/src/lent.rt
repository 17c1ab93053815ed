//! A lane that is lent, with its store.
ghost use Rattle.std.specs.Prelude.{◌≡◌};
ghost use Rattle.ext_store.specs.Stores.{IsLaneOf};

use ext_store::{Lane, Store};
use ext_tree::Tree;

/// A lane that is lent, with the store that gave it out.
///
/// Its calls are those of `Store`, and need no clause of who calls. A context that the store does
/// not have is told as closed, by its number, with nothing changed: nothing is ever stored there.
///
/// A function that takes a `&mut LentLane`, and whose caller uses the lane again, says that it is
/// the same one: `ensures { IsSame lane.old lane.new }`, with `IsSame` of `specs/Lent`. The check
/// proves that by itself. An own rule.
#[derive(Drop)]
pub struct LentLane<'l, V> {
    /// The store.
    pub store: &'l Store<V>,
    /// A lane of this store.
    pub lane: &'l mut Lane<V>,
    ghost own: { IsLaneOf store.now.id lane.now },
}

/// Lends a lane with its store, for as long as what is answered is held. Takes no memory. An own
/// rule.
pub fn lend<'l, V>(store: &'l Store<V>, lane: &'l mut Lane<V>) -> LentLane<'l, V>
    requires { IsLaneOf store.now.id lane.old }
    ensures store { result.store.now ≡ store.now }
    ensures lane { result.lane.now ≡ lane.old }
    ensures same_lane { result.lane.ghost_name ≡ lane.entry.ghost_name }
{
    LentLane { store, lane }
}

impl<'l, V> LentLane<'l, V> {
    /// Answers the tree of the store's contexts. Javadoc `ExtensionContext`, `getParent`.
    pub fn tree(&self) -> &'l Tree
        ensures { result.now ≡ self.now.store.now.tree }
    {
        self.store.tree()
    }
}
