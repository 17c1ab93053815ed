//! What a run of a tree goes over.

use crate::Suite;
use crate::node::NodeRunner;
use ext_store::StoreValue;

/// What a run of a tree goes over: what runs one node, and a gate that is told of each child that
/// runs beside others.
#[derive(Drop)]
pub(crate) struct TreeRunner<'a, R, V: StoreValue + Drop, S: Suite<V>, G> {
    pub(crate) nodes: NodeRunner<'a, R, V, S>,
    pub(crate) gate: &'a G,
}
