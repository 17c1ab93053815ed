//! The notes of a plan.
use crate::node_step::NodeStep;
use crate::said::Said;
use ext_lifecycle::Call;
use ext_model::ContextNo;

/// What is most likely a mistake in a plan.
#[derive(Clone, Copy, Debug)]
pub(crate) enum Note<'p> {
    /// The callback that begins with this step has no test at or below its node.
    Idle(NodeStep<'p>),
    /// The step wants a text that no step stores under its key; or it names a key alone under which
    /// no step stores, and steps store under one with a near name.
    Missing(NodeStep<'p>, Said<'p>),
    /// The step acts on its callback's node or above for some tests at or below the node, and others
    /// stand at another depth.
    Uneven(NodeStep<'p>),
    /// The callback or test has no steps.
    Empty(Call),
    /// The plan has no test.
    Untested,
    /// The node is concurrent, and neither another child of its parent nor one of its own is.
    Solitary(ContextNo),
    /// No step names the key with this label.
    Unnamed(&'p str),
    /// The steps name more keys than there are places.
    Crowded,
    /// One test alone names the lock with this name.
    Lone(&'p str),
}
