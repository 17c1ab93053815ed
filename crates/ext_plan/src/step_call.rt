//! A step's call of a store.
ghost use Rattle.std.specs.Prelude.{◌≡◌};

use ext_model::ContextNo;
use ext_tree::Key;

/// A step's call of the store: the step's words, the context that it acts on, and its key.
#[derive(Clone, Copy, Debug)]
pub struct StepCall<'b> {
    /// The step's first word, such as `put`.
    pub name: &'b str,
    /// The word by which the step names its key: a label of the plan, or the key's name.
    pub label: &'b str,
    /// The path of the context that the step acts on: that context, its parent, and so on up to the
    /// root.
    pub path: &'b [ContextNo],
    /// The key of the store that the step names.
    pub key: &'b Key,
}

impl<'b> StepCall<'b> {
    ghost use Rattle.ext_plan.specs.StepCalls.{call_view, start_of};

    /// Returns the context that the step acts on; 0 if the path is empty, which no context's path
    /// is.
    pub fn at(&self) -> ContextNo
        ensures { result ≡ start_of (call_view self.now).path }
    {
        match self.path.first() {
            Some(at) => *at,
            None => 0,
        }
    }
}
