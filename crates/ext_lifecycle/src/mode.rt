//! How a node is run beside its siblings.
ghost use Rattle.std.specs.Prelude.{◌≡◌};
ghost use Rattle.ext_lifecycle.specs.Modes.{is_concurrent};

/// Whether a node may be run beside its siblings (`ExecutionMode`). Source: JUnit 5 User Guide,
/// section "Parallel Execution".
///
/// A container's concurrent children are run by several workers; when all of them have ended, its
/// same-thread children are run one after another, in order. That the concurrent ones come first is
/// an own rule.
#[derive(Clone, Copy, Debug, PartialEq, Eq)]
pub enum Mode {
    /// By the worker that runs the parent (`ExecutionMode.SAME_THREAD`), after the parent's
    /// concurrent children.
    SameThread,
    /// By any worker (`ExecutionMode.CONCURRENT`), beside the parent's other concurrent children.
    Concurrent,
}

impl Mode {
    /// Whether nodes of this mode run beside others. Source: JUnit 5 User Guide, section "Parallel
    /// Execution".
    pub fn is_concurrent(self) -> bool
        ensures { result ≡ is_concurrent self }
    {
        match self {
            Mode::SameThread => false,
            Mode::Concurrent => true,
        }
    }
}
