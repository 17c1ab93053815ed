//! What a caller does with a value that is to be closed.
use ext_model::Fault;

/// Closes values for the caller of `close`, which calls it with each value that is to be closed.
///
/// JUnit 5 calls the `close` method of a `CloseableResource` (Javadoc
/// `ExtensionContext.Store.CloseableResource`). Here the caller gives the action.
pub trait CloseAction<V> {
    ghost use Rattle.std.specs.Prelude.{ℕ, Result};
    ghost use Rattle.ext_model.specs.declared.look.Fault.{Fault};

    /// What a call does: the action before it, the number, the value, the answer, and the action
    /// after it.
    ghost close_gives: { Self → ℕ → V → Result (Unit {0}) Fault → Self → Type 0 };

    /// Closes the value of this number, from 1. A fault does not stop the closing of other values.
    /// What memory it takes, and for whom it waits, is its own matter.
    fn close(&mut self, number: u32, value: &V) -> Result<(), Fault>
        ensures { close_gives self.old number value.now result self.new };
}
