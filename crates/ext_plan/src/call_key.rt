//! The key that a step calls a store with.
ghost use Rattle.std.specs.Prelude.{◌≡◌, IfOk};
ghost use Rattle.ext_tree.specs.Keys.{global_namespace, key_of};

use ext_tree::{Key, Namespace};
use std::alloc::{AllocError, Global};

/// The key with which a step calls the store.
#[derive(Debug, Drop)]
pub enum CallKey<'b> {
    /// The key of a label, made before.
    Declared(&'b Key),
    /// A key made for the step.
    Made(Key),
}

impl<'b> CallKey<'b> {
    ghost use Rattle.ext_plan.specs.StepCalls.{call_key};

    /// The key of this name in the global namespace. Takes memory for it, and fails only if that is
    /// refused. Source: Javadoc type `ExtensionContext.Namespace`, `GLOBAL`.
    pub(crate) fn global(alloc: Global, name: &str) -> Result<CallKey<'b>, AllocError>
        ensures { IfOk result (λ k. call_key k ≡ key_of global_namespace name.now) }
    {
        match Key::new(alloc, Namespace::global(), name) {
            Ok(key) => Ok(CallKey::Made(key)),
            Err(_) => Err(AllocError),
        }
    }

    /// Returns the key, whether it was declared or made for the step.
    pub fn key(&self) -> &Key
        ensures { result.now ≡ call_key self.now }
    {
        match self {
            CallKey::Declared(key) => key,
            CallKey::Made(key) => key,
        }
    }
}
