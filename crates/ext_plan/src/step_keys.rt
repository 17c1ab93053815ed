//! The keys that steps name.
ghost use Rattle.std.specs.Prelude.{◌≡◌, drop, map, true, IfErr, IfOk};
ghost use Rattle.ext_plan.specs.Plans.{keys_view, step_key_view};
ghost use Rattle.ext_plan.specs.StepWords.{word_text};
ghost use Rattle.ext_plan.specs.StoreKeys.{key_of_step, named_key};

use crate::call_key::CallKey;
use crate::step_call::StepCall;
use crate::{KeyedStep, PlanKey, StepKey};
use ext_model::ContextNo;
use ext_tree::Key;
use std::alloc::{AllocError, Global};

/// The declared keys of a plan, each with the key of the store that was made of it.
#[derive(Clone, Copy)]
pub struct StepKeys<'b> {
    keys: &'b [PlanKey],
    made: &'b [Key],
    ghost all: { made.now ≡ map named_key (keys_view keys.now) },
}

impl<'b> StepKeys<'b> {
    ghost use Rattle.ext_plan.specs.StepCalls.{call_key, call_view, is_made, keys_in, label_of};

    /// Pairs the declared keys with the keys of the store that `Plan::store_keys` made of them, in
    /// order.
    pub fn of(keys: &'b [PlanKey], made: &'b [Key]) -> StepKeys<'b>
        requires { made.now ≡ map named_key (keys_view keys.now) }
        ensures { keys_in result ≡ keys_view keys.now }
    {
        StepKeys { keys, made }
    }

    /// Returns the key of the store that a step names: its label's, or the key of its name in the
    /// global namespace. A label that the plan does not have names the key of the empty name in the
    /// global namespace.
    ///
    /// Takes memory for a key that no label names, and fails with `AllocError` only if that is
    /// refused.
    pub fn key_of(&self, alloc: Global, key: &StepKey) -> Result<CallKey<'b>, AllocError>
        ensures key { IfOk result (λ k. call_key k ≡ key_of_step (keys_in self.now) (step_key_view key.now)) }
        ensures made { IfErr result (λ _. is_made (keys_in self.now) (step_key_view key.now) ≡ true) }
    {
        match key {
            StepKey::Label(label) => match self.made.get(*label) {
                Some(key) => Ok(CallKey::Declared(key)),
                None => CallKey::global(alloc, ""),
            },
            StepKey::Named(name) => CallKey::global(alloc, name.as_str()),
        }
    }

    /// Makes the call of a step that runs in the context of `path`. `made` is the key of the store
    /// that the step names. A label that the plan does not have is the empty text.
    pub fn call<'c>(
        &'c self,
        step: KeyedStep<'c>,
        made: &'c Key,
        path: &'c [ContextNo],
    ) -> StepCall<'c>
        ensures { call_view result ≡ record {
          name = word_text step.entry.word;
          label = label_of (keys_in self.now) (step_key_view step.entry.key.now);
          path = drop step.entry.up path.now;
          key = made.now;
        } }
    {
        StepCall {
            name: step.word.text(),
            label: self.label_of(step.key),
            path: ancestor(path, step.up),
            key: made,
        }
    }

    /// The word by which a step names its key.
    fn label_of<'c>(&'c self, key: &'c StepKey) -> &'c str
        ensures { result.now ≡ label_of (keys_in self.now) (step_key_view key.now) }
    {
        match key {
            StepKey::Label(label) => match self.keys.get(*label) {
                Some(key) => key.label.as_str(),
                None => "",
            },
            StepKey::Named(name) => name.as_str(),
        }
    }
}

/// The path of the ancestor `up` contexts up.
fn ancestor(path: &[ContextNo], up: usize) -> &[ContextNo]
    ensures { result.now ≡ drop up path.now }
{
    match path.get(up..) {
        Some(path) => path,
        None => &[],
    }
}
