//! Steps taken apart.

use crate::{StepKey, Word};

/// A step that calls the store.
#[derive(Clone, Copy, Debug)]
pub struct KeyedStep<'p> {
    /// The step's first word.
    pub word: Word,
    /// The key that it names.
    pub key: &'p StepKey,
    /// The step's text; empty if it has none.
    pub text: &'p str,
    /// How many contexts up it acts.
    pub up: usize,
}

/// A step, as what runs it needs it: the eight steps that call the store are one case.
#[derive(Clone, Copy, Debug)]
pub enum StepParts<'p> {
    /// A step that calls the store.
    Keyed(KeyedStep<'p>),
    /// `fail` with this text.
    Fail(&'p str),
    /// `abort` with this text.
    Abort(&'p str),
}
