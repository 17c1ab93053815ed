//! What a step does with the store.
ghost use Rattle.std.specs.Prelude.{◌≡◌, option_map};
ghost use Rattle.ext_plan.specs.Plans.{step_view};
ghost use Rattle.ext_races.specs.Acts.{act_of, act_view, as_compute, draws, puts, stores, word_draws};

use ext_plan::{KeyedStep, Step, StepParts, Word};

/// The step as a call of the store; `None` for `fail` and `abort`.
pub(crate) fn act_of(step: &Step) -> Option<KeyedStep<'_>>
    ensures { option_map act_view result ≡ act_of (step_view step.now) }
{
    match step.parts() {
        StepParts::Keyed(step) => Some(step),
        StepParts::Fail(_) | StepParts::Abort(_) => None,
    }
}

/// Tests whether a step may draw a number: it puts, or its factory gives a value or a fault that is
/// kept.
pub(crate) fn draws(keep_faults: bool, step: &Step) -> bool
    ensures { result ≡ draws keep_faults (step_view step.now) }
{
    match step.parts() {
        StepParts::Keyed(step) => word_draws(keep_faults, step.word),
        StepParts::Fail(_) | StepParts::Abort(_) => false,
    }
}

/// Tests whether a step of this word may draw a number.
fn word_draws(keep_faults: bool, word: Word) -> bool
    ensures { result ≡ word_draws keep_faults word }
{
    match word {
        Word::Put | Word::PutCloseable | Word::Compute | Word::ComputeCloseable => true,
        Word::ComputeFail => keep_faults,
        Word::Want | Word::None | Word::Remove => false,
    }
}

/// Tests whether a step of this word puts a value, if `put`, and else whether it computes one.
pub(crate) fn stores(put: bool, word: Word) -> bool
    ensures { result ≡ stores put word }
{
    if put {
        return puts(word);
    }
    word.gives_value()
}

/// Tests whether a step of this word puts a value.
fn puts(word: Word) -> bool
    ensures { result ≡ puts word }
{
    match word {
        Word::Put | Word::PutCloseable => true,
        Word::Want | Word::None | Word::Remove => false,
        Word::Compute | Word::ComputeCloseable | Word::ComputeFail => false,
    }
}

/// The word of a compute of what a step of this word stores.
pub(crate) fn as_compute(word: Word) -> Word
    ensures { result ≡ as_compute word }
{
    match word {
        Word::Put => Word::Compute,
        Word::PutCloseable => Word::ComputeCloseable,
        other => other,
    }
}
