//! What steps say of keys and texts.
ghost use Rattle.std.specs.Prelude.{◌≡◌};
ghost use Rattle.ext_lint.specs.Said.{asks, stores, wants};

use ext_model::KeyNo;
use ext_plan::Word;

/// What a step that calls the store says: its word, its key by its number and by the word that names
/// it, and its text.
#[derive(Clone, Copy, Debug)]
pub(crate) struct Said<'p> {
    pub(crate) word: Word,
    pub(crate) key: KeyNo,
    pub(crate) name: &'p str,
    pub(crate) text: &'p str,
}

/// Tests whether a step of this word may store its text.
pub(crate) fn stores(word: Word) -> bool
    ensures { result ≡ stores word }
{
    matches!(
        word,
        Word::Put | Word::PutCloseable | Word::Compute | Word::ComputeCloseable
    )
}

/// Tests whether a step of this word wants to find its text.
pub(crate) fn wants(word: Word) -> bool
    ensures { result ≡ wants word }
{
    matches!(word, Word::Want)
}

/// Tests whether a step of this word wants to find its text, or names its key alone.
pub(crate) fn asks(word: Word) -> bool
    ensures { result ≡ asks word }
{
    matches!(word, Word::Want | Word::None | Word::Remove)
}
