//! The first words of the steps that call a store.
ghost use Rattle.std.specs.Prelude.{◌≡◌};

/// The first word of a step that calls the store. `fail` and `abort` call none.
#[derive(Clone, Copy, Debug, PartialEq, Eq)]
pub enum Word {
    /// `put` stores a value that is not closeable.
    Put,
    /// `put!` stores a closeable value.
    PutCloseable,
    /// `want` expects to find a value with its text.
    Want,
    /// `none` expects to find nothing.
    None,
    /// `remove` removes what stands in its place.
    Remove,
    /// `compute` computes a value that is not closeable, unless one is found.
    Compute,
    /// `compute!` computes a closeable value, unless one is found.
    ComputeCloseable,
    /// `computefail` computes by a factory that fails.
    ComputeFail,
}

impl Word {
    ghost use Rattle.ext_plan.specs.StepWords.{changes, computes, gives_value, has_text, leaves_closeable, looks_along, word_text};

    /// Returns the word as a plan writes it.
    pub fn text(self) -> &'static str
        ensures { result.now ≡ word_text self }
    {
        match self {
            Word::Put => "put",
            Word::PutCloseable => "put!",
            Word::Want => "want",
            Word::None => "none",
            Word::Remove => "remove",
            Word::Compute => "compute",
            Word::ComputeCloseable => "compute!",
            Word::ComputeFail => "computefail",
        }
    }

    /// Tests whether a step of this word may change its place: every word but `want` and `none`.
    pub fn changes(self) -> bool
        ensures { result ≡ changes self }
    {
        !matches!(self, Word::Want | Word::None)
    }

    /// Tests whether a step of this word looks up along the path: `want`, `none` and the computes.
    pub fn looks_along(self) -> bool
        ensures { result ≡ looks_along self }
    {
        !matches!(self, Word::Put | Word::PutCloseable | Word::Remove)
    }

    /// Tests whether a step of this word has a factory.
    pub fn computes(self) -> bool
        ensures { result ≡ computes self }
    {
        matches!(
            self,
            Word::Compute | Word::ComputeCloseable | Word::ComputeFail
        )
    }

    /// Tests whether a step of this word has a factory that gives a value.
    pub fn gives_value(self) -> bool
        ensures { result ≡ gives_value self }
    {
        matches!(self, Word::Compute | Word::ComputeCloseable)
    }

    /// Tests whether a step of this word may leave a closeable value.
    pub fn leaves_closeable(self) -> bool
        ensures { result ≡ leaves_closeable self }
    {
        matches!(self, Word::PutCloseable | Word::ComputeCloseable)
    }

    /// Tests whether the text of such a step decides whether it races: the computes, and the words
    /// that leave a closeable value.
    pub fn has_text(self) -> bool
        ensures { result ≡ has_text self }
    {
        !matches!(self, Word::Put | Word::Want | Word::None | Word::Remove)
    }
}
