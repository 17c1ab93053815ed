//! Laws of what is known, as the contract of an empty function.
ghost use Rattle.ext_values.specs.KnownLaws.{KnownNumbersAreNumbers, LearningTells, NothingIsKnown, NotesTell};

/// Proves the laws of notes.
pub fn notes_laws<V>()
    ensures nothing { NothingIsKnown V }
    ensures numbers { KnownNumbersAreNumbers V }
    ensures notes { NotesTell V }
    ensures learning { LearningTells V }
{}
