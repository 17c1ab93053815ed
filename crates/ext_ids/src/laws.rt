//! Laws of the grammar of ids, each the contract of an empty function.
ghost use Rattle.ext_ids.specs.Making.{FaultsTellIds};
ghost use Rattle.ext_ids.specs.SpellingLaws.{TextTellsPairs, PairsTellText, SpellsCharacters, EachTextIsDecided};

/// Proves that a text spells at most one id.
pub fn one_reading()
    ensures { TextTellsPairs }
{}

/// Proves that 1 to 16 pairs of non-empty parts have exactly one spelling.
pub fn one_spelling()
    ensures { PairsTellText }
{}

/// Proves that a part is spelled character by character: the bytes of a non-ASCII character stand
/// as they are.
pub fn characters_are_spelled_one_by_one()
    ensures { SpellsCharacters }
{}

/// Proves that each text either spells an id or has exactly one fault.
pub fn id_or_fault()
    ensures { EachTextIsDecided }
{}

/// Proves that parts make an id exactly if they have no fault.
pub fn parts_or_fault()
    ensures { FaultsTellIds }
{}
