//! The unique id of a test context.
ghost use Rattle.std.specs.Prelude.{◌≡◌, ◌≢◌, ◌++◌, ◌∷◌, [], ◌-◌, ◌<◌, ◌↔◌, IsTrue, IsOk, IsErrOf, IfOk, IfErr, OnOk, MatchResult, Some, Ok, List, length, slice_get, string_bytes};
ghost use Rattle.std.specs.Cmp.{partial_equiv_from_equiv};
ghost use Rattle.std.specs.Cmp.Lexicographic.{pointwise, lists_equiv};
ghost use Rattle.ext_ids.specs.Grammar.{Pair, IsId, IsIdText, id_text};
ghost use Rattle.ext_ids.specs.Reading.{read_id, GivesOrMemory};
ghost use Rattle.ext_ids.specs.Faults.{HasFault};
ghost use Rattle.ext_ids.specs.Ids.{is_parent, pair_eq};
ghost use Rattle.ext_ids.specs.Making.{Makes, pairs_of};
ghost use Rattle.ext_ids.specs.InnerTraits.{pair_eq_equiv};
ghost use Rattle.ext_ids.specs.declared.fault.IdFault.{IdFault};
ghost use Rattle.ext_ids.specs.declared.fault.IdFault.TheVariants.{Memory};

use crate::fault::IdFault;
use crate::making::{PartFault, fault_at, parts_fault, segments_from, with_segment};
use crate::scan::{MAX_SEGMENTS, check, segment_ends};
use crate::segment::{Segment, write_segments};
use std::alloc::{AllocError, Global};
use std::marker::Model;

/// The unique id of a test context: 1 to 16 segments, from the engine's down to the context's own.
///
/// The form `[type:value]/[type:value]..` is that of JUnit's `UniqueId` (Javadoc of the JUnit
/// Platform); which texts are accepted, and each fault, is an own rule.
#[derive(Debug, Drop)]
pub struct UniqueId {
    segments: Vec<Segment>,
}

impl Model for UniqueId {
    ghost use Rattle.std.specs.Prelude.{ℕ, List};

    ghost Value = { List (List ℕ × List ℕ) };

    ghost use Rattle.ext_ids.specs.Grammar.{IsId};

    ghost view = { λ id. id.segments.items };

    ghost invariant = { λ id. IsId id.segments.items };
}

impl UniqueId {
    /// Parses the id that a text spells, and decodes its escapes. Takes memory.
    ///
    /// The whole text is checked, from the left, before memory is taken. A text that is not an id
    /// is refused for its first fault, I1 to I8; I9 comes only if the text is an id.
    pub fn parse(alloc: Global, text: &str) -> Result<UniqueId, IdFault>
        // An accepted text spells the id, and a text that spells an id is accepted while there is
        // memory.
        ensures found { IfOk result (λ id. IsIdText text.now id) }
        ensures only { (pairs : List Pair) → IsIdText text.now pairs → MatchResult result (λ id. id ≡ pairs) (λ e. e ≡ Memory) }

        // A refusal names the first fault, and a text with a fault is refused for it.
        ensures fault { IfErr result (λ e. e ≢ Memory → HasFault text.now e) }
        ensures first { (e : IdFault) → HasFault text.now e → IsErrOf result e }

        ensures memory { IfErr result (λ e. e ≡ Memory → (pairs : List Pair) × IsIdText text.now pairs) }

        // What the result is, as one function of the text, for a caller whose own result is one.
        ensures exact { GivesOrMemory result (read_id text.now) }
    {
        check(text.as_bytes())?;
        let segments = segments_of(alloc, text)?;
        Ok(UniqueId { segments })
    }

    /// Makes the id of these parts, from the engine's down, each a type and a value as `segment`
    /// returns them: any characters may stand in both, and `write` escapes the marks. Takes memory.
    ///
    /// All parts are looked through, from the left, before memory is taken. The first fault tells:
    /// `NoPart`, and of each part `TooMany`, `NoType`, `NoValue`. `Memory` comes only if they make
    /// an id.
    pub fn from_parts(alloc: Global, parts: &[(&str, &str)]) -> Result<UniqueId, PartFault>
        ensures made { Makes (pairs_of parts.now) result }
    {
        if let Some(fault) = parts_fault(parts) {
            return Err(fault);
        }
        match segments_from(alloc, parts) {
            Ok(segments) => Ok(UniqueId { segments }),
            Err(AllocError) => Err(PartFault::Memory),
        }
    }

    /// Makes the id with one more segment, of this type and this value, as `append` of JUnit's
    /// `UniqueId` does: any characters may stand in both, and `write` escapes the marks. Takes
    /// memory for all of the new id.
    ///
    /// Refused like `from_parts` with this part behind those of the id: before memory is taken as
    /// `TooMany` if the id has 16 segments, as `NoType` or as `NoValue`; else as `Memory`.
    pub fn append(&self, alloc: Global, kind: &str, value: &str) -> Result<UniqueId, PartFault>
        ensures made { Makes (self.now ++ (kind.now, value.now) ∷ []) result }
    {
        if let Some(fault) = fault_at(self.segments.len(), kind, value) {
            return Err(fault);
        }
        match with_segment(alloc, &self.segments, kind, value) {
            Ok(segments) => Ok(UniqueId { segments }),
            Err(AllocError) => Err(PartFault::Memory),
        }
    }

    /// How many segments the id has: 1 to 16. An id is never empty, so there is no `is_empty`.
    pub fn len(&self) -> usize
        ensures count { result ≡ length self.now }
        ensures id { IsId self.now }
    {
        self.segments.len()
    }

    /// The decoded type and value of segment `i`; segment 0 is the engine's.
    pub fn segment(&self, i: usize) -> (&str, &str)
        requires { i < length self.now }
        ensures { slice_get self.now i ≡ Some (result.0.now, result.1.now) }
    {
        self.segments[i].parts()
    }

    /// The text of the id, in its only spelling. Takes memory, and I9 is its only fault.
    pub fn write(&self, alloc: Global) -> Result<String, IdFault>
        ensures text { IfOk result (λ s. string_bytes s ≡ id_text self.now) }
        ensures spelled { IfOk result (λ s. IsIdText (string_bytes s) self.now) }
        ensures memory { IfErr result (λ e. e ≡ Memory) }
    {
        // For the proof only: using a field brings in what is true of every id.
        let _ = &self.segments;
        let mut text = String::new(alloc);
        self.write_to(&mut text)?;
        Ok(text)
    }

    /// Appends the id to a text, which may take memory. If memory is refused, the contents of the
    /// text are not specified.
    pub fn write_to(&self, text: &mut String) -> Result<(), AllocError>
        ensures { OnOk result (string_bytes text.new ≡ string_bytes text.old ++ id_text self.now) }
    {
        write_segments(self.segments.as_slice(), text)
    }

    /// Tests whether the other id is this one with one more segment: this one is its parent in the
    /// tree of contexts.
    pub fn is_parent_of(&self, other: &UniqueId) -> bool
        ensures exact { result ≡ is_parent self.now other.now }
        ensures child { IsTrue result ↔ ((p : Pair) × (other.now ≡ self.now ++ p ∷ [])) }
    {
        match other.segments.as_slice() {
            [front @ .., _] => front == self.segments.as_slice(),
            [] => false,
        }
    }
}

impl Clone for UniqueId {
    ghost is_clone = { λ id copy. copy ≡ id };

    /// An equal id. Takes memory.
    fn clone(&self) -> Result<UniqueId, AllocError> {
        let segments = self.segments.clone()?;
        Ok(UniqueId { segments })
    }
}

impl PartialEq for UniqueId {
    ghost eq = { pointwise pair_eq };

    ghost laws = { partial_equiv_from_equiv (lists_equiv pair_eq_equiv) };

    /// Tests whether both ids have the same segments.
    fn eq(&self, other: &UniqueId) -> bool
        ensures exact { result ≡ pointwise pair_eq self.now other.now }
        ensures same { IsTrue result ↔ (self.now ≡ other.now) }
    {
        self.segments == other.segments
    }
}

impl Eq for UniqueId {
    ghost laws = { lists_equiv pair_eq_equiv };
}

/// The segments of a text that `check` has passed, so only an allocation can fail.
fn segments_of(alloc: Global, text: &str) -> Result<Vec<Segment>, AllocError>
    requires { IsOk (read_id text.now) }
    ensures { IfOk result (λ v. read_id text.now ≡ Ok v.items) }
{
    let mut segments = Vec::new(alloc);
    let mut at = 0;
    for _ in 0..MAX_SEGMENTS {
        let Ok(ends) = segment_ends(text.as_bytes(), at) else {
            unreachable!()
        };
        let segment = Segment::read(alloc, text, at, ends)?;
        segments.push(segment)?;
        let next = ends.value + 1;
        if next == text.len() {
            return Ok(segments);
        }
        at = next + 1;
    }
    unreachable!()
}
