//! The first segments of an id, as a key of the table by which a tree's ids are looked up.
ghost use Rattle.std.specs.Prelude.{◌≡◌, ◌+◌, ◌≤◌, ◌<◌, IfOk, OnOk, length, take};
ghost use Rattle.std.specs.Cmp.{partial_equiv_from_equiv};
ghost use Rattle.std.specs.Cmp.Lexicographic.{pointwise, lists_equiv};
ghost use Rattle.ext_ids.specs.Ids.{pair_eq};
ghost use Rattle.ext_ids.specs.InnerTraits.{pair_eq_equiv};
ghost use Rattle.ext_tree.specs.Traits.{trail_input, trails_Alike};

use crate::text::Text;
use ext_ids::UniqueId;
use std::alloc::{AllocError, Global};
use std::hash::{Hash, Hasher};
use std::marker::Model;

/// The first segments of an id, seen as the pairs of their types and values.
#[derive(Drop)]
pub(crate) struct Trail {
    segments: Vec<(Text, Text)>,
}

impl Model for Trail {
    ghost use Rattle.std.specs.Prelude.{ℕ, List};

    ghost Value = { List (List ℕ × List ℕ) };

    ghost view = { λ t. t.segments.items };
}

impl Trail {
    /// The first `count` segments of an id. Takes memory.
    pub fn of(alloc: Global, id: &UniqueId, count: usize) -> Result<Trail, AllocError>
        requires { count ≤ length id.now }
        ensures { IfOk result (λ t. t ≡ take count id.now) }
    {
        let mut segments = Vec::new(alloc);
        for i in 0..count {
            push_copied(alloc, &mut segments, id, i)?;
        }
        Ok(Trail { segments })
    }

    /// Appends the id's segment `i`. Takes memory.
    pub fn push(&mut self, alloc: Global, id: &UniqueId, i: usize) -> Result<(), AllocError>
        requires within { i < length id.now }
        requires next { self.old ≡ take i id.now }
        ensures { OnOk result (self.new ≡ take (i + 1) id.now) }
    {
        push_copied(alloc, &mut self.segments, id, i)
    }
}

/// Appends a copy of the id's segment `i` to those before it.
fn push_copied(
    alloc: Global,
    segments: &mut Vec<(Text, Text)>,
    id: &UniqueId,
    i: usize,
) -> Result<(), AllocError>
    requires within { i < length id.now }
    requires next { segments.old.items ≡ take i id.now }
    ensures { OnOk result (segments.new.items ≡ take (i + 1) id.now) }
{
    let (kind, value) = id.segment(i);
    let kind = Text::copied(alloc, kind)?;
    let value = Text::copied(alloc, value)?;
    segments.push((kind, value))?;
    Ok(())
}

impl PartialEq for Trail {
    ghost eq = { pointwise pair_eq };

    ghost laws = { partial_equiv_from_equiv (lists_equiv pair_eq_equiv) };

    fn eq(&self, other: &Trail) -> bool {
        self.segments == other.segments
    }
}

impl Eq for Trail {
    ghost laws = { lists_equiv pair_eq_equiv };
}

impl Hash for Trail {
    ghost hash_input = { trail_input };

    ghost respects_eq = { trails_Alike.fed };

    fn hash<H: Hasher>(&self, state: &mut H) {
        self.segments.hash(state);
    }
}
