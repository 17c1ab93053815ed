//! How a step touches a place, and which two touches clash.
ghost use Rattle.std.specs.Prelude.{◌≡◌, ◌==◌, option_map, if◌then◌else◌};
ghost use Rattle.ext_races.specs.Acts.{act_view};
ghost use Rattle.ext_races.specs.InnerStanding.{compute_view};
ghost use Rattle.ext_races.specs.Touches.{look_at, touch_first, touch_of, touch_view};

use crate::standing::Compute;
use crate::{Race, Side};
use ext_model::{ContextNo, KeyNo};
use ext_plan::{KeyedStep, Word};

/// A touch: a step of a node touches a place, and counts there as the word `acts`. That is its own
/// if it may change the place, and otherwise `want`, or that of a compute whose value it finds. The
/// text is that of a factory or of a closeable value, if it decides whether the step races.
#[derive(Clone, Copy, Debug)]
pub(crate) struct Touch<'p> {
    pub(crate) node: ContextNo,
    pub(crate) context: ContextNo,
    pub(crate) key: KeyNo,
    pub(crate) word: Word,
    pub(crate) changes: bool,
    pub(crate) acts: Word,
    pub(crate) text: &'p str,
}

/// The touch by which an act of a node touches the place of this key in a context.
pub(crate) fn touch_of<'p>(
    node: ContextNo,
    key: KeyNo,
    act: &KeyedStep<'p>,
    changes: bool,
    context: ContextNo,
) -> Touch<'p>
    ensures { touch_view result ≡ touch_of node key (act_view act.now) changes context }
{
    let text = if changes && act.word.has_text() {
        act.text
    } else {
        ""
    };
    let acts = if changes { act.word } else { Word::Want };
    Touch {
        node,
        context,
        key,
        word: act.word,
        changes,
        acts,
        text,
    }
}

/// How a look-up touches the place in a context, if this was computed above its node.
pub(crate) fn look_at<'p>(
    node: ContextNo,
    key: KeyNo,
    act: &KeyedStep<'p>,
    found: &Option<Compute<'p>>,
    context: ContextNo,
) -> Touch<'p>
    ensures { touch_view result ≡ look_at node key (act_view act.now) (option_map compute_view found.now) context }
{
    let touch = touch_of(node, key, act, false, context);
    match found {
        Some(found) => with_found(touch, found),
        None => touch,
    }
}

/// A touch that counts as this compute, if it is of the context on which that acts.
fn with_found<'p>(touch: Touch<'p>, found: &Compute<'p>) -> Touch<'p>
    ensures { touch_view result ≡ (if touch.entry.context == found.now.context then record (touch_view touch.entry) { acts = found.now.word; text = found.now.text.now } else touch_view touch.entry) }
{
    if touch.context != found.context {
        return touch;
    }
    Touch {
        acts: found.word,
        text: found.text,
        ..touch
    }
}

/// How an act touches the place in the context on which it acts, if this was computed above its
/// node.
pub(crate) fn touch_first<'p>(
    node: ContextNo,
    key: KeyNo,
    act: &KeyedStep<'p>,
    found: &Option<Compute<'p>>,
    context: ContextNo,
) -> Touch<'p>
    ensures touch { touch_view result ≡ touch_first node key (act_view act.now) (option_map compute_view found.now) context }
    ensures key { result.key ≡ key }
    ensures context { result.context ≡ context }
{
    if act.word.changes() {
        return touch_of(node, key, act, true, context);
    }
    look_at(node, key, act, found, context)
}

impl Touch<'_> {
    ghost use Rattle.ext_races.specs.Clashes.{agree, clashes, closes_differ, may_fail};
    ghost use Rattle.ext_races.specs.InnerPassing.{alike};
    ghost use Rattle.ext_races.specs.InnerProving.{computes_value, shares_value};
    ghost use Rattle.ext_races.specs.InnerListed.{touch_eq};
    ghost use Rattle.ext_races.specs.Races.{race_of, side_of};

    /// Tests whether the touches are equal.
    pub(crate) fn is_same(&self, other: &Touch<'_>) -> bool
        ensures { result ≡ touch_eq (touch_view self.now) (touch_view other.now) }
    {
        self.node == other.node
            && self.context == other.context
            && self.key == other.key
            && self.word == other.word
            && self.changes == other.changes
            && self.acts == other.acts
            && self.text == other.text
    }

    /// Tests whether it may change a place that the other touches, without agreeing with it; or
    /// whether the report may show the order of their closes.
    pub(crate) fn clashes(&self, other: &Touch<'_>) -> bool
        ensures { result ≡ clashes (touch_view self.now) (touch_view other.now) }
    {
        self.changes
            && self.context == other.context
            && if self.key == other.key {
                !self.agrees(other)
            } else {
                self.closes_differ(other)
            }
    }

    /// Tests whether each computes one place, or finds what was computed there, with the same result
    /// whichever factory runs.
    fn agrees(&self, other: &Touch<'_>) -> bool
        ensures { result ≡ agree (touch_view self.now) (touch_view other.now) }
    {
        self.acts.computes() && self.acts == other.acts && self.text == other.text
    }

    /// Tests whether it computes a value of its place.
    pub(crate) fn computes_value(&self) -> bool
        ensures { result ≡ computes_value (touch_view self.now) }
    {
        self.changes && self.word.gives_value()
    }

    /// Tests whether both compute the same value of one place.
    pub(crate) fn shares_value(&self, other: &Touch<'_>) -> bool
        ensures { result ≡ shares_value (touch_view self.now) (touch_view other.now) }
    {
        self.computes_value()
            && other.changes
            && self.context == other.context
            && self.key == other.key
            && self.agrees(other)
    }

    /// Tests whether each computes the same, or finds it; or this does neither, and neither may
    /// change anything.
    pub(crate) fn is_like(&self, other: &Self) -> bool
        ensures { result ≡ alike (touch_view self.now) (touch_view other.now) }
    {
        if self.acts.computes() {
            self.agrees(other)
        } else {
            !self.changes && !other.changes
        }
    }

    /// Tests whether the fault of either close may be reported first.
    fn closes_differ(&self, other: &Touch<'_>) -> bool
        ensures { result ≡ closes_differ (touch_view self.now) (touch_view other.now) }
    {
        self.may_fail() && other.may_fail() && self.text != other.text
    }

    /// Tests whether it may leave a value whose close fails.
    pub(crate) fn may_fail(&self) -> bool
        ensures { result ≡ may_fail (touch_view self.now) }
    {
        self.changes && self.word.leaves_closeable() && self.text.as_bytes().starts_with(b"bad")
    }

    /// The race with the other touch. The node with the lower number comes first.
    pub(crate) fn race_with(&self, other: &Touch<'_>) -> Race
        ensures { result ≡ race_of (touch_view self.now) (touch_view other.now) }
    {
        let (first, second) = if self.node < other.node {
            (self.side(), other.side())
        } else {
            (other.side(), self.side())
        };
        Race {
            first,
            second,
            context: self.context,
        }
    }

    fn side(&self) -> Side
        ensures { result ≡ side_of (touch_view self.now) }
    {
        Side {
            node: self.node,
            word: self.word,
            key: self.key,
        }
    }
}
