//! How much of its node's path a step touches.
ghost use Rattle.std.specs.Prelude.{◌≡◌, ◌<◌, IfOk, length, take, if◌then◌else◌};
ghost use Rattle.ext_plan.specs.StepWords.{changes};
ghost use Rattle.ext_races.specs.Acts.{act_view};
ghost use Rattle.ext_races.specs.InnerReach.{AreWhole, below_at, is_computed, noted};

use ext_model::{ContextNo, KeyNo};
use ext_plan::KeyedStep;
use std::alloc::{AllocError, Global};

/// No path has more contexts.
const LEVELS: usize = 16;

/// More than any path has: no step computed the key.
const NOWHERE: usize = 17;

/// For each of so many keys how many contexts of a path a look-up touches: all of them. Takes memory
/// for them.
pub(crate) fn whole_paths(alloc: Global, keys: usize) -> Result<Vec<usize>, AllocError>
    ensures count { IfOk result (λ v. length v.items ≡ keys) }
    ensures whole { IfOk result (λ v. AreWhole v.items) }
{
    let mut below = Vec::new(alloc);
    for _ in 0..keys {
        below.push(NOWHERE)?;
    }
    Ok(below)
}

/// Forgets what was computed.
pub(crate) fn forget(below: &mut Vec<usize>)
    ensures count { length below.new.items ≡ length below.old.items }
    ensures whole { AreWhole below.new.items }
{
    for key in 0..below.len() {
        below[key] = NOWHERE;
    }
}

/// The part of a path that an act on the key with this number reaches: a look-up stops below a
/// context where a step computed a value of its key.
pub(crate) fn reach<'t>(
    below: &[usize],
    act: &KeyedStep<'_>,
    key: KeyNo,
    path: &'t [ContextNo],
) -> &'t [ContextNo]
    requires { key < length below.now }
    ensures { result.now ≡ (if changes (act_view act.now).word then path.now else take (below_at below.now key) path.now) }
{
    if act.word.changes() {
        return path;
    }
    lower(path, below[key])
}

/// Notes where an act computes a value of the key with this number.
pub(crate) fn note(below: &mut Vec<usize>, act: &KeyedStep<'_>, key: KeyNo)
    requires { key < length below.old.items }
    ensures { below.new.items ≡ noted below.old.items key (act_view act.now) }
{
    let up = act.up.min(LEVELS);
    if act.word.gives_value() && up < below[key] {
        below[key] = up;
    }
}

/// Tests whether a step computed a value of the key with this number.
pub(crate) fn is_computed(below: &[usize], key: KeyNo) -> bool
    requires { key < length below.now }
    ensures { result ≡ is_computed below.now key }
{
    below[key] < NOWHERE
}

/// The first `up` contexts of the path.
fn lower(path: &[ContextNo], up: usize) -> &[ContextNo]
    ensures { result.now ≡ take up path.now }
{
    match path.get(..up) {
        Some(path) => path,
        None => path,
    }
}
