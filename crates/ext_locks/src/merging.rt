//! The set of locks that requests ask for.
ghost use Rattle.std.specs.Prelude.{◌≡◌, ◌⊎◌, ◌+◌, ◌≤◌, ◌<◌, true, Some, None, IfOk, IfErr, IfSome, map, length, string_bytes};
ghost use Rattle.std.specs.List.Sorted.{IsSorted};
ghost use Rattle.std.specs.String.{string_cmp};
ghost use Rattle.ext_locks.specs.Sets.{AllBelow};
ghost use Rattle.ext_locks.specs.Names.{IsNumberOf, IsKnown, is_as_strong, IsMerged, IsNotMerged};

use crate::names::index_of;
use crate::set::MAX_LOCKS;
use crate::{LockFault, LockMode, LockNo, LockRequest, LockSet, Resource};

/// The lock that a resource names, among names in the order of their bytes: the global one is 0.
fn number_of(names: &[String], resource: &Resource) -> Option<LockNo>
    requires { IsSorted string_cmp names.now }
    ensures found { IfSome result (IsNumberOf (map string_bytes names.now) resource.now) }
    ensures within { IfSome result (λ lock. lock ≤ length names.now) }
    ensures absent { result ≡ None → ¬ (IsKnown (map string_bytes names.now) resource.now) }
{
    match resource {
        Resource::Global => Some(0),
        Resource::Named(name) => match index_of(names, name) {
            Some(at) => Some(at + 1),
            None => None,
        },
    }
}

/// The stronger of two modes, of which the first may be none.
fn stronger(old: Option<LockMode>, new: LockMode) -> LockMode
    ensures as_new { is_as_strong result new ≡ true }
    ensures as_old { IfSome old (λ was. is_as_strong result was ≡ true) }
    ensures either { (result ≡ new) ⊎ (old ≡ Some result) }
{
    match old {
        Some(LockMode::ReadWrite) => LockMode::ReadWrite,
        Some(LockMode::Read) | None => new,
    }
}

/// The locks that requests ask for, each once and in the strongest mode asked for.
pub(crate) fn merge_requests(
    names: &[String],
    requests: &[LockRequest],
) -> Result<LockSet, LockFault>
    requires names { IsSorted string_cmp names.now }
    requires few { length names.now ≤ 63 }
    ensures merged { IfOk result (IsMerged (map string_bytes names.now) requests.now) }
    ensures within { IfOk result (AllBelow (length names.now + 1)) }
    ensures fault { IfErr result (IsNotMerged (map string_bytes names.now) requests.now) }
{
    let mut modes = [None; MAX_LOCKS];
    for (at, request) in requests.iter().enumerate() {
        let Some(lock) = number_of(names, &request.resource) else {
            return Err(LockFault::UnknownResource(at));
        };
        modes[lock] = Some(stronger(modes[lock], request.mode));
    }
    Ok(LockSet {
        modes,
        locks: names.len() + 1,
    })
}
