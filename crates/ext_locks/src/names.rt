//! The names of locks: how they are checked at opening, and the index of one among them.
ghost use Rattle.std.specs.Prelude.{◌≡◌, IfOk, IfSome, MatchOption, Some, None, Contains, IsPermutation, map, slice_get, length, string_bytes};
ghost use Rattle.std.specs.List.Sorted.{IsSorted};
ghost use Rattle.std.specs.String.{string_cmp};
ghost use Rattle.ext_locks.specs.Names.{texts_of, AreDifferent, IsFirstTwice};

use std::alloc::{AllocError, Global};

/// The first index of a name that also stands before it.
pub(crate) fn first_twice(names: &[&str]) -> Option<usize>
    ensures { MatchOption result (AreDifferent (texts_of names.now)) (IsFirstTwice (texts_of names.now)) }
{
    for (at, name) in names.iter().enumerate() {
        if names[..at].contains(name) {
            return Some(at);
        }
    }
    None
}

/// Copies of the names, in the order of their bytes. Takes memory.
pub(crate) fn sorted_copies(alloc: Global, names: &[&str]) -> Result<Vec<String>, AllocError>
    requires { AreDifferent (texts_of names.now) }
    ensures names { IfOk result (λ v. IsPermutation (texts_of names.now) (map string_bytes v.items)) }
    ensures different { IfOk result (λ v. AreDifferent (map string_bytes v.items)) }
    ensures sorted { IfOk result (λ v. IsSorted string_cmp v.items) }
{
    let mut copies = Vec::with_capacity(alloc, names.len())?;
    for name in names {
        copies.push_reserved(String::from_str(alloc, name)?);
    }
    copies.sort_unstable();
    Ok(copies)
}

/// The index of a name among names in the order of their bytes, found by binary search.
pub(crate) fn index_of(names: &[String], name: &str) -> Option<usize>
    requires { IsSorted string_cmp names.now }
    ensures found { IfSome result (λ at. slice_get (map string_bytes names.now) at ≡ Some name.now) }
    ensures absent { result ≡ None → ¬ (Contains (map string_bytes names.now) name.now) }
{
    names
        .binary_search_by(|probe| probe.as_str().cmp(name))
        .ok()
}
