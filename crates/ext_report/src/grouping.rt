//! Items in groups by their numbers.
ghost use Rattle.std.specs.Prelude.{◌≡◌, IfOk, OnOk, length, vec_len};
ghost use Rattle.ext_report.specs.Groups.{AreGrouped};
ghost use Rattle.ext_report.specs.InnerPutting.{AreEmpty, IsPut};

use std::alloc::{AllocError, Global};

/// Groups items by their numbers, one for each item in `numbers`. There are `count` groups, by
/// numbers from 0. A group has the items of its number, in their order. Items of other numbers are
/// in no group.
///
/// Takes memory for the groups, and fails with `AllocError` only if that is refused.
pub fn grouped<'a, T>(
    alloc: Global,
    items: &'a [T],
    numbers: &[usize],
    count: usize,
) -> Result<Vec<Vec<&'a T>>, AllocError>
    requires { length numbers.now ≡ length items.now }
    ensures count { IfOk result (λ groups. vec_len groups ≡ count) }
    ensures groups { IfOk result (λ groups. AreGrouped count numbers.now items.now groups.items) }
{
    let mut groups = no_groups(alloc, count)?;
    for i in 0..items.len() {
        put(&mut groups, numbers[i], &items[i])?;
    }
    Ok(groups)
}

fn no_groups<'a, T>(alloc: Global, count: usize) -> Result<Vec<Vec<&'a T>>, AllocError>
    ensures count { IfOk result (λ groups. vec_len groups ≡ count) }
    ensures empty { IfOk result (λ groups. AreEmpty groups.items) }
{
    let mut groups = Vec::new(alloc);
    for _ in 0..count {
        groups.push(Vec::new(alloc))?;
    }
    Ok(groups)
}

/// Puts an item into the group with its number, if there is one.
fn put<'a, T>(groups: &mut Vec<Vec<&'a T>>, number: usize, item: &'a T) -> Result<(), AllocError>
    ensures count { OnOk result (vec_len groups.new ≡ vec_len groups.old) }
    ensures put { OnOk result (IsPut groups.old.items groups.new.items number item.now) }
{
    if number >= groups.len() {
        return Ok(());
    }
    groups[number].push(item)?;
    Ok(())
}
