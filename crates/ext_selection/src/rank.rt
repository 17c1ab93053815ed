//! Ranks of nodes, and the order that they make.
ghost use Rattle.std.specs.Prelude.{◌≡◌, IfOk, IsPermutation, map};
ghost use Rattle.std.specs.List.Sorted.{IsNonDecreasingBy};

use std::alloc::{AllocError, Global};

/// Where a node comes: the lower, the further in front.
#[derive(Clone, Copy)]
pub(crate) struct Rank {
    pub(crate) key: u128,
    pub(crate) index: usize,
}

/// The ranks from the lowest.
pub(crate) fn sorted(mut ranks: Vec<Rank>) -> Result<Vec<Rank>, AllocError>
    ensures same { IfOk result (λ sorted. IsPermutation ranks.items sorted.items) }
    ensures rising { IfOk result (λ sorted. IsNonDecreasingBy (λ rank. rank.key) sorted.items) }
{
    ranks.sort_by_key(|rank| rank.key)?;
    Ok(ranks)
}

pub(crate) fn indices_of(alloc: Global, ranks: &[Rank]) -> Result<Vec<usize>, AllocError>
    ensures { IfOk result (λ indices. indices.items ≡ map (λ rank. rank.index) ranks.now) }
{
    ranks.iter().map(|rank| rank.index).collect(alloc)
}
