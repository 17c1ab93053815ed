//! Orders in which all that stands in a node follows right behind it.
ghost use Rattle.std.specs.Prelude.{◌≡◌, ◌<◌, ◌≤◌, IfOk, All, IsPermutation, map, length, replicate, slice_index};
ghost use Rattle.ext_selection.specs.InnerStarts.{outer_of, IsBehind, AreStarts, StartsAt, IsStartRank, IsRegrouped};

use crate::looking::node_at;
use crate::nodes::Node;
use crate::rank::{Rank, indices_of, sorted};
use std::alloc::{AllocError, Global};

/// Where each node of an order starts, by indices. The order has each behind the one that it stands
/// in.
pub(crate) fn starts(alloc: Global, nodes: &[Node], order: &[usize]) -> Result<Vec<u64>, AllocError>
    requires { IsBehind nodes.now order.now }
    ensures { IfOk result (λ starts. AreStarts nodes.now order.now starts.items) }
{
    let sizes = sizes(alloc, nodes, order)?;
    let mut starts: Vec<u64> = vec![in alloc; 0; nodes.len()]?;
    let mut ends: Vec<u64> = vec![in alloc; 0; nodes.len()]?;
    set_starts(
        nodes,
        order,
        sizes.as_slice(),
        starts.as_mut_slice(),
        ends.as_mut_slice(),
    );
    Ok(starts)
}

/// How many nodes of the order stand in each, at any depth, and itself.
fn sizes(alloc: Global, nodes: &[Node], order: &[usize]) -> Result<Vec<u64>, AllocError> {
    let mut sizes: Vec<u64> = vec![in alloc; 1; nodes.len()]?;
    for index in order.iter().rev() {
        add_size(nodes, sizes.as_mut_slice(), *index);
    }
    Ok(sizes)
}

fn add_size(nodes: &[Node], sizes: &mut [u64], index: usize) {
    let size = size_at(sizes, index);
    if let Some(outer) = outer_of(nodes, index)
        && outer < sizes.len()
    {
        sizes[outer] = sizes[outer].saturating_add(size);
    }
}

fn size_at(sizes: &[u64], index: usize) -> u64 {
    sizes.get(index).copied().unwrap_or(1)
}

/// The node that one stands in.
fn outer_of(nodes: &[Node], index: usize) -> Option<usize>
    ensures { result ≡ outer_of nodes.now index }
{
    if index < nodes.len() && node_at(nodes, index).above < index {
        Some(node_at(nodes, index).above)
    } else {
        None
    }
}

/// Sets the starts from the first node of the order to the last: each where the last one beside it
/// ended.
fn set_starts(nodes: &[Node], order: &[usize], sizes: &[u64], starts: &mut [u64], ends: &mut [u64])
    requires behind { IsBehind nodes.now order.now }
    requires starts { starts.old ≡ replicate (length nodes.now) 0 }
    requires ends { ends.old ≡ replicate (length nodes.now) 0 }
    ensures { AreStarts nodes.now order.now starts.new }
{
    for index in order {
        set_start(nodes, sizes, starts, ends, *index);
    }
}

fn set_start(nodes: &[Node], sizes: &[u64], starts: &mut [u64], ends: &mut [u64], index: usize)
    requires starts { length starts.old ≡ length nodes.now }
    requires ends { length ends.old ≡ length nodes.now }
    ensures { StartsAt (outer_of nodes.now index) index starts.old ends.old starts.new ends.new }
{
    let Some(outer) = outer_of(nodes, index) else {
        return;
    };
    let start = ends[outer];
    let end = start.saturating_add(size_at(sizes, index));
    starts[index] = start;
    ends[index] = start;
    ends[outer] = end;
}

/// The indices of an order, sorted by their starts; those of one start stay as they are.
pub(crate) fn regrouped(
    alloc: Global,
    order: &[usize],
    starts: &[u64],
) -> Result<Vec<usize>, AllocError>
    ensures indices { IfOk result (λ regrouped. IsPermutation order.now regrouped.items) }
    ensures order { IfOk result (λ regrouped. IsRegrouped order.now starts.now regrouped.items) }
{
    let ranks = start_ranks(alloc, order, starts)?;
    let sorted = sorted(ranks)?;
    indices_of(alloc, sorted.as_slice())
}

fn start_ranks(alloc: Global, order: &[usize], starts: &[u64]) -> Result<Vec<Rank>, AllocError>
    ensures indices { IfOk result (λ ranks. map (λ rank. rank.index) ranks.items ≡ order.now) }
    ensures each { IfOk result (λ ranks. All (IsStartRank order.now starts.now) ranks.items) }
{
    let mut ranks = Vec::new(alloc);
    for at in 0..order.len() {
        ranks.push(start_rank(order, starts, at))?;
    }
    Ok(ranks)
}

fn start_rank(order: &[usize], starts: &[u64], at: usize) -> Rank
    requires { at < length order.now }
    ensures index { result.index ≡ slice_index order.now at }
    ensures each { IsStartRank order.now starts.now result }
{
    let index = order[at];
    let key = ((start_at(starts, index) as u128) << 64) + at as u128;
    Rank { key, index }
}

fn start_at(starts: &[u64], index: usize) -> u64
    ensures { result ≡ slice_index starts.now index }
{
    starts.get(index).copied().unwrap_or(0)
}
