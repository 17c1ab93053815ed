//! Orders of nodes that a seed decides.
ghost use Rattle.std.specs.Prelude.{◌≡◌, ◌+◌, ◌≤◌, ◌<◌, ℕ, IfOk, All, IsPermutation, map, length, nat_lt, slice_index, if◌then◌else◌};
ghost use Rattle.ext_selection.specs.Nodes.{node_at, AreIndices};
ghost use Rattle.ext_selection.specs.Shuffling.{drawn_at, IsOrder};
ghost use Rattle.ext_selection.specs.InnerRanks.{AreDepths, IsRank, number_of};

use crate::grouping::{regrouped, starts};
use crate::hashing::text_number;
use crate::looking::node_at;
use crate::nodes::Node;
use crate::rank::{Rank, indices_of, sorted};
use ext_ids::UniqueId;
use std::alloc::{AllocError, Global};

/// The indices in an order that the seed decides, the same for each seed on each machine: each node
/// behind the one that it stands in, those beside one another that run in turn in the table's order,
/// and the others by a number that the seed and the node's id make. What stands in a node follows
/// right behind it, of which no clause speaks. Takes memory, and has no other refusal. An own rule,
/// for JUnit 5 User Guide, section "Test Execution Order".
pub fn shuffled(
    alloc: Global,
    ids: &[UniqueId],
    nodes: &[Node],
    indices: &[usize],
    seed: u64,
) -> Result<Vec<usize>, AllocError>
    ensures indices { IfOk result (λ order. IsPermutation indices.now order.items) }
    ensures once { (count : ℕ) → AreIndices count indices.now → IfOk result (λ order. AreIndices count order.items) }
    ensures order { IfOk result (λ order. IsOrder nodes.now (drawn_at seed ids.now) order.items) }
{
    let levels = by_levels(alloc, ids, nodes, indices, seed)?;
    let starts = starts(alloc, nodes, levels.as_slice())?;
    regrouped(alloc, levels.as_slice(), starts.as_slice())
}

/// The indices level by level: nodes that stand in fewer others come before all that stand in more,
/// and those of one level in the order that `shuffled` says.
fn by_levels(
    alloc: Global,
    ids: &[UniqueId],
    nodes: &[Node],
    indices: &[usize],
    seed: u64,
) -> Result<Vec<usize>, AllocError>
    ensures indices { IfOk result (λ order. IsPermutation indices.now order.items) }
    ensures order { IfOk result (λ order. IsOrder nodes.now (drawn_at seed ids.now) order.items) }
{
    let depths = depths(alloc, nodes)?;
    let ranks = ranks(alloc, ids, nodes, depths.as_slice(), indices, seed)?;
    let sorted = sorted(ranks)?;
    indices_of(alloc, sorted.as_slice())
}

/// How many nodes each stands in.
fn depths(alloc: Global, nodes: &[Node]) -> Result<Vec<usize>, AllocError>
    ensures { IfOk result (λ depths. AreDepths nodes.now depths.items) }
{
    let mut depths = Vec::new(alloc);
    for index in 0..nodes.len() {
        let depth = depth_below(depths.as_slice(), node_at(nodes, index).above);
        depths.push(depth)?;
    }
    Ok(depths)
}

/// The depth of a node that stands in the one at this index, if that one comes before it.
fn depth_below(depths: &[usize], above: usize) -> usize
    requires { (k : ℕ) → k < length depths.now → slice_index depths.now k ≤ k }
    ensures { result ≡ (if nat_lt above (length depths.now) then slice_index depths.now above + 1 else 0) }
{
    if above < depths.len() {
        depths[above] + 1
    } else {
        0
    }
}

fn ranks(
    alloc: Global,
    ids: &[UniqueId],
    nodes: &[Node],
    depths: &[usize],
    indices: &[usize],
    seed: u64,
) -> Result<Vec<Rank>, AllocError>
    ensures indices { IfOk result (λ ranks. map (λ rank. rank.index) ranks.items ≡ indices.now) }
    ensures each { IfOk result (λ ranks. All (IsRank nodes.now (drawn_at seed ids.now) depths.now) ranks.items) }
{
    let mut ranks = Vec::new(alloc);
    for index in indices {
        ranks.push(rank_of(alloc, ids, nodes, depths, *index, seed)?)?;
    }
    Ok(ranks)
}

fn rank_of(
    alloc: Global,
    ids: &[UniqueId],
    nodes: &[Node],
    depths: &[usize],
    index: usize,
    seed: u64,
) -> Result<Rank, AllocError>
    ensures index { IfOk result (λ rank. rank.index ≡ index) }
    ensures each { IfOk result (IsRank nodes.now (drawn_at seed ids.now) depths.now) }
{
    let number = number(alloc, ids, nodes, index, seed)?;
    let depth = depth_at(depths, index);
    let key = ((depth as u128) << 64) + number as u128;
    Ok(Rank { key, index })
}

/// The number by which a node comes among those beside it.
fn number(
    alloc: Global,
    ids: &[UniqueId],
    nodes: &[Node],
    index: usize,
    seed: u64,
) -> Result<u64, AllocError>
    ensures { IfOk result (λ number. number ≡ number_of nodes.now (drawn_at seed ids.now) index) }
{
    if is_in_turn(nodes, index) {
        Ok(index as u64)
    } else {
        drawn(alloc, ids, index, seed)
    }
}

/// What the seed draws for the node at an index.
fn drawn(alloc: Global, ids: &[UniqueId], index: usize, seed: u64) -> Result<u64, AllocError>
    ensures { IfOk result (λ number. number ≡ drawn_at seed ids.now index) }
{
    let mut text = String::new(alloc);
    if index < ids.len() {
        ids[index].write_to(&mut text)?;
    }
    Ok(text_number(&seed.to_be_bytes(), text.as_str()))
}

fn is_in_turn(nodes: &[Node], index: usize) -> bool
    ensures { result ≡ (node_at nodes.now index).is_in_turn }
{
    index < nodes.len() && nodes[index].is_in_turn
}

fn depth_at(depths: &[usize], index: usize) -> usize
    ensures { result ≡ slice_index depths.now index }
{
    depths.get(index).copied().unwrap_or(0)
}
