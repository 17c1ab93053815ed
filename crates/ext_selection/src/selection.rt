//! Which tests are run.
ghost use Rattle.std.specs.Prelude.{◌≡◌, IfOk, List, ℕ, false, length, drop, nat_eq};
ghost use Rattle.std.specs.Prelude.{vec_len, filter, ◌<◌};
ghost use Rattle.std.specs.List.{starts_with, list_any, range_with_len};
ghost use Rattle.std.specs.Str.{bytes_eq};
ghost use Rattle.std.specs.String.{string_bytes};
ghost use Rattle.std.specs.HashSet.{contains_text};
ghost use Rattle.ext_selection.specs.Nodes.{AreClosed, AreIndices};
ghost use Rattle.ext_selection.specs.Selection.{matches, has_match, is_asked, is_listed, is_below, ends_id, has_part, is_wanted, wanted_of, flag_at, AreKept, AreChosen};
ghost use Rattle.ext_selection.specs.Shards.{is_in};
ghost use Rattle.ext_selection.specs.InnerKeeping.{is_in_set, AreHolders, kept_by, marked};

use crate::looking::node_at;
use crate::nodes::Node;
use crate::shards::Shard;
use ext_ids::UniqueId;
use std::alloc::{AllocError, Global};
use std::collections::HashSet;

/// Which tests are run.
#[derive(Drop)]
pub struct Selection {
    /// A test is asked for if its id matches one of these texts; without any, each test is.
    pub texts: Vec<String>,
    /// Whether a text stands for a whole id, which matches that id and those below it. Else it
    /// matches each id that has it as a part.
    pub exact: bool,
    /// Tests whose ids match one of these are left out.
    pub skips: Vec<String>,
    /// The part of the suite that is run.
    pub shard: Option<Shard>,
    /// The whole ids of the tests that are run, as of those that failed before; `None` for all.
    pub failed: Option<Vec<String>>,
}

/// The indices of the nodes that are run, rising: of the wanted tests, and of the containers that one
/// of them stands in. A test is a node that is given something and has no node in it. A node without
/// an id is not wanted. Takes memory, and has no other refusal. An own rule, for JUnit 5 User Guide,
/// section "Running Tests".
pub fn chosen(
    alloc: Global,
    ids: &[UniqueId],
    nodes: &[Node],
    selection: &Selection,
) -> Result<Vec<usize>, AllocError>
    ensures chosen { IfOk result (λ indices. AreChosen nodes.now (wanted_of selection.now ids.now) indices.items) }
    ensures indices { IfOk result (λ indices. AreIndices (length nodes.now) indices.items) }
    ensures closed { IfOk result (λ indices. AreClosed nodes.now indices.items) }
{
    let failed = listed(alloc, &selection.failed)?;
    let wanted = wanted(alloc, ids, selection, &failed)?;
    let kept = kept(alloc, nodes, wanted.as_slice())?;
    indices(alloc, kept.as_slice())
}

/// The listed ids as a set, since an earlier run may have failed in many tests.
fn listed(alloc: Global, names: &Option<Vec<String>>) -> Result<Option<HashSet<String>>, AllocError>
    ensures { IfOk result (λ set. (id : List ℕ) → is_in_set set id ≡ is_listed names.now id) }
{
    match names {
        None => Ok(None),
        Some(names) => Ok(Some(set_of(alloc, names.as_slice())?)),
    }
}

fn set_of(alloc: Global, names: &[String]) -> Result<HashSet<String>, AllocError>
    ensures { IfOk result (λ set. (id : List ℕ) → contains_text set id ≡ list_any (λ name. bytes_eq id (string_bytes name)) names.now) }
{
    let mut set = HashSet::new(alloc);
    for name in names {
        set.insert(name.clone()?)?;
    }
    Ok(set)
}

/// Whether the id is in the set, where there is one.
fn is_in_set(set: &Option<HashSet<String>>, id: &str) -> bool
    ensures { result ≡ is_in_set set.now id.now }
{
    match set {
        None => true,
        Some(set) => set.contains(id),
    }
}

/// Whether each id is wanted.
fn wanted(
    alloc: Global,
    ids: &[UniqueId],
    selection: &Selection,
    failed: &Option<HashSet<String>>,
) -> Result<Vec<bool>, AllocError>
    requires { (id : List ℕ) → is_in_set failed.now id ≡ is_listed selection.now.failed id }
    ensures { IfOk result (λ flags. flags.items ≡ wanted_of selection.now ids.now) }
{
    let mut flags = Vec::new(alloc);
    let mut text = String::new(alloc);
    for id in ids {
        text.clear();
        id.write_to(&mut text)?;
        flags.push(is_wanted(selection, failed, text.as_str()))?;
    }
    Ok(flags)
}

fn is_wanted(selection: &Selection, failed: &Option<HashSet<String>>, id: &str) -> bool
    requires { (id : List ℕ) → is_in_set failed.now id ≡ is_listed selection.now.failed id }
    ensures { result ≡ is_wanted selection.now id.now }
{
    is_asked(selection.exact, selection.texts.as_slice(), id)
        && !has_match(selection.exact, selection.skips.as_slice(), id)
        && is_in_set(failed, id)
        && is_in(selection.shard, id)
}

/// Whether the id matches one of the texts, where there are texts.
fn is_asked(exact: bool, texts: &[String], id: &str) -> bool
    ensures { result ≡ is_asked exact texts.now id.now }
{
    texts.is_empty() || has_match(exact, texts, id)
}

fn has_match(exact: bool, texts: &[String], id: &str) -> bool
    ensures { result ≡ has_match exact texts.now id.now }
{
    texts.iter().any(|text| matches(exact, text.as_str(), id))
}

/// Whether the text is a part of the id, or stands for it or for one above.
fn matches(exact: bool, text: &str, id: &str) -> bool
    ensures { result ≡ matches exact text.now id.now }
{
    if exact {
        is_below(text, id)
    } else {
        has_part(text, id)
    }
}

fn is_below(text: &str, id: &str) -> bool
    ensures { result ≡ is_below text.now id.now }
{
    begins(id, text) && ends_id(id.as_bytes(), text.len())
}

fn begins(id: &str, text: &str) -> bool
    ensures { result ≡ starts_with nat_eq id.now text.now }
{
    id.starts_with(text)
}

/// Whether no segment goes on at a byte of an id.
fn ends_id(id: &[u8], at: usize) -> bool
    ensures { result ≡ ends_id (drop at id.now) }
{
    at >= id.len() || id[at] == b'/'
}

fn has_part(text: &str, id: &str) -> bool
    ensures { result ≡ has_part text.now id.now }
{
    id.contains(text)
}

fn is_in(shard: Option<Shard>, id: &str) -> bool
    ensures { result ≡ is_in shard id.now }
{
    match shard {
        None => true,
        Some(shard) => shard.has(id),
    }
}

/// Whether each node is kept.
fn kept(alloc: Global, nodes: &[Node], wanted: &[bool]) -> Result<Vec<bool>, AllocError>
    ensures len { IfOk result (λ kept. length kept.items ≡ length nodes.now) }
    ensures rule { IfOk result (λ kept. AreKept nodes.now wanted.now (flag_at kept.items)) }
{
    let holders = holders(alloc, nodes)?;
    let mut kept = vec![in alloc; false; nodes.len()]?;
    keep(nodes, wanted, holders.as_slice(), kept.as_mut_slice());
    Ok(kept)
}

/// Whether another node stands in each node.
fn holders(alloc: Global, nodes: &[Node]) -> Result<Vec<bool>, AllocError>
    ensures len { IfOk result (λ flags. vec_len flags ≡ length nodes.now) }
    ensures exact { IfOk result (λ flags. AreHolders nodes.now flags.items) }
{
    let mut flags = vec![in alloc; false; nodes.len()]?;
    for index in 0..nodes.len() {
        let above = node_at(nodes, index).above;
        if above < index {
            flags[above] = true;
        }
    }
    Ok(flags)
}

/// Marks the nodes that are kept, from the last one to the first: what stands in a node comes behind
/// it, so each is settled before the one above it is looked at.
fn keep(nodes: &[Node], wanted: &[bool], holders: &[bool], kept: &mut [bool])
    requires holders { AreHolders nodes.now holders.now }
    requires size { length kept.old ≡ length nodes.now }
    requires none { (k : ℕ) → flag_at kept.old k ≡ false }
    ensures { AreKept nodes.now wanted.now (flag_at kept.new) }
{
    for index in (0..nodes.len()).rev() {
        let is_kept = is_kept(nodes, wanted, holders, kept, index);
        mark(kept, index, node_at(nodes, index).above, is_kept);
    }
}

/// Whether a node is kept, once all behind it are settled.
fn is_kept(nodes: &[Node], wanted: &[bool], holders: &[bool], kept: &[bool], index: usize) -> bool
    requires { index < length nodes.now }
    ensures { result ≡ kept_by nodes.now wanted.now holders.now kept.now index }
{
    if node_at(nodes, index).is_test && !flag_at(holders, index) {
        flag_at(wanted, index)
    } else {
        flag_at(kept, index)
    }
}

/// Settles a node, and the one above it if this one is kept.
fn mark(kept: &mut [bool], index: usize, above: usize, is_kept: bool)
    requires { index < length kept.old }
    ensures { kept.new ≡ marked kept.old index above is_kept }
{
    kept[index] = is_kept;
    if is_kept && above < index {
        kept[above] = true;
    }
}

fn flag_at(flags: &[bool], index: usize) -> bool
    ensures { result ≡ flag_at flags.now index }
{
    flags.get(index).copied().unwrap_or(false)
}

/// The indices that are marked, rising.
fn indices(alloc: Global, marks: &[bool]) -> Result<Vec<usize>, AllocError>
    ensures { IfOk result (λ indices. indices.items ≡ filter (flag_at marks.now) (range_with_len 0 (length marks.now))) }
{
    let indices = (0..marks.len()).filter(|index| flag_at(marks, *index));
    indices.collect(alloc)
}
