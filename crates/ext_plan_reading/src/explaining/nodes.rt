//! Explanations of faults in nodes, apart from their steps, and of trees and limits.
ghost use Rattle.std.specs.Prelude.{◌≤◌, All, IfOk, map};
ghost use Rattle.ext_plan.specs.Plans.{key_view, keys_view};
ghost use Rattle.ext_plan.specs.StoreKeys.{HasParts};
ghost use Rattle.ext_plan_reading.specs.InnerSketches.{HasRoom, sketch_view};

use crate::explaining::fields::table_of;
use crate::explaining::ids::words_of_id;
use crate::explaining::near::nearest;
use crate::explaining::spots::TextNo;
use crate::explaining::words::{Meaning, of_field, of_field_at, of_no_field, of_text, said};
use crate::fault::{PlanFault, PlanPart};
use crate::fields::{key_places_at, tables_at, text_at};
use crate::keys::{Keys, is_word, keys_of};
use crate::locks::lock_at;
use crate::modes::mode_at;
use crate::nodes::{NodeSketch, ids_of, sketches_of};
use crate::repeats::with_repetitions;
use ext_ids::{IdFault, UniqueId};
use ext_model::Size;
use ext_plan::PlanKey;
use ext_tree::{Directory, Tree, TreeFault};
use std::alloc::Global;
use toml::Table;

/// The keys of a document, with their labels.
pub(crate) fn keys_in<'a>(alloc: Global, top: &'a Table) -> Result<Keys<'a>, PlanFault>
    ensures { IfOk result (λ r. All HasParts (keys_view r.keys.items)) }
{
    let tables = tables_at(alloc, top, "key", PlanFault::BadField(PlanPart::Whole))?;
    keys_of(alloc, tables.as_slice())
}

/// The tables of the nodes of a document after the first pass.
fn sketches_in<'a>(alloc: Global, top: &'a Table) -> Result<Vec<NodeSketch<'a>>, PlanFault>
    ensures { IfOk result (λ v. All HasRoom (map sketch_view v.items)) }
{
    let tables = tables_at(alloc, top, "node", PlanFault::BadField(PlanPart::Whole))?;
    sketches_of(alloc, tables.as_slice())
}

/// The nodes of a document after the first pass.
pub(crate) fn nodes_in<'a>(
    alloc: Global,
    top: &'a Table,
    size: Size,
) -> Result<Vec<NodeSketch<'a>>, PlanFault> {
    let sketches = sketches_in(alloc, top)?;
    with_repetitions(alloc, size.contexts(), sketches)
}

pub(crate) fn bad_id(
    alloc: Global,
    top: &Table,
    node: usize,
) -> Result<Option<Meaning>, PlanFault> {
    let Some(table) = table_of(alloc, top, PlanPart::Node(node))? else {
        return Ok(None);
    };
    match text_at(table, "id") {
        None => Ok(None),
        Some(text) => of_field(alloc, "id", no_id(alloc, table, text)?),
    }
}

/// Explains why a text is no id, or none of a test that is repeated.
fn no_id(alloc: Global, table: &Table, text: &str) -> Result<Option<String>, PlanFault> {
    match UniqueId::parse(alloc, text) {
        Ok(id) if id.len() == 16 && table.get("repeat").is_some() => {
            said(alloc, "it is repeated, so its id may have 15 segments")
        }
        Ok(_) => Ok(None),
        Err(IdFault::Memory) => Err(PlanFault::Memory),
        Err(fault) => bad_id_text(alloc, text, fault),
    }
}

/// Explains the fault of a text that is no id.
fn bad_id_text(alloc: Global, text: &str, fault: IdFault) -> Result<Option<String>, PlanFault> {
    let words = words_of_id(alloc, text, fault)?;
    let mark = if text.contains('\u{feff}') {
        ". It has a byte order mark"
    } else {
        ""
    };
    Ok(Some(format!(in alloc; "{fault} in {text:?}: {}{mark}", words.as_str())?))
}

/// Explains a fault that follows the first pass: of the nodes' ids as a tree, or of a node's mode,
/// locks or test.
pub(crate) fn bad_nodes(
    alloc: Global,
    top: &Table,
    size: Size,
    fault: PlanFault,
) -> Result<Option<Meaning>, PlanFault> {
    let count = node_count(sketches_in(alloc, top)?.as_slice());
    if fault == PlanFault::BadTree && count > size.contexts() {
        return Ok(of_no_field(too_many_nodes(alloc, size, count)?));
    }
    let sketches = nodes_in(alloc, top, size)?;
    match fault.part() {
        PlanPart::Node(node) => bad_node(alloc, sketches.as_slice(), node, fault),
        _ => bad_tree(alloc, size, sketches.as_slice()),
    }
}

/// How many nodes these tables stand for.
fn node_count(tables: &[NodeSketch<'_>]) -> usize {
    let mut count: usize = 0;
    for table in tables {
        let repetitions = table.repeat.unwrap_or(0);
        count = count.saturating_add(1).saturating_add(repetitions);
    }
    count
}

/// Explains the fault of the mode, locks or test in the table of this number.
fn bad_node(
    alloc: Global,
    sketches: &[NodeSketch<'_>],
    node: usize,
    fault: PlanFault,
) -> Result<Option<Meaning>, PlanFault> {
    match sketches.iter().find(|sketch| sketch.table == node) {
        None => Ok(None),
        Some(sketch) => match fault {
            PlanFault::BadTest(_) => Ok(of_no_field(said(alloc, unfit_for_test(sketch))?)),
            _ => bad_lock(alloc, sketch, node),
        },
    }
}

/// Names the first node whose id does not fit into a tree, and why.
fn bad_tree(
    alloc: Global,
    size: Size,
    sketches: &[NodeSketch<'_>],
) -> Result<Option<Meaning>, PlanFault> {
    match tree_fault(alloc, size, sketches)? {
        None => Ok(None),
        Some(fault) => in_the_way(alloc, size, sketches, fault),
    }
}

fn tree_fault(
    alloc: Global,
    size: Size,
    sketches: &[NodeSketch<'_>],
) -> Result<Option<TreeFault>, PlanFault> {
    let ids = ids_of(alloc, sketches)?;
    Ok(Tree::build_within(alloc, ids.as_slice(), size.contexts()).err())
}

/// Names the node of the tree's fault, and why its id does not fit.
fn in_the_way(
    alloc: Global,
    size: Size,
    sketches: &[NodeSketch<'_>],
    fault: TreeFault,
) -> Result<Option<Meaning>, PlanFault> {
    match fault {
        TreeFault::Memory => Err(PlanFault::Memory),
        TreeFault::TooMany => Ok(of_no_field(too_many_nodes(alloc, size, sketches.len())?)),
        TreeFault::NoRoot => {
            let why = "has more than one segment, so that it is no root";
            without_parent(alloc, sketches, 0, why)
        }
        TreeFault::TwoRoots(node) => named(alloc, sketches, node, "is a second root"),
        TreeFault::NoParent(node) => {
            without_parent(alloc, sketches, node, "has no parent before it")
        }
        TreeFault::Twice(node) => named(alloc, sketches, node, "stands before already"),
    }
}

/// Says something of a node that has no parent before it, with the parent's id, and whether that
/// stands behind it.
fn without_parent(
    alloc: Global,
    sketches: &[NodeSketch<'_>],
    node: usize,
    why: &str,
) -> Result<Option<Meaning>, PlanFault> {
    let Some(sketch) = sketches.get(node) else {
        return named(alloc, sketches, node, why);
    };
    let mut id = String::new(alloc);
    sketch.id.write_to(&mut id)?;
    let Some((parent, _)) = id.as_str().rsplit_once('/') else {
        return named(alloc, sketches, node, why);
    };
    let place = if has_parent(sketches, node) {
        "stands further down"
    } else {
        "stands nowhere"
    };
    let why = format!(in alloc; "{why}: {parent:?} {place}")?;
    named(alloc, sketches, node, why.as_str())
}

/// Tests whether the parent of a node stands anywhere.
fn has_parent(sketches: &[NodeSketch<'_>], node: usize) -> bool {
    match sketches.get(node) {
        None => false,
        Some(child) => sketches
            .iter()
            .any(|other| other.id.is_parent_of(&child.id)),
    }
}

/// Says how many nodes there are, and the program's word for a plan of so many, if there is one.
fn too_many_nodes(alloc: Global, size: Size, nodes: usize) -> Result<Option<String>, PlanFault> {
    let most = size.contexts();
    let hint = if nodes <= Size::Large.contexts() {
        ". With the word --large a plan may have 65536"
    } else {
        ""
    };
    Ok(Some(format!(in alloc; "it has {nodes} nodes, more than {most}{hint}")?))
}

/// Says something of a node, after the index of its table and its id.
fn named(
    alloc: Global,
    sketches: &[NodeSketch<'_>],
    node: usize,
    why: &str,
) -> Result<Option<Meaning>, PlanFault> {
    match sketches.get(node) {
        None => Ok(of_no_field(said(alloc, "it has no node")?)),
        Some(sketch) => {
            let words = named_by(alloc, &sketch.id, sketch.table, why)?;
            of_field_at(alloc, PlanPart::Node(sketch.table), "id", words)
        }
    }
}

/// Says something of the node with this id.
fn named_by(
    alloc: Global,
    id: &UniqueId,
    node: usize,
    why: &str,
) -> Result<Option<String>, PlanFault> {
    let mut text = String::new(alloc);
    id.write_to(&mut text)?;
    Ok(Some(format!(in alloc; "the id of node {node}, {:?}, {why}", text.as_str())?))
}

/// Explains why a node is no valid test.
fn unfit_for_test(sketch: &NodeSketch<'_>) -> &'static str {
    if sketch.repeat.is_some() {
        "one of its repetitions has children"
    } else if sketch.callbacks.are_of_container() {
        "it is a test, and has before_all or after_all"
    } else {
        "it is a test, and has children"
    }
}

/// Explains that the node's mode is none, or else which lock is none.
fn bad_lock(
    alloc: Global,
    sketch: &NodeSketch<'_>,
    node: usize,
) -> Result<Option<Meaning>, PlanFault> {
    if let Some(mode) = sketch.mode
        && mode_at(node, Some(mode)).is_err()
    {
        return of_field(alloc, "mode", no_mode(alloc, mode)?);
    }
    match &sketch.locks {
        None => Ok(None),
        Some(texts) => first_bad_lock(alloc, node, texts.as_slice()),
    }
}

/// Says that a text is no mode, and which was meant, where that is likely.
fn no_mode(alloc: Global, mode: &str) -> Result<Option<String>, PlanFault> {
    let small = mode.to_ascii_lowercase(alloc)?;
    let meant = match small.as_str() {
        "parallel" => Some("concurrent"),
        "sequential" | "serial" => Some("same_thread"),
        other => nearest(&["same_thread", "concurrent"], other),
    };
    Ok(Some(match meant {
        None => format!(in alloc; "its mode {mode:?} is neither same_thread nor concurrent")?,
        Some(meant) => format!(in alloc;
            "its mode {mode:?} is neither same_thread nor concurrent: did you mean {meant:?}?"
        )?,
    }))
}

/// Explains the first of a node's texts that is no lock.
fn first_bad_lock(
    alloc: Global,
    node: usize,
    texts: &[&str],
) -> Result<Option<Meaning>, PlanFault> {
    for (i, text) in texts.iter().enumerate() {
        if !is_lock(alloc, node, text)? {
            let words = no_lock(alloc, i, text)?;
            return of_text(alloc, "locks", TextNo::In(i), words);
        }
    }
    Ok(None)
}

/// Says that a text is no lock, and how what was meant is written, where that is likely.
fn no_lock(alloc: Global, i: usize, text: &str) -> Result<Option<String>, PlanFault> {
    Ok(Some(match lock_meant(alloc, text)? {
        None => format!(in alloc;
            "its lock {i}, {text:?}, is neither READ NAME nor READ_WRITE NAME"
        )?,
        Some(meant) => format!(in alloc;
            "its lock {i}, {text:?}, is neither READ NAME nor READ_WRITE NAME: did you mean {:?}?",
            meant.as_str()
        )?,
    }))
}

/// The lock that was meant by a name alone, or by one behind a mode that is written otherwise.
fn lock_meant(alloc: Global, text: &str) -> Result<Option<String>, PlanFault> {
    let (mode, name) = match text.split_once(' ') {
        None => ("READ_WRITE", text),
        Some(parts) => parts,
    };
    let small = mode.to_ascii_lowercase(alloc)?;
    let Some(mode) = lock_mode(small.as_str().trim_end_matches(':')) else {
        return Ok(None);
    };
    if is_word(name) && lock_mode(name).is_none() && !is_lock_mode(name) {
        return Ok(Some(format!(in alloc; "{mode} {name}")?));
    }
    Ok(None)
}

/// Tests whether a word is a mode of locks in capitals, and so no name.
fn is_lock_mode(word: &str) -> bool {
    matches!(word, "READ" | "READ_WRITE" | "WRITE")
}

/// The mode of a lock that was meant by a word in small letters.
fn lock_mode(word: &str) -> Option<&'static str> {
    match word {
        "write" => Some("READ_WRITE"),
        other => match nearest(&["read", "read_write"], other) {
            None => None,
            Some("read") => Some("READ"),
            Some(_) => Some("READ_WRITE"),
        },
    }
}

/// Tests whether a text of a node is a lock.
fn is_lock(alloc: Global, node: usize, text: &str) -> Result<bool, PlanFault> {
    match lock_at(alloc, node, text) {
        Ok(_) => Ok(true),
        Err(PlanFault::Memory) => Err(PlanFault::Memory),
        Err(_) => Ok(false),
    }
}

/// Names what there is too much of.
pub(crate) fn too_many(alloc: Global, top: &Table) -> Result<Option<Meaning>, PlanFault> {
    let most = key_places_at(top, "keys", PlanFault::BadField(PlanPart::Whole))?;
    let keys = keys_in(alloc, top)?;
    let first = first_too_many(alloc, keys.keys.as_slice(), most)?;
    match first {
        Some(key) => {
            let words = too_many_keys(alloc, key, most)?;
            of_field_at(alloc, PlanPart::Key(key), "label", words)
        }
        None => {
            let words = "its locks have more than 63 different names";
            Ok(of_no_field(said(alloc, words)?))
        }
    }
}

/// Names the first key that has no place, and how a plan gets further ones, if there are any.
fn too_many_keys(alloc: Global, key: usize, most: usize) -> Result<Option<String>, PlanFault> {
    let hint = if most < 1024 {
        ". Write keys = N at the top of the plan, with N up to 1024"
    } else {
        ""
    };
    Ok(Some(format!(in alloc;
        "it declares more than {most} different keys: key {key} is one too many{hint}"
    )?))
}

/// The index of the first key that is preceded by `most` other ones.
fn first_too_many(alloc: Global, keys: &[PlanKey], most: usize) -> Result<Option<usize>, PlanFault>
    requires parts { All HasParts (keys_view keys.now) }
    requires most { most ≤ 1024 }
{
    let mut directory = Directory::new(alloc);
    let mut index: usize = 0;
    for key in keys {
        match declare(alloc, &mut directory, key, most) {
            Ok(()) => index = index.saturating_add(1),
            Err(TreeFault::TooMany) => return Ok(Some(index)),
            Err(_) => return Err(PlanFault::Memory),
        }
    }
    Ok(None)
}

fn declare(
    alloc: Global,
    directory: &mut Directory,
    key: &PlanKey,
    most: usize,
) -> Result<(), TreeFault>
    requires parts { HasParts (key_view key.now) }
    requires most { most ≤ 1024 }
{
    let key = key.store_key(alloc)?;
    directory.declare(key, most)?;
    Ok(())
}
