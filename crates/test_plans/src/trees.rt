//! The worked examples of trees, and what each fault prints.
ghost use Rattle.std.specs.Prelude.{◌≤◌};

use crate::same::{prints, same};
use ext_ids::UniqueId;
use ext_tree::{Tree, TreeFault};
use std::alloc::{AllocError, Global};
use std::test::Fail;

/// Parses the ids, one a line, and puts them behind the others.
pub(crate) fn push_ids(alloc: Global, texts: &str, ids: &mut Vec<UniqueId>) -> Result<(), Fail> {
    for text in texts.lines() {
        ids.push(UniqueId::parse(alloc, text)?)?;
    }
    Ok(())
}

/// The tree of the ids, one a line: for each context its id, its path and its children; or the text
/// of its fault.
fn told(alloc: Global, texts: &str) -> Result<String, Fail> {
    let mut ids = Vec::new(alloc);
    push_ids(alloc, texts, &mut ids)?;
    Ok(tree_told(alloc, ids.as_slice())?)
}

/// The tree of these ids: for each context its id, its path and its children; or the text of its
/// fault.
fn tree_told(alloc: Global, ids: &[UniqueId]) -> Result<String, AllocError> {
    match Tree::build(alloc, ids) {
        Ok(tree) => contexts_told(alloc, &tree),
        Err(fault) => fault.to_string(alloc),
    }
}

fn contexts_told(alloc: Global, tree: &Tree) -> Result<String, AllocError> {
    let mut told = String::new(alloc);
    write_contexts(tree, &mut told)?;
    Ok(told)
}

/// Writes for each context its id, its path and its children.
fn write_contexts(tree: &Tree, told: &mut String) -> Result<(), AllocError> {
    for context in 0..tree.len() {
        tree.id(context).write_to(told)?;
        let path = tree.path(context);
        let (path, children) = (path.as_slice(), tree.children(context));
        write!(told, " {path:?} {children:?}\n")?;
    }
    Ok(())
}

/// Ids, with the tree that they are, or the fault that they have.
const TREES: [(&str, &str); 7] = [
    (
        "[engine:x]
[engine:x]/[class:A]
[engine:x]/[class:B]
[engine:x]/[class:A]/[method:m()]
[engine:x]/[class:C]",
        "[engine:x] [0] [1, 2, 4]
[engine:x]/[class:A] [1, 0] [3]
[engine:x]/[class:B] [2, 0] []
[engine:x]/[class:A]/[method:m()] [3, 1, 0] []
[engine:x]/[class:C] [4, 0] []
",
    ),
    ("", "the first id is no root"),
    ("[a:b]/[c:d]", "the first id is no root"),
    ("[a:b]\n[c:d]", "id 1 is a second root"),
    (
        "[a:b]\n[a:b]/[c:d]/[e:f]",
        "the parent of id 1 does not stand before it",
    ),
    (
        "[a:b]\n[a:b]/[c:d]/[e:f]\n[a:b]/[c:d]",
        "the parent of id 1 does not stand before it",
    ),
    ("[a:b]\n[a:b]", "id 1 stands twice"),
];

/// Ids of a tree have their paths and children, and ids that are none have their first fault.
/// Tests `Tree::build`, `Tree::path`, `Tree::id` and `Tree::children`.
#[test]
fn trees_and_their_faults(rt: HostRuntime) -> Result<(), Fail> {
    for (ids, wanted) in &TREES {
        same(&rt, told(rt.alloc(), ids)?.as_str(), *wanted, ids);
    }
    prints(&rt, rt.alloc(), &TreeFault::Memory, "no memory")?;
    Ok(())
}

/// A root and so many children of it, as the tree's number of contexts and of the root's children;
/// or the text of the fault.
fn flat(alloc: Global, children: u32) -> Result<String, Fail> {
    let mut texts = String::new(alloc);
    write_flat(children, &mut texts)?;
    let mut ids = Vec::new(alloc);
    push_ids(alloc, texts.as_str(), &mut ids)?;
    Ok(counts_told(alloc, ids.as_slice())?)
}

/// Writes the ids of a root and so many children of it, one a line.
fn write_flat(children: u32, texts: &mut String) -> Result<(), AllocError> {
    texts.push_str("[a:b]\n")?;
    for i in 0..children {
        write!(texts, "[a:b]/[c:{i}]\n")?;
    }
    Ok(())
}

/// The number of contexts of the tree of these ids, and of its root's children; or the text of the
/// fault.
fn counts_told(alloc: Global, ids: &[UniqueId]) -> Result<String, AllocError> {
    match Tree::build(alloc, ids) {
        Ok(tree) => format!(in alloc; "{} {}", tree.len(), tree.children(0).len()),
        Err(fault) => fault.to_string(alloc),
    }
}

/// Numbers of children of a root, with what is told of such a tree.
const CHILDREN: [(u32, &str); 2] = [(255, "256 255"), (256, "too many contexts or keys")];

/// A root with 255 children is a tree, and with one more it is refused.
/// Tests `Tree::build`.
#[test]
fn contexts_are_256_at_most(rt: HostRuntime) -> Result<(), Fail> {
    for (children, wanted) in &CHILDREN {
        same(&rt, flat(rt.alloc(), *children)?.as_str(), *wanted, wanted);
    }
    Ok(())
}

/// The id of a context: of the root, of one of its 255 classes, or of one of the 256 methods of
/// each.
fn large_id(alloc: Global, context: u32) -> Result<UniqueId, Fail> {
    let parent = context / 256;
    let text = match (context, parent) {
        (0, _) => String::from_str(alloc, "[a:b]")?,
        (_, 0) => format!(in alloc; "[a:b]/[c:{context}]")?,
        (_, _) => format!(in alloc; "[a:b]/[c:{parent}]/[m:{context}]")?,
    };
    Ok(UniqueId::parse(alloc, text.as_str())?)
}

/// The ids of as many contexts as a tree can have.
fn large_ids(alloc: Global) -> Result<Vec<UniqueId>, Fail> {
    let mut ids = Vec::new(alloc);
    for context in 0..65_536u32 {
        ids.push(large_id(alloc, context)?)?;
    }
    Ok(ids)
}

/// The tree of at most so many of these ids: how many contexts it has, the last one's path, and how
/// many children that one's parent has; or the text of the fault.
fn last_told(alloc: Global, ids: &[UniqueId], most: usize) -> Result<String, AllocError>
    requires { most ≤ 65536 }
{
    match Tree::build_within(alloc, ids, most) {
        Ok(tree) => last_context_told(alloc, &tree),
        Err(fault) => fault.to_string(alloc),
    }
}

/// How many contexts the tree has, the last one's path, and how many children that one's parent
/// has.
fn last_context_told(alloc: Global, tree: &Tree) -> Result<String, AllocError> {
    let path = tree.path(tree.len() - 1);
    let path = path.as_slice();
    let parent = if path.len() > 1 { path[1] } else { 0 };
    let children = tree.children(parent).len();
    format!(in alloc; "{} {path:?} {children}", tree.len())
}

/// A tree of 65,536 contexts is built where so many are allowed, and one more is refused.
/// Tests `Tree::build_within`.
#[test]
fn contexts_are_65_536_at_most(rt: HostRuntime) -> Result<(), Fail> {
    let alloc = rt.alloc();
    let mut ids = large_ids(alloc)?;
    let told = last_told(alloc, ids.as_slice(), 65_536)?;
    same(&rt, told.as_str(), "65536 [65535, 255, 0] 256", "the most");
    ids.push(UniqueId::parse(alloc, "[a:b]/[c:x]")?)?;
    let told = last_told(alloc, ids.as_slice(), 65_536)?;
    same(&rt, told.as_str(), "too many contexts or keys", "one more");
    Ok(())
}

/// Ids, with what is told of a tree of at most three of them.
const THREE: [(&str, &str); 4] = [
    ("[a:b]\n[a:b]/[c:d]\n[a:b]/[c:d]/[e:f]", "3 [2, 1, 0] 1"),
    ("[a:b]\n[a:b]/[c:d]\n[a:b]/[c:d]", "id 2 stands twice"),
    (
        "[a:b]\n[a:b]/[c:d]\n[a:b]/[c:d]/[e:f]\n[a:b]/[c:e]",
        "too many contexts or keys",
    ),
    ("[a:b]\n[a:b]\n[a:b]\n[a:b]", "too many contexts or keys"),
];

/// Of at most three contexts a chain of three is built, a fourth is refused as too many before any
/// other fault, and ids within the limit have their own.
/// Tests `Tree::build_within`.
#[test]
fn contexts_are_as_many_as_asked_for(rt: HostRuntime) -> Result<(), Fail> {
    for (texts, wanted) in &THREE {
        let mut ids = Vec::new(rt.alloc());
        push_ids(rt.alloc(), texts, &mut ids)?;
        let told = last_told(rt.alloc(), ids.as_slice(), 3)?;
        same(&rt, told.as_str(), *wanted, texts);
    }
    Ok(())
}

/// A chain of 16 contexts, whose ids stand one a line.
fn deep(alloc: Global) -> Result<String, AllocError> {
    let mut ids = String::from_str(alloc, "[a:b]")?;
    let mut id = String::from_str(alloc, "[a:b]")?;
    for _ in 1..16 {
        id.push_str("/[a:b]")?;
        ids.push_str("\n")?;
        ids.push_str(id.as_str())?;
    }
    Ok(ids)
}

/// A chain of 16 contexts is built, and the path of the deepest has all of them.
/// Tests `Tree::path`.
#[test]
fn paths_are_16_deep_at_most(rt: HostRuntime) -> Result<(), Fail> {
    let told = told(rt.alloc(), deep(rt.alloc())?.as_str())?;
    same(&rt, told.lines().count(), 16, "the contexts");
    let path = " [15, 14, 13, 12, 11, 10, 9, 8, 7, 6, 5, 4, 3, 2, 1, 0] []\n";
    same(&rt, told.ends_with(path), true, "the path of the deepest");
    Ok(())
}
