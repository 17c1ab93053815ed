//! The contexts and keys that a caller names.
ghost use Rattle.std.specs.Prelude.{◌≡◌, ◌⊎◌, IfErr, IfOk};
ghost use Rattle.std.specs.List.{AllZip};
ghost use Rattle.ext_ids.specs.Grammar.{IsIdText};
ghost use Rattle.ext_model.specs.Sizes.{most_contexts};
ghost use Rattle.ext_tree.specs.Keys as keys;
ghost use Rattle.ext_tree.specs.Trees.{IsTreeWithin};
ghost use Rattle.ext_c.specs.declared.code.Code.TheVariants as code;
ghost use Rattle.ext_c.specs.Texts.{AreTexts, IsNamed, IsNoId, NamesNoKey, NamesNoTree, namespace_named, texts_in};

use crate::code::Code;
use crate::texts::read_texts;
use ext_ids::UniqueId;
use ext_model::Size;
use ext_tree::{Key, Namespace, Tree};
use std::alloc::Global;

// The tree of the ids that the texts spell, of this size at most. Takes memory.
#[tactic(auto, using(crate::proofs::Cut::most_within))]
pub(crate) fn tree_of(
    alloc: Global,
    bytes: &[u8],
    lengths: &[u32],
    size: Size,
) -> Result<Tree, Code>
    ensures texts { IfOk result (λ _. AreTexts bytes.now lengths.now) }
    ensures ids { IfOk result (λ tree. AllZip IsIdText (texts_in bytes.now lengths.now) tree) }
    ensures tree { IfOk result (IsTreeWithin (most_contexts size)) }
    ensures refused { IfErr result (λ said. NamesNoTree (most_contexts size) bytes.now lengths.now said ⊎ (AreTexts bytes.now lengths.now × (said ≡ code.NoMemory))) }
{
    let texts = read_texts(alloc, bytes, lengths)?;
    let ids = ids_of(alloc, texts.as_slice())?;
    match Tree::build_within(alloc, ids.as_slice(), size.contexts()) {
        Ok(tree) => Ok(tree),
        Err(fault) => Err(Code::of_tree(fault)),
    }
}

// The ids that the texts spell. Takes memory.
fn ids_of(alloc: Global, texts: &[&str]) -> Result<Vec<UniqueId>, Code>
    ensures ids { IfOk result (λ ids. AllZip IsIdText (keys.texts_of texts.now) ids.items) }
    ensures refused { IfErr result (λ said. (IsNoId (keys.texts_of texts.now) × (said ≡ code.BadId)) ⊎ (said ≡ code.NoMemory)) }
{
    let mut ids = Vec::new(alloc);
    for text in texts {
        let id = match UniqueId::parse(alloc, text) {
            Ok(id) => id,
            Err(fault) => return Err(Code::of_id(fault)),
        };
        let Ok(()) = ids.push(id) else {
            return Err(Code::NoMemory);
        };
    }
    Ok(ids)
}

// The key that the texts name: by the parts of its namespace, and its name. Takes memory.
pub(crate) fn key_of(alloc: Global, bytes: &[u8], lengths: &[u32]) -> Result<Key, Code>
    ensures named { IfOk result (IsNamed (texts_in bytes.now lengths.now)) }
    ensures texts { IfOk result (λ _. AreTexts bytes.now lengths.now) }
    ensures refused { IfErr result (NamesNoKey bytes.now lengths.now) }
{
    let texts = read_texts(alloc, bytes, lengths)?;
    let Some((name, parts)) = texts.split_last() else {
        return Err(Code::BadLengths);
    };
    let Ok(namespace) = namespace_of(alloc, parts) else {
        return Err(Code::NoMemory);
    };
    match Key::new(alloc, namespace, name) {
        Ok(key) => Ok(key),
        Err(_) => Err(Code::NoMemory),
    }
}

// The namespace of these parts, or the global one if there are none. Takes memory.
fn namespace_of(alloc: Global, parts: &[&str]) -> Result<Namespace, Code>
    ensures { IfOk result (λ namespace. namespace ≡ namespace_named (keys.texts_of parts.now)) }
{
    if parts.is_empty() {
        return Ok(Namespace::global());
    }
    match Namespace::create(alloc, parts) {
        Ok(namespace) => Ok(namespace),
        Err(fault) => Err(Code::of_tree(fault)),
    }
}
