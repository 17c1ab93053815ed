//! The keys of a plan.
ghost use Rattle.std.specs.Prelude.{◌≡◌, ◌≢◌, [], ◌++◌, ◌∷◌, All, map, option_map, IfErr, IfOk, string_bytes};
ghost use Rattle.toml.specs.View.{table_view};
ghost use Rattle.ext_plan.specs.Plans.{texts_view, key_view, keys_view};
ghost use Rattle.ext_plan.specs.StoreKeys.{HasParts};
ghost use Rattle.ext_plan.specs.Labels.{is_word, labels_of};
ghost use Rattle.ext_plan_reading.specs.Faults.{Gives};
ghost use Rattle.ext_plan_reading.specs.KeyReading.{has_parts, key_at, keys_after};
ghost use Rattle.ext_plan_reading.specs.declared.fault.PlanFault.TheVariants.{Memory};

use crate::fault::{PlanFault, PlanPart};
use crate::fields::{has_only, text_at, text_if_given, texts_at};
use crate::labels::Labels;
use ext_plan::PlanKey;
use std::alloc::{AllocError, Global};
use toml::Table;

/// The names of the fields of a key.
pub(crate) const KEY_FIELDS: [&str; 3] = ["label", "name", "namespace"];

/// The keys of a plan, and the set of their labels, which are borrowed from the document.
#[derive(Drop)]
pub(crate) struct Keys<'a> {
    pub labels: Labels<'a>,
    pub keys: Vec<PlanKey>,
}

/// The keys in the tables, in order.
pub(crate) fn keys_of<'a>(alloc: Global, tables: &[&'a Table]) -> Result<Keys<'a>, PlanFault>
    ensures exact { Gives (λ r. keys_view r.keys.items) result (keys_after [] (map (λ t. table_view t.now) tables.now)) }
    ensures labels { IfOk result (λ r. r.labels ≡ labels_of (keys_view r.keys.items)) }
    ensures parts { IfOk result (λ r. All HasParts (keys_view r.keys.items)) }
{
    let mut labels = Labels::new(alloc);
    let mut keys = Vec::new(alloc);
    for table in tables {
        let key = key_of(alloc, &mut labels, keys.len(), table)?;
        keys.push(key)?;
    }
    Ok(Keys { labels, keys })
}

/// The key in a table, whose label it adds to the labels. `number` is the key's index in the plan.
#[tactic(auto, unfolding(crate::specs::KeyReading::key_at))]
pub(crate) fn key_of<'a>(
    alloc: Global,
    labels: &mut Labels<'a>,
    number: usize,
    table: &'a Table,
) -> Result<PlanKey, PlanFault>
    ensures exact { Gives key_view result (key_at number labels.old (table_view table.now)) }
    ensures labels { IfOk result (λ key. labels.new ≡ labels.old ++ string_bytes key.label ∷ []) }
    ensures unchanged { IfErr result (λ e. e ≢ Memory → labels.new ≡ labels.old) }
    ensures parts { IfOk result (λ key. HasParts (key_view key)) }
{
    if !has_only(&KEY_FIELDS, table) {
        return Err(PlanFault::UnknownField(PlanPart::Key(number)));
    }
    let Some(label) = text_at(table, "label") else {
        return Err(PlanFault::BadField(PlanPart::Key(number)));
    };
    let name = text_if_given(table, "name", PlanFault::BadField(PlanPart::Key(number)))?;
    let namespace = texts_at(
        alloc,
        table,
        "namespace",
        PlanFault::BadField(PlanPart::Key(number)),
    )?;
    if !is_word(label) || !has_parts(&namespace) {
        return Err(PlanFault::BadLabel(number));
    }
    let is_new = labels.add(label)?;
    if !is_new {
        return Err(PlanFault::BadLabel(number));
    }
    Ok(copy_of(alloc, label, name.unwrap_or(label), &namespace)?)
}

/// The key of this label, name and namespace.
fn copy_of(
    alloc: Global,
    label: &str,
    name: &str,
    namespace: &Option<Vec<&str>>,
) -> Result<PlanKey, AllocError>
    ensures { IfOk result (λ key. key_view key ≡ record { label = label.now; name = name.now; namespace = option_map (λ v. map (λ t. t.now) v.items) namespace.now }) }
{
    Ok(PlanKey {
        label: String::from_str(alloc, label)?,
        name: String::from_str(alloc, name)?,
        namespace: namespace_of(alloc, namespace)?,
    })
}

/// Tests whether a text is a word: not empty, and without a space.
pub(crate) fn is_word(text: &str) -> bool
    ensures { result ≡ is_word text.now }
{
    !text.is_empty() && !text.as_bytes().contains(&b' ')
}

/// Tests whether a namespace has a part, if it is given.
pub(crate) fn has_parts(namespace: &Option<Vec<&str>>) -> bool
    ensures { result ≡ has_parts (option_map (λ v. map (λ t. t.now) v.items) namespace.now) }
{
    match namespace {
        None => true,
        Some(parts) => !parts.is_empty(),
    }
}

/// Copies the parts of a namespace, if it is given.
fn namespace_of(
    alloc: Global,
    namespace: &Option<Vec<&str>>,
) -> Result<Option<Vec<String>>, AllocError>
    ensures { IfOk result (λ n. option_map texts_view n ≡ option_map (λ v. map (λ t. t.now) v.items) namespace.now) }
{
    match namespace {
        None => Ok(None),
        Some(parts) => Ok(Some(copies_of(alloc, parts.as_slice())?)),
    }
}

/// Copies each text, in order.
fn copies_of(alloc: Global, texts: &[&str]) -> Result<Vec<String>, AllocError>
    ensures { IfOk result (λ v. texts_view v ≡ map (λ t. t.now) texts.now) }
{
    let mut copies = Vec::new(alloc);
    for text in texts {
        copies.push(String::from_str(alloc, text)?)?;
    }
    Ok(copies)
}
