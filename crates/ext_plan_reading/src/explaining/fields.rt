//! Explanations of faults in fields.
use crate::explaining::near::nearest;
use crate::explaining::words::{Meaning, of_field, quoted, said};
use crate::fault::{PlanFault, PlanPart};
use crate::fields::{
    TOP_FIELDS, first_other, key_places_at, repeats_at, tables_at, text_at, text_if_given,
    text_lists_at, texts_at, truth_at,
};
use crate::keys::{KEY_FIELDS, has_parts, is_word};
use crate::nodes::NODE_FIELDS;
use std::alloc::Global;
use toml::{Table, Value};

/// The type that a field has to have.
#[derive(Clone, Copy)]
enum FieldType {
    Text,
    TextIfGiven,
    TruthIfGiven,
    KeysIfGiven,
    TextsIfGiven,
    TextListsIfGiven,
    TablesIfGiven,
    RepeatsIfGiven,
}

/// The top fields, in reading order.
const TOP_TYPES: [(&str, FieldType); 4] = [
    ("keep_faults", FieldType::TruthIfGiven),
    ("keys", FieldType::KeysIfGiven),
    ("key", FieldType::TablesIfGiven),
    ("node", FieldType::TablesIfGiven),
];

/// The fields of a key, in reading order.
const KEY_TYPES: [(&str, FieldType); 3] = [
    ("label", FieldType::Text),
    ("name", FieldType::TextIfGiven),
    ("namespace", FieldType::TextsIfGiven),
];

/// The fields of a node, in reading order.
const NODE_TYPES: [(&str, FieldType); 10] = [
    ("id", FieldType::Text),
    ("mode", FieldType::TextIfGiven),
    ("isolated", FieldType::TruthIfGiven),
    ("locks", FieldType::TextsIfGiven),
    ("before_all", FieldType::TextListsIfGiven),
    ("after_all", FieldType::TextListsIfGiven),
    ("before_each", FieldType::TextListsIfGiven),
    ("after_each", FieldType::TextListsIfGiven),
    ("test", FieldType::TextsIfGiven),
    ("repeat", FieldType::RepeatsIfGiven),
];

/// The table of a part, if the document has it.
pub(crate) fn table_of<'a>(
    alloc: Global,
    top: &'a Table,
    part: PlanPart,
) -> Result<Option<&'a Table>, PlanFault> {
    let (name, number) = match part {
        PlanPart::Whole => return Ok(Some(top)),
        PlanPart::Key(key) => ("key", key),
        PlanPart::Node(node) => ("node", node),
    };
    let tables = tables_at(alloc, top, name, PlanFault::BadField(PlanPart::Whole))?;
    Ok(tables.get(number).copied())
}

/// Names the first field that the part may not have, and those that it may.
pub(crate) fn unknown_field(
    alloc: Global,
    top: &Table,
    part: PlanPart,
) -> Result<Option<Meaning>, PlanFault> {
    let Some(table) = table_of(alloc, top, part)? else {
        return Ok(None);
    };
    match part {
        PlanPart::Whole => first_unknown(alloc, table, &TOP_FIELDS),
        PlanPart::Key(_) => first_unknown(alloc, table, &KEY_FIELDS),
        PlanPart::Node(_) => first_unknown(alloc, table, &NODE_FIELDS),
    }
}

/// Names the first field of a table that is none of these.
fn first_unknown(
    alloc: Global,
    table: &Table,
    fields: &[&str],
) -> Result<Option<Meaning>, PlanFault> {
    match first_other(fields, table) {
        None => Ok(None),
        Some(name) => of_field(alloc, name, unknown_among(alloc, name, fields)?),
    }
}

/// Says that a field is none of these, and which is near.
fn unknown_among(alloc: Global, name: &str, fields: &[&str]) -> Result<Option<String>, PlanFault> {
    let all = listed(alloc, fields)?;
    let all = all.as_str();
    if stands_at_top(name) {
        return Ok(Some(format!(in alloc;
            "it may not have a field {name:?}, which stands before all tables. Allowed are {all}"
        )?));
    }
    if fields.contains(&"id") && is_nested(name) {
        return Ok(Some(format!(in alloc;
            "it may not have a field {name:?}: nodes do not nest, and a node's id makes it the child of another. Allowed are {all}"
        )?));
    }
    if fields.contains(&"node") && is_a_node(name) {
        return Ok(Some(format!(in alloc;
            "it may not have a field {name:?}: engines, classes and tests are all written [[node]]. Allowed are {all}"
        )?));
    }
    Ok(Some(match meant_by(fields, name) {
        None => format!(in alloc; "it may not have a field {name:?}. Allowed are {all}")?,
        Some(near) => format!(in alloc;
            "it may not have a field {name:?}: did you mean {near:?}? Allowed are {all}"
        )?,
    }))
}

/// Tests whether a field of a node is likely meant for the nodes below it.
fn is_nested(name: &str) -> bool {
    matches!(name, "node" | "nodes" | "child" | "children")
}

/// The field of these that was meant by another name.
fn meant_by<'a>(fields: &[&'a str], name: &str) -> Option<&'a str> {
    let other = match name {
        "steps" => "test",
        "concurrent" | "parallel" => "mode",
        "name" => "id",
        _ => name,
    };
    nearest(fields, if fields.contains(&other) { other } else { name })
}

/// Tests whether a field of the plan itself is likely meant as a node.
fn is_a_node(name: &str) -> bool {
    matches!(
        name,
        "engine" | "suite" | "class" | "classes" | "method" | "methods" | "test" | "tests"
    )
}

/// Tests whether a field is one of the plan's own that is no array of tables.
fn stands_at_top(name: &str) -> bool {
    matches!(name, "keep_faults" | "keys")
}

/// The names, with a comma and a space between two.
pub(crate) fn listed(alloc: Global, names: &[&str]) -> Result<String, PlanFault> {
    let mut list = String::new(alloc);
    for name in names {
        if !list.is_empty() {
            list.push_str(", ")?;
        }
        list.push_str(name)?;
    }
    Ok(list)
}

/// Names the first field of the part that is missing or has another type.
pub(crate) fn bad_field(
    alloc: Global,
    top: &Table,
    part: PlanPart,
) -> Result<Option<Meaning>, PlanFault> {
    let Some(table) = table_of(alloc, top, part)? else {
        return Ok(None);
    };
    match part {
        PlanPart::Whole => first_bad(alloc, table, &TOP_TYPES),
        PlanPart::Key(_) => first_bad(alloc, table, &KEY_TYPES),
        PlanPart::Node(_) => first_bad_of_node(alloc, table),
    }
}

/// Names the first field of a node that is missing or has another type, or says that what is to be
/// repeated is no test.
fn first_bad_of_node(alloc: Global, table: &Table) -> Result<Option<Meaning>, PlanFault> {
    let found = first_bad(alloc, table, &NODE_TYPES)?;
    if found.is_none() && table.get("repeat").is_some() && table.get("test").is_none() {
        let words = "its field \"repeat\" stands without a field \"test\"";
        return of_field(alloc, "repeat", said(alloc, words)?);
    }
    Ok(found)
}

/// Names the first of these fields that the table lacks, or that has another type there.
fn first_bad(
    alloc: Global,
    table: &Table,
    fields: &[(&str, FieldType)],
) -> Result<Option<Meaning>, PlanFault> {
    for (name, kind) in fields {
        if !is_right(alloc, table, name, *kind)? {
            return of_field(alloc, name, no_type(alloc, table, name, *kind)?);
        }
    }
    Ok(None)
}

/// Says that a field has not this type, and how what is meant is written, where that is likely.
fn no_type(
    alloc: Global,
    table: &Table,
    name: &str,
    kind: FieldType,
) -> Result<Option<String>, PlanFault> {
    let wrong = what_is_wrong(kind);
    if let FieldType::TablesIfGiven = kind {
        return Ok(Some(format!(in alloc; "its field {name:?}{wrong}: write [[{name}]]")?));
    }
    if let FieldType::KeysIfGiven = kind
        && (is_table(table, name) || is_array(table, name))
    {
        return Ok(Some(format!(in alloc; "its field {name:?}{wrong}: did you mean [[key]]?")?));
    }
    match (kind, table.get(name)) {
        (kind, Some(value)) if is_quoted(kind, value) => Ok(Some(format!(in alloc;
            "its field {name:?}{wrong}: write it without quotes"
        )?)),
        (FieldType::TextsIfGiven, Some(value)) => no_texts(alloc, name, wrong, value.as_str()),
        (FieldType::TextListsIfGiven, Some(_)) => Ok(Some(format!(in alloc;
            "its field {name:?}{wrong}, such as [[\"put a x\"], [\"put b y\"]]"
        )?)),
        _ => quoted(alloc, "its field ", name, wrong),
    }
}

/// Tests whether a value is one of this type in quotes: `true` or `false`, or a number that may stand
/// there.
fn is_quoted(kind: FieldType, value: &Value) -> bool {
    let Some(text) = value.as_str() else {
        return false;
    };
    match kind {
        FieldType::TruthIfGiven => matches!(text, "true" | "false"),
        FieldType::KeysIfGiven => is_number_up_to(1_024, text),
        FieldType::RepeatsIfGiven => is_number_up_to(65_535, text),
        _ => false,
    }
}

/// Tests whether a text is a whole number from 1 to `most`, as TOML writes it.
fn is_number_up_to(most: u32, text: &str) -> bool {
    match text.parse::<u32>() {
        Ok(number) => 1 <= number && number <= most && !text.starts_with(['0', '+']),
        Err(_) => false,
    }
}

/// Says that a field is no array of texts, and how one is written if it is a text.
fn no_texts(
    alloc: Global,
    name: &str,
    wrong: &str,
    text: Option<&str>,
) -> Result<Option<String>, PlanFault> {
    match text {
        None => quoted(alloc, "its field ", name, wrong),
        Some(text) => Ok(Some(format!(in alloc;
            "its field {name:?}{wrong}: did you mean [{text:?}]?"
        )?)),
    }
}

/// Tests whether there is a single table under a name.
fn is_table(table: &Table, name: &str) -> bool {
    match table.get(name) {
        None => false,
        Some(value) => value.as_table().is_some(),
    }
}

/// Tests whether there is an array under a name, be it of tables.
fn is_array(table: &Table, name: &str) -> bool {
    match table.get(name) {
        None => false,
        Some(value) => value.as_array().is_some(),
    }
}

/// Tests whether a field has its type, by the functions that read it.
fn is_right(alloc: Global, table: &Table, name: &str, kind: FieldType) -> Result<bool, PlanFault> {
    let fault = PlanFault::BadField(PlanPart::Whole);
    match kind {
        FieldType::Text => Ok(text_at(table, name).is_some()),
        FieldType::TextIfGiven => was_read(text_if_given(table, name, fault)),
        FieldType::TruthIfGiven => was_read(truth_at(table, name, fault)),
        FieldType::KeysIfGiven => was_read(key_places_at(table, name, fault)),
        FieldType::TextsIfGiven => was_read(texts_at(alloc, table, name, fault)),
        FieldType::TextListsIfGiven => was_read(text_lists_at(alloc, table, name, fault)),
        FieldType::TablesIfGiven => was_read(tables_at(alloc, table, name, fault)),
        FieldType::RepeatsIfGiven => was_read(repeats_at(table, name, fault)),
    }
}

/// Tests whether a field was read. A refusal of memory does not decide that.
fn was_read<T: Drop>(read: Result<T, PlanFault>) -> Result<bool, PlanFault> {
    match read {
        Ok(_) => Ok(true),
        Err(PlanFault::Memory) => Err(PlanFault::Memory),
        Err(_) => Ok(false),
    }
}

fn what_is_wrong(kind: FieldType) -> &'static str {
    match kind {
        FieldType::Text => " is missing, or no text",
        FieldType::TextIfGiven => " is no text",
        FieldType::TruthIfGiven => " is neither true nor false",
        FieldType::KeysIfGiven => " is no whole number from 1 to 1024",
        FieldType::TextsIfGiven => " is no array of texts",
        FieldType::TextListsIfGiven => " is no array of arrays of texts",
        FieldType::TablesIfGiven => " is no array of tables",
        FieldType::RepeatsIfGiven => " is no whole number from 1 to 65535",
    }
}

/// Explains what is wrong with a key's label or namespace.
pub(crate) fn bad_label(
    alloc: Global,
    top: &Table,
    key: usize,
) -> Result<Option<Meaning>, PlanFault> {
    let tables = tables_at(alloc, top, "key", PlanFault::BadField(PlanPart::Whole))?;
    bad_label_among(alloc, tables.as_slice(), key)
}

/// Explains what is wrong with the label or namespace of one of these tables of keys.
fn bad_label_among(
    alloc: Global,
    tables: &[&Table],
    key: usize,
) -> Result<Option<Meaning>, PlanFault> {
    let Some(table) = tables.get(key) else {
        return Ok(None);
    };
    let Some(label) = text_at(table, "label") else {
        return Ok(None);
    };
    if !is_word(label) {
        return of_field(alloc, "label", no_word(alloc, label)?);
    }
    if !has_own_parts(alloc, table)? {
        return of_field(
            alloc,
            "namespace",
            said(alloc, "its namespace has no part")?,
        );
    }
    of_field(alloc, "label", same_label(alloc, tables, key, label)?)
}

fn no_word(alloc: Global, label: &str) -> Result<Option<String>, PlanFault> {
    if label.is_empty() {
        return said(alloc, "its label is empty");
    }
    quoted(alloc, "its label ", label, " has a space")
}

/// Tests whether a key's namespace has a part, if it is given.
fn has_own_parts(alloc: Global, table: &Table) -> Result<bool, PlanFault> {
    let fault = PlanFault::BadField(PlanPart::Whole);
    let namespace = texts_at(alloc, table, "namespace", fault)?;
    Ok(has_parts(&namespace))
}

/// Names the key before this one that has the same label.
fn same_label(
    alloc: Global,
    tables: &[&Table],
    key: usize,
    label: &str,
) -> Result<Option<String>, PlanFault> {
    match tables
        .iter()
        .position(|other| text_at(other, "label") == Some(label))
    {
        Some(first) if first < key => Ok(Some(format!(in alloc;
            "its label {label:?} is that of key {first}"
        )?)),
        _ => Ok(None),
    }
}
