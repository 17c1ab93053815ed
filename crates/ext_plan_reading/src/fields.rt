//! The fields of a TOML table.
ghost use Rattle.std.specs.Prelude.{◌≡◌, ◌≤◌, [], None, false, not, is_some, map, option_and_then, option_map, IfOk, IfSome};
ghost use Rattle.std.specs.Str.{bytes_eq};
ghost use Rattle.std.specs.List.{list_any};
ghost use Rattle.toml.specs.View.{view, table_view, items_view};
ghost use Rattle.toml.specs.Data.{as_bool, as_integer, as_str, as_table, get_member};
ghost use Rattle.ext_plan_reading.specs.Faults.{Gives};
ghost use Rattle.ext_plan_reading.specs.Fields.{has_only, text_at, texts_in, array_of, all_after, field_or, optional, places_in, repeats_in, up_to};
ghost use Rattle.ext_plan_reading.specs.InnerSketches.{GivesAll, lists_view};

use crate::fault::PlanFault;
use std::alloc::Global;
use toml::{Table, Value};

/// The names of the top fields.
pub(crate) const TOP_FIELDS: [&str; 4] = ["keep_faults", "keys", "key", "node"];

/// Tests whether each field of a table has one of the names.
pub(crate) fn has_only(names: &[&str], table: &Table) -> bool
    ensures { result ≡ has_only (map (λ n. n.now) names.now) (table_view table.now) }
{
    match first_other(names, table) {
        None => true,
        Some(_) => false,
    }
}

/// The name of the first field of a table that is none of the names.
pub(crate) fn first_other<'a>(names: &[&str], table: &'a Table) -> Option<&'a str>
    ensures other { IfSome result (λ name. list_any (λ n. bytes_eq n.now name.now) names.now ≡ false) }
    ensures none { not (is_some result) ≡ has_only (map (λ n. n.now) names.now) (table_view table.now) }
{
    for name in table.keys() {
        if !is_among(names, name.as_str()) {
            return Some(name.as_str());
        }
    }
    None
}

/// Tests whether a text is one of the names.
fn is_among(names: &[&str], text: &str) -> bool
    ensures { result ≡ list_any (λ n. bytes_eq n.now text.now) names.now }
{
    names.iter().any(|name| *name == text)
}

/// The text under a name, if there is one.
pub(crate) fn text_at<'a>(table: &'a Table, name: &str) -> Option<&'a str>
    ensures { option_map (λ s. s.now) result ≡ text_at name.now (table_view table.now) }
{
    match field(table, name) {
        Some(value) => value.as_str(),
        None => None,
    }
}

/// The text under a name, if the name is given; the fault if something else is there.
pub(crate) fn text_if_given<'a>(
    table: &'a Table,
    name: &str,
    fault: PlanFault,
) -> Result<Option<&'a str>, PlanFault>
    ensures { Gives (option_map (λ s. s.now)) result (optional as_str fault (get_member name.now (table_view table.now))) }
{
    match field(table, name) {
        None => Ok(None),
        Some(value) => match value.as_str() {
            None => Err(fault),
            Some(text) => Ok(Some(text)),
        },
    }
}

/// The truth value under a name, false if the name is left out; the fault if something else is
/// there.
pub(crate) fn truth_at(table: &Table, name: &str, fault: PlanFault) -> Result<bool, PlanFault>
    ensures { Gives (λ b. b) result (field_or false as_bool fault (get_member name.now (table_view table.now))) }
{
    match field(table, name) {
        None => Ok(false),
        Some(value) => match value.as_bool() {
            None => Err(fault),
            Some(truth) => Ok(truth),
        },
    }
}

/// The places for the number of keys under a name, 64 if the name is left out; the fault if another
/// number or type is there.
pub(crate) fn key_places_at(table: &Table, name: &str, fault: PlanFault) -> Result<usize, PlanFault>
    ensures places { Gives (λ places. places) result (field_or 64 places_in fault (get_member name.now (table_view table.now))) }
    ensures few { IfOk result (λ places. places ≤ 1024) }
{
    match field(table, name) {
        None => Ok(64),
        Some(value) => match number_up_to(1_024, value) {
            None => Err(fault),
            Some(keys) => Ok((keys + 31) / 32 * 32),
        },
    }
}

/// The whole number of a value, if it is from 1 to `most`.
fn number_up_to(most: usize, value: &Value) -> Option<usize>
    ensures number { result ≡ option_and_then (up_to most) (as_integer (view value.now)) }
    ensures few { IfSome result (λ number. number ≤ most) }
{
    match value.as_integer() {
        None => None,
        Some(number) => up_to(most, number),
    }
}

fn up_to(most: usize, number: i64) -> Option<usize>
    ensures number { result ≡ up_to most number }
    ensures few { IfSome result (λ number. number ≤ most) }
{
    match usize::try_from(number) {
        Ok(number) if 1 <= number && number <= most => Some(number),
        _ => None,
    }
}

/// How often a test is repeated, as the name says, if it is given; the fault if something else than
/// a whole number from 1 to 65,535 is there.
pub(crate) fn repeats_at(
    table: &Table,
    name: &str,
    fault: PlanFault,
) -> Result<Option<usize>, PlanFault>
    ensures { Gives (λ times. times) result (optional repeats_in fault (get_member name.now (table_view table.now))) }
{
    match field(table, name) {
        None => Ok(None),
        Some(value) => match number_up_to(65_535, value) {
            None => Err(fault),
            Some(times) => Ok(Some(times)),
        },
    }
}

/// The texts under a name, if the name is given; the fault if something else is there.
pub(crate) fn texts_at<'a>(
    alloc: Global,
    table: &'a Table,
    name: &str,
    fault: PlanFault,
) -> Result<Option<Vec<&'a str>>, PlanFault>
    ensures { Gives (option_map (λ v. map (λ t. t.now) v.items)) result (optional texts_in fault (get_member name.now (table_view table.now))) }
{
    match field(table, name) {
        None => Ok(None),
        Some(value) => match texts_in(alloc, value)? {
            None => Err(fault),
            Some(texts) => Ok(Some(texts)),
        },
    }
}

/// The lists of texts under a name, if the name is given; the fault if something else is there.
pub(crate) fn text_lists_at<'a>(
    alloc: Global,
    table: &'a Table,
    name: &str,
    fault: PlanFault,
) -> Result<Option<Vec<Vec<&'a str>>>, PlanFault>
    ensures { Gives (option_map lists_view) result (optional (array_of texts_in) fault (get_member name.now (table_view table.now))) }
{
    match field(table, name) {
        None => Ok(None),
        Some(value) => match text_lists_in(alloc, value)? {
            None => Err(fault),
            Some(lists) => Ok(Some(lists)),
        },
    }
}

/// The tables under a name, none if the name is left out; the fault if something else is there.
pub(crate) fn tables_at<'a>(
    alloc: Global,
    table: &'a Table,
    name: &str,
    fault: PlanFault,
) -> Result<Vec<&'a Table>, PlanFault>
    ensures { Gives (λ v. map (λ t. table_view t.now) v.items) result (field_or [] (array_of as_table) fault (get_member name.now (table_view table.now))) }
{
    match field(table, name) {
        None => Ok(Vec::new(alloc)),
        Some(value) => match tables_in(alloc, value)? {
            None => Err(fault),
            Some(tables) => Ok(tables),
        },
    }
}

/// The texts of a value, if it is an array of texts.
fn texts_in<'a>(alloc: Global, value: &'a Value) -> Result<Option<Vec<&'a str>>, PlanFault>
    ensures { GivesAll (option_map (λ v. map (λ t. t.now) v.items)) result (texts_in (view value.now)) }
{
    match value {
        Value::Array(items) => texts_of(alloc, items.as_slice()),
        _ => Ok(None),
    }
}

/// The lists of texts of a value, if it is an array of arrays of texts.
fn text_lists_in<'a>(
    alloc: Global,
    value: &'a Value,
) -> Result<Option<Vec<Vec<&'a str>>>, PlanFault>
    ensures { GivesAll (option_map lists_view) result (array_of texts_in (view value.now)) }
{
    match value {
        Value::Array(items) => text_lists_of(alloc, items.as_slice()),
        _ => Ok(None),
    }
}

/// The tables of a value, if it is an array of tables.
fn tables_in<'a>(alloc: Global, value: &'a Value) -> Result<Option<Vec<&'a Table>>, PlanFault>
    ensures { GivesAll (option_map (λ v. map (λ t. table_view t.now) v.items)) result (array_of as_table (view value.now)) }
{
    match value {
        Value::Array(items) => tables_of(alloc, items.as_slice()),
        _ => Ok(None),
    }
}

/// The items as texts, if each is one.
fn texts_of<'a>(alloc: Global, items: &'a [Value]) -> Result<Option<Vec<&'a str>>, PlanFault>
    ensures { GivesAll (option_map (λ v. map (λ t. t.now) v.items)) result (all_after as_str [] (items_view items.now)) }
{
    let mut texts = Vec::new(alloc);
    for item in items {
        let Some(text) = item.as_str() else {
            return Ok(None);
        };
        texts.push(text)?;
    }
    Ok(Some(texts))
}

/// The items as lists of texts, if each is one.
fn text_lists_of<'a>(
    alloc: Global,
    items: &'a [Value],
) -> Result<Option<Vec<Vec<&'a str>>>, PlanFault>
    ensures { GivesAll (option_map lists_view) result (all_after texts_in [] (items_view items.now)) }
{
    let mut lists = Vec::new(alloc);
    for item in items {
        let Some(texts) = texts_in(alloc, item)? else {
            return Ok(None);
        };
        lists.push(texts)?;
    }
    Ok(Some(lists))
}

/// The items as tables, if each is one.
fn tables_of<'a>(alloc: Global, items: &'a [Value]) -> Result<Option<Vec<&'a Table>>, PlanFault>
    ensures { GivesAll (option_map (λ v. map (λ t. table_view t.now) v.items)) result (all_after as_table [] (items_view items.now)) }
{
    let mut tables = Vec::new(alloc);
    for item in items {
        let Some(table) = item.as_table() else {
            return Ok(None);
        };
        tables.push(table)?;
    }
    Ok(Some(tables))
}

fn field<'a>(table: &'a Table, name: &str) -> Option<&'a Value>
    ensures { option_map (λ v. view v.now) result ≡ get_member name.now (table_view table.now) }
{
    table.get(name)
}
