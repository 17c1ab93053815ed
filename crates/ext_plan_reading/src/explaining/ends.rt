//! The end of an explanation: the node's id, and the line of the plan with the fault.
use crate::explaining::fields::table_of;
use crate::explaining::headers::Header;
use crate::explaining::marks::end_of;
use crate::explaining::spots::{Spot, byte_of, byte_of_header};
use crate::explaining::words::Meaning;
use crate::explaining::{Place, line_at};
use crate::fault::{PlanFault, PlanPart};
use crate::fields::{tables_at, text_at};
use std::alloc::Global;
use toml::Table;

/// Appends the end of an explanation: the node's id as the plan spells it, and the line of the field
/// or the step at fault, or else that where the table of the key or the node begins, each if it is
/// known; of a field of the plan itself line and column. The explanation of a bad id contains the id
/// already.
pub(crate) fn with_end(
    alloc: Global,
    text: &str,
    top: &Table,
    fault: PlanFault,
    meaning: &Meaning,
) -> Result<String, PlanFault> {
    let part = meaning.part.unwrap_or(fault.part());
    if let (PlanPart::Whole, Some(spot)) = (part, &meaning.spot)
        && let Some(at) = byte_at_top(text, spot)
    {
        let place = Place::of(text, at);
        return Ok(format!(in alloc; "{} ({place})", meaning.words.as_str())?);
    }
    let line = line_of(alloc, text, part, &meaning.spot)?;
    let words = meaning.words.as_str();
    let id = id_of(alloc, top, fault)?;
    Ok(match (id, line) {
        (Some(id), Some(line)) => format!(in alloc; "{words} ({id:?}, line {line})")?,
        (Some(id), None) => format!(in alloc; "{words} ({id:?})")?,
        (None, Some(line)) => format!(in alloc; "{words} (line {line})")?,
        (None, None) => String::from_str(alloc, words)?,
    })
}

/// The id of the node with a fault, as the plan spells it, unless the id is the fault.
fn id_of<'a>(
    alloc: Global,
    top: &'a Table,
    fault: PlanFault,
) -> Result<Option<&'a str>, PlanFault> {
    let part = match fault {
        PlanFault::BadId(_) => PlanPart::Whole,
        other => other.part(),
    };
    let PlanPart::Node(_) = part else {
        return Ok(None);
    };
    let table = table_of(alloc, top, part)?;
    Ok(table.and_then(|table| text_at(table, "id")))
}

/// The line of the plan, from 1, where this field or step of a table stands, or else the table
/// begins, if the table has a header of its own such as `[[node]]`.
fn line_of(
    alloc: Global,
    text: &str,
    part: PlanPart,
    spot: &Option<Spot>,
) -> Result<Option<usize>, PlanFault> {
    let (name, number) = match part {
        PlanPart::Whole => return Ok(None),
        PlanPart::Key(key) => ("key", key),
        PlanPart::Node(node) => ("node", node),
    };
    let Some(end) = end_of_header(text, Header::Of(name, number)) else {
        return Ok(None);
    };
    if has_tables(alloc, text, end, name, number.saturating_add(1))? {
        return Ok(Some(line_at(text, byte_at(text, end, name, spot))));
    }
    Ok(None)
}

/// The byte at which a field of the plan itself stands, or the header of a table with its name.
fn byte_at_top(text: &str, spot: &Spot) -> Option<usize> {
    let from = if text.starts_with('\u{feff}') { 3 } else { 0 };
    match byte_of(text, from, spot) {
        None => byte_of_header(text, from, Header::Under(spot.field.as_str())),
        Some(at) => Some(begin_of_line(text, at)),
    }
}

/// The byte of the first character, but white ones, of the line with this byte.
fn begin_of_line(text: &str, at: usize) -> usize {
    let line = end_of(text.get(..at).unwrap_or(""));
    at.saturating_sub(line.trim_start_matches('\u{feff}').trim_start().len())
}

/// The byte at which a spot stands in the table of this name whose header ends here, or the header of
/// the spot's field, or else this byte.
fn byte_at(text: &str, end: usize, name: &str, spot: &Option<Spot>) -> usize {
    let Some(spot) = spot else {
        return end;
    };
    match byte_of(text, end, spot) {
        Some(at) => at,
        None => {
            let header = Header::Field(name, spot.field.as_str());
            byte_of_header(text, end, header).unwrap_or(end)
        }
    }
}

/// The byte at which the line of this header ends.
fn end_of_header(text: &str, header: Header<'_>) -> Option<usize> {
    let Some(at) = byte_of_header(text, 0, header) else {
        return None;
    };
    let line = text.get(at..).unwrap_or("").split('\n').next();
    Some(at.saturating_add(line.unwrap_or("").len()))
}

/// Tests whether the text up to this byte is a document with `count` tables of this name.
fn has_tables(
    alloc: Global,
    text: &str,
    end: usize,
    name: &str,
    count: usize,
) -> Result<bool, PlanFault> {
    let Some(front) = text.get(..end) else {
        return Ok(false);
    };
    let Ok(top) = toml::table_from_str(alloc, front) else {
        return Ok(false);
    };
    let Ok(tables) = tables_at(alloc, &top, name, PlanFault::BadField(PlanPart::Whole)) else {
        return Ok(false);
    };
    Ok(tables.len() == count)
}
