//! The texts of explanations.
use crate::explaining::spots::{Spot, TextNo};
use crate::fault::{PlanFault, PlanPart};
use std::alloc::Global;

/// What an explanation says of a fault, and of what it speaks.
#[derive(Drop)]
pub(crate) struct Meaning {
    pub(crate) words: String,
    /// The table that it speaks of, if that is no whole plan and the fault does not name it.
    pub(crate) part: Option<PlanPart>,
    /// The spot in the table, if it is one.
    pub(crate) spot: Option<Spot>,
}

pub(crate) fn said(alloc: Global, words: &str) -> Result<Option<String>, PlanFault> {
    Ok(Some(String::from_str(alloc, words)?))
}

/// These words, with a text of the plan between them in quotes.
pub(crate) fn quoted(
    alloc: Global,
    before: &str,
    text: &str,
    after: &str,
) -> Result<Option<String>, PlanFault> {
    Ok(Some(format!(in alloc; "{before}{text:?}{after}")?))
}

/// These words, if there are any, which speak of no spot in a table.
pub(crate) fn of_no_field(words: Option<String>) -> Option<Meaning> {
    of_part(None, None, words)
}

/// These words, if there are any, which speak of a field in this table.
pub(crate) fn of_field_at(
    alloc: Global,
    part: PlanPart,
    field: &str,
    words: Option<String>,
) -> Result<Option<Meaning>, PlanFault> {
    let spot = spot_of(alloc, field, None)?;
    Ok(of_part(Some(part), Some(spot), words))
}

/// These words, if there are any, which speak of a field.
pub(crate) fn of_field(
    alloc: Global,
    field: &str,
    words: Option<String>,
) -> Result<Option<Meaning>, PlanFault> {
    let spot = spot_of(alloc, field, None)?;
    Ok(of_part(None, Some(spot), words))
}

/// These words, if there are any, which speak of a text in the array of a field.
pub(crate) fn of_text(
    alloc: Global,
    field: &str,
    text: TextNo,
    words: Option<String>,
) -> Result<Option<Meaning>, PlanFault> {
    let spot = spot_of(alloc, field, Some(text))?;
    Ok(of_part(None, Some(spot), words))
}

fn spot_of(alloc: Global, field: &str, text: Option<TextNo>) -> Result<Spot, PlanFault> {
    let field = String::from_str(alloc, field)?;
    Ok(Spot { field, text })
}

fn of_part(part: Option<PlanPart>, spot: Option<Spot>, words: Option<String>) -> Option<Meaning> {
    match words {
        None => None,
        Some(words) => Some(Meaning { words, part, spot }),
    }
}
