//! Explanations of the faults of plans.
ghost use Rattle.std.specs.Prelude.{◌≡◌, ◌++◌, string_bytes, IfOk, OnOk};
ghost use Rattle.ext_plan_reading.specs.Explaining.{Explains, part_words};

mod ends;
mod fields;
mod headers;
mod ids;
mod marks;
mod near;
mod nodes;
mod spots;
mod steps;
mod words;

use crate::fault::{PlanFault, PlanPart};
use ends::with_end;
use ext_model::Size;
use fields::{bad_field, bad_label, unknown_field};
use headers::{Hint, hint_at};
pub use ids::explain_id;
use marks::{column_at, mark_at};
pub use near::nearest;
use nodes::{bad_id, bad_nodes, too_many};
use std::alloc::{AllocError, Global};
use std::fmt;
use steps::bad_step;
use toml::Table;
use toml::de::Error;
use words::{Meaning, of_no_field, said};

/// Explains why the bytes of a plan were refused, in a line without a line feed. The line begins
/// with the part that the fault names (`the plan`, `key 1` or `node 2`) and a colon. Then it names
/// the field, the label, the id with its own fault, the lock or the step at fault, or where in
/// the text. It says what was meant where that is likely, such as the nearest name of a field.
/// Texts of the plan are quoted, with a line feed as `\n`. At the end are the node's id, if it has
/// one, and the line of the plan where the field or the step at fault stands, or else the table of
/// the key or node begins, if the table has a header of its own; where the text is no TOML, and for
/// a field of the plan itself, the column too. The contract covers only the part that the fault
/// names.
///
/// The fault is one of `all_faults` of this text and size, such as the answer of
/// `read_plan_within`; or `NotUtf8` if the bytes are no text. For any other fault the line says
/// that another one comes before, or that there is no such fault.
///
/// Takes memory for the line, and for what `read_plan_within` takes it for; fails with `AllocError`
/// only if that is refused.
pub fn explain(
    alloc: Global,
    input: &[u8],
    size: Size,
    fault: PlanFault,
) -> Result<String, AllocError>
    ensures { IfOk result (λ line. Explains fault (string_bytes line)) }
{
    let meaning = meaning_or_none(alloc, input, size, fault)?;
    line_of(alloc, fault, meaning.as_str())
}

/// The line with this meaning of a fault, after its part.
fn line_of(alloc: Global, fault: PlanFault, meaning: &str) -> Result<String, AllocError>
    ensures { IfOk result (λ line. Explains fault (string_bytes line)) }
{
    let mut line = String::new(alloc);
    write_part(&mut line, fault.part())?;
    line.push_str(": ")?;
    line.push_str(meaning)?;
    Ok(line)
}

/// Writes a part in words at the end of a line.
fn write_part(line: &mut String, part: PlanPart) -> Result<(), AllocError>
    ensures { OnOk result (string_bytes line.new ≡ string_bytes line.old ++ part_words part) }
{
    match part {
        PlanPart::Whole => line.push_str("the plan"),
        PlanPart::Key(key) => write!(line, "key {key}"),
        PlanPart::Node(node) => write!(line, "node {node}"),
    }
}

/// The meaning of a fault of these bytes, or that they do not have it.
fn meaning_or_none(
    alloc: Global,
    input: &[u8],
    size: Size,
    fault: PlanFault,
) -> Result<String, AllocError> {
    match meaning(alloc, input, size, fault) {
        Ok(Some(meaning)) => Ok(meaning),
        Ok(None) => String::from_str(alloc, "it has no such fault"),
        Err(PlanFault::Memory) => Err(AllocError),
        Err(_) => String::from_str(alloc, "another fault comes before"),
    }
}

/// The meaning of a fault of these bytes, if they have it. Another fault that comes before it is an
/// error.
fn meaning(
    alloc: Global,
    input: &[u8],
    size: Size,
    fault: PlanFault,
) -> Result<Option<String>, PlanFault> {
    let text = match std::str::from_utf8(input) {
        Ok(text) => text,
        Err(e) => return no_utf8(alloc, input, e.valid_up_to()),
    };
    match toml::table_from_str(alloc, text) {
        Ok(top) => meaning_with_end(alloc, text, &top, size, fault),
        Err(e) => no_toml(alloc, text, &e),
    }
}

/// Says up to which byte the bytes are UTF-8, and which form of Unicode they may be in.
fn no_utf8(alloc: Global, input: &[u8], at: usize) -> Result<Option<String>, PlanFault> {
    let line = line_in(input, at);
    let hint = if input.starts_with(&[0xFF, 0xFE]) || input.starts_with(&[0xFE, 0xFF]) {
        ": it begins as UTF-16 does"
    } else {
        ""
    };
    Ok(Some(format!(in alloc; "it is no UTF-8 at byte {at}, in line {line}{hint}")?))
}

/// Says where and why a text is no TOML document, in the words of the TOML parser, and how what is
/// meant is written, where that is likely.
fn no_toml(alloc: Global, text: &str, error: &Error) -> Result<Option<String>, PlanFault> {
    let Some(span) = error.span() else {
        return Err(PlanFault::Memory);
    };
    let place = Place::of(text, span.start);
    let message = error.message();
    if message == "duplicate key"
        && let Some(hint) = hint_at(text, place.line)
    {
        let Hint {
            meant,
            line: single,
        } = hint;
        return Ok(Some(format!(in alloc;
            "it is no TOML in {place}: {message}: in line {single} write {meant}"
        )?));
    }
    Ok(Some(match mark_at(text, span.start, message) {
        None => format!(in alloc; "it is no TOML in {place}: {message}")?,
        Some(hint) => format!(in alloc; "it is no TOML in {place}: {message}: {hint}")?,
    }))
}

/// A place in a text, by its line and its column, from 1.
#[derive(Clone, Copy)]
struct Place {
    line: usize,
    column: usize,
}

impl Place {
    /// The place of this byte.
    fn of(text: &str, byte: usize) -> Place {
        Place {
            line: line_at(text, byte),
            column: column_at(text, byte),
        }
    }
}

impl fmt::Display for Place {
    fn fmt<W: fmt::Write>(&self, f: &mut fmt::Formatter<W>) -> fmt::Result {
        write!(f, "line {}, column {}", self.line, self.column)
    }
}

/// The number, from 1, of the line that contains a byte of a text.
fn line_at(text: &str, byte: usize) -> usize {
    line_in(text.as_bytes(), byte)
}

/// The number, from 1, of the line that contains one of these bytes.
fn line_in(bytes: &[u8], byte: usize) -> usize {
    let before = bytes.iter().take(byte);
    let feeds = before.filter(|byte| **byte == b'\n').count();
    feeds.saturating_add(1)
}

/// The meaning of a fault of a document, if it has it, and the line where it stands.
fn meaning_with_end(
    alloc: Global,
    text: &str,
    top: &Table,
    size: Size,
    fault: PlanFault,
) -> Result<Option<String>, PlanFault> {
    match meaning_in(alloc, top, size, fault)? {
        None => Ok(None),
        Some(meaning) => { Ok(Some(with_end(alloc, text, top, fault, &meaning)?)) }
    }
}

/// The meaning of a fault of a document, if it has it.
fn meaning_in(
    alloc: Global,
    top: &Table,
    size: Size,
    fault: PlanFault,
) -> Result<Option<Meaning>, PlanFault> {
    match fault {
        PlanFault::NotUtf8 | PlanFault::NotToml => Ok(None),
        PlanFault::UnknownField(part) => unknown_field(alloc, top, part),
        PlanFault::BadField(part) => bad_field(alloc, top, part),
        PlanFault::BadLabel(key) => bad_label(alloc, top, key),
        PlanFault::BadId(node) => bad_id(alloc, top, node),
        PlanFault::BadStep(node) => bad_step(alloc, top, size, node),
        PlanFault::BadTree | PlanFault::BadLock(_) | PlanFault::BadTest(_) => {
            bad_nodes(alloc, top, size, fault)
        }
        PlanFault::TooMany => too_many(alloc, top),
        PlanFault::Memory => Ok(of_no_field(said(alloc, "memory was refused while it was read")?)),
    }
}
