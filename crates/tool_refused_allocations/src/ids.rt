//! An id that is read and printed.
use crate::outcome::Outcome;
use ext_ids::IdFault;
use ext_run::id_text;
use std::alloc::Global;

/// An id of three segments, with an escape.
const TEXT: &str = "[engine:x]/[class:a%2Fb]/[method:m()]";

/// The lines of the id.
const LINES: &str = "\
engine x
class a/b
method m()
[engine:x]/[class:a%2Fb]/[method:m()]
";

/// Reads the id, and prints its segments.
pub(crate) fn prints_segments(alloc: Global) -> Outcome {
    match id_text(alloc, TEXT) {
        Ok(lines) => Outcome::of(lines.as_str() == LINES, "an id has other lines"),
        Err(IdFault::Memory) => Outcome::NoMemory,
        Err(_) => Outcome::Wrong("an id is refused as none"),
    }
}
