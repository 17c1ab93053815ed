//! Headers of tables, such as `[[node]]`.
use crate::explaining::line_at;
use crate::explaining::spots::byte_of_header;

/// A header that is looked for. Its names may stand in quotes, and with spaces around them.
#[derive(Clone, Copy)]
pub(crate) enum Header<'a> {
    /// `[[NAME]]` with this number, from 0.
    Of(&'a str, usize),
    /// The first `[NAME]`.
    Single(&'a str),
    /// The first that begins with this name, such as `[[NAME]]` or `[NAME.b]`.
    Under(&'a str),
    /// The first of this field of a table `[[NAME]]`, such as `[[NAME.FIELD]]`, before the next `[[NAME]]`.
    Field(&'a str, &'a str),
}

/// What a header is for a search.
pub(crate) enum Met {
    /// It is the one that is looked for, if as many came before as there have to.
    Wanted,
    Other,
    /// The one that is looked for can stand no more.
    Last,
}

impl<'a> Header<'a> {
    /// What the header is that a text begins with.
    pub(crate) fn meets(self, text: &str) -> Met {
        match self {
            Header::Of(name, _) => wanted_if(is_header_of(text, name)),
            Header::Single(name) => wanted_if(is_single(text, name)),
            Header::Under(name) => wanted_if(is_under(text, name)),
            Header::Field(name, _) if is_header_of(text, name) => Met::Last,
            Header::Field(name, field) => wanted_if(is_field(text, name, field)),
        }
    }

    /// How many that are such come before it.
    pub(crate) fn number(self) -> usize {
        match self {
            Header::Of(_, number) => number,
            _ => 0,
        }
    }
}

fn wanted_if(is_wanted: bool) -> Met {
    if is_wanted { Met::Wanted } else { Met::Other }
}

/// Tests whether a text begins with `[[NAME]]`.
fn is_header_of(text: &str, name: &str) -> bool {
    match text.strip_prefix("[[") {
        None => false,
        Some(names) => rest_behind(names, name).starts_with("]]"),
    }
}

/// Tests whether a text begins with `[NAME]`.
fn is_single(text: &str, name: &str) -> bool {
    match text.strip_prefix('[') {
        None => false,
        Some(names) => rest_behind(names, name).starts_with(']'),
    }
}

/// Tests whether a text begins with the header of a table with this name, or of one below it.
fn is_under(text: &str, name: &str) -> bool {
    rest_behind(text.trim_start_matches('['), name).starts_with([']', '.'])
}

/// Tests whether a text begins with the header of a field of such a table.
fn is_field(text: &str, name: &str, field: &str) -> bool {
    match rest_behind(text.trim_start_matches('['), name).strip_prefix('.') {
        None => false,
        Some(names) => rest_behind(names, field).starts_with([']', '.']),
    }
}

/// What follows this name and white space, if a text begins with it, in quotes or not; else nothing.
pub(crate) fn rest_behind<'a>(text: &'a str, name: &str) -> &'a str {
    let text = text.trim_start();
    let rest = match text.strip_prefix('"') {
        Some(quoted) => behind_quoted(quoted, name, '"'),
        None => match text.strip_prefix('\'') {
            Some(quoted) => behind_quoted(quoted, name, '\''),
            None => text.strip_prefix(name),
        },
    };
    rest.unwrap_or("").trim_start()
}

/// What follows this name and its quote, if a text begins so.
fn behind_quoted<'a>(text: &'a str, name: &str, quote: char) -> Option<&'a str> {
    match text.strip_prefix(name) {
        None => None,
        Some(rest) => rest.strip_prefix(quote),
    }
}

/// What was meant by the header of a single table, and the line, from 1, where it stands.
#[derive(Clone, Copy)]
pub(crate) struct Hint {
    pub(crate) meant: &'static str,
    pub(crate) line: usize,
}

/// What to write, and where, if this line of a document, from 1, repeats a key because of the header
/// of a single table.
pub(crate) fn hint_at(text: &str, line: usize) -> Option<Hint> {
    match repeated(text, line, "key", "[[key]]") {
        None => repeated(text, line, "node", "[[node]]"),
        hint => hint,
    }
}

/// What to write if the line is a header of this name, and it or one before is a single one.
fn repeated(text: &str, line: usize, name: &str, meant: &'static str) -> Option<Hint> {
    let row = text.split('\n').skip(line.saturating_sub(1)).next();
    let row = row.unwrap_or("").trim();
    if !is_single(row, name) && !is_header_of(row, name) {
        return None;
    }
    match byte_of_header(text, 0, Header::Single(name)) {
        Some(at) if line_at(text, at) <= line => Some(Hint {
            meant,
            line: line_at(text, at),
        }),
        _ => None,
    }
}
