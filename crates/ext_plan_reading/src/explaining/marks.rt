//! What in a text that is no TOML is likely the mistake.

/// What stands at this byte and has no place in TOML there, as an end of an explanation: a character
/// that is not seen, or what another format has there. `message` is the parser's own.
pub(crate) fn mark_at(text: &str, at: usize, message: &str) -> Option<&'static str> {
    let (Some(before), Some(fault)) = (text.get(..at), text.get(at..)) else {
        return None;
    };
    match hidden_at(before, fault) {
        None => foreign_at(fault, message),
        found => found,
    }
}

/// What stands behind the last line feed of a text.
pub(crate) fn end_of(text: &str) -> &str {
    match text.rsplit_once('\n') {
        None => text,
        Some((_, end)) => end,
    }
}

/// The number, from 1, of the character of its line that stands at this byte.
pub(crate) fn column_at(text: &str, at: usize) -> usize {
    let before = text.get(..at).unwrap_or("");
    let line = end_of(before).trim_start_matches('\u{feff}');
    line.chars().count().saturating_add(1)
}

/// Names the character that a fault begins with, if it is not seen. `before` is the text up to it.
fn hidden_at(before: &str, fault: &str) -> Option<&'static str> {
    match fault.chars().next() {
        Some('\0') => Some("the character NUL stands there"),
        Some('\u{feff}') if end_of(before).is_empty() => {
            Some("a byte order mark stands there, as between two files that were joined")
        }
        Some('\u{feff}') => Some("a byte order mark stands there"),
        Some('\u{a0}' | '\u{200b}') => Some("a character that is not seen stands there"),
        Some('\r') if !fault.starts_with("\r\n") => {
            Some("a carriage return stands alone there, and a line ends with a line feed")
        }
        _ => None,
    }
}

/// Says what to write in place of what another format has where a fault begins.
fn foreign_at(fault: &str, message: &str) -> Option<&'static str> {
    if fault.starts_with("//") || fault.starts_with("/*") {
        return Some("a comment begins with #");
    }
    if is_curved_quote(fault) {
        return Some("a text stands between \" or ', and not between curved quotes");
    }
    if message.starts_with("invalid key") && fault.starts_with(['{', '}']) {
        return Some("a plan is no JSON, and a node begins with [[node]]");
    }
    if message.starts_with("invalid value") {
        return for_value(fault);
    }
    if message.starts_with("invalid string") && fault.starts_with(['\r', '\n']) {
        return Some("a text ends in its line, with the quote that began it");
    }
    if fault.starts_with(':') {
        return for_colon(message);
    }
    None
}

fn is_curved_quote(fault: &str) -> bool {
    matches!(
        fault.chars().next(),
        Some('\u{201c}' | '\u{201d}' | '\u{201e}' | '\u{2018}' | '\u{2019}')
    )
}

/// Says what to write in place of a bare word where a value begins.
fn for_value(fault: &str) -> Option<&'static str> {
    let word = fault.split([' ', '\t', '\r', '\n', ',', ']', '#']).next();
    match word.unwrap_or("") {
        "True" | "False" | "TRUE" | "FALSE" | "yes" | "no" | "on" | "off" => {
            Some("write true or false, in small letters")
        }
        "null" | "None" => None,
        word if word.starts_with(|c: char| c.is_alphabetic()) => {
            Some("a text stands between quotes")
        }
        _ => None,
    }
}

/// Says what to write where a colon stands in place of what the parser looked for.
fn for_colon(message: &str) -> Option<&'static str> {
    if message.starts_with("key with no value") {
        Some("behind a name stands =, and no colon")
    } else if message.starts_with("unclosed") {
        Some("a node begins with [[node]], and its id stands between quotes behind id =")
    } else {
        None
    }
}
