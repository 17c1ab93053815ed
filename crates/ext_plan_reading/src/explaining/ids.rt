//! Explanations of faults in ids.
ghost use Rattle.std.specs.Prelude.{◌≡◌, string_bytes, IfOk, Some};
ghost use Rattle.ext_ids.specs.Grammar.{spelled};
ghost use Rattle.ext_plan_reading.specs.ExplainingIds.{ExplainsId, IsMark, SaysOf, SaysRaw, is_behind, within, words_of};

use ext_ids::IdFault;
use std::alloc::{AllocError, Global};

/// Explains in one line why a text was refused as a unique id, such as ``the id: `+` has to be
/// written `%2B` ``.
///
/// The line has no line feed. The fault is the answer of `UniqueId::parse` to this text. Takes
/// memory for the line, and fails with `AllocError` only if that is refused.
pub fn explain_id(alloc: Global, text: &str, fault: IdFault) -> Result<String, AllocError>
    ensures { IfOk result (λ line. ExplainsId text.now fault (string_bytes line)) }
{
    let words = words_of_id(alloc, text, fault)?;
    format!(in alloc; "the id: {}", words.as_str())
}

/// The explanation without `the id: `.
pub(crate) fn words_of_id(alloc: Global, text: &str, fault: IdFault) -> Result<String, AllocError>
    ensures { IfOk result (λ words. SaysOf text.now fault (string_bytes words)) }
{
    match fault {
        IdFault::RawCharacter(at) => raw_character(alloc, text.as_bytes(), at),
        other => String::from_str(alloc, words_of(other)),
    }
}

/// Explains a fault other than a raw character.
fn words_of(fault: IdFault) -> &'static str
    ensures { result.now ≡ words_of fault }
{
    match fault {
        IdFault::Empty => "it is empty",
        IdFault::NoOpen(_) => "a segment begins with `[`",
        IdFault::NoSeparator(_) => "a type ends with `:`, and none stands before this place",
        IdFault::NoClose(_) => "a value ends with `]`, and none stands before its end",
        IdFault::BadEscape(_) => "a `%` begins one of `%25`, `%2B`, `%5B`, `%5D`, `%3A` and `%2F`",
        IdFault::RawCharacter(_) => "a mark stands there as it is",
        IdFault::EmptyPart(_) => "the type or the value that ends there is empty",
        IdFault::TooDeep => "it has more than 16 segments",
        IdFault::Memory => "memory was refused",
    }
}

/// Explains a mark that has to be escaped, or a character that may not follow a segment.
fn raw_character(alloc: Global, text: &[u8], at: usize) -> Result<String, AllocError>
    ensures { IfOk result (λ words. SaysRaw (within text.now at) (string_bytes words)) }
{
    match within(text, at) {
        Some(mark) => has_to_be_written(alloc, mark),
        None => String::from_str(alloc, "behind a segment stands a `/` or nothing"),
    }
}

/// The byte at this index, unless a segment ends before it: a `]` that is not escaped ends a
/// segment.
fn within(text: &[u8], at: usize) -> Option<u8>
    ensures { result ≡ within text.now at }
{
    if is_behind(text, at) {
        return None;
    }
    text.get(at).copied()
}

/// Tests whether there is a `]` before this index.
fn is_behind(text: &[u8], at: usize) -> bool
    ensures { result ≡ is_behind text.now at }
{
    match at.checked_sub(1) {
        Some(last) => text.get(last) == Some(&b']'),
        None => false,
    }
}

/// Says how a mark has to be written.
fn has_to_be_written(alloc: Global, mark: u8) -> Result<String, AllocError>
    ensures { IfOk result (λ words. SaysRaw (Some mark) (string_bytes words)) }
{
    let escape = escape_of(mark);
    let mark = char::from(mark);
    format!(in alloc; "`{mark}` has to be written `{escape}`")
}

/// The escape of a mark in a type or a value.
fn escape_of(mark: u8) -> &'static str
    ensures { IsMark mark → result.now ≡ spelled mark }
{
    match mark {
        b'%' => "%25",
        b'+' => "%2B",
        b'[' => "%5B",
        b']' => "%5D",
        b':' => "%3A",
        _ => "%2F",
    }
}
