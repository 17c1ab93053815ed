//! Escapes: how the six marks are written inside a part.
ghost use Rattle.std.specs.Prelude.{◌≡◌, ◌++◌, string_bytes, encode_utf8, IfOk, OnOk};
ghost use Rattle.ext_ids.specs.Grammar.{IsPartText, part_text, escape_of};

use std::alloc::{AllocError, Global};

/// The character that is spelled by a `%` and the two bytes at the beginning of `rest`.
pub(crate) fn escape_of(rest: &[u8]) -> Option<char>
    ensures { result ≡ escape_of rest.now }
{
    match rest {
        [b'2', b'5', ..] => Some('%'),
        [b'2', b'B', ..] => Some('+'),
        [b'5', b'B', ..] => Some('['),
        [b'5', b'D', ..] => Some(']'),
        [b'3', b'A', ..] => Some(':'),
        [b'2', b'F', ..] => Some('/'),
        _ => None,
    }
}

/// The part that `part` spells, its escapes decoded.
pub(crate) fn decoded(alloc: Global, part: &str) -> Result<String, AllocError>
    requires { IsPartText part.now }
    ensures { IfOk result (λ s. part.now ≡ part_text (string_bytes s)) }
{
    let mut text = String::new(alloc);
    let mut rest = part;
    while let Some((plain, code)) = rest.split_once('%') {
        text.push_str(plain)?;
        text.push(escape_of(code.as_bytes()).unwrap())?;
        rest = &code[2..];
    }
    text.push_str(rest)?;
    Ok(text)
}

/// Appends a part to a text, its marks escaped.
pub(crate) fn write_part(part: &str, text: &mut String) -> Result<(), AllocError>
    ensures { OnOk result (string_bytes text.new ≡ string_bytes text.old ++ part_text part.now) }
{
    for c in part.chars() {
        write_character(c, text)?;
    }
    Ok(())
}

/// Appends a character of a part to a text, escaped if it is a mark.
fn write_character(c: char, text: &mut String) -> Result<(), AllocError>
    ensures { OnOk result (string_bytes text.new ≡ string_bytes text.old ++ part_text (encode_utf8 c)) }
{
    match c {
        '%' => text.push_str("%25"),
        '+' => text.push_str("%2B"),
        '[' => text.push_str("%5B"),
        ']' => text.push_str("%5D"),
        ':' => text.push_str("%3A"),
        '/' => text.push_str("%2F"),
        _ => text.push(c),
    }
}
