//! Texts as a terminal may show them.
ghost use Rattle.std.specs.Prelude.{◌≡◌, ◌++◌, string_bytes, IfOk, OnOk};
ghost use Rattle.ext_report.specs.TerminalLines.{code_text, is_among, is_direction, line_character, shown_text, visible, visible_character, visible_lines};

use std::alloc::{AllocError, Global};

/// Writes a text at the end of another, with each control character, and each that turns the
/// direction of a text, as `\n`, `\r`, `\t` or `\u{1b}`: so it stands on one line, and gives no order
/// to a terminal.
///
/// Takes memory if the text has no room, and fails with `AllocError` only if that is refused.
pub fn write_visible(text: &mut String, more: &str) -> Result<(), AllocError>
    ensures { OnOk result (string_bytes text.new ≡ string_bytes text.old ++ visible more.now) }
{
    for c in more.chars() {
        write_character(text, c)?;
    }
    Ok(())
}

/// Writes lines at the end of a text, with the characters that `write_visible` escapes as it writes
/// them, but for the line feeds: these end the lines.
///
/// Takes memory if the text has no room, and fails with `AllocError` only if that is refused.
pub fn write_visible_lines(text: &mut String, lines: &str) -> Result<(), AllocError>
    ensures { OnOk result (string_bytes text.new ≡ string_bytes text.old ++ visible_lines lines.now) }
{
    for c in lines.chars() {
        write_in_line(text, c)?;
    }
    Ok(())
}

/// Lines as they are printed: at a terminal as `write_visible_lines` writes them.
///
/// Takes memory at a terminal, and fails with `AllocError` only if that is refused: the lines are
/// dropped then.
pub fn shown_text(alloc: Global, lines: String, at_terminal: bool) -> Result<String, AllocError>
    ensures { IfOk result (λ shown. string_bytes shown ≡ shown_text at_terminal (string_bytes lines)) }
{
    if !at_terminal {
        return Ok(lines);
    }
    let mut shown = String::new(alloc);
    write_visible_lines(&mut shown, lines.as_str())?;
    Ok(shown)
}

/// Writes a character of a line, or the line feed that ends one, at the end of a text.
fn write_in_line(text: &mut String, c: char) -> Result<(), AllocError>
    ensures { OnOk result (string_bytes text.new ≡ string_bytes text.old ++ line_character c) }
{
    if c == '\n' {
        return text.push('\n');
    }
    write_character(text, c)
}

/// Writes a character at the end of a text.
fn write_character(text: &mut String, c: char) -> Result<(), AllocError>
    ensures { OnOk result (string_bytes text.new ≡ string_bytes text.old ++ visible_character c) }
{
    match c {
        '\t' => text.push_str("\\t"),
        '\n' => text.push_str("\\n"),
        '\r' => text.push_str("\\r"),
        _ if c.is_control() || is_direction(u32::from(c)) => write_code(text, u32::from(c)),
        _ => text.push(c),
    }
}

/// Tests whether a character with this code turns the direction of a text.
pub(crate) fn is_direction(code: u32) -> bool
    ensures { result ≡ is_direction code }
{
    is_among(0x202a, 0x202e, code) || is_among(0x2066, 0x2069, code)
}

/// Tests whether a code is in this range.
pub(crate) fn is_among(first: u32, last: u32, code: u32) -> bool
    ensures { result ≡ is_among first last code }
{
    first <= code && code <= last
}

/// Writes the code of a character at the end of a text.
fn write_code(text: &mut String, code: u32) -> Result<(), AllocError>
    ensures { OnOk result (string_bytes text.new ≡ string_bytes text.old ++ code_text code) }
{
    write!(text, "\\u{{{code:x}}}")
}
