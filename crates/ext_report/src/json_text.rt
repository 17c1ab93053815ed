//! Texts of JSON as they are printed.
ghost use Rattle.std.specs.Prelude.{◌≡◌, ◌++◌, [], string_bytes, IfOk, OnOk};
ghost use Rattle.json.specs.Print.{print};
ghost use Rattle.ext_report.specs.JsonTexts.{is_escaped, json_character, json_text, zeros};

use crate::visible::{is_among, is_direction};
use json::Writer;
use std::alloc::{AllocError, Global};

/// What was written, as a text that gives no order to a terminal: U+007F to U+009F, and the
/// characters that turn the direction of a text, are escaped, as `\u009b`. The writer began empty.
///
/// Takes memory for the text, and fails with `AllocError` only if that is refused. An own rule.
pub fn printed_json(alloc: Global, writer: Writer) -> Result<String, AllocError>
    requires { writer.before ≡ [] }
    ensures { IfOk result (λ text. string_bytes text ≡ json_text (print writer.tokens)) }
{
    let mut text = String::new(alloc);
    write_json(&mut text, written(writer).as_str())?;
    Ok(text)
}

/// What was written, as a text.
fn written(writer: Writer) -> String
    requires { writer.before ≡ [] }
    ensures { string_bytes result ≡ print writer.tokens }
{
    match String::from_utf8(writer.into_inner()) {
        Ok(text) => text,
        Err(_) => unreachable!(),
    }
}

/// Writes a text of JSON at the end of another, with the characters escaped that `printed_json`
/// escapes.
///
/// Takes memory if the text has no room, and fails with `AllocError` only if that is refused.
pub fn write_json(text: &mut String, json: &str) -> Result<(), AllocError>
    ensures { OnOk result (string_bytes text.new ≡ string_bytes text.old ++ json_text json.now) }
{
    for c in json.chars() {
        write_character(text, c)?;
    }
    Ok(())
}

fn write_character(text: &mut String, c: char) -> Result<(), AllocError>
    ensures { OnOk result (string_bytes text.new ≡ string_bytes text.old ++ json_character c) }
{
    let code = u32::from(c);
    if !is_escaped(code) {
        return text.push(c);
    }
    text.push_str("\\u")?;
    text.push_str(zeros(code))?;
    write!(text, "{code:x}")
}

/// Tests whether a character with this code is escaped.
fn is_escaped(code: u32) -> bool
    ensures { result ≡ is_escaped code }
{
    is_among(0x7f, 0x9f, code) || is_direction(code)
}

/// What stands before the digits of a code, of which there are four in all.
fn zeros(code: u32) -> &'static str
    ensures { result.now ≡ zeros code }
{
    if code < 256 { "00" } else { "" }
}
