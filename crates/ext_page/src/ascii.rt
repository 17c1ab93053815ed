//! Texts of JSON as they can stand in a page.
ghost use Rattle.std.specs.Prelude.{◌≡◌, ◌<◌, ◌++◌, string_bytes, OnOk};
ghost use Rattle.ext_page.specs.Ascii.{ascii, ascii_character, pair_text, unit_text, zeros};

use std::alloc::AllocError;

/// Writes a text of JSON at the end of another, of ASCII alone and without `<`: where such a character
/// stood, which is within a string, stands its escape.
pub(crate) fn write_ascii(text: &mut String, json: &str) -> Result<(), AllocError>
    ensures { OnOk result (string_bytes text.new ≡ string_bytes text.old ++ ascii json.now) }
{
    for c in json.chars() {
        write_character(text, c)?;
    }
    Ok(())
}

fn write_character(text: &mut String, c: char) -> Result<(), AllocError>
    ensures { OnOk result (string_bytes text.new ≡ string_bytes text.old ++ ascii_character c) }
{
    let code = u32::from(c);
    if c != '<' && code < 127 {
        text.push(c)
    } else if code < 0x1_0000 {
        write_unit(text, code)
    } else {
        write_pair(text, code - 0x1_0000)
    }
}

/// Writes a character above U+FFFF, by its distance from there.
fn write_pair(text: &mut String, rest: u32) -> Result<(), AllocError>
    requires { rest < 1_048_576 }
    ensures { OnOk result (string_bytes text.new ≡ string_bytes text.old ++ pair_text rest) }
{
    write_unit(text, 0xd800 + rest / 1_024)?;
    write_unit(text, 0xdc00 + rest % 1_024)
}

/// Writes a unit of UTF-16.
fn write_unit(text: &mut String, unit: u32) -> Result<(), AllocError>
    ensures { OnOk result (string_bytes text.new ≡ string_bytes text.old ++ unit_text unit) }
{
    text.push_str("\\u")?;
    text.push_str(zeros(unit))?;
    write!(text, "{unit:x}")
}

/// What stands before the digits of a unit, of which there are four in all.
fn zeros(unit: u32) -> &'static str
    ensures { result.now ≡ zeros unit }
{
    if unit < 16 {
        "000"
    } else if unit < 256 {
        "00"
    } else if unit < 4_096 {
        "0"
    } else {
        ""
    }
}
