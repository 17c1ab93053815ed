//! Texts in XML.
ghost use Rattle.std.specs.Prelude.{◌≡◌, ◌++◌, string_bytes, OnOk};
ghost use Rattle.ext_report.specs.Xml.{xml_character, xml_text};

use std::alloc::AllocError;

/// Writes a text at the end of XML, inside of an attribute or an element.
pub(crate) fn write_xml(xml: &mut String, text: &str) -> Result<(), AllocError>
    ensures { OnOk result (string_bytes xml.new ≡ string_bytes xml.old ++ xml_text text.now) }
{
    for c in text.chars() {
        write_character(xml, c)?;
    }
    Ok(())
}

/// Writes a character at the end of XML.
fn write_character(xml: &mut String, c: char) -> Result<(), AllocError>
    ensures { OnOk result (string_bytes xml.new ≡ string_bytes xml.old ++ xml_character c) }
{
    match c {
        '&' => xml.push_str("&amp;"),
        '<' => xml.push_str("&lt;"),
        '>' => xml.push_str("&gt;"),
        '"' => xml.push_str("&quot;"),
        '\t' => xml.push_str("&#9;"),
        '\n' => xml.push_str("&#10;"),
        '\r' => xml.push_str("&#13;"),
        '\0'..='\x1F' | '\u{FFFE}' | '\u{FFFF}' => xml.push('\u{FFFD}'),
        _ => xml.push(c),
    }
}
