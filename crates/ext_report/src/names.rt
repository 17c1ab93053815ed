//! The names of suites and cases in JUnit's XML.
ghost use Rattle.std.specs.Prelude.{◌≡◌, ◌++◌, codes, string_bytes, IfOk, OnOk};
ghost use Rattle.ext_report.specs.JunitCases.{case_name, class_name, suite_name};

use crate::xml::write_xml;
use ext_ids::UniqueId;
use std::alloc::{AllocError, Global};

/// The name of a context's suite, as it is written in XML. Takes memory for it.
pub(crate) fn suite_name(alloc: Global, id: &UniqueId) -> Result<String, AllocError>
    ensures { IfOk result (λ name. string_bytes name ≡ suite_name id.now) }
{
    let class = class_name(alloc, id)?;
    let mut name = String::new(alloc);
    write_xml(&mut name, class.as_str())?;
    Ok(name)
}

/// Writes the name of a case, which is the value of the last segment of its id, at the end of XML.
pub(crate) fn write_case_name(xml: &mut String, id: &UniqueId) -> Result<(), AllocError>
    ensures { OnOk result (string_bytes xml.new ≡ string_bytes xml.old ++ case_name id.now) }
{
    let (_, value) = id.segment(id.len() - 1);
    write_xml(xml, value)?;
    Ok(())
}

/// The values of an id's segments below the engine, joined by dots: of an id of one segment the
/// engine's own.
fn class_name(alloc: Global, id: &UniqueId) -> Result<String, AllocError>
    ensures { IfOk result (λ name. string_bytes name ≡ class_name id.now) }
{
    let mut name = String::new(alloc);
    if id.len() == 1 {
        name.push_str(id.segment(0).1)?;
        return Ok(name);
    }
    name.push_str(id.segment(1).1)?;
    for further in 2..id.len() {
        write_dotted(&mut name, id.segment(further).1)?;
    }
    Ok(name)
}

/// Writes a dot and a value at the end of a name.
fn write_dotted(name: &mut String, value: &str) -> Result<(), AllocError>
    ensures { OnOk result (string_bytes name.new ≡ string_bytes name.old ++ (codes "." ++ value.now)) }
{
    name.push_str(".")?;
    name.push_str(value)
}
