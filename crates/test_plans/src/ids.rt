//! Ids from outside: worked examples of the format, ids of parts, and what each fault prints.
use crate::same::{prints, same};
use ext_ids::{IdFault, PartFault, UniqueId};
use std::alloc::{AllocError, Global};
use std::process::Abort;
use std::test::Fail;

/// Writes how many segments the id has, each segment's type and value, and the id as it is written
/// behind that.
fn write_id(id: &UniqueId, told: &mut String) -> Result<(), AllocError> {
    write!(told, "{}", id.len())?;
    for i in 0..id.len() {
        let (kind, value) = id.segment(i);
        write!(told, " {kind} = {value},")?;
    }
    told.push_str(" ")?;
    id.write_to(told)
}

/// What is written of the id that a text spells; or the line of the text's fault.
fn told(alloc: Global, text: &str) -> Result<String, AllocError> {
    match UniqueId::parse(alloc, text) {
        Ok(id) => id_told(alloc, &id),
        Err(fault) => fault.to_string(alloc),
    }
}

/// What is written of an id.
fn id_told(alloc: Global, id: &UniqueId) -> Result<String, AllocError> {
    let mut told = String::new(alloc);
    write_id(id, &mut told)?;
    Ok(told)
}

/// Asserts what is told of a text.
fn tells(rt: &impl Abort, alloc: Global, text: &str, wanted: &str) -> Result<(), AllocError> {
    let told = told(alloc, text)?;
    same(rt, told.as_str(), wanted, text);
    Ok(())
}

/// Texts, with what is told of each.
const TEXTS: [(&str, &str); 10] = [
    (
        "[engine:x]/[class:a%2Fb]",
        "2 engine = x, class = a/b, [engine:x]/[class:a%2Fb]",
    ),
    (
        "[%25%2B%5B:%5D%3A%2F]/[größe:日本 %25%25]",
        "2 %+[ = ]:/, größe = 日本 %%, [%25%2B%5B:%5D%3A%2F]/[größe:日本 %25%25]",
    ),
    ("", "id: I1"),
    ("[engine:x]/", "id: I2 at 11"),
    ("[engine]", "id: I3 at 7"),
    ("[engine:x", "id: I4 at 9"),
    ("[engine:a%2fb]", "id: I5 at 9"),
    ("[engine:a+b]", "id: I6 at 9"),
    ("[a:b]x", "id: I6 at 5"),
    ("[engine:]", "id: I7 at 8"),
];

/// Texts that are ids have their segments and are written as they were read, and each other text
/// has its first fault.
/// Tests `UniqueId::parse`, `UniqueId::write`, `UniqueId::write_to`, `UniqueId::segment` and
/// `UniqueId::len`.
#[test]
fn ids_and_their_faults(rt: HostRuntime) -> Result<(), Fail> {
    for (text, wanted) in TEXTS.iter() {
        tells(&rt, rt.alloc(), text, wanted)?;
    }
    prints(&rt, rt.alloc(), &IdFault::Memory, "id: I9")?;
    Ok(())
}

/// What is written of an id that is made; or the line of the parts' fault.
fn made_told(alloc: Global, made: Result<UniqueId, PartFault>) -> Result<String, AllocError> {
    match made {
        Ok(id) => id_told(alloc, &id),
        Err(fault) => fault.to_string(alloc),
    }
}

/// Asserts what is told of the id of these parts.
fn makes(
    rt: &impl Abort,
    alloc: Global,
    parts: &[(&str, &str)],
    wanted: &str,
) -> Result<(), AllocError> {
    let told = made_told(alloc, UniqueId::from_parts(alloc, parts))?;
    same(rt, told.as_str(), wanted, wanted);
    Ok(())
}

/// The id of 16 segments, as it is written.
const LONGEST: &str =
    "[a:b]/[a:b]/[a:b]/[a:b]/[a:b]/[a:b]/[a:b]/[a:b]/[a:b]/[a:b]/[a:b]/[a:b]/[a:b]/[a:b]/[a:b]/[a:b]";

/// Two parts, with what is told of their id.
const PARTS: [(&str, &str, &str, &str, &str); 6] = [
    (
        "engine",
        "x",
        "class",
        "a/b",
        "2 engine = x, class = a/b, [engine:x]/[class:a%2Fb]",
    ),
    (
        "%+[",
        "]:/",
        "größe",
        "日本 case[1]",
        "2 %+[ = ]:/, größe = 日本 case[1], [%25%2B%5B:%5D%3A%2F]/[größe:日本 case%5B1%5D]",
    ),
    ("", "", "", "", "id: part 0 has no type"),
    ("a", "", "", "b", "id: part 0 has no value"),
    ("a", "b", "", "", "id: part 1 has no type"),
    ("a", "b", "c", "", "id: part 1 has no value"),
];

/// Parts with any characters make an id that escapes them, and empty parts, none at all, and more
/// than 16 have their fault.
/// Tests `UniqueId::from_parts`.
#[test]
fn ids_of_parts(rt: HostRuntime) -> Result<(), Fail> {
    let alloc = rt.alloc();
    for (kind, value, second_kind, second_value, wanted) in &PARTS {
        let parts = [(*kind, *value), (*second_kind, *second_value)];
        makes(&rt, alloc, parts.as_slice(), wanted)?;
    }
    makes(&rt, alloc, [].as_slice(), "id: no part")?;
    let parts = [("a", "b"); 17];
    makes(&rt, alloc, parts.as_slice(), "id: more than 16 parts")?;
    let longest = UniqueId::from_parts(alloc, &parts[..16])?;
    let text = longest.write(alloc)?;
    same(&rt, text.as_str(), LONGEST, "16 parts");
    prints(&rt, alloc, &PartFault::Memory, "id: I9")?;
    Ok(())
}

/// Asserts what is told of the id that a text spells, with one part more.
fn appends(
    rt: &impl Abort,
    alloc: Global,
    text: &str,
    part: (&str, &str),
    wanted: &str,
) -> Result<(), Fail> {
    let id = UniqueId::parse(alloc, text)?;
    let told = made_told(alloc, id.append(alloc, part.0, part.1))?;
    same(rt, told.as_str(), wanted, wanted);
    Ok(())
}

/// A part is appended with its marks escaped, and an empty part, or one behind 16, has its fault.
/// Tests `UniqueId::append`.
#[test]
fn segments_are_appended(rt: HostRuntime) -> Result<(), Fail> {
    let alloc = rt.alloc();
    let child = "2 engine = x, case = case[1], [engine:x]/[case:case%5B1%5D]";
    appends(&rt, alloc, "[engine:x]", ("case", "case[1]"), child)?;
    appends(
        &rt,
        alloc,
        "[engine:x]",
        ("", "b"),
        "id: part 1 has no type",
    )?;
    appends(
        &rt,
        alloc,
        "[engine:x]",
        ("a", ""),
        "id: part 1 has no value",
    )?;
    appends(&rt, alloc, LONGEST, ("", ""), "id: more than 16 parts")
}

/// Whether the first id is the parent of the second, whether they are equal, and whether a copy of
/// the first is the first.
fn compared(alloc: Global, first: &str, second: &str) -> Result<(bool, bool, bool), Fail> {
    let first = UniqueId::parse(alloc, first)?;
    compared_with(alloc, &first, second)
}

/// Whether the id is the parent of the one that the text spells, whether they are equal, and
/// whether a copy of it is the id.
fn compared_with(alloc: Global, id: &UniqueId, text: &str) -> Result<(bool, bool, bool), Fail> {
    let is_same = is_copied(id)?;
    let other = UniqueId::parse(alloc, text)?;
    Ok((id.is_parent_of(&other), *id == other, is_same))
}

/// Whether a copy of the id is the id.
fn is_copied(id: &UniqueId) -> Result<bool, AllocError> {
    let copy = id.clone()?;
    Ok(copy == *id)
}

/// Two ids, with whether the first is the parent of the second, and whether they are equal.
const PAIRS: [(&str, &str, bool, bool); 5] = [
    ("[engine:x]", "[engine:x]/[class:a%2Fb]", true, false),
    ("[engine:x]/[class:a%2Fb]", "[engine:x]", false, false),
    ("[engine:x]", "[engine:x]", false, true),
    (
        "[engine:x]",
        "[engine:x]/[class:A]/[method:m()]",
        false,
        false,
    ),
    (
        "[engine:x]/[class:a%2Fb]",
        "[engine:x]/[class:a]",
        false,
        false,
    ),
];

/// An id is the parent of its children alone, equals itself alone, and is equal to its copy.
/// Tests `UniqueId::is_parent_of`.
#[test]
fn knows_children_and_copies(rt: HostRuntime) -> Result<(), Fail> {
    for (first, second, is_parent, are_equal) in &PAIRS {
        let answers = compared(rt.alloc(), first, second)?;
        same(&rt, answers, (*is_parent, *are_equal, true), second);
    }
    Ok(())
}
