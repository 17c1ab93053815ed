//! The report of a run in JUnit's XML.
ghost use Rattle.std.specs.Prelude.{◌≡◌, ◌<◌, ◌++◌, length, map, option_map, string_bytes, All, IfOk, OnOk, Some, slice_get};
ghost use Rattle.std.specs.List.{flat_map};
ghost use Rattle.ext_lifecycle.specs.FaultTexts.{fault_text, result_view, results_view};
ghost use Rattle.ext_report.specs.Extras.{earlier_of, texts_view};
ghost use Rattle.ext_report.specs.InnerSuites.{cases_view, suite_if_filled, suite_with};
ghost use Rattle.ext_report.specs.JunitCases.{case_element, case_end, case_time, ending_element, fault_element, first_line, flaky_element, flaky_elements, further_line, said_element, suite_name, time_attribute};
ghost use Rattle.ext_report.specs.JunitXml.{junit_with, junit_xml, suite_time};
ghost use Rattle.ext_tree.specs.Trees.{id_at};

use crate::cases::{CaseCounts, cases_by_suite};
use crate::extra::{Extra, extra_of, write_seconds};
use crate::line::fault_text;
use crate::names::{suite_name, write_case_name};
use crate::xml::write_xml;
use ext_lifecycle::{NodeResult, Status};
use ext_model::{ContextNo, Fault};
use ext_tree::Tree;
use std::alloc::{AllocError, Global};

/// Returns the report of results in JUnit's XML, as servers of continuous integration read it. Each
/// result is of a context of the tree. A context may have no result, or several.
///
/// Each context whose children have tests is a suite, and each of these tests a case of it. A
/// container that failed or aborted itself is a case of its own suite. A suite, and the class of its
/// cases, is named by the values of the segments of the context's id below the engine, joined by
/// dots, and a case by the value of the last segment of its id. The fault of a failed node is the
/// text of a `failure`, and that of an aborted or a skipped one the text of a `skipped`; its first
/// line is the message.
///
/// Takes memory for the text and for a list of each suite's cases, and fails with `AllocError` only
/// if that is refused.
pub fn junit_report(
    alloc: Global,
    tree: &Tree,
    results: &[NodeResult],
) -> Result<String, AllocError>
    requires in_tree { All (λ r. r.node < length tree.now) results.now }
    ensures { IfOk result
        (λ text. string_bytes text ≡ junit_xml tree.now (results_view results.now)) }
{
    junit_report_with(alloc, tree, results, &[], &[])
}

/// Returns the report of results in JUnit's XML as `junit_report` does, with what is known of the
/// nodes beside their results, and of what their attempts before the last said. Extras and texts of
/// attempts stand in the order of the contexts; there may be fewer, or none.
///
/// Where a node's time is known, the suite of its context has it, and so has the case of a test.
/// The time of context 0 is that of all suites. A successful case that took several attempts has a
/// `flakyFailure` for each before the last: where it is known what the attempt said, with the first
/// line of that for its message, and all of it in a `stackTrace`.
pub fn junit_report_with(
    alloc: Global,
    tree: &Tree,
    results: &[NodeResult],
    extras: &[Extra],
    earlier: &[&[String]],
) -> Result<String, AllocError>
    requires in_tree { All (λ r. r.node < length tree.now) results.now }
    ensures { IfOk result
        (λ text. string_bytes text ≡ junit_with extras.now (texts_view earlier.now) tree.now (results_view results.now)) }
{
    let suites = cases_by_suite(alloc, tree, results)?;
    let mut text = String::new(alloc);
    text.push_str("<?xml version=\"1.0\" encoding=\"UTF-8\"?>\n<testsuites")?;
    write_suite_time(&mut text, extras, 0)?;
    CaseCounts::among(results).write_to(&mut text)?;
    for suite in 0..tree.len() {
        let cases = suites[suite].as_slice();
        write_suite(alloc, &mut text, extras, earlier, tree, cases, suite)?;
    }
    text.push_str("</testsuites>\n")?;
    Ok(text)
}

/// Writes the suite of a context with these cases at the end of a text, if it has a case.
fn write_suite(
    alloc: Global,
    text: &mut String,
    extras: &[Extra],
    earlier: &[&[String]],
    tree: &Tree,
    cases: &[&NodeResult],
    suite: ContextNo,
) -> Result<(), AllocError>
    requires suite { suite < length tree.now }
    requires in_tree { All (λ r. r.node < length tree.now) (cases_view cases.now) }
    ensures { OnOk result
        (string_bytes text.new ≡ string_bytes text.old ++ suite_if_filled extras.now (texts_view earlier.now) tree.now suite (cases_view cases.now)) }
{
    if cases.is_empty() {
        return Ok(());
    }
    write_filled_suite(alloc, text, extras, earlier, tree, cases, suite)?;
    Ok(())
}

/// Writes a suite with these cases at the end of a text.
fn write_filled_suite(
    alloc: Global,
    text: &mut String,
    extras: &[Extra],
    earlier: &[&[String]],
    tree: &Tree,
    cases: &[&NodeResult],
    suite: ContextNo,
) -> Result<(), AllocError>
    requires suite { suite < length tree.now }
    requires in_tree { All (λ r. r.node < length tree.now) (cases_view cases.now) }
    ensures { OnOk result
        (string_bytes text.new ≡ string_bytes text.old ++ suite_with extras.now (texts_view earlier.now) tree.now suite (cases_view cases.now)) }
{
    let name = suite_name(alloc, tree.id(suite))?;
    text.push_str("  <testsuite name=\"")?;
    text.push_str(name.as_str())?;
    text.push_str("\"")?;
    write_suite_time(text, extras, suite)?;
    CaseCounts::of(cases).write_to(text)?;
    write_cases(text, extras, earlier, tree, cases, name.as_str())?;
    text.push_str("  </testsuite>\n")?;
    Ok(())
}

/// Writes the time of a context's suite at the end of a text, where it is known.
fn write_suite_time(text: &mut String, extras: &[Extra], suite: ContextNo) -> Result<(), AllocError>
    ensures { OnOk result
        (string_bytes text.new ≡ string_bytes text.old ++ suite_time extras.now suite) }
{
    let extra = extra_of(extras, suite);
    write_time(text, extra.millis)
}

/// Writes a time as an attribute at the end of a text, where it is known.
fn write_time(text: &mut String, millis: Option<u64>) -> Result<(), AllocError>
    ensures { OnOk result (string_bytes text.new ≡ string_bytes text.old ++ time_attribute millis) }
{
    match millis {
        None => Ok(()),
        Some(millis) => {
            text.push_str(" time=\"")?;
            write_seconds(text, u128::from(millis))?;
            text.push_str("\"")
        }
    }
}

/// Writes the cases of a suite with this name at the end of a text.
fn write_cases(
    text: &mut String,
    extras: &[Extra],
    earlier: &[&[String]],
    tree: &Tree,
    cases: &[&NodeResult],
    suite: &str,
) -> Result<(), AllocError>
    requires in_tree { All (λ r. r.node < length tree.now) (cases_view cases.now) }
    ensures { OnOk result
        (string_bytes text.new ≡ string_bytes text.old ++ flat_map (case_element extras.now (texts_view earlier.now) tree.now suite.now) (cases_view cases.now)) }
{
    for case in cases {
        write_case(text, extras, earlier, tree, suite, case)?;
    }
    Ok(())
}

/// Writes a case of a suite with this name at the end of a text.
fn write_case(
    text: &mut String,
    extras: &[Extra],
    earlier: &[&[String]],
    tree: &Tree,
    suite: &str,
    node: &NodeResult,
) -> Result<(), AllocError>
    requires in_tree { node.now.node < length tree.now }
    ensures { OnOk result
        (string_bytes text.new ≡ string_bytes text.old ++ case_element extras.now (texts_view earlier.now) tree.now suite.now (result_view node.now)) }
{
    text.push_str("    <testcase classname=\"")?;
    text.push_str(suite)?;
    text.push_str("\" name=\"")?;
    write_case_name(text, tree.id(node.node))?;
    let said = earlier_of(earlier, node.node);
    write_case_end(text, extra_of(extras, node.node), said, node)?;
    Ok(())
}

/// What the attempts of a node before its last said: nothing past the end of the list.
fn earlier_of<'a>(earlier: &[&'a [String]], node: ContextNo) -> &'a [String]
    ensures { map string_bytes result.now ≡ earlier_of (texts_view earlier.now) node }
{
    match earlier.get(node) {
        Some(said) => said,
        None => &[],
    }
}

/// Writes what follows a case's name at the end of a text: its attempts before the last said this.
fn write_case_end(
    text: &mut String,
    extra: Extra,
    said: &[String],
    node: &NodeResult,
) -> Result<(), AllocError>
    ensures { OnOk result
        (string_bytes text.new ≡ string_bytes text.old
        ++ case_end extra (map string_bytes said.now) (result_view node.now)) }
{
    text.push_str("\"")?;
    write_case_time(text, node.is_test, extra.millis)?;
    text.push_str(">")?;
    write_ending(text, extra.attempt, said, node)?;
    text.push_str("</testcase>\n")?;
    Ok(())
}

/// Writes the time of a case at the end of a text, if it is a test, and where its time is known.
fn write_case_time(text: &mut String, is_test: bool, millis: Option<u64>) -> Result<(), AllocError>
    ensures { OnOk result
        (string_bytes text.new ≡ string_bytes text.old ++ case_time is_test millis) }
{
    if is_test {
        return write_time(text, millis);
    }
    Ok(())
}

/// Writes how a case ended at the end of a text: of a successful one, the attempts before it passed.
fn write_ending(
    text: &mut String,
    attempt: u32,
    said: &[String],
    node: &NodeResult,
) -> Result<(), AllocError>
    ensures { OnOk result
        (string_bytes text.new ≡ string_bytes text.old
        ++ ending_element (map string_bytes said.now) attempt node.now.status (option_map fault_text node.now.fault) node.now.more) }
{
    match node.status {
        Status::Successful => write_flaky(text, said, attempt.saturating_sub(1)),
        Status::Aborted | Status::Skipped => write_fault_if_any(text, "skipped", "", node),
        Status::Failed => write_fault_if_any(text, "failure", " type=\"failed\"", node),
    }
}

/// Writes an element for each of the first attempts, so many, which said this, at the end of a text.
fn write_flaky(text: &mut String, said: &[String], attempts: u32) -> Result<(), AllocError>
    ensures { OnOk result
        (string_bytes text.new ≡ string_bytes text.old ++ flaky_elements (map string_bytes said.now) attempts) }
{
    for before in 0..attempts {
        write_failed_attempt(text, before + 1, said_at(said, before as usize))?;
    }
    Ok(())
}

/// What the attempt at this index said, if that is known.
fn said_at(said: &[String], index: usize) -> Option<&str>
    ensures { option_map (λ said. said.now) result ≡ slice_get (map string_bytes said.now) index }
{
    match said.get(index) {
        Some(said) => Some(said.as_str()),
        None => None,
    }
}

/// Writes the element of an attempt that failed at the end of a text, with what it said.
fn write_failed_attempt(
    text: &mut String,
    attempt: u32,
    said: Option<&str>,
) -> Result<(), AllocError>
    ensures { OnOk result
        (string_bytes text.new ≡ string_bytes text.old
        ++ flaky_element attempt (option_map (λ said. said.now) said.entry)) }
{
    match said {
        None => write!(
            text,
            "<flakyFailure type=\"failed\" message=\"failed at attempt {attempt}\"/>"
        ),
        Some(said) => write_said(text, said),
    }
}

/// Writes the element of an attempt that failed and said this at the end of a text.
fn write_said(text: &mut String, said: &str) -> Result<(), AllocError>
    ensures { OnOk result (string_bytes text.new ≡ string_bytes text.old ++ said_element said.now) }
{
    text.push_str("<flakyFailure type=\"failed\" message=\"")?;
    write_xml(text, first_line(said))?;
    text.push_str("\"><stackTrace>")?;
    write_xml(text, said)?;
    text.push_str("</stackTrace></flakyFailure>")?;
    Ok(())
}

/// Writes an element with a node's fault, if it has one, at the end of a text. The attribute of the
/// element's type may be empty.
fn write_fault_if_any(
    text: &mut String,
    name: &str,
    kind: &str,
    node: &NodeResult,
) -> Result<(), AllocError>
    ensures { OnOk result
        (string_bytes text.new ≡ string_bytes text.old
        ++ fault_element name.now kind.now (option_map fault_text node.now.fault) node.now.more) }
{
    match &node.fault {
        None => write!(text, "<{name}{kind}/>"),
        Some(fault) => write_fault(text, name, kind, fault, node.more),
    }
}

/// Writes an element with a fault, and how many others there are, at the end of a text.
fn write_fault(
    text: &mut String,
    name: &str,
    kind: &str,
    fault: &Fault,
    more: u64,
) -> Result<(), AllocError>
    ensures { OnOk result
        (string_bytes text.new ≡ string_bytes text.old
        ++ fault_element name.now kind.now (Some (fault_text fault.now)) more) }
{
    let words = fault_text(fault);
    write!(text, "<{name}{kind} message=\"")?;
    write_xml(text, first_line(words))?;
    text.push_str("\">")?;
    write_xml(text, words)?;
    write_further_line(text, more)?;
    write!(text, "</{name}>")?;
    Ok(())
}

/// The first line of a text.
fn first_line(text: &str) -> &str
    ensures { result.now ≡ first_line text.now }
{
    match text.split_once('\n') {
        None => text,
        Some((first, _)) => first,
    }
}

/// Writes how many other faults there are, if any, on a line of their own at the end of a text.
fn write_further_line(text: &mut String, more: u64) -> Result<(), AllocError>
    ensures { OnOk result (string_bytes text.new ≡ string_bytes text.old ++ further_line more) }
{
    if more != 0 {
        write!(text, "&#10;(+{more})")?;
    }
    Ok(())
}
