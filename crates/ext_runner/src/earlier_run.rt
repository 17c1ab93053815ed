//! The tests and the containers that failed in an earlier run.
ghost use Rattle.std.specs.Prelude.{◌≡◌, ◌++◌, true, All, IfOk, is_some, map, option_map, string_bytes};
ghost use Rattle.std.specs.Str.Lines.{lines};
ghost use Rattle.serde_json.specs.Read.{read};
ghost use Rattle.serde_json.specs.View.{view};
ghost use Rattle.ext_runner.specs.InnerEarlierRuns.{failed_id, failed_ids, failed_in, is_failed, one_or_none, text_at};

use serde_json::{Category, Value};
use std::alloc::{AllocError, Global};

/// Why a file tells of no earlier run.
#[derive(Clone, Copy, Debug, PartialEq, Eq)]
pub(crate) enum EarlierFault {
    Memory,
    /// The line of this number, from 1, is no object of a report in JSON.
    Line(usize),
}

/// The ids of the tests that failed in the run of this report, which is one in JSON, or else those of
/// the containers.
pub(crate) fn failed_ids(
    alloc: Global,
    report: &str,
    are_tests: bool,
) -> Result<Vec<String>, EarlierFault>
    ensures ids { IfOk result (λ ids. map string_bytes ids.items ≡ failed_ids are_tests (lines report.now)) }
    ensures all_read { IfOk result (λ ids. All (λ line. is_some (read line) ≡ true) (lines report.now)) }
{
    let mut ids = Vec::new(alloc);
    let mut number: usize = 0;
    for line in report.lines() {
        number = number.saturating_add(1);
        match add_failed(alloc, line, are_tests, &mut ids) {
            Ok(true) => {}
            Ok(false) => return Err(EarlierFault::Line(number)),
            Err(_) => return Err(EarlierFault::Memory),
        }
    }
    Ok(ids)
}

/// Adds the id that the line tells, if it is of a test, or else of a container, that failed. Answers
/// whether the line is JSON.
fn add_failed(
    alloc: Global,
    line: &str,
    are_tests: bool,
    ids: &mut Vec<String>,
) -> Result<bool, AllocError>
    ensures read { IfOk result (λ is_read. is_read ≡ is_some (read line.now)) }
    ensures ids { IfOk result (λ _. map string_bytes ids.new.items ≡ map string_bytes ids.old.items ++ failed_in are_tests (read line.now)) }
{
    match Value::from_str(alloc, line) {
        Ok(object) => {
            push_failed(alloc, &object, are_tests, ids)?;
            Ok(true)
        }
        Err(why) if why.classify() == Category::Memory => Err(AllocError),
        Err(_) => Ok(false),
    }
}

/// Adds the id of the node of this object, if it is such a one and failed.
fn push_failed(
    alloc: Global,
    object: &Value,
    are_tests: bool,
    ids: &mut Vec<String>,
) -> Result<(), AllocError>
    ensures { IfOk result (λ _. map string_bytes ids.new.items ≡ map string_bytes ids.old.items ++ one_or_none (failed_id are_tests (view object.now))) }
{
    match failed_id(object, are_tests) {
        Some(id) => Ok(ids.push(String::from_str(alloc, id)?)?),
        None => Ok(()),
    }
}

/// The id of the node of this object, if it is such a one and failed.
fn failed_id(object: &Value, are_tests: bool) -> Option<&str>
    ensures { option_map (λ id. id.now) result ≡ failed_id are_tests (view object.now) }
{
    let is_test = match object.get("test") {
        Some(is_test) => is_test.as_bool(),
        None => None,
    };
    if is_failed(are_tests, is_test, text_at(object, "status")) {
        text_at(object, "id")
    } else {
        None
    }
}

/// Whether a node is a test, or else a container, and failed.
fn is_failed(are_tests: bool, is_test: Option<bool>, status: Option<&str>) -> bool
    ensures { result ≡ is_failed are_tests is_test (option_map (λ status. status.now) status.entry) }
{
    match (is_test, status) {
        (Some(is_test), Some(status)) => is_test == are_tests && status == "failed",
        _ => false,
    }
}

/// The text of this key.
fn text_at<'a>(object: &'a Value, key: &str) -> Option<&'a str>
    ensures { option_map (λ text. text.now) result ≡ text_at key.now (view object.now) }
{
    match object.get(key) {
        Some(value) => value.as_str(),
        None => None,
    }
}
