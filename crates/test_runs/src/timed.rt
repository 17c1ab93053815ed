//! Reports of nodes whose times and attempts are known. `scripts/parts/junit.py` reads the one in
//! JUnit's XML, and knows what the engine knew.
use crate::opening::same;
use ext_engine::read_ids;
use ext_model::{ContextNo, Fault};
use ext_report::{
    Extra, NodeResult, Status, json_report_with, junit_report_with, report_text_with,
    slowest_tests, tree_report_with,
};
use ext_tree::Tree;
use std::alloc::Global;
use std::process::Abort;
use std::test::Fail;

/// The contexts.
const CONTEXTS: [&str; 7] = [
    "[engine:x]",
    "[engine:x]/[class:A]",
    "[engine:x]/[class:A]/[method:a()]",
    "[engine:x]/[class:A]/[method:b()]",
    "[engine:x]/[class:A]/[method:c()]",
    "[engine:x]/[class:B]",
    "[engine:x]/[class:B]/[method:d()]",
];

/// What is known of them: of the fifth no time, and of the last one nothing.
const KNOWN: [(Option<u64>, u32); 6] = [
    (Some(3_661_999), 2),
    (Some(1304), 0),
    (Some(1234), 3),
    (Some(70), 2),
    (None, 1),
    (Some(2005), 1),
];

/// These times and attempts.
fn extras_of(alloc: Global, rows: &[(Option<u64>, u32)]) -> Result<Vec<Extra>, Fail> {
    let mut extras = Vec::new(alloc);
    for (millis, attempt) in rows {
        extras.push(Extra {
            millis: *millis,
            attempt: *attempt,
        })?;
    }
    Ok(extras)
}

/// A result with this status and fault; an empty one is none.
fn ended(
    alloc: Global,
    node: ContextNo,
    is_test: bool,
    status: Status,
    fault: &str,
) -> Result<NodeResult, Fail> {
    let text = String::from_str(alloc, fault)?;
    let mut result = NodeResult::skipped(node, is_test);
    result.status = status;
    result.fault = if fault.is_empty() {
        None
    } else {
        Some(Fault::Text(text))
    };
    Ok(result)
}

/// The results of the contexts.
fn results(alloc: Global) -> Result<Vec<NodeResult>, Fail> {
    let mut results = Vec::new(alloc);
    results.push(ended(alloc, 0, false, Status::Successful, "")?)?;
    results.push(ended(alloc, 1, false, Status::Successful, "")?)?;
    results.push(ended(alloc, 2, true, Status::Successful, "")?)?;
    results.push(ended(alloc, 3, true, Status::Failed, "too <late>")?)?;
    results.push(ended(alloc, 4, true, Status::Successful, "")?)?;
    results.push(ended(alloc, 5, false, Status::Failed, "no close")?)?;
    results.push(ended(alloc, 6, true, Status::Skipped, "")?)?;
    Ok(results)
}

/// The report in JUnit's XML.
const IN_XML: &str = r#"<?xml version="1.0" encoding="UTF-8"?>
<testsuites time="3661.999" tests="5" failures="2" errors="0" skipped="1">
  <testsuite name="A" time="1.304" tests="3" failures="1" errors="0" skipped="0">
    <testcase classname="A" name="a()" time="1.234"><flakyFailure type="failed" message="not &lt;yet&gt;"><stackTrace>not &lt;yet&gt;&#10;no</stackTrace></flakyFailure><flakyFailure type="failed" message="failed at attempt 2"/></testcase>
    <testcase classname="A" name="b()" time="0.070"><failure type="failed" message="too &lt;late&gt;">too &lt;late&gt;</failure></testcase>
    <testcase classname="A" name="c()"></testcase>
  </testsuite>
  <testsuite name="B" time="2.005" tests="2" failures="1" errors="0" skipped="1">
    <testcase classname="B" name="B"><failure type="failed" message="no close">no close</failure></testcase>
    <testcase classname="B" name="d()"><skipped/></testcase>
  </testsuite>
</testsuites>
"#;

/// The report as text.
const IN_TEXT: &str = "[engine:x] successful closed 0 took 3661.999 s flaky, passed at attempt 2
[engine:x]/[class:A] successful closed 0 took 1.304 s
[engine:x]/[class:A]/[method:a()] successful closed 0 took 1.234 s flaky, passed at attempt 3
[engine:x]/[class:A]/[method:b()] failed closed 0 took 0.070 s: too <late>
[engine:x]/[class:A]/[method:c()] successful closed 0
[engine:x]/[class:B] failed closed 0 took 2.005 s: no close
[engine:x]/[class:B]/[method:d()] skipped closed 0
tests 4 successful 2 aborted 0 failed 1 skipped 1
computed 0 found 0 closed 0 close faults 0
";

/// The report as JSON lines.
const IN_JSON: &str =
    r#"{"id":"[engine:x]","test":false,"status":"successful","fault":null,"more":0,"computed":0,"found":0,"closed":0,"close_faults":0,"millis":3661999,"attempt":2}
{"id":"[engine:x]/[class:A]","test":false,"status":"successful","fault":null,"more":0,"computed":0,"found":0,"closed":0,"close_faults":0,"millis":1304}
{"id":"[engine:x]/[class:A]/[method:a()]","test":true,"status":"successful","fault":null,"more":0,"computed":0,"found":0,"closed":0,"close_faults":0,"millis":1234,"attempt":3}
{"id":"[engine:x]/[class:A]/[method:b()]","test":true,"status":"failed","fault":"too <late>","more":0,"computed":0,"found":0,"closed":0,"close_faults":0,"millis":70}
{"id":"[engine:x]/[class:A]/[method:c()]","test":true,"status":"successful","fault":null,"more":0,"computed":0,"found":0,"closed":0,"close_faults":0}
{"id":"[engine:x]/[class:B]","test":false,"status":"failed","fault":"no close","more":0,"computed":0,"found":0,"closed":0,"close_faults":0,"millis":2005}
{"id":"[engine:x]/[class:B]/[method:d()]","test":true,"status":"skipped","fault":null,"more":0,"computed":0,"found":0,"closed":0,"close_faults":0}
{"version":1,"totals":{"tests":4,"successful":2,"aborted":0,"failed":1,"skipped":1,"computed":0,"found":0,"closed":0,"close_faults":0}}
"#;

/// The report as a tree.
const IN_A_TREE: &str = "engine:x successful closed 0 took 3661.999 s flaky, passed at attempt 2
  class:A successful closed 0 took 1.304 s
    method:a() successful closed 0 took 1.234 s flaky, passed at attempt 3
    method:b() failed closed 0 took 0.070 s: too <late>
    method:c() successful closed 0
  class:B failed closed 0 took 2.005 s: no close
    method:d() skipped closed 0
tests 4 successful 2 aborted 0 failed 1 skipped 1
computed 0 found 0 closed 0 close faults 0
";

/// What the first attempt of context 2 said; of its second nothing is known.
fn said(alloc: Global) -> Result<Vec<String>, Fail> {
    let mut said = Vec::new(alloc);
    said.push(String::from_str(alloc, "not <yet>\nno")?)?;
    Ok(said)
}

/// Asserts what the reports of these results tell.
fn tells<R: Abort>(rt: &R, alloc: Global, tree: &Tree, results: &[NodeResult]) -> Result<(), Fail> {
    assert!(rt; results.iter().all(|r| r.node < tree.len()));
    let extras = extras_of(alloc, &KNOWN)?;
    let said = said(alloc)?;
    let nothing: &[String] = &[];
    let earlier = [nothing, nothing, said.as_slice()];
    let xml = junit_report_with(alloc, tree, results, &extras, &earlier)?;
    same(rt, xml.as_str(), IN_XML, "the report in XML");
    let text = report_text_with(alloc, tree, results, &extras)?;
    same(rt, text.as_str(), IN_TEXT, "the report as text");
    let drawn = tree_report_with(alloc, tree, results, &extras)?;
    same(rt, drawn.as_str(), IN_A_TREE, "the tree");
    Ok(())
}

/// Asserts what the report of these results as JSON lines tells.
fn tells_lines<R: Abort>(
    rt: &R,
    alloc: Global,
    tree: &Tree,
    results: &[NodeResult],
) -> Result<(), Fail> {
    assert!(rt; results.iter().all(|r| r.node < tree.len()));
    let extras = extras_of(alloc, &KNOWN)?;
    let lines = json_report_with(alloc, tree, results, &extras)?;
    same(
        rt,
        lines.as_slice(),
        IN_JSON.as_bytes(),
        "the report as JSON lines",
    );
    Ok(())
}

/// Of seven nodes some have a time or an attempt, which the reports in JUnit's XML, as text, as a
/// tree and as JSON lines tell.
/// Tests `junit_report_with`, `json_report_with`, `report_text_with` and `tree_report_with`.
#[test]
fn reports_with_times_and_attempts(rt: HostRuntime) -> Result<(), Fail> {
    let ids = read_ids(rt.alloc(), &CONTEXTS)?;
    let tree = Tree::build(rt.alloc(), ids.as_slice())?;
    let results = results(rt.alloc())?;
    tells(&rt, rt.alloc(), &tree, results.as_slice())?;
    tells_lines(&rt, rt.alloc(), &tree, results.as_slice())
}

/// The times of these contexts, where two tests took as long.
const TIES: [(Option<u64>, u32); 7] = [
    (Some(9000), 0),
    (Some(8000), 0),
    (Some(5), 0),
    (Some(1999), 0),
    (Some(2000), 0),
    (None, 0),
    (Some(1999), 0),
];

/// Asserts which tests are told as the slowest, so many at most.
fn slowest_are<R: Abort>(
    rt: &R,
    alloc: Global,
    tree: &Tree,
    results: &[NodeResult],
    most: usize,
    wanted: &str,
) -> Result<(), Fail> {
    assert!(rt; results.iter().all(|r| r.node < tree.len()));
    let extras = extras_of(alloc, &TIES)?;
    let told = slowest_tests(alloc, tree, results, &extras, most)?;
    same(rt, told.as_str(), wanted, "the slowest tests");
    Ok(())
}

/// The four tests, whose containers took longer.
const SLOWEST: &str = "took 2.000 s [engine:x]/[class:A]/[method:c()]
took 1.999 s [engine:x]/[class:A]/[method:b()]
took 1.999 s [engine:x]/[class:B]/[method:d()]
took 0.005 s [engine:x]/[class:A]/[method:a()]
";

/// Of four tests as many as are asked for are told, the slowest first, and of two that took as long
/// the first in the tree; containers are not told.
/// Tests `slowest_tests`.
#[test]
fn slowest_tests_first(rt: HostRuntime) -> Result<(), Fail> {
    let ids = read_ids(rt.alloc(), &CONTEXTS)?;
    let tree = Tree::build(rt.alloc(), ids.as_slice())?;
    let results = results(rt.alloc())?;
    slowest_are(&rt, rt.alloc(), &tree, results.as_slice(), 9, SLOWEST)?;
    let first = "took 2.000 s [engine:x]/[class:A]/[method:c()]\n";
    slowest_are(&rt, rt.alloc(), &tree, results.as_slice(), 1, first)?;
    slowest_are(&rt, rt.alloc(), &tree, results.as_slice(), 0, "")
}
