//! Reports of worked runs, each from results made by hand.
use crate::same::same;
use crate::trees::push_ids;
use ext_model::{ContextNo, Fault};
use ext_report::{
    NodeResult, Status, any_failed, json_report, leave_out_reserve, report_text, terminal_report,
    tree_report, write_json, write_visible, write_visible_lines,
};
use ext_tree::Tree;
use std::alloc::{AllocError, Global};
use std::process::Abort;
use std::test::Fail;

/// An engine, a class and a test.
const CHAIN: &str = "[engine:x]\n[engine:x]/[class:A]\n[engine:x]/[class:A]/[method:m()]";

/// A result whose fault is a text; an empty one is none.
#[derive(Clone, Copy)]
struct Ended {
    node: ContextNo,
    is_test: bool,
    status: Status,
    fault: &'static str,
    more: u64,
    computed: u64,
    found: u64,
    closed: u64,
    close_faults: u64,
}

/// The root, a container that ended successfully and closed nothing.
const CONTAINER: Ended = Ended {
    node: 0,
    is_test: false,
    status: Status::Successful,
    fault: "",
    more: 0,
    computed: 0,
    found: 0,
    closed: 0,
    close_faults: 0,
};

/// The root, a test that ended successfully and closed nothing.
const TEST: Ended = Ended {
    is_test: true,
    ..CONTAINER
};

/// The fault that is told by this text.
fn fault_of(alloc: Global, text: &str) -> Result<Option<Fault>, AllocError> {
    match text {
        "" => Ok(None),
        "no memory" => Ok(Some(Fault::Memory)),
        _ => Ok(Some(Fault::Text(String::from_str(alloc, text)?))),
    }
}

/// The results.
fn results_of(alloc: Global, rows: &[Ended]) -> Result<Vec<NodeResult>, AllocError> {
    let mut results = Vec::new(alloc);
    for row in rows {
        results.push(NodeResult {
            node: row.node,
            is_test: row.is_test,
            status: row.status,
            fault: fault_of(alloc, row.fault)?,
            more: row.more,
            computed: row.computed,
            found: row.found,
            closed: row.closed,
            close_faults: row.close_faults,
            lacked: false,
        })?;
    }
    Ok(results)
}

/// The contexts with these ids, one a line.
fn tree_of(alloc: Global, ids: &str) -> Result<Tree, Fail> {
    let mut parsed = Vec::new(alloc);
    push_ids(alloc, ids, &mut parsed)?;
    Ok(Tree::build(alloc, parsed.as_slice())?)
}

/// Asserts that the results of the contexts with these ids have this report, and whether a node
/// failed.
fn reports<R: Abort>(
    rt: &R,
    alloc: Global,
    ids: &str,
    rows: &[Ended],
    failed: bool,
    wanted: &str,
) -> Result<(), Fail> {
    let tree = tree_of(alloc, ids)?;
    let results = results_of(alloc, rows)?;
    same(rt, any_failed(results.as_slice()), failed, wanted);
    tells(rt, alloc, &tree, results.as_slice(), wanted)
}

/// Asserts that the results have this report.
fn tells<R: Abort>(
    rt: &R,
    alloc: Global,
    tree: &Tree,
    results: &[NodeResult],
    wanted: &str,
) -> Result<(), Fail> {
    assert!(rt; results.iter().all(|r| r.node < tree.len()));
    let text = report_text(alloc, tree, results)?;
    same(rt, text.as_str(), wanted, "the report");
    Ok(())
}

/// An engine with two classes of two methods each.
const TWO_CLASSES: &str = "[engine:x]
[engine:x]/[class:A]
[engine:x]/[class:A]/[method:m1()]
[engine:x]/[class:A]/[method:m2()]
[engine:x]/[class:B]
[engine:x]/[class:B]/[method:n1()]
[engine:x]/[class:B]/[method:n2()]";

/// The two classes: values were computed and found, and a test was aborted.
const OF_TWO_CLASSES: [Ended; 7] = [
    Ended {
        closed: 1,
        ..CONTAINER
    },
    Ended {
        node: 1,
        computed: 1,
        closed: 1,
        ..CONTAINER
    },
    Ended { node: 2, ..TEST },
    Ended {
        node: 3,
        status: Status::Aborted,
        fault: "later",
        found: 1,
        ..TEST
    },
    Ended {
        node: 4,
        found: 1,
        ..CONTAINER
    },
    Ended {
        node: 5,
        closed: 1,
        ..TEST
    },
    Ended { node: 6, ..TEST },
];

/// Two classes with values that were computed, found and closed, and with an aborted test, have
/// their lines and totals, and no node failed.
/// Tests `report_text` and `any_failed`.
#[test]
fn report_of_two_classes(rt: HostRuntime) -> Result<(), Fail> {
    let wanted = "[engine:x] successful closed 1\n\
         [engine:x]/[class:A] successful closed 1\n\
         [engine:x]/[class:A]/[method:m1()] successful closed 0\n\
         [engine:x]/[class:A]/[method:m2()] aborted closed 0: later\n\
         [engine:x]/[class:B] successful closed 0\n\
         [engine:x]/[class:B]/[method:n1()] successful closed 1\n\
         [engine:x]/[class:B]/[method:n2()] successful closed 0\n\
         tests 4 successful 3 aborted 1 failed 0 skipped 0\n\
         computed 1 found 2 closed 3 close faults 0\n";
    reports(&rt, rt.alloc(), TWO_CLASSES, &OF_TWO_CLASSES, false, wanted)
}

/// The two classes as a tree, where the first method was left out of the results.
const TREE_WITHOUT_A_METHOD: &str = "engine:x successful closed 1
  class:A successful closed 1
    method:m2() aborted closed 0: later
  class:B successful closed 0
    method:n1() successful closed 1
    method:n2() successful closed 0
tests 3 successful 2 aborted 1 failed 0 skipped 0
computed 1 found 2 closed 3 close faults 0
";

/// A result is left out, and the tree has no line for it and does not count it.
/// Tests `tree_report`.
#[test]
fn tree_without_a_result(rt: HostRuntime) -> Result<(), Fail> {
    let tree = tree_of(rt.alloc(), TWO_CLASSES)?;
    let mut results = results_of(rt.alloc(), &OF_TWO_CLASSES)?;
    results.retain(|r| r.node != 2);
    let text = tree_report(rt.alloc(), &tree, results.as_slice())?;
    same(&rt, text.as_str(), TREE_WITHOUT_A_METHOD, "the tree");
    Ok(())
}

/// A class that failed, whose test was skipped, and a successful engine.
const WITH_A_FAILED_CLASS: [Ended; 3] = [
    CONTAINER,
    Ended {
        node: 1,
        status: Status::Failed,
        fault: "\x1b[2J\nthen",
        more: 2,
        closed: 3,
        ..CONTAINER
    },
    Ended {
        node: 2,
        status: Status::Skipped,
        ..TEST
    },
];

/// Asserts that the results of a chain have this report for people.
fn shows<R: Abort>(
    rt: &R,
    alloc: Global,
    rows: &[Ended],
    colored: bool,
    wanted: &str,
) -> Result<(), Fail> {
    let tree = tree_of(alloc, CHAIN)?;
    let results = results_of(alloc, rows)?;
    assert!(rt; results.iter().all(|r| r.node < tree.len()));
    let text = terminal_report(alloc, &tree, results.as_slice(), colored)?;
    same(rt, text.as_str(), wanted, "the report for people");
    Ok(())
}

/// Tests `terminal_report`: a status has its colour, among the totals too, a node that failed or was
/// aborted its one line behind the others, a fault no control character, and the container that
/// failed is counted.
#[test]
fn report_for_people(rt: HostRuntime) -> Result<(), Fail> {
    let plain = "[engine:x] successful\n\
         [engine:x]/[class:A]/[method:m()] skipped\n\
         \n\
         [engine:x]/[class:A] failed closed 3: \\u{1b}[2J\\nthen (+2)\n\
         \n\
         tests 1 skipped 1\n\
         containers failed 1\n";
    shows(&rt, rt.alloc(), &WITH_A_FAILED_CLASS, false, plain)?;
    let colored = "[engine:x] \x1b[32msuccessful\x1b[0m\n\
         [engine:x]/[class:A]/[method:m()] \x1b[2mskipped\x1b[0m\n\
         \n\
         [engine:x]/[class:A] \x1b[31mfailed\x1b[0m closed 3: \\u{1b}[2J\\nthen (+2)\n\
         \n\
         tests 1 \x1b[2mskipped\x1b[0m 1\n\
         containers \x1b[31mfailed\x1b[0m 1\n";
    shows(&rt, rt.alloc(), &WITH_A_FAILED_CLASS, true, colored)
}

/// An aborted test alone.
const ABORTED: [Ended; 1] = [Ended {
    status: Status::Aborted,
    fault: "later",
    ..TEST
}];

/// Tests `terminal_report`: no empty line stands where no node failed or was aborted, and a failed
/// test is no failed container.
#[test]
fn report_for_people_of_tests_alone(rt: HostRuntime) -> Result<(), Fail> {
    let wanted = "[engine:x] \x1b[32msuccessful\x1b[0m\n\
         tests 1 \x1b[32msuccessful\x1b[0m 1\n";
    shows(&rt, rt.alloc(), &[TEST], true, wanted)?;
    let wanted = "\n\
         [engine:x] \x1b[33maborted\x1b[0m: later\n\
         \n\
         tests 1 \x1b[33maborted\x1b[0m 1\n";
    shows(&rt, rt.alloc(), &ABORTED, true, wanted)?;
    let wanted = "\n\
         [engine:x] \x1b[31mfailed\x1b[0m: no memory\n\
         \n\
         tests 1 \x1b[31mfailed\x1b[0m 1\n";
    shows(&rt, rt.alloc(), &WANT_OF_MEMORY, true, wanted)
}

/// Control characters and those that turn the direction of a text are written as escapes, line feeds
/// too, and all other characters as they are. Tests `write_visible`.
#[test]
fn control_characters_are_visible(rt: HostRuntime) -> Result<(), Fail> {
    let mut text = String::from_str(rt.alloc(), "a ")?;
    write_visible(
        &mut text,
        "\0\t\n\r\x1f ~\x7f\u{80}\u{9f}\u{a0}\u{e9}\u{1f600}",
    )?;
    write_visible(&mut text, DIRECTIONS)?;
    let wanted = "a \\u{0}\\t\\n\\r\\u{1f} ~\\u{7f}\\u{80}\\u{9f}\u{a0}\u{e9}\u{1f600}\
         \u{2029}\\u{202a}\\u{202e}\u{202f}\u{2065}\\u{2066}\\u{2069}\u{206a}";
    same(&rt, text.as_str(), wanted, "the text");
    Ok(())
}

/// The first and the last characters of those that turn the direction of a text, and their neighbours.
const DIRECTIONS: &str = "\u{2029}\u{202a}\u{202e}\u{202f}\u{2065}\u{2066}\u{2069}\u{206a}";

/// The same characters are escaped in JSON, as JSON does, but for those below U+0020, which a writer
/// of JSON escapes itself. Tests `write_json`.
#[test]
fn hidden_characters_of_json_are_escaped(rt: HostRuntime) -> Result<(), Fail> {
    let mut text = String::from_str(rt.alloc(), "a ")?;
    write_json(
        &mut text,
        "\"\\u001b\\n ~\x7f\u{80}\u{9f}\u{a0}\u{e9}\u{1f600}\"",
    )?;
    write_json(&mut text, DIRECTIONS)?;
    let wanted = "a \"\\u001b\\n ~\\u007f\\u0080\\u009f\u{a0}\u{e9}\u{1f600}\"\
         \u{2029}\\u202a\\u202e\u{202f}\u{2065}\\u2066\\u2069\u{206a}";
    same(&rt, text.as_str(), wanted, "the text");
    Ok(())
}

/// An id with such a character stands in a report as JSON without it. Tests `json_report`.
#[test]
fn json_gives_no_order(rt: HostRuntime) -> Result<(), Fail> {
    let tree = tree_of(rt.alloc(), "[engine:\u{9b}]")?;
    let results = results_of(rt.alloc(), &[CONTAINER])?;
    assert!(&rt; results.iter().all(|r| r.node < tree.len()));
    let lines = String::from_utf8(json_report(rt.alloc(), &tree, results.as_slice())?)?;
    assert!(&rt; lines.as_str().starts_with("{\"id\":\"[engine:\\u009b]\","));
    Ok(())
}

/// Control characters are written as escapes, but line feeds and all other characters as they are.
/// Tests `write_visible_lines`.
#[test]
fn control_characters_of_lines_are_visible(rt: HostRuntime) -> Result<(), Fail> {
    let mut text = String::from_str(rt.alloc(), "a ")?;
    write_visible_lines(&mut text, "\x1b[2J\n\t\r\u{9b}\n\n~")?;
    let wanted = "a \\u{1b}[2J\n\\t\\r\\u{9b}\n\n~";
    same(&rt, text.as_str(), wanted, "the lines");
    Ok(())
}

/// A test that had no memory.
const WANT_OF_MEMORY: [Ended; 1] = [Ended {
    status: Status::Failed,
    fault: "no memory",
    ..TEST
}];

/// A test that had no memory is reported as failed, with that fault.
/// Tests `report_text`.
#[test]
fn report_of_want_of_memory(rt: HostRuntime) -> Result<(), Fail> {
    let wanted = "[engine:x] failed closed 0: no memory\n\
         tests 1 successful 0 aborted 0 failed 1 skipped 0\n\
         computed 0 found 0 closed 0 close faults 0\n";
    reports(&rt, rt.alloc(), "[engine:x]", &WANT_OF_MEMORY, true, wanted)
}

/// Containers that found as much as can be counted.
const GREATEST_COUNTS: [Ended; 2] = [
    Ended {
        found: u64::MAX,
        ..CONTAINER
    },
    Ended {
        node: 1,
        found: u64::MAX,
        ..CONTAINER
    },
];

/// Two nodes found as many values as can be counted, and the totals have twice as many.
/// Tests `report_text`.
#[test]
fn report_of_the_greatest_counts(rt: HostRuntime) -> Result<(), Fail> {
    let wanted = "[engine:x] successful closed 0\n\
         [engine:x]/[class:A] successful closed 0\n\
         tests 0 successful 0 aborted 0 failed 0 skipped 0\n\
         computed 0 found 36893488147419103230 closed 0 close faults 0\n";
    reports(&rt, rt.alloc(), CHAIN, &GREATEST_COUNTS, false, wanted)
}

/// A test of cases, with two nodes for them, one with a step of its own, and an ordinary test.
const WITH_RESERVE: &str = "[engine:x]
[engine:x]/[class:A]
[engine:x]/[class:A]/[test-template:p()]
[engine:x]/[class:A]/[test-template:p()]/[test-template-invocation:#1]
[engine:x]/[class:A]/[test-template:p()]/[test-template-invocation:#2]
[engine:x]/[class:A]/[test-template:p()]/[test-template-invocation:#2]/[step:s]
[engine:x]/[class:A]/[method:m()]";

/// The class.
const CLASS: Ended = Ended {
    node: 1,
    ..CONTAINER
};

/// The test of cases.
const CASES: Ended = Ended {
    node: 2,
    ..CONTAINER
};

/// The case that came.
const CASE: Ended = Ended {
    node: 3,
    status: Status::Failed,
    fault: "too few",
    ..TEST
};

/// The node whose case did not come.
const UNUSED: Ended = Ended {
    node: 4,
    status: Status::Skipped,
    ..CONTAINER
};

/// The node below it.
const UNUSED_STEP: Ended = Ended {
    node: 5,
    status: Status::Skipped,
    ..TEST
};

/// The ordinary test, skipped.
const SKIPPED: Ended = Ended {
    node: 6,
    status: Status::Skipped,
    ..TEST
};

/// The results of all nodes.
const OF_RESERVE: [Ended; 7] = [CONTAINER, CLASS, CASES, UNUSED, CASE, UNUSED_STEP, SKIPPED];

/// Those that are left.
const LEFT: [Ended; 5] = [CONTAINER, CLASS, CASES, CASE, SKIPPED];

/// Nodes kept in reserve that did not come are left out of the results with all below them, and a
/// skipped test that is no such node stays.
/// Tests `leave_out_reserve` and `report_text`.
#[test]
fn report_without_the_reserve(rt: HostRuntime) -> Result<(), Fail> {
    let wanted = "[engine:x] successful closed 0\n\
         [engine:x]/[class:A] successful closed 0\n\
         [engine:x]/[class:A]/[test-template:p()] successful closed 0\n\
         [engine:x]/[class:A]/[test-template:p()]/[test-template-invocation:#1] failed closed 0: \
         too few\n\
         [engine:x]/[class:A]/[method:m()] skipped closed 0\n\
         tests 2 successful 0 aborted 0 failed 1 skipped 1\n\
         computed 0 found 0 closed 0 close faults 0\n";
    let tree = tree_of(rt.alloc(), WITH_RESERVE)?;
    let mut results = results_of(rt.alloc(), &OF_RESERVE)?;
    leave_out_reserve(&tree, "test-template-invocation", &mut results);
    are_left(&rt, rt.alloc(), results.as_slice(), &LEFT)?;
    tells(&rt, rt.alloc(), &tree, results.as_slice(), wanted)
}

/// Asserts that these results are left.
fn are_left<R: Abort>(
    rt: &R,
    alloc: Global,
    results: &[NodeResult],
    rows: &[Ended],
) -> Result<(), Fail> {
    let wanted = results_of(alloc, rows)?;
    same(rt, results == wanted.as_slice(), true, "the results left");
    Ok(())
}
