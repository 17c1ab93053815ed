//! Plain runs of plans whose steps name keys, by their reports.
use crate::same::same;
use ext_lifecycle::NoListener;
use ext_plan_plain::run_plain;
use ext_plan_reading::read_plan;
use ext_report::report_text;
use std::alloc::{AllocError, Global};
use std::test::Fail;

/// The report of the plain run of the plan that this text writes.
fn report_of(alloc: Global, text: &str) -> Result<String, Fail> {
    let plan = read_plan(alloc, text)?;
    let run = run_plain(alloc, &plan, &NoListener)?;
    let report = report_text(alloc, plan.tree(), run.results.as_slice())?;
    Ok(report)
}

/// Plans, each with the report of its plain run: a key that is no label; three words of one key,
/// two labels and its name; a closeable value under a key that is no label, which the end of its
/// node closes.
const REPORTS: [(&str, &str); 3] = [
    (
        "[[node]]\nid = \"[engine:x]\"\n[[node]]\nid = \"[engine:x]/[class:A]\"\n[[node]]\nid = \"[engine:x]/[class:A]/[method:m()]\"\ntest = [\"put q x\", \"want q x\"]",
        "[engine:x] successful closed 0\n[engine:x]/[class:A] successful closed 0\n[engine:x]/[class:A]/[method:m()] successful closed 0\ntests 1 successful 1 aborted 0 failed 0 skipped 0\ncomputed 0 found 0 closed 0 close faults 0\n",
    ),
    (
        "[[key]]\nlabel = \"a\"\nname = \"q\"\n[[key]]\nlabel = \"b\"\nname = \"q\"\n[[key]]\nlabel = \"c\"\nname = \"q\"\nnamespace = [\"n\"]\n[[node]]\nid = \"[a:b]\"\ntest = [\"put a x\", \"want b x\", \"want q x\", \"none c\", \"remove q\", \"none a\"]",
        "[a:b] successful closed 0\ntests 1 successful 1 aborted 0 failed 0 skipped 0\ncomputed 0 found 0 closed 0 close faults 0\n",
    ),
    (
        "[[node]]\nid = \"[a:b]\"\ntest = [\"none p\", \"put! q x\"]",
        "[a:b] successful closed 1\ntests 1 successful 1 aborted 0 failed 0 skipped 0\ncomputed 0 found 0 closed 1 close faults 0\n",
    ),
];

/// Steps name keys that no label declares, and labelled keys by their names, and find and close
/// what they put.
/// Tests `run_plain`.
#[test]
fn keys_need_no_declaration(rt: HostRuntime) -> Result<(), Fail> {
    for (text, wanted) in REPORTS.as_slice() {
        let report = report_of(rt.alloc(), text)?;
        same(&rt, report.as_str(), *wanted, "the report");
    }
    Ok(())
}

/// Writes the steps `none k0` to `none k63`, each with a comma behind it.
pub(crate) fn write_64_looks(text: &mut String) -> Result<(), AllocError> {
    for i in 0..64 {
        write!(text, "\"none k{i}\", ")?;
    }
    Ok(())
}

/// A plan of one test, which looks up 64 keys and then a further one.
fn plan_of_65(alloc: Global) -> Result<String, AllocError> {
    let mut text = String::new(alloc);
    text.push_str("[[node]]\nid = \"[a:b]\"\ntest = [")?;
    write_64_looks(&mut text)?;
    text.push_str("\"none k63\", \"none z\"]")?;
    Ok(text)
}

/// A test looks up 64 keys, one of them again, and then a further one, for which it fails with
/// `directory full`.
/// Tests `run_plain`.
#[test]
fn a_65th_key_is_refused(rt: HostRuntime) -> Result<(), Fail> {
    let text = plan_of_65(rt.alloc())?;
    let report = report_of(rt.alloc(), text.as_str())?;
    let wanted =
        "[a:b] failed closed 0: none z: directory full\ntests 1 successful 0 aborted 0 failed 1 skipped 0\ncomputed 0 found 0 closed 0 close faults 0\n";
    same(&rt, report.as_str(), wanted, "the report");
    Ok(())
}

/// Writes so many steps `put k0 x`, each with a comma behind it.
fn write_puts(text: &mut String, count: u32) -> Result<(), AllocError> {
    for _ in 0..count {
        text.push_str("\"put k0 x\", ")?;
    }
    Ok(())
}

/// A plan of two tests. The first names 64 keys, draws 65,534 numbers and puts under a further key;
/// the second puts under the same one.
fn plan_at_both_limits(alloc: Global) -> Result<String, AllocError> {
    let mut text = String::new(alloc);
    text.push_str("[[node]]\nid = \"[a:b]\"\n[[node]]\nid = \"[a:b]/[c:d]\"\ntest = [")?;
    write_64_looks(&mut text)?;
    write_puts(&mut text, 65_534)?;
    text.push_str("\"put z x\"]\n[[node]]\nid = \"[a:b]/[e:f]\"\ntest = [\"put z x\"]")?;
    Ok(text)
}

/// A put under a 65th key fails with `directory full` and has drawn the last number, so the next
/// one fails with `numbers full`.
/// Tests `run_plain`.
#[test]
fn a_put_draws_its_number_before_its_key_is_refused(rt: HostRuntime) -> Result<(), Fail> {
    let text = plan_at_both_limits(rt.alloc())?;
    let report = report_of(rt.alloc(), text.as_str())?;
    let wanted =
        "[a:b] successful closed 0\n[a:b]/[c:d] failed closed 0: put z: directory full\n[a:b]/[e:f] failed closed 0: put z: numbers full\ntests 2 successful 0 aborted 0 failed 2 skipped 0\ncomputed 0 found 0 closed 0 close faults 0\n";
    same(&rt, report.as_str(), wanted, "the report");
    Ok(())
}
