//! All faults of texts that are no plans.
use crate::same::same;
use ext_model::Size;
use ext_plan_reading::{PlanFault, all_faults, read_plan};
use ext_run::faults_of_plan;
use std::alloc::{AllocError, Global};
use std::test::Fail;

/// Texts with the lines of their faults, by stages: the document, its top fields, the tables, the
/// tree, the nodes.
const FAULTS: [(&str, &str); 9] = [
    ("[[node]]\nid = \"[engine:x]\"\n", ""),
    ("= 1", "plan: P2\n"),
    ("other = 1\nkeys = 0", "plan: P3\n"),
    ("keys = 0\nkeep_faults = 1\nkey = [{}]", "plan: P4\n"),
    // The label of a key that is refused counts, and no fault of a key hides one of a node.
    (
        "key = [{}, {label = \"a\", x = 1}, {label = \"a\"}, {label = \"b\"}, {label = \"c d\"}, {label = \"b\"}, {label = \"e\", namespace = []}]
node = [{id = \"[engine:x]\", y = 1}, {id = 1, test = 1}, {id = \"x\"}, {id = \"[engine:x]\"}]",
        "plan: P4 key 0
plan: P3 key 1
plan: P5 key 2
plan: P5 key 4
plan: P5 key 5
plan: P5 key 6
plan: P3 node 0
plan: P4 node 1
plan: P6 node 2
",
    ),
    // Without a tree no step is looked at.
    (
        "node = [{id = \"[engine:x]\", test = [\"no step\"]}, {id = \"[a:b]\"}]",
        "plan: P7\n",
    ),
    ("", "plan: P7\n"),
    (
        "node = [{id = \"[engine:x]\", mode = \"fast\"},
{id = \"[engine:x]/[test:a]\", test = [\"no step\"], before_all = []},
{id = \"[engine:x]/[test:b]\", test = [\"none a\", \"no step\", \"no step\"]},
{id = \"[engine:x]/[test:c]\", test = [\"none a\"]},
{id = \"[engine:x]/[test:d]\", test = [\"no step\"], locks = [\"READ\"]}]",
        "plan: P9 node 0\nplan: P10 node 1\nplan: P8 node 2\nplan: P9 node 4\n",
    ),
    // A repeated test and its repetitions are one table, whichever of them has the fault.
    (
        "node = [{id = \"[engine:x]\"},
{id = \"[engine:x]/[test:a]\", test = [\"no step\"], repeat = 3},
{id = \"[engine:x]/[test:b]\", test = [\"no step\"], repeat = 2, mode = \"fast\"},
{id = \"[engine:x]/[test:c]\", test = [\"none a\"], repeat = 2},
{id = \"[engine:x]/[test:c]/[test-template-invocation:#2]/[test:d]\", test = []},
{id = \"[engine:x]/[test:e]\", test = [\"none a up 2\"]}]",
        "plan: P8 node 1\nplan: P9 node 2\nplan: P10 node 3\nplan: P8 node 5\n",
    ),
];

/// Faults in lines.
fn lines_of(alloc: Global, faults: &[PlanFault]) -> Result<String, AllocError> {
    let mut lines = String::new(alloc);
    for fault in faults {
        write!(lines, "{fault}\n")?;
    }
    Ok(lines)
}

/// The faults of a text in lines.
fn told(alloc: Global, text: &str) -> Result<String, AllocError> {
    let faults = all_faults(alloc, text, Size::Usual)?;
    lines_of(alloc, faults.as_slice())
}

/// The line of the fault that ends the reading of a text, if there is one.
fn told_first(alloc: Global, text: &str) -> Result<String, AllocError> {
    match read_plan(alloc, text) {
        Ok(_) => Ok(String::new(alloc)),
        Err(fault) => format!(in alloc; "{fault}\n"),
    }
}

/// Texts with one or several mistakes have all the faults of the first stage that has one, and the
/// fault that ends the reading is the first of them.
/// Tests `all_faults`.
#[test]
fn all_faults_by_stages(rt: HostRuntime) -> Result<(), Fail> {
    for (text, wanted) in &FAULTS {
        let told = told(rt.alloc(), text)?;
        same(&rt, told.as_str(), *wanted, text);
        let first = told_first(rt.alloc(), text)?;
        let begins = told.as_str().starts_with(first.as_str());
        same(&rt, begins, true, text);
    }
    Ok(())
}

/// A plan with places for 32 keys and one key more.
fn many_keys(alloc: Global) -> Result<String, AllocError> {
    let mut text = String::from_str(alloc, "keys = 1\nnode = [{id = \"[engine:x]\"}]\n")?;
    for key in 0..33 {
        write!(text, "[[key]]\nlabel = \"{key}\"\n")?;
    }
    Ok(text)
}

/// Tests `all_faults`: the limits come last.
#[test]
fn too_many_keys_alone(rt: HostRuntime) -> Result<(), Fail> {
    let text = many_keys(rt.alloc())?;
    let told = told(rt.alloc(), text.as_str())?;
    same(&rt, told.as_str(), "plan: P11\n", "the faults");
    Ok(())
}

/// Bytes that are no text have that fault alone, whatever else is wrong.
/// Tests `faults_of_plan`.
#[test]
fn no_text_alone(rt: HostRuntime) -> Result<(), Fail> {
    let faults = faults_of_plan(rt.alloc(), b"key = [{}] # \xff", Size::Usual)?;
    let told = lines_of(rt.alloc(), faults.as_slice())?;
    same(&rt, told.as_str(), "plan: P1\n", "the faults");
    Ok(())
}
