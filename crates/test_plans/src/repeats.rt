//! Plans with repeated tests: the nodes that their tables stand for, and the tables of their faults.
use crate::same::same;
use ext_plan_reading::{PlanNode, read_plan};
use std::alloc::{AllocError, Global};
use std::test::Fail;

/// A test that is repeated, with all that a table may have, and one behind it, with these steps
/// each.
fn plan_of(alloc: Global, repeated: &str, other: &str) -> Result<String, AllocError> {
    format!(in alloc;
        "[[key]]
label = \"a\"
[[node]]
id = \"[engine:x]\"
[[node]]
id = \"[engine:x]/[test-template:m()]\"
mode = \"concurrent\"
isolated = true
locks = [\"READ db\"]
before_all = [[\"put a 1\"]]
before_each = [[\"none a up 2\"]]
test = [{repeated}]
repeat = 2
[[node]]
id = \"[engine:x]/[method:n()]\"
test = [{other}]
"
    )
}

/// What is told of its nodes: the mode of each, whether it is isolated, how many locks, callbacks
/// before all and callbacks before each it has, and its steps.
const NODES: &str = "[engine:x] SameThread false 0 0 0
[engine:x]/[test-template:m()] Concurrent true 1 1 1
[engine:x]/[test-template:m()]/[test-template-invocation:#1] Concurrent false 0 0 0
Want { key: Label(0), text: \"1\", up: 2 }
[engine:x]/[test-template:m()]/[test-template-invocation:#2] Concurrent false 0 0 0
Want { key: Label(0), text: \"1\", up: 2 }
[engine:x]/[method:n()] SameThread false 0 0 0
None { key: Label(0), up: 1 }
";

/// A node in lines.
fn write_node(node: &PlanNode, lines: &mut String) -> Result<(), AllocError> {
    node.id.write_to(lines)?;
    let callbacks = (node.before_all.len(), node.before_each.len());
    let locks = node.locks.len();
    write!(lines, " {:?} {} {locks} ", node.mode, node.isolated)?;
    write!(lines, "{} {}\n", callbacks.0, callbacks.1)?;
    let Some(steps) = &node.test else {
        return Ok(());
    };
    for step in steps {
        write!(lines, "{step:?}\n")?;
    }
    Ok(())
}

/// The nodes of a plan in lines, or the line of its fault.
fn told(alloc: Global, text: &str) -> Result<String, AllocError> {
    match read_plan(alloc, text) {
        Ok(plan) => nodes_told(alloc, plan.nodes.as_slice()),
        Err(fault) => fault.to_string(alloc),
    }
}

fn nodes_told(alloc: Global, nodes: &[PlanNode]) -> Result<String, AllocError> {
    let mut lines = String::new(alloc);
    for node in nodes {
        write_node(node, &mut lines)?;
    }
    Ok(lines)
}

/// The steps of the repeated test and of the other one, with what is told of the plan. A repetition
/// is one context deeper than its table's node, and each fault is that of a table.
const STEPS: [(&str, &str, &str); 4] = [
    ("\"want a 1 up 2\"", "\"none a up 1\"", NODES),
    ("\"want a 1 up 3\"", "", "plan: P8 node 1"),
    ("\"no step\"", "\"no step\"", "plan: P8 node 1"),
    ("", "\"none a up 2\"", "plan: P8 node 2"),
];

/// A test with `repeat` is read as a container of its repetitions, and a fault in its steps is told
/// of its table.
/// Tests `read_plan`.
#[test]
fn reads_repeated_tests(rt: HostRuntime) -> Result<(), Fail> {
    for (repeated, other, wanted) in &STEPS {
        let text = plan_of(rt.alloc(), repeated, other)?;
        let told = told(rt.alloc(), text.as_str())?;
        same(&rt, told.as_str(), *wanted, "the plan");
    }
    Ok(())
}
