//! Modes and callbacks of plans.
use crate::same::same;
use ext_lifecycle::Kind;
use ext_plan_reading::{PlanNode, Step, read_plan};
use std::alloc::{AllocError, Global};
use std::test::Fail;

/// An engine, a class with callbacks of each kind, of which one has no step, and a test that is
/// concurrent and has two.
const PLAN: &str = "[[key]]
label = \"a\"
[[node]]
id = \"[engine:x]\"
[[node]]
id = \"[engine:x]/[class:A]\"
mode = \"same_thread\"
before_all = [[\"put a 1\", \"none a up 1\"], []]
after_all = [[\"remove a\"]]
before_each = [[\"put a 2\"], [\"fail f\"]]
after_each = [[\"abort g\"], [\"want a 2 up 2\"]]
[[node]]
id = \"[engine:x]/[class:A]/[method:m()]\"
mode = \"concurrent\"
before_each = [[\"none a up 2\"]]
after_each = []
test = []
";

/// What is told of its nodes.
const NODES: &str = "[engine:x] SameThread
[engine:x]/[class:A] SameThread
BeforeAll
Put { key: Label(0), text: \"1\", up: 0 }
None { key: Label(0), up: 1 }
BeforeAll
BeforeEach
Put { key: Label(0), text: \"2\", up: 0 }
BeforeEach
Fail { text: \"f\" }
AfterEach
Abort { text: \"g\" }
AfterEach
Want { key: Label(0), text: \"2\", up: 2 }
AfterAll
Remove { key: Label(0), up: 0 }
[engine:x]/[class:A]/[method:m()] Concurrent
BeforeEach
None { key: Label(0), up: 2 }
";

const KINDS: [Kind; 5] = [
    Kind::BeforeAll,
    Kind::BeforeEach,
    Kind::Test,
    Kind::AfterEach,
    Kind::AfterAll,
];

/// The callbacks of a kind in lines: for each the kind, and then its steps.
fn write_callbacks(
    kind: Kind,
    callbacks: &[Vec<Step>],
    lines: &mut String,
) -> Result<(), AllocError> {
    for steps in callbacks {
        write!(lines, "{kind:?}\n")?;
        for step in steps {
            write!(lines, "{step:?}\n")?;
        }
    }
    Ok(())
}

/// A node in lines: its id and its mode, and then its callbacks of each kind.
fn write_node(node: &PlanNode, lines: &mut String) -> Result<(), AllocError> {
    node.id.write_to(lines)?;
    write!(lines, " {:?}\n", node.mode)?;
    for kind in &KINDS {
        write_callbacks(*kind, node.callbacks(*kind), lines)?;
    }
    Ok(())
}

/// The nodes in lines.
fn told(alloc: Global, nodes: &[PlanNode]) -> Result<String, AllocError> {
    let mut lines = String::new(alloc);
    for node in nodes {
        write_node(node, &mut lines)?;
    }
    Ok(lines)
}

/// A plan with modes and callbacks of each kind, also empty ones, is read with their steps in
/// order.
/// Tests `PlanNode::callbacks` and `read_plan`.
#[test]
fn reads_modes_and_callbacks(rt: HostRuntime) -> Result<(), Fail> {
    let plan = read_plan(rt.alloc(), PLAN)?;
    let lines = told(rt.alloc(), plan.nodes.as_slice())?;
    same(&rt, lines.as_str(), NODES, "the nodes");
    Ok(())
}
