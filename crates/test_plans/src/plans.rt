//! Plans of the format's own examples: each text with what is read of it.
use crate::same::same;
use ext_model::Size;
use ext_plan_reading::{Plan, PlanNode, read_plan, read_plan_within};
use std::alloc::{AllocError, Global};
use std::test::Fail;

/// A chain of three contexts, whose method puts a value and wants it.
const CHAIN: &str =
    "[[key]]\nlabel = \"a\"\n\n[[node]]\nid = \"[engine:x]\"\n\n[[node]]\nid = \"[engine:x]/[class:A]\"\n\n[[node]]\nid = \"[engine:x]/[class:A]/[method:m()]\"\ntest = [\"put a x\", \"want a x\"]\n";

/// A plan with the labels `a` and `up`, whose third node, three contexts deep, is a test with these
/// steps.
fn plan_with(alloc: Global, steps: &str) -> Result<String, AllocError> {
    format!(in alloc;
        "[[key]]\nlabel = \"a\"\n[[key]]\nlabel = \"up\"\n[[node]]\nid = \"[a:b]\"\n[[node]]\nid = \"[a:b]/[c:d]\"\n[[node]]\nid = \"[a:b]/[c:d]/[e:f]\"\ntest = [{steps}]"
    )
}

/// A node in lines: its id, behind that the word `test` where it is one, and then its steps.
fn write_node(node: &PlanNode, lines: &mut String) -> Result<(), AllocError> {
    node.id.write_to(lines)?;
    let Some(steps) = &node.test else {
        return lines.push_str("\n");
    };
    lines.push_str(" test\n")?;
    for step in steps {
        write!(lines, "{step:?}\n")?;
    }
    Ok(())
}

/// A plan in lines: each key, and then each node; or the line of its fault.
fn told(alloc: Global, text: &str) -> Result<String, AllocError> {
    match read_plan(alloc, text) {
        Ok(plan) => plan_told(alloc, &plan),
        Err(fault) => fault.to_string(alloc),
    }
}

/// A plan in lines: each key, and then each node.
fn plan_told(alloc: Global, plan: &Plan) -> Result<String, AllocError> {
    let mut lines = String::new(alloc);
    for key in &plan.keys {
        write!(lines, "{key:?}\n")?;
    }
    for node in &plan.nodes {
        write_node(node, &mut lines)?;
    }
    Ok(lines)
}

/// A plan of one key and a chain of three contexts is read with its key, its nodes and the steps of
/// its test.
/// Tests `read_plan`.
#[test]
fn reads_the_chain(rt: HostRuntime) -> Result<(), Fail> {
    let wanted = "PlanKey { label: \"a\", name: \"a\", namespace: None }\n\
         [engine:x]\n\
         [engine:x]/[class:A]\n\
         [engine:x]/[class:A]/[method:m()] test\n\
         Put { key: Label(0), text: \"x\", up: 0 }\n\
         Want { key: Label(0), text: \"x\", up: 0 }\n";
    let read = told(rt.alloc(), CHAIN)?;
    same(&rt, read.as_str(), wanted, "the plan");
    Ok(())
}

/// The steps of a test three contexts deep that has these texts, in a plan with the labels `a` and
/// `up`: one a line.
fn steps_read(alloc: Global, texts: &str) -> Result<String, Fail> {
    let text = plan_with(alloc, texts)?;
    let lines = told(alloc, text.as_str())?;
    let (_, steps) = lines.split_once(" test\n").ok_or("it is a test")?;
    Ok(String::from_str(alloc, steps)?)
}

/// Each step, each with `up`, words that could be taken for `up`, and each step with a key that is
/// no label.
const STEPS: [(&str, &str); 5] = [
    (
        "\"put up x\", \"put! a x\", \"want a x\", \"none up\", \"remove a\", \"compute a x\", \"compute! a x\", \"computefail a x\", \"fail x\", \"abort x\"",
        "Put { key: Label(1), text: \"x\", up: 0 }\n\
         PutCloseable { key: Label(0), text: \"x\", up: 0 }\n\
         Want { key: Label(0), text: \"x\", up: 0 }\n\
         None { key: Label(1), up: 0 }\n\
         Remove { key: Label(0), up: 0 }\n\
         Compute { key: Label(0), text: \"x\", up: 0 }\n\
         ComputeCloseable { key: Label(0), text: \"x\", up: 0 }\n\
         ComputeFail { key: Label(0), text: \"x\", up: 0 }\n\
         Fail { text: \"x\" }\n\
         Abort { text: \"x\" }\n",
    ),
    (
        "\"put a x up 1\", \"put! a x up 2\", \"want a x up 1\", \"none a up 2\", \"remove a up 1\", \"compute a x up 2\", \"compute! a x up 1\", \"computefail a x up 2\"",
        "Put { key: Label(0), text: \"x\", up: 1 }\n\
         PutCloseable { key: Label(0), text: \"x\", up: 2 }\n\
         Want { key: Label(0), text: \"x\", up: 1 }\n\
         None { key: Label(0), up: 2 }\n\
         Remove { key: Label(0), up: 1 }\n\
         Compute { key: Label(0), text: \"x\", up: 2 }\n\
         ComputeCloseable { key: Label(0), text: \"x\", up: 1 }\n\
         ComputeFail { key: Label(0), text: \"x\", up: 2 }\n",
    ),
    (
        "\"put up 1\", \"none up up 1\", \"none up\", \"want up up up 2\", \"fail up\"",
        "Put { key: Label(1), text: \"1\", up: 0 }\n\
         None { key: Label(1), up: 1 }\n\
         None { key: Label(1), up: 0 }\n\
         Want { key: Label(1), text: \"up\", up: 2 }\n\
         Fail { text: \"up\" }\n",
    ),
    (
        "\"put q x\", \"put! b x\", \"want ab x\", \"none A\", \"remove 'a'\", \"compute a\\tb x\", \"compute! größe x\", \"computefail 0 x\"",
        "Put { key: Named(\"q\"), text: \"x\", up: 0 }\n\
         PutCloseable { key: Named(\"b\"), text: \"x\", up: 0 }\n\
         Want { key: Named(\"ab\"), text: \"x\", up: 0 }\n\
         None { key: Named(\"A\"), up: 0 }\n\
         Remove { key: Named(\"'a'\"), up: 0 }\n\
         Compute { key: Named(\"a\\tb\"), text: \"x\", up: 0 }\n\
         ComputeCloseable { key: Named(\"größe\"), text: \"x\", up: 0 }\n\
         ComputeFail { key: Named(\"0\"), text: \"x\", up: 0 }\n",
    ),
    (
        "\"put q x up 1\", \"none u up 2\", \"none q\", \"want x up\", \"remove put\"",
        "Put { key: Named(\"q\"), text: \"x\", up: 1 }\n\
         None { key: Named(\"u\"), up: 2 }\n\
         None { key: Named(\"q\"), up: 0 }\n\
         Want { key: Named(\"x\"), text: \"up\", up: 0 }\n\
         Remove { key: Named(\"put\"), up: 0 }\n",
    ),
];

/// Each word is read with its key, text and height, also where a key or a text could be taken for
/// another word.
/// Tests `read_plan` and `StepKeys::key_of`.
#[test]
fn reads_each_step(rt: HostRuntime) -> Result<(), Fail> {
    for (texts, wanted) in &STEPS {
        let steps = steps_read(rt.alloc(), texts)?;
        same(&rt, steps.as_str(), *wanted, texts);
    }
    Ok(())
}

/// Keys with names and namespaces, and a tree whose nodes don't stand class by class.
const PLANS: [(&str, &str); 2] = [
    (
        "[[key]]\nlabel = \"a\"\n[[key]]\nlabel = \"b\"\nname = \"\"\nnamespace = [\"x\", \"\"]\n[[node]]\nid = \"[a:b]\"\ntest = []",
        "PlanKey { label: \"a\", name: \"a\", namespace: None }\n\
         PlanKey { label: \"b\", name: \"\", namespace: Some([\"x\", \"\"]) }\n\
         [a:b] test\n",
    ),
    (
        "[[node]]\nid = \"[a:b]\"\n[[node]]\nid = \"[a:b]/[c:1]\"\n[[node]]\nid = \"[a:b]/[c:2]\"\n[[node]]\nid = \"[a:b]/[c:1]/[d:1]\"\ntest = []\n[[node]]\nid = \"[a:b]/[c:2]/[d:1]\"\ntest = []\n[[node]]\nid = \"[a:b]/[c:1]/[d:2]\"\ntest = [\"fail x\"]\n[[node]]\nid = \"[a:b]/[c:3]\"\ntest = []",
        "[a:b]\n\
         [a:b]/[c:1]\n\
         [a:b]/[c:2]\n\
         [a:b]/[c:1]/[d:1] test\n\
         [a:b]/[c:2]/[d:1] test\n\
         [a:b]/[c:1]/[d:2] test\n\
         Fail { text: \"x\" }\n\
         [a:b]/[c:3] test\n",
    ),
];

/// Keys with names and namespaces, also empty ones, and nodes in any order of a tree are read as
/// they stand.
/// Tests `read_plan`.
#[test]
fn reads_names_namespaces_and_trees(rt: HostRuntime) -> Result<(), Fail> {
    for (text, wanted) in &PLANS {
        let read = told(rt.alloc(), text)?;
        same(&rt, read.as_str(), *wanted, text);
    }
    Ok(())
}

/// A plan with the labels `k0`, `k1` and so on, so many, with further keys, and with one node, a
/// test with these steps.
fn plan_of_keys(
    alloc: Global,
    count: usize,
    more: &str,
    steps: &str,
) -> Result<String, AllocError> {
    let mut text = String::new(alloc);
    for number in 0..count {
        write!(text, "[[key]]\nlabel = \"k{number}\"\n")?;
    }
    write!(text, "{more}[[node]]\nid = \"[a:b]\"\ntest = [{steps}]")?;
    Ok(text)
}

/// How many keys a plan declares, behind that the word `keys`; or the line of its fault.
fn keys_told(alloc: Global, text: &str) -> Result<String, AllocError> {
    match read_plan(alloc, text) {
        Ok(plan) => format!(in alloc; "{} keys", plan.keys.len()),
        Err(fault) => fault.to_string(alloc),
    }
}

/// The seventh key by another label.
const AGAIN: &str = "[[key]]\nlabel = \"again\"\nname = \"k7\"\n";

/// A key that only its namespace tells from the seventh.
const OTHER: &str = "[[key]]\nlabel = \"other\"\nname = \"k7\"\nnamespace = [\"k7\"]\n";

/// Numbers of declared keys, with further keys and with steps, and what is told of a plan of them.
const DECLARED: [(usize, &str, &str, &str); 7] = [
    (64, "", "", "64 keys"),
    (
        64,
        "",
        "\"none k63\", \"none other\", \"none another\"",
        "64 keys",
    ),
    (64, AGAIN, "\"none again\"", "65 keys"),
    (64, OTHER, "", "plan: P11"),
    (65, "", "", "plan: P11"),
    (65, "", "\"none k64\"", "plan: P11"),
    (65, "", "\"no step\"", "plan: P8 node 0"),
];

/// A plan declares 64 different keys, under more labels too, and one more is refused as P11, unless
/// a step has a fault, which comes before.
/// Tests `keys_are_few` and `read_plan`.
#[test]
fn declared_keys_are_64_at_most(rt: HostRuntime) -> Result<(), Fail> {
    for (count, more, steps, wanted) in &DECLARED {
        let text = plan_of_keys(rt.alloc(), *count, more, steps)?;
        let told = keys_told(rt.alloc(), text.as_str())?;
        same(&rt, told.as_str(), *wanted, text.as_str());
    }
    Ok(())
}

/// Beginnings of a plan with numbers of declared keys, and what is told of such a plan.
const DECLARED_BELOW: [(&str, usize, &str); 5] = [
    ("", 65, "plan: P11"),
    ("keys = 65\n", 65, "65 keys"),
    ("keys = 65\n", 96, "96 keys"),
    ("keys = 65\n", 97, "plan: P11"),
    ("keys = 32\n", 33, "plan: P11"),
];

/// A plan that begins so, and declares so many keys.
fn plan_below(alloc: Global, head: &str, count: usize) -> Result<String, AllocError> {
    let keys = plan_of_keys(alloc, count, "", "")?;
    format!(in alloc; "{head}{}", keys.as_str())
}

/// A plan declares as many keys as its `keys`, rounded up to 32, and one more is refused as P11.
/// Tests `keys_are_few` and `read_plan`.
#[test]
fn declared_keys_have_a_place_each(rt: HostRuntime) -> Result<(), Fail> {
    for (head, count, wanted) in &DECLARED_BELOW {
        let text = plan_below(rt.alloc(), head, *count)?;
        let told = keys_told(rt.alloc(), text.as_str())?;
        same(&rt, told.as_str(), *wanted, text.as_str());
    }
    Ok(())
}

/// Beginnings of a plan, and what is told of how many keys its steps can name.
const PLACES: [(&str, &str); 12] = [
    ("", "64 places"),
    ("keys = 1\n", "32 places"),
    ("keys = 32\n", "32 places"),
    ("keys = 33\n", "64 places"),
    ("keys = 1024\n", "1024 places"),
    ("keys = 0\n", "plan: P4"),
    ("keys = 1025\n", "plan: P4"),
    ("keys = -1\n", "plan: P4"),
    ("keys = 9223372036854775807\n", "plan: P4"),
    ("keys = \"64\"\n", "plan: P4"),
    ("keys = 64.0\n", "plan: P4"),
    ("keys = [64]\n", "plan: P4"),
];

/// For how many keys a plan that begins so has places, with the word `places`, or the line of its
/// fault.
fn places_told(alloc: Global, head: &str) -> Result<String, AllocError> {
    let text = format!(in alloc; "{head}{CHAIN}")?;
    match read_plan(alloc, text.as_str()) {
        Ok(plan) => format!(in alloc; "{} places", plan.key_places),
        Err(fault) => fault.to_string(alloc),
    }
}

/// A plan's `keys` of 1 to 1,024 is rounded up to 32, is 64 if not given, and anything else is
/// refused as P4.
/// Tests `read_plan`.
#[test]
fn reads_how_many_keys_there_are(rt: HostRuntime) -> Result<(), Fail> {
    for (head, wanted) in &PLACES {
        let told = places_told(rt.alloc(), head)?;
        same(&rt, told.as_str(), *wanted, head);
    }
    Ok(())
}

/// Whether faults are kept by a plan that begins so.
fn keeps_faults(alloc: Global, head: &str) -> Result<bool, Fail> {
    let text = format!(in alloc; "{head}{CHAIN}")?;
    Ok(read_plan(alloc, text.as_str())?.keep_faults)
}

/// A plan keeps faults if its `keep_faults` is `true`, and not if that is `false` or not given.
/// Tests `read_plan`.
#[test]
fn reads_whether_faults_are_kept(rt: HostRuntime) -> Result<(), Fail> {
    for (head, wanted) in [
        ("", false),
        ("keep_faults = false\n", false),
        ("keep_faults = true\n", true),
    ] {
        let keeps = keeps_faults(rt.alloc(), head)?;
        same(&rt, keeps, wanted, head);
    }
    Ok(())
}

/// A plan of so many nodes, all but the root below it.
fn plan_of_nodes(alloc: Global, count: usize) -> Result<String, AllocError> {
    let mut text = String::from_str(alloc, "[[node]]\nid = \"[a:b]\"\n")?;
    for number in 1..count {
        write!(text, "[[node]]\nid = \"[a:b]/[c:{number}]\"\n")?;
    }
    Ok(text)
}

/// How many nodes a plan has and how large it may be, or the line of its fault.
fn nodes_told(alloc: Global, text: &str, size: Size) -> Result<String, AllocError> {
    match read_plan_within(alloc, text, size) {
        Ok(plan) => format!(in alloc; "{} nodes, {:?}", plan.nodes.len(), plan.size),
        Err(fault) => fault.to_string(alloc),
    }
}

/// Numbers of nodes and how large a plan may be, with what is told of such a plan. The limit of a
/// large one is reached by files (scripts/examples).
const NODES: [(usize, Size, &str); 3] = [
    (256, Size::Usual, "256 nodes, Usual"),
    (257, Size::Usual, "plan: P7"),
    (257, Size::Large, "257 nodes, Large"),
];

/// A plan of the usual size has 256 nodes at most, and a large one may have more.
/// Tests `read_plan_within`.
#[test]
fn nodes_are_few_for_the_size(rt: HostRuntime) -> Result<(), Fail> {
    for (count, size, wanted) in &NODES {
        let text = plan_of_nodes(rt.alloc(), *count)?;
        let told = nodes_told(rt.alloc(), text.as_str(), *size)?;
        same(&rt, told.as_str(), *wanted, "the plan");
    }
    Ok(())
}
