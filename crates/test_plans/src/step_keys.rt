//! The keys of the store that labels and steps name.
ghost use Rattle.ext_plan.specs.ReadPlans.{NamespacesHaveParts};
ghost use Rattle.ext_plan.specs.Plans.{plan_view};

use crate::same::same;
use ext_plan::{CallKey, StepCall, StepKeys, StepParts};
use ext_plan_reading::{Plan, Step, read_plan};
use ext_tree::Key;
use std::alloc::{AllocError, Global};
use std::test::Fail;

/// Four labels, the first and the third of which name one key.
const FOUR_LABELS: &str =
    "[[key]]\nlabel = \"a\"\n[[key]]\nlabel = \"b\"\nname = \"a\"\nnamespace = [\"x\", \"y\"]\n[[key]]\nlabel = \"c\"\nname = \"a\"\n[[key]]\nlabel = \"d\"\nname = \"a\"\nnamespace = [\"y\", \"x\"]\n[[node]]\nid = \"[a:b]\"";

/// Writes for each key the place of the first that is equal to it.
fn write_places(keys: &[Key], told: &mut String) -> Result<(), AllocError> {
    for key in keys {
        let place = keys.iter().position(|other| *other == *key);
        write!(told, "{place:?} ")?;
    }
    Ok(())
}

/// Writes the same of the keys that the labels of a plan name.
fn write_labels(alloc: Global, text: &str, told: &mut String) -> Result<(), Fail> {
    let plan = read_plan(alloc, text)?;
    let keys = plan.store_keys(alloc)?;
    write_places(keys.as_slice(), told)?;
    Ok(())
}

/// Of four labels two name one key, and the others, which differ in the namespace or its order,
/// name keys of their own.
/// Tests `Plan::store_keys` and `PlanKey::store_key`.
#[test]
fn labels_name_keys_by_name_and_namespace(rt: HostRuntime) -> Result<(), Fail> {
    let mut told = String::new(rt.alloc());
    write_labels(rt.alloc(), FOUR_LABELS, &mut told)?;
    let wanted = "Some(0) Some(1) Some(0) Some(3) ";
    same(&rt, told.as_str(), wanted, "the keys of the labels");
    Ok(())
}

/// Plans of one test, each with what is told of its steps that call the store: the word of each,
/// that of its key, and the place of the first such step whose key is the same.
const NAMES: [(&str, &str); 3] = [
    // A name that is the name of a label's key is that key.
    (
        "[[key]]\nlabel = \"a\"\nname = \"b\"\n[[node]]\nid = \"[a:b]\"\ntest = [\"put a x\", \"want b x\", \"fail f\"]",
        "put a Some(0), want b Some(0), ",
    ),
    // A label is looked for first; a key of a namespace is another than the one of its name.
    (
        "[[key]]\nlabel = \"a\"\nname = \"b\"\n[[key]]\nlabel = \"b\"\nname = \"c\"\n[[key]]\nlabel = \"d\"\nname = \"e\"\nnamespace = [\"x\"]\n[[node]]\nid = \"[a:b]\"\ntest = [\"none a\", \"none b\", \"none c\", \"remove d\", \"compute e 1\"]",
        "none a Some(0), none b Some(1), none c Some(1), remove d Some(3), compute e Some(4), ",
    ),
    // No key needs a declaration.
    (
        "[[node]]\nid = \"[a:b]\"\ntest = [\"none q\", \"none p\", \"abort t\", \"none q\"]",
        "none q Some(0), none p Some(1), none q Some(0), ",
    ),
];

/// Writes the words of a call and of its key, and the place of the first of the keys that is equal
/// to it.
fn write_call(
    call: &StepCall<'_>,
    keys: &[CallKey<'_>],
    told: &mut String,
) -> Result<(), AllocError> {
    let place = keys.iter().position(|other| *other.key() == *call.key);
    write!(told, "{} {} {place:?}, ", call.name, call.label)
}

/// The keys that the steps name, in order.
fn keys_of<'b>(
    alloc: Global,
    names: &StepKeys<'b>,
    steps: &[Step],
) -> Result<Vec<CallKey<'b>>, AllocError> {
    let mut keys = Vec::new(alloc);
    for step in steps {
        if let Some(key) = step.key() {
            keys.push(names.key_of(alloc, key)?)?;
        }
    }
    Ok(keys)
}

/// Writes what is told of these steps.
fn write_steps(
    alloc: Global,
    names: StepKeys<'_>,
    steps: &[Step],
    told: &mut String,
) -> Result<(), AllocError> {
    let keys = keys_of(alloc, &names, steps)?;
    for step in steps {
        if let StepParts::Keyed(step) = step.parts() {
            let made = names.key_of(alloc, step.key)?;
            let call = names.call(step, made.key(), &[2, 1, 0]);
            write_call(&call, keys.as_slice(), told)?;
        }
    }
    Ok(())
}

/// What is told of the steps of a plan's first test.
fn names_told(alloc: Global, plan: &Plan) -> Result<String, Fail>
    requires { NamespacesHaveParts (plan_view plan.now) }
{
    let mut told = String::new(alloc);
    let keys = plan.store_keys(alloc)?;
    let names = StepKeys::of(plan.keys.as_slice(), keys.as_slice());
    let node = plan.nodes.first().ok_or("it has a node")?;
    if let Some(steps) = &node.test {
        write_steps(alloc, names, steps.as_slice(), &mut told)?;
    }
    Ok(told)
}

/// The same of the plan that a text writes.
fn read_names(alloc: Global, text: &str) -> Result<String, Fail> {
    let plan = read_plan(alloc, text)?;
    names_told(alloc, &plan)
}

/// Steps name keys by labels and by names, and those with the name of a label's key name that key.
/// Tests `Step::key`, `Step::parts`, `read_plan`, `StepKeys::key_of` and `StepKeys::call`.
#[test]
fn steps_name_keys_without_a_label(rt: HostRuntime) -> Result<(), Fail> {
    for (text, wanted) in &NAMES {
        let told = read_names(rt.alloc(), text)?;
        same(&rt, told.as_str(), *wanted, text);
    }
    Ok(())
}
