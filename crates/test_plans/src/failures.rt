//! What failed in a run, told once more.
use crate::same::same;
use ext_model::{ContextNo, Fault};
use ext_run::{
    Call, Failures, FaultOrigin, Kind, ListForm, NodeResult, ReportedFaults, RunListener, Size,
    failures_text, plan_of,
};
use std::alloc::{AllocError, Global};
use std::test::Fail;

/// A container with two tests.
const PLAN: &str =
    "node = [{ id = \"[e:x]\" }, { id = \"[e:x]/[m:1]\", test = [] }, { id = \"[e:x]/[m:2]\", test = [] }]\n";

/// A fault with this text.
fn fault(alloc: Global, text: &str) -> Result<Fault, AllocError> {
    Ok(Fault::Text(String::from_str(alloc, text)?))
}

/// At a step of this call.
fn at(kind: Kind, from: ContextNo, index: usize, step: usize) -> FaultOrigin {
    FaultOrigin::Step {
        call: Call { kind, from, index },
        step,
    }
}

/// What is told of these faults of the nodes of `PLAN`.
fn text_of(alloc: Global, told: &ReportedFaults, form: ListForm) -> Result<String, Fail> {
    let plan = plan_of(alloc, PLAN.as_bytes(), Size::Usual)?;
    Ok(failures_text(alloc, &plan, told, form)?)
}

/// Three faults of two nodes are told by the nodes' order, each with the call and the step, or the
/// close, where it came.
/// Tests `failures_text`, `plan_of`, `ReportedFaults::note` and `ReportedFaults::new`.
#[test]
fn faults_are_told_once_more_by_node(rt: HostRuntime) -> Result<(), Fail> {
    let alloc = rt.alloc();
    let failures = Failures::new(&rt, alloc);
    failures.faulted(2, at(Kind::Test, 2, 0, 3), &fault(alloc, "first")?);
    failures.faulted(1, FaultOrigin::Close, &Fault::Memory);
    failures.faulted(2, at(Kind::AfterEach, 0, 1, 0), &fault(alloc, "second")?);
    failures.ended(&NodeResult::skipped(2, true), 3);
    let told = failures.into_reported();
    same(&rt, told.lost, false, "whether a fault was lost");
    let text = text_of(alloc, &told, ListForm::Lines)?;
    let wanted =
        "[e:x]/[m:1]: no memory (close)\n[e:x]/[m:2]: first (test, step 3)\n[e:x]/[m:2]: second (after_each 1 of [e:x], step 0)\n";
    same(&rt, text.as_str(), wanted, "the faults");
    Ok(())
}

/// Faults of callbacks are told with the field of the plan, the callback's index and the step.
/// Tests `failures_text`.
#[test]
fn callbacks_are_told_by_their_field(rt: HostRuntime) -> Result<(), Fail> {
    let alloc = rt.alloc();
    let mut told = ReportedFaults::new(alloc);
    told.note(alloc, 0, at(Kind::BeforeAll, 0, 2, 1), &Fault::Memory);
    told.note(alloc, 0, at(Kind::AfterAll, 0, 0, 4), &Fault::Memory);
    told.note(alloc, 1, at(Kind::BeforeEach, 1, 0, 0), &Fault::Memory);
    let text = text_of(alloc, &told, ListForm::Lines)?;
    let wanted =
        "[e:x]: no memory (before_all 2, step 1)\n[e:x]: no memory (after_all 0, step 4)\n[e:x]/[m:1]: no memory (before_each 0 of [e:x]/[m:1], step 0)\n";
    same(&rt, text.as_str(), wanted, "the faults");
    Ok(())
}

const AS_JSON: &str =
    r#"{"id":"[e:x]","fault":"no memory","call":"before_all","index":2,"of":"[e:x]","step":1}
{"id":"[e:x]/[m:1]","fault":"no memory","call":"close","index":null,"of":null,"step":null}
{"id":"[e:x]/[m:1]","fault":"no memory","call":"before_each","index":0,"of":"[e:x]/[m:1]","step":5}
{"id":"[e:x]/[m:2]","fault":"a \"b\"","call":"test","index":null,"of":null,"step":3}
{"id":"[e:x]/[m:2]","fault":"second","call":"after_each","index":1,"of":"[e:x]","step":0}
"#;

/// Faults of a close, a test and callbacks are told as JSON, by the nodes' order, with what does
/// not apply as `null`.
/// Tests `failures_text`.
#[test]
fn faults_are_told_as_json(rt: HostRuntime) -> Result<(), Fail> {
    let alloc = rt.alloc();
    let mut told = ReportedFaults::new(alloc);
    told.note(alloc, 2, at(Kind::Test, 2, 0, 3), &fault(alloc, "a \"b\"")?);
    told.note(alloc, 1, FaultOrigin::Close, &Fault::Memory);
    told.note(
        alloc,
        2,
        at(Kind::AfterEach, 0, 1, 0),
        &fault(alloc, "second")?,
    );
    told.note(alloc, 0, at(Kind::BeforeAll, 0, 2, 1), &Fault::Memory);
    told.note(alloc, 1, at(Kind::BeforeEach, 1, 0, 5), &Fault::Memory);
    let text = text_of(alloc, &told, ListForm::Json)?;
    same(&rt, text.as_str(), AS_JSON, "the faults");
    Ok(())
}

/// A fault was lost for want of memory, and the JSON tells so behind those that were not.
/// Tests `failures_text`.
#[test]
fn lost_faults_are_told_as_json(rt: HostRuntime) -> Result<(), Fail> {
    let alloc = rt.alloc();
    let mut told = ReportedFaults::new(alloc);
    told.note(alloc, 0, at(Kind::AfterAll, 0, 0, 4), &Fault::Memory);
    told.lost = true;
    let text = text_of(alloc, &told, ListForm::Json)?;
    let wanted =
        "{\"id\":\"[e:x]\",\"fault\":\"no memory\",\"call\":\"after_all\",\"index\":0,\"of\":\"[e:x]\",\"step\":4}\n{\"lost\":true}\n";
    same(&rt, text.as_str(), wanted, "the faults");
    Ok(())
}

/// A fault was lost for want of memory, and a line tells so behind those that were not.
/// Tests `failures_text`.
#[test]
fn lost_faults_are_told(rt: HostRuntime) -> Result<(), Fail> {
    let alloc = rt.alloc();
    let mut told = ReportedFaults::new(alloc);
    told.note(alloc, 1, FaultOrigin::Close, &Fault::Memory);
    told.lost = true;
    let text = text_of(alloc, &told, ListForm::Lines)?;
    let wanted = "[e:x]/[m:1]: no memory (close)\nfurther faults were lost: no memory\n";
    same(&rt, text.as_str(), wanted, "the faults");
    Ok(())
}
