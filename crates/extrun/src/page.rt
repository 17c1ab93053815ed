//! The page of a run.
ghost use Rattle.std.specs.Prelude.{◌<◌, All, length};
ghost use Rattle.ext_plan_reading.specs.Plans.{plan_view};
ghost use Rattle.ext_plan_reading.specs.ReadPlans.{ids_of_nodes};

use crate::times::TestTimes;
use ext_page::{Attempt, FaultRow, NodeLocks, PlacedNodes, RunData, RunHead, TakenLock, page_of};
use ext_run::{FaultOrigin, Kind, NodeFault, NodeResult, Plan, PlanLock, ReportedFaults, Tree};
use std::alloc::{AllocError, Global};

/// What is known of a run beside its results.
#[derive(Drop)]
pub(crate) struct Course {
    pub(crate) lanes: usize,
    /// The names of the plan's locks.
    pub(crate) locks: Vec<String>,
    /// When each test ran.
    pub(crate) times: TestTimes,
    pub(crate) faults: ReportedFaults,
}

/// The names of a plan's locks, and the locks that its nodes hold. Takes memory.
pub(crate) fn locks_of(
    alloc: Global,
    plan: &Plan,
) -> Result<(Vec<String>, Vec<NodeLocks>), AllocError> {
    let names = plan.lock_names(alloc)?;
    let mut nodes = Vec::new(alloc);
    for node in 0..plan.tree().len() {
        nodes.push(node_locks(alloc, plan, names.as_slice(), node)?)?;
    }
    let mut copied = Vec::new(alloc);
    for name in names.iter() {
        copied.push(String::from_str(alloc, name)?)?;
    }
    Ok((copied, nodes))
}

/// The locks that a node and those above it name.
fn node_locks(
    alloc: Global,
    plan: &Plan,
    names: &[&str],
    node: usize,
) -> Result<NodeLocks, AllocError>
    requires { node < length (ids_of_nodes (plan_view plan.now).nodes) }
{
    let mut locks = Vec::new(alloc);
    let mut is_alone = false;
    for at in plan.tree().path(node).as_slice() {
        is_alone |= plan.is_isolated(*at);
        for lock in plan.locks_of(*at) {
            if let Some(place) = names.iter().position(|name| *name == lock.name()) {
                locks.push(TakenLock {
                    lock: place,
                    writes: matches!(lock, PlanLock::ReadWrite(_)),
                })?;
            }
        }
    }
    Ok(NodeLocks { locks, is_alone })
}

/// The page of a run of the plan of this name. Each node of a plan has a result.
pub(crate) fn page_text(
    alloc: Global,
    name: &str,
    tree: &Tree,
    results: &[NodeResult],
    course: Course,
) -> Result<String, AllocError>
    requires { All (λ r. r.node < length tree.now) results.now }
{
    let placed = PlacedNodes::of(alloc, tree, results)?;
    let Course {
        lanes,
        locks,
        times,
        faults,
    } = course;
    let TestTimes {
        attempts,
        waits,
        lost,
    } = times;
    let note = note_of(alloc, faults.lost || lost)?;
    let run = RunData {
        head: RunHead {
            name: String::from_str(alloc, name)?,
            wall: end_of(attempts.as_slice()),
            lanes,
            note: Some(note),
        },
        locks,
        nodes: placed.nodes,
        attempts,
        faults: fault_rows(alloc, faults.faults)?,
        waits,
        values: Vec::new(alloc),
    };
    page_of(alloc, &run)
}

/// What is said of a run in its page's head.
fn note_of(alloc: Global, has_lost: bool) -> Result<String, AllocError> {
    let of_values = "what nodes keep in stores is not shown";
    if has_lost {
        return format!(in alloc; "there was no memory for all that is shown; {of_values}");
    }
    String::from_str(alloc, of_values)
}

/// When the last test ended.
fn end_of(attempts: &[Attempt]) -> u64 {
    let mut end = 0;
    for attempt in attempts {
        end = attempt.ended.max(end);
    }
    end
}

fn fault_rows(alloc: Global, faults: Vec<NodeFault>) -> Result<Vec<FaultRow>, AllocError> {
    let mut rows = Vec::new(alloc);
    for fault in faults {
        let attempt = attempt_of(&fault);
        rows.push(FaultRow {
            node: fault.node,
            attempt,
            place: place_text(alloc, fault.origin)?,
            text: fault.text,
        })?;
    }
    Ok(rows)
}

/// The attempt of a fault, which is the first if it came in the test itself.
fn attempt_of(fault: &NodeFault) -> Option<usize> {
    match fault.origin {
        FaultOrigin::Step { call, .. } if matches!(call.kind, Kind::Test) => Some(1),
        _ => None,
    }
}

/// Where in its node a fault came.
fn place_text(alloc: Global, origin: FaultOrigin) -> Result<String, AllocError> {
    match origin {
        FaultOrigin::Close => String::from_str(alloc, "close"),
        FaultOrigin::Step { call, step } => {
            let word = word_of(call.kind);
            format!(in alloc; "{word}, step {step}")
        }
    }
}

fn word_of(kind: Kind) -> &'static str {
    match kind {
        Kind::BeforeAll => "before_all",
        Kind::BeforeEach => "before_each",
        Kind::Test => "test",
        Kind::AfterEach => "after_each",
        Kind::AfterAll => "after_all",
    }
}
