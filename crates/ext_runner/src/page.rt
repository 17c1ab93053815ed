//! The page of a run.
ghost use Rattle.std.specs.Prelude.{◌<◌, All, length};

use crate::timeline::Timeline;
use ext_page::{Attempt, FaultRow, PlacedNodes, RunData, RunHead, SharedValue, Wait, page_of};
use ext_table::{NodeResult, Tree};
use std::alloc::{AllocError, Global};
use std::time::Duration;

/// What is said of a run as a whole.
#[derive(Clone, Copy)]
pub(crate) struct About<'a> {
    pub(crate) name: &'a str,
    pub(crate) lanes: usize,
    pub(crate) lock_names: &'a [String],
}

/// The page of a run with these results.
pub(crate) fn page_text(
    alloc: Global,
    about: About<'_>,
    tree: &Tree,
    results: &[NodeResult],
    timeline: Timeline,
    took: Option<Duration>,
) -> Result<String, AllocError>
    requires { All (λ r. r.node < length tree.now) results.now }
{
    let placed = PlacedNodes::of(alloc, tree, results)?;
    let head = head_of(alloc, about, took, timeline.lost)?;
    let Timeline {
        attempts,
        faults,
        waits,
        values,
        ..
    } = timeline;
    let run = RunData {
        head,
        locks: copied(alloc, about.lock_names)?,
        attempts: placed_attempts(alloc, &placed, attempts)?,
        faults: placed_faults(alloc, &placed, faults)?,
        waits: placed_waits(alloc, &placed, waits)?,
        values: placed_values(alloc, &placed, values)?,
        nodes: placed.nodes,
    };
    page_of(alloc, &run)
}

fn head_of(
    alloc: Global,
    about: About<'_>,
    took: Option<Duration>,
    has_lost: bool,
) -> Result<RunHead, AllocError> {
    let wall = took.unwrap_or(Duration::ZERO).as_micros();
    let note = if has_lost {
        Some(String::from_str(alloc, "there was no memory for all that is shown here")?)
    } else {
        None
    };
    Ok(RunHead {
        name: String::from_str(alloc, about.name)?,
        wall: u64::try_from(wall).unwrap_or(u64::MAX),
        lanes: about.lanes,
        note,
    })
}

fn copied(alloc: Global, names: &[String]) -> Result<Vec<String>, AllocError> {
    let mut copy = Vec::new(alloc);
    for name in names {
        copy.push(String::from_str(alloc, name.as_str())?)?;
    }
    Ok(copy)
}

/// The attempts of nodes that are shown, with their places.
fn placed_attempts(
    alloc: Global,
    placed: &PlacedNodes,
    attempts: Vec<Attempt>,
) -> Result<Vec<Attempt>, AllocError> {
    let mut shown = Vec::new(alloc);
    for attempt in attempts {
        if let Some(node) = placed.place(attempt.node) {
            shown.push(Attempt { node, ..attempt })?;
        }
    }
    Ok(shown)
}

fn placed_faults(
    alloc: Global,
    placed: &PlacedNodes,
    faults: Vec<FaultRow>,
) -> Result<Vec<FaultRow>, AllocError> {
    let mut shown = Vec::new(alloc);
    for fault in faults {
        if let Some(node) = placed.place(fault.node) {
            shown.push(FaultRow { node, ..fault })?;
        }
    }
    Ok(shown)
}

fn placed_waits(
    alloc: Global,
    placed: &PlacedNodes,
    waits: Vec<Wait>,
) -> Result<Vec<Wait>, AllocError> {
    let mut shown = Vec::new(alloc);
    for wait in waits {
        if let Some(node) = placed.place(wait.node) {
            let by = match wait.by {
                Some(by) => placed.place(by),
                None => None,
            };
            shown.push(Wait { node, by, ..wait })?;
        }
    }
    Ok(shown)
}

/// The values with the places of their nodes. A node that shares or makes a value ran.
fn placed_values(
    alloc: Global,
    placed: &PlacedNodes,
    values: Vec<SharedValue>,
) -> Result<Vec<SharedValue>, AllocError> {
    let mut shown = Vec::new(alloc);
    for value in values {
        let mut value = value;
        value.context = placed.place(value.context).unwrap_or(0);
        value.maker = placed.place(value.maker).unwrap_or(0);
        value.key = key_of(alloc, placed, value.context)?;
        shown.push(value)?;
    }
    Ok(shown)
}

/// The key of the value of a node that is shown: the node's name, since a node shares one.
fn key_of(alloc: Global, placed: &PlacedNodes, place: usize) -> Result<String, AllocError> {
    match placed.nodes.get(place) {
        Some(node) => String::from_str(alloc, node.name.as_str()),
        None => Ok(String::new(alloc)),
    }
}
