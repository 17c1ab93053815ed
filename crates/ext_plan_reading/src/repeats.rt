//! Repeated tests, as JUnit's `@RepeatedTest` makes them: a container, and its repetitions below it.
ghost use Rattle.std.specs.Prelude.{◌≡◌, ◌≢◌, ◌<◌, [], ◌∷◌, ◌++◌, All, IfErr, IfOk, OnOk, codes, length, map};
ghost use Rattle.std.specs.Fmt.{decimal};
ghost use Rattle.ext_plan_reading.specs.InnerSketches.{GivesAll, HasRoom, sketch_view};
ghost use Rattle.ext_plan_reading.specs.NodeReading.{repeated, repetition, repetitions, with_repetitions};
ghost use Rattle.ext_plan_reading.specs.declared.fault.PlanFault.TheVariants.{BadTree, Memory};

use crate::callbacks::CallbackSketch;
use crate::fault::PlanFault;
use crate::nodes::NodeSketch;
use ext_ids::{PartFault, UniqueId};
use std::alloc::{AllocError, Global};

/// The type of the last segment of a repetition's id, as JUnit has it.
const REPETITION: &str = "test-template-invocation";

/// All nodes that the sketches of the tables stand for, in order. Refused as `BadTree` before there
/// are many more than `most`.
pub(crate) fn with_repetitions<'a>(
    alloc: Global,
    most: usize,
    sketches: Vec<NodeSketch<'a>>,
) -> Result<Vec<NodeSketch<'a>>, PlanFault>
    requires { All HasRoom (map sketch_view sketches.items) }
    ensures all { IfOk result (λ v. map sketch_view v.items ≡ with_repetitions (map sketch_view sketches.entry.items)) }
    ensures refused { IfErr result (λ e. e ≢ Memory → (e ≡ BadTree) × (most < length (with_repetitions (map sketch_view sketches.entry.items)))) }
{
    let mut nodes = Vec::new(alloc);
    for sketch in sketches {
        if nodes.len() > most {
            return Err(PlanFault::BadTree);
        }
        push_repeated(alloc, &mut nodes, sketch)?;
    }
    Ok(nodes)
}

/// Puts the nodes that a sketch stands for behind the others.
fn push_repeated<'a>(
    alloc: Global,
    nodes: &mut Vec<NodeSketch<'a>>,
    sketch: NodeSketch<'a>,
) -> Result<(), AllocError>
    requires { HasRoom (sketch_view sketch) }
    ensures { OnOk result (map sketch_view nodes.new.items ≡ map sketch_view nodes.old.items ++ repeated (sketch_view sketch.entry) sketch.entry.repeat) }
{
    let Some(count) = sketch.repeat else {
        nodes.push(sketch)?;
        return Ok(());
    };
    let mut tests = repetitions(alloc, &sketch, count)?;
    let mut container = sketch;
    container.test = None;
    nodes.push(container)?;
    nodes.append(&mut tests)
}

/// The first repetitions of a test, so many.
fn repetitions<'a>(
    alloc: Global,
    test: &NodeSketch<'a>,
    count: usize,
) -> Result<Vec<NodeSketch<'a>>, AllocError>
    requires { length test.now.id < 16 }
    ensures { IfOk result (λ v. map sketch_view v.items ≡ repetitions (sketch_view test.now) count) }
{
    let mut tests = Vec::new(alloc);
    for before in 0..count {
        tests.push(repetition(alloc, test, before + 1)?)?;
    }
    Ok(tests)
}

/// The repetition of a test with this number.
fn repetition<'a>(
    alloc: Global,
    test: &NodeSketch<'a>,
    number: usize,
) -> Result<NodeSketch<'a>, AllocError>
    requires { length test.now.id < 16 }
    ensures { IfOk result (λ s. sketch_view s ≡ repetition (sketch_view test.now) number) }
{
    let id = repetition_id(alloc, &test.id, number)?;
    let steps = match &test.test {
        None => None,
        Some(steps) => Some(steps.clone()?),
    };
    Ok(NodeSketch {
        table: test.table,
        id,
        mode: test.mode,
        isolated: false,
        locks: None,
        callbacks: CallbackSketch::none(),
        test: steps,
        repeat: test.repeat,
    })
}

/// The id of the repetition with this number of the test with this id.
fn repetition_id(alloc: Global, id: &UniqueId, number: usize) -> Result<UniqueId, AllocError>
    requires { length id.now < 16 }
    ensures { IfOk result (λ r. r ≡ id.now ++ (codes "test-template-invocation", codes "#" ++ decimal number) ∷ []) }
{
    let value = format!(in alloc; "#{number}")?;
    // For the proof alone: it brings in that the id is one.
    let _segments = id.len();
    match id.append(alloc, REPETITION, value.as_str()) {
        Ok(id) => Ok(id),
        Err(fault) => match fault {
            PartFault::Memory => Err(AllocError),
            _ => unreachable!(),
        },
    }
}
