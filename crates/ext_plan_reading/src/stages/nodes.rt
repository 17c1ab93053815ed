//! The faults of the tree of the nodes' ids, and of the nodes in the second pass.
ghost use Rattle.std.specs.Prelude.{◌≡◌, ◌≢◌, ◌++◌, All, IfOk, None, OnOk, Some, map};
ghost use Rattle.ext_plan_reading.specs.AllFaults.{faults_of_nodes, is_noted, new_fault, node_faults, noted_after};
ghost use Rattle.ext_plan_reading.specs.InnerSketches.{HasRoom, sketch_view};
ghost use Rattle.ext_plan_reading.specs.NodeReading.{ids_of, with_repetitions};
ghost use Rattle.ext_plan_reading.specs.declared.fault.PlanFault.TheVariants.{Memory};

use crate::depths::least_test_depth;
use crate::fault::PlanFault;
use crate::labels::Labels;
use crate::nodes::{NodeSketch, node_of, tree_of};
use crate::repeats::with_repetitions;
use crate::stages::lists::listed;
use ext_model::Size;
use ext_tree::Tree;
use std::alloc::{AllocError, Global};

/// The faults of the tree and the nodes that these sketches of tables stand for.
pub(crate) fn faults_of_sketches(
    alloc: Global,
    size: Size,
    labels: &Labels<'_>,
    sketches: Vec<NodeSketch<'_>>,
) -> Result<Vec<PlanFault>, AllocError>
    requires { All HasRoom (map sketch_view sketches.items) }
    ensures { IfOk result (λ faults. faults.items ≡ faults_of_nodes size labels.now (with_repetitions (map sketch_view sketches.entry.items))) }
{
    match with_repetitions(alloc, size.contexts(), sketches) {
        Ok(all) => faults_of_nodes(alloc, size, labels, all.as_slice()),
        Err(fault) => listed(alloc, Some(fault)),
    }
}

/// The fault of the tree, or those of the nodes.
#[tactic(auto, unfolding(crate::specs::AllFaults::faults_of_nodes))]
fn faults_of_nodes(
    alloc: Global,
    size: Size,
    labels: &Labels<'_>,
    all: &[NodeSketch<'_>],
) -> Result<Vec<PlanFault>, AllocError>
    ensures { IfOk result (λ faults. faults.items ≡ faults_of_nodes size labels.now (map sketch_view all.now)) }
{
    match tree_of(alloc, size, all) {
        Ok(tree) => node_faults(alloc, labels, &tree, all),
        Err(fault) => listed(alloc, Some(fault)),
    }
}

/// The first fault of each table in the second pass over the nodes, in order. `tree` has to be the
/// tree of their ids.
fn node_faults(
    alloc: Global,
    labels: &Labels<'_>,
    tree: &Tree,
    all: &[NodeSketch<'_>],
) -> Result<Vec<PlanFault>, AllocError>
    requires { tree.now ≡ ids_of (map sketch_view all.now) }
    ensures { IfOk result (λ faults. faults.items ≡ node_faults labels.now (map sketch_view all.now) None 0 (map sketch_view all.now)) }
{
    let mut faults = Vec::new(alloc);
    let mut noted = None;
    for (number, sketch) in all.iter().enumerate() {
        let is_parent = !tree.children(number).is_empty();
        let least = least_test_depth(tree, all, number);
        let read = node_of(alloc, labels, is_parent, least, sketch);
        noted = add_node_fault(&mut faults, noted, sketch.table, read.err())?;
    }
    Ok(faults)
}

/// Puts the fault of a node of this table behind the others, if it has one and none of the same
/// table is `noted`. Returns the table whose fault was noted last.
fn add_node_fault(
    faults: &mut Vec<PlanFault>,
    noted: Option<usize>,
    table: usize,
    found: Option<PlanFault>,
) -> Result<Option<usize>, AllocError>
    ensures faults { OnOk result (faults.new.items ≡ faults.old.items ++ new_fault noted table found) }
    ensures noted { IfOk result (λ last. last ≡ noted_after noted table found) }
    ensures known { OnOk result (found ≢ Some Memory) }
{
    match found {
        None => Ok(noted),
        Some(PlanFault::Memory) => Err(AllocError),
        Some(_) if is_noted(noted, table) => Ok(Some(table)),
        Some(fault) => {
            faults.push(fault)?;
            Ok(Some(table))
        }
    }
}

/// Tests whether the fault of this table is noted.
fn is_noted(noted: Option<usize>, table: usize) -> bool
    ensures { result ≡ is_noted noted table }
{
    match noted {
        None => false,
        Some(noted) => noted == table,
    }
}
