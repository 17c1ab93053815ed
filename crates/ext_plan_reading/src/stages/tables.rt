//! The faults of the tables of keys and nodes, before anything is made of all nodes.
ghost use Rattle.std.specs.Prelude.{◌≡◌, ◌++◌, [], IfOk, OnOk, codes, map};
ghost use Rattle.toml.specs.View.{table_view};
ghost use Rattle.ext_plan_reading.specs.AllFaults.{fault_of, key_faults, sketch_faults, with_label};
ghost use Rattle.ext_plan_reading.specs.Fields.{text_at};
ghost use Rattle.ext_plan_reading.specs.KeyReading.{key_at};

use crate::fault::PlanFault;
use crate::fields::text_at;
use crate::keys::key_of;
use crate::labels::Labels;
use crate::nodes::sketch_of;
use crate::stages::lists::add_fault;
use std::alloc::{AllocError, Global};
use toml::Table;

/// The first fault of each key, and then of each node.
pub(crate) fn table_faults(
    alloc: Global,
    key_tables: &[&Table],
    node_tables: &[&Table],
) -> Result<Vec<PlanFault>, AllocError>
    ensures { IfOk result (λ faults. faults.items ≡ key_faults 0 [] (map (λ t. table_view t.now) key_tables.now) ++ sketch_faults 0 (map (λ t. table_view t.now) node_tables.now)) }
{
    let mut faults = key_faults(alloc, key_tables)?;
    let mut more = sketch_faults(alloc, node_tables)?;
    faults.append(&mut more)?;
    Ok(faults)
}

/// The first fault of each key, in order.
fn key_faults(alloc: Global, tables: &[&Table]) -> Result<Vec<PlanFault>, AllocError>
    ensures { IfOk result (λ faults. faults.items ≡ key_faults 0 [] (map (λ t. table_view t.now) tables.now)) }
{
    let mut labels = Labels::new(alloc);
    let mut faults = Vec::new(alloc);
    for (number, table) in tables.iter().enumerate() {
        add_key_fault(alloc, &mut labels, &mut faults, number, table)?;
    }
    Ok(faults)
}

/// Puts the first fault of a key behind the others, and its label to the labels of the keys before
/// the next one.
fn add_key_fault<'a>(
    alloc: Global,
    labels: &mut Labels<'a>,
    faults: &mut Vec<PlanFault>,
    number: usize,
    table: &'a Table,
) -> Result<(), AllocError>
    ensures faults { OnOk result (faults.new.items ≡ faults.old.items ++ fault_of (key_at number labels.old (table_view table.now))) }
    ensures labels { OnOk result (labels.new ≡ with_label labels.old (text_at (codes "label") (table_view table.now))) }
{
    let fault = match key_of(alloc, labels, number, table) {
        Ok(_) => return Ok(()),
        Err(PlanFault::Memory) => return Err(AllocError),
        Err(fault) => fault,
    };
    faults.push(fault)?;
    add_label(labels, table)
}

/// Adds the label of a key's table, if it is a text.
fn add_label<'a>(labels: &mut Labels<'a>, table: &'a Table) -> Result<(), AllocError>
    ensures { OnOk result (labels.new ≡ with_label labels.old (text_at (codes "label") (table_view table.now))) }
{
    if let Some(label) = text_at(table, "label") {
        labels.add(label)?;
    }
    Ok(())
}

/// The first fault of each node in the first pass, in order.
fn sketch_faults(alloc: Global, tables: &[&Table]) -> Result<Vec<PlanFault>, AllocError>
    ensures { IfOk result (λ faults. faults.items ≡ sketch_faults 0 (map (λ t. table_view t.now) tables.now)) }
{
    let mut faults = Vec::new(alloc);
    for (number, table) in tables.iter().enumerate() {
        let read = sketch_of(alloc, number, table);
        add_fault(&mut faults, read.err())?;
    }
    Ok(faults)
}
