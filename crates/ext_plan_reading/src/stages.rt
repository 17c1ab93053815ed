//! All faults of a text that is no plan.
ghost use Rattle.std.specs.Prelude.{◌≡◌, ◌≤◌, IfOk, map};
ghost use Rattle.toml.specs.View.{table_view};
ghost use Rattle.ext_plan_reading.specs.AllFaults.{BeginAs, faults_behind_tables, faults_of, faults_of_tables, faults_of_text};
ghost use Rattle.ext_plan_reading.specs.InnerTop.{top_view};
ghost use Rattle.ext_plan_reading.specs.Reading.{plan_of_text};

mod lists;
mod nodes;
mod tables;

use crate::fault::PlanFault;
use crate::keys::keys_of;
use crate::nodes::sketches_of;
use crate::read::plan_of_tables;
use crate::top::{Top, top_of};
use ext_model::Size;
use lists::listed;
use nodes::faults_of_sketches;
use std::alloc::{AllocError, Global};
use tables::table_faults;
use toml::Table;

/// Finds all faults of a text, in the order in which `read_plan_within` with this size would come
/// to them; none if the text is a plan. The first one is that call's answer.
///
/// They come in stages. A stage is looked at only where those before it have no fault.
///
/// 1. `NotToml`, alone.
/// 2. The first of the top fields' `UnknownField` and `BadField`.
/// 3. Of each key its first of `UnknownField`, `BadField` and `BadLabel`, and then of each node its
///    first of `UnknownField`, `BadField` and `BadId`. A label that is a text counts as that of a
///    key before, also where that key is refused.
/// 4. `BadTree`.
/// 5. Of each node the first of `BadTest`, `BadLock` and `BadStep`. A repeated test and its
///    repetitions are one table, of which the first fault is listed.
/// 6. `TooMany`.
///
/// Neither `NotUtf8` nor `Memory` is among them. Fails with `AllocError` only if memory is refused.
///
/// Takes memory for what `read_plan_within` takes it for, and for the faults, at most one for each
/// table. It reads a text without a fault in stages 1 to 3 up to three times.
pub fn all_faults(alloc: Global, text: &str, size: Size) -> Result<Vec<PlanFault>, AllocError>
    ensures exact { IfOk result (λ faults. faults.items ≡ faults_of_text size text.now) }

    // There are none of a plan, and of any other text the first is why it is no plan.
    ensures first { IfOk result (λ faults. BeginAs (plan_of_text size text.now) faults.items) }
{
    faults_in(alloc, text, size)
}

/// The faults of a text.
#[tactic(auto, unfolding(crate::specs::AllFaults::faults_of_text))]
fn faults_in(alloc: Global, text: &str, size: Size) -> Result<Vec<PlanFault>, AllocError>
    ensures { IfOk result (λ faults. faults.items ≡ faults_of_text size text.now) }
{
    match toml::table_from_str(alloc, text) {
        Ok(top) => faults_of(alloc, &top, size),
        Err(fault) if fault.is_memory() => Err(AllocError),
        Err(_) => listed(alloc, Some(PlanFault::NotToml)),
    }
}

/// The faults of a document.
#[tactic(auto, unfolding(crate::specs::AllFaults::faults_of))]
fn faults_of(alloc: Global, top: &Table, size: Size) -> Result<Vec<PlanFault>, AllocError>
    ensures { IfOk result (λ faults. faults.items ≡ faults_of size (table_view top.now)) }
{
    match top_of(alloc, top) {
        Ok(top) => faults_of_tables(alloc, &top, size),
        Err(fault) => listed(alloc, Some(fault)),
    }
}

/// The faults of a document with these top fields, which are in order.
#[tactic(auto, unfolding(crate::specs::AllFaults::faults_of_tables))]
fn faults_of_tables(alloc: Global, top: &Top<'_>, size: Size) -> Result<Vec<PlanFault>, AllocError>
    requires { top.now.key_places ≤ 1024 }
    ensures { IfOk result (λ faults. faults.items ≡ faults_of_tables size (top_view top.now)) }
{
    let key_tables = top.key_tables.as_slice();
    let node_tables = top.node_tables.as_slice();
    let faults = table_faults(alloc, key_tables, node_tables)?;
    if !faults.is_empty() {
        return Ok(faults);
    }
    let faults = faults_behind_tables(alloc, size, key_tables, node_tables)?;
    if !faults.is_empty() {
        return Ok(faults);
    }
    let read = plan_of_tables(
        alloc,
        size,
        top.keep_faults,
        top.key_places,
        key_tables,
        node_tables,
    );
    listed(alloc, read.err())
}

/// The faults of the tree and the nodes in these tables.
#[tactic(auto, unfolding(crate::specs::AllFaults::faults_behind_tables))]
fn faults_behind_tables(
    alloc: Global,
    size: Size,
    key_tables: &[&Table],
    node_tables: &[&Table],
) -> Result<Vec<PlanFault>, AllocError>
    ensures { IfOk result (λ faults. faults.items ≡ faults_behind_tables size (map (λ t. table_view t.now) key_tables.now) (map (λ t. table_view t.now) node_tables.now)) }
{
    let keys = match keys_of(alloc, key_tables) {
        Ok(keys) => keys,
        Err(fault) => return listed(alloc, Some(fault)),
    };
    match sketches_of(alloc, node_tables) {
        Ok(sketches) => faults_of_sketches(alloc, size, &keys.labels, sketches),
        Err(fault) => listed(alloc, Some(fault)),
    }
}
