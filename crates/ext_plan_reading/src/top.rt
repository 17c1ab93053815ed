//! The top fields of a plan's document.
ghost use Rattle.std.specs.Prelude.{◌≤◌, IfOk};
ghost use Rattle.toml.specs.View.{table_view};
ghost use Rattle.ext_plan_reading.specs.Faults.{Gives};
ghost use Rattle.ext_plan_reading.specs.InnerTop.{top_view};
ghost use Rattle.ext_plan_reading.specs.TopReading.{top_at};

use crate::fault::{PlanFault, PlanPart};
use crate::fields::{TOP_FIELDS, has_only, key_places_at, tables_at, truth_at};
use std::alloc::Global;
use toml::Table;

/// What the top fields hold. The tables are borrowed from the document.
#[derive(Drop)]
pub(crate) struct Top<'a> {
    pub keep_faults: bool,
    pub key_places: usize,
    pub key_tables: Vec<&'a Table>,
    pub node_tables: Vec<&'a Table>,
}

/// The top fields of a document. There are places for at most 1,024 keys.
#[tactic(auto, unfolding(crate::specs::TopReading::top_at))]
pub(crate) fn top_of<'a>(alloc: Global, top: &'a Table) -> Result<Top<'a>, PlanFault>
    ensures exact { Gives top_view result (top_at (table_view top.now)) }
    ensures few { IfOk result (λ top. top.key_places ≤ 1024) }
{
    let fault = PlanFault::BadField(PlanPart::Whole);
    if !has_only(&TOP_FIELDS, top) {
        return Err(PlanFault::UnknownField(PlanPart::Whole));
    }
    let keep_faults = truth_at(top, "keep_faults", fault)?;
    let key_places = key_places_at(top, "keys", fault)?;
    let key_tables = tables_at(alloc, top, "key", fault)?;
    let node_tables = tables_at(alloc, top, "node", fault)?;
    Ok(Top {
        keep_faults,
        key_places,
        key_tables,
        node_tables,
    })
}
