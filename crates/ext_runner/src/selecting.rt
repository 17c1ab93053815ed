//! The tests of a table that are run, in their order.
ghost use Rattle.std.specs.Prelude.{◌≡◌, ◌++◌, IfOk, List, ℕ, map, string_bytes};
ghost use Rattle.std.specs.List.{AllZip, flat_map};
ghost use Rattle.std.specs.Str.Lines.{lines};
ghost use Rattle.ext_runner.specs.InnerCommand.{IsCopy};
ghost use Rattle.ext_runner.specs.InnerEarlierRuns.{failed_ids};
ghost use Rattle.ext_runner.specs.InnerSelecting.{AreBelow, AreBelowAny, FailedBefore, IsSeedOf, IsSelectionOf, SelectedBy, text_at};
ghost use Rattle.ext_runner.specs.Selecting.{IsInOrder, IsSelected, node_of};

use crate::command::{Order, Selecting};
use crate::earlier_run::{EarlierFault, failed_ids};
use ext_ids::UniqueId;
use ext_selection::{Node, Selection, chosen, shuffled};
use ext_table::{Mode, Row, TestTable};
use std::alloc::{AllocError, Global};
use std::fs;
use std::time::SystemTime;

/// The table of the tests that are selected, and of what these stand in: in the order of the table,
/// or in the one that the seed gives. It has no node where no test is selected. Takes memory, and
/// drops the table where it is refused. An own rule, for JUnit 5 User Guide, sections "Running Tests"
/// and "Test Execution Order".
pub fn select<T: Drop>(
    alloc: Global,
    table: TestTable<T>,
    selection: &Selection,
    seed: Option<u64>,
) -> Result<TestTable<T>, AllocError>
    ensures selected { IfOk result (λ selected. IsSelected selection.now seed table.ids.items table.rows.items selected.ids.items selected.rows.items) }
    ensures names { IfOk result (λ selected. selected.lock_names.items ≡ table.lock_names.items) }
{
    let nodes = nodes_of(alloc, table.rows.as_slice())?;
    let ids = table.ids.as_slice();
    let indices = indices_of(alloc, ids, nodes.as_slice(), selection, seed)?;
    table.arranged(indices.as_slice())
}

/// The indices of the selected nodes, in their order.
fn indices_of(
    alloc: Global,
    ids: &[UniqueId],
    nodes: &[Node],
    selection: &Selection,
    seed: Option<u64>,
) -> Result<Vec<usize>, AllocError>
    ensures { IfOk result (λ indices. IsInOrder selection.now seed ids.now nodes.now indices.items) }
{
    let indices = chosen(alloc, ids, nodes, selection)?;
    match seed {
        Some(seed) => shuffled(alloc, ids, nodes, indices.as_slice(), seed),
        None => Ok(indices),
    }
}

/// What a selection looks at of these rows.
fn nodes_of<T>(alloc: Global, rows: &[Row<T>]) -> Result<Vec<Node>, AllocError>
    ensures { IfOk result (λ nodes. nodes.items ≡ map node_of rows.now) }
{
    rows.iter().map(node_of).collect(alloc)
}

/// What a selection looks at of a row.
fn node_of<T>(row: &Row<T>) -> Node
    ensures { result ≡ node_of row.now }
{
    Node {
        is_test: row.test.is_some(),
        is_in_turn: matches!(row.mode, Mode::SameThread),
        above: row.above,
    }
}

/// Why no tests are selected.
#[derive(Drop)]
pub(crate) enum SelectingFault {
    Memory,
    /// The file with the earlier run was not read, for this.
    Earlier(String),
}

impl From<AllocError> for SelectingFault {
    ghost use Rattle.std.specs.Prelude.{◌≡◌};
    ghost use Rattle.ext_runner.specs.declared.selecting.SelectingFault.TheVariants as faults;

    ghost from_gives = { λ why fault. fault ≡ faults.Memory };

    fn from(_why: AllocError) -> SelectingFault {
        SelectingFault::Memory
    }
}

/// The table of the tests that the words select, in the order that the seed gives, if there is one.
pub(crate) fn selected_by<T: Drop>(
    rt: &HostRuntime,
    table: TestTable<T>,
    selecting: &Selecting,
    seed: Option<u64>,
) -> Result<TestTable<T>, SelectingFault>
    ensures { IfOk result (λ selected. SelectedBy selecting.now seed table.ids.items table.rows.items selected.ids.items selected.rows.items) }
{
    let selection = selection_of(rt, &table, selecting)?;
    Ok(select(rt.alloc(), table, &selection, seed)?)
}

/// The seed of the order, if there is one. It is told, so that the order can be had again.
pub(crate) fn seed_of(rt: &HostRuntime, order: Order) -> anyhow::Result<Option<u64>>
    ensures { IfOk result (IsSeedOf order) }
{
    let seed = match order {
        Order::Listed => return Ok(None),
        Order::Seed(seed) => seed,
        Order::AnySeed => any_seed(rt)?,
    };
    eprintln!(rt; "the order is that of --shuffle={seed}")?;
    Ok(Some(seed))
}

/// A seed by the clock.
fn any_seed(rt: &HostRuntime) -> anyhow::Result<u64> {
    let now = SystemTime::now(rt)?.duration_since(SystemTime::UNIX_EPOCH)?;
    Ok(u64::from(now.subsec_nanos()))
}

/// Which tests of a table the words select.
fn selection_of<T>(
    rt: &HostRuntime,
    table: &TestTable<T>,
    selecting: &Selecting,
) -> Result<Selection, SelectingFault>
    ensures { IfOk result (IsSelectionOf selecting.now table.now.ids.items table.now.rows.items) }
{
    let failed = match &selecting.failed {
        Some(file) => Some(failed_before(rt, table, file.as_str())?),
        None => None,
    };
    Ok(selection_with(selecting, failed)?)
}

/// The selection by these words, and by these ids of tests.
fn selection_with(
    selecting: &Selecting,
    failed: Option<Vec<String>>,
) -> Result<Selection, AllocError>
    ensures texts { IfOk result (λ s. AllZip IsCopy selecting.now.texts.items s.texts.items) }
    ensures skips { IfOk result (λ s. AllZip IsCopy selecting.now.skips.items s.skips.items) }
    ensures exact { IfOk result (λ s. s.exact ≡ selecting.now.exact) }
    ensures shard { IfOk result (λ s. s.shard ≡ selecting.now.shard) }
    ensures failed { IfOk result (λ s. s.failed ≡ failed) }
{
    Ok(Selection {
        texts: selecting.texts.clone()?,
        exact: selecting.exact,
        skips: selecting.skips.clone()?,
        shard: selecting.shard,
        failed,
    })
}

/// The ids of the tests that failed in the run which wrote this file, and of all that stand in a
/// container which failed.
fn failed_before<T>(
    rt: &HostRuntime,
    table: &TestTable<T>,
    file: &str,
) -> Result<Vec<String>, SelectingFault>
    ensures { IfOk result (λ ids. FailedBefore table.now.ids.items table.now.rows.items (map string_bytes ids.items)) }
{
    let alloc = rt.alloc();
    let report = match fs::read_to_string(rt, file) {
        Ok(report) => report,
        Err(why) => return Err(SelectingFault::Earlier(format!(in alloc; "{file}: {why}")?)),
    };
    let mut ids = failed_in(alloc, file, report.as_str(), true)?;
    let containers = failed_in(alloc, file, report.as_str(), false)?;
    add_below_any(alloc, table, containers, &mut ids)?;
    Ok(ids)
}

/// The ids of the tests that failed in the run of this report, or else those of the containers.
fn failed_in(
    alloc: Global,
    file: &str,
    report: &str,
    are_tests: bool,
) -> Result<Vec<String>, SelectingFault>
    ensures { IfOk result (λ ids. map string_bytes ids.items ≡ failed_ids are_tests (lines report.now)) }
{
    match failed_ids(alloc, report, are_tests) {
        Ok(ids) => Ok(ids),
        Err(EarlierFault::Memory) => Err(SelectingFault::Memory),
        Err(EarlierFault::Line(line)) => {
            let why = format!(in alloc; "{file}: line {line} is no line of a report in JSON")?;
            Err(SelectingFault::Earlier(why))
        }
    }
}

/// Adds what `add_below` does, where there are such containers.
fn add_below_any<T>(
    alloc: Global,
    table: &TestTable<T>,
    containers: Vec<String>,
    ids: &mut Vec<String>,
) -> Result<(), AllocError>
    ensures { IfOk result (λ _. (added : List (List ℕ)) × AreBelowAny table.now.ids.items table.now.rows.items (map string_bytes containers.items) added
        × (map string_bytes ids.new.items ≡ map string_bytes ids.old.items ++ added)) }
{
    if containers.is_empty() {
        return Ok(());
    }
    add_below(alloc, table, containers, ids)
}

/// Adds the ids of all nodes of a table that stand in one of these containers, or that it stands in.
fn add_below<T>(
    alloc: Global,
    table: &TestTable<T>,
    containers: Vec<String>,
    ids: &mut Vec<String>,
) -> Result<(), AllocError>
    ensures { IfOk result (λ _. (added : List (List ℕ)) × AreBelow table.now.ids.items table.now.rows.items (map string_bytes containers.items) added
        × (map string_bytes ids.new.items ≡ map string_bytes ids.old.items ++ added)) }
{
    let below = Selection {
        texts: containers,
        exact: true,
        skips: Vec::new(alloc),
        shard: None,
        failed: None,
    };
    let nodes = nodes_of(alloc, table.rows.as_slice())?;
    let indices = chosen(alloc, table.ids.as_slice(), nodes.as_slice(), &below)?;
    add_ids(alloc, table.ids.as_slice(), indices.as_slice(), ids)
}

/// Adds the texts of the ids at these indices.
fn add_ids(
    alloc: Global,
    all: &[UniqueId],
    indices: &[usize],
    ids: &mut Vec<String>,
) -> Result<(), AllocError>
    ensures { IfOk result (λ _. map string_bytes ids.new.items ≡ map string_bytes ids.old.items ++ flat_map (text_at all.now) indices.now) }
{
    for index in indices {
        add_id(alloc, all, *index, ids)?;
    }
    Ok(())
}

/// Adds the text of the id at this index, if there is one.
fn add_id(
    alloc: Global,
    all: &[UniqueId],
    index: usize,
    ids: &mut Vec<String>,
) -> Result<(), AllocError>
    ensures { IfOk result (λ _. map string_bytes ids.new.items ≡ map string_bytes ids.old.items ++ text_at all.now index) }
{
    match all.get(index) {
        Some(id) => {
            let mut text = String::new(alloc);
            id.write_to(&mut text)?;
            Ok(ids.push(text)?)
        }
        None => Ok(()),
    }
}
