//! The parts of a store that is opened: its cells and values, its lanes and its closers.
ghost use Rattle.std.specs.Prelude.{◌≡◌, ◌≤◌, ◌↔◌, IfOk, IsTrue, MatchResult, map};
ghost use Rattle.ext_store.specs.Stores.{AreStoreLimits, closers_below, fresh_store_lane};
ghost use Rattle.ext_store.specs.Opening.{AreOpened, AreParts, IsNotOpened, fault_count, places_for};

use crate::{Closer, Lane, Limits, StoreFault};
use ext_cells::{CellLane, Cells, are_limits};
use ext_model::{ContextNo, Fault, KeyNo};
use ext_tree::KeyPlaces;
use ext_values::{Notes, SilentNotes, Values};
use std::alloc::{AllocError, Global};
use std::snapshot::Snapshot;

// How many slots there are for faults: one for each number if faults are kept, and otherwise none.
fn fault_capacity(numbers: u32, keep_faults: bool) -> u32
    ensures { result ≡ fault_count keep_faults numbers }
{
    if keep_faults { numbers } else { 0 }
}

// How many places for keys there are: for so many keys, in whole blocks of 32.
fn places_for(keys: KeyNo) -> usize
    requires { keys ≤ 1024 }
    ensures { result ≡ places_for keys }
{
    (keys + 31) / 32 * 32
}

// Whether a store may be opened with these limits.
fn are_store_limits(limits: &Limits) -> bool
    ensures { IsTrue result ↔ AreStoreLimits limits.now.size limits.now.keys limits.now.lanes limits.now.tries limits.now.numbers }
{
    (1..=1024).contains(&limits.keys)
        && are_limits(limits.size, 0, limits.lanes, limits.tries, limits.numbers)
}

// The parts of a store with so many contexts: the cells, the slots of values and of kept faults, the
// places of keys, a lane for each lane of the limits, and a closer for each of the contexts. Or why it is
// not opened.
pub(crate) fn open_parts<V: Drop>(
    alloc: Global,
    contexts: ContextNo,
    limits: Limits,
) -> Result<
    (
        Cells,
        Values<V>,
        Values<Fault>,
        KeyPlaces,
        Vec<Lane<V>>,
        Vec<Closer>,
    ),
    StoreFault,
>
    requires { contexts ≤ 65536 }
    ensures { MatchResult result
        (λ r. AreOpened limits.size contexts limits.keys limits.lanes limits.tries limits.numbers limits.keep_faults r.0 r.1 r.2 r.3 r.4.items r.5.items)
        (IsNotOpened limits.size limits.keys limits.lanes limits.tries limits.numbers) }
{
    if !are_store_limits(&limits) {
        return Err(StoreFault::BadLimit);
    }
    match parts_of(alloc, contexts, limits) {
        Ok(parts) => Ok(parts),
        Err(_) => Err(StoreFault::Memory),
    }
}

// The parts of a store whose limits are within their ranges.
fn parts_of<V: Drop>(
    alloc: Global,
    contexts: ContextNo,
    limits: Limits,
) -> Result<
    (
        Cells,
        Values<V>,
        Values<Fault>,
        KeyPlaces,
        Vec<Lane<V>>,
        Vec<Closer>,
    ),
    AllocError,
>
    requires contexts { contexts ≤ 65536 }
    requires limits { AreStoreLimits limits.size limits.keys limits.lanes limits.tries limits.numbers }
    ensures { IfOk result (λ r. AreParts contexts limits.keys limits.lanes limits.tries limits.numbers limits.keep_faults r.0 r.1 r.2 r.3 r.4.items r.5.items) }
{
    let Limits {
        lanes,
        tries,
        keys,
        numbers,
        keep_faults,
        ..
    } = limits;
    let places = places_for(keys);
    let count = contexts * places;
    let Ok((cells, cell_lanes)) = Cells::open_for(alloc, count, lanes, tries, numbers, keep_faults)
    else {
        return Err(AllocError);
    };
    let Ok(values) = Values::new(alloc, numbers) else {
        return Err(AllocError);
    };
    let Ok(faults) = Values::new(alloc, fault_capacity(numbers, keep_faults)) else {
        return Err(AllocError);
    };
    let Ok(keys) = KeyPlaces::new(alloc, places) else {
        return Err(AllocError);
    };
    let lanes = lanes_of(alloc, &values, &faults, &keys, cell_lanes)?;
    let closers = closers_of(alloc, &cells, contexts)?;
    Ok((cells, values, faults, keys, lanes, closers))
}

// A lane for each lane of the cells, in order. It has room to know the value and the fault of every
// number, and every key.
fn lanes_of<V: Drop>(
    alloc: Global,
    values: &Values<V>,
    faults: &Values<Fault>,
    keys: &KeyPlaces,
    cell_lanes: Vec<CellLane>,
) -> Result<Vec<Lane<V>>, AllocError>
    ensures { IfOk result (λ lanes. lanes.items ≡ map (fresh_store_lane values.now faults.now keys.now) cell_lanes.items) }
{
    let mut lanes = Vec::with_capacity(alloc, cell_lanes.len())?;
    for cells in cell_lanes {
        let Ok(notes) = Notes::new(alloc, values) else {
            return Err(AllocError);
        };
        let Ok(faults) = SilentNotes::new(alloc, faults) else {
            return Err(AllocError);
        };
        let Ok(keys) = keys.notes() else {
            return Err(AllocError);
        };
        lanes.push(Lane {
            cells,
            notes,
            faults,
            keys,
        })?;
    }
    Ok(lanes)
}

// A closer for each of the contexts, in order.
fn closers_of(alloc: Global, cells: &Cells, contexts: ContextNo) -> Result<Vec<Closer>, AllocError>
    ensures { IfOk result (λ closers. closers.items ≡ closers_below cells.now.id contexts) }
{
    let mut closers = Vec::with_capacity(alloc, contexts)?;
    for context in 0..contexts {
        closers.push(Closer {
            context,
            cells: Snapshot::of(cells),
        })?;
    }
    Ok(closers)
}
