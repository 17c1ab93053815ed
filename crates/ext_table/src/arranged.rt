//! Tables that have some nodes of another, in another order.
ghost use Rattle.std.specs.Prelude.{◌≡◌, IfOk, Some, None, length, map, slice_get, slice_index_or, slice_set};
ghost use Rattle.ext_selection.specs.Nodes.{AreIndices};
ghost use Rattle.ext_table.specs.Arranging.{AreRenumbered, IsArranged, taken_from};

use crate::{Row, TestTable};
use std::alloc::{AllocError, Global};

impl<T: Drop> TestTable<T> {
    /// The table that has these nodes of this one, by their indices, in this order. What is said of a
    /// node stays, but for the node that it stands in: that is where its own now stands. A node
    /// whose own does not stand before it stands in the first. The indices are those of nodes, and
    /// none stands twice.
    ///
    /// The names of locks stay. There is no last node of any level, so that no node can be added.
    /// Takes memory, and drops the table where it is refused. An own rule.
    pub fn arranged(self, indices: &[usize]) -> Result<TestTable<T>, AllocError>
        requires { AreIndices (length self.rows.items) indices.now }
        ensures arranged { IfOk result (λ table. IsArranged self.ids.items self.rows.items indices.now table.ids.items table.rows.items) }
        ensures names { IfOk result (λ table. table.lock_names.items ≡ self.lock_names.items) }
    {
        let TestTable {
            alloc,
            ids,
            rows,
            lock_names,
            last: _,
        } = self;
        let count = rows.len();
        let ids = taken(alloc, ids, indices)?;
        let rows = taken(alloc, rows, indices)?;
        let rows = renumbered(alloc, rows, indices, count)?;
        Ok(TestTable {
            alloc,
            ids,
            rows,
            lock_names,
            last: Vec::new(alloc),
        })
    }
}

/// What stands at these indices, in their order. An index without anything, or that stands twice, is
/// left out.
fn taken<X: Drop>(alloc: Global, items: Vec<X>, indices: &[usize]) -> Result<Vec<X>, AllocError>
    ensures { IfOk result (λ taken. AreIndices (length items.items) indices.now → map (λ x. Some x) taken.items ≡ map (slice_get items.items) indices.now) }
{
    let mut slots = slots_of(alloc, items)?;
    let mut taken = Vec::with_capacity(alloc, indices.len())?;
    let slots = slots.as_mut_slice();
    for index in indices {
        let Some(item) = take_at(slots, *index) else {
            continue;
        };
        taken.push(item)?;
    }
    Ok(taken)
}

/// A slot for each of these.
fn slots_of<X: Drop>(alloc: Global, items: Vec<X>) -> Result<Vec<Option<X>>, AllocError>
    ensures { IfOk result (λ slots. slots.items ≡ map (λ x. Some x) items.items) }
{
    let mut slots = Vec::with_capacity(alloc, items.len())?;
    for item in items {
        slots.push(Some(item))?;
    }
    Ok(slots)
}

/// Takes what is in the slot at this index, if there is anything.
fn take_at<X: Drop>(slots: &mut [Option<X>], index: usize) -> Option<X>
    ensures taken { result ≡ taken_from slots.old index }
    ensures left { slots.new ≡ slice_set slots.old index None }
{
    if index < slots.len() {
        slots[index].take()
    } else {
        None
    }
}

/// The rows with the indices at which the nodes now stand that they stand in. There were so many
/// rows, and these stood at these indices.
fn renumbered<T: Drop>(
    alloc: Global,
    rows: Vec<Row<T>>,
    indices: &[usize],
    count: usize,
) -> Result<Vec<Row<T>>, AllocError>
    ensures { IfOk result (λ done. AreIndices count indices.now → AreRenumbered indices.now rows.items done.items) }
{
    let mut numbers = vec![in alloc; 0; count]?;
    let moved = numbers.as_mut_slice();
    let mut done = Vec::with_capacity(alloc, rows.len())?;
    for row in rows {
        let at = done.len();
        done.push(renumbered_row(row, moved))?;
        if at < indices.len() {
            put(moved, indices[at], at);
        }
    }
    Ok(done)
}

/// The row with the new index of the node that it stands in.
fn renumbered_row<T: Drop>(row: Row<T>, moved: &[usize]) -> Row<T>
    ensures { result ≡ record row { above = slice_index_or moved.now row.above 0 } }
{
    let above = number_at(moved, row.above);
    Row { above, ..row }
}

/// The number at this index, or 0 where there is none.
fn number_at(numbers: &[usize], index: usize) -> usize
    ensures { result ≡ slice_index_or numbers.now index 0 }
{
    if index < numbers.len() {
        numbers[index]
    } else {
        0
    }
}

/// Writes a number at this index, if there is one.
fn put(numbers: &mut [usize], index: usize, number: usize)
    ensures { numbers.new ≡ slice_set numbers.old index number }
{
    if index < numbers.len() {
        numbers[index] = number;
    }
}
