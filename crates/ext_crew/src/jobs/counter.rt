//! The counter: it is opened over the items, drawn from by workers, given outcomes, and closed.
ghost use Rattle.std.specs.Prelude.{◌≡◌, ℕ, ◌+◌, ◌<◌, ◌≤◌, ◌++◌, [], ◌∷◌, List, Option, length, map, cond, ltb, Some, None, slice_get, vec_capacity, filter_map, vec_len, All, IfOk, IfSome, IfNone};
ghost use Rattle.ext_crew.specs.InnerCounter.{done_by, slot_of, outcomes_in, IsCounter, IsOpen, IsDrawing, HasDrawn, HasEnded};
ghost use Rattle.ext_crew.specs.Times.{times};
ghost use Rattle.ext_crew.specs.declared.jobs.slot.Slot.TheVariants.{Item, Empty};

use crate::jobs::Done;
use crate::jobs::job::Job;
use crate::jobs::rule::{Counter, CounterTable, Draws, Hand, Loads};
use crate::jobs::slot::Slot;
use atomic_table::{Refused, Table};
use std::alloc::{AllocError, Allocator};
use std::snapshot::Snapshot;
use std::sync::Wait;

/// Opens a counter at 0 over a slot for each item, and gives it with the first hand, from which
/// those of up to 32 workers can be split off (`split_seat::<Hires>` of the counter).
///
/// There are at most 65,536 items, possibly none. Takes memory for a slot for each item, and for
/// the counter; if an allocation fails, the items are dropped.
pub(crate) fn open_counter<T: Drop, O: Drop, M: Allocator + Clone>(
    alloc: &M,
    items: Vec<T, M>,
) -> Result<(CounterTable<T, O, M>, Hand<T, O>), AllocError>
    requires { length items.items ≤ 65536 }
    ensures opened { IfOk result (λ made. IsOpen made.0.shared.table_id made.0.shared.key.value.items items.items made.1) }
{
    let key = Snapshot::of(&items);
    let slots = full_slots(alloc, items)?;
    match Table::new(alloc.clone()?, &[0], slots, &key) {
        Ok(made) => Ok(made),
        Err(Refused { slots: _ }) => Err(AllocError),
    }
}

/// A slot for each item, with the item in it.
fn full_slots<T: Drop, O: Drop, M: Allocator + Clone>(
    alloc: &M,
    items: Vec<T, M>,
) -> Result<Vec<Slot<T, O>, M>, AllocError>
    ensures { IfOk result (λ v. v.items ≡ map Item items.items) }
{
    let mut slots = Vec::with_capacity(alloc.clone()?, items.len())?;
    for item in items {
        slots.push_reserved(Slot::Item(item));
    }
    Ok(slots)
}

/// Draws the next job, and gives back the slot of the job before with its outcome. Answers `None`
/// if all jobs were drawn; this hand then draws no more.
///
/// `count` is the number of items. The jobs come in the order of the items, each to one hand. An
/// exchange that fails, since another hand drew at the same time, is tried again from the number
/// that it found, so the call takes the runtime and may wait.
pub(crate) fn draw<R: Wait, T: Drop, O: Drop, M: Allocator>(
    rt: &R,
    counter: &Counter<T, O, M>,
    hand: &mut Hand<T, O>,
    count: usize,
) -> Option<Job<T>>
    requires counter { IsCounter counter.now.table_id counter.now.key.value.items count }
    requires table { hand.old.table_id ≡ counter.now.table_id }
    requires drawing { IsDrawing counter.now.key.value.items hand.old.me }
    ensures table { hand.new.table_id ≡ hand.old.table_id }
    ensures item { IfSome result (λ job. slice_get counter.now.key.value.items job.index ≡ Some job.item) }
    ensures later { IfSome result (λ job. length (done_by hand.old.me) ≤ job.index) }
    ensures drawn { IfSome result (λ job. HasDrawn counter.now.key.value.items hand.new.me (done_by hand.old.me) job.index) }
    ensures ended { IfNone result (HasEnded counter.now.key.value.items hand.new.me (done_by hand.old.me)) }
{
    let mut number = counter.load::<Loads>(hand, 0);
    for _ in rt.forever() {
        let found = counter.compare_exchange::<Draws>(hand, 0, number, number + 1);
        if found == number {
            return take_job(counter, hand, number, count);
        }
        number = found;
    }
    unreachable!()
}

/// Takes the item out of the slot of the number that was drawn, if there is one.
fn take_job<T: Drop, O: Drop, M: Allocator>(
    counter: &Counter<T, O, M>,
    hand: &mut Hand<T, O>,
    number: u64,
    count: usize,
) -> Option<Job<T>>
    requires counter { IsCounter counter.now.table_id counter.now.key.value.items count }
    requires table { hand.old.table_id ≡ counter.now.table_id }
    requires slots { hand.old.me.1 ≡ cond (ltb number (length counter.now.key.value.items))
        ((number, slot_of (slice_get counter.now.key.value.items number)) ∷ []) [] }
    ensures table { hand.new.table_id ≡ hand.old.table_id }
    ensures view { hand.new.me.0 ≡ hand.old.me.0 }
    ensures job { IfSome result (λ job. (job.index ≡ number) × (slice_get counter.now.key.value.items number ≡ Some job.item)) }
    ensures slot { IfSome result (λ _. hand.new.me.1 ≡ (number, Empty) ∷ []) }
    ensures none { IfNone result ((length counter.now.key.value.items ≤ number) × (hand.new.me.1 ≡ [])) }
{
    let index = number as usize;
    if index >= count {
        return None;
    }
    let item = counter
        .exchange(hand, index, Slot::Empty)
        .into_item()
        .unwrap();
    Some(Job { index, item })
}

/// Puts the outcome of the job that the hand drew last into its slot, which the hand's next draw
/// gives back.
pub(crate) fn put_outcome<T: Drop, O: Drop, M: Allocator>(
    counter: &Counter<T, O, M>,
    hand: &mut Hand<T, O>,
    done: Done<O>,
)
    requires table { hand.old.table_id ≡ counter.now.table_id }
    requires drawn { HasDrawn counter.now.key.value.items hand.old.me hand.old.me.0.given done.job }
    ensures table { hand.new.table_id ≡ hand.old.table_id }
    ensures drawing { IsDrawing counter.now.key.value.items hand.new.me }
    ensures done { done_by hand.new.me ≡ hand.old.me.0.given ++ done ∷ [] }
{
    let Done { job, outcome } = done;
    counter.exchange(hand, job, Slot::Outcome(outcome));
}

/// Closes the counter after all workers have ended, and moves the outcomes out of their slots into
/// `outcomes`, in the order of the jobs.
///
/// Every hand was joined into the first one again (`join_seat::<Hires>` of the counter), so its
/// draws are all that there were: each number below some number once. Each job that was given back
/// has its outcome at its index; a job that was not drawn has none, and its item is dropped.
/// `outcomes` is empty and has room for an outcome for each item, so no memory is taken.
pub(crate) fn take_outcomes<T: Drop, O: Drop, M: Allocator>(
    table: CounterTable<T, O, M>,
    first: Hand<T, O>,
    outcomes: &mut Vec<O, M>,
)
    requires counter { IsCounter table.shared.table_id table.shared.key.value.items (length table.shared.key.value.items) }
    requires first { (first.table_id ≡ table.shared.table_id) × (first.me.0.parts ≡ 33) }
    requires room { length table.shared.key.value.items ≤ vec_capacity outcomes.old }
    requires none { outcomes.old.items ≡ [] }
    ensures drawn { (drawn : ℕ) × ((x : ℕ) → times x first.me.0.draws ≡ cond (ltb x drawn) 1 0) }
    ensures by_job { (by_job : List (Option O)) × (length by_job ≡ length table.shared.key.value.items)
        × All (λ d. slice_get by_job d.job ≡ Some (Some d.outcome)) first.me.0.given
        × (outcomes.new.items ≡ filter_map (λ o. o) by_job) }
{
    let mut closed = table.close_with(first);
    for slot in 0..closed.slot_count() {
        add_outcome(closed.take(slot), outcomes);
    }
    closed.free();
}

/// Appends the outcome in the slot to the others, if there is one.
fn add_outcome<T: Drop, O: Drop, M: Allocator>(slot: Slot<T, O>, outcomes: &mut Vec<O, M>)
    requires room { vec_len outcomes.old < vec_capacity outcomes.old }
    ensures added { outcomes.new.items ≡ outcomes.old.items ++ outcomes_in (slot ∷ []) }
    ensures few { vec_len outcomes.new ≤ vec_len outcomes.old + 1 }
    ensures room { vec_capacity outcomes.new ≡ vec_capacity outcomes.old }
{
    match slot {
        Slot::Item(_) => {}
        Slot::Outcome(outcome) => outcomes.push_reserved(outcome),
        Slot::Empty => {}
    }
}
