//! Runs one job for each item on several workers.
ghost use Rattle.std.specs.Prelude.{◌≡◌, ℕ, ◌+◌, ◌/◌, ◌%◌, ◌<◌, ◌≤◌, length, min, List, All, map, vec_capacity, IfOk, IfErr, OnErr, IsOk, []};
ghost use denote.Param.Send.{IsSync, IsSend, Frees};
ghost use Rattle.ext_crew.specs.Dealing.{Share, RunByDealing, Runs, Accepts, AcceptsParts, InTurn, WorkedFrom};
ghost use Rattle.ext_crew.specs.declared.fault.CrewFault.TheVariants.{Memory};
ghost use Rattle.ext_crew.specs.InnerCounter.{IsCounter};
ghost use Rattle.ext_crew.specs.InnerHands.{given_of, IsReady, IsOpened, IsOpenedFor, HasWorked, IsCut};

use crate::hand::{join_hands, make_hands, work};
use crate::jobs::{Counter, CounterTable, Hand, open_counter, take_outcomes};
use crate::workers::for_each_share;
use crate::{CrewFault, Gate};
use std::alloc::{AllocError, Allocator};
use std::sync::Wait;
use std::thread::Threads;

/// Runs one job for each item on several workers and gives the outcomes in the order of the items.
/// Takes memory and may wait.
///
/// Both slices have the same length, 1 to 32, and there are at most 65,536 items, possibly none.
/// The number of workers is the smaller of that length and the number of items. Each is lent its
/// own consecutive share of both slices; the lengths of the shares differ by at most one, and
/// longer ones come first. Workers draw jobs in the order of the items, each its next one when it
/// has ended the last, so which worker runs which job is not fixed. A job is one call of `run` with
/// the index of the item, from 0, the item, and the worker's share of both slices as its earlier
/// jobs left it. `run` must accept each item with any part of the slices, as any jobs left it.
/// `gate` is called before and after each job. The call returns when every job has ended and every
/// thread is joined.
///
/// `Memory` is the only refusal: all memory is taken before the first job, so no job was run, both
/// slices are as they were, and the items are dropped. Without items it never comes. Room is taken
/// for each outcome once. A worker for which no thread can be made works on a thread of another
/// worker after that one has ended; the others draw the jobs that it would have drawn before.
///
/// JUnit 5 User Guide, section "Parallel Execution". Shares, limits and refusals are own rules.
pub fn run_children<
    R: Threads + Wait + Sync,
    M: Allocator + Clone + Send,
    A: Send,
    B: Send,
    T: Send + Drop,
    O: Send + Drop,
    F: Fn(usize, T, &mut [A], &mut [B]) -> O + Sync,
    G: Gate + Sync,
>(
    rt: &R,
    alloc: M,
    first: &mut [A],
    second: &mut [B],
    items: Vec<T, M>,
    run: &F,
    gate: &G,
) -> Result<Vec<O, M>, CrewFault>
    requires lengths { (0 < length first.old) × (length second.old ≡ length first.old) }
    requires limits { (length first.old ≤ 32) × (length items.items ≤ 65536) }
    requires accepts { AcceptsParts F.Fn run.now items.items
        (record { first = first.old; second = second.old }) }
    ensures run { IfOk result (λ v. RunByDealing (Runs F.Fn run.now items.items)
        (length items.items) (min (length first.old) (length items.items))
        (record { first = first.old; second = second.old }) v.items
        (record { first = first.new; second = second.new })) }
    ensures unchanged { OnErr result ((first.new ≡ first.old) × (second.new ≡ second.old)) }
    ensures fault { IfErr result (λ e. e ≡ Memory) }
    ensures no_items { items.items ≡ [] → IsOk result }
{
    let count = items.len();
    if count == 0 {
        return Ok(Vec::new(alloc));
    }
    let workers = first.len().min(count);
    let (crew, mut outcomes) = open_crew(&alloc, items, workers)?;
    run_crew(rt, crew, count, run, gate, first, second, &mut outcomes);
    Ok(outcomes)
}

/// What a run needs, with all its memory: the counter, the seat from which those of the workers
/// were split off, and a hand for each worker.
#[derive(Drop)]
struct Crew<T, O, M: Allocator> {
    table: CounterTable<T, O, M>,
    seat: Hand<T, O>,
    hands: Vec<Hand<T, O>, M>,
}

/// A counter for the items, a hand for each worker, and room for each outcome. No more memory is
/// needed from here on.
fn open_crew<T: Drop, O: Drop, M: Allocator + Clone>(
    alloc: &M,
    items: Vec<T, M>,
    workers: usize,
) -> Result<(Crew<T, O, M>, Vec<O, M>), AllocError>
    requires few { (length items.items ≤ 65536) × (workers ≤ 32) }
    ensures { IfOk result (λ made. IsOpenedFor items.items workers made.0.table.shared.table_id made.0.table.shared.key.value.items
        made.0.seat made.0.hands.items × (length items.items ≤ vec_capacity made.1) × (made.1.items ≡ [])) }
{
    let outcomes = Vec::with_capacity(alloc.clone()?, items.len())?;
    let (table, mut seat) = open_counter(alloc, items)?;
    let hands = make_hands(alloc, &table.shared, &mut seat, workers)?;
    Ok((Crew { table, seat, hands }, outcomes))
}

/// Runs the hands of a crew, each with a share of its own, and moves the outcomes out of their
/// slots.
fn run_crew<
    R: Threads + Wait + Sync,
    M: Allocator + Send,
    A: Send,
    B: Send,
    T: Send + Drop,
    O: Send + Drop,
    F: Fn(usize, T, &mut [A], &mut [B]) -> O + Sync,
    G: Gate + Sync,
>(
    rt: &R,
    crew: Crew<T, O, M>,
    count: usize,
    run: &F,
    gate: &G,
    first: &mut [A],
    second: &mut [B],
    outcomes: &mut Vec<O, M>,
)
    requires opened { IsOpened crew.table.shared.table_id crew.table.shared.key.value.items count crew.seat crew.hands.items }
    requires lengths { (0 < length crew.hands.items) × (length crew.hands.items ≤ length first.old)
        × (length second.old ≡ length first.old) }
    requires accepts { AcceptsParts F.Fn run.now crew.table.shared.key.value.items
        (record { first = first.old; second = second.old }) }
    requires room { (count ≤ vec_capacity outcomes.old) × (outcomes.old.items ≡ []) }
    ensures { RunByDealing (Runs F.Fn run.now crew.table.shared.key.value.items) count (length crew.hands.items)
        (record { first = first.old; second = second.old }) outcomes.new.items
        (record { first = first.new; second = second.new }) }
{
    let Crew {
        table,
        mut seat,
        mut hands,
    } = crew;
    let workers = hands.len();
    let size = first.len() / workers;
    let longer = first.len() % workers;
    run_hands(
        rt,
        &table.shared,
        count,
        run,
        gate,
        size,
        longer,
        hands.as_mut_slice(),
        first,
        second,
    );
    join_hands(&table.shared, &mut seat, hands);
    take_outcomes(table, seat, outcomes);
}

/// Runs the hands, each with a share of its own.
fn run_hands<
    R: Threads + Wait + Sync,
    M: Allocator + Send,
    A: Send,
    B: Send,
    T: Send + Drop,
    O: Send + Drop,
    F: Fn(usize, T, &mut [A], &mut [B]) -> O + Sync,
    G: Gate + Sync,
>(
    rt: &R,
    counter: &Counter<T, O, M>,
    count: usize,
    run: &F,
    gate: &G,
    size: usize,
    longer: usize,
    hands: &mut [Hand<T, O>],
    first: &mut [A],
    second: &mut [B],
)
    requires size { 0 < size }
    requires cut { IsCut size longer (length hands.old)
        (record { first = first.old; second = second.old }) }
    requires counter { IsCounter counter.now.table_id counter.now.key.value.items count }
    requires ready { All (λ h. IsReady counter.now.table_id counter.now.key.value.items h) hands.old }
    requires accepts { AcceptsParts F.Fn run.now counter.now.key.value.items
        (record { first = first.old; second = second.old }) }
    ensures jobs { All (λ h. HasWorked counter.now.table_id counter.now.key.value.items h) hands.new }
    ensures worked { WorkedFrom (Runs F.Fn run.now counter.now.key.value.items) size longer
        (map given_of hands.new)
        (record { first = first.old; second = second.old })
        (record { first = first.new; second = second.new }) }
{
    let each = |hand: &mut Hand<T, O>, first: &mut [A], second: &mut [B]|
        requires counter { IsCounter counter.now.table_id counter.now.key.value.items count }
        requires ready { IsReady counter.now.table_id counter.now.key.value.items hand.old }
        requires accepts { Accepts F.Fn run.now counter.now.key.value.items
            (record { first = first.old; second = second.old }) }
        ensures jobs { HasWorked counter.entry.now.table_id counter.entry.now.key.value.items hand.new }
        ensures worked { InTurn (Runs F.Fn run.entry.now counter.entry.now.key.value.items) hand.new.me.0.given
            (record { first = first.old; second = second.old })
            (record { first = first.new; second = second.new }) }
    { work(rt, counter, count, run, gate, hand, first, second) };
    for_each_share(rt, &each, size, longer, hands, first, second);
}
