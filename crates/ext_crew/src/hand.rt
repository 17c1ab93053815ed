//! What the workers have in hand, and how they work with it.
ghost use Rattle.std.specs.Prelude.{◌≡◌, ◌-◌, ◌≤◌, [], length, vec_len, All, IfOk, flat_map};
ghost use Rattle.ext_crew.specs.InnerCounter.{drawn, IsCounter};
ghost use Rattle.ext_crew.specs.InnerHands.{draws_of, given_of, IsReady, HasWorked, IsFirst};
ghost use Rattle.ext_crew.specs.Dealing.{Share, Runs, Accepts, InTurn};

use crate::Gate;
use crate::job::run_job;
use crate::jobs::{Counter, Hand, Hires, draw, put_outcome};
use std::alloc::{AllocError, Allocator};
use std::sync::Wait;

/// A hand for each worker, split off the first seat. No more memory is needed from here on.
pub(crate) fn make_hands<T: Drop, O: Drop, M: Allocator + Clone>(
    alloc: &M,
    counter: &Counter<T, O, M>,
    first: &mut Hand<T, O>,
    workers: usize,
) -> Result<Vec<Hand<T, O>, M>, AllocError>
    requires counter { IsCounter counter.now.table_id counter.now.key.value.items (length counter.now.key.value.items) }
    requires workers { workers ≤ 32 }
    requires first { (first.old.table_id ≡ counter.now.table_id)
        × (first.old.me ≡ (drawn 33 [] [] counter.now.key.value.items, [])) }
    ensures count { IfOk result (λ v. vec_len v ≡ workers) }
    ensures ready { IfOk result (λ v. All (λ h. IsReady counter.now.table_id counter.now.key.value.items h) v.items) }
    ensures first { IfOk result (λ v. (first.new.table_id ≡ first.old.table_id)
        × (first.new.me ≡ (drawn (33 - workers) [] [] counter.now.key.value.items, []))) }
{
    let mut hands = Vec::with_capacity(alloc.clone()?, workers)?;
    for _ in 0..workers {
        hands.push_reserved(counter.split_seat::<Hires>(first));
    }
    Ok(hands)
}

/// Runs jobs as they are drawn, one after another, until there are no more, and puts each outcome
/// into the slot of its job.
pub(crate) fn work<
    R: Wait,
    M: Allocator,
    A,
    B,
    T: Drop,
    O: Drop,
    F: Fn(usize, T, &mut [A], &mut [B]) -> O,
    G: Gate,
>(
    rt: &R,
    counter: &Counter<T, O, M>,
    count: usize,
    run: &F,
    gate: &G,
    hand: &mut Hand<T, O>,
    first: &mut [A],
    second: &mut [B],
)
    requires counter { IsCounter counter.now.table_id counter.now.key.value.items count }
    requires ready { IsReady counter.now.table_id counter.now.key.value.items hand.old }
    requires accepts { Accepts F.Fn run.now counter.now.key.value.items
        (record { first = first.old; second = second.old }) }
    ensures jobs { HasWorked counter.now.table_id counter.now.key.value.items hand.new }
    ensures worked { InTurn (Runs F.Fn run.now counter.now.key.value.items) hand.new.me.0.given
        (record { first = first.old; second = second.old })
        (record { first = first.new; second = second.new }) }
{
    while let Some(job) = draw(rt, counter, hand, count) {
        let done = run_job(run, gate, job, first, second);
        put_outcome(counter, hand, done);
    }
}

/// Joins all hands into the first seat, which then has what they have drawn and given back.
pub(crate) fn join_hands<T: Drop, O: Drop, M: Allocator>(
    counter: &Counter<T, O, M>,
    first: &mut Hand<T, O>,
    hands: Vec<Hand<T, O>, M>,
)
    requires counter { IsCounter counter.now.table_id counter.now.key.value.items (length counter.now.key.value.items) }
    requires first { IsFirst counter.now.table_id first.old (length hands.items) }
    requires none { (first.old.me.0.draws ≡ []) × (first.old.me.0.given ≡ []) }
    requires worked { All (λ h. HasWorked counter.now.table_id counter.now.key.value.items h) hands.items }
    ensures first { IsFirst counter.now.table_id first.new 0 }
    ensures draws { first.new.me.0.draws ≡ flat_map draws_of hands.items }
    ensures given { first.new.me.0.given ≡ flat_map given_of hands.items }
{
    for hand in hands {
        counter.join_seat::<Hires>(first, hand);
    }
}
