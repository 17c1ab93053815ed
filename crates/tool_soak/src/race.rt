//! A compute that races with a put in its context's parent: where the put came before its claim,
//! the factory does not run, and where it ran, its value or its fault stands until it is taken out.
ghost use Rattle.std.specs.Prelude.{◌<◌, All};
ghost use Rattle.ext_store.specs.Stores.{IsKeptBy, IsLaneOf};

use crate::chance::{below, numbers_of};
use crate::fault::SoakFault;
use crate::opening::{Deep, OpenedDeep, Payload, Place, keeps_faults, open_deep};
use crate::words::Soak;
use ext_model::{ContextNo, Fault};
use ext_store::{Compute, Kept, Lane, Refusal};
use ext_tree::Key;
use rand_pcg::Pcg32;
use std::sync::atomic::{AtomicU64, Ordering};
use std::thread::{Threads, join, yield_now};

/// How often the two lanes race in a round.
const RACES: u64 = 40;

/// How often a lane looks for the other one, by one atomic load each.
const TURNS: u64 = 10_000_000_000;

/// The stream of the races' numbers, apart from those of all lanes.
const STREAM: usize = 17;

/// The deepest context, whose value is computed, and its parent, where one is put.
const BELOW: usize = 15;

const ABOVE: usize = 14;

/// How many turns the put comes later, at most.
const LONGEST: usize = 200;

/// What the two lanes of a race share.
#[derive(Drop)]
struct Race {
    /// How often they came to where they wait for each other.
    came: AtomicU64,
    /// Whether the factory of this race ran.
    ran: AtomicU64,
}

impl Race {
    /// Comes, and waits until the two lanes came so often. Says whether they did in time.
    fn come(&self, often: u64) -> bool {
        self.came.fetch_add(1, Ordering::SeqCst);
        for turn in 0..TURNS {
            if self.came.load(Ordering::SeqCst) >= often {
                return true;
            }
            if turn % 1_024 == 1_023 {
                yield_now();
            }
        }
        false
    }

    /// Lets so many turns go by.
    fn delay(&self, turns: usize) {
        for _ in 0..turns {
            self.came.load(Ordering::SeqCst);
        }
    }
}

/// A value that is not closeable.
fn value(context: ContextNo) -> Payload {
    Payload {
        place: Place { context, key: 0 },
        closeable: false,
    }
}

/// Computes a value in the deepest context, by a factory that fails where its fault is kept. Says
/// whether the factory ran.
fn computes(deep: &Deep, lane: &mut Lane<Payload>) -> bool
    requires { IsLaneOf deep.now.store.id lane.old }
    ensures { IsLaneOf deep.now.store.id lane.new }
{
    let fails = deep.store.keeps_faults();
    let factory = |_key: &Key| -> Result<Payload, Fault> {
        if fails {
            return Err(Fault::Memory);
        }
        Ok(value(BELOW))
    };
    let computed = deep.store.compute(lane, BELOW, deep.name(), factory);
    matches!(
        computed,
        Compute::Computed { .. } | Compute::FaultKept { .. }
    )
}

/// Puts a value in the parent, and answers what a remove below took after that; it is refused where
/// a factory runs there.
fn puts_above(
    deep: &Deep,
    lane: &mut Lane<Payload>,
    kept: Kept,
) -> Result<Result<Option<u32>, Refusal>, SoakFault>
    requires lane { IsLaneOf deep.now.store.id lane.old }
    requires kept { IsKeptBy lane.old kept }
    ensures { IsLaneOf deep.now.store.id lane.new }
{
    match deep.store.put(lane, ABOVE, deep.name(), kept) {
        Ok(_) => Ok(deep.store.remove(lane, BELOW, deep.name())),
        Err(_) => Err(SoakFault::Answer),
    }
}

/// Whether what the factory gave, if it ran, was taken once: by the remove beside the compute, or
/// by the one after it.
fn was_taken_once(
    ran: bool,
    beside: Result<Option<u32>, Refusal>,
    after: Result<Option<u32>, Refusal>,
) -> bool {
    let took_beside = matches!(beside, Ok(Some(_)));
    match after {
        Ok(Some(_)) => ran && !took_beside,
        Ok(None) => ran == took_beside,
        Err(_) => false,
    }
}

/// Computes in each race. Says whether the other lane came each time.
fn compute_often(deep: &Deep, lane: &mut Lane<Payload>, race: &Race) -> bool
    requires { IsLaneOf deep.now.store.id lane.old }
    ensures { IsLaneOf deep.now.store.id lane.new }
{
    for number in 0..RACES {
        let begun = race.come(4 * number + 2);
        let ran = computes(deep, lane);
        race.ran.store(u64::from(ran), Ordering::SeqCst);
        if !begun || !race.come(4 * number + 4) {
            return false;
        }
    }
    true
}

/// Puts above in one race, and takes out then what stands.
fn put_once(
    deep: &Deep,
    lane: &mut Lane<Payload>,
    race: &Race,
    number: u64,
    turns: usize,
) -> Result<(), SoakFault>
    requires lane { IsLaneOf deep.now.store.id lane.old }
    requires number { number < 40 }
    ensures { IsLaneOf deep.now.store.id lane.new }
{
    let Ok(kept) = deep.store.keep(lane, value(ABOVE)) else {
        return Err(SoakFault::Answer);
    };
    let begun = race.come(4 * number + 2);
    race.delay(turns);
    let beside = puts_above(deep, lane, kept);
    if !begun || !race.come(4 * number + 4) {
        return Err(SoakFault::Late);
    }
    let ran = race.ran.load(Ordering::SeqCst) == 1;
    let above = deep.store.remove(lane, ABOVE, deep.name()).is_ok();
    let after = deep.store.remove(lane, BELOW, deep.name());
    let beside = beside?;
    if !above || after.is_err() {
        return Err(SoakFault::Answer);
    }
    if !was_taken_once(ran, beside, after) {
        return Err(SoakFault::Lost);
    }
    if ran && beside == Ok(None) {
        return Err(SoakFault::AncestorMissed);
    }
    Ok(())
}

/// Puts above in each race, after some turns. Answers the first fault, once all races were made.
fn put_often(
    deep: &Deep,
    lane: &mut Lane<Payload>,
    race: &Race,
    numbers: &mut Pcg32,
) -> Result<(), SoakFault>
    requires { IsLaneOf deep.now.store.id lane.old }
    ensures { IsLaneOf deep.now.store.id lane.new }
{
    let mut first = Ok(());
    for number in 0..RACES {
        let turns = below(numbers, LONGEST);
        let put = put_once(deep, lane, race, number, turns);
        if first.is_ok() {
            first = put;
        }
    }
    first
}

/// Makes the races of a round, on a store of their own.
pub(crate) fn make_races<R: Threads + Sync + AllocGlobal>(
    rt: &R,
    soak: Soak,
    round: u32,
) -> Result<(), SoakFault> {
    match open_deep(rt.alloc(), keeps_faults(round)) {
        Ok(opened) => race_opened(rt, soak, round, opened),
        Err(fault) => Err(fault),
    }
}

/// Makes the races on this store.
fn race_opened<R: Threads + Sync>(
    rt: &R,
    soak: Soak,
    round: u32,
    opened: OpenedDeep,
) -> Result<(), SoakFault>
    requires { All (IsLaneOf opened.deep.store.id) opened.lanes.items }
{
    let mut opened = opened;
    let raced = race_all(rt, soak, round, &opened.deep, opened.lanes.as_mut_slice());
    drop(opened);
    raced
}

/// Makes the races of the lanes, where they are two.
fn race_all<R: Threads + Sync>(
    rt: &R,
    soak: Soak,
    round: u32,
    deep: &Deep,
    lanes: &mut [Lane<Payload>],
) -> Result<(), SoakFault>
    requires { All (IsLaneOf deep.now.store.id) lanes.old }
{
    match lanes {
        [first, second] => race_often(rt, soak, round, deep, first, second),
        _ => Err(SoakFault::Answer),
    }
}

/// Makes the races of the two lanes.
fn race_often<R: Threads + Sync>(
    rt: &R,
    soak: Soak,
    round: u32,
    deep: &Deep,
    first: &mut Lane<Payload>,
    second: &mut Lane<Payload>,
) -> Result<(), SoakFault>
    requires first { IsLaneOf deep.now.store.id first.old }
    requires second { IsLaneOf deep.now.store.id second.old }
{
    let race = Race {
        came: AtomicU64::new(0),
        ran: AtomicU64::new(0),
    };
    let mut numbers = numbers_of(soak.seed, round, STREAM);
    let (came, put) = join(
        rt,
        || compute_often(deep, first, &race),
        || put_often(deep, second, &race, &mut numbers),
    );
    if !came {
        return Err(SoakFault::Late);
    }
    put
}
