//! What a lane takes of a processor while it waits, as the system tells it.
ghost use Rattle.std.specs.Prelude.{◌<◌, length};
ghost use Rattle.ext_store.specs.Stores.{IsLaneOf};

use crate::beside::{Call, found_by};
use crate::held::{Gate, same};
use crate::opening::{Letter, limits, with_pair};
use ext_model::Fault;
use ext_store::{Lane, Store};
use ext_tree::Key;
use std::alloc::Global;
use std::fs;
use std::process::Abort;
use std::rt::Files;
use std::sync::Wait;
use std::test::Fail;
use std::thread::{Threads, join, sleep};
use std::time::{Clock, Duration, Instant};

/// For how many nanoseconds this thread has run on a processor stands here first.
const TIMES: &str = "/proc/thread-self/schedstat";

/// For how many milliseconds a factory is held, or a lock, and for how many nanoseconds a lane that
/// waits may run meanwhile.
pub(crate) const HELD: u64 = 300;

const MOST: u64 = 10_000_000;

/// For how many nanoseconds this thread has run; `None` where the system doesn't tell.
fn time_taken<R: AllocGlobal + Files>(rt: &R) -> Option<u64> {
    let times = fs::read_to_string(rt, TIMES).ok()?;
    times.as_str().split(' ').next()?.parse().ok()
}

/// When a lane began to wait, and for how many nanoseconds its thread had run then.
#[derive(Drop)]
pub(crate) struct Began {
    at: Instant,
    taken: u64,
}

impl Began {
    pub(crate) fn now<R: AllocGlobal + Clock + Files>(rt: &R) -> Option<Began> {
        let at = Instant::now(rt).ok()?;
        let taken = time_taken(rt)?;
        Some(Began { at, taken })
    }

    /// For how many nanoseconds the thread has run since then; `None` where it did not wait for at
    /// least half of the time for which the other one holds, or where the system counts no time.
    fn time_since<R: AllocGlobal + Clock + Files>(&self, rt: &R) -> Option<u64> {
        let waited = self.at.elapsed(rt).ok()?;
        let taken = time_taken(rt)?;
        if waited.as_millis() < (HELD / 2) as u128 || taken == 0 {
            return None;
        }
        taken.checked_sub(self.taken)
    }
}

/// Whether this thread has waited since then, and took no processor.
pub(crate) fn has_idled<R: AllocGlobal + Clock + Files>(rt: &R, began: Option<Began>) -> bool {
    match began {
        Some(began) => began.time_since(rt).is_some_and(|time| time < MOST),
        None => false,
    }
}

/// Computes in the class, by a factory that is held and then fails.
fn compute_held<R: Clock>(
    rt: &R,
    store: &Store<Letter>,
    lane: &mut Lane<Letter>,
    key: &Key,
    gate: &Gate,
)
    requires lane { IsLaneOf store.now.id lane.old }
    requires context { 1 < length store.now.tree }
{
    let factory = |_key: &Key| -> Result<Letter, Fault> {
        gate.pass(rt);
        sleep(rt, Duration::from_millis(HELD));
        Err(Fault::Memory)
    };
    let _computed = store.compute(lane, 1, key, factory);
}

/// Whether the call waits and takes no processor, which begins while the factory runs.
fn call_idly<R: AllocGlobal + Clock + Files + Wait>(
    rt: &R,
    store: &Store<Letter>,
    lane: &mut Lane<Letter>,
    key: &Key,
    gate: &Gate,
    waits: Call,
) -> bool
    requires lane { IsLaneOf store.now.id lane.old }
    requires context { 2 < length store.now.tree }
{
    gate.come(rt);
    let began = Began::now(rt);
    found_by(rt, store, lane, key, waits);
    has_idled(rt, began)
}

/// Asserts that the call takes no processor while a factory runs, in a store of its own.
fn waits_idly<R: Abort + AllocGlobal + Clock + Files + Threads + Wait + Sync>(
    rt: &R,
    alloc: Global,
    waits: Call,
) -> Result<(), Fail> {
    let gate = &Gate::new(1);
    with_pair(
        rt,
        alloc,
        limits(2, false),
        |rt: &R, store: &Store<Letter>, key: &Key, first: &mut Lane<Letter>, second: &mut Lane<
            Letter,
        >|
            requires first { IsLaneOf store.now.id first.old }
            requires second { IsLaneOf store.now.id second.old }
            requires contexts { 2 < length store.now.tree }
        {
            let ((), is_idle) = join(
                rt,
                ||
                    requires { IsLaneOf store.now.id first.now × (2 < length store.now.tree) }
                { compute_held(rt, store, first, key, gate) },
                ||
                    requires { IsLaneOf store.now.id second.now × (2 < length store.now.tree) }
                { call_idly(rt, store, second, key, gate, waits) },
            );
            same(
                rt,
                is_idle,
                true,
                "whether the call waits and takes no processor",
            );
        },
    )
}

/// A look-up, a compute, a remove and a put that meet a running factory sleep until it has ended.
#[test]
fn calls_that_wait_take_no_processor(rt: HostRuntime) -> Result<(), Fail> {
    for waits in [Call::Get, Call::Compute, Call::Remove, Call::Put] {
        waits_idly(&rt, rt.alloc(), waits)?;
    }
    Ok(())
}
