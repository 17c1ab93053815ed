//! A factory that is held at a gate, and threads that look for one another in bounded turns.
ghost use Rattle.std.specs.Prelude.{◌<◌, length};
ghost use Rattle.ext_store.specs.Stores.{IsLaneOf};

use crate::opening::Letter;
use ext_model::{Fault, Look};
use ext_store::{Compute, KeepFault, Lane, Store};
use ext_tree::Key;
use std::fmt::Debug;
use std::process::Abort;
use std::sync::Wait;
use std::sync::atomic::{AtomicU64, Ordering};
use std::thread::sleep;
use std::time::{Clock, Duration};

// How often a thread looks for another one, a thousandth of a second apart.
const TURNS: u64 = 20_000;

/// Whether the word came to be this number in time.
pub(crate) fn reaches(clock: &impl Clock, word: &AtomicU64, number: u64) -> bool {
    for _ in 0..TURNS {
        if word.load(Ordering::SeqCst) == number {
            return true;
        }
        sleep(clock, Duration::from_millis(1));
    }
    false
}

/// Looks until so many lanes have ended. Where they have not in time the test fails: it never
/// hangs.
pub(crate) fn watch<R: Abort + Clock>(rt: &R, ended: &AtomicU64, lanes: u64) {
    assert!(rt; reaches(rt, ended, lanes), "a lane is left asleep");
}

// How often a thread looks for another one that is to come at once, before it looks every
// thousandth of a second.
const QUICK_TURNS: u64 = 100_000;

/// Whether the word came to be another number at once.
fn changes_at_once(word: &AtomicU64, number: u64) -> bool {
    for _ in 0..QUICK_TURNS {
        if word.load(Ordering::SeqCst) != number {
            return true;
        }
    }
    false
}

/// Whether the word came to be another number in time.
fn changes(clock: &impl Clock, word: &AtomicU64, number: u64) -> bool {
    for _ in 0..TURNS {
        if word.load(Ordering::SeqCst) != number {
            return true;
        }
        sleep(clock, Duration::from_millis(1));
    }
    false
}

/// Looks until another lane, which had made so many calls, has made one more. Where it has not in
/// time the test fails: it never hangs.
pub(crate) fn watch_next<R: Abort + Clock>(rt: &R, calls: &AtomicU64, before: u64) {
    let made = changes_at_once(calls, before) || changes(rt, calls, before);
    assert!(rt; made, "a lane is left asleep");
}

/// Takes some time.
pub(crate) fn spin(turns: u64) {
    let word = AtomicU64::new(0);
    for _ in 0..turns {
        word.load(Ordering::SeqCst);
    }
}

/// Holds a lane, as in a factory, until so many others have begun to wait for what it ends then.
#[derive(Drop)]
pub(crate) struct Gate {
    waiters: u64,
    runs: AtomicU64,
    begun: AtomicU64,
    ended: AtomicU64,
}

impl Gate {
    pub(crate) fn new(waiters: u64) -> Gate {
        Gate {
            waiters,
            runs: AtomicU64::new(0),
            begun: AtomicU64::new(0),
            ended: AtomicU64::new(0),
        }
    }

    /// Of the lane that is held: tells that it runs, and ends some time after the others began to
    /// wait. Says whether those did.
    pub(crate) fn pass(&self, clock: &impl Clock) -> bool {
        self.runs.store(1, Ordering::SeqCst);
        let begun = reaches(clock, &self.begun, self.waiters);
        sleep(clock, Duration::from_millis(20));
        begun
    }

    /// Of another lane: comes once the held one runs, and tells that it begins to wait. Says
    /// whether that one runs.
    pub(crate) fn come(&self, clock: &impl Clock) -> bool {
        let runs = reaches(clock, &self.runs, 1);
        self.begun.fetch_add(1, Ordering::SeqCst);
        runs
    }

    /// Of another lane: tells that it was answered.
    pub(crate) fn end(&self) {
        self.ended.fetch_add(1, Ordering::SeqCst);
    }

    /// Whether all others were answered.
    pub(crate) fn has_ended(&self) -> bool {
        self.ended.load(Ordering::SeqCst) == self.waiters
    }

    /// Whether all others were answered within some milliseconds.
    pub(crate) fn ends_soon(&self, clock: &impl Clock) -> bool {
        for _ in 0..10 {
            if self.has_ended() {
                return true;
            }
            sleep(clock, Duration::from_millis(1));
        }
        false
    }

    /// Fails the test where another lane was not answered in time.
    pub(crate) fn watch<R: Abort + Clock>(&self, rt: &R) {
        watch(rt, &self.ended, self.waiters);
    }
}

/// What became of a compute whose factory was held.
#[derive(Clone, Copy, Debug, PartialEq, Eq)]
pub(crate) enum Ended {
    /// Its value was kept under this number.
    Computed(u32),
    /// Its value was not kept, since all numbers are drawn.
    Unkept,
    /// Its factory failed, and nothing is kept.
    Failed,
    /// Its factory's fault was kept under this number.
    FaultKept(u32),
    /// Its factory's fault was not kept, since all numbers are drawn.
    FaultUnkept,
    /// It had another answer.
    Otherwise,
}

impl Ended {
    fn of<F: Drop>(outcome: Compute<Letter, F>) -> Ended {
        match outcome {
            Compute::Computed { number } => Ended::Computed(number),
            Compute::Unkept {
                cause: KeepFault::NumbersFull,
                ..
            } => Ended::Unkept,
            Compute::Failed(Fault::Memory) => Ended::Failed,
            Compute::FaultKept { number } => Ended::FaultKept(number),
            Compute::FaultUnkept {
                cause: KeepFault::NumbersFull,
                ..
            } => Ended::FaultUnkept,
            _ => Ended::Otherwise,
        }
    }

    /// Whether the factory failed.
    pub(crate) fn is_failed(self) -> bool {
        matches!(
            self,
            Ended::Failed | Ended::FaultKept(_) | Ended::FaultUnkept
        )
    }
}

/// Computes in the class, by a factory that is held and then fails where it is to; where it does
/// not pass its gate it does the other of the two. The compute is by the form that waits, or by the
/// other one.
pub(crate) fn compute_held<R: Clock + Wait>(
    rt: &R,
    store: &Store<Letter>,
    lane: &mut Lane<Letter>,
    key: &Key,
    gate: &Gate,
    fails: bool,
    waits: bool,
) -> Ended
    requires lane { IsLaneOf store.now.id lane.old }
    requires context { 1 < length store.now.tree }
    ensures { IsLaneOf store.now.id lane.new }
{
    let factory = |_key: &Key| -> Result<Letter, Fault> {
        if gate.pass(rt) == fails {
            Err(Fault::Memory)
        } else {
            Ok(Letter { letter: 'x' })
        }
    };
    if waits {
        Ended::of(store.compute_wait(rt, lane, 1, key, factory))
    } else {
        Ended::of(store.compute(lane, 1, key, factory))
    }
}

/// Where a compute from the method finds a value, or a fault that is kept, and hands its factory
/// back unused, which gives its letter then.
pub(crate) fn find<R: Wait>(
    rt: &R,
    store: &Store<Letter>,
    lane: &mut Lane<Letter>,
    key: &Key,
) -> Option<Look>
    requires lane { IsLaneOf store.now.id lane.old }
    requires context { 2 < length store.now.tree }
    ensures { IsLaneOf store.now.id lane.new }
{
    let make = |_key: &Key| -> Result<Letter, Fault> { Ok(Letter { letter: 'y' }) };
    match store.compute_wait(rt, lane, 2, key, make) {
        Compute::Found { at, number, unused } => match unused(key) {
            Ok(Letter { letter: 'y' }) => Some(Look::Found { at, number }),
            _ => None,
        },
        Compute::FaultStands { at, number, unused } => match unused(key) {
            Ok(Letter { letter: 'y' }) => Some(Look::Fault { at, number }),
            _ => None,
        },
        _ => None,
    }
}

/// Asserts that this was answered. Tests assert by it, since a call is cheaper to prove than what
/// `assert_eq!` writes.
pub(crate) fn same<T: Debug + Drop + PartialEq>(rt: &impl Abort, answer: T, wanted: T, what: &str) {
    assert_eq!(rt; answer, wanted, "{what}");
}
