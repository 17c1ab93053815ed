//! A number that two threads count up, each in two steps, while it holds a lock.
ghost use Rattle.std.specs.Prelude.{◌≡◌, ◌+◌, ◌≤◌, length};
ghost use Rattle.ext_locks.specs.Sets.{HoldsNothing, AllBelow};

use crate::held::same;
use crate::locks::asking::write;
use crate::locks::scenario::{Scenario, merged, with_locks};
use ext_locks::{LockLane, LockSet, Locks};
use std::process::Abort;
use std::sync::atomic::{AtomicU64, Ordering};
use std::thread;
use std::thread::Threads;

/// Tries a thousand times to take the set, and adds one to the number, in two steps, while it is
/// held. Returns how often it was.
fn count_up(locks: &Locks, lane: &mut LockLane, set: &LockSet, number: &AtomicU64) -> u64
    requires lane { lane.old.table ≡ locks.now.table }
    requires nothing { HoldsNothing lane.old }
    requires set { AllBelow (length locks.now.names + 1) set.now }
    ensures { result ≤ 1000 }
{
    let mut successes = 0;
    for turn in 0..1000u64 {
        if let Ok(held) = locks.try_take(lane, set) {
            let seen = number.load(Ordering::SeqCst);
            number.store(seen.wrapping_add(1), Ordering::SeqCst);
            locks.give(lane, held);
            successes += 1;
        }
    }
    successes
}

/// Counts up the number by two lanes, each in a thread of its own. Returns how often they had the
/// lock, both together.
fn count_in_both<R: Abort + Threads>(
    rt: &R,
    locks: &Locks,
    first: &mut LockLane,
    second: &mut LockLane,
    number: &AtomicU64,
) -> u64
    requires lanes { (first.old.table ≡ locks.now.table) × (second.old.table ≡ locks.now.table) }
    requires nothing { HoldsNothing first.old × HoldsNothing second.old }
{
    let writes = merged(rt, locks, &[write("a")]);
    let (one, other) = thread::join(
        rt,
        || count_up(locks, first, &writes, number),
        || count_up(locks, second, &writes, number),
    );
    one + other
}

/// Two lanes count up one number, each in a thread of its own.
#[derive(Drop)]
struct TwoWriters;

impl<R: Abort + Threads> Scenario<R> for TwoWriters {
    fn play(self, rt: &R, locks: &Locks, lanes: &mut [LockLane]) {
        let [first, second] = lanes else {
            panic!(rt; "not two lanes");
        };
        let number = AtomicU64::new(0);
        let counted = count_in_both(rt, locks, first, second, &number);
        same(rt, number.load(Ordering::SeqCst), counted, "the number");
        assert!(rt; counted > 0);
    }
}

/// Tests `Locks::give`.
#[test]
fn two_writers_count_what_they_hold(rt: HostRuntime) {
    with_locks(&rt, rt.alloc(), &["a"], 2, 8, TwoWriters);
}
