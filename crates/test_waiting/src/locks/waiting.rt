//! Lanes that wait for locks, beside others that give them back.
ghost use Rattle.std.specs.Prelude.{◌≡◌, ◌+◌, length};
ghost use Rattle.ext_locks.specs.Sets.{HoldsNothing, AllBelow};
ghost use Rattle.ext_locks.specs.Opening.{fresh_lanes};

use crate::held::{same, spin, watch_next};
use crate::idle::{Began, has_idled};
use crate::locks::asking::{read, write};
use crate::locks::scenario::{merged, open};
use crate::rounds::{Progress, turns_after};
use crate::{idle, rounds};
use ext_locks::{LockLane, LockMode, LockNo, LockSet, Locks};
use std::process::Abort;
use std::rt::Files;
use std::sync::Wait;
use std::sync::atomic::{AtomicU64, Ordering};
use std::thread::{Threads, join, sleep};
use std::time::{Clock, Duration};

// How often a thread looks for another one, a thousandth of a second apart.
const TURNS: u64 = 20_000;

// How often a lane takes a set that it waits for, which `scripts/soak waits` raises, and how often
// another one is refused a set meanwhile at most.
const ROUNDS: u64 = 50_000;

const TRIES: u64 = 2_000_000;

// What two lanes have done, of which one waits for what the other one holds.
const HELD: u64 = 1;

const BEGUN: u64 = 2;

const TAKEN: u64 = 3;

/// Whether the word came to be this number in time.
fn reaches(clock: &impl Clock, word: &AtomicU64, number: u64) -> bool {
    for _ in 0..TURNS {
        if word.load(Ordering::SeqCst) == number {
            return true;
        }
        sleep(clock, Duration::from_millis(1));
    }
    false
}

/// Looks until the word is this number. Where it is not in time the test fails: it never hangs.
fn watch<R: Abort + Clock>(rt: &R, word: &AtomicU64, number: u64) {
    assert!(rt; reaches(rt, word, number), "a lane is left asleep");
}

/// Takes the set and gives it back some time after another lane has begun to wait for it. Says
/// whether that one had not taken it before.
fn give_late<R: Abort + Clock>(
    rt: &R,
    locks: &Locks,
    lane: &mut LockLane,
    set: &LockSet,
    done: &AtomicU64,
) -> bool
    requires lane { lane.old.table ≡ locks.now.table }
    requires nothing { HoldsNothing lane.old }
    requires set { AllBelow (length locks.now.names + 1) set.now }
{
    let Ok(held) = locks.try_take(lane, set) else {
        return false;
    };
    done.store(HELD, Ordering::SeqCst);
    watch(rt, done, BEGUN);
    sleep(rt, Duration::from_millis(idle::HELD));
    let waits = done.load(Ordering::SeqCst) == BEGUN;
    locks.give(lane, held);
    watch(rt, done, TAKEN);
    waits
}

/// Waits for the set once another lane holds it. Answers its first lock, and whether the lane took
/// no processor while it waited.
fn take_late<R: AllocGlobal + Clock + Files + Wait>(
    rt: &R,
    locks: &Locks,
    lane: &mut LockLane,
    set: &LockSet,
    done: &AtomicU64,
) -> (Option<(LockNo, LockMode)>, bool)
    requires lane { lane.old.table ≡ locks.now.table }
    requires nothing { HoldsNothing lane.old }
    requires set { AllBelow (length locks.now.names + 1) set.now }
{
    reaches(rt, done, HELD);
    let began = Began::now(rt);
    done.store(BEGUN, Ordering::SeqCst);
    let held = locks.take_wait(rt, lane, set);
    done.store(TAKEN, Ordering::SeqCst);
    let lock = held.set().get(0);
    locks.give(lane, held);
    (lock, has_idled(rt, began))
}

/// Asserts that a lane waits until another one, which writes, has given back.
fn read_behind_writer<R: Abort + AllocGlobal + Clock + Files + Sync + Threads + Wait>(
    rt: &R,
    locks: &Locks,
    lanes: &mut [LockLane],
)
    requires { lanes.old ≡ fresh_lanes locks.now.table 2 2 }
{
    let [first, second] = lanes else {
        panic!(rt; "not two lanes");
    };
    let writes = merged(rt, locks, &[write("a")]);
    let reads = merged(rt, locks, &[read("a")]);
    let done = AtomicU64::new(0);
    let answers = join(
        rt,
        || give_late(rt, locks, first, &writes, &done),
        || take_late(rt, locks, second, &reads, &done),
    );
    same(
        rt,
        answers,
        (true, (Some((1, LockMode::Read)), true)),
        "whether it waited, its lock, and whether it took no processor",
    );
}

/// The reader takes no processor while it waits. Tests `Waiting::sleep` and `Locks::take_wait`.
#[test]
fn reader_waits_for_a_writer(rt: HostRuntime) {
    let (locks, mut lanes) = open(&rt, rt.alloc(), &["a"], 2, 8);
    read_behind_writer(&rt, &locks, lanes.as_mut_slice());
}

/// In each round takes the set, and gives it back some turns later. The next round begins once the
/// other lane was answered: so a wake that it misses is the last.
fn give_in_rounds<R: Abort + Clock>(
    rt: &R,
    locks: &Locks,
    lane: &mut LockLane,
    set: &LockSet,
    progress: &Progress,
)
    requires lane { lane.old.table ≡ locks.now.table }
    requires nothing { HoldsNothing lane.old }
    requires set { AllBelow (length locks.now.names + 1) set.now }
{
    for before in 0..rounds::ROUNDS {
        let Ok(held) = locks.try_take(lane, set) else {
            panic!(rt; "not taken");
        };
        progress.claimed.fetch_add(1, Ordering::SeqCst);
        spin(turns_after(before));
        locks.give(lane, held);
        watch_next(rt, &progress.answered, before);
    }
}

/// In each round waits for the set once the other lane has taken its own.
fn take_in_rounds<R: Abort + Clock + Wait>(
    rt: &R,
    locks: &Locks,
    lane: &mut LockLane,
    set: &LockSet,
    progress: &Progress,
)
    requires lane { lane.old.table ≡ locks.now.table }
    requires nothing { HoldsNothing lane.old }
    requires set { AllBelow (length locks.now.names + 1) set.now }
{
    for before in 0..rounds::ROUNDS {
        watch_next(rt, &progress.claimed, before);
        let held = locks.take_wait(rt, lane, set);
        locks.give(lane, held);
        progress.answered.store(before + 1, Ordering::SeqCst);
    }
}

/// Asserts that a lane that waits for the last of many locks is answered in each round.
fn take_the_last<R: Abort + Clock + Sync + Threads + Wait>(
    rt: &R,
    locks: &Locks,
    lanes: &mut [LockLane],
)
    requires { lanes.old ≡ fresh_lanes locks.now.table 2 2 }
{
    let [first, second] = lanes else {
        panic!(rt; "not two lanes");
    };
    let all = [
        write("a"),
        write("b"),
        write("c"),
        write("d"),
        write("e"),
        write("f"),
        write("g"),
        write("h"),
    ];
    let all = merged(rt, locks, &all);
    let last = merged(rt, locks, &[write("h")]);
    let progress = Progress::new();
    join(
        rt,
        || give_in_rounds(rt, locks, first, &all, &progress),
        || take_in_rounds(rt, locks, second, &last, &progress),
    );
}

/// Who gives locks back wakes after the last of them. Tests `Locks::take_wait` and `Locks::give`.
#[test]
fn locks_are_given_before_their_giver_wakes(rt: HostRuntime) {
    let names = ["a", "b", "c", "d", "e", "f", "g", "h"];
    let (locks, mut lanes) = open(&rt, rt.alloc(), &names, 2, 8);
    take_the_last(&rt, &locks, lanes.as_mut_slice());
}

/// In each round waits for the set, and adds one to the number, in two steps, while it is held.
/// Then tells that it has ended.
fn count_up<R: Wait>(
    rt: &R,
    locks: &Locks,
    lane: &mut LockLane,
    set: &LockSet,
    number: &AtomicU64,
    ended: &AtomicU64,
)
    requires lane { lane.old.table ≡ locks.now.table }
    requires nothing { HoldsNothing lane.old }
    requires set { AllBelow (length locks.now.names + 1) set.now }
{
    for _ in 0..ROUNDS {
        let held = locks.take_wait(rt, lane, set);
        let seen = number.load(Ordering::SeqCst);
        number.store(seen.wrapping_add(1), Ordering::SeqCst);
        locks.give(lane, held);
    }
    ended.fetch_add(1, Ordering::SeqCst);
}

/// Does what `count_up` does, and looks then whether the other lane has ended too.
fn count_and_watch<R: Abort + Clock + Wait>(
    rt: &R,
    locks: &Locks,
    lane: &mut LockLane,
    set: &LockSet,
    number: &AtomicU64,
    ended: &AtomicU64,
)
    requires lane { lane.old.table ≡ locks.now.table }
    requires nothing { HoldsNothing lane.old }
    requires set { AllBelow (length locks.now.names + 1) set.now }
{
    count_up(rt, locks, lane, set, number, ended);
    watch(rt, ended, 2);
}

/// Asserts that two lanes lose no count that wait for one lock by turns.
fn count_by_turns<R: Abort + Clock + Sync + Threads + Wait>(
    rt: &R,
    locks: &Locks,
    lanes: &mut [LockLane],
)
    requires { lanes.old ≡ fresh_lanes locks.now.table 2 2 }
{
    let [first, second] = lanes else {
        panic!(rt; "not two lanes");
    };
    let writes = merged(rt, locks, &[write("a")]);
    let number = AtomicU64::new(0);
    let ended = AtomicU64::new(0);
    join(
        rt,
        || count_and_watch(rt, locks, first, &writes, &number, &ended),
        || count_and_watch(rt, locks, second, &writes, &number, &ended),
    );
    same(rt, number.load(Ordering::SeqCst), 2 * ROUNDS, "the number");
}

/// Tests `Locks::take_wait`.
#[test]
fn two_lanes_count_and_wait(rt: HostRuntime) {
    let (locks, mut lanes) = open(&rt, rt.alloc(), &["a"], 2, 8);
    count_by_turns(&rt, &locks, lanes.as_mut_slice());
}

/// Asks for the set again and again, until another lane has ended.
fn ask_until<R: Abort + Clock>(
    rt: &R,
    locks: &Locks,
    lane: &mut LockLane,
    set: &LockSet,
    ended: &AtomicU64,
)
    requires lane { lane.old.table ≡ locks.now.table }
    requires nothing { HoldsNothing lane.old }
    requires set { AllBelow (length locks.now.names + 1) set.now }
{
    for _ in 0..TRIES {
        if ended.load(Ordering::SeqCst) == 1 {
            break;
        }
        if let Ok(held) = locks.try_take(lane, set) {
            locks.give(lane, held);
        }
    }
    watch(rt, ended, 1);
}

/// The number that the second lane has counted up, which waits for a each time, while the first one
/// takes a and gives it back, since it is refused b.
fn count_beside_refused<R: Abort + Clock + Sync + Threads + Wait>(
    rt: &R,
    locks: &Locks,
    first: &mut LockLane,
    second: &mut LockLane,
) -> u64
    requires lanes { (first.old.table ≡ locks.now.table) × (second.old.table ≡ locks.now.table) }
    requires nothing { HoldsNothing first.old × HoldsNothing second.old }
{
    let both = merged(rt, locks, &[write("a"), write("b")]);
    let a = merged(rt, locks, &[write("a")]);
    let number = AtomicU64::new(0);
    let ended = AtomicU64::new(0);
    join(
        rt,
        || ask_until(rt, locks, first, &both, &ended),
        || count_up(rt, locks, second, &a, &number, &ended),
    );
    number.load(Ordering::SeqCst)
}

/// Asserts that the second lane has the lock in each round, while the third one holds b.
fn refuse_beside_waiting<R: Abort + Clock + Sync + Threads + Wait>(
    rt: &R,
    locks: &Locks,
    lanes: &mut [LockLane],
)
    requires { lanes.old ≡ fresh_lanes locks.now.table 3 3 }
{
    let [first, second, third] = lanes else {
        panic!(rt; "not three lanes");
    };
    let b = merged(rt, locks, &[write("b")]);
    let held = locks.take_wait(rt, third, &b);
    let number = count_beside_refused(rt, locks, first, second);
    locks.give(third, held);
    same(rt, number, ROUNDS, "the number");
}

/// The second lane waits for a, which the first one takes and gives back, since it is refused b:
/// nobody else gives a back. Tests `Locks::take_wait` and `Locks::try_take`.
#[test]
fn refused_take_wakes_who_waits(rt: HostRuntime) {
    let (locks, mut lanes) = open(&rt, rt.alloc(), &["a", "b"], 3, 8);
    refuse_beside_waiting(&rt, &locks, lanes.as_mut_slice());
}
