//! Lanes that wait, without a store.
use crate::held::{reaches, same, watch};
use ext_waiters::Waiters;
use std::process::Abort;
use std::sync::Wait;
use std::sync::atomic::{AtomicU64, Ordering};
use std::thread::{Threads, join, sleep};
use std::time::{Clock, Duration};

/// Pauses once. Nobody wakes the lane.
fn pause_once<R: Wait>(rt: &R, waiters: &Waiters, ended: &AtomicU64) -> bool {
    let mut waiting = waiters.begin();
    waiting.pause(rt);
    ended.fetch_add(1, Ordering::SeqCst);
    waiting.is_announced()
}

/// The first pause announces that the lane waits, and no more: it is to try once more before it
/// sleeps.
/// Tests `Waiters::new`, `Waiters::begin`, `Waiting::pause` and `Waiting::is_announced`.
#[test]
fn first_pause_does_not_sleep(rt: HostRuntime) {
    let waiters = Waiters::new();
    let ended = AtomicU64::new(0);
    let (announced, ()) = join(
        &rt,
        || pause_once(&rt, &waiters, &ended),
        || watch(&rt, &ended, 1),
    );
    same(&rt, announced, true, "whether it is announced");
}

/// Announces that the lane waits, and sleeps.
fn announce_and_sleep<R: Wait>(rt: &R, waiters: &Waiters, begun: &AtomicU64, ended: &AtomicU64) {
    let mut waiting = waiters.begin();
    waiting.announce();
    begun.fetch_add(1, Ordering::SeqCst);
    waiting.sleep(rt);
    ended.fetch_add(1, Ordering::SeqCst);
}

/// Wakes once, some time after so many lanes began to sleep. Says whether none of them went on
/// before.
fn wake_late<R: Abort + Clock>(
    rt: &R,
    waiters: &Waiters,
    begun: &AtomicU64,
    ended: &AtomicU64,
    lanes: u64,
) -> bool {
    let begin = reaches(rt, begun, lanes);
    sleep(rt, Duration::from_millis(20));
    let asleep = ended.load(Ordering::SeqCst) == 0;
    waiters.wake_all();
    watch(rt, ended, lanes);
    begin && asleep
}

/// Asserts that two lanes sleep until they are woken by one call.
fn wake_two<R: Abort + Clock + Threads + Wait + Sync>(rt: &R) {
    let waiters = Waiters::new();
    let begun = AtomicU64::new(0);
    let ended = AtomicU64::new(0);
    let (asleep, ((), ())) = join(
        rt,
        || wake_late(rt, &waiters, &begun, &ended, 2),
        || {
            join(
                rt,
                || announce_and_sleep(rt, &waiters, &begun, &ended),
                || announce_and_sleep(rt, &waiters, &begun, &ended),
            )
        },
    );
    same(rt, asleep, true, "whether both slept");
}

/// Tests `Waiters::new`, `Waiters::wake_all`, `Waiting::announce` and `Waiting::sleep`.
#[test]
fn one_wake_ends_the_sleep_of_two(rt: HostRuntime) {
    wake_two(&rt);
}

/// Sleeps, though the sleep of another wait ends after the announcement of this one: a wake came
/// between the two announcements.
fn sleep_beside_another<R: Wait>(rt: &R, waiters: &Waiters, begun: &AtomicU64, ended: &AtomicU64) {
    let mut other = waiters.begin();
    other.announce();
    waiters.wake_all();
    let mut waiting = waiters.begin();
    waiting.announce();
    other.sleep(rt);
    begun.fetch_add(1, Ordering::SeqCst);
    waiting.sleep(rt);
    ended.fetch_add(1, Ordering::SeqCst);
}

/// Tests `Waiting::announce`, `Waiting::sleep` and `Waiters::wake_all`.
#[test]
fn end_of_a_sleep_wakes_nobody(rt: HostRuntime) {
    let waiters = Waiters::new();
    let begun = AtomicU64::new(0);
    let ended = AtomicU64::new(0);
    let (asleep, ()) = join(
        &rt,
        || wake_late(&rt, &waiters, &begun, &ended, 1),
        || sleep_beside_another(&rt, &waiters, &begun, &ended),
    );
    same(&rt, asleep, true, "whether it slept");
}
