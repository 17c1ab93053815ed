//! Waits that other threads end.
use crate::Waiters;
use std::sync::Wait;
use std::sync::atomic::{AtomicU64, Ordering};
use std::thread::join;

// How many rounds there are, and how often a thread looks for another one at most.
const ROUNDS: u64 = 20_000;

const TURNS: u64 = 10_000_000_000;

// Whether the word becomes this number in time.
fn reaches(word: &AtomicU64, number: u64) -> bool {
    for _ in 0..TURNS {
        if word.load(Ordering::SeqCst) == number {
            return true;
        }
    }
    false
}

// Ends each round once, some turns after the one before it was answered, and wakes once. Answers
// whether each round was answered. If one is not, it ends them all and wakes once more, so that the
// other lane does not sleep for ever.
fn end_rounds(waiters: &Waiters, ended: &AtomicU64, answered: &AtomicU64) -> bool {
    for round in 1..=ROUNDS {
        for _ in 0..round % 128 {
            ended.load(Ordering::SeqCst);
        }
        ended.store(round, Ordering::SeqCst);
        waiters.wake_all();
        if !reaches(answered, round) {
            ended.store(ROUNDS, Ordering::SeqCst);
            waiters.wake_all();
            return false;
        }
    }
    true
}

// Waits until at least `round` rounds have ended.
fn wait_for<R: Wait>(rt: &R, waiters: &Waiters, ended: &AtomicU64, round: u64) {
    let mut waiting = waiters.begin();
    for _ in rt.forever() {
        if ended.load(Ordering::SeqCst) >= round {
            break;
        }
        waiting.pause(rt);
    }
}

// Waits for each round, and answers it.
fn answer_rounds<R: Wait>(rt: &R, waiters: &Waiters, ended: &AtomicU64, answered: &AtomicU64) {
    for round in 1..=ROUNDS {
        wait_for(rt, waiters, ended, round);
        answered.store(round, Ordering::SeqCst);
    }
}

/// A round ends once while the other lane begins to wait for it, and the next does not end before
/// that lane has answered: so a missed wake would be the last.
/// Tests `Waiters::begin`, `Waiting::announce`, `Waiting::is_announced`, `Waiting::sleep` and
/// `Waiting::pause`.
#[test]
fn no_wake_is_missed(rt: HostRuntime) {
    let waiters = Waiters::new();
    let ended = AtomicU64::new(0);
    let answered = AtomicU64::new(0);
    let (all, ()) = join(
        &rt,
        || end_rounds(&waiters, &ended, &answered),
        || answer_rounds(&rt, &waiters, &ended, &answered),
    );
    assert!(rt; all);
    assert_eq!(rt; answered.load(Ordering::SeqCst), ROUNDS);
}

/// The first pause of a lane only announces it, and the second sleeps, until a wake that came in
/// between ends it.
/// Tests `Waiting::announce`, `Waiting::is_announced`, `Waiting::sleep` and `Waiting::pause`.
#[test]
fn pause_announces_and_then_sleeps(rt: HostRuntime) {
    let waiters = Waiters::new();
    let mut waiting = waiters.begin();
    assert!(rt; !waiting.is_announced());
    waiting.pause(&rt);
    assert!(rt; waiting.is_announced());
    waiters.wake_all();
    // That sleep ends at once.
    waiting.pause(&rt);
    assert!(rt; !waiting.is_announced());
}
