//! A round: all lanes make their calls at once, and their replies are checked afterwards.
ghost use Rattle.std.specs.Prelude.{All};
ghost use Rattle.ext_store.specs.Stores.{IsCloserOf, IsLaneOf};

use crate::calls::{make_calls, put, tell_numbers};
use crate::chance::{below, numbers_of, once_in};
use crate::checks::Checks;
use crate::closing::{Closing, are_closed, close_all, close_some};
use crate::fault::SoakFault;
use crate::moving::move_often;
use crate::opening::{ENGINE, MOVED, Opened, Payload, Place, STANDING, Shared, open};
use crate::replies::Log;
use crate::words::Soak;
use ext_store::{Closer, Lane};
use rand_pcg::Pcg32;
use std::alloc::{AllocError, Global};
use std::sync::{Mutex, Wait};
use std::thread::{Threads, for_each_mut, join_mut};

/// Makes a round: the last lane closes contexts beside the others, the first moves a value, all
/// others make all calls.
pub(crate) fn make_round<R: Threads + Sync + Wait + AllocGlobal>(
    rt: &R,
    soak: Soak,
    round: u32,
) -> Result<(), SoakFault> {
    let Ok(logs) = logs_of(rt.alloc(), soak.lanes) else {
        return Err(SoakFault::Memory);
    };
    open_and_call(rt, logs.as_slice(), soak, round)
}

/// Opens the round's store, has its lanes make their calls, and checks their replies.
fn open_and_call<R: Threads + Sync + Wait + AllocGlobal>(
    rt: &R,
    logs: &[Mutex<Log>],
    soak: Soak,
    round: u32,
) -> Result<(), SoakFault> {
    let mut numbers = numbers_of(soak.seed, round, soak.lanes);
    let tries = tries_of(&mut numbers);
    match open(rt.alloc(), soak.lanes, tries, round) {
        Ok(opened) => call_in(rt, opened, numbers, logs, soak, round),
        Err(fault) => Err(fault),
    }
}

/// Has all lanes of this store make their calls, and checks their replies.
fn call_in<R: Threads + Sync + Wait + AllocGlobal>(
    rt: &R,
    opened: Opened,
    numbers: Pcg32,
    logs: &[Mutex<Log>],
    soak: Soak,
    round: u32,
) -> Result<(), SoakFault>
    requires lanes { All (IsLaneOf opened.shared.store.id) opened.lanes.items }
    requires closers { All (IsCloserOf opened.shared.store) opened.closers.items }
{
    let mut opened = opened;
    let lanes = opened.lanes.as_mut_slice();
    let closers = &mut opened.closers;
    let checked = call_and_check(
        rt,
        &opened.shared,
        lanes,
        closers,
        numbers,
        logs,
        soak,
        round,
    );
    drop(opened);
    checked
}

/// Has all lanes of the round make their calls, closes what is left, and checks their replies.
fn call_and_check<R: Threads + Sync + Wait + AllocGlobal>(
    rt: &R,
    shared: &Shared,
    lanes: &mut [Lane<Payload>],
    closers: &mut Vec<Closer>,
    numbers: Pcg32,
    logs: &[Mutex<Log>],
    soak: Soak,
    round: u32,
) -> Result<(), SoakFault>
    requires lanes { All (IsLaneOf shared.now.store.id) lanes.old }
    requires closers { All (IsCloserOf shared.now.store) closers.old.items }
{
    let mut closing = Closing::new(rt.alloc(), numbers);
    call(rt, shared, lanes, closers, &mut closing, logs, soak, round);
    end_all(shared, lanes, closers, &mut closing);
    check(rt, rt.alloc(), &closing.log, logs)
}

/// Has all lanes of the round make their calls: the last one puts the first values, and then closes
/// while the others call. It has met all others afterwards.
fn call<R: Threads + Sync + Wait + AllocGlobal>(
    rt: &R,
    shared: &Shared,
    lanes: &mut [Lane<Payload>],
    closers: &mut Vec<Closer>,
    closing: &mut Closing,
    logs: &[Mutex<Log>],
    soak: Soak,
    round: u32,
)
    requires lanes { All (IsLaneOf shared.now.store.id) lanes.old }
    requires closers { All (IsCloserOf shared.now.store) closers.old.items }
    ensures lanes { All (IsLaneOf shared.now.store.id) lanes.new }
    ensures closers { All (IsCloserOf shared.now.store) closers.new.items }
{
    let count = lanes.len().saturating_sub(1);
    let (others, hand) = lanes.split_at_mut(count);
    put_first(rt, shared, hand, &mut closing.log);
    at_once(
        rt,
        rt.alloc(),
        shared,
        hand,
        others,
        closers,
        closing,
        logs,
        soak,
        round,
    );
    tell_and_meet(shared, hand, others, &mut closing.log);
}

/// Puts a value in the engine under the key where one always stands, and one under the key whose
/// value is moved.
fn put_first<R: Wait>(rt: &R, shared: &Shared, hand: &mut [Lane<Payload>], log: &mut Log)
    requires { All (IsLaneOf shared.now.store.id) hand.old }
    ensures { All (IsLaneOf shared.now.store.id) hand.new }
{
    let Some(lane) = hand.first_mut() else {
        return;
    };
    let standing = Place {
        context: ENGINE,
        key: STANDING,
    };
    let moved = Place {
        context: ENGINE,
        key: MOVED,
    };
    let standing = put(rt, shared, lane, standing, false, true, log);
    let moved = put(rt, shared, lane, moved, false, true, log);
    log.wrong_unless(standing && moved, SoakFault::Answer);
}

/// Half of the rounds have one try, the others up to 64.
fn tries_of(numbers: &mut Pcg32) -> u32 {
    if once_in(numbers, 2) {
        return 1;
    }
    below(numbers, 64) as u32 + 1
}

/// A log for each lane.
fn logs_of(alloc: Global, lanes: usize) -> Result<Vec<Mutex<Log>>, AllocError> {
    let mut logs = Vec::new(alloc);
    for _ in 0..lanes {
        logs.push(Mutex::new(Log::new(alloc)))?;
    }
    Ok(logs)
}

/// Has the lane in hand close contexts while the others make their calls.
fn at_once<R: Threads + Sync + Wait>(
    rt: &R,
    alloc: Global,
    shared: &Shared,
    hand: &mut [Lane<Payload>],
    others: &mut [Lane<Payload>],
    closers: &mut Vec<Closer>,
    closing: &mut Closing,
    logs: &[Mutex<Log>],
    soak: Soak,
    round: u32,
)
    requires hand { All (IsLaneOf shared.now.store.id) hand.old }
    requires others { All (IsLaneOf shared.now.store.id) others.old }
    requires closers { All (IsCloserOf shared.now.store) closers.old.items }
    ensures hand { All (IsLaneOf shared.now.store.id) hand.new }
    ensures others { All (IsLaneOf shared.now.store.id) others.new }
    ensures closers { All (IsCloserOf shared.now.store) closers.new.items }
{
    let mut calls = ||
        requires others { All (IsLaneOf shared.now.store.id) others.now }
        ensures others { All (IsLaneOf shared.entry.now.store.id) others.exit.now }
    { call_all(rt, alloc, shared, others, logs, soak, round) };
    let mut closes = ||
        requires hand { All (IsLaneOf shared.now.store.id) hand.now }
        requires closers { All (IsCloserOf shared.now.store) closers.now.items }
        ensures hand { All (IsLaneOf shared.entry.now.store.id) hand.exit.now }
        ensures closers { All (IsCloserOf shared.entry.now.store) closers.exit.now.items }
    { close_beside_others(rt, alloc, shared, hand, closers, closing) };
    join_mut(rt, &mut calls, &mut closes);
}

/// Closes contexts while the other lanes make their calls, and leaves the closers of the others.
fn close_beside_others<R: Wait>(
    rt: &R,
    alloc: Global,
    shared: &Shared,
    hand: &mut [Lane<Payload>],
    closers: &mut Vec<Closer>,
    closing: &mut Closing,
)
    requires hand { All (IsLaneOf shared.now.store.id) hand.old }
    requires closers { All (IsCloserOf shared.now.store) closers.old.items }
    ensures hand { All (IsLaneOf shared.now.store.id) hand.new }
    ensures closers { All (IsCloserOf shared.now.store) closers.new.items }
{
    let mut left = Vec::new(alloc);
    close_some(rt, shared, hand, closers, &mut left, closing);
    *closers = left;
}

/// Has each of these lanes make its calls in a thread of its own.
fn call_all<R: Threads + Sync + Wait>(
    rt: &R,
    alloc: Global,
    shared: &Shared,
    lanes: &mut [Lane<Payload>],
    logs: &[Mutex<Log>],
    soak: Soak,
    round: u32,
)
    requires { All (IsLaneOf shared.now.store.id) lanes.old }
    ensures { All (IsLaneOf shared.now.store.id) lanes.new }
{
    for_each_mut(
        rt,
        lanes,
        16,
        &|at, lane: &mut Lane<Payload>|
            requires lane { IsLaneOf shared.now.store.id lane.old }
            ensures lane { IsLaneOf shared.entry.now.store.id lane.new }
        {
            let numbers = numbers_of(soak.seed, round, at);
            let log = calls_of(rt, alloc, shared, lane, numbers);
            keep_log(rt, logs, at, log);
        },
    );
}

/// Makes a lane's calls, and tells its numbers of keys then. The first lane moves a value.
fn calls_of<R: Wait>(
    rt: &R,
    alloc: Global,
    shared: &Shared,
    lane: &mut Lane<Payload>,
    numbers: Pcg32,
) -> Log
    requires { IsLaneOf shared.now.store.id lane.old }
    ensures { IsLaneOf shared.now.store.id lane.new }
{
    let mut numbers = numbers;
    let mut log = Log::new(alloc);
    if lane.number() == 0 {
        move_often(rt, shared, lane, &mut numbers, &mut log);
    } else {
        make_calls(rt, shared, lane, &mut numbers, &mut log);
    }
    tell_numbers(shared, lane, &mut log);
    log
}

/// Keeps a lane's log.
fn keep_log<R: Wait>(rt: &R, logs: &[Mutex<Log>], at: usize, log: Log) {
    if let Some(slot) = logs.get(at) {
        *slot.lock(rt) = log;
    }
}

/// The lane that closes, the first in hand, tells its numbers of keys, and meets all others then.
fn tell_and_meet(
    shared: &Shared,
    hand: &mut [Lane<Payload>],
    others: &mut [Lane<Payload>],
    log: &mut Log,
)
    requires hand { All (IsLaneOf shared.now.store.id) hand.old }
    requires others { All (IsLaneOf shared.now.store.id) others.old }
    ensures hand { All (IsLaneOf shared.now.store.id) hand.new }
    ensures others { All (IsLaneOf shared.now.store.id) others.new }
{
    if let Some(lane) = hand.first_mut() {
        tell_numbers(shared, lane, log);
        meet(shared, lane, others);
    }
}

/// The lane meets all others.
fn meet(shared: &Shared, lane: &mut Lane<Payload>, others: &mut [Lane<Payload>])
    requires lane { IsLaneOf shared.now.store.id lane.old }
    requires others { All (IsLaneOf shared.now.store.id) others.old }
    ensures lane { IsLaneOf shared.now.store.id lane.new }
    ensures others { All (IsLaneOf shared.now.store.id) others.new }
{
    for at in 0..others.len() {
        shared.store.meet(&mut others[at], lane);
    }
}

/// Closes all contexts that are left, with all lanes in hand.
fn end_all(
    shared: &Shared,
    lanes: &mut [Lane<Payload>],
    closers: &mut Vec<Closer>,
    closing: &mut Closing,
)
    requires lanes { All (IsLaneOf shared.now.store.id) lanes.old }
    requires closers { All (IsCloserOf shared.now.store) closers.old.items }
{
    close_all(shared, lanes, closers, closing);
    let closed = match lanes.first_mut() {
        Some(first) => are_closed(shared, first),
        None => false,
    };
    closing.log.wrong_unless(closed, SoakFault::Open);
}

/// Checks each reply against all others.
fn check<R: Wait>(rt: &R, alloc: Global, own: &Log, logs: &[Mutex<Log>]) -> Result<(), SoakFault> {
    let Ok(mut checks) = Checks::new(alloc) else {
        return Err(SoakFault::Memory);
    };
    checks.read_stored(own);
    for slot in logs {
        checks.read_stored(&slot.lock(rt));
    }
    read_left(rt, &mut checks, own, logs);
    match checks.settled() {
        Some(fault) => Err(fault),
        None => Ok(()),
    }
}

fn read_left<R: Wait>(rt: &R, checks: &mut Checks, own: &Log, logs: &[Mutex<Log>]) {
    checks.read_left(own);
    for slot in logs {
        checks.read_left(&slot.lock(rt));
    }
}
