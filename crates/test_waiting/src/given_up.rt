//! Claims that are given up, since an ancestor got a value meanwhile, wake all who sleep.
ghost use Rattle.std.specs.Prelude.{◌<◌, All, length};
ghost use Rattle.ext_store.specs.Stores.{IsLaneOf};

use crate::held::{Gate, same, watch_next};
use crate::opening::{Letter, limits, with_store};
use ext_model::{Fault, KeyNo};
use ext_store::{Closer, Compute, Lane, Store, Unused};
use ext_tree::Key;
use std::alloc::Global;
use std::process::Abort;
use std::sync::Wait;
use std::sync::atomic::{AtomicU64, Ordering};
use std::test::Fail;
use std::thread::{Threads, join};
use std::time::Clock;

// How often a value is put at the root and taken out again in one round, at most.
const PUTS: u64 = 60_000;

// How often a compute begins in one round, at most.
const BEGINS: u64 = 2_000_000;

// How many rounds there are at most: in one of them a claim is given up before a factory runs.
const ROUNDS: u64 = 400;

/// How a compute begins.
#[derive(Clone, Copy)]
enum Begin {
    /// By `begin_numbered`.
    Plain,
    /// By `begin_along`.
    Along,
    /// By `compute`.
    Compute,
    /// By `compute_wait`.
    Waiting,
}

/// How far the lanes of a round are: one sleeps in the class, one puts and removes values at the
/// root, or faults that are kept there, and one begins computes in the method.
#[derive(Drop)]
struct Round {
    begin: Begin,
    /// Holds the others until the first lane sleeps.
    gate: Gate,
    /// 1 while values are to be put.
    puts_go_on: AtomicU64,
    puts: AtomicU64,
    /// 1 where the lane that slept went on though no claim was ended but by giving it up.
    woken: AtomicU64,
}

impl Round {
    fn new(begin: Begin) -> Round {
        Round {
            begin,
            gate: Gate::new(1),
            puts_go_on: AtomicU64::new(0),
            puts: AtomicU64::new(0),
            woken: AtomicU64::new(0),
        }
    }

    fn start_puts<R: Abort + Clock>(&self, rt: &R) {
        self.puts_go_on.store(1, Ordering::SeqCst);
        watch_next(rt, &self.puts, 0);
    }

    fn end_puts(&self) {
        self.puts_go_on.store(2, Ordering::SeqCst);
    }

    /// Tells that the lane which slept went on, where it has.
    fn tell_woken(&self, is_woken: bool) {
        if is_woken {
            self.woken.store(1, Ordering::SeqCst);
        }
    }
}

/// Puts a value at the root, or a fault where the store keeps faults, and wakes nobody, where a
/// number is left.
fn put(store: &Store<Letter>, lane: &mut Lane<Letter>, key: &Key)
    requires lane { IsLaneOf store.now.id lane.old }
    requires context { 0 < length store.now.tree }
    ensures { IsLaneOf store.now.id lane.new }
{
    if !store.keeps_faults() {
        if let Ok(kept) = store.keep(lane, Letter { letter: 'x' }) {
            let _put = store.put(lane, 0, key, kept);
        }
    } else if let Ok(claim) = store.begin(lane, 0, key) {
        let _failed = store.fail_decided_quietly(lane, claim, Fault::Memory);
    }
}

/// Puts something at the root and takes it out again.
fn put_and_remove(store: &Store<Letter>, lane: &mut Lane<Letter>, key: &Key)
    requires lane { IsLaneOf store.now.id lane.old }
    requires context { 0 < length store.now.tree }
    ensures { IsLaneOf store.now.id lane.new }
{
    put(store, lane, key);
    let _removed = store.remove(lane, 0, key);
}

/// Puts and removes at the root while the round asks for it.
fn race<R: Wait>(rt: &R, store: &Store<Letter>, lane: &mut Lane<Letter>, key: &Key, round: &Round)
    requires lane { IsLaneOf store.now.id lane.old }
    requires context { 0 < length store.now.tree }
{
    for _ in rt.forever() {
        match round.puts_go_on.load(Ordering::SeqCst) {
            0 => {}
            1 if round.puts.load(Ordering::SeqCst) < PUTS => {
                put_and_remove(store, lane, key);
                round.puts.fetch_add(1, Ordering::SeqCst);
            }
            _ => break,
        }
    }
}

/// Waits in the class for the claim that holds the gate.
fn sleep_in_class<R: Clock + Wait>(
    rt: &R,
    store: &Store<Letter>,
    lane: &mut Lane<Letter>,
    key: &Key,
    gate: &Gate,
)
    requires lane { IsLaneOf store.now.id lane.old }
    requires context { 1 < length store.now.tree }
{
    gate.come(rt);
    let _looked = store.get_wait(rt, lane, 1, key);
    gate.end();
}

/// Claims the class's place until another lane sleeps for it, and ends the claim so that nobody is
/// woken. Says whether that lane sleeps.
fn put_to_sleep<R: Clock>(
    rt: &R,
    store: &Store<Letter>,
    lane: &mut Lane<Letter>,
    number: KeyNo,
    gate: &Gate,
) -> bool
    requires lane { IsLaneOf store.now.id lane.old }
    requires context { 2 < length store.now.tree }
    requires key { number < length store.now.id.keys }
    ensures { IsLaneOf store.now.id lane.new }
{
    let Ok(claim) = store.begin_numbered(lane, 1, number) else {
        return false;
    };
    let sleeps = gate.pass(rt);
    store.abandon_quietly(lane, claim);
    sleeps
}

/// Begins a compute in the method, and ends it so that nobody is woken.
fn begin_quietly(store: &Store<Letter>, lane: &mut Lane<Letter>, number: KeyNo, along: bool)
    requires lane { IsLaneOf store.now.id lane.old }
    requires context { 2 < length store.now.tree }
    requires key { number < length store.now.id.keys }
    ensures { IsLaneOf store.now.id lane.new }
{
    let path = [2, 1, 0];
    let begun = if along && store.is_trail(&path) {
        store.begin_along(lane, &path, number)
    } else {
        store.begin_numbered(lane, 2, number)
    };
    if let Ok(claim) = begun {
        store.abandon_quietly(lane, claim);
    }
}

/// Computes in the method. Where its factory is called, it tells whether the lane that sleeps went
/// on before, and ends the round.
fn compute<R: Clock + Wait>(
    rt: &R,
    store: &Store<Letter>,
    lane: &mut Lane<Letter>,
    key: &Key,
    round: &Round,
)
    requires lane { IsLaneOf store.now.id lane.old }
    requires context { 2 < length store.now.tree }
    ensures { IsLaneOf store.now.id lane.new }
{
    let factory = |_key: &Key| -> Result<Letter, Fault> {
        round.end_puts();
        round.tell_woken(round.gate.ends_soon(rt));
        Err(Fault::Memory)
    };
    if matches!(round.begin, Begin::Waiting) {
        let _computed = store.compute_wait(rt, lane, 2, key, factory);
    } else {
        let _computed = store.compute(lane, 2, key, factory);
    }
}

/// Ends a claim in the class so that all who sleep are woken. Says whether it was had.
fn wake_all(store: &Store<Letter>, lane: &mut Lane<Letter>, number: KeyNo) -> bool
    requires lane { IsLaneOf store.now.id lane.old }
    requires context { 2 < length store.now.tree }
    requires key { number < length store.now.id.keys }
    ensures { IsLaneOf store.now.id lane.new }
{
    let Ok(claim) = store.begin_numbered(lane, 1, number) else {
        return false;
    };
    store.abandon(lane, claim);
    true
}

/// Wakes the lane that sleeps.
fn end_sleep(store: &Store<Letter>, lane: &mut Lane<Letter>, number: KeyNo)
    requires lane { IsLaneOf store.now.id lane.old }
    requires context { 2 < length store.now.tree }
    requires key { number < length store.now.id.keys }
{
    for _ in 0..BEGINS {
        if wake_all(store, lane, number) {
            break;
        }
    }
}

/// Begins computes in the method until the lane that sleeps went on, or a factory is called.
fn begin_until_woken<R: Clock + Wait>(
    rt: &R,
    store: &Store<Letter>,
    lane: &mut Lane<Letter>,
    key: &Key,
    number: KeyNo,
    round: &Round,
)
    requires lane { IsLaneOf store.now.id lane.old }
    requires context { 2 < length store.now.tree }
    requires key { number < length store.now.id.keys }
    ensures { IsLaneOf store.now.id lane.new }
{
    for _ in 0..BEGINS {
        if round.puts_go_on.load(Ordering::SeqCst) != 1 {
            break;
        }
        if round.gate.has_ended() {
            round.tell_woken(true);
            break;
        }
        match round.begin {
            Begin::Plain => begin_quietly(store, lane, number, false),
            Begin::Along => begin_quietly(store, lane, number, true),
            Begin::Compute | Begin::Waiting => compute(rt, store, lane, key, round),
        }
    }
}

/// Has another lane sleep, and begins computes until it goes on, or as often as a round has it. Then
/// it is woken.
fn wake_by_giving_up<R: Abort + Clock + Wait>(
    rt: &R,
    store: &Store<Letter>,
    lane: &mut Lane<Letter>,
    key: &Key,
    round: &Round,
)
    requires lane { IsLaneOf store.now.id lane.old }
    requires context { 2 < length store.now.tree }
{
    if let Ok(number) = store.number(lane, key)
        && put_to_sleep(rt, store, lane, number, &round.gate)
    {
        round.start_puts(rt);
        begin_until_woken(rt, store, lane, key, number, round);
        round.end_puts();
        end_sleep(store, lane, number);
    }
    round.end_puts();
    round.gate.watch(rt);
}

/// The three lanes at once, each in a thread of its own.
fn run<R: Abort + Clock + Threads + Wait + Sync>(
    rt: &R,
    store: &Store<Letter>,
    key: &Key,
    lanes: &mut [Lane<Letter>],
    round: &Round,
)
    requires lanes { All (IsLaneOf store.now.id) lanes.old }
    requires contexts { 2 < length store.now.tree }
{
    let [first, second, third] = lanes else {
        panic!(rt; "there are three lanes");
    };
    join(
        rt,
        ||
            requires { IsLaneOf store.now.id first.now × IsLaneOf store.now.id second.now × (2 < length store.now.tree) }
        {
            join(
                rt,
                ||
                    requires { IsLaneOf store.now.id first.now × (2 < length store.now.tree) }
                { wake_by_giving_up(rt, store, first, key, round) },
                ||
                    requires { IsLaneOf store.now.id second.now × (2 < length store.now.tree) }
                { race(rt, store, second, key, round) },
            );
        },
        ||
            requires { IsLaneOf store.now.id third.now × (2 < length store.now.tree) }
        { sleep_in_class(rt, store, third, key, &round.gate) },
    );
}

/// Whether a lane that sleeps was woken by a claim that was given up, in a store of its own.
fn is_woken<R: Abort + Clock + Threads + Wait + Sync>(
    rt: &R,
    alloc: Global,
    begin: Begin,
    keep_faults: bool,
) -> Result<bool, Fail> {
    let round = &Round::new(begin);
    with_store(
        alloc,
        limits(3, keep_faults),
        |store: &Store<Letter>, key: &Key, lanes: &mut [Lane<Letter>], _closers: &mut Vec<Closer>|
            requires lanes { All (IsLaneOf store.now.id) lanes.old }
            requires contexts { 2 < length store.now.tree }
        { run(rt, store, key, lanes, round) },
    )?;
    Ok(round.woken.load(Ordering::SeqCst) == 1)
}

/// Asserts that in some round a lane that sleeps is woken by a claim that is given up.
fn given_up_wakes<R: Abort + Clock + Threads + Wait + Sync>(
    rt: &R,
    alloc: Global,
    begin: Begin,
    keep_faults: bool,
) -> Result<(), Fail> {
    let mut woken = false;
    for _ in 0..ROUNDS {
        if is_woken(rt, alloc, begin, keep_faults)? {
            woken = true;
            break;
        }
    }
    same(rt, woken, true, "whether a claim that is given up wakes");
    Ok(())
}

/// A lane sleeps for a claim whose end woke nobody. It goes on once `begin` gives its claim up,
/// since a value came to stand at the root, or a fault that is kept.
#[test]
fn begin_given_up_wakes_who_sleeps(rt: HostRuntime) -> Result<(), Fail> {
    given_up_wakes(&rt, rt.alloc(), Begin::Plain, false)?;
    given_up_wakes(&rt, rt.alloc(), Begin::Plain, true)
}

/// A lane sleeps for a claim whose end woke nobody. It goes on once `begin_along` gives its claim
/// up.
#[test]
fn begin_along_given_up_wakes_who_sleeps(rt: HostRuntime) -> Result<(), Fail> {
    given_up_wakes(&rt, rt.alloc(), Begin::Along, false)
}

/// A lane sleeps for a claim whose end woke nobody. It goes on once `compute` gives its claim up,
/// and so it does by `compute_wait`, before a factory is called.
#[test]
fn compute_given_up_wakes_who_sleeps(rt: HostRuntime) -> Result<(), Fail> {
    given_up_wakes(&rt, rt.alloc(), Begin::Compute, false)?;
    given_up_wakes(&rt, rt.alloc(), Begin::Waiting, false)
}
