//! A store of the chain with both of its lanes in one hand, so that a test names a lane by its
//! number.
ghost use Rattle.std.specs.Prelude.{◌<◌, All, IfOk, length};
ghost use Rattle.ext_model.specs.CallActs.{IsHeld};
ghost use Rattle.ext_store.specs.Stores.{IsCloserOf, IsLaneOf};

use crate::asked::{key, same, with_made};
use crate::closes::Recorder;
use crate::full::name_from;
use crate::opening::{Letter, Opened, closeable, open_chain_for, open_store, plain};
use ext_closing::{CloseFault, Closed, close};
use ext_model::{ContextNo, Fault, KeyNo, Look, Size};
use ext_store::{Claim, Closer, Compute, KeepFault, Lane, Limits, Refusal, Store, Unused};
use ext_tree::Key;
use std::alloc::Global;
use std::marker::Model;
use std::process::Abort;

/// What a compute answers. Where its factory comes back unused, it was called afterwards and gave
/// the letter that it was to give.
#[derive(Clone, Copy, Debug, PartialEq, Eq)]
pub(crate) enum Answer {
    Computed(u32),
    Found(ContextNo, u32),
    Failed,
    FaultKept(u32),
    FaultUnkept(KeepFault),
    FaultStands(ContextNo, u32),
    Unkept(KeepFault),
    Refused(Refusal),
    Other,
}

/// A call, with what it is to answer.
#[derive(Clone, Copy)]
pub(crate) enum Call {
    /// The key's number; no context matters.
    Numbers(Result<KeyNo, Refusal>),
    Gets(Result<Look, Refusal>),
    Removes(Result<Option<u32>, Refusal>),
    /// The value, its number, and what the put answers.
    Puts(Letter, u32, Result<Option<u32>, Refusal>),
    /// The value, its number, why the put is refused, and the context in which the kept number,
    /// which comes back, is put then, where nothing stands.
    PutsInstead(Letter, u32, Refusal, ContextNo),
    /// The letter that the factory makes.
    Computes(char, Answer),
    /// The letter that the factory makes, of a closeable value.
    ComputesToClose(char, Answer),
    /// The text with which the factory fails.
    Fails(&'static str),
    /// The text with which the factory fails, and what the compute answers.
    FailsAs(&'static str, Answer),
    ShowsFault(u32, Option<&'static str>),
    Shows(u32, Option<Letter>),
    /// By all lanes up to this one: how many values are closed, or why none is, and the numbers
    /// that the action was given.
    Closes(Result<u32, CloseFault>, [u32; 4]),
    /// By all lanes up to this one, by an action that always fails: how many values are closed, how
    /// many faults there are beside the first and its text, and the numbers that the action was
    /// given.
    FailsToClose(u32, u32, &'static str, [u32; 4]),
}

/// How a row computes: all ways are to answer the same.
#[derive(Clone, Copy, PartialEq, Eq)]
pub(crate) enum Way {
    /// By one call, which is handed a factory.
    OneCall,
    /// By two calls, the first by the key.
    TwoCalls,
    /// By two calls that wake nobody, the first by the key's number.
    TwoQuietCalls,
}

/// A row of a test: the lane that calls, 0 or 1, the context, 0 to 2, the key's name, and the call.
pub(crate) type Row = (usize, ContextNo, &'static str, Call);

/// The store and its two lanes. Calls are made by lane 0 or 1, in the contexts 0, 1 and 2, under
/// keys by their names.
#[derive(Drop)]
pub(crate) struct Chain {
    alloc: Global,
    way: Way,
    store: Store<Letter>,
    lanes: [Lane<Letter>; 2],
    closers: Vec<Closer>,
}

impl Model for Chain {
    ghost use Rattle.std.specs.Prelude.{◌<◌, All, length};
    ghost use Rattle.ext_store.specs.Stores.{IsCloserOf, IsLaneOf};

    ghost Value = { Unit {0} };

    ghost view = { λ _. tt };

    ghost invariant = { λ c. All (IsLaneOf c.store.id) c.lanes × All (IsCloserOf c.store) c.closers.items × (2 < length c.store.tree) };
}

impl Chain {
    /// The numbers of the lanes.
    fn numbers_of_lanes(&self) -> (usize, usize) {
        (self.lanes[0].number(), self.lanes[1].number())
    }

    /// What a close of the context answers that has the lanes up to this one in hand. Where it is
    /// refused, the context can be closed again.
    fn close<R: Abort>(
        &mut self,
        rt: &R,
        lane: usize,
        context: ContextNo,
        action: &mut Recorder,
    ) -> Result<Closed, CloseFault>
        requires { lane < 2 }
    {
        let hand = lane + 1;
        let closer = take_closer(rt, &self.store, &mut self.closers, context);
        match close(&self.store, closer, &mut self.lanes[..hand], action) {
            Ok(closed) => Ok(closed),
            Err((closer, fault)) => {
                give_back(rt, &self.store, &mut self.closers, closer);
                Err(fault)
            }
        }
    }
}

// Takes the context's closer out of the others.
fn take_closer(
    rt: &impl Abort,
    store: &Store<Letter>,
    closers: &mut Vec<Closer>,
    context: ContextNo,
) -> Closer
    requires { All (IsCloserOf store.now) closers.old.items }
    ensures own { IsCloserOf store.now result }
    ensures others { All (IsCloserOf store.now) closers.new.items }
{
    let found = closers
        .iter()
        .position(|closer| closer.context() == context);
    let Some(at) = found else {
        panic!(rt; "there is no closer of context {context}");
    };
    closers.remove(at)
}

// Puts the closer behind the others.
fn give_back(rt: &impl Abort, store: &Store<Letter>, closers: &mut Vec<Closer>, closer: Closer)
    requires others { All (IsCloserOf store.now) closers.old.items }
    requires closer { IsCloserOf store.now closer }
    ensures { All (IsCloserOf store.now) closers.new.items }
{
    let Ok(()) = closers.push(closer) else {
        panic!(rt; "no memory");
    };
}

/// What the compute answers whose factory makes the letter.
fn answer_of(outcome: Compute<Letter, Result<Letter, Fault>>, letter: char) -> Answer {
    match outcome {
        Compute::Computed { number } => Answer::Computed(number),
        Compute::Found {
            at,
            number,
            unused: Ok(value),
        } if value.letter == letter => Answer::Found(at, number),
        Compute::FaultStands {
            at,
            number,
            unused: Ok(value),
        } if value.letter == letter => Answer::FaultStands(at, number),
        Compute::Unkept { value, cause } if value.letter == letter => Answer::Unkept(cause),
        Compute::Refused {
            refusal,
            unused: Ok(value),
        } if value.letter == letter => Answer::Refused(refusal),
        _ => Answer::Other,
    }
}

/// The text of the fault; `None` where it has none.
fn text_of(fault: Option<&Fault>) -> Option<&str> {
    match fault {
        Some(Fault::Text(text)) => Some(text.as_str()),
        _ => None,
    }
}

/// Asserts that there is a fault with this text, or none where there is no text.
fn check_fault<R: Abort>(rt: &R, fault: Option<&Fault>, text: Option<&str>) {
    assert!(rt; fault.is_some() == text.is_some());
    same(rt, text_of(fault), text, "the fault");
}

/// This, where the fault has the text.
fn answer_if(fault: &Fault, text: &str, answer: Answer) -> Answer {
    if text_of(Some(fault)) == Some(text) {
        answer
    } else {
        Answer::Other
    }
}

/// This, where the factory that came back fails with the text.
fn answer_if_unused(made: Result<Letter, Fault>, text: &str, answer: Answer) -> Answer {
    match made {
        Ok(_) => Answer::Other,
        Err(fault) => answer_if(&fault, text, answer),
    }
}

/// What the compute answers whose factory fails with the text.
fn answer_of_fault(outcome: Compute<Letter, Result<Letter, Fault>>, text: &str) -> Answer {
    match outcome {
        Compute::Failed(fault) => answer_if(&fault, text, Answer::Failed),
        Compute::FaultKept { number } => Answer::FaultKept(number),
        Compute::FaultUnkept { fault, cause } => answer_if(
            &fault,
            text,
            Answer::FaultUnkept(cause),
        ),
        Compute::FaultStands { at, number, unused } => {
            answer_if_unused(unused, text, Answer::FaultStands(at, number))
        }
        Compute::Refused { refusal, unused } => {
            answer_if_unused(unused, text, Answer::Refused(refusal))
        }
        Compute::Computed { .. } | Compute::Found { .. } | Compute::Unkept { .. } => Answer::Other,
    }
}

/// The number under which a value is kept, and what its put answers.
fn put<R: Abort>(
    rt: &R,
    store: &Store<Letter>,
    lane: &mut Lane<Letter>,
    context: ContextNo,
    key: &Key,
    value: Letter,
) -> (u32, Result<Option<u32>, Refusal>)
    requires lane { IsLaneOf store.now.id lane.old }
    requires context { context < length store.now.tree }
    ensures { IsLaneOf store.now.id lane.new }
{
    let Ok(kept) = store.keep(lane, value) else {
        panic!(rt; "not kept");
    };
    let number = kept.number();
    match store.put(lane, context, key, kept) {
        Ok(stood) => (number, Ok(stood)),
        Err((_, refusal)) => (number, Err(refusal)),
    }
}

/// The number under which a value is kept, why its put is refused, and what its put in the other
/// context answers then.
fn put_instead<R: Abort>(
    rt: &R,
    store: &Store<Letter>,
    lane: &mut Lane<Letter>,
    context: ContextNo,
    other: ContextNo,
    key: &Key,
    value: Letter,
) -> (u32, Refusal, Result<Option<u32>, Refusal>)
    requires lane { IsLaneOf store.now.id lane.old }
    requires context { context < length store.now.tree }
    ensures { IsLaneOf store.now.id lane.new }
{
    assert!(rt; other < store.tree().len());
    let Ok(kept) = store.keep(lane, value) else {
        panic!(rt; "not kept");
    };
    let number = kept.number();
    let Err((kept, refusal)) = store.put(lane, context, key, kept) else {
        panic!(rt; "not refused");
    };
    match store.put(lane, other, key, kept) {
        Ok(stood) => (number, refusal, Ok(stood)),
        Err((_, again)) => (number, refusal, Err(again)),
    }
}

/// The first of the two calls.
fn begin(
    way: Way,
    store: &Store<Letter>,
    lane: &mut Lane<Letter>,
    context: ContextNo,
    key: &Key,
) -> Result<Claim, Unused>
    requires lane { IsLaneOf store.now.id lane.old }
    requires context { context < length store.now.tree }
    ensures held { IfOk result (IsHeld lane.new.cells.view) }
    ensures lane { IsLaneOf store.now.id lane.new }
{
    if way != Way::TwoQuietCalls {
        return store.begin(lane, context, key);
    }
    match store.number(lane, key) {
        Ok(number) => store.begin_numbered_quietly(lane, context, number),
        Err(why) => Err(Unused::Refused(why)),
    }
}

/// The second of the two calls, where a value was made.
fn fill(
    way: Way,
    store: &Store<Letter>,
    lane: &mut Lane<Letter>,
    claim: Claim,
    value: Letter,
) -> Compute<Letter, Result<Letter, Fault>>
    requires lane { IsLaneOf store.now.id lane.old }
    requires held { IsHeld lane.old.cells.view claim }
    ensures { IsLaneOf store.now.id lane.new }
{
    let filled = if way == Way::TwoQuietCalls {
        store.fill_decided_quietly(lane, claim, value)
    } else {
        store.fill(lane, claim, value)
    };
    match filled {
        Ok(number) => Compute::Computed { number },
        Err((value, cause)) => Compute::Unkept { value, cause },
    }
}

/// The second of the two calls, where there is a fault in the place of a value.
fn end_failed(
    way: Way,
    store: &Store<Letter>,
    lane: &mut Lane<Letter>,
    claim: Claim,
    fault: Fault,
) -> Compute<Letter, Result<Letter, Fault>>
    requires lane { IsLaneOf store.now.id lane.old }
    requires held { IsHeld lane.old.cells.view claim }
    ensures { IsLaneOf store.now.id lane.new }
{
    if !store.keeps_faults() {
        if way == Way::TwoQuietCalls {
            store.abandon_quietly(lane, claim);
        } else {
            store.abandon(lane, claim);
        }
        return Compute::Failed(fault);
    }
    let failed = if way == Way::TwoQuietCalls {
        store.fail_decided_quietly(lane, claim, fault)
    } else {
        store.fail(lane, claim, fault)
    };
    match failed {
        Ok(number) => Compute::FaultKept { number },
        Err((fault, cause)) => Compute::FaultUnkept { fault, cause },
    }
}

/// What the two calls answer, where `made` is what came of the work between them, in the words of a
/// compute.
fn compute_by_two(
    way: Way,
    store: &Store<Letter>,
    lane: &mut Lane<Letter>,
    context: ContextNo,
    key: &Key,
    made: Result<Letter, Fault>,
) -> Compute<Letter, Result<Letter, Fault>>
    requires lane { IsLaneOf store.now.id lane.old }
    requires context { context < length store.now.tree }
    ensures { IsLaneOf store.now.id lane.new }
{
    let claim = match begin(way, store, lane, context, key) {
        Ok(claim) => claim,
        Err(Unused::Found { at, number }) => {
            return Compute::Found {
                at,
                number,
                unused: made,
            };
        }
        Err(Unused::FaultStands { at, number }) => {
            return Compute::FaultStands {
                at,
                number,
                unused: made,
            };
        }
        Err(Unused::Refused(refusal)) => {
            return Compute::Refused {
                refusal,
                unused: made,
            };
        }
    };
    match made {
        Ok(value) => fill(way, store, lane, claim, value),
        Err(fault) => end_failed(way, store, lane, claim, fault),
    }
}

/// What a compute answers whose factory answers `made`, if it is given the key; where the factory
/// comes back unused, what it answers then.
fn compute(
    way: Way,
    store: &Store<Letter>,
    lane: &mut Lane<Letter>,
    context: ContextNo,
    key: &Key,
    made: Result<Letter, Fault>,
) -> Compute<Letter, Result<Letter, Fault>>
    requires lane { IsLaneOf store.now.id lane.old }
    requires context { context < length store.now.tree }
    ensures { IsLaneOf store.now.id lane.new }
{
    if way != Way::OneCall {
        return compute_by_two(way, store, lane, context, key, made);
    }
    let factory = move |name: &Key| -> Result<Letter, Fault> {
        if name == key {
            made
        } else {
            Err(Fault::Memory)
        }
    };
    match store.compute(lane, context, key, factory) {
        Compute::Computed { number } => Compute::Computed { number },
        Compute::Found { at, number, unused } => Compute::Found {
            at,
            number,
            unused: unused(key),
        },
        Compute::FaultStands { at, number, unused } => Compute::FaultStands {
            at,
            number,
            unused: unused(key),
        },
        Compute::Failed(fault) => Compute::Failed(fault),
        Compute::FaultKept { number } => Compute::FaultKept { number },
        Compute::FaultUnkept { fault, cause } => Compute::FaultUnkept { fault, cause },
        Compute::Unkept { value, cause } => Compute::Unkept { value, cause },
        Compute::Refused { refusal, unused } => Compute::Refused {
            refusal,
            unused: unused(key),
        },
    }
}

/// Computes by a factory that makes the value.
fn make(
    way: Way,
    store: &Store<Letter>,
    lane: &mut Lane<Letter>,
    context: ContextNo,
    key: &Key,
    value: Letter,
) -> Answer
    requires lane { IsLaneOf store.now.id lane.old }
    requires context { context < length store.now.tree }
    ensures { IsLaneOf store.now.id lane.new }
{
    let letter = value.letter;
    answer_of(compute(way, store, lane, context, key, Ok(value)), letter)
}

/// Computes by a factory that fails with the text.
fn fail(
    way: Way,
    alloc: Global,
    store: &Store<Letter>,
    lane: &mut Lane<Letter>,
    context: ContextNo,
    key: &Key,
    text: &str,
) -> Answer
    requires lane { IsLaneOf store.now.id lane.old }
    requires context { context < length store.now.tree }
    ensures { IsLaneOf store.now.id lane.new }
{
    let Ok(fault) = String::from_str(alloc, text) else {
        return Answer::Other;
    };
    let outcome = compute(way, store, lane, context, key, Err(Fault::Text(fault)));
    answer_of_fault(outcome, text)
}

/// Asserts that the lane's call has its answer. A close is no lane's.
fn ask<R: Abort>(
    rt: &R,
    way: Way,
    alloc: Global,
    store: &Store<Letter>,
    lane: &mut Lane<Letter>,
    at: ContextNo,
    key: &Key,
    call: Call,
    name: &str,
)
    requires lane { IsLaneOf store.now.id lane.old }
    requires context { at < length store.now.tree }
    ensures { IsLaneOf store.now.id lane.new }
{
    match call {
        Call::Numbers(answer) => same(rt, store.number(lane, key), answer, name),
        Call::Gets(answer) => same(rt, store.get(lane, at, key), answer, name),
        Call::Removes(answer) => same(rt, store.remove(lane, at, key), answer, name),
        Call::Puts(value, number, answer) => {
            let told = put(rt, store, lane, at, key, value);
            same(rt, told, (number, answer), name);
        }
        Call::PutsInstead(value, number, refusal, other) => {
            let told = put_instead(rt, store, lane, at, other, key, value);
            same(rt, told, (number, refusal, Ok(None)), name);
        }
        Call::Computes(letter, answer) => {
            same(
                rt,
                make(way, store, lane, at, key, plain(letter)),
                answer,
                name,
            );
        }
        Call::ComputesToClose(letter, answer) => {
            same(
                rt,
                make(way, store, lane, at, key, closeable(letter)),
                answer,
                name,
            );
        }
        Call::Fails(text) => {
            let told = fail(way, alloc, store, lane, at, key, text);
            same(rt, told, Answer::Failed, name);
        }
        Call::FailsAs(text, answer) => {
            let told = fail(way, alloc, store, lane, at, key, text);
            same(rt, told, answer, name);
        }
        Call::ShowsFault(number, text) => {
            check_fault(rt, store.show_fault(lane, number), text);
        }
        Call::Shows(number, value) => same(rt, store.show(lane, number).copied(), value, name),
        Call::Closes(..) | Call::FailsToClose(..) => panic!(rt; "a close is no lane's"),
    }
}

impl Chain {
    // How many values a close has closed, or why it is refused, how many faults there are beside
    // the first, and the numbers that its action was given. Where there is a text, the action
    // always fails, and the first fault has it; otherwise there is none.
    fn close_by<R: Abort>(
        &mut self,
        rt: &R,
        lane: usize,
        context: ContextNo,
        text: Option<&str>,
    ) -> (Result<u32, CloseFault>, u32, [u32; 4])
        requires { lane < 2 }
    {
        let mut recorder = Recorder::new(self.alloc, text.is_some());
        match self.close(rt, lane, context, &mut recorder) {
            Ok(closed) => {
                check_fault(rt, closed.first_fault.as_ref(), text);
                (Ok(closed.closed), closed.more_faults, recorder.numbers)
            }
            Err(fault) => (Err(fault), 0, recorder.numbers),
        }
    }

    // Has lane 1 name 64 keys, which take all places.
    fn fill<R: Abort>(&mut self, rt: &R) {
        let lane = &mut self.lanes[1];
        name_from(rt, self.alloc, &self.store, lane, 0);
    }

    // Asserts that the row's call has its answer.
    fn go<R: Abort>(&mut self, rt: &R, row: Row) {
        let (lane, at, name, call) = row;
        assert!(rt; lane < 2 && at < 3);
        let key = key(rt, self.alloc, name);
        self.answers(rt, lane, at, &key, call, name);
    }

    // Asserts that the call has its answer.
    fn answers<R: Abort>(
        &mut self,
        rt: &R,
        lane: usize,
        at: ContextNo,
        key: &Key,
        call: Call,
        name: &str,
    )
        requires lane { lane < 2 }
        requires context { at < 3 }
    {
        match call {
            Call::Closes(answer, numbers) => {
                let told = self.close_by(rt, lane, at, None);
                same(rt, told, (answer, 0, numbers), name);
            }
            Call::FailsToClose(closed, more, text, numbers) => {
                let told = self.close_by(rt, lane, at, Some(text));
                same(rt, told, (Ok(closed), more, numbers), name);
            }
            _ => {
                let lane = &mut self.lanes[lane];
                ask(
                    rt,
                    self.way,
                    self.alloc,
                    &self.store,
                    lane,
                    at,
                    key,
                    call,
                    name,
                );
            }
        }
    }
}

/// The opened store with both lanes in one hand.
fn in_one_hand(alloc: Global, way: Way, opened: Opened<Letter>) -> Chain
    requires first { IsLaneOf opened.store.id opened.first }
    requires second { IsLaneOf opened.store.id opened.second }
    requires closers { All (IsCloserOf opened.store) opened.closers.items }
    requires contexts { 2 < length opened.store.tree }
{
    Chain {
        alloc,
        way,
        store: opened.store,
        lanes: [opened.first, opened.second],
        closers: opened.closers,
    }
}

/// Opens a store of the chain with so many numbers, which keeps faults or not, and whose rows
/// compute this way; `None` where there is no memory.
fn open(alloc: Global, numbers: u32, keep_faults: bool, way: Way) -> Option<Chain> {
    let opened = open_chain_for(alloc, numbers, keep_faults)?;
    Some(in_one_hand(alloc, way, opened))
}

/// The same of the last two of as many lanes as there can be.
fn open_last_lanes(alloc: Global, numbers: u32, way: Way) -> Option<Chain> {
    let limits = Limits {
        tries: 8,
        numbers,
        size: Size::Large,
        ..Limits::new(32)
    };
    let opened = open_store(alloc, limits)?;
    Some(in_one_hand(alloc, way, opened))
}

/// Asserts that the lanes have these numbers, and that each row's call, in order, has its answer.
fn play<R: Abort>(rt: &R, chain: &mut Chain, lanes: (usize, usize), rows: &[Row]) {
    let numbers = chain.numbers_of_lanes();
    same(rt, numbers, lanes, "the numbers of the lanes");
    for row in rows {
        chain.go(rt, *row);
    }
}

/// For each way to compute, opens a store of the chain with so many numbers, and asserts that each
/// row's call, in order, has its answer.
pub(crate) fn rows<R: Abort>(rt: &R, alloc: Global, numbers: u32, rows: &[Row]) {
    for way in [Way::OneCall, Way::TwoCalls, Way::TwoQuietCalls] {
        with_made(rt, open(alloc, numbers, false, way), |chain| {
            play(rt, chain, (0, 1), rows)
        });
    }
}

/// The same where lane 1 has named the keys `0` to `63` before, which have all numbers.
pub(crate) fn rows_when_full<R: Abort>(rt: &R, alloc: Global, numbers: u32, rows: &[Row]) {
    for way in [Way::OneCall, Way::TwoCalls, Way::TwoQuietCalls] {
        with_made(rt, open(alloc, numbers, false, way), |chain| {
            chain.fill(rt);
            play(rt, chain, (0, 1), rows)
        });
    }
}

/// The same as `rows` in a store that keeps faults.
pub(crate) fn rows_with_faults<R: Abort>(rt: &R, alloc: Global, numbers: u32, rows: &[Row]) {
    for way in [Way::OneCall, Way::TwoCalls, Way::TwoQuietCalls] {
        with_made(rt, open(alloc, numbers, true, way), |chain| {
            play(rt, chain, (0, 1), rows)
        });
    }
}

/// The same as `rows` where lanes 0 and 1 of the rows are lanes 30 and 31 of a large store.
pub(crate) fn rows_by_last_lanes<R: Abort>(rt: &R, alloc: Global, numbers: u32, rows: &[Row]) {
    for way in [Way::OneCall, Way::TwoCalls, Way::TwoQuietCalls] {
        with_made(rt, open_last_lanes(alloc, numbers, way), |chain| {
            play(rt, chain, (30, 31), rows)
        });
    }
}
