//! What JUnit's `ExtensionContext` gives an extension, by calls of the store.
ghost use Rattle.std.specs.Prelude.{◌<◌, length};
ghost use Rattle.ext_store.specs.Stores.{IsLaneOf};

use crate::hour::{open_for_two, two_lanes};
use crate::server::Server;
use ext_engine::{Outcome, Verdict};
use ext_model::{ContextNo, Fault, Look};
use ext_store::{Compute, Lane, Store, StoreValue};
use ext_tree::{Key, Namespace};
use std::alloc::Global;
use std::sync::Wait;
use std::test::Fail;

/// Calls beside JUnit's own, of a test whose context is 2. Answers the numbers that they tell.
fn four_calls<R: Wait>(
    rt: &R,
    alloc: Global,
    store: &Store<Server>,
    lane: &mut Lane<Server>,
) -> Result<(Option<u32>, Look, Option<u32>), Fail>
    requires lane { IsLaneOf store.now.id lane.old }
    requires contexts { 2 < length store.now.tree }
    ensures { IsLaneOf store.now.id lane.new }
{
    let start = |_key: &Key| -> Result<Server, Fault> { Ok(Server { port: 8080 }) };
    let key = Key::new(alloc, Namespace::create(alloc, &["web"])?, "server")?;
    let server = store.compute_wait(rt, lane, 0, &key, start);
    let same = store.get_wait(rt, lane, 2, &key)?;
    let removed = store.remove_wait(rt, lane, 0, &key)?;
    Ok((number_of(server), same, removed))
}

/// The number of a value that was computed or found.
fn number_of<F: Drop>(computed: Compute<Server, F>) -> Option<u32> {
    match computed {
        Compute::Computed { number } | Compute::Found { number, .. } => Some(number),
        _ => None,
    }
}

#[test]
fn calls_beside_junits(rt: HostRuntime) -> Result<(), Fail> {
    let mut opened = open_for_two(rt.alloc())?;
    let (mut lane, _other) = two_lanes(&rt, &opened.store, &mut opened.lanes);
    let told = four_calls(&rt, rt.alloc(), &opened.store, &mut lane)?;
    let found = Look::Found { at: 0, number: 1 };
    assert!(rt; told == (Some(1), found, Some(1)));
    Ok(())
}

/// Why a test failed, as its suite notes it for the test's after-callbacks.
#[derive(Debug, Drop, PartialEq, Eq)]
struct Failure {
    why: String,
}

impl StoreValue for Failure {
    ghost use Rattle.std.specs.Prelude.{false};

    ghost is_closeable = { λ _. false };

    fn closeable(&self) -> bool {
        false
    }
}

/// After a call of a test: where it failed, the suite notes why in the test's own context. The first failure stays.
fn note<R: Wait>(
    rt: &R,
    alloc: Global,
    store: &Store<Failure>,
    lane: &mut Lane<Failure>,
    test: ContextNo,
    key: &Key,
    outcome: &Outcome,
)
    requires lane { IsLaneOf store.now.id lane.old }
    requires test { test < length store.now.tree }
    ensures { IsLaneOf store.now.id lane.new }
{
    let Verdict::Failed(fault) = &outcome.verdict else {
        return;
    };
    let failure = |_key: &Key| -> Result<Failure, Fault> {
        match format!(in alloc; "{fault}") {
            Ok(why) => Ok(Failure { why }),
            Err(_) => Err(Fault::Memory),
        }
    };
    let _noted = store.compute_wait(rt, lane, test, key, failure);
}

/// What an after-callback of a test asks: why the test failed so far.
fn failure_of<'a, R: Wait>(
    rt: &R,
    store: &'a Store<Failure>,
    lane: &mut Lane<Failure>,
    test: ContextNo,
    key: &Key,
) -> Option<&'a Failure>
    requires lane { IsLaneOf store.now.id lane.old }
    requires test { test < length store.now.tree }
    ensures { IsLaneOf store.now.id lane.new }
{
    match store.get_wait(rt, lane, test, key) {
        Ok(Look::Found { at: _, number }) => store.show(lane, number),
        _ => None,
    }
}

/// Notes two failures of a test, and asks for them. Answers whether nothing was noted before, and the first one is afterwards.
fn note_twice<R: Wait>(
    rt: &R,
    alloc: Global,
    store: &Store<Failure>,
    lane: &mut Lane<Failure>,
    key: &Key,
    failed: &Outcome,
) -> bool
    requires lane { IsLaneOf store.now.id lane.old }
    requires contexts { 2 < length store.now.tree }
{
    let before = failure_of(rt, store, lane, 2, key).is_none();
    note(rt, alloc, store, lane, 2, key, failed);
    let later = Outcome::of(Verdict::Failed(Fault::Memory));
    note(rt, alloc, store, lane, 2, key, &later);
    match failure_of(rt, store, lane, 2, key) {
        Some(failure) => before && failure.why.as_str() == "no answer",
        None => false,
    }
}

/// Tests `run_tree`: a suite notes two failures of a test in the test's context, where an
/// after-callback finds the first.
#[test]
fn after_callback_sees_the_first_failure(rt: HostRuntime) -> Result<(), Fail> {
    let mut opened = open_for_two(rt.alloc())?;
    let (mut lane, _other) = two_lanes(&rt, &opened.store, &mut opened.lanes);
    let key = Key::new(rt.alloc(), Namespace::global(), "failure")?;
    let failed = Outcome::of(Verdict::Failed(Fault::Text(format!(in rt.alloc(); "no answer")?)));
    assert!(rt; note_twice(&rt, rt.alloc(), &opened.store, &mut lane, &key, &failed));
    Ok(())
}
