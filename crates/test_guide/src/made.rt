//! What an author makes of a compute's answers: the value, or the fault by which a test fails.
ghost use Rattle.std.specs.Prelude.{◌<◌, All, IfOk, length};
ghost use Rattle.ext_store.specs.Stores.{IsLaneOf};

use crate::hour::{open_for_two, two_lanes};
use crate::server::{Server, server_key};
use ext_engine::{OpenFault, Opened, open_run, read_ids};
use ext_model::Fault;
use ext_store::{Compute, KeepFault, Lane, Limits, Made, Refusal, Store, fault_of};
use ext_tree::Key;
use std::alloc::Global;

/// The number of a value, whether it was made, and its port.
fn told(made: Result<Made<'_, Server>, Fault>) -> Option<(u32, bool, u16)> {
    let made = made.ok()?;
    Some((made.number, made.is_new, made.value.port))
}

/// What comes of a compute at the engine's context.
fn ask(store: &Store<Server>, lane: &mut Lane<Server>, key: &Key) -> Option<(u32, bool, u16)>
    requires lane { IsLaneOf store.now.id lane.old }
    requires engine { 0 < length store.now.tree }
    ensures { IsLaneOf store.now.id lane.new }
{
    let start = |_key: &Key| -> Result<Server, Fault> { Ok(Server { port: 8080 }) };
    let answer = store.compute(lane, 0, key, start);
    told(store.found_or_made(answer, lane))
}

/// Tests `Store::found_or_made`: the first compute makes the server, and later ones of both lanes
/// find it.
#[test]
fn value_is_made_and_then_found(rt: HostRuntime) {
    let key = server_key(rt.alloc()).expect(&rt, "a key");
    let mut opened = open_for_two(rt.alloc()).expect(&rt, "a store");
    let (mut first, mut second) = two_lanes(&rt, &opened.store, &mut opened.lanes);
    assert!(rt; ask(&opened.store, &mut first, &key) == Some((1, true, 8080)));
    assert!(rt; ask(&opened.store, &mut second, &key) == Some((1, false, 8080)));
    assert!(rt; ask(&opened.store, &mut first, &key) == Some((1, false, 8080)));
}

/// Whether the answer comes to a fault with this text.
fn tells(
    store: &Store<Server>,
    lane: &mut Lane<Server>,
    answer: Compute<Server, u8>,
    text: &str,
) -> bool
    requires lane { IsLaneOf store.now.id lane.old }
    ensures { IsLaneOf store.now.id lane.new }
{
    match store.found_or_made(answer, lane) {
        Err(Fault::Text(said)) => said.as_str() == text,
        _ => false,
    }
}

/// Whether a refused compute comes to a fault with this text.
fn refused(store: &Store<Server>, lane: &mut Lane<Server>, refusal: Refusal, text: &str) -> bool
    requires lane { IsLaneOf store.now.id lane.old }
    ensures { IsLaneOf store.now.id lane.new }
{
    tells(store, lane, Compute::Refused { refusal, unused: 0 }, text)
}

/// Whether no value is shown for this number, nor a kept fault.
fn shows_none(store: &Store<Server>, lane: &mut Lane<Server>, number: u32) -> bool
    requires lane { IsLaneOf store.now.id lane.old }
    ensures { IsLaneOf store.now.id lane.new }
{
    let found = Compute::Found {
        at: 0,
        number,
        unused: 0,
    };
    let stands = Compute::FaultStands {
        at: 0,
        number,
        unused: 0,
    };
    let value = tells(store, lane, found, "the value is not shown");
    value && tells(store, lane, stands, "the kept fault is not shown")
}

/// Whether a value or a fault that was not kept comes to its cause, or to itself.
fn unkept(store: &Store<Server>, lane: &mut Lane<Server>, alloc: Global) -> bool
    requires lane { IsLaneOf store.now.id lane.old }
    ensures { IsLaneOf store.now.id lane.new }
{
    let (value, cause) = (Server { port: 8080 }, KeepFault::NumbersFull);
    let full = tells(
        store,
        lane,
        Compute::Unkept { value, cause },
        "numbers full",
    );
    let fault = fault_of(alloc, "no port");
    let own = tells(
        store,
        lane,
        Compute::FaultUnkept { fault, cause },
        "no port",
    );
    let failed = Compute::Failed(fault_of(alloc, "no port"));
    full && own && tells(store, lane, failed, "no port")
}

/// Tests `Store::found_or_made` and `fault_of`: a refusal, a number that stands for nothing, and a
/// value or a fault that was not kept each come to a fault with the text that tells it.
#[test]
fn answers_without_a_value_are_told(rt: HostRuntime) {
    let mut opened = open_for_two(rt.alloc()).expect(&rt, "a store");
    let (mut lane, _other) = two_lanes(&rt, &opened.store, &mut opened.lanes);
    let (store, lane) = (&opened.store, &mut lane);
    assert!(rt; refused(store, lane, Refusal::Busy(2), "busy at context 2"));
    assert!(rt; refused(store, lane, Refusal::Closed(1), "context 1 is closed"));
    assert!(rt; refused(store, lane, Refusal::DirectoryFull, "directory full"));
    assert!(rt; shows_none(store, lane, 0));
    assert!(rt; shows_none(store, lane, 1));
    assert!(rt; shows_none(store, lane, u32::MAX));
    assert!(rt; unkept(store, lane, rt.alloc()));
}

/// Opens a store of one context, which keeps faults, with a lane for each of two threads.
fn open_keeping(alloc: Global) -> Result<Opened<Server>, OpenFault>
    ensures contexts { IfOk result (λ o. 0 < length o.store.tree) }
    ensures lanes { IfOk result (λ o. All (IsLaneOf o.store.id) o.lanes.items) }
{
    let limits = Limits {
        keep_faults: true,
        ..Limits::new(2)
    };
    let ids = read_ids(alloc, &["[engine:x]"])?;
    open_run(alloc, ids.as_slice(), &[], limits)
}

/// Whether a compute whose factory fails for this reason comes to a fault with this text.
fn fails(
    store: &Store<Server>,
    lane: &mut Lane<Server>,
    key: &Key,
    alloc: Global,
    why: &str,
    text: &str,
) -> bool
    requires lane { IsLaneOf store.now.id lane.old }
    requires engine { 0 < length store.now.tree }
    ensures { IsLaneOf store.now.id lane.new }
{
    let start = |_key: &Key| -> Result<Server, Fault> { Err(fault_of(alloc, why)) };
    let answer = store.compute(lane, 0, key, start);
    match store.found_or_made(answer, lane) {
        Err(Fault::Text(said)) => said.as_str() == text,
        _ => false,
    }
}

/// Tests `Store::found_or_made` and `fault_of`: a factory fails in a store that keeps faults, and
/// the compute of another lane comes to that fault and not to its own.
#[test]
fn kept_fault_is_told_to_each_lane(rt: HostRuntime) {
    let key = server_key(rt.alloc()).expect(&rt, "a key");
    let mut opened = open_keeping(rt.alloc()).expect(&rt, "a store");
    let (mut first, mut second) = two_lanes(&rt, &opened.store, &mut opened.lanes);
    let store = &opened.store;
    assert!(rt; fails(store, &mut first, &key, rt.alloc(), "no port", "no port"));
    assert!(rt; fails(store, &mut second, &key, rt.alloc(), "no host", "no port"));
}
