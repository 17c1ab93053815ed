//! A value that a thread stores and others find.
ghost use Rattle.std.specs.Prelude.{◌≡◌, ◌<◌, All, IfOk, length};
ghost use Rattle.ext_store.specs.Stores.{IsCloserOf, IsLaneOf};

use crate::server::{Server, server_key};
use ext_engine::{OpenFault, Opened, open_run, read_ids, take_lane};
use ext_model::{Fault, Look};
use ext_store::{Compute, Lane, Limits, Refusal, Store, StoreValue};
use ext_tree::Key;
use std::alloc::Global;
use std::process::Abort;
use std::sync::Wait;
use std::thread;
use std::thread::Threads;

/// An engine with one class with one method: the contexts 0, 1 and 2.
const CONTEXTS: [&str; 3] = [
    "[engine:x]",
    "[engine:x]/[class:A]",
    "[engine:x]/[class:A]/[method:m()]",
];

/// Opens a store of these contexts, with a lane for each of two threads.
pub(crate) fn open_for_two<V: StoreValue + Drop>(alloc: Global) -> Result<Opened<V>, OpenFault>
    ensures contexts { IfOk result (λ o. 2 < length o.store.tree) }
    ensures lanes { IfOk result (λ o. All (IsLaneOf o.store.id) o.lanes.items) }
    ensures closers { IfOk result (λ o. All (IsCloserOf o.store) o.closers.items) }
{
    let ids = read_ids(alloc, &CONTEXTS)?;
    open_run(alloc, ids.as_slice(), &[], Limits::new(2))
}

/// A thread with a lane of its own: it makes the server and stores it in the engine's context.
fn start_server(store: &Store<Server>, mut lane: Lane<Server>, key: &Key) -> Lane<Server>
    requires lane { IsLaneOf store.now.id lane }
    requires engine { 0 < length store.now.tree }
    ensures { IsLaneOf store.now.id result }
{
    if let Ok(kept) = store.keep(&mut lane, Server { port: 8080 }) {
        let _stood = store.put(&mut lane, 0, key, kept).is_ok();
    }
    lane
}

/// Starts the server in a thread, and gives the thread's lane when it has ended.
fn start_in_a_thread<R: Threads>(
    rt: &R,
    store: &Store<Server>,
    lane: Lane<Server>,
    key: &Key,
) -> Lane<Server>
    requires lane { IsLaneOf store.now.id lane }
    requires engine { 0 < length store.now.tree }
    ensures { IsLaneOf store.now.id result }
{
    let (lane, _) = thread::join(
        rt,
        move || -> Lane<Server>
            requires lane { IsLaneOf store.now.id lane }
            requires engine { 0 < length store.now.tree }
            ensures { IsLaneOf store.entry.now.id result }
        { start_server(store, lane, key) },
        || (),
    );
    lane
}

/// Another lane finds it.
fn find_server<R: Abort>(
    rt: &R,
    store: &Store<Server>,
    mut first: Lane<Server>,
    mut second: Lane<Server>,
    key: &Key,
)
    requires first { IsLaneOf store.now.id first }
    requires second { IsLaneOf store.now.id second }
    requires contexts { 2 < length store.now.tree }
{
    let found = store.get(&mut second, 2, key);
    assert!(rt; found == Ok(Look::Found { at: 0, number: 1 }));
    let server = store.show(&mut second, 1);
    assert!(rt; server == Some(&Server { port: 8080 }));
    store.meet(&mut first, &mut second);
}

/// The lanes of two threads.
pub(crate) fn two_lanes<R: Abort, V: StoreValue + Drop>(
    rt: &R,
    store: &Store<V>,
    lanes: &mut Vec<Lane<V>>,
) -> (Lane<V>, Lane<V>)
    requires { All (IsLaneOf store.now.id) lanes.old.items }
    ensures first { IsLaneOf store.now.id result.0 }
    ensures second { IsLaneOf store.now.id result.1 }
{
    let second = take_lane(store, lanes).expect(rt, "a lane");
    let first = take_lane(store, lanes).expect(rt, "a lane");
    (first, second)
}

/// Tests `open_run` and `take_lane`: a thread stores a server in the engine's context, and another
/// lane finds it from the context of a method.
#[test]
fn first_hour(rt: HostRuntime) {
    let key = server_key(rt.alloc()).expect(&rt, "a key");
    let mut opened = open_for_two(rt.alloc()).expect(&rt, "a store");
    let (first, second) = two_lanes(&rt, &opened.store, &mut opened.lanes);
    let first = start_in_a_thread(&rt, &opened.store, first, &key);
    find_server(&rt, &opened.store, first, second, &key);
}

/// A test that needs the server: it finds the server or makes it, and asks again while another test makes it. Answers the
/// server's number, where there is one.
fn find_or_start<R: Wait>(
    rt: &R,
    store: &Store<Server>,
    lane: &mut Lane<Server>,
    key: &Key,
) -> Option<u32>
    requires lane { IsLaneOf store.now.id lane.old }
    requires engine { 0 < length store.now.tree }
    ensures { IsLaneOf store.now.id lane.new }
{
    for _ in rt.forever() {
        let start = |_key: &Key| -> Result<Server, Fault> { Ok(Server { port: 8080 }) };
        match store.compute(lane, 0, key, start) {
            Compute::Computed { number } | Compute::Found { number, .. } => return Some(number),
            Compute::Refused {
                refusal: Refusal::Busy(_) | Refusal::Contended,
                ..
            } => {}
            _ => return None,
        }
    }
    None
}

/// The number and the port of the server that a test with a lane of its own finds or makes.
fn ask<R: Wait>(
    rt: &R,
    store: &Store<Server>,
    mut lane: Lane<Server>,
    key: &Key,
) -> Option<(u32, u16)>
    requires lane { IsLaneOf store.now.id lane }
    requires engine { 0 < length store.now.tree }
{
    let number = find_or_start(rt, store, &mut lane, key)?;
    let server = store.show(&mut lane, number)?;
    Some((number, server.port))
}

/// Two threads that need the server both have the same one.
fn ask_both<R: Abort + Sync + Threads + Wait>(
    rt: &R,
    store: &Store<Server>,
    first: Lane<Server>,
    second: Lane<Server>,
    key: &Key,
)
    requires first { IsLaneOf store.now.id first }
    requires second { IsLaneOf store.now.id second }
    requires engine { 0 < length store.now.tree }
{
    let asked = thread::join(
        rt,
        move || -> Option<(u32, u16)>
            requires lane { IsLaneOf store.now.id first }
            requires engine { 0 < length store.now.tree }
        { ask(rt, store, first, key) },
        move || -> Option<(u32, u16)>
            requires lane { IsLaneOf store.now.id second }
            requires engine { 0 < length store.now.tree }
        { ask(rt, store, second, key) },
    );
    assert!(rt; asked == (Some((1, 8080)), Some((1, 8080))));
}

/// Tests `Store::compute` and `Store::compute_numbered`: two threads need the server at once, and
/// both have the same one.
#[test]
fn server_made_once(rt: HostRuntime) {
    let key = server_key(rt.alloc()).expect(&rt, "a key");
    let mut opened = open_for_two(rt.alloc()).expect(&rt, "a store");
    let (first, second) = two_lanes(&rt, &opened.store, &mut opened.lanes);
    ask_both(&rt, &opened.store, first, second, &key);
}

/// Finds the server or makes it, and waits while another test makes it.
pub(crate) fn find_or_wait<R: Wait>(
    rt: &R,
    store: &Store<Server>,
    lane: &mut Lane<Server>,
    key: &Key,
) -> Option<u32>
    requires lane { IsLaneOf store.now.id lane.old }
    requires engine { 0 < length store.now.tree }
    ensures { IsLaneOf store.now.id lane.new }
{
    let start = |_key: &Key| -> Result<Server, Fault> { Ok(Server { port: 8080 }) };
    match store.compute_wait(rt, lane, 0, key, start) {
        Compute::Computed { number } | Compute::Found { number, .. } => Some(number),
        _ => None,
    }
}
