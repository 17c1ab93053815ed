//! The end of a context: the values that remain are closed.
ghost use Rattle.std.specs.Prelude.{◌≡◌, ◌<◌, All, length};
ghost use Rattle.ext_store.specs.Stores.{IsCloserOf, IsLaneOf};

use crate::hour::{find_or_wait, open_for_two, two_lanes};
use crate::server::{Server, server_key};
use ext_closing::{CloseAction, CloseFault, close};
use ext_engine::take_closer;
use ext_model::Fault;
use ext_store::{Closer, Lane, Store};
use ext_tree::Key;
use std::process::Abort;
use std::sync::Wait;

/// What stops a server.
#[derive(Drop)]
struct Stop {
    stopped: u32,
}

impl CloseAction<Server> for Stop {
    ghost close_gives = { λ before number server answer after. Unit {0} };

    fn close(&mut self, _number: u32, _server: &Server) -> Result<(), Fault> {
        self.stopped = self.stopped.saturating_add(1);
        Ok(())
    }
}

/// The close of the engine's context by both lanes: the server is stopped.
fn end<R: Abort>(
    rt: &R,
    store: &Store<Server>,
    closer: Closer,
    first: Lane<Server>,
    second: Lane<Server>,
)
    requires first { IsLaneOf store.now.id first }
    requires second { IsLaneOf store.now.id second }
    requires closer { IsCloserOf store.now closer }
{
    let mut hand = [first, second];
    let mut stop = Stop { stopped: 0 };
    let Ok(closed) = close(store, closer, &mut hand, &mut stop) else {
        panic!(rt; "not closed");
    };
    assert!(rt; (closed.closed, stop.stopped) == (1, 1));
}

/// A close of the engine's context without the lane that stored the server: nothing is closed, and the closer comes back.
fn end_too_early<R: Abort>(
    rt: &R,
    store: &Store<Server>,
    closer: Closer,
    second: Lane<Server>,
) -> (Closer, Lane<Server>)
    requires lane { IsLaneOf store.now.id second }
    requires closer { IsCloserOf store.now closer }
    ensures closer { IsCloserOf store.now result.0 }
    ensures lane { IsLaneOf store.now.id result.1 }
{
    let mut hand = [second];
    let mut stop = Stop { stopped: 0 };
    let Err((closer, fault)) = close(store, closer, &mut hand, &mut stop) else {
        panic!(rt; "closed by a lane that does not know the server");
    };
    assert!(rt; (fault, stop.stopped) == (CloseFault::Unjoined(1), 0));
    let [second] = hand;
    (closer, second)
}

/// One lane makes the server. The close without it is refused, and that by both lanes stops the server.
fn make_and_end<R: Abort + Wait>(
    rt: &R,
    store: &Store<Server>,
    mut first: Lane<Server>,
    second: Lane<Server>,
    closer: Closer,
    key: &Key,
)
    requires first { IsLaneOf store.now.id first }
    requires second { IsLaneOf store.now.id second }
    requires closer { IsCloserOf store.now closer }
    requires engine { 0 < length store.now.tree }
{
    let made = find_or_wait(rt, store, &mut first, key);
    assert!(rt; made == Some(1));
    let (closer, second) = end_too_early(rt, store, closer, second);
    end(rt, store, closer, first, second);
}

/// Tests `CloseAction::close`, `close` and `take_closer`: one lane makes a server, so a close
/// without that lane is refused, and one by both lanes stops the server once.
#[test]
fn server_is_stopped_once(rt: HostRuntime) {
    let key = server_key(rt.alloc()).expect(&rt, "a key");
    let mut opened = open_for_two(rt.alloc()).expect(&rt, "a store");
    let (first, second) = two_lanes(&rt, &opened.store, &mut opened.lanes);
    let closer = take_closer(&opened.store, &mut opened.closers, 0).expect(&rt, "a closer");
    make_and_end(&rt, &opened.store, first, second, closer, &key);
}
