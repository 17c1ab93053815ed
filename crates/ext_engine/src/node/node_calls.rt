//! The calls of one node, on one lane.
ghost use Rattle.std.specs.Prelude.{◌≡◌, ◌<◌, ◌≤◌, ◌+◌, ◌^◌, ◌++◌, ℕ, List, length, Option, Some, None, option_map};
ghost use Rattle.ext_store.specs.Stores.{IsLaneOf, StoreView};
ghost use Rattle.ext_locks.specs.Sets.{HeldView};
ghost use Rattle.ext_lifecycle.specs.Lifecycle.{IsRoomy, MakesAll, MakesBefores, MakesCalls, tally_of};
ghost use Rattle.ext_lifecycle.specs.declared.outcome.Outcome.{Outcome};
ghost use Rattle.ext_engine.specs.Suites.{IsLent, SuiteView};

use crate::Suite;
use ext_lifecycle::{Call, Caller, Outcome, Tally, run_afters, run_befores, run_calls};
use ext_locks::Held;
use ext_model::ContextNo;
use ext_store::{Lane, Store, StoreValue};
use std::sync::Wait;

/// Makes the calls of a node on a lane.
struct NodeCaller<'a, 'l, R, V, S> {
    rt: &'a R,
    suite: &'a S,
    store: &'a Store<V>,
    node: ContextNo,
    held: Option<&'a Held>,
    lane: &'l mut Lane<V>,
}

impl<'a, 'l, R: Wait, V: StoreValue + Drop, S: Suite<V>> Caller for NodeCaller<'a, 'l, R, V, S> {
    ghost ready = { λ c. IsLaneOf c.store.now.id c.lane.now × (c.node < length c.store.now.tree)
        × IsLent (S.suite_view c.suite.now) c.store.now.tree c.node (option_map (λ h. h.now) c.held) × S.fits c.suite.now c.store.now };

    ghost reference = { λ c. c.lane.ghost_name };

    ghost call_gives = { λ c call o d. (d.suite ≡ c.suite) × (d.store ≡ c.store) × (d.node ≡ c.node) × (d.held ≡ c.held)
        × S.call_gives c.suite.now c.store.now c.node call (option_map (λ h. h.now) c.held) c.lane.now o d.lane.now };

    fn call(&mut self, call: &Call) -> Outcome {
        self.suite
            .call(self.rt, self.store, self.node, call, self.lane, self.held)
    }
}

impl<'a, 'l, R: Wait, V: StoreValue + Drop, S: Suite<V>> NodeCaller<'a, 'l, R, V, S> {
    // `run_calls` on this lane. Where a `&mut` is in a type argument, a caller of `run_calls`
    // itself learns nothing of it.
    fn calls(&mut self, befores: &[Call], body: Call, afters: &[Call]) -> Tally
        requires lane { IsLaneOf self.old.store.now.id self.old.lane.now }
        requires node { self.old.node < length self.old.store.now.tree }
        requires lent { IsLent (S.suite_view self.old.suite.now) self.old.store.now.tree self.old.node (option_map (λ h. h.now) self.old.held) }
        requires fits { S.fits self.old.suite.now self.old.store.now }
        requires befores { length befores.now ≤ 2 ^ 30 }
        requires afters { length afters.now ≤ 2 ^ 30 }
        ensures same_reference { self.new.lane.ghost_name ≡ self.old.lane.ghost_name }
        ensures lane { IsLaneOf self.old.store.now.id self.new.lane.now }
        ensures calls { (made : List Outcome)
            × MakesCalls (λ a call o b. S.call_gives self.old.suite.now self.old.store.now self.old.node call (option_map (λ h. h.now) self.old.held) a o b)
            befores.now body afters.now self.old.lane.now made self.new.lane.now
            × (result ≡ tally_of made) }
        ensures room { IsRoomy 2 result }
    {
        run_calls(befores, body, afters, self)
    }

    fn befores(&mut self, calls: &[Call]) -> Tally
        requires lane { IsLaneOf self.old.store.now.id self.old.lane.now }
        requires node { self.old.node < length self.old.store.now.tree }
        requires lent { IsLent (S.suite_view self.old.suite.now) self.old.store.now.tree self.old.node (option_map (λ h. h.now) self.old.held) }
        requires fits { S.fits self.old.suite.now self.old.store.now }
        requires few { length calls.now ≤ 2 ^ 30 }
        ensures same_reference { self.new.lane.ghost_name ≡ self.old.lane.ghost_name }
        ensures lane { IsLaneOf self.old.store.now.id self.new.lane.now }
        ensures calls { (made : List Outcome)
            × MakesBefores (λ a call o b. S.call_gives self.old.suite.now self.old.store.now self.old.node call (option_map (λ h. h.now) self.old.held) a o b)
            calls.now self.old.lane.now made self.new.lane.now
            × (result ≡ tally_of made) }
        ensures room { IsRoomy (2 ^ 31) result }
    {
        run_befores(calls, self)
    }

    fn afters(&mut self, calls: &[Call], tally: &mut Tally)
        requires lane { IsLaneOf self.old.store.now.id self.old.lane.now }
        requires node { self.old.node < length self.old.store.now.tree }
        requires lent { IsLent (S.suite_view self.old.suite.now) self.old.store.now.tree self.old.node (option_map (λ h. h.now) self.old.held) }
        requires fits { S.fits self.old.suite.now self.old.store.now }
        requires room { IsRoomy (length calls.now) tally.old }
        ensures same_reference { self.new.lane.ghost_name ≡ self.old.lane.ghost_name }
        ensures lane { IsLaneOf self.old.store.now.id self.new.lane.now }
        ensures calls { (made : List Outcome)
            × MakesAll (λ a call o b. S.call_gives self.old.suite.now self.old.store.now self.old.node call (option_map (λ h. h.now) self.old.held) a o b)
            calls.now self.old.lane.now made self.new.lane.now
            × ((before : List Outcome) → tally.old ≡ tally_of before → tally.new ≡ tally_of (before ++ made)) }
        ensures room { (n : ℕ) → IsRoomy (length calls.now + n) tally.old → IsRoomy n tally.new }
    {
        run_afters(calls, self, tally);
    }
}

/// Makes the calls of a test: its before-callbacks, itself, and its after-callbacks.
pub(crate) fn call_test<'a, R: Wait, V: StoreValue + Drop, S: Suite<V>>(
    rt: &'a R,
    suite: &'a S,
    store: &'a Store<V>,
    node: ContextNo,
    held: &'a Held,
    lane: &mut Lane<V>,
    befores: &[Call],
    body: Call,
    afters: &[Call],
) -> Tally
    requires lane { IsLaneOf store.now.id lane.old }
    requires node { node < length store.now.tree }
    requires lent { IsLent (S.suite_view suite.now) store.now.tree node (Some held.now) }
    requires fits { S.fits suite.now store.now }
    requires befores { length befores.now ≤ 2 ^ 30 }
    requires afters { length afters.now ≤ 2 ^ 30 }
    ensures lane { IsLaneOf store.now.id lane.new }
    ensures calls { (outcomes : List Outcome)
        × MakesCalls (λ a call o b. S.call_gives suite.now store.now node call (Some held.now) a o b) befores.now body afters.now lane.old outcomes lane.new
        × (result ≡ tally_of outcomes) }
    ensures room { IsRoomy 2 result }
{
    let mut caller = NodeCaller {
        rt,
        suite,
        store,
        node,
        held: Some(held),
        lane,
    };
    let tally = caller.calls(befores, body, afters);
    let NodeCaller {
        rt: _rt,
        suite: _suite,
        store: _store,
        node: _node,
        held: _held,
        lane: _lane,
    } = caller;
    tally
}

/// Makes the before-callbacks of a container on a lane, in order, up to the first that isn't
/// successful, and answers their tally.
///
/// The lane is the store's, the suite may be run over the store, the node is a container, and there
/// are at most 2^30 calls. What memory a call takes, and for whom it waits, is its own matter.
/// JUnit 5 User Guide, section "Relative Execution Order of User Code and Extensions".
pub(crate) fn call_befores<'a, R: Wait, V: StoreValue + Drop, S: Suite<V>>(
    rt: &'a R,
    suite: &'a S,
    store: &'a Store<V>,
    node: ContextNo,
    lane: &mut Lane<V>,
    befores: &[Call],
) -> Tally
    requires lane { IsLaneOf store.now.id lane.old }
    requires node { node < length store.now.tree }
    requires lent { IsLent (S.suite_view suite.now) store.now.tree node None }
    requires fits { S.fits suite.now store.now }
    requires befores { length befores.now ≤ 2 ^ 30 }
    ensures lane { IsLaneOf store.now.id lane.new }
    ensures calls { (outcomes : List Outcome)
        × MakesBefores (λ a call o b. S.call_gives suite.now store.now node call None a o b) befores.now lane.old outcomes lane.new
        × (result ≡ tally_of outcomes) }
    ensures room { IsRoomy (2 ^ 31) result }
{
    let mut caller = NodeCaller {
        rt,
        suite,
        store,
        node,
        held: None,
        lane,
    };
    let tally = caller.befores(befores);
    let NodeCaller {
        rt: _rt,
        suite: _suite,
        store: _store,
        node: _node,
        held: _held,
        lane: _lane,
    } = caller;
    tally
}

/// Makes all after-callbacks of a container on a lane, in order, however each ends, and counts them
/// in the tally.
///
/// The lane is the store's, the suite may be run over the store, the node is a container, there are
/// at most 2^30 calls, and the tally has room for as many as its counts hold. What memory a call
/// takes, and for whom it waits, is its own matter. JUnit 5 User Guide, section "Relative Execution
/// Order of User Code and Extensions".
pub(crate) fn call_afters<'a, R: Wait, V: StoreValue + Drop, S: Suite<V>>(
    rt: &'a R,
    suite: &'a S,
    store: &'a Store<V>,
    node: ContextNo,
    lane: &mut Lane<V>,
    afters: &[Call],
    tally: &mut Tally,
)
    requires lane { IsLaneOf store.now.id lane.old }
    requires node { node < length store.now.tree }
    requires lent { IsLent (S.suite_view suite.now) store.now.tree node None }
    requires fits { S.fits suite.now store.now }
    requires room { IsRoomy (2 ^ 31) tally.old }
    requires afters { length afters.now ≤ 2 ^ 30 }
    ensures room { IsRoomy 2 tally.new }
    ensures lane { IsLaneOf store.now.id lane.new }
    ensures calls { (before : List Outcome) → tally.old ≡ tally_of before
        → (outcomes : List Outcome) × MakesAll (λ a call o b. S.call_gives suite.now store.now node call None a o b) afters.now lane.old outcomes lane.new
        × (tally.new ≡ tally_of (before ++ outcomes)) }
{
    let mut caller = NodeCaller {
        rt,
        suite,
        store,
        node,
        held: None,
        lane,
    };
    caller.afters(afters, tally);
    let NodeCaller {
        rt: _rt,
        suite: _suite,
        store: _store,
        node: _node,
        held: _held,
        lane: _lane,
    } = caller;
}
