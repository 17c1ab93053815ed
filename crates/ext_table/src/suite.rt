//! A table of nodes as a whole suite.
ghost use Rattle.std.specs.Prelude.{◌≡◌, ◌<◌, ◌≤◌, ◌&&◌, Some, true, false, map, min, length, slice_get};
ghost use Rattle.ext_locks.specs.Names.{texts_of};
ghost use Rattle.ext_store.specs.Stores.{IsLaneOf};
ghost use Rattle.ext_engine.specs.Suites.{asks};
ghost use Rattle.ext_table.specs.InnerSharing.{level_keys};
ghost use Rattle.ext_table.specs.Stops.{IsVerdictOf};
ghost use Rattle.ext_table.specs.TableCalls.{CallsBack, CallsKind, IsTried, TableCall, TriesRow, most_attempts};
ghost use Rattle.ext_table.specs.Tables.{asked, callbacks_in, reserved_in};

use crate::shared::nothing_handed;
use crate::{Engine, Kept, LeftOut, NamedLock, Row, Scope, Stop, TableListener};
use ext_closing::CloseAction;
use ext_engine::{
    Call, Callbacks, Kind, Mode, NodeResult, Outcome, Status, Suite, Verdict, is_leaf,
};
use ext_lifecycle::FaultOrigin;
use ext_locks::{Held, LockRequest, Resource};
use ext_model::{ContextNo, Fault, LaneNo};
use ext_store::{Lane, Store};
use ext_tree::Key;
use std::sync::Wait;
use std::sync::atomic::{AtomicU64, Ordering};

/// How many callbacks of a kind a node may register.
const MOST_CALLBACKS: usize = 1_048_576;

/// The nodes of a table over a store of them.
#[derive(Drop)]
pub(crate) struct TableSuite<'a, E: Engine, L> {
    pub(crate) rt: &'a HostRuntime,
    pub(crate) engine: &'a E,
    pub(crate) store: &'a Store<Kept<E::Shared>>,
    pub(crate) names: &'a [&'a str],
    pub(crate) rows: &'a [Row<E::Given>],
    /// A key for each level, so that what a class shares is not taken for what one of its tests does:
    /// a look-up goes upwards.
    pub(crate) keys: &'a [Key],
    /// How often a test is run at most, where the table does not say so; 0 stands for 1.
    pub(crate) attempts: u32,
    /// After how many failed tests no more are begun; 0 if all are.
    pub(crate) stop_after: u64,
    /// How many tests have failed.
    pub(crate) failed: &'a AtomicU64,
    pub(crate) listener: &'a L,
}

/// What closes the values of a node's context.
#[derive(Drop)]
pub(crate) struct Closing<'a, E, L> {
    rt: &'a HostRuntime,
    engine: &'a E,
    node: ContextNo,
    listener: &'a L,
}

impl<E: Engine, L: TableListener> CloseAction<Kept<E::Shared>> for Closing<'_, E, L> {
    ghost use Rattle.std.specs.Prelude.{◌≡◌};
    ghost use Rattle.ext_table.specs.Stops.{IsClosed};

    ghost close_gives = { λ before number kept closed after. (after ≡ before) × IsClosed (E.close_gives before.engine.now kept.0) closed };

    fn close(&mut self, number: u32, kept: &Kept<E::Shared>) -> Result<(), Fault> {
        self.listener.closes(self.node, number);
        match self.engine.close(self.rt, &kept.0) {
            Ok(()) => {
                self.listener.closed(self.node, number, None);
                Ok(())
            }
            Err(stop) => {
                let fault = stop.fault(self.rt);
                self.listener.closed(self.node, number, Some(&fault));
                self.listener.faulted(self.node, FaultOrigin::Close, &fault);
                Err(fault)
            }
        }
    }
}

impl<E: Engine, L> Callbacks for TableSuite<'_, E, L> {
    ghost use Rattle.ext_table.specs.Tables.{registered_in};

    ghost registered = { λ suite kind node. registered_in suite.rows.now kind node };

    fn count(&self, kind: Kind, node: ContextNo) -> usize {
        self.callbacks(kind, node).len().min(MOST_CALLBACKS)
    }
}

impl<'a, E: Engine + Sync, L: TableListener + Sync> Suite<Kept<E::Shared>> for TableSuite<'a, E, L>
where
    E::Shared: Send + Sync,
{
    ghost use Rattle.std.specs.Prelude.{◌≡◌};
    ghost use Rattle.ext_locks.specs.Names.{texts_of};
    ghost use Rattle.ext_table.specs.InnerSharing.{level_keys};
    ghost use Rattle.ext_table.specs.TableCalls.{TableCall};
    ghost use Rattle.ext_table.specs.Tables.{GivesEnabled, table_view};

    type Action = Closing<'a, E, L>;

    ghost suite_view = { λ suite. table_view suite.rows.now (texts_of suite.names.now) suite.store.now.tree };

    ghost fits = { λ suite store. suite.keys.now ≡ level_keys };

    ghost call_gives = { λ suite store node call held before outcome after. TableCall (E.test_gives suite.engine.now) (E.make_gives suite.engine.now) (E.lane_gives suite.engine.now) suite.rows.now suite.attempts store node call before outcome after };

    ghost action_gives = { λ suite node action. action.engine.now ≡ suite.engine.now };

    ghost enabled_gives = { λ suite node answer. GivesEnabled suite.rows.now suite.stop_after node answer };

    fn mode(&self, node: ContextNo) -> Mode {
        match self.rows.get(node) {
            Some(row) => row.mode,
            None => Mode::Concurrent,
        }
    }

    fn isolated(&self, node: ContextNo) -> bool {
        match self.rows.get(node) {
            Some(row) => row.is_isolated,
            None => false,
        }
    }

    fn is_test(&self, node: ContextNo) -> bool {
        let said = match self.rows.get(node) {
            Some(row) => row.test.is_some(),
            None => false,
        };
        is_leaf(self.store.tree(), node) && said
    }

    fn lock_count(&self, node: ContextNo) -> usize {
        match self.rows.get(node) {
            Some(row) => row.locks.len(),
            None => 0,
        }
    }

    fn lock<'l>(&'l self, node: ContextNo, i: usize) -> Option<LockRequest<'l>> {
        let row = self.rows.get(node)?;
        let lock = row.locks.get(i)?;
        Some(request(self.names, *lock))
    }

    /// Leaves out each node once so many tests have failed, and those in reserve that do not come.
    fn is_enabled(&self, node: ContextNo) -> bool {
        if self.is_stopped() {
            self.listener.left_out(node, LeftOut::Stopped);
            return false;
        }
        if !self.comes(node) {
            self.listener.left_out(node, LeftOut::DidNotCome);
            return false;
        }
        true
    }

    fn action(&self, node: ContextNo) -> Closing<'a, E, L> {
        Closing {
            rt: self.rt,
            engine: self.engine,
            node,
            listener: self.listener,
        }
    }

    fn started(&self, node: ContextNo, lane: LaneNo) {
        self.listener.started(node, lane);
    }

    fn ended(&self, ran: &NodeResult) {
        if ran.is_test && matches!(ran.status, Status::Failed) {
            self.failed.fetch_add(1, Ordering::SeqCst);
        }
        self.listener.ended(ran, self.rows.len());
    }

    fn call<R: Wait>(
        &self,
        rt: &R,
        store: &Store<Kept<E::Shared>>,
        node: ContextNo,
        call: &Call,
        lane: &mut Lane<Kept<E::Shared>>,
        _held: Option<&Held>,
    ) -> Outcome {
        self.listener.called(node, call);
        let outcome = self.outcome_of(rt, store, node, call, lane);
        self.tell(node, call, &outcome.verdict);
        self.listener.returned(node, call);
        outcome
    }
}

/// The request for a lock.
fn request<'l>(names: &'l [&'l str], lock: NamedLock) -> LockRequest<'l>
    ensures { asks result ≡ asked (texts_of names.now) lock }
{
    let name: &'l str = match names.get(lock.name) {
        Some(name) => name,
        None => "",
    };
    LockRequest {
        resource: Resource::Named(name),
        mode: lock.mode,
    }
}

impl<E: Engine, L> TableSuite<'_, E, L> {
    /// What each callback of a kind is given that a node registers.
    fn callbacks(&self, kind: Kind, node: ContextNo) -> &[E::Given]
        ensures { result.now ≡ callbacks_in kind (slice_get self.now.rows.now node) }
    {
        match self.rows.get(node) {
            Some(row) => row.callbacks(kind),
            None => &[],
        }
    }

    /// Whether so many tests have failed that no more are begun.
    fn is_stopped(&self) -> bool
        ensures { result ≡ true → 1 ≤ self.now.stop_after }
    {
        self.stop_after > 0 && self.failed.load(Ordering::SeqCst) >= self.stop_after
    }

    /// Whether a node comes: each but those in reserve that the engine does not let come.
    fn comes(&self, node: ContextNo) -> bool
        ensures { result ≡ false → reserved_in (slice_get self.now.rows.now node) ≡ true }
    {
        match self.rows.get(node) {
            Some(row) if row.is_in_reserve => match &row.test {
                Some(test) => self.engine.comes(test),
                None => true,
            },
            _ => true,
        }
    }
}

impl<E: Engine, L: TableListener> TableSuite<'_, E, L> {
    /// Tells the listener why a call did not succeed.
    fn tell(&self, node: ContextNo, call: &Call, verdict: &Verdict) {
        let origin = FaultOrigin::Step {
            call: *call,
            step: 0,
        };
        match verdict {
            Verdict::Failed(fault) | Verdict::Aborted(fault) => {
                self.listener.faulted(node, origin, fault);
            }
            Verdict::Successful => {}
        }
    }

    /// Makes a call with what the nodes on the path of the node share.
    fn outcome_of<R: Wait>(
        &self,
        rt: &R,
        store: &Store<Kept<E::Shared>>,
        node: ContextNo,
        call: &Call,
        lane: &mut Lane<Kept<E::Shared>>,
    ) -> Outcome
        requires keys { self.now.keys.now ≡ level_keys }
        requires lane { IsLaneOf store.now.id lane.old }
        requires node { node < length store.now.tree }
        ensures call { TableCall (E.test_gives self.now.engine.now) (E.make_gives self.now.engine.now) (E.lane_gives self.now.engine.now) self.now.rows.now self.now.attempts store.now node call.now lane.old result lane.new }
        ensures lane { IsLaneOf store.now.id lane.new }
    {
        let Ok(mut handing) = nothing_handed(self.rt.alloc()) else {
            return Outcome {
                verdict: Verdict::Failed(Fault::Memory),
                computed: 0,
                found: 0,
            };
        };
        match self.hand_all(rt, store, node, lane, &mut handing) {
            Ok(()) => {
                let verdict = self.verdict_on(
                    rt,
                    store,
                    node,
                    call,
                    lane,
                    handing.values.as_slice(),
                );
                Outcome {
                    verdict,
                    computed: handing.computed,
                    found: handing.found,
                }
            }
            Err(why) => Outcome {
                verdict: Verdict::Failed(why),
                computed: handing.computed,
                found: handing.found,
            },
        }
    }

    /// Makes a call with what is shared.
    fn verdict_on<R: Wait>(
        &self,
        threads: &R,
        store: &Store<Kept<E::Shared>>,
        node: ContextNo,
        call: &Call,
        lane: &mut Lane<Kept<E::Shared>>,
        shared: &[&E::Shared],
    ) -> Verdict
        requires { IsLaneOf store.now.id lane.old }
        ensures lane { IsLaneOf store.now.id lane.new }
        ensures calls { CallsKind (E.test_gives self.now.engine.now) (E.lane_gives self.now.engine.now node) self.now.attempts self.now.rows.now call.now.kind call.now.from call.now.index (map (λ s. s.now) shared.now) lane.old result lane.new }
    {
        match call.kind {
            Kind::Test => self.try_test(threads, store, node, call.from, lane, shared),
            Kind::BeforeAll | Kind::BeforeEach | Kind::AfterEach | Kind::AfterAll => {
                self.answer_of(node, call, shared)
            }
        }
    }

    /// Makes a callback with what is shared.
    fn answer_of(&self, node: ContextNo, call: &Call, shared: &[&E::Shared]) -> Verdict
        ensures { CallsBack (E.test_gives self.now.engine.now) (slice_get (callbacks_in call.now.kind (slice_get self.now.rows.now call.now.from)) call.now.index) (map (λ s. s.now) shared.now) result }
    {
        match self.callbacks(call.kind, call.from).get(call.index) {
            Some(given) => {
                let rt = self.rt;
                let scope = Scope {
                    rt,
                    node,
                    given,
                    shared,
                };
                self.verdict_of(self.engine.call_back(call.kind, &scope))
            }
            None => Verdict::Successful,
        }
    }

    /// The verdict on a call that ended so.
    fn verdict_of(&self, answer: Result<(), Stop>) -> Verdict
        ensures { IsVerdictOf answer result }
    {
        match answer {
            Ok(()) => Verdict::Successful,
            Err(Stop::Aborted(why)) => Verdict::Aborted(why),
            Err(stop) => Verdict::Failed(stop.fault(self.rt)),
        }
    }

    /// Runs the test of a row, if it has one, with what is shared.
    fn try_test<R: Wait>(
        &self,
        threads: &R,
        store: &Store<Kept<E::Shared>>,
        node: ContextNo,
        from: ContextNo,
        lane: &mut Lane<Kept<E::Shared>>,
        shared: &[&E::Shared],
    ) -> Verdict
        requires { IsLaneOf store.now.id lane.old }
        ensures lane { IsLaneOf store.now.id lane.new }
        ensures tries { TriesRow (E.test_gives self.now.engine.now) (E.lane_gives self.now.engine.now node) self.now.attempts (slice_get self.now.rows.now from) (map (λ s. s.now) shared.now) lane.old result lane.new }
    {
        let Some(row) = self.rows.get(from) else {
            return Verdict::Successful;
        };
        match &row.test {
            Some(given) => {
                let most = self.most_attempts(row);
                self.try_often(threads, store, node, most, given, lane, shared)
            }
            None => Verdict::Successful,
        }
    }

    /// How often a test is run at most.
    fn most_attempts(&self, row: &Row<E::Given>) -> u32
        ensures { result ≡ most_attempts self.now.attempts row.now.attempts }
    {
        row.attempts.unwrap_or(self.attempts).max(1)
    }

    /// Runs a test until it does not fail, or as often as it may: at least once.
    fn try_often<R: Wait>(
        &self,
        threads: &R,
        store: &Store<Kept<E::Shared>>,
        node: ContextNo,
        most: u32,
        given: &E::Given,
        lane: &mut Lane<Kept<E::Shared>>,
        shared: &[&E::Shared],
    ) -> Verdict
        requires lane { IsLaneOf store.now.id lane.old }
        requires most { 1 ≤ most }
        ensures lane { IsLaneOf store.now.id lane.new }
        ensures tried { IsTried (E.test_gives self.now.engine.now given.now (map (λ s. s.now) shared.now)) (E.lane_gives self.now.engine.now node) most lane.old result lane.new }
    {
        let rt = self.rt;
        let test = Scope {
            rt,
            node,
            given,
            shared,
        };
        for attempt in 1..most {
            self.listener.tries(node, attempt);
            let answer = self.engine.run_on_lane(threads, &test, store, lane);
            match self.verdict_of(answer) {
                Verdict::Failed(fault) => self.listener.failed_attempt(node, attempt, &fault),
                verdict => return verdict,
            }
        }
        self.listener.tries(node, most);
        let answer = self.engine.run_on_lane(threads, &test, store, lane);
        self.verdict_of(answer)
    }
}
