//! Recipes: a value once a class, a retry that is told with its times, a run that stops at the first
//! failure, cases that are told before the run.
ghost use Rattle.std.specs.Prelude.{◌<◌, length};

use crate::opening::a_key;
use crate::outside::{LetGo, Page};
use ext_engine::{LeafSuite, Mode, Outcome, Verdict, outcome_with, run_leaves};
use ext_ids::UniqueId;
use ext_model::{ContextNo, Fault};
use ext_report::{Extra, report_text_with, slowest_tests};
use ext_store::{Lane, Limits, Store, fault_of};
use ext_tree::Key;
use std::alloc::{AllocError, Global};
use std::sync::atomic::{AtomicBool, AtomicU64, Ordering};
use std::sync::{Mutex, Wait};
use std::test::Fail;
use std::thread::Threads;
use std::time::{Clock, Duration, Instant};
use std::{io, thread};

/// How often a test is tried.
const ATTEMPTS: u32 = 3;

/// Cases of a class, by how many attempts each takes.
#[derive(Drop)]
struct Cases<'a, C> {
    alloc: Global,
    key: &'a Key,
    /// Whether the value can be made.
    can_make: bool,
    attempts: &'a [u32],
    has_failed: AtomicBool,
    clock: &'a C,
    extras: Mutex<Vec<Extra>>,
}

/// A clock that goes on only while somebody sleeps.
#[derive(Drop)]
struct SleepClock(AtomicU64);

impl Clock for SleepClock {
    fn monotonic(&self) -> io::Result<Duration> {
        Ok(Duration::from_millis(self.0.load(Ordering::SeqCst)))
    }

    fn since_1970(&self) -> io::Result<Duration> {
        self.monotonic()
    }

    fn sleep(&self, duration: Duration) {
        let millis = u64::try_from(duration.as_millis()).unwrap_or(0);
        self.0.fetch_add(millis, Ordering::SeqCst);
    }
}

/// The context above a test: that of its class.
pub(crate) fn class_of<V>(store: &Store<V>, node: ContextNo) -> ContextNo
    requires { node < length store.now.tree }
    ensures { result < length store.now.tree }
{
    match store.tree().path(node).as_slice() {
        [_, class, ..] => *class,
        _ => node,
    }
}

impl<C: Clock> Cases<'_, C> {
    /// One attempt of the test of a node, which takes 10 ms.
    fn attempt(&self, node: ContextNo, attempt: u32) -> Result<(), Fault> {
        thread::sleep(self.clock, Duration::from_millis(10));
        if self.attempts.get(node) <= Some(&attempt) {
            return Ok(());
        }
        Err(fault_of(self.alloc, "the sum is wrong"))
    }

    /// Tries the test until it passes, and answers the attempt. One that never passes fails as its
    /// last attempt does.
    fn tried(&self, node: ContextNo) -> (u32, Result<(), Fault>) {
        for attempt in 1..ATTEMPTS {
            if self.attempt(node, attempt).is_ok() {
                return (attempt, Ok(()));
            }
        }
        (ATTEMPTS, self.attempt(node, ATTEMPTS))
    }

    /// Tries the test, and notes how long that took and at which attempt it passed.
    fn timed<R: Wait>(&self, rt: &R, node: ContextNo) -> Result<(), Fault> {
        let begun = Instant::now(self.clock);
        let (attempt, ended) = self.tried(node);
        let millis = self.millis_since(begun);
        if let Some(extra) = self.extras.lock(rt).get_mut(node) {
            *extra = Extra { millis, attempt };
        }
        ended
    }

    /// How many milliseconds have passed; `None` where the clock can't be read.
    fn millis_since(&self, begun: io::Result<Instant>) -> Option<u64> {
        let took = begun.ok()?.elapsed(self.clock).ok()?;
        u64::try_from(took.as_millis()).ok()
    }

    /// Makes the value of a class.
    fn make(&self) -> Result<Page, Fault> {
        if self.can_make {
            Ok(Page)
        } else {
            Err(fault_of(self.alloc, "no port"))
        }
    }
}

impl<C: Clock + Sync> LeafSuite<Page> for Cases<'_, C> {
    type Action = LetGo;

    fn action(&self, _node: ContextNo) -> LetGo {
        LetGo
    }

    fn run<R: Wait>(
        &self,
        rt: &R,
        store: &Store<Page>,
        node: ContextNo,
        lane: &mut Lane<Page>,
    ) -> Result<Outcome, Fault> {
        if self.has_failed.load(Ordering::SeqCst) {
            let why = fault_of(self.alloc, "a test before has failed");
            return Ok(Outcome::of(Verdict::Aborted(why)));
        }
        let make = |_key: &Key| -> Result<Page, Fault> { self.make() };
        let answer = store.compute_wait(rt, lane, class_of(store, node), self.key, make);
        let outcome = match store.found_or_made(answer, lane) {
            Ok(made) => outcome_with(&made, self.timed(rt, node)),
            Err(why) => Outcome::of(Verdict::Failed(why)),
        };
        self.has_failed
            .fetch_or(!outcome.verdict.is_successful(), Ordering::SeqCst);
        Ok(outcome)
    }
}

/// The ids of an engine, a class, and a case for each name, whatever signs it has.
fn ids_of(alloc: Global, names: &[&str]) -> Result<Vec<UniqueId>, Fail> {
    let engine = UniqueId::from_parts(alloc, &[("engine", "x")])?;
    let class = engine.append(alloc, "class", "Sums")?;
    let mut ids = Vec::new(alloc);
    ids.push(engine)?;
    ids.push(class.clone()?)?;
    for name in names {
        ids.push(class.append(alloc, "case", name)?)?;
    }
    Ok(ids)
}

/// What is known of the nodes before they have run.
fn nothing_known(alloc: Global, nodes: usize) -> Result<Vec<Extra>, AllocError> {
    let mut extras = Vec::new(alloc);
    for _ in 0..nodes {
        extras.push(Extra::default())?;
    }
    Ok(extras)
}

/// Runs the cases of these names one after another, and gives the report, and the slowest two.
fn report_on<R: Threads + Wait + Sync, C: Clock + Sync>(
    rt: &R,
    alloc: Global,
    names: &[&str],
    cases: &Cases<C>,
) -> Result<String, Fail> {
    let ids = ids_of(alloc, names)?;
    let limits = Limits {
        keep_faults: true,
        ..Limits::new(1)
    };
    let run = run_leaves(rt, alloc, cases, &ids, Mode::SameThread, limits)?;
    let (tree, extras) = (run.store.tree(), cases.extras.lock(rt));
    let mut text = report_text_with(alloc, tree, &run.results, &extras)?;
    text.push_str(slowest_tests(alloc, tree, &run.results, &extras, 2)?.as_str())?;
    Ok(text)
}

/// Four cases share a value: one passes at its second attempt, one fails and the one after it is
/// aborted, and the report has times, attempts and the slowest two.
/// Tests `run_leaves`, `UniqueId::append`, `outcome_with`, `report_text_with` and `slowest_tests`.
#[test]
fn cases_run_until_one_fails(rt: HostRuntime) -> Result<(), Fail> {
    let key = a_key(rt.alloc()).ok_or("no key")?;
    let clock = SleepClock(AtomicU64::new(70));
    let cases = Cases {
        alloc: rt.alloc(),
        key: &key,
        can_make: true,
        attempts: &[0, 0, 1, 2, 4, 1],
        has_failed: AtomicBool::new(false),
        clock: &clock,
        extras: Mutex::new(nothing_known(rt.alloc(), 6)?),
    };
    let report = report_on(&rt, rt.alloc(), &["1+1", "1/2", "a[0]", "2+2"], &cases)?;
    let wanted = "[engine:x] successful closed 0
[engine:x]/[class:Sums] successful closed 1
[engine:x]/[class:Sums]/[case:1%2B1] successful closed 0 took 0.010 s
[engine:x]/[class:Sums]/[case:1%2F2] successful closed 0 took 0.020 s flaky, passed at attempt 2
[engine:x]/[class:Sums]/[case:a%5B0%5D] failed closed 0 took 0.030 s: the sum is wrong
[engine:x]/[class:Sums]/[case:2%2B2] aborted closed 0: a test before has failed
tests 4 successful 2 aborted 1 failed 1 skipped 0
computed 1 found 2 closed 1 close faults 0
took 0.030 s [engine:x]/[class:Sums]/[case:a%5B0%5D]
took 0.020 s [engine:x]/[class:Sums]/[case:1%2F2]
";
    assert_eq!(rt; report.as_str(), wanted, "the report");
    Ok(())
}

/// Tests `Store::found_or_made` and `run_leaves`: a factory that fails is a failure like any other.
#[test]
fn no_case_runs_after_a_factory_failed(rt: HostRuntime) -> Result<(), Fail> {
    let key = a_key(rt.alloc()).ok_or("no key")?;
    let clock = SleepClock(AtomicU64::new(0));
    let cases = Cases {
        alloc: rt.alloc(),
        key: &key,
        can_make: false,
        attempts: &[],
        has_failed: AtomicBool::new(false),
        clock: &clock,
        extras: Mutex::new(nothing_known(rt.alloc(), 0)?),
    };
    let report = report_on(&rt, rt.alloc(), &["1+1", "2+2"], &cases)?;
    let wanted = "[engine:x] successful closed 0
[engine:x]/[class:Sums] successful closed 0
[engine:x]/[class:Sums]/[case:1%2B1] failed closed 0: no port
[engine:x]/[class:Sums]/[case:2%2B2] aborted closed 0: a test before has failed
tests 2 successful 0 aborted 1 failed 1 skipped 0
computed 0 found 0 closed 0 close faults 0
";
    assert_eq!(rt; report.as_str(), wanted, "the report");
    Ok(())
}
