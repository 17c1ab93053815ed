//! How long the tests of a run took, and what is said of it at its end on standard error.
ghost use Rattle.std.specs.Prelude.{◌<◌, All, length};

use crate::screen::shown_text;
use crate::times::{TestTimes, Times, seconds};
use ext_page::Holders;
use ext_report::{Extra, slowest_tests};
use ext_run::{Call, Kind, NodeResult, RunListener, Tree};
use std::alloc::{AllocError, Global};
use std::sync::{Mutex, Wait};
use std::time::{Clock, Duration, Instant};

/// How many tests are named.
const NAMED: usize = 5;

/// When the nodes of a run start and end. If the clock cannot be read, what it would tell is left
/// out.
#[derive(Drop)]
pub(crate) struct Durations<'a, R> {
    rt: &'a R,
    times: Mutex<Times>,
}

impl<'a, R: AllocGlobal> Durations<'a, R> {
    /// The times of a run of so many nodes that has not begun, and with `holders` its waits for
    /// locks. Takes memory.
    pub(crate) fn new(
        rt: &'a R,
        nodes: usize,
        holders: Option<Holders>,
    ) -> Result<Durations<'a, R>, AllocError> {
        let times = Times::new(rt.alloc(), nodes, holders)?;
        Ok(Durations {
            rt,
            times: Mutex::new(times),
        })
    }

    /// How long each node took, in the order of the plan, and when each test ran.
    pub(crate) fn into_parts(self) -> (Vec<Extra>, TestTimes) {
        self.times.into_inner().into_parts()
    }
}

impl<R: Wait + Clock> RunListener for Durations<'_, R> {
    fn started(&self, node: usize, lane: usize) {
        if let Ok(now) = Instant::now(self.rt) {
            self.times.lock(self.rt).start(node, lane, now);
        }
    }

    fn called(&self, node: usize, call: &Call) {
        let is_test = !matches!(call.kind, Kind::BeforeAll | Kind::AfterAll);
        if let Ok(now) = Instant::now(self.rt) {
            self.times.lock(self.rt).call(node, is_test, now);
        }
    }

    fn ended(&self, ran: &NodeResult, _nodes: usize) {
        if let Ok(now) = Instant::now(self.rt) {
            self.times.lock(self.rt).end(ran, now);
        }
    }
}

/// Prints how long the slowest tests took, the slowest first, and then all nodes together. If there
/// is no memory for it, that is left out.
pub(crate) fn tell_durations<R: AllocGlobal + Eprint>(
    rt: &R,
    tree: &Tree,
    results: &[NodeResult],
    extras: &[Extra],
    for_terminal: bool,
)
    requires { All (λ r. r.node < length tree.now) results.now }
{
    if let Ok(text) = durations_text(rt.alloc(), tree, results, extras, for_terminal) {
        let _ = eprint!(rt; "{}", text.as_str());
    }
}

/// What is said of the times of a run. The root takes as long as all nodes together.
fn durations_text(
    alloc: Global,
    tree: &Tree,
    results: &[NodeResult],
    extras: &[Extra],
    for_terminal: bool,
) -> Result<String, AllocError>
    requires { All (λ r. r.node < length tree.now) results.now }
{
    let tests = slowest_tests(alloc, tree, results, extras, NAMED)?;
    let mut text = shown_text(alloc, tests, for_terminal)?;
    if let Some(root) = extras.first()
        && let Some(millis) = root.millis
    {
        let whole = seconds(alloc, Duration::from_millis(millis))?;
        let whole = whole.as_str();
        writeln!(
            &mut text,
            "took {whole} from the start of the first node to the end of the last"
        )?;
    }
    Ok(text)
}
