//! Which test held a lock that another one waited for.
use std::alloc::{AllocError, Global};

/// How many microseconds a wait for a lock or for a value takes at least that a page shows. What is
/// shorter may be a thread that was late.
pub const LEAST_WAIT: u64 = 100;

/// A lock that a test takes.
#[derive(Clone, Copy, Debug, PartialEq, Eq)]
pub struct TakenLock {
    /// Its place among the locks of the run.
    pub lock: usize,
    /// Whether it is taken for writing; otherwise several tests hold it at once.
    pub writes: bool,
}

/// The locks that a test takes: those that it names, and those that the nodes above it do.
#[derive(Drop)]
pub struct NodeLocks {
    pub locks: Vec<TakenLock>,
    /// Whether no other test runs beside it.
    pub is_alone: bool,
}

/// A lock and the test that held it.
#[derive(Clone, Copy, Debug, PartialEq, Eq)]
pub struct HeldLock {
    /// The place of the lock; none for that of tests that are alone.
    pub lock: Option<usize>,
    pub by: usize,
}

/// Who held which lock, as a run goes on: a test begins where its first call does, since it has its
/// locks then, and ends where it is told to have ended, once it gave them back.
///
/// A test that ended before another one started kept that from no lock. The order of locks and tests
/// makes the answer that which the run had, but in three cases: of several that read a lock at once,
/// the one that is told last to have ended may not have given it back last; of several locks that two
/// tests take, another one may be told than the first; and a thread that came late, while a test ended
/// that would have kept it out, is told to have waited. An own rule.
#[derive(Drop)]
pub struct Holders {
    nodes: Vec<NodeLocks>,
    /// The tests that began and have not ended, in this order.
    running: Vec<usize>,
    /// Those that have ended, in this order.
    ended: Vec<usize>,
}

impl Holders {
    /// No test has begun; node `i` takes the locks at `i`.
    pub fn new(alloc: Global, nodes: Vec<NodeLocks>) -> Holders {
        Holders {
            nodes,
            running: Vec::new(alloc),
            ended: Vec::new(alloc),
        }
    }

    /// How many tests have ended.
    pub fn ended(&self) -> usize {
        self.ended.len()
    }

    /// A test begins, that started when so many tests had ended: answers the lock that it got last, with
    /// the test that held it meanwhile, if one did. Takes memory.
    pub fn begin(&mut self, node: usize, since: usize) -> Result<Option<HeldLock>, AllocError> {
        let from = since.min(self.ended.len());
        // One that has not ended gave its locks back, since this one has them.
        let held = match self.last_of(node, self.running.as_slice()) {
            Some(held) => Some(held),
            None => self.last_of(node, &self.ended[from..]),
        };
        self.running.push(node)?;
        Ok(held)
    }

    /// A test that began has ended. Takes memory.
    pub fn end(&mut self, node: usize) -> Result<(), AllocError> {
        self.running.retain(|other| *other != node);
        self.ended.push(node)?;
        Ok(())
    }

    /// The last of these tests that keeps out this one.
    fn last_of(&self, node: usize, tests: &[usize]) -> Option<HeldLock> {
        let waiting = self.nodes.get(node)?;
        for other in tests.iter().rev() {
            if let Some(held) = self.nodes.get(*other)
                && let Some(lock) = lock_between(waiting, held)
            {
                return Some(HeldLock { lock, by: *other });
            }
        }
        None
    }
}

/// The lock that keeps two tests apart, without a place if one of them is alone.
fn lock_between(one: &NodeLocks, other: &NodeLocks) -> Option<Option<usize>> {
    if one.is_alone || other.is_alone {
        return Some(None);
    }
    for lock in one.locks.iter() {
        if other.locks.iter().any(|held| keep_apart(lock, held)) {
            return Some(Some(lock.lock));
        }
    }
    None
}

fn keep_apart(one: &TakenLock, other: &TakenLock) -> bool {
    one.lock == other.lock && (one.writes || other.writes)
}
