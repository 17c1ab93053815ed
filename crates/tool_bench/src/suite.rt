//! Tests that do nothing, or work for a while, and their suite.
use crate::alone::Counting;
use crate::opening::Payload;
use ext_engine::{Call, Callbacks, Kind, Mode, Outcome, Suite, Verdict, is_leaf};
use ext_locks::{Held, LockRequest};
use ext_model::{ContextNo, Fault};
use ext_store::{Lane, Store};
use ext_tree::Tree;
use std::sync::Wait;

/// So many steps a test works that works for some 100 microseconds.
pub(crate) const BUSY: u32 = 47_000;

/// The nodes of a run: those with nothing below them are tests, and all may run beside one another.
#[derive(Drop)]
pub(crate) struct PlainSuite<'a> {
    pub(crate) tree: &'a Tree,
    /// How many steps each test works.
    pub(crate) steps: u32,
}

/// So many steps of a generator of numbers, each of which needs the one before. The number is never
/// 0.
fn worked(steps: u32) -> u64 {
    let mut number = 0x9E37_79B9_7F4A_7C15u64;
    for _ in 0..steps {
        number ^= number << 13;
        number ^= number >> 7;
        number ^= number << 17;
    }
    number
}

impl Callbacks for PlainSuite<'_> {
    ghost registered = { λ suite kind node. 0 };

    /// No node has callbacks.
    fn count(&self, _kind: Kind, _node: ContextNo) -> usize {
        0
    }
}

impl Suite<Payload> for PlainSuite<'_> {
    ghost use Rattle.std.specs.Prelude.{[], true, false};
    ghost use Rattle.ext_engine.specs.Leaves.{is_leaf};

    type Action = Counting;

    ghost suite_view = { λ suite. record { is_concurrent = λ node. true; is_isolated = λ node. false; is_test = is_leaf suite.tree.now; locks = λ node. [] } };

    ghost fits = { λ suite store. Unit {0} };

    ghost call_gives = { λ suite store node call held before outcome after. Unit {0} };

    ghost action_gives = { λ suite node action. Unit {0} };

    fn mode(&self, _node: ContextNo) -> Mode {
        Mode::Concurrent
    }

    fn isolated(&self, _node: ContextNo) -> bool {
        false
    }

    fn is_test(&self, node: ContextNo) -> bool {
        is_leaf(self.tree, node)
    }

    fn lock_count(&self, _node: ContextNo) -> usize {
        0
    }

    fn lock<'l>(&'l self, _node: ContextNo, _i: usize) -> Option<LockRequest<'l>> {
        None
    }

    fn is_enabled(&self, _node: ContextNo) -> bool {
        true
    }

    fn action(&self, _node: ContextNo) -> Counting {
        Counting { closed: 0 }
    }

    /// Works, and asks the store for nothing.
    fn call<R: Wait>(
        &self,
        _rt: &R,
        _store: &Store<Payload>,
        _node: ContextNo,
        _call: &Call,
        _lane: &mut Lane<Payload>,
        _held: Option<&Held>,
    ) -> Outcome {
        if worked(self.steps) == 0 {
            Outcome::of(Verdict::Failed(Fault::Memory))
        } else {
            Outcome::of(Verdict::Successful)
        }
    }
}
