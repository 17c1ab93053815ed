//! Leaves that run at once.
use super::leaves::flat;
use crate::gates::reaches;
use crate::outside::{LetGo, Page};
use ext_engine::{LeafRun, LeafSuite, Mode, Outcome, Status, Verdict, run_leaves};
use ext_model::{ContextNo, Fault};
use ext_store::{Lane, Limits, Store};
use std::sync::Wait;
use std::sync::atomic::{AtomicU64, Ordering};
use std::test::Fail;

/// Two tests, each of which waits until both have started, and fails where the turns are used up
/// before.
#[derive(Drop)]
struct MeetingLeaves {
    started: AtomicU64,
}

impl LeafSuite<Page> for MeetingLeaves {
    type Action = LetGo;

    fn action(&self, _node: ContextNo) -> LetGo {
        LetGo
    }

    fn run<R: Wait>(
        &self,
        _rt: &R,
        _store: &Store<Page>,
        _node: ContextNo,
        _lane: &mut Lane<Page>,
    ) -> Result<Outcome, Fault> {
        self.started.fetch_add(1, Ordering::SeqCst);
        if reaches(&self.started, 2) {
            return Ok(Outcome::of(Verdict::Successful));
        }
        Err(Fault::Memory)
    }
}

/// Each of two leaves waits until both have started, and on two lanes both are successful.
/// Tests `run_leaves`.
#[test]
fn two_leaves_run_at_once(rt: HostRuntime) -> Result<(), Fail> {
    let alloc = rt.alloc();
    let ids = flat(alloc, 2)?;
    let suite = MeetingLeaves {
        started: AtomicU64::new(0),
    };
    let limits = Limits::new(2);
    let run: LeafRun<Page> = run_leaves(&rt, alloc, &suite, &ids, Mode::Concurrent, limits)?;
    for result in &run.results {
        assert!(rt; result.status == Status::Successful, "{}", result.node);
    }
    Ok(())
}
