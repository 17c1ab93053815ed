//! The calls of a node, written down by a caller that does nothing else.
use crate::same::same;
use ext_lifecycle::{
    Call, Callbacks, Caller, Kind, NodeResult, Outcome, Status, Verdict, afters_of, befores_of,
    run_befores, run_calls,
};
use ext_model::{Closed, ContextNo, Fault};
use std::test::Fail;

/// How many calls are written down.
const LINES: usize = 9;

/// The path of a test in a class.
const PATH: [ContextNo; 3] = [2, 1, 0];

/// The call that is a test.
const TEST: Call = Call {
    kind: Kind::Test,
    from: 2,
    index: 0,
};

/// Writes the calls down. Those with the index 1 fail or abort, the others are successful.
#[derive(Drop)]
struct Script {
    made: [Option<Call>; LINES],
    count: usize,
    aborts: bool,
}

impl Script {
    /// Before the first call.
    fn new(aborts: bool) -> Script {
        Script {
            made: [None; LINES],
            count: 0,
            aborts,
        }
    }

    /// Tests whether the call at this place was this one.
    fn made(&self, place: usize, kind: Kind, from: ContextNo, index: usize) -> bool {
        match self.made.get(place) {
            Some(Some(call)) => *call == Call { kind, from, index },
            _ => false,
        }
    }
}

impl Caller for Script {
    ghost ready = { λ _. Unit {0} };

    ghost reference = { λ _. 0 };

    ghost call_gives = { λ _ _ _ _. Unit {0} };

    fn call(&mut self, call: &Call) -> Outcome {
        if self.count < LINES {
            self.made[self.count] = Some(*call);
            self.count += 1;
        }
        let verdict = if call.index != 1 {
            Verdict::Successful
        } else if self.aborts {
            Verdict::Aborted(Fault::Memory)
        } else {
            Verdict::Failed(Fault::Memory)
        };
        Outcome {
            verdict,
            computed: 2,
            found: 1,
        }
    }
}

/// Each node has three callbacks of each kind.
#[derive(Debug, Drop)]
struct Thrice {}

impl Callbacks for Thrice {
    ghost registered = { λ _ _ _. 3 };

    fn count(&self, _kind: Kind, _node: ContextNo) -> usize {
        3
    }
}

/// The second callback before a test fails: no further one and no test is called, and all
/// after-callbacks are, the last one first.
/// Tests `run_body`, `Tally::is_successful`, `run_afters`, `befores_of`, `afters_of`,
/// `calls_round`, `Tally::new`, `Tally::add` and `run_calls`.
#[test]
fn before_fault_skips_the_test(rt: HostRuntime) -> Result<(), Fail> {
    let alloc = rt.alloc();
    let befores = befores_of(alloc, &Thrice {}, true, 1, &PATH[1..])?;
    let afters = afters_of(alloc, &Thrice {}, true, 1, &PATH[1..])?;
    let mut script = Script::new(false);
    let tally = run_calls(befores.as_slice(), TEST, afters.as_slice(), &mut script);
    // The root's callbacks come first: its second one fails, and all six after-callbacks follow,
    // the last one first.
    same(&rt, script.count, 8, "the calls");
    let before = script.made(0, Kind::BeforeEach, 0, 0) && script.made(1, Kind::BeforeEach, 0, 1);
    let of_class = script.made(2, Kind::AfterEach, 1, 2) && script.made(4, Kind::AfterEach, 1, 0);
    let of_root = script.made(5, Kind::AfterEach, 0, 2) && script.made(7, Kind::AfterEach, 0, 0);
    same(&rt, [before, of_class, of_root], [true; 3], "their order");
    same(&rt, tally.status, Status::Failed, "the status");
    same(
        &rt,
        [tally.more, tally.computed, tally.found],
        [2, 16, 8],
        "the counts",
    );
    same(&rt, tally.fault, Some(Fault::Memory), "the fault");
    Ok(())
}

/// A test is called between a callback before it and one after it, and all three are successful.
/// Tests `run_calls`.
#[test]
fn test_runs_between_its_callbacks(rt: HostRuntime) -> Result<(), Fail> {
    let befores = [Call {
        kind: Kind::BeforeEach,
        ..TEST
    }];
    let afters = [Call {
        kind: Kind::AfterEach,
        ..TEST
    }];
    let mut script = Script::new(false);
    let tally = run_calls(&befores, TEST, &afters, &mut script);
    same(&rt, script.count, 3, "the calls");
    let order = [
        script.made(0, Kind::BeforeEach, 2, 0),
        script.made(1, Kind::Test, 2, 0),
        script.made(2, Kind::AfterEach, 2, 0),
    ];
    same(&rt, order, [true; 3], "their order");
    same(&rt, tally.is_successful(), true, "the tally");
    same(&rt, tally.more, 0, "further faults");
    Ok(())
}

/// A callback before all tests aborts and a close fails afterwards: the node has failed with the
/// fault of the close, and one more is counted.
/// Tests `run_befores`, `Tally::result`, `Closed::add` and `NodeResult::skipped`.
#[test]
fn close_fault_is_told_before_an_abort(rt: HostRuntime) -> Result<(), Fail> {
    let befores = befores_of(rt.alloc(), &Thrice {}, false, 1, &PATH[1..])?;
    let mut script = Script::new(true);
    let tally = run_befores(befores.as_slice(), &mut script);
    same(&rt, script.count, 2, "the calls");
    same(
        &rt,
        script.made(1, Kind::BeforeAll, 1, 1),
        true,
        "the second",
    );
    same(&rt, tally.status, Status::Aborted, "the status");
    let mut closes = Closed::new();
    closes.add(None);
    closes.add(Some(Fault::Memory));
    same(&rt, closes.lacked, true, "whether a close lacked something");
    let wanted = NodeResult {
        node: 1,
        is_test: false,
        status: Status::Failed,
        fault: Some(Fault::Memory),
        more: 1,
        computed: 4,
        found: 2,
        closed: 2,
        close_faults: 1,
        lacked: true,
    };
    same(&rt, tally.result(1, false, closes), wanted, "the result");
    Ok(())
}
