//! Openings of what a run goes over: those that are refused, and how large they may be.
mod leaves;
mod meeting;

use crate::outside::Page;
use ext_engine::{
    LeafFault, LeafRun, Mode, OpenFault, Opened, Status, open_run, read_ids, run_leaves,
};
use ext_ids::{IdFault, UniqueId};
use ext_locks::LockFault;
use ext_model::{Fault, Size};
use ext_store::{Limits, StoreFault};
use ext_tree::TreeFault;
use leaves::{FailingLeaves, flat};
use std::alloc::Global;
use std::process::Abort;
use std::sync::Wait;
use std::test::Fail;
use std::thread::Threads;

/// Limits with so many lanes and tries, of a store that keeps no faults.
fn limits(lanes: usize, tries: u32) -> Limits {
    Limits {
        tries,
        ..Limits::new(lanes)
    }
}

/// Opens a run of contexts with these texts.
fn opened(
    alloc: Global,
    texts: &[&str],
    names: &[&str],
    limits: Limits,
) -> Result<Opened<Page>, OpenFault> {
    let ids = read_ids(alloc, texts)?;
    open_run(alloc, ids.as_slice(), names, limits)
}

/// Asserts that it is refused, and why.
fn refused(
    rt: &impl Abort,
    alloc: Global,
    texts: &[&str],
    names: &[&str],
    limits: Limits,
    why: OpenFault,
) {
    assert!(rt;
        opened(alloc, texts, names, limits).err() == Some(why),
        "{why}"
    );
}

/// An opening with several mistakes is refused for an id first, then for the tree, for the limits
/// of the store, and last for the names of the locks.
/// Tests `open_run` and `read_ids`.
#[test]
fn refused_openings_of_runs(rt: HostRuntime) {
    let alloc = rt.alloc();
    let class = ["[engine:x]", "[engine:x]/[class:A]"];
    let twice = ["[engine:x]", "[engine:x]"];
    let bad = ["[engine:x]", "", "[engine:x]/"];
    let same = ["db", "files", "db"];
    let none = OpenFault::Id(1, IdFault::Empty);
    refused(&rt, alloc, &bad, &same, limits(0, 8), none);
    let tree = OpenFault::Tree(TreeFault::Twice(1));
    refused(&rt, alloc, &twice, &same, limits(0, 8), tree);
    let store = OpenFault::Store(StoreFault::BadLimit);
    refused(&rt, alloc, &class, &same, limits(17, 8), store);
    refused(&rt, alloc, &class, &same, limits(1, 0), store);
    let locks = OpenFault::Locks(LockFault::Twice(2));
    refused(&rt, alloc, &class, &same, limits(1, 8), locks);
}

/// How many lanes of the store and of the locks were opened, of so many and this size, or why none
/// were.
fn lanes_of(alloc: Global, size: Size, lanes: usize) -> Result<(usize, usize), OpenFault> {
    let ids = read_ids(alloc, &["[engine:x]"])?;
    let limits = Limits {
        size,
        numbers: 1,
        ..Limits::new(lanes)
    };
    let opened: Opened<Page> = open_run(alloc, ids.as_slice(), &["db"], limits)?;
    Ok((opened.lanes.len(), opened.lock_lanes.len()))
}

/// A run opens with 16 lanes of the usual size or 32 of the large one, and is refused one more as
/// `BadLimit`.
/// Tests `open_run`.
#[test]
fn lanes_by_size(rt: HostRuntime) {
    let alloc = rt.alloc();
    let bad = Err(OpenFault::Store(StoreFault::BadLimit));
    for (size, lanes, wanted) in [
        (Size::Usual, 16, Ok((16, 16))),
        (Size::Usual, 17, bad),
        (Size::Large, 32, Ok((32, 32))),
        (Size::Large, 33, bad),
    ] {
        let told = lanes_of(alloc, size, lanes);
        assert!(&rt; told == wanted, "{lanes} lanes");
    }
}

/// How many contexts were opened, or why none were. A store of this size draws so many numbers.
fn contexts_of(
    alloc: Global,
    ids: &[UniqueId],
    size: Size,
    numbers: u32,
) -> Result<usize, OpenFault> {
    let limits = Limits {
        size,
        numbers,
        ..Limits::new(1)
    };
    let opened: Opened<Page> = open_run(alloc, ids, &[], limits)?;
    Ok(opened.store.tree().len())
}

/// A run of the usual size opens with 256 contexts and 65,535 numbers, and a large one with more
/// contexts and 1,048,575 numbers; one more is refused.
/// Tests `open_run`.
#[test]
fn openings_by_size(rt: HostRuntime) -> Result<(), Fail> {
    let alloc = rt.alloc();
    let most = flat(alloc, 255)?;
    let more = flat(alloc, 256)?;
    let (most, more) = (most.as_slice(), more.as_slice());
    let many = Err(OpenFault::Tree(TreeFault::TooMany));
    let bad = Err(OpenFault::Store(StoreFault::BadLimit));
    let rows = [
        (most, Size::Usual, 65_535, Ok(256)),
        (more, Size::Usual, 65_535, many),
        (most, Size::Usual, 65_536, bad),
        (more, Size::Large, 1_048_575, Ok(257)),
        (more, Size::Large, 1_048_576, bad),
    ];
    for (ids, size, numbers, wanted) in rows {
        let told = contexts_of(alloc, ids, size, numbers);
        assert!(rt; told == wanted, "{numbers} numbers");
    }
    Ok(())
}

/// Why a run of leaves over these contexts was not opened; `None` where it was run.
fn leaves_refused<R: Threads + Wait + Sync>(
    rt: &R,
    alloc: Global,
    texts: &[&str],
    limits: Limits,
) -> Option<LeafFault> {
    let ids = match read_ids(alloc, texts) {
        Ok(ids) => ids,
        Err(why) => return Some(LeafFault::Open(why)),
    };
    let run: Result<LeafRun<Page>, LeafFault> = run_leaves(
        rt,
        alloc,
        &FailingLeaves,
        &ids,
        Mode::Concurrent,
        limits,
    );
    run.err()
}

/// Leaves run within the limits of lanes and tries, and are refused outside them as `BadLimit`, and
/// for ids that are no tree or none at all by that fault first.
/// Tests `run_leaves`.
#[test]
fn refused_runs_of_leaves(rt: HostRuntime) {
    let alloc = rt.alloc();
    let class = ["[engine:x]", "[engine:x]/[class:A]"];
    let twice = ["[engine:x]", "[engine:x]"];
    let bad = Some(LeafFault::Open(OpenFault::Store(StoreFault::BadLimit)));
    let rows = [
        (limits(0, 8), bad),
        (limits(1, 1), None),
        (limits(16, 64), None),
        (limits(17, 8), bad),
        (limits(1, 0), bad),
        (limits(1, 65), bad),
    ];
    for (limits, wanted) in rows {
        assert!(rt; leaves_refused(&rt, alloc, &class, limits) == wanted);
    }
    let tree = Some(LeafFault::Open(OpenFault::Tree(TreeFault::Twice(1))));
    assert!(rt; leaves_refused(&rt, alloc, &twice, limits(0, 8)) == tree);
    let none = Some(LeafFault::Open(OpenFault::Tree(TreeFault::NoRoot)));
    assert!(rt; leaves_refused(&rt, alloc, &[], limits(0, 8)) == none);
}

/// A leaf returns a fault, and its test has failed with that one.
/// Tests `run_leaves`.
#[test]
fn fault_of_a_leaf_is_that_of_its_test(rt: HostRuntime) -> Result<(), Fail> {
    let ids = read_ids(rt.alloc(), &["[engine:x]", "[engine:x]/[method:m()]"])?;
    let (alloc, limits) = (rt.alloc(), Limits::new(1));
    let mode = Mode::SameThread;
    let run: LeafRun<Page> = run_leaves(&rt, alloc, &FailingLeaves, &ids, mode, limits)?;
    let told = run
        .results
        .get(1)
        .map(|it| (it.status, it.fault == Some(Fault::Memory)));
    assert!(rt; told == Some((Status::Failed, true)));
    Ok(())
}
