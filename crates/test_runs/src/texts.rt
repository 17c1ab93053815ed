//! What faults of openings and runs print.
use crate::opening::same;
use ext_engine::{EngineFault, LeafFault, OpenFault};
use ext_ids::IdFault;
use ext_locks::LockFault;
use ext_store::StoreFault;
use ext_tree::TreeFault;
use std::alloc::Global;
use std::fmt::Display;
use std::process::Abort;

/// Asserts that this is printed as this line.
fn prints(rt: &impl Abort, alloc: Global, printed: &impl Display, line: &str) {
    let Ok(text) = format!(in alloc; "{printed}") else {
        panic!(rt; "no memory");
    };
    same(rt, text.as_str(), line, "a text");
}

#[test]
fn faults_of_runs_print_sentences(rt: HostRuntime) {
    let alloc = rt.alloc();
    prints(&rt, alloc, &EngineFault::Memory, "no memory");
    prints(&rt, alloc, &EngineFault::NoThread, "no thread");
    let unjoined = EngineFault::Unjoined(5, 6);
    let line = "the value of number 6 in context 5 is not known";
    prints(&rt, alloc, &unjoined, line);
    prints(&rt, alloc, &LeafFault::Run(unjoined), line);
    let text = OpenFault::Id(2, IdFault::Empty);
    prints(&rt, alloc, &text, "text 2 is no id: id: I1");
    let tree = OpenFault::Tree(TreeFault::NoRoot);
    prints(&rt, alloc, &tree, "the first id is no root");
    let leaves = LeafFault::Open(tree);
    prints(&rt, alloc, &leaves, "the first id is no root");
    let store = OpenFault::Store(StoreFault::BadLimit);
    prints(&rt, alloc, &store, "a limit is out of its range");
    prints(
        &rt,
        alloc,
        &OpenFault::Locks(LockFault::TooMany),
        "too many names",
    );
}
