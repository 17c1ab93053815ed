//! What faults and refusals of locks print.
use crate::held::same;
use ext_locks::{LockFault, LockRefusal};
use std::alloc::Global;
use std::fmt::Display;
use std::process::Abort;

/// Asserts that this is printed as this line.
fn prints(rt: &impl Abort, alloc: Global, printed: &impl Display, line: &str) {
    let Ok(text) = format!(in alloc; "{printed}") else {
        panic!(rt; "no memory");
    };
    same(rt, text.as_str(), line, "a text");
}

#[test]
fn faults_print_sentences(rt: HostRuntime) {
    let alloc = rt.alloc();
    prints(&rt, alloc, &LockFault::BadLimit, "bad limit");
    prints(&rt, alloc, &LockFault::TooMany, "too many names");
    prints(&rt, alloc, &LockFault::Twice(1), "name 1 stands twice");
    let unknown = LockFault::UnknownResource(2);
    prints(&rt, alloc, &unknown, "request 2 has an unknown resource");
    prints(&rt, alloc, &LockFault::Memory, "no memory");
    prints(&rt, alloc, &LockRefusal::Taken(3), "lock 3 is taken");
    prints(
        &rt,
        alloc,
        &LockRefusal::Contended(4),
        "lock 4 is contended",
    );
}
