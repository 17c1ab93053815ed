//! What refusals and faults of the store print.
use crate::asked::same;
use crate::opening::plain;
use ext_closing::CloseFault;
use ext_store::{KeepFault, Refusal, StoreFault, StoreValue};
use std::alloc::Global;
use std::fmt::Display;
use std::process::Abort;

/// Asserts that this is printed as this line.
fn prints(rt: &impl Abort, alloc: Global, printed: &impl Display, line: &str) {
    let Ok(text) = format!(in alloc; "{printed}") else {
        panic!(rt; "no memory");
    };
    same(rt, text.as_str(), line, "a text");
}

/// Asserts what each refusal of a call prints.
fn refusals_print(rt: &impl Abort, alloc: Global) {
    prints(rt, alloc, &Refusal::Busy(2), "busy at context 2");
    prints(rt, alloc, &Refusal::Closed(3), "context 3 is closed");
    prints(rt, alloc, &Refusal::Contended, "contended");
    prints(rt, alloc, &Refusal::Exhausted, "exhausted");
    prints(rt, alloc, &Refusal::DirectoryFull, "directory full");
    prints(rt, alloc, &Refusal::Unplaced, "unplaced");
    prints(rt, alloc, &Refusal::Memory, "no memory");
}

/// Asserts what each fault of a keep and of an opening prints.
fn faults_print(rt: &impl Abort, alloc: Global) {
    prints(rt, alloc, &KeepFault::Memory, "no memory");
    prints(rt, alloc, &KeepFault::NumbersFull, "numbers full");
    prints(rt, alloc, &KeepFault::Contended, "contended");
    prints(rt, alloc, &KeepFault::Unplaced, "unplaced");
    let limit = StoreFault::BadLimit;
    prints(rt, alloc, &limit, "a limit is out of its range");
    prints(rt, alloc, &StoreFault::Memory, "no memory");
}

/// Asserts what each fault of a close prints.
fn close_faults_print(rt: &impl Abort, alloc: Global) {
    prints(rt, alloc, &CloseFault::Busy(4), "busy at key 4");
    prints(rt, alloc, &CloseFault::Contended(5), "contended at key 5");
    let unjoined = CloseFault::Unjoined(6);
    let line = "the value of number 6 is not known";
    prints(rt, alloc, &unjoined, line);
}

#[test]
fn refusals_of_the_store_print_their_texts(rt: HostRuntime) {
    refusals_print(&rt, rt.alloc());
    faults_print(&rt, rt.alloc());
    close_faults_print(&rt, rt.alloc());
    assert!(rt; !plain('x').closeable());
}
