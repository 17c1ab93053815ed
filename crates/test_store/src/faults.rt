//! Faults that are kept: they stand until they are removed or replaced, and are not closed.
use crate::chain::{Answer, Call, rows, rows_with_faults};
use crate::opening::{closeable, plain};
use ext_model::Look;
use ext_store::{KeepFault, Refusal};

/// A kept fault is shown and met from below until a put replaces it, and a close of a context with
/// a value and a fault closes the value alone.
/// Tests `Store::open`, `Store::keeps_faults`, `Store::get`, `Store::get_numbered`,
/// `Store::get_wait`, `Store::get_wait_numbered`, `Store::put`, `Store::remove`,
/// `Store::show_fault`, `Store::compute`, `Store::compute_numbered`, `CloseAction::close` and
/// `close`.
#[test]
fn kept_fault_stands_until_it_is_replaced(rt: HostRuntime) {
    let met = Look::Fault { at: 1, number: 1 };
    let all = [
        (0, 1, "a", Call::FailsAs("boom", Answer::FaultKept(1))),
        (0, 1, "a", Call::ShowsFault(1, Some("boom"))),
        (0, 2, "a", Call::Computes('x', Answer::FaultStands(1, 1))),
        (0, 2, "a", Call::Gets(Ok(met))),
        (0, 1, "a", Call::Puts(plain('y'), 2, Ok(Some(1)))),
        (0, 1, "a", Call::Removes(Ok(Some(2)))),
        (0, 2, "a", Call::ComputesToClose('z', Answer::Computed(3))),
        (0, 2, "b", Call::FailsAs("bang", Answer::FaultKept(4))),
        (0, 2, "a", Call::Closes(Ok(1), [3, 0, 0, 0])),
        (0, 2, "b", Call::Gets(Ok(Look::Closed(2)))),
    ];
    rows_with_faults(&rt, rt.alloc(), 8, &all);
}

/// A fault kept in the root is met from the method until it is removed: then a factory runs there,
/// and the fault can still be shown.
/// Tests `Store::put`, `Store::remove`, `Store::show_fault`, `Store::compute` and
/// `Store::compute_numbered`.
#[test]
fn removed_fault_lets_a_factory_run(rt: HostRuntime) {
    let all = [
        (0, 0, "a", Call::FailsAs("boom", Answer::FaultKept(1))),
        (1, 2, "a", Call::FailsAs("bang", Answer::FaultStands(0, 1))),
        (1, 0, "a", Call::Removes(Ok(Some(1)))),
        (1, 2, "a", Call::Gets(Ok(Look::Absent))),
        (1, 2, "a", Call::Computes('x', Answer::Computed(2))),
        (0, 2, "a", Call::ShowsFault(1, Some("boom"))),
        (0, 2, "a", Call::ShowsFault(2, None)),
        (0, 2, "a", Call::ShowsFault(0, None)),
        (0, 2, "a", Call::ShowsFault(9, None)),
    ];
    rows_with_faults(&rt, rt.alloc(), 8, &all);
}

/// A kept fault is shown to both lanes as a fault and not as a value, and a value not as a fault.
/// Tests `Store::show_fault`.
#[test]
fn fault_is_shown_to_each_lane_and_is_no_value(rt: HostRuntime) {
    let all = [
        (0, 1, "a", Call::FailsAs("boom", Answer::FaultKept(1))),
        (1, 1, "b", Call::Puts(plain('x'), 2, Ok(None))),
        (1, 2, "a", Call::ShowsFault(1, Some("boom"))),
        (1, 2, "a", Call::Shows(1, None)),
        (0, 2, "a", Call::Shows(1, None)),
        (0, 2, "b", Call::Shows(2, Some(plain('x')))),
        (0, 2, "b", Call::ShowsFault(2, None)),
        (1, 1, "a", Call::FailsAs("bang", Answer::FaultStands(1, 1))),
        (0, 1, "a", Call::ShowsFault(1, Some("boom"))),
    ];
    rows_with_faults(&rt, rt.alloc(), 8, &all);
}

/// Two faults and a value are kept along a path, and look-ups and computes meet the nearest, and
/// the next one once that is removed.
/// Tests `Store::get`, `Store::get_numbered`, `Store::get_wait` and `Store::get_wait_numbered`.
#[test]
fn nearest_of_faults_and_values_decides(rt: HostRuntime) {
    let fault = |at, number| Ok(Look::Fault { at, number });
    let value = |at, number| Ok(Look::Found { at, number });
    let all = [
        (0, 2, "a", Call::FailsAs("low", Answer::FaultKept(1))),
        (0, 0, "a", Call::FailsAs("high", Answer::FaultKept(2))),
        (0, 1, "a", Call::Gets(fault(0, 2))),
        (1, 1, "a", Call::Computes('x', Answer::FaultStands(0, 2))),
        (1, 1, "a", Call::Puts(plain('x'), 3, Ok(None))),
        (0, 1, "a", Call::Computes('y', Answer::Found(1, 3))),
        (0, 2, "a", Call::Gets(fault(2, 1))),
        (0, 2, "a", Call::Removes(Ok(Some(1)))),
        (1, 2, "a", Call::Gets(value(1, 3))),
        (1, 1, "a", Call::Removes(Ok(Some(3)))),
        (1, 2, "a", Call::Gets(fault(0, 2))),
        (1, 2, "b", Call::Gets(Ok(Look::Absent))),
    ];
    rows_with_faults(&rt, rt.alloc(), 8, &all);
}

/// A context with a fault and no closeable value is closed: its action is given nothing, calls
/// there are answered `Closed`, and the fault can still be shown.
/// Tests `CloseAction::close` and `close`.
#[test]
fn closed_context_passes_over_its_faults(rt: HostRuntime) {
    let all = [
        (1, 2, "a", Call::FailsAs("boom", Answer::FaultKept(1))),
        (0, 2, "b", Call::Computes('x', Answer::Computed(2))),
        (0, 2, "", Call::Closes(Ok(0), [0; 4])),
        (0, 2, "a", Call::Gets(Ok(Look::Closed(2)))),
        (
            0,
            2,
            "a",
            Call::FailsAs("bang", Answer::Refused(Refusal::Closed(2))),
        ),
        (0, 2, "a", Call::ShowsFault(1, Some("boom"))),
        (0, 1, "a", Call::FailsAs("bang", Answer::FaultKept(3))),
    ];
    rows_with_faults(&rt, rt.alloc(), 8, &all);
}

/// The only number is drawn, so the fault of a factory comes back as `FaultUnkept`, and nothing is
/// found or shown.
/// Tests `Store::compute`, `Store::fail` and `Store::fail_decided_quietly`.
#[test]
fn fault_without_a_number_comes_back(rt: HostRuntime) {
    let all = [
        (0, 0, "a", Call::Puts(closeable('x'), 1, Ok(None))),
        (
            0,
            2,
            "b",
            Call::FailsAs("boom", Answer::FaultUnkept(KeepFault::NumbersFull)),
        ),
        (0, 2, "b", Call::Gets(Ok(Look::Absent))),
        (0, 2, "b", Call::ShowsFault(1, None)),
    ];
    rows_with_faults(&rt, rt.alloc(), 1, &all);
}

/// In a store that keeps no faults a factory fails, and nothing is found or shown then.
/// Tests `Store::open`, `Store::keeps_faults`, `Store::get`, `Store::get_numbered`,
/// `Store::get_wait`, `Store::get_wait_numbered`, `Store::show_fault`, `Store::compute`,
/// `Store::compute_numbered`, `Store::compute_wait` and `Store::compute_wait_numbered`.
#[test]
fn store_without_faults_keeps_none(rt: HostRuntime) {
    let all = [
        (0, 1, "a", Call::Fails("boom")),
        (0, 2, "a", Call::Gets(Ok(Look::Absent))),
        (0, 1, "a", Call::ShowsFault(1, None)),
    ];
    rows(&rt, rt.alloc(), 8, &all);
}
