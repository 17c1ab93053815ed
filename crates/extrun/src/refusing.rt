//! Saying why a plan was refused: all its faults, and what each of them means.
use crate::telling::tell;
use ext_run::{PlanFault, RequestFault, RunFault, Size, explain, faults_of_plan};

/// How many faults are printed at most.
const FAULTS: usize = 20;

/// Prints all faults of the plan in these bytes, which was refused with this one, up to 20 of them.
/// If there is no memory to find them, only this one is printed.
pub(crate) fn tell_faults<R: AllocGlobal + Eprint>(
    rt: &R,
    input: &[u8],
    size: Size,
    fault: PlanFault,
    explained: bool,
) {
    match faults_of_plan(rt.alloc(), input, size) {
        Ok(faults) if !faults.is_empty() => {
            tell_first(rt, input, size, faults.as_slice(), explained);
        }
        _ => tell_fault(rt, input, size, fault, explained),
    }
}

/// Prints the first 20 of these faults, and whether there are others.
fn tell_first<R: AllocGlobal + Eprint>(
    rt: &R,
    input: &[u8],
    size: Size,
    faults: &[PlanFault],
    explained: bool,
) {
    for fault in faults.iter().take(FAULTS) {
        tell_fault(rt, input, size, *fault, explained);
    }
    if faults.len() > FAULTS {
        let _ = eprintln!(rt; "and more");
    }
}

/// Prints a fault, and what it means if that is asked for.
fn tell_fault<R: AllocGlobal + Eprint>(
    rt: &R,
    input: &[u8],
    size: Size,
    fault: PlanFault,
    explained: bool,
) {
    tell(rt, RequestFault::Run(RunFault::Plan(fault)));
    if explained {
        explain_fault(rt, input, size, fault);
    }
}

/// Prints what a fault of the plan in these bytes means.
pub(crate) fn explain_fault<R: AllocGlobal + Eprint>(
    rt: &R,
    input: &[u8],
    size: Size,
    fault: PlanFault,
) {
    if let Ok(line) = explain(rt.alloc(), input, size, fault) {
        let _ = eprintln!(rt; "{}", line.as_str());
    }
}
