//! Reading an id, with its fault explained or not, and making one.
use crate::telling::tell;
use ext_run::{RequestFault, Summary, explain_id, make_id, read_id};
use std::io::Write;

/// Reads the id in a text, and prints why if there is none.
pub(crate) fn outcome_of_id<R: AllocGlobal + Eprint, W: Write>(
    rt: &R,
    writer: &mut W,
    text: &str,
    explained: bool,
) -> Result<Summary, RequestFault> {
    let outcome = read_id(rt.alloc(), writer, text);
    if let Err(fault) = outcome {
        tell(rt, fault);
        if explained {
            tell_meaning(rt, text, fault);
        }
    }
    outcome
}

/// Makes the id of these parts, each `TYPE=VALUE`, and prints why if they make none.
pub(crate) fn outcome_of_parts<R: AllocGlobal + Eprint, W: Write>(
    rt: &R,
    writer: &mut W,
    parts: &[String],
) -> Result<Summary, RequestFault> {
    let outcome = make_id(rt.alloc(), writer, parts);
    if let Err(fault) = outcome {
        tell(rt, fault);
    }
    outcome
}

/// Explains the fault of a text that is no id.
fn tell_meaning<R: AllocGlobal + Eprint>(rt: &R, text: &str, fault: RequestFault) {
    if let RequestFault::Id(fault) = fault
        && let Ok(line) = explain_id(rt.alloc(), text, fault)
    {
        let _ = eprintln!(rt; "{}", line.as_str());
    }
}
