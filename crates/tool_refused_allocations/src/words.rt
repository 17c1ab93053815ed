//! The words of the command line.
use std::alloc::AllocError;
use std::rt::Env;

/// What is printed without words, and where they are refused.
pub(crate) const USAGE: &str = "\
usage: tool_refused_allocations CASE ALLOCATIONS

Makes and drops so many ALLOCATIONS (0 to 4294967295), and then makes the calls of the CASE: store,
store_keys, faults; id_text, which reads an id and prints its segments; chain, which runs the plan of
a chain of three contexts on one lane; plain_run, which makes a plain run of a plan of three tests; or
run, which runs a plan of four tests on four lanes. It prints a line: ok; or no memory, where a call
answered that and all was then as it has to be; or no memory in its report, of a run; or else what was
not. The exit status is 0, or 1 where something was not as it has to be, 2 where the words are
refused, or 3 where there was no memory before the case.";

/// A case: what is called.
#[derive(Clone, Copy)]
pub(crate) enum Case {
    /// A store is opened, a value is kept and put, and one is computed.
    Store,
    /// A store is opened, and keys are named in it by each call.
    StoreKeys,
    /// A store that keeps faults is opened, and a factory fails.
    Faults,
    /// An id is read, and its segments are printed.
    IdText,
    /// The plan of a chain is run on one lane.
    Chain,
    /// A plan has a plain run.
    PlainRun,
    /// A plan is run on four lanes.
    Run,
}

impl Case {
    /// The case of this word.
    fn named(name: &str) -> Option<Case> {
        match name {
            "store" => Some(Case::Store),
            "store_keys" => Some(Case::StoreKeys),
            "faults" => Some(Case::Faults),
            "id_text" => Some(Case::IdText),
            "chain" => Some(Case::Chain),
            "plain_run" => Some(Case::PlainRun),
            "run" => Some(Case::Run),
            _ => None,
        }
    }
}

/// What the words ask for.
#[derive(Clone, Copy)]
pub(crate) enum Request {
    /// The usage alone.
    Usage,
    /// A case, after so many allocations.
    Calls { case: Case, allocations: u32 },
    /// They are refused.
    Refused,
    /// There is no memory for them.
    Memory,
}

/// What the command line asks for. Takes memory for the words. Own rule.
pub(crate) fn request_of<R: Env + AllocGlobal>(rt: &R) -> Request {
    match words_of(rt) {
        Ok(Some(words)) => request_in(words.as_slice()),
        Ok(None) => Request::Refused,
        Err(AllocError) => Request::Memory,
    }
}

/// The words after the program's name, where they are texts.
fn words_of<R: Env + AllocGlobal>(rt: &R) -> Result<Option<Vec<String>>, AllocError> {
    let Ok(words) = std::env::args(rt) else {
        return Ok(None);
    };
    Ok(Some(words.skip(1).collect(rt.alloc())?))
}

fn request_in(words: &[String]) -> Request {
    match words {
        [] => Request::Usage,
        [case, allocations] => calls_in(case, allocations).unwrap_or(Request::Refused),
        _ => Request::Refused,
    }
}

fn calls_in(case: &str, allocations: &str) -> Option<Request> {
    Some(Request::Calls {
        case: Case::named(case)?,
        allocations: allocations.parse().ok()?,
    })
}
