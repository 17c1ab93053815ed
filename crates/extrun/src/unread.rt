//! Saying why a plan was not read, or its task not done, where the plan itself is not at fault.
use ext_run::{EngineFault, RunFault, Size};
use std::fmt;
use std::io::{self, Read};

/// Where a plan is read from.
#[derive(Clone, Copy)]
pub(crate) enum Source<'a> {
    File(&'a str),
    StandardInput,
}

impl fmt::Display for Source<'_> {
    fn fmt<W: fmt::Write>(&self, f: &mut fmt::Formatter<W>) -> fmt::Result {
        match self {
            Source::File(name) => write!(f, "{name:?}"),
            Source::StandardInput => f.write_str("standard input"),
        }
    }
}

/// Prints what the system says of a source that could not be read.
pub(crate) fn explain_cause(rt: &impl Eprint, source: Source<'_>, cause: io::Error) {
    let _ = eprintln!(rt; "the plan: {source}: {cause}");
}

/// Prints why a plan of this size could not be read to its end. What the system says of a failed
/// read, it says of the next one.
pub(crate) fn explain_unread<R: Eprint, I: Read>(
    rt: &R,
    reader: &mut I,
    source: Source<'_>,
    size: Size,
    fault: RunFault,
) {
    let _ = match fault {
        RunFault::TooLong => eprintln!(rt; "the plan: {source} has {}", too_long(size)),
        RunFault::Read => match reader.read(&mut [0; 1]) {
            Err(cause) => return explain_cause(rt, source, cause),
            Ok(_) => eprintln!(rt; "the plan: a read of {source} failed"),
        },
        other => return explain_undone(rt, other),
    };
}

/// How long a plan of this size may be, where one is longer.
fn too_long(size: Size) -> &'static str {
    match size {
        Size::Usual => { "more than 1048576 bytes. With the word --large a plan may have 67108864" }
        Size::Large => "more than 67108864 bytes",
    }
}

/// Prints why a plan that was read was not run, if the plan is not at fault.
pub(crate) fn explain_undone(rt: &impl Eprint, fault: RunFault) {
    if let Some(why) = why_undone(fault) {
        let _ = eprintln!(rt; "{why}");
    }
}

fn why_undone(fault: RunFault) -> Option<&'static str> {
    match fault {
        RunFault::Engine(EngineFault::Memory) => {
            Some("the run: memory was refused for its store or its locks")
        }
        RunFault::Engine(EngineFault::NoThread) => Some("the run: a thread was refused"),
        RunFault::Engine(EngineFault::Unjoined(_, _)) => {
            Some("the run: a context could not be closed, since no lane knew one of its values")
        }
        RunFault::Memory => Some("the run: memory was refused"),
        RunFault::Read | RunFault::Write | RunFault::TooLong | RunFault::Plan(_) => None,
    }
}
