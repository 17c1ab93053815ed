//! The words of the command line.
use crate::case::{Case, named};
use crate::fault::BenchFault;
use std::rt::Env;

/// What `--help` prints.
pub(crate) const USAGE: &str = "\
usage: tool_bench
       tool_bench CASE THREADS ROUNDS MILLIS
       tool_bench --help

Without words a table of all cases, two seconds a case. Else a line for each of ROUNDS (1 to 1000)
rounds, of MILLIS (1 to 600000) milliseconds each, on THREADS (1 to 14) threads:

    ext_store CASE THREADS NANOSECONDS-OF-WALL-AN-OP NANOSECONDS-OF-PROCESSOR-AN-OP OPERATIONS

compute-fresh-and-close, open-256x16, open-65536x16, name-new and close-256 run on one thread: with
them THREADS other than 1 is refused. In tree-1 to tree-255-busy an engine with so many tests is run
on THREADS (1 to 16) lanes, and an operation is a test; in open-tree-255 what such a run goes over
is opened, which is the operation. Of these the processor time is that of all threads.

Cases: get-own-3 get-root-3 get-root-16 get-root-3-numbered get-root-3-shown get-root-numbered-256
get-root-numbered-256-of-65536 get-root-numbered-65536 get-absent-3 put-over put-remove
compute-fresh-and-close open-256x16 open-65536x16 name-new close-256 tree-1 tree-16 tree-255
tree-4095 tree-65535 tree-255-busy open-tree-255 get-root-3-beside-other get-root-3-beside-same
compute-hot
";

/// What the words ask for.
#[derive(Clone, Copy)]
pub(crate) enum Request {
    /// The usage alone.
    Usage,
    /// The usage and the table of all cases.
    Table,
    /// So many rounds of a case, of so many milliseconds, on so many threads: as many as the case
    /// can run on.
    Rounds {
        row: (&'static str, Case),
        threads: usize,
        rounds: u32,
        millis: u32,
    },
    /// They are refused.
    Refused(BenchFault),
}

/// What the command line asks for. Takes memory for the words. Own rule.
pub(crate) fn request_of<R: Env + AllocGlobal>(rt: &R) -> Request {
    match words_of(rt) {
        Some(words) => request_in(words.as_slice()),
        None => Request::Refused(BenchFault::Words),
    }
}

/// The program's name and the words after it, where they are texts and there is memory for them.
fn words_of<R: Env + AllocGlobal>(rt: &R) -> Option<Vec<String>> {
    let words = std::env::args(rt).ok()?;
    words.collect(rt.alloc()).ok()
}

fn request_in(words: &[String]) -> Request {
    match words {
        [] | [_] => Request::Table,
        [_, help] if help.as_str() == "--help" => Request::Usage,
        [_, case, threads, rounds, millis] => rounds_in(case, threads, rounds, millis),
        _ => Request::Refused(BenchFault::Words),
    }
}

fn rounds_in(case: &str, threads: &str, rounds: &str, millis: &str) -> Request {
    let (Some(row), Some(threads)) = (named(case), number_in(threads, 16)) else {
        return Request::Refused(BenchFault::Words);
    };
    let (Some(rounds), Some(millis)) = (number_in(rounds, 1_000), number_in(millis, 600_000)) else {
        return Request::Refused(BenchFault::Words);
    };
    let threads = threads as usize;
    if threads > row.1.most_threads() {
        return Request::Refused(BenchFault::Threads);
    }
    Request::Rounds {
        row,
        threads,
        rounds,
        millis,
    }
}

/// The number that the word has, from 1 to the greatest.
fn number_in(word: &str, greatest: u32) -> Option<u32> {
    let number: u32 = word.parse().ok()?;
    (1..=greatest).contains(&number).then_some(number)
}
