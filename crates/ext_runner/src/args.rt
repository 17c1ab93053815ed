//! The options of an engine's command line, for clap.
use clap::{Arg, ArgAction, Command, value_parser};
use std::alloc::{AllocError, Global};

const AFTER_HELP: &str =
    r#"An id such as [engine:web]/[class:Orders]/[test:one] names a test; --list prints them.

While the tests run, a line tells of each that ends, where standard error is a terminal; else one a minute
says how many have. Standard output has what came of them at the end.

Exit status:
  0  no test failed
  1  a test or a class failed
  2  the words are wrong
  3  the tests were not run, a file was not read or written, or a shared text was not closed
  4  no test is selected"#;

/// The command line of the engine of this name, which has texts that processes share or has none.
pub(crate) fn command_line<'a>(
    alloc: Global,
    name: &'a str,
    shares: bool,
) -> Result<Command<'a>, AllocError> {
    let command = Command::new(alloc, name)
        .about("Runs the tests of an engine, all or those that the words select")
        .after_help(AFTER_HELP);
    let command = with_selecting(alloc, command)?;
    let command = with_order(alloc, with_running(alloc, command)?)?;
    let command = with_files(alloc, with_telling(alloc, command)?)?;
    if shares {
        with_sharing(alloc, command)
    } else {
        Ok(command)
    }
}

/// Adds the options that say which tests are run.
fn with_selecting<'a>(alloc: Global, command: Command<'a>) -> Result<Command<'a>, AllocError> {
    command
        .next_help_heading("Which tests")
        .arg(
            Arg::new(alloc, "TEXT")
                .help("Runs the tests whose ids have one of these texts")
                .action(ArgAction::Append),
        )?
        .arg(option(
            alloc,
            "skip",
            "TEXT",
            "Leaves out tests whose ids have this text",
        )
        .action(ArgAction::Append))?
        .arg(flag(
            alloc,
            "exact",
            "Takes each text as a whole id, of a test or of what it stands in",
        ))?
        .arg(option(
            alloc,
            "shard",
            "K/N",
            "Runs the part K of N parts, the same tests on each machine",
        ))?
        .arg(option(
            alloc,
            "failed",
            "FILE",
            "Runs the tests that failed, or whose class did, in an earlier run, which wrote this file by --json",
        ))?
        .arg(flag(alloc, "list", "Prints the ids of the tests, and runs none"))
}

/// Adds the options that say how the tests are run.
fn with_running<'a>(alloc: Global, command: Command<'a>) -> Result<Command<'a>, AllocError> {
    command
        .next_help_heading("How they are run")
        .arg(option(
            alloc,
            "lanes",
            "N",
            "How many tests run at once, 1 to 32; as many as there are processors, without it",
        )
        .value_parser(value_parser!(u8).range(1..33)))?
        .arg(
            option(
                alloc,
                "fail-fast",
                "N",
                "Begins no test once so many have failed; 1 without a number",
            )
            .num_args(0..=1)
            .require_equals(true)
            .default_missing_value("1")
            .value_parser(value_parser!(u32).range(1..1_000_000)),
        )?
        .arg(option(
            alloc,
            "retries",
            "N",
            "Runs a test that fails up to so many times more",
        )
        .value_parser(value_parser!(u32).range(0..1_000)))?
        .arg(option(
            alloc,
            "repeat",
            "N",
            "Runs all so many times, until a run fails",
        )
        .value_parser(value_parser!(u32).range(1..1_000_000)))
}

/// Adds those that say in which order they are, and when one is slow.
fn with_order<'a>(alloc: Global, command: Command<'a>) -> Result<Command<'a>, AllocError> {
    command
        .arg(
            option(
                alloc,
                "shuffle",
                "SEED",
                "Runs the tests in an order by this seed, or by one that it tells; those that run in turn keep theirs",
            )
            .num_args(0..=1)
            .require_equals(true)
            .default_missing_value("any"),
        )?
        .arg(option(alloc, "slow", "SECONDS", "Tells of tests that run longer").value_parser(
            value_parser!(u32).range(1..100_000),
        ))
}

/// Adds the options that say what is told.
fn with_telling<'a>(alloc: Global, command: Command<'a>) -> Result<Command<'a>, AllocError> {
    command
        .next_help_heading("What is told")
        .arg(option(
            alloc,
            "report",
            "FORM",
            "Writes what came of each node: `text` by lines, `json` as one object a node, by lines, `tree` by indented lines; without it what did not pass",
        )
        .value_parser(["text", "json", "tree"].as_slice()))?
        .arg(option(
            alloc,
            "durations",
            "N",
            "Says how long the N slowest tests took, and what they waited for",
        )
        .value_parser(value_parser!(u32)))?
        .arg(option(
            alloc,
            "color",
            "WHEN",
            "When there are colours: `auto` is at a terminal, unless NO_COLOR is set or TERM is dumb",
        )
        .value_parser(["auto", "always", "never"].as_slice()))
}

/// Adds those that name files.
fn with_files<'a>(alloc: Global, command: Command<'a>) -> Result<Command<'a>, AllocError> {
    command
        .arg(option(
            alloc,
            "junit",
            "FILE",
            "Writes JUnit's XML to this file, too",
        ))?
        .arg(option(
            alloc,
            "json",
            "FILE",
            "Writes the report in JSON to this file, too",
        ))?
        .arg(option(
            alloc,
            "html",
            "FILE",
            "Writes a page to this file that shows what failed, the tree, the lanes over time and what was shared; each run of --repeat writes it anew",
        ))
}

/// Adds the options that say which processes share texts.
fn with_sharing<'a>(alloc: Global, command: Command<'a>) -> Result<Command<'a>, AllocError> {
    command
        .next_help_heading("What processes share")
        .arg(option(
            alloc,
            "shared",
            "FOLDER",
            "Shares texts with all processes that have this folder, and leaves them to whoever made it; without it the run has a folder of its own",
        ))?
        .arg(option(
            alloc,
            "close",
            "FOLDER",
            "Closes what this folder holds, removes it, and runs nothing",
        ))
}

fn flag<'a>(alloc: Global, name: &'a str, help: &'a str) -> Arg<'a> {
    Arg::new(alloc, name)
        .long(name)
        .help(help)
        .action(ArgAction::SetTrue)
}

fn option<'a>(alloc: Global, name: &'a str, value: &'a str, help: &'a str) -> Arg<'a> {
    Arg::new(alloc, name)
        .long(name)
        .value_name(value)
        .help(help)
        .action(ArgAction::Set)
}
