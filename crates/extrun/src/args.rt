//! The words, options and flags that the commands take, for clap.
ghost use Rattle.std.specs.Prelude.{◌≡◌, codes, [], ◌∷◌, false, IfOk};
ghost use Rattle.clap.specs.Words.{rule_of};
ghost use Rattle.clap.specs.declared.builder.value_parser.ValueParser.{ValueParser};
ghost use Rattle.extrun.specs.CommandLine as line;
ghost use Rattle.extrun.specs.CommandLine.{IsOneOf};

use clap::{Arg, ArgAction, value_parser};
use std::alloc::{AllocError, Global};

/// The file argument of `run` and `check`.
pub(crate) fn plan_file<'a>(alloc: Global) -> Arg<'a>
    ensures rule { rule_of result ≡ line.plan_file }
    ensures local { result.global ≡ false }
{
    Arg::new(alloc, "FILE")
        .help("The file of the plan; without it, or for -, the plan is read from\nstandard input")
        .action(ArgAction::Set)
}

pub(crate) fn lanes_option<'a>(alloc: Global) -> Arg<'a>
    ensures rule { rule_of result ≡ line.lanes }
    ensures local { result.global ≡ false }
{
    Arg::new(alloc, "lanes")
        .long("lanes")
        .value_name("N")
        .help("How many lanes run the plan, 1 to 16, each at most by one\nthread")
        .action(ArgAction::Set)
        .value_parser(value_parser!(u8).range(1..17))
        .default_value("4")
}

pub(crate) fn store_option<'a>(alloc: Global) -> Arg<'a>
    ensures rule { (value : ValueParser) × IsOneOf value (codes "plain" ∷ codes "cells" ∷ [])
        × (rule_of result ≡ line.option (codes "store") value (codes "cells")) }
    ensures local { result.global ≡ false }
{
    Arg::new(alloc, "store")
        .long("store")
        .value_name("STORE")
        .help(
            "The store that the plan runs on: `cells` is for several\nthreads; `plain` is for one, which then runs\nall",
        )
        .action(ArgAction::Set)
        .value_parser(["plain", "cells"].as_slice())
        .default_value("cells")
}

pub(crate) fn report_option<'a>(alloc: Global) -> Arg<'a>
    ensures rule { (value : ValueParser) × IsOneOf value (codes "text" ∷ codes "json" ∷ codes "junit" ∷ [])
        × (rule_of result ≡ line.free_option (codes "report") value) }
    ensures local { result.global ≡ false }
{
    Arg::new(alloc, "report")
        .long("report")
        .value_name("FORM")
        .help(
            "How the report is written: `text` by lines, `json` as one\nobject a node, by lines, `junit` as JUnit's XML; without\nit by lines, at a terminal\nfor people",
        )
        .action(ArgAction::Set)
        .value_parser(["text", "json", "junit"].as_slice())
}

/// The option `--report` of the command `check`.
pub(crate) fn race_report_option<'a>(alloc: Global) -> Arg<'a>
    ensures rule { (value : ValueParser) × IsOneOf value (codes "text" ∷ codes "json" ∷ [])
        × (rule_of result ≡ line.free_option (codes "report") value) }
    ensures local { result.global ≡ false }
{
    Arg::new(alloc, "report")
        .long("report")
        .value_name("FORM")
        .help(
            "How --races and --lint write them: `text` by lines,\n`json` as one object; without it by\nlines",
        )
        .action(ArgAction::Set)
        .value_parser(["text", "json"].as_slice())
}

pub(crate) fn color_option<'a>(alloc: Global) -> Arg<'a>
    ensures rule { (value : ValueParser) × IsOneOf value (codes "auto" ∷ codes "always" ∷ codes "never" ∷ [])
        × (rule_of result ≡ line.option (codes "color") value (codes "auto")) }
    ensures local { result.global ≡ false }
{
    Arg::new(alloc, "color")
        .long("color")
        .value_name("WHEN")
        .help(
            "When a report for people has colours: `auto` is at a\nterminal, unless NO_COLOR is set or TERM is dumb\n",
        )
        .action(ArgAction::Set)
        .value_parser(["auto", "always", "never"].as_slice())
        .default_value("auto")
}

/// The flag `--tree` of the command `run`.
pub(crate) fn report_tree_flag<'a>(alloc: Global) -> Result<Arg<'a>, AllocError>
    ensures rule { IfOk result (λ arg. rule_of arg ≡ line.tree) }
    ensures local { IfOk result (λ arg. arg.global ≡ false) }
{
    Arg::new(alloc, "tree")
        .long("tree")
        .help("Writes the report as an indented tree of the nodes")
        .action(ArgAction::SetTrue)
        .conflicts_with("report")
}

pub(crate) fn junit_option<'a>(alloc: Global) -> Arg<'a>
    ensures rule { rule_of result ≡ line.file_option (codes "junit") }
    ensures local { result.global ≡ false }
{
    Arg::new(alloc, "junit")
        .long("junit")
        .value_name("FILE")
        .help("Writes JUnit's XML to this file, too, with how long each\nnode took")
        .action(ArgAction::Set)
}

pub(crate) fn json_option<'a>(alloc: Global) -> Arg<'a>
    ensures rule { rule_of result ≡ line.file_option (codes "json") }
    ensures local { result.global ≡ false }
{
    Arg::new(alloc, "json")
        .long("json")
        .value_name("FILE")
        .help("Writes the report in JSON to this file, too, with how\nlong each node took")
        .action(ArgAction::Set)
}

pub(crate) fn html_option<'a>(alloc: Global) -> Arg<'a>
    ensures rule { rule_of result ≡ line.file_option (codes "html") }
    ensures local { result.global ≡ false }
{
    Arg::new(alloc, "html")
        .long("html")
        .value_name("FILE")
        .help(
            "Writes a page to this file that shows what failed, the\ntree and the lanes over time",
        )
        .action(ArgAction::Set)
}

/// The flag `--tree` of the command `check`.
pub(crate) fn draw_flag<'a>(alloc: Global) -> Arg<'a>
    ensures rule { rule_of result ≡ line.flag (codes "tree") }
    ensures local { result.global ≡ false }
{
    Arg::new(alloc, "tree")
        .long("tree")
        .help("Draws the nodes as an indented tree, with their modes,\nlocks and tests")
        .action(ArgAction::SetTrue)
}

pub(crate) fn failures_flag<'a>(alloc: Global) -> Arg<'a>
    ensures rule { rule_of result ≡ line.flag (codes "failures") }
    ensures local { result.global ≡ false }
{
    Arg::new(alloc, "failures")
        .long("failures")
        .help(
            "Says all faults of the nodes that failed or were aborted\nonce more at the end, on standard error",
        )
        .action(ArgAction::SetTrue)
}

pub(crate) fn durations_flag<'a>(alloc: Global) -> Arg<'a>
    ensures rule { rule_of result ≡ line.flag (codes "durations") }
    ensures local { result.global ≡ false }
{
    Arg::new(alloc, "durations")
        .long("durations")
        .help(
            "Says on standard error how long the five slowest tests\nand all nodes together took, unless the report is JSON",
        )
        .action(ArgAction::SetTrue)
}

pub(crate) fn progress_flag<'a>(alloc: Global) -> Arg<'a>
    ensures rule { rule_of result ≡ line.flag (codes "progress") }
    ensures local { result.global ≡ false }
{
    Arg::new(alloc, "progress")
        .long("progress")
        .help(
            "Says on standard error that the plan is read, and then\nhow many nodes have ended and which run, at most once a\nsecond",
        )
        .action(ArgAction::SetTrue)
}

pub(crate) fn races_flag<'a>(alloc: Global) -> Arg<'a>
    ensures rule { rule_of result ≡ line.flag (codes "races") }
    ensures local { result.global ≡ false }
{
    Arg::new(alloc, "races")
        .long("races")
        .help("Says instead which nodes may get into each other's way,\nwhere they run at once")
        .action(ArgAction::SetTrue)
}

pub(crate) fn lint_flag<'a>(alloc: Global) -> Arg<'a>
    ensures rule { rule_of result ≡ line.flag (codes "lint") }
    ensures local { result.global ≡ false }
{
    Arg::new(alloc, "lint")
        .long("lint")
        .help("Says instead what is most likely a mistake, such as a\ntext that no step stores")
        .action(ArgAction::SetTrue)
}

pub(crate) fn all_flag<'a>(alloc: Global) -> Arg<'a>
    ensures rule { rule_of result ≡ line.flag (codes "all") }
    ensures local { result.global ≡ false }
{
    Arg::new(alloc, "all")
        .long("all")
        .help("Says all faults of a plan that is refused, up to 20, and\nnot the first alone")
        .action(ArgAction::SetTrue)
}

/// The flag `--large` of `run` and `check`.
pub(crate) fn large_flag<'a>(alloc: Global) -> Arg<'a>
    ensures rule { rule_of result ≡ line.flag (codes "large") }
    ensures local { result.global ≡ false }
{
    Arg::new(alloc, "large")
        .long("large")
        .help(
            "Takes a plan of up to 65,536 nodes and 64 MiB, whose run\nkeeps up to 1,048,575 values; without it 256 nodes, 1 MiB\nand 65,535",
        )
        .action(ArgAction::SetTrue)
}

/// The flag `--explain` of all commands.
pub(crate) fn explain_flag<'a>(alloc: Global) -> Arg<'a>
    ensures rule { rule_of result ≡ line.flag (codes "explain") }
    ensures local { result.global ≡ false }
{
    Arg::new(alloc, "explain")
        .long("explain")
        .help("Changes nothing: what is refused is explained without it")
        .action(ArgAction::SetTrue)
}

/// The flag `--brief` of all commands.
pub(crate) fn brief_flag<'a>(alloc: Global) -> Arg<'a>
    ensures rule { rule_of result ≡ line.flag (codes "brief") }
    ensures local { result.global ≡ false }
{
    Arg::new(alloc, "brief")
        .long("brief")
        .help("Leaves out the line that says what a refusal means")
        .action(ArgAction::SetTrue)
}

/// The flag `--make` of the command `id`.
pub(crate) fn make_flag<'a>(alloc: Global) -> Arg<'a>
    ensures rule { rule_of result ≡ line.flag (codes "make") }
    ensures local { result.global ≡ false }
{
    Arg::new(alloc, "make")
        .long("make")
        .help(
            "Makes the id of parts, each TYPE=VALUE, in which any characters\nmay stand, and prints it",
        )
        .action(ArgAction::SetTrue)
}

/// The texts of the command `id`: one id, or with `--make` its parts.
pub(crate) fn id_texts<'a>(alloc: Global) -> Arg<'a>
    ensures rule { rule_of result ≡ line.id_texts }
    ensures local { result.global ≡ false }
{
    Arg::new(alloc, "TEXT")
        .help(
            "The id, such as '[engine:x]/[class:A]'; with --make its parts,\nsuch as engine=x 'class=a/b'",
        )
        .required(true)
        .action(ArgAction::Append)
}
