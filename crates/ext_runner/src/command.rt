//! What the words of an engine's command line ask for.
ghost use Rattle.std.specs.Prelude.{◌≡◌, IfOk, IfSome, None, codes, map, option_map, string_bytes};
ghost use Rattle.ext_runner.specs.InnerCommand.{AsksFor, IsCount, IsFlag, IsNoOrder, IsNoShard, IsOrderOf, IsShardOf, RunsAsAsked, SelectsAsAsked, color_of, folder_of, form_of, values_of};
ghost use Rattle.clap.specs.Matches.{first_value, found_of, one_text};

use crate::args::command_line;
use clap::ArgMatches;
use clap::error::ErrorKind;
use ext_report::shown_text;
use ext_selection::Shard;
use std::alloc::{AllocError, Global};
use std::env;

/// How the report is written on standard output.
#[derive(Clone, Copy, Debug, PartialEq, Eq)]
pub(crate) enum Form {
    /// What did not pass, and how many tests did, for people.
    Summary,
    Text,
    Json,
    Tree,
}

/// When what is told has colours.
#[derive(Clone, Copy, Debug, PartialEq, Eq)]
pub(crate) enum ColorChoice {
    Auto,
    Always,
    Never,
}

/// In which order tests run.
#[derive(Clone, Copy, Debug, PartialEq, Eq)]
pub(crate) enum Order {
    /// In that of the table.
    Listed,
    /// By a seed that is chosen when the program runs.
    AnySeed,
    Seed(u64),
}

/// Which tests are run.
#[derive(Drop)]
pub(crate) struct Selecting {
    /// Texts of which the id of a test has one, if there are any.
    pub(crate) texts: Vec<String>,
    /// Texts that it does not have.
    pub(crate) skips: Vec<String>,
    /// Whether each of these texts is a whole id.
    pub(crate) exact: bool,
    /// The part of the tests that is run.
    pub(crate) shard: Option<Shard>,
    /// The file with an earlier run, of which the failed tests are run.
    pub(crate) failed: Option<String>,
    /// Whether the tests are listed in place of being run.
    pub(crate) list: bool,
}

/// How tests are run.
#[derive(Clone, Copy)]
pub(crate) struct Running {
    /// How many lanes there are; as many as processors if it is not said.
    pub(crate) lanes: Option<u8>,
    /// After how many failed tests no more are begun; 0 if all are.
    pub(crate) stop_after: u32,
    /// How often a test that fails is run again.
    pub(crate) retries: u32,
    /// How often all are run.
    pub(crate) repeat: u32,
    pub(crate) order: Order,
    /// After how many seconds a test is told as slow.
    pub(crate) slow: Option<u32>,
}

/// What is told of a run.
#[derive(Drop)]
pub(crate) struct Telling {
    pub(crate) form: Form,
    pub(crate) color: ColorChoice,
    /// The file to which JUnit's XML is written.
    pub(crate) junit: Option<String>,
    /// The file to which the report in JSON is written.
    pub(crate) json: Option<String>,
    /// The file to which the page of the run is written.
    pub(crate) html: Option<String>,
    /// Of how many of the slowest tests it is said how long they took.
    pub(crate) durations: u32,
}

/// What a command line asks of an engine.
#[derive(Drop)]
pub(crate) struct Options {
    pub(crate) selecting: Selecting,
    pub(crate) running: Running,
    pub(crate) telling: Telling,
    /// The folder with the texts that processes of a run share, if another process owns it.
    pub(crate) shared: Option<String>,
}

/// What is to be done.
#[derive(Drop)]
pub(crate) enum Asked {
    Run(Options),
    /// What this folder holds is closed.
    Close(String),
    /// The help was printed.
    Helped,
    /// The words are wrong, which was printed.
    Refused,
}

/// Reads the words of the command line of an engine, which has texts that processes share or has none.
pub(crate) fn read_words(rt: &HostRuntime, name: &str, shares: bool) -> Result<Asked, AllocError> {
    let words = match env::args(rt) {
        Ok(words) => words,
        Err(_) => return Ok(mistake(rt, "a word of the command line is not UTF-8")),
    };
    let words: Vec<String> = words.collect(rt.alloc())?;
    match command_line(rt.alloc(), name, shares)?.try_get_matches_from(words.as_slice()) {
        Ok(matches) => asked_by(rt, &matches, shares),
        Err(why) if why.kind() == ErrorKind::OutOfMemory => Err(AllocError),
        Err(why) if why.exit_code() == 0 => {
            let _ = why.print(rt);
            Ok(Asked::Helped)
        }
        Err(why) => {
            let said = format!(in rt.alloc(); "{why}")?;
            let shown = shown_text(rt.alloc(), said, true)?;
            let _ = eprint!(rt; "{}", shown.as_str());
            Ok(Asked::Refused)
        }
    }
}

/// Prints a mistake that clap does not find.
fn mistake(rt: &HostRuntime, what: &str) -> Asked
    ensures { result ≡ Asked.Refused }
{
    let _ = eprintln!(rt; "error: {what}");
    Asked::Refused
}

/// What these words ask for.
fn asked_by(rt: &HostRuntime, words: &ArgMatches<'_>, shares: bool) -> Result<Asked, AllocError>
    ensures { IfOk result (AsksFor shares (found_of words.now)) }
{
    if let Some(folder) = folder_in(rt.alloc(), words, "close", shares)? {
        return Ok(Asked::Close(folder));
    }
    let Some(shard) = shard_in(words) else {
        return Ok(mistake(
            rt,
            "--shard takes K/N, such as 2/5: the part K of N, from 1",
        ));
    };
    let Some(order) = order_in(words) else {
        return Ok(mistake(rt, "--shuffle takes a whole number, such as --shuffle=17"));
    };
    Ok(Asked::Run(Options {
        selecting: selecting_in(rt.alloc(), words, shard)?,
        running: running_in(words, order),
        telling: telling_in(rt.alloc(), words)?,
        shared: folder_in(rt.alloc(), words, "shared", shares)?,
    }))
}

/// The folder that is the value of this option, which a program has whose processes share texts.
fn folder_in(
    alloc: Global,
    words: &ArgMatches<'_>,
    name: &str,
    shares: bool,
) -> Result<Option<String>, AllocError>
    ensures { IfOk result (λ folder. option_map string_bytes folder ≡ folder_of shares (found_of words.now) name.now) }
{
    if !shares {
        return Ok(None);
    }
    file_in(alloc, words, name)
}

/// The part of the tests, if there is one; `None` if its word is wrong.
fn shard_in(words: &ArgMatches<'_>) -> Option<Option<Shard>>
    ensures read { IfSome result (IsShardOf (first_value (found_of words.now) (codes "shard"))) }
    ensures wrong { result ≡ None → IsNoShard (first_value (found_of words.now) (codes "shard")) }
{
    shard_of(words.get_str("shard"))
}

/// The part of this word, and none of none; `None` if it is wrong.
fn shard_of(word: Option<&str>) -> Option<Option<Shard>>
    ensures read { IfSome result (IsShardOf (option_map (λ word. word.now) word.entry)) }
    ensures wrong { result ≡ None → IsNoShard (option_map (λ word. word.now) word.entry) }
{
    match word {
        None => Some(None),
        Some(text) => Some(Some(Shard::parse(text)?)),
    }
}

/// The order; `None` if its word is wrong.
fn order_in(words: &ArgMatches<'_>) -> Option<Order>
    ensures read { IfSome result (IsOrderOf (first_value (found_of words.now) (codes "shuffle"))) }
    ensures wrong { result ≡ None → IsNoOrder (first_value (found_of words.now) (codes "shuffle")) }
{
    order_of(words.get_str("shuffle"))
}

/// The order of this word, and of none; `None` if it is wrong.
fn order_of(word: Option<&str>) -> Option<Order>
    ensures read { IfSome result (IsOrderOf (option_map (λ word. word.now) word.entry)) }
    ensures wrong { result ≡ None → IsNoOrder (option_map (λ word. word.now) word.entry) }
{
    match word {
        None => Some(Order::Listed),
        Some(word) if word == "any" => Some(Order::AnySeed),
        Some(word) => match word.parse::<u64>() {
            Ok(seed) => Some(Order::Seed(seed)),
            Err(_) => None,
        },
    }
}

/// What these words select by.
fn selecting_in(
    alloc: Global,
    words: &ArgMatches<'_>,
    shard: Option<Shard>,
) -> Result<Selecting, AllocError>
    requires { IsShardOf (first_value (found_of words.now) (codes "shard")) shard }
    ensures { IfOk result (SelectsAsAsked (found_of words.now)) }
{
    Ok(Selecting {
        texts: values_in(alloc, words, "TEXT")?,
        skips: values_in(alloc, words, "skip")?,
        exact: is_set(words, "exact"),
        shard,
        failed: file_in(alloc, words, "failed")?,
        list: is_set(words, "list"),
    })
}

/// Whether this flag is set.
fn is_set(words: &ArgMatches<'_>, name: &str) -> bool
    ensures { IsFlag (one_text (found_of words.now) name.now) result }
{
    words.get_flag(name)
}

/// The values of this option.
fn values_in(alloc: Global, words: &ArgMatches<'_>, name: &str) -> Result<Vec<String>, AllocError>
    ensures { IfOk result (λ values. map string_bytes values.items ≡ values_of (found_of words.now) name.now) }
{
    match words.get_strs(name) {
        Some(values) => owned(alloc, values),
        None => Ok(Vec::new(alloc)),
    }
}

fn running_in(words: &ArgMatches<'_>, order: Order) -> Running
    requires { IsOrderOf (first_value (found_of words.now) (codes "shuffle")) order }
    ensures { RunsAsAsked (found_of words.now) result }
{
    Running {
        lanes: words.get_one::<u8>("lanes"),
        stop_after: count_in(words, "fail-fast", 0),
        retries: count_in(words, "retries", 0),
        repeat: count_in(words, "repeat", 1),
        order,
        slow: words.get_one::<u32>("slow"),
    }
}

fn telling_in(alloc: Global, words: &ArgMatches<'_>) -> Result<Telling, AllocError> {
    Ok(Telling {
        form: form_of(words.get_str("report")),
        color: color_of(words.get_str("color")),
        junit: file_in(alloc, words, "junit")?,
        json: file_in(alloc, words, "json")?,
        html: file_in(alloc, words, "html")?,
        durations: count_in(words, "durations", 0),
    })
}

/// The number that is the value of this option, or else this one.
fn count_in(words: &ArgMatches<'_>, name: &str, unsaid: u32) -> u32
    ensures { IsCount (one_text (found_of words.now) name.now) unsaid result }
{
    words.get_one::<u32>(name).unwrap_or(unsaid)
}

/// The name of the file that is the value of this option.
fn file_in(alloc: Global, words: &ArgMatches<'_>, name: &str) -> Result<Option<String>, AllocError>
    ensures { IfOk result (λ file. option_map string_bytes file ≡ first_value (found_of words.now) name.now) }
{
    match words.get_str(name) {
        Some(file) => Ok(Some(String::from_str(alloc, file)?)),
        None => Ok(None),
    }
}

fn form_of(word: Option<&str>) -> Form
    ensures { result ≡ form_of (option_map (λ word. word.now) word.entry) }
{
    match word {
        Some(word) if word == "text" => Form::Text,
        Some(word) if word == "json" => Form::Json,
        Some(word) if word == "tree" => Form::Tree,
        _ => Form::Summary,
    }
}

fn color_of(word: Option<&str>) -> ColorChoice
    ensures { result ≡ color_of (option_map (λ word. word.now) word.entry) }
{
    match word {
        Some(word) if word == "always" => ColorChoice::Always,
        Some(word) if word == "never" => ColorChoice::Never,
        _ => ColorChoice::Auto,
    }
}

/// Copies of these texts.
fn owned(alloc: Global, texts: &[&str]) -> Result<Vec<String>, AllocError>
    ensures { IfOk result (λ all. map string_bytes all.items ≡ map (λ text. text.now) texts.now) }
{
    let mut all = Vec::new(alloc);
    for text in texts {
        all.push(String::from_str(alloc, text)?)?;
    }
    Ok(all)
}
