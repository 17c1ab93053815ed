//! The command line, over clap.
ghost use Rattle.std.specs.Prelude.{◌≡◌, ◌≢◌, ◌↔◌, ◌&&◌, ◌||◌, codes, List, map, true, false, option_map, string_bytes, Some, Ok, IfOk, IsTrue};
ghost use Rattle.clap.specs.Matches.{found_of, first_value, one_text};
ghost use Rattle.clap.specs.Words.{app_of, shape_of, with_subcommand};
ghost use Rattle.clap.specs.declared.builder.command.Command.TheViews.{out-Command};
ghost use Rattle.clap.specs.declared.builder.command.Command.{Command};
ghost use Rattle.clap.specs.Simple.{subcommand_rows_of};
ghost use Rattle.clap.specs.Walk.{rows_of};
ghost use Rattle.extrun.specs.CommandLine as line;
ghost use Rattle.extrun.specs.CommandLine.{AsksBy, AsksNothing, IsCheck, IsCommandLine, IsRun};
ghost use Rattle.extrun.specs.CommandWords.{AreRunFiles, AsksCheck, AsksCommand, AsksFor, AsksId, AsksNamed, AsksOfPlan, AsksOfTexts, AsksRunOf, IsMakingOf, IsListForm, IsPlanAlone, check_as, check_in, check_with, checks_all};
ghost use Rattle.extrun.specs.Flags.{IsFlag, IsSize, size_of};
ghost use Rattle.extrun.specs.RunWords.{AreOptions, AsksAsides, AsksForm, AsksRun, IsColor, IsForm, IsLaneCount, color_choice, form_of, wordless_run};

use crate::Terminals;
use crate::args::{
    all_flag, brief_flag, color_option, draw_flag, durations_flag, explain_flag, failures_flag,
    html_option, id_texts, json_option, junit_option, lanes_option, large_flag, lint_flag,
    make_flag, plan_file, progress_flag, race_report_option, races_flag, report_option,
    report_tree_flag, store_option,
};
use crate::clash::clash_in;
use crate::color::ColorChoice;
use crate::help::{AFTER_HELP, VERSION};
use crate::screen::{is_broken_pipe, shown_text};
use crate::telling::tell_unwritten;
use clap::error::ErrorKind;
use clap::{ArgMatches, Command, Error};
use ext_run::{ListForm, Options, ReportForm, Size};
use std::alloc::{AllocError, Global};
use std::io;
use std::rt::Env;

/// The number of lanes if the command line does not say.
const LANES: u8 = 4;

/// What a command line asks for.
#[derive(Debug, Drop)]
pub(crate) enum Request {
    /// A task for the plan in a file, or from standard input, and whether it is not explained why
    /// it is not done.
    Plan {
        task: Task,
        files: FileNames,
        brief: bool,
    },
    /// Reading this id, and whether its fault is not explained if it is none.
    Id {
        text: String,
        brief: bool,
    },
    /// Making the id of these parts, each `TYPE=VALUE`.
    MakeId {
        parts: Vec<String>,
    },
    /// Nothing: the help or the version was printed.
    Help,
    /// Nothing: the command line is refused, and what is wrong with it was printed.
    Refused,
    /// Nothing: the help could not be printed, and that was said.
    Unwritten,
    /// Nothing: memory was refused.
    Memory,
}

/// The files that a request names.
#[derive(Debug, Drop)]
pub(crate) struct FileNames {
    /// That of the plan; without it, or for `-`, it is read from standard input.
    pub(crate) plan: Option<String>,
    /// To which the report of a run is written in JUnit's XML, too.
    pub(crate) junit: Option<String>,
    /// To which it is written in JSON, too.
    pub(crate) json: Option<String>,
    /// To which a page of it is written.
    pub(crate) html: Option<String>,
}

impl FileNames {
    /// The name of the plan's file, unless the plan is read from standard input.
    pub(crate) fn named_plan(&self) -> Option<&str> {
        match &self.plan {
            Some(name) if name.as_str() != "-" => Some(name.as_str()),
            _ => None,
        }
    }
}

/// A task for a plan.
#[derive(Clone, Copy, Debug, PartialEq, Eq)]
pub(crate) enum Task {
    /// Runs it and writes its report, whose form is asked for or not, and says these beside it.
    Run {
        options: Options,
        form_asked: bool,
        color: ColorChoice,
        asides: Asides,
    },
    /// Writes how many nodes, tests and keys it has, if it is no larger than this.
    Check(Size),
    /// What `Check` does; if the plan is refused all its faults are printed.
    CheckAll(Size),
    /// Draws its nodes as a tree, if it is no larger than this.
    Draw(Size),
    /// Writes its races in this form, if it is no larger than this.
    CheckRaces {
        size: Size,
        form: ListForm,
    },
    /// Writes its notes in this form, if it is no larger than this.
    Lint {
        size: Size,
        form: ListForm,
    },
}

/// What a run says on standard error, beside its report.
#[derive(Clone, Copy, Debug, PartialEq, Eq)]
pub(crate) struct Asides {
    /// How far it is.
    pub(crate) progress: bool,
    /// How long its slowest tests took, at the end.
    pub(crate) durations: bool,
    /// All faults of its nodes, behind all else.
    pub(crate) failures: bool,
    /// Whether standard error is a terminal: then control characters are escaped. No word says so.
    pub(crate) for_terminal: bool,
}

impl Task {
    /// How large the plan may be.
    pub(crate) fn size(self) -> Size {
        match self {
            Task::Run { options, .. } => options.size,
            Task::Check(size) | Task::CheckAll(size) => size,
            Task::Draw(size) | Task::CheckRaces { size, .. } | Task::Lint { size, .. } => size,
        }
    }
}

/// Parses the command line. The commands are
///
/// - `run`, with `--lanes` of 1 to 16, `--store plain` or `cells`, `--report text`, `json` or
///   `junit` or else `--tree`, `--junit` and `--json` of a file, `--color` of `auto`, `always` or
///   `never`, `--progress`, `--durations` and `--failures`;
/// - `check`, with `--races` or `--lint`, and then `--report text` or `json`, or with `--tree` or
///   `--all`;
/// - `id`, with one text, or with `--make` and parts.
///
/// `run` and `check` take a file and `--large`, and all take `--explain` or `--brief`. No word at
/// all is `run` on 4 lanes over the store for several threads, of a plan of usual size. But where
/// standard input is a terminal, nobody waits for a plan there: the help is printed to standard
/// error, and the command line is refused.
///
/// Prints the help and the version to standard output, and what is wrong with a command line to
/// standard error, at a terminal with control characters escaped. Takes memory for the words, for
/// clap and for what it prints.
pub(crate) fn request_of<R: Env + AllocGlobal + Print + Eprint>(
    rt: &R,
    terminals: Terminals,
) -> Request {
    match parsed(rt, terminals) {
        Ok(request) => request,
        Err(AllocError) => Request::Memory,
    }
}

/// The request of the command line, or that memory was refused.
fn parsed<R: Env + AllocGlobal + Print + Eprint>(
    rt: &R,
    terminals: Terminals,
) -> Result<Request, AllocError> {
    let words = match std::env::args(rt) {
        Ok(words) => words,
        Err(fault) if fault.kind() == io::ErrorKind::OutOfMemory => return Err(AllocError),
        Err(_) => return Ok(mistake(rt, "a word of the command line is not UTF-8")),
    };
    let words: Vec<String> = words.collect(rt.alloc())?;
    if terminals.input && words.len() < 2 {
        return help_unasked(rt);
    }
    request_in(rt, words.as_slice(), terminals.errors)
}

/// Prints the help to standard error: without a word there is nothing to do.
fn help_unasked<R: AllocGlobal + Eprint>(rt: &R) -> Result<Request, AllocError>
    ensures { IfOk result (λ request. request ≡ Request.Refused) }
{
    let mut program = program(rt.alloc())?;
    let help = program.render_help()?;
    let _ = eprint!(rt; "{}", help.as_str());
    Ok(Request::Refused)
}

/// The request of these words. The first is the program's own name. What is wrong with them is
/// printed for a terminal or not.
fn request_in<R: AllocGlobal + Print + Eprint>(
    rt: &R,
    words: &[String],
    for_terminal: bool,
) -> Result<Request, AllocError>
    ensures { IfOk result (AsksBy (map string_bytes words.now)) }
{
    match program(rt.alloc())?.try_get_matches_from(words) {
        Ok(matches) => asked_for(rt, &matches),
        Err(fault) if fault.kind() == ErrorKind::OutOfMemory => Err(AllocError),
        Err(fault) => refused(rt, words, &fault, for_terminal),
    }
}

/// The request of the words that clap took.
fn asked_for<R: AllocGlobal + Eprint>(
    rt: &R,
    matches: &ArgMatches<'_>,
) -> Result<Request, AllocError>
    ensures { IfOk result (AsksFor (subcommand_rows_of matches.now)) }
{
    match matches.subcommand() {
        Some((name, words)) => asked_by(rt, name, words),
        None => Ok(Request::Plan {
            task: wordless_run(),
            files: FileNames {
                plan: None,
                junit: None,
                json: None,
                html: None,
            },
            brief: false,
        }),
    }
}

/// The run that no word asks for.
fn wordless_run() -> Task
    ensures { result ≡ wordless_run }
{
    Task::Run {
        options: Options {
            lanes: usize::from(LANES),
            plain: false,
            form: ReportForm::Text,
            size: Size::Usual,
        },
        form_asked: false,
        color: ColorChoice::Auto,
        asides: Asides {
            progress: false,
            durations: false,
            failures: false,
            for_terminal: false,
        },
    }
}

/// The request of the command with this name, which takes `--explain` or `--brief`.
fn asked_by<R: AllocGlobal + Eprint>(
    rt: &R,
    name: &str,
    words: &ArgMatches<'_>,
) -> Result<Request, AllocError>
    ensures { IfOk result (AsksCommand name.now (rows_of (found_of words.now))) }
{
    let explain = is_set(words, "explain");
    let brief = is_set(words, "brief");
    if both(explain, brief) {
        return Ok(mistake(rt, "the argument '--explain' cannot be used with '--brief'"));
    }
    request_named(rt, name, words)
}

fn both(one: bool, other: bool) -> bool
    ensures { result ≡ one && other }
{
    one && other
}

/// The request of the command with this name by its other words.
fn request_named<R: AllocGlobal + Eprint>(
    rt: &R,
    name: &str,
    words: &ArgMatches<'_>,
) -> Result<Request, AllocError>
    ensures { IfOk result (AsksNamed name.now (rows_of (found_of words.now))) }
{
    if name == "id" {
        return id_request(rt, words);
    }
    if name == "check" {
        return check_request(rt, words);
    }
    run_request(rt.alloc(), words)
}

/// The request to read an id, or with `--make` to make one.
fn id_request<R: AllocGlobal + Eprint>(
    rt: &R,
    words: &ArgMatches<'_>,
) -> Result<Request, AllocError>
    ensures { IfOk result (AsksId (rows_of (found_of words.now))) }
{
    let texts = words.get_strs("TEXT").unwrap_or(&[]);
    let make = is_set(words, "make");
    let brief = is_set(words, "brief");
    request_of_texts(rt, texts, make, brief)
}

/// The request to make the id of these parts, or to read the only text.
fn request_of_texts<R: AllocGlobal + Eprint>(
    rt: &R,
    texts: &[&str],
    make: bool,
    brief: bool,
) -> Result<Request, AllocError>
    ensures { IfOk result (AsksOfTexts make brief (map (λ text. text.now) texts.now)) }
{
    if make {
        return making_of(rt.alloc(), texts);
    }
    match texts {
        [text] => Ok(Request::Id {
            text: String::from_str(rt.alloc(), text)?,
            brief,
        }),
        _ => Ok(mistake(rt, "one id is read; --make makes one of several parts")),
    }
}

/// The request to make the id of these parts.
fn making_of(alloc: Global, texts: &[&str]) -> Result<Request, AllocError>
    ensures { IfOk result (IsMakingOf (map (λ text. text.now) texts.now)) }
{
    let mut parts = Vec::new(alloc);
    for text in texts {
        let part = String::from_str(alloc, text)?;
        parts.push(part)?;
    }
    Ok(Request::MakeId { parts })
}

/// The request of `check`.
fn check_request<R: AllocGlobal + Eprint>(
    rt: &R,
    words: &ArgMatches<'_>,
) -> Result<Request, AllocError>
    ensures { IfOk result (AsksCheck (rows_of (found_of words.now))) }
{
    let races = is_set(words, "races");
    let tree = is_set(words, "tree");
    let all = is_set(words, "all");
    let lint = is_set(words, "lint");
    let form = list_form_in(words);
    match check_in(form, lint, races, tree, all, size_in(words)) {
        Some(task) => Ok(plan_request(task, plan_alone(rt.alloc(), words)?, words)),
        None => Ok(mistake(rt, clash_in(form.is_some(), lint, races, tree))),
    }
}

/// The form of races or notes by `--report`, if it is given.
fn list_form_in(words: &ArgMatches<'_>) -> Option<ListForm>
    ensures { IsListForm (first_value (found_of words.now) (codes "report")) result }
{
    match words.get_str("report") {
        None => None,
        Some(form) => Some(list_form_of(form)),
    }
}

fn list_form_of(form: &str) -> ListForm
    ensures object { form.now ≡ codes "json" → result ≡ ListForm.Json }
    ensures lines { form.now ≢ codes "json" → result ≡ ListForm.Lines }
{
    if form == "json" {
        ListForm::Json
    } else {
        ListForm::Lines
    }
}

/// The task of `check` for a plan of this size by these flags. A form goes with `--races` and `--lint`.
fn check_in(
    form: Option<ListForm>,
    lint: bool,
    races: bool,
    tree: bool,
    all: bool,
    size: Size,
) -> Option<Task>
    ensures { result ≡ check_in form lint races tree all size }
{
    if form.is_some() && !races && !lint {
        return None;
    }
    check_with(
        lint,
        races,
        tree,
        all,
        form.unwrap_or(ListForm::Lines),
        size,
    )
}

/// The task of `check` for a plan of this size: with `--lint`, which excludes the other flags, to
/// note mistakes, and else by these flags.
fn check_with(
    lint: bool,
    races: bool,
    tree: bool,
    all: bool,
    form: ListForm,
    size: Size,
) -> Option<Task>
    ensures { result ≡ check_with lint races tree all form size }
{
    if !lint {
        return check_as(races, tree, all, form, size);
    }
    if races || tree || all {
        None
    } else {
        Some(Task::Lint { size, form })
    }
}

/// The task of `check` for a plan of this size: with `--races` to write the plan's races in this
/// form, with `--tree` to draw it, else to count, with `--all` to print all faults. Each flag
/// excludes the others.
fn check_as(races: bool, tree: bool, all: bool, form: ListForm, size: Size) -> Option<Task>
    ensures { result ≡ check_as races tree all form size }
{
    if races && tree {
        return None;
    }
    if all {
        return checks_all(races || tree, size);
    }
    if races {
        return Some(Task::CheckRaces { size, form });
    }
    if tree {
        Some(Task::Draw(size))
    } else {
        Some(Task::Check(size))
    }
}

/// The task of `check --all`, unless there is another flag.
fn checks_all(other: bool, size: Size) -> Option<Task>
    ensures { result ≡ checks_all other size }
{
    if other {
        None
    } else {
        Some(Task::CheckAll(size))
    }
}

/// The request of `run`.
fn run_request(alloc: Global, words: &ArgMatches<'_>) -> Result<Request, AllocError>
    ensures { IfOk result (AsksOfPlan (rows_of (found_of words.now)) (AsksRunOf (rows_of (found_of words.now)))) }
{
    Ok(plan_request(run_of(words), run_files(alloc, words)?, words))
}

fn run_of(words: &ArgMatches<'_>) -> Task
    ensures { AsksRun (rows_of (found_of words.now)) result }
{
    Task::Run {
        options: options_in(words),
        form_asked: asks_for_form(words),
        color: color_in(words),
        asides: asides_in(words),
    }
}

/// How the plan is run, and the form of its report.
fn options_in(words: &ArgMatches<'_>) -> Options
    ensures { AreOptions (rows_of (found_of words.now)) result }
{
    Options {
        lanes: usize::from(lanes_of(words)),
        plain: is_plain(words),
        form: form_in(words),
        size: size_in(words),
    }
}

/// What is said beside the report.
fn asides_in(words: &ArgMatches<'_>) -> Asides
    ensures { AsksAsides (rows_of (found_of words.now)) result }
{
    Asides {
        progress: is_set(words, "progress"),
        durations: is_set(words, "durations"),
        failures: is_set(words, "failures"),
        for_terminal: false,
    }
}

/// Tests whether a form of the report is asked for.
fn asks_for_form(words: &ArgMatches<'_>) -> bool
    ensures { AsksForm (rows_of (found_of words.now)) result }
{
    either(is_set(words, "tree"), words.get_str("report").is_some())
}

fn either(one: bool, other: bool) -> bool
    ensures { result ≡ one || other }
{
    one || other
}

/// When a report for people has colours, by `--color`.
fn color_in(words: &ArgMatches<'_>) -> ColorChoice
    ensures { IsColor (first_value (found_of words.now) (codes "color")) result }
{
    color_choice(
        words.get_str("color") == Some("always"),
        words.get_str("color") == Some("never"),
    )
}

fn color_choice(always: bool, never: bool) -> ColorChoice
    ensures { result ≡ color_choice always never }
{
    if always {
        ColorChoice::Always
    } else if never {
        ColorChoice::Never
    } else {
        ColorChoice::Auto
    }
}

/// The form of the report, by `--tree` and `--report`.
fn form_in(words: &ArgMatches<'_>) -> ReportForm
    ensures { IsForm (rows_of (found_of words.now)) result }
{
    form_of(is_set(words, "tree"), is_json(words), is_junit(words))
}

/// The value of `--lanes`, or 4.
fn lanes_of(words: &ArgMatches<'_>) -> u8
    ensures { IsLaneCount (one_text (found_of words.now) (codes "lanes")) result }
{
    words.get_one::<u8>("lanes").unwrap_or(LANES)
}

/// Tests whether `--store` is `plain`, for a run on one thread.
fn is_plain(words: &ArgMatches<'_>) -> bool
    ensures { IsTrue result ↔ (first_value (found_of words.now) (codes "store") ≡ Some (codes "plain")) }
{
    words.get_str("store") == Some("plain")
}

/// Tests whether `--report` is `json`.
fn is_json(words: &ArgMatches<'_>) -> bool
    ensures { IsTrue result ↔ (first_value (found_of words.now) (codes "report") ≡ Some (codes "json")) }
{
    words.get_str("report") == Some("json")
}

/// Tests whether `--report` is `junit`.
fn is_junit(words: &ArgMatches<'_>) -> bool
    ensures { IsTrue result ↔ (first_value (found_of words.now) (codes "report") ≡ Some (codes "junit")) }
{
    words.get_str("report") == Some("junit")
}

/// The form of a report: a tree, else JSON, else JUnit's XML, else text.
fn form_of(tree: bool, json: bool, junit: bool) -> ReportForm
    ensures { result ≡ form_of tree json junit }
{
    if tree {
        ReportForm::Tree
    } else if json {
        ReportForm::Json
    } else if junit {
        ReportForm::Junit
    } else {
        ReportForm::Text
    }
}

/// How large the plan may be: by `--large` or as usual.
fn size_in(words: &ArgMatches<'_>) -> Size
    ensures { IsSize (rows_of (found_of words.now)) result }
{
    size_of(is_set(words, "large"))
}

fn size_of(large: bool) -> Size
    ensures { result ≡ size_of large }
{
    if large { Size::Large } else { Size::Usual }
}

/// Tests whether the flag of this name is given.
fn is_set(words: &ArgMatches<'_>, name: &str) -> bool
    ensures { IsFlag (one_text (found_of words.now) name.now) result }
{
    words.get_flag(name)
}

/// The request of a task with these files.
fn plan_request(task: Task, files: FileNames, words: &ArgMatches<'_>) -> Request
    ensures { AsksOfPlan (rows_of (found_of words.now)) (λ asked given. (asked ≡ task) × (given ≡ files)) result }
{
    Request::Plan {
        task,
        files,
        brief: is_set(words, "brief"),
    }
}

/// The files of a run.
fn run_files(alloc: Global, words: &ArgMatches<'_>) -> Result<FileNames, AllocError>
    ensures { IfOk result (AreRunFiles (rows_of (found_of words.now))) }
{
    Ok(FileNames {
        plan: file_of(alloc, words, "FILE")?,
        junit: file_of(alloc, words, "junit")?,
        json: file_of(alloc, words, "json")?,
        html: file_of(alloc, words, "html")?,
    })
}

/// The file of a plan that is not run.
fn plan_alone(alloc: Global, words: &ArgMatches<'_>) -> Result<FileNames, AllocError>
    ensures { IfOk result (IsPlanAlone (rows_of (found_of words.now))) }
{
    Ok(FileNames {
        plan: file_of(alloc, words, "FILE")?,
        junit: None,
        json: None,
        html: None,
    })
}

/// The name of a file that is a word or the value of an option, if it is given.
fn file_of(alloc: Global, words: &ArgMatches<'_>, name: &str) -> Result<Option<String>, AllocError>
    ensures { IfOk result (λ file. option_map string_bytes file ≡ first_value (found_of words.now) name.now) }
{
    match words.get_str(name) {
        None => Ok(None),
        Some(file) => Ok(Some(String::from_str(alloc, file)?)),
    }
}

/// Prints a mistake that clap does not find.
fn mistake(rt: &impl Eprint, text: &str) -> Request
    ensures { result ≡ Request.Refused }
{
    let _ = eprintln!(rt; "error: {text}");
    Request::Refused
}

/// Prints the help, or what is wrong with the command line, for a terminal or not. If the latter
/// cannot be printed, nothing more can be done. Takes memory for it.
fn refused<R: AllocGlobal + Print + Eprint>(
    rt: &R,
    words: &[String],
    fault: &Error,
    for_terminal: bool,
) -> Result<Request, AllocError>
    ensures { IfOk result AsksNothing }
{
    if !fault.use_stderr() {
        return Ok(printed(rt, fault));
    }
    let text = mistake_text(rt.alloc(), words, fault)?;
    let text = shown_text(rt.alloc(), text, for_terminal)?;
    let _ = eprint!(rt; "{}", text.as_str());
    Ok(Request::Refused)
}

/// Prints the help or the version, or else why that is not done.
fn printed<R: Print + Eprint>(rt: &R, help: &Error) -> Request
    ensures { AsksNothing result }
{
    match help.print(rt) {
        Ok(()) => Request::Help,
        Err(cause) => {
            tell_unwritten(rt, is_broken_pipe(&cause), true);
            Request::Unwritten
        }
    }
}

/// What is wrong with these words, and how the plan of a file is run, if the first word, which is no
/// command, may be its name. Takes memory.
fn mistake_text(alloc: Global, words: &[String], fault: &Error) -> Result<String, AllocError> {
    let mut text = format!(in alloc; "{fault}")?;
    if fault.kind() == ErrorKind::InvalidSubcommand
        && let Some(name) = words.get(1)
        && name.as_str() != "help"
    {
        let name = name.as_str();
        writeln!(
            &mut text,
            "\n  tip: 'extrun run {name}' runs the plan of that file"
        )?;
    }
    Ok(text)
}

/// The program's command line. `run` may be left out.
fn program<'a>(alloc: Global) -> Result<Command<'a>, AllocError>
    ensures { IfOk result (λ program. IsCommandLine (app_of program)) }
{
    let program = Command::new(alloc, "extrun")
        .about(
            "Runs plans of contexts, keys and test steps over the extension store; without\na command it does `run`",
        )
        .version(VERSION)
        .after_help(AFTER_HELP);
    let program = with_command(program, run_command(alloc))?;
    let program = with_command(program, check_command(alloc))?;
    with_command(program, id_command(alloc))
}

/// Adds a command to the program.
fn with_command<'a>(
    program: Command<'a>,
    command: Result<Command<'a>, AllocError>,
) -> Result<Command<'a>, AllocError>
    ensures { IfOk result (λ with. (added : Command) × (command.entry ≡ Ok added)
        × ((out-Command added).has_globals ≡ false → app_of with ≡ with_subcommand (app_of program.entry) (shape_of added))) }
{
    program.subcommand(command?)
}

fn run_command<'a>(alloc: Global) -> Result<Command<'a>, AllocError>
    ensures { IfOk result (λ command. IsRun (shape_of command) × ((out-Command command).has_globals ≡ false)) }
{
    Command::new(alloc, "run")
        .about("Reads a plan, runs it and prints its report")
        .arg(plan_file(alloc))?
        .arg(lanes_option(alloc))?
        .arg(store_option(alloc))?
        .arg(report_option(alloc))?
        .arg(report_tree_flag(alloc)?)?
        .arg(junit_option(alloc))?
        .arg(json_option(alloc))?
        .arg(html_option(alloc))?
        .arg(color_option(alloc))?
        .arg(progress_flag(alloc))?
        .arg(durations_flag(alloc))?
        .arg(failures_flag(alloc))?
        .arg(large_flag(alloc))?
        .arg(explain_flag(alloc))?
        .arg(brief_flag(alloc))
}

fn check_command<'a>(alloc: Global) -> Result<Command<'a>, AllocError>
    ensures { IfOk result (λ command. IsCheck (shape_of command) × ((out-Command command).has_globals ≡ false)) }
{
    Command::new(alloc, "check")
        .about("Says how many nodes, tests and keys a plan has, without running it")
        .arg(plan_file(alloc))?
        .arg(draw_flag(alloc))?
        .arg(races_flag(alloc))?
        .arg(race_report_option(alloc))?
        .arg(lint_flag(alloc))?
        .arg(all_flag(alloc))?
        .arg(large_flag(alloc))?
        .arg(explain_flag(alloc))?
        .arg(brief_flag(alloc))
}

fn id_command<'a>(alloc: Global) -> Result<Command<'a>, AllocError>
    ensures shape { IfOk result (λ command. shape_of command ≡ line.id) }
    ensures local { IfOk result (λ command. (out-Command command).has_globals ≡ false) }
{
    Command::new(alloc, "id")
        .about("Prints a unique id's segments, decoded, and the id again; or makes one")
        .arg(id_texts(alloc))?
        .arg(make_flag(alloc))?
        .arg(explain_flag(alloc))?
        .arg(brief_flag(alloc))
}
