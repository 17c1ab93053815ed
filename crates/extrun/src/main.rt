//! The program: from a command line to a request of `ext_run`, and from its outcome to an exit
//! status.
//!
//! The exit status is 0 if the request was done, but 1 if a node failed, or a race or a mistake was
//! found. It is 2 if the command line, the plan or the id is refused, and 3 if reading, writing or
//! memory failed, or a context could not be closed. Reports go to standard output. A fault is one
//! line on standard error, and unless `--brief` is given a second one explains it; `check --all`
//! prints all faults of a plan.
#![tactic(auto)]

ghost use Rattle.std.specs.Prelude.{◌≡◌};

mod args;
mod clash;
mod color;
mod command;
mod durations;
mod failing;
mod help;
mod ids;
mod listener;
mod page;
mod plans;
mod progress;
mod refusing;
mod report_files;
mod running;
mod screen;
mod telling;
mod times;
mod unread;

use color::{escaped_at, shown_at};
use command::{FileNames, Request, Task, request_of};
use ext_run::{RequestFault, RunFault, Summary, status_of};
use ids::{outcome_of_id, outcome_of_parts};
use plans::{is_for_people, outcome_of_source, tells_progress};
use report_files::ReportFiles;
use screen::Screen;
use std::io::{self, Input, IsTerminal, Printer};
use std::process::ExitCode;
use std::rt::{Env, Files};
use std::sync::Wait;
use std::thread::Threads;
use std::time::Clock;
use telling::{tell, tell_unwritten};

fn main(rt: HostRuntime) -> ExitCode {
    let terminals = Terminals {
        input: rt.stdin().is_terminal(),
        output: rt.stdout().is_terminal(),
        errors: rt.stderr().is_terminal(),
    };
    // An error out of `main` would be status 1, which says that a node failed.
    let outcome = outcome_of(&rt, terminals);
    ExitCode::from(status_of(&outcome))
}

/// Which of the standard streams are terminals.
#[derive(Clone, Copy)]
struct Terminals {
    input: bool,
    output: bool,
    errors: bool,
}

/// Does what the command line asks, and prints why if it was not done.
fn outcome_of<R>(rt: &R, terminals: Terminals) -> Result<Summary, RequestFault>
where
    R: Threads + Wait + Sync + Clock + Env + Files + AllocGlobal + Input + Print + Eprint,
{
    match request_of(rt, terminals) {
        Request::Plan { task, files, brief } => outcome_at(rt, terminals, task, &files, !brief),
        Request::Id { text, brief } => {
            let mut writer = standard_output(rt, terminals.output);
            let outcome = outcome_of_id(rt, &mut writer, text.as_str(), !brief);
            told(rt, &writer, outcome, !brief)
        }
        Request::MakeId { parts } => {
            let mut writer = standard_output(rt, terminals.output);
            let outcome = outcome_of_parts(rt, &mut writer, parts.as_slice());
            told(rt, &writer, outcome, true)
        }
        Request::Help => Ok(Summary::done()),
        Request::Refused => Err(RequestFault::CommandLine),
        Request::Unwritten => Err(RequestFault::Run(RunFault::Write)),
        Request::Memory => {
            let fault = RequestFault::Run(RunFault::Memory);
            tell(rt, fault);
            Err(fault)
        }
    }
}

/// Does a task with the plan and the files of these names, as it is done at these terminals. Prints
/// why if it was not done, explained or not, and says that it reads a plan where that may be long.
fn outcome_at<R>(
    rt: &R,
    terminals: Terminals,
    task: Task,
    files: &FileNames,
    explained: bool,
) -> Result<Summary, RequestFault>
where
    R: Threads + Wait + Sync + Clock + Env + Files + AllocGlobal + Input + Eprint + Print,
{
    let task = escaped_at(shown_at(rt, task, terminals.output), terminals.errors);
    // A report for people has been made for a terminal, and its colours are orders to one.
    let mut writer = standard_output(rt, terminals.output && !is_for_people(task));
    let mut reports = ReportFiles::new(files);
    let file = files.named_plan();
    if file.is_none() && terminals.input && terminals.errors {
        let _ = eprintln!(rt; "extrun: reading a plan from the terminal; end it with Ctrl-D");
    }
    if tells_progress(task) {
        let _ = eprintln!(rt; "reading the plan");
    }
    let outcome = outcome_of_source(rt, &mut writer, task, file, &mut reports, explained);
    reports.outcome(told(rt, &writer, outcome, explained))
}

/// This outcome. If standard output did not take its report, prints that.
fn told<R: Eprint, W>(
    rt: &R,
    writer: &Screen<W>,
    outcome: Result<Summary, RequestFault>,
    explained: bool,
) -> Result<Summary, RequestFault>
    ensures { result ≡ outcome }
{
    if let Err(RequestFault::Run(RunFault::Write)) = outcome {
        tell_unwritten(rt, writer.is_broken(), explained);
    }
    outcome
}

/// Standard output, as a terminal or as it is.
fn standard_output<R: AllocGlobal + Print>(rt: &R, for_terminal: bool) -> Screen<Printer<'_, R>> {
    Screen::new(rt.alloc(), io::writer(rt), for_terminal)
}
