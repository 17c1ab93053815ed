//! What a run writes for people at a terminal, and whether it has colours.
ghost use Rattle.std.specs.Prelude.{◌≡◌, Bool};
ghost use Rattle.extrun.specs.RunWords.{form_at, is_always, is_colored, shown_at, escaped_at};

use crate::command::{Asides, Task};
pub(crate) use ext_report::is_dumb;
use ext_report::wants_colors;
use ext_run::{Options, ReportForm};
use std::rt::Env;

/// When a report for people has colours.
#[derive(Clone, Copy, Debug, PartialEq, Eq)]
pub(crate) enum ColorChoice {
    /// At a terminal, unless its user wants none.
    Auto,
    /// Also where standard output is no terminal.
    Always,
    Never,
}

/// The task whose report is for people, if standard output is a terminal or colours are asked for,
/// and if no form of the report is asked for. Otherwise it is the same task.
pub(crate) fn shown_at<R: Env + AllocGlobal>(rt: &R, task: Task, is_terminal: bool) -> Task
    ensures { (wanted : Bool) × (result ≡ shown_at is_terminal wanted task) }
{
    match task {
        Task::Run {
            options,
            form_asked,
            color,
            asides,
        } => Task::Run {
            options: Options {
                lanes: options.lanes,
                plain: options.plain,
                form: form_at(rt, options.form, form_asked, color, is_terminal),
                size: options.size,
            },
            form_asked,
            color,
            asides,
        },
        other => other,
    }
}

/// The form of a run's report.
fn form_at<R: Env + AllocGlobal>(
    rt: &R,
    form: ReportForm,
    form_asked: bool,
    color: ColorChoice,
    is_terminal: bool,
) -> ReportForm
    ensures { (wanted : Bool) × (result ≡ form_at is_terminal wanted form_asked color form) }
{
    if form_asked || !(is_terminal || is_always(color)) {
        return form;
    }
    ReportForm::Terminal {
        colored: is_colored(rt, color),
    }
}

/// The task whose words on standard error are for a terminal, if that is one. Otherwise it is the
/// same task.
pub(crate) fn escaped_at(task: Task, is_terminal: bool) -> Task
    ensures { result ≡ escaped_at is_terminal task }
{
    match task {
        Task::Run {
            options,
            form_asked,
            color,
            asides,
        } => Task::Run {
            options,
            form_asked,
            color,
            asides: Asides {
                progress: asides.progress,
                durations: asides.durations,
                failures: asides.failures,
                for_terminal: asides.for_terminal || is_terminal,
            },
        },
        other => other,
    }
}

/// Tests whether colours are asked for where standard output is no terminal.
fn is_always(color: ColorChoice) -> bool
    ensures { result ≡ is_always color }
{
    match color {
        ColorChoice::Always => true,
        ColorChoice::Auto | ColorChoice::Never => false,
    }
}

/// Tests whether a report at a terminal has colours: by the choice, or else unless the environment
/// has a `NO_COLOR` that is not empty, or a `TERM` of `dumb`.
fn is_colored<R: Env + AllocGlobal>(rt: &R, color: ColorChoice) -> bool
    ensures { (wanted : Bool) × (result ≡ is_colored wanted color) }
{
    match color {
        ColorChoice::Always => true,
        ColorChoice::Never => false,
        ColorChoice::Auto => wants_colors(rt),
    }
}
