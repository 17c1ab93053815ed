//! What is reported once a run is over.
ghost use Rattle.std.specs.Prelude.{◌≡◌, ◌<◌, All, IfOk, length, map, string_bytes};
ghost use Rattle.ext_lifecycle.specs.FaultTexts.{results_view};
ghost use Rattle.ext_report.specs.Extras.{texts_view};
ghost use Rattle.ext_report.specs.JsonLines.{json_with};
ghost use Rattle.ext_report.specs.JunitXml.{junit_with};
ghost use Rattle.ext_report.specs.Report.{report_with};
ghost use Rattle.ext_report.specs.TreeLines.{tree_with};
ghost use Rattle.ext_runner.specs.InnerTelling.{earlier_texts, ending_of, with_indented_fault};

use crate::command::{ColorChoice, Form, Telling};
use crate::ending::Ending;
use crate::live::write_time;
use crate::node_log::NodeLog;
use crate::page::{About, page_text};
use crate::results::{ReportedResults, indented};
use crate::run_log::{Listed, State};
use crate::saying::{not_run, print_lines};
use crate::summary::summary;
use crate::timeline::Timeline;
use ext_report::{
    NodeResult, any_failed, json_report_with, junit_report_with, report_text_with,
    tree_report_with, wants_colors, write_visible,
};
use ext_tree::Tree;
use std::alloc::{AllocError, Global};
use std::fs;
use std::io::{self, ErrorKind, IsTerminal, Write};
use std::time::Duration;

/// Tells of a run on standard output and in files, as is asked. A file that can't be written is told,
/// and keeps nothing else from being written. Answers how the program ends.
pub(crate) fn tell(
    rt: &HostRuntime,
    tree: &Tree,
    reported: &ReportedResults,
    listed: &[Listed],
    state: &State,
    took: Option<Duration>,
    telling: &Telling,
    about: About<'_>,
    timeline: Option<Timeline>,
) -> anyhow::Result<Ending>
    requires { All (λ r. r.node < length tree.now) reported.now.results.items }
{
    let alloc = rt.alloc();
    let logs = state.nodes.as_slice();
    let mut are_written = write_files(rt, about.name, tree, reported, logs, telling);
    if let (Some(file), Some(timeline)) = (&telling.html, timeline) {
        let results = reported.results.as_slice();
        let page = page_text(alloc, about, tree, results, timeline, took);
        are_written &= is_written(rt, about.name, file.as_str(), bytes_of(page));
    }
    if telling.durations > 0 {
        let text = slowest(alloc, listed, state, telling.durations as usize)?;
        let _ = eprint!(rt; "{}", text.as_str());
    }
    match telling.form {
        Form::Summary => {
            let colored = is_colored(rt, telling.color, rt.stdout().is_terminal());
            let results = reported.results.as_slice();
            let text = summary(alloc, listed, state, results, took, colored)?;
            print!(rt; "{}", text.as_str())?;
        }
        Form::Text => print_lines(rt, text_report(alloc, tree, reported)?)?,
        Form::Tree => print_lines(rt, tree_report(alloc, tree, reported)?)?,
        Form::Json => {
            let bytes = json_of(alloc, tree, reported)?;
            io::writer(rt).write_all(bytes.as_slice())?;
        }
    }
    Ok(ending_of(reported.results.as_slice(), are_written))
}

/// Writes the files that are asked for, but for the page. Answers whether all were written.
fn write_files(
    rt: &HostRuntime,
    name: &str,
    tree: &Tree,
    reported: &ReportedResults,
    logs: &[NodeLog],
    telling: &Telling,
) -> bool
    requires { All (λ r. r.node < length tree.now) reported.now.results.items }
{
    let mut are_written = true;
    if let Some(file) = &telling.junit {
        let bytes = xml_of(rt.alloc(), tree, reported, logs);
        are_written &= is_written(rt, name, file.as_str(), bytes);
    }
    if let Some(file) = &telling.json {
        let bytes = json_of(rt.alloc(), tree, reported);
        are_written &= is_written(rt, name, file.as_str(), bytes);
    }
    are_written
}

fn bytes_of(text: Result<String, AllocError>) -> Result<Vec<u8>, AllocError> {
    match text {
        Ok(text) => Ok(text.into_bytes()),
        Err(why) => Err(why),
    }
}

/// Writes a report to a file. Prints why it is not written, and answers no then.
fn is_written(
    rt: &HostRuntime,
    name: &str,
    file: &str,
    report: Result<Vec<u8>, AllocError>,
) -> bool {
    let written = match report {
        Ok(report) => fs::write(rt, file, report.as_slice()),
        Err(AllocError) => Err(io::Error::from(ErrorKind::OutOfMemory)),
    };
    if let Err(why) = written {
        let why = format!(in rt.alloc(); "{file} was not written: {why}");
        not_run(rt, name, why);
        return false;
    }
    true
}

/// How the program ends after these results, where all files were written, or not all.
fn ending_of(results: &[NodeResult], are_written: bool) -> Ending
    ensures { result ≡ ending_of are_written (results_view results.now) }
{
    if !are_written {
        return Ending::NotRun;
    }
    if any_failed(results) {
        Ending::Failed
    } else {
        Ending::Passed
    }
}

/// The report in JUnit's XML, with what the attempts of flaky tests said.
fn xml_of(
    alloc: Global,
    tree: &Tree,
    reported: &ReportedResults,
    logs: &[NodeLog],
) -> Result<Vec<u8>, AllocError>
    requires { All (λ r. r.node < length tree.now) reported.now.results.items }
    ensures { IfOk result (λ bytes. bytes.items ≡ junit_with reported.now.extras.items (earlier_texts logs.now) tree.now (results_view reported.now.results.items)) }
{
    let (results, extras) = (reported.results.as_slice(), reported.extras.as_slice());
    let earlier = earlier_texts(alloc, logs)?;
    let text = junit_report_with(alloc, tree, results, extras, earlier.as_slice())?;
    Ok(text.into_bytes())
}

/// What the attempts of each node before its last said.
fn earlier_texts<'l>(alloc: Global, logs: &'l [NodeLog]) -> Result<Vec<&'l [String]>, AllocError>
    ensures { IfOk result (λ earlier. texts_view earlier.items ≡ earlier_texts logs.now) }
{
    let mut earlier = Vec::new(alloc);
    for log in logs {
        earlier.push(log.earlier.as_slice())?;
    }
    Ok(earlier)
}

/// The report in JSON.
fn json_of(alloc: Global, tree: &Tree, reported: &ReportedResults) -> Result<Vec<u8>, AllocError>
    requires { All (λ r. r.node < length tree.now) reported.now.results.items }
    ensures { IfOk result (λ bytes. bytes.items ≡ json_with reported.now.extras.items tree.now (results_view reported.now.results.items)) }
{
    json_report_with(
        alloc,
        tree,
        reported.results.as_slice(),
        reported.extras.as_slice(),
    )
}

/// The report as text, with faults of several lines indented.
fn text_report(alloc: Global, tree: &Tree, reported: &ReportedResults) -> Result<String, AllocError>
    requires { All (λ r. r.node < length tree.now) reported.now.results.items }
    ensures { IfOk result (λ text. string_bytes text ≡ report_with reported.now.extras.items tree.now (map with_indented_fault (results_view reported.now.results.items))) }
{
    let results = indented(alloc, reported.results.as_slice())?;
    report_text_with(alloc, tree, results.as_slice(), reported.extras.as_slice())
}

/// The report as a tree, with faults of several lines indented.
fn tree_report(alloc: Global, tree: &Tree, reported: &ReportedResults) -> Result<String, AllocError>
    requires { All (λ r. r.node < length tree.now) reported.now.results.items }
    ensures { IfOk result (λ text. string_bytes text ≡ tree_with reported.now.extras.items tree.now (map with_indented_fault (results_view reported.now.results.items))) }
{
    let results = indented(alloc, reported.results.as_slice())?;
    tree_report_with(alloc, tree, results.as_slice(), reported.extras.as_slice())
}

/// The tests that took longest, so many at most, with what they waited for.
fn slowest(
    alloc: Global,
    listed: &[Listed],
    state: &State,
    most: usize,
) -> Result<String, AllocError> {
    let mut timed: Vec<(u128, usize)> = Vec::new(alloc);
    for (node, (listed, log)) in listed.iter().zip(state.nodes.iter()).enumerate() {
        if let Some(took) = log.took
            && listed.is_test
        {
            timed.push((u128::MAX - took.as_nanos(), node))?;
        }
    }
    timed.sort()?;
    let mut text = String::new(alloc);
    for (_, node) in timed.iter().take(most) {
        if let (Some(listed), Some(log)) = (listed.get(*node), state.nodes.get(*node)) {
            write_slow(&mut text, listed.id.as_str(), log)?;
        }
    }
    Ok(text)
}

/// Writes how long a test took, and what it waited for.
fn write_slow(text: &mut String, id: &str, log: &NodeLog) -> Result<(), AllocError> {
    text.push_str("took ")?;
    write_time(text, log.took.unwrap_or(Duration::ZERO))?;
    text.push_str("  ")?;
    write_visible(text, id)?;
    write_part(text, ", waited for locks ", log.for_locks)?;
    write_part(text, ", waited for what is shared ", log.for_shared)?;
    write_part(text, ", made what is shared in ", log.made)?;
    text.push('\n')
}

/// Writes a time behind its word, if it is a millisecond or more.
fn write_part(text: &mut String, word: &str, time: Duration) -> Result<(), AllocError> {
    if time.as_millis() == 0 {
        return Ok(());
    }
    text.push_str(word)?;
    write_time(text, time)
}

/// Whether what is told has colours: by the choice, or else at a terminal, unless the environment
/// has a `NO_COLOR` that is not empty, or a `TERM` of `dumb`.
pub(crate) fn is_colored(rt: &HostRuntime, color: ColorChoice, at_terminal: bool) -> bool {
    match color {
        ColorChoice::Always => true,
        ColorChoice::Never => false,
        ColorChoice::Auto => at_terminal && wants_colors(rt),
    }
}
