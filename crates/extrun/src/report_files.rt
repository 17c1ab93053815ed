//! The files to which the report of a run is written, too.
ghost use Rattle.std.specs.Prelude.{◌≡◌, ◌<◌, true, false, All, IfOk, length};

use crate::command::FileNames;
use crate::page::{Course, page_text};
use ext_report::{Extra, json_report_with, junit_report_with};
use ext_run::{NodeResult, RequestFault, RunFault, Summary, Tree};
use std::alloc::AllocError;
use std::fs;
use std::io::{self, ErrorKind};
use std::rt::Files;

/// The names of the files, and whether one of them was not written.
#[derive(Drop)]
pub(crate) struct ReportFiles<'a> {
    names: &'a FileNames,
    unwritten: bool,
}

impl<'a> ReportFiles<'a> {
    /// No file was written yet.
    pub(crate) fn new(names: &'a FileNames) -> ReportFiles<'a> {
        ReportFiles {
            names,
            unwritten: false,
        }
    }

    /// Tests whether there is a file to be written.
    pub(crate) fn is_asked_for(&self) -> bool {
        self.names.junit.is_some() || self.names.json.is_some() || self.is_page_asked_for()
    }

    /// Tests whether a page is to be written.
    pub(crate) fn is_page_asked_for(&self) -> bool {
        self.names.html.is_some()
    }

    /// Writes the page of a run with these results. Prints why it is not written.
    pub(crate) fn write_page<R: Files + AllocGlobal + Eprint>(
        &mut self,
        rt: &R,
        tree: &Tree,
        results: &[NodeResult],
        course: Course,
    )
        requires { All (λ r. r.node < length tree.now) results.now }
    {
        if let Some(name) = &self.names.html {
            let plan = match &self.names.plan {
                Some(plan) => plan.as_str(),
                None => "extrun",
            };
            let page = match page_text(rt.alloc(), plan, tree, results, course) {
                Ok(text) => Ok(text.into_bytes()),
                Err(fault) => Err(fault),
            };
            self.unwritten |= !is_written(rt, name.as_str(), page);
        }
    }

    /// Writes the report of these results to each file. Prints why one is not written.
    pub(crate) fn write<R: Files + AllocGlobal + Eprint>(
        &mut self,
        rt: &R,
        tree: &Tree,
        results: &[NodeResult],
        extras: &[Extra],
    )
        requires { All (λ r. r.node < length tree.now) results.now }
    {
        if let Some(name) = &self.names.junit {
            let report = match junit_report_with(rt.alloc(), tree, results, extras, &[]) {
                Ok(text) => Ok(text.into_bytes()),
                Err(fault) => Err(fault),
            };
            self.unwritten |= !is_written(rt, name.as_str(), report);
        }
        if let Some(name) = &self.names.json {
            let report = json_report_with(rt.alloc(), tree, results, extras);
            self.unwritten |= !is_written(rt, name.as_str(), report);
        }
    }

    /// The outcome of a run that has this one without its files: it failed if one was not written.
    pub(crate) fn outcome(
        &self,
        outcome: Result<Summary, RequestFault>,
    ) -> Result<Summary, RequestFault>
        ensures written { self.now.unwritten ≡ false → result ≡ outcome }
        ensures unwritten { self.now.unwritten ≡ true → IfOk result (λ _. ⊥) }
    {
        match outcome {
            Ok(_) if self.unwritten => Err(RequestFault::Run(RunFault::Write)),
            _ => outcome,
        }
    }
}

/// Writes a report to the file of this name. Prints why it is not written, and answers no then.
fn is_written<R: Files + Eprint>(rt: &R, name: &str, report: Result<Vec<u8>, AllocError>) -> bool {
    let written = match report {
        Ok(report) => fs::write(rt, name, report.as_slice()),
        Err(AllocError) => Err(io::Error::from(ErrorKind::OutOfMemory)),
    };
    if let Err(cause) = written {
        let _ = eprintln!(rt; "write failed: {name:?}: {cause}");
        return false;
    }
    true
}
