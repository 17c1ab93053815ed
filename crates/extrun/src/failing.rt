//! The failures and aborts of a run, repeated at its end on standard error.
ghost use Rattle.std.specs.Prelude.{◌≡◌, ◌≢◌, string_bytes, IfOk};
ghost use Rattle.ext_plan_reading.specs.Plans.{plan_view};
ghost use Rattle.ext_run.specs.FailureForms.{reported_as};
ghost use Rattle.extrun.specs.Lines.{shown_text};

use crate::screen::shown_text;
use ext_run::{ListForm, Plan, ReportForm, ReportedFaults, failures_text, lost_line};
use std::alloc::{AllocError, Global};

/// Prints the faults of the plan's nodes beside a report of this form, or that there is no memory
/// for them. If that fails, nothing more can be done.
pub(crate) fn tell_failures<R: AllocGlobal + Eprint>(
    rt: &R,
    plan: &Plan,
    form: ReportForm,
    faults: &ReportedFaults,
    for_terminal: bool,
) {
    let form = list_form_of(form);
    let _ = match shown_failures(rt.alloc(), plan, faults, form, for_terminal) {
        Ok(text) => eprint!(rt; "{}", text.as_str()),
        Err(_) => eprintln!(rt; "{}", lost_line(form)),
    };
}

/// Tests whether a report of this form is JSON. Then what is said beside it is JSON or nothing.
pub(crate) fn is_json(form: ReportForm) -> bool {
    matches!(form, ReportForm::Json)
}

/// The form of the faults beside a report: JSON if the report is.
fn list_form_of(form: ReportForm) -> ListForm
    ensures json { form ≡ ReportForm.Json → result ≡ ListForm.Json }
    ensures lines { form ≢ ReportForm.Json → result ≡ ListForm.Lines }
{
    match form {
        ReportForm::Json => ListForm::Json,
        ReportForm::Text | ReportForm::Tree | ReportForm::Junit | ReportForm::Terminal { .. } => {
            ListForm::Lines
        }
    }
}

/// The faults of the plan's nodes as they are printed, for a terminal or not. Takes memory.
fn shown_failures(
    alloc: Global,
    plan: &Plan,
    faults: &ReportedFaults,
    form: ListForm,
    for_terminal: bool,
) -> Result<String, AllocError>
    ensures { IfOk result (λ text. string_bytes text ≡ shown_text for_terminal (reported_as form faults.now (plan_view plan.now))) }
{
    let text = failures_text(alloc, plan, faults, form)?;
    shown_text(alloc, text, for_terminal)
}
