//! What a look-up shows a step, and what the step makes of it.
ghost use Rattle.std.specs.Prelude.{◌≡◌, false, IfErr, IfOk};
ghost use Rattle.ext_lifecycle.specs.Endings.{is_successful};
ghost use Rattle.ext_lifecycle.specs.FaultTexts.{verdict_text};
ghost use Rattle.ext_plan.specs.StepCalls.{call_view};
ghost use Rattle.ext_plan.specs.Verdicts.{fail_verdict, none_verdict, seen_view, want_verdict};

use crate::step_text::{got_text, met_fault_text, missing_text, other_fault_text, other_text};
use crate::{Reason, StepCall, failed, refused};
use ext_lifecycle::Verdict;
use ext_model::Fault;
use std::alloc::{AllocError, Global};

/// What a look-up shows a step. Source: Javadoc type `ExtensionContext.Store`, `get`. That faults
/// are kept and that look-ups may be refused are own rules.
#[derive(Clone, Copy, Debug, PartialEq, Eq)]
pub enum Seen<'a> {
    /// A value of this text was found.
    Value(&'a str),
    /// A kept fault of this text was found.
    Fault(&'a str),
    /// The kept fault `Fault::Memory` was found.
    NoMemory,
    /// Nothing was found.
    Nothing,
    /// The look-up was refused, or the value or fault that it found is not shown.
    Refused(Reason),
}

/// Returns the verdict of a step `want` with this text: successful if a value of that text was
/// found. Otherwise it fails with `want KEY TEXT: got OTHER`, `want KEY TEXT: fault OTHER`,
/// `want KEY TEXT: none`, or, if the look-up was refused, `NAME KEY: REASON`. The kept fault
/// `Fault::Memory` is passed on.
///
/// Takes memory for the text of a failure. Fails with `AllocError` only if that is refused, and so
/// never in place of a success.
pub fn want_verdict(
    alloc: Global,
    call: &StepCall<'_>,
    text: &str,
    seen: Seen<'_>,
) -> Result<Verdict, AllocError>
    ensures verdict { IfOk result (λ v. verdict_text v ≡ want_verdict (call_view call.now).name (call_view call.now).label text.now (seen_view seen.entry)) }
    ensures memory { IfErr result (λ _. is_successful (want_verdict (call_view call.now).name (call_view call.now).label text.now (seen_view seen.entry)) ≡ false) }
{
    match seen {
        Seen::Value(other) if other == text => Ok(Verdict::Successful),
        Seen::Value(other) => Ok(failed(other_text(alloc, call.label, text, other)?)),
        Seen::Fault(other) => Ok(failed(other_fault_text(alloc, call.label, text, other)?)),
        Seen::NoMemory => Ok(Verdict::Failed(Fault::Memory)),
        Seen::Nothing => Ok(failed(missing_text(alloc, call.label, text)?)),
        Seen::Refused(why) => refused(alloc, call, why),
    }
}

/// Returns the verdict of a step that should find nothing: successful if nothing was found. It is
/// the verdict of `none`, and of `compute` where it meets a kept fault. Otherwise the step fails
/// with `NAME KEY: got OTHER`, `NAME KEY: fault OTHER`, or, if the look-up was refused,
/// `NAME KEY: REASON`. The kept fault `Fault::Memory` is passed on.
///
/// Takes memory for the text of a failure. Fails with `AllocError` only if that is refused, and so
/// never in place of a success.
pub fn none_verdict(
    alloc: Global,
    call: &StepCall<'_>,
    seen: Seen<'_>,
) -> Result<Verdict, AllocError>
    ensures verdict { IfOk result (λ v. verdict_text v ≡ none_verdict (call_view call.now).name (call_view call.now).label (seen_view seen.entry)) }
    ensures memory { IfErr result (λ _. is_successful (none_verdict (call_view call.now).name (call_view call.now).label (seen_view seen.entry)) ≡ false) }
{
    match seen {
        Seen::Value(other) => Ok(failed(got_text(alloc, call.name, call.label, other)?)),
        Seen::Fault(other) => Ok(failed(met_fault_text(alloc, call.name, call.label, other)?)),
        Seen::NoMemory => Ok(Verdict::Failed(Fault::Memory)),
        Seen::Nothing => Ok(Verdict::Successful),
        Seen::Refused(why) => refused(alloc, call, why),
    }
}

/// Returns the verdict of a step `computefail`: successful if it found nothing, or a kept fault of
/// the same text. If it found nothing, its factory ran and failed with this text. Otherwise the
/// verdict is `none_verdict`.
///
/// Takes memory for the text of a failure. Fails with `AllocError` only if that is refused, and so
/// never in place of a success.
pub fn fail_verdict(
    alloc: Global,
    call: &StepCall<'_>,
    text: &str,
    seen: Seen<'_>,
) -> Result<Verdict, AllocError>
    ensures verdict { IfOk result (λ v. verdict_text v ≡ fail_verdict (call_view call.now).name (call_view call.now).label text.now (seen_view seen.entry)) }
    ensures memory { IfErr result (λ _. is_successful (fail_verdict (call_view call.now).name (call_view call.now).label text.now (seen_view seen.entry)) ≡ false) }
{
    match seen {
        Seen::Fault(other) if other == text => Ok(Verdict::Successful),
        _ => none_verdict(alloc, call, seen),
    }
}
