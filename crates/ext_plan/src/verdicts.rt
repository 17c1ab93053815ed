//! Verdicts of steps, with their texts.
ghost use Rattle.std.specs.Prelude.{◌≡◌, false, string_bytes, IfOk, IfErr};
ghost use Rattle.ext_lifecycle.specs.Endings.{aborted, failed, is_successful};
ghost use Rattle.ext_lifecycle.specs.FaultTexts.{verdict_text};
ghost use Rattle.ext_plan.specs.StepCalls.{call_view};
ghost use Rattle.ext_plan.specs.Verdicts.{refused, unless_refused};

use crate::step_text::refused_text;
use crate::{Reason, StepCall};
use ext_lifecycle::Verdict;
use ext_model::Fault;
use std::alloc::{AllocError, Global};

/// Makes the verdict that a step failed with this text.
pub fn failed(text: String) -> Verdict
    ensures { verdict_text result ≡ failed (string_bytes text) }
{
    Verdict::Failed(Fault::Text(text))
}

/// Makes the verdict that a step aborted with this text.
pub fn aborted(text: String) -> Verdict
    ensures { verdict_text result ≡ aborted (string_bytes text) }
{
    Verdict::Aborted(Fault::Text(text))
}

/// Returns the verdict of a step whose call of the store was refused: failed with
/// `NAME KEY: REASON`.
///
/// Takes memory for the text, and fails with `AllocError` only if that is refused.
pub fn refused(alloc: Global, call: &StepCall<'_>, why: Reason) -> Result<Verdict, AllocError>
    ensures { IfOk result (λ v. verdict_text v ≡ refused (call_view call.now).name (call_view call.now).label why) }
{
    Ok(failed(refused_text(alloc, call.name, call.label, why.words())?))
}

/// Returns the verdict of a step by its call of the store: successful, or that of `refused` if the
/// call was refused.
///
/// Takes memory for the text of a refusal. Fails with `AllocError` only if that is refused, and so
/// never in place of a success.
pub fn unless_refused(
    alloc: Global,
    call: &StepCall<'_>,
    why: Option<Reason>,
) -> Result<Verdict, AllocError>
    ensures verdict { IfOk result (λ v. verdict_text v ≡ unless_refused (call_view call.now).name (call_view call.now).label why) }
    ensures memory { IfErr result (λ _. is_successful (unless_refused (call_view call.now).name (call_view call.now).label why) ≡ false) }
{
    match why {
        None => Ok(Verdict::Successful),
        Some(why) => refused(alloc, call, why),
    }
}
