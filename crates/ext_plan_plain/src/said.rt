//! Outcomes of steps that only report.
ghost use Rattle.std.specs.Prelude.{◌≡◌, false, IfErr, IfOk};
ghost use Rattle.ext_lifecycle.specs.Endings.{aborted, failed, is_successful};
ghost use Rattle.ext_lifecycle.specs.FaultTexts.{VerdictText, verdict_text};
ghost use Rattle.ext_plan.specs.StepCalls.{call_view};
ghost use Rattle.ext_plan.specs.Verdicts.{refused, unless_refused};
ghost use Rattle.ext_plan_plain.specs.InnerSteps.{Says};

use crate::lack::Lack;
use ext_lifecycle::{Outcome, Verdict};
use ext_plan::{Reason, StepCall, aborted, failed, refused, unless_refused};
use std::alloc::{AllocError, Global};

/// The outcome of a step with this verdict, or that its text lacked memory.
pub(crate) fn said(verdict: Result<Verdict, AllocError>) -> Result<Outcome, Lack>
    ensures { (v : VerdictText) → IfOk verdict (λ verdict. verdict_text verdict ≡ v) → IfErr verdict (λ _. is_successful v ≡ false) → Says v result }
{
    match verdict {
        Ok(verdict) => Ok(Outcome::of(verdict)),
        Err(_) => Err(Lack::Words { found: 0 }),
    }
}

/// The outcome of a step whose call of the store was refused.
pub(crate) fn say_refused(alloc: Global, call: &StepCall<'_>, why: Reason) -> Result<Outcome, Lack>
    ensures { Says (refused (call_view call.now).name (call_view call.now).label why) result }
{
    said(refused(alloc, call, why))
}

/// The outcome of a step whose last call of the store was refused for `why`, if it was.
pub(crate) fn say_unless_refused(
    alloc: Global,
    call: &StepCall<'_>,
    why: Option<Reason>,
) -> Result<Outcome, Lack>
    ensures { Says (unless_refused (call_view call.now).name (call_view call.now).label why) result }
{
    said(unless_refused(alloc, call, why))
}

/// The outcome of a step `fail` with this text.
pub(crate) fn say_failed(alloc: Global, text: &str) -> Result<Outcome, Lack>
    ensures { Says (failed text.now) result }
{
    Ok(Outcome::of(failed(String::from_str(alloc, text)?)))
}

/// The outcome of a step `abort` with this text.
pub(crate) fn say_aborted(alloc: Global, text: &str) -> Result<Outcome, Lack>
    ensures { Says (aborted text.now) result }
{
    Ok(Outcome::of(aborted(String::from_str(alloc, text)?)))
}
