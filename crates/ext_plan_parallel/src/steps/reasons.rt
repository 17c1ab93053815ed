//! Outcomes of steps whose call of the store was refused.
ghost use Rattle.std.specs.Prelude.{◌≡◌, ◌≢◌, IfOk, IfErr};
ghost use Rattle.ext_store_core.specs.declared.fault.Refusal.TheVariants as refusal;
ghost use Rattle.ext_store.specs.Waiting.{IsDecided, IsDecidedFault};
ghost use Rattle.ext_plan.specs.StepCalls.{call_view};
ghost use Rattle.ext_plan.specs.Verdicts.{refused};
ghost use Rattle.ext_plan_parallel.specs.Saying.{Ends, EndsRefused, EndsUnkept, no_memory};

use ext_lifecycle::{Outcome, Verdict};
use ext_model::Fault;
use ext_plan::{Reason, StepCall, refused};
use ext_store::{KeepFault, Refusal};
use std::alloc::{AllocError, Global};

/// The verdict, or that memory was refused for it.
pub(crate) fn or_no_memory(verdict: Result<Verdict, AllocError>) -> Verdict
    ensures verdict { IfOk verdict (λ v. result ≡ v) }
    ensures memory { IfErr verdict (λ _. result ≡ no_memory) }
{
    match verdict {
        Ok(verdict) => verdict,
        Err(_) => Verdict::Failed(Fault::Memory),
    }
}

/// The outcome of a step whose call was refused.
pub(crate) fn end_refused(alloc: Global, call: &StepCall<'_>, why: Refusal) -> Outcome
    requires decided { IsDecided why }
    requires placed { why ≢ refusal.Unplaced }
    ensures { EndsRefused (call_view call.now).name (call_view call.now).label why result }
{
    match why {
        Refusal::Closed(_) => end_for(alloc, call, Reason::Closed),
        Refusal::Exhausted => end_for(alloc, call, Reason::Exhausted),
        Refusal::DirectoryFull => end_for(alloc, call, Reason::DirectoryFull),
        Refusal::Memory => Outcome::of(Verdict::Failed(Fault::Memory)),
        // Waiting calls are not refused as `Busy` or `Contended`, and no key is unplaced here.
        Refusal::Busy(_) => unreachable!(),
        Refusal::Contended => unreachable!(),
        Refusal::Unplaced => unreachable!(),
    }
}

/// The outcome of a step whose value was not kept.
pub(crate) fn end_unkept(alloc: Global, call: &StepCall<'_>, why: KeepFault) -> Outcome
    requires { IsDecidedFault why }
    ensures { EndsUnkept (call_view call.now).name (call_view call.now).label why result }
{
    match why {
        KeepFault::Memory => Outcome::of(Verdict::Failed(Fault::Memory)),
        KeepFault::NumbersFull => end_for(alloc, call, Reason::NumbersFull),
        KeepFault::Unplaced => end_for(alloc, call, Reason::Unplaced),
        // Waiting calls are not refused because of other lanes.
        KeepFault::Contended => unreachable!(),
    }
}

/// The outcome of a step that was refused for this reason.
fn end_for(alloc: Global, call: &StepCall<'_>, why: Reason) -> Outcome
    ensures { Ends (refused (call_view call.now).name (call_view call.now).label why) 0 0 result }
{
    Outcome::of(or_no_memory(refused(alloc, call, why)))
}
