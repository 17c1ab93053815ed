//! Why a call of the store was refused.
ghost use Rattle.std.specs.Prelude.{◌≡◌, Err, IfOk, IfErr};
ghost use Rattle.ext_model.specs.declared.plain_fault.PlainFault.TheVariants as plain;
ghost use Rattle.ext_plan_plain.specs.declared.lack.Lack.TheVariants as lacks;
ghost use Rattle.ext_plan_plain.specs.InnerSteps.{IsReasonIfRefused};

use crate::lack::Lack;
use ext_model::PlainFault;
use ext_plan::Reason;

/// Why a call of the store was refused, if it was; or that its place lacked memory.
pub(crate) fn reason_if_refused<T: Drop>(
    answer: Result<T, PlainFault>,
) -> Result<Option<Reason>, Lack>
    ensures why { IfOk result (λ why. IsReasonIfRefused answer why) }
    ensures lacks { IfErr result (λ lack. lack ≡ lacks.Place) }
    ensures memory { IfErr result (λ _. answer ≡ Err plain.Memory) }
{
    match answer {
        Ok(_) => Ok(None),
        Err(PlainFault::NumbersFull) => Ok(Some(Reason::NumbersFull)),
        Err(PlainFault::Closed) => Ok(Some(Reason::Closed)),
        // A place where something stands is never claimed: a claim follows a look-up that found
        // nothing.
        Err(PlainFault::Busy) => Ok(Some(Reason::Busy)),
        Err(PlainFault::Taken(_)) => Ok(Some(Reason::Busy)),
        Err(PlainFault::FaultStands(_)) => Ok(Some(Reason::Busy)),
        Err(PlainFault::Memory) => Err(Lack::Place),
    }
}
