//! Reading a plan from its bytes.
ghost use Rattle.std.specs.Prelude.{◌≡◌, Ok, IfErr, IfOk};
ghost use Rattle.ext_plan_reading.specs.Plans.{plan_view};
ghost use Rattle.ext_plan_reading.specs.ReadPlans.{IsReadPlan};
ghost use Rattle.ext_run.specs.Reports.{RefusedPlan, plan_of_bytes};

use ext_model::Size;
use ext_plan_reading::{Plan, PlanFault, read_plan_within};
use std::alloc::Global;

/// Reads the plan in these bytes, which may be as large as `size` says.
///
/// Refused as `NotUtf8` if the bytes are no text, and otherwise with the fault of
/// `read_plan_within`, which may be `Memory`. Takes memory as that does. How many bytes there are
/// does not matter here: `read_input` refuses those that are too many.
pub fn plan_of(alloc: Global, bytes: &[u8], size: Size) -> Result<Plan, PlanFault>
    ensures read { IfOk result (λ plan. plan_of_bytes size bytes.now ≡ Ok (plan_view plan)) }
    ensures refused { IfErr result (λ fault. RefusedPlan fault (plan_of_bytes size bytes.now)) }

    // This holds of every plan, whatever the bytes were.
    ensures plan { IfOk result (λ plan. IsReadPlan (plan_view plan)) }
{
    match std::str::from_utf8(bytes) {
        Ok(text) => read_plan_within(alloc, text, size),
        Err(_) => Err(PlanFault::NotUtf8),
    }
}
