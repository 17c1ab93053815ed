//! Lists of faults. That memory was refused is no fault of a text.
ghost use Rattle.std.specs.Prelude.{◌≡◌, ◌≢◌, ◌++◌, IfOk, OnOk, Some, option_to_list};
ghost use Rattle.ext_plan_reading.specs.declared.fault.PlanFault.TheVariants.{Memory};

use crate::fault::PlanFault;
use std::alloc::{AllocError, Global};

/// The fault that ended a reading, if there is one, as a list.
pub(crate) fn listed(alloc: Global, found: Option<PlanFault>) -> Result<Vec<PlanFault>, AllocError>
    ensures { IfOk result (λ faults. (faults.items ≡ option_to_list found) × (found ≢ Some Memory)) }
{
    let mut faults = Vec::new(alloc);
    add_fault(&mut faults, found)?;
    Ok(faults)
}

/// Puts the fault that ended a reading, if there is one, behind the others.
pub(crate) fn add_fault(
    faults: &mut Vec<PlanFault>,
    found: Option<PlanFault>,
) -> Result<(), AllocError>
    ensures added { OnOk result (faults.new.items ≡ faults.old.items ++ option_to_list found) }
    ensures known { OnOk result (found ≢ Some Memory) }
{
    match found {
        None => Ok(()),
        Some(PlanFault::Memory) => Err(AllocError),
        Some(fault) => {
            faults.push(fault)?;
            Ok(())
        }
    }
}
