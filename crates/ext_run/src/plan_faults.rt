//! All faults of a plan that is refused.
ghost use Rattle.std.specs.Prelude.{◌≡◌, ◌∷◌, [], IfOk};
ghost use Rattle.ext_run.specs.PlanFaults.{faults_of_bytes};

use ext_model::Size;
use ext_plan_reading::{PlanFault, all_faults};
use std::alloc::{AllocError, Global};

/// Finds all faults of the plan in these bytes, which may be as large as `size` says. They are
/// those of `ext_plan_reading::all_faults`, or `NotUtf8` alone; there are none if the bytes are a
/// plan. That they are too many bytes is none of them.
///
/// Takes memory for what `all_faults` takes it for; fails with `AllocError` only if that is
/// refused.
pub fn faults_of_plan(alloc: Global, input: &[u8], size: Size) -> Result<Vec<PlanFault>, AllocError>
    ensures { IfOk result (λ faults. faults.items ≡ faults_of_bytes size input.now) }
{
    match std::str::from_utf8(input) {
        Ok(text) => all_faults(alloc, text, size),
        Err(_) => no_text(alloc),
    }
}

/// The fault of bytes that are no text.
fn no_text(alloc: Global) -> Result<Vec<PlanFault>, AllocError>
    ensures { IfOk result (λ faults. faults.items ≡ PlanFault.NotUtf8 ∷ []) }
{
    let mut faults = Vec::new(alloc);
    faults.push(PlanFault::NotUtf8)?;
    Ok(faults)
}
