//! The caller's handle of a fault, as the text of the store's fault: its decimal digits.
ghost use Rattle.std.specs.Prelude.{ℕ, ◌≡◌, ◌<◌, ◌^◌, IfNone, IfOk, IfSome};
ghost use Rattle.ext_c.specs.Faults.{IsFaultOf};

use ext_model::Fault;
use std::alloc::{AllocError, Global};

// The fault of a handle. Takes memory for its text.
pub(crate) fn fault_of(alloc: Global, handle: u64) -> Result<Fault, AllocError>
    ensures { IfOk result (IsFaultOf handle) }
{
    let text = format!(in alloc; "{handle}")?;
    Ok(Fault::Text(text))
}

// The handle of a fault, or `None` for a fault that `fault_of` did not make.
pub(crate) fn handle_of(fault: &Fault) -> Option<u64>
    ensures handle { IfSome result (λ handle. (own : ℕ) → own < 2 ^ 64 → IsFaultOf own fault.now → handle ≡ own) }
    ensures none { IfNone result ((own : ℕ) → own < 2 ^ 64 → IsFaultOf own fault.now → ⊥) }
{
    match fault {
        Fault::Text(text) => match text.parse::<u64>() {
            Ok(handle) => Some(handle),
            Err(_) => None,
        },
        Fault::Memory => None,
    }
}
