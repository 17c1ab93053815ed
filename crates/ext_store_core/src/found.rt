//! What a look-up answers, from what stands at the cell that decides it.
ghost use Rattle.std.specs.Prelude.{◌≡◌, Option, Some};
ghost use Rattle.ext_model.specs.declared.slot.Slot.{Slot};
ghost use Rattle.ext_model.specs.State.{look_in};
ghost use Rattle.ext_cells.specs.CellCalls.{standing_of};
ghost use Rattle.ext_store_core.specs.Waiting.{busy_refused};

use crate::Refusal;
use ext_cells::Standing;
use ext_model::{ContextNo, Look};

// What a look-up answers if this stands at the cell of the context that decides it.
pub(crate) fn found_at(context: ContextNo, standing: Standing) -> Look
    ensures { (slot : Option Slot) → standing_of slot ≡ Some standing → result ≡ look_in context slot }
{
    match standing {
        Standing::Value(number) => Look::Found {
            at: context,
            number,
        },
        Standing::Fault(number) => Look::Fault {
            at: context,
            number,
        },
        Standing::Claim => Look::Busy(context),
        Standing::Seal => Look::Closed(context),
    }
}

// The answer of a look-up, or why it has to be made again: a running factory decides it.
pub(crate) fn unless_busy(looked: Result<Look, Refusal>) -> Result<Look, Refusal>
    ensures { result ≡ busy_refused looked }
{
    match looked {
        Ok(Look::Absent) => Ok(Look::Absent),
        Ok(Look::Found { at, number }) => Ok(Look::Found { at, number }),
        Ok(Look::Fault { at, number }) => Ok(Look::Fault { at, number }),
        Ok(Look::Busy(at)) => Err(Refusal::Busy(at)),
        Ok(Look::Closed(at)) => Ok(Look::Closed(at)),
        Err(why) => Err(why),
    }
}
