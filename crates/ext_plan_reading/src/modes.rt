//! The modes of a plan's nodes.
ghost use Rattle.std.specs.Prelude.{◌≡◌, option_map};
ghost use Rattle.ext_plan_reading.specs.Faults.{Gives};
ghost use Rattle.ext_plan_reading.specs.ModeReading.{mode_at, mode_of};

use crate::fault::PlanFault;
use ext_lifecycle::Mode;

/// The mode of a node, `SameThread` if none is given. `node` is the node's index in the plan.
pub(crate) fn mode_at(node: usize, text: Option<&str>) -> Result<Mode, PlanFault>
    ensures { Gives (λ mode. mode) result (mode_at node (option_map (λ t. t.now) text.entry)) }
{
    let Some(text) = text else {
        return Ok(Mode::SameThread);
    };
    match mode_of(text) {
        None => Err(PlanFault::BadLock(node)),
        Some(mode) => Ok(mode),
    }
}

/// The mode that a text spells, if it is one.
fn mode_of(text: &str) -> Option<Mode>
    ensures { result ≡ mode_of text.now }
{
    match text {
        "same_thread" => Some(Mode::SameThread),
        "concurrent" => Some(Mode::Concurrent),
        _ => None,
    }
}
