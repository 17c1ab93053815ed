//! Values of a run, and how they are closed.
ghost use Rattle.std.specs.Prelude.{◌≡◌, true, false, option_map, IfErr, IfOk, IsSome};
ghost use Rattle.ext_lifecycle.specs.FaultTexts.{fault_text};
ghost use Rattle.ext_plan.specs.Values.{value_view, close_fault};

use crate::step_text::close_text;
use ext_model::Fault;
use std::alloc::{AllocError, Global};

/// A value of a run: its text, and whether it is closed with its context.
#[derive(Clone, Copy, Debug, PartialEq, Eq)]
pub struct PlanValue<'a> {
    /// The value's text, borrowed from the plan.
    pub text: &'a str,
    /// Whether it is closed with its context, like a `CloseableResource` of JUnit 5.
    pub closeable: bool,
}

impl<'a> PlanValue<'a> {
    /// Makes a value with this text that is not closeable.
    pub fn not_closeable(text: &'a str) -> PlanValue<'a>
        ensures { value_view result ≡ record { text = text.now; closeable = false } }
    {
        PlanValue {
            text,
            closeable: false,
        }
    }

    /// Makes a closeable value with this text.
    pub fn closeable(text: &'a str) -> PlanValue<'a>
        ensures { value_view result ≡ record { text = text.now; closeable = true } }
    {
        PlanValue {
            text,
            closeable: true,
        }
    }
}

/// Returns the fault of closing a value: `close TEXT` if its text begins with `bad`, and otherwise
/// none.
///
/// Takes memory for the fault's text. Fails with `AllocError` only if that is refused, and so never
/// for a value whose close succeeds. Source: Javadoc type
/// `ExtensionContext.Store.CloseableResource`; which closes fail is an own rule.
pub fn close_fault(alloc: Global, value: &PlanValue<'_>) -> Result<Option<Fault>, AllocError>
    ensures fault { IfOk result (λ fault. option_map fault_text fault ≡ close_fault (value_view value.now)) }
    ensures memory { IfErr result (λ _. IsSome (close_fault (value_view value.now))) }
{
    if value.text.as_bytes().starts_with(b"bad") {
        return Ok(Some(Fault::Text(close_text(alloc, value.text)?)));
    }
    Ok(None)
}
