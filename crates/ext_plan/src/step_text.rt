//! The texts of steps that do not pass.
ghost use Rattle.std.specs.Prelude.{◌≡◌, string_bytes, IfOk};
ghost use Rattle.ext_plan.specs.StepTexts.{refused_text, missing_text, other_text, got_text, other_fault_text, met_fault_text, close_text};

use std::alloc::{AllocError, Global};

/// The text `NAME KEY: REASON`, of a step whose call of the store was refused.
#[tactic(auto, unfolding(crate::specs::StepTexts::refused_text))]
pub fn refused_text(
    alloc: Global,
    name: &str,
    label: &str,
    reason: &str,
) -> Result<String, AllocError>
    ensures { IfOk result (λ s. string_bytes s ≡ refused_text name.now label.now reason.now) }
{
    format!(in alloc; "{name} {label}: {reason}")
}

/// The text `want KEY TEXT: none`, of a step that found nothing.
#[tactic(auto, unfolding(crate::specs::StepTexts::missing_text))]
pub fn missing_text(alloc: Global, label: &str, text: &str) -> Result<String, AllocError>
    ensures { IfOk result (λ s. string_bytes s ≡ missing_text label.now text.now) }
{
    format!(in alloc; "want {label} {text}: none")
}

/// The text `want KEY TEXT: got OTHER`, of a step that found another value.
#[tactic(auto, unfolding(crate::specs::StepTexts::other_text))]
pub fn other_text(alloc: Global, label: &str, text: &str, other: &str) -> Result<String, AllocError>
    ensures { IfOk result (λ s. string_bytes s ≡ other_text label.now text.now other.now) }
{
    format!(in alloc; "want {label} {text}: got {other}")
}

/// The text `NAME KEY: got OTHER`, of a step that should find nothing.
#[tactic(auto, unfolding(crate::specs::StepTexts::got_text))]
pub fn got_text(alloc: Global, name: &str, label: &str, other: &str) -> Result<String, AllocError>
    ensures { IfOk result (λ s. string_bytes s ≡ got_text name.now label.now other.now) }
{
    format!(in alloc; "{name} {label}: got {other}")
}

/// The text `want KEY TEXT: fault OTHER`, of a step that met a kept fault.
#[tactic(auto, unfolding(crate::specs::StepTexts::other_fault_text))]
pub fn other_fault_text(
    alloc: Global,
    label: &str,
    text: &str,
    other: &str,
) -> Result<String, AllocError>
    ensures { IfOk result (λ s. string_bytes s ≡ other_fault_text label.now text.now other.now) }
{
    format!(in alloc; "want {label} {text}: fault {other}")
}

/// The text `NAME KEY: fault OTHER`, of a step that met a kept fault.
#[tactic(auto, unfolding(crate::specs::StepTexts::met_fault_text))]
pub fn met_fault_text(
    alloc: Global,
    name: &str,
    label: &str,
    other: &str,
) -> Result<String, AllocError>
    ensures { IfOk result (λ s. string_bytes s ≡ met_fault_text name.now label.now other.now) }
{
    format!(in alloc; "{name} {label}: fault {other}")
}

/// The text `close TEXT`, of a value whose close failed.
#[tactic(auto, unfolding(crate::specs::StepTexts::close_text))]
pub fn close_text(alloc: Global, text: &str) -> Result<String, AllocError>
    ensures { IfOk result (λ s. string_bytes s ≡ close_text text.now) }
{
    format!(in alloc; "close {text}")
}
