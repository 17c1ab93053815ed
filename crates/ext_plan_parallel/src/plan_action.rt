//! The close action of a plan's run.
ghost use Rattle.std.specs.Prelude.{◌≡◌};
ghost use Rattle.ext_plan.specs.Values.{close_fault};
ghost use Rattle.ext_plan_parallel.specs.StoreCalls.{stored_view};
ghost use Rattle.ext_plan_parallel.specs.PlanActions.{AnswersClose};

use crate::steps::StoredValue;
use ext_closing::CloseAction;
use ext_lifecycle::{FaultOrigin, RunListener, tell_fault};
use ext_model::{ContextNo, Fault};
use ext_plan::close_fault;
use std::alloc::Global;
use std::marker::Model;

/// The close action of a node in a plan's run. It fails with `close TEXT` for a value whose text
/// begins with `bad`, and succeeds for each other value. Contracts see it as its node. Each fault
/// is reported to the listener, as one of that node.
///
/// It takes memory for the text of the fault, and fails with `Fault::Memory` if that is refused.
/// Source: Javadoc type `ExtensionContext.Store.CloseableResource`; which closes fail is an own
/// rule.
#[derive(Drop)]
pub struct PlanAction<'a, L> {
    alloc: Global,
    node: ContextNo,
    listener: &'a L,
}

impl<'a, L> Model for PlanAction<'a, L> {
    ghost use Rattle.std.specs.Prelude.{ℕ};

    ghost Value = { ℕ };

    ghost view = { λ a. a.node };
}

impl<'a, L> PlanAction<'a, L> {
    // The action of a node, which takes memory from this allocator.
    pub(crate) fn new(alloc: Global, node: ContextNo, listener: &'a L) -> PlanAction<'a, L>
        ensures { result ≡ node }
    {
        PlanAction {
            alloc,
            node,
            listener,
        }
    }
}

impl<'a, L: RunListener> CloseAction<StoredValue<'a>> for PlanAction<'_, L> {
    ghost close_gives = { λ action number value answer left. AnswersClose (close_fault (stored_view value)) answer × (left ≡ action) };

    /// Fails with `close TEXT` for a value whose text begins with `bad`.
    fn close(&mut self, _number: u32, value: &StoredValue<'a>) -> Result<(), Fault> {
        let answer = answer_of(self.alloc, value);
        let fault = answer.as_ref().err();
        tell_fault(self.listener, self.node, FaultOrigin::Close, fault);
        answer
    }
}

/// The answer of a close of the value.
fn answer_of(alloc: Global, value: &StoredValue<'_>) -> Result<(), Fault>
    ensures { AnswersClose (close_fault (stored_view value.now)) result }
{
    match close_fault(alloc, &value.value) {
        Ok(None) => Ok(()),
        Ok(Some(fault)) => Err(fault),
        Err(_) => Err(Fault::Memory),
    }
}
