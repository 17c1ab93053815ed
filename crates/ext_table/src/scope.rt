//! What a call of an engine is handed.
ghost use Rattle.std.specs.Prelude.{◌≡◌, ◌-◌, IfOk, OnErr, Some, length, slice_get};
ghost use Rattle.ext_model.specs.declared.look.Fault.{Fault};
ghost use Rattle.ext_store.specs.FaultTexts.{IsToldBy};
ghost use Rattle.ext_table.specs.declared.stop.Stop.TheVariants as stops;

use crate::Stop;
use ext_model::ContextNo;
use ext_store::fault_of;
use std::fmt::Display;

/// What a call of an engine is handed: a test, a callback, or the making of what is shared. Javadoc
/// `ExtensionContext`.
#[derive(Drop)]
pub struct Scope<'a, T, S> {
    /// The runtime, by which files, the clock and the environment are reached.
    pub rt: &'a HostRuntime,
    /// The node, by its index in the table that is run: also its context of the store.
    pub node: ContextNo,
    /// What the table gives the call.
    pub given: &'a T,
    /// What the nodes on the path share, the outermost first. Of what is made itself it is what the
    /// nodes above share.
    pub shared: &'a [&'a S],
}

impl<'a, T, S> Scope<'a, T, S> {
    /// What the nearest node on the path shares. Where none shares anything, a fault to stop with.
    pub fn nearest(&self) -> Result<&'a S, Stop>
        ensures nearest { IfOk result (λ s. slice_get self.now.shared.now (length self.now.shared.now - 1) ≡ Some s) }
        ensures none { OnErr result (length self.now.shared.now ≡ 0) }
    {
        match self.shared {
            [.., nearest] => Ok(*nearest),
            [] => Err(self.fail("nothing is shared")),
        }
    }

    /// That the call failed, with what is printed as its whole message. Takes memory for the
    /// message; without it the fault is `Fault::Memory`.
    pub fn fail<D: Display + Drop>(&self, why: D) -> Stop
        ensures { (fault : Fault) × IsToldBy (D.output why) fault × (result ≡ stops.Failed fault) }
    {
        Stop::Failed(fault_of(self.rt.alloc(), why))
    }

    /// That the call could not do its work, with what is printed as its whole message: a test is
    /// aborted, not failed. Takes memory for the message; without it the fault is `Fault::Memory`.
    /// Javadoc `Assumptions`, `abort`.
    pub fn abort<D: Display + Drop>(&self, why: D) -> Stop
        ensures { (fault : Fault) × IsToldBy (D.output why) fault × (result ≡ stops.Aborted fault) }
    {
        Stop::Aborted(fault_of(self.rt.alloc(), why))
    }
}
