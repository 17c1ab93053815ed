//! What a compute answers.
ghost use Rattle.std.specs.Prelude.{◌≡◌};
ghost use Rattle.std.specs.Fn.{FnOnceReturnsAt};
ghost use Rattle.ext_model.specs.CallActs.{IsHeld};
ghost use Rattle.ext_store.specs.Computing.{with_factory};

use crate::{KeepFault, Lane, Refusal};
use ext_cells::Claim;
use ext_model::{ContextNo, Fault};
use ext_store_core::Unused;
use ext_tree::Key;

/// What `Store::compute` answers. A factory that was not called is handed back as it was, and can
/// be called later.
#[derive(Drop)]
pub enum Compute<V, F> {
    /// The factory's value was kept under this number, which now stands in the context.
    Computed {
        number: u32,
    },
    /// The value of this number stands in `at`: the context itself, or its nearest ancestor where
    /// anything stands.
    Found {
        at: ContextNo,
        number: u32,
        unused: F,
    },
    /// The factory failed, and nothing is stored. Only a store that keeps no faults answers this.
    Failed(Fault),
    /// The factory failed, and its fault was kept under this number, which now stands in the
    /// context. Only a store that keeps faults answers this and the next two.
    FaultKept {
        number: u32,
    },
    /// The factory failed, and its fault was not kept and is handed back. Nothing is stored.
    FaultUnkept {
        fault: Fault,
        cause: KeepFault,
    },
    /// The kept fault of this number stands in `at`, for which a factory failed: the context
    /// itself, or its nearest ancestor where anything stands.
    FaultStands {
        at: ContextNo,
        number: u32,
        unused: F,
    },
    /// The factory's value was not kept and is handed back. Nothing is stored.
    Unkept {
        value: V,
        cause: KeepFault,
    },
    /// The call was refused, for this reason.
    Refused {
        refusal: Refusal,
        unused: F,
    },
}

// Calls the factory with the key. It borrows the lane's claim, so it can't be called before the
// claim is won, nor after it has ended. That no factory is called elsewhere is read off the source.
pub(crate) fn run_factory<V, F: FnOnce(&Key) -> Result<V, Fault>>(
    lane: &Lane<V>,
    claim: &Claim,
    key: &Key,
    factory: F,
) -> Result<V, Fault>
    requires held { IsHeld lane.now.cells.view claim.now }
    requires factory { F.IsAlwaysCallable factory }
    ensures { FnOnceReturnsAt F.FnOnce factory key.now result }
{
    factory(key)
}

// Hands back the factory, which was not called.
pub(crate) fn hand_back<V, F>(why: Unused, factory: F) -> Compute<V, F>
    ensures { result ≡ with_factory factory why }
{
    match why {
        Unused::Found { at, number } => Compute::Found {
            at,
            number,
            unused: factory,
        },
        Unused::FaultStands { at, number } => Compute::FaultStands {
            at,
            number,
            unused: factory,
        },
        Unused::Refused(refusal) => Compute::Refused {
            refusal,
            unused: factory,
        },
    }
}
