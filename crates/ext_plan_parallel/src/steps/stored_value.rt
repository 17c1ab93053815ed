//! A value of a plan, as a store keeps it.
ghost use Rattle.std.specs.Prelude.{◌≡◌};

use ext_plan::PlanValue;
use ext_store::StoreValue;

/// A value of a plan, as a store keeps it: its text, and whether it is closed with its context.
#[derive(Clone, Copy, Debug, PartialEq, Eq)]
pub struct StoredValue<'a> {
    /// The value, as the plan has it.
    pub value: PlanValue<'a>,
}

impl StoreValue for StoredValue<'_> {
    ghost is_closeable = { λ v. v.value.closeable };

    fn closeable(&self) -> bool {
        self.value.closeable
    }
}

impl<'a> StoredValue<'a> {
    ghost use Rattle.ext_plan_parallel.specs.StoreCalls.{stored_view};

    pub(crate) fn of(text: &'a str, closeable: bool) -> StoredValue<'a>
        ensures { stored_view result ≡ record { text = text.now; closeable = closeable } }
    {
        StoredValue {
            value: PlanValue { text, closeable },
        }
    }
}
