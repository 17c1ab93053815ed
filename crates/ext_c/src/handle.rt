//! The caller's own value, into which the store never looks.
ghost use Rattle.std.specs.Prelude.{◌≡◌};

use ext_store::StoreValue;

/// The caller's 64 bits, and whether they are to be closed with their context.
#[derive(Clone, Copy, Drop)]
pub struct Handle {
    pub raw: u64,
    pub closeable: bool,
}

impl StoreValue for Handle {
    ghost is_closeable = { λ h. h.closeable };

    fn closeable(&self) -> bool {
        self.closeable
    }
}
