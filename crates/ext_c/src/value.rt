//! A value or a kept fault, as C has it.
ghost use Rattle.std.specs.Prelude.{◌≡◌, false};

/// The handle of a value or of a kept fault, its number, and its context. A kept fault is not
/// closeable.
#[repr(C)]
#[derive(Clone, Copy, Default, Drop)]
pub struct ExtValue {
    pub handle: u64,
    pub context: usize,
    pub number: u32,
    pub closeable: bool,
    pub fault: bool,
}

impl ExtValue {
    // The number and the context alone.
    pub(crate) fn unshown(context: usize, number: u32) -> ExtValue
        ensures { result ≡ record { handle = 0; context = context; number = number; closeable = false; fault = false } }
    {
        ExtValue {
            handle: 0,
            context,
            number,
            closeable: false,
            fault: false,
        }
    }
}
