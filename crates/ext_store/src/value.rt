//! What a value of a store says of itself.
ghost use Rattle.std.specs.Prelude.{◌≡◌, Bool};

/// A value that a store keeps.
///
/// JUnit 5 closes values that are `CloseableResource`s when the store of their context is closed:
/// User Guide, section "Keeping State in Extensions". Here a value says itself whether it is
/// closeable.
pub trait StoreValue {
    /// Whether the value is closeable, in contracts.
    ghost is_closeable: { Self → Bool };

    /// Whether the value is to be closed with its context.
    fn closeable(&self) -> bool
        ensures { result ≡ is_closeable self.now };
}
