//! What the tests assert by.
use std::alloc::{AllocError, Global};
use std::fmt::{Debug, Display};
use std::process::Abort;

/// Asserts that this was answered. Tests assert by it, since a call is cheaper to prove than what
/// `assert_eq!` writes.
pub(crate) fn same<T: Debug + Drop + PartialEq>(rt: &impl Abort, answer: T, wanted: T, what: &str) {
    assert_eq!(rt; answer, wanted, "{what}");
}

/// Asserts that this is printed so.
pub(crate) fn prints<T: Display>(
    rt: &impl Abort,
    alloc: Global,
    value: &T,
    text: &str,
) -> Result<(), AllocError> {
    let told = value.to_string(alloc)?;
    same(rt, told.as_str(), text, text);
    Ok(())
}
