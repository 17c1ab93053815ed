//! What the tests assert by.
use std::fmt::Debug;
use std::process::Abort;

/// Asserts that this was answered. Tests assert by it, since a call is cheaper to prove than what
/// `assert_eq!` writes.
pub(crate) fn same<T: Debug + Drop + PartialEq>(rt: &impl Abort, answer: T, wanted: T, what: &str) {
    assert_eq!(rt; answer, wanted, "{what}");
}
