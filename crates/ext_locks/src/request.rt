//! What a test asks for.
use crate::LockMode;

/// The resource that a lock is for: the global one, or one with a name.
///
/// JUnit 5 User Guide, section "Synchronization": `ResourceLock` names a resource by a text. That
/// the global lock has a resource of its own, which no name equals, is an own rule.
#[derive(Clone, Copy, Debug, PartialEq, Eq)]
pub enum Resource<'a> {
    /// The resource whose lock every test takes.
    Global,
    /// A resource with a name.
    Named(&'a str),
}

/// A lock and the mode in which it is wanted. Javadoc of `ResourceLock`.
#[derive(Clone, Copy, Debug, PartialEq, Eq)]
pub struct LockRequest<'a> {
    /// The resource whose lock is wanted.
    pub resource: Resource<'a>,
    /// The mode in which it is wanted.
    pub mode: LockMode,
}
