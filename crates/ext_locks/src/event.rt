//! Lock events, which lanes make when they take and give back locks.

/// A lock: 0 is the global one, and the named ones follow from 1, in the order of their names'
/// bytes.
pub type LockNo = usize;

/// How a lock is held. Several lanes may hold it for reading together; a lane that holds it for
/// reading and writing excludes all others.
///
/// JUnit 5 User Guide, section "Synchronization", and the Javadoc of `ResourceAccessMode`.
#[derive(Clone, Copy, Debug, PartialEq, Eq)]
pub enum LockMode {
    /// Others may read as well.
    Read,
    /// No other lane holds the lock.
    ReadWrite,
}

/// A lane took a lock, or gave it back. Lanes are numbered from 0.
#[derive(Clone, Copy, Debug, PartialEq, Eq)]
pub struct LockEvent {
    /// The lane that took it or gave it back.
    pub lane: usize,
    /// Which lock it was.
    pub lock: LockNo,
    /// The mode in which the lock is taken or given back.
    pub mode: LockMode,
    /// True if the lock was taken, false if it was given back.
    pub takes: bool,
}
