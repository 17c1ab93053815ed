//! Requests, as tests ask for them.
use ext_locks::{LockFault, LockMode, LockNo, LockRequest, Locks, Resource};

/// A named lock, to read by.
pub(crate) fn read(name: &str) -> LockRequest {
    LockRequest {
        resource: Resource::Named(name),
        mode: LockMode::Read,
    }
}

/// A named lock, to write by.
pub(crate) fn write(name: &str) -> LockRequest {
    LockRequest {
        resource: Resource::Named(name),
        mode: LockMode::ReadWrite,
    }
}

/// The global lock.
pub(crate) fn global(mode: LockMode) -> LockRequest<'static> {
    LockRequest {
        resource: Resource::Global,
        mode,
    }
}

/// The lock at this place of the set that the requests ask for.
pub(crate) fn merged_at(
    locks: &Locks,
    requests: &[LockRequest],
    at: usize,
) -> Result<Option<(LockNo, LockMode)>, LockFault> {
    Ok(locks.merge(requests)?.get(at))
}
