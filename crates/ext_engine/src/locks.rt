//! The locks of a test.
ghost use Rattle.std.specs.Prelude.{◌≡◌, ◌+◌, ◌<◌, length, map, All, IfOk, OnOk, ◌++◌};
ghost use Rattle.std.specs.List.{list_any};
ghost use Rattle.ext_locks.specs.Sets.{AllBelow, IsHeldBy};
ghost use Rattle.ext_engine.specs.Suites.{locks_on, global_mode, IsSetOf, asks};
ghost use Rattle.ext_engine.specs.Taking.{TakesSet, GivesBack, IsIdle, IsNamedLock};

use crate::Suite;
use ext_locks::{Held, LockLane, LockMode, LockRequest, LockSet, Locks, Resource};
use ext_model::ContextNo;
use ext_store::StoreValue;
use std::alloc::{AllocError, Global};
use std::sync::Wait;

/// Takes the locks of a set, and waits until they are free.
///
/// The lane is one of the locks, and holds nothing; the numbers of the set are those of the locks.
/// May wait. JUnit 5 User Guide, section "Synchronization".
pub(crate) fn take_locks<R: Wait>(rt: &R, locks: &Locks, lane: &mut LockLane, set: &LockSet) -> Held
    requires lane { IsIdle locks.now lane.old }
    requires set { AllBelow (length locks.now.names + 1) set.now }
    ensures takes { TakesSet locks.now set.now lane.old result lane.new }
    ensures table { lane.new.table ≡ locks.now.table }
{
    locks.take_wait(rt, lane, set)
}

/// Gives the locks back.
///
/// The lane is one of the locks, and took them; it has made no event since. JUnit 5 User Guide,
/// section "Synchronization".
pub(crate) fn give_locks(locks: &Locks, lane: &mut LockLane, held: Held)
    requires table { lane.old.table ≡ locks.now.table }
    requires held { IsHeldBy held lane.old }
    ensures gives { GivesBack held lane.old lane.new }
    ensures idle { IsIdle locks.now lane.new }
{
    locks.give(lane, held);
}

/// The set of the locks that a test with this path takes: the global one, and those named at itself
/// and at its ancestors.
///
/// The locks have every name that the nodes of the path ask for. Refused if there is no memory.
/// Takes memory. JUnit 5 User Guide, section "Synchronization"; the global lock and the locks of
/// ancestors are own rules.
pub(crate) fn test_set<V: StoreValue + Drop, S: Suite<V>>(
    alloc: Global,
    suite: &S,
    locks: &Locks,
    path: &[ContextNo],
) -> Result<LockSet, AllocError>
    requires names { All (λ n. All (λ asked. IsNamedLock locks.now.names asked.name) ((S.suite_view suite.now).locks n)) path.now }
    ensures set { IfOk result (IsSetOf locks.now.names (locks_on (S.suite_view suite.now) path.now)) }
    ensures within { IfOk result (AllBelow (length locks.now.names + 1)) }
{
    let requests = requests_on(alloc, suite, path)?;
    match locks.merge(requests.as_slice()) {
        Ok(set) => Ok(set),
        // Every name is that of a lock.
        Err(_) => unreachable!(),
    }
}

/// What a test with this path asks for: the global lock, and those named at the nodes of the path.
fn requests_on<'a, V: StoreValue + Drop, S: Suite<V>>(
    alloc: Global,
    suite: &'a S,
    path: &[ContextNo],
) -> Result<Vec<LockRequest<'a>>, AllocError>
    ensures { IfOk result (λ v. map asks v.items ≡ locks_on (S.suite_view suite.now) path.now) }
{
    let mut requests = Vec::new(alloc);
    requests.push(LockRequest {
        resource: Resource::Global,
        mode: global_mode(suite, path),
    })?;
    for node in path {
        push_locks(suite, *node, &mut requests)?;
    }
    Ok(requests)
}

/// The mode of the global lock: for writing if a node of the path is isolated, and otherwise for
/// reading.
fn global_mode<V: StoreValue + Drop, S: Suite<V>>(suite: &S, path: &[ContextNo]) -> LockMode
    ensures { result ≡ global_mode (S.suite_view suite.now) path.now }
{
    if any_isolated(suite, path) {
        LockMode::ReadWrite
    } else {
        LockMode::Read
    }
}

/// Whether a node of the path is isolated.
fn any_isolated<V: StoreValue + Drop, S: Suite<V>>(suite: &S, path: &[ContextNo]) -> bool
    ensures { result ≡ list_any (S.suite_view suite.now).is_isolated path.now }
{
    path.iter().any(|node| suite.isolated(*node))
}

/// Adds the locks that a node names.
fn push_locks<'a, V: StoreValue + Drop, S: Suite<V>>(
    suite: &'a S,
    node: ContextNo,
    requests: &mut Vec<LockRequest<'a>>,
) -> Result<(), AllocError>
    ensures { OnOk result (map asks requests.new.items ≡ map asks requests.old.items ++ (S.suite_view suite.now).locks node) }
{
    for i in 0..suite.lock_count(node) {
        match suite.lock(node, i) {
            Some(request) => requests.push(request)?,
            None => unreachable!(),
        }
    }
    Ok(())
}
