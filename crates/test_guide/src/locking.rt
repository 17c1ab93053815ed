//! A test that holds locks while it runs.
ghost use Rattle.std.specs.Prelude.{◌≡◌};
ghost use Rattle.ext_locks.specs.Sets.{HoldsNothing};

use ext_locks::{LockFault, LockLane, LockMode, LockRefusal, LockRequest, Locks, Resource};
use std::test::Fail;

/// A named lock, in a mode.
fn request(name: &str, mode: LockMode) -> LockRequest {
    LockRequest {
        resource: Resource::Named(name),
        mode,
    }
}

/// Runs a test while its lane holds the locks that it asks for. Where it answers `false`, ask again later.
fn run_test(locks: &Locks, lane: &mut LockLane, requests: &[LockRequest]) -> Result<bool, LockFault>
    requires lane { lane.old.table ≡ locks.now.table }
    requires free_hands { HoldsNothing lane.old }
    ensures lane { lane.new.table ≡ lane.old.table }
    ensures free_hands { HoldsNothing lane.new }
{
    let set = locks.merge(requests)?;
    match locks.try_take(lane, &set) {
        Ok(held) => {
            let _first = held.set().get(0);
            locks.give(lane, held);
            Ok(true)
        }
        Err(LockRefusal::Taken(_)) => Ok(false),
        Err(LockRefusal::Contended(_)) => Ok(false),
    }
}

/// Tests `LockLane::number`, `Locks::open`, `Locks::try_take`, `Locks::take_wait` and `Held::set`:
/// a test takes one lock for writing and one for reading, and gives both back.
#[test]
fn guide_to_locks(rt: HostRuntime) -> Result<(), Fail> {
    let (locks, mut lanes) = Locks::open(rt.alloc(), &["db", "files"], 2, 64)?;
    let requests = [
        request("db", LockMode::ReadWrite),
        request("files", LockMode::Read),
    ];
    assert!(rt; run_test(&locks, &mut lanes.as_mut_slice()[0], &requests)?);
    Ok(())
}
