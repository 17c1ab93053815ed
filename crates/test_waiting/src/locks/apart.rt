//! Two lanes that are shown to exclude each other.
ghost use Rattle.std.specs.Prelude.{◌≡◌, []};
ghost use Rattle.std.specs.Bool.{OnTrue};
ghost use Rattle.ext_locks.specs.Views.{LaneCalls};
ghost use Rattle.ext_locks.specs.Sets.{Excludes};

use ext_locks::{LockLane, Locks, lock_laws};

/// Shows that two lanes exclude each other, where their numbers tell that they are two. Nothing
/// else is known of them here.
pub(crate) fn show_apart(locks: &Locks, one: &mut LockLane, other: &mut LockLane) -> bool
    requires one { one.old.table ≡ locks.now.table }
    requires other { other.old.table ≡ locks.now.table }
    ensures one { LaneCalls one.old one.new [] }
    ensures other { LaneCalls other.old other.new [] }
    ensures apart { OnTrue result (Excludes one.new other.new) }
{
    if one.number() == other.number() {
        lock_laws();
        return false;
    }
    locks.exclusive(one, other);
    true
}
