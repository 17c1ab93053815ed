//! A lane is shown what another has seen.
ghost use Rattle.std.specs.Prelude.{◌≡◌, ◌≢◌, ◌+◌, ◌<◌, [], length};
ghost use mathlib.Core.List.{IsPrefix};
ghost use Rattle.ext_history.specs.Histories.{seen};
ghost use Rattle.ext_locks.specs.Sets.{Excludes};
ghost use Rattle.ext_locks.specs.InnerSteps.{lane_at, IsLane, Makes};

use crate::rule::LaneSeat;
use crate::steps::{LockSteps, tell};

/// Two lanes are shown what the other has seen: if one holds a lock for writing, the other does not
/// hold it.
///
/// What the other lane loads is of a history that goes on from all that the one has seen. Only the
/// second step shows that in this history the one lane holds what it held when it was asked.
pub(crate) fn exclude(
    words: &LockSteps,
    one: &mut LaneSeat,
    one_lane: usize,
    other: &mut LaneSeat,
    other_lane: usize,
)
    requires one { IsLane words.now.table.shared.table_id words.now.table.shared.key.locks one.old one_lane }
    requires other { IsLane words.now.table.shared.table_id words.now.table.shared.key.locks other.old other_lane }
    requires apart { one_lane ≢ other_lane }
    requires lock { 0 < words.now.table.shared.key.locks }
    ensures steps_one { length one.new.me.0.fronts ≡ length one.old.me.0.fronts + 1 }
    ensures steps_other { length other.new.me.0.fronts ≡ length other.old.me.0.fronts + 1 }
    ensures one { Makes one.old one.new one_lane [] }
    ensures other { Makes other.old other.new other_lane [] }
    ensures seen { IsPrefix (seen other.new.me.0.fronts) (seen one.new.me.0.fronts) }
    ensures shuts_out { Excludes (lane_at one.new one_lane) (lane_at other.new other_lane) }
    ensures is_shut_out { Excludes (lane_at other.new other_lane) (lane_at one.new one_lane) }
{
    let _first = tell(words, one, other, other_lane);
    let _second = tell(words, other, one, one_lane);
}
