//! The result of looking for a plan's races.
use crate::{Proved, Race};
use ext_plan::StepKey;

/// What `races` finds: races, or that there are none, or a limit that the plan's steps exceed.
#[derive(Debug, Drop)]
pub enum Found<'p> {
    /// The races, and by the number of each key the word by which a step first names it.
    Races {
        races: Vec<Race>,
        names: Vec<&'p StepKey>,
    },
    /// There is no race: what is proved of the plan.
    NoRaces(Proved),
    /// The steps name more different keys than a run has places for (`Plan::key_places`): which of
    /// them get a place depends on the schedule.
    TooManyKeys,
    /// The steps may draw more numbers than a run has (`Plan::size`): which of them get one depends
    /// on the schedule.
    TooManyNumbers,
}
