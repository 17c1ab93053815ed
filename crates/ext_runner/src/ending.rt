//! How a program of an engine ends.
ghost use Rattle.std.specs.Prelude.{◌≡◌};
ghost use Rattle.ext_runner.specs.InnerTelling.{exit_code};

/// How a program of an engine ends. `code` is its exit status.
#[derive(Clone, Copy, Debug, PartialEq, Eq)]
pub(crate) enum Ending {
    /// No node failed, or no test was to be run.
    Passed,
    /// A node failed.
    Failed,
    /// The words of the command line are wrong.
    WrongWords,
    /// The tests were not run, or not all of what was asked could be written.
    NotRun,
    /// No test is selected.
    NothingSelected,
}

impl Ending {
    /// The exit status.
    pub(crate) fn code(self) -> u8
        ensures { result ≡ exit_code self }
    {
        match self {
            Ending::Passed => 0,
            Ending::Failed => 1,
            Ending::WrongWords => 2,
            Ending::NotRun => 3,
            Ending::NothingSelected => 4,
        }
    }
}
