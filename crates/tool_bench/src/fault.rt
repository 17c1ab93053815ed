//! Why nothing was measured.

/// Why nothing was measured. Own rule.
#[derive(Clone, Copy)]
pub(crate) enum BenchFault {
    /// The words of the command line are none of the usage.
    Words,
    /// The case doesn't run on so many threads.
    Threads,
    /// An allocation failed, or the store was not opened.
    Opening,
    /// The clock can't be read.
    Clock,
    /// A call answered what it can't answer there.
    Answer,
    /// The output can't be written.
    Output,
}

impl BenchFault {
    /// What is said of it.
    pub(crate) fn text(self) -> &'static str {
        match self {
            BenchFault::Words => "the words are not understood; --help tells them",
            BenchFault::Threads =>
                "this case doesn't run on so many threads; --help tells on how many",
            BenchFault::Opening => "the store can't be opened",
            BenchFault::Clock => "the clock can't be read",
            BenchFault::Answer => "a call has a wrong answer",
            BenchFault::Output => "the output can't be written",
        }
    }

    /// The exit status: 2 for words that are refused, and else 3.
    pub(crate) fn status(self) -> u8 {
        match self {
            BenchFault::Words | BenchFault::Threads => 2,
            _ => 3,
        }
    }
}
