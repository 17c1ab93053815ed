//! Why a soak ends before its rounds are made.

/// Why a soak ends before its rounds are made. Own rule.
#[derive(Clone, Copy)]
pub(crate) enum SoakFault {
    /// The words of the command line are none of the usage.
    Words,
    /// An allocation failed, or a store was not opened.
    Memory,
    /// The output can't be written.
    Output,
    /// The clock can't be read.
    Clock,
    /// Two lanes of a race did not find each other in time.
    Late,
    /// A call gave an answer that it can't give there.
    Answer,
    /// Two factories ran for one place at once, or two values were computed or faults kept there
    /// without a remove between them.
    TwoFactories,
    /// A factory ran though its lane looked at an ancestor's value after it had claimed.
    AncestorMissed,
    /// A factory ran, and its value or its fault does not stand.
    Lost,
    /// A number was drawn twice or never, or stored twice, or a lane's numbers fell.
    Numbers,
    /// A value or a kept fault was replaced, removed or closed twice, or where it did not stand.
    LeftTwice,
    /// A closeable value that stood at the end was not closed.
    NotClosed,
    /// A close gave its action a value that is not closeable, or the number of a fault, or not the
    /// latest first, or was refused after that.
    Closed,
    /// A look-up was absent, or met a kept fault, while one of its cells had a value all along.
    Missed,
    /// A look-up found a number that was never stored there, or one behind the number that it had
    /// found before, or a fault that another factory gave.
    Misplaced,
    /// A context that is closed has an open place.
    Open,
    /// A key had two numbers, or one in one lane and none in another, or a number two keys.
    Keys,
}

impl SoakFault {
    /// What is said of it.
    pub(crate) fn text(self) -> &'static str {
        match self {
            SoakFault::Words => "the words are not understood; --help tells them",
            SoakFault::Memory => "there is no memory",
            SoakFault::Output => "the output can't be written",
            SoakFault::Clock => "the clock can't be read",
            SoakFault::Late => "a lane did not come in time",
            SoakFault::Answer => "a call has a wrong answer",
            SoakFault::TwoFactories => "a place had two factories",
            SoakFault::AncestorMissed => "a factory ran beside an ancestor's value",
            SoakFault::Lost => "what a factory gave is gone",
            SoakFault::Numbers => "the numbers are not drawn and stored one after another",
            SoakFault::LeftTwice => "a value left twice, or left where it did not stand",
            SoakFault::NotClosed => "a value was not closed",
            SoakFault::Closed => "a close gave its action what it may not",
            SoakFault::Missed => "a look-up missed a value that always stood",
            SoakFault::Misplaced => "a look-up found what did not stand there",
            SoakFault::Open => "a closed context is open",
            SoakFault::Keys => "a key has two numbers, or a number two keys",
        }
    }

    /// The exit status: 2 for words that are refused, 3 where the soak could not be made, and 1
    /// where a reply is wrong.
    pub(crate) fn status(self) -> u8 {
        match self {
            SoakFault::Words => 2,
            SoakFault::Memory | SoakFault::Output | SoakFault::Clock => 3,
            _ => 1,
        }
    }
}
