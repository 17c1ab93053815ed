//! What became of a case's calls.

/// What became of a case's calls.
#[derive(Clone, Copy)]
pub(crate) enum Outcome {
    /// Each was answered in full.
    Whole,
    /// One was answered with want of memory, and then all was as it has to be.
    NoMemory,
    /// A report was written that says so of a step.
    NoMemoryTold,
    /// An allocation was refused before the case began.
    Early,
    /// An answer is wrong, or what has to hold after a refused call does not.
    Wrong(&'static str),
}

impl Outcome {
    /// Whole where all was right.
    pub(crate) fn of(right: bool, wrong: &'static str) -> Outcome {
        if right {
            Outcome::Whole
        } else {
            Outcome::Wrong(wrong)
        }
    }

    /// The first outcome of calls of which one was answered with want of memory, where this is what
    /// became of them once they were made again: since one allocation alone is refused, they find
    /// memory then.
    pub(crate) fn after(self, first: Outcome) -> Outcome {
        match self {
            Outcome::Whole => first,
            Outcome::Wrong(wrong) => Outcome::Wrong(wrong),
            _ => Outcome::Wrong("a call wants memory though none is refused"),
        }
    }

    /// The same of calls that were first answered with want of memory alone.
    pub(crate) fn again(self) -> Outcome {
        self.after(Outcome::NoMemory)
    }

    /// The outcome of both: what is wrong comes first, and then want of memory.
    pub(crate) fn and(self, other: Outcome) -> Outcome {
        match (self, other) {
            (Outcome::Whole, _) | (_, Outcome::Wrong(_)) => other,
            _ => self,
        }
    }

    /// The line that says it, and the exit status.
    pub(crate) fn told(self) -> (&'static str, u8) {
        match self {
            Outcome::Whole => ("ok", 0),
            Outcome::NoMemory => ("no memory", 0),
            Outcome::NoMemoryTold => ("no memory in its report", 0),
            Outcome::Early => ("no memory before the case", 3),
            Outcome::Wrong(wrong) => (wrong, 1),
        }
    }
}
