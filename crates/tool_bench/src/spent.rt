//! What was spent on operations.
use crate::fault::BenchFault;
use std::fmt::{self, Display, Formatter, Write};
use std::time::{Clock, CpuClock, Duration, Instant};

/// What was spent on operations, and from when to when.
#[derive(Clone, Copy)]
pub(crate) struct Span {
    started: Instant,
    ended: Instant,
    processor: Duration,
    operations: u64,
}

/// Whose processor time is counted.
#[derive(Clone, Copy)]
enum Whose {
    /// That of the thread that reads the clocks.
    Thread,
    /// That of all threads of the process.
    Process,
}

impl Whose {
    /// How much of it was spent so far.
    fn time<R: CpuClock>(self, rt: &R) -> Result<Duration, BenchFault> {
        let time = match self {
            Whose::Thread => rt.thread_cpu_time(),
            Whose::Process => rt.process_cpu_time(),
        };
        time.or(Err(BenchFault::Clock))
    }
}

/// Clocks, started.
#[derive(Clone, Copy)]
pub(crate) struct Started {
    whose: Whose,
    wall: Instant,
    processor: Duration,
}

impl Started {
    /// Reads the clocks of this thread.
    pub(crate) fn now<R: Clock + CpuClock>(rt: &R) -> Result<Started, BenchFault> {
        Started::of(rt, Whose::Thread)
    }

    /// Reads those of all threads.
    pub(crate) fn now_of_all<R: Clock + CpuClock>(rt: &R) -> Result<Started, BenchFault> {
        Started::of(rt, Whose::Process)
    }

    fn of<R: Clock + CpuClock>(rt: &R, whose: Whose) -> Result<Started, BenchFault> {
        let processor = whose.time(rt)?;
        let wall = Instant::now(rt).or(Err(BenchFault::Clock))?;
        Ok(Started {
            whose,
            wall,
            processor,
        })
    }

    /// Reads them again after so many operations.
    pub(crate) fn end<R: Clock + CpuClock>(
        self,
        rt: &R,
        operations: u64,
    ) -> Result<Span, BenchFault> {
        let ended = Instant::now(rt).or(Err(BenchFault::Clock))?;
        let processor = self.whose.time(rt)?;
        Ok(Span {
            started: self.wall,
            ended,
            processor: processor.saturating_sub(self.processor),
            operations,
        })
    }
}

/// What threads spent in all.
#[derive(Clone, Copy)]
pub(crate) struct Spent {
    wall: Duration,
    processor: Duration,
    pub(crate) operations: u64,
}

impl Spent {
    /// Nothing.
    pub(crate) fn nothing() -> Spent {
        Spent {
            wall: Duration::ZERO,
            processor: Duration::ZERO,
            operations: 0,
        }
    }

    /// The same and what threads spent side by side: the wall's time is from the first start to the
    /// last end.
    pub(crate) fn and(self, spans: &[Span]) -> Spent {
        let Some(first) = spans.first() else {
            return self;
        };
        let (mut all, mut started, mut ended) = (self, first.started, first.ended);
        for span in spans {
            started = started.min(span.started);
            ended = ended.max(span.ended);
            all.processor = all.processor.saturating_add(span.processor);
            all.operations = all.operations.saturating_add(span.operations);
        }
        all.wall = all.wall.saturating_add(ended.duration_since(started));
        all
    }

    /// Whether at least so many milliseconds of the wall's time were spent.
    pub(crate) fn is_over(&self, millis: u32) -> bool {
        self.wall >= Duration::from_millis(u64::from(millis))
    }

    /// Nanoseconds of the wall's time an operation.
    pub(crate) fn wall_each(&self) -> Nanoseconds {
        Nanoseconds::each(self.wall, self.operations)
    }

    /// Nanoseconds of processor time an operation.
    pub(crate) fn processor_each(&self) -> Nanoseconds {
        Nanoseconds::each(self.processor, self.operations)
    }
}

/// Nanoseconds, in tenths.
#[derive(Clone, Copy)]
pub(crate) struct Nanoseconds {
    tenths: u64,
}

impl Nanoseconds {
    /// The time of one of so many operations, rounded down to a tenth.
    fn each(time: Duration, operations: u64) -> Nanoseconds {
        let tenths = time.as_nanos().saturating_mul(10) / u128::from(operations.max(1));
        Nanoseconds {
            tenths: u64::try_from(tenths).unwrap_or(u64::MAX),
        }
    }
}

impl Display for Nanoseconds {
    fn fmt<W: Write>(&self, f: &mut Formatter<W>) -> fmt::Result {
        let (whole, tenth) = (self.tenths / 10, self.tenths % 10);
        write!(f, "{whole}.{tenth}")
    }
}
