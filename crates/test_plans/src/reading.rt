//! A reader that goes on after a fault, and one of long inputs.
use crate::rows::{FOUR_LANES, chain};
use crate::same::same;
use ext_run::{RunFault, Size, read_input, run};
use std::alloc::Global;
use std::io::{Error, ErrorKind, Read, Result as IoResult};
use std::test::Fail;

/// Fails at the first read, and then gives a whole plan.
#[derive(Drop)]
struct RecoveringReader<'a> {
    failed: bool,
    bytes: &'a [u8],
}

impl Read for RecoveringReader<'_> {
    fn read(&mut self, buf: &mut [u8]) -> IoResult<usize> {
        if !self.failed {
            self.failed = true;
            return Err(Error::from(ErrorKind::Interrupted));
        }
        self.bytes.read(buf)
    }
}

/// A read fails that would go well the second time, and the run is refused as `Read` without
/// another.
/// Tests `read_input`.
#[test]
fn first_failing_read_ends_the_run(rt: HostRuntime) -> Result<(), Fail> {
    let plan = chain(rt.alloc(), "\"put a x\"")?;
    let mut reader = RecoveringReader {
        failed: false,
        bytes: plan.as_bytes(),
    };
    let mut written = Vec::new(rt.alloc());
    let first = run(&rt, rt.alloc(), &mut reader, &mut written, FOUR_LANES);
    same(&rt, first, Err(RunFault::Read), "the answer");
    same(&rt, written.len(), 0, "what is written");
    same(&rt, reader.bytes.len(), plan.len(), "what is left to read");
    Ok(())
}

/// Gives so many line feeds.
#[derive(Drop)]
struct LineFeeds {
    left: usize,
}

impl Read for LineFeeds {
    fn read(&mut self, buf: &mut [u8]) -> IoResult<usize> {
        let count = buf.len().min(self.left);
        for place in buf.iter_mut().take(count) {
            *place = b'\n';
        }
        self.left -= count;
        Ok(count)
    }
}

/// How many of so many bytes are read of a plan of this size, or why it is refused.
fn length_read(alloc: Global, left: usize, size: Size) -> Result<usize, RunFault> {
    let mut reader = LineFeeds { left };
    let input = read_input(alloc, &mut reader, size)?;
    Ok(input.len())
}

/// Numbers of bytes and how large a plan may be, with what is answered. The limit of a large one is
/// reached by files (scripts/examples).
const LENGTHS: [(usize, Size, Result<usize, RunFault>); 3] = [
    (1_048_576, Size::Usual, Ok(1_048_576)),
    (1_048_577, Size::Usual, Err(RunFault::TooLong)),
    (1_048_577, Size::Large, Ok(1_048_577)),
];

/// An input of the usual size is refused from 1,048,577 bytes on as `TooLong`, and a large one is
/// not.
/// Tests `read_input`.
#[test]
fn bytes_are_few_for_the_size(rt: HostRuntime) -> Result<(), Fail> {
    for (count, size, wanted) in &LENGTHS {
        let answer = length_read(rt.alloc(), *count, *size);
        same(&rt, answer, *wanted, "how many bytes are read");
    }
    Ok(())
}
