//! Readers and writers that do little at a time, or fail.
use std::io::{Error, ErrorKind, Read, Result, Write};

/// Gives one byte per read, and fails once it has given `good` of them, if it fails at all.
#[derive(Drop)]
pub struct SlowReader<'a> {
    pub bytes: &'a [u8],
    pub good: Option<usize>,
}

impl Read for SlowReader<'_> {
    fn read(&mut self, buf: &mut [u8]) -> Result<usize> {
        match self.good {
            Some(0) => return Err(Error::from(ErrorKind::Other)),
            Some(good) => self.good = Some(good - 1),
            None => {}
        }
        match (self.bytes.split_first(), buf.first_mut()) {
            (Some((byte, others)), Some(place)) => {
                *place = *byte;
                self.bytes = others;
                Ok(1)
            }
            _ => Ok(0),
        }
    }
}

/// Takes one byte per write, and fails, or takes nothing, once it has taken `good` of them, if it
/// does at all.
#[derive(Drop)]
pub struct SlowWriter {
    pub written: Vec<u8>,
    pub good: Option<usize>,
    pub takes_nothing: bool,
}

impl Write for SlowWriter {
    fn write(&mut self, buf: &[u8]) -> Result<usize> {
        match self.good {
            Some(0) if self.takes_nothing => return Ok(0),
            Some(0) => return Err(Error::from(ErrorKind::Other)),
            Some(good) => self.good = Some(good - 1),
            None => {}
        }
        match buf.first() {
            Some(byte) => {
                self.written
                    .push(*byte)
                    .map_err(|_| Error::from(ErrorKind::OutOfMemory))?;
                Ok(1)
            }
            None => Ok(0),
        }
    }

    fn flush(&mut self) -> Result<()> {
        Ok(())
    }
}

/// Takes all, and fails when it is to hand it on.
#[derive(Drop)]
pub struct UnflushedWriter;

impl Write for UnflushedWriter {
    fn write(&mut self, buf: &[u8]) -> Result<usize> {
        Ok(buf.len())
    }

    fn flush(&mut self) -> Result<()> {
        Err(Error::from(ErrorKind::Other))
    }
}
