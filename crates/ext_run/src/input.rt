//! Reading a plan's bytes.
ghost use Rattle.std.specs.Prelude.{◌≡◌, ℕ, ◌+◌, ◌<◌, ◌≤◌, List, length, vec_len, IfOk, IfErr, IfSome, Err};
ghost use Rattle.std.specs.Io.KnownBytes.{Consumes};
ghost use Rattle.ext_run.specs.Reports.{input_limit, IsReadFault};
ghost use Rattle.ext_run.specs.InnerOutputs.{Reads};

use crate::fault::RunFault;
use ext_model::Size;
use std::alloc::Global;
use std::io::Read;

/// How many bytes are read at a time.
const CHUNK: usize = 4096;

/// Reads the bytes of a plan of this size to their end, as `run` and `check` do first. A plan of
/// usual size has at most 1,048,576 bytes, a large one 67,108,864, and at most one byte more is
/// read. Takes memory for what it reads.
///
/// Refused as `Read` if a read fails, which ends the reading, as `TooLong` if there are more bytes,
/// and as `Memory` if memory for them is refused. It waits only for the reader.
pub fn read_input<R: Read>(alloc: Global, reader: &mut R, size: Size) -> Result<Vec<u8>, RunFault>
    ensures whole { IfOk result (λ bytes. IfSome (R.remaining reader.old) (λ input. bytes.items ≡ input)) }
    ensures short { IfOk result (λ bytes. length bytes.items ≤ input_limit size) }
    ensures long { result ≡ Err RunFault.TooLong
        → IfSome (R.remaining reader.old) (λ input. input_limit size < length input) }
    ensures taken { (bytes : List ℕ) × (length bytes ≤ input_limit size + 1)
        × Consumes (R.remaining reader.old) (R.remaining reader.new) bytes }
    ensures faults { IfErr result IsReadFault }
{
    let limit = input_limit(size);
    let mut input = Vec::new(alloc);
    // Each turn but the last reads at least a byte, so this many turns always suffice.
    for _ in 0..=limit {
        let count = read_more(reader, &mut input, limit)?;
        if count == 0 {
            return Ok(input);
        }
    }
    Err(RunFault::TooLong)
}

/// How many bytes a plan of this size has at most: 1,048,576 of usual size, and 67,108,864 of a large
/// one. JUnit has no plans.
pub fn input_limit(size: Size) -> usize
    ensures { result ≡ input_limit size }
{
    match size {
        Size::Usual => 1_048_576,
        Size::Large => 67_108_864,
    }
}

/// Reads some more bytes of at most `limit`, none only at the end, and returns how many.
fn read_more<R: Read>(reader: &mut R, input: &mut Vec<u8>, limit: usize) -> Result<usize, RunFault>
    requires { vec_len input.old ≤ limit }
    ensures { Reads limit (R.remaining reader.old) (R.remaining reader.new) input.old.items input.new.items result }
{
    let mut chunk = [0u8; CHUNK];
    // One byte past the limit distinguishes an input that is too long from one that just fits.
    let room = (limit - input.len()).min(CHUNK - 1) + 1;
    let count = match reader.read(&mut chunk[..room]) {
        Ok(count) => count,
        Err(_) => return Err(RunFault::Read),
    };
    input.extend_from_slice(&chunk[..count])?;
    if input.len() > limit {
        return Err(RunFault::TooLong);
    }
    Ok(count)
}
