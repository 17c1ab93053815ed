//! The lines of an id that is read, and the line of one that is made of parts.
ghost use Rattle.std.specs.Io.KnownBytes.{Appends};
ghost use Rattle.std.specs.Prelude.{◌≡◌, ◌≢◌, ◌++◌, false, List, map, IfOk, IfErr, IsErrOf, OnOk, MatchResult, string_bytes};
ghost use Rattle.ext_ids.specs.declared.fault.IdFault.{IdFault};
ghost use Rattle.ext_ids.specs.declared.fault.IdFault.TheVariants.{Memory};
ghost use Rattle.ext_ids.specs.Grammar.{Pair, IsId, IsIdText};
ghost use Rattle.ext_ids.specs.Faults.{HasFault};
ghost use Rattle.ext_ids.specs.Making.{pairs_of};
ghost use Rattle.ext_run.specs.IdText.{pair_line, id_line, id_lines, part_of, parts_of};
ghost use Rattle.ext_run.specs.InnerOutputs.{MakesLine};
ghost use Rattle.ext_run.specs.Requests.{IsNoId, IsIdEnd, IsNotMade};

use crate::fault::RunFault;
use crate::options::Summary;
use crate::request_fault::RequestFault;
use crate::runs::write_whole;
use ext_ids::{IdFault, PartFault, UniqueId};
use std::alloc::{AllocError, Global};
use std::io::Write;

/// Reads the id in a text and returns its lines: `TYPE VALUE` for each segment, decoded, and then
/// the id itself.
///
/// Refused for the text's first fault, I1 to I8; as `Memory` (I9) only if the text is an id. Takes
/// memory for the id and the lines.
pub fn id_text(alloc: Global, text: &str) -> Result<String, IdFault>
    ensures found { IfOk result (λ lines. (pairs : List Pair) × IsIdText text.now pairs × (string_bytes lines ≡ id_lines pairs)) }
    ensures only { (pairs : List Pair) → IsIdText text.now pairs → MatchResult result (λ lines. string_bytes lines ≡ id_lines pairs) (λ e. e ≡ Memory) }
    ensures fault { IfErr result (λ e. e ≢ Memory → HasFault text.now e) }
    ensures first { (e : IdFault) → HasFault text.now e → IsErrOf result e }
{
    let id = UniqueId::parse(alloc, text)?;
    Ok(lines_of(alloc, &id)?)
}

/// Reads the id in a text and writes its lines, as `id_text` returns them.
///
/// Refused as `Id`, with nothing written, for the first fault of a text that is no id, or if memory
/// is refused; as `Run` with `Write` if the writer fails. Takes memory and gives all of it back. It
/// waits only for the writer.
pub fn read_id<W: Write>(alloc: Global, writer: &mut W, text: &str) -> Result<Summary, RequestFault>
    ensures done { IfOk result (λ summary. summary.failed ≡ false) }
    ensures written { OnOk result ((pairs : List Pair)
        × IsIdText text.now pairs × Appends (W.contents writer.old) (W.contents writer.new) (id_lines pairs)) }
    ensures only { (pairs : List Pair) → IsIdText text.now pairs → IsIdEnd result }
    ensures fault { IfErr result (λ fault. IsNoId text.now fault) }
    ensures first { (e : IdFault) → HasFault text.now e → IsErrOf result (RequestFault.Id e) }
    ensures unwritten { IfErr result (λ fault. fault ≢ RequestFault.Run RunFault.Write → writer.new ≡ writer.old) }
{
    let lines = match id_text(alloc, text) {
        Ok(lines) => lines,
        Err(fault) => return Err(RequestFault::Id(fault)),
    };
    if write_whole(writer, lines.as_bytes()).is_err() {
        return Err(RequestFault::Run(RunFault::Write));
    }
    Ok(Summary::done())
}

/// Makes the id of parts, each a word `TYPE=VALUE`, and writes it with a line feed, its marks
/// escaped. A word's type ends before its first `=`, and a word without one has no value.
///
/// Refused as `Parts`, with nothing written, for the first fault of words that make no id, or if
/// memory is refused, which may be before that; as `Run` with `Write` if the writer fails. Takes
/// memory and gives all of it back. It waits only for the writer.
pub fn make_id<W: Write>(
    alloc: Global,
    writer: &mut W,
    words: &[String],
) -> Result<Summary, RequestFault>
    ensures done { IfOk result (λ summary. summary.failed ≡ false) }
    ensures written { OnOk result (IsId (parts_of (map string_bytes words.now))
        × Appends (W.contents writer.old) (W.contents writer.new) (id_line (parts_of (map string_bytes words.now)))) }
    ensures fault { IfErr result (λ fault. IsNotMade (parts_of (map string_bytes words.now)) fault) }
    ensures unwritten { IfErr result (λ fault. fault ≢ RequestFault.Run RunFault.Write → writer.new ≡ writer.old) }
{
    let line = match made_line(alloc, words) {
        Ok(line) => line,
        Err(fault) => return Err(RequestFault::Parts(fault)),
    };
    if write_whole(writer, line.as_bytes()).is_err() {
        return Err(RequestFault::Run(RunFault::Write));
    }
    Ok(Summary::done())
}

/// The line of the id that these words make.
fn made_line(alloc: Global, words: &[String]) -> Result<String, PartFault>
    ensures { MakesLine string_bytes (parts_of (map string_bytes words.now)) result }
{
    let parts = parts_of(alloc, words)?;
    let id = UniqueId::from_parts(alloc, parts.as_slice())?;
    Ok(line_of(alloc, &id)?)
}

/// The parts that words have.
fn parts_of<'a>(alloc: Global, words: &'a [String]) -> Result<Vec<(&'a str, &'a str)>, AllocError>
    ensures { IfOk result (λ parts. pairs_of parts.items ≡ parts_of (map string_bytes words.now)) }
{
    let mut parts = Vec::new(alloc);
    for word in words {
        parts.push(part_of(word.as_str()))?;
    }
    Ok(parts)
}

/// The type and the value of a word `TYPE=VALUE`.
fn part_of(word: &str) -> (&str, &str)
    ensures { (result.0.now, result.1.now) ≡ part_of word.now }
{
    match word.split_once('=') {
        Some(part) => part,
        None => (word, ""),
    }
}

fn line_of(alloc: Global, id: &UniqueId) -> Result<String, AllocError>
    ensures { IfOk result (λ line. string_bytes line ≡ id_line id.now) }
{
    let mut line = String::new(alloc);
    id.write_to(&mut line)?;
    line.push('\n')?;
    Ok(line)
}

fn lines_of(alloc: Global, id: &UniqueId) -> Result<String, AllocError>
    ensures { IfOk result (λ lines. string_bytes lines ≡ id_lines id.now) }
{
    let mut lines = String::new(alloc);
    for i in 0..id.len() {
        write_pair(&mut lines, id.segment(i))?;
    }
    id.write_to(&mut lines)?;
    lines.push('\n')?;
    Ok(lines)
}

/// Writes the line of a segment at the end of a text.
fn write_pair(text: &mut String, pair: (&str, &str)) -> Result<(), AllocError>
    ensures { OnOk result (string_bytes text.new ≡ string_bytes text.old ++ pair_line (pair.entry.0.now, pair.entry.1.now)) }
{
    text.push_str(pair.0)?;
    text.push(' ')?;
    text.push_str(pair.1)?;
    text.push('\n')
}
