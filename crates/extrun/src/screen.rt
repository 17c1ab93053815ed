//! Texts on their way to a terminal.
ghost use Rattle.std.specs.Prelude.{OnOk};
ghost use Rattle.std.specs.Io.KnownBytes.{Appends};
ghost use Rattle.ext_report.specs.TerminalLines.{visible_lines};

pub(crate) use ext_report::shown_text;
use ext_report::write_visible_lines;
use std::alloc::Global;
use std::io::{self, ErrorKind, Write};

/// A writer of texts. If it is for a terminal, it holds what it is given until it is flushed, and
/// then passes it on with each control character but line feeds escaped, so that no text gives an
/// order to the terminal. That takes memory; if it is refused, or the text is not UTF-8, the write
/// fails. Otherwise it passes on what it is given, at once and as it is, and keeps whether that was
/// refused since nobody reads the pipe any more.
#[derive(Drop)]
pub(crate) struct Screen<W> {
    alloc: Global,
    writer: W,
    held: Vec<u8>,
    for_terminal: bool,
    is_broken: bool,
}

impl<W> Screen<W> {
    /// A writer that holds nothing yet and passes on to `writer`.
    pub(crate) fn new(alloc: Global, writer: W, for_terminal: bool) -> Screen<W> {
        Screen {
            alloc,
            writer,
            held: Vec::new(alloc),
            for_terminal,
            is_broken: false,
        }
    }

    /// Tests whether a write failed since nobody reads the pipe any more.
    pub(crate) fn is_broken(&self) -> bool {
        self.is_broken
    }
}

impl<W: Write> Write for Screen<W> {
    ghost use Rattle.std.specs.Prelude.{None, if◌then◌else◌};

    // What it holds for a terminal is passed on later, and in another form.
    ghost contents = { λ s. if s.for_terminal then None else W.contents s.writer };

    fn write(&mut self, bytes: &[u8]) -> io::Result<usize> {
        if self.for_terminal {
            return self.held.write(bytes);
        }
        match self.writer.write(bytes) {
            Ok(count) => Ok(count),
            Err(cause) => {
                self.is_broken = is_broken_pipe(&cause);
                Err(cause)
            }
        }
    }

    fn flush(&mut self) -> io::Result<()> {
        if self.for_terminal {
            show(self.alloc, &mut self.writer, self.held.as_slice())?;
            self.held.clear();
        }
        self.writer.flush()
    }
}

/// Tests whether a write failed since nobody reads the pipe any more.
pub(crate) fn is_broken_pipe(cause: &io::Error) -> bool {
    cause.kind() == ErrorKind::BrokenPipe
}

/// Writes lines with each control character escaped but their line feeds.
fn show<W: Write>(alloc: Global, writer: &mut W, lines: &[u8]) -> io::Result<()>
    ensures { OnOk result (Appends (W.contents writer.old) (W.contents writer.new) (visible_lines lines.now)) }
{
    let Ok(lines) = std::str::from_utf8(lines) else {
        return Err(io::Error::from(ErrorKind::InvalidData));
    };
    let mut shown = String::new(alloc);
    write_visible_lines(&mut shown, lines)?;
    writer.write_all(shown.as_bytes())
}
