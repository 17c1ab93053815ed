//! Texts on their way to a terminal.
use crate::ending::Ending;
use ext_report::{shown_text, write_visible_lines};
use std::alloc::{AllocError, Global};
use std::io::{self, IsTerminal};

/// Prints why not all was done that was asked for, behind the name of the program, with control
/// characters escaped. Answers how the program ends.
pub(crate) fn not_run(rt: &HostRuntime, name: &str, why: Result<String, AllocError>) -> Ending {
    match line_of(rt.alloc(), name, why) {
        Ok(line) => {
            let _ = eprint!(rt; "{}", line.as_str());
        }
        Err(_) => {
            let _ = eprintln!(rt; "{name}: out of memory");
        }
    }
    Ending::NotRun
}

fn line_of(
    alloc: Global,
    name: &str,
    why: Result<String, AllocError>,
) -> Result<String, AllocError> {
    let why = why?;
    let mut line = String::new(alloc);
    line.push_str(name)?;
    line.push_str(": ")?;
    write_visible_lines(&mut line, why.as_str())?;
    line.push('\n')?;
    Ok(line)
}

/// Prints lines on standard output, at a terminal with their control characters escaped.
pub(crate) fn print_lines(rt: &HostRuntime, lines: String) -> io::Result<()> {
    let shown = shown_text(rt.alloc(), lines, rt.stdout().is_terminal())?;
    print!(rt; "{}", shown.as_str())
}
