//! In which order texts are closed, and by whom.
ghost use Rattle.std.specs.Prelude.{◌≡◌, ◌&&◌, IfOk, map, not};
ghost use Rattle.std.specs.Str.Lines.{lines};
ghost use Rattle.std.specs.List.{list_any};
ghost use Rattle.std.specs.Str.{bytes_eq};
ghost use Rattle.ext_shared.specs.Closing.{closing_order, with_name};
ghost use Rattle.ext_shared.specs.Names.{is_text_name};

use crate::is_text_name;
use std::alloc::{AllocError, Global};

/// Ends what shared texts stand for, as a server.
pub trait TextCloser {
    ghost use Rattle.std.specs.Prelude.{ℕ, List};

    /// What becomes of the closer with the end of a text: anything, unless it says otherwise.
    ghost closes: { Self → List ℕ → List ℕ → Self → Type 0 } = { λ before name text after. Unit {0} };

    /// Ends what the text of this name stands for, and notes a fault where there is one. It comes again
    /// for a text where the process was killed during a call or right behind it, or where the text's
    /// file was not removed.
    fn close_text(&mut self, rt: &HostRuntime, name: &str, text: &str)
        ensures { closes self.old name.now text.now self.new };
}

/// The names of texts as they are closed, by lines in the order in which they were made: the latest
/// first, each once.
pub(crate) fn closing_order<'a>(alloc: Global, made: &'a str) -> Result<Vec<&'a str>, AllocError>
    ensures { IfOk result (λ order. map (λ name. name.now) order.items ≡ closing_order (lines made.now)) }
{
    let lines = lines_of(alloc, made)?;
    let mut order = Vec::new(alloc);
    for index in (0..lines.len()).rev() {
        add(&mut order, lines[index])?;
    }
    Ok(order)
}

fn lines_of<'a>(alloc: Global, text: &'a str) -> Result<Vec<&'a str>, AllocError>
    ensures { IfOk result (λ all. map (λ line. line.now) all.items ≡ lines text.now) }
{
    text.lines().collect(alloc)
}

/// Adds a name behind those that are there, unless it is there or is none.
fn add<'a>(order: &mut Vec<&'a str>, name: &'a str) -> Result<(), AllocError>
    ensures { IfOk result (λ _. map (λ n. n.now) order.new.items ≡ with_name (map (λ n. n.now) order.old.items) name.now) }
{
    if is_new(order.as_slice(), name) {
        order.push(name)?;
    }
    Ok(())
}

/// Whether this is a name, and none of these.
fn is_new(names: &[&str], name: &str) -> bool
    ensures { result ≡ (is_text_name name.now && not (list_any (λ other. bytes_eq name.now other.now) names.now)) }
{
    is_text_name(name) && !is_there(names, name)
}

/// Whether a name is one of these.
fn is_there(names: &[&str], name: &str) -> bool
    ensures { result ≡ list_any (λ other. bytes_eq name.now other.now) names.now }
{
    names.iter().any(|other| name == *other)
}
