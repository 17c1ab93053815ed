//! A text that is made once by the processes of a run.
ghost use Rattle.std.specs.Prelude.{◌≡◌, ◌↔◌, Err, IfErr, IfOk, IsErrAnd, IsFalse, IsTrue, Ok};
ghost use Rattle.ext_shared.specs.Making.{IfNotMade, IsNameFault};
ghost use Rattle.ext_shared.specs.Names.{is_text_name};

use crate::files::{add_line, is_at, open_to_lock, open_to_write, standing};
use crate::is_text_name;
use std::alloc::AllocError;
use std::fmt::{self, Display, Formatter};
use std::fs::{self, File};
use std::io::{self, ErrorKind};

/// A text that the processes of a run share.
#[derive(Debug, Drop, PartialEq, Eq)]
pub struct SharedText {
    pub text: String,
    /// Whether this call made it.
    pub is_new: bool,
}

/// Why there is no text of a name.
#[derive(Debug, Drop)]
pub enum SharedFault<E> {
    /// No text may have this name (`is_text_name`).
    Name,
    /// A file of the folder was not read, written or locked; so it is once the run is closed.
    Folder(io::Error),
    /// It was to be made, and was not.
    Make(E),
}

impl<E> Display for SharedFault<E> {
    fn fmt<W: fmt::Write>(&self, f: &mut Formatter<W>) -> fmt::Result {
        match self {
            SharedFault::Name => f.write_str(
                "a shared text's name has 1 to 64 of a-z, A-Z, 0-9, - and _",
            ),
            SharedFault::Folder(why) => write!(f, "the folder of shared texts: {why}"),
            SharedFault::Make(_) => f.write_str("the shared text was not made"),
        }
    }
}

impl<E> From<io::Error> for SharedFault<E> {
    ghost use Rattle.std.specs.Prelude.{◌≡◌};
    ghost use Rattle.ext_shared.specs.declared.sharing.SharedFault.TheVariants as faults;

    ghost from_gives = { λ why fault. fault ≡ faults.Folder why };

    fn from(why: io::Error) -> SharedFault<E> {
        SharedFault::Folder(why)
    }
}

impl<E> From<AllocError> for SharedFault<E> {
    ghost use Rattle.std.specs.Prelude.{◌≡◌};
    ghost use Rattle.std.specs.declared.io.Error.{Error};
    ghost use Rattle.ext_shared.specs.declared.sharing.SharedFault.TheVariants as faults;

    ghost from_gives = { λ _ fault. (why : Error) × (fault ≡ faults.Folder why) };

    fn from(_why: AllocError) -> SharedFault<E> {
        SharedFault::Folder(io::Error::from(ErrorKind::OutOfMemory))
    }
}

/// The text of this name in the folder of a run: that which stands there, or else what `make` gives.
/// Of the processes and threads that come at once one makes it, and the others wait; where that one
/// fails or is killed, the next makes it. Takes memory, and may wait.
///
/// The system holds the locks, and gives them back when a process dies. A process that is killed or
/// cannot write after `make` has started something, and before the text stands, leaves that behind, and
/// nobody closes it. `make` may ask for other texts of the folder; two that ask for each other's wait
/// for ever.
pub fn shared_text<E: Drop, F: FnOnce() -> Result<String, E>>(
    rt: &HostRuntime,
    folder: &str,
    name: &str,
    make: F,
) -> Result<SharedText, SharedFault<E>>
    requires { F.pre make }
    ensures made { IfOk result (λ shared. IsTrue shared.is_new → F.post make (Ok shared.text)) }
    ensures not_made { IfErr result (λ why. IfNotMade why (λ fault. F.post make (Err fault))) }
    ensures name { IsErrAnd result IsNameFault ↔ IsFalse (is_text_name name.now) }
{
    if !is_text_name(name) {
        return Err(SharedFault::Name);
    }
    let value = format!(in rt.alloc(); "{folder}/{name}")?;
    match standing(rt, value.as_str())? {
        Some(text) => Ok(found(text)),
        None => made(rt, folder, name, value.as_str(), make),
    }
}

/// The same, with the locks: that on the folder keeps its close out.
fn made<E: Drop, F: FnOnce() -> Result<String, E>>(
    rt: &HostRuntime,
    folder: &str,
    name: &str,
    value: &str,
    make: F,
) -> Result<SharedText, SharedFault<E>>
    requires { F.pre make }
    ensures made { IfOk result (λ shared. IsTrue shared.is_new → F.post make (Ok shared.text)) }
    ensures not_made { IfErr result (λ why. IfNotMade why (λ fault. F.post make (Err fault))) }
    ensures name { ¬ IsErrAnd result IsNameFault }
{
    let _using = held_folder(rt, folder)?;
    let _lock = held_name(rt, folder, name, value)?;
    // Whoever held it before may have made the text.
    if let Some(text) = standing(rt, value)? {
        return Ok(found(text));
    }
    let text = match make() {
        Ok(text) => text,
        Err(why) => return Err(SharedFault::Make(why)),
    };
    write(rt, folder, name, value, text.as_str())?;
    Ok(SharedText { text, is_new: true })
}

fn found(text: String) -> SharedText
    ensures { IsFalse result.is_new }
{
    SharedText {
        text,
        is_new: false,
    }
}

/// The folder with its lock, which makers share.
fn held_folder(rt: &HostRuntime, folder: &str) -> io::Result<File> {
    let using = open_to_lock(rt, folder)?;
    using.lock_shared()?;
    if is_at(rt, &using, folder)? {
        Ok(using)
    } else {
        // It was closed meanwhile, and may have been made anew.
        Err(io::Error::from(ErrorKind::NotFound))
    }
}

/// The file that keeps other makers of this text out, with its lock.
fn held_name(rt: &HostRuntime, folder: &str, name: &str, value: &str) -> io::Result<File> {
    let line = format!(in rt.alloc(); "{name}.lock")?;
    add_line(rt, folder, line.as_str())?;
    let path = format!(in rt.alloc(); "{value}.lock")?;
    let lock = open_to_write(rt, path.as_str())?;
    lock.lock()?;
    Ok(lock)
}

/// Writes the text: all of it stands there, or nothing. Its place in the order of the closes comes
/// first, so that none stands without one.
fn write(rt: &HostRuntime, folder: &str, name: &str, value: &str, text: &str) -> io::Result<()> {
    let part = format!(in rt.alloc(); "{value}.part")?;
    fs::write(rt, part.as_str(), text)?;
    add_line(rt, folder, name)?;
    fs::rename(rt, part.as_str(), value)
}
