//! The files of a folder, and the locks on them.
//!
//! The owner of a run has the lock of `texts.order`, by which others see that the run lives. Who makes
//! a text shares the lock of the folder, and who closes the folder has it alone.
ghost use Rattle.std.specs.Prelude.{◌≡◌, ◌++◌, codes, string_bytes, IfOk};

use std::alloc::{AllocError, Global};
use std::fs::{self, File, OpenOptions, TryLockError};
use std::io::{self, ErrorKind, Write};
use std::os::unix::fs::MetadataExt;

/// The path of the file that lists what a folder holds, in order: a line `NAME.lock` before that file
/// is made, and a line `NAME` before a text stands. A folder without it is none of a run.
pub(crate) fn order_path(alloc: Global, folder: &str) -> Result<String, AllocError>
    ensures { IfOk result (λ path. string_bytes path ≡ folder.now ++ codes "/texts.order") }
{
    format!(in alloc; "{folder}/texts.order")
}

/// The open file or folder, for the locks on it.
pub(crate) fn open_to_lock(rt: &HostRuntime, path: &str) -> io::Result<File> {
    OpenOptions::new().read(true).open(rt, path)
}

/// The open file to write to, which is made where it is missing.
pub(crate) fn open_to_write(rt: &HostRuntime, path: &str) -> io::Result<File> {
    OpenOptions::new().append(true).create(true).open(rt, path)
}

/// A file or folder with its lock, unless another process has that or there is none.
pub(crate) fn held_alone(rt: &HostRuntime, path: &str) -> io::Result<Option<File>> {
    let file = match open_to_lock(rt, path) {
        Ok(file) => file,
        Err(why) if is_missing(&why) => return Ok(None),
        Err(why) => return Err(why),
    };
    match file.try_lock() {
        Ok(()) => Ok(Some(file)),
        Err(TryLockError::WouldBlock) => Ok(None),
        Err(TryLockError::Error(why)) => Err(why),
    }
}

/// Whether this open file still has its path: another of the same name may stand there since.
pub(crate) fn is_at(rt: &HostRuntime, file: &File, path: &str) -> io::Result<bool> {
    let there = match fs::metadata(rt, path) {
        Ok(there) => there,
        Err(why) if is_missing(&why) => return Ok(false),
        Err(why) => return Err(why),
    };
    let here = file.metadata()?;
    Ok(here.ino() == there.ino() && here.dev() == there.dev())
}

fn is_missing(why: &io::Error) -> bool {
    matches!(why.kind(), ErrorKind::NotFound | ErrorKind::NotADirectory)
}

/// What stands in this file, if there is one.
pub(crate) fn standing(rt: &HostRuntime, value: &str) -> io::Result<Option<String>> {
    match fs::read_to_string(rt, value) {
        Ok(text) => Ok(Some(text)),
        Err(why) if why.kind() == ErrorKind::NotFound => Ok(None),
        Err(why) => Err(why),
    }
}

/// Adds a line to the list. It begins with the end of a line, since the one before it may be cut off
/// by a kill or a full disk.
pub(crate) fn add_line(rt: &HostRuntime, folder: &str, line: &str) -> io::Result<()> {
    let path = order_path(rt.alloc(), folder)?;
    let whole = format!(in rt.alloc(); "\n{line}\n")?;
    let mut order = open_to_write(rt, path.as_str())?;
    order.write_all(whole.as_bytes())
}

/// Removes a file, if there is one.
pub(crate) fn remove_if_there(rt: &HostRuntime, path: &str) -> io::Result<()> {
    match fs::remove_file(rt, path) {
        Err(why) if why.kind() == ErrorKind::NotFound => Ok(()),
        removed => removed,
    }
}
