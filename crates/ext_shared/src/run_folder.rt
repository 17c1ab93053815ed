//! The folder of a run.
ghost use Rattle.std.specs.Prelude.{◌≡◌, ◌++◌, codes, string_bytes, IfOk, ℕ, List, map};
ghost use Rattle.std.specs.List.{FoldsTo};
ghost use Rattle.ext_shared.specs.Closing.{ClosesFolder, MayClose};

use crate::closing::{TextCloser, closing_order};
use crate::files::{
    held_alone, is_at, open_to_lock, open_to_write, order_path, remove_if_there, standing,
};
use crate::is_text_name;
use std::alloc::{AllocError, Global};
use std::fs::{self, DirEntry, File};
use std::io::{self, ErrorKind};
use std::marker::Model;
use std::process;
use std::time::SystemTime;

/// How the names of folders of runs begin, once their runs hold them.
const RUN: &str = "run-";

/// How they begin until then.
const NEW: &str = "new-";

/// How often a folder is made anew that was removed meanwhile.
const TRIES: usize = 100;

/// The folder of a run, with the texts that its processes share. The process that has it owns them:
/// others use the folder by its path, and this one closes it.
#[derive(Drop)]
pub struct RunFolder {
    path: String,
    /// For the lock of who closes it.
    folder: File,
    /// The list of its texts, where there is one, with the owner's lock.
    owned: Option<File>,
}

/// A folder is its path.
impl Model for RunFolder {
    ghost use Rattle.std.specs.Prelude.{ℕ, List, string_bytes};

    ghost Value = { List ℕ };

    ghost view = { λ folder. string_bytes folder.path };
}

impl RunFolder {
    /// Makes the folder of a run that begins, among those of other runs in `root`, which may be removed
    /// whenever it is empty. No other process closes it while this one has it.
    pub fn begin(rt: &HostRuntime, root: &str) -> io::Result<RunFolder>
        ensures { IfOk result (λ folder. (rest : List ℕ) × (folder ≡ root.now ++ codes "/run-" ++ rest)) }
    {
        for _ in 0..TRIES {
            match begun(rt, root) {
                Err(why) if is_removed(&why) => {}
                begun => return begun,
            }
        }
        begun(rt, root)
    }

    /// The folder of a run that another process began, which leaves its close to this one. Waits for
    /// the end of that process where it owns the folder itself.
    pub fn open(rt: &HostRuntime, path: &str) -> io::Result<RunFolder>
        ensures { IfOk result (λ folder. folder ≡ path.now) }
    {
        let folder = open_to_lock(rt, path)?;
        let order = order_path(rt.alloc(), path)?;
        let owned = match open_to_lock(rt, order.as_str()) {
            Ok(order) => Some(order),
            Err(why) if why.kind() == ErrorKind::NotFound => None,
            Err(why) => return Err(why),
        };
        if let Some(order) = &owned {
            order.lock()?;
        }
        Ok(RunFolder {
            path: String::from_str(rt.alloc(), path)?,
            folder,
            owned,
        })
    }

    /// The path by which processes of the run reach the folder.
    pub fn path(&self) -> &str
        ensures { result.now ≡ self.now }
    {
        self.path.as_str()
    }

    /// Closes what the folder holds, the latest first, and removes it. Waits for texts that are being
    /// made. The first fault of a file is answered, which stops no other close.
    ///
    /// It removes the texts and the files of their makers, and nothing else: a folder that holds more
    /// stays, which is a fault, and so does one that holds anything and is none of a run.
    pub fn close<C: TextCloser>(self, rt: &HostRuntime, closer: &mut C) -> io::Result<()>
        ensures closes { (lines : List (List ℕ)) × ClosesFolder C.closes closer.old lines closer.new }
    {
        self.folder.lock()?;
        if !is_at(rt, &self.folder, self.path.as_str())? {
            // Another process has closed it.
            return Ok(());
        }
        close_held(rt, self.path.as_str(), closer)
    }
}

/// Makes the folder of a run under a new name, unless another process removes it or `root` meanwhile.
fn begun(rt: &HostRuntime, root: &str) -> io::Result<RunFolder>
    ensures { IfOk result (λ folder. (rest : List ℕ) × (folder ≡ root.now ++ codes "/run-" ++ rest)) }
{
    let id = process::id(rt.process());
    let time = match SystemTime::now(rt)?.duration_since(SystemTime::UNIX_EPOCH) {
        Ok(time) => time.as_nanos(),
        Err(_) => 0,
    };
    let name = format!(in rt.alloc(); "{id}-{time}")?;
    let new = format!(in rt.alloc(); "{root}/{NEW}{name}")?;
    let path = run_path(rt.alloc(), root, name.as_str())?;
    fs::create_dir_all(rt, root)?;
    fs::create_dir(rt, new.as_str())?;
    let order = order_path(rt.alloc(), new.as_str())?;
    let owned = open_to_write(rt, order.as_str())?;
    owned.lock()?;
    // It gets the name of a run once it is held.
    fs::rename(rt, new.as_str(), path.as_str())?;
    let folder = open_to_lock(rt, path.as_str())?;
    Ok(RunFolder {
        path,
        folder,
        owned: Some(owned),
    })
}

fn run_path(alloc: Global, root: &str, name: &str) -> Result<String, AllocError>
    ensures { IfOk result (λ path. string_bytes path ≡ root.now ++ codes "/run-" ++ name.now) }
{
    format!(in alloc; "{root}/run-{name}")
}

/// Whether a folder is not there, or `root` went while it was made.
fn is_removed(why: &io::Error) -> bool {
    matches!(why.kind(), ErrorKind::NotFound | ErrorKind::AlreadyExists)
}

/// Closes the folders of runs in `root` that died, as `RunFolder::close` does, and leaves those of runs
/// that live, or in which a text is being made. The first fault of a file is answered, and stops no
/// other close.
pub fn sweep<C: TextCloser>(rt: &HostRuntime, root: &str, closer: &mut C) -> io::Result<()>
    ensures { (folders : List (List (List ℕ))) × FoldsTo (ClosesFolder C.closes) closer.old folders closer.new }
{
    let mut swept = Ok(());
    for entry in fs::read_dir(rt, root)? {
        let one = sweep_entry(rt, root, entry, closer);
        swept = swept.and(one);
    }
    swept
}

/// Closes what this entry is, if it is the folder of a run that died.
fn sweep_entry<C: TextCloser>(
    rt: &HostRuntime,
    root: &str,
    entry: io::Result<DirEntry<HostRuntime, Global>>,
    closer: &mut C,
) -> io::Result<()>
    ensures { (lines : List (List ℕ)) × ClosesFolder C.closes closer.old lines closer.new }
{
    let entry = entry?;
    let name = entry.file_name();
    if !name.starts_with(RUN) && !name.starts_with(NEW) {
        return Ok(());
    }
    let path = format!(in rt.alloc(); "{root}/{name}")?;
    sweep_folder(rt, path.as_str(), closer)
}

/// Closes this folder, if its run died.
fn sweep_folder<C: TextCloser>(rt: &HostRuntime, path: &str, closer: &mut C) -> io::Result<()>
    ensures { (lines : List (List ℕ)) × ClosesFolder C.closes closer.old lines closer.new }
{
    let order = order_path(rt.alloc(), path)?;
    let Some(_owned) = held_alone(rt, order.as_str())? else {
        // What was killed while it made or removed a folder leaves it empty; any other stays.
        let _ = fs::remove_dir(rt, path);
        return Ok(());
    };
    let Some(_folder) = held_alone(rt, path)? else {
        return Ok(());
    };
    close_held(rt, path, closer)
}

/// Closes what a folder holds whose lock this process has, and removes it.
fn close_held<C: TextCloser>(rt: &HostRuntime, path: &str, closer: &mut C) -> io::Result<()>
    ensures { (lines : List (List ℕ)) × ClosesFolder C.closes closer.old lines closer.new }
{
    let order = order_path(rt.alloc(), path)?;
    let Some(made) = standing(rt, order.as_str())? else {
        return remove_folder(
            rt,
            path,
            "it holds files, and no texts.order: it is none of a run",
        );
    };
    let names = closing_order(rt.alloc(), made.as_str())?;
    close_all(rt, path, names.as_slice(), closer)?;
    remove_beside(rt, path, made.as_str())?;
    remove_if_there(rt, order.as_str())?;
    remove_folder(
        rt,
        path,
        "it holds other files than those of the run, and stays",
    )
}

/// Removes a folder, unless it holds anything.
fn remove_folder(rt: &HostRuntime, path: &str, holds: &str) -> io::Result<()> {
    match fs::remove_dir(rt, path) {
        Err(why) if why.kind() == ErrorKind::NotFound => Ok(()),
        Err(why) if why.kind() == ErrorKind::DirectoryNotEmpty => {
            Err(io::Error::new(ErrorKind::DirectoryNotEmpty, holds))
        }
        removed => removed,
    }
}

/// Removes the files of the makers of the texts that these lines name.
fn remove_beside(rt: &HostRuntime, path: &str, made: &str) -> io::Result<()> {
    for line in made.lines() {
        let name = match line.strip_suffix(".lock") {
            Some(name) => name,
            None => line,
        };
        if is_text_name(name) {
            remove_beside_text(rt, path, name)?;
        }
    }
    Ok(())
}

fn remove_beside_text(rt: &HostRuntime, path: &str, name: &str) -> io::Result<()> {
    let part = format!(in rt.alloc(); "{path}/{name}.part")?;
    remove_if_there(rt, part.as_str())?;
    let lock = format!(in rt.alloc(); "{path}/{name}.lock")?;
    remove_if_there(rt, lock.as_str())
}

/// Closes the texts of these names that stand.
fn close_all<C: TextCloser>(
    rt: &HostRuntime,
    path: &str,
    names: &[&str],
    closer: &mut C,
) -> io::Result<()>
    ensures { FoldsTo (MayClose C.closes) closer.old (map (λ name. name.now) names.now) closer.new }
{
    let mut closed = Ok(());
    for name in names {
        let one = close_one(rt, path, name, closer);
        closed = closed.and(one);
    }
    closed
}

/// Closes the text of this name, if it stands.
fn close_one<C: TextCloser>(
    rt: &HostRuntime,
    path: &str,
    name: &str,
    closer: &mut C,
) -> io::Result<()>
    ensures { MayClose C.closes closer.old name.now closer.new }
{
    let value = format!(in rt.alloc(); "{path}/{name}")?;
    match standing(rt, value.as_str())? {
        Some(text) => {
            closer.close_text(rt, name, text.as_str());
            fs::remove_file(rt, value.as_str())
        }
        None => Ok(()),
    }
}
