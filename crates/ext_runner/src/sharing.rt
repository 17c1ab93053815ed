//! Engines with texts that several processes share.
ghost use Rattle.std.specs.Prelude.{◌≡◌, ◌⊎◌, Err, IfErr, IfOk, IsTrue, Ok};
ghost use Rattle.anyhow.specs.declared.error.Error.{Error};
ghost use Rattle.ext_table.specs.declared.stop.Stop.TheVariants as stops;

use crate::command::{Asked, Options, read_words};
use crate::ending::Ending;
use crate::program::{ended, run_asked, run_once};
use ext_shared::{RunFolder, SharedFault, SharedText, TextCloser, sweep};
use ext_table::{Engine, Stop, TableFault, TestTable};
use std::process::ExitCode;
use std::sync::Wait;
use std::thread::Threads;
use std::time::Clock;
use std::{env, fs};

/// An engine some of whose values are used by several processes, each of which knows them by a text,
/// as the address of a server.
pub trait SharingEngine: Engine + Drop {
    /// The engine of a run whose texts stand in this folder: its `make` asks there by `shared_text`. The
    /// path of a run's own folder is absolute.
    fn in_folder(folder: String) -> Self;

    /// Ends what the text of this name stands for: once, when the run ends that owns the folder, the
    /// latest first. Where that run was killed, the next run ends it, be it days later. It comes again
    /// where the process was killed during a call or right behind it.
    fn close_text(&self, rt: &HostRuntime, name: &str, text: &str) -> anyhow::Result<()>;
}

/// The text of this name in the folder of a run, for `make` of an engine: that which stands there, or
/// else what `make` gives here, as `ext_shared::shared_text` says. An error may also be one of the
/// folder; whatever else stops it, `make` gave. Takes memory, and may wait.
pub fn shared_text<F: FnOnce() -> Result<String, Stop>>(
    rt: &HostRuntime,
    folder: &str,
    name: &str,
    make: F,
) -> Result<SharedText, Stop>
    requires { F.pre make }
    ensures made { IfOk result (λ shared. IsTrue shared.is_new → F.post make (Ok shared.text)) }
    ensures not_made { IfErr result (λ stop. F.post make (Err stop) ⊎ ((why : Error) × (stop ≡ stops.Error why))) }
{
    match ext_shared::shared_text(rt, folder, name, make) {
        Ok(shared) => Ok(shared),
        Err(SharedFault::Make(stop)) => Err(stop),
        Err(why) => Err(Stop::Error(anyhow::anyhow!("{why}"))),
    }
}

/// The program of an engine of this name with texts that processes share: `main_of`, and the words
/// `--shared FOLDER` and `--close FOLDER`.
///
/// A run has a folder of its own in `.NAME-runs` of the working directory, and closes what it holds in
/// the end; before it begins, it closes those of runs that died. With `--shared` it uses a folder that
/// another process owns, and closes nothing. `--close` closes what a folder holds, for an owner that is
/// no engine. A text or folder that is not closed is told, and the exit status is 3 where it would be 0.
pub fn main_in_folder<R: Threads + Wait + Sync + Clock, E: SharingEngine + Sync>(
    threads: &R,
    rt: &HostRuntime,
    name: &str,
    table: Result<TestTable<E::Given>, TableFault>,
) -> ExitCode
where
    E::Given: Drop + Sync,
    E::Shared: Send + Sync,
{
    ended(rt, name, done::<R, E>(threads, rt, name, table))
}

/// Does what the words ask for.
fn done<R: Threads + Wait + Sync + Clock, E: SharingEngine + Sync>(
    threads: &R,
    rt: &HostRuntime,
    name: &str,
    table: Result<TestTable<E::Given>, TableFault>,
) -> anyhow::Result<Ending>
where
    E::Given: Drop + Sync,
    E::Shared: Send + Sync,
{
    match read_words(rt, name, true)? {
        Asked::Run(options) => {
            let run = |table: &TestTable<E::Given>| {
                run_sharing::<R, E>(threads, rt, name, table, &options)
            };
            run_asked(rt, name, table?, &options, run)
        }
        Asked::Close(path) => close_folder::<E>(rt, name, path.as_str()),
        Asked::Helped => Ok(Ending::Passed),
        Asked::Refused => Ok(Ending::WrongWords),
    }
}

/// Runs a table in the folder that the words name, or else in one of its own.
fn run_sharing<R: Threads + Wait + Sync + Clock, E: SharingEngine + Sync>(
    threads: &R,
    rt: &HostRuntime,
    name: &str,
    table: &TestTable<E::Given>,
    options: &Options,
) -> anyhow::Result<Ending>
where
    E::Given: Drop + Sync,
    E::Shared: Send + Sync,
{
    match &options.shared {
        Some(path) => {
            let engine = E::in_folder(String::from_str(rt.alloc(), path.as_str())?);
            run_once(threads, rt, name, &engine, table, options)
        }
        None => run_in_own_folder::<R, E>(threads, rt, name, table, options),
    }
}

/// Runs a table in a folder of its own, and closes what that holds, however the run ends.
fn run_in_own_folder<R: Threads + Wait + Sync + Clock, E: SharingEngine + Sync>(
    threads: &R,
    rt: &HostRuntime,
    name: &str,
    table: &TestTable<E::Given>,
    options: &Options,
) -> anyhow::Result<Ending>
where
    E::Given: Drop + Sync,
    E::Shared: Send + Sync,
{
    let root = runs_path(rt, name)?;
    let folder = match RunFolder::begin(rt, root.as_str()) {
        Ok(folder) => folder,
        Err(why) => return Err(anyhow::anyhow!("{root}: {why}")),
    };
    let engine = E::in_folder(String::from_str(rt.alloc(), folder.path())?);
    sweep_runs(rt, name, root.as_str(), &engine);
    let ran = run_once(threads, rt, name, &engine, table, options);
    let closed = close(rt, name, folder, &engine);
    // It goes with the last run in it.
    let _ = fs::remove_dir(rt, root.as_str());
    Ok(both(ran?, closed))
}

/// The folder of the runs of this engine in the working directory.
fn runs_path(rt: &HostRuntime, name: &str) -> anyhow::Result<String> {
    let here = env::current_dir(rt)?;
    Ok(format!(in rt.alloc(); "{}/.{name}-runs", here.as_str())?)
}

/// Closes what the folder of another process holds.
fn close_folder<E: SharingEngine>(
    rt: &HostRuntime,
    name: &str,
    path: &str,
) -> anyhow::Result<Ending> {
    let folder = RunFolder::open(rt, path)?;
    let engine = E::in_folder(String::from_str(rt.alloc(), path)?);
    Ok(close(rt, name, folder, &engine))
}

/// Closes what a folder holds. What goes wrong is told.
fn close<E: SharingEngine>(rt: &HostRuntime, name: &str, folder: RunFolder, engine: &E) -> Ending {
    let mut closer = EngineCloser {
        engine,
        name,
        ending: Ending::Passed,
    };
    match folder.close(rt, &mut closer) {
        Ok(()) => closer.ending,
        Err(why) => {
            let _ = eprintln!(rt; "{name}: the folder of shared texts was not closed: {why}");
            Ending::NotRun
        }
    }
}

/// Closes what the folders of runs hold that died. What goes wrong is told, and stops no run.
fn sweep_runs<E: SharingEngine>(rt: &HostRuntime, name: &str, root: &str, engine: &E) {
    let mut closer = EngineCloser {
        engine,
        name,
        ending: Ending::Passed,
    };
    if let Err(why) = sweep(rt, root, &mut closer) {
        let _ = eprintln!(rt; "{name}: {root}: {why}");
    }
}

/// How the program ends after a run and the close of its folder.
fn both(ran: Ending, closed: Ending) -> Ending {
    match ran {
        Ending::Passed => closed,
        _ => ran,
    }
}

/// Closes texts by an engine, and tells of those that were not closed.
#[derive(Drop)]
struct EngineCloser<'a, E> {
    engine: &'a E,
    name: &'a str,
    /// How the program ends after these closes.
    ending: Ending,
}

impl<E: SharingEngine> TextCloser for EngineCloser<'_, E> {
    fn close_text(&mut self, rt: &HostRuntime, name: &str, text: &str) {
        if let Err(why) = self.engine.close_text(rt, name, text) {
            self.ending = Ending::NotRun;
            let _ = eprintln!(rt;
                "{}: the shared text {name} was not closed: {why}",
                self.name
            );
        }
    }
}
