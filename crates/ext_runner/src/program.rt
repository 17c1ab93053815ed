//! The program of an engine.
ghost use Rattle.std.specs.Prelude.{IfOk};
ghost use Rattle.ext_runner.specs.InnerSelecting.{AsksTable};

use crate::command::{Asked, Options, read_words};
use crate::ending::Ending;
use crate::page::About;
use crate::results::reported_results;
use crate::run_log::{Listed, RunLog, Watching};
use crate::saying::{not_run, print_lines};
use crate::selecting::{SelectingFault, seed_of, selected_by};
use crate::telling::{is_colored, tell};
use ext_model::Size;
use ext_store::Limits;
use ext_table::{Engine, NamedLock, Row, RunLimits, TableFault, TableRun, TestTable, run_table};
use std::alloc::{AllocError, Global};
use std::io::{ErrorKind, IsTerminal};
use std::process::ExitCode;
use std::sync::Wait;
use std::thread::{Threads, available_parallelism, join_mut};
use std::time::{Clock, Duration, Instant};

/// The most lanes of a run.
const MOST_LANES: usize = 32;

/// The program of an engine of this name: reads the words of its command line, runs the tests of the
/// table that they select, and tells of them. `--help` prints the words.
///
/// Its exit status is 0, or 1 if a test or a container failed, 2 if the words are wrong, 3 if the
/// tests were not run or a file was not read or written, and 4 if no test is selected. A table that
/// was not made is told, and then nothing is run. `threads` and `rt` are the runtime of `main`. Takes
/// memory, and may wait.
///
/// JUnit 5 User Guide, section "Console Launcher"; the words are an own rule.
pub fn main_of<R: Threads + Wait + Sync + Clock, E: Engine + Sync>(
    threads: &R,
    rt: &HostRuntime,
    name: &str,
    engine: &E,
    table: Result<TestTable<E::Given>, TableFault>,
) -> ExitCode
where
    E::Given: Drop + Sync,
    E::Shared: Send + Sync,
{
    ended(rt, name, done(threads, rt, name, engine, table))
}

/// The exit status; why there is none to tell is printed.
pub(crate) fn ended(rt: &HostRuntime, name: &str, done: anyhow::Result<Ending>) -> ExitCode {
    match done {
        Ok(ending) => ExitCode::from(ending.code()),
        Err(why) => {
            let why = format!(in rt.alloc(); "{why}");
            ExitCode::from(not_run(rt, name, why).code())
        }
    }
}

/// Does what the words ask for.
fn done<R: Threads + Wait + Sync + Clock, E: Engine + Sync>(
    threads: &R,
    rt: &HostRuntime,
    name: &str,
    engine: &E,
    table: Result<TestTable<E::Given>, TableFault>,
) -> anyhow::Result<Ending>
where
    E::Given: Drop + Sync,
    E::Shared: Send + Sync,
{
    match read_words(rt, name, false)? {
        Asked::Run(options) => {
            let run = |table: &TestTable<E::Given>| {
                run_once(threads, rt, name, engine, table, &options)
            };
            run_asked(rt, name, table?, &options, run)
        }
        Asked::Helped => Ok(Ending::Passed),
        // No word of such a program asks for a close.
        Asked::Refused | Asked::Close(_) => Ok(Ending::WrongWords),
    }
}

/// Runs or lists the tests of a table that the options select: each run is a call of `run`.
pub(crate) fn run_asked<T: Drop, F: Fn(&TestTable<T>) -> anyhow::Result<Ending>>(
    rt: &HostRuntime,
    name: &str,
    table: TestTable<T>,
    options: &Options,
    run: F,
) -> anyhow::Result<Ending>
    requires { F.IsAlwaysCallable run }
{
    match asked_table(rt, name, table, options)? {
        Ok(table) => run_repeated(rt, &table, options.running.repeat, run),
        Err(ending) => Ok(ending),
    }
}

/// The table of the tests that are run, which are those that the options select, in the order that
/// they ask for. Or else how the program ends, which runs none.
fn asked_table<T: Drop>(
    rt: &HostRuntime,
    name: &str,
    table: TestTable<T>,
    options: &Options,
) -> anyhow::Result<Result<TestTable<T>, Ending>>
    ensures { IfOk result (λ asked. IfOk asked (λ selected. AsksTable options.now table.ids.items table.rows.items selected.ids.items selected.rows.items)) }
{
    let seed = seed_of(rt, options.running.order)?;
    let table = match selected_by(rt, table, &options.selecting, seed) {
        Ok(table) => table,
        Err(SelectingFault::Memory) => return Ok(Err(not_run(rt, name, Err(AllocError)))),
        Err(SelectingFault::Earlier(why)) => return Ok(Err(not_run(rt, name, Ok(why)))),
    };
    if table.rows.is_empty() {
        eprintln!(rt; "{name}: no test is selected")?;
        Ok(Err(Ending::NothingSelected))
    } else if options.selecting.list {
        list(rt, &table)?;
        Ok(Err(Ending::Passed))
    } else if table.rows.len() > Size::Large.contexts() {
        let (count, most) = (table.rows.len(), Size::Large.contexts());
        let why = format!(in rt.alloc();
            "{count} nodes are selected, and a run has {most} at most"
        );
        Ok(Err(not_run(rt, name, why)))
    } else {
        Ok(Ok(table))
    }
}

/// Prints the ids of the tests of a table. A reader that wants no more of them is no fault.
fn list<T>(rt: &HostRuntime, table: &TestTable<T>) -> anyhow::Result<()> {
    match print_lines(rt, ids_of_tests(rt.alloc(), table)?) {
        Err(why) if why.kind() != ErrorKind::BrokenPipe => Err(why.into()),
        _ => Ok(()),
    }
}

/// The ids of the tests of a table, each on a line.
fn ids_of_tests<T>(alloc: Global, table: &TestTable<T>) -> Result<String, AllocError> {
    let mut lines = String::new(alloc);
    for (id, row) in table.ids.iter().zip(table.rows.iter()) {
        if row.test.is_some() {
            id.write_to(&mut lines)?;
            lines.push('\n')?;
        }
    }
    Ok(lines)
}

/// Runs a table so many times, until a run fails.
fn run_repeated<T, F: Fn(&TestTable<T>) -> anyhow::Result<Ending>>(
    rt: &HostRuntime,
    table: &TestTable<T>,
    times: u32,
    run: F,
) -> anyhow::Result<Ending>
    requires { F.IsAlwaysCallable run }
{
    for time in 1..times {
        eprintln!(rt; "run {time} of {times}")?;
        let ending = run(table)?;
        if !matches!(ending, Ending::Passed) {
            return Ok(ending);
        }
    }
    if times > 1 {
        eprintln!(rt; "run {times} of {times}")?;
    }
    run(table)
}

/// Runs a table, and tells of the run.
pub(crate) fn run_once<R: Threads + Wait + Sync + Clock, E: Engine + Sync>(
    threads: &R,
    rt: &HostRuntime,
    name: &str,
    engine: &E,
    table: &TestTable<E::Given>,
    options: &Options,
) -> anyhow::Result<Ending>
where
    E::Given: Drop + Sync,
    E::Shared: Send + Sync,
{
    let watching = watching(rt, options);
    let listed = listed(rt, table, options)?;
    let begun = Instant::now(rt).ok();
    let log = RunLog::new(
        threads,
        rt,
        listed,
        watching,
        options.telling.html.is_some(),
    )?;
    let limits = limits(threads, table, options);
    let run = run_watched(threads, rt, engine, table, limits, &log)?;
    let took = since(rt, begun);
    if watching.each {
        eprintln!(rt; "")?;
    }
    let (listed, mut state) = log.into_parts();
    let timeline = state.timeline.take();
    let about = About {
        name,
        lanes: limits.limits.lanes,
        lock_names: table.lock_names.as_slice(),
    };
    let TableRun { store, results } = run;
    let tree = store.tree();
    let reported = reported_results(rt.alloc(), tree, results, listed.as_slice(), &state)?;
    tell(
        rt,
        tree,
        &reported,
        listed.as_slice(),
        &state,
        took,
        &options.telling,
        about,
        timeline,
    )
}

/// What is told while a run lasts.
fn watching(rt: &HostRuntime, options: &Options) -> Watching {
    let at_terminal = rt.stderr().is_terminal();
    Watching {
        each: at_terminal,
        colored: is_colored(rt, options.telling.color, at_terminal),
    }
}

/// The time since this moment, if clocks were read.
fn since(rt: &HostRuntime, begun: Option<Instant>) -> Option<Duration> {
    match begun {
        Some(begun) => begun.elapsed(rt).ok(),
        None => None,
    }
}

/// Runs a table beside a thread that tells what there is to tell meanwhile.
fn run_watched<R: Threads + Wait + Sync + Clock, E: Engine + Sync>(
    threads: &R,
    rt: &HostRuntime,
    engine: &E,
    table: &TestTable<E::Given>,
    limits: RunLimits,
    log: &RunLog<R>,
) -> anyhow::Result<TableRun<E::Shared>>
where
    E::Given: Sync,
    E::Shared: Send + Sync,
{
    let mut tell = || log.tell_to_the_end();
    let mut run = || {
        let ran = run_table(threads, rt, engine, table, limits, log);
        log.finish();
        ran
    };
    let ((), ran) = join_mut(threads, &mut tell, &mut run);
    Ok(ran?)
}

/// The limits of a run: a large store where a usual one has no place for so many nodes or lanes.
fn limits<R: Threads, T>(threads: &R, table: &TestTable<T>, options: &Options) -> RunLimits {
    let processors = match available_parallelism(threads) {
        Ok(count) => count.get(),
        Err(_) => 1,
    };
    let lanes = match options.running.lanes {
        Some(lanes) => usize::from(lanes),
        None => processors,
    };
    let lanes = lanes.clamp(1, MOST_LANES);
    let is_large = lanes > Size::Usual.lanes() || table.rows.len() > Size::Usual.contexts();
    RunLimits {
        limits: Limits {
            keep_faults: true,
            size: if is_large { Size::Large } else { Size::Usual },
            ..Limits::new(lanes)
        },
        attempts: options.running.retries.saturating_add(1),
        stop_after: u64::from(options.running.stop_after),
    }
}

/// The locks that the tests of a row hold: its own, and those of the node above it.
fn held_locks<T>(
    rt: &HostRuntime,
    row: &Row<T>,
    above: Option<&Listed>,
) -> anyhow::Result<Vec<NamedLock>> {
    let mut held = Vec::new(rt.alloc());
    held.extend_from_slice(row.locks.as_slice())?;
    if let Some(above) = above {
        held.extend_from_slice(above.locks.as_slice())?;
    }
    Ok(held)
}

/// The nodes of a table as they are told.
fn listed<T>(
    rt: &HostRuntime,
    table: &TestTable<T>,
    options: &Options,
) -> anyhow::Result<Vec<Listed>> {
    let mut listed = Vec::new(rt.alloc());
    for (id, row) in table.ids.iter().zip(table.rows.iter()) {
        let mut text = String::new(rt.alloc());
        id.write_to(&mut text)?;
        let is_test = row.test.is_some();
        listed.push(Listed {
            id: text,
            is_test,
            above: row.above,
            slow_after: row.slow_after.or(options.running.slow),
            locks: held_locks(rt, row, listed.get(row.above))?,
            is_isolated: row.is_isolated
                || listed.get(row.above).is_some_and(|above| above.is_isolated),
        })?;
    }
    Ok(listed)
}
