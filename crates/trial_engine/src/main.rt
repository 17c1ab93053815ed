//! An engine for tests of the command line: its tests pass, fail, abort, wait and pass at a later attempt in each way that a tester is
//! told of. `scripts/parts/options.py` runs it with each option, and says what has to come of it.
//!
//! `TRIAL_TESTS` in the environment adds so many tests that pass, and `TRIAL_LOG` two that share texts with other processes: each
//! text that is made or closed is a line of the file that it names. `TRIAL_LOOKS` adds two that share so many
//! (`scripts/parts/processes.py`). `TRIAL_COURSE` adds those whose course over time a page shows (`scripts/parts/page.py`).
#![tactic(auto)]

ghost use Rattle.ext_lane.specs.Lent.{IsSame};

use ext_runner::{
    Engine, ExitCode, Fault, Kept, Key, LentLane, LockMode, Namespace, Scope, SharingEngine, Stop,
    TableFault, TestTable, main_in_folder, shared_text,
};
use std::fs::OpenOptions;
use std::io::{self, Write};
use std::sync::Wait;
use std::sync::atomic::{AtomicU64, Ordering};
use std::time::Duration;
use std::{env, process, thread};

/// What a test or a callback does, and of what it is made that is shared.
#[derive(Clone, Copy)]
enum Task {
    /// A count, from 0.
    Count,
    /// The same, which takes so many milliseconds to make.
    SlowCount(u64),
    /// A value that is made of one that is shared above it.
    Inner,
    /// A value whose close fails.
    Unclosable,
    /// A value whose close takes so many milliseconds.
    SlowClose(u64),
    /// A value that cannot be made.
    Unmakable,
    /// A text of this name, which all processes of the run share.
    Text(&'static str),
    Pass,
    /// Looks so often at a text of other processes.
    Looks(u32),
    /// Asks for so many texts that no process has made yet.
    Makes(u32),
    /// Takes so many milliseconds.
    Sleep(u64),
    Fail(&'static str),
    Abort(&'static str),
    /// Passes at this attempt.
    PassAt(u64),
    /// Fails unless the count stands at the first number, and sets it to the second.
    Step(u64, u64),
    /// Fails unless so many tests run this at once.
    Meet(u64),
    /// Stores a value of its own, which each attempt but the first finds.
    Store,
    /// Stores a value of its own, whose close fails.
    Keep,
    /// Fails unless a count and the value made of it are shared.
    Levels,
    /// A row in reserve: the first one comes.
    Row(u64),
}

/// What tests share.
#[derive(Drop)]
enum Shared {
    Count(AtomicU64),
    Inner,
    Unclosable,
    SlowClose(u64),
    Text,
}

fn tests(rt: &HostRuntime) -> Result<TestTable<Task>, TableFault> {
    let mut tests = TestTable::new(rt.alloc(), "trial")?;
    add_times(&mut tests)?;
    add_rows(&mut tests)?;
    add_callbacks(&mut tests)?;
    add_faults(&mut tests)?;
    if log(rt).is_some() {
        add_texts(&mut tests, count_in(rt, "TRIAL_LOOKS"))?;
    }
    if env::var(rt, "TRIAL_COURSE").is_ok() {
        add_course(&mut tests)?;
    }
    tests.class("Many")?;
    for number in 0..count_in(rt, "TRIAL_TESTS") {
        let name = format!(in rt.alloc(); "t{number}")?;
        tests.test(name.as_str(), Task::Pass)?;
    }
    Ok(tests)
}

/// The number that this variable of the environment has, or 0.
fn count_in(rt: &HostRuntime, variable: &str) -> u32 {
    match env::var(rt, variable) {
        Ok(word) => word.as_str().parse().unwrap_or(0),
        Err(_) => 0,
    }
}

/// The file that is told which texts are made and closed.
fn log(rt: &HostRuntime) -> Option<String> {
    env::var(rt, "TRIAL_LOG").ok()
}

/// Tests that share texts with other processes.
fn add_texts(tests: &mut TestTable<Task>, looks: u32) -> Result<(), TableFault> {
    tests.class("Texts")?;
    tests.share(Task::Text("server"));
    tests.test("one", Task::Sleep(200))?;
    tests.group("inner")?;
    tests.share(Task::Text("schema"));
    tests.case("two", Task::Sleep(200))?;
    if looks > 0 {
        tests.class("Looking")?;
        tests.tests_in_turn();
        tests.test("looks", Task::Looks(looks))?;
        tests.test("makes", Task::Makes(looks))?;
    }
    Ok(())
}

/// Tests that take time, that run alone, at once or in turn, and that pass at a later attempt.
fn add_times(tests: &mut TestTable<Task>) -> Result<(), TableFault> {
    tests.class("Slow")?;
    tests.test("sleeps", Task::Sleep(2_300))?;
    tests.test("alone", Task::Sleep(10))?;
    tests.alone();
    tests.class("Meeting")?;
    tests.share(Task::SlowCount(50));
    tests.test("one", Task::Meet(2))?;
    tests.test("two", Task::Meet(2))?;
    tests.class("Locked")?;
    tests.lock("count", LockMode::ReadWrite)?;
    tests.test("one", Task::Sleep(100))?;
    tests.test("two", Task::Sleep(100))?;
    tests.class("Flaky")?;
    tests.share(Task::Count);
    tests.test("third", Task::PassAt(3))?;
    tests.class("Storing")?;
    tests.test("twice", Task::Store)?;
    tests.attempts(2);
    tests.class("Nested")?;
    tests.share(Task::Count);
    tests.group("inner")?;
    tests.share(Task::Inner);
    tests.case("both", Task::Levels)?;
    Ok(())
}

/// A group of cases that are known when its turn comes.
fn add_rows(tests: &mut TestTable<Task>) -> Result<(), TableFault> {
    tests.class("Rows")?;
    tests.in_turn();
    tests.group("row")?;
    tests.case("#1", Task::Row(1))?;
    tests.reserve();
    tests.case("#2", Task::Row(2))?;
    tests.reserve();
    Ok(())
}

/// Callbacks that fail where they come in another order.
fn add_callbacks(tests: &mut TestTable<Task>) -> Result<(), TableFault> {
    tests.class("Callbacks")?;
    tests.share(Task::Count);
    tests.tests_in_turn();
    tests.before_all(Task::Step(0, 1))?;
    tests.before_each(Task::Step(1, 2))?;
    tests.before_each(Task::Step(2, 3))?;
    tests.after_each(Task::Step(5, 1))?;
    tests.after_each(Task::Step(4, 5))?;
    tests.after_all(Task::Step(1, 9))?;
    tests.test("one", Task::Step(3, 4))?;
    tests.test("two", Task::Step(3, 4))?;
    Ok(())
}

/// Tests and classes that do not pass.
fn add_faults(tests: &mut TestTable<Task>) -> Result<(), TableFault> {
    tests.class("Failing")?;
    tests.test(
        "lines",
        Task::Fail("wanted <sum> 7, got:\nsum 6 & \"more\"\n\nthe end"),
    )?;
    tests.test("needs", Task::Abort("no network drive"))?;
    tests.test("both", Task::Fail("first"))?;
    tests.after_each(Task::Fail("second\nof two lines"))?;
    tests.test("passes", Task::Pass)?;
    tests.class("Escaping")?;
    tests.test("red", Task::Fail("\x1b[31mred\u{202e}"))?;
    tests.class("Broken")?;
    tests.before_all(Task::Fail("no class"))?;
    tests.test("never", Task::Pass)?;
    tests.class("Unclosed")?;
    tests.share(Task::Unclosable);
    tests.test("passes", Task::Pass)?;
    tests.class("Unmade")?;
    tests.share(Task::Unmakable);
    tests.test("one", Task::Pass)?;
    tests.test("two", Task::Pass)?;
    Ok(())
}

/// Calls of a class that take time, tests whose bodies pass and that fail all the same, a test that holds its lock while it closes, and
/// one that stores a value beside what it shares.
fn add_course(tests: &mut TestTable<Task>) -> Result<(), TableFault> {
    tests.class("Staged")?;
    tests.before_all(Task::Sleep(60))?;
    tests.after_all(Task::Sleep(40))?;
    tests.after_all(Task::Fail("after all"))?;
    tests.test("one", Task::Pass)?;
    tests.class("Late")?;
    tests.test("before", Task::Pass)?;
    tests.before_each(Task::Abort("before it"))?;
    tests.test("after", Task::Pass)?;
    tests.after_each(Task::Fail("behind it"))?;
    tests.test("close", Task::Pass)?;
    tests.share(Task::Unclosable);
    tests.test("keeps", Task::Keep)?;
    tests.share(Task::Count);
    tests.class("Closing")?;
    tests.test("holds", Task::Pass)?;
    tests.share(Task::SlowClose(500));
    tests.lock("close", LockMode::ReadWrite)?;
    tests.test("rests", Task::Sleep(100))?;
    tests.test("waits", Task::Pass)?;
    tests.lock("close", LockMode::ReadWrite)?;
    Ok(())
}

/// The engine of a run, whose texts stand in this folder.
#[derive(Drop)]
struct Trial {
    folder: String,
}

impl Engine for Trial {
    type Given = Task;

    type Shared = Shared;

    fn make(&self, node: &Scope<Task, Shared>) -> Result<Shared, Stop> {
        match node.given {
            Task::Unclosable => Ok(Shared::Unclosable),
            Task::SlowClose(millis) => Ok(Shared::SlowClose(*millis)),
            Task::Inner if is_count(node.shared.first()) => Ok(Shared::Inner),
            Task::Inner => Err(node.fail("no count is shared above")),
            Task::Unmakable => Err(node.fail("nothing to be had")),
            Task::SlowCount(millis) => {
                thread::sleep(node.rt, Duration::from_millis(*millis));
                Ok(Shared::Count(AtomicU64::new(0)))
            }
            Task::Text(name) => {
                let make = || made_text(node, name);
                shared_text(node.rt, self.folder.as_str(), name, make)?;
                Ok(Shared::Text)
            }
            _ => Ok(Shared::Count(AtomicU64::new(0))),
        }
    }

    fn close(&self, rt: &HostRuntime, shared: &Shared) -> Result<(), Stop> {
        match shared {
            Shared::Count(_) | Shared::Inner | Shared::Text => Ok(()),
            Shared::Unclosable => Err(anyhow::anyhow!("it does not close").into()),
            Shared::SlowClose(millis) => {
                thread::sleep(rt, Duration::from_millis(*millis));
                Ok(())
            }
        }
    }

    fn run_test(&self, test: &Scope<Task, Shared>) -> Result<(), Stop> {
        match test.given {
            Task::Looks(count) => self.look(test, *count, "looked-at"),
            Task::Makes(count) => self.make_all(test, *count),
            _ => act(test),
        }
    }

    fn run_in_store<R: Wait>(
        &self,
        threads: &R,
        test: &Scope<Task, Shared>,
        lane: &mut LentLane<Kept<Shared>>,
    ) -> Result<(), Stop> {
        match test.given {
            Task::Store => match store(threads, test, lane, Shared::Count(AtomicU64::new(0)))? {
                true => Err(test.fail("nothing was found")),
                false => Ok(()),
            },
            Task::Keep => {
                store(threads, test, lane, Shared::Unclosable)?;
                Ok(())
            }
            _ => self.run_test(test),
        }
    }

    fn comes(&self, given: &Task) -> bool {
        matches!(given, Task::Row(1))
    }
}

impl Trial {
    /// Looks so often at the text of this name.
    fn look(&self, test: &Scope<Task, Shared>, count: u32, name: &str) -> Result<(), Stop> {
        for _ in 0..count {
            let make = || -> Result<String, Stop> { Ok(String::new(test.rt.alloc())) };
            shared_text(test.rt, self.folder.as_str(), name, make)?;
        }
        Ok(())
    }

    /// Looks at so many texts, once at each.
    fn make_all(&self, test: &Scope<Task, Shared>, count: u32) -> Result<(), Stop> {
        for number in 0..count {
            let name = format!(in test.rt.alloc(); "made-{number}")?;
            self.look(test, 1, name.as_str())?;
        }
        Ok(())
    }
}

impl SharingEngine for Trial {
    fn in_folder(folder: String) -> Trial {
        Trial { folder }
    }

    fn close_text(&self, rt: &HostRuntime, name: &str, text: &str) -> anyhow::Result<()> {
        Ok(tell(rt, "closed", name, text)?)
    }
}

/// The number of this process, of which the log tells that it makes a text, and that it has.
fn made_text(node: &Scope<Task, Shared>, name: &str) -> Result<String, Stop> {
    let text = format!(in node.rt.alloc(); "{}", process::id(node.rt.process()))?;
    tell(node.rt, "makes", name, text.as_str())?;
    thread::sleep(node.rt, Duration::from_millis(200));
    tell(node.rt, "made", name, text.as_str())?;
    Ok(text)
}

/// Adds a line to the log.
fn tell(rt: &HostRuntime, what: &str, name: &str, text: &str) -> io::Result<()> {
    if let Some(path) = log(rt) {
        let line = format!(in rt.alloc(); "{what} {name} {text}\n")?;
        let mut log = OpenOptions::new()
            .append(true)
            .create(true)
            .open(rt, path.as_str())?;
        log.write_all(line.as_bytes())?;
    }
    Ok(())
}

/// Does what a call is given.
fn act(call: &Scope<Task, Shared>) -> Result<(), Stop> {
    match call.given {
        Task::Sleep(millis) => {
            thread::sleep(call.rt, Duration::from_millis(*millis));
            Ok(())
        }
        Task::Fail(why) => Err(call.fail(*why)),
        Task::Abort(why) => Err(call.abort(*why)),
        Task::PassAt(attempt) => pass_at(call, count(call)?, *attempt),
        Task::Step(from, to) => step(call, count(call)?, *from, *to),
        Task::Meet(others) => meet(call, count(call)?, *others),
        Task::Levels => levels(call),
        Task::Row(2) => Err(call.fail("it should not have come")),
        _ => Ok(()),
    }
}

/// The count that the nearest node on the path shares.
fn count<'a>(call: &Scope<'a, Task, Shared>) -> Result<&'a AtomicU64, Stop> {
    match call.nearest()? {
        Shared::Count(count) => Ok(count),
        Shared::Inner | Shared::Unclosable | Shared::SlowClose(_) | Shared::Text => Err(call.fail(
            "no count is shared",
        )),
    }
}

/// Whether this is a count.
fn is_count(shared: Option<&&Shared>) -> bool {
    match shared {
        Some(shared) => matches!(shared, Shared::Count(_)),
        None => false,
    }
}

/// Fails unless a count is shared, and below it what is made of it.
fn levels(call: &Scope<Task, Shared>) -> Result<(), Stop> {
    let is_inner = matches!(call.nearest()?, Shared::Inner);
    if is_inner && call.shared.len() == 2 && is_count(call.shared.first()) {
        return Ok(());
    }
    Err(call.fail("not both are shared"))
}

fn pass_at(call: &Scope<Task, Shared>, count: &AtomicU64, attempt: u64) -> Result<(), Stop> {
    if count.fetch_add(1, Ordering::SeqCst).saturating_add(1) < attempt {
        return Err(call.fail("not yet"));
    }
    Ok(())
}

fn step(call: &Scope<Task, Shared>, count: &AtomicU64, from: u64, to: u64) -> Result<(), Stop> {
    let stood = count.swap(to, Ordering::SeqCst);
    if stood != from {
        return Err(call.fail(format_args!("the count stood at {stood}, not at {from}")));
    }
    Ok(())
}

/// Finds the value of its own, or stores this one. Answers whether it is new.
fn store<R: Wait>(
    threads: &R,
    test: &Scope<Task, Shared>,
    lane: &mut LentLane<Kept<Shared>>,
    value: Shared,
) -> Result<bool, Stop>
    ensures { IsSame lane.old lane.new }
{
    let Ok(key) = Key::new(test.rt.alloc(), Namespace::global(), "own") else {
        return Err(test.fail("no key"));
    };
    let make = |_key: &Key| -> Result<Kept<Shared>, Fault> { Ok(Kept(value)) };
    let answer = lane.compute_wait(threads, test.node, &key, make);
    match lane.found_or_made(answer) {
        Ok(made) => Ok(made.is_new),
        Err(why) => Err(Stop::Failed(why)),
    }
}

/// Waits a second at most until so many tests have come here.
fn meet(call: &Scope<Task, Shared>, count: &AtomicU64, others: u64) -> Result<(), Stop> {
    count.fetch_add(1, Ordering::SeqCst);
    for _ in 0..1_000 {
        if count.load(Ordering::SeqCst) >= others {
            return Ok(());
        }
        thread::sleep(call.rt, Duration::from_millis(1));
    }
    count.fetch_sub(1, Ordering::SeqCst);
    Err(call.fail("nobody came"))
}

fn main(rt: HostRuntime) -> ExitCode {
    main_in_folder::<HostRuntime, Trial>(&rt, &rt, "trial", tests(&rt))
}
