//! An engine to copy from: tests of a bank that share one database, which the first of them makes. Four fail, each in a way of its
//! own, and still everything is closed.
//!
//! - The engine shares the database: the test that comes first makes it, the others find it or wait. A factory that fails takes away
//!   itself what it made (`make_database`).
//! - The tests of `Accounts` hold a lock. Without it a payment of `gift` or `loan` could be lost (`pay`), and `sum` would fail.
//! - The post of `Post` cannot be reached. Its fault is kept: `letter` and `parcel` are both told of attempt 1.
//! - `lease` shares a lease with nobody, which is closed with the test. The close fails, and the test with it.
//! - `alone` runs while no other test does.
//! - `Audit` comes after the other classes. The group `paid` has cases in reserve: as many run as payments were made.
//!
//! `demo_engine --html FILE` writes a page on which all of this is seen.
#![tactic(auto)]

mod database;

use database::Database;
use ext_runner::{
    Engine, ExitCode, Kept, LentLane, LockMode, Scope, Stop, TableFault, TestTable, main_of,
};
use std::sync::Wait;
use std::sync::atomic::{AtomicU64, Ordering};
use std::time::Duration;
use std::{env, fs, process, thread};

/// What a test does, and of what it is made that is shared.
#[derive(Clone, Copy)]
enum Task {
    Database,
    Post,
    Lease,
    /// Nothing, for a while.
    Rest,
    /// Pays so much to Ann.
    Pay(i64),
    /// Fails unless the database answers the question so.
    Want(&'static str, i64),
    /// The same of what Ann has at least after so many payments.
    Paid(u64, i64),
}

/// What tests share.
#[derive(Drop)]
enum Shared {
    /// The database, and the run's folder, in which its file stands.
    Database { database: Database, folder: String },
    /// A lease, which is lost before it can be given back.
    Lease,
}

fn tests(rt: &HostRuntime) -> Result<TestTable<Task>, TableFault> {
    let mut tests = TestTable::new(rt.alloc(), "demo")?;
    tests.share(Task::Database);
    tests.class("Accounts")?;
    tests.lock("account", LockMode::ReadWrite)?;
    tests.test("gift", Task::Pay(10))?;
    tests.test("loan", Task::Pay(20))?;
    tests.class("Post")?;
    tests.share(Task::Post);
    tests.test("letter", Task::Rest)?;
    tests.test("parcel", Task::Rest)?;
    tests.class("Office")?;
    tests.test("lease", Task::Rest)?;
    tests.share(Task::Lease);
    tests.test("alone", Task::Rest)?;
    tests.alone();
    add_audit(&mut tests)?;
    Ok(tests)
}

/// The class that comes after the others.
fn add_audit(tests: &mut TestTable<Task>) -> Result<(), TableFault> {
    tests.class("Audit")?;
    tests.in_turn();
    tests.test("sum", Task::Want("SELECT sum(money) FROM account", 230))?;
    let of_eve = "SELECT count(*) FROM account WHERE name = 'eve'";
    tests.test("eve", Task::Want(of_eve, 1))?;
    tests.group("paid")?;
    tests.case("#1", Task::Paid(1, 110))?;
    tests.reserve();
    tests.case("#2", Task::Paid(2, 120))?;
    tests.reserve();
    tests.case("#3", Task::Paid(3, 130))?;
    tests.reserve();
    Ok(())
}

/// The engine, with how many payments were made, and how often the post was tried.
#[derive(Drop)]
struct Demo {
    payments: AtomicU64,
    attempts: AtomicU64,
}

impl Engine for Demo {
    type Given = Task;

    type Shared = Shared;

    fn make(&self, node: &Scope<Task, Shared>) -> Result<Shared, Stop> {
        match node.given {
            Task::Post => Err(self.reach_post(node)),
            Task::Lease => Ok(Shared::Lease),
            _ => make_database(node.rt),
        }
    }

    fn close(&self, rt: &HostRuntime, shared: &Shared) -> Result<(), Stop> {
        match shared {
            Shared::Database { folder, .. } => Ok(fs::remove_dir_all(rt, folder.as_str())?),
            Shared::Lease => Err(anyhow::anyhow!("the lease was lost").into()),
        }
    }

    fn run_test(&self, test: &Scope<Task, Shared>) -> Result<(), Stop> {
        rest(test.rt);
        Ok(())
    }

    fn run_in_store<R: Wait>(
        &self,
        threads: &R,
        test: &Scope<Task, Shared>,
        _lane: &mut LentLane<Kept<Shared>>,
    ) -> Result<(), Stop> {
        match test.given {
            Task::Pay(amount) => self.pay(threads, test, *amount),
            Task::Want(question, wanted) => want(threads, test, question, *wanted),
            Task::Paid(_, least) => want_least(threads, test, *least),
            _ => self.run_test(test),
        }
    }

    fn comes(&self, given: &Task) -> bool {
        match given {
            Task::Paid(payments, _) => *payments <= self.payments.load(Ordering::SeqCst),
            _ => true,
        }
    }
}

impl Demo {
    /// The factory of the post. Its fault says how often it was called.
    fn reach_post(&self, node: &Scope<Task, Shared>) -> Stop {
        let before = self.attempts.fetch_add(1, Ordering::SeqCst);
        let attempt = before.saturating_add(1);
        node.fail(format_args!("no post at attempt {attempt}"))
    }

    /// Pays in two steps. A payment of another test between them would be lost, so no other one may run.
    fn pay<R: Wait>(
        &self,
        threads: &R,
        test: &Scope<Task, Shared>,
        amount: i64,
    ) -> Result<(), Stop> {
        let database = database_of(test)?;
        let money = database.ask(threads, test.rt, MONEY)?;
        rest(test.rt);
        database.set_money(threads, test.rt, money.saturating_add(amount))?;
        self.payments.fetch_add(1, Ordering::SeqCst);
        Ok(())
    }
}

/// What Ann has.
const MONEY: &str = "SELECT money FROM account WHERE name = 'ann'";

/// The factory of the database. Where it fails it leaves no folder, since there is no value that could be closed.
fn make_database(rt: &HostRuntime) -> Result<Shared, Stop> {
    let (temporary, id) = (env::temp_dir(rt)?, process::id(rt.process()));
    let folder = format!(in rt.alloc(); "{}/demo-engine-{id}", temporary.as_str())?;
    fs::create_dir(rt, folder.as_str())?;
    let path = format!(in rt.alloc(); "{}/bank.db", folder.as_str())?;
    match Database::create(rt, path) {
        Ok(database) => Ok(Shared::Database { database, folder }),
        Err(why) => {
            fs::remove_dir_all(rt, folder.as_str())?;
            Err(why.into())
        }
    }
}

/// The database, which the engine shares with all.
fn database_of<'a>(test: &Scope<'a, Task, Shared>) -> Result<&'a Database, Stop> {
    match test.shared.first() {
        Some(Shared::Database { database, .. }) => Ok(database),
        _ => Err(test.fail("no database is shared")),
    }
}

/// Fails unless the database answers so.
fn want<R: Wait>(
    threads: &R,
    test: &Scope<Task, Shared>,
    question: &str,
    wanted: i64,
) -> Result<(), Stop> {
    let found = database_of(test)?.ask(threads, test.rt, question)?;
    if found != wanted {
        return Err(test.fail(format_args!("found {found}, wanted {wanted}")));
    }
    Ok(())
}

/// Fails unless Ann has so much.
fn want_least<R: Wait>(threads: &R, test: &Scope<Task, Shared>, least: i64) -> Result<(), Stop> {
    let found = database_of(test)?.ask(threads, test.rt, MONEY)?;
    if found < least {
        return Err(test.fail(format_args!("found {found}, wanted {least} at least")));
    }
    Ok(())
}

/// Takes the time of a small test.
fn rest(rt: &HostRuntime) {
    thread::sleep(rt, Duration::from_millis(20));
}

fn main(rt: HostRuntime) -> ExitCode {
    let demo = Demo {
        payments: AtomicU64::new(0),
        attempts: AtomicU64::new(0),
    };
    main_of(&rt, &rt, "demo", &demo, tests(&rt))
}
