//! The database that the tests share.
use sqlite::{Alter, Connection, Error, params};
use std::sync::{Mutex, Wait};

/// What makes its table.
const TABLE: &str = "CREATE TABLE account (name TEXT PRIMARY KEY, money INTEGER NOT NULL);
    INSERT INTO account VALUES ('ann', 100), ('bob', 100)";

/// The database, in a file. A test has the file to itself for one question or one change, and no longer.
#[derive(Drop)]
pub(crate) struct Database {
    file: String,
    door: Mutex<u8>,
}

impl Database {
    /// Makes the file, and the table in it.
    pub(crate) fn create(rt: &HostRuntime, file: String) -> anyhow::Result<Database> {
        make_table(Connection::open(rt, file.as_str()))?;
        Ok(Database {
            file,
            door: Mutex::new(0),
        })
    }

    /// The number that it answers to this question.
    pub(crate) fn ask<R: Wait>(
        &self,
        rt: &R,
        files: &HostRuntime,
        question: &str,
    ) -> anyhow::Result<i64> {
        let _door = self.door.lock(rt);
        number(Connection::open(files, self.file.as_str()), question)
    }

    /// Sets what Ann has.
    pub(crate) fn set_money<R: Wait>(
        &self,
        rt: &R,
        files: &HostRuntime,
        money: i64,
    ) -> anyhow::Result<()> {
        let _door = self.door.lock(rt);
        update_money(Connection::open(files, self.file.as_str()), money)
    }
}

// What is done over a connection does not name what it stands on, by which its proof costs half.

/// Makes the table.
fn make_table<S: Alter + Drop>(opened: Result<Connection<S>, Error>) -> anyhow::Result<()> {
    Ok(opened?.execute_batch(TABLE)?)
}

/// The number that is answered to this question.
fn number<S: Alter + Drop>(
    opened: Result<Connection<S>, Error>,
    question: &str,
) -> anyhow::Result<i64> {
    let row = opened?.query_row(question, &[])?;
    Ok(row.get(0)?)
}

/// Sets what Ann has.
fn update_money<S: Alter + Drop>(
    opened: Result<Connection<S>, Error>,
    money: i64,
) -> anyhow::Result<()> {
    opened?.execute(
        "UPDATE account SET money = ?1 WHERE name = 'ann'",
        params![money],
    )?;
    Ok(())
}
