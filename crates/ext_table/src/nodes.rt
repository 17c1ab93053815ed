//! The nodes that the calls of a table add.
ghost use Rattle.std.specs.Prelude.{◌≡◌, ◌<◌, ◌++◌, [], ◌∷◌, None, Some, IfErr, IfOk, IfSome, codes, length, take};
ghost use Rattle.ext_table.specs.Building.{AddsAs, IsNewRow, IsNewTable, IsNoTable, IsPushed, above_of};

use crate::{Row, TableFault, TestTable};
use ext_engine::Mode;
use ext_ids::{PartFault, UniqueId};
use std::alloc::{AllocError, Global};

impl<T: Drop> TestTable<T> {
    /// The table of an engine of this name, without tests. What is said before the first class is
    /// said of the engine. Takes memory. Refused as `Part`, and as `Memory`.
    pub fn new(alloc: Global, engine: &str) -> Result<TestTable<T>, TableFault>
        ensures made { IfOk result (IsNewTable engine.now) }
        ensures refused { IfErr result (IsNoTable engine.now) }
    {
        let id = match UniqueId::from_parts(alloc, &[("engine", engine)]) {
            Ok(id) => id,
            Err(PartFault::Memory) => return Err(TableFault::Memory),
            Err(why) => return Err(TableFault::Part(why)),
        };
        let mut table = TestTable {
            alloc,
            ids: Vec::new(alloc),
            rows: Vec::new(alloc),
            lock_names: Vec::new(alloc),
            last: Vec::new(alloc),
        };
        let row = new_row(alloc, None, Mode::Concurrent, 0);
        match table.push(0, id, row) {
            Ok(()) => Ok(table),
            Err(_) => Err(TableFault::Memory),
        }
    }

    /// Adds a class, in which the next tests stand. Takes memory. Refused as `Part`, and as
    /// `Memory`; the table is then as it was, as after each refusal of the next calls.
    pub fn class(&mut self, name: &str) -> Result<(), TableFault>
        ensures { AddsAs 1 (codes "class") name.now None self.old self.new result }
    {
        self.node(1, "class", name, None)
    }

    /// Adds a test to the last class. Refused as `NothingAbove` before the first class, as `Part`,
    /// and as `Memory`.
    pub fn test(&mut self, name: &str, given: T) -> Result<(), TableFault>
        ensures { AddsAs 2 (codes "test") name.now (Some given) self.old self.new result }
    {
        self.node(2, "test", name, Some(given))
    }

    /// Adds a container to the last class, in which the next cases stand. Refused as `test` is.
    /// JUnit 5 User Guide, section "Parameterized Tests".
    pub fn group(&mut self, name: &str) -> Result<(), TableFault>
        ensures { AddsAs 2 (codes "test") name.now None self.old self.new result }
    {
        self.node(2, "test", name, None)
    }

    /// Adds a case to the last group: a test. Refused as `test` is, before the first group as
    /// `NothingAbove`.
    pub fn case(&mut self, name: &str, given: T) -> Result<(), TableFault>
        ensures { AddsAs 3 (codes "case") name.now (Some given) self.old self.new result }
    {
        self.node(3, "case", name, Some(given))
    }

    /// Adds a node of this type and name, so many levels below the engine, to the last node of the
    /// level above. With something given it is a test. Takes memory. Refused as `NothingAbove` where
    /// there is no such node, and for level 0, as `Part`, and as `Memory`.
    pub fn node(
        &mut self,
        level: usize,
        kind: &str,
        name: &str,
        test: Option<T>,
    ) -> Result<(), TableFault>
        ensures { AddsAs level kind.now name.now test self.old self.new result }
    {
        let Some(above) = self.index_above(level) else {
            return Err(TableFault::NothingAbove);
        };
        let id = match self.ids[above].append(self.alloc, kind, name) {
            Ok(id) => id,
            Err(PartFault::Memory) => return Err(TableFault::Memory),
            Err(why) => return Err(TableFault::Part(why)),
        };
        let row = new_row(self.alloc, test, self.rows[above].mode_below, above);
        match self.push(level, id, row) {
            Ok(()) => Ok(()),
            Err(_) => Err(TableFault::Memory),
        }
    }

    /// The index of the last node of the level above.
    fn index_above(&self, level: usize) -> Option<usize>
        ensures index { result ≡ above_of level self.now.last.items }
        ensures within { IfSome result (λ index. index < length self.now.rows.items) }
    {
        if level == 0 {
            return None;
        }
        self.last.get(level - 1).copied()
    }

    /// Adds a node, of which no lock is named.
    fn push(&mut self, level: usize, id: UniqueId, row: Row<T>) -> Result<(), AllocError>
        requires { row.locks.items ≡ [] }
        ensures { IsPushed level id row self.old self.new result }
    {
        if self.ids.reserve(1).is_err()
            || self.rows.reserve(1).is_err()
            || self.last.reserve(1).is_err()
        {
            return Err(AllocError);
        }
        let index = self.rows.len();
        self.last.truncate(level);
        self.last.push_reserved(index);
        self.ids.push_reserved(id);
        self.rows.push_reserved(row);
        Ok(())
    }
}

/// A row of a node that stands in this one, of which no more is said.
fn new_row<T: Drop>(alloc: Global, test: Option<T>, mode: Mode, above: usize) -> Row<T>
    ensures { IsNewRow test mode above result }
{
    Row {
        test,
        share: None,
        before_all: Vec::new(alloc),
        before_each: Vec::new(alloc),
        after_each: Vec::new(alloc),
        after_all: Vec::new(alloc),
        mode,
        mode_below: mode,
        is_isolated: false,
        locks: Vec::new(alloc),
        attempts: None,
        slow_after: None,
        is_in_reserve: false,
        above,
    }
}
