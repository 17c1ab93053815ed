//! What is said of the last node of a table. Where a table has no node, nothing is said.
ghost use Rattle.std.specs.Prelude.{◌≡◌, ◌++◌, [], ◌∷◌, true, Some, ◌≤◌, ◌<◌, All, Contains, IfOk, IfSome, IsNone, if◌then◌else◌, is_ok, length, slice_get};
ghost use Rattle.ext_table.specs.Building.{ChangesLast, IsGrown, IsNamed};
ghost use Rattle.ext_table.specs.Tables.{texts_in};
ghost use Rattle.ext_lifecycle.specs.declared.mode.Mode.TheVariants as modes;

use crate::{NamedLock, TestTable};
use ext_engine::Mode;
use ext_locks::LockMode;
use std::alloc::{AllocError, Global};

impl<T: Drop> TestTable<T> {
    /// The last node runs after those beside it, one after another, and so do the nodes below it.
    /// Javadoc `Execution`, `SAME_THREAD`.
    pub fn in_turn(&mut self)
        ensures said { ChangesLast (λ row changed. changed ≡ record row { mode = modes.SameThread; mode_below = modes.SameThread }) self.old.rows.items self.new.rows.items }
        ensures others { (self.new.ids ≡ self.old.ids) × (self.new.lock_names ≡ self.old.lock_names) × (self.new.last ≡ self.old.last) }
    {
        if let Some(row) = self.rows.last_mut() {
            row.mode = Mode::SameThread;
            row.mode_below = Mode::SameThread;
        }
    }

    /// The nodes below the last one run one after another.
    pub fn tests_in_turn(&mut self)
        ensures said { ChangesLast (λ row changed. changed ≡ record row { mode_below = modes.SameThread }) self.old.rows.items self.new.rows.items }
        ensures others { (self.new.ids ≡ self.old.ids) × (self.new.lock_names ≡ self.old.lock_names) × (self.new.last ≡ self.old.last) }
    {
        if let Some(row) = self.rows.last_mut() {
            row.mode_below = Mode::SameThread;
        }
    }

    /// No other test runs beside those at and below the last node. Javadoc `Isolated`.
    pub fn alone(&mut self)
        ensures said { ChangesLast (λ row changed. changed ≡ record row { is_isolated = true }) self.old.rows.items self.new.rows.items }
        ensures others { (self.new.ids ≡ self.old.ids) × (self.new.lock_names ≡ self.old.lock_names) × (self.new.last ≡ self.old.last) }
    {
        if let Some(row) = self.rows.last_mut() {
            row.is_isolated = true;
        }
    }

    /// The tests at and below the last node share a value, which `Engine::make` makes of this.
    pub fn share(&mut self, given: T)
        ensures said { ChangesLast (λ row changed. changed ≡ record row { share = Some given }) self.old.rows.items self.new.rows.items }
        ensures others { (self.new.ids ≡ self.old.ids) × (self.new.lock_names ≡ self.old.lock_names) × (self.new.last ≡ self.old.last) }
    {
        if let Some(row) = self.rows.last_mut() {
            row.share = Some(given);
        }
    }

    /// The last test is run until it does not fail, so often at most; 0 stands for 1. Without it the
    /// run says how often.
    pub fn attempts(&mut self, most: u32)
        ensures said { ChangesLast (λ row changed. changed ≡ record row { attempts = Some most }) self.old.rows.items self.new.rows.items }
        ensures others { (self.new.ids ≡ self.old.ids) × (self.new.lock_names ≡ self.old.lock_names) × (self.new.last ≡ self.old.last) }
    {
        if let Some(row) = self.rows.last_mut() {
            row.attempts = Some(most);
        }
    }

    /// The last test is told as slow after so many seconds.
    pub fn slow_after(&mut self, seconds: u32)
        ensures said { ChangesLast (λ row changed. changed ≡ record row { slow_after = Some seconds }) self.old.rows.items self.new.rows.items }
        ensures others { (self.new.ids ≡ self.old.ids) × (self.new.lock_names ≡ self.old.lock_names) × (self.new.last ≡ self.old.last) }
    {
        if let Some(row) = self.rows.last_mut() {
            row.slow_after = Some(seconds);
        }
    }

    /// The last node is in reserve: `Engine::comes` says whether it is run when its turn comes.
    pub fn reserve(&mut self)
        ensures said { ChangesLast (λ row changed. changed ≡ record row { is_in_reserve = true }) self.old.rows.items self.new.rows.items }
        ensures others { (self.new.ids ≡ self.old.ids) × (self.new.lock_names ≡ self.old.lock_names) × (self.new.last ≡ self.old.last) }
    {
        if let Some(row) = self.rows.last_mut() {
            row.is_in_reserve = true;
        }
    }

    /// The last node registers a callback before all nodes in it. Takes memory, as the next three do;
    /// refused, it registers none.
    pub fn before_all(&mut self, given: T) -> Result<(), AllocError>
        ensures said { ChangesLast (λ row changed. (changed ≡ record row { before_all = changed.before_all })
            × (changed.before_all.items ≡ (if is_ok result then row.before_all.items ++ given ∷ [] else row.before_all.items))) self.old.rows.items self.new.rows.items }
        ensures others { (self.new.ids ≡ self.old.ids) × (self.new.lock_names ≡ self.old.lock_names) × (self.new.last ≡ self.old.last) }
    {
        match self.rows.last_mut() {
            Some(row) => push_given(&mut row.before_all, given),
            None => Ok(()),
        }
    }

    /// The last node registers a callback before each test at or below it.
    pub fn before_each(&mut self, given: T) -> Result<(), AllocError>
        ensures said { ChangesLast (λ row changed. (changed ≡ record row { before_each = changed.before_each })
            × (changed.before_each.items ≡ (if is_ok result then row.before_each.items ++ given ∷ [] else row.before_each.items))) self.old.rows.items self.new.rows.items }
        ensures others { (self.new.ids ≡ self.old.ids) × (self.new.lock_names ≡ self.old.lock_names) × (self.new.last ≡ self.old.last) }
    {
        match self.rows.last_mut() {
            Some(row) => push_given(&mut row.before_each, given),
            None => Ok(()),
        }
    }

    /// The last node registers a callback after each test at or below it.
    pub fn after_each(&mut self, given: T) -> Result<(), AllocError>
        ensures said { ChangesLast (λ row changed. (changed ≡ record row { after_each = changed.after_each })
            × (changed.after_each.items ≡ (if is_ok result then row.after_each.items ++ given ∷ [] else row.after_each.items))) self.old.rows.items self.new.rows.items }
        ensures others { (self.new.ids ≡ self.old.ids) × (self.new.lock_names ≡ self.old.lock_names) × (self.new.last ≡ self.old.last) }
    {
        match self.rows.last_mut() {
            Some(row) => push_given(&mut row.after_each, given),
            None => Ok(()),
        }
    }

    /// The last node registers a callback after all nodes in it.
    pub fn after_all(&mut self, given: T) -> Result<(), AllocError>
        ensures said { ChangesLast (λ row changed. (changed ≡ record row { after_all = changed.after_all })
            × (changed.after_all.items ≡ (if is_ok result then row.after_all.items ++ given ∷ [] else row.after_all.items))) self.old.rows.items self.new.rows.items }
        ensures others { (self.new.ids ≡ self.old.ids) × (self.new.lock_names ≡ self.old.lock_names) × (self.new.last ≡ self.old.last) }
    {
        match self.rows.last_mut() {
            Some(row) => push_given(&mut row.after_all, given),
            None => Ok(()),
        }
    }

    /// The tests at and below the last node hold the lock of this name. Takes memory; refused, the
    /// table is as it was. Javadoc `ResourceLock`.
    pub fn lock(&mut self, name: &str, mode: LockMode) -> Result<(), AllocError>
        ensures said { ChangesLast (λ row changed. (changed ≡ record row { locks = changed.locks })
            × IsNamed (is_ok result) (texts_in self.new.lock_names.items) name.now mode row.locks.items changed.locks.items) self.old.rows.items self.new.rows.items }
        ensures names { IsGrown (is_ok result) (texts_in self.old.lock_names.items) name.now (texts_in self.new.lock_names.items) }
        ensures others { (self.new.ids ≡ self.old.ids) × (self.new.last ≡ self.old.last) }
    {
        match self.rows.last_mut() {
            Some(row) => name_lock(self.alloc, &mut row.locks, &mut self.lock_names, name, mode),
            None => Ok(()),
        }
    }
}

/// Adds a lock of this name. Refused, it adds neither.
fn name_lock(
    alloc: Global,
    locks: &mut Vec<NamedLock>,
    names: &mut Vec<String>,
    name: &str,
    mode: LockMode,
) -> Result<(), AllocError>
    ensures named { IsNamed (is_ok result) (texts_in names.new.items) name.now mode locks.old.items locks.new.items }
    ensures grown { IsGrown (is_ok result) (texts_in names.old.items) name.now (texts_in names.new.items) }
    ensures known { All (λ lock. lock.name < length names.old.items) locks.old.items → All (λ lock. lock.name < length names.new.items) locks.new.items }
    ensures longer { length names.old.items ≤ length names.new.items }
{
    match locks.reserve(1) {
        Ok(()) => {}
        Err(_) => return Err(AllocError),
    }
    match index_of(alloc, names, name) {
        Ok(name) => {
            locks.push_reserved(NamedLock { name, mode });
            Ok(())
        }
        Err(_) => Err(AllocError),
    }
}

/// Adds what a callback is given.
fn push_given<T: Drop>(list: &mut Vec<T>, given: T) -> Result<(), AllocError>
    ensures { list.new.items ≡ (if is_ok result then list.old.items ++ given ∷ [] else list.old.items) }
{
    match list.push(given) {
        Ok(()) => Ok(()),
        Err(_) => Err(AllocError),
    }
}

/// The index of the name of a lock, which is added if it is new.
fn index_of(alloc: Global, names: &mut Vec<String>, name: &str) -> Result<usize, AllocError>
    ensures index { IfOk result (λ index. slice_get (texts_in names.new.items) index ≡ Some name.now) }
    ensures grown { IsGrown (is_ok result) (texts_in names.old.items) name.now (texts_in names.new.items) }
    ensures longer { length names.old.items ≤ length names.new.items }
{
    if let Some(index) = known_index(names.as_slice(), name) {
        return Ok(index);
    }
    let index = names.len();
    let Ok(name) = String::from_str(alloc, name) else {
        return Err(AllocError);
    };
    match names.push(name) {
        Ok(()) => Ok(index),
        Err(_) => Err(AllocError),
    }
}

/// The index at which the name stands, if it does.
fn known_index(names: &[String], name: &str) -> Option<usize>
    ensures index { IfSome result (λ index. slice_get (texts_in names.now) index ≡ Some name.now) }
    ensures none { IsNone result → ¬ Contains (texts_in names.now) name.now }
{
    for (index, known) in names.iter().enumerate() {
        if known.as_str() == name {
            return Some(index);
        }
    }
    None
}
