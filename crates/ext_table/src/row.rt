//! What a table says of one node.
ghost use Rattle.std.specs.Prelude.{◌≡◌};
ghost use Rattle.ext_table.specs.Tables.{callbacks_of};

use ext_engine::{Kind, Mode};
use ext_locks::LockMode;

/// A lock that a node names, by the index of its name among those of the table.
#[derive(Clone, Copy, Debug, PartialEq, Eq)]
pub struct NamedLock {
    pub name: usize,
    pub mode: LockMode,
}

/// What a table says of one node.
#[derive(Drop)]
pub struct Row<T> {
    /// What the test is given; a container has none.
    pub test: Option<T>,
    /// Of what the value is made that the tests at and below the node share.
    pub share: Option<T>,
    /// What each callback is given that the node registers, in the order of registration.
    pub before_all: Vec<T>,
    pub before_each: Vec<T>,
    pub after_each: Vec<T>,
    pub after_all: Vec<T>,
    /// The node's mode.
    pub mode: Mode,
    /// The mode of the nodes below it that do not say theirs.
    pub mode_below: Mode,
    /// Whether nothing may run beside the tests at and below the node.
    pub is_isolated: bool,
    /// The locks that the tests at and below the node hold.
    pub locks: Vec<NamedLock>,
    /// How often the test is run at most until it does not fail, where the table says so.
    pub attempts: Option<u32>,
    /// After how many seconds the test is told as slow, where the table says so.
    pub slow_after: Option<u32>,
    /// Whether the node is in reserve: then `Engine::comes` decides whether it is run.
    pub is_in_reserve: bool,
    /// The index of the node that it stands in; the root's own.
    pub above: usize,
}

impl<T> Row<T> {
    /// What each callback of this kind is given; nothing for `Kind::Test`.
    pub(crate) fn callbacks(&self, kind: Kind) -> &[T]
        ensures { result.now ≡ callbacks_of kind self.now }
    {
        match kind {
            Kind::BeforeAll => self.before_all.as_slice(),
            Kind::BeforeEach => self.before_each.as_slice(),
            Kind::Test => &[],
            Kind::AfterEach => self.after_each.as_slice(),
            Kind::AfterAll => self.after_all.as_slice(),
        }
    }
}
