//! Why a text is no plan.
ghost use Rattle.std.specs.Prelude.{◌≡◌};
ghost use Rattle.ext_plan_reading.specs.FaultParts.{code_of, part_of};
ghost use Rattle.ext_plan_reading.specs.declared.fault.PlanFault.TheVariants.{Memory};

use std::alloc::{AllocError, AllocFailed};
use std::fmt;
use thiserror::Error;

/// The part of a plan in which a fault is. Keys and nodes are numbered from 0 in the order of their tables.
///
/// It is printed after a fault's code: nothing for the plan as a whole, else ` key 1` or ` node 2`.
#[derive(Clone, Copy, Debug, PartialEq, Eq)]
pub enum PlanPart {
    /// The plan as a whole.
    Whole,
    /// The key of this number.
    Key(usize),
    /// The node of this number.
    Node(usize),
}

impl fmt::Display for PlanPart {
    ghost use Rattle.std.specs.Prelude.{Some};
    ghost use Rattle.ext_plan_reading.specs.FaultParts.{part_text};

    ghost output = { λ part. Some (part_text part) };

    fn fmt<W: fmt::Write>(&self, f: &mut fmt::Formatter<W>) -> fmt::Result {
        match self {
            PlanPart::Whole => Ok(()),
            PlanPart::Key(key) => write!(f, " key {key}"),
            PlanPart::Node(node) => write!(f, " node {node}"),
        }
    }
}

/// Why a plan was refused: the first fault of its text, in this order.
///
/// 1. `NotUtf8`, `NotToml`.
/// 2. `UnknownField`, then `BadField`, of the top fields.
/// 3. For each key in order `UnknownField`, `BadField`, `BadLabel`.
/// 4. For each node in order `UnknownField`, `BadField`, `BadId`.
/// 5. `BadTree`.
/// 6. For each node in order `BadTest`, `BadLock`, `BadStep`.
/// 7. `TooMany`.
///
/// `Memory` takes the place of any of them if memory was refused. The number in a variant is that
/// of the key or the node, from 0, and a repetition has that of its test's table. A fault is printed as its line on standard error, such as
/// `plan: P5 key 1`.
#[derive(Clone, Copy, Debug, PartialEq, Eq, Error)]
pub enum PlanFault {
    /// P1: the bytes are not UTF-8. This is for callers that hold bytes: `read_plan_within` takes
    /// text and never answers it.
    NotUtf8,
    /// P2: the text is no TOML document.
    NotToml,
    /// P3: there is a field other than `keep_faults`, `keys`, `key` and `node` at the top, `label`,
    /// `name` and `namespace` in a key, or `id`, `test`, `repeat`, `mode`, `isolated`, `locks`,
    /// `before_all`, `after_all`, `before_each` and `after_each` in a node.
    UnknownField(PlanPart),
    /// P4: `key` or `node` is no array of tables; `label` or `id` is missing or no text; `name` or
    /// `mode` is no text; `namespace`, `test` or `locks` is no array of texts; `keep_faults` or
    /// `isolated` is neither true nor false; `keys` is no whole number from 1 to 1,024;
    /// `before_all`, `after_all`, `before_each` or `after_each` is no array of arrays of texts;
    /// `repeat` is no whole number from 1 to 65,535, or stands without `test`.
    BadField(PlanPart),
    /// P5: a key's label is empty, has a space or is that of a key before it, or its namespace is
    /// an empty array.
    BadLabel(usize),
    /// P6: the id of a node is no unique id, or has more than 16 segments, of which a test that is
    /// repeated leaves one to its repetitions.
    BadId(usize),
    /// P7: the ids do not form a tree. There is none, or more than a plan of its size may have
    /// (`Size::contexts`); the first has more than one segment; or another one is repeated, has one
    /// segment or has no parent before it.
    BadTree,
    /// P8: a text in the `test` or in a callback of a node is no step, or goes up past the root
    /// from a test or container in which it will run. Or a test or callback has 2^32 steps or more,
    /// which takes a text of over 12 GB, or a node has more than 1,048,576 callbacks of a kind,
    /// which takes over 3 MB.
    BadStep(usize),
    /// P9: a text in the `locks` of a node is not `READ NAME` or `READ_WRITE NAME`, with one space
    /// and one word NAME, or its `mode` is neither `same_thread` nor `concurrent`.
    BadLock(usize),
    /// P10: a node is a test and has children, or has `before_all` or `after_all`, even as an empty
    /// array.
    BadTest(usize),
    /// P11: more different keys are declared than steps can name, or the locks have more than 63
    /// different names.
    TooMany,
    /// P12: memory was refused.
    Memory,
}

impl PlanFault {
    /// Returns the part of the plan in which the fault is.
    pub fn part(self) -> PlanPart
        ensures { result ≡ part_of self }
    {
        match self {
            PlanFault::UnknownField(part) | PlanFault::BadField(part) => part,
            PlanFault::BadLabel(key) => PlanPart::Key(key),
            PlanFault::BadId(node)
            | PlanFault::BadStep(node)
            | PlanFault::BadLock(node)
            | PlanFault::BadTest(node) => PlanPart::Node(node),
            PlanFault::NotUtf8
            | PlanFault::NotToml
            | PlanFault::BadTree
            | PlanFault::TooMany
            | PlanFault::Memory => PlanPart::Whole,
        }
    }

    /// The number behind the `P` of the fault's text.
    fn code(self) -> u8
        ensures { result ≡ code_of self }
    {
        match self {
            PlanFault::NotUtf8 => 1,
            PlanFault::NotToml => 2,
            PlanFault::UnknownField(_) => 3,
            PlanFault::BadField(_) => 4,
            PlanFault::BadLabel(_) => 5,
            PlanFault::BadId(_) => 6,
            PlanFault::BadTree => 7,
            PlanFault::BadStep(_) => 8,
            PlanFault::BadLock(_) => 9,
            PlanFault::BadTest(_) => 10,
            PlanFault::TooMany => 11,
            PlanFault::Memory => 12,
        }
    }
}

impl fmt::Display for PlanFault {
    ghost use Rattle.std.specs.Prelude.{Some};
    ghost use Rattle.ext_plan_reading.specs.FaultParts.{line_of};

    ghost output = { λ fault. Some (line_of fault) };

    fn fmt<W: fmt::Write>(&self, f: &mut fmt::Formatter<W>) -> fmt::Result {
        write!(f, "plan: P{}{}", self.code(), self.part())
    }
}

impl From<AllocError> for PlanFault {
    ghost from_gives = { λ _ e. e ≡ Memory };

    fn from(_e: AllocError) -> PlanFault {
        PlanFault::Memory
    }
}

impl<T: Drop> From<AllocFailed<T>> for PlanFault {
    ghost from_gives = { λ _ e. e ≡ Memory };

    fn from(_e: AllocFailed<T>) -> PlanFault {
        PlanFault::Memory
    }
}
