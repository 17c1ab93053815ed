//! What can be measured.
use crate::suite::BUSY;

/// A case: what an operation is, and in which contexts.
#[derive(Clone, Copy)]
pub(crate) enum Case {
    /// A look-up of a value in the own context, three contexts deep.
    GetOwn3,
    /// A look-up of a value at the root, from the third context.
    GetRoot3,
    /// A look-up of a value at the root, from the sixteenth context.
    GetRoot16,
    /// A look-up of a value at the root, from the third context, by the key's number.
    GetRoot3Numbered,
    /// What `GetRoot3Numbered` looks up, and then it is shown.
    GetRoot3Shown,
    /// A look-up of a value at the root by the key's number, in an engine with so many classes, from
    /// so many of its last contexts in turn. In all contexts a value stands under another key.
    GetRootNumbered(u32, usize),
    /// A look-up that finds nothing in three contexts.
    GetAbsent3,
    /// A value kept and put over one that stands.
    PutOver,
    /// A value kept, put where nothing stands, and removed.
    PutRemove,
    /// A value computed where none is, and closed with its context: 16 keys a context.
    ComputeFreshAndClose,
    /// A store of an engine with so many classes opened, with 16 lanes.
    Open(u32),
    /// A key named that no lane has named: 64 keys a store.
    NameNew,
    /// A context closed in which nothing stands: 256 contexts a store.
    Close256,
    /// A run of an engine with so many tests, which work for so many steps each and may run beside
    /// one another.
    Tree(u32, u32),
    /// What a run of an engine with so many tests goes over, opened.
    OpenTree(u32),
    /// A look-up of a value at the root from the third context, while one more thread puts values
    /// under another key there.
    GetBesideOther,
    /// The same while it puts values under the same key.
    GetBesideSame,
    /// A compute of a value that stands: all threads compute one key.
    ComputeHot,
}

/// All cases under their words of the command line, in the order of the table.
pub(crate) const CASES: [(&str, Case); 26] = [
    ("get-own-3", Case::GetOwn3),
    ("get-root-3", Case::GetRoot3),
    ("get-root-16", Case::GetRoot16),
    ("get-root-3-numbered", Case::GetRoot3Numbered),
    ("get-root-3-shown", Case::GetRoot3Shown),
    ("get-root-numbered-256", Case::GetRootNumbered(255, 256)),
    (
        "get-root-numbered-256-of-65536",
        Case::GetRootNumbered(65_535, 256),
    ),
    (
        "get-root-numbered-65536",
        Case::GetRootNumbered(65_535, 65_536),
    ),
    ("get-absent-3", Case::GetAbsent3),
    ("put-over", Case::PutOver),
    ("put-remove", Case::PutRemove),
    ("compute-fresh-and-close", Case::ComputeFreshAndClose),
    ("open-256x16", Case::Open(255)),
    ("open-65536x16", Case::Open(65_535)),
    ("name-new", Case::NameNew),
    ("close-256", Case::Close256),
    ("tree-1", Case::Tree(1, 0)),
    ("tree-16", Case::Tree(16, 0)),
    ("tree-255", Case::Tree(255, 0)),
    ("tree-4095", Case::Tree(4_095, 0)),
    ("tree-65535", Case::Tree(65_535, 0)),
    ("tree-255-busy", Case::Tree(255, BUSY)),
    ("open-tree-255", Case::OpenTree(255)),
    ("get-root-3-beside-other", Case::GetBesideOther),
    ("get-root-3-beside-same", Case::GetBesideSame),
    ("compute-hot", Case::ComputeHot),
];

impl Case {
    /// On how many threads the table has it.
    pub(crate) fn quick_threads(self) -> usize {
        match self {
            Case::GetBesideOther | Case::GetBesideSame | Case::ComputeHot => 4,
            Case::Tree(_, BUSY) => 4,
            _ => 1,
        }
    }

    /// On how many threads it can run: a run of a tree has a lane for each.
    pub(crate) fn most_threads(self) -> usize {
        match self {
            Case::ComputeFreshAndClose | Case::Open(_) | Case::NameNew | Case::Close256 => 1,
            Case::Tree(..) | Case::OpenTree(_) => 16,
            _ => 14,
        }
    }

    /// Whether one more thread writes meanwhile, whose time is not counted.
    pub(crate) fn has_writer(self) -> bool {
        matches!(self, Case::GetBesideOther | Case::GetBesideSame)
    }
}

/// The case of this word, and the word.
pub(crate) fn named(name: &str) -> Option<(&'static str, Case)> {
    for row in &CASES {
        if row.0 == name {
            return Some(*row);
        }
    }
    None
}
