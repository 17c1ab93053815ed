//! Everything the lanes of a store share, except the values.
ghost use Rattle.std.specs.Prelude.{◌≡◌, ◌*◌, ◌<◌, ◌≤◌, [], length};
ghost use mathlib.Core.List.{IsPrefix};
ghost use Rattle.ext_history.specs.Histories.{seen_by};
ghost use Rattle.ext_model.specs.CallActs.{Calls};
ghost use Rattle.ext_store_core.specs.ContextCalls.{AreBlocks, IsWell, cell_in};

use ext_cells::{CellLane, Cells};
use ext_model::{CellNo, ContextNo, KeyNo};
use ext_tree::{KeyPlaces, Tree};
use ext_waiters::Waiters;
use std::marker::Model;

/// Everything the lanes of a store share by reference, except the values: its contexts, the places
/// of its keys, a cell for each context and place, and who waits for a claim to end.
#[derive(Drop)]
pub struct StoreCore {
    pub(crate) tree: Tree,
    pub(crate) keys: KeyPlaces,
    pub(crate) cells: Cells,
    // No contract mentions them.
    pub(crate) waiters: Waiters,
}

impl Model for StoreCore {
    ghost use Rattle.ext_store_core.specs.ContextCalls.{ContextCells, IsWell};

    ghost Value = { ContextCells };

    ghost view = { λ s. record { cells = s.cells.id; keys = s.keys; tree = s.tree; tries = s.cells.tries } };

    ghost invariant = { λ s. IsWell s.tree s.keys s.cells.id.limits };
}

impl StoreCore {
    /// Puts together what the lanes of a store share; nobody waits yet. There must be a cell for
    /// each context and key, and at most 1,048,575 numbers.
    pub fn new(tree: Tree, keys: KeyPlaces, cells: Cells) -> StoreCore
        requires { IsWell tree keys cells.id.limits }
        ensures { result ≡ record { cells = cells.id; keys = keys; tree = tree; tries = cells.tries } }
    {
        StoreCore {
            tree,
            keys,
            cells,
            waiters: Waiters::new(),
        }
    }

    /// Answers the tree of the contexts.
    pub fn tree(&self) -> &Tree
        ensures { result.now ≡ self.now.tree }
    {
        &self.tree
    }

    /// Answers the places of the keys.
    pub fn keys(&self) -> &KeyPlaces
        ensures { result.now ≡ self.now.keys }
    {
        &self.keys
    }

    /// Whether the store keeps the faults of factories that fail.
    pub fn keeps_faults(&self) -> bool
        ensures { result ≡ self.now.cells.limits.keep_faults }
    {
        self.cells.keeps_faults()
    }

    /// Answers the most exchanges of a change on its cell's word, and the most passes of a look-up
    /// after its first: 1 to 64.
    pub fn tries(&self) -> u32
        ensures tries { result ≡ self.now.tries }
        ensures within { (1 ≤ self.now.tries) × (self.now.tries ≤ 64) }
    {
        self.cells.tries()
    }

    /// Tells a proof what holds of everything that lanes share. There is a cell for each context
    /// and place of a key, there are 32 to 1,024 such places, in blocks of 32, at most 1,048,575
    /// numbers, and at least one try. It does nothing when it runs.
    pub fn tell_proof(&self)
        ensures cells { self.now.cells.limits.cells ≡ length self.now.tree * length self.now.keys }
        ensures keys { AreBlocks self.now.keys }
        ensures few { self.now.cells.limits.numbers ≤ 1048575 }
        ensures tries { 1 ≤ self.now.tries }
    {
        let _tries = self.cells.tries();
    }

    /// Makes both lanes speak of one history: afterwards what the first has seen is a prefix of
    /// what the second has seen. Neither makes an event; the second makes one step.
    pub fn meet(&self, first: &mut CellLane, second: &mut CellLane)
        requires first { first.old.cells ≡ self.now.cells }
        requires second { second.old.cells ≡ self.now.cells }
        ensures first_lane { first.new.cells ≡ first.old.cells }
        ensures second_lane { second.new.cells ≡ second.old.cells }
        ensures first_call { Calls first.old.cells.limits first.old.view first.new.view [] }
        ensures second_call { Calls second.old.cells.limits second.old.view second.new.view [] }
        ensures met { IsPrefix (seen_by first.new.view) (seen_by second.new.view) }
    {
        self.cells.meet(first, second);
    }

    // How many blocks of 32 the places of keys are.
    pub(crate) fn blocks(&self) -> usize
        ensures places { length self.now.keys ≡ result * 32 }
        ensures some { 1 ≤ result }
    {
        self.tell_proof();
        self.keys.len() / 32
    }

    // The cell of the key in the context.
    pub(crate) fn cell(&self, context: ContextNo, key: KeyNo) -> CellNo
        requires context { context < length self.now.tree }
        requires key { key < length self.now.keys }
        ensures cell { result ≡ cell_in self.now key context }
        ensures within { result < self.now.cells.limits.cells }
    {
        let _contexts = self.tree.len();
        self.keys.cell(context, key)
    }
}
