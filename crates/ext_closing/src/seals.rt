//! The seals of a context: each block of its keys at one step as far as nobody used them, and then
//! those that are left, in order.
ghost use Rattle.std.specs.Prelude.{◌≡◌, ◌≤◌, ◌<◌, ◌+◌, ◌-◌, ◌*◌, ◌/◌, [], length, IfErr, IfNone, IfOk, IfSome, Some};
ghost use Rattle.ext_history.specs.Histories.{seen_by};
ghost use Rattle.ext_model.specs.History.{IsLegal};
ghost use Rattle.ext_store.specs.Stores.{IsCloserOf, IsLaneOf, StillKeeps};
ghost use Rattle.ext_closing.specs.Sealing.{SealsInOrder, fault_of, numbers_left};
ghost use Rattle.ext_closing.specs.InnerSteps.{BeginsAt, BlockBegun, BlocksDone, EndsEmpty, IsMarked, IsOfKey, SealedSoFar, SealingEnds, SealsNext, SealsOn, SealsRest};

use crate::CloseFault;
use ext_model::{FallingNumbers, KeyNo};
use ext_store::{Closer, Lane, Refusal, Store};

// A block of 32 keys whose unused ones are sealed.
#[derive(Clone, Copy, Drop)]
pub(crate) struct Marked {
    // The block's number, from 0.
    pub(crate) block: usize,
    // Which of its keys are left, the first in bit 0.
    pub(crate) marks: u32,
}

// Seals the blocks of the context in order, up to the first of which keys are left, or all.
pub(crate) fn first_marked<V>(
    store: &Store<V>,
    closer: &Closer,
    lane: &mut Lane<V>,
) -> Option<Marked>
    requires lane { IsLaneOf store.now.id lane.old }
    requires closer { IsCloserOf store.now closer.now }
    ensures all { IfNone result (EndsEmpty store.now closer.now.context lane.old.cells lane.new.cells) }
    ensures marked { IfSome result (BeginsAt store.now closer.now.context lane.old.cells lane.new.cells) }
    ensures known { lane.new.known ≡ lane.old.known }
    ensures faults { lane.new.faults ≡ lane.old.faults }
    ensures keys { lane.new.keys ≡ lane.old.keys }
    ensures lane { IsLaneOf store.now.id lane.new }
    ensures kept { StillKeeps lane.old lane.new }
{
    let keys = store.key_count();
    for block in 0..keys / 32 {
        let marks = store.seal_unused(lane, closer, block);
        lane.tell_proof();
        if marks != 0 {
            return Some(Marked { block, marks });
        }
    }
    None
}

// Seals what is left of this block and those behind it, and puts the numbers that remain into the
// list, the greatest first.
pub(crate) fn seal_from<V, const ROOM: usize>(
    store: &Store<V>,
    closer: &Closer,
    lane: &mut Lane<V>,
    marked: Marked,
    numbers: &mut FallingNumbers<ROOM>,
) -> Result<(), CloseFault>
    requires lane { IsLaneOf store.now.id lane.old }
    requires closer { IsCloserOf store.now closer.now }
    requires marked { IsMarked store.now closer.now.context lane.old.cells marked }
    requires room { length store.now.id.keys ≤ ROOM }
    requires none { numbers.old ≡ [] }
    ensures ends { (before : _) → SealedSoFar store.now closer.now.context (marked.block * 32) before lane.old.cells [] → SealingEnds store.now closer.now.context before lane.new.cells (fault_of result) }
    ensures numbers { IfOk result (λ _. (before : _) → SealedSoFar store.now closer.now.context (marked.block * 32) before lane.old.cells [] → numbers.new ≡ numbers_left store.now closer.now.context lane.new.cells) }
    ensures in_order { (before : _) → BlockBegun store.now closer.now.context marked.block marked.marks before lane.old.cells → SealsInOrder store.now closer.now.context before lane.new.cells }
    ensures refusal { IfErr result IsOfKey }
    ensures steps { length lane.new.cells.view.fronts ≤ length lane.old.cells.view.fronts + (length store.now.id.keys * (store.now.tries + 1) + (length store.now.id.keys / 32 - (marked.block + 1))) }
    ensures known { lane.new.known ≡ lane.old.known }
    ensures faults { lane.new.faults ≡ lane.old.faults }
    ensures keys { lane.new.keys ≡ lane.old.keys }
    ensures lane { IsLaneOf store.now.id lane.new }
    ensures kept { StillKeeps lane.old lane.new }
{
    if let Err(why) = seal_marked(store, closer, lane, marked, numbers) {
        return Err(why);
    }
    let keys = store.key_count();
    for block in marked.block + 1..keys / 32 {
        if let Err(why) = seal_block(store, closer, lane, block, numbers) {
            return Err(why);
        }
    }
    Ok(())
}

// Seals a block of 32 places, and adds the numbers that their seals keep.
fn seal_block<V, const ROOM: usize>(
    store: &Store<V>,
    closer: &Closer,
    lane: &mut Lane<V>,
    block: usize,
    numbers: &mut FallingNumbers<ROOM>,
) -> Result<(), CloseFault>
    requires lane { IsLaneOf store.now.id lane.old }
    requires closer { IsCloserOf store.now closer.now }
    requires block { block * 32 + 32 ≤ length store.now.id.keys }
    requires room { length store.now.id.keys ≤ ROOM }
    requires few { length numbers.old ≤ block * 32 }
    ensures sealed { IfOk result (λ _. SealsOn store.now closer.now.context (block * 32) (block * 32 + 32) lane.old.cells lane.new.cells numbers.old numbers.new) }
    ensures stops { IfErr result (λ why. (before : _) → SealedSoFar store.now closer.now.context (block * 32) before lane.old.cells numbers.old → SealingEnds store.now closer.now.context before lane.new.cells (Some why)) }
    ensures few { IfOk result (λ _. length numbers.new ≤ block * 32 + 32) }
    ensures in_order { (before : _) → BlocksDone store.now closer.now.context block before lane.old.cells → BlocksDone store.now closer.now.context (block + 1) before lane.new.cells }
    ensures refusal { IfErr result IsOfKey }
    ensures steps { length lane.new.cells.view.fronts ≤ length lane.old.cells.view.fronts + (32 * (store.now.tries + 1) + 1) }
    ensures known { lane.new.known ≡ lane.old.known }
    ensures faults { lane.new.faults ≡ lane.old.faults }
    ensures keys { lane.new.keys ≡ lane.old.keys }
    ensures lane { IsLaneOf store.now.id lane.new }
    ensures kept { StillKeeps lane.old lane.new }
{
    let left = store.seal_unused(lane, closer, block);
    lane.tell_proof();
    let marked = Marked { block, marks: left };
    seal_marked(store, closer, lane, marked, numbers)
}

// Seals the keys of the block that are left, and adds the numbers that its seals keep.
fn seal_marked<V, const ROOM: usize>(
    store: &Store<V>,
    closer: &Closer,
    lane: &mut Lane<V>,
    marked: Marked,
    numbers: &mut FallingNumbers<ROOM>,
) -> Result<(), CloseFault>
    requires lane { IsLaneOf store.now.id lane.old }
    requires closer { IsCloserOf store.now closer.now }
    requires marked { IsMarked store.now closer.now.context lane.old.cells marked }
    requires room { length store.now.id.keys ≤ ROOM }
    requires few { length numbers.old ≤ marked.block * 32 }
    ensures sealed { IfOk result (λ _. SealsOn store.now closer.now.context (marked.block * 32) (marked.block * 32 + 32) lane.old.cells lane.new.cells numbers.old numbers.new) }
    ensures stops { IfErr result (λ why. (before : _) → SealedSoFar store.now closer.now.context (marked.block * 32) before lane.old.cells numbers.old → SealingEnds store.now closer.now.context before lane.new.cells (Some why)) }
    ensures few { IfOk result (λ _. length numbers.new ≤ marked.block * 32 + 32) }
    ensures in_order { SealsRest store.now closer.now.context marked.block marked.marks lane.old.cells lane.new.cells }
    ensures refusal { IfErr result IsOfKey }
    ensures steps { length lane.new.cells.view.fronts ≤ length lane.old.cells.view.fronts + 32 * (store.now.tries + 1) }
    ensures known { lane.new.known ≡ lane.old.known }
    ensures faults { lane.new.faults ≡ lane.old.faults }
    ensures keys { lane.new.keys ≡ lane.old.keys }
    ensures lane { IsLaneOf store.now.id lane.new }
    ensures kept { StillKeeps lane.old lane.new }
{
    let _keys = store.key_count();
    // The marks that are left, the next key's in bit 0.
    let mut left = marked.marks;
    for place in 0..32 {
        if left == 0 {
            return Ok(());
        }
        if left % 2 == 1 {
            match seal_key(store, closer, lane, marked.block * 32 + place) {
                Ok(kept) => numbers.put_in_kept(kept),
                Err(why) => return Err(why),
            }
        }
        left /= 2;
    }
    Ok(())
}

// Seals one key of the closer's context.
#[tactic(auto, using(crate::proofs::Counting::fronts_within))]
fn seal_key<V>(
    store: &Store<V>,
    closer: &Closer,
    lane: &mut Lane<V>,
    key: KeyNo,
) -> Result<Option<u32>, CloseFault>
    requires lane { IsLaneOf store.now.id lane.old }
    requires closer { IsCloserOf store.now closer.now }
    requires key { key < length store.now.id.keys }
    ensures answer { SealsNext store.now closer.now.context key lane.old.cells lane.new.cells result }
    ensures legal { IsLegal lane.new.cells.cells.limits (seen_by lane.new.cells.view) }
    ensures steps { length lane.new.cells.view.fronts ≤ length lane.old.cells.view.fronts + (store.now.tries + 1) }
    ensures known { lane.new.known ≡ lane.old.known }
    ensures faults { lane.new.faults ≡ lane.old.faults }
    ensures keys { lane.new.keys ≡ lane.old.keys }
    ensures lane { IsLaneOf store.now.id lane.new }
    ensures kept { StillKeeps lane.old lane.new }
{
    let sealed = store.seal(lane, closer, key);
    lane.tell_proof();
    match sealed {
        Ok(kept) => Ok(kept),
        Err(Refusal::Busy(_)) => Err(CloseFault::Busy(key)),
        Err(Refusal::Contended) => Err(CloseFault::Contended(key)),
        // A seal is refused for no other reason.
        Err(Refusal::Closed(_)) => unreachable!(),
        Err(Refusal::Exhausted) => unreachable!(),
        Err(Refusal::DirectoryFull) => unreachable!(),
        Err(Refusal::Unplaced) => unreachable!(),
        Err(Refusal::Memory) => unreachable!(),
    }
}
