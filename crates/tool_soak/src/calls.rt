//! The calls of a lane, drawn from its numbers, each in a form that waits or in the one that
//! doesn't.
ghost use Rattle.std.specs.Prelude.{◌<◌};
ghost use Rattle.ext_store.specs.Stores.{IsLaneOf};

use crate::chance::{below, once_in};
use crate::fault::SoakFault;
use crate::mark::Mark;
use crate::opening::{
    COMPUTED, CONTEXTS, ENGINE, KEYS, LATE, MANY_LATE, MOVED, Payload, Place, STANDING, Shared,
    late_key,
};
use crate::replies::{Log, Reply};
use ext_model::{ContextNo, Fault, Look};
use ext_store::{Compute, KeepFault, Lane, Refusal};
use ext_tree::Key;
use rand_pcg::Pcg32;
use std::sync::Wait;
use std::sync::atomic::{AtomicU64, Ordering};

/// How many calls a lane makes in a round.
const CALLS: u32 = 400;

/// Whether a call by one of the four keys that was refused so may have been: as busy or contended
/// only where it does not wait. The four keys have numbers before any late key is named.
fn may_refuse(refusal: Refusal, waits: bool) -> bool {
    match refusal {
        Refusal::Closed(_) => true,
        Refusal::Busy(_) | Refusal::Contended => !waits,
        Refusal::Exhausted | Refusal::DirectoryFull | Refusal::Unplaced | Refusal::Memory => false,
    }
}

/// Makes all calls of a lane in a round. In the second half it names late keys, too.
pub(crate) fn make_calls<R: Wait>(
    rt: &R,
    shared: &Shared,
    lane: &mut Lane<Payload>,
    numbers: &mut Pcg32,
    log: &mut Log,
)
    requires { IsLaneOf shared.now.store.id lane.old }
    ensures { IsLaneOf shared.now.store.id lane.new }
{
    for call in 0..CALLS {
        make_call(rt, shared, lane, numbers, log);
        if call >= CALLS / 2 && once_in(numbers, 2) {
            name_late(shared, lane, numbers, log);
        }
    }
}

/// Names a late key, which the lane makes.
fn name_late(shared: &Shared, lane: &mut Lane<Payload>, numbers: &mut Pcg32, log: &mut Log)
    requires { IsLaneOf shared.now.store.id lane.old }
    ensures { IsLaneOf shared.now.store.id lane.new }
{
    let late = if shared.many_keys {
        below(numbers, MANY_LATE)
    } else {
        below(numbers, LATE)
    };
    let context = below(numbers, CONTEXTS);
    match late_key(shared.alloc, late) {
        Some(key) => ask_late(shared, lane, context, late, &key, log),
        None => log.wrong_unless(false, SoakFault::Memory),
    }
}

/// Looks for the late key from the context, where nothing stands under it, and asks for its number.
/// Both are refused where all numbers are given.
fn ask_late(
    shared: &Shared,
    lane: &mut Lane<Payload>,
    context: ContextNo,
    late: usize,
    key: &Key,
    log: &mut Log,
)
    requires lane { IsLaneOf shared.now.store.id lane.old }
    requires context { context < 7 }
    requires late { late < 1030 }
    ensures { IsLaneOf shared.now.store.id lane.new }
{
    let seen = shared.store.get(lane, context, key);
    let number = shared.store.number(lane, key);
    let right = match seen {
        Ok(Look::Absent | Look::Closed(_)) | Err(Refusal::Contended) => number.is_ok(),
        Err(Refusal::DirectoryFull) => number == Err(Refusal::DirectoryFull),
        _ => false,
    };
    log.wrong_unless(right, SoakFault::Answer);
    log.add(Reply::Named {
        key: KEYS + late,
        number: number.ok(),
    });
}

/// Tells the numbers of the four keys, which this lane may name only now.
pub(crate) fn tell_numbers(shared: &Shared, lane: &mut Lane<Payload>, log: &mut Log)
    requires { IsLaneOf shared.now.store.id lane.old }
    ensures { IsLaneOf shared.now.store.id lane.new }
{
    for key in 0..KEYS {
        let number = shared.store.number(lane, shared.name(key));
        log.wrong_unless(number.is_ok(), SoakFault::Answer);
        log.add(Reply::Named {
            key,
            number: number.ok(),
        });
    }
}

/// Makes one call. Under the key that one lane moves it looks, it leaves what stands in the engine
/// all along, and under the key that is only computed it puts nothing.
pub(crate) fn make_call<R: Wait>(
    rt: &R,
    shared: &Shared,
    lane: &mut Lane<Payload>,
    numbers: &mut Pcg32,
    log: &mut Log,
)
    requires { IsLaneOf shared.now.store.id lane.old }
    ensures { IsLaneOf shared.now.store.id lane.new }
{
    let place = Place {
        context: below(numbers, CONTEXTS),
        key: below(numbers, KEYS),
    };
    let waits = once_in(numbers, 2);
    let moves = place.key == MOVED;
    let stays = place.key == STANDING && place.context == ENGINE;
    let manner = below(numbers, 3);
    if place.key == COMPUTED {
        compute_or_remove(rt, shared, lane, place, waits, numbers, log);
        return;
    }
    match below(numbers, 4) {
        0 if !moves => {
            put(rt, shared, lane, place, waits, manner == 1, log);
        }
        1 if !moves && !stays => {
            remove(rt, shared, lane, place, waits, log);
        }
        2 if !moves => compute(rt, shared, lane, place, waits, Manner::of(manner), log),
        _ => look(rt, shared, lane, place, waits, log),
    }
}

/// Computes by a factory that fails half the time, removes, or looks.
fn compute_or_remove<R: Wait>(
    rt: &R,
    shared: &Shared,
    lane: &mut Lane<Payload>,
    place: Place,
    waits: bool,
    numbers: &mut Pcg32,
    log: &mut Log,
)
    requires lane { IsLaneOf shared.now.store.id lane.old }
    requires place { (place.context < 7) × (place.key < 4) }
    ensures { IsLaneOf shared.now.store.id lane.new }
{
    let manner = Manner::of(below(numbers, 4));
    match below(numbers, 8) {
        0..=2 => {
            remove(rt, shared, lane, place, waits, log);
        }
        3..=6 => compute(rt, shared, lane, place, waits, manner, log),
        _ => look(rt, shared, lane, place, waits, log),
    }
}

/// Looks the key up from the context. The value of every second number that is found is shown to
/// the lane.
pub(crate) fn look<R: Wait>(
    rt: &R,
    shared: &Shared,
    lane: &mut Lane<Payload>,
    place: Place,
    waits: bool,
    log: &mut Log,
)
    requires lane { IsLaneOf shared.now.store.id lane.old }
    requires place { (place.context < 7) × (place.key < 4) }
    ensures { IsLaneOf shared.now.store.id lane.new }
{
    let name = shared.name(place.key);
    let seen = if waits {
        shared.store.get_wait(rt, lane, place.context, name)
    } else {
        shared.store.get(lane, place.context, name)
    };
    let (from, key) = (place.context, place.key);
    match seen {
        Ok(Look::Found { at, number }) => found(shared, lane, place, at, number, log),
        Ok(Look::Fault { at, number }) => met_fault(shared, lane, key, at, number, log),
        Ok(Look::Absent) => log.add(Reply::Absent { key, from }),
        Ok(Look::Closed(_)) => {}
        Ok(Look::Busy(_)) => log.wrong_unless(!waits, SoakFault::Answer),
        Err(refusal) => log.wrong_unless(may_refuse(refusal, waits), SoakFault::Answer),
    }
}

/// What a look-up from the context of a place found: a number in this context or in another one.
fn found(
    shared: &Shared,
    lane: &mut Lane<Payload>,
    place: Place,
    at: ContextNo,
    number: u32,
    log: &mut Log,
)
    requires { IsLaneOf shared.now.store.id lane.old }
    ensures { IsLaneOf shared.now.store.id lane.new }
{
    let (from, key) = (place.context, place.key);
    log.add(Reply::Found {
        key,
        from,
        at,
        number,
    });
    if number % 2 == 0 {
        let right = match shared.store.show(lane, number) {
            Some(value) => value.place == Place { context: at, key },
            None => false,
        };
        log.wrong_unless(right, SoakFault::Misplaced);
    }
}

/// What a look-up or a compute met: a kept fault, with its number, in this context. It is shown to
/// the lane, and has no value.
fn met_fault(
    shared: &Shared,
    lane: &mut Lane<Payload>,
    key: usize,
    at: ContextNo,
    number: u32,
    log: &mut Log,
)
    requires { IsLaneOf shared.now.store.id lane.old }
    ensures { IsLaneOf shared.now.store.id lane.new }
{
    log.wrong_unless(shared.store.keeps_faults(), SoakFault::Answer);
    let mark = match shared.store.show_fault(lane, number) {
        Some(fault) => Mark::of(fault),
        None => None,
    };
    let no_value = shared.store.show(lane, number).is_none();
    match mark {
        Some(mark) if no_value => log.add(Reply::FaultMet {
            key,
            at,
            number,
            mark,
        }),
        _ => log.wrong_unless(false, SoakFault::Misplaced),
    }
}

/// Keeps a value and puts it in the place. A value that is refused is dropped.
pub(crate) fn put<R: Wait>(
    rt: &R,
    shared: &Shared,
    lane: &mut Lane<Payload>,
    place: Place,
    waits: bool,
    closeable: bool,
    log: &mut Log,
) -> bool
    requires lane { IsLaneOf shared.now.store.id lane.old }
    requires place { (place.context < 7) × (place.key < 4) }
    ensures { IsLaneOf shared.now.store.id lane.new }
{
    let kept = match shared.store.keep(lane, Payload { place, closeable }) {
        Ok(kept) => kept,
        Err((_, why)) => {
            log.wrong_unless(why == KeepFault::Contended, SoakFault::Answer);
            return false;
        }
    };
    let number = kept.number();
    log.add(Reply::Kept(number));
    let name = shared.name(place.key);
    let put = if waits {
        shared.store.put_wait(rt, lane, place.context, name, kept)
    } else {
        shared.store.put(lane, place.context, name, kept)
    };
    match put {
        Ok(stood) => {
            log.add(Reply::Put {
                place,
                number,
                closeable,
                stood,
            });
            true
        }
        Err((back, refusal)) => {
            let right = back.number() == number && may_refuse(refusal, waits);
            log.wrong_unless(right, SoakFault::Answer);
            false
        }
    }
}

/// Takes out what stands in the place. Says whether anything did.
pub(crate) fn remove<R: Wait>(
    rt: &R,
    shared: &Shared,
    lane: &mut Lane<Payload>,
    place: Place,
    waits: bool,
    log: &mut Log,
) -> bool
    requires lane { IsLaneOf shared.now.store.id lane.old }
    requires place { (place.context < 7) × (place.key < 4) }
    ensures { IsLaneOf shared.now.store.id lane.new }
{
    let name = shared.name(place.key);
    let removed = if waits {
        shared.store.remove_wait(rt, lane, place.context, name)
    } else {
        shared.store.remove(lane, place.context, name)
    };
    match removed {
        Ok(Some(number)) => {
            log.add(Reply::Removed { place, number });
            true
        }
        Ok(None) => false,
        Err(refusal) => {
            log.wrong_unless(may_refuse(refusal, waits), SoakFault::Answer);
            false
        }
    }
}

/// A factory's place among those for which one runs, and whether another one ran there beside it.
#[derive(Drop)]
struct Watch<'a> {
    running: &'a AtomicU64,
    bit: u64,
    beside: AtomicU64,
}

impl Watch<'_> {
    /// The watch of a factory for the place.
    fn of(shared: &Shared, place: Place) -> Watch<'_>
        requires { (place.context < 7) × (place.key < 4) }
    {
        Watch {
            running: &shared.running,
            bit: 1u64 << (place.context * KEYS + place.key),
            beside: AtomicU64::new(0),
        }
    }

    /// Of the factory: runs for some time, and counts whether another one runs for the place.
    fn run(&self) {
        if self.running.fetch_or(self.bit, Ordering::SeqCst) & self.bit != 0 {
            self.beside.fetch_add(1, Ordering::SeqCst);
        }
        for _ in 0..100 {
            self.running.load(Ordering::SeqCst);
        }
        self.running.fetch_and(!self.bit, Ordering::SeqCst);
    }
}

/// What a factory does.
#[derive(Clone, Copy, PartialEq, Eq)]
enum Manner {
    /// It fails.
    Fails,
    /// It gives a closeable value.
    GivesCloseable,
    /// It gives another one.
    Gives,
}

impl Manner {
    /// The manner of this number, 0 to 3, of which two fail.
    fn of(number: usize) -> Manner {
        match number {
            0 | 3 => Manner::Fails,
            1 => Manner::GivesCloseable,
            _ => Manner::Gives,
        }
    }
}

/// How a value is computed: for the place, by a form that waits or not, and by which factory, whose
/// fault has the mark.
#[derive(Clone, Copy)]
struct Asked {
    place: Place,
    waits: bool,
    manner: Manner,
    mark: Mark,
}

/// Computes a value for the place.
fn compute<R: Wait>(
    rt: &R,
    shared: &Shared,
    lane: &mut Lane<Payload>,
    place: Place,
    waits: bool,
    manner: Manner,
    log: &mut Log,
)
    requires lane { IsLaneOf shared.now.store.id lane.old }
    requires place { (place.context < 7) × (place.key < 4) }
    ensures { IsLaneOf shared.now.store.id lane.new }
{
    let watch = Watch::of(shared, place);
    let mark = Mark {
        lane: lane.number(),
        before: log.replies.len(),
    };
    let factory = |_key: &Key| -> Result<Payload, Fault> {
        watch.run();
        if manner == Manner::Fails {
            return Err(mark.fault(shared.alloc));
        }
        let closeable = manner == Manner::GivesCloseable;
        Ok(Payload { place, closeable })
    };
    let name = shared.name(place.key);
    let computed = if waits {
        shared
            .store
            .compute_wait(rt, lane, place.context, name, factory)
    } else {
        shared.store.compute(lane, place.context, name, factory)
    };
    let asked = Asked {
        place,
        waits,
        manner,
        mark,
    };
    computed_as(shared, lane, asked, computed, log);
    let beside = watch.beside.load(Ordering::SeqCst);
    log.wrong_unless(beside == 0, SoakFault::TwoFactories);
}

/// What a compute answered.
fn computed_as<F: Drop>(
    shared: &Shared,
    lane: &mut Lane<Payload>,
    asked: Asked,
    computed: Compute<Payload, F>,
    log: &mut Log,
)
    requires { IsLaneOf shared.now.store.id lane.old }
    ensures { IsLaneOf shared.now.store.id lane.new }
{
    let place = asked.place;
    match computed {
        Compute::Computed { number } => {
            log.wrong_unless(asked.manner != Manner::Fails, SoakFault::Answer);
            log.add(Reply::Computed {
                place,
                number,
                closeable: asked.manner == Manner::GivesCloseable,
            });
        }
        Compute::Found { at, number, .. } => found(shared, lane, place, at, number, log),
        Compute::FaultStands { at, number, .. } => {
            met_fault(shared, lane, place.key, at, number, log);
        }
        Compute::FaultKept { number } => kept_fault(shared, lane, asked, number, log),
        Compute::Failed(fault) => came_back(shared, asked, &fault, None, log),
        Compute::FaultUnkept { fault, cause } => came_back(shared, asked, &fault, Some(cause), log),
        Compute::Unkept { cause, .. } => {
            let may_be = cause == KeepFault::Contended && !asked.waits;
            log.wrong_unless(may_be, SoakFault::Answer);
        }
        Compute::Refused { refusal, .. } => {
            log.wrong_unless(may_refuse(refusal, asked.waits), SoakFault::Answer);
        }
    }
}

/// The fault of the factory that ran was kept under this number, where faults are kept. It is shown
/// to the lane.
fn kept_fault(shared: &Shared, lane: &mut Lane<Payload>, asked: Asked, number: u32, log: &mut Log)
    requires { IsLaneOf shared.now.store.id lane.old }
    ensures { IsLaneOf shared.now.store.id lane.new }
{
    let may_be = asked.manner == Manner::Fails && shared.store.keeps_faults();
    let shown = match shared.store.show_fault(lane, number) {
        Some(fault) => Mark::of(fault) == Some(asked.mark),
        None => false,
    };
    log.wrong_unless(may_be && shown, SoakFault::Answer);
    log.add(Reply::FaultKept {
        place: asked.place,
        number,
        mark: asked.mark,
    });
}

/// The fault of the factory that ran came back: as it has to where no faults are kept, and else for
/// this cause.
fn came_back(
    shared: &Shared,
    asked: Asked,
    fault: &Fault,
    cause: Option<KeepFault>,
    log: &mut Log,
) {
    let may_be = match cause {
        Some(cause) => {
            shared.store.keeps_faults() && cause == KeepFault::Contended && !asked.waits
        }
        None => !shared.store.keeps_faults(),
    };
    let is_own = asked.manner == Manner::Fails && Mark::of(fault) == Some(asked.mark);
    log.wrong_unless(may_be && is_own, SoakFault::Answer);
}
