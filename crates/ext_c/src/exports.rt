//! What C calls. `bindings/c` has the header.
ghost use Rattle.std.specs.Prelude.{◌≡◌, ◌≢◌, length};
ghost use Rattle.ext_c.specs.declared.code.Code.TheVariants as code;
ghost use Rattle.ext_c.specs.Answers.{AbandonSays, BeginAlongSays, BeginSays, FailSays, FillSays, GetAlongSays, GetSays, NamesKey, PutSays, RemoveSays};
ghost use Rattle.ext_c.specs.Closing.{CloseSays};
ghost use Rattle.ext_c.specs.Limits.{store_limits};
ghost use Rattle.ext_c.specs.Opening.{LeaveSays, OpenSays};
ghost use Rattle.ext_c.specs.Slots.{ByCode, HasNoClaim, KeepsClaim, OnSlot, OnlyLearnsKeys, StaysButClosers, StaysSo};

use crate::code::Code;
use crate::filling::{are_empty, take_seats};
use crate::handle::Handle;
use crate::limits::ExtLimits;
use crate::names::tree_of;
use crate::opening::{are_limits, open_seats};
use crate::slot::ExtSlot;
use crate::value::ExtValue;
use ext_store::Limits;
use std::alloc::Global;

/// The library's version, of which the header has the same number: that of 1.2.3 would be 10203.
#[unsafe(no_mangle)]
pub extern "C" fn ext_version() -> u32
    ensures { result ≡ 100 }
{
    100
}

/// Opens a store of the contexts whose ids are the texts, with a lane for each slot. All slots must
/// be empty. The lane of the last slot closes contexts. Takes memory.
///
/// Refused, in this order, as `NotEmpty`; as `BadLimit` unless there are 1 to 16 slots, or 32 of a
/// large store, and each limit is in its range; for the first text that is none as `BadLengths` or
/// `BadText`; as `BadId` where one of them is no id; and for the ids as `TooMany`, of more than 256
/// contexts, or 65,536 of a large store, or as `BadTree`. `NoMemory` may come instead of the last
/// three, or after them. The slots are as they were then.
#[unsafe(no_mangle)]
pub extern "C" fn ext_open(
    alloc: Global,
    bytes: &[u8],
    lengths: &[u32],
    limits: &ExtLimits,
    slots: &mut [ExtSlot],
) -> u32
    ensures says { ByCode (OpenSays bytes.now lengths.now (store_limits limits.now (length slots.old)) slots.old slots.new) result }
    ensures refused { result ≢ 0 → slots.new ≡ slots.old }
{
    let limits = limits.with_lanes(slots.len());
    open(alloc, bytes, lengths, limits, slots).number()
}

fn open(alloc: Global, bytes: &[u8], lengths: &[u32], limits: Limits, slots: &mut [ExtSlot]) -> Code
    requires lanes { limits.lanes ≡ length slots.old }
    ensures says { OpenSays bytes.now lengths.now limits slots.old slots.new result }
    ensures refused { result ≢ code.Done → slots.new ≡ slots.old }
{
    if !are_empty(slots) {
        return Code::NotEmpty;
    }
    if !are_limits(limits) {
        return Code::BadLimit;
    }
    let tree = match tree_of(alloc, bytes, lengths, limits.size) {
        Ok(tree) => tree,
        Err(code) => return code,
    };
    match open_seats(alloc, tree, limits) {
        Some(seats) => {
            take_seats(slots, seats);
            Code::Done
        }
        None => Code::NoMemory,
    }
}

/// Gives the lane and its claim up, and leaves the slot empty. The store's memory is freed with its
/// last lane.
#[unsafe(no_mangle)]
pub extern "C" fn ext_leave(alloc: Global, slot: &mut ExtSlot) -> u32
    ensures says { ByCode (LeaveSays slot.old slot.new) result }
{
    leave(alloc, slot).number()
}

fn leave(alloc: Global, slot: &mut ExtSlot) -> Code
    ensures { LeaveSays slot.old slot.new result }
{
    let Some(seat) = slot.take(alloc) else {
        return Code::NoLane;
    };
    drop(seat);
    Code::Done
}

/// Finds the number of the key that the texts name: the parts of its namespace, and then its name.
/// One text alone is a name in the global namespace. May be called while the lane has a claim.
/// Takes memory for a key that is new to the lane. It places no other key, though the lane may know
/// further keys then.
#[unsafe(no_mangle)]
pub extern "C" fn ext_key(
    alloc: Global,
    slot: &mut ExtSlot,
    bytes: &[u8],
    lengths: &[u32],
    key: &mut usize,
) -> u32
    ensures says { OnSlot OnlyLearnsKeys (key.new ≡ key.old) (λ before after. NamesKey bytes.now lengths.now before after key.old key.new) slot.old slot.new result }
{
    let Some(mut seat) = slot.take(alloc) else {
        return Code::NoLane.number();
    };
    let code = seat.number_named(alloc, bytes, lengths, key);
    slot.give(seat);
    code.number()
}

/// Keeps the handle and stores it under the key in the context itself. `stood` is what it replaced,
/// with number 0 if nothing stood. Takes memory for the handle.
#[unsafe(no_mangle)]
pub extern "C" fn ext_put(
    alloc: Global,
    slot: &mut ExtSlot,
    context: usize,
    key: usize,
    handle: u64,
    closeable: bool,
    stood: &mut ExtValue,
) -> u32
    ensures says { OnSlot KeepsClaim (stood.new ≡ stood.old) (λ before after. PutSays context key (record { raw = handle; closeable = closeable }) before after stood.old stood.new) slot.old slot.new result }
{
    let Some(mut seat) = slot.take(alloc) else {
        return Code::NoLane.number();
    };
    let handle = Handle {
        raw: handle,
        closeable,
    };
    let code = seat.put(context, key, handle, stood);
    slot.give(seat);
    code.number()
}

/// Looks for the key in the context and its ancestors, the nearest first. A number that the lane
/// knows comes with its handle. It makes no step while the lane has a claim.
#[unsafe(no_mangle)]
pub extern "C" fn ext_get(
    alloc: Global,
    slot: &mut ExtSlot,
    context: usize,
    key: usize,
    found: &mut ExtValue,
) -> u32
    ensures says { OnSlot KeepsClaim (found.new ≡ found.old) (λ before after. GetSays context key before after found.old found.new) slot.old slot.new result }
{
    let Some(mut seat) = slot.take(alloc) else {
        return Code::NoLane.number();
    };
    let code = seat.get(context, key, found);
    slot.give(seat);
    code.number()
}

/// Looks as `ext_get` does, but in the contexts of the path, the first one first: 1 to 16 contexts
/// of the store, none twice. For a context that is opened during the run: it is one in reserve, and
/// its path is itself and then that of its parent. Not asked of the store as `ext_get` is, and as
/// `BadContext` if that is no path.
#[unsafe(no_mangle)]
pub extern "C" fn ext_get_along(
    alloc: Global,
    slot: &mut ExtSlot,
    path: &[usize],
    key: usize,
    found: &mut ExtValue,
) -> u32
    ensures says { OnSlot KeepsClaim (found.new ≡ found.old) (λ before after. GetAlongSays path.now key before after found.old found.new) slot.old slot.new result }
{
    let Some(mut seat) = slot.take(alloc) else {
        return Code::NoLane.number();
    };
    let code = seat.get_along(path, key, found);
    slot.give(seat);
    code.number()
}

/// Takes what stands under the key in the context itself, without closing it.
#[unsafe(no_mangle)]
pub extern "C" fn ext_remove(
    alloc: Global,
    slot: &mut ExtSlot,
    context: usize,
    key: usize,
    taken: &mut ExtValue,
) -> u32
    ensures says { OnSlot KeepsClaim (taken.new ≡ taken.old) (λ before after. RemoveSays context key before after taken.old taken.new) slot.old slot.new result }
{
    let Some(mut seat) = slot.take(alloc) else {
        return Code::NoLane.number();
    };
    let code = seat.remove(context, key, taken);
    slot.give(seat);
    code.number()
}

/// Begins a compute: where nothing is found the lane claims the place, until `ext_fill`, `ext_fail`
/// or `ext_abandon` ends the claim.
#[unsafe(no_mangle)]
pub extern "C" fn ext_begin(
    alloc: Global,
    slot: &mut ExtSlot,
    context: usize,
    key: usize,
    found: &mut ExtValue,
) -> u32
    ensures says { OnSlot StaysSo (found.new ≡ found.old) (λ before after. BeginSays context key before after found.old found.new) slot.old slot.new result }
{
    let Some(mut seat) = slot.take(alloc) else {
        return Code::NoLane.number();
    };
    let code = seat.begin(context, key, found);
    slot.give(seat);
    code.number()
}

/// Begins a compute as `ext_begin` does, but in the first context of the path, which is as for
/// `ext_get_along`.
#[unsafe(no_mangle)]
pub extern "C" fn ext_begin_along(
    alloc: Global,
    slot: &mut ExtSlot,
    path: &[usize],
    key: usize,
    found: &mut ExtValue,
) -> u32
    ensures says { OnSlot StaysSo (found.new ≡ found.old) (λ before after. BeginAlongSays path.now key before after found.old found.new) slot.old slot.new result }
{
    let Some(mut seat) = slot.take(alloc) else {
        return Code::NoLane.number();
    };
    let code = seat.begin_along(path, key, found);
    slot.give(seat);
    code.number()
}

/// Ends a compute by a value. If the value is not kept, the claim is given up; that is never since
/// other lanes were in the way, as it draws a number again then. Takes memory for the handle.
#[unsafe(no_mangle)]
pub extern "C" fn ext_fill(
    alloc: Global,
    slot: &mut ExtSlot,
    handle: u64,
    closeable: bool,
    number: &mut u32,
) -> u32
    ensures says { OnSlot HasNoClaim (number.new ≡ number.old) (λ before after. FillSays (record { raw = handle; closeable = closeable }) before after number.old number.new) slot.old slot.new result }
{
    let Some(mut seat) = slot.take(alloc) else {
        return Code::NoLane.number();
    };
    let handle = Handle {
        raw: handle,
        closeable,
    };
    let code = seat.fill(handle, number);
    slot.give(seat);
    code.number()
}

/// Ends a compute whose factory failed. If the store keeps faults, this one's handle is kept at the
/// place, as `ext_fill` keeps a value, and if that fails the claim is given up. If it keeps none,
/// the claim is given up, as `GivenUp`. Takes memory if the store keeps faults.
#[unsafe(no_mangle)]
pub extern "C" fn ext_fail(alloc: Global, slot: &mut ExtSlot, handle: u64, number: &mut u32) -> u32
    ensures says { OnSlot HasNoClaim (number.new ≡ number.old) (λ before after. FailSays handle before after number.old number.new) slot.old slot.new result }
{
    let Some(mut seat) = slot.take(alloc) else {
        return Code::NoLane.number();
    };
    let code = seat.fail(alloc, handle, number);
    slot.give(seat);
    code.number()
}

/// Ends a compute without a value: the claim is given up.
#[unsafe(no_mangle)]
pub extern "C" fn ext_abandon(alloc: Global, slot: &mut ExtSlot) -> u32
    ensures says { OnSlot HasNoClaim (Unit {0}) AbandonSays slot.old slot.new result }
{
    let Some(mut seat) = slot.take(alloc) else {
        return Code::NoLane.number();
    };
    let code = seat.abandon();
    slot.give(seat);
    code.number()
}

/// Closes the context: seals its places for keys, and writes out the closeable values that remain,
/// the latest first, for the caller to close. There must be room for as many as the store has places
/// for keys in a context.
///
/// Not asked of the store, with nothing changed, in this order as `Claiming`, `TooFewPlaces`,
/// `BadContext`, `NoCloser`, or `Closed` if it was closed before. Refused as `Busy` or `Contended`
/// while others are in the way, and as `Unjoined` where the lane did not know a value that remains:
/// it knows it then, and the close is to be asked again. `Unshown` instead if the thread does not
/// find that value. The lane keeps its closers then.
#[unsafe(no_mangle)]
pub extern "C" fn ext_close(
    alloc: Global,
    slot: &mut ExtSlot,
    context: usize,
    values: &mut [ExtValue],
    count: &mut usize,
) -> u32
    ensures says { OnSlot StaysButClosers ((count.new ≡ 0) × (values.new ≡ values.old)) (λ before after. CloseSays context before after values.old values.new count.new) slot.old slot.new result }
{
    *count = 0;
    let Some(mut seat) = slot.take(alloc) else {
        return Code::NoLane.number();
    };
    let code = seat.close(context, values, count);
    slot.give(seat);
    code.number()
}
