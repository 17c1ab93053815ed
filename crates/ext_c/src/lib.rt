//! The store of several lanes, as a static library for C and for what calls C.
//!
//! Each call checks its arguments, makes one call of `ext_store` or `ext_closing` on the lane of
//! its slot, and answers a code. None requires anything of its caller except the rules for all
//! static libraries: what a pointer leads to is there, is nobody else's while the call runs, and
//! slots are filled only by `ext_open`, one call at a time on each.
//!
//! Values are the caller's own 64 bits, with a mark whether they are to be closed with their
//! context. So are kept faults. No call waits, and none calls back: a compute is `ext_begin` and
//! then `ext_fill`, `ext_fail` or `ext_abandon`, and a close writes out what the caller has to
//! close.
//!
//! `specs/Codes` has the codes, `specs/Answers` what each call says by them, and `specs/Slots` what
//! that means for the lane of a slot.
#![tactic(auto)]

mod along;
mod box_pointer;
mod calls;
mod closing;
mod code;
mod crossing;
mod exports;
mod fault;
mod filling;
mod handle;
mod lane;
mod limits;
mod names;
mod opening;
mod saying;
mod seat;
mod slot;
mod telling;
mod texts;
mod value;
mod written;
