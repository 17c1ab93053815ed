//! Openings at the limits, and refused ones.
ghost use Rattle.std.specs.Prelude.{◌≤◌};

use crate::held::same;
use crate::locks::asking::read;
use crate::locks::scenario::{Scenario, with_locks};
use crate::locks::sets::merges;
use ext_locks::{LockFault, LockLane, LockMode, Locks};
use std::alloc::Global;
use std::process::Abort;

/// Asserts that locks of these names and limits are not opened, and why.
fn refused(
    rt: &impl Abort,
    alloc: Global,
    names: &[&str],
    lanes: usize,
    tries: u32,
    fault: LockFault,
) {
    let told = Locks::open(alloc, names, lanes, tries).err();
    same(rt, told, Some(fault), "why locks are not opened");
}

/// Asserts that so many names are too many, and that all but the first of them are one name, which
/// stands twice.
fn refuses_many(rt: &impl Abort, alloc: Global, many: &[&str; 64]) {
    refused(rt, alloc, many, 2, 8, LockFault::TooMany);
    refused(rt, alloc, many, 0, 8, LockFault::BadLimit);
    refused(rt, alloc, &many[1..], 2, 8, LockFault::Twice(1));
}

/// Tests `Locks::open`.
#[test]
fn refused_openings(rt: HostRuntime) {
    let alloc = rt.alloc();
    let twice = ["a", "b", "c", "b", "a"];
    refused(&rt, alloc, &["a", "a"], 2, 8, LockFault::Twice(1));
    refused(&rt, alloc, &twice, 2, 8, LockFault::Twice(3));
    refused(&rt, alloc, &[], 0, 8, LockFault::BadLimit);
    refused(&rt, alloc, &[], 17, 8, LockFault::BadLimit);
    refused(&rt, alloc, &[], 2, 0, LockFault::BadLimit);
    refused(&rt, alloc, &[], 2, 65, LockFault::BadLimit);
    refuses_many(&rt, alloc, &["x"; 64]);
}

/// How many lanes the locks have that are opened for so many of at most `most`, or why they are not
/// opened.
fn lanes_within(alloc: Global, lanes: usize, most: usize) -> Result<usize, LockFault>
    requires { most ≤ 32 }
{
    let (_locks, opened) = Locks::open_within(alloc, &[], lanes, 8, most)?;
    Ok(opened.len())
}

/// Tests `Locks::open_within`.
#[test]
fn lanes_within_a_limit(rt: HostRuntime) {
    let alloc = rt.alloc();
    let bad = Err(LockFault::BadLimit);
    same(&rt, lanes_within(alloc, 4, 4), Ok(4), "4 lanes of 4");
    same(&rt, lanes_within(alloc, 5, 4), bad, "5 lanes of 4");
    same(&rt, lanes_within(alloc, 32, 32), Ok(32), "32 lanes of 32");
    same(&rt, lanes_within(alloc, 33, 32), bad, "33 lanes of 32");
    same(&rt, lanes_within(alloc, 0, 32), bad, "no lanes");
}

/// Puts `key0`, `key1`, and so on, up to 62, into the texts.
fn add_texts(rt: &impl Abort, alloc: Global, texts: &mut Vec<String>) {
    for i in 0..63 {
        let Ok(text) = format!(in alloc; "key{i}") else {
            panic!(rt; "no memory");
        };
        let Ok(()) = texts.push(text) else {
            panic!(rt; "no memory");
        };
    }
}

/// Puts the texts into the names.
fn add_names<'a>(rt: &impl Abort, texts: &'a [String], names: &mut Vec<&'a str>) {
    for text in texts {
        let Ok(()) = names.push(text.as_str()) else {
            panic!(rt; "no memory");
        };
    }
}

/// There are as many names as there can be. They are in the order of their bytes, and the global
/// lock has no name.
#[derive(Drop)]
struct MostNames;

impl<R: Abort> Scenario<R> for MostNames {
    fn play(self, rt: &R, locks: &Locks, _lanes: &mut [LockLane]) {
        assert!(rt; locks.name(0).is_none());
        let wanted = [Some((1, LockMode::Read)), Some((60, LockMode::Read))];
        merges(rt, locks, &[read("key62"), read("key0")], &wanted);
    }
}

/// Plays it with locks of these names, and with as many lanes and tries as there can be.
fn opens_widest(rt: &impl Abort, alloc: Global, texts: &[String]) {
    let mut names = Vec::new(alloc);
    add_names(rt, texts, &mut names);
    with_locks(rt, alloc, names.as_slice(), 16, 64, MostNames);
}

/// Tests `Locks::open`.
#[test]
fn opens_at_the_limits(rt: HostRuntime) {
    let mut texts = Vec::new(rt.alloc());
    add_texts(&rt, rt.alloc(), &mut texts);
    opens_widest(&rt, rt.alloc(), texts.as_slice());
}
