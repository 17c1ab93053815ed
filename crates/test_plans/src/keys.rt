//! The worked examples of namespaces, keys and their numbers.
ghost use Rattle.std.specs.Prelude.{◌≤◌};

use crate::same::same;
use ext_tree::{Directory, Key, Namespace, TreeFault};
use std::alloc::Global;
use std::process::Abort;
use std::test::Fail;

/// The namespace that is created of the first parts, the global one where there are none, with the
/// further ones appended.
fn namespace(alloc: Global, parts: &[&str], more: &[&str]) -> Result<Namespace, TreeFault> {
    if parts.is_empty() {
        return Namespace::global().append(alloc, more);
    }
    Namespace::create(alloc, parts)?.append(alloc, more)
}

/// Whether the namespace is the one that is created of the first parts with the further ones
/// appended.
fn is_namespace(
    alloc: Global,
    namespace_of_two: &Namespace,
    parts: &[&str],
    more: &[&str],
) -> Result<bool, TreeFault> {
    let other = namespace(alloc, parts, more)?;
    Ok(*namespace_of_two == other)
}

/// A namespace equals one of the same parts in order, whether they were given or appended, but none
/// in another order, nor the global one with the same appended.
/// Tests `Namespace::create`, `Namespace::append`, `StepKeys::call`, `StepCall::at` and
/// `run_plain`.
#[test]
fn namespaces_differ_by_order(rt: HostRuntime) -> Result<(), Fail> {
    let alloc = rt.alloc();
    let appended = namespace(alloc, &["a"], &["b"])?;
    let both = is_namespace(alloc, &appended, &["a", "b"], &[])?;
    let turned = is_namespace(alloc, &appended, &["b", "a"], &[])?;
    let global = is_namespace(alloc, &appended, &[], &["a", "b"])?;
    let answers = (both, turned, global);
    same(&rt, answers, (true, false, false), "a namespace of a and b");
    let empty = is_namespace(alloc, &Namespace::global(), &[], &[])?;
    same(&rt, empty, true, "the global one");
    Ok(())
}

/// What declaring the global key of this name answers, as one of so many.
fn declared(
    alloc: Global,
    directory: &mut Directory,
    most: usize,
    name: &str,
) -> Result<Result<usize, TreeFault>, Fail>
    requires { most ≤ 1024 }
{
    let key = Key::new(alloc, Namespace::global(), name)?;
    Ok(directory.declare(key, most))
}

/// Asserts that declaring the global keys of these names, in order, answers this in a directory of
/// so many.
fn declares(
    rt: &impl Abort,
    alloc: Global,
    directory: &mut Directory,
    most: usize,
    answers: &[(&str, Result<usize, TreeFault>)],
) -> Result<(), Fail>
    requires { most ≤ 1024 }
{
    for (name, wanted) in answers {
        let answer = declared(alloc, directory, most, name)?;
        same(rt, answer, *wanted, name);
    }
    Ok(())
}

/// The number of the key of this namespace and name.
fn number_of(
    alloc: Global,
    directory: &Directory,
    namespace: Namespace,
    name: &str,
) -> Result<Option<usize>, Fail> {
    let key = Key::new(alloc, namespace, name)?;
    Ok(directory.number_of(&key))
}

/// Asserts what is told of a directory that has the global keys a and b.
fn tells_of_two(rt: &impl Abort, alloc: Global, directory: &Directory) -> Result<(), Fail> {
    let created = Namespace::create(alloc, &["n"])?;
    let other = number_of(alloc, directory, created, "a")?;
    same(rt, other, None, "a key of another namespace");
    let known = number_of(alloc, directory, Namespace::global(), "b")?;
    same(rt, known, Some(1), "the second key");
    assert!(rt; directory.len() == 2);
    same(rt, directory.cell(3, 1), 7, "the cell of context 3, key 1");
    Ok(())
}

/// Declares two keys, one of them twice, in a directory without keys.
fn declares_two(rt: &impl Abort, alloc: Global, directory: &mut Directory) -> Result<(), Fail> {
    same(rt, directory.is_empty(), true, "a directory without keys");
    let answers = [("a", Ok(0)), ("b", Ok(1)), ("a", Ok(0))];
    declares(rt, alloc, directory, 64, &answers)?;
    tells_of_two(rt, alloc, directory)
}

/// Two keys are declared, one of them twice: each has one number, and a key of another namespace
/// has none.
/// Tests `Key::new`, `Directory::declare` and `Directory::number_of`.
#[test]
fn keys_are_declared_once(rt: HostRuntime) -> Result<(), Fail> {
    let mut directory = Directory::new(rt.alloc());
    declares_two(&rt, rt.alloc(), &mut directory)
}

/// Names, and what declaring them in order answers in a directory that takes three keys.
const OF_THREE: [(&str, Result<usize, TreeFault>); 6] = [
    ("a", Ok(0)),
    ("b", Ok(1)),
    ("c", Ok(2)),
    ("d", Err(TreeFault::TooMany)),
    ("a", Ok(0)),
    ("c", Ok(2)),
];

/// A directory that takes three keys refuses a fourth as `TooMany`, and still answers the numbers
/// of the three.
/// Tests `Directory::declare`.
#[test]
fn keys_are_as_many_as_allowed(rt: HostRuntime) -> Result<(), Fail> {
    let mut directory = Directory::new(rt.alloc());
    declares(&rt, rt.alloc(), &mut directory, 3, &OF_THREE)
}

/// Asserts that the keys `key0` to `key63` have the numbers 0 to 63.
fn declares_64(rt: &impl Abort, alloc: Global, directory: &mut Directory) -> Result<(), Fail> {
    for i in 0..64 {
        let name = format!(in alloc; "key{i}")?;
        let answer = declared(alloc, directory, 64, name.as_str())?;
        same(rt, answer, Ok(i), name.as_str());
    }
    Ok(())
}

/// Declares 64 keys, and then one more.
fn declares_one_too_many(
    rt: &impl Abort,
    alloc: Global,
    directory: &mut Directory,
) -> Result<(), Fail> {
    declares_64(rt, alloc, directory)?;
    let answers = [("key64", Err(TreeFault::TooMany)), ("key63", Ok(63))];
    declares(rt, alloc, directory, 64, &answers)?;
    same(rt, directory.len(), 64, "the keys");
    Ok(())
}

/// A directory that takes 64 keys refuses a further one as `TooMany`, and still answers the last
/// number.
/// Tests `Directory::declare` and `Directory::number_of`.
#[test]
fn keys_are_64_at_most(rt: HostRuntime) -> Result<(), Fail> {
    let mut directory = Directory::new(rt.alloc());
    declares_one_too_many(&rt, rt.alloc(), &mut directory)
}
