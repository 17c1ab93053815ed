//! The lists of a node's callbacks.
ghost use Rattle.std.specs.Prelude.{◌≡◌, ◌≤◌, ◌*◌, ◌+◌, ◌++◌, IfOk, OnOk, length, vec_len};
ghost use Rattle.ext_lifecycle.specs.Callbacks.{afters_of, befores_of, callbacks, callbacks_on};

use crate::{Call, Kind};
use ext_model::ContextNo;
use std::alloc::{AllocError, Global};

/// A source of how many callbacks the nodes of a run registered.
pub trait Callbacks {
    ghost use Rattle.std.specs.Prelude.{◌≡◌, ◌≤◌, ℕ};
    ghost use Rattle.ext_lifecycle.specs.declared.call.Kind.{Kind};

    /// How many callbacks of a kind a node registered.
    ghost registered: { Self → Kind → ℕ → ℕ };

    /// How many callbacks of a kind a node registered: at most 1,048,576. Never called for `Test`.
    fn count(&self, kind: Kind, node: ContextNo) -> usize
        ensures count { result ≡ registered self.now kind node }
        ensures few { result ≤ 1048576 };
}

/// The before-callbacks of a node, in the order in which they are called. For a test these are the
/// `BeforeEach` of all contexts on the path, outer ones first; for a container its own `BeforeAll`.
/// The path begins with the node and ends with the root.
///
/// Takes memory for the list; `AllocError` comes only if that is refused. Source: JUnit 5 User
/// Guide, section "Wrapping Behavior of Callbacks"; the four kinds are an own rule.
pub fn befores_of<S: Callbacks>(
    alloc: Global,
    suite: &S,
    is_test: bool,
    node: ContextNo,
    path: &[ContextNo],
) -> Result<Vec<Call>, AllocError>
    requires { length path.now ≤ 16 }
    ensures calls { IfOk result (λ v. v.items ≡ befores_of (S.registered suite.now) is_test node path.now) }
    ensures few { IfOk result (λ v. vec_len v ≤ 16777216) }
{
    let mut calls = Vec::new(alloc);
    if is_test {
        push_along(suite, Kind::BeforeEach, path, &mut calls)?;
    } else {
        push_callbacks(suite, Kind::BeforeAll, node, &mut calls)?;
    }
    Ok(calls)
}

/// The after-callbacks of a node, in the order in which they are called: the reverse of the order
/// of registration. For a test these are the `AfterEach` of all contexts on the path, inner ones
/// first; for a container its own `AfterAll`. The path is that of `befores_of`.
///
/// Takes memory for the list; `AllocError` comes only if that is refused. Source: JUnit 5 User
/// Guide, section "Wrapping Behavior of Callbacks"; the four kinds are an own rule.
pub fn afters_of<S: Callbacks>(
    alloc: Global,
    suite: &S,
    is_test: bool,
    node: ContextNo,
    path: &[ContextNo],
) -> Result<Vec<Call>, AllocError>
    requires { length path.now ≤ 16 }
    ensures calls { IfOk result (λ v. v.items ≡ afters_of (S.registered suite.now) is_test node path.now) }
    ensures few { IfOk result (λ v. vec_len v ≤ 16777216) }
{
    let mut calls = Vec::new(alloc);
    if is_test {
        push_along(suite, Kind::AfterEach, path, &mut calls)?;
    } else {
        push_callbacks(suite, Kind::AfterAll, node, &mut calls)?;
    }
    calls.reverse();
    Ok(calls)
}

/// The before-callbacks and the after-callbacks of a node with this path, as `befores_of` and
/// `afters_of` give them.
///
/// Takes memory for the lists; `AllocError` comes only if that is refused. Source: JUnit 5 User
/// Guide, section "Wrapping Behavior of Callbacks"; the four kinds are an own rule.
pub fn calls_round<S: Callbacks>(
    alloc: Global,
    suite: &S,
    is_test: bool,
    node: ContextNo,
    path: &[ContextNo],
) -> Result<(Vec<Call>, Vec<Call>), AllocError>
    requires { length path.now ≤ 16 }
    ensures befores { IfOk result (λ calls. calls.0.items ≡ befores_of (S.registered suite.now) is_test node path.now) }
    ensures afters { IfOk result (λ calls. calls.1.items ≡ afters_of (S.registered suite.now) is_test node path.now) }
    ensures few { IfOk result (λ calls. (vec_len calls.0 ≤ 16777216) × (vec_len calls.1 ≤ 16777216)) }
{
    let befores = befores_of(alloc, suite, is_test, node, path)?;
    let afters = afters_of(alloc, suite, is_test, node, path)?;
    Ok((befores, afters))
}

/// Adds the callbacks of all contexts of the path, outer ones first.
fn push_along<S: Callbacks>(
    suite: &S,
    kind: Kind,
    path: &[ContextNo],
    calls: &mut Vec<Call>,
) -> Result<(), AllocError>
    ensures added { OnOk result (calls.new.items ≡ calls.old.items ++ callbacks_on (S.registered suite.now) kind path.now) }
    ensures few { OnOk result (vec_len calls.new ≤ vec_len calls.old + length path.now * 1048576) }
{
    for node in path.iter().rev() {
        push_callbacks(suite, kind, *node, calls)?;
    }
    Ok(())
}

/// Adds the callbacks of a kind that a node registered.
fn push_callbacks<S: Callbacks>(
    suite: &S,
    kind: Kind,
    node: ContextNo,
    calls: &mut Vec<Call>,
) -> Result<(), AllocError>
    ensures added { OnOk result (calls.new.items ≡ calls.old.items ++ callbacks (S.registered suite.now) kind node) }
    ensures few { OnOk result (vec_len calls.new ≤ vec_len calls.old + 1048576) }
{
    for index in 0..suite.count(kind, node) {
        calls.push(Call {
            kind,
            from: node,
            index,
        })?;
    }
    Ok(())
}
