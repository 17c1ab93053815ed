//! The results of nodes.
ghost use Rattle.std.specs.Prelude.{◌≡◌, ◌<◌, ◌≤◌, ◌+◌, ◌++◌, ◌∷◌, [], IfOk, IfErr, All, IsOk, length, map, vec_len, vec_capacity};
ghost use Rattle.std.specs.List.{flat_map};
ghost use Rattle.ext_lifecycle.specs.Results.{as_result};
ghost use Rattle.ext_engine.specs.NodeRun.{all_skipped, with_results};
ghost use Rattle.ext_engine.specs.InnerResults.{ran_view, ran_in, rans_below};
ghost use Rattle.ext_engine.specs.NodeFailing.{IsFirstRefusal};

use crate::Suite;
use crate::node::EngineFault;
use ext_lifecycle::NodeResult;
use ext_store::StoreValue;
use std::alloc::{AllocError, Global};

/// A node that the run came to.
#[derive(Drop)]
pub(crate) struct RanNode {
    /// What is reported of it.
    pub result: NodeResult,
    /// Whether the nodes below it were run; true of a test that ran. Only proofs ask for it.
    pub went_on: bool,
}

/// A result for each of `count` nodes before any has run, in order: each is skipped. Refused if
/// there is no memory. Takes memory.
pub(crate) fn all_skipped<V: StoreValue + Drop, S: Suite<V>>(
    alloc: Global,
    suite: &S,
    count: usize,
) -> Result<Vec<NodeResult>, AllocError>
    ensures { IfOk result (λ v. map as_result v.items ≡ all_skipped (S.suite_view suite.now) count) }
{
    let mut results = Vec::new(alloc);
    for node in 0..count {
        results.push(NodeResult::skipped(node, suite.is_test(node)))?;
    }
    Ok(results)
}

/// Puts each result at the index of its node, which there is.
pub(crate) fn put_results(results: &mut Vec<NodeResult>, ran: Vec<RanNode>)
    requires { All (λ r. r.result.node < vec_len results.old) ran.items }
    ensures { map as_result results.new.items ≡ with_results (map as_result results.old.items) (map ran_view ran.items) }
{
    for RanNode { result, went_on: _ } in ran {
        let node = result.node;
        results[node] = result;
    }
}

/// What ran below a container: what each of its children gave.
#[derive(Drop)]
pub(crate) struct Below {
    /// Those that ran beside one another, in order.
    pub beside: Vec<Result<Vec<RanNode>, EngineFault>>,
    /// The others, in order.
    pub in_turn: Vec<Result<Vec<RanNode>, EngineFault>>,
}

/// The first refusal among what children gave, in their order, if there is one.
pub(crate) fn first_refusal(
    outcomes: &[Result<Vec<RanNode>, EngineFault>],
) -> Result<(), EngineFault>
    ensures all { IfOk result (λ _. All IsOk outcomes.now) }
    ensures first { IfErr result (IsFirstRefusal outcomes.now) }
{
    for outcome in outcomes {
        if let Err(fault) = outcome {
            return Err(*fault);
        }
    }
    Ok(())
}

/// The container's own result, and behind it those of what ran below it. The list is empty, and has
/// room for all of them.
pub(crate) fn gathered(mut ran: Vec<RanNode>, own: RanNode, below: Below) -> Vec<RanNode>
    requires empty { ran.items ≡ [] }
    requires room { length (rans_below below) + 1 ≤ vec_capacity ran }
    ensures { map ran_view result.items ≡ ran_view own ∷ rans_below below }
{
    let Below { beside, in_turn } = below;
    ran.push_reserved(own);
    append_all(&mut ran, beside);
    append_all(&mut ran, in_turn);
    ran
}

/// Appends what ran of the children, in their order. There is room for all of it.
fn append_all(ran: &mut Vec<RanNode>, outcomes: Vec<Result<Vec<RanNode>, EngineFault>>)
    requires room { vec_len ran.old + length (flat_map ran_in outcomes.items) ≤ vec_capacity ran.old }
    ensures ran { map ran_view ran.new.items ≡ map ran_view ran.old.items ++ flat_map ran_in outcomes.items }
    ensures capacity { vec_capacity ran.old ≤ vec_capacity ran.new }
{
    for outcome in outcomes {
        let Ok(mut below) = outcome else { continue };
        let Ok(()) = ran.append(&mut below) else {
            unreachable!()
        };
    }
}
