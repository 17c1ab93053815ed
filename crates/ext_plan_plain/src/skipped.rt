//! The results of the nodes before any has run.
ghost use Rattle.std.specs.Prelude.{◌≡◌, IfOk};
ghost use Rattle.ext_plan.specs.Plans.{nodes_view};
ghost use Rattle.ext_lifecycle.specs.FaultTexts.{results_view};
ghost use Rattle.ext_plan_plain.specs.PlainRun.{skipped_from};

use ext_lifecycle::NodeResult;
use ext_plan::PlanNode;
use std::alloc::{AllocError, Global};

/// A result for each node before any has run, all of them skipped.
pub(crate) fn skipped(alloc: Global, nodes: &[PlanNode]) -> Result<Vec<NodeResult>, AllocError>
    ensures { IfOk result (λ v. results_view v.items ≡ skipped_from 0 (nodes_view nodes.now)) }
{
    let mut results = Vec::new(alloc);
    for (at, node) in nodes.iter().enumerate() {
        results.push(NodeResult::skipped(at, node.test.is_some()))?;
    }
    Ok(results)
}
