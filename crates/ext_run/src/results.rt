//! The results of a run of a plan.
ghost use Rattle.std.specs.Prelude.{◌≡◌, ◌≤◌, ◌<◌, false, length, IfOk, IfErr, All};
ghost use Rattle.ext_plan_reading.specs.ReadPlans.{IsRunnablePlan};
ghost use Rattle.ext_plan_reading.specs.Plans.{plan_view};
ghost use Rattle.ext_lifecycle.specs.FaultTexts.{results_view};
ghost use Rattle.ext_plan_plain.specs.PlainRun.{ArePlain};
ghost use Rattle.ext_run.specs.Reports.{IsRunAs};
ghost use Rattle.ext_run.specs.InnerOutputs.{IsPlanFault};

use crate::fault::RunFault;
use crate::options::Options;
use ext_lifecycle::{NodeResult, RunListener};
use ext_plan_parallel::{may_have_lacked, parallel_results};
use ext_plan_plain::run_plain;
use ext_plan_reading::Plan;
use std::alloc::{AllocError, Global};
use std::sync::Wait;
use std::thread::Threads;

/// A result for each node of a plan, and whether a step may have lacked memory, or on several lanes
/// anything else.
#[derive(Drop)]
pub(crate) struct PlanResults {
    pub(crate) results: Vec<NodeResult>,
    pub(crate) lacked: bool,
}

/// The results of a plan's run, plain or on several lanes as `options` asks for.
pub(crate) fn results_of<R: Threads + Wait + Sync, L: RunListener + Sync>(
    rt: &R,
    alloc: Global,
    plan: &Plan,
    options: Options,
    listener: &L,
) -> Result<PlanResults, RunFault>
    requires lanes { options.plain ≡ false → (1 ≤ options.lanes) × (options.lanes ≤ 16) }
    requires runnable { IsRunnablePlan (plan_view plan.now) }
    ensures run { IfOk result (λ ran. IsRunAs options (plan_view plan.now) (results_view ran.results.items) ran.lacked) }
    ensures in_tree { IfOk result (λ ran. All (λ r. r.node < length plan.now.nodes.items) ran.results.items) }
    ensures fault { IfErr result (IsPlanFault options (plan_view plan.now)) }
{
    if options.plain {
        return Ok(plain_results(alloc, plan, listener)?);
    }
    match parallel_results(rt, alloc, plan, options.lanes, listener) {
        Ok(results) => {
            let lacked = may_have_lacked(results.as_slice());
            Ok(PlanResults { results, lacked })
        }
        Err(fault) => Err(RunFault::Engine(fault)),
    }
}

/// The results of a plan's plain run, and whether a step lacked memory.
fn plain_results<L: RunListener>(
    alloc: Global,
    plan: &Plan,
    listener: &L,
) -> Result<PlanResults, AllocError>
    requires { IsRunnablePlan (plan_view plan.now) }
    ensures run { IfOk result (λ ran. ArePlain (plan_view plan.now) (results_view ran.results.items) ran.lacked) }
    ensures in_tree { IfOk result (λ ran. All (λ r. r.node < length plan.now.nodes.items) ran.results.items) }
{
    let run = run_plain(alloc, plan, listener)?;
    Ok(PlanResults {
        results: run.results,
        lacked: run.lacked,
    })
}
