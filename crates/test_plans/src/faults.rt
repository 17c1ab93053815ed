//! The lines of faults that no plan tells: scripts/examples has the plans that are refused, each
//! with its line.
use crate::same::prints;
use ext_plan_reading::{PlanFault, PlanPart};
use std::test::Fail;

#[test]
fn fault_texts(rt: HostRuntime) -> Result<(), Fail> {
    let alloc = rt.alloc();
    prints(&rt, alloc, &PlanFault::NotUtf8, "plan: P1")?;
    let unknown = PlanFault::UnknownField(PlanPart::Node(2));
    prints(&rt, alloc, &unknown, "plan: P3 node 2")?;
    prints(&rt, alloc, &PlanFault::Memory, "plan: P12")?;
    Ok(())
}
